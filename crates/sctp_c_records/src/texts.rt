//! Texts of numbers, each with a zero byte at its end.

ghost use Rattle.sctp_c_records.specs.Texts.{IsEnded};

use crate::layout::place_of;

/// What a call answers.
fn answer_text(number: u32) -> &'static str
    ensures { IsEnded result.now }
{
    match number {
        0 => "done\0",
        1 => "out of memory\0",
        2 => "socket has failed\0",
        3 => "no socket\0",
        4 => "the handle holds a socket\0",
        5 => "options are not valid\0",
        6 => "no such stream\0",
        7 => "argument is not valid\0",
        8 => "nothing there\0",
        9 => "buffer is too short\0",
        10 => "message payload cannot be empty\0",
        11 => "message exceeds the configured size\0",
        12 => "socket is shutting down\0",
        13 => "send queue is full\0",
        14 => "socket is not connected\0",
        15 => "peer does not support stream resetting\0",
        16 => "socket is not in a ready state for handover\0",
        17 => "too little memory to begin with\0",
        18 => "some messages were not accepted\0",
        19 => "socket is not closed\0",
        20 => "handover state is not valid\0",
        21 => "size of a struct is not known\0",
        22 => "bytes are no packet\0",
        23 => "the socket has no channels\0",
        24 => "the socket has channels\0",
        25 => "no such channel\0",
        26 => "channel is being closed\0",
        27 => "stream is in use\0",
        28 => "no stream is free\0",
        29 => "label or protocol is too long\0",
        30 => "text is not UTF-8\0",
        31 => "socket takes no message\0",
        _ => "unknown answer\0",
    }
}

/// What an event is.
fn event_text(number: u32) -> &'static str
    ensures { IsEnded result.now }
{
    match number {
        0 => "packet to be sent\0",
        1 => "connected\0",
        2 => "closed\0",
        3 => "connection restarted\0",
        4 => "aborted\0",
        5 => "error\0",
        6 => "buffered amount low\0",
        7 => "total buffered amount low\0",
        8 => "streams reset failed\0",
        9 => "streams reset performed\0",
        10 => "incoming stream reset\0",
        11 => "message fully sent\0",
        12 => "message maybe expired\0",
        13 => "message expired\0",
        14 => "message delivered\0",
        15 => "message lifecycle end\0",
        16 => "channel opened\0",
        17 => "text on a channel\0",
        18 => "bytes on a channel\0",
        19 => "channel closed\0",
        20 => "refused on a channel\0",
        _ => "unknown event\0",
    }
}

/// The kind of the error of an event.
fn error_text(number: u32) -> &'static str
    ensures { IsEnded result.now }
{
    match number {
        0 => "no error\0",
        1 => "too many retries\0",
        2 => "not connected\0",
        3 => "parse failed\0",
        4 => "wrong sequence\0",
        5 => "peer reported\0",
        6 => "protocol violation\0",
        7 => "resource exhaustion\0",
        8 => "unsupported operation\0",
        _ => "unknown error\0",
    }
}

/// The state of a socket.
fn state_text(number: u32) -> &'static str
    ensures { IsEnded result.now }
{
    match number {
        0 => "closed\0",
        1 => "connecting\0",
        2 => "connected\0",
        3 => "shutting down\0",
        _ => "unknown state\0",
    }
}

/// The option that is out of its bounds, by its place.
fn option_text(place: u32) -> &'static str
    ensures { IsEnded result.now }
{
    match place {
        18 => "checksum\0",
        20 => "mtu\0",
        48 => "cwnd_mtus_initial\0",
        52 => "cwnd_mtus_min\0",
        56 => "avoid_fragmentation_cwnd_mtus\0",
        60 => "immediate_sack_under_cwnd_mtus\0",
        80 => "flags\0",
        96 => "rto_initial\0",
        104 => "rto_max\0",
        112 => "rto_min\0",
        120 => "t1_init_timeout\0",
        128 => "t1_cookie_timeout\0",
        160 => "delayed_ack_max_timeout\0",
        _ => "no option\0",
    }
}

/// Why something that came on a channel was not taken.
fn refusal_text(number: u32) -> &'static str
    ensures { IsEnded result.now }
{
    match number {
        1 => "no valid message of the opening\0",
        2 => "stream is of the other parity\0",
        3 => "no such stream\0",
        4 => "stream is in use\0",
        5 => "no channel on the stream\0",
        6 => "payload protocol is not known\0",
        7 => "message is too long\0",
        8 => "no room for the opening's texts\0",
        _ => "unknown refusal\0",
    }
}

/// The text of a number: of an answer (0), the kind of an event (1), the kind of an error (2), a state (3), the place of an
/// option that is out of its bounds (4), or a refusal on a channel (5).
pub fn text_of(what: u32, number: u32) -> &'static str
    ensures { IsEnded result.now }
{
    match what {
        0 => answer_text(number),
        1 => event_text(number),
        2 => error_text(number),
        3 => state_text(number),
        4 => option_text(number),
        5 => refusal_text(number),
        _ => "unknown\0",
    }
}

/// Where the text of a number begins.
pub fn place_of_text(what: u32, number: u32) -> *const u8 {
    place_of(text_of(what, number))
}
