//! What a socket says of itself.

use crate::driven::Driven;
use crate::emitted::show_message;
use crate::output::Output;
use crate::payload::{half_at, number_at, show_hex};
use crate::side::Side;
use sctp_serial::{SocketTime, StreamId};

/// The greatest number where the moment never comes.
fn milliseconds_of(moment: SocketTime) -> u64 {
    u64::try_from(moment.as_nanos() / 1_000_000).unwrap_or(u64::MAX)
}

/// Its state and own tag; how many messages are ready, and whether it has nothing queued and keeps no item.
fn show_state<S: Driven>(side: &Side<S>, output: &mut Output) {
    let (name, shown) = (side.name, side.socket.shown());
    let (state, count) = (side.socket.state(), side.socket.messages_ready_count());
    writeln!(
        output,
        "{name} {state:?} tag {} ready {count} rests {}",
        shown.own_tag, shown.rests
    );
}

/// The moment to which its time was advanced, and the one at which it has something to do, in milliseconds.
fn show_moments<S: Driven>(side: &Side<S>, output: &mut Output) {
    let clock = milliseconds_of(side.socket.shown().clock);
    let timeout = milliseconds_of(side.socket.poll_timeout());
    writeln!(output, "{} clock {clock} timeout {timeout}", side.name);
}

/// `S`: its priority, the threshold and the buffered amount.
fn show_stream<S: Driven>(side: &Side<S>, id: u16, output: &mut Output) {
    let priority = side.socket.get_stream_priority(StreamId(id));
    let threshold = side.socket.buffered_amount_low_threshold(StreamId(id));
    let amount = side.socket.buffered_amount(StreamId(id));
    writeln!(
        output,
        "{} stream {id} priority {priority} threshold {threshold} amount {amount}",
        side.name
    );
}

/// `HEX`: whether these bytes would be refused.
pub fn show_judgement<S: Driven>(side: &Side<S>, bytes: &[u8], output: &mut Output) {
    let answer = side.socket.would_refuse(bytes);
    writeln!(output, "{} refuses: {answer:?}", side.name);
}

/// The packet of this number, from 0 on; an empty one where there is none.
fn packet_at(packets: &[Vec<u8>], number: u64) -> &[u8] {
    match packets.get(number as usize) {
        Some(bytes) => bytes.as_slice(),
        None => &[],
    }
}

/// `K`: this packet.
fn show_packet<S>(side: &Side<S>, number: u64, output: &mut Output) {
    write!(output, "{} bytes {number} ", side.name);
    show_hex(packet_at(&side.packets, number), output);
    writeln!(output, "");
}

/// `K`: the type of the first chunk of this packet.
fn show_type<S>(side: &Side<S>, number: u64, output: &mut Output) {
    let kind = packet_at(&side.packets, number).get(12).copied();
    writeln!(output, "{} type {number} {kind:?}", side.name);
}

/// Prints what is asked in one word. Answers whether it was understood.
pub fn ask<S: Driven>(side: &Side<S>, verb: &str, output: &mut Output) -> bool {
    match verb {
        "state" => show_state(side, output),
        "clock" => show_moments(side, output),
        "association" => writeln!(
            output,
            "{} {:?}",
            side.name,
            side.socket.shown().association
        ),
        "metrics" => writeln!(output, "{} {:?}", side.name, side.socket.get_metrics()),
        "ready" => show_message(side.name, "ready", side.socket.first_ready(), output),
        _ => return false,
    }
    true
}

/// Prints what is asked with numbers. Answers whether it was understood.
pub fn ask_with<S: Driven>(side: &Side<S>, verb: &str, rest: &[&str], output: &mut Output) -> bool {
    match verb {
        "stream" => show_stream(side, half_at(rest, 0), output),
        "show" => show_packet(side, number_at(rest, 0), output),
        "type" => show_type(side, number_at(rest, 0), output),
        _ => return false,
    }
    true
}
