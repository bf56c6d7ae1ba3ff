//! Data channels: reads and writes what they say to each other, and those of one end, call by call.
//!
//! A line that is no command is answered by `?` and itself. HEX is bytes as hex digits.
//!
//! | command | answers |
//! |---|---|
//! | `message HEX` | what the message says, and the bytes that it is written as; or why it is refused |
//! | `label SIZE` | whether an OPEN with a label of so many bytes can be written, and how long it is then |
//! | `ppid NUMBER` | what a payload under this PPID is |
//! | `text HEX`, `binary HEX` | the PPID and the payload of a message of this kind |
//! | `client COUNT LIMIT`, `server COUNT LIMIT` | an end without channels that has so many streams, and takes messages of so many bytes |
//! | `narrow LIMIT KEPT` | a client of eight streams that takes messages of LIMIT bytes, and keeps at most KEPT of labels, protocols and parts |
//! | `streams COUNT` | it has so many from now on |
//! | `open`, `negotiate ID`, `close ID` | calls of its owner; the stream that was opened |
//! | `got ID PPID HEX`, `reset ID`, `performed ID`, `denied ID`, `buffered ID SIZE`, `end` | what the socket hands out: a message, a reset of the incoming stream, what became of one of the outgoing stream; the bytes that wait in it; the end of the association |
//! | `begin` | the association stands, with these streams |
//! | `show ID`, `list` | a channel; the streams that have one |
//! | `socket STATE ROOM SIZE` | the peer opens a channel over a socket that has room for so many messages of at most so many bytes: what the owner is told until nothing more is, again once a packet has gone out and made room for one more, and how many messages the socket was offered |
//! | `reopen COUNT RESETS` | over a socket without room, behind a channel on stream 1, the peer opens so many on stream 3, one after the other, and resets so many of them: what the owner is told, again once a packet has gone out and made room for all, and how many messages the socket was offered |

mod calls;
mod messages;
mod refusing;

use crate::answer::{Answer, Subject, run_commands};
use crate::output::Output;
use crate::words::{Line, numbers_of};
use sctp_channels::Channels;

/// More is not printed of what one command asks for.
const MANY: u32 = 100_000;

/// Answers each line, at an end that begins without channels.
pub fn run(script: &str, output: &mut Output) {
    let channels: Channels = Channels::new(output.alloc, true, 65535, 65536, 65536);
    run_commands(channels, script, output);
}

impl Subject for Channels {
    /// What is to be done follows.
    fn obey(&mut self, line: &Line<'_>, output: &mut Output) -> Answer {
        let answer = answer(self, line, output);
        for _ in 0..MANY {
            match self.next_output() {
                Some(next) => output.debug_line(&next),
                None => break,
            }
        }
        answer
    }
}

fn answer(channels: &mut Channels, line: &Line<'_>, output: &mut Output) -> Answer {
    match line.name {
        "open" | "end" | "begin" | "list" => calls::call(channels, line.name, output),
        "got" => calls::got(channels, line, output),
        "message" | "text" | "binary" => messages::answer(line, output),
        "socket" => refusing::meet(line, output),
        "reopen" => refusing::reopen(line, output),
        _ => match numbers_of(line.rest, output) {
            Some(numbers) if !numbers.is_empty() => answer_numbers(channels, line, output),
            _ => Answer::Unknown,
        },
    }
}

fn answer_numbers(channels: &mut Channels, line: &Line<'_>, output: &mut Output) -> Answer {
    match line.name {
        "label" => messages::label(line.first.word, output),
        "ppid" => messages::payload(line.first.word, output),
        _ => calls::change(channels, line, output),
    }
}
