//! The channels of one end, call by call.

use crate::answer::{Answer, done};
use crate::output::Output;
use crate::words::{Line, bytes_of, cut};
use sctp_channels::{Channels, DataChannelOpen, Reliability};
use sctp_serial::{Message, PpId, StreamId};
use std::alloc::Global;
use std::mem;

/// A client and a server of rows keep as many labels, protocols and parts as come.
const MANY: usize = 100_000;

fn description(alloc: Global) -> DataChannelOpen {
    DataChannelOpen {
        unordered: true,
        reliability: Reliability::Reliable,
        priority: 256,
        label: String::new(alloc),
        protocol: String::new(alloc),
    }
}

/// A call over numbers.
pub fn change(channels: &mut Channels, line: &Line<'_>, output: &mut Output) -> Answer {
    let (alloc, id, size) = (output.alloc, StreamId(line.first.half), line.second.size);
    match line.name {
        "client" | "server" => {
            let is_client = line.name == "client";
            drop(mem::replace(channels, Channels::new(alloc, is_client, id.0, size, MANY)));
        }
        "narrow" => drop(mem::replace(
            channels,
            Channels::new(alloc, true, 8, line.first.size, size),
        )),
        "close" => channels.close(id),
        "streams" => channels.set_stream_count(id.0),
        "show" => return show(channels, id, output),
        "negotiate" => return done(channels.negotiate(id, description(alloc))),
        "buffered" => return done(channels.drain(id, size)),
        "performed" => return done(channels.on_reset_performed(id)),
        "denied" => return done(channels.on_reset_denied(id)),
        "reset" => return done(channels.on_incoming_reset(id)),
        _ => return Answer::Unknown,
    }
    Answer::Done
}

fn show(channels: &Channels, id: StreamId, output: &mut Output) -> Answer {
    match channels.get(id) {
        Some(channel) => {
            write!(output, "unordered {}", channel.goes_unordered());
            output.debug_text(", ", &channel.lifecycle());
            output.debug_text(", ", &channel.statistics())
        }
        None => Answer::Nothing,
    }
}

/// A call without numbers.
pub fn call(channels: &mut Channels, name: &str, output: &mut Output) -> Answer {
    match name {
        "open" => match channels.free_stream() {
            Some(id) => {
                output.note(channels.open(id, description(output.alloc)));
                writeln!(output, "stream {id}");
                Answer::Done
            }
            None => Answer::Nothing,
        },
        "end" => done(channels.end()),
        "begin" => done(channels.end_all_missing()),
        _ => {
            let ids = output.made(channels.streams());
            output.debug_line(&ids);
            Answer::Done
        }
    }
}

/// The words are a stream, a PPID and bytes.
pub fn got(channels: &mut Channels, line: &Line<'_>, output: &mut Output) -> Answer {
    let (first, rest) = cut(line.rest, ' ');
    let (second, digits) = cut(rest, ' ');
    let (Ok(id), Ok(ppid)) = (first.parse::<u16>(), second.parse::<u32>()) else {
        return Answer::Unknown;
    };
    match bytes_of(digits, output) {
        Some(bytes) => done(channels.on_message(Message::new(StreamId(id), PpId(ppid), bytes))),
        None => Answer::Unknown,
    }
}
