//! What a socket emits, and what it answers, is printed.

use crate::driven::Driven;
use crate::output::Output;
use crate::payload::show_payload;
use crate::side::Side;
use sctp_serial::{Message, StreamId};
use sctp_state::SocketEvent;
use std::fmt::Debug;

/// More events are not looked for at once.
const MANY: u32 = 10_000;

/// Keeps a packet, and prints its number and length unless `is_quiet`.
fn keep_packet(
    name: &str,
    packets: &mut Vec<Vec<u8>>,
    bytes: Vec<u8>,
    is_quiet: bool,
    output: &mut Output,
) {
    if !is_quiet {
        let (number, size) = (packets.len(), bytes.len());
        writeln!(output, "{name} packet {number} {size}");
    }
    output.note(packets.push(bytes));
}

/// Whether each stream is the one behind the one before.
fn is_row(first: u16, streams: &[StreamId]) -> bool {
    let mut next = first;
    for stream in streams {
        if stream.0 != next {
            return false;
        }
        next = next.wrapping_add(1);
    }
    true
}

/// The numbers of streams, those of a row of streams as its first and last one.
fn show_streams(name: &str, what: &str, streams: &[StreamId], output: &mut Output) {
    match (streams.first(), streams.last()) {
        (Some(first), Some(last)) if is_row(first.0, streams) => {
            writeln!(output, "{name} {what} {first}-{last}");
        }
        _ => writeln!(output, "{name} {what} {streams:?}"),
    }
}

fn show_event(name: &str, event: &SocketEvent, output: &mut Output) {
    match event {
        SocketEvent::OnStreamsResetPerformed(streams) => {
            show_streams(name, "OnStreamsResetPerformed", streams, output);
        }
        SocketEvent::OnIncomingStreamReset(streams) => {
            show_streams(name, "OnIncomingStreamReset", streams, output);
        }
        event => writeln!(output, "{name} {event:?}"),
    }
}

fn take_event(
    name: &str,
    packets: &mut Vec<Vec<u8>>,
    event: SocketEvent,
    is_quiet: bool,
    output: &mut Output,
) {
    match event {
        SocketEvent::SendPacket(bytes) => keep_packet(name, packets, bytes, is_quiet, output),
        event => {
            show_event(name, &event, output);
            drop(event);
        }
    }
}

fn take_events<S: Driven>(side: &mut Side<S>, is_quiet: bool, output: &mut Output) {
    for _ in 0..MANY {
        match side.socket.poll_event() {
            Some(event) => take_event(side.name, &mut side.packets, event, is_quiet, output),
            None => break,
        }
    }
}

fn take_given_up<S: Driven>(side: &mut Side<S>, output: &mut Output) {
    for _ in 0..MANY {
        match side.socket.next_record() {
            Some(record) => writeln!(
                output,
                "{} given-up {} {:?}",
                side.name, record.number, record.cause
            ),
            None => break,
        }
    }
}

/// What a socket has emitted since it was looked at last. Packets are kept, and not printed where `is_quiet`.
pub fn take_emitted<S: Driven>(side: &mut Side<S>, is_quiet: bool, output: &mut Output) {
    take_events(side, is_quiet, output);
    take_given_up(side, output);
}

/// Prints why a call was refused.
pub fn show_refusal<E: Debug + Drop>(name: &str, answer: Result<(), E>, output: &mut Output) {
    if let Err(refusal) = answer {
        writeln!(output, "{name} refused {refusal:?}");
    }
}

pub fn show_message(name: &str, what: &str, message: Option<&Message>, output: &mut Output) {
    match message {
        Some(message) => {
            let (stream, ppid) = (message.stream_id, message.ppid);
            write!(output, "{name} {what} {stream} {ppid} ");
            show_payload(&message.payload, output);
            writeln!(output, "");
        }
        None => writeln!(output, "{name} {what} none"),
    }
}
