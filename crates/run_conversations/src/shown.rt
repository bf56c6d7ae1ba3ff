//! What an entry of a log shows, whatever was drawn: associations, the texts of errors, a record that was handed over, calls but for
//! their answers, bytes from elsewhere, the moment asked for, and why a message was given up aren't shown.

use sctp_serial::{Message, SocketTime};
use sctp_state::SocketEvent;
use sctp_world::{Answer, End, Entry};
use std::alloc::{AllocError, Global};

fn milliseconds(now: SocketTime) -> u128 {
    now.as_nanos() / 1_000_000
}

fn message_text(alloc: Global, message: &Message) -> Result<String, AllocError> {
    let stream = message.stream_id;
    let ppid = message.ppid;
    let payload = hex::encode(alloc, &message.payload)?;
    format!(in alloc; "{stream} {ppid} {payload}")
}

fn answer_text(alloc: Global, answer: &Answer) -> Result<String, AllocError> {
    match answer {
        Answer::HandedOver(_) | Answer::Done => format!(in alloc; "done"),
        Answer::Sent(None) => format!(in alloc; "sent"),
        Answer::Received(Some(message)) => message_text(alloc, message),
        Answer::Received(None) => format!(in alloc; "none"),
        other => format!(in alloc; "{other:?}"),
    }
}

fn event_text(alloc: Global, event: &SocketEvent) -> Result<String, AllocError> {
    match event {
        SocketEvent::OnError(kind, _) => format!(in alloc; "OnError {kind:?}"),
        SocketEvent::OnAborted(kind, _) => format!(in alloc; "OnAborted {kind:?}"),
        other => format!(in alloc; "{other:?}"),
    }
}

/// The line that an entry shows; `None` for one of an association.
pub fn line_of(alloc: Global, entry: &Entry) -> Result<Option<String>, AllocError> {
    Ok(match entry {
        Entry::Association(_, _) => None,
        Entry::Call(end, now, _, answer) => {
            let answer = answer_text(alloc, answer)?;
            Some(format!(in alloc; "{end} {} call: {answer}", milliseconds(*now))?)
        }
        Entry::Give(end, now, number) => {
            Some(format!(in alloc; "{end} {} given {number}", milliseconds(*now))?)
        }
        Entry::Foreign(end, now, _) => {
            Some(format!(in alloc; "{end} {} foreign", milliseconds(*now))?)
        }
        Entry::Time(end, now, _) => Some(format!(in alloc; "{end} {} time", milliseconds(*now))?),
        Entry::Packet(end, number) => Some(format!(in alloc; "{end} packet {number}")?),
        Entry::Event(end, event) => {
            let event = event_text(alloc, event)?;
            Some(format!(in alloc; "{end} event {event}")?)
        }
        Entry::GivenUp(end, record) => Some(format!(in alloc; "{end} given up {}", record.number)?),
        Entry::Ready(end, message) => Some(ready_line(alloc, *end, message)?),
    })
}

/// The line of a message that became ready.
pub fn ready_line(alloc: Global, end: End, message: &Message) -> Result<String, AllocError> {
    let text = message_text(alloc, message)?;
    format!(in alloc; "{end} ready {text}")
}
