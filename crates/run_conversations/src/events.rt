//! Events, as lines say them: those of [`parse_command`], and three beside: `time MS X` of one end, `hand-over X`, and `send-many X` with triples of a stream, a protocol and
//! hex digits.

use sctp_serial::{Message, PpId, SocketTime, StreamId};
use sctp_state::SendOptions;
use sctp_world::{Call, Command, End, Event, parse_command};
use std::alloc::Global;
use std::time::Duration;

/// The number at this place; 0 where there is none.
pub fn number_at(words: &[&str], place: usize) -> u64 {
    match words.get(place) {
        Some(word) => word.parse::<u64>().unwrap_or(0),
        None => 0,
    }
}

/// `b`, or else a.
pub fn end_at(words: &[&str], place: usize) -> End {
    match words.get(place) {
        Some(word) if *word == "b" => End::B,
        _ => End::A,
    }
}

/// The message of the words from this place on.
fn message_at(alloc: Global, words: &[&str], place: usize) -> anyhow::Result<Message> {
    let stream = u16::try_from(number_at(words, place)).unwrap_or(u16::MAX);
    let ppid = u32::try_from(number_at(words, place.saturating_add(1))).unwrap_or(u32::MAX);
    let payload = match words.get(place.saturating_add(2)) {
        Some(digits) => hex::decode(alloc, digits)?,
        None => Vec::new(alloc),
    };
    Ok(Message::new(StreamId(stream), PpId(ppid), payload))
}

fn send_many(alloc: Global, end: End, words: &[&str]) -> anyhow::Result<Event> {
    let mut messages = Vec::new(alloc);
    for place in (2..words.len()).step_by(3) {
        messages.push(message_at(alloc, words, place)?)?;
    }
    Ok(Event::Call(end, Call::SendMany(messages, SendOptions::default())))
}

fn moment(milliseconds: u64) -> SocketTime {
    SocketTime::zero() + Duration::from_millis(milliseconds)
}

/// One of the three events that no command spells.
fn event_beside(alloc: Global, words: &[&str]) -> anyhow::Result<Option<Event>> {
    match words.first() {
        Some(&"time") => Ok(Some(Event::Time(end_at(words, 2), moment(number_at(words, 1))))),
        Some(&"hand-over") => Ok(Some(Event::Call(end_at(words, 1), Call::Handover))),
        Some(&"send-many") => Ok(Some(send_many(alloc, end_at(words, 1), words)?)),
        _ => Ok(None),
    }
}

/// The event that a line of these words says, if it says one.
pub fn event_of(alloc: Global, line: &str, words: &[&str]) -> anyhow::Result<Option<Event>> {
    match parse_command(alloc, line.as_bytes())? {
        Some(Command::Event(event)) => Ok(Some(event)),
        _ => event_beside(alloc, words),
    }
}

/// Half seconds since the beginning.
pub fn half_seconds(count: u64) -> SocketTime {
    moment(count.saturating_mul(500))
}
