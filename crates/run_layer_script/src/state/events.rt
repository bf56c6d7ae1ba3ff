//! `events`: what a socket emits, and the records of messages given up.

use crate::answer::{Answer, Subject, done};
use crate::output::Output;
use crate::words::{Line, bytes_of};
use sctp_serial::{LifecycleId, OutgoingMessageId, StreamId};
use sctp_state::{ErrorKind, EventMark, EventSink, Events, GivenUp, GivenUpCause, SocketEvent};
use std::alloc::Global;

/// What waits, and the last mark.
#[derive(Drop)]
pub struct Marked {
    events: Events,
    mark: EventMark,
}

impl Marked {
    pub fn new(alloc: Global) -> Marked {
        let events = Events::new(alloc);
        let mark = events.mark();
        Marked { events, mark }
    }
}

impl Subject for Marked {
    /// `mark`; `roll-back`: to the mark; `waiting`; `next`; `next-given-up`; and what is emitted.
    fn obey(&mut self, line: &Line<'_>, output: &mut Output) -> Answer {
        let mark = self.events.mark();
        match line.name {
            "mark" => self.mark = mark,
            "roll-back" => self.events.roll_back(self.mark),
            "waiting" => {
                let counts = [mark.events as u128, mark.given_up as u128];
                return output.text(": events # given-up #", &counts);
            }
            "next" => return next_event(&mut self.events, ": ", output),
            "next-given-up" => match self.events.next_given_up() {
                Some(record) => return output.debug_text(": ", &record),
                None => return Answer::Nothing,
            },
            _ => return give_up(&mut self.events, line, output),
        }
        Answer::Done
    }
}

/// The next event behind a text, as one that knows nothing but the trait.
pub fn next_event<S: EventSink>(events: &mut S, before: &str, output: &mut Output) -> Answer {
    match events.next_event() {
        Some(event) => {
            let answer = output.debug_text(before, &event);
            drop(event);
            answer
        }
        None => Answer::Nothing,
    }
}

/// `given-up MESSAGE`: its lifetime passed; `sent-again MESSAGE COUNT`; `dropped-by-reset MESSAGE`; or an event.
fn give_up(events: &mut Events, line: &Line<'_>, output: &mut Output) -> Answer {
    let number = OutgoingMessageId(line.first.word);
    let cause = match line.name {
        "given-up" => GivenUpCause::Lifetime,
        "sent-again" => GivenUpCause::Retransmissions(line.second.word),
        "dropped-by-reset" => GivenUpCause::Reset,
        _ => return happen(events, line, output),
    };
    done(events.add_given_up(GivenUp { number, cause }))
}

/// Emits the event, as one that knows nothing but the trait.
fn happen<S: EventSink>(events: &mut S, line: &Line<'_>, output: &mut Output) -> Answer {
    match event(line, output) {
        Some(event) => done(events.add(event)),
        None if line.name == "end" => Answer::Refused,
        None => Answer::Unknown,
    }
}

/// `connected`; `low STREAM`; `end MESSAGE`; `packet HEX`, `aborted TEXT`, `reset-by-peer STREAM STREAM`.
fn event(line: &Line<'_>, output: &mut Output) -> Option<SocketEvent> {
    let stream = StreamId(line.first.half);
    match line.name {
        "connected" => Some(SocketEvent::OnConnected()),
        "low" => Some(SocketEvent::OnBufferedAmountLow(stream)),
        "end" => LifecycleId::new(line.first.long).map(SocketEvent::OnLifecycleEnd),
        "packet" => bytes_of(line.last, output).map(SocketEvent::SendPacket),
        "aborted" => {
            let text = output.made_text(String::from_str(output.alloc, line.last));
            Some(SocketEvent::OnAborted(ErrorKind::PeerReported, text))
        }
        "reset-by-peer" => {
            let streams = [stream, StreamId(line.second.half)];
            let streams = output.made(Vec::from_slice(output.alloc, &streams));
            Some(SocketEvent::OnIncomingStreamReset(streams))
        }
        _ => None,
    }
}
