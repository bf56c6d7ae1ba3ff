//! An end of a conversation.

use crate::soak::messages::{
    Plan, STREAMS, is_reliable, label_of, message, options, stream, wanted_label,
};
use crate::{End, Owned, new_end, turn};
use anyhow::Result;
use sctp_association::{Message, SocketEvent, SocketTime, StreamId};
use std::alloc::Global;

/// More messages that were given up in one turn are not looked for.
const MANY: u32 = 100_000;

/// A turn sends so many messages.
const EACH_TURN: u32 = 8;

/// With more bytes queued on a stream an end sends none on it.
const ENOUGH: usize = 10_000;

/// What is counted at an end.
#[derive(Clone, Copy)]
pub struct Counts {
    pub packets: u64,
    pub lost: u64,
    pub accepted: u32,
    pub resets: u32,
    pub reset_events: u32,
    pub errors: u32,
    pub reliable: u32,
    pub partial: u32,
    pub given_up: u32,
    pub wrong: u32,
}

impl Counts {
    fn event(&mut self, event: &SocketEvent) {
        match event {
            SocketEvent::OnStreamsResetPerformed(_streams) => {
                self.reset_events = self.reset_events.saturating_add(1)
            }
            SocketEvent::OnError(_kind, _text) | SocketEvent::OnAborted(_kind, _text) => {
                self.errors = self.errors.saturating_add(1)
            }
            _event => (),
        }
    }

    fn events(&mut self, events: &[SocketEvent]) {
        for event in events {
            self.event(event);
        }
    }

    fn message(&mut self, next: &mut [u32], message: &Message) {
        match takes(next, message.stream_id, &message.payload) {
            Some(number) if is_reliable(number) => self.reliable = self.reliable.saturating_add(1),
            Some(_number) => self.partial = self.partial.saturating_add(1),
            None => self.wrong = self.wrong.saturating_add(1),
        }
    }

    fn messages(&mut self, next: &mut [u32], messages: &[Message]) {
        for message in messages {
            self.message(next, message);
        }
    }
}

/// An end that sends many messages, and what is counted.
#[derive(Drop)]
pub struct Talker<S> {
    alloc: Global,
    pub end: End<S>,
    /// Packets that come behind those of the next turn.
    pub late: Vec<Vec<u8>>,
    /// Packets that come behind those of the turn after the next.
    pub later: Vec<Vec<u8>>,
    /// Of each stream the lowest number that may come next.
    pub next: [u32; STREAMS],
    /// The stream that is to be reset.
    pub due: Option<StreamId>,
    pub counts: Counts,
}

/// A socket that has sent nothing.
pub fn new_talker<S>(rt: &HostRuntime, socket: S) -> Talker<S> {
    Talker {
        alloc: rt.alloc(),
        end: new_end(rt, socket),
        late: Vec::new(rt.alloc()),
        later: Vec::new(rt.alloc()),
        next: [0; STREAMS],
        due: None,
        counts: Counts {
            packets: 0,
            lost: 0,
            accepted: 0,
            resets: 0,
            reset_events: 0,
            errors: 0,
            reliable: 0,
            partial: 0,
            given_up: 0,
            wrong: 0,
        },
    }
}

impl<S: Owned> Talker<S> {
    pub fn let_go(self) {
        self.end.let_go();
    }
}

/// Whether a message with these bytes may come on this stream now: it is whole, and none behind it came before.
fn takes(next: &mut [u32], id: StreamId, payload: &[u8]) -> Option<u32> {
    let found = label_of(payload)?;
    let number = found.number;
    let place = next.get_mut(usize::from(id.0))?;
    if found != wanted_label(number) || stream(number) != id.0 || number < *place {
        return None;
    }
    *place = number.saturating_add(1);
    Some(number)
}

/// Counts what the socket emitted and handed out.
fn count<S>(talker: &mut Talker<S>) {
    talker.counts.events(&talker.end.events);
    talker.end.events.clear();
    talker
        .counts
        .messages(&mut talker.next, &talker.end.messages);
    talker.end.messages.clear();
}

fn count_given_up<S: Owned>(socket: &mut S, counts: &mut Counts) {
    for _ in 0..MANY {
        match socket.next_record() {
            Some(_record) => counts.given_up = counts.given_up.saturating_add(1),
            None => break,
        }
    }
}

/// Advances the time, sends the next messages, takes what came, and counts what the socket emits and hands out.
pub fn act<S: Owned>(talker: &mut Talker<S>, now: SocketTime, plan: Plan) -> Result<()> {
    talker.end.socket.advance_time(now)?;
    send(talker, plan)?;
    turn(&mut talker.end, now)?;
    count_given_up(&mut talker.end.socket, &mut talker.counts);
    count(talker);
    Ok(())
}

/// Asks for a reset of the stream, unless messages of it are queued, which would be given up. Answers whether it asked.
fn ask_reset<S: Owned>(socket: &mut S, stream: StreamId) -> Result<bool> {
    if socket.buffered_amount(stream) > 0 {
        return Ok(false);
    }
    socket.reset_streams(&[stream])?;
    Ok(true)
}

/// Asks for the reset that is due. Answers whether none is due then.
fn reset_if_due<S: Owned>(talker: &mut Talker<S>) -> Result<bool> {
    let Some(stream) = talker.due else {
        return Ok(true);
    };
    let is_asked = ask_reset(&mut talker.end.socket, stream)?;
    if is_asked {
        talker.due = None;
        talker.counts.resets = talker.counts.resets.saturating_add(1);
    }
    Ok(is_asked)
}

/// Sends the message of this number. Behind so many one its stream is to be reset.
fn send_one<S: Owned>(talker: &mut Talker<S>, number: u32, reset_each: u32) -> Result<()> {
    let next = message(talker.alloc, number)?;
    talker.end.socket.send(next, &options(number))?;
    let accepted = number.saturating_add(1);
    talker.counts.accepted = accepted;
    if reset_each != 0 && accepted % reset_each == 0 {
        talker.due = Some(StreamId(stream(number)));
    }
    Ok(())
}

fn has_room<S: Owned>(talker: &Talker<S>, number: u32) -> bool {
    talker.end.socket.buffered_amount(StreamId(stream(number))) <= ENOUGH
}

/// Sends the next messages, up to so many in all, while there is room.
fn send<S: Owned>(talker: &mut Talker<S>, plan: Plan) -> Result<()> {
    for _ in 0..EACH_TURN {
        let number = talker.counts.accepted;
        if !reset_if_due(talker)? || number >= plan.count || !has_room(talker, number) {
            break;
        }
        send_one(talker, number, plan.reset)?;
    }
    Ok(())
}
