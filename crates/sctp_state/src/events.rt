//! The events that wait for the socket's user, and the records of messages given up.

ghost use Rattle.std.specs.Prelude.{◌≡◌, ℕ, List, [], ◌∷◌, ◌++◌, drop, OnOk, OnErr, option_map};
ghost use Rattle.sctp_state.specs.Events.{Event, event_of, first_of};

use crate::api::{GivenUp, SocketEvent};
use crate::queue::take_first;
use std::alloc::{AllocError, Global};
use std::collections::VecDeque;
use std::marker::Model;

/// Where events go. They come out in the order in which they were added.
pub trait EventSink {
    // The events that wait, the first one first.
    ghost waiting: { Self → List (Event (List ℕ)) };

    /// Adds an event behind the others. Without memory for it nothing changes.
    fn add(&mut self, event: SocketEvent) -> Result<(), AllocError>
        ensures ok { OnOk result (waiting self.new ≡ waiting self.old ++ event_of event ∷ []) }
        ensures err { OnErr result (waiting self.new ≡ waiting self.old) };

    /// Takes the first event out.
    fn next_event(&mut self) -> Option<SocketEvent>
        ensures first { option_map event_of result ≡ first_of (waiting self.old) }
        ensures rest { waiting self.new ≡ drop 1 (waiting self.old) };
}

/// How many events and records wait at a moment.
#[derive(Clone, Copy, Debug)]
pub struct EventMark {
    pub events: usize,
    pub given_up: usize,
}

/// A list of events and a list of records, each first in, first out. One that was long and is empty keeps little room.
#[derive(Drop)]
pub struct Events {
    events: VecDeque<SocketEvent>,
    given_up: VecDeque<GivenUp>,
}

impl Model for Events {
    ghost use Rattle.std.specs.Prelude.{List, ℕ, map};
    ghost use Rattle.sctp_state.specs.Events.{Emitted, event_of, given_up_of};

    ghost Value = { Emitted (List ℕ) };

    ghost view = { λ t. record { events = map event_of t.events.items; given_up = map given_up_of t.given_up.items } };
}

impl Events {
    ghost use Rattle.sctp_state.specs.Events.{nothing_emitted, emit_event, emit_record, given_up_of, mark_of, rolled_back};

    /// No event.
    pub fn new(alloc: Global) -> Events
        ensures { result ≡ nothing_emitted }
    {
        Events {
            events: VecDeque::new(alloc),
            given_up: VecDeque::new(alloc),
        }
    }

    /// Adds an event behind the others. Without memory for it nothing changes.
    pub fn add(&mut self, event: SocketEvent) -> Result<(), AllocError>
        ensures ok { OnOk result (self.new ≡ emit_event (event_of event) self.old) }
        ensures err { OnErr result (self.new ≡ self.old) }
    {
        self.events.push_back(event)?;
        Ok(())
    }

    /// Takes the first event out.
    pub fn next_event(&mut self) -> Option<SocketEvent>
        ensures first { option_map event_of result ≡ first_of self.old.events }
        ensures rest { self.new ≡ record self.old { events = drop 1 self.old.events } }
    {
        take_first(&mut self.events)
    }

    /// Adds the record of a message given up. Without memory for it nothing changes.
    pub fn add_given_up(&mut self, given_up: GivenUp) -> Result<(), AllocError>
        ensures ok { OnOk result (self.new ≡ emit_record (given_up_of given_up) self.old) }
        ensures err { OnErr result (self.new ≡ self.old) }
    {
        self.given_up.push_back(given_up)?;
        Ok(())
    }

    /// Takes the first record out.
    pub fn next_given_up(&mut self) -> Option<GivenUp>
        ensures first { option_map given_up_of result ≡ first_of self.old.given_up }
        ensures rest { self.new ≡ record self.old { given_up = drop 1 self.old.given_up } }
    {
        take_first(&mut self.given_up)
    }

    /// How much waits now.
    pub fn mark(&self) -> EventMark
        ensures { result ≡ mark_of self.now }
    {
        EventMark {
            events: self.events.len(),
            given_up: self.given_up.len(),
        }
    }

    /// Leaves the first events and records, as many as waited when the mark was made: what was added since, if nothing
    /// was taken out, is taken back.
    pub fn roll_back(&mut self, mark: EventMark)
        ensures { self.new ≡ rolled_back mark self.old }
    {
        self.events.truncate(mark.events);
        self.given_up.truncate(mark.given_up);
    }
}

impl EventSink for Events {
    ghost waiting = { λ t. t.events };

    fn add(&mut self, event: SocketEvent) -> Result<(), AllocError> {
        Events::add(self, event)
    }

    fn next_event(&mut self) -> Option<SocketEvent> {
        Events::next_event(self)
    }
}
