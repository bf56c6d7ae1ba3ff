//! A sender, command by command: the send queue, the fragments that have their TSN, and both together under the congestion
//! window.
//!
//! A command is what it is for, what it asks, and numbers, 0 where they are left out. Each is answered by a line; one that isn't
//! understood by `?` and itself. Moments are in milliseconds.

mod data;
mod fragment;
mod handover;
mod item;
mod queue;
mod transmission;

use crate::answer::{Answer, Subject, run_commands};
use crate::output::Output;
use crate::state::next_event;
use crate::words::Line;
use sctp_serial::Tsn;
use sctp_state::{Events, Options};
use sctp_tx::RetransmissionQueue;
use sctp_tx_outstanding::{Item, OutstandingData};
use sctp_tx_queue::SendQueue;
use std::alloc::Global;

/// What the commands behind a title act on. There is no item until one is made.
#[derive(Drop)]
struct Bench {
    queue: SendQueue,
    sender: RetransmissionQueue,
    events: Events,
    data: OutstandingData,
    item: Option<Item>,
}

/// A sender whose first TSN is 10, to a peer whose window is 5,242,880 bytes.
fn first_sender(alloc: Global) -> RetransmissionQueue {
    RetransmissionQueue::new(alloc, Tsn(10), 5_242_880, &Options::default(), true, false)
}

/// Answers each command.
pub fn run(script: &str, output: &mut Output) {
    let bench = Bench {
        queue: SendQueue::new(output.alloc, &Options::default()),
        sender: first_sender(output.alloc),
        events: Events::new(output.alloc),
        data: OutstandingData::new(output.alloc, Tsn(10), true, false),
        item: None,
    };
    run_commands(bench, script, output);
}

impl Subject for Bench {
    /// What is handed over is asked for in the same words of all that can be.
    fn obey(&mut self, line: &Line<'_>, output: &mut Output) -> Answer {
        let command = Line::new(line.rest);
        match line.word {
            "record" | "hand-over" if line.name != "item" => {
                handover::answer(self, line.name, &command, output)
            }
            _ => self.answer(line.name, &command, output),
        }
    }
}

impl Bench {
    fn answer(&mut self, part: &str, line: &Line<'_>, output: &mut Output) -> Answer {
        let events = &mut self.events;
        match part {
            "queue" => queue::answer(&mut self.queue, events, line, output),
            "sender" => {
                transmission::answer(&mut self.sender, &mut self.queue, events, line, output)
            }
            "event" => event(events, line.name, output),
            "data" => data::answer(&mut self.data, events, line, output),
            "item" => item::answer(&mut self.item, line, output),
            _ => Answer::Unknown,
        }
    }
}

/// `next` · `given-up` · `counts`: how many events, and records of messages given up, wait.
fn event(events: &mut Events, verb: &str, output: &mut Output) -> Answer {
    match verb {
        "next" => next_event(events, "", output),
        "given-up" => match events.next_given_up() {
            Some(record) => {
                output.fill("message # ", &[record.number.0 as u128]);
                output.debug_text("", &record.cause)
            }
            None => Answer::Nothing,
        },
        "counts" => {
            let mark = events.mark();
            Answer::Two(mark.events as u128, mark.given_up as u128)
        }
        _ => Answer::Unknown,
    }
}
