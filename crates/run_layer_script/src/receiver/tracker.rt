//! Which TSNs came, and when they are acknowledged.

use crate::answer::{Answer, Subject, run_commands};
use crate::output::Output;
use crate::words::{Line, Number, rest_of};
use sctp_packet::SackChunk;
use sctp_rx::DataTracker;
use sctp_serial::{SocketTime, Tsn};
use sctp_state::{Options, SocketHandoverState};
use std::alloc::AllocError;

/// A tracker at a moment, and what it wrote for a handover.
#[derive(Drop)]
struct Tracker {
    tracker: DataTracker,
    state: SocketHandoverState,
    first: Tsn,
    now: SocketTime,
}

/// Takes the commands of a script on a tracker.
pub fn run(line: &Line<'_>, script: &str, output: &mut Output) {
    let first = Tsn(line.first.word);
    let tracker = Tracker {
        tracker: DataTracker::new(output.alloc, first, &Options::default()),
        state: SocketHandoverState::empty(output.alloc),
        first,
        now: SocketTime::zero(),
    };
    run_commands(tracker, script, output);
}

impl Subject for Tracker {
    /// `come TSN ..`, `twice TSN ..`, `urgent TSN ..`; `sack WINDOW`; `front`; `readiness`; `timer`; `write`; `restore TSN`; and
    /// tests and changes. A TSN `+N` is the first one and N.
    fn obey(&mut self, line: &Line<'_>, output: &mut Output) -> Answer {
        match line.name {
            "come" | "twice" | "urgent" => self.come(line, output),
            "sack" => show_sack(self.tracker.create_selective_ack(line.first.word), output),
            "write" => self.write(output),
            "restore" => self.restore(Tsn(line.first.word), output),
            "front" => {
                let front = self.tracker.last_cumulative_acked_tsn();
                Answer::Number(front.0 as u128)
            }
            "readiness" => {
                write!(output, "[{}]", self.tracker.get_handover_readiness());
                Answer::Text
            }
            "timer" => {
                let expiry = self.tracker.next_timeout();
                if expiry == SocketTime::infinite_future() {
                    Answer::Nothing
                } else {
                    Answer::Number(expiry.as_nanos() / 1_000_000)
                }
            }
            _ => self.test(line, output),
        }
    }
}

impl Tracker {
    /// TSNs come: each twice, or so that it is acknowledged at once.
    fn come(&mut self, line: &Line<'_>, output: &mut Output) -> Answer {
        let (is_twice, is_urgent) = (line.name == "twice", line.name == "urgent");
        for word in rest_of(line.text, 1) {
            let tsn = tsn_of(self.first, word);
            self.come_once(tsn, is_urgent, output);
            if is_twice {
                self.come_once(tsn, is_urgent, output);
            }
        }
        Answer::Text
    }

    /// A TSN comes: `+` is printed where it is new, else `-`.
    fn come_once(&mut self, tsn: Tsn, is_urgent: bool, output: &mut Output) {
        match self.tracker.observe(self.now, tsn, is_urgent) {
            Ok(true) => output.push_str("+"),
            Ok(false) => output.push_str("-"),
            Err(fault) => output.note(Err(fault)),
        }
    }

    /// `due`, `waiting`, `timeout`, `valid TSN`, `next TSN`, `forward TSN`; or a change.
    fn test(&mut self, line: &Line<'_>, output: &mut Output) -> Answer {
        let tsn = tsn_of(self.first, line.word);
        let (now, tracker) = (self.now, &mut self.tracker);
        match line.name {
            "due" => Answer::Is(tracker.should_send_ack(now, false)),
            "waiting" => Answer::Is(tracker.should_send_ack(now, true)),
            "timeout" => Answer::Is(tracker.handle_timeout(now)),
            "valid" => Answer::Is(tracker.is_tsn_valid(tsn)),
            "next" => Answer::Is(tracker.will_increase_cum_ack_tsn(tsn)),
            "forward" => {
                Answer::Is(tracker.is_tsn_valid(tsn) && tracker.handle_forward_tsn(now, tsn))
            }
            _ => self.change(line, output),
        }
    }

    /// A change is printed: `at MS`, `end`, `rto MS`, `force`.
    fn change(&mut self, line: &Line<'_>, output: &mut Output) -> Answer {
        let time = line.first.millis();
        match line.name {
            "at" => self.now = SocketTime::zero() + time,
            "end" => self.tracker.observe_packet_end(self.now),
            "rto" => self.tracker.update_rto(time),
            "force" => self.tracker.force_immediate_sack(),
            _ => return Answer::Unknown,
        }
        output.text(line.name, &[])
    }

    fn write(&mut self, output: &mut Output) -> Answer {
        self.tracker.add_to_handover_state(&mut self.state);
        let rx = &self.state.rx;
        output.text(
            "# # ?",
            &[
                rx.last_cumulative_acked_tsn as u128,
                rx.last_assembled_tsn as u128,
                rx.seen_packet as u128,
            ],
        )
    }

    /// A new tracker takes up what was written.
    fn restore(&mut self, first: Tsn, output: &mut Output) -> Answer {
        let mut other = DataTracker::new(output.alloc, first, &Options::default());
        other.restore_from_state(&self.state);
        drop(std::mem::replace(&mut self.tracker, other));
        output.text("restore", &[])
    }
}

fn tsn_of(first: Tsn, word: &str) -> Tsn {
    match word.strip_prefix('+') {
        Some(offset) => first + Number::of(offset).word,
        None => Tsn(Number::of(word).word),
    }
}

/// The cumulative TSN, the window, then the blocks, then the duplicates.
fn show_sack(sack: Result<SackChunk, AllocError>, output: &mut Output) -> Answer {
    let Ok(sack) = sack else {
        return Answer::NoMemory;
    };
    let front = [sack.cumulative_tsn_ack.0 as u128, sack.a_rwnd as u128];
    output.fill("# #", &front);
    for block in &sack.gap_ack_blocks {
        output.fill(" #-#", &[block.start as u128, block.end as u128]);
    }
    output.push_str(" again");
    for tsn in &sack.duplicate_tsns {
        output.fill(" #", &[tsn.0 as u128]);
    }
    drop(sack);
    Answer::Text
}
