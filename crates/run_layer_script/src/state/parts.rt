//! Small parts.
//!
//! `watcher BYTES`: an amount of bytes that says when it falls to its threshold. `counter LIMIT`: how often in turn the peer didn't
//! answer; without a limit where that is no number. `readiness`: what stands in the way of a handover, as the sum of its reasons' numbers.
//! `scheduler BYTES`: which stream sends next, with fragments of so many bytes at most.

use crate::answer::{Answer, Subject, done};
use crate::output::Output;
use crate::words::Line;
use sctp_serial::StreamId;
use sctp_state::{HandoverReadiness, ThresholdWatcher, TxErrorCounter};
use sctp_stream_scheduler::StreamScheduler;

impl Subject for ThresholdWatcher {
    /// `amount`, `low`, `threshold BYTES`, `crossed-at BYTES`, `increase BYTES`, `decrease BYTES`, `crossed-by BYTES`.
    fn obey(&mut self, line: &Line<'_>, _output: &mut Output) -> Answer {
        let bytes = line.first.size;
        match line.name {
            "amount" => Answer::Number(self.amount() as u128),
            "low" => Answer::Number(self.low_threshold() as u128),
            "threshold" => Answer::Is(self.set_low_threshold(bytes)),
            "crossed-at" => Answer::Is(self.is_crossed_at(bytes)),
            name => change(self, name, bytes),
        }
    }
}

fn change(watcher: &mut ThresholdWatcher, name: &str, bytes: usize) -> Answer {
    let has_room = bytes <= usize::MAX - watcher.amount();
    let has_them = bytes <= watcher.amount();
    match name {
        "increase" if has_room => watcher.increase(bytes),
        "decrease" if has_them => return Answer::Is(watcher.decrease(bytes)),
        "crossed-by" if has_them => return Answer::Is(watcher.is_crossed_by(bytes)),
        "increase" | "decrease" | "crossed-by" => return Answer::Refused,
        _ => return Answer::Unknown,
    }
    Answer::Done
}

impl Subject for TxErrorCounter {
    /// `increment`, `reset`, `value`, `exhausted`.
    fn obey(&mut self, line: &Line<'_>, _output: &mut Output) -> Answer {
        match line.name {
            "increment" => self.increment(),
            "reset" => self.reset(),
            "value" => return Answer::Number(self.value() as u128),
            "exhausted" => return Answer::Is(self.is_exhausted()),
            _ => return Answer::Unknown,
        }
        Answer::Done
    }
}

impl Subject for HandoverReadiness {
    /// `is REASON`, `and REASON`, `has REASON`, by its name or its number; `if FLAG`, `number`, `ready`, and its two texts, `show` and
    /// `debug`.
    fn obey(&mut self, line: &Line<'_>, output: &mut Output) -> Answer {
        let other = match line.last {
            "ready" => HandoverReadiness::READY,
            "send-queue-not-empty" => HandoverReadiness::SEND_QUEUE_NOT_EMPTY,
            "stream-reset-deferred" => HandoverReadiness::STREAM_RESET_DEFERRED,
            _ => HandoverReadiness(line.first.word),
        };
        match line.name {
            "is" => *self = other,
            "and" => *self = *self | other,
            "if" => *self = *self & (line.first.long == 1),
            "has" => return Answer::Is(self.contains(other)),
            "number" => return Answer::Number(self.0 as u128),
            "ready" => return Answer::Is(self.is_ready()),
            "show" => write!(output, ": [{self}]"),
            "debug" => write!(output, ": [{self:?}]"),
            _ => return Answer::Unknown,
        }
        Answer::Done
    }
}

impl Subject for StreamScheduler {
    /// `bytes STREAM BYTES PRIORITY`, `turn STREAM BYTES PRIORITY`, `interleaved`, `leave STREAM`, `accept STREAM`.
    fn obey(&mut self, line: &Line<'_>, _output: &mut Output) -> Answer {
        let id = StreamId(line.first.half);
        match line.name {
            "bytes" => return done(self.set_bytes_remaining(id, line.second.size, line.third.half)),
            "turn" => return done(self.take_turn(id, line.second.size, line.third.half)),
            "interleaved" => self.enable_message_interleaving(true),
            "leave" => self.leave(id),
            "accept" if !self.is_active(id) => return Answer::Refused,
            "accept" => self.accept(id),
            name => return ask(self, name, id),
        }
        Answer::Done
    }
}

/// `next`, `active STREAM`, `count`, `payload`, `is-interleaved`.
fn ask(scheduler: &StreamScheduler, name: &str, id: StreamId) -> Answer {
    match name {
        "next" => match scheduler.peek() {
            Some(id) => Answer::Number(id.0 as u128),
            None => Answer::Nothing,
        },
        "active" => Answer::Is(scheduler.is_active(id)),
        "count" => Answer::Number(scheduler.active_count() as u128),
        "payload" => Answer::Number(scheduler.max_payload() as u128),
        "is-interleaved" => Answer::Is(scheduler.is_interleaved()),
        _ => Answer::Unknown,
    }
}
