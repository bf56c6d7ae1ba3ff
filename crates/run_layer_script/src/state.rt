//! The state that both directions of an association share.
//!
//! The first line of a script names and makes the thing that is tried, and each further one is a command to it.

mod errors;
mod events;
mod handover;
mod handshake;
mod options;
mod parts;
mod timers;

use crate::answer::{Answer, run_commands};
use crate::output::Output;
use crate::words::{Line, cut};
use errors::Errors;
use events::Marked;
pub use events::next_event;
use handshake::Handshake;
use sctp_state::{HandoverReadiness, Options, ThresholdWatcher, TxErrorCounter};
use sctp_stream_scheduler::StreamScheduler;
use std::fmt::Display;
use timers::Estimate;

/// Makes the thing that the first line names, and lets it do the commands.
pub fn run(script: &str, output: &mut Output) {
    let (head, commands) = cut(script, '\n');
    let line = Line::new(head);
    let size = line.first.size;
    match line.name {
        "watcher" => run_commands(ThresholdWatcher::new(size), commands, output),
        "counter" => {
            let limit = u32::try_from(line.first.long).ok();
            run_commands(TxErrorCounter::new(limit), commands, output);
        }
        "timer" => run_commands(timers::timer(&line), commands, output),
        "errors" => run_commands(Errors, commands, output),
        "options" => run_commands(Options::default(), commands, output),
        "readiness" => run_commands(HandoverReadiness::READY, commands, output),
        _ => run_further(&line, commands, output),
    }
}

fn run_further(line: &Line<'_>, commands: &str, output: &mut Output) {
    let alloc = output.alloc;
    match line.name {
        "scheduler" => {
            let scheduler = StreamScheduler::new(alloc, line.first.size);
            run_commands(scheduler, commands, output);
        }
        "events" => run_commands(Marked::new(alloc), commands, output),
        "timeout" => run_commands(Estimate::new(), commands, output),
        "capabilities" | "cookie" => run_commands(Handshake::new(), commands, output),
        "handover" => run_commands(handover::record(alloc, line), commands, output),
        _ => output.push_str("?\n"),
    }
}

/// A value behind the command.
fn show<T: Display>(value: &T, output: &mut Output) -> Answer {
    write!(output, ": {value}");
    Answer::Text
}

/// Bytes in hex behind the command.
fn show_bytes(bytes: &[u8], output: &mut Output) -> Answer {
    output.push_str(": ");
    output.push_hex(bytes);
    Answer::Text
}
