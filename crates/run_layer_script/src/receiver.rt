//! The receiver on its own: runs each script on what its first line names, and prints what each command answers.
//!
//! The first line of a script is one of
//!
//! - `tracker TSN`: the TSNs that came, from this one on;
//! - `queue FORM BYTES [FRAGMENTS]`: fragments of all streams, `traditional` or `interleaved`, full at so many bytes, and where a number
//!   of fragments is said, taking none while it holds so many;
//! - `streams FORM`: the same without what a queue adds;
//! - `list KEY`: intervals of fragments, with keys `tsn`, `fsn` or `mid`;
//! - `ordered KEY [NEXT]`, `unordered KEY`: one stream, with keys `tsn` or `fsn`.
//!
//! A command that isn't known changes nothing, and one that can't be done is answered by `refused`, or changes nothing.

mod list;
mod pieces;
mod queue;
mod stream;
mod streams;
mod tracker;

use crate::output::Output;
use crate::words::{Line, cut};

/// Runs a script on what its first line names.
pub fn run(script: &str, output: &mut Output) {
    let (head, commands) = cut(script, '\n');
    let line = Line::new(head);
    match line.name {
        "tracker" => tracker::run(&line, commands, output),
        "queue" => queue::run(&line, commands, output),
        "streams" => streams::run(&line, commands, output),
        "list" => list::run(&line, commands, output),
        "ordered" => stream::run_ordered(&line, commands, output),
        "unordered" => stream::run_unordered(&line, commands, output),
        _ => output.push_str("?\n"),
    }
}
