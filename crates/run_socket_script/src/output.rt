//! What is printed.

use std::alloc::{AllocError, Global};
use std::fmt::Display;

/// What is printed at the end: all that was written, up to where memory was refused.
#[derive(Drop)]
pub struct Output {
    pub text: String,
    pub outcome: Result<(), AllocError>,
}

impl Output {
    pub fn new(alloc: Global) -> Output {
        Output {
            text: String::new(alloc),
            outcome: Ok(()),
        }
    }

    /// Notes what fails for want of memory: nothing is written behind it.
    pub fn note<E: Drop>(&mut self, outcome: Result<(), E>) {
        if outcome.is_err() {
            self.outcome = Err(AllocError);
        }
    }

    /// What `write!` and `writeln!` call.
    pub fn write_fmt<D: Display + Drop>(&mut self, text: D) {
        if self.outcome.is_ok() {
            self.outcome = self.text.write_fmt(text);
        }
    }
}
