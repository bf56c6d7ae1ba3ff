//! What is printed.

use crate::answer::{Answer, Style};
use std::alloc::{AllocError, Global};
use std::fmt::{Debug, Display};

/// What is printed at the end: all that was written, up to where memory was refused.
#[derive(Drop)]
pub struct Output {
    pub alloc: Global,
    pub text: String,
    pub outcome: Result<(), AllocError>,
    pub style: Style,
}

impl Output {
    pub fn new(alloc: Global) -> Output {
        Output {
            alloc,
            text: String::new(alloc),
            outcome: Ok(()),
            style: Style::Values,
        }
    }

    /// Notes what fails for want of memory: nothing is written behind it.
    pub fn note<E: Drop>(&mut self, outcome: Result<(), E>) {
        if outcome.is_err() {
            self.outcome = Err(AllocError);
        }
    }

    /// The items that a call made, none where memory was refused.
    pub fn made<T>(&mut self, made: Result<Vec<T>, AllocError>) -> Vec<T> {
        match made {
            Ok(items) => items,
            Err(fault) => {
                self.note(Err(fault));
                Vec::new(self.alloc)
            }
        }
    }

    /// The text that a call made, an empty one where memory was refused.
    pub fn made_text(&mut self, made: Result<String, AllocError>) -> String {
        match made {
            Ok(text) => text,
            Err(fault) => {
                self.note(Err(fault));
                String::new(self.alloc)
            }
        }
    }

    /// What `write!` and `writeln!` call.
    pub fn write_fmt<D: Display + Drop>(&mut self, text: D) {
        if self.outcome.is_ok() {
            self.outcome = self.text.write_fmt(text);
        }
    }

    pub fn push_str(&mut self, text: &str) {
        if self.outcome.is_ok() {
            self.outcome = self.text.push_str(text);
        }
    }

    /// Writes the text where it is so.
    pub fn push_if(&mut self, is_so: bool, text: &str) {
        if is_so {
            self.push_str(text);
        }
    }

    pub fn put_line<T: Display>(&mut self, value: &T) {
        writeln!(self, "{value}");
    }

    pub fn debug_line<T: Debug>(&mut self, value: &T) {
        writeln!(self, "{value:?}");
    }

    /// Writes the text, with a number for each `#`, and for each `?` yes where the number isn't 0, else no.
    pub fn fill(&mut self, text: &str, numbers: &[u128]) {
        let mut numbers = numbers.iter();
        for letter in text.chars() {
            match letter {
                '#' => write!(self, "{}", numbers.next().unwrap_or(&0)),
                '?' if numbers.next() == Some(&0) => self.push_str("no"),
                '?' => self.push_str("yes"),
                letter => write!(self, "{letter}"),
            }
        }
    }

    /// Writes the text with the numbers, as an answer.
    pub fn text(&mut self, text: &str, numbers: &[u128]) -> Answer {
        self.fill(text, numbers);
        Answer::Text
    }

    /// Writes the value as it is debugged, behind a text, as an answer.
    pub fn debug_text<T: Debug>(&mut self, text: &str, value: &T) -> Answer {
        write!(self, "{text}{value:?}");
        Answer::Text
    }

    /// Writes why something is refused, as a line.
    pub fn refuse<E: Display + Drop>(&mut self, fault: E) -> Answer {
        writeln!(self, "refused: {fault}");
        Answer::Done
    }

    /// Writes bytes in hex.
    pub fn push_hex(&mut self, bytes: &[u8]) {
        for byte in bytes {
            write!(self, "{byte:02x}");
        }
    }

    /// Writes bytes in hex as a line, `-` where there are none.
    pub fn hex_line(&mut self, bytes: &[u8]) -> Answer {
        self.push_if(bytes.is_empty(), "-");
        self.push_hex(bytes);
        self.push_str("\n");
        Answer::Done
    }
}
