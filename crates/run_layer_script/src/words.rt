//! Commands, and their words: the first one is the command's name.

use crate::output::Output;
use hex::FromHexError;
use sctp_serial::SocketTime;
use std::alloc::AllocError;
use std::str::SplitWhitespace;
use std::time::Duration;

/// The text before the first separator, and that behind it.
pub fn cut(text: &str, separator: char) -> (&str, &str) {
    text.split_once(separator).unwrap_or((text, ""))
}

/// The number that a word says, in each width: the greatest one where it is more.
#[derive(Clone, Copy)]
pub struct Number {
    pub long: u64,
    pub size: usize,
    pub word: u32,
    pub half: u16,
    /// Whether it isn't 0.
    pub flag: bool,
}

impl Number {
    /// 1 for yes, 0 for no and for a word that is missing, and the greatest for one that is no number.
    pub fn of(word: &str) -> Number {
        let long = match word {
            "yes" => 1,
            "no" | "" => 0,
            word => word.parse::<u64>().unwrap_or(u64::MAX),
        };
        Number {
            long,
            size: long as usize,
            word: u32::try_from(long).unwrap_or(u32::MAX),
            half: u16::try_from(long).unwrap_or(u16::MAX),
            flag: long != 0,
        }
    }

    pub fn millis(self) -> Duration {
        Duration::from_millis(self.long)
    }

    /// A moment, in milliseconds.
    pub fn moment(self) -> SocketTime {
        SocketTime::zero() + self.millis()
    }
}

/// A command as it is written: its name, what stands behind that, the words there, and the numbers that these are.
#[derive(Clone, Copy)]
pub struct Line<'a> {
    pub text: &'a str,
    pub name: &'a str,
    pub rest: &'a str,
    pub word: &'a str,
    /// The last word behind the name, where there is one.
    pub last: &'a str,
    pub first: Number,
    pub second: Number,
    pub third: Number,
    pub fourth: Number,
}

impl<'a> Line<'a> {
    pub fn new(text: &'a str) -> Line<'a> {
        let (name, rest) = cut(text, ' ');
        let word = word_at(text, 1);
        let (_, last) = text.rsplit_once(' ').unwrap_or((text, ""));
        Line {
            text,
            name,
            rest,
            word,
            last,
            first: Number::of(word),
            second: Number::of(word_at(text, 2)),
            third: Number::of(word_at(text, 3)),
            fourth: Number::of(word_at(text, 4)),
        }
    }

    pub fn number(&self, place: u8) -> Number {
        Number::of(word_at(self.text, place))
    }
}

/// The words from the place on.
pub fn rest_of(text: &str, place: u8) -> SplitWhitespace<'_> {
    let mut words = text.split_whitespace();
    for _ in 0..place {
        words.next();
    }
    words
}

/// The word at the place, an empty one where there is none.
pub fn word_at(text: &str, place: u8) -> &str {
    rest_of(text, place).next().unwrap_or("")
}

/// The bytes that hex digits say, `None` where the word has others.
pub fn bytes_of(digits: &str, output: &mut Output) -> Option<Vec<u8>> {
    match hex::decode(output.alloc, digits) {
        Ok(bytes) => Some(bytes),
        Err(FromHexError::OutOfMemory) => {
            output.note(Err(AllocError));
            None
        }
        Err(_) => None,
    }
}

/// Numbers of 32 bits, `None` where a word is none.
pub fn numbers_of(text: &str, output: &mut Output) -> Option<Vec<u32>> {
    let mut numbers = Vec::new(output.alloc);
    for word in text.split_whitespace() {
        match word.parse::<u32>() {
            Ok(number) => output.note(numbers.push(number)),
            Err(_) => return None,
        }
    }
    Some(numbers)
}
