//! Numbers and payloads, as words say them. A payload is hex digits, or `COUNT:FIRST` for so many bytes, each 7 above the one
//! before.

use crate::output::Output;
use hex::FromHexError;
use std::alloc::{AllocError, Global};

/// Payloads of more bytes are printed as a count, where they can be.
const FEW: usize = 64;

/// How much a byte of a row is above the one before.
const STRIDE: u8 = 7;

/// The words of a line.
pub fn words_of<'a>(alloc: Global, line: &'a str, output: &mut Output) -> Vec<&'a str> {
    match line.split(' ').collect(alloc) {
        Ok(words) => words,
        Err(fault) => {
            output.note(Err(fault));
            Vec::new(alloc)
        }
    }
}

/// The word at this place; an empty one where there is none.
pub fn text_at<'a>(words: &[&'a str], place: usize) -> &'a str {
    match words.get(place) {
        Some(word) => word,
        None => "",
    }
}

/// The number that a word says; 0 where it says none.
fn number_of(word: &str) -> u64 {
    word.parse::<u64>().unwrap_or(0)
}

/// The number at this place; 0 where there is none.
pub fn number_at(words: &[&str], place: usize) -> u64 {
    match words.get(place) {
        Some(word) => number_of(word),
        None => 0,
    }
}

/// The same, of 16 bits; the greatest where it is more.
pub fn half_at(words: &[&str], place: usize) -> u16 {
    u16::try_from(number_at(words, place)).unwrap_or(u16::MAX)
}

/// The same, of 32 bits.
pub fn word_at(words: &[&str], place: usize) -> u32 {
    u32::try_from(number_at(words, place)).unwrap_or(u32::MAX)
}

/// The number behind this word, where it is among the words.
pub fn number_behind(words: &[&str], name: &str) -> Option<u64> {
    let place = words.iter().position(|word| *word == name)?;
    Some(number_at(words, place.saturating_add(1)))
}

/// Whether all words say numbers.
pub fn are_numbers(words: &[&str]) -> bool {
    words.iter().all(|word| word.parse::<u64>().is_ok())
}

/// So many bytes, from this one on.
fn row(alloc: Global, count: u64, first: u8, output: &mut Output) -> Vec<u8> {
    let mut bytes = Vec::new(alloc);
    let mut byte = first;
    for _ in 0..count {
        output.note(bytes.push(byte));
        byte = byte.wrapping_add(STRIDE);
    }
    bytes
}

fn bytes_of(alloc: Global, digits: &str, output: &mut Output) -> Vec<u8> {
    match hex::decode(alloc, digits) {
        Ok(bytes) => return bytes,
        Err(FromHexError::OutOfMemory) => output.note(Err(AllocError)),
        Err(_) => {}
    }
    Vec::new(alloc)
}

/// The bytes that a word says; none where it says none.
pub fn payload(alloc: Global, word: &str, output: &mut Output) -> Vec<u8> {
    match word.split_once(':') {
        Some((count, first)) => {
            let first = u8::try_from(number_of(first)).unwrap_or(u8::MAX);
            row(alloc, number_of(count), first, output)
        }
        None => bytes_of(alloc, word, output),
    }
}

fn is_row(bytes: &[u8], first: u8) -> bool {
    let mut next = first;
    for byte in bytes {
        if *byte != next {
            return false;
        }
        next = next.wrapping_add(STRIDE);
    }
    true
}

/// Prints bytes in hex.
pub fn show_hex(bytes: &[u8], output: &mut Output) {
    for byte in bytes {
        write!(output, "{byte:02x}");
    }
}

/// Prints the word that says the bytes.
pub fn show_payload(bytes: &[u8], output: &mut Output) {
    let first = bytes.first().copied().unwrap_or(0);
    if bytes.len() > FEW && is_row(bytes, first) {
        write!(output, "{}:{first}", bytes.len());
    } else {
        show_hex(bytes, output);
    }
}
