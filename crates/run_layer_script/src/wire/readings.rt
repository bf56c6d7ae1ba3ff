//! What packets are read as that are cut short, or have other lengths. Their checksum is the sum of their bytes.

use crate::answer::Answer;
use crate::output::Output;
use crate::wire::numbers::{half, number};
use crate::wire::packets;
use crate::words::{Line, bytes_of, cut as cut_at, numbers_of};
use sctp_packet::{Chunk, PacketParseError, SctpPacket};
use sctp_probe::ByteSum;
use sctp_wire::{Checksum, Policy};
use std::alloc::{AllocError, Global};

/// What the first bytes of the packet are read as, for each number of them.
pub fn cut(packet: &[u8], output: &mut Output) -> Answer {
    show_cuts("cut, any checksum: ", packet, &packets::unchecked(), output);
    show_cuts("cut, its checksum: ", packet, &Policy::default(), output)
}

fn show_cuts(title: &str, packet: &[u8], policy: &Policy, output: &mut Output) -> Answer {
    output.push_str(title);
    let mut run = Run::new(output.alloc);
    for size in 0..packet.len() {
        run.read(size, &packet[..size], policy, output);
    }
    run.read(packet.len(), packet, policy, output);
    run.show("\n", output)
}

/// What the packet is read as with each of the numbers behind the first in the two bytes at the first.
pub fn lengths(line: &Line<'_>, output: &mut Output) -> Answer {
    let (digits, words) = cut_at(line.rest, ' ');
    let Some(packet) = bytes_of(digits, output) else {
        return Answer::Unknown;
    };
    let Some(numbers) = numbers_of(words, output) else {
        return Answer::Unknown;
    };
    show_lengths("any", &packet, &numbers, &packets::unchecked(), output);
    show_lengths("its", &packet, &numbers, &Policy::default(), output)
}

fn show_lengths(
    checksum: &str,
    packet: &[u8],
    numbers: &[u32],
    policy: &Policy,
    output: &mut Output,
) -> Answer {
    let place = number(numbers, 0) as usize;
    write!(output, "length at {place}, {checksum} checksum: ");
    let mut run = Run::new(output.alloc);
    for value in numbers.iter().skip(1) {
        let changed = with_length(packet, place, half(*value), output);
        run.read(*value as usize, &changed, policy, output);
    }
    run.show("\n", output)
}

/// The packet with this number in the two bytes at this place.
fn with_length(packet: &[u8], place: usize, value: u16, output: &mut Output) -> Vec<u8> {
    let [high, low] = value.to_be_bytes();
    let mut changed = output.made(Vec::from_slice(output.alloc, packet));
    if let Some(first) = changed.get_mut(place) {
        *first = high;
    }
    if let Some(second) = changed.get_mut(place.saturating_add(1)) {
        *second = low;
    }
    changed
}

/// What each chunk says.
fn texts(alloc: Global, chunks: &[Chunk]) -> Result<String, AllocError> {
    let mut text = String::new(alloc);
    for chunk in chunks {
        if !text.is_empty() {
            text.push_str(" + ")?;
        }
        write!(text, "{chunk}")?;
    }
    if text.is_empty() {
        text.push_str("no chunks")?;
    }
    Ok(text)
}

/// What the chunks of the packet say, or why it is refused. Its checksum is the sum of its bytes, with the checksum's field as zeros.
fn reading(alloc: Global, packet: &[u8], policy: &Policy) -> Result<String, AllocError> {
    let (before, after) = (packet.len().min(8), packet.len().min(12));
    let sum = ByteSum.word(&packet[..before], &packet[after..]);
    match SctpPacket::from_bytes(alloc, packet, sum, policy) {
        Ok(packet) => {
            let text = texts(alloc, &packet.chunks);
            drop(packet);
            text
        }
        Err(PacketParseError::Memory) => Err(AllocError),
        Err(fault) => format!(in alloc; "{fault}"),
    }
}

/// Readings that follow one another and are equal, and the first and the last of what they are of.
#[derive(Drop)]
struct Run {
    first: usize,
    last: usize,
    text: String,
}

impl Run {
    /// Of none.
    fn new(alloc: Global) -> Run {
        Run {
            first: 0,
            last: 0,
            text: String::new(alloc),
        }
    }

    /// Reads the packet as what is called `place`. Where that ends the run, it is shown, and another begins.
    fn read(&mut self, place: usize, packet: &[u8], policy: &Policy, output: &mut Output) {
        let text = output.made_text(reading(output.alloc, packet, policy));
        if self.text != text {
            if !self.text.is_empty() {
                self.show("; ", output);
            }
            self.first = place;
            self.text = text;
        }
        self.last = place;
    }

    fn show(&self, end: &str, output: &mut Output) -> Answer {
        write!(output, "{}", self.first);
        if self.first != self.last {
            write!(output, "-{}", self.last);
        }
        write!(output, " {}{end}", self.text);
        Answer::Done
    }
}
