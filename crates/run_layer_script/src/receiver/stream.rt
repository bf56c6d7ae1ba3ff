//! One stream on its own.

ghost use Rattle.std.specs.Prelude.{◌+◌, ◌<◌, ◌^◌, IsTrue};
ghost use Rattle.sctp_rx.specs.Delivery.{ready_bytes};

use crate::answer::{Answer, Subject, run_commands};
use crate::output::Output;
use crate::receiver::pieces::{piece, show_next};
use crate::words::{Line, Number, word_at};
use sctp_packet::Data;
use sctp_rx::{
    InterleavedKey, OrderedStream, ReadyMessages, ReassemblyKey, ReassemblyStream, TraditionalKey,
    UnorderedInterleavedKey, UnorderedStream,
};
use std::alloc::{AllocError, Global};

/// The first number.
const FIRST: u64 = 1 << 32;

/// Whether the sums of bytes are small, those that come with them.
pub fn have_room(held: usize, ready: &ReadyMessages, coming: usize) -> bool
    ensures { IsTrue result → held + ready_bytes ready.now + coming < 2 ^ 63 }
{
    held < 1 << 40 && ready.total_bytes() < 1 << 40 && coming < 1 << 40
}

/// A stream of either kind and form. Numbers count from 2^32 on.
trait Stream: ReassemblyStream {
    /// Drops what is below the key, of an unordered stream alone.
    fn drop_below(&mut self, first: Self::Key);
}

impl<K: ReassemblyKey> Stream for OrderedStream<K> {
    fn drop_below(&mut self, _first: K) {}
}

impl<K: ReassemblyKey> Stream for UnorderedStream<K> {
    fn drop_below(&mut self, first: K) {
        self.forward_to(first);
    }
}

/// Whether a stream takes a message's number.
fn is_taken(number: u64) -> bool
    ensures some { IsTrue result → 0 < number }
    ensures small { IsTrue result → number < 2 ^ 63 }
{
    number > 0 && number < 1 << 63
}

/// A stream, and the messages that are ready.
#[derive(Drop)]
struct Alone<S> {
    stream: S,
    ready: ReadyMessages,
}

/// An ordered stream whose next number is the one that is said, where it can be, else a new one.
fn ordered<K: ReassemblyKey>(alloc: Global, begin: &str) -> OrderedStream<K> {
    let next = Number::of(begin).long;
    if next < FIRST {
        OrderedStream::new(alloc)
    } else {
        OrderedStream::restored(alloc, next)
    }
}

/// Takes the commands of a script on an ordered stream.
pub fn run_ordered(line: &Line<'_>, script: &str, output: &mut Output) {
    let begin = word_at(line.text, 2);
    match line.word {
        "tsn" => run_on(
            ordered::<TraditionalKey>(output.alloc, begin),
            script,
            output,
        ),
        _ => run_on(
            ordered::<InterleavedKey>(output.alloc, begin),
            script,
            output,
        ),
    }
}

/// Takes the commands of a script on an unordered stream.
pub fn run_unordered(line: &Line<'_>, script: &str, output: &mut Output) {
    let alloc = output.alloc;
    match line.word {
        "tsn" => run_on(
            UnorderedStream::<TraditionalKey>::new(alloc),
            script,
            output,
        ),
        _ => run_on(
            UnorderedStream::<UnorderedInterleavedKey>::new(alloc),
            script,
            output,
        ),
    }
}

fn run_on<S: Stream>(stream: S, script: &str, output: &mut Output) {
    let alone = Alone {
        stream,
        ready: ReadyMessages::new(output.alloc),
    };
    run_commands(alone, script, output);
}

impl<S: Stream> Subject for Alone<S> {
    /// `next`; and changes, which are answered by the state, as is `state`.
    fn obey(&mut self, line: &Line<'_>, output: &mut Output) -> Answer {
        if line.name == "next" {
            return show_next(self.ready.pop(), output);
        }
        self.change(line, output);
        output.text(
            "number #, held ?, bytes #, ready #",
            &[
                self.stream.reading_point(),
                (self.stream.held_fragments() > 0) as u128,
                self.stream.queued_bytes() as u128,
                self.ready.len() as u128,
            ],
        )
    }
}

impl<S: Stream> Alone<S> {
    /// `add NUMBER INDEX ENDS HEX`, `forward NUMBER INDEX`, `drop NUMBER INDEX`.
    fn change(&mut self, line: &Line<'_>, output: &mut Output) {
        let key = S::Key::from_parts(line.first.long, line.second.long);
        match line.name {
            "add" => {
                let fragment = piece(line, output);
                output.note(self.add(key, fragment));
            }
            "forward" => output.note(self.forward(key)),
            "drop" => self.stream.drop_below(key),
            _ => {}
        }
    }

    /// Takes a fragment, where there is room.
    fn add(&mut self, key: S::Key, fragment: Data) -> Result<(), AllocError> {
        let held = self.stream.queued_bytes();
        let has_room = have_room(held, &self.ready, fragment.payload.len());
        let is_most = self.stream.held_fragments() >= 1 << 40;
        if !has_room || is_most || !is_taken(key.number()) {
            drop(fragment);
            return Ok(());
        }
        self.stream.add(key, fragment, &mut self.ready)
    }

    /// Takes a forward point to what is below the key.
    fn forward(&mut self, first: S::Key) -> Result<(), AllocError> {
        let held = self.stream.queued_bytes();
        if !have_room(held, &self.ready, 0) || !is_taken(first.number()) {
            return Ok(());
        }
        self.stream.forward(first, &mut self.ready)
    }
}
