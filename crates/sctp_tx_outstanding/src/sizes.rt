//! How small the payloads of the items are that wait to be sent again, by runs, so that those of which none fits are passed over.

ghost use Rattle.std.specs.Prelude.{◌≡◌, ℕ, ◌<◌, ◌≤◌, ◌^◌, true, false, length, slice_get};
ghost use Rattle.sctp_tx_outstanding.specs.Sizes.{IsLargeAt, ExceedsOf, NoneFits};

use crate::item::{Item, padded_size};
use crate::runs::{Runs, begin_of, end_of, run_of};
use std::collections::VecDeque;

/// A bound of the sizes, if one more waits.
pub(crate) fn lesser(least: usize, waits: bool, size: usize) -> usize
    ensures less { result ≤ least }
    ensures size { waits ≡ true → result ≤ size }
{
    if waits { least.min(size) } else { least }
}

/// A bound of the payloads before, with the one at the place if it waits.
#[inline(always)]
pub(crate) fn least_at(items: &VecDeque<Item>, place: usize, least: usize) -> usize
    ensures less { result ≤ least }
    ensures here { IsLargeAt result place items.now.items }
{
    match items.get(place) {
        Some(item) => lesser(least, item.should_be_retransmitted(), item.payload_size()),
        None => least,
    }
}

/// The least payload of the items that wait from one place up to another, or `usize::MAX`.
fn least_between(items: &VecDeque<Item>, from: usize, to: usize) -> usize
    ensures { (k : ℕ) → from ≤ k → k < to → IsLargeAt result k items.now.items }
{
    let mut least = usize::MAX;
    let mut place = from;
    while place < to {
        least = least_at(items, place, least);
        place += 1;
    }
    least
}

/// Whether the item at the place waits and has a chunk of at most so many bytes.
fn fits(items: &VecDeque<Item>, place: usize, allowed: usize, is_interleaved: bool) -> bool
    ensures { result ≡ false → ExceedsOf is_interleaved allowed (slice_get items.now.items place) }
{
    match items.get(place) {
        Some(item) => {
            item.should_be_retransmitted() && item.chunk_size(is_interleaved) <= allowed
        }
        None => false,
    }
}

/// The first place from one on up to another whose item does, or the other one.
fn first_fitting(
    items: &VecDeque<Item>,
    from: usize,
    to: usize,
    allowed: usize,
    is_interleaved: bool,
) -> usize
    ensures onward { from ≤ result }
    ensures none { NoneFits is_interleaved allowed from result items.now.items }
{
    let mut place = from;
    while place < to && !fits(items, place, allowed, is_interleaved) {
        place += 1;
    }
    place
}

impl Runs {
    ghost use Rattle.std.specs.Prelude.{List};
    ghost use Rattle.sctp_tx_outstanding.specs.Item.{Item};
    ghost use Rattle.sctp_tx_outstanding.specs.Runs.{run_of, known_of, HasRuns};
    ghost use Rattle.sctp_tx_outstanding.specs.Waiting.{IsAtLeast};
    ghost use Rattle.sctp_tx_outstanding.specs.Sizes.{AreAtLeast, Exceeds};

    /// How many bytes the payloads of all items have at least that wait, where so many are kept.
    fn least_of_all(&self, count: usize) -> usize
        ensures { (is : List Item) → length is ≡ count → HasRuns self.now is → AreAtLeast result is }
    {
        let last = run_of(self.offset, count.saturating_sub(1));
        let mut least = usize::MAX;
        let mut run = 0;
        while run <= last {
            least = least.min(self.known(run).least);
            run += 1;
        }
        least
    }

    /// Whether it is known that each chunk of the run's items that wait has more bytes.
    fn is_large(&self, run: usize, allowed: usize, is_interleaved: bool) -> bool
        ensures { result ≡ true → (i : Item) → IsAtLeast (known_of self.now.known.items run).least i → Exceeds is_interleaved allowed i }
    {
        allowed < padded_size(self.known(run).least.min(1 << 32), is_interleaved)
    }

    /// The first run from this one on of which that isn't known.
    fn next_small(&self, run: usize, allowed: usize, is_interleaved: bool) -> usize
        ensures { (n : ℕ) (i : Item) → run ≤ n → n < result → IsAtLeast (known_of self.now.known.items n).least i → Exceeds is_interleaved allowed i }
    {
        let mut next = run;
        while next < self.known.len() && self.is_large(next, allowed, is_interleaved) {
            next += 1;
        }
        next
    }

    /// The items of a run that wait have payloads of at least so many bytes.
    fn settle_least(&mut self, run: usize, least: usize)
        ensures { (is : List Item) → ((k : ℕ) → run_of self.old.offset k ≡ run → IsLargeAt least k is) → HasRuns self.old is → HasRuns self.new is }
    {
        let Some(known) = self.known.get_mut(run) else {
            return;
        };
        known.least = least;
    }

    /// Looks how small the items are that wait in the run of the item at the place.
    fn renew(&mut self, items: &VecDeque<Item>, place: usize)
        requires { place < 2 ^ 62 }
        ensures { HasRuns self.old items.now.items → HasRuns self.new items.now.items }
    {
        let run = run_of(self.offset, place);
        let begin = begin_of(self.offset, run);
        let end = end_of(self.offset, place);
        let least = least_between(items, begin, end);
        self.settle_least(run, least);
    }

    /// The same in each run of which it isn't known that all chunks of items that wait have more than so many bytes, and then of
    /// all items.
    pub fn renew_small(&mut self, items: &VecDeque<Item>, allowed: usize, is_interleaved: bool)
        ensures { HasRuns self.old items.now.items → HasRuns self.new items.now.items }
    {
        for run in 0..self.known.len() {
            let place = begin_of(self.offset, run);
            if place < 1 << 62 && !self.is_large(run, allowed, is_interleaved) {
                self.renew(items, place);
            }
        }
        self.least = self.least_of_all(items.len());
    }

    /// A walk came from one place to the next item that waits: where it enters that one's run and the item doesn't fit, looks
    /// how small those of the run are.
    pub fn enter(
        &mut self,
        items: &VecDeque<Item>,
        from: usize,
        place: usize,
        allowed: usize,
        is_interleaved: bool,
    )
        ensures { HasRuns self.old items.now.items → HasRuns self.new items.now.items }
    {
        let run = run_of(self.offset, place);
        if begin_of(self.offset, run) < from || place >= 1 << 62 {
            return;
        }
        if self.is_large(run, allowed, is_interleaved) {
            return;
        }
        if !fits(items, place, allowed, is_interleaved) {
            self.renew(items, place);
        }
    }

    /// A place from this one on up to which no item that waits has a chunk of so few bytes: where one may in its run, or where a
    /// run begins.
    pub fn pass_large(
        &self,
        items: &VecDeque<Item>,
        place: usize,
        allowed: usize,
        is_interleaved: bool,
    ) -> usize
        ensures onward { place ≤ result }
        ensures none { HasRuns self.now items.now.items → NoneFits is_interleaved allowed place result items.now.items }
    {
        let run = run_of(self.offset, place);
        let next = self.next_small(run, allowed, is_interleaved);
        let begin = begin_of(self.offset, next);
        if place < begin {
            return begin;
        }
        let end = begin_of(self.offset, run + 1);
        first_fitting(items, place, end, allowed, is_interleaved)
    }
}
