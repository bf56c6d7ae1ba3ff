//! What is known of the items by runs of 64, so that these needn't be looked at one by one.

ghost use Rattle.std.specs.Prelude.{◌≡◌, ◌≢◌, ℕ, ◌+◌, ◌<◌, ◌≤◌, ◌^◌, true, false};
ghost use Rattle.std.specs.List.{sum_by};
ghost use Rattle.std.specs.Int.{bit_at};
ghost use Rattle.sctp_tx_outstanding.specs.Item.{Item};
ghost use Rattle.sctp_tx_outstanding.specs.OutstandingData.{queued_part};
ghost use Rattle.sctp_tx_outstanding.specs.Runs.{run_of, bit_of, bits_of, known_of, nothing_known, IsKnown};

use crate::item::Item;
use crate::sizes::lesser;
use sctp_state::take_first;
use std::alloc::Global;
use std::collections::VecDeque;

/// The run of the item at the place.
pub(crate) fn run_of(offset: u8, place: usize) -> usize
    ensures { result ≡ run_of offset place }
{
    place / 64 + (offset as usize + place % 64) / 64
}

/// The bit of the item at the place in its run.
fn bit_of(offset: u8, place: usize) -> u32
    ensures bit { result ≡ bit_of offset place }
    ensures small { result < 64 }
{
    ((offset as usize + place % 64) % 64) as u32
}

/// The place of the run's first item, at most `usize::MAX`.
pub(crate) fn begin_of(offset: u8, run: usize) -> usize
    ensures before { (k : ℕ) → k < result → run_of offset k < run }
    ensures from { (k : ℕ) → run ≤ run_of offset k → result ≤ k }
{
    run.saturating_mul(64).saturating_sub(offset as usize)
}

/// The place behind the run of the item at the place.
pub(crate) fn end_of(offset: u8, place: usize) -> usize
    requires { place < 2 ^ 62 }
    ensures onward { place ≤ result }
    ensures inside { (k : ℕ) → place ≤ k → k < result → run_of offset k ≡ run_of offset place }
    ensures behind { (k : ℕ) → result ≤ k → run_of offset place < run_of offset k }
{
    place + (64 - (offset as usize + place % 64) % 64)
}

/// What an item may be.
#[derive(Clone, Copy)]
pub enum Bits {
    /// In flight or missing.
    Flying,
    /// To be sent again.
    Waiting,
    /// To be sent again by the packet that ignores the congestion window.
    Fast,
    /// Given up, which is known.
    GivenUp,
}

/// What is known of the items of a run.
#[derive(Clone, Copy)]
pub struct Run {
    /// The bits of items that may be in flight or missing.
    pub flying: u64,
    /// The bits of items that may wait to be sent again.
    pub waiting: u64,
    /// The bits of those that may wait for the packet that ignores the congestion window.
    pub fast: u64,
    /// The bits of items of which it is known that they were given up.
    pub given_up: u64,
    /// No item that waits has a smaller payload.
    pub least: usize,
}

/// The bits, of which one is set or cleared.
#[inline(always)]
fn with_bit(bits: u64, bit: u32, is_set: bool) -> u64
    requires small { bit < 64 }
    ensures set { is_set ≡ true → bit_at result bit ≡ 1 }
    ensures clear { is_set ≡ false → bit_at result bit ≡ 0 }
    ensures others { (b : ℕ) → b < 64 → b ≢ bit → bit_at result b ≡ bit_at bits b }
{
    if is_set {
        bits | 1 << bit
    } else {
        bits & !(1 << bit)
    }
}

/// How many bits from this one on are clear, one after the other.
#[inline(always)]
fn clear_from(bits: u64, bit: u32) -> u32
    requires small { bit < 64 }
    ensures within { bit + result ≤ 64 }
    ensures clear { (b : ℕ) → bit ≤ b → b < bit + result → bit_at bits b ≡ 0 }
{
    (bits >> bit).trailing_zeros().min(64 - bit)
}

/// A bound of the payloads of items that wait, or `usize::MAX` where the bits or the count say that none does.
#[inline(always)]
fn bound_of(waiting: u64, least: usize) -> usize
    ensures { 0 < waiting → result ≡ least }
{
    if waiting == 0 { usize::MAX } else { least }
}

/// So many runs are listed, if there is memory for them. Of the new ones nothing is known.
fn list_runs(known: &mut VecDeque<Run>, count: usize)
    ensures { (n : ℕ) → known_of known.new.items n ≡ known_of known.old.items n }
{
    for _ in known.len()..count {
        if known.push_back(Run::nothing()).is_err() {
            return;
        }
    }
}

impl Run {
    /// Nothing is known.
    #[inline(always)]
    fn nothing() -> Run
        ensures { result ≡ nothing_known }
    {
        Run {
            flying: u64::MAX,
            waiting: u64::MAX,
            fast: u64::MAX,
            given_up: 0,
            least: 0,
        }
    }

    /// What a run without items begins with.
    fn empty() -> Run {
        Run {
            flying: 0,
            waiting: 0,
            fast: 0,
            given_up: 0,
            least: usize::MAX,
        }
    }

    /// The bits of items that may be so, or of which it is known that they were given up.
    #[inline(always)]
    fn bits(self, of: Bits) -> u64
        ensures { result ≡ bits_of of self }
    {
        match of {
            Bits::Flying => self.flying,
            Bits::Waiting => self.waiting,
            Bits::Fast => self.fast,
            Bits::GivenUp => self.given_up,
        }
    }

    /// What is known where this item has the bit.
    #[inline(always)]
    fn with_item(self, bit: u32, item: &Item) -> Run
        requires small { bit < 64 }
        ensures here { IsKnown result bit item.now }
        ensures others { (b : ℕ) (i : Item) → b < 64 → b ≢ bit → IsKnown self b i → IsKnown result b i }
    {
        let waits = item.should_be_retransmitted();
        let waiting = with_bit(self.waiting, bit, waits);
        let least = lesser(self.least, waits, item.payload_size());
        Run {
            flying: with_bit(self.flying, bit, item.is_outstanding()),
            waiting,
            fast: with_bit(self.fast, bit, item.is_fast()),
            given_up: with_bit(self.given_up, bit, item.is_abandoned()),
            least: bound_of(waiting, least),
        }
    }
}

/// What is known of the items by runs.
#[derive(Drop)]
pub struct Runs {
    /// From the first item's run on. Of those behind nothing is known.
    pub known: VecDeque<Run>,
    /// The first item's place in its run.
    pub offset: u8,
    /// No item that waits to be sent again has a smaller payload, in any run.
    pub least: usize,
}

impl Runs {
    ghost use Rattle.std.specs.Prelude.{◌∷◌, [], List, length};
    ghost use Rattle.sctp_tx_outstanding.specs.Flights.{NoneFlies};
    ghost use Rattle.sctp_tx_outstanding.specs.Waiting.{NoneWaits};
    ghost use Rattle.sctp_tx_outstanding.specs.Runs.{HasRuns, SameBut, AreGivenUp};

    /// No items. Takes no memory.
    pub fn new(alloc: Global) -> Runs
        ensures { HasRuns result [] }
    {
        Runs {
            known: VecDeque::new(alloc),
            offset: 0,
            least: usize::MAX,
        }
    }

    /// What is known of the run.
    #[inline(always)]
    pub fn known(&self, run: usize) -> Run
        ensures { result ≡ known_of self.now.known.items run }
    {
        match self.known.get(run) {
            Some(known) => *known,
            None => Run::nothing(),
        }
    }

    /// The bits of the run's items that may be so, or of which it is known that they were given up.
    #[inline(always)]
    fn bits(&self, of: Bits, run: usize) -> u64
        ensures { result ≡ bits_of of (known_of self.now.known.items run) }
    {
        match self.known.get(run) {
            Some(known) => known.bits(of),
            None => Run::nothing().bits(of),
        }
    }

    /// An item comes at the place behind all others: where it begins the next run, this is listed, if there is memory.
    pub fn begin(&mut self, place: usize)
        ensures { (is : List Item) → length is ≡ place → HasRuns self.old is → HasRuns self.new is }
    {
        let run = run_of(self.offset, place);
        list_runs(&mut self.known, run);
        if run == self.known.len() && begin_of(self.offset, run) == place {
            let _ = self.known.push_back(Run::empty());
        }
    }

    /// The item at the place has come, or has changed, and so many wait now.
    pub fn see(&mut self, items: &VecDeque<Item>, place: usize, queued: usize)
        ensures { (is : List Item) → SameBut place is items.now.items → queued ≡ sum_by queued_part items.now.items → HasRuns self.old is → HasRuns self.new items.now.items }
    {
        let Some(item) = items.get(place) else {
            return;
        };
        let waits = item.should_be_retransmitted();
        let all = lesser(self.least, waits, item.payload_size());
        self.least = bound_of(queued as u64, all);
        let run = run_of(self.offset, place);
        let bit = bit_of(self.offset, place);
        let Some(known) = self.known.get_mut(run) else {
            return;
        };
        *known = known.with_item(bit, item);
    }

    /// Whether the item at the place has the bit of those that may be in flight or missing.
    #[inline(always)]
    pub fn may_fly(&self, place: usize) -> bool
        ensures { result ≡ true → bit_at (known_of self.now.known.items (run_of self.now.offset place)).flying (bit_of self.now.offset place) ≡ 1 }
    {
        let flying = self.bits(Bits::Flying, run_of(self.offset, place));
        with_bit(flying, bit_of(self.offset, place), true) == flying
    }

    /// The first item leaves.
    pub fn pass(&mut self)
        ensures { (i : Item) (is : List Item) → HasRuns self.old (i ∷ is) → HasRuns self.new is }
    {
        if self.offset < 63 {
            self.offset += 1;
            return;
        }
        self.offset = 0;
        take_first(&mut self.known);
    }

    /// The first run from this one on of which an item may be so.
    #[inline(always)]
    fn next_run(&self, of: Bits, run: usize) -> usize
        ensures { (n : ℕ) → run ≤ n → n < result → bits_of of (known_of self.now.known.items n) ≡ 0 }
    {
        let mut next = run;
        while next < self.known.len() && self.bits(of, next) == 0 {
            next += 1;
        }
        next
    }

    /// The place of the next item from this one on that may be so in its run, or that of the next run of which one may.
    #[inline(always)]
    fn next(&self, of: Bits, place: usize) -> usize
        ensures onward { place ≤ result }
        ensures none { (k : ℕ) → place ≤ k → k < result → bit_at (bits_of of (known_of self.now.known.items (run_of self.now.offset k))) (bit_of self.now.offset k) ≡ 0 }
    {
        let run = run_of(self.offset, place);
        let bit = bit_of(self.offset, place);
        let count = clear_from(self.bits(of, run), bit);
        let next = place.saturating_add(count as usize);
        if bit + count < 64 {
            return next;
        }
        begin_of(self.offset, self.next_run(of, run + 1)).max(next)
    }

    /// A place from this one on up to which no item is in flight or missing, and at which one may be, or where a run ends.
    pub fn next_flight(&self, place: usize) -> usize
        ensures onward { place ≤ result }
        ensures none { (is : List Item) → HasRuns self.now is → NoneFlies place result is }
    {
        self.next(Bits::Flying, place)
    }

    /// A place from this one on up to which no item waits to be sent again, by the fast packet or by any, and at which one
    /// may, or where a run ends.
    pub fn next_waiting(&self, fast: bool, place: usize) -> usize
        ensures onward { place ≤ result }
        ensures none { (is : List Item) → HasRuns self.now is → NoneWaits fast place result is }
    {
        if fast {
            return self.next(Bits::Fast, place);
        }
        self.next(Bits::Waiting, place)
    }

    /// A place from this one on up to which all items were given up, and at which one may not be, or where a run ends.
    pub fn pass_given_up(&self, place: usize) -> usize
        ensures onward { place ≤ result }
        ensures given_up { (is : List Item) → HasRuns self.now is → AreGivenUp place result is }
    {
        let known = self.bits(Bits::GivenUp, run_of(self.offset, place));
        let count = clear_from(!known, bit_of(self.offset, place));
        place.saturating_add(count as usize)
    }

    /// A place from this one on up to which of no item of its run it is known that it was given up.
    pub fn next_given_up(&self, place: usize) -> usize
        ensures onward { place ≤ result }
    {
        let known = self.bits(Bits::GivenUp, run_of(self.offset, place));
        let count = clear_from(known, bit_of(self.offset, place));
        place.saturating_add(count as usize)
    }
}
