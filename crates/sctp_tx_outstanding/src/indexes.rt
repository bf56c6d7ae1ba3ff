//! The indexes of the kept items.

ghost use Rattle.std.specs.Prelude.{◌≡◌, ◌-◌, ◌≤◌, ◌∷◌, [], Bool, true, List, length, take};
ghost use Rattle.std.specs.Int.{bit_at};
ghost use Rattle.sctp_tx_outstanding.specs.Item.{Item};
ghost use Rattle.sctp_tx_outstanding.specs.Change.{apply_change};
ghost use Rattle.sctp_tx_outstanding.specs.OutstandingData.{change_at};
ghost use Rattle.sctp_tx_outstanding.specs.declared.totals.Totals.{Totals};
ghost use Rattle.sctp_tx_outstanding.specs.declared.kept.Change.{Change};
ghost use Rattle.sctp_tx_outstanding.specs.Totals.{Exchanges, HasPart, replace_part};
ghost use Rattle.sctp_tx_outstanding.specs.Runs.{run_of, bit_of, known_of};
ghost use Rattle.sctp_tx_outstanding.specs.Indexes.{AreIndexes};

use crate::expiries::Expiries;
use crate::item::Item;
use crate::kept::Change;
use crate::last_blocks::LastBlocks;
use crate::messages::Messages;
use crate::passed::Passed;
use crate::runs::Runs;
use crate::totals::Totals;
use std::alloc::Global;
use std::collections::VecDeque;

/// What is known of the kept items, so that they needn't be looked at: sums over them, bits by runs of 64, which are of a message
/// and which expire when, the last SACK's blocks, and a forward point over the first ones.
#[derive(Drop)]
pub struct Indexes {
    pub totals: Totals,
    pub last_blocks: LastBlocks,
    pub runs: Runs,
    pub messages: Messages,
    pub expiries: Expiries,
    pub passed: Passed,
}

/// Whether an item's change, by which one part of the totals comes for another, leaves the totals and the runs as they are.
#[inline(always)]
fn stays_listed(how: Change, totals: Totals, old: Totals, new: Totals) -> bool
    ensures flights { result ≡ true → old.flights ≡ new.flights }
    ensures queued { result ≡ true → old.queued ≡ new.queued }
    ensures fast { result ≡ true → old.fast ≡ new.fast }
    ensures totals { result ≡ true → HasPart old new totals → totals ≡ replace_part old new totals }
{
    if matches!(how, Change::Abandon) || old.flights != new.flights {
        return false;
    }
    if old.queued != new.queued || old.fast != new.fast {
        return false;
    }
    totals.earliest <= new.earliest
}

/// Whether what is known of an item by its run stands after its change. One that is acknowledged keeps its bit of
/// those in flight: missing reports pass what blocks cover, and if it is taken back, it has the bit.
#[inline(always)]
fn stays_in_runs(runs: &Runs, place: usize, how: Change, old: Totals, new: Totals) -> bool
    ensures flights { result ≡ true → bit_at (known_of runs.now.known.items (run_of runs.now.offset place)).flying (bit_of runs.now.offset place) ≡ 0 → new.flights ≤ old.flights }
    ensures queued { result ≡ true → old.queued ≡ new.queued }
    ensures fast { result ≡ true → old.fast ≡ new.fast }
{
    if matches!(how, Change::Abandon) || old.queued != new.queued || old.fast != new.fast {
        return false;
    }
    new.flights <= old.flights || runs.may_fly(place)
}

impl Indexes {
    /// Of no items. Takes no memory.
    pub(crate) fn new(alloc: Global) -> Indexes
        ensures { (m : Bool) → AreIndexes m [] result }
    {
        Indexes {
            totals: Totals::nothing(),
            last_blocks: LastBlocks::new(alloc),
            runs: Runs::new(alloc),
            messages: Messages::new(alloc),
            expiries: Expiries::new(alloc),
            passed: Passed::new(alloc),
        }
    }

    /// The last of the items is new.
    pub(crate) fn insert(&mut self, items: &VecDeque<Item>, is_interleaved: bool)
        requires { AreIndexes is_interleaved (take (length items.now.items - 1) items.now.items) self.old }
        ensures { AreIndexes is_interleaved items.now.items self.new }
    {
        let place = items.len().saturating_sub(1);
        let Some(item) = items.get(place) else {
            return;
        };
        let part = Totals::of(item, is_interleaved);
        self.totals = self.totals.with_part(part);
        self.last_blocks.take(item.is_acked());
        self.runs.begin(place);
        self.runs.see(items, place, self.totals.queued);
        self.messages.add(item.message_id(), place);
        self.expiries.list(place, item.deadline());
    }

    /// It isn't known any more which items are of which message, nor when they expire.
    pub(crate) fn forget_found(&mut self)
        ensures { (m : Bool) (is : List Item) → AreIndexes m is self.old → AreIndexes m is self.new }
    {
        self.messages.forget();
        self.expiries.forget();
    }

    /// The first item has left, before the others.
    pub(crate) fn remove(&mut self, item: &Item, others: &VecDeque<Item>, is_interleaved: bool)
        requires { AreIndexes is_interleaved (item.now ∷ others.now.items) self.old }
        ensures { AreIndexes is_interleaved others.now.items self.new }
    {
        // (read for its bound)
        let _count = others.len();
        let part = Totals::of(item, is_interleaved);
        self.totals = self.totals.without_part(part);
        self.last_blocks.pass();
        self.runs.pass();
        self.messages.leave();
        self.expiries.leave(item.deadline());
        self.passed.leave();
    }

    /// The item at the place changed, by which one part of the totals came for another.
    #[inline(always)]
    pub(crate) fn follow(
        &mut self,
        items: &VecDeque<Item>,
        place: usize,
        how: Change,
        parts: (Totals, Totals),
    )
        ensures { (m : Bool) (is : List Item) → items.now.items ≡ change_at place (apply_change how) is → Exchanges m place how is parts.0 parts.1
            → AreIndexes m is self.old → AreIndexes m items.now.items self.new }
    {
        // (read for its bound)
        let _count = items.len();
        let (old, new) = parts;
        self.last_blocks.see(how);
        self.expiries.renew(place, old.earliest, new.earliest);
        if stays_listed(how, self.totals, old, new) {
            return;
        }
        self.totals = self.totals.exchanged(old, new);
        if stays_in_runs(&self.runs, place, how, old, new) {
            return;
        }
        self.runs.see(items, place, self.totals.queued);
    }
}
