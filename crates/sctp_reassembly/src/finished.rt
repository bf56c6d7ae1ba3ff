//! Complete intervals by the keys at which they begin: so one is found without a look at those that aren't complete.

ghost use Rattle.std.specs.Prelude.{◌≡◌, ◌≤◌, ◌<◌, ◌∷◌, [], ℕ, List, Some, None, true, false, IfOk, OnOk, IfSome, IfNone, length};
ghost use Rattle.std.specs.List.{All};
ghost use Rattle.sctp_fragments.specs.Held.{Held, is_complete, NoneInTurn};
ghost use Rattle.sctp_fragments.specs.Runs.{is_held};
ghost use Rattle.sctp_fragments.specs.ReassemblyKey.{pair_rank, rank_at};
ghost use Rattle.sctp_fragments.specs.Interval.{held_of, run_of, lists_of};
ghost use Rattle.sctp_reassembly.specs.Places.{all_of, runs_at};
ghost use Rattle.sctp_reassembly.specs.Finished.{BeginsAt, IsNumbered, is_missed, NoneMissed, NoneEarlier};

use crate::places::least_of;
use sctp_fragments::{Interval, ReassemblyKey, is_before};
use std::alloc::{AllocError, Global};
use std::collections::{BTreeMap, BTreeSet};
use std::marker::Model;

/// The keys at which complete intervals begin, where they are known. Keys of other intervals may be among them.
///
/// A key goes with a search from a later message on, or a forward point to it. Where memory lacks for a key, none are known.
/// They stand apart, since most streams have none.
#[derive(Drop)]
pub(crate) struct Finished<K: ReassemblyKey> {
    keys: Option<Box<BTreeSet<K>>>,
}

impl<K: ReassemblyKey> Model for Finished<K> {
    ghost use Rattle.std.specs.Prelude.{Option, option_map};
    ghost use Rattle.std.specs.BTreeSet.{BTreeSet};
    ghost use Rattle.sctp_reassembly.specs.Finished.{AreKnown};

    ghost Value = { Option (BTreeSet K) };

    ghost view = { λ s. option_map (λ b. b.value) s.keys };

    ghost invariant = { λ s. AreKnown K.is_key (option_map (λ b. b.value) s.keys) };
}

/// Adds a key.
fn add_key<K: ReassemblyKey>(keys: &mut BTreeSet<K>, key: K) -> Result<(), AllocError>
    requires keys { All K.is_key keys.old.keys }
    ensures keys { OnOk result (All K.is_key keys.new.keys) }
    ensures kept { OnOk result ((n : ℕ) → is_held (rank_at K.number K.index) n keys.old.keys ≡ true → is_held (rank_at K.number K.index) n keys.new.keys ≡ true) }
    ensures added { OnOk result (is_held (rank_at K.number K.index) (rank_at K.number K.index key) keys.new.keys ≡ true) }
{
    key.known();
    keys.insert(key)?;
    Ok(())
}

/// The key at which the interval begins, where it is complete.
pub(crate) fn begin_of<K: ReassemblyKey>(interval: &Interval<K>) -> Option<K>
    ensures some { IfSome result (λ k. BeginsAt (rank_at K.number K.index k) (run_of (held_of K.number K.index) interval.now)) }
    ensures number { IfSome result (λ k. IsNumbered (K.number k) (run_of (held_of K.number K.index) interval.now)) }
    ensures none { IfNone result (is_complete (run_of (held_of K.number K.index) interval.now) ≡ false) }
{
    if !interval.is_complete() {
        return None;
    }
    Some(interval.first().key)
}

/// Adds the key at which the interval begins, where it is complete.
fn add_complete<K: ReassemblyKey>(
    keys: &mut BTreeSet<K>,
    interval: &Interval<K>,
) -> Result<(), AllocError>
    requires keys { All K.is_key keys.old.keys }
    ensures keys { OnOk result (All K.is_key keys.new.keys) }
    ensures kept { OnOk result ((n : ℕ) → is_held (rank_at K.number K.index) n keys.old.keys ≡ true → is_held (rank_at K.number K.index) n keys.new.keys ≡ true) }
    ensures added { OnOk result (is_missed (rank_at K.number K.index) 0 (Some keys.new) (run_of (held_of K.number K.index) interval.now) ≡ false) }
{
    match begin_of(interval) {
        Some(key) => add_key(keys, key),
        None => Ok(()),
    }
}

/// Adds the keys at which the complete ones among the intervals of the map begin.
fn add_later<K: ReassemblyKey>(
    keys: &mut BTreeSet<K>,
    later: &BTreeMap<K, Interval<K>>,
) -> Result<(), AllocError>
    requires keys { All K.is_key keys.old.keys }
    ensures keys { OnOk result (All K.is_key keys.new.keys) }
    ensures none { OnOk result (NoneMissed K.number K.index 0 (Some keys.new) (runs_at K.number K.index later.now.entries)) }
{
    for interval in later.values() {
        add_complete(keys, interval)?;
    }
    Ok(())
}

/// The same, with the first one.
fn add_all<K: ReassemblyKey>(
    keys: &mut BTreeSet<K>,
    first: &Option<Interval<K>>,
    later: &BTreeMap<K, Interval<K>>,
) -> Result<(), AllocError>
    requires keys { All K.is_key keys.old.keys }
    ensures keys { OnOk result (All K.is_key keys.new.keys) }
    ensures none { OnOk result (NoneMissed K.number K.index 0 (Some keys.new) (lists_of (held_of K.number K.index) (all_of first.now later.now.entries))) }
{
    add_later(keys, later)?;
    match first {
        Some(interval) => add_complete(keys, interval),
        None => Ok(()),
    }
}

/// The keys at which the complete intervals begin, in a box.
fn kept_keys<K: ReassemblyKey>(
    alloc: Global,
    first: &Option<Interval<K>>,
    later: &BTreeMap<K, Interval<K>>,
) -> Result<Box<BTreeSet<K>>, AllocError>
    ensures keys { IfOk result (λ b. All K.is_key b.value.keys) }
    ensures none { IfOk result (λ b. NoneMissed K.number K.index 0 (Some b.value) (lists_of (held_of K.number K.index) (all_of first.now later.now.entries))) }
{
    let mut keys = Box::new(alloc, BTreeSet::new(alloc))?;
    add_all(&mut keys, first, later)?;
    Ok(keys)
}

/// Whether the first of the keys is before this one.
fn begins_before<K: ReassemblyKey>(keys: &BTreeSet<K>, key: K) -> bool
    ensures some { result ≡ true → 0 < length keys.now.keys }
    ensures before { result ≡ true → (k : K) (ks : List K) → keys.now.keys ≡ k ∷ ks → rank_at K.number K.index k < rank_at K.number K.index key }
{
    match keys.first() {
        Some(first) => is_before(*first, key),
        None => false,
    }
}

/// So many keys go at most with one search: so those of messages that were taken go, and none drops very many.
const FEW: usize = 4;

/// Drops the first of the keys before this one, at most so many.
fn drop_before<K: ReassemblyKey>(keys: &mut BTreeSet<K>, key: K, most: usize)
    requires keys { All K.is_key keys.old.keys }
    ensures keys { All K.is_key keys.new.keys }
    ensures kept { (n : ℕ) → rank_at K.number K.index key ≤ n → is_held (rank_at K.number K.index) n keys.old.keys ≡ true → is_held (rank_at K.number K.index) n keys.new.keys ≡ true }
{
    for _ in 0..most {
        if !begins_before(keys, key) {
            return;
        }
        keys.pop_first();
    }
}

/// The first key from this one on.
fn first_from<K: ReassemblyKey>(keys: &BTreeSet<K>, key: K) -> Option<K>
    requires keys { All K.is_key keys.now.keys }
    ensures some { IfSome result (λ k. (n : ℕ) → rank_at K.number K.index key ≤ n → is_held (rank_at K.number K.index) n keys.now.keys ≡ true → rank_at K.number K.index k ≤ n) }
    ensures none { IfNone result ((n : ℕ) → rank_at K.number K.index key ≤ n → is_held (rank_at K.number K.index) n keys.now.keys ≡ false) }
{
    key.known();
    match keys.range(key..).next() {
        Some(first) => {
            first.known();
            Some(*first)
        }
        None => None,
    }
}

/// The same, where some of those before it go.
fn search_from<K: ReassemblyKey>(keys: &mut BTreeSet<K>, key: K) -> Option<K>
    requires keys { All K.is_key keys.old.keys }
    ensures keys { All K.is_key keys.new.keys }
    ensures kept { (n : ℕ) → rank_at K.number K.index key ≤ n → is_held (rank_at K.number K.index) n keys.old.keys ≡ true → is_held (rank_at K.number K.index) n keys.new.keys ≡ true }
    ensures some { IfSome result (λ k. (n : ℕ) → rank_at K.number K.index key ≤ n → is_held (rank_at K.number K.index) n keys.new.keys ≡ true → rank_at K.number K.index k ≤ n) }
    ensures none { IfNone result ((n : ℕ) → rank_at K.number K.index key ≤ n → is_held (rank_at K.number K.index) n keys.new.keys ≡ false) }
{
    drop_before(keys, key, FEW);
    first_from(keys, key)
}

impl<K: ReassemblyKey> Finished<K> {
    /// None are known.
    pub fn unknown() -> Finished<K>
        ensures { result ≡ None }
    {
        Finished { keys: None }
    }

    /// Those of the intervals, where there is memory.
    pub fn of(
        alloc: Global,
        first: &Option<Interval<K>>,
        later: &BTreeMap<K, Interval<K>>,
    ) -> Finished<K>
        ensures { NoneMissed K.number K.index 0 result (lists_of (held_of K.number K.index) (all_of first.now later.now.entries)) }
    {
        match kept_keys(alloc, first, later) {
            Ok(keys) => Finished { keys: Some(keys) },
            Err(_) => Finished { keys: None },
        }
    }

    /// Whether they are known.
    pub fn is_known(&self) -> bool
        ensures { result ≡ false → self.now ≡ None }
    {
        self.keys.is_some()
    }

    /// Notes a complete interval that begins at the key.
    pub fn note(&mut self, key: K)
        ensures kept { (m : ℕ) (r : List Held) → is_missed (rank_at K.number K.index) m self.old r ≡ false → is_missed (rank_at K.number K.index) m self.new r ≡ false }
        ensures noted { (m : ℕ) (r : List Held) → BeginsAt (rank_at K.number K.index key) r → is_missed (rank_at K.number K.index) m self.new r ≡ false }
    {
        let Some(keys) = &mut self.keys else {
            return;
        };
        if add_key(keys, key).is_err() {
            self.keys = None;
        }
    }

    /// What comes before the message with the number has gone.
    pub fn pass(&mut self, number: u128)
        ensures { (m : ℕ) (rs : List (List Held)) → pair_rank number 0 ≤ m → NoneMissed K.number K.index m self.old rs → NoneMissed K.number K.index m self.new rs }
    {
        let Some(keys) = &mut self.keys else {
            return;
        };
        let count = keys.len();
        drop_before(keys, least_of(number), count);
    }

    /// A key before which no complete message with the number begins. None where there is no such message.
    pub fn search(&mut self, number: u128) -> Option<K>
        ensures some { IfSome result (λ k. (rs : List (List Held)) → NoneMissed K.number K.index (pair_rank number 0) self.old rs → NoneEarlier number (rank_at K.number K.index k) rs) }
        ensures none { IfNone result ((rs : List (List Held)) → NoneMissed K.number K.index (pair_rank number 0) self.old rs → NoneInTurn number rs) }
        ensures kept { (rs : List (List Held)) → NoneMissed K.number K.index (pair_rank number 0) self.old rs → NoneMissed K.number K.index (pair_rank number 0) self.new rs }
    {
        let least = least_of(number);
        let Some(keys) = &mut self.keys else {
            return Some(least);
        };
        search_from(keys, least)
    }
}
