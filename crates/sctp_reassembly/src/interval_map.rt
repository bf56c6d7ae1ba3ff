//! Intervals in the order of their keys, with the sums of their fragments.

ghost use Rattle.std.specs.Prelude.{◌≡◌, ◌+◌, ◌<◌, ◌≤◌, ◌^◌, ◌++◌, ◌∷◌, Bool, [], not, List, true, false, length, option_map, IfOk, OnOk, OnErr, IfSome, IfNone};

use crate::dropped::{all_sums_of, ends_below, take_low};
use crate::finished::{Finished, begin_of};
use crate::interval_list::ListState;
use crate::places::{
    add_to, begins_below, drop_first, interval_with, take_if_complete, take_in_turn,
};
use sctp_chunk::Data;
use sctp_fragments::{Entry, Interval, ReassemblyKey};
use std::alloc::{AllocError, Global};
use std::collections::BTreeMap;
use std::marker::Model;

/// Fragments joined to intervals, as an interval list has them where there are several.
///
/// The first interval stands alone, so that one takes no map. Each later one is under the key of one of its fragments,
/// which stays where fragments come at either end: so a fragment in the middle moves no interval.
#[derive(Drop)]
pub(crate) struct IntervalMap<K: ReassemblyKey> {
    alloc: Global,
    first: Option<Interval<K>>,
    later: BTreeMap<K, Interval<K>>,
    bytes: usize,
    fragments: usize,
}

impl<K: ReassemblyKey> Model for IntervalMap<K> {
    ghost use Rattle.std.specs.Prelude.{List};
    ghost use Rattle.sctp_fragments.specs.Held.{Held};
    ghost use Rattle.sctp_fragments.specs.Interval.{held_of, entries_of};
    ghost use Rattle.sctp_reassembly.specs.Places.{all_of};
    ghost use Rattle.sctp_reassembly.specs.Listed.{IsListed};

    ghost Value = { List Held };

    ghost view = { λ s. entries_of (held_of K.number K.index) (all_of s.first s.later.entries) };

    ghost invariant = { λ s. IsListed K.is_key K.number K.index s.first s.later.entries s.bytes s.fragments };
}

impl<K: ReassemblyKey> IntervalMap<K> {
    ghost use Rattle.std.specs.List.{find};
    ghost use Rattle.sctp_fragments.specs.Runs.{is_held, with_item, from_rank};
    ghost use Rattle.sctp_fragments.specs.Held.{Held, rank_of, intervals_of, bytes_of, is_complete, NoneComplete, NonePass, is_in_turn, without_first_of, left_by, IsPlaced, IsTaken};
    ghost use Rattle.sctp_fragments.specs.ReassemblyKey.{rank_at};
    ghost use Rattle.sctp_fragments.specs.Interval.{as_held, held_of, run_of};
    ghost use Rattle.sctp_reassembly.specs.UnorderedByTsn.{BeginsFrom};
    ghost use Rattle.sctp_reassembly.specs.Finished.{BeginsAt, IsNumbered, NoneMissed, NoneEarlier};
    ghost use Rattle.sctp_reassembly.specs.ListState.{held_in, IsListState};

    /// No fragments. Takes no memory.
    pub fn new(alloc: Global) -> IntervalMap<K>
        ensures { result ≡ [] }
    {
        IntervalMap {
            alloc,
            first: None,
            later: BTreeMap::new(alloc),
            bytes: 0,
            fragments: 0,
        }
    }

    /// The fragments of a list. Takes no memory.
    pub fn of(alloc: Global, state: ListState<K>) -> IntervalMap<K>
        requires { IsListState K.number K.index state }
        ensures { result ≡ held_in (held_of K.number K.index) state }
    {
        let interval = match state {
            ListState::Empty => return IntervalMap::new(alloc),
            ListState::Lone(interval) => interval,
            ListState::Many(map) => return Box::into_inner(map),
        };
        let bytes = interval.total_bytes();
        IntervalMap {
            alloc,
            first: Some(interval),
            later: BTreeMap::new(alloc),
            bytes,
            fragments: 1,
        }
    }

    /// Takes all out, of one fragment at most.
    pub fn take_few(&mut self) -> ListState<K>
        requires { length self.old ≤ 1 }
        ensures value { held_in (held_of K.number K.index) result ≡ self.old }
        ensures state { IsListState K.number K.index result }
    {
        self.bytes = 0;
        self.fragments = 0;
        match self.first.take() {
            Some(interval) => ListState::Lone(interval),
            None => ListState::Empty,
        }
    }

    /// How many bytes of payload, and how many fragments it holds.
    pub fn sums(&self) -> (usize, usize)
        ensures bytes { result.0 ≡ bytes_of self.now }
        ensures fragments { result.1 ≡ length self.now }
    {
        (self.bytes, self.fragments)
    }

    /// The key of the first fragment.
    pub fn first(&self) -> Option<K>
        ensures some { IfSome result (λ k. BeginsFrom (rank_at K.number K.index k) self.now) }
        ensures none { IfNone result (self.now ≡ []) }
    {
        match &self.first {
            Some(interval) => Some(interval.first().key),
            None => None,
        }
    }

    /// How many intervals it has.
    pub fn len(&self) -> usize
        ensures { result ≡ length (intervals_of self.now) }
    {
        if self.first.is_none() {
            return 0;
        }
        self.later.len() + 1
    }

    /// Adds the fragment, and says whether it is new; where its key is held nothing changes. Without memory nothing changes
    /// either.
    pub fn add(&mut self, key: K, fragment: Data) -> Result<bool, AllocError>
        requires room { bytes_of self.old + length fragment.payload.items < 2 ^ 64 }
        requires fragments { length self.old + 1 < 2 ^ 64 }
        ensures value { OnOk result (self.new ≡ with_item rank_of (as_held (K.number key) (K.index key) fragment) self.old) }
        ensures answer { IfOk result (λ is_new. is_new ≡ not (is_held rank_of (rank_at K.number K.index key) self.old)) }
        ensures place { IfOk result (λ is_new. is_new ≡ true → IsPlaced self.old self.new (as_held (K.number key) (K.index key) fragment)) }
        ensures bytes { bytes_of self.new ≤ bytes_of self.old + length fragment.payload.items }
        ensures fragments { length self.new ≤ length self.old + 1 }
        ensures err { OnErr result (self.new ≡ self.old) }
    {
        key.known();
        let bytes = fragment.payload.len();
        let entry = Entry { key, fragment };
        if !add_to(self.alloc, &mut self.first, &mut self.later, entry)? {
            return Ok(false);
        }
        self.bytes += bytes;
        self.fragments += 1;
        Ok(true)
    }

    /// The key at which the interval with the key begins, where it is complete.
    pub fn finished_at(&self, key: K) -> Option<K>
        ensures some { IfSome result (λ k. (front back : List (List Held)) (r : List Held) → intervals_of self.now ≡ front ++ r ∷ back → is_held rank_of (rank_at K.number K.index key) r ≡ true → BeginsAt (rank_at K.number K.index k) r) }
        ensures number { IfSome result (λ k. (front back : List (List Held)) (r : List Held) → intervals_of self.now ≡ front ++ r ∷ back → is_held rank_of (rank_at K.number K.index key) r ≡ true → IsNumbered (K.number k) r) }
        ensures none { IfNone result ((front back : List (List Held)) (r : List Held) → intervals_of self.now ≡ front ++ r ∷ back → is_held rank_of (rank_at K.number K.index key) r ≡ true → is_complete r ≡ false) }
    {
        match interval_with(&self.first, &self.later, key) {
            Some(interval) => begin_of(interval),
            None => None,
        }
    }

    /// The keys at which the complete intervals begin.
    pub fn finished(&self) -> Finished<K>
        ensures { NoneMissed K.number K.index 0 result (intervals_of self.now) }
    {
        Finished::of(self.alloc, &self.first, &self.later)
    }

    /// Takes the interval with the key out where it is a complete message.
    pub fn pop_if_complete(&mut self, key: K) -> Option<Interval<K>>
        ensures taken { IfSome result (λ i. IsTaken self.old (run_of (held_of K.number K.index) i) self.new) }
        ensures held { IfSome result (λ i. is_held rank_of (rank_at K.number K.index key) (run_of (held_of K.number K.index) i) ≡ true) }
        ensures bytes { IfSome result (λ i. bytes_of self.old ≡ bytes_of (run_of (held_of K.number K.index) i) + bytes_of self.new) }
        ensures fragments { IfSome result (λ i. length self.old ≡ length (run_of (held_of K.number K.index) i) + length self.new) }
        ensures none { IfNone result (self.new ≡ self.old) }
        ensures incomplete { IfNone result ((front back : List (List Held)) (r : List Held) → intervals_of self.old ≡ front ++ r ∷ back → is_held rank_of (rank_at K.number K.index key) r ≡ true → is_complete r ≡ false) }
    {
        let interval = take_if_complete(&mut self.first, &mut self.later, key)?;
        self.bytes -= interval.total_bytes();
        self.fragments -= interval.len();
        Some(interval)
    }

    /// Takes out the first of the intervals that is a complete message with the number, where none begins before the key. Other
    /// intervals before it, also incomplete ones, don't stop it.
    pub fn pop_front_from(&mut self, key: K, number: u128) -> Option<Interval<K>>
        requires earlier { NoneEarlier number (rank_at K.number K.index key) (intervals_of self.old) }
        ensures taken { option_map (λ i. run_of (held_of K.number K.index) i) result ≡ find (is_in_turn number) (intervals_of self.old) }
        ensures intervals { intervals_of self.new ≡ without_first_of (is_in_turn number) (intervals_of self.old) }
        ensures value { self.new ≡ left_by (is_in_turn number) self.old }
        ensures bytes { IfSome result (λ i. bytes_of self.old ≡ bytes_of (run_of (held_of K.number K.index) i) + bytes_of self.new) }
        ensures fragments { IfSome result (λ i. length self.old ≡ length (run_of (held_of K.number K.index) i) + length self.new) }
    {
        let interval = take_in_turn(&mut self.first, &mut self.later, key, number)?;
        self.bytes -= interval.total_bytes();
        self.fragments -= interval.len();
        Some(interval)
    }

    /// Drops intervals that are before the key, by one cut: of those that begin before it at most two stay.
    fn drop_low(&mut self, key: K)
        ensures same { from_rank rank_of (rank_at K.number K.index key) self.new ≡ from_rank rank_of (rank_at K.number K.index key) self.old }
        ensures others { NoneComplete (intervals_of self.old) → NoneComplete (intervals_of self.new) }
        ensures bytes { bytes_of self.new ≤ bytes_of self.old }
        ensures fragments { length self.new ≤ length self.old }
    {
        let Some(low) = take_low(&mut self.first, &mut self.later, key) else {
            return;
        };
        let (bytes, fragments) = all_sums_of(&low);
        self.bytes -= bytes;
        self.fragments -= fragments;
    }

    /// Drops the fragments before the key, one after the other.
    fn drop_before(&mut self, key: K)
        ensures value { self.new ≡ from_rank rank_of (rank_at K.number K.index key) self.old }
        ensures others { NoneComplete (intervals_of self.old) → NoneComplete (intervals_of self.new) }
        ensures bytes { bytes_of self.new ≤ bytes_of self.old }
        ensures fragments { length self.new ≤ length self.old }
    {
        while begins_below(&self.first, key) {
            let bytes = drop_first(&mut self.first, &mut self.later);
            self.bytes -= bytes;
            self.fragments -= 1;
        }
    }

    /// Keeps the fragments from the key on, and drops those before it.
    pub fn retain(&mut self, key: K)
        ensures value { self.new ≡ from_rank rank_of (rank_at K.number K.index key) self.old }
        ensures others { NoneComplete (intervals_of self.old) → NoneComplete (intervals_of self.new) }
        ensures stays { (test : List Held → Bool) → ((r : List Held) → test r ≡ true → is_complete r ≡ true) → NonePass test (intervals_of self.old) → NonePass test (intervals_of self.new) }
        ensures bytes { bytes_of self.new ≤ bytes_of self.old }
        ensures fragments { length self.new ≤ length self.old }
    {
        if ends_below(&self.first, &self.later, key) {
            *self = IntervalMap::new(self.alloc);
            return;
        }
        self.drop_low(key);
        self.drop_before(key);
    }
}
