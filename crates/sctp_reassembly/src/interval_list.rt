//! Intervals in the order of their keys: maximal runs of fragments without a message's border inside.

ghost use Rattle.std.specs.Prelude.{◌≡◌, ◌==◌, ◌+◌, ◌<◌, ◌≤◌, ◌^◌, ◌++◌, ◌∷◌, [], not, List, true, false, length, option_map, IfOk, OnOk, OnErr, IfSome, IfNone};
ghost use Rattle.sctp_fragments.specs.Runs.{is_held, with_item, from_rank};
ghost use Rattle.sctp_fragments.specs.Held.{rank_of, bytes_of, IsPlaced};
ghost use Rattle.sctp_fragments.specs.ReassemblyKey.{rank_at};
ghost use Rattle.sctp_fragments.specs.Interval.{as_held, held_of, entries_of};
ghost use Rattle.sctp_reassembly.specs.ListState.{held_in, IsListState, IsLeft, IsLone};

use crate::finished::{Finished, begin_of};
use crate::interval_map::IntervalMap;
use crate::places::{has_key, least_of};
use sctp_chunk::Data;
use sctp_fragments::{Interval, ReassemblyKey, is_before};
use std::alloc::{AllocError, Global};
use std::marker::Model;

/// How a list has its fragments.
#[derive(Drop)]
pub(crate) enum ListState<K: ReassemblyKey> {
    /// None.
    Empty,
    /// A single one.
    Lone(Interval<K>),
    /// Several.
    Many(Box<IntervalMap<K>>),
}

/// Fragments by their keys, joined to intervals where they have one key after the other. An interval ends where a message
/// ends, and begins where one begins: so a message is complete exactly where it is an interval.
///
/// A single fragment stands alone. A second one takes a map for all, which goes where at most one is left.
#[derive(Drop)]
pub struct IntervalList<K: ReassemblyKey> {
    alloc: Global,
    state: ListState<K>,
}

impl<K: ReassemblyKey> Model for IntervalList<K> {
    ghost use Rattle.std.specs.Prelude.{List};
    ghost use Rattle.sctp_fragments.specs.Held.{Held};
    ghost use Rattle.sctp_fragments.specs.Interval.{held_of};
    ghost use Rattle.sctp_reassembly.specs.ListState.{held_in, IsListState};

    ghost Value = { List Held };

    ghost view = { λ s. held_in (held_of K.number K.index) s.state };

    ghost invariant = { λ s. IsListState K.number K.index s.state };
}

/// Lets the map go where it has at most one fragment.
fn narrow<K: ReassemblyKey>(state: &mut ListState<K>)
    requires { IsLeft K.number K.index state.old }
    ensures value { held_in (held_of K.number K.index) state.new ≡ held_in (held_of K.number K.index) state.old }
    ensures state { IsListState K.number K.index state.new }
{
    let ListState::Many(map) = state else {
        return;
    };
    if map.sums().1 > 1 {
        return;
    }
    let left = map.take_few();
    *state = left;
}

/// Whether a single fragment is before the key.
fn is_below<K: ReassemblyKey>(interval: &Interval<K>, key: K) -> bool
    ensures gone { IsLone K.number K.index interval.now → result ≡ true → from_rank rank_of (rank_at K.number K.index key) (entries_of (held_of K.number K.index) (interval.now ∷ [])) ≡ [] }
    ensures same { IsLone K.number K.index interval.now → result ≡ false → from_rank rank_of (rank_at K.number K.index key) (entries_of (held_of K.number K.index) (interval.now ∷ [])) ≡ entries_of (held_of K.number K.index) (interval.now ∷ []) }
{
    is_before(interval.first().key, key)
}

/// Has the fragments of the map, one at most, without it.
fn put_few<K: ReassemblyKey>(state: &mut ListState<K>, mut map: IntervalMap<K>)
    requires { length map ≤ 1 }
    ensures value { held_in (held_of K.number K.index) state.new ≡ map }
    ensures state { IsListState K.number K.index state.new }
{
    let few = map.take_few();
    drop(map);
    drop(std::mem::replace(state, few));
}

/// Adds a fragment where none is. Without memory nothing changes.
fn add_only<K: ReassemblyKey>(
    alloc: Global,
    state: &mut ListState<K>,
    key: K,
    fragment: Data,
) -> Result<bool, AllocError>
    requires state { held_in (held_of K.number K.index) state.old ≡ [] }
    requires room { length fragment.payload.items < 2 ^ 64 }
    ensures value { OnOk result (held_in (held_of K.number K.index) state.new ≡ with_item rank_of (as_held (K.number key) (K.index key) fragment) []) }
    ensures answer { IfOk result (λ is_new. is_new ≡ true) }
    ensures place { IfOk result (λ is_new. IsPlaced [] (held_in (held_of K.number K.index) state.new) (as_held (K.number key) (K.index key) fragment)) }
    ensures bytes { bytes_of (held_in (held_of K.number K.index) state.new) ≤ length fragment.payload.items }
    ensures fragments { length (held_in (held_of K.number K.index) state.new) ≤ 1 }
    ensures err { OnErr result (held_in (held_of K.number K.index) state.new ≡ []) }
    ensures state { IsListState K.number K.index state.new }
{
    let mut map = IntervalMap::new(alloc);
    let added = map.add(key, fragment);
    put_few(state, map);
    added
}

/// Adds a fragment to a single one with another key: a map takes both. Without memory nothing changes.
fn add_second<K: ReassemblyKey>(
    alloc: Global,
    state: &mut ListState<K>,
    key: K,
    fragment: Data,
) -> Result<bool, AllocError>
    requires state { IsListState K.number K.index state.old }
    requires room { bytes_of (held_in (held_of K.number K.index) state.old) + length fragment.payload.items < 2 ^ 64 }
    requires fragments { length (held_in (held_of K.number K.index) state.old) + 1 < 2 ^ 64 }
    ensures value { OnOk result (held_in (held_of K.number K.index) state.new ≡ with_item rank_of (as_held (K.number key) (K.index key) fragment) (held_in (held_of K.number K.index) state.old)) }
    ensures answer { IfOk result (λ is_new. is_new ≡ not (is_held rank_of (rank_at K.number K.index key) (held_in (held_of K.number K.index) state.old))) }
    ensures place { IfOk result (λ is_new. is_new ≡ true → IsPlaced (held_in (held_of K.number K.index) state.old) (held_in (held_of K.number K.index) state.new) (as_held (K.number key) (K.index key) fragment)) }
    ensures bytes { bytes_of (held_in (held_of K.number K.index) state.new) ≤ bytes_of (held_in (held_of K.number K.index) state.old) + length fragment.payload.items }
    ensures fragments { length (held_in (held_of K.number K.index) state.new) ≤ length (held_in (held_of K.number K.index) state.old) + 1 }
    ensures err { OnErr result (held_in (held_of K.number K.index) state.new ≡ held_in (held_of K.number K.index) state.old) }
    ensures state { IsListState K.number K.index state.new }
{
    let mut map = Box::new(alloc, IntervalMap::new(alloc))?;
    *map = IntervalMap::of(alloc, std::mem::replace(state, ListState::Empty));
    let added = map.add(key, fragment);
    *state = ListState::Many(map);
    narrow(state);
    added
}

impl<K: ReassemblyKey> IntervalList<K> {
    ghost use Rattle.std.specs.Prelude.{Bool};
    ghost use Rattle.std.specs.List.{find};
    ghost use Rattle.sctp_fragments.specs.Held.{NonePass};
    ghost use Rattle.sctp_fragments.specs.Runs.{is_held, with_item, from_rank};
    ghost use Rattle.sctp_fragments.specs.Held.{Held, rank_of, intervals_of, bytes_of, is_complete, NoneComplete, is_in_turn, without_first_of, left_by, IsPlaced, IsTaken};
    ghost use Rattle.sctp_fragments.specs.ReassemblyKey.{rank_at};
    ghost use Rattle.sctp_fragments.specs.Interval.{as_held, held_of, run_of};
    ghost use Rattle.sctp_reassembly.specs.UnorderedByTsn.{BeginsFrom};
    ghost use Rattle.sctp_reassembly.specs.Finished.{BeginsAt, IsNumbered, NoneMissed, NoneEarlier};

    /// No fragments. Takes no memory.
    pub fn new(alloc: Global) -> IntervalList<K>
        ensures { result ≡ [] }
    {
        IntervalList {
            alloc,
            state: ListState::Empty,
        }
    }

    /// Whether it holds no fragment.
    pub fn is_empty(&self) -> bool
        ensures { result ≡ (length self.now == 0) }
    {
        matches!(&self.state, ListState::Empty)
    }

    /// The key of the first fragment.
    pub(crate) fn first(&self) -> Option<K>
        ensures some { IfSome result (λ k. BeginsFrom (rank_at K.number K.index k) self.now) }
        ensures none { IfNone result (self.now ≡ []) }
    {
        match &self.state {
            ListState::Empty => None,
            ListState::Lone(interval) => Some(interval.first().key),
            ListState::Many(map) => map.first(),
        }
    }

    /// How many bytes of payload it holds.
    pub fn total_bytes(&self) -> usize
        ensures { result ≡ bytes_of self.now }
    {
        match &self.state {
            ListState::Empty => 0,
            ListState::Lone(interval) => interval.total_bytes(),
            ListState::Many(map) => map.sums().0,
        }
    }

    /// How many fragments it holds.
    pub fn held_fragments(&self) -> usize
        ensures { result ≡ length self.now }
    {
        match &self.state {
            ListState::Empty => 0,
            ListState::Lone(_) => 1,
            ListState::Many(map) => map.sums().1,
        }
    }

    /// How many intervals it has.
    pub fn len(&self) -> usize
        ensures { result ≡ length (intervals_of self.now) }
    {
        match &self.state {
            ListState::Empty => 0,
            ListState::Lone(_) => 1,
            ListState::Many(map) => map.len(),
        }
    }

    /// Adds the fragment, and says whether it is new; where its key is held nothing changes. Without memory nothing changes
    /// either.
    pub fn add(&mut self, key: K, fragment: Data) -> Result<bool, AllocError>
        requires room { bytes_of self.old + length fragment.payload.items < 2 ^ 64 }
        requires fragments { length self.old + 1 < 2 ^ 64 }
        ensures value { OnOk result (self.new ≡ with_item rank_of (as_held (K.number key) (K.index key) fragment) self.old) }
        ensures answer { IfOk result (λ is_new. is_new ≡ not (is_held rank_of (rank_at K.number K.index key) self.old)) }
        ensures place { IfOk result (λ is_new. is_new ≡ true → IsPlaced self.old self.new (as_held (K.number key) (K.index key) fragment)) }
        ensures bytes { bytes_of self.new ≤ bytes_of self.old + length fragment.payload.items }
        ensures fragments { length self.new ≤ length self.old + 1 }
        ensures err { OnErr result (self.new ≡ self.old) }
    {
        match &mut self.state {
            ListState::Many(map) => map.add(key, fragment),
            ListState::Empty => add_only(self.alloc, &mut self.state, key, fragment),
            ListState::Lone(interval) => {
                if has_key(interval, key) {
                    return Ok(false);
                }
                add_second(self.alloc, &mut self.state, key, fragment)
            }
        }
    }

    /// The key at which the interval with the key begins, where it is complete.
    pub fn finished_at(&self, key: K) -> Option<K>
        ensures some { IfSome result (λ k. (front back : List (List Held)) (r : List Held) → intervals_of self.now ≡ front ++ r ∷ back → is_held rank_of (rank_at K.number K.index key) r ≡ true → BeginsAt (rank_at K.number K.index k) r) }
        ensures number { IfSome result (λ k. (front back : List (List Held)) (r : List Held) → intervals_of self.now ≡ front ++ r ∷ back → is_held rank_of (rank_at K.number K.index key) r ≡ true → IsNumbered (K.number k) r) }
        ensures none { IfNone result ((front back : List (List Held)) (r : List Held) → intervals_of self.now ≡ front ++ r ∷ back → is_held rank_of (rank_at K.number K.index key) r ≡ true → is_complete r ≡ false) }
    {
        match &self.state {
            ListState::Empty => None,
            ListState::Lone(interval) => begin_of(interval),
            ListState::Many(map) => map.finished_at(key),
        }
    }

    /// The keys at which the complete intervals begin, where there are several fragments.
    pub(crate) fn finished(&self) -> Finished<K>
        ensures { NoneMissed K.number K.index 0 result (intervals_of self.now) }
    {
        match &self.state {
            ListState::Many(map) => map.finished(),
            _ => Finished::unknown(),
        }
    }

    /// Takes the interval with the key out where it is a complete message.
    pub fn pop_if_complete(&mut self, key: K) -> Option<Interval<K>>
        ensures taken { IfSome result (λ i. IsTaken self.old (run_of (held_of K.number K.index) i) self.new) }
        ensures held { IfSome result (λ i. is_held rank_of (rank_at K.number K.index key) (run_of (held_of K.number K.index) i) ≡ true) }
        ensures bytes { IfSome result (λ i. bytes_of self.old ≡ bytes_of (run_of (held_of K.number K.index) i) + bytes_of self.new) }
        ensures fragments { IfSome result (λ i. length self.old ≡ length (run_of (held_of K.number K.index) i) + length self.new) }
        ensures none { IfNone result (self.new ≡ self.old) }
        ensures incomplete { IfNone result ((front back : List (List Held)) (r : List Held) → intervals_of self.old ≡ front ++ r ∷ back → is_held rank_of (rank_at K.number K.index key) r ≡ true → is_complete r ≡ false) }
    {
        if let ListState::Many(map) = &mut self.state {
            let popped = map.pop_if_complete(key);
            narrow(&mut self.state);
            return popped;
        }
        let mut map = IntervalMap::of(
            self.alloc,
            std::mem::replace(&mut self.state, ListState::Empty),
        );
        let popped = map.pop_if_complete(key);
        put_few(&mut self.state, map);
        popped
    }

    /// Takes out the first of the intervals that is a complete message with the number. Other intervals before it, also
    /// incomplete ones, don't stop it.
    pub fn pop_front_if_complete_and(&mut self, number: u128) -> Option<Interval<K>>
        ensures taken { option_map (λ i. run_of (held_of K.number K.index) i) result ≡ find (is_in_turn number) (intervals_of self.old) }
        ensures intervals { intervals_of self.new ≡ without_first_of (is_in_turn number) (intervals_of self.old) }
        ensures value { self.new ≡ left_by (is_in_turn number) self.old }
        ensures bytes { IfSome result (λ i. bytes_of self.old ≡ bytes_of (run_of (held_of K.number K.index) i) + bytes_of self.new) }
        ensures fragments { IfSome result (λ i. length self.old ≡ length (run_of (held_of K.number K.index) i) + length self.new) }
    {
        self.pop_front_from(least_of(number), number)
    }

    /// Takes out the first of the intervals that is a complete message with the number, where none begins before the key. Other
    /// intervals before it, also incomplete ones, don't stop it.
    pub(crate) fn pop_front_from(&mut self, key: K, number: u128) -> Option<Interval<K>>
        requires earlier { NoneEarlier number (rank_at K.number K.index key) (intervals_of self.old) }
        ensures taken { option_map (λ i. run_of (held_of K.number K.index) i) result ≡ find (is_in_turn number) (intervals_of self.old) }
        ensures intervals { intervals_of self.new ≡ without_first_of (is_in_turn number) (intervals_of self.old) }
        ensures value { self.new ≡ left_by (is_in_turn number) self.old }
        ensures bytes { IfSome result (λ i. bytes_of self.old ≡ bytes_of (run_of (held_of K.number K.index) i) + bytes_of self.new) }
        ensures fragments { IfSome result (λ i. length self.old ≡ length (run_of (held_of K.number K.index) i) + length self.new) }
    {
        if let ListState::Many(map) = &mut self.state {
            let popped = map.pop_front_from(key, number);
            narrow(&mut self.state);
            return popped;
        }
        let mut map = IntervalMap::of(
            self.alloc,
            std::mem::replace(&mut self.state, ListState::Empty),
        );
        let popped = map.pop_front_from(key, number);
        put_few(&mut self.state, map);
        popped
    }

    /// Keeps the fragments from the key on, and drops those before it.
    pub fn retain(&mut self, key: K)
        ensures value { self.new ≡ from_rank rank_of (rank_at K.number K.index key) self.old }
        ensures others { NoneComplete (intervals_of self.old) → NoneComplete (intervals_of self.new) }
        ensures stays { (test : List Held → Bool) → ((r : List Held) → test r ≡ true → is_complete r ≡ true) → NonePass test (intervals_of self.old) → NonePass test (intervals_of self.new) }
        ensures bytes { bytes_of self.new ≤ bytes_of self.old }
        ensures fragments { length self.new ≤ length self.old }
    {
        match &mut self.state {
            ListState::Empty => {}
            ListState::Lone(interval) => {
                if is_below(interval, key) {
                    self.state = ListState::Empty;
                }
            }
            ListState::Many(map) => {
                map.retain(key);
                narrow(&mut self.state);
            }
        }
    }
}
