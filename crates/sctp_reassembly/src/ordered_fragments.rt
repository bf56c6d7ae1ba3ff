//! Fragments of a stream whose messages become ready in the order of their numbers.

ghost use Rattle.std.specs.Prelude.{◌≡◌, ◌==◌, ◌+◌, ◌<◌, ◌≤◌, ◌^◌, ◌++◌, ◌∷◌, ℕ, suc, List, length, option_map, OnOk, OnErr, IfOk, IfSome, IfNone, nat_lt, [], true, false};
ghost use Rattle.std.specs.List.{find};
ghost use Rattle.sctp_serial.specs.Unwrapped.{origin};
ghost use Rattle.sctp_fragments.specs.Held.{Held, bytes_of, rank_of, intervals_of, is_complete, is_in_turn, without_first_of, left_by, IsPlaced, NoneInTurn};
ghost use Rattle.sctp_fragments.specs.ReassemblyKey.{pair_rank, rank_at};
ghost use Rattle.sctp_fragments.specs.Interval.{as_held, held_of, run_of};
ghost use Rattle.sctp_fragments.specs.Runs.{is_held, with_item};
ghost use Rattle.sctp_reassembly.specs.Delivery.{deliver, ordered_arrival, ordered_forward, ready_bytes, Extends};
ghost use Rattle.sctp_reassembly.specs.Finished.{NoneMissed, IsNumbered};
ghost use Rattle.sctp_reassembly.specs.InterruptedStreams.{deliver_in_part, ordered_arrival_in_part, ordered_forward_in_part};

use crate::finished::Finished;
use crate::interval_list::IntervalList;
use crate::ready_messages::ReadyMessages;
use sctp_chunk::Data;
use sctp_fragments::{Interval, ReassemblyKey};
use std::alloc::{AllocError, Global};
use std::marker::Model;

/// The fragments of a stream's ordered messages, and which message is next.
#[derive(Drop)]
pub(crate) struct OrderedFragments<K: ReassemblyKey> {
    alloc: Global,
    // the number before that of the next message: so it is one that a key may have
    last: u64,
    list: IntervalList<K>,
    // whether it is known that nothing in the list is in turn: it isn't after want of memory
    is_settled: bool,
    // where complete intervals begin, of the next message and of later ones: known once intervals were many
    finished: Finished<K>,
}

impl<K: ReassemblyKey> Model for OrderedFragments<K> {
    ghost use Rattle.std.specs.Prelude.{◌+◌};
    ghost use Rattle.sctp_reassembly.specs.Delivery.{OrderedStream};
    ghost use Rattle.sctp_reassembly.specs.Finished.{IsKeptInOrder};

    ghost Value = { OrderedStream };

    ghost view = { λ s. record { next = s.last + 1; held = s.list } };

    ghost invariant = { λ s. IsKeptInOrder K.number K.index (record { next = s.last + 1; held = s.list }) s.is_settled s.finished };
}

/// Takes out the first interval that is a complete message with the number.
fn pop_in_turn<K: ReassemblyKey>(
    list: &mut IntervalList<K>,
    finished: &mut Finished<K>,
    number: u128,
) -> Option<Interval<K>>
    requires noted { NoneMissed K.number K.index (pair_rank number 0) finished.old (intervals_of list.old) }
    ensures taken { option_map (λ i. run_of (held_of K.number K.index) i) result ≡ find (is_in_turn number) (intervals_of list.old) }
    ensures intervals { intervals_of list.new ≡ without_first_of (is_in_turn number) (intervals_of list.old) }
    ensures value { list.new ≡ left_by (is_in_turn number) list.old }
    ensures noted { NoneMissed K.number K.index (pair_rank number 0) finished.new (intervals_of list.new) }
    ensures bytes { IfSome result (λ i. bytes_of list.old ≡ bytes_of (run_of (held_of K.number K.index) i) + bytes_of list.new) }
    ensures fragments { IfSome result (λ i. length list.old ≡ length (run_of (held_of K.number K.index) i) + length list.new) }
{
    match finished.search(number) {
        Some(key) => list.pop_front_from(key, number),
        None => None,
    }
}

/// Makes the complete messages ready that are in turn, one after the other, behind the last one.
#[tactic(auto, using(crate::proofs::ExtendsLemmas::extends_none, crate::proofs::ExtendsLemmas::extends_both))]
fn deliver<K: ReassemblyKey>(
    alloc: Global,
    last: &mut u64,
    list: &mut IntervalList<K>,
    finished: &mut Finished<K>,
    ready: &mut ReadyMessages,
) -> Result<(), AllocError>
    requires room { bytes_of list.old + ready_bytes ready.old < 2 ^ 64 }
    requires noted { NoneMissed K.number K.index (pair_rank (last.old + 1) 0) finished.old (intervals_of list.old) }
    ensures next { OnOk result (last.new + 1 ≡ (deliver (last.old + 1) list.old).stream.next) }
    ensures held { OnOk result (list.new ≡ (deliver (last.old + 1) list.old).stream.held) }
    ensures ready { OnOk result (ready.new ≡ ready.old ++ (deliver (last.old + 1) list.old).messages) }
    ensures settled { OnOk result (NoneInTurn (last.new + 1) (intervals_of list.new)) }
    ensures noted { NoneMissed K.number K.index (pair_rank (last.new + 1) 0) finished.new (intervals_of list.new) }
    ensures onward { last.old ≤ last.new }
    ensures err { OnErr result ((count : ℕ) × ((record { next = last.new + 1; held = list.new } ≡ (deliver_in_part count (last.old + 1) list.old).stream) × (ready.new ≡ ready.old ++ (deliver_in_part count (last.old + 1) list.old).messages))) }
    ensures kept { Extends ready.old ready.new }
    ensures bytes { bytes_of list.new + ready_bytes ready.new ≤ bytes_of list.old + ready_bytes ready.old }
    ensures fragments { length list.new ≤ length list.old }
{
    // (that a number fits is known once it is read)
    let _last = *last;
    while let Some(interval) = pop_in_turn(list, finished, *last as u128 + 1) {
        let number = interval.first().key.number();
        ready.push_complete(alloc, interval)?;
        *last = number;
    }
    Ok(())
}

/// Of so many intervals the complete ones are noted. Fewer are looked through.
const MANY: usize = 16;

/// Notes the interval with the key where it is complete, and says where it begins then. Where intervals become many, notes all that are.
fn note_in<K: ReassemblyKey>(
    finished: &mut Finished<K>,
    list: &IntervalList<K>,
    key: K,
) -> Option<K>
    ensures noted { (m : ℕ) (old : List Held) (x : Held) → IsPlaced old list.now x → rank_of x ≡ rank_at K.number K.index key → NoneMissed K.number K.index m finished.old (intervals_of old) → NoneMissed K.number K.index m finished.new (intervals_of list.now) }
    ensures number { IfSome result (λ k. (front back : List (List Held)) (r : List Held) → intervals_of list.now ≡ front ++ r ∷ back → is_held rank_of (rank_at K.number K.index key) r ≡ true → IsNumbered (K.number k) r) }
    ensures none { IfNone result ((front back : List (List Held)) (r : List Held) → intervals_of list.now ≡ front ++ r ∷ back → is_held rank_of (rank_at K.number K.index key) r ≡ true → is_complete r ≡ false) }
{
    let first = list.finished_at(key);
    if !finished.is_known() {
        if list.len() == MANY {
            *finished = list.finished();
        }
        return first;
    }
    if let Some(first) = &first {
        finished.note(*first);
    }
    first
}

/// Whether a message that begins there has the number.
pub fn is_message<K: ReassemblyKey>(first: Option<K>, number: u128) -> bool
    ensures some { IfSome first (λ k. result ≡ (K.number k == number)) }
    ensures none { IfNone first (result ≡ false) }
{
    match first {
        Some(first) => first.number() as u128 == number,
        None => false,
    }
}

/// Adds a fragment, and says whether the interval that took it is in turn.
fn add_in<K: ReassemblyKey>(
    list: &mut IntervalList<K>,
    finished: &mut Finished<K>,
    key: K,
    fragment: Data,
    next: u128,
) -> Result<bool, AllocError>
    requires room { bytes_of list.old + length fragment.payload.items < 2 ^ 64 }
    requires fragments { length list.old + 1 < 2 ^ 64 }
    ensures value { OnOk result (list.new ≡ with_item rank_of (as_held (K.number key) (K.index key) fragment) list.old) }
    ensures none { IfOk result (λ turn. turn ≡ false → NoneInTurn next (intervals_of list.old) → NoneInTurn next (intervals_of list.new)) }
    ensures noted { (m : ℕ) → NoneMissed K.number K.index m finished.old (intervals_of list.old) → NoneMissed K.number K.index m finished.new (intervals_of list.new) }
    ensures bytes { bytes_of list.new ≤ bytes_of list.old + length fragment.payload.items }
    ensures fragments { length list.new ≤ length list.old + 1 }
    ensures err { OnErr result (list.new ≡ list.old) }
{
    if !list.add(key, fragment)? {
        return Ok(false);
    }
    let first = note_in(finished, list, key);
    Ok(is_message(first, next))
}

/// Whether nothing is in turn: nothing was before, and no interval came to be.
fn stays_settled(is_settled: bool, is_turn: bool) -> bool
    ensures settled { result ≡ true → is_settled ≡ true }
    ensures turn { result ≡ true → is_turn ≡ false }
{
    is_settled && !is_turn
}

impl<K: ReassemblyKey> OrderedFragments<K> {
    /// None yet. Takes no memory.
    pub fn new(alloc: Global, last: u64) -> OrderedFragments<K>
        requires { origin ≤ last + 1 }
        ensures { result ≡ record { next = last + 1; held = [] } }
    {
        OrderedFragments {
            alloc,
            last,
            list: IntervalList::new(alloc),
            is_settled: true,
            finished: Finished::unknown(),
        }
    }

    /// The number before that of the next message.
    pub fn last(&self) -> u64
        ensures value { result + 1 ≡ self.now.next }
        ensures range { origin ≤ result + 1 }
    {
        self.last
    }

    /// The number before that of the next message, where there are no fragments.
    pub fn idle(&self) -> Option<u64>
        ensures some { IfSome result (λ last. self.now ≡ record { next = last + 1; held = [] }) }
        ensures none { IfNone result (0 < length self.now.held) }
    {
        if !self.list.is_empty() {
            return None;
        }
        Some(self.last)
    }

    /// How many bytes of payload they have.
    pub fn total_bytes(&self) -> usize
        ensures { result ≡ bytes_of self.now.held }
    {
        self.list.total_bytes()
    }

    /// How many there are.
    pub fn len(&self) -> usize
        ensures { result ≡ length self.now.held }
    {
        self.list.held_fragments()
    }

    /// Adds a fragment, and makes ready what is then in turn.
    #[tactic(auto, using(crate::proofs::ExtendsLemmas::extends_none))]
    pub fn keep(
        &mut self,
        key: K,
        fragment: Data,
        ready: &mut ReadyMessages,
    ) -> Result<(), AllocError>
        requires due { nat_lt (K.number key) self.old.next ≡ false }
        requires room { bytes_of self.old.held + ready_bytes ready.old + length fragment.payload.items < 2 ^ 64 }
        requires fragments { length self.old.held + 1 < 2 ^ 64 }
        ensures ok { OnOk result (self.new ≡ (ordered_arrival (as_held (K.number key) (K.index key) fragment) self.old).stream) }
        ensures ready { OnOk result (ready.new ≡ ready.old ++ (ordered_arrival (as_held (K.number key) (K.index key) fragment) self.old).messages) }
        ensures err { OnErr result ((steps : ℕ) × ((self.new ≡ (ordered_arrival_in_part steps (as_held (K.number key) (K.index key) fragment) self.old).stream) × (ready.new ≡ ready.old ++ (ordered_arrival_in_part steps (as_held (K.number key) (K.index key) fragment) self.old).messages))) }
        ensures kept { Extends ready.old ready.new }
        ensures bytes { bytes_of self.new.held + ready_bytes ready.new ≤ bytes_of self.old.held + ready_bytes ready.old + length fragment.payload.items }
        ensures fragments { length self.new.held ≤ length self.old.held + 1 }
        ensures least { origin ≤ self.new.next }
    {
        let next = self.last as u128 + 1;
        let is_turn = add_in(&mut self.list, &mut self.finished, key, fragment, next)?;
        self.is_settled = stays_settled(self.is_settled, is_turn);
        if self.is_settled {
            return Ok(());
        }
        deliver(
            self.alloc,
            &mut self.last,
            &mut self.list,
            &mut self.finished,
            ready,
        )?;
        self.is_settled = true;
        Ok(())
    }

    /// Whether the key is not above the next message, and nothing in turn: then a forward point to it makes nothing ready.
    fn is_passed(&self, first: K) -> bool
        ensures next { result ≡ true → K.number first ≤ self.now.next }
        ensures settled { result ≡ true → NoneInTurn self.now.next (intervals_of self.now.held) }
    {
        if !self.is_settled {
            return false;
        }
        first.number() as u128 <= self.last as u128 + 1
    }

    /// Drops the messages before that of the key, and moves the next number to it, never back. What is in turn then becomes
    /// ready. Where the next number stays, no more is looked through than what is dropped.
    #[tactic(auto, using(crate::proofs::ExtendsLemmas::extends_none))]
    pub fn forward(&mut self, first: K, ready: &mut ReadyMessages) -> Result<(), AllocError>
        requires room { bytes_of self.old.held + ready_bytes ready.old < 2 ^ 64 }
        requires some { 0 < K.number first }
        requires small { K.number first < 2 ^ 63 }
        ensures ok { (n : ℕ) → K.number first ≡ suc n → K.index first ≡ 0 → OnOk result (self.new ≡ (ordered_forward n self.old).stream) }
        ensures ready { (n : ℕ) → K.number first ≡ suc n → K.index first ≡ 0 → OnOk result (ready.new ≡ ready.old ++ (ordered_forward n self.old).messages) }
        ensures err { (n : ℕ) → K.number first ≡ suc n → K.index first ≡ 0 → OnErr result ((steps : ℕ) × ((self.new ≡ (ordered_forward_in_part steps n self.old).stream) × (ready.new ≡ ready.old ++ (ordered_forward_in_part steps n self.old).messages))) }
        ensures kept { Extends ready.old ready.new }
        ensures bytes { bytes_of self.new.held + ready_bytes ready.new ≤ bytes_of self.old.held + ready_bytes ready.old }
        ensures fragments { length self.new.held ≤ length self.old.held }
        ensures least { origin ≤ self.new.next }
    {
        let is_passed = self.is_passed(first);
        self.list.retain(first);
        self.finished.pass(first.number() as u128);
        if is_passed {
            return Ok(());
        }
        self.is_settled = false;
        self.last = self.last.max(first.number() - 1);
        deliver(
            self.alloc,
            &mut self.last,
            &mut self.list,
            &mut self.finished,
            ready,
        )?;
        self.is_settled = true;
        Ok(())
    }
}
