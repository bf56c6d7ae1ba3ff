//! Fragments of a stream whose messages become ready when they are complete.

ghost use Rattle.std.specs.Prelude.{◌≡◌, ℕ, suc, ◌+◌, ◌<◌, ◌≤◌, ◌^◌, ◌++◌, ◌⊎◌, length, OnOk, OnErr, IfSome, IfNone, []};
ghost use Rattle.sctp_serial.specs.Unwrapped.{origin};
ghost use Rattle.sctp_fragments.specs.Runs.{with_item};
ghost use Rattle.sctp_fragments.specs.Held.{rank_of, bytes_of, intervals_of, is_complete, left_by, NoneComplete};
ghost use Rattle.sctp_fragments.specs.Interval.{as_held};
ghost use Rattle.sctp_fragments.specs.ReassemblyKey.{rank_at};
ghost use Rattle.sctp_reassembly.specs.Delivery.{first_complete, held_from, unordered_arrival, unordered_forward, ready_bytes, Extends};
ghost use Rattle.sctp_reassembly.specs.InterruptedStreams.{unordered_arrival_in_part};
ghost use Rattle.sctp_reassembly.specs.UnorderedByTsn.{BeginsFrom};
ghost use Rattle.sctp_reassembly.specs.UnorderedState.{AreNumbers};

use crate::interval_list::IntervalList;
use crate::ordered_stream::FIRST;
use crate::ready_messages::ReadyMessages;
use sctp_chunk::Data;
use sctp_fragments::ReassemblyKey;
use std::alloc::{AllocError, Global};
use std::marker::Model;

/// The fragments of a stream's unordered messages.
#[derive(Drop)]
pub(crate) struct UnorderedFragments<K: ReassemblyKey> {
    alloc: Global,
    near: u64,
    passed: u64,
    list: IntervalList<K>,
}

impl<K: ReassemblyKey> Model for UnorderedFragments<K> {
    ghost use Rattle.sctp_reassembly.specs.Delivery.{UnorderedStream, IsUnordered};

    ghost Value = { UnorderedStream };

    ghost view = { λ s. record { near = s.near; passed = s.passed; held = s.list } };

    ghost invariant = { λ s. IsUnordered (record { near = s.near; passed = s.passed; held = s.list }) };
}

/// Adds a fragment, and makes the message ready that it completes.
#[tactic(auto, using(crate::proofs::ExtendsLemmas::extends_none))]
fn take_in<K: ReassemblyKey>(
    alloc: Global,
    list: &mut IntervalList<K>,
    key: K,
    fragment: Data,
    ready: &mut ReadyMessages,
) -> Result<(), AllocError>
    requires room { bytes_of list.old + ready_bytes ready.old + length fragment.payload.items < 2 ^ 64 }
    requires fragments { length list.old + 1 < 2 ^ 64 }
    requires settled { NoneComplete (intervals_of list.old) }
    ensures held { OnOk result (list.new ≡ left_by is_complete (with_item rank_of (as_held (K.number key) (K.index key) fragment) list.old)) }
    ensures ready { OnOk result (ready.new ≡ ready.old ++ first_complete (with_item rank_of (as_held (K.number key) (K.index key) fragment) list.old)) }
    ensures settled { NoneComplete (intervals_of list.new) }
    ensures err { OnErr result ((list.new ≡ list.old) ⊎ (list.new ≡ left_by is_complete (with_item rank_of (as_held (K.number key) (K.index key) fragment) list.old))) }
    ensures unready { OnErr result (ready.new ≡ ready.old) }
    ensures kept { Extends ready.old ready.new }
    ensures bytes { bytes_of list.new + ready_bytes ready.new ≤ bytes_of list.old + ready_bytes ready.old + length fragment.payload.items }
    ensures fragments { length list.new ≤ length list.old + 1 }
{
    if !list.add(key, fragment)? {
        return Ok(());
    }
    let Some(interval) = list.pop_if_complete(key) else {
        return Ok(());
    };
    ready.push_complete(alloc, interval)
}

impl<K: ReassemblyKey> UnorderedFragments<K> {
    /// None yet. Takes no memory.
    pub fn new(alloc: Global, near: u64, passed: u64) -> UnorderedFragments<K>
        requires { AreNumbers (record { near = near; passed = passed; held = [] }) }
        ensures { result ≡ record { near = near; passed = passed; held = [] } }
    {
        UnorderedFragments {
            alloc,
            near,
            passed,
            list: IntervalList::new(alloc),
        }
    }

    /// The number that others are read near to, and the one below which messages are late, where there are no fragments.
    pub fn idle(&self) -> Option<(u64, u64)>
        ensures some { IfSome result (λ numbers. self.now ≡ record { near = numbers.0; passed = numbers.1; held = [] }) }
        ensures none { IfNone result (0 < length self.now.held) }
    {
        if !self.list.is_empty() {
            return None;
        }
        Some((self.near, self.passed))
    }

    /// How many bytes of payload they have.
    pub fn total_bytes(&self) -> usize
        ensures { result ≡ bytes_of self.now.held }
    {
        self.list.total_bytes()
    }

    /// How many there are.
    pub fn len(&self) -> usize
        ensures { result ≡ length self.now.held }
    {
        self.list.held_fragments()
    }

    /// The key of the first fragment.
    pub fn first(&self) -> Option<K>
        ensures some { IfSome result (λ k. BeginsFrom (rank_at K.number K.index k) self.now.held) }
        ensures none { IfNone result (self.now.held ≡ []) }
    {
        self.list.first()
    }

    /// What numbers are read near to: the last that came, 2^32 at least, or a greater one that a forward point named since.
    pub fn near(&self) -> u64
        ensures value { result ≡ self.now.near }
        ensures least { origin ≤ result }
        ensures most { result < 2 ^ 63 }
    {
        self.near
    }

    /// Drops the fragments before the key.
    pub fn forward_to(&mut self, first: K)
        ensures value { self.new ≡ held_from (rank_at K.number K.index first) self.old }
        ensures bytes { bytes_of self.new.held ≤ bytes_of self.old.held }
        ensures fragments { length self.new.held ≤ length self.old.held }
        ensures numbers { AreNumbers self.new }
    {
        self.list.retain(first);
    }

    /// Adds a fragment, unless a forward point passed its message; a message that it completes becomes ready.
    #[tactic(auto, using(crate::proofs::ExtendsLemmas::extends_none))]
    pub fn add(
        &mut self,
        key: K,
        fragment: Data,
        ready: &mut ReadyMessages,
    ) -> Result<(), AllocError>
        requires room { bytes_of self.old.held + ready_bytes ready.old + length fragment.payload.items < 2 ^ 64 }
        requires fragments { length self.old.held + 1 < 2 ^ 64 }
        requires small { K.number key < 2 ^ 63 }
        ensures ok { OnOk result (self.new ≡ (unordered_arrival (as_held (K.number key) (K.index key) fragment) self.old).stream) }
        ensures ready { OnOk result (ready.new ≡ ready.old ++ (unordered_arrival (as_held (K.number key) (K.index key) fragment) self.old).messages) }
        ensures err { OnErr result ((steps : ℕ) × ((self.new ≡ (unordered_arrival_in_part steps (as_held (K.number key) (K.index key) fragment) self.old).stream) × (ready.new ≡ ready.old ++ (unordered_arrival_in_part steps (as_held (K.number key) (K.index key) fragment) self.old).messages))) }
        ensures kept { Extends ready.old ready.new }
        ensures bytes { bytes_of self.new.held + ready_bytes ready.new ≤ bytes_of self.old.held + ready_bytes ready.old + length fragment.payload.items }
        ensures fragments { length self.new.held ≤ length self.old.held + 1 }
        ensures numbers { AreNumbers self.new }
    {
        let number = key.number();
        self.near = number.max(FIRST);
        if number < self.passed {
            return Ok(());
        }
        take_in(self.alloc, &mut self.list, key, fragment, ready)
    }

    /// Drops the messages before that of the key, which later fragments won't bring back.
    pub fn forward(&mut self, first: K)
        requires some { 0 < K.number first }
        requires small { K.number first < 2 ^ 63 }
        ensures value { (n : ℕ) → K.number first ≡ suc n → K.index first ≡ 0 → self.new ≡ unordered_forward n self.old }
        ensures bytes { bytes_of self.new.held ≤ bytes_of self.old.held }
        ensures fragments { length self.new.held ≤ length self.old.held }
        ensures numbers { AreNumbers self.new }
    {
        self.list.retain(first);
        self.near = self.near.max(first.number() - 1);
        self.passed = self.passed.max(first.number());
    }
}
