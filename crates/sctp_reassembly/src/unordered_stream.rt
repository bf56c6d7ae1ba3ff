//! A stream whose messages become ready when they are complete.

ghost use Rattle.std.specs.Prelude.{◌≡◌, ◌+◌, ◌<◌, ◌≤◌, ◌^◌, ◌++◌, ◌∷◌, ℕ, suc, length, OnOk, OnErr, IfSome, IfNone, []};
ghost use Rattle.sctp_fragments.specs.Held.{bytes_of, is_complete};
ghost use Rattle.sctp_fragments.specs.Interval.{as_held};
ghost use Rattle.sctp_fragments.specs.ReassemblyKey.{rank_at};
ghost use Rattle.sctp_reassembly.specs.Delivery.{held_from, unordered_arrival, unordered_forward, ready_bytes, Extends};
ghost use Rattle.sctp_reassembly.specs.InterruptedStreams.{unordered_arrival_in_part};
ghost use Rattle.sctp_reassembly.specs.UnorderedByTsn.{BeginsFrom};
ghost use Rattle.sctp_reassembly.specs.UnorderedState.{unordered_of, AreNumbers, IsUsed};

use crate::ordered_stream::{FIRST, hand_on};
use crate::ready_messages::ReadyMessages;
use crate::reassembly_stream::ReassemblyStream;
use crate::unordered_fragments::UnorderedFragments;
use sctp_chunk::Data;
use sctp_fragments::ReassemblyKey;
use std::alloc::{AllocError, Global};
use std::marker::Model;

/// What is kept of a stream.
#[derive(Drop)]
pub(crate) enum UnorderedState<K: ReassemblyKey> {
    /// No fragment is held: the number that others are read near to, and the one below which messages are late.
    Idle(u64, u64),
    /// Fragments are held.
    Holding(Box<UnorderedFragments<K>>),
}

/// The fragments of a stream's unordered messages. Where no fragment is held no more is kept than the numbers.
#[derive(Drop)]
pub struct UnorderedStream<K: ReassemblyKey> {
    alloc: Global,
    state: UnorderedState<K>,
}

impl<K: ReassemblyKey> Model for UnorderedStream<K> {
    ghost use Rattle.sctp_reassembly.specs.Delivery.{UnorderedStream};
    ghost use Rattle.sctp_reassembly.specs.UnorderedState.{unordered_of, IsUnorderedState};

    ghost Value = { UnorderedStream };

    ghost view = { λ s. unordered_of s.state };

    ghost invariant = { λ s. IsUnorderedState s.state };
}

/// The numbers of a stream, where there is memory for fragments, and none in it.
fn spare<K: ReassemblyKey>(state: &UnorderedState<K>) -> Option<(u64, u64)>
    ensures spare { IfSome result (λ numbers. unordered_of state.now ≡ record { near = numbers.0; passed = numbers.1; held = [] }) }
    ensures used { IfNone result (IsUsed state.now) }
{
    match state {
        UnorderedState::Idle(_, _) => None,
        UnorderedState::Holding(fragments) => fragments.idle(),
    }
}

/// Gives the memory back where no fragment is held.
fn give_back<K: ReassemblyKey>(state: &mut UnorderedState<K>)
    ensures same { unordered_of state.new ≡ unordered_of state.old }
    ensures used { IsUsed state.new }
{
    if let Some((near, passed)) = spare(state) {
        *state = UnorderedState::Idle(near, passed);
    }
}

/// Whether the fragment is all of a message.
fn is_whole(fragment: &Data) -> bool
    ensures { (number index : ℕ) → result ≡ is_complete (as_held number index fragment.now ∷ []) }
{
    fragment.is_beginning && fragment.is_end
}

/// Adds a fragment to those that are held, or as the first one: one that is all of its message, where none is held, is handed on.
/// Of a message that a forward point passed only the number is kept.
#[tactic(auto, using(crate::proofs::ExtendsLemmas::extends_none))]
fn add_in<K: ReassemblyKey>(
    alloc: Global,
    state: &mut UnorderedState<K>,
    key: K,
    fragment: Data,
    ready: &mut ReadyMessages,
) -> Result<(), AllocError>
    requires numbers { AreNumbers (unordered_of state.old) }
    requires room { bytes_of (unordered_of state.old).held + ready_bytes ready.old + length fragment.payload.items < 2 ^ 64 }
    requires fragments { length (unordered_of state.old).held + 1 < 2 ^ 64 }
    requires small { K.number key < 2 ^ 63 }
    ensures ok { OnOk result (unordered_of state.new ≡ (unordered_arrival (as_held (K.number key) (K.index key) fragment) (unordered_of state.old)).stream) }
    ensures ready { OnOk result (ready.new ≡ ready.old ++ (unordered_arrival (as_held (K.number key) (K.index key) fragment) (unordered_of state.old)).messages) }
    ensures err { OnErr result ((steps : ℕ) × ((unordered_of state.new ≡ (unordered_arrival_in_part steps (as_held (K.number key) (K.index key) fragment) (unordered_of state.old)).stream) × (ready.new ≡ ready.old ++ (unordered_arrival_in_part steps (as_held (K.number key) (K.index key) fragment) (unordered_of state.old)).messages))) }
    ensures kept { Extends ready.old ready.new }
    ensures bytes { bytes_of (unordered_of state.new).held + ready_bytes ready.new ≤ bytes_of (unordered_of state.old).held + ready_bytes ready.old + length fragment.payload.items }
    ensures fragments { length (unordered_of state.new).held ≤ length (unordered_of state.old).held + 1 }
    ensures numbers { AreNumbers (unordered_of state.new) }
{
    match state {
        UnorderedState::Holding(fragments) => fragments.add(key, fragment, ready),
        UnorderedState::Idle(near, passed) => {
            *near = key.number().max(FIRST);
            if key.number() < *passed {
                return Ok(());
            }
            if is_whole(&fragment) {
                return hand_on(fragment, ready);
            }
            let mut fragments = Box::new(alloc, UnorderedFragments::new(alloc, *near, *passed))?;
            let added = fragments.add(key, fragment, ready);
            *state = UnorderedState::Holding(fragments);
            added
        }
    }
}

/// Drops the messages before that of the key, which later fragments won't bring back.
fn forward_in<K: ReassemblyKey>(state: &mut UnorderedState<K>, first: K)
    requires numbers { AreNumbers (unordered_of state.old) }
    requires some { 0 < K.number first }
    requires small { K.number first < 2 ^ 63 }
    ensures value { (n : ℕ) → K.number first ≡ suc n → K.index first ≡ 0 → unordered_of state.new ≡ unordered_forward n (unordered_of state.old) }
    ensures bytes { bytes_of (unordered_of state.new).held ≤ bytes_of (unordered_of state.old).held }
    ensures fragments { length (unordered_of state.new).held ≤ length (unordered_of state.old).held }
    ensures numbers { AreNumbers (unordered_of state.new) }
{
    match state {
        UnorderedState::Holding(fragments) => fragments.forward(first),
        UnorderedState::Idle(near, passed) => {
            *near = (*near).max(first.number() - 1);
            *passed = (*passed).max(first.number());
        }
    }
}

/// Drops the fragments before the key.
fn drop_before<K: ReassemblyKey>(state: &mut UnorderedState<K>, first: K)
    requires numbers { AreNumbers (unordered_of state.old) }
    ensures value { unordered_of state.new ≡ held_from (rank_at K.number K.index first) (unordered_of state.old) }
    ensures bytes { bytes_of (unordered_of state.new).held ≤ bytes_of (unordered_of state.old).held }
    ensures fragments { length (unordered_of state.new).held ≤ length (unordered_of state.old).held }
    ensures numbers { AreNumbers (unordered_of state.new) }
{
    if let UnorderedState::Holding(fragments) = state {
        fragments.forward_to(first);
    }
}

impl<K: ReassemblyKey> UnorderedStream<K> {
    /// The key of the first fragment.
    pub fn first(&self) -> Option<K>
        ensures some { IfSome result (λ k. BeginsFrom (rank_at K.number K.index k) self.now.held) }
        ensures none { IfNone result (self.now.held ≡ []) }
    {
        match &self.state {
            UnorderedState::Idle(_, _) => None,
            UnorderedState::Holding(fragments) => fragments.first(),
        }
    }

    /// Drops the fragments before the key.
    pub fn forward_to(&mut self, first: K)
        ensures value { self.new ≡ held_from (rank_at K.number K.index first) self.old }
        ensures bytes { bytes_of self.new.held ≤ bytes_of self.old.held }
        ensures fragments { length self.new.held ≤ length self.old.held }
    {
        drop_before(&mut self.state, first);
        give_back(&mut self.state);
    }
}

impl<K: ReassemblyKey> ReassemblyStream for UnorderedStream<K> {
    ghost use Rattle.std.proofs.Common.{refl};
    ghost use Rattle.sctp_reassembly.specs.Delivery.{fresh_unordered, unordered_arrival, unordered_forward};
    ghost use Rattle.sctp_reassembly.specs.InterruptedStreams.{unordered_arrival_in_part};

    type Key = K;

    ghost held = { λ s. s.held };

    ghost fresh = { fresh_unordered };

    ghost reading_point = { λ s. s.near };

    ghost after_arrival = { λ h s. (unordered_arrival h s).stream };

    ghost made_ready = { λ h s. (unordered_arrival h s).messages };

    ghost after_forward = { unordered_forward };

    ghost forwarded = { λ n s. [] };

    ghost arrival_in_part = { λ steps h s. (unordered_arrival_in_part steps h s).stream };

    ghost ready_in_part = { λ steps h s. (unordered_arrival_in_part steps h s).messages };

    ghost forward_in_part = { λ steps n s. unordered_forward n s };

    ghost forwarded_in_part = { λ steps n s. [] };

    /// A stream of which nothing came.
    fn new(alloc: Global) -> UnorderedStream<K> {
        UnorderedStream {
            alloc,
            state: UnorderedState::Idle(FIRST, 0),
        }
    }

    /// How many bytes of payload are held.
    fn queued_bytes(&self) -> usize {
        match &self.state {
            UnorderedState::Idle(_, _) => 0,
            UnorderedState::Holding(fragments) => fragments.total_bytes(),
        }
    }

    /// How many fragments are held.
    fn held_fragments(&self) -> usize {
        match &self.state {
            UnorderedState::Idle(_, _) => 0,
            UnorderedState::Holding(fragments) => fragments.len(),
        }
    }

    /// What numbers are read near to: the last that came, 2^32 at least, or a greater one that a forward point named since.
    fn reading_point(&self) -> u128 {
        match &self.state {
            UnorderedState::Idle(near, _) => *near as u128,
            UnorderedState::Holding(fragments) => fragments.near() as u128,
        }
    }

    /// Adds a fragment, unless a forward point passed its message; a message that it completes becomes ready. Takes a few
    /// searches of the map of intervals. A fragment that is all of its message, where nothing is held, is handed on.
    ///
    /// Without memory the fragment, or the message that it completes, may be lost; what was ready stays ready.
    #[tactic(auto, using(crate::proofs::ExtendsLemmas::extends_none))]
    fn add(&mut self, key: K, fragment: Data, ready: &mut ReadyMessages) -> Result<(), AllocError> {
        let added = add_in(self.alloc, &mut self.state, key, fragment, ready);
        give_back(&mut self.state);
        added
    }

    /// Drops the messages before that of the key, which later fragments won't bring back.
    #[tactic(auto, using(crate::proofs::ExtendsLemmas::extends_none))]
    fn forward(&mut self, first: K, _ready: &mut ReadyMessages) -> Result<(), AllocError> {
        forward_in(&mut self.state, first);
        give_back(&mut self.state);
        Ok(())
    }

    ghost is_blank = { refl };

    ghost begins = { refl };

    ghost forwards_none = { λ n. refl };

    ghost forwards_none_in_part = { λ steps n. refl };
}
