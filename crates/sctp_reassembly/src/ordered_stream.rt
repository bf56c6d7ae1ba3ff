//! A stream whose messages become ready in the order of their numbers.

ghost use Rattle.std.specs.Prelude.{◌≡◌, ◌==◌, ◌+◌, ◌<◌, ◌≤◌, ◌^◌, ◌++◌, ◌∷◌, ℕ, suc, length, nat_lt, OnOk, OnErr, IfSome, IfNone, [], true, false};
ghost use Rattle.sctp_serial.specs.Unwrapped.{origin};
ghost use Rattle.sctp_fragments.specs.Held.{bytes_of, is_in_turn, message_of_run};
ghost use Rattle.sctp_fragments.specs.Interval.{as_held};
ghost use Rattle.sctp_reassembly.specs.Delivery.{ordered_arrival, ordered_forward, ready_bytes, Extends};
ghost use Rattle.sctp_reassembly.specs.InterruptedStreams.{ordered_arrival_in_part, ordered_forward_in_part};
ghost use Rattle.sctp_reassembly.specs.OrderedState.{ordered_of, IsUsed};

use crate::ordered_fragments::OrderedFragments;
use crate::ready_messages::ReadyMessages;
use crate::reassembly_stream::ReassemblyStream;
use sctp_chunk::Data;
use sctp_fragments::ReassemblyKey;
use sctp_serial::Message;
use std::alloc::{AllocError, Global};
use std::marker::Model;

/// The number of a stream's first message. Numbers may lie below it, as those of messages from before a reset.
pub const FIRST: u64 = 1 << 32;

/// What is kept of a stream.
#[derive(Drop)]
pub(crate) enum OrderedState<K: ReassemblyKey> {
    /// No fragment is held: the number before that of the next message.
    Idle(u64),
    /// Fragments are held.
    Holding(Box<OrderedFragments<K>>),
}

/// The fragments of a stream's ordered messages, and which message is next. Where no fragment is held no more is kept than the
/// number: so a stream of which all was taken costs little.
#[derive(Drop)]
pub struct OrderedStream<K: ReassemblyKey> {
    alloc: Global,
    state: OrderedState<K>,
}

impl<K: ReassemblyKey> Model for OrderedStream<K> {
    ghost use Rattle.sctp_reassembly.specs.Delivery.{OrderedStream};
    ghost use Rattle.sctp_reassembly.specs.OrderedState.{ordered_of, IsOrderedState};

    ghost Value = { OrderedStream };

    ghost view = { λ s. ordered_of s.state };

    ghost invariant = { λ s. IsOrderedState s.state };
}

/// Whether the fragment is all of the message with the number.
fn is_whole_at<K: ReassemblyKey>(key: K, fragment: &Data, number: u128) -> bool
    ensures turn { result ≡ is_in_turn number (as_held (K.number key) (K.index key) fragment.now ∷ []) }
    ensures number { result ≡ true → K.number key ≡ number }
{
    fragment.is_beginning && fragment.is_end && key.number() as u128 == number
}

/// Makes a message ready that is one fragment.
#[tactic(auto, using(crate::proofs::ExtendsLemmas::extends_none))]
pub(crate) fn hand_on(fragment: Data, ready: &mut ReadyMessages) -> Result<(), AllocError>
    requires { ready_bytes ready.old + length fragment.payload.items < 2 ^ 64 }
    ensures ready { OnOk result (ready.new ≡ ready.old ++ message_of_run (as_held 0 0 fragment ∷ []) ∷ []) }
    ensures err { OnErr result (ready.new ≡ ready.old) }
    ensures kept { Extends ready.old ready.new }
    ensures bytes { ready_bytes ready.new ≤ ready_bytes ready.old + length fragment.payload.items }
{
    let id = fragment.stream_key.id();
    ready.push(Message::new(id, fragment.ppid, fragment.payload))
}

/// The number before that of the next message, where there is memory for fragments, and none in it.
fn spare<K: ReassemblyKey>(state: &OrderedState<K>) -> Option<u64>
    ensures spare { IfSome result (λ last. ordered_of state.now ≡ record { next = last + 1; held = [] }) }
    ensures used { IfNone result (IsUsed state.now) }
{
    match state {
        OrderedState::Idle(_) => None,
        OrderedState::Holding(fragments) => fragments.idle(),
    }
}

/// Gives the memory back where no fragment is held.
fn give_back<K: ReassemblyKey>(state: &mut OrderedState<K>)
    ensures same { ordered_of state.new ≡ ordered_of state.old }
    ensures used { IsUsed state.new }
{
    if let Some(last) = spare(state) {
        *state = OrderedState::Idle(last);
    }
}

/// Adds a fragment to those that are held, or as the first one, and makes ready what is then in turn.
#[tactic(auto, using(crate::proofs::ExtendsLemmas::extends_none))]
fn keep_in<K: ReassemblyKey>(
    alloc: Global,
    state: &mut OrderedState<K>,
    key: K,
    fragment: Data,
    ready: &mut ReadyMessages,
) -> Result<(), AllocError>
    requires least { origin ≤ (ordered_of state.old).next }
    requires due { nat_lt (K.number key) (ordered_of state.old).next ≡ false }
    requires room { bytes_of (ordered_of state.old).held + ready_bytes ready.old + length fragment.payload.items < 2 ^ 64 }
    requires fragments { length (ordered_of state.old).held + 1 < 2 ^ 64 }
    ensures ok { OnOk result ((ordered_of state.new) ≡ (ordered_arrival (as_held (K.number key) (K.index key) fragment) (ordered_of state.old)).stream) }
    ensures ready { OnOk result (ready.new ≡ ready.old ++ (ordered_arrival (as_held (K.number key) (K.index key) fragment) (ordered_of state.old)).messages) }
    ensures err { OnErr result ((steps : ℕ) × (((ordered_of state.new) ≡ (ordered_arrival_in_part steps (as_held (K.number key) (K.index key) fragment) (ordered_of state.old)).stream) × (ready.new ≡ ready.old ++ (ordered_arrival_in_part steps (as_held (K.number key) (K.index key) fragment) (ordered_of state.old)).messages))) }
    ensures kept { Extends ready.old ready.new }
    ensures bytes { bytes_of (ordered_of state.new).held + ready_bytes ready.new ≤ bytes_of (ordered_of state.old).held + ready_bytes ready.old + length fragment.payload.items }
    ensures fragments { length (ordered_of state.new).held ≤ length (ordered_of state.old).held + 1 }
    ensures least { origin ≤ (ordered_of state.new).next }
{
    match state {
        OrderedState::Holding(fragments) => fragments.keep(key, fragment, ready),
        OrderedState::Idle(last) => {
            let mut fragments = Box::new(alloc, OrderedFragments::new(alloc, *last))?;
            let kept = fragments.keep(key, fragment, ready);
            *state = OrderedState::Holding(fragments);
            kept
        }
    }
}

/// Drops the messages before that of the key, and moves the next number to it, never back. What is in turn then becomes ready.
#[tactic(auto, using(crate::proofs::ExtendsLemmas::extends_none))]
fn forward_in<K: ReassemblyKey>(
    state: &mut OrderedState<K>,
    first: K,
    ready: &mut ReadyMessages,
) -> Result<(), AllocError>
    requires least { origin ≤ (ordered_of state.old).next }
    requires room { bytes_of (ordered_of state.old).held + ready_bytes ready.old < 2 ^ 64 }
    requires some { 0 < K.number first }
    requires small { K.number first < 2 ^ 63 }
    ensures ok { (n : ℕ) → K.number first ≡ suc n → K.index first ≡ 0 → OnOk result (ordered_of state.new ≡ (ordered_forward n (ordered_of state.old)).stream) }
    ensures ready { (n : ℕ) → K.number first ≡ suc n → K.index first ≡ 0 → OnOk result (ready.new ≡ ready.old ++ (ordered_forward n (ordered_of state.old)).messages) }
    ensures err { (n : ℕ) → K.number first ≡ suc n → K.index first ≡ 0 → OnErr result ((steps : ℕ) × ((ordered_of state.new ≡ (ordered_forward_in_part steps n (ordered_of state.old)).stream) × (ready.new ≡ ready.old ++ (ordered_forward_in_part steps n (ordered_of state.old)).messages))) }
    ensures kept { Extends ready.old ready.new }
    ensures bytes { bytes_of (ordered_of state.new).held + ready_bytes ready.new ≤ bytes_of (ordered_of state.old).held + ready_bytes ready.old }
    ensures fragments { length (ordered_of state.new).held ≤ length (ordered_of state.old).held }
    ensures least { origin ≤ (ordered_of state.new).next }
{
    match state {
        OrderedState::Holding(fragments) => fragments.forward(first, ready),
        OrderedState::Idle(last) => {
            *last = (*last).max(first.number() - 1);
            Ok(())
        }
    }
}

impl<K: ReassemblyKey> OrderedStream<K> {
    /// A stream of which nothing is held, and whose next message has this number.
    pub fn restored(alloc: Global, next: u64) -> OrderedStream<K>
        requires { origin ≤ next }
        ensures { result ≡ record { next = next; held = [] } }
    {
        OrderedStream {
            alloc,
            state: OrderedState::Idle(next - 1),
        }
    }

    /// Makes the next message ready, which is one fragment, where none is held.
    fn pass_on(
        &mut self,
        key: K,
        fragment: Data,
        ready: &mut ReadyMessages,
    ) -> Result<(), AllocError>
        requires none { (length self.old.held == 0) ≡ true }
        requires turn { is_in_turn self.old.next (as_held (K.number key) (K.index key) fragment ∷ []) ≡ true }
        requires number { K.number key ≡ self.old.next }
        requires room { bytes_of self.old.held + ready_bytes ready.old + length fragment.payload.items < 2 ^ 64 }
        ensures ok { OnOk result (self.new ≡ (ordered_arrival (as_held (K.number key) (K.index key) fragment) self.old).stream) }
        ensures ready { OnOk result (ready.new ≡ ready.old ++ (ordered_arrival (as_held (K.number key) (K.index key) fragment) self.old).messages) }
        ensures err { OnErr result ((steps : ℕ) × ((self.new ≡ (ordered_arrival_in_part steps (as_held (K.number key) (K.index key) fragment) self.old).stream) × (ready.new ≡ ready.old ++ (ordered_arrival_in_part steps (as_held (K.number key) (K.index key) fragment) self.old).messages))) }
        ensures kept { Extends ready.old ready.new }
        ensures bytes { bytes_of self.new.held + ready_bytes ready.new ≤ bytes_of self.old.held + ready_bytes ready.old + length fragment.payload.items }
        ensures fragments { length self.new.held ≤ length self.old.held + 1 }
    {
        let number = key.number();
        hand_on(fragment, ready)?;
        self.state = OrderedState::Idle(number);
        Ok(())
    }

    /// Adds a fragment, unless its message is below the next one, and makes ready what is then in turn.
    #[tactic(auto, using(crate::proofs::ExtendsLemmas::extends_none))]
    fn keep(&mut self, key: K, fragment: Data, ready: &mut ReadyMessages) -> Result<(), AllocError>
        requires room { bytes_of self.old.held + ready_bytes ready.old + length fragment.payload.items < 2 ^ 64 }
        requires fragments { length self.old.held + 1 < 2 ^ 64 }
        ensures ok { OnOk result (self.new ≡ (ordered_arrival (as_held (K.number key) (K.index key) fragment) self.old).stream) }
        ensures ready { OnOk result (ready.new ≡ ready.old ++ (ordered_arrival (as_held (K.number key) (K.index key) fragment) self.old).messages) }
        ensures err { OnErr result ((steps : ℕ) × ((self.new ≡ (ordered_arrival_in_part steps (as_held (K.number key) (K.index key) fragment) self.old).stream) × (ready.new ≡ ready.old ++ (ordered_arrival_in_part steps (as_held (K.number key) (K.index key) fragment) self.old).messages))) }
        ensures kept { Extends ready.old ready.new }
        ensures bytes { bytes_of self.new.held + ready_bytes ready.new ≤ bytes_of self.old.held + ready_bytes ready.old + length fragment.payload.items }
        ensures fragments { length self.new.held ≤ length self.old.held + 1 }
    {
        if (key.number() as u128) < self.reading_point() {
            return Ok(());
        }
        let kept = keep_in(self.alloc, &mut self.state, key, fragment, ready);
        give_back(&mut self.state);
        kept
    }
}

impl<K: ReassemblyKey> ReassemblyStream for OrderedStream<K> {
    ghost use Rattle.std.proofs.Common.{refl};
    ghost use Rattle.sctp_reassembly.specs.Delivery.{fresh_ordered, ordered_arrival, ordered_forward};
    ghost use Rattle.sctp_reassembly.specs.InterruptedStreams.{ordered_arrival_in_part, ordered_forward_in_part};
    ghost use Rattle.sctp_reassembly.specs.NoneForwarded.{none_forwarded};

    type Key = K;

    ghost held = { λ s. s.held };

    ghost fresh = { fresh_ordered };

    ghost reading_point = { λ s. s.next };

    ghost after_arrival = { λ h s. (ordered_arrival h s).stream };

    ghost made_ready = { λ h s. (ordered_arrival h s).messages };

    ghost after_forward = { λ n s. (ordered_forward n s).stream };

    ghost forwarded = { λ n s. (ordered_forward n s).messages };

    ghost arrival_in_part = { λ steps h s. (ordered_arrival_in_part steps h s).stream };

    ghost ready_in_part = { λ steps h s. (ordered_arrival_in_part steps h s).messages };

    ghost forward_in_part = { λ steps n s. (ordered_forward_in_part steps n s).stream };

    ghost forwarded_in_part = { λ steps n s. (ordered_forward_in_part steps n s).messages };

    /// A stream of which nothing came.
    fn new(alloc: Global) -> OrderedStream<K> {
        OrderedStream {
            alloc,
            state: OrderedState::Idle(FIRST - 1),
        }
    }

    /// How many bytes of payload are held.
    fn queued_bytes(&self) -> usize {
        match &self.state {
            OrderedState::Idle(_) => 0,
            OrderedState::Holding(fragments) => fragments.total_bytes(),
        }
    }

    /// How many fragments are held.
    fn held_fragments(&self) -> usize {
        match &self.state {
            OrderedState::Idle(_) => 0,
            OrderedState::Holding(fragments) => fragments.len(),
        }
    }

    /// The number of the message that becomes ready next.
    fn reading_point(&self) -> u128 {
        match &self.state {
            OrderedState::Idle(last) => *last as u128 + 1,
            OrderedState::Holding(fragments) => fragments.last() as u128 + 1,
        }
    }

    /// Adds a fragment, unless its message is below the next one; what is in turn then becomes ready. Takes a few
    /// searches of the map of intervals, and some more for each message that becomes ready. A fragment that is all of the next
    /// message, where nothing is held, is handed on.
    ///
    /// Without memory the fragment, or a message that was in turn, may be lost; what was ready stays ready.
    #[tactic(auto, using(crate::proofs::ExtendsLemmas::extends_none))]
    fn add(&mut self, key: K, fragment: Data, ready: &mut ReadyMessages) -> Result<(), AllocError> {
        if self.held_fragments() == 0 && is_whole_at(key, &fragment, self.reading_point()) {
            return self.pass_on(key, fragment, ready);
        }
        self.keep(key, fragment, ready)
    }

    /// Drops the messages up to the number before that of the key, and moves the next number to it, never back. What is in
    /// turn then becomes ready. Where it passes nothing, nothing is looked through.
    ///
    /// Without memory a message that was in turn may be lost; what was ready stays ready.
    #[tactic(auto, using(crate::proofs::ExtendsLemmas::extends_none))]
    fn forward(&mut self, first: K, ready: &mut ReadyMessages) -> Result<(), AllocError> {
        let forwarded = forward_in(&mut self.state, first, ready);
        give_back(&mut self.state);
        forwarded
    }

    ghost is_blank = { refl };

    ghost begins = { refl };

    ghost forwards_none = { λ n. refl };

    ghost forwards_none_in_part = { λ steps n. none_forwarded steps n };
}
