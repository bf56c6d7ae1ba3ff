//! What both kinds of stream do.

ghost use Rattle.std.specs.Prelude.{◌≡◌, ℕ, suc, ◌+◌, ◌<◌, ◌≤◌, ◌^◌, ◌++◌, [], List, length, OnOk, OnErr};
ghost use Rattle.sctp_serial.specs.Messages.{Message};
ghost use Rattle.sctp_serial.specs.Unwrapped.{origin};
ghost use Rattle.sctp_fragments.specs.Held.{Held, bytes_of};
ghost use Rattle.sctp_fragments.specs.Interval.{as_held};
ghost use Rattle.sctp_reassembly.specs.Delivery.{ready_bytes, Extends};

use crate::ready_messages::ReadyMessages;
use sctp_chunk::Data;
use sctp_fragments::ReassemblyKey;
use std::alloc::{AllocError, Global};

/// The fragments of a stream. What becomes ready by a call is behind what was ready before it.
///
/// `AllocError` is want of memory: the fragment, or a message that was in turn, may then be lost. What was ready stays ready.
pub trait ReassemblyStream: Drop {
    /// How its fragments are in order.
    type Key: ReassemblyKey;

    // The fragments that are held, and a stream of which nothing came.
    ghost held: { Self → List Held };

    ghost fresh: { Self };

    // What the numbers of its messages are read near to.
    ghost reading_point: { Self → ℕ };

    // The stream after a fragment, and what that makes ready.
    ghost after_arrival: { Held → Self → Self };

    ghost made_ready: { Held → Self → List Message };

    // The stream after a forward point that names message n, and what that makes ready.
    ghost after_forward: { ℕ → Self → Self };

    ghost forwarded: { ℕ → Self → List Message };

    // The same where memory ran out behind so many steps.
    ghost arrival_in_part: { ℕ → Held → Self → Self };

    ghost ready_in_part: { ℕ → Held → Self → List Message };

    ghost forward_in_part: { ℕ → ℕ → Self → Self };

    ghost forwarded_in_part: { ℕ → ℕ → Self → List Message };

    /// A stream of which nothing came.
    fn new(alloc: Global) -> Self
        ensures { result ≡ fresh };

    /// How many bytes of payload are held.
    fn queued_bytes(&self) -> usize
        ensures { result ≡ bytes_of (held self.now) };

    /// How many fragments are held.
    fn held_fragments(&self) -> usize
        ensures { result ≡ length (held self.now) };

    /// The number that those of messages are read near to.
    fn reading_point(&self) -> u128
        ensures value { result ≡ reading_point self.now }
        ensures least { origin ≤ result };

    /// Adds a fragment, unless its message is late; what is then in turn, or complete, becomes ready.
    fn add(
        &mut self,
        key: Self::Key,
        fragment: Data,
        ready: &mut ReadyMessages,
    ) -> Result<(), AllocError>
        requires room { bytes_of (held self.old) + ready_bytes ready.old + length fragment.payload.items < 2 ^ 64 }
        requires fragments { length (held self.old) + 1 < 2 ^ 64 }
        requires small { Self.Key.number key < 2 ^ 63 }
        ensures ok { OnOk result (self.new ≡ after_arrival (as_held (Self.Key.number key) (Self.Key.index key) fragment) self.old) }
        ensures ready { OnOk result (ready.new ≡ ready.old ++ made_ready (as_held (Self.Key.number key) (Self.Key.index key) fragment) self.old) }
        ensures err { OnErr result ((steps : ℕ) × ((self.new ≡ arrival_in_part steps (as_held (Self.Key.number key) (Self.Key.index key) fragment) self.old) × (ready.new ≡ ready.old ++ ready_in_part steps (as_held (Self.Key.number key) (Self.Key.index key) fragment) self.old))) }
        ensures kept { Extends ready.old ready.new }
        ensures bytes { bytes_of (held self.new) + ready_bytes ready.new ≤ bytes_of (held self.old) + ready_bytes ready.old + length fragment.payload.items }
        ensures fragments { length (held self.new) ≤ length (held self.old) + 1 };

    /// Drops the messages before that of the key; what is then in turn becomes ready.
    fn forward(&mut self, first: Self::Key, ready: &mut ReadyMessages) -> Result<(), AllocError>
        requires room { bytes_of (held self.old) + ready_bytes ready.old < 2 ^ 64 }
        requires some { 0 < Self.Key.number first }
        requires small { Self.Key.number first < 2 ^ 63 }
        ensures ok { (n : ℕ) → Self.Key.number first ≡ suc n → Self.Key.index first ≡ 0 → OnOk result (self.new ≡ after_forward n self.old) }
        ensures ready { (n : ℕ) → Self.Key.number first ≡ suc n → Self.Key.index first ≡ 0 → OnOk result (ready.new ≡ ready.old ++ forwarded n self.old) }
        ensures err { (n : ℕ) → Self.Key.number first ≡ suc n → Self.Key.index first ≡ 0 → OnErr result ((steps : ℕ) × ((self.new ≡ forward_in_part steps n self.old) × (ready.new ≡ ready.old ++ forwarded_in_part steps n self.old))) }
        ensures kept { Extends ready.old ready.new }
        ensures bytes { bytes_of (held self.new) + ready_bytes ready.new ≤ bytes_of (held self.old) + ready_bytes ready.old }
        ensures fragments { length (held self.new) ≤ length (held self.old) };

    ghost is_blank: { held fresh ≡ [] };

    ghost begins: { reading_point fresh ≡ origin };

    // A stream of which nothing came has nothing that a forward point makes ready.
    ghost forwards_none: { (n : ℕ) → forwarded n fresh ≡ [] };

    ghost forwards_none_in_part: { (steps n : ℕ) → forwarded_in_part steps n fresh ≡ [] };
}
