//! Messages that are ready, until they are taken.

ghost use Rattle.std.specs.Prelude.{◌≡◌, ◌+◌, ◌<◌, ◌≤◌, ◌^◌, ◌++◌, ◌∷◌, [], length, option_map, OnOk, OnErr, IfOk, IfSome, IfNone, IsSome, ◌↔◌, slice_index_or};
ghost use Rattle.std.specs.Option.{option_to_list};
ghost use Rattle.sctp_serial.specs.Messages.{message_of};
ghost use Rattle.sctp_fragments.specs.Held.{bytes_of, message_of_run};
ghost use Rattle.sctp_fragments.specs.Interval.{held_of, run_of};

use sctp_chunk::SpareBuffers;
use sctp_fragments::{Interval, ReassemblyKey, message_of};
use sctp_serial::Message;
use sctp_state::take_first;
use std::alloc::{AllocError, Global};
use std::collections::VecDeque;
use std::marker::Model;

// So many buffers are kept at most.
const SPARE_BUFFERS: usize = 64;

/// Messages in the order in which they became ready, and how many bytes they have. Buffers that their fragments left are kept.
#[derive(Drop)]
pub struct ReadyMessages {
    messages: VecDeque<Message>,
    bytes: usize,
    spares: SpareBuffers,
}

impl Model for ReadyMessages {
    ghost use Rattle.std.specs.Prelude.{◌≡◌, List, map};
    ghost use Rattle.sctp_serial.specs.Messages.{Message, message_of};
    ghost use Rattle.sctp_reassembly.specs.Delivery.{ready_bytes};

    ghost Value = { List Message };

    ghost view = { λ r. map message_of r.messages.items };

    ghost invariant = { λ r. r.bytes ≡ ready_bytes (map message_of r.messages.items) };
}

impl ReadyMessages {
    ghost use Rattle.sctp_reassembly.specs.Delivery.{ready_bytes, Extends};

    /// None. Takes no memory.
    pub fn new(alloc: Global) -> ReadyMessages
        ensures { result ≡ [] }
    {
        ReadyMessages {
            messages: VecDeque::new(alloc),
            bytes: 0,
            spares: SpareBuffers::new(alloc, SPARE_BUFFERS),
        }
    }

    /// How many there are.
    pub fn len(&self) -> usize
        ensures { result ≡ length self.now }
    {
        self.messages.len()
    }

    /// How many bytes of payload they have.
    pub fn total_bytes(&self) -> usize
        ensures { result ≡ ready_bytes self.now }
    {
        self.bytes
    }

    /// Adds a message behind the others. Without memory nothing changes.
    #[tactic(auto, using(crate::proofs::ExtendsLemmas::extends_none, crate::proofs::ExtendsLemmas::extends_by))]
    pub fn push(&mut self, message: Message) -> Result<(), AllocError>
        requires { ready_bytes self.old + length message.payload.items < 2 ^ 64 }
        ensures ok { OnOk result (self.new ≡ self.old ++ message_of message ∷ []) }
        ensures err { OnErr result (self.new ≡ self.old) }
        ensures kept { Extends self.old self.new }
    {
        let bytes = message.payload.len();
        self.messages.push_back(message)?;
        self.bytes += bytes;
        Ok(())
    }

    /// Adds the message of a complete interval behind the others. Without memory nothing changes.
    #[tactic(auto, using(crate::proofs::ExtendsLemmas::extends_none))]
    pub fn push_complete<K: ReassemblyKey>(
        &mut self,
        alloc: Global,
        interval: Interval<K>,
    ) -> Result<(), AllocError>
        requires { ready_bytes self.old + bytes_of (run_of (held_of K.number K.index) interval) < 2 ^ 64 }
        ensures ok { OnOk result (self.new ≡ self.old ++ message_of_run (run_of (held_of K.number K.index) interval) ∷ []) }
        ensures err { OnErr result (self.new ≡ self.old) }
        ensures kept { Extends self.old self.new }
        ensures bytes { ready_bytes self.new ≤ ready_bytes self.old + bytes_of (run_of (held_of K.number K.index) interval) }
    {
        let message = message_of(alloc, &mut self.spares, interval)?;
        self.push(message)
    }

    /// A copy of the bytes, in a buffer that was kept where one serves.
    pub fn copy(&mut self, alloc: Global, bytes: &[u8]) -> Result<Vec<u8>, AllocError>
        ensures value { IfOk result (λ copy. copy.items ≡ bytes.now) }
        ensures others { self.new ≡ self.old }
    {
        self.spares.copy(alloc, bytes)
    }

    /// No buffer is kept any longer.
    pub fn let_buffers_go(&mut self, alloc: Global)
        ensures { self.new ≡ self.old }
    {
        self.spares = SpareBuffers::new(alloc, SPARE_BUFFERS);
    }

    /// The one at the place, where there are so many.
    pub fn get(&self, place: usize) -> Option<&Message>
        ensures some { IsSome result ↔ (place < length self.now) }
        ensures value { IfSome result (λ m. message_of m.now ≡ slice_index_or self.now place (message_of m.now)) }
    {
        self.messages.get(place)
    }

    /// Takes the first one.
    pub fn pop(&mut self) -> Option<Message>
        ensures value { self.old ≡ option_to_list (option_map message_of result) ++ self.new }
        ensures none { IfNone result (self.old ≡ []) }
    {
        let message = take_first(&mut self.messages)?;
        self.bytes -= message.payload.len();
        Some(message)
    }
}
