//! What tests ask of a reassembly queue.

ghost use Rattle.std.specs.Prelude.{◌≡◌, true, IsTrue};
ghost use Rattle.sctp_state.specs.Handover.{receive_of};
ghost use Rattle.sctp_state.specs.Validity.{is_valid_reception};

use sctp_chunk::DataView;
use sctp_packet::SkippedStream;
use sctp_rx::ReassemblyQueue;
use sctp_serial::{Fsn, Mid, PpId, Ssn, StreamId, StreamKey, Tsn};
use sctp_state::SocketHandoverState;
use sctp_state::api::handover::HandoverSocketState;
use std::alloc::{AllocError, Global};
use std::mem;

/// Tests know no more of a queue than its answers.
pub trait Receives {
    fn takes(&mut self, fragment: DataView<'_>) -> Result<(), AllocError>;

    fn passes(&mut self, tsn: Tsn, skipped: &[SkippedStream]) -> Result<(), AllocError>;

    fn defers(&mut self, tsn: Tsn, streams: &[StreamId]) -> Result<(), AllocError>;

    fn resets(&mut self, streams: &[StreamId]) -> Result<(), AllocError>;

    fn writes(&self, state: &mut SocketHandoverState) -> Result<(), AllocError>;

    /// A new queue takes the place of this one, and the record up, where that is valid.
    fn takes_up(&mut self, alloc: Global, state: &SocketHandoverState) -> Result<bool, AllocError>;

    /// Whether the next message has this payload, if there is one.
    fn is_next(&mut self, payload: &[u8]) -> Option<bool>;

    /// How many messages are ready, and the bytes of all that is held.
    fn counts(&self) -> (usize, usize);
}

/// A fragment; the numbers are its message's and its own.
pub fn fragment(
    tsn: u32,
    stream_key: StreamKey,
    numbers: (u16, u32),
    payload: &[u8],
    ends: (bool, bool),
) -> DataView<'_> {
    DataView {
        tsn: Tsn(tsn),
        stream_key,
        ssn: Ssn(numbers.0),
        mid: Mid(numbers.0 as u32),
        fsn: Fsn(numbers.1),
        ppid: PpId(53),
        payload,
        is_beginning: ends.0,
        is_end: ends.1,
        immediate_ack: false,
    }
}

/// Whether a record is valid, of a connected socket.
#[tactic(auto, using(sctp_reassembly::proofs::ReceptionLemmas::valid_reception))]
fn is_valid(state: &SocketHandoverState) -> bool
    ensures { IsTrue result → is_valid_reception state.now.capabilities.message_interleaving (receive_of state.now.rx) ≡ true }
{
    match state.socket_state {
        HandoverSocketState::Closed => false,
        HandoverSocketState::Connected => state.is_valid(),
    }
}

impl Receives for ReassemblyQueue {
    fn takes(&mut self, fragment: DataView<'_>) -> Result<(), AllocError> {
        if self.queued_bytes() >= 1 << 40 || self.holds_most_fragments() {
            return Err(AllocError);
        }
        let data = self.copy_of(fragment)?;
        if data.payload.len() >= 1 << 40 {
            return Err(AllocError);
        }
        self.add(fragment.tsn, data)
    }

    fn passes(&mut self, tsn: Tsn, skipped: &[SkippedStream]) -> Result<(), AllocError> {
        self.handle_forward_tsn(tsn, skipped)
    }

    fn defers(&mut self, tsn: Tsn, streams: &[StreamId]) -> Result<(), AllocError> {
        self.enter_deferred_reset(tsn, streams)
    }

    fn resets(&mut self, streams: &[StreamId]) -> Result<(), AllocError> {
        self.reset_streams_and_leave_deferred_reset(streams)
    }

    fn writes(&self, state: &mut SocketHandoverState) -> Result<(), AllocError> {
        self.add_to_handover_state(state)
    }

    fn takes_up(&mut self, alloc: Global, state: &SocketHandoverState) -> Result<bool, AllocError> {
        if !is_valid(state) {
            return Ok(false);
        }
        let new = ReassemblyQueue::new(alloc, 1000, state.capabilities.message_interleaving);
        drop(mem::replace(self, new));
        self.restore_from_state(state)?;
        Ok(true)
    }

    fn is_next(&mut self, payload: &[u8]) -> Option<bool> {
        let message = self.get_next_message()?;
        Some(message.payload.as_slice() == payload)
    }

    fn counts(&self) -> (usize, usize) {
        (self.messages_ready_count(), self.queued_bytes())
    }
}
