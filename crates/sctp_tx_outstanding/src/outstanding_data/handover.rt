//! What was sent, in the record of a socket that is handed over.

ghost use Rattle.std.specs.Prelude.{◌≡◌, IsTrue, OnOk, OnErr};
ghost use Rattle.sctp_state.specs.Handover.{handover_state_of, transmission_of};
ghost use Rattle.sctp_state.specs.Validity.{is_valid_state};
ghost use Rattle.sctp_state.specs.declared.api.handover.HandoverSocketState.TheVariants.{Connected};
ghost use Rattle.sctp_tx_outstanding.specs.Handover.{handed_over, restore};

use crate::outstanding_data::OutstandingData;
use sctp_serial::{SerialNumber, SocketTime, Tsn};
use sctp_state::SocketHandoverState;
use std::alloc::AllocError;
use std::collections::VecDeque;

impl OutstandingData {
    /// Writes the items, the next TSN and the peer's cumulative TSN into the record of a socket that is handed over now.
    /// Breakpoints of resets, and messages whose rest is to leave the send queue, are not written. Without memory the record
    /// stays as it was.
    pub fn add_to_handover_state(
        &self,
        now: SocketTime,
        state: &mut SocketHandoverState,
    ) -> Result<(), AllocError>
        ensures ok { OnOk result (let old = handover_state_of state.old in handover_state_of state.new ≡ record old { tx = handed_over now self.now old.tx }) }
        ensures err { OnErr result (state.new ≡ state.old) }
    {
        let items = self.kept.handed_over(self.alloc, now)?;
        state.tx.next_tsn = self.next_tsn().0;
        state.tx.outstanding_data = items;
        state.tx.last_cumulative_tsn_ack = self.last_cumulative_acked_tsn().0;
        Ok(())
    }

    /// Takes up the items and the peer's cumulative TSN of a valid record of a connected socket now, in place of its own. Numbers are counted from
    /// the first TSN again, which the other socket's has to be. Without memory nothing changes.
    pub fn restore_from_state(
        &mut self,
        now: SocketTime,
        state: &SocketHandoverState,
    ) -> Result<(), AllocError>
        requires connected { state.now.socket_state ≡ Connected }
        requires valid { IsTrue (is_valid_state (handover_state_of state.now)) }
        ensures ok { OnOk result (self.new ≡ restore now (transmission_of state.now.tx) self.old) }
        ensures err { OnErr result (self.new ≡ self.old) }
    {
        let kept = self
            .kept
            .restored(self.alloc, now, &state.tx.outstanding_data)?;
        let next = Tsn(state.tx.last_cumulative_tsn_ack) + 1;
        self.acked = (1 << 32) - 1 + next.steps_from(self.first);
        self.kept = kept;
        self.breakpoints.clear();
        self.discards = VecDeque::new(self.alloc);
        Ok(())
    }
}
