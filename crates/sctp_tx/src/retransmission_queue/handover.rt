//! The sender in the record of a socket that is handed over.

ghost use Rattle.std.specs.Prelude.{◌≡◌, min, is_some, IsTrue, OnOk, OnErr};
ghost use Rattle.sctp_state.specs.Handover.{handover_state_of, transmission_of};
ghost use Rattle.sctp_state.specs.Validity.{is_valid_state};
ghost use Rattle.sctp_state.specs.declared.api.handover.HandoverSocketState.TheVariants.{Connected};
ghost use Rattle.sctp_tx.specs.Handover.{readiness, saturate_u32, handed_over, restore};

use crate::retransmission_queue::RetransmissionQueue;
use sctp_serial::SocketTime;
use sctp_state::{HandoverReadiness, SocketHandoverState};
use std::alloc::AllocError;

fn bounded(bytes: usize) -> u32
    ensures { result ≡ saturate_u32 bytes }
{
    bytes.min(u32::MAX as usize) as u32
}

impl RetransmissionQueue {
    /// What stands in the way of a handover: fast recovery, and, where `is_strict` says that no data may be handed over,
    /// items that are kept or wait to be sent again.
    pub fn get_handover_readiness(&self, is_strict: bool) -> HandoverReadiness
        ensures { result.0 ≡ readiness is_strict self.now }
    {
        let is_kept = is_strict && !self.outstanding.is_empty();
        let is_waiting = is_strict && self.outstanding.has_data_to_be_retransmitted();
        let is_recovering = self.windows.is_recovering();
        (HandoverReadiness::RETRANSMISSION_QUEUE_OUTSTANDING_DATA & is_kept)
            | (HandoverReadiness::RETRANSMISSION_QUEUE_FAST_RECOVERY & is_recovering)
            | (HandoverReadiness::RETRANSMISSION_QUEUE_NOT_EMPTY & is_waiting)
    }

    /// Writes the items, the TSNs and the windows into the record of a socket that is handed over now. Windows of 2^32
    /// bytes and more are written as the greatest `u32`. Without memory the record stays as it was.
    pub fn add_to_handover_state(
        &self,
        now: SocketTime,
        state: &mut SocketHandoverState,
    ) -> Result<(), AllocError>
        ensures ok { OnOk result (let old = handover_state_of state.old in handover_state_of state.new ≡ record old { tx = handed_over now self.now old.tx }) }
        ensures err { OnErr result (state.new ≡ state.old) }
    {
        self.outstanding.add_to_handover_state(now, state)?;
        state.tx.cwnd = bounded(self.windows.cwnd());
        state.tx.rwnd = bounded(self.windows.rwnd());
        state.tx.ssthresh = bounded(self.windows.ssthresh());
        state.tx.partial_bytes_acked = bounded(self.windows.partial_bytes_acked());
        Ok(())
    }

    /// Takes up the items, the TSNs and the windows of a valid record of a connected socket now, in place of its own; t3-rtx stops, until a chunk is
    /// handed out, a SACK leaves something in flight, or `wake` starts it. The first TSN has to be the other socket's. Without memory nothing changes.
    pub fn restore_from_state(
        &mut self,
        now: SocketTime,
        state: &SocketHandoverState,
    ) -> Result<(), AllocError>
        requires connected { state.now.socket_state ≡ Connected }
        requires valid { IsTrue (is_valid_state (handover_state_of state.now)) }
        ensures ok { OnOk result (self.new ≡ restore now (transmission_of state.now.tx) self.old) }
        ensures err { OnErr result (self.new ≡ self.old) }
    {
        self.outstanding.restore_from_state(now, state)?;
        self.windows.restore(&state.tx);
        self.t3_rtx.stop();
        Ok(())
    }
}
