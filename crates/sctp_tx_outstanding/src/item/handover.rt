//! An item in the record of a socket that is handed over.

ghost use Rattle.std.specs.Prelude.{◌≡◌, ◌%◌, ◌<◌, ◌≤◌, ◌^◌, length, IfOk};
ghost use Rattle.sctp_chunk.specs.Views.{fragment_tree};
ghost use Rattle.sctp_state.specs.Handover.{outstanding_data_of};
ghost use Rattle.sctp_tx_outstanding.specs.Handover.{item_record, fragment_from, state_from, reports_in, item_from};

use crate::item::{Item, ItemState};
use sctp_chunk::Data;
use sctp_serial::{Fsn, Mid, OutgoingMessageId, PpId, SocketTime, Ssn, StreamId, StreamKey};
use sctp_state::api::handover::HandoverOutstandingData;
use sctp_state::api::handover::times::{
    expires_in, expiry_from, lifecycle_from, lifecycle_number, millis_since, moment_before,
};
use std::alloc::{AllocError, Global};

fn fragment_from(alloc: Global, from: &HandoverOutstandingData) -> Result<Data, AllocError>
    ensures { IfOk result (λ f. fragment_tree f ≡ fragment_from (outstanding_data_of from.now)) }
{
    Ok(Data {
        stream_key: StreamKey::new(from.is_unordered, StreamId(from.stream_id)),
        ssn: Ssn(from.ssn),
        mid: Mid(from.mid),
        fsn: Fsn(from.fsn),
        ppid: PpId(from.ppid),
        payload: Vec::from_slice(alloc, &from.payload)?,
        is_beginning: from.is_beginning,
        is_end: from.is_end,
    })
}

fn state_from(from: &HandoverOutstandingData) -> ItemState
    ensures { result ≡ state_from (outstanding_data_of from.now) }
{
    if from.acked {
        return ItemState::Acked;
    }
    if from.is_abandoned {
        return ItemState::GivenUp;
    }
    if from.is_to_be_retransmitted {
        return ItemState::Queued;
    }
    if from.is_nacked {
        ItemState::Missing
    } else {
        ItemState::InFlight
    }
}

fn reports_in(state: ItemState) -> u32
    ensures reports { result ≡ reports_in state }
    ensures few { result ≤ 1 }
{
    match state {
        ItemState::Missing => 1,
        _ => 0,
    }
}

impl Item {
    /// It, in the record of a socket that is handed over now.
    pub fn handed_over(
        &self,
        alloc: Global,
        now: SocketTime,
    ) -> Result<HandoverOutstandingData, AllocError>
        ensures { IfOk result (λ r. outstanding_data_of r ≡ item_record now self.now) }
    {
        let fragment = &self.data;
        Ok(HandoverOutstandingData {
            mid: fragment.mid.0,
            stream_id: fragment.stream_key.id().0,
            ssn: fragment.ssn.0,
            fsn: fragment.fsn.0,
            ppid: fragment.ppid.0,
            payload: Vec::from_slice(alloc, &fragment.payload)?,
            expires_in_ms: expires_in(now, self.expires_at),
            max_retransmissions: self.max_retransmissions,
            is_beginning: fragment.is_beginning,
            is_end: fragment.is_end,
            is_unordered: fragment.stream_key.is_unordered(),
            lifecycle_id: lifecycle_number(self.lifecycle_id),
            time_since_sent_ms: millis_since(now, self.sent_at),
            retransmission_count: self.sendings.saturating_sub(1).min(65_535) as u16,
            acked: self.is_acked(),
            is_abandoned: self.is_abandoned(),
            is_nacked: self.is_nacked(),
            is_to_be_retransmitted: self.should_be_retransmitted(),
            message_id: u64::from(self.message_id.0),
        })
    }

    /// The item of a record, in the socket that takes it up now. Its payload has fewer than 2^32 bytes.
    pub fn restored(
        alloc: Global,
        now: SocketTime,
        from: &HandoverOutstandingData,
    ) -> Result<Item, AllocError>
        requires small { length from.now.payload.items < 2 ^ 32 }
        ensures { IfOk result (λ i. i ≡ item_from now (outstanding_data_of from.now)) }
    {
        let state = state_from(from);
        Ok(Item {
            message_id: OutgoingMessageId((from.message_id % (1 << 32)) as u32),
            data: fragment_from(alloc, from)?,
            expires_at: expiry_from(now, from.expires_in_ms),
            max_retransmissions: from.max_retransmissions,
            lifecycle_id: lifecycle_from(from.lifecycle_id),
            state,
            sendings: u32::from(from.retransmission_count) + 1,
            reports: reports_in(state),
            counts_from: 0,
            sent_at: moment_before(now, from.time_since_sent_ms),
        })
    }
}
