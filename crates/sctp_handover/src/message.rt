//! Messages of the queue, and fragments that are kept.

ghost use Rattle.sctp_state.specs.Handover.{OutstandingData, StreamMessage, outstanding_data_of, stream_message_of};
ghost use Rattle.sctp_handover.specs.Bounds.{DataFits, MessageFits};
ghost use Rattle.sctp_handover.specs.Bytes.{data_bytes, message_bytes};
ghost use Rattle.sctp_handover.specs.Parts.{data_has_bytes, message_has_bytes};

use crate::field::{
    flags_at, number16_at, number32_at, number64_at, payload_at, push_flags, push_numbers16,
    push_numbers32, push_numbers64, push_payload, signed_at, some_if,
};
use crate::part::Part;
use sctp_state::api::handover::{HandoverOutstandingData, HandoverStreamMessage};
use std::alloc::{AllocError, Global};

impl Part for HandoverStreamMessage {
    ghost Value = { StreamMessage };

    ghost value_of = { stream_message_of };

    ghost bytes_of = { message_bytes };

    ghost Fits = { MessageFits };

    ghost has_bytes = { message_has_bytes };

    fn part_at(alloc: Global, bytes: &[u8]) -> Result<(HandoverStreamMessage, &[u8]), AllocError> {
        let ((unordered, expires, has_mid, has_ssn), rest) = flags_at(bytes);
        let (stream_id, rest) = number16_at(rest);
        let (max_retransmissions, rest) = number16_at(rest);
        let (ssn, rest) = number16_at(rest);
        let (ppid, rest) = number32_at(rest);
        let (mid, rest) = number32_at(rest);
        let (fsn, rest) = number32_at(rest);
        let (millis, rest) = signed_at(rest);
        let (lifecycle_id, rest) = number64_at(rest);
        let (message_id, rest) = number64_at(rest);
        let (remaining_offset, rest) = number64_at(rest);
        let (payload, rest) = payload_at(alloc, rest)?;
        let message = HandoverStreamMessage {
            stream_id,
            ppid,
            payload,
            expires_in_ms: some_if(expires, millis),
            max_retransmissions,
            unordered,
            lifecycle_id,
            message_id,
            remaining_offset: remaining_offset as usize,
            mid: some_if(has_mid, mid),
            ssn: some_if(has_ssn, ssn),
            fsn,
        };
        Ok((message, rest))
    }

    fn push_to(&self, output: &mut Vec<u8>) -> Result<(), AllocError> {
        push_flags(
            output,
            self.unordered,
            self.expires_in_ms.is_some(),
            self.mid.is_some(),
            self.ssn.is_some(),
        )?;
        push_numbers16(
            output,
            &[
                self.stream_id,
                self.max_retransmissions,
                self.ssn.unwrap_or(0),
            ],
        )?;
        push_numbers32(
            output,
            &[
                self.ppid,
                self.mid.unwrap_or(0),
                self.fsn,
                self.expires_in_ms.unwrap_or(0).cast_unsigned(),
            ],
        )?;
        push_numbers64(
            output,
            &[
                self.lifecycle_id,
                self.message_id,
                self.remaining_offset as u64,
            ],
        )?;
        push_payload(output, &self.payload)
    }
}

impl Part for HandoverOutstandingData {
    ghost Value = { OutstandingData };

    ghost value_of = { outstanding_data_of };

    ghost bytes_of = { data_bytes };

    ghost Fits = { DataFits };

    ghost has_bytes = { data_has_bytes };

    fn part_at(
        alloc: Global,
        bytes: &[u8],
    ) -> Result<(HandoverOutstandingData, &[u8]), AllocError> {
        let ((is_unordered, expires, is_beginning, is_end), rest) = flags_at(bytes);
        let ((acked, is_abandoned, is_nacked, is_to_be_retransmitted), rest) = flags_at(rest);
        let (stream_id, rest) = number16_at(rest);
        let (ssn, rest) = number16_at(rest);
        let (max_retransmissions, rest) = number16_at(rest);
        let (retransmission_count, rest) = number16_at(rest);
        let (mid, rest) = number32_at(rest);
        let (fsn, rest) = number32_at(rest);
        let (ppid, rest) = number32_at(rest);
        let (millis, rest) = signed_at(rest);
        let (time_since_sent_ms, rest) = signed_at(rest);
        let (lifecycle_id, rest) = number64_at(rest);
        let (message_id, rest) = number64_at(rest);
        let (payload, rest) = payload_at(alloc, rest)?;
        let data = HandoverOutstandingData {
            mid,
            stream_id,
            ssn,
            fsn,
            ppid,
            payload,
            expires_in_ms: some_if(expires, millis),
            max_retransmissions,
            is_beginning,
            is_end,
            is_unordered,
            lifecycle_id,
            time_since_sent_ms,
            retransmission_count,
            acked,
            is_abandoned,
            is_nacked,
            is_to_be_retransmitted,
            message_id,
        };
        Ok((data, rest))
    }

    fn push_to(&self, output: &mut Vec<u8>) -> Result<(), AllocError> {
        push_flags(
            output,
            self.is_unordered,
            self.expires_in_ms.is_some(),
            self.is_beginning,
            self.is_end,
        )?;
        push_flags(
            output,
            self.acked,
            self.is_abandoned,
            self.is_nacked,
            self.is_to_be_retransmitted,
        )?;
        push_numbers16(
            output,
            &[
                self.stream_id,
                self.ssn,
                self.max_retransmissions,
                self.retransmission_count,
            ],
        )?;
        push_numbers32(
            output,
            &[
                self.mid,
                self.fsn,
                self.ppid,
                self.expires_in_ms.unwrap_or(0).cast_unsigned(),
                self.time_since_sent_ms.cast_unsigned(),
            ],
        )?;
        push_numbers64(output, &[self.lifecycle_id, self.message_id])?;
        push_payload(output, &self.payload)
    }
}
