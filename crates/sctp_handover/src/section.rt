//! What was negotiated, what is sent and what was received.

ghost use Rattle.std.specs.Prelude.{◌≡◌, ◌++◌, IfOk, OnOk};
ghost use Rattle.sctp_state.specs.Handover.{receive_of, transmission_of};
ghost use Rattle.sctp_handover.specs.Bounds.{CapabilitiesFit, ReceptionFits, TransmissionFits};
ghost use Rattle.sctp_handover.specs.Bytes.{capability_bytes, reception_bytes, transmission_bytes};
ghost use Rattle.sctp_handover.specs.Reads.{Finds};

use crate::field::{
    flags_at, number16_at, number32_at, number64_at, push_flags, push_numbers16, push_numbers32,
};
use crate::part::{list_at, push_list};
use sctp_state::api::handover::{HandoverCapabilities, HandoverReceive, HandoverTransmission};
use sctp_wire::push_u64;
use std::alloc::{AllocError, Global};

pub(crate) fn capabilities_at(bytes: &[u8]) -> (HandoverCapabilities, &[u8])
    ensures { Finds capability_bytes CapabilitiesFit bytes.now result.0 result.1.now }
{
    let ((partial_reliability, message_interleaving, reconfig, zero_checksum), rest) = flags_at(
        bytes,
    );
    let (negotiated_maximum_incoming_streams, rest) = number16_at(rest);
    let (negotiated_maximum_outgoing_streams, rest) = number16_at(rest);
    let capabilities = HandoverCapabilities {
        partial_reliability,
        message_interleaving,
        reconfig,
        zero_checksum,
        negotiated_maximum_incoming_streams,
        negotiated_maximum_outgoing_streams,
    };
    (capabilities, rest)
}

pub(crate) fn push_capabilities(
    output: &mut Vec<u8>,
    capabilities: &HandoverCapabilities,
) -> Result<(), AllocError>
    ensures wrote { OnOk result (output.new.items ≡ output.old.items ++ capability_bytes capabilities.now) }
    ensures fits { OnOk result (CapabilitiesFit capabilities.now) }
{
    push_flags(
        output,
        capabilities.partial_reliability,
        capabilities.message_interleaving,
        capabilities.reconfig,
        capabilities.zero_checksum,
    )?;
    push_numbers16(
        output,
        &[
            capabilities.negotiated_maximum_incoming_streams,
            capabilities.negotiated_maximum_outgoing_streams,
        ],
    )
}

pub(crate) fn transmission_at(
    alloc: Global,
    bytes: &[u8],
) -> Result<(HandoverTransmission, &[u8]), AllocError>
    ensures { IfOk result (λ read. Finds transmission_bytes TransmissionFits bytes.now (transmission_of read.0) read.1.now) }
{
    let (next_tsn, rest) = number32_at(bytes);
    let (last_cumulative_tsn_ack, rest) = number32_at(rest);
    let (next_reset_req_sn, rest) = number32_at(rest);
    let (cwnd, rest) = number32_at(rest);
    let (rwnd, rest) = number32_at(rest);
    let (ssthresh, rest) = number32_at(rest);
    let (partial_bytes_acked, rest) = number32_at(rest);
    let (next_outgoing_message_id, rest) = number64_at(rest);
    let (streams, rest) = list_at(alloc, rest)?;
    let (queued_messages, rest) = list_at(alloc, rest)?;
    let (outstanding_data, rest) = list_at(alloc, rest)?;
    let transmission = HandoverTransmission {
        next_tsn,
        next_outgoing_message_id,
        next_reset_req_sn,
        cwnd,
        rwnd,
        ssthresh,
        partial_bytes_acked,
        streams,
        queued_messages,
        outstanding_data,
        last_cumulative_tsn_ack,
    };
    Ok((transmission, rest))
}

pub(crate) fn push_transmission(
    output: &mut Vec<u8>,
    transmission: &HandoverTransmission,
) -> Result<(), AllocError>
    ensures wrote { OnOk result (output.new.items ≡ output.old.items ++ transmission_bytes (transmission_of transmission.now)) }
    ensures fits { OnOk result (TransmissionFits (transmission_of transmission.now)) }
{
    push_numbers32(
        output,
        &[
            transmission.next_tsn,
            transmission.last_cumulative_tsn_ack,
            transmission.next_reset_req_sn,
            transmission.cwnd,
            transmission.rwnd,
            transmission.ssthresh,
            transmission.partial_bytes_acked,
        ],
    )?;
    push_u64(output, transmission.next_outgoing_message_id)?;
    push_list(output, &transmission.streams)?;
    push_list(output, &transmission.queued_messages)?;
    push_list(output, &transmission.outstanding_data)
}

pub(crate) fn reception_at(
    alloc: Global,
    bytes: &[u8],
) -> Result<(HandoverReceive, &[u8]), AllocError>
    ensures { IfOk result (λ read. Finds reception_bytes ReceptionFits bytes.now (receive_of read.0) read.1.now) }
{
    let ((seen_packet, _, _, _), rest) = flags_at(bytes);
    let (last_cumulative_acked_tsn, rest) = number32_at(rest);
    let (last_assembled_tsn, rest) = number32_at(rest);
    let (last_completed_deferred_reset_req_sn, rest) = number32_at(rest);
    let (last_completed_reset_req_sn, rest) = number32_at(rest);
    let (ordered_streams, rest) = list_at(alloc, rest)?;
    let (unordered_streams, rest) = list_at(alloc, rest)?;
    let reception = HandoverReceive {
        seen_packet,
        last_cumulative_acked_tsn,
        last_assembled_tsn,
        last_completed_deferred_reset_req_sn,
        last_completed_reset_req_sn,
        ordered_streams,
        unordered_streams,
    };
    Ok((reception, rest))
}

pub(crate) fn push_reception(
    output: &mut Vec<u8>,
    reception: &HandoverReceive,
) -> Result<(), AllocError>
    ensures wrote { OnOk result (output.new.items ≡ output.old.items ++ reception_bytes (receive_of reception.now)) }
    ensures fits { OnOk result (ReceptionFits (receive_of reception.now)) }
{
    push_flags(output, reception.seen_packet, false, false, false)?;
    push_numbers32(
        output,
        &[
            reception.last_cumulative_acked_tsn,
            reception.last_assembled_tsn,
            reception.last_completed_deferred_reset_req_sn,
            reception.last_completed_reset_req_sn,
        ],
    )?;
    push_list(output, &reception.ordered_streams)?;
    push_list(output, &reception.unordered_streams)
}
