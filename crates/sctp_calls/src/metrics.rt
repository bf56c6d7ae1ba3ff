//! What an end counts, to be shown.

ghost use Rattle.std.specs.Prelude.{◌≡◌, option_map};
ghost use Rattle.sctp_calls.specs.Metrics.{metrics, metrics_in, metrics_of, packets_for};
ghost use Rattle.sctp_endpoint.specs.Views.{state_of, tcb_of};
ghost use Rattle.sctp_tx_queue.specs.SendQueue.{total_of};

use sctp_endpoint::{Context, State, TransmissionControlBlock};
use sctp_state::Metrics;
use sctp_wire::Checksum;

/// The header of a packet and that of a DATA chunk, in bytes.
const HEADERS: usize = 28;

/// How many packets the queued bytes would fill.
fn queued_packets<C: Checksum>(context: &Context<C>) -> usize
    ensures { result ≡ packets_for (total_of context.now.queue.streams.entries) context.now.options.mtu }
{
    context
        .send_queue
        .total_buffered_amount()
        .div_ceil(context.options.mtu - HEADERS)
}

fn metrics<C: Checksum>(context: &Context<C>, tcb: &TransmissionControlBlock) -> Metrics
    ensures { metrics_of result ≡ metrics (tcb_of tcb.now) context.now }
{
    let sender = &tcb.retransmission_queue;
    Metrics {
        tx_packets_count: context.tx_packets_count,
        tx_messages_count: context.tx_messages_count,
        rtx_packets_count: sender.rtx_packets_count(),
        rtx_bytes_count: sender.rtx_bytes_count(),
        cwnd_bytes: sender.cwnd(),
        srtt: tcb.rto.srtt(),
        unack_data_count: sender
            .unacked_items()
            .saturating_add(queued_packets(context)),
        rx_packets_count: context.rx_packets_count,
        rx_messages_count: tcb.reassembly_queue.rx_messages_count(),
        peer_rwnd_bytes: sender.rwnd().min(u32::MAX as usize) as u32,
        peer_implementation: context.peer_implementation,
        uses_message_interleaving: tcb.capabilities.message_interleaving,
        uses_zero_checksum: tcb.capabilities.zero_checksum_enabled(),
        negotiated_maximum_incoming_streams: tcb.capabilities.negotiated_maximum_incoming_streams,
        negotiated_maximum_outgoing_streams: tcb.capabilities.negotiated_maximum_outgoing_streams,
    }
}

/// What is counted, where there is a control block.
pub fn metrics_in<C: Checksum>(context: &Context<C>, state: &State) -> Option<Metrics>
    ensures { option_map metrics_of result ≡ metrics_in (state_of state.now) context.now }
{
    match state {
        State::Closed | State::CookieWait(_) => None,
        State::Open(_, tcb) => Some(metrics(context, tcb)),
    }
}
