//! What a socket counts, as C has it.

ghost use Rattle.std.specs.Prelude.{◌≡◌, ◌==◌, ◌-◌, ◌^◌, min};
ghost use Rattle.std.specs.Duration.{as_nanos};
ghost use Rattle.sctp_c_records.specs.Metrics.{implementation_number, metrics_bytes, metrics_record, one_if};

use crate::layout::{put_u8, put_u16, put_u32, put_u64};
use sctp_state::{Metrics, SctpImplementation};
use std::time::Duration;

/// The bytes of `pigeon_metrics`.
pub const METRICS_SIZE: usize = 96;

/// What a socket counts; in C `pigeon_metrics`. The round trip time is in nanoseconds.
#[derive(Clone, Copy)]
pub struct MetricsRecord {
    pub tx_packets_count: usize,
    pub tx_messages_count: usize,
    pub rtx_packets_count: usize,
    pub rtx_bytes_count: u64,
    pub cwnd_bytes: usize,
    pub srtt: u64,
    pub unack_data_count: usize,
    pub rx_packets_count: usize,
    pub rx_messages_count: usize,
    pub peer_rwnd_bytes: u32,
    pub peer_implementation: u32,
    pub negotiated_maximum_incoming_streams: u16,
    pub negotiated_maximum_outgoing_streams: u16,
    pub uses_message_interleaving: bool,
    pub uses_zero_checksum: bool,
}

/// A span in nanoseconds; the greatest number where it is longer.
pub(crate) fn nanos_of(span: Duration) -> u64
    ensures { result ≡ min (as_nanos span) (2 ^ 64 - 1) }
{
    span.as_nanos().min(u64::MAX as u128) as u64
}

fn implementation_number(peer: SctpImplementation) -> u32
    ensures { result ≡ implementation_number peer }
{
    match peer {
        SctpImplementation::Unknown => 0,
        SctpImplementation::DcsctpRs => 1,
        SctpImplementation::DcsctpCc => 2,
        SctpImplementation::UsrSctp => 3,
        SctpImplementation::Other => 4,
    }
}

/// A test as a number: 1 where it holds, or 0.
pub fn one_if(holds: bool) -> u8
    ensures number { result ≡ one_if holds }
    ensures is_one { (result == 1) ≡ holds }
{
    if holds { 1 } else { 0 }
}

impl MetricsRecord {
    /// What is counted, for C.
    pub fn of(metrics: &Metrics) -> MetricsRecord
        ensures { result ≡ metrics_record metrics.now }
    {
        MetricsRecord {
            tx_packets_count: metrics.tx_packets_count,
            tx_messages_count: metrics.tx_messages_count,
            rtx_packets_count: metrics.rtx_packets_count,
            rtx_bytes_count: metrics.rtx_bytes_count,
            cwnd_bytes: metrics.cwnd_bytes,
            srtt: nanos_of(metrics.srtt),
            unack_data_count: metrics.unack_data_count,
            rx_packets_count: metrics.rx_packets_count,
            rx_messages_count: metrics.rx_messages_count,
            peer_rwnd_bytes: metrics.peer_rwnd_bytes,
            peer_implementation: implementation_number(metrics.peer_implementation),
            negotiated_maximum_incoming_streams: metrics.negotiated_maximum_incoming_streams,
            negotiated_maximum_outgoing_streams: metrics.negotiated_maximum_outgoing_streams,
            uses_message_interleaving: metrics.uses_message_interleaving,
            uses_zero_checksum: metrics.uses_zero_checksum,
        }
    }

    /// Writes the struct of C, as far as there is a place behind its size.
    pub fn write(&self, bytes: &mut [u8])
        ensures { bytes.new ≡ metrics_bytes self.now bytes.old }
    {
        put_u64(bytes, 8, self.tx_packets_count as u64);
        put_u64(bytes, 16, self.tx_messages_count as u64);
        put_u64(bytes, 24, self.rtx_packets_count as u64);
        put_u64(bytes, 32, self.rtx_bytes_count);
        put_u64(bytes, 40, self.cwnd_bytes as u64);
        put_u64(bytes, 48, self.srtt);
        put_u64(bytes, 56, self.unack_data_count as u64);
        put_u64(bytes, 64, self.rx_packets_count as u64);
        put_u64(bytes, 72, self.rx_messages_count as u64);
        put_u32(bytes, 80, self.peer_rwnd_bytes);
        put_u32(bytes, 84, self.peer_implementation);
        put_u16(bytes, 88, self.negotiated_maximum_incoming_streams);
        put_u16(bytes, 90, self.negotiated_maximum_outgoing_streams);
        put_u8(bytes, 92, one_if(self.uses_message_interleaving));
        put_u8(bytes, 93, one_if(self.uses_zero_checksum));
    }
}
