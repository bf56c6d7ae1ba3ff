//! What a socket is made with, as C has it.

ghost use Rattle.std.specs.Prelude.{◌≡◌, ◌<◌, ◌↔◌, IsTrue, option_map};
ghost use Rattle.std.specs.Duration.{as_nanos};
ghost use Rattle.sctp_state.specs.Options.{defaults, options_of};
ghost use Rattle.sctp_c_records.specs.OptionsStruct.{default_record};
ghost use Rattle.sctp_c_records.specs.Records.{given_checksum, given_options, has_flag, limit_at, span_at};

use crate::checksum::PacketChecksum;
use sctp_serial::ZeroChecksumAlternateErrorDetectionMethod;
use sctp_state::Options;
use std::time::Duration;

/// The options of a socket; in C `pigeon_options`. Spans are in nanoseconds, sizes in bytes.
#[derive(Clone, Copy)]
pub struct OptionsRecord {
    pub local_port: u16,
    pub remote_port: u16,
    pub announced_maximum_incoming_streams: u16,
    pub announced_maximum_outgoing_streams: u16,
    pub default_stream_priority: u16,
    pub checksum: u16,
    pub mtu: u32,
    pub max_message_size: u32,
    pub max_receiver_window_buffer_size: u32,
    pub max_send_buffer_size: u32,
    pub per_stream_send_queue_limit: u32,
    pub total_buffered_amount_low_threshold: u32,
    pub default_stream_buffered_amount_low_threshold: u32,
    pub cwnd_mtus_initial: u32,
    pub cwnd_mtus_min: u32,
    pub avoid_fragmentation_cwnd_mtus: u32,
    pub immediate_sack_under_cwnd_mtus: u32,
    pub max_burst: i32,
    pub max_retransmissions: u32,
    pub max_init_retransmits: u32,
    pub zero_checksum_method: u32,
    pub flags: u32,
    pub max_held_fragments: u32,
    pub rtt_max: u64,
    pub rto_initial: u64,
    pub rto_max: u64,
    pub rto_min: u64,
    pub t1_init_timeout: u64,
    pub t1_cookie_timeout: u64,
    pub t2_shutdown_timeout: u64,
    pub max_timer_backoff_duration: u64,
    pub heartbeat_interval: u64,
    pub delayed_ack_max_timeout: u64,
    pub min_rtt_variance: u64,
}

/// The greatest number stands for "no limit".
fn limit_of(number: u32) -> Option<u32>
    ensures { result ≡ limit_at number }
{
    if number == u32::MAX {
        None
    } else {
        Some(number)
    }
}

/// As `limit_of`, of a count.
fn count_of(number: u32) -> Option<usize>
    ensures { result ≡ limit_at number }
{
    if number == u32::MAX {
        None
    } else {
        Some(number as usize)
    }
}

/// The greatest number stands for "not set".
fn span_of(nanos: u64) -> Option<Duration>
    ensures { option_map as_nanos result ≡ span_at nanos }
{
    if nanos == u64::MAX {
        None
    } else {
        Some(Duration::from_nanos(nanos))
    }
}

/// Whether the flag with this value is set.
pub(crate) fn has_flag(flags: u32, value: u32) -> bool
    requires { 0 < value }
    ensures { result ≡ has_flag flags value }
{
    flags / value % 2 == 1
}

impl OptionsRecord {
    /// The options that a socket has where nothing else is said.
    pub fn defaults() -> OptionsRecord
        ensures options { given_options result ≡ defaults }
        ensures record { result ≡ default_record }
    {
        OptionsRecord {
            local_port: 5000,
            remote_port: 5000,
            announced_maximum_incoming_streams: 65_535,
            announced_maximum_outgoing_streams: 65_535,
            default_stream_priority: 256,
            checksum: 0,
            mtu: 1191,
            max_message_size: 262_144,
            max_receiver_window_buffer_size: 5_242_880,
            max_send_buffer_size: 2_000_000,
            per_stream_send_queue_limit: 2_000_000,
            total_buffered_amount_low_threshold: 1_800_000,
            default_stream_buffered_amount_low_threshold: 0,
            cwnd_mtus_initial: 10,
            cwnd_mtus_min: 4,
            avoid_fragmentation_cwnd_mtus: 6,
            immediate_sack_under_cwnd_mtus: 10,
            max_burst: 4,
            max_retransmissions: 10,
            max_init_retransmits: 8,
            zero_checksum_method: 0,
            flags: 17,
            max_held_fragments: u32::MAX,
            rtt_max: 60_000_000_000,
            rto_initial: 500_000_000,
            rto_max: 60_000_000_000,
            rto_min: 400_000_000,
            t1_init_timeout: 1_000_000_000,
            t1_cookie_timeout: 1_000_000_000,
            t2_shutdown_timeout: 1_000_000_000,
            max_timer_backoff_duration: u64::MAX,
            heartbeat_interval: 30_000_000_000,
            delayed_ack_max_timeout: 200_000_000,
            min_rtt_variance: 220_000_000,
        }
    }

    /// Whether flags and checksum are ones that there are.
    pub fn names_known_ones(&self) -> bool
        ensures { IsTrue result ↔ (self.now.flags < 64) × (self.now.checksum < 2) }
    {
        self.flags < 64 && self.checksum < 2
    }

    /// The checksum of packets.
    pub fn packet_checksum(&self) -> PacketChecksum
        ensures { result ≡ given_checksum self.now }
    {
        if self.checksum == 0 {
            PacketChecksum::Crc32c
        } else {
            PacketChecksum::Zero
        }
    }

    /// The options that a socket is made with.
    pub fn options(&self) -> Options
        ensures { options_of result ≡ given_options self.now }
    {
        Options {
            local_port: self.local_port,
            remote_port: self.remote_port,
            announced_maximum_incoming_streams: self.announced_maximum_incoming_streams,
            announced_maximum_outgoing_streams: self.announced_maximum_outgoing_streams,
            mtu: self.mtu as usize,
            max_message_size: self.max_message_size as usize,
            default_stream_priority: self.default_stream_priority,
            max_receiver_window_buffer_size: self.max_receiver_window_buffer_size as usize,
            max_held_fragments: count_of(self.max_held_fragments),
            max_send_buffer_size: self.max_send_buffer_size as usize,
            per_stream_send_queue_limit: self.per_stream_send_queue_limit as usize,
            total_buffered_amount_low_threshold: self.total_buffered_amount_low_threshold as usize,
            default_stream_buffered_amount_low_threshold: self.default_stream_buffered_amount_low_threshold as usize,
            rtt_max: Duration::from_nanos(self.rtt_max),
            rto_initial: Duration::from_nanos(self.rto_initial),
            rto_max: Duration::from_nanos(self.rto_max),
            rto_min: Duration::from_nanos(self.rto_min),
            t1_init_timeout: Duration::from_nanos(self.t1_init_timeout),
            t1_cookie_timeout: Duration::from_nanos(self.t1_cookie_timeout),
            t2_shutdown_timeout: Duration::from_nanos(self.t2_shutdown_timeout),
            max_timer_backoff_duration: span_of(self.max_timer_backoff_duration),
            heartbeat_interval: Duration::from_nanos(self.heartbeat_interval),
            delayed_ack_max_timeout: Duration::from_nanos(self.delayed_ack_max_timeout),
            min_rtt_variance: Duration::from_nanos(self.min_rtt_variance),
            cwnd_mtus_initial: self.cwnd_mtus_initial as usize,
            cwnd_mtus_min: self.cwnd_mtus_min as usize,
            avoid_fragmentation_cwnd_mtus: self.avoid_fragmentation_cwnd_mtus as usize,
            immediate_sack_under_cwnd_mtus: self.immediate_sack_under_cwnd_mtus as usize,
            max_burst: self.max_burst,
            max_retransmissions: limit_of(self.max_retransmissions),
            max_init_retransmits: limit_of(self.max_init_retransmits),
            enable_partial_reliability: has_flag(self.flags, 1),
            enable_message_interleaving: has_flag(self.flags, 2),
            heartbeat_interval_include_rtt: has_flag(self.flags, 16),
            zero_checksum_alternate_error_detection_method: ZeroChecksumAlternateErrorDetectionMethod(
                self.zero_checksum_method,
            ),
            disable_checksum_verification: has_flag(self.flags, 4),
            enable_handover_with_outstanding_data: has_flag(self.flags, 8),
            avoid_stalls: has_flag(self.flags, 32),
        }
    }
}
