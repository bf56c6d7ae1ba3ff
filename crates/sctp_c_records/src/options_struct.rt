//! The struct of options: read, written, and what is wrong with it.

ghost use Rattle.std.specs.Prelude.{◌≡◌, ◌<◌, ◌≤◌, ◌-◌, ◌^◌, option_map};
ghost use Rattle.std.specs.Duration.{as_nanos};
ghost use Rattle.sctp_state.specs.Options.{HasValidTimes, IsValid, options_of};
ghost use Rattle.sctp_c_records.specs.OptionsStruct.{flag_value, flags_value, held_count, held_limit, held_options, held_size, held_span, invalid_place, invalid_time, options_bytes, options_in, webrtc_options, webrtc_record};
ghost use Rattle.sctp_c_records.specs.Records.{given_checksum, given_options, limit_at, span_at};
ghost use Rattle.sctp_c_records.specs.declared.checksum.PacketChecksum.TheVariants.{Crc32c};

use crate::checksum::PacketChecksum;
use crate::layout::{put_u16, put_u32, put_u64, u16_or, u32_or, u64_or};
use crate::metrics::nanos_of;
use crate::options::OptionsRecord;
use sctp_state::Options;
use std::time::Duration;

/// The bytes of `pigeon_options`.
pub const OPTIONS_SIZE: usize = 176;

/// A size as 32 bits hold it.
fn size_number(size: usize) -> u32
    ensures { result ≡ held_size size }
{
    size.min(u32::MAX as usize) as u32
}

fn limit_number(limit: Option<u32>) -> u32
    ensures { limit_at result ≡ held_limit limit }
{
    match limit {
        None => u32::MAX,
        Some(number) => number,
    }
}

fn count_number(count: Option<usize>) -> u32
    ensures { limit_at result ≡ held_count count }
{
    match count {
        None => u32::MAX,
        Some(number) => size_number(number),
    }
}

fn span_number(span: Option<Duration>) -> u64
    ensures { span_at result ≡ held_span (option_map as_nanos span) }
{
    match span {
        None => u64::MAX,
        Some(span) => nanos_of(span),
    }
}

fn flag(is_set: bool, value: u32) -> u32
    ensures { result ≡ flag_value is_set value }
{
    if is_set { value } else { 0 }
}

fn flags_of(options: &Options) -> u32
    ensures { result ≡ flags_value (options_of options.now) }
{
    flag(options.enable_partial_reliability, 1)
        + flag(options.enable_message_interleaving, 2)
        + flag(options.disable_checksum_verification, 4)
        + flag(options.enable_handover_with_outstanding_data, 8)
        + flag(options.heartbeat_interval_include_rtt, 16)
        + flag(options.avoid_stalls, 32)
}

/// A number of 32 bits is below 2^32.
fn is_number(number: u32)
    ensures { number ≤ 2 ^ 32 - 1 }
{
    let _number = number;
}

impl OptionsRecord {
    /// The struct of C: a field that stands behind its end has its default.
    pub fn in_bytes(bytes: &[u8]) -> OptionsRecord
        ensures { result ≡ options_in bytes.now }
    {
        OptionsRecord {
            local_port: u16_or(bytes, 8, 5000),
            remote_port: u16_or(bytes, 10, 5000),
            announced_maximum_incoming_streams: u16_or(bytes, 12, 65_535),
            announced_maximum_outgoing_streams: u16_or(bytes, 14, 65_535),
            default_stream_priority: u16_or(bytes, 16, 256),
            checksum: u16_or(bytes, 18, 0),
            mtu: u32_or(bytes, 20, 1191),
            max_message_size: u32_or(bytes, 24, 262_144),
            max_receiver_window_buffer_size: u32_or(bytes, 28, 5_242_880),
            max_send_buffer_size: u32_or(bytes, 32, 2_000_000),
            per_stream_send_queue_limit: u32_or(bytes, 36, 2_000_000),
            total_buffered_amount_low_threshold: u32_or(bytes, 40, 1_800_000),
            default_stream_buffered_amount_low_threshold: u32_or(bytes, 44, 0),
            cwnd_mtus_initial: u32_or(bytes, 48, 10),
            cwnd_mtus_min: u32_or(bytes, 52, 4),
            avoid_fragmentation_cwnd_mtus: u32_or(bytes, 56, 6),
            immediate_sack_under_cwnd_mtus: u32_or(bytes, 60, 10),
            max_burst: u32_or(bytes, 64, 4).cast_signed(),
            max_retransmissions: u32_or(bytes, 68, 10),
            max_init_retransmits: u32_or(bytes, 72, 8),
            zero_checksum_method: u32_or(bytes, 76, 0),
            flags: u32_or(bytes, 80, 17),
            max_held_fragments: u32_or(bytes, 84, u32::MAX),
            rtt_max: u64_or(bytes, 88, 60_000_000_000),
            rto_initial: u64_or(bytes, 96, 500_000_000),
            rto_max: u64_or(bytes, 104, 60_000_000_000),
            rto_min: u64_or(bytes, 112, 400_000_000),
            t1_init_timeout: u64_or(bytes, 120, 1_000_000_000),
            t1_cookie_timeout: u64_or(bytes, 128, 1_000_000_000),
            t2_shutdown_timeout: u64_or(bytes, 136, 1_000_000_000),
            max_timer_backoff_duration: u64_or(bytes, 144, u64::MAX),
            heartbeat_interval: u64_or(bytes, 152, 30_000_000_000),
            delayed_ack_max_timeout: u64_or(bytes, 160, 200_000_000),
            min_rtt_variance: u64_or(bytes, 168, 220_000_000),
        }
    }

    /// Writes the struct of C, as far as there is a place behind its size.
    pub fn write(&self, bytes: &mut [u8])
        ensures { bytes.new ≡ options_bytes self.now bytes.old }
    {
        put_u16(bytes, 8, self.local_port);
        put_u16(bytes, 10, self.remote_port);
        put_u16(bytes, 12, self.announced_maximum_incoming_streams);
        put_u16(bytes, 14, self.announced_maximum_outgoing_streams);
        put_u16(bytes, 16, self.default_stream_priority);
        put_u16(bytes, 18, self.checksum);
        put_u32(bytes, 20, self.mtu);
        put_u32(bytes, 24, self.max_message_size);
        put_u32(bytes, 28, self.max_receiver_window_buffer_size);
        put_u32(bytes, 32, self.max_send_buffer_size);
        put_u32(bytes, 36, self.per_stream_send_queue_limit);
        put_u32(bytes, 40, self.total_buffered_amount_low_threshold);
        put_u32(bytes, 44, self.default_stream_buffered_amount_low_threshold);
        put_u32(bytes, 48, self.cwnd_mtus_initial);
        put_u32(bytes, 52, self.cwnd_mtus_min);
        put_u32(bytes, 56, self.avoid_fragmentation_cwnd_mtus);
        put_u32(bytes, 60, self.immediate_sack_under_cwnd_mtus);
        put_u32(bytes, 64, self.max_burst.cast_unsigned());
        put_u32(bytes, 68, self.max_retransmissions);
        put_u32(bytes, 72, self.max_init_retransmits);
        put_u32(bytes, 76, self.zero_checksum_method);
        put_u32(bytes, 80, self.flags);
        put_u32(bytes, 84, self.max_held_fragments);
        put_u64(bytes, 88, self.rtt_max);
        put_u64(bytes, 96, self.rto_initial);
        put_u64(bytes, 104, self.rto_max);
        put_u64(bytes, 112, self.rto_min);
        put_u64(bytes, 120, self.t1_init_timeout);
        put_u64(bytes, 128, self.t1_cookie_timeout);
        put_u64(bytes, 136, self.t2_shutdown_timeout);
        put_u64(bytes, 144, self.max_timer_backoff_duration);
        put_u64(bytes, 152, self.heartbeat_interval);
        put_u64(bytes, 160, self.delayed_ack_max_timeout);
        put_u64(bytes, 168, self.min_rtt_variance);
    }

    /// The options of data channels (RFC 8831), over DTLS (RFC 9653), with a queue that is bounded by stream, held fragments that are
    /// bounded by count, and with stalls avoided.
    pub fn for_webrtc() -> OptionsRecord
        ensures record { result ≡ webrtc_record }
        ensures options { given_options result ≡ webrtc_options }
        ensures checksum { given_checksum result ≡ Crc32c }
    {
        let mut record = OptionsRecord::defaults();
        record.max_receiver_window_buffer_size = 524_288;
        record.max_send_buffer_size = u32::MAX;
        record.per_stream_send_queue_limit = 1 << 24;
        record.zero_checksum_method = 1;
        record.max_held_fragments = 65_536;
        record.flags = 49;
        record
    }

    /// The place of the first field that is out of its bounds, 0 where none is.
    pub fn invalid_place(&self) -> u32
        ensures place { result ≡ invalid_place self.now }
        ensures none { result ≡ 0 → IsValid (given_options self.now) × ((self.now.flags < 64) × (self.now.checksum < 2)) }
        ensures some { 0 < result → IsValid (given_options self.now) × ((self.now.flags < 64) × (self.now.checksum < 2)) → ⊥ }
    {
        is_number(self.max_receiver_window_buffer_size);
        is_number(self.max_send_buffer_size);
        is_number(self.per_stream_send_queue_limit);
        is_number(self.max_message_size);
        if 1 < self.checksum {
            return 18;
        }
        if self.mtu < 256 || 65_535 < self.mtu {
            return 20;
        }
        if self.cwnd_mtus_initial < 1 || 65_535 < self.cwnd_mtus_initial {
            return 48;
        }
        if self.cwnd_mtus_min < 1 || 65_535 < self.cwnd_mtus_min {
            return 52;
        }
        if self.avoid_fragmentation_cwnd_mtus < 1 || 65_535 < self.avoid_fragmentation_cwnd_mtus {
            return 56;
        }
        if 65_535 < self.immediate_sack_under_cwnd_mtus {
            return 60;
        }
        if 63 < self.flags {
            return 80;
        }
        self.invalid_time()
    }

    /// The place of the first span that is out of its bounds, 0 where none is.
    fn invalid_time(&self) -> u32
        ensures place { result ≡ invalid_time self.now }
        ensures none { result ≡ 0 → HasValidTimes (given_options self.now) }
        ensures some { 0 < result → HasValidTimes (given_options self.now) → ⊥ }
    {
        if self.rto_initial < 1_000_000 {
            return 96;
        }
        if self.rto_max < self.rto_min {
            return 104;
        }
        if self.rto_min < 1_000_000 {
            return 112;
        }
        if self.t1_init_timeout < 1_000_000 {
            return 120;
        }
        if self.t1_cookie_timeout < 1_000_000 {
            return 128;
        }
        if self.delayed_ack_max_timeout < 1_000_000 {
            return 160;
        }
        0
    }

    /// A socket's options, as far as the struct can hold them.
    pub fn of(options: &Options, checksum: PacketChecksum) -> OptionsRecord
        ensures options { given_options result ≡ held_options (options_of options.now) }
        ensures checksum { given_checksum result ≡ checksum }
    {
        OptionsRecord {
            local_port: options.local_port,
            remote_port: options.remote_port,
            announced_maximum_incoming_streams: options.announced_maximum_incoming_streams,
            announced_maximum_outgoing_streams: options.announced_maximum_outgoing_streams,
            default_stream_priority: options.default_stream_priority,
            checksum: checksum.number(),
            mtu: size_number(options.mtu),
            max_message_size: size_number(options.max_message_size),
            max_receiver_window_buffer_size: size_number(options.max_receiver_window_buffer_size),
            max_send_buffer_size: size_number(options.max_send_buffer_size),
            per_stream_send_queue_limit: size_number(options.per_stream_send_queue_limit),
            total_buffered_amount_low_threshold: size_number(
                options.total_buffered_amount_low_threshold,
            ),
            default_stream_buffered_amount_low_threshold: size_number(
                options.default_stream_buffered_amount_low_threshold,
            ),
            cwnd_mtus_initial: size_number(options.cwnd_mtus_initial),
            cwnd_mtus_min: size_number(options.cwnd_mtus_min),
            avoid_fragmentation_cwnd_mtus: size_number(options.avoid_fragmentation_cwnd_mtus),
            immediate_sack_under_cwnd_mtus: size_number(options.immediate_sack_under_cwnd_mtus),
            max_burst: options.max_burst,
            max_retransmissions: limit_number(options.max_retransmissions),
            max_init_retransmits: limit_number(options.max_init_retransmits),
            zero_checksum_method: options.zero_checksum_alternate_error_detection_method.0,
            flags: flags_of(options),
            max_held_fragments: count_number(options.max_held_fragments),
            rtt_max: nanos_of(options.rtt_max),
            rto_initial: nanos_of(options.rto_initial),
            rto_max: nanos_of(options.rto_max),
            rto_min: nanos_of(options.rto_min),
            t1_init_timeout: nanos_of(options.t1_init_timeout),
            t1_cookie_timeout: nanos_of(options.t1_cookie_timeout),
            t2_shutdown_timeout: nanos_of(options.t2_shutdown_timeout),
            max_timer_backoff_duration: span_number(options.max_timer_backoff_duration),
            heartbeat_interval: nanos_of(options.heartbeat_interval),
            delayed_ack_max_timeout: nanos_of(options.delayed_ack_max_timeout),
            min_rtt_variance: nanos_of(options.min_rtt_variance),
        }
    }
}
