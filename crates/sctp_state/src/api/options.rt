//! What a socket is made with, and what a message is sent with.

ghost use Rattle.std.specs.Prelude.{◌≡◌, ◌↔◌, IsTrue, option_map};
ghost use Rattle.std.specs.Duration.{as_nanos};
ghost use Rattle.sctp_state.specs.Options.{options_of, defaults, IsValid, HasValidSizes, HasValidTimes, HasValidWindows, t3_backoff, reconfig_backoff};

use sctp_serial::{
    LifecycleId, ZERO_CHECKSUM_ALTERNATE_ERROR_DETECTION_METHOD_NONE,
    ZeroChecksumAlternateErrorDetectionMethod,
};
use std::time::Duration;

/// What a message is sent with. The default is an ordered, reliable message without a lifecycle.
#[derive(Clone, Copy, Debug, Default, PartialEq, Eq)]
pub struct SendOptions {
    /// Whether the message may overtake others of its stream.
    pub unordered: bool,
    /// How long the message is worth sending, counted from its acceptance. A millisecond behind that it is given up as its turn comes; once
    /// a fragment of it was sent, where one is missing or lost, and only with partial reliability (RFC 3758 section 4.1).
    pub lifetime: Option<Duration>,
    /// How often a fragment of the message is sent again; with partial reliability the message is given up after that
    /// (RFC 7496 section 3.1).
    pub max_retransmissions: Option<u16>,
    /// The number by which lifecycle events name the message.
    pub lifecycle_id: Option<LifecycleId>,
}

/// What a socket is made with. Sizes are in bytes. Bounds that a field names are those of `is_valid`.
#[derive(Clone, Copy)]
pub struct Options {
    /// The source port of packets that are sent. Ports of received packets aren't compared.
    pub local_port: u16,
    /// The destination port of packets that are sent.
    pub remote_port: u16,
    /// How many streams the peer may send on.
    pub announced_maximum_incoming_streams: u16,
    /// How many streams this end would send on.
    pub announced_maximum_outgoing_streams: u16,
    /// No packet that is sent is larger. 256 to 65,535.
    pub mtu: usize,
    /// No message that is accepted for sending is larger; it bounds none that the peer sends. Below 2^32.
    pub max_message_size: usize,
    /// The priority of a stream for which none is set.
    pub default_stream_priority: u16,
    /// How much of received messages is held; the window that is announced to the peer. With nine tenths of it held each further
    /// fragment is dropped, so a longer message may never be whole: it is at least twice the longest that the peer may send. With
    /// 0 or 1 nothing is taken, but for the next one with `avoid_stalls`. Below 2^32.
    pub max_receiver_window_buffer_size: usize,
    /// How many fragments are held of messages that aren't ready, those that wait for a reset too; any number, where not set. With
    /// so many held each further fragment is dropped, as with nine tenths of the window held, which counts bytes alone: so a message
    /// of more may never be whole. It is at least twice as many as the longest that the peer may send has. With 0 nothing is taken.
    pub max_held_fragments: Option<usize>,
    /// A queue that holds as much takes no further message. Below 2^32.
    pub max_send_buffer_size: usize,
    /// A stream that holds as much takes no further message. Below 2^32.
    pub per_stream_send_queue_limit: usize,
    /// An event is emitted when a fragment that goes out, or with `avoid_stalls` expiry or a dropped rest, brings the total queued amount to this.
    pub total_buffered_amount_low_threshold: usize,
    /// The same of the queued amount of a stream, where none is set for the stream.
    pub default_stream_buffered_amount_low_threshold: usize,
    /// A round trip time above this isn't taken as a sample.
    pub rtt_max: Duration,
    /// The retransmission timeout before the first sample. At least a millisecond.
    pub rto_initial: Duration,
    /// The greatest retransmission timeout, at least `rto_min`. With `avoid_stalls` alone it bounds the waits to which T3-rtx and the timer of reset
    /// requests back off.
    pub rto_max: Duration,
    /// The least retransmission timeout, at least a millisecond. It should exceed the peer's delay of acknowledgements.
    pub rto_min: Duration,
    /// How long an INIT ACK is waited for at first (RFC 9260 section 5.1). At least a millisecond.
    pub t1_init_timeout: Duration,
    /// How long a COOKIE ACK is waited for at first (RFC 9260 section 5.1). At least a millisecond.
    pub t1_cookie_timeout: Duration,
    /// Not read: a shutdown waits for the retransmission timeout.
    pub t2_shutdown_timeout: Duration,
    /// The longest wait to which the retransmission timer backs off, where set; else its waits double up to a day, with `avoid_stalls`
    /// up to `rto_max`.
    pub max_timer_backoff_duration: Option<Duration>,
    /// How long a connection is idle before it is tested. With zero it isn't (RFC 9260 section 8.3).
    pub heartbeat_interval: Duration,
    /// The longest delay of an acknowledgement; half the retransmission timeout, where that is less. At least a millisecond.
    pub delayed_ack_max_timeout: Duration,
    /// Eight times the least variance that a round trip time is taken to have.
    pub min_rtt_variance: Duration,
    /// The congestion window at first, in packets of the largest size (RFC 9260 section 7.2.1). 1 to 65,535.
    pub cwnd_mtus_initial: usize,
    /// The least slow start threshold after a loss, and congestion window but after T3-rtx, in such packets (RFC 9260 section 7.2.3).
    /// 1 to 65,535.
    pub cwnd_mtus_min: usize,
    /// With a congestion window of as many packets, no small fragment is sent just to fill it. 1 to 65,535.
    pub avoid_fragmentation_cwnd_mtus: usize,
    /// With a smaller congestion window the peer is asked not to delay its acknowledgement (RFC 7053). At most 65,535.
    pub immediate_sack_under_cwnd_mtus: usize,
    /// How many packets are sent at once at most. 0 and less are valid, and then no COOKIE ECHO, COOKIE ACK, SACK or message ever goes out.
    pub max_burst: i32,
    /// How many errors in a row an association outlives, and how often a SHUTDOWN is sent again.
    pub max_retransmissions: Option<u32>,
    /// How often an INIT or a COOKIE ECHO is sent again.
    pub max_init_retransmits: Option<u32>,
    /// Whether messages may be given up, where the peer agrees (RFC 3758).
    pub enable_partial_reliability: bool,
    /// Whether messages may be interleaved, where the peer agrees (RFC 8260).
    pub enable_message_interleaving: bool,
    /// Not read.
    pub heartbeat_interval_include_rtt: bool,
    /// What finds damage in place of the checksum (RFC 9653): any number but 0, which is none. Then packets that come may carry
    /// the word 0, and those that are sent carry it once the peer announced the same method, but for a COOKIE ECHO, an ABORT
    /// for want of a cookie, and a SHUTDOWN COMPLETE out of the blue.
    pub zero_checksum_alternate_error_detection_method: ZeroChecksumAlternateErrorDetectionMethod,
    /// Whether packets are taken whatever their checksum. For tests.
    pub disable_checksum_verification: bool,
    /// Whether a socket may be handed over while messages are queued or unacknowledged.
    pub enable_handover_with_outstanding_data: bool,
    /// Whether the socket does what the RFCs ask where the original stands still, or loses; our own, and off by default. docs/DECISIONS.md lists
    /// the places, among them: what was lost goes before what is new, acknowledgements are asked for and sent in time (RFC 9260 sections 6.1 and
    /// 6.2, RFC 7053), what is due is timed, and timers back off to `rto_max` at most (section 6.3, RFC 3758 section 3.5), a cookie that is known to
    /// be late is discarded (sections 5.1.5, 5.2.4), `shutdown` waits for the queue (section 9.2), and as an association ends or is restarted what
    /// waits is given up, each message with its record (sections 9, 6.5), and errors count from 0 (section 8.1). That may bring an amount low.
    pub avoid_stalls: bool,
}

impl Default for Options {
    fn default() -> Options
        ensures { options_of result ≡ defaults }
    {
        Options {
            local_port: 5000,
            remote_port: 5000,
            announced_maximum_incoming_streams: 65_535,
            announced_maximum_outgoing_streams: 65_535,
            mtu: 1191,
            max_message_size: 262_144,
            default_stream_priority: 256,
            max_receiver_window_buffer_size: 5_242_880,
            max_held_fragments: None,
            max_send_buffer_size: 2_000_000,
            per_stream_send_queue_limit: 2_000_000,
            total_buffered_amount_low_threshold: 1_800_000,
            default_stream_buffered_amount_low_threshold: 0,
            rtt_max: Duration::from_secs(60),
            rto_initial: Duration::from_millis(500),
            rto_max: Duration::from_secs(60),
            rto_min: Duration::from_millis(400),
            t1_init_timeout: Duration::from_secs(1),
            t1_cookie_timeout: Duration::from_secs(1),
            t2_shutdown_timeout: Duration::from_secs(1),
            max_timer_backoff_duration: None,
            heartbeat_interval: Duration::from_secs(30),
            delayed_ack_max_timeout: Duration::from_millis(200),
            min_rtt_variance: Duration::from_millis(220),
            cwnd_mtus_initial: 10,
            cwnd_mtus_min: 4,
            avoid_fragmentation_cwnd_mtus: 6,
            immediate_sack_under_cwnd_mtus: 10,
            max_burst: 4,
            max_retransmissions: Some(10),
            max_init_retransmits: Some(8),
            enable_partial_reliability: true,
            enable_message_interleaving: false,
            heartbeat_interval_include_rtt: true,
            zero_checksum_alternate_error_detection_method: ZERO_CHECKSUM_ALTERNATE_ERROR_DETECTION_METHOD_NONE,
            disable_checksum_verification: false,
            enable_handover_with_outstanding_data: false,
            avoid_stalls: false,
        }
    }
}

impl Options {
    /// Whether a socket can be made with these options.
    pub fn is_valid(&self) -> bool
        ensures { IsTrue result ↔ IsValid (options_of self.now) }
    {
        self.has_valid_sizes() && self.has_valid_times() && self.has_valid_windows()
    }

    /// The longest wait to which the retransmission timer backs off, where there is one (RFC 9260 section 6.3.3).
    pub fn t3_backoff(&self) -> Option<Duration>
        ensures { option_map as_nanos result ≡ t3_backoff (options_of self.now) }
    {
        if !self.avoid_stalls {
            return self.max_timer_backoff_duration;
        }
        match self.max_timer_backoff_duration {
            Some(longest) => Some(longest.min(self.rto_max)),
            None => Some(self.rto_max),
        }
    }

    /// The same of the timer of requests to reset streams (RFC 6525 section 5.1.1).
    pub fn reconfig_backoff(&self) -> Option<Duration>
        ensures { option_map as_nanos result ≡ reconfig_backoff (options_of self.now) }
    {
        if self.avoid_stalls {
            Some(self.rto_max)
        } else {
            None
        }
    }

    fn has_valid_sizes(&self) -> bool
        ensures { IsTrue result ↔ HasValidSizes (options_of self.now) }
    {
        let most = u32::MAX as usize;
        256 <= self.mtu
            && self.mtu <= 65_535
            && self.max_receiver_window_buffer_size <= most
            && self.max_send_buffer_size <= most
            && self.per_stream_send_queue_limit <= most
            && self.max_message_size <= most
    }

    fn has_valid_times(&self) -> bool
        ensures { IsTrue result ↔ HasValidTimes (options_of self.now) }
    {
        let least = 1_000_000;
        self.rto_min.as_nanos() <= self.rto_max.as_nanos()
            && least <= self.rto_min.as_nanos()
            && least <= self.rto_initial.as_nanos()
            && least <= self.t1_init_timeout.as_nanos()
            && least <= self.t1_cookie_timeout.as_nanos()
            && least <= self.delayed_ack_max_timeout.as_nanos()
    }

    fn has_valid_windows(&self) -> bool
        ensures { IsTrue result ↔ HasValidWindows (options_of self.now) }
    {
        let most = 65_535;
        1 <= self.cwnd_mtus_initial
            && self.cwnd_mtus_initial <= most
            && 1 <= self.cwnd_mtus_min
            && self.cwnd_mtus_min <= most
            && 1 <= self.avoid_fragmentation_cwnd_mtus
            && self.avoid_fragmentation_cwnd_mtus <= most
            && self.immediate_sack_under_cwnd_mtus <= most
    }
}
