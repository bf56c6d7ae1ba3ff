//! The record of a socket that is handed over: what another one needs to go on in its place. Its fields are plain, so
//! that a program can carry it over as it likes; it should change none.

ghost use Rattle.std.specs.Prelude.{◌≡◌};
ghost use Rattle.sctp_state.specs.Handover.{stream_message_of, outstanding_data_of, transmission_of, receive_of, handover_state_of, no_message, no_data, no_transmission, no_reception, closed_state};

mod readiness;
pub mod times;
mod validity;

pub use readiness::HandoverReadiness;
use std::alloc::Global;

/// Which of the two states a socket can be handed over in.
#[derive(Clone, Copy, Debug, Default, PartialEq, Eq)]
pub enum HandoverSocketState {
    #[default]
    Closed,
    Connected,
}

/// What the two ends negotiated.
#[derive(Clone, Copy, Debug, Default, PartialEq, Eq)]
pub struct HandoverCapabilities {
    pub partial_reliability: bool,
    pub message_interleaving: bool,
    pub reconfig: bool,
    pub zero_checksum: bool,
    pub negotiated_maximum_incoming_streams: u16,
    pub negotiated_maximum_outgoing_streams: u16,
}

/// A message of the send queue.
#[derive(Debug, Drop)]
pub struct HandoverStreamMessage {
    pub stream_id: u16,
    pub ppid: u32,
    /// All of the message, also what was sent.
    pub payload: Vec<u8>,
    /// Milliseconds from the handover to its expiry, rounded down: below 0 where it expired. `None`: it never does.
    pub expires_in_ms: Option<i32>,
    /// 65,535 where none was set.
    pub max_retransmissions: u16,
    pub unordered: bool,
    /// 0 means that there is none.
    pub lifecycle_id: u64,
    /// The message's place in the order of acceptance.
    pub message_id: u64,
    /// How many bytes of the payload were sent.
    pub remaining_offset: usize,
    /// Its number, once a fragment was sent.
    pub mid: Option<u32>,
    /// Its number where it is ordered, once a fragment was sent.
    pub ssn: Option<u16>,
    /// The number of its next fragment.
    pub fsn: u32,
}

impl HandoverStreamMessage {
    /// No payload, all numbers 0. Takes no memory.
    pub fn empty(alloc: Global) -> HandoverStreamMessage
        ensures { stream_message_of result ≡ no_message }
    {
        HandoverStreamMessage {
            stream_id: 0,
            ppid: 0,
            payload: Vec::new(alloc),
            expires_in_ms: None,
            max_retransmissions: 0,
            unordered: false,
            lifecycle_id: 0,
            message_id: 0,
            remaining_offset: 0,
            mid: None,
            ssn: None,
            fsn: 0,
        }
    }
}

/// A fragment that was sent and is kept until the peer acknowledges it for good.
#[derive(Debug, Drop)]
pub struct HandoverOutstandingData {
    pub mid: u32,
    pub stream_id: u16,
    pub ssn: u16,
    pub fsn: u32,
    pub ppid: u32,
    pub payload: Vec<u8>,
    /// Milliseconds from the handover to its message's expiry, as in `HandoverStreamMessage`.
    pub expires_in_ms: Option<i32>,
    /// 65,535 where none was set.
    pub max_retransmissions: u16,
    pub is_beginning: bool,
    pub is_end: bool,
    pub is_unordered: bool,
    /// 0 means that there is none.
    pub lifecycle_id: u64,
    /// Milliseconds from its first sending to the handover, rounded down: 0 or more.
    pub time_since_sent_ms: i32,
    /// How often it was sent again.
    pub retransmission_count: u16,
    /// A block of a selective acknowledgement covers it.
    pub acked: bool,
    /// Its message was given up.
    pub is_abandoned: bool,
    /// It was reported missing, or is lost and waits to be sent again.
    pub is_nacked: bool,
    /// It waits to be sent again.
    pub is_to_be_retransmitted: bool,
    /// Its message's place in the order of acceptance.
    pub message_id: u64,
}

impl HandoverOutstandingData {
    /// No payload, all numbers 0. Takes no memory.
    pub fn empty(alloc: Global) -> HandoverOutstandingData
        ensures { outstanding_data_of result ≡ no_data }
    {
        HandoverOutstandingData {
            mid: 0,
            stream_id: 0,
            ssn: 0,
            fsn: 0,
            ppid: 0,
            payload: Vec::new(alloc),
            expires_in_ms: None,
            max_retransmissions: 0,
            is_beginning: false,
            is_end: false,
            is_unordered: false,
            lifecycle_id: 0,
            time_since_sent_ms: 0,
            retransmission_count: 0,
            acked: false,
            is_abandoned: false,
            is_nacked: false,
            is_to_be_retransmitted: false,
            message_id: 0,
        }
    }
}

/// A stream that this end sends on, with the numbers of its next messages.
#[derive(Clone, Copy, Debug, Default, PartialEq, Eq)]
pub struct HandoverOutgoingStream {
    pub id: u16,
    pub next_ssn: u16,
    pub next_unordered_mid: u32,
    pub next_ordered_mid: u32,
    pub priority: u16,
}

/// All that this end sends.
#[derive(Debug, Drop)]
pub struct HandoverTransmission {
    /// The number of the next fragment.
    pub next_tsn: u32,
    /// How many messages were accepted.
    pub next_outgoing_message_id: u64,
    /// The number of the next reset request.
    pub next_reset_req_sn: u32,
    /// The congestion window, in bytes.
    pub cwnd: u32,
    /// The peer's window, in bytes.
    pub rwnd: u32,
    /// The slow start threshold, in bytes.
    pub ssthresh: u32,
    /// Bytes acknowledged towards the window's next growth.
    pub partial_bytes_acked: u32,
    pub streams: Vec<HandoverOutgoingStream>,
    pub queued_messages: Vec<HandoverStreamMessage>,
    /// In the order of their numbers, up to the one before `next_tsn`.
    pub outstanding_data: Vec<HandoverOutstandingData>,
    /// The number up to which the peer acknowledged all.
    pub last_cumulative_tsn_ack: u32,
}

impl HandoverTransmission {
    /// Nothing sent, all numbers 0. Takes no memory.
    pub fn empty(alloc: Global) -> HandoverTransmission
        ensures { transmission_of result ≡ no_transmission }
    {
        HandoverTransmission {
            next_tsn: 0,
            next_outgoing_message_id: 0,
            next_reset_req_sn: 0,
            cwnd: 0,
            rwnd: 0,
            ssthresh: 0,
            partial_bytes_acked: 0,
            streams: Vec::new(alloc),
            queued_messages: Vec::new(alloc),
            outstanding_data: Vec::new(alloc),
            last_cumulative_tsn_ack: 0,
        }
    }
}

/// A stream on which ordered messages came, with the number of the next one: an SSN, or with interleaving a MID.
#[derive(Clone, Copy, Debug, Default, PartialEq, Eq)]
pub struct HandoverOrderedStream {
    pub id: u16,
    pub next_ssn: u32,
}

/// A stream on which unordered messages came.
#[derive(Clone, Copy, Debug, Default, PartialEq, Eq)]
pub struct HandoverUnorderedStream {
    pub id: u16,
}

/// All that this end received.
#[derive(Debug, Drop)]
pub struct HandoverReceive {
    /// Whether a DATA or I-DATA chunk came: the first one is acknowledged at once.
    pub seen_packet: bool,
    /// The number up to which all came.
    pub last_cumulative_acked_tsn: u32,
    /// Written as `last_cumulative_acked_tsn`, and not read.
    pub last_assembled_tsn: u32,
    /// Written as 0, and not read.
    pub last_completed_deferred_reset_req_sn: u32,
    /// The number of the last reset request that was processed.
    pub last_completed_reset_req_sn: u32,
    pub ordered_streams: Vec<HandoverOrderedStream>,
    pub unordered_streams: Vec<HandoverUnorderedStream>,
}

impl HandoverReceive {
    /// Nothing received, all numbers 0. Takes no memory.
    pub fn empty(alloc: Global) -> HandoverReceive
        ensures { receive_of result ≡ no_reception }
    {
        HandoverReceive {
            seen_packet: false,
            last_cumulative_acked_tsn: 0,
            last_assembled_tsn: 0,
            last_completed_deferred_reset_req_sn: 0,
            last_completed_reset_req_sn: 0,
            ordered_streams: Vec::new(alloc),
            unordered_streams: Vec::new(alloc),
        }
    }
}

/// A socket that is handed over. Of a closed one, nothing but its state is read.
#[derive(Debug, Drop)]
pub struct SocketHandoverState {
    pub socket_state: HandoverSocketState,
    pub my_verification_tag: u32,
    pub my_initial_tsn: u32,
    pub peer_verification_tag: u32,
    pub peer_initial_tsn: u32,
    pub tie_tag: u64,
    pub capabilities: HandoverCapabilities,
    pub tx: HandoverTransmission,
    pub rx: HandoverReceive,
}

impl SocketHandoverState {
    /// A closed socket.
    pub fn empty(alloc: Global) -> SocketHandoverState
        ensures { handover_state_of result ≡ closed_state }
    {
        SocketHandoverState {
            socket_state: HandoverSocketState::Closed,
            my_verification_tag: 0,
            my_initial_tsn: 0,
            peer_verification_tag: 0,
            peer_initial_tsn: 0,
            tie_tag: 0,
            capabilities: HandoverCapabilities::default(),
            tx: HandoverTransmission::empty(alloc),
            rx: HandoverReceive::empty(alloc),
        }
    }
}
