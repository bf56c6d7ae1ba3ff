//! What users of a socket call, set and see, and what it emits to them.

mod dcsctp_socket;
mod errors;
pub mod handover;
pub mod laws;
mod options;

pub use dcsctp_socket::DcSctpSocket;
pub use errors::{
    BatchFault, BatchSendError, CallError, HandoverError, ResetStreamsError, RestoreError,
    SendError,
};
pub use handover::{HandoverReadiness, SocketHandoverState};
pub use options::{Options, SendOptions};
use sctp_serial::{LifecycleId, OutgoingMessageId, StreamId};
use std::time::Duration;

/// What is known of the peer's implementation, by its state cookie.
#[derive(Clone, Copy, Debug, PartialEq, Eq)]
pub enum SctpImplementation {
    /// Nothing is known.
    Unknown,
    /// dcSCTP in Rust, or this one.
    DcsctpRs,
    /// dcSCTP in C++.
    DcsctpCc,
    /// usrsctp.
    UsrSctp,
    /// Another one. It isn't told apart from an unknown one, and never answered.
    Other,
}

/// The kind of the error of an event.
#[derive(Clone, Copy, Debug, PartialEq, Eq)]
pub enum ErrorKind {
    /// No error. No event has it.
    NoError,
    /// The peer left more unanswered than the options allow.
    TooManyRetries,
    /// Something came that is taken on a connection alone.
    NotConnected,
    /// A packet, a parameter or a cookie could not be read, a tag was wrong, or a chunk is unknown.
    ParseFailed,
    /// Something came, or was called, that has no place in this state.
    WrongSequence,
    /// The peer sent an ERROR or an ABORT chunk.
    PeerReported,
    /// The peer, or a call, broke a rule of the protocol.
    ProtocolViolation,
    /// The send queue is full.
    ResourceExhaustion,
    /// The operation isn't supported. No event has it.
    UnsupportedOperation,
}

/// What a socket emits to its user.
#[derive(Debug, Drop)]
pub enum SocketEvent {
    /// A packet to be sent to the peer.
    SendPacket(Vec<u8>),
    /// The association is established.
    OnConnected(),
    /// The socket was closed.
    OnClosed(),
    /// The peer restarted the association (RFC 9260 section 5.2): messages may be lost. With `avoid_stalls` what waited was given up.
    OnConnectionRestarted(),
    /// The socket was closed for an error, with its text.
    OnAborted(ErrorKind, String),
    /// An error that closes nothing, with its text.
    OnError(ErrorKind, String),
    /// A stream's queued amount fell to its threshold: by a fragment that went out, a raised threshold, or (`avoid_stalls`) expiry or a dropped rest.
    OnBufferedAmountLow(StreamId),
    /// The queued amount of all streams fell to the threshold, by a fragment that went out, or with `avoid_stalls` by expiry or a dropped rest.
    OnTotalBufferedAmountLow(),
    /// The peer refused to see these outgoing streams reset (RFC 6525).
    OnStreamsResetFailed(Vec<StreamId>),
    /// These outgoing streams were reset.
    OnStreamsResetPerformed(Vec<StreamId>),
    /// The peer reset these streams, or all its streams where none is named.
    OnIncomingStreamReset(Vec<StreamId>),
    /// The last fragment of a message was handed out to be sent.
    OnLifecycleMessageFullySent(LifecycleId),
    /// A message was given up after it was fully sent: the peer may have it.
    OnLifecycleMessageMaybeExpired(LifecycleId),
    /// A message was given up, or dropped, before it was fully sent.
    OnLifecycleMessageExpired(LifecycleId),
    /// The peer acknowledged a message for good.
    OnLifecycleMessageDelivered(LifecycleId),
    /// The last event that names this message.
    OnLifecycleEnd(LifecycleId),
}

/// The state of a socket, as its user sees it.
#[derive(Clone, Copy, Debug, PartialEq, Eq)]
pub enum SocketState {
    /// There is no association.
    Closed,
    /// This end began to open one.
    Connecting,
    /// It is established.
    Connected,
    /// It is being closed.
    ShuttingDown,
}

/// Why a message was given up.
#[derive(Clone, Copy, Debug, PartialEq, Eq)]
pub enum GivenUpCause {
    /// Its lifetime passed.
    Lifetime,
    /// A fragment of it was sent again as often as allowed, here so often.
    Retransmissions(u32),
    /// Its stream was to be reset, and nothing of it had been sent.
    Reset,
    /// Its association ended, or the peer restarted it, before all of it was sent. With `avoid_stalls` alone.
    Ended,
}

/// The record of a message that was given up (RFC 3758 section 3.5).
#[derive(Clone, Copy, Debug, PartialEq, Eq)]
pub struct GivenUp {
    /// The message's place in the order of acceptance.
    pub number: OutgoingMessageId,
    pub cause: GivenUpCause,
}

/// What a socket counts. Each count stops at the greatest number of its type.
#[derive(Clone, Copy, Debug, PartialEq, Eq)]
pub struct Metrics {
    /// Packets sent, over the socket's life.
    pub tx_packets_count: usize,
    /// Messages accepted, over the socket's life.
    pub tx_messages_count: usize,
    /// Packets of the association in which a fragment was sent again.
    pub rtx_packets_count: usize,
    /// Bytes of chunks that were sent again, headers and padding included.
    pub rtx_bytes_count: u64,
    /// The congestion window, in bytes.
    pub cwnd_bytes: usize,
    /// The smoothed round trip time; `rto_initial` until one is measured.
    pub srtt: Duration,
    /// Fragments in flight, and packets that the queued bytes would fill.
    pub unack_data_count: usize,
    /// Packets that came, over the socket's life.
    pub rx_packets_count: usize,
    /// Messages of the association that came whole.
    pub rx_messages_count: usize,
    /// How much the peer's window still takes, in bytes.
    pub peer_rwnd_bytes: u32,
    /// What is known of the peer.
    pub peer_implementation: SctpImplementation,
    /// Whether messages may be interleaved (RFC 8260).
    pub uses_message_interleaving: bool,
    /// Whether packets go without a checksum (RFC 9653).
    pub uses_zero_checksum: bool,
    /// How many streams the peer may send on.
    pub negotiated_maximum_incoming_streams: u16,
    /// How many streams this end may send on.
    pub negotiated_maximum_outgoing_streams: u16,
}
