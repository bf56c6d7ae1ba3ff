//! The socket, and what a packet does to an end, chunk by chunk (RFC 9260).
//!
//! The owner of a [`Socket`] lists this crate and `rand_core`: all that its calls take and answer is exported here. The word of
//! [`Checksum`] is written big-endian, so a CRC32c (RFC 9260 appendix A) is handed in with its bytes swapped.
#![tactic(auto)]

mod input;
mod socket;

pub use sctp_endpoint::{
    Association, Context, CookieEchoedState, CookieWaitState, Identity, OutgoingPacket, Phase,
    ResetRequests, State, TransmissionControlBlock,
};
pub use sctp_serial::{
    LifecycleId, Message, OutgoingMessageId, PpId, SocketTime, StreamId, Tsn,
    ZERO_CHECKSUM_ALTERNATE_ERROR_DETECTION_METHOD_LOWER_LAYER_DTLS,
    ZERO_CHECKSUM_ALTERNATE_ERROR_DETECTION_METHOD_NONE, ZeroChecksumAlternateErrorDetectionMethod,
};
pub use sctp_state::api::handover::{
    HandoverCapabilities, HandoverOrderedStream, HandoverOutgoingStream, HandoverOutstandingData,
    HandoverReceive, HandoverSocketState, HandoverStreamMessage, HandoverTransmission,
    HandoverUnorderedStream,
};
pub use sctp_state::{
    BatchFault, BatchSendError, CallError, DcSctpSocket, ErrorKind, GivenUp, GivenUpCause,
    HandoverError, HandoverReadiness, Metrics, Options, ResetStreamsError, RestoreError,
    SctpImplementation, SendError, SendOptions, SocketEvent, SocketHandoverState, SocketState,
};
pub use sctp_wire::Checksum;
pub use socket::Socket;
