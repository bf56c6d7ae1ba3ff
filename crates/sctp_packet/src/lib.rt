//! Packets: chunks read and written, the packet around them, its builder, and the blocks of a SACK.
#![tactic(auto)]

mod builder;
mod laws;
mod packet;
mod ranges;
mod view;

pub use builder::SctpPacketBuilder;
pub use laws::{
    built_packet, built_reads_back, chunk_is_not_refused, one_answer, one_chunk, one_packet,
    read_back, refused_or_accepted, same_answer, same_packets,
};
pub use packet::{COMMON_HEADER_SIZE, CommonHeader, PacketParseError, SctpPacket};
pub use ranges::chunk_fits;
pub use sctp_chunk::{
    Data, DataChunk, DataView, ForwardTsnChunk, GapAckBlock, IDataChunk, IForwardTsnChunk,
    RawChunk, SackChunk, SkippedStream, write_chunk_header,
};
pub use sctp_chunk_validators::{clean_sack, validate_sack};
pub use sctp_control_chunk::{
    AbortChunk, Chunk, CookieAckChunk, CookieEchoChunk, ErrorChunk, HeartbeatAckChunk,
    HeartbeatRequestChunk, InitAckChunk, InitChunk, ReConfigChunk, ShutdownAckChunk, ShutdownChunk,
    ShutdownCompleteChunk, UnknownChunk,
};
pub use sctp_error_cause::{
    CookieReceivedWhileShuttingDownErrorCause, ErrorCause, MissingMandatoryParameterErrorCause,
    NoUserDataErrorCause, ProtocolViolationErrorCause, UnrecognizedChunkErrorCause,
    UserInitiatedAbortErrorCause, error_cause_from_bytes,
};
pub use sctp_parameter::{
    ForwardTsnSupportedParameter, HeartbeatInfoParameter, IncomingSsnResetRequestParameter,
    OutgoingSsnResetRequestParameter, PARAMETER_TYPE_ADD_INCOMING_STREAMS_REQUEST,
    PARAMETER_TYPE_ADD_OUTGOING_STREAMS_REQUEST, PARAMETER_TYPE_SSN_TSN_RESET_REQUEST, Parameter,
    ReconfigurationResponseParameter, ReconfigurationResponseResult, StateCookieParameter,
    SupportedExtensionsParameter, ZeroChecksumAcceptableParameter, parameters_from_bytes,
};
pub use view::PacketView;
