//! What is to be done, and what is told to the owner.

use crate::{ChannelMessageFault, PayloadKind};
use sctp_wire::StreamId;

/// Why something that came was not taken.
#[derive(Clone, Copy, Debug)]
pub enum Refusal {
    /// What came under the PPID 50 is no message that opens a channel, or answers. The stream is reset, where the association has it.
    BadMessage(ChannelMessageFault),
    /// The peer opened a channel on a stream that is this end's to open. The stream is reset.
    WrongParity,
    /// The peer opened a channel on a stream that the association doesn't have.
    NoSuchStream,
    /// The peer opened a channel on a stream that has one. That channel is closed.
    StreamInUse,
    /// The peer opened a channel for whose label and protocol there is no room left. The stream is reset.
    NoRoom,
    /// Data came on a stream without a channel, or with one that takes none any more. It is dropped.
    NoChannel,
    /// A message came under a PPID that is none of those of data channels. It is dropped.
    UnknownPayloadProtocol,
    /// A message was longer than this end takes, or its parts went beyond `max_kept_bytes`. It is dropped.
    TooLong,
}

/// What is to be done, in order, or is told to the owner.
#[derive(Debug, Drop)]
pub enum Output {
    /// DATA_CHANNEL_ACK is to be sent on this stream, ordered and reliable.
    Acknowledge(StreamId),
    /// The outgoing stream is to be reset.
    Reset(StreamId),
    /// The outgoing stream is to have this priority, that of its channel, which is never 0.
    Prioritize(StreamId, u16),
    /// The channel is open: the peer has opened it, or has answered.
    Opened(StreamId),
    /// A message came.
    Message(StreamId, PayloadKind, Vec<u8>),
    /// The channel is closed. Its stream is free, unless its reset was refused, or the peer has opened another one there, of which `Opened` follows.
    Closed(StreamId),
    /// Something that came was not taken.
    Refused(StreamId, Refusal),
}
