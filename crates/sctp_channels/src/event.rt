//! What the owner is told.

ghost use Rattle.std.specs.Prelude.{◌≡◌, option_map};
ghost use Rattle.sctp_state.specs.Events.{event_of as socket_event_of};
ghost use Rattle.sctp_channels.specs.Steps.{event_of, passed_on};

use crate::{PayloadKind, Refusal};
use sctp_serial::StreamId;
use sctp_state::{SendError, SocketEvent};
use std::alloc::AllocError;
use thiserror::Error;

/// What happened.
#[derive(Debug, Drop)]
pub enum ChannelEvent {
    /// The channel is open: the peer has opened it, or has answered, by a message at least.
    Opened(StreamId),
    /// A message came.
    Message(StreamId, PayloadKind, Vec<u8>),
    /// What waits to be sent on the channel fell to its threshold, by a fragment that went out or by a raised threshold.
    BufferedAmountLow(StreamId),
    /// The channel is closed, whoever closed it.
    Closed(StreamId),
    /// Something that came was not taken.
    Refused(StreamId, Refusal),
    /// An event of the socket, as it is without channels; none of those of resets, which channels take, of no stream.
    Socket(SocketEvent),
}

/// Why a channel isn't opened. The channels are as before.
#[derive(Clone, Copy, Debug, Error)]
pub enum OpenError {
    /// Label or protocol has 65,536 bytes or more.
    #[error("label or protocol is too long")]
    TooLong,
    /// All streams of this end's parity are in use.
    #[error("no stream is free")]
    NoFreeStream,
    /// The stream has a channel, or isn't free yet.
    #[error("stream is in use")]
    StreamInUse,
    /// The socket takes no message: its queue is full, it is shutting down, or `max_message_size` is exceeded.
    #[error("socket takes no message")]
    SocketRefused,
    /// There was too little memory, now or before.
    #[error("out of memory")]
    Memory,
}

/// Why a message isn't accepted. The channels are as before.
#[derive(Clone, Copy, Debug, Error)]
pub enum SendRefusal {
    /// There is no channel on the stream.
    #[error("no channel")]
    NoChannel,
    /// The channel is being closed, or its stream isn't free behind that.
    #[error("channel is closing")]
    Closing,
    /// The message is longer than the peer takes.
    #[error("message is too long for the peer")]
    TooLong,
    /// As much waits to be sent on the channel as may.
    #[error("too much is buffered")]
    Full,
    /// The socket takes no message: its queue is full, it is shutting down, or `max_message_size` is exceeded.
    #[error("socket takes no message")]
    SocketRefused,
    /// There was too little memory, now or before. Of an empty message it may be that for its byte: then the socket has not failed.
    #[error("out of memory")]
    Memory,
}

impl From<AllocError> for OpenError {
    fn from(_e: AllocError) -> OpenError {
        OpenError::Memory
    }
}

impl From<AllocError> for SendRefusal {
    fn from(_e: AllocError) -> SendRefusal {
        SendRefusal::Memory
    }
}

impl From<SendError> for OpenError {
    fn from(e: SendError) -> OpenError {
        match e {
            SendError::Memory | SendError::Failed => OpenError::Memory,
            _ => OpenError::SocketRefused,
        }
    }
}

impl From<SendError> for SendRefusal {
    fn from(e: SendError) -> SendRefusal {
        match e {
            SendError::Memory | SendError::Failed => SendRefusal::Memory,
            _ => SendRefusal::SocketRefused,
        }
    }
}

/// What is left of an event for the owner.
pub(crate) fn passed_on(event: SocketEvent) -> Option<ChannelEvent>
    ensures { option_map event_of result ≡ passed_on (socket_event_of event) }
{
    match event {
        SocketEvent::OnIncomingStreamReset(_ids) => None,
        SocketEvent::OnStreamsResetPerformed(_ids) => None,
        SocketEvent::OnStreamsResetFailed(_ids) => None,
        SocketEvent::OnBufferedAmountLow(id) => Some(ChannelEvent::BufferedAmountLow(id)),
        event => Some(ChannelEvent::Socket(event)),
    }
}
