//! What happens in a world, and what is observed of it.

ghost use Rattle.std.specs.Prelude.{◌≡◌, map, IfOk, Some};
ghost use Rattle.sctp_serial.specs.Messages.{message_of};
ghost use Rattle.spec_world.specs.Observations.{end_name};
ghost use Rattle.sctp_network_side.specs.SideView.{call_tree, end_tree};

use sctp_association::Association;
use sctp_serial::{Message, SocketTime, StreamId};
use sctp_state::{
    GivenUp, HandoverReadiness, ResetStreamsError, SendError, SendOptions, SocketEvent,
    SocketHandoverState,
};
use std::alloc::{AllocError, Global};
use std::fmt;

/// One of the two ends.
#[derive(Clone, Copy, Debug, PartialEq, Eq)]
pub enum End {
    A,
    B,
}

impl fmt::Display for End {
    ghost output = { λ end. Some (end_name (end_tree end)) };

    fn fmt<W: fmt::Write>(&self, f: &mut fmt::Formatter<W>) -> fmt::Result {
        match self {
            End::A => write!(f, "a"),
            End::B => write!(f, "b"),
        }
    }
}

/// A call of an end.
#[derive(Debug, Drop)]
pub enum Call {
    Connect,
    Shutdown,
    Close,
    Send(Message, SendOptions),
    SendMany(Vec<Message>, SendOptions),
    /// Takes the next message that is ready.
    Receive,
    /// Asks the peer to begin these streams anew.
    Reset(Vec<StreamId>),
    SetPriority(StreamId, u16),
    /// The most bytes of a message's payload.
    SetMaxMessageSize(u32),
    /// The amount in bytes at which a stream is low.
    SetLowThreshold(StreamId, usize),
    /// Closes the end, where nothing stands in the way, and writes the record of its association.
    Handover,
}

/// What a call answered.
#[derive(Debug, Drop)]
pub enum Answer {
    Done,
    /// Why the message was refused, where it was.
    Sent(Option<SendError>),
    /// The messages that were refused, by their places.
    SentMany(Vec<(usize, SendError)>),
    /// The message that was handed out, where one was ready.
    Received(Option<Message>),
    /// Why no stream is reset, where that is so.
    AskedReset(Option<ResetStreamsError>),
    /// The record of the association that was handed over.
    HandedOver(SocketHandoverState),
    /// What stands in the way of a handover.
    NotReady(HandoverReadiness),
}

/// What may happen next.
#[derive(Debug, Drop)]
pub enum Event {
    Call(End, Call),
    /// The packet of this number that the other end sent, from 0 on, is given to this end.
    Give(usize, End),
    /// Bytes from elsewhere come to an end. Those that it wouldn't refuse are skipped.
    Foreign(End, Vec<u8>),
    /// The end's time is advanced.
    Time(End, SocketTime),
}

/// An entry of the log. Its first moment is the clock of the end.
#[derive(Debug, Drop)]
pub enum Entry {
    Call(End, SocketTime, Call, Answer),
    /// The packet of this number of the other end came.
    Give(End, SocketTime, usize),
    /// The bytes from elsewhere that came, or none where they were skipped.
    Foreign(End, SocketTime, Option<Vec<u8>>),
    /// The moment to which the end's time was advanced.
    Time(End, SocketTime, SocketTime),
    /// The end's association is now this one.
    Association(End, Option<Association>),
    /// The end sent its packet of this number.
    Packet(End, usize),
    /// The end emitted this, which is no packet.
    Event(End, SocketEvent),
    /// The end gave a message up.
    GivenUp(End, GivenUp),
    /// A message is ready at the end.
    Ready(End, Message),
}

/// A copy of the message. The error is want of memory.
pub fn copy_of(alloc: Global, message: &Message) -> Result<Message, AllocError>
    ensures { IfOk result (λ copy. message_of copy ≡ message_of message.now) }
{
    let payload = Vec::from_slice(alloc, &message.payload)?;
    Ok(Message::new(message.stream_id, message.ppid, payload))
}

/// Copies of the messages, in order. The error is want of memory.
pub fn copies_of(alloc: Global, messages: &[Message]) -> Result<Vec<Message>, AllocError>
    ensures { IfOk result (λ copies. map message_of copies.items ≡ map message_of messages.now) }
{
    let mut copies = Vec::new(alloc);
    for message in messages {
        copies.push(copy_of(alloc, message)?)?;
    }
    Ok(copies)
}

/// A copy of the call with what it hands in. The error is want of memory.
pub fn copy_of_call(alloc: Global, call: &Call) -> Result<Call, AllocError>
    ensures { IfOk result (λ copy. call_tree copy ≡ call_tree call.now) }
{
    Ok(match call {
        Call::Connect => Call::Connect,
        Call::Shutdown => Call::Shutdown,
        Call::Close => Call::Close,
        Call::Send(message, options) => Call::Send(copy_of(alloc, message)?, *options),
        Call::SendMany(messages, options) => {
            Call::SendMany(copies_of(alloc, messages)?, *options)
        }
        Call::Receive => Call::Receive,
        Call::Reset(streams) => Call::Reset(Vec::from_slice(alloc, streams)?),
        Call::SetPriority(stream, priority) => Call::SetPriority(*stream, *priority),
        Call::SetMaxMessageSize(bytes) => Call::SetMaxMessageSize(*bytes),
        Call::SetLowThreshold(stream, bytes) => Call::SetLowThreshold(*stream, *bytes),
        Call::Handover => Call::Handover,
    })
}
