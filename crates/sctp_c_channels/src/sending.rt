//! Messages are sent, and channels closed.

ghost use Rattle.std.specs.Prelude.{◌≡◌, [], ◌∷◌, length, None, IfOk};
ghost use Rattle.sctp_channels.specs.Entries.{channel_at};
ghost use Rattle.sctp_c_channels.specs.Answers.{IsClosed, OnChannels, Sent};
ghost use Rattle.sctp_c_records.specs.Answers.{IsAmong, OnAnswer, OnOthers, by_test};
ghost use Rattle.sctp_c_channels.specs.Events.{IsSendable, kind_at};

use sctp_c_records::answers::{
    CHANNEL_CLOSING, FAILED, MEMORY, MESSAGE_TOO_LARGE, NO_CHANNEL, NO_CHANNELS, NO_ROOM,
    NOT_TAKEN, NOT_UTF8, OK, QUEUE_FULL,
};
use sctp_channels::{DataChannels, PayloadKind, SendRefusal};
use sctp_serial::StreamId;
use sctp_state::{CallError, DcSctpSocket};
use std::alloc::{AllocError, Global};

/// A message to be sent on a channel.
#[derive(Clone, Copy)]
pub struct GivenMessage<'a> {
    pub kind: PayloadKind,
    pub payload: &'a [u8],
}

/// The kind of a message with this number: that of the event by which the peer gets it.
pub fn kind_of(number: u32) -> Option<PayloadKind>
    ensures { result ≡ kind_at number }
{
    match number {
        17 => Some(PayloadKind::Text),
        18 => Some(PayloadKind::Binary),
        _ => None,
    }
}

/// Whether a message may have these bytes.
fn is_sendable(kind: PayloadKind, payload: &[u8]) -> bool
    ensures { by_test result (IsSendable kind payload.now) (Unit {0}) }
{
    match kind {
        PayloadKind::Text => str::from_utf8(payload).is_ok(),
        PayloadKind::Binary => true,
    }
}

/// A copy of a message's bytes, with room for the byte under which an empty one goes: so it is the copy alone that lacks memory.
fn copy(alloc: Global, payload: &[u8]) -> Result<Vec<u8>, AllocError>
    ensures { IfOk result (λ copy. copy.items ≡ payload.now) }
{
    let mut copy = Vec::with_capacity(alloc, payload.len().max(1))?;
    copy.extend_from_slice(payload)?;
    Ok(copy)
}

fn send_on<S: DcSctpSocket>(
    socket: &mut S,
    channels: &mut DataChannels,
    id: u16,
    kind: PayloadKind,
    payload: Vec<u8>,
) -> u32
    ensures answers { IsAmong (0 ∷ 1 ∷ 11 ∷ 13 ∷ 25 ∷ 26 ∷ 31 ∷ []) result }
    ensures sent { OnAnswer 0 result (Sent id (length payload.items) channels.old channels.new) }
    ensures others { OnOthers 0 result (channels.new ≡ channels.old) }
{
    match channels.send(socket, StreamId(id), kind, payload) {
        Ok(()) => OK,
        Err(SendRefusal::NoChannel) => NO_CHANNEL,
        Err(SendRefusal::Closing) => CHANNEL_CLOSING,
        Err(SendRefusal::TooLong) => MESSAGE_TOO_LARGE,
        Err(SendRefusal::Full) => QUEUE_FULL,
        Err(SendRefusal::SocketRefused) => NOT_TAKEN,
        Err(SendRefusal::Memory) => MEMORY,
    }
}

/// Sends a copy of a message on a channel. Text is UTF-8.
pub fn send<S: DcSctpSocket>(
    alloc: Global,
    socket: &mut S,
    channels: &mut Option<DataChannels>,
    id: u16,
    message: &GivenMessage<'_>,
) -> u32
    ensures answers { OnChannels (λ d n e. IsAmong (0 ∷ 1 ∷ 11 ∷ 13 ∷ 17 ∷ 25 ∷ 26 ∷ 30 ∷ 31 ∷ []) n) channels.old result channels.new }
    ensures sent { OnChannels (λ d n e. OnAnswer 0 n (Sent id (length message.now.payload.now) d e)) channels.old result channels.new }
    ensures text { OnChannels (λ d n e. OnAnswer 0 n (IsSendable message.now.kind message.now.payload.now)) channels.old result channels.new }
    ensures others { OnChannels (λ d n e. OnOthers 0 n (e ≡ d)) channels.old result channels.new }
{
    let Some(channels) = channels else {
        return NO_CHANNELS;
    };
    if !is_sendable(message.kind, message.payload) {
        return NOT_UTF8;
    }
    let Ok(payload) = copy(alloc, message.payload) else {
        return NO_ROOM;
    };
    send_on(socket, channels, id, message.kind, payload)
}

fn close_on<S: DcSctpSocket>(socket: &mut S, channels: &mut DataChannels, id: u16) -> u32
    ensures answers { IsAmong (0 ∷ 1 ∷ 2 ∷ []) result }
    ensures closed { OnAnswer 0 result (IsClosed id channels.old channels.new) }
{
    match channels.close(socket, StreamId(id)) {
        Ok(()) => OK,
        Err(CallError::Memory) => MEMORY,
        Err(CallError::Failed) => FAILED,
    }
}

/// Closes a channel.
pub fn close<S: DcSctpSocket>(socket: &mut S, channels: &mut Option<DataChannels>, id: u16) -> u32
    ensures answers { OnChannels (λ d n e. IsAmong (0 ∷ 1 ∷ 2 ∷ 25 ∷ []) n) channels.old result channels.new }
    ensures none { OnChannels (λ d n e. OnAnswer 25 n (channel_at id d.channels.entries ≡ None)) channels.old result channels.new }
    ensures stays { OnChannels (λ d n e. OnAnswer 25 n (e ≡ d)) channels.old result channels.new }
    ensures closed { OnChannels (λ d n e. OnAnswer 0 n (IsClosed id d e)) channels.old result channels.new }
{
    let Some(channels) = channels else {
        return NO_CHANNELS;
    };
    if channels.get(StreamId(id)).is_none() {
        return NO_CHANNEL;
    }
    close_on(socket, channels, id)
}
