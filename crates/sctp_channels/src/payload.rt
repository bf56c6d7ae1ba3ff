//! Data, and the payload protocol identifiers under which it goes.

ghost use Rattle.std.specs.Prelude.{◌≡◌, IfOk};
ghost use Rattle.sctp_serial.specs.Messages.{message_of};
ghost use Rattle.sctp_channels.specs.Payload.{data_message, data_ppid, protocol_of};

use sctp_wire::{Message, PpId, StreamId};
use std::alloc::AllocError;

/// The PPID of a `ChannelMessage`.
pub const CONTROL_PPID: PpId = PpId(50);

/// What a message of a channel is to its owner.
#[derive(Clone, Copy, Debug)]
pub enum PayloadKind {
    /// UTF-8.
    Text,
    /// Bytes.
    Binary,
}

/// What an SCTP message carries, as its PPID says (RFC 8831 section 8).
#[derive(Clone, Copy, Debug)]
pub enum PayloadProtocol {
    /// 50: a `ChannelMessage`.
    Control,
    /// 51, 53: a message that isn't empty, or the last part of one.
    Data(PayloadKind),
    /// 56, 57: an empty message, under a byte that isn't handed out, since SCTP has no empty message.
    Empty(PayloadKind),
    /// 54, 52: a part of a message, not its last one. Deprecated: read, and never sent.
    Part(PayloadKind),
}

impl PayloadProtocol {
    /// `None` where the PPID is none of those of data channels.
    pub fn from_ppid(ppid: PpId) -> Option<PayloadProtocol>
        ensures { result ≡ protocol_of ppid.0 }
    {
        match ppid.0 {
            50 => Some(PayloadProtocol::Control),
            51 => Some(PayloadProtocol::Data(PayloadKind::Text)),
            52 => Some(PayloadProtocol::Part(PayloadKind::Binary)),
            53 => Some(PayloadProtocol::Data(PayloadKind::Binary)),
            54 => Some(PayloadProtocol::Part(PayloadKind::Text)),
            56 => Some(PayloadProtocol::Empty(PayloadKind::Text)),
            57 => Some(PayloadProtocol::Empty(PayloadKind::Binary)),
            _ => None,
        }
    }
}

/// The PPID of a message of this kind.
fn ppid_of(kind: PayloadKind, payload: &[u8]) -> PpId
    ensures { result.0 ≡ data_ppid kind payload.now }
{
    match (kind, payload.is_empty()) {
        (PayloadKind::Text, false) => PpId(51),
        (PayloadKind::Binary, false) => PpId(53),
        (PayloadKind::Text, true) => PpId(56),
        (PayloadKind::Binary, true) => PpId(57),
    }
}

/// A message of this kind as one of SCTP. Only an empty one takes memory.
pub fn data_message(
    stream_id: StreamId,
    kind: PayloadKind,
    payload: Vec<u8>,
) -> Result<Message, AllocError>
    ensures { IfOk result (λ message. message_of message ≡ data_message stream_id.0 kind payload.items) }
{
    let ppid = ppid_of(kind, &payload);
    let mut payload = payload;
    if payload.is_empty() {
        payload.push(0)?;
    }
    Ok(Message::new(stream_id, ppid, payload))
}
