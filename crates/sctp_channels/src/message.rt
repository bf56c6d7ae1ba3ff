//! The messages that open a channel.

ghost use Rattle.std.specs.Prelude.{◌≡◌, ◌∷◌, ◌++◌, IfOk, IfErr, OnOk, IsTrue, ◌↔◌};
ghost use Rattle.sctp_channels.specs.Message.{Says, SaysOpen, RefusedAs, MessageFits, OpenFits, HasShortTexts, MessageHasShortTexts, header_of, message_bytes, open_bytes, parameter};
ghost use Rattle.sctp_channels.specs.Views.{Establishment, message_of, open_of};
ghost use Rattle.sctp_channels.specs.Channel.{text_bytes};

use crate::header::Header;
use crate::{ChannelMessageFault, Reliability};
use std::alloc::{AllocError, Global};

/// The message type of DATA_CHANNEL_ACK.
const ACK: u8 = 2;

/// The message type of DATA_CHANNEL_OPEN.
const OPEN: u8 = 3;

/// DATA_CHANNEL_OPEN: what the channel on this stream is (RFC 8832 section 5.1).
#[derive(Debug, Drop)]
pub struct DataChannelOpen {
    /// Whether its messages are handed out as they come, and not in order.
    pub unordered: bool,
    /// How often a message is sent again.
    pub reliability: Reliability,
    /// Its weight (RFC 8831 section 6.4): 128 below normal, 256 normal, 512 high, 1,024 extra high; others are kept. The peer is told, and the
    /// socket gives it to the channel's stream (`DcSctpSocket::set_stream_priority`), unless it is 0, which leaves the stream's own.
    pub priority: u16,
    /// Its name, which may be empty, and may be that of other channels too.
    pub label: String,
    /// The protocol that is spoken over it, or nothing.
    pub protocol: String,
}

/// A message of the establishment protocol, under the PPID 50.
#[derive(Debug, Drop)]
pub enum ChannelMessage {
    /// The sender has opened a channel on this stream.
    Open(DataChannelOpen),
    /// The sender has taken the channel that the peer opened on this stream.
    Ack,
}

impl DataChannelOpen {
    /// The bytes of its label and its protocol.
    pub(crate) fn text_bytes(&self) -> u128
        ensures { result ≡ text_bytes (open_of self.now) }
    {
        self.label.len() as u128 + self.protocol.len() as u128
    }

    /// What is behind the message type.
    fn from_bytes(alloc: Global, bytes: &[u8]) -> Result<DataChannelOpen, ChannelMessageFault>
        ensures ok { IfOk result (λ it. SaysOpen (3 ∷ bytes.now) (open_of it)) }
        ensures refused { IfErr result (RefusedAs (3 ∷ bytes.now)) }
    {
        let Some((header, texts)) = Header::at(bytes) else {
            return Err(ChannelMessageFault::TooShort);
        };
        let Some((unordered, reliability)) = Reliability::from_channel_type(
            header.channel_type,
            header.parameter,
        ) else {
            return Err(ChannelMessageFault::UnknownChannelType);
        };
        if texts.len() != header.label_length as usize + header.protocol_length as usize {
            return Err(ChannelMessageFault::LengthMismatch);
        }
        let (label, protocol) = texts.split_at(header.label_length as usize);
        let Ok(label) = str::from_utf8(label) else {
            return Err(ChannelMessageFault::LabelNotUtf8);
        };
        let Ok(protocol) = str::from_utf8(protocol) else {
            return Err(ChannelMessageFault::ProtocolNotUtf8);
        };
        Ok(DataChannelOpen {
            unordered,
            reliability,
            priority: header.priority,
            label: String::from_str(alloc, label)?,
            protocol: String::from_str(alloc, protocol)?,
        })
    }

    /// The fields before the texts.
    fn header(&self) -> Header
        requires { HasShortTexts (open_of self.now) }
        ensures { result ≡ header_of (open_of self.now) (parameter self.now.reliability) }
    {
        Header {
            channel_type: self.reliability.channel_type(self.unordered),
            priority: self.priority,
            parameter: self.reliability.parameter(),
            label_length: self.label.len() as u16,
            protocol_length: self.protocol.len() as u16,
        }
    }

    #[tactic(auto, unfolding(crate::specs::Message::open_bytes))]
    fn push_to(&self, output: &mut Vec<u8>) -> Result<(), AllocError>
        requires { HasShortTexts (open_of self.now) }
        ensures wrote { OnOk result (output.new.items ≡ output.old.items ++ open_bytes (open_of self.now)) }
        ensures fits { OnOk result (OpenFits (open_of self.now)) }
    {
        output.push(OPEN)?;
        self.header().push_to(output)?;
        output.extend_from_slice(self.label.as_bytes())?;
        output.extend_from_slice(self.protocol.as_bytes())
    }
}

fn ack_from_bytes(bytes: &[u8]) -> Result<ChannelMessage, ChannelMessageFault>
    ensures ok { IfOk result (λ message. Says (2 ∷ bytes.now) (message_of message)) }
    ensures refused { IfErr result (RefusedAs (2 ∷ bytes.now)) }
{
    if !bytes.is_empty() {
        return Err(ChannelMessageFault::LengthMismatch);
    }
    Ok(ChannelMessage::Ack)
}

fn read(alloc: Global, bytes: &[u8]) -> Result<ChannelMessage, ChannelMessageFault>
    ensures ok { IfOk result (λ message. Says bytes.now (message_of message)) }
    ensures refused { IfErr result (RefusedAs bytes.now) }
{
    let Some((typ, rest)) = bytes.split_first() else {
        return Err(ChannelMessageFault::TooShort);
    };
    match *typ {
        OPEN => match DataChannelOpen::from_bytes(alloc, rest) {
            Ok(open) => Ok(ChannelMessage::Open(open)),
            Err(fault) => Err(fault),
        },
        ACK => ack_from_bytes(rest),
        _ => Err(ChannelMessageFault::UnknownMessageType),
    }
}

impl ChannelMessage {
    /// The message that the bytes are, the payload of an SCTP message as it came. What was written is read as the same message; other
    /// bytes say it too where they differ in the parameter of a reliable channel alone. Faults are looked for in the order of
    /// `ChannelMessageFault`.
    pub fn from_bytes(alloc: Global, bytes: &[u8]) -> Result<ChannelMessage, ChannelMessageFault>
        ensures ok { IfOk result (λ message. Says bytes.now (message_of message)) }
        ensures back { IfOk result (λ message. (m : Establishment) → MessageFits m → bytes.now ≡ message_bytes m → message_of message ≡ m) }
        ensures refused { IfErr result (RefusedAs bytes.now) }
        ensures rightly { IfErr result (λ fault. (m : Establishment) → Says bytes.now m → fault ≡ ChannelMessageFault.Memory) }
    {
        read(alloc, bytes)
    }

    /// Whether label and protocol have fewer than 65,536 bytes each, so that the message can be written.
    pub fn is_encodable(&self) -> bool
        ensures { IsTrue result ↔ MessageHasShortTexts (message_of self.now) }
    {
        match self {
            ChannelMessage::Open(open) => open.label.len() < 65536 && open.protocol.len() < 65536,
            ChannelMessage::Ack => true,
        }
    }

    /// The bytes of the message, for an SCTP message that is ordered and reliable.
    pub fn to_bytes(&self, alloc: Global) -> Result<Vec<u8>, AllocError>
        requires { MessageHasShortTexts (message_of self.now) }
        ensures wrote { IfOk result (λ bytes. bytes.items ≡ message_bytes (message_of self.now)) }
        ensures fits { OnOk result (MessageFits (message_of self.now)) }
    {
        let mut output = Vec::new(alloc);
        match self {
            ChannelMessage::Open(open) => open.push_to(&mut output)?,
            ChannelMessage::Ack => output.push(ACK)?,
        }
        Ok(output)
    }
}
