//! Why a message was not read.

ghost use Rattle.std.specs.Prelude.{◌≡◌};
ghost use Rattle.sctp_channels.specs.declared.fault.ChannelMessageFault.TheVariants.{Memory as no_memory};

use std::alloc::AllocError;
use thiserror::Error;

/// What is wrong with a message that came as one of the establishment protocol.
#[derive(Clone, Copy, Debug, Error)]
pub enum ChannelMessageFault {
    /// It is empty, or a DATA_CHANNEL_OPEN of fewer than twelve bytes.
    #[error("too short")]
    TooShort,
    /// Its first byte is neither that of DATA_CHANNEL_OPEN nor that of DATA_CHANNEL_ACK.
    #[error("unknown message type")]
    UnknownMessageType,
    /// The channel type is none of the six.
    #[error("unknown channel type")]
    UnknownChannelType,
    /// The lengths of label and protocol don't add up to what is behind them, or something is behind a DATA_CHANNEL_ACK.
    #[error("lengths do not add up")]
    LengthMismatch,
    /// The label is no UTF-8.
    #[error("label is not UTF-8")]
    LabelNotUtf8,
    /// The protocol is no UTF-8.
    #[error("protocol is not UTF-8")]
    ProtocolNotUtf8,
    /// There was no memory for what was read.
    #[error("out of memory")]
    Memory,
}

impl From<AllocError> for ChannelMessageFault {
    ghost from_gives = { λ _ e. e ≡ no_memory };

    fn from(_e: AllocError) -> ChannelMessageFault {
        ChannelMessageFault::Memory
    }
}
