//! What a probe answers.

ghost use Rattle.std.specs.Prelude.{◌≡◌};
ghost use Rattle.sctp_probe.specs.declared.answer.ProbeError.TheVariants.{Memory as no_memory};

use sctp_wire::Message;
use std::alloc::AllocError;
use thiserror::Error;

/// A whole message, and the packet that acknowledges it.
#[derive(Debug, Drop)]
pub struct Probe {
    pub message: Message,
    pub reply: Vec<u8>,
}

/// Why there is no message.
#[derive(Clone, Copy, Debug, PartialEq, Eq, Error)]
pub enum ProbeError {
    /// The bytes are no packet: the number of their fault, as `PacketParseError::number` has it.
    #[error("packet refused: {0}")]
    Refused(u8),
    /// A packet, but not of one DATA chunk that holds a whole message.
    #[error("no packet of one whole message")]
    Other,
    /// Memory ran out.
    #[error("out of memory")]
    Memory,
}

impl From<AllocError> for ProbeError {
    ghost from_gives = { λ _ e. e ≡ no_memory };

    fn from(_e: AllocError) -> ProbeError {
        ProbeError::Memory
    }
}
