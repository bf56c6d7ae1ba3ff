//! Why calls fail, each reason with its number. `Memory` is answered where a growth was refused; afterwards each changing
//! call answers `Failed`.

ghost use Rattle.std.specs.Prelude.{◌≡◌};
ghost use Rattle.sctp_state.specs.Errors.{batch_number, handover_number, send_number};

use crate::api::handover::HandoverReadiness;
use std::alloc::AllocError;
use thiserror::Error;

/// Why a call without an answer of its own fails.
#[derive(Debug, Drop, Error, PartialEq)]
pub enum CallError {
    #[error("out of memory")]
    Memory = 1,
    /// An earlier call found too little memory.
    #[error("socket has failed")]
    Failed = 2,
}

impl From<AllocError> for CallError {
    ghost use Rattle.sctp_state.specs.declared.api.errors.CallError.TheVariants.{Memory};

    ghost from_gives = { λ _ e. e ≡ Memory };

    fn from(_: AllocError) -> CallError {
        CallError::Memory
    }
}

/// Why a message isn't accepted. The tests are made in this order, but that for `Failed` first.
#[derive(Debug, Drop, Error, PartialEq)]
pub enum SendError {
    #[error("message payload cannot be empty")]
    EmptyPayload,
    /// The payload has `len` bytes, and at most `limit` are accepted.
    #[error("message size ({len}) exceeds configured max_message_size ({limit})")]
    MessageTooLarge { len: usize, limit: usize },
    /// The association is being closed. A closed socket queues what is sent.
    #[error("socket is shutting down or closed")]
    ShuttingDown,
    /// The queue of the stream, or of all streams, is full.
    #[error("send queue is full")]
    ResourceExhaustion,
    #[error("out of memory")]
    Memory,
    #[error("socket has failed")]
    Failed,
}

impl SendError {
    /// The number of the reason, 1 to 6 in the order above.
    pub fn number(&self) -> u8
        ensures { result ≡ send_number self.now }
    {
        match self {
            SendError::EmptyPayload => 1,
            SendError::MessageTooLarge { .. } => 2,
            SendError::ShuttingDown => 3,
            SendError::ResourceExhaustion => 4,
            SendError::Memory => 5,
            SendError::Failed => 6,
        }
    }
}

impl From<AllocError> for SendError {
    ghost use Rattle.sctp_state.specs.declared.api.errors.SendError.TheVariants.{Memory};

    ghost from_gives = { λ _ e. e ≡ Memory };

    fn from(_: AllocError) -> SendError {
        SendError::Memory
    }
}

/// Which messages of a batch weren't accepted, by their places in it, and why. The others were.
#[derive(Debug, Drop, Error, PartialEq)]
#[error("batch send failed with errors: {0:?}")]
pub struct BatchSendError(pub Vec<(usize, SendError)>);

/// Why the sending of a batch fails.
#[derive(Debug, Drop, Error, PartialEq)]
pub enum BatchFault {
    /// Some messages weren't accepted.
    #[error(transparent)]
    Refused(BatchSendError),
    #[error("out of memory")]
    Memory,
    #[error("socket has failed")]
    Failed,
}

impl BatchFault {
    /// The number of the reason, 1 to 3 in the order above.
    pub fn number(&self) -> u8
        ensures { result ≡ batch_number self.now }
    {
        match self {
            BatchFault::Refused(_) => 1,
            BatchFault::Memory => 2,
            BatchFault::Failed => 3,
        }
    }
}

impl From<AllocError> for BatchFault {
    ghost use Rattle.sctp_state.specs.declared.api.errors.BatchFault.TheVariants.{Memory};

    ghost from_gives = { λ _ e. e ≡ Memory };

    fn from(_: AllocError) -> BatchFault {
        BatchFault::Memory
    }
}

/// Why streams can't be reset.
#[derive(Debug, Drop, Error, PartialEq)]
pub enum ResetStreamsError {
    #[error("socket is not connected")]
    NotConnected = 1,
    #[error("peer does not support stream resetting")]
    NotSupported = 2,
    #[error("out of memory")]
    Memory = 3,
    #[error("socket has failed")]
    Failed = 4,
}

impl From<AllocError> for ResetStreamsError {
    ghost use Rattle.sctp_state.specs.declared.api.errors.ResetStreamsError.TheVariants.{Memory};

    ghost from_gives = { λ _ e. e ≡ Memory };

    fn from(_: AllocError) -> ResetStreamsError {
        ResetStreamsError::Memory
    }
}

/// Why a socket can't be handed over.
#[derive(Debug, Drop, Error, PartialEq)]
pub enum HandoverError {
    /// The readiness says what stands in the way.
    #[error("socket is not in a ready state for handover")]
    NotReady(HandoverReadiness),
    #[error("out of memory")]
    Memory,
    #[error("socket has failed")]
    Failed,
}

impl HandoverError {
    /// The number of the reason, 1 to 3 in the order above.
    pub fn number(&self) -> u8
        ensures { result ≡ handover_number self.now }
    {
        match self {
            HandoverError::NotReady(_) => 1,
            HandoverError::Memory => 2,
            HandoverError::Failed => 3,
        }
    }
}

impl From<AllocError> for HandoverError {
    ghost use Rattle.sctp_state.specs.declared.api.errors.HandoverError.TheVariants.{Memory};

    ghost from_gives = { λ _ e. e ≡ Memory };

    fn from(_: AllocError) -> HandoverError {
        HandoverError::Memory
    }
}

/// Why a socket can't take up a handed over state.
#[derive(Debug, Drop, Error, PartialEq)]
pub enum RestoreError {
    #[error("cannot restore state: socket is not closed")]
    SocketNotClosed = 1,
    /// The record is none that a socket takes up (`SocketHandoverState::is_valid`).
    #[error("handover state is invalid")]
    InvalidState = 2,
    #[error("out of memory")]
    Memory = 3,
    #[error("socket has failed")]
    Failed = 4,
}

impl From<AllocError> for RestoreError {
    ghost use Rattle.sctp_state.specs.declared.api.errors.RestoreError.TheVariants.{Memory};

    ghost from_gives = { λ _ e. e ≡ Memory };

    fn from(_: AllocError) -> RestoreError {
        RestoreError::Memory
    }
}
