//! ABORT and ERROR (RFC 9260 sections 3.3.7 and 3.3.10).
#![tactic(auto, unfolding(sctp_chunk::specs::ChunkText::chunk_text))]

ghost use Rattle.std.specs.Prelude.{IfOk, IfErr, Some};
ghost use Rattle.sctp_chunk.specs.Grammar.{IsChunk, RefusesChunkAs};
ghost use Rattle.sctp_chunk.specs.Views.{raw_chunk};
ghost use Rattle.sctp_control_chunk.specs.Views.{abort_tree, error_tree};
ghost use Rattle.sctp_chunk.specs.ChunkText.{chunk_text};

use crate::flags::{is_reflected, reflected_text};
use sctp_chunk::RawChunk;
use sctp_error_cause::{ErrorCause, error_cause_from_bytes};
use sctp_wire::ChunkParseError;
use std::alloc::Global;
use std::fmt;

/// The association is over at once, for these reasons.
#[derive(Debug, Drop)]
pub struct AbortChunk {
    /// Whether the packet's tag is the one that the answered packet had.
    pub tag_reflected: bool,
    pub error_causes: Vec<ErrorCause>,
}

impl AbortChunk {
    /// The chunk type.
    pub const TYPE: u8 = 6;

    /// What the chunk says; `InvalidType` where it is of another type, else the fault of its first cause that cannot be
    /// read, `Memory` where that lacks.
    pub fn try_from(alloc: Global, raw: RawChunk<'_>) -> Result<Self, ChunkParseError>
        ensures ok { IfOk result (λ c. IsChunk (raw_chunk raw.entry) (abort_tree c)) }
        ensures refused { IfErr result (RefusesChunkAs 6 (raw_chunk raw.entry)) }
    {
        let value = raw.value_as(Self::TYPE)?;
        Ok(Self {
            tag_reflected: is_reflected(raw.flags),
            error_causes: error_cause_from_bytes(alloc, value)?,
        })
    }
}

/// Something is wrong, and the association goes on.
#[derive(Debug, Drop)]
pub struct ErrorChunk {
    pub error_causes: Vec<ErrorCause>,
}

impl ErrorChunk {
    /// The chunk type.
    pub const TYPE: u8 = 9;

    /// What the chunk says; `InvalidType` where it is of another type, else the fault of its first cause that cannot be
    /// read, `Memory` where that lacks.
    pub fn try_from(alloc: Global, raw: RawChunk<'_>) -> Result<Self, ChunkParseError>
        ensures ok { IfOk result (λ c. IsChunk (raw_chunk raw.entry) (error_tree c)) }
        ensures refused { IfErr result (RefusesChunkAs 9 (raw_chunk raw.entry)) }
    {
        let error_causes = error_cause_from_bytes(alloc, raw.value_as(Self::TYPE)?)?;
        Ok(Self { error_causes })
    }
}

impl fmt::Display for AbortChunk {
    ghost output = { λ c. Some (chunk_text (abort_tree c)) };

    fn fmt<W: fmt::Write>(&self, f: &mut fmt::Formatter<W>) -> fmt::Result {
        write!(
            f,
            "ABORT, error_causes={}{}",
            self.error_causes.len(),
            reflected_text(self.tag_reflected)
        )
    }
}

impl fmt::Display for ErrorChunk {
    ghost output = { λ c. Some (chunk_text (error_tree c)) };

    fn fmt<W: fmt::Write>(&self, f: &mut fmt::Formatter<W>) -> fmt::Result {
        write!(f, "ERROR, error_causes={}", self.error_causes.len())
    }
}
