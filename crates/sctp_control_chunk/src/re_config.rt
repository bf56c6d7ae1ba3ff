//! RE-CONFIG (RFC 6525 section 3.1).
#![tactic(auto, unfolding(sctp_chunk::specs::ChunkText::chunk_text))]

ghost use Rattle.std.specs.Prelude.{IfOk, IfErr, Some};
ghost use Rattle.sctp_chunk.specs.Grammar.{IsChunk, RefusesChunkAs};
ghost use Rattle.sctp_chunk.specs.Views.{raw_chunk};
ghost use Rattle.sctp_control_chunk.specs.Views.{re_config_tree};
ghost use Rattle.sctp_chunk.specs.ChunkText.{chunk_text};

use sctp_chunk::RawChunk;
use sctp_parameter::{Parameter, parameters_from_bytes};
use sctp_wire::ChunkParseError;
use std::alloc::Global;
use std::fmt;

/// Requests that streams begin anew, and answers.
#[derive(Debug, Drop)]
pub struct ReConfigChunk {
    pub parameters: Vec<Parameter>,
}

impl ReConfigChunk {
    /// The chunk type.
    pub const TYPE: u8 = 130;

    /// What the chunk says; `InvalidType` where it is of another type, else the fault of its first parameter that cannot
    /// be read, `Memory` where that lacks.
    pub fn try_from(alloc: Global, raw: RawChunk<'_>) -> Result<Self, ChunkParseError>
        ensures ok { IfOk result (λ c. IsChunk (raw_chunk raw.entry) (re_config_tree c)) }
        ensures refused { IfErr result (RefusesChunkAs 130 (raw_chunk raw.entry)) }
    {
        let parameters = parameters_from_bytes(alloc, raw.value_as(Self::TYPE)?)?;
        Ok(Self { parameters })
    }
}

impl fmt::Display for ReConfigChunk {
    ghost output = { λ c. Some (chunk_text (re_config_tree c)) };

    fn fmt<W: fmt::Write>(&self, f: &mut fmt::Formatter<W>) -> fmt::Result {
        write!(f, "RE-CONFIG, parameters={}", self.parameters.len())
    }
}
