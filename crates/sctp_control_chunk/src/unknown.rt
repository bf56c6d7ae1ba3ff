//! Chunks of no known type.
#![tactic(auto, unfolding(sctp_chunk::specs::ChunkText::chunk_text))]

ghost use Rattle.std.specs.Prelude.{◌≡◌, false, IfOk, IfErr, Some};
ghost use Rattle.sctp_chunk.specs.Written.{chunk_item, is_known_chunk};
ghost use Rattle.sctp_chunk.specs.Grammar.{IsChunk};
ghost use Rattle.sctp_chunk.specs.Views.{raw_chunk};
ghost use Rattle.sctp_control_chunk.specs.Views.{unknown_tree};
ghost use Rattle.sctp_chunk.specs.ChunkText.{chunk_text};

use sctp_chunk::RawChunk;
use sctp_wire::ChunkParseError;
use std::alloc::Global;
use std::fmt;

/// A chunk that is kept as it came.
#[derive(Debug, Drop)]
pub struct UnknownChunk {
    pub typ: u8,
    pub flags: u8,
    pub value: Vec<u8>,
}

#[tactic(auto, unfolding(sctp_chunk::specs::Written::chunk_value))]
impl UnknownChunk {
    /// The chunk, of whatever type; only memory may lack.
    pub fn try_from(alloc: Global, raw: RawChunk<'_>) -> Result<Self, ChunkParseError>
        ensures ok { IfOk result (λ c. chunk_item (unknown_tree c) ≡ raw_chunk raw.entry) }
        ensures chunk { IfOk result (λ c. is_known_chunk raw.entry.typ ≡ false → IsChunk (raw_chunk raw.entry) (unknown_tree c)) }
        ensures refused { IfErr result (λ e. e ≡ ChunkParseError.Memory) }
    {
        Ok(Self {
            typ: raw.typ,
            flags: raw.flags,
            value: Vec::from_slice(alloc, raw.value)?,
        })
    }
}

impl fmt::Display for UnknownChunk {
    ghost output = { λ c. Some (chunk_text (unknown_tree c)) };

    fn fmt<W: fmt::Write>(&self, f: &mut fmt::Formatter<W>) -> fmt::Result {
        write!(
            f,
            "UNKNOWN CHUNK, typ={}, flags={}, value={} bytes",
            self.typ,
            self.flags,
            self.value.len()
        )
    }
}
