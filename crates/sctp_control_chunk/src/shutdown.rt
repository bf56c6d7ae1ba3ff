//! SHUTDOWN, SHUTDOWN ACK and SHUTDOWN COMPLETE (RFC 9260 sections 3.3.8, 3.3.9 and 3.3.13).
#![tactic(auto, unfolding(sctp_chunk::specs::ChunkText::chunk_text))]

ghost use Rattle.std.specs.Prelude.{IfOk, IfErr, Some};
ghost use Rattle.sctp_chunk.specs.Grammar.{IsChunk, RefusesChunkAs};
ghost use Rattle.sctp_chunk.specs.Views.{raw_chunk};
ghost use Rattle.sctp_control_chunk.specs.Views.{shutdown_tree, shutdown_ack_tree, shutdown_complete_tree};
ghost use Rattle.sctp_chunk.specs.ChunkText.{chunk_text};

use crate::flags::{is_reflected, reflected_text};
use sctp_chunk::RawChunk;
use sctp_serial::Tsn;
use sctp_wire::{ChunkParseError, ends_here, u32_at};
use std::alloc::Global;
use std::fmt;

/// The sender sends no new data.
#[derive(Clone, Copy, Debug)]
pub struct ShutdownChunk {
    pub cumulative_tsn_ack: Tsn,
}

impl ShutdownChunk {
    /// The chunk type.
    pub const TYPE: u8 = 7;

    /// What the chunk says; `InvalidType` where it is of another type, `InvalidLength` where its value has not four bytes.
    pub fn try_from(_alloc: Global, raw: RawChunk<'_>) -> Result<Self, ChunkParseError>
        ensures ok { IfOk result (λ c. IsChunk (raw_chunk raw.entry) (shutdown_tree c)) }
        ensures refused { IfErr result (RefusesChunkAs 7 (raw_chunk raw.entry)) }
    {
        let value = raw.value_as(Self::TYPE)?;
        let (cumulative_tsn_ack, rest) = u32_at(value)?;
        ends_here(rest)?;
        Ok(Self {
            cumulative_tsn_ack: Tsn(cumulative_tsn_ack),
        })
    }
}

/// Nor does the receiver of a SHUTDOWN.
#[derive(Clone, Copy, Debug)]
pub struct ShutdownAckChunk {}

impl ShutdownAckChunk {
    /// The chunk type.
    pub const TYPE: u8 = 8;

    /// What the chunk says; `InvalidType` where it is of another type, `InvalidLength` where it has a value.
    pub fn try_from(_alloc: Global, raw: RawChunk<'_>) -> Result<Self, ChunkParseError>
        ensures ok { IfOk result (λ c. IsChunk (raw_chunk raw.entry) (shutdown_ack_tree c)) }
        ensures refused { IfErr result (RefusesChunkAs 8 (raw_chunk raw.entry)) }
    {
        ends_here(raw.value_as(Self::TYPE)?)?;
        Ok(Self {})
    }
}

/// The association is over.
#[derive(Clone, Copy, Debug)]
pub struct ShutdownCompleteChunk {
    /// Whether the packet's tag is the one that the answered packet had.
    pub tag_reflected: bool,
}

impl ShutdownCompleteChunk {
    /// The chunk type.
    pub const TYPE: u8 = 14;

    /// What the chunk says; `InvalidType` where it is of another type, `InvalidLength` where it has a value.
    pub fn try_from(_alloc: Global, raw: RawChunk<'_>) -> Result<Self, ChunkParseError>
        ensures ok { IfOk result (λ c. IsChunk (raw_chunk raw.entry) (shutdown_complete_tree c)) }
        ensures refused { IfErr result (RefusesChunkAs 14 (raw_chunk raw.entry)) }
    {
        ends_here(raw.value_as(Self::TYPE)?)?;
        Ok(Self {
            tag_reflected: is_reflected(raw.flags),
        })
    }
}

impl fmt::Display for ShutdownChunk {
    ghost output = { λ c. Some (chunk_text (shutdown_tree c)) };

    fn fmt<W: fmt::Write>(&self, f: &mut fmt::Formatter<W>) -> fmt::Result {
        write!(
            f,
            "SHUTDOWN, cumulative_tsn_ack={}",
            self.cumulative_tsn_ack.0
        )
    }
}

impl fmt::Display for ShutdownAckChunk {
    ghost output = { λ c. Some (chunk_text (shutdown_ack_tree c)) };

    fn fmt<W: fmt::Write>(&self, f: &mut fmt::Formatter<W>) -> fmt::Result {
        f.write_str("SHUTDOWN ACK")
    }
}

impl fmt::Display for ShutdownCompleteChunk {
    ghost output = { λ c. Some (chunk_text (shutdown_complete_tree c)) };

    fn fmt<W: fmt::Write>(&self, f: &mut fmt::Formatter<W>) -> fmt::Result {
        write!(f, "SHUTDOWN COMPLETE{}", reflected_text(self.tag_reflected))
    }
}
