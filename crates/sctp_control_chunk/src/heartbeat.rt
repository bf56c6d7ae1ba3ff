//! HEARTBEAT and HEARTBEAT ACK (RFC 9260 sections 3.3.5 and 3.3.6).
#![tactic(auto, unfolding(sctp_chunk::specs::ChunkText::chunk_text))]

ghost use Rattle.std.specs.Prelude.{IfOk, IfErr, Some};
ghost use Rattle.sctp_chunk.specs.Grammar.{IsChunk, RefusesChunkAs};
ghost use Rattle.sctp_chunk.specs.Views.{raw_chunk};
ghost use Rattle.sctp_control_chunk.specs.Views.{heartbeat_request_tree, heartbeat_ack_tree};
ghost use Rattle.sctp_chunk.specs.ChunkText.{chunk_text};

use sctp_chunk::RawChunk;
use sctp_parameter::{Parameter, parameters_from_bytes};
use sctp_wire::ChunkParseError;
use std::alloc::Global;
use std::fmt;

/// A request to send the parameters back.
#[derive(Debug, Drop)]
pub struct HeartbeatRequestChunk {
    pub parameters: Vec<Parameter>,
}

impl HeartbeatRequestChunk {
    /// The chunk type.
    pub const TYPE: u8 = 4;

    /// What the chunk says; `InvalidType` where it is of another type, else the fault of its first parameter that cannot
    /// be read, `Memory` where that lacks.
    pub fn try_from(alloc: Global, raw: RawChunk<'_>) -> Result<Self, ChunkParseError>
        ensures ok { IfOk result (λ c. IsChunk (raw_chunk raw.entry) (heartbeat_request_tree c)) }
        ensures refused { IfErr result (RefusesChunkAs 4 (raw_chunk raw.entry)) }
    {
        let parameters = parameters_from_bytes(alloc, raw.value_as(Self::TYPE)?)?;
        Ok(Self { parameters })
    }
}

/// The parameters of a HEARTBEAT, sent back.
#[derive(Debug, Drop)]
pub struct HeartbeatAckChunk {
    pub parameters: Vec<Parameter>,
}

impl HeartbeatAckChunk {
    /// The chunk type.
    pub const TYPE: u8 = 5;

    /// What the chunk says; `InvalidType` where it is of another type, else the fault of its first parameter that cannot
    /// be read, `Memory` where that lacks.
    pub fn try_from(alloc: Global, raw: RawChunk<'_>) -> Result<Self, ChunkParseError>
        ensures ok { IfOk result (λ c. IsChunk (raw_chunk raw.entry) (heartbeat_ack_tree c)) }
        ensures refused { IfErr result (RefusesChunkAs 5 (raw_chunk raw.entry)) }
    {
        let parameters = parameters_from_bytes(alloc, raw.value_as(Self::TYPE)?)?;
        Ok(Self { parameters })
    }
}

impl fmt::Display for HeartbeatRequestChunk {
    ghost output = { λ c. Some (chunk_text (heartbeat_request_tree c)) };

    fn fmt<W: fmt::Write>(&self, f: &mut fmt::Formatter<W>) -> fmt::Result {
        write!(f, "HEARTBEAT, parameters={}", self.parameters.len())
    }
}

impl fmt::Display for HeartbeatAckChunk {
    ghost output = { λ c. Some (chunk_text (heartbeat_ack_tree c)) };

    fn fmt<W: fmt::Write>(&self, f: &mut fmt::Formatter<W>) -> fmt::Result {
        write!(f, "HEARTBEAT ACK, parameters={}", self.parameters.len())
    }
}
