//! COOKIE ECHO and COOKIE ACK (RFC 9260 sections 3.3.11 and 3.3.12).
#![tactic(auto, unfolding(sctp_chunk::specs::ChunkText::chunk_text))]

ghost use Rattle.std.specs.Prelude.{IfOk, IfErr, Some};
ghost use Rattle.sctp_chunk.specs.Grammar.{IsChunk, RefusesChunkAs};
ghost use Rattle.sctp_chunk.specs.Views.{raw_chunk};
ghost use Rattle.sctp_control_chunk.specs.Views.{cookie_echo_tree, cookie_ack_tree};
ghost use Rattle.sctp_chunk.specs.ChunkText.{chunk_text};

use sctp_chunk::RawChunk;
use sctp_wire::{ChunkParseError, ends_here};
use std::alloc::Global;
use std::fmt;

/// The cookie of an INIT ACK, sent back.
#[derive(Debug, Drop)]
pub struct CookieEchoChunk {
    pub cookie: Vec<u8>,
}

impl CookieEchoChunk {
    /// The chunk type.
    pub const TYPE: u8 = 10;

    /// What the chunk says; `InvalidType` where it is of another type, `InvalidLength` where there is no cookie, `Memory` where that lacks.
    pub fn try_from(alloc: Global, raw: RawChunk<'_>) -> Result<Self, ChunkParseError>
        ensures ok { IfOk result (λ c. IsChunk (raw_chunk raw.entry) (cookie_echo_tree c)) }
        ensures refused { IfErr result (RefusesChunkAs 10 (raw_chunk raw.entry)) }
    {
        let value = raw.value_as(Self::TYPE)?;
        if value.is_empty() {
            return Err(ChunkParseError::InvalidLength);
        }
        Ok(Self {
            cookie: Vec::from_slice(alloc, value)?,
        })
    }
}

/// The cookie was taken.
#[derive(Clone, Copy, Debug)]
pub struct CookieAckChunk {}

impl CookieAckChunk {
    /// The chunk type.
    pub const TYPE: u8 = 11;

    /// What the chunk says; `InvalidType` where it is of another type, `InvalidLength` where it has a value.
    pub fn try_from(_alloc: Global, raw: RawChunk<'_>) -> Result<Self, ChunkParseError>
        ensures ok { IfOk result (λ c. IsChunk (raw_chunk raw.entry) (cookie_ack_tree c)) }
        ensures refused { IfErr result (RefusesChunkAs 11 (raw_chunk raw.entry)) }
    {
        ends_here(raw.value_as(Self::TYPE)?)?;
        Ok(Self {})
    }
}

impl fmt::Display for CookieEchoChunk {
    ghost output = { λ c. Some (chunk_text (cookie_echo_tree c)) };

    fn fmt<W: fmt::Write>(&self, f: &mut fmt::Formatter<W>) -> fmt::Result {
        write!(f, "COOKIE ECHO, cookie={} bytes", self.cookie.len())
    }
}

impl fmt::Display for CookieAckChunk {
    ghost output = { λ c. Some (chunk_text (cookie_ack_tree c)) };

    fn fmt<W: fmt::Write>(&self, f: &mut fmt::Formatter<W>) -> fmt::Result {
        f.write_str("COOKIE ACK")
    }
}
