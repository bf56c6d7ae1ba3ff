//! SACK (RFC 9260 section 3.3.4).

ghost use Rattle.std.specs.Prelude.{◌≡◌, ◌+◌, ◌*◌, ◌^◌, ◌-◌, ◌<◌, true, ◌++◌, length, IfOk, IfErr, OnOk, OnErr};
ghost use Rattle.sctp_chunk.specs.Written.{chunk_item};
ghost use Rattle.sctp_wire.specs.Field.{be16, be32};
ghost use Rattle.sctp_wire.specs.Room.{Fills};
ghost use Rattle.sctp_chunk.specs.Grammar.{IsChunk, RefusesChunkAs, IsCounted};
ghost use Rattle.sctp_chunk.specs.Views.{raw_chunk, sack_chunk_tree};
ghost use Rattle.std.specs.Prelude.{Some};
ghost use Rattle.sctp_chunk.specs.ChunkText.{chunk_text, block_text};
ghost use Rattle.std.proofs.Common.{refl};

use crate::raw::RawChunk;
use sctp_serial::Tsn;
use sctp_wire::{
    ChunkParseError, Entry, Joined, Listed, SerializableTlv, entries_from_bytes, first_u16,
    first_u32, push_entries, push_u16,
};
use std::alloc::{AllocError, Global};
use std::fmt;

/// A block of TSNs that came, as offsets from the cumulative TSN: from `start` to `end`, both included.
#[derive(Clone, Copy, Debug, PartialEq, Eq)]
pub struct GapAckBlock {
    pub start: u16,
    pub end: u16,
}

impl GapAckBlock {
    /// The block of these two offsets from the cumulative TSN.
    pub fn new(start: u16, end: u16) -> GapAckBlock
        ensures { result ≡ record { start = start; end = end } }
    {
        GapAckBlock { start, end }
    }
}

#[tactic(auto, unfolding(crate::specs::Written::block_bytes))]
impl Entry for GapAckBlock {
    ghost use Rattle.std.proofs.Common.{arith};
    ghost use Rattle.sctp_chunk.specs.Written.{block_bytes, length_block_bytes};
    ghost use Rattle.sctp_chunk.specs.Grammar.{FitsBlock};

    ghost width = { 4 };

    ghost bytes_of = { block_bytes };

    ghost in_range = { FitsBlock };

    ghost width_is_positive = { Prim.omega arith };

    ghost width_of = { length_block_bytes };

    fn entry_at(bytes: &[u8]) -> Result<(GapAckBlock, &[u8]), ChunkParseError> {
        if bytes.len() < 4 {
            return Err(ChunkParseError::InvalidLength);
        }
        let (start, rest) = first_u16(bytes);
        let (end, rest) = first_u16(rest);
        Ok((GapAckBlock { start, end }, rest))
    }

    fn push_to(&self, output: &mut Vec<u8>) -> Result<(), AllocError> {
        push_u16(output, self.start)?;
        push_u16(output, self.end)
    }
}

/// Which TSNs came.
#[derive(Debug, Drop)]
pub struct SackChunk {
    pub cumulative_tsn_ack: Tsn,
    /// The receiver's window, in bytes.
    pub a_rwnd: u32,
    pub gap_ack_blocks: Vec<GapAckBlock>,
    pub duplicate_tsns: Vec<Tsn>,
}

#[tactic(auto, unfolding(crate::specs::Written::sack_value))]
impl SackChunk {
    /// The chunk type.
    pub const TYPE: u8 = 3;

    /// What the chunk says; `InvalidType` where it is of another type, `InvalidLength` where its value does not hold
    /// just the blocks and duplicates that its counts say, `Memory` where that lacks.
    pub fn try_from(alloc: Global, raw: RawChunk<'_>) -> Result<SackChunk, ChunkParseError>
        ensures ok { IfOk result (λ c. IsChunk (raw_chunk raw.entry) (sack_chunk_tree c)) }
        ensures refused { IfErr result (RefusesChunkAs 3 (raw_chunk raw.entry)) }
    {
        let value = raw.value_as(Self::TYPE)?;
        let front = SackFront::at(value)?;
        let (blocks, duplicates) = front.rest.split_at(4 * front.block_count as usize);
        let gap_ack_blocks = entries_from_bytes(alloc, blocks)?;
        let duplicate_tsns = entries_from_bytes(alloc, duplicates)?;
        Ok(SackChunk {
            cumulative_tsn_ack: Tsn(front.cumulative_tsn_ack),
            a_rwnd: front.a_rwnd,
            gap_ack_blocks,
            duplicate_tsns,
        })
    }

    /// Whether a SACK may have this value: `InvalidLength` where it does not hold just the blocks and duplicates that its counts
    /// say.
    pub fn check_value(value: &[u8]) -> Result<(), ChunkParseError>
        ensures ok { OnOk result (IsCounted value.now) }
        ensures other { OnErr result (IsCounted value.now → ⊥) }
        ensures fault { IfErr result (λ e. e ≡ ChunkParseError.InvalidLength) }
    {
        SackFront::at(value)?;
        Ok(())
    }
}

/// The fields that a SACK begins with, and the bytes of its blocks and duplicates behind them.
#[derive(Clone, Copy)]
struct SackFront<'a> {
    cumulative_tsn_ack: u32,
    a_rwnd: u32,
    block_count: u16,
    duplicate_count: u16,
    rest: &'a [u8],
}

impl<'a> SackFront<'a> {
    /// The fields of a value; `InvalidLength` where it does not hold just the blocks and duplicates that its counts say.
    fn at(value: &'a [u8]) -> Result<SackFront<'a>, ChunkParseError>
        ensures ok { IfOk result (λ f. value.now ≡ be32 f.cumulative_tsn_ack ++ (be32 f.a_rwnd ++ (be16 f.block_count ++ (be16 f.duplicate_count ++ f.rest.now)))) }
        ensures tsn_fits { IfOk result (λ f. f.cumulative_tsn_ack < 2 ^ 32) }
        ensures window_fits { IfOk result (λ f. f.a_rwnd < 2 ^ 32) }
        ensures blocks_fit { IfOk result (λ f. f.block_count < 2 ^ 16) }
        ensures duplicates_fit { IfOk result (λ f. f.duplicate_count < 2 ^ 16) }
        ensures counted { IfOk result (λ f. length f.rest.now ≡ 4 * f.block_count + 4 * f.duplicate_count) }
        ensures other { OnErr result (IsCounted value.now → ⊥) }
        ensures fault { IfErr result (λ e. e ≡ ChunkParseError.InvalidLength) }
    {
        if value.len() < 12 {
            return Err(ChunkParseError::InvalidLength);
        }
        let (cumulative_tsn_ack, rest) = first_u32(value);
        let (a_rwnd, rest) = first_u32(rest);
        let (block_count, rest) = first_u16(rest);
        let (duplicate_count, rest) = first_u16(rest);
        let blocks_size = 4 * block_count as usize;
        if rest.len() != blocks_size + 4 * duplicate_count as usize {
            return Err(ChunkParseError::InvalidLength);
        }
        Ok(SackFront {
            cumulative_tsn_ack,
            a_rwnd,
            block_count,
            duplicate_count,
            rest,
        })
    }
}

#[tactic(auto, unfolding(crate::specs::Written::chunk_value, crate::specs::Written::sack_value))]
impl SerializableTlv for SackChunk {
    ghost item_of = { λ c. chunk_item (sack_chunk_tree c) };

    ghost parts_agree = { λ c. true };

    fn kind(&self) -> [u8; 2] {
        [Self::TYPE, 0]
    }

    #[tactic(auto, using(crate::proofs::ValueLemmas::length_sack))]
    fn value_size(&self) -> usize {
        let blocks = self.gap_ack_blocks.len().saturating_mul(4);
        let duplicates = self.duplicate_tsns.len().saturating_mul(4);
        blocks.saturating_add(duplicates).saturating_add(12)
    }

    fn is_whole(&self) -> bool {
        true
    }

    #[tactic(auto, using(crate::proofs::ValueLemmas::length_sack))]
    fn push_value(&self, output: &mut Vec<u8>) -> Result<(), AllocError> {
        let blocks = self.gap_ack_blocks.len() as u16;
        let duplicates = self.duplicate_tsns.len() as u16;
        push_front(
            self.cumulative_tsn_ack,
            self.a_rwnd,
            blocks,
            duplicates,
            output,
        )?;
        push_entries(output, &self.gap_ack_blocks)?;
        push_entries(output, &self.duplicate_tsns)
    }
}

/// Appends the fields that a SACK's value begins with.
#[tactic(auto, unfolding(sctp_wire::specs::Field::be16, sctp_wire::specs::Field::be32))]
fn push_front(
    tsn: Tsn,
    a_rwnd: u32,
    block_count: u16,
    duplicate_count: u16,
    output: &mut Vec<u8>,
) -> Result<(), AllocError>
    ensures wrote { OnOk result (output.new.items ≡ output.old.items ++ (be32 tsn.0 ++ (be32 a_rwnd ++ (be16 block_count ++ be16 duplicate_count)))) }
    ensures room { Fills output.old output.new 12 result }
{
    let tsn = tsn.0.to_be_bytes();
    let window = a_rwnd.to_be_bytes();
    let blocks = block_count.to_be_bytes();
    let twice = duplicate_count.to_be_bytes();
    output.extend_from_slice(&[
        tsn[0], tsn[1], tsn[2], tsn[3], window[0], window[1], window[2], window[3], blocks[0],
        blocks[1], twice[0], twice[1],
    ])
}

#[tactic(auto, unfolding(crate::specs::ChunkText::chunk_text))]
impl fmt::Display for SackChunk {
    ghost output = { λ c. Some (chunk_text (sack_chunk_tree c)) };

    fn fmt<W: fmt::Write>(&self, f: &mut fmt::Formatter<W>) -> fmt::Result {
        write!(
            f,
            "SACK, cumulative_tsn_ack={}, a_rwnd={}, gap_ack_blocks={}, duplicate_tsns={}",
            self.cumulative_tsn_ack.0,
            self.a_rwnd,
            Joined(&self.gap_ack_blocks),
            Joined(&self.duplicate_tsns)
        )
    }
}

impl fmt::Display for GapAckBlock {
    ghost output = { λ b. Some (block_text b) };

    fn fmt<W: fmt::Write>(&self, f: &mut fmt::Formatter<W>) -> fmt::Result {
        write!(f, "{}-{}", self.start, self.end)
    }
}

impl Listed for GapAckBlock {
    ghost text = { block_text };

    ghost shows = { λ b. refl };
}
