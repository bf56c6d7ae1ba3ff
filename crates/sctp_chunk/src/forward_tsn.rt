//! FORWARD-TSN (RFC 3758 section 3.2) and I-FORWARD-TSN (RFC 8260 section 2.3.1).

ghost use Rattle.std.specs.Prelude.{◌≡◌, ◌≢◌, ◌⊎◌, ℕ, List, ◌+◌, ◌%◌, ◌^◌, ◌-◌, ◌<◌, ◌≤◌, min, true, ◌++◌, length, IfOk, IfErr, OnOk, OnErr};
ghost use Rattle.std.specs.List.{flat_map, list_all};
ghost use Rattle.sctp_wire.specs.Room.{Fills};
ghost use Rattle.sctp_chunk.specs.Written.{chunk_item, chunk_is_whole, skip_bytes, is_ssn_skip, is_mid_skip, key_flag, key_stream, flag};
ghost use Rattle.sctp_chunk.specs.Grammar.{IsChunk, RefusesChunkAs};
ghost use Rattle.sctp_chunk.specs.Views.{raw_chunk, forward_tsn_tree, i_forward_tsn_tree};
ghost use Rattle.sctp_chunk.specs.Grammar.{Each, FitsSkip, SaysSkip, SaysSkips};
ghost use Rattle.std.specs.Prelude.{Some};
ghost use Rattle.sctp_chunk.specs.ChunkText.{chunk_text, skip_text};
ghost use Rattle.std.proofs.Common.{refl};

use crate::raw::RawChunk;
use sctp_serial::{Mid, Ssn, StreamId, StreamKey, Tsn};
use sctp_wire::{
    ChunkParseError, Joined, Listed, SerializableTlv, first_u16, first_u32, push_u16, push_u32,
    u32_at,
};
use std::alloc::{AllocError, Global};
use std::fmt;

const FLAG_UNORDERED: u16 = 1;

/// A message that the sender gave up, and with it all earlier ones of its stream.
#[derive(Clone, Copy, Debug)]
pub enum SkippedStream {
    /// An entry of FORWARD-TSN.
    ForwardTsn(StreamId, Ssn),
    /// An entry of I-FORWARD-TSN.
    IForwardTsn(StreamKey, Mid),
}

#[tactic(auto, unfolding(crate::specs::Written::skip_bytes))]
impl SkippedStream {
    /// The length of the entry in bytes.
    fn size(&self) -> usize
        ensures size { result ≡ length (skip_bytes self.now) }
        ensures small { result ≤ 8 }
    {
        match self {
            SkippedStream::ForwardTsn(_, _) => 4,
            SkippedStream::IForwardTsn(_, _) => 8,
        }
    }

    fn is_ssn_skip(&self) -> bool
        ensures { result ≡ is_ssn_skip self.now }
    {
        match self {
            SkippedStream::ForwardTsn(_, _) => true,
            SkippedStream::IForwardTsn(_, _) => false,
        }
    }

    fn is_mid_skip(&self) -> bool
        ensures { result ≡ is_mid_skip self.now }
    {
        match self {
            SkippedStream::ForwardTsn(_, _) => false,
            SkippedStream::IForwardTsn(_, _) => true,
        }
    }

    /// Appends the entry.
    #[tactic(auto, using(crate::proofs::SkipLemmas::length_ssn_skip, crate::proofs::SkipLemmas::length_mid_skip), unfolding(crate::specs::Written::skip_bytes))]
    fn push_to(&self, output: &mut Vec<u8>) -> Result<(), AllocError>
        ensures wrote { OnOk result (output.new.items ≡ output.old.items ++ skip_bytes self.now) }
        ensures room { Fills output.old output.new (length (skip_bytes self.now)) result }
    {
        match self {
            SkippedStream::ForwardTsn(id, ssn) => {
                push_u16(output, id.0)?;
                push_u16(output, ssn.0)
            }
            SkippedStream::IForwardTsn(key, mid) => {
                push_u16(output, key.id().0)?;
                push_u16(output, unordered_flag(*key))?;
                push_u32(output, mid.0)
            }
        }
    }
}

fn unordered_flag(key: StreamKey) -> u16
    ensures { result ≡ key_flag key }
{
    match key {
        StreamKey::Ordered(_) => 0,
        StreamKey::Unordered(_) => FLAG_UNORDERED,
    }
}

/// The length of the entries in bytes; `usize::MAX` where it is greater still.
fn skips_size(skipped: &[SkippedStream]) -> usize
    ensures { result ≡ min (length (flat_map skip_bytes skipped.now)) (2 ^ 64 - 1) }
{
    let mut size = 0usize;
    for skip in skipped {
        size = size.saturating_add(skip.size());
    }
    size
}

/// Appends the entries.
#[tactic(auto, using(crate::proofs::SkipLemmas::front_fits))]
fn push_skips(skipped: &[SkippedStream], output: &mut Vec<u8>) -> Result<(), AllocError>
    ensures wrote { OnOk result (output.new.items ≡ output.old.items ++ flat_map skip_bytes skipped.now) }
    ensures room { Fills output.old output.new (length (flat_map skip_bytes skipped.now)) result }
{
    for skip in skipped {
        skip.push_to(output)?;
    }
    Ok(())
}

/// Whether all entries are those of FORWARD-TSN.
fn are_ssn_skips(skipped: &[SkippedStream]) -> bool
    ensures { result ≡ list_all is_ssn_skip skipped.now }
{
    skipped.iter().all(|skip| skip.is_ssn_skip())
}

/// Whether all entries are those of I-FORWARD-TSN.
fn are_mid_skips(skipped: &[SkippedStream]) -> bool
    ensures { result ≡ list_all is_mid_skip skipped.now }
{
    skipped.iter().all(|skip| skip.is_mid_skip())
}

/// The sender resends nothing up to a TSN, where messages are not interleaved.
#[derive(Debug, Drop)]
pub struct ForwardTsnChunk {
    pub new_cumulative_tsn: Tsn,
    pub skipped_streams: Vec<SkippedStream>,
}

#[tactic(auto, unfolding(crate::specs::Written::forward_value))]
impl ForwardTsnChunk {
    /// The chunk type.
    pub const TYPE: u8 = 192;

    /// What the chunk says; `InvalidType` where it is of another type, `InvalidLength` where its value is no four bytes
    /// and then whole entries of four, `Memory` where that lacks.
    pub fn try_from(alloc: Global, raw: RawChunk<'_>) -> Result<ForwardTsnChunk, ChunkParseError>
        ensures ok { IfOk result (λ c. IsChunk (raw_chunk raw.entry) (forward_tsn_tree c)) }
        ensures refused { IfErr result (RefusesChunkAs 192 (raw_chunk raw.entry)) }
    {
        let value = raw.value_as(Self::TYPE)?;
        let (new_cumulative_tsn, rest) = u32_at(value)?;
        let skipped_streams = ssn_skips_from_bytes(alloc, rest)?;
        Ok(ForwardTsnChunk {
            new_cumulative_tsn: Tsn(new_cumulative_tsn),
            skipped_streams,
        })
    }
}

/// The sender resends nothing up to a TSN, where messages are interleaved.
#[derive(Debug, Drop)]
pub struct IForwardTsnChunk {
    pub new_cumulative_tsn: Tsn,
    pub skipped_streams: Vec<SkippedStream>,
}

impl IForwardTsnChunk {
    /// The chunk type.
    pub const TYPE: u8 = 194;

    /// What the chunk says; `InvalidType` where it is of another type, `InvalidLength` where its value is no four bytes
    /// and then whole entries of eight, `Memory` where that lacks.
    pub fn try_from(alloc: Global, raw: RawChunk<'_>) -> Result<IForwardTsnChunk, ChunkParseError>
        ensures ok { IfOk result (λ c. IsChunk (raw_chunk raw.entry) (i_forward_tsn_tree c)) }
        ensures refused { IfErr result (RefusesChunkAs 194 (raw_chunk raw.entry)) }
    {
        let value = raw.value_as(Self::TYPE)?;
        let (new_cumulative_tsn, rest) = u32_at(value)?;
        let skipped_streams = mid_skips_from_bytes(alloc, rest)?;
        Ok(IForwardTsnChunk {
            new_cumulative_tsn: Tsn(new_cumulative_tsn),
            skipped_streams,
        })
    }
}

/// The entries of FORWARD-TSN that the bytes are; `InvalidLength` where the last one is cut short.
fn ssn_skips_from_bytes(alloc: Global, bytes: &[u8]) -> Result<Vec<SkippedStream>, ChunkParseError>
    ensures ok { IfOk result (λ skipped. bytes.now ≡ flat_map skip_bytes skipped.items) }
    ensures kind { IfOk result (λ skipped. list_all is_ssn_skip skipped.items ≡ true) }
    ensures fits { IfOk result (λ skipped. Each FitsSkip skipped.items) }
    ensures refused { IfErr result (λ e. (e ≡ ChunkParseError.Memory)
        ⊎ ((e ≡ ChunkParseError.InvalidLength) × (length bytes.now % 4 ≢ 0))) }
{
    let mut skipped = Vec::new(alloc);
    let mut rest = bytes;
    while !rest.is_empty() {
        let (skip, after) = ssn_skip_at(rest)?;
        skipped.push(skip)?;
        rest = after;
    }
    Ok(skipped)
}

#[tactic(auto, unfolding(crate::specs::Written::skip_bytes))]
fn ssn_skip_at(bytes: &[u8]) -> Result<(SkippedStream, &[u8]), ChunkParseError>
    ensures ok { IfOk result (λ read. bytes.now ≡ skip_bytes read.0 ++ read.1.now) }
    ensures kind { IfOk result (λ read. is_ssn_skip read.0 ≡ true) }
    ensures fits { IfOk result (λ read. FitsSkip read.0) }
    ensures len { IfOk result (λ read. length bytes.now ≡ 4 + length read.1.now) }
    ensures short { OnErr result (length bytes.now < 4) }
    ensures fault { IfErr result (λ e. e ≡ ChunkParseError.InvalidLength) }
{
    if bytes.len() < 4 {
        return Err(ChunkParseError::InvalidLength);
    }
    let (id, rest) = first_u16(bytes);
    let (ssn, rest) = first_u16(rest);
    Ok((SkippedStream::ForwardTsn(StreamId(id), Ssn(ssn)), rest))
}

/// The entries of I-FORWARD-TSN that the bytes are; `InvalidLength` where the last one is cut short.
fn mid_skips_from_bytes(alloc: Global, bytes: &[u8]) -> Result<Vec<SkippedStream>, ChunkParseError>
    ensures ok { IfOk result (λ skipped. SaysSkips bytes.now skipped.items) }
    ensures fits { IfOk result (λ skipped. Each FitsSkip skipped.items) }
    ensures refused { IfErr result (λ e. (e ≡ ChunkParseError.Memory)
        ⊎ ((e ≡ ChunkParseError.InvalidLength) × (length bytes.now % 8 ≢ 0))) }
{
    let mut skipped = Vec::new(alloc);
    let mut rest = bytes;
    while !rest.is_empty() {
        let (skip, after) = mid_skip_at(rest)?;
        skipped.push(skip)?;
        rest = after;
    }
    Ok(skipped)
}

fn mid_skip_at(bytes: &[u8]) -> Result<(SkippedStream, &[u8]), ChunkParseError>
    ensures ok { IfOk result (λ read. (front : List ℕ) × (bytes.now ≡ front ++ read.1.now) × SaysSkip front read.0) }
    ensures fits { IfOk result (λ read. FitsSkip read.0) }
    ensures len { IfOk result (λ read. length bytes.now ≡ 8 + length read.1.now) }
    ensures short { OnErr result (length bytes.now < 8) }
    ensures fault { IfErr result (λ e. e ≡ ChunkParseError.InvalidLength) }
{
    if bytes.len() < 8 {
        return Err(ChunkParseError::InvalidLength);
    }
    let (id, rest) = first_u16(bytes);
    let (flags, rest) = first_u16(rest);
    let (mid, rest) = first_u32(rest);
    let key = stream_key(flags, id);
    Ok((SkippedStream::IForwardTsn(key, Mid(mid)), rest))
}

fn stream_key(flags: u16, id: u16) -> StreamKey
    ensures stream { key_stream result ≡ id }
    ensures kind { flag flags 1 ≡ flag (key_flag result) 1 }
{
    StreamKey::new(flags & FLAG_UNORDERED != 0, StreamId(id))
}

#[tactic(auto, unfolding(crate::specs::Written::chunk_value, crate::specs::Written::forward_value))]
impl SerializableTlv for ForwardTsnChunk {
    ghost item_of = { λ c. chunk_item (forward_tsn_tree c) };

    ghost parts_agree = { λ c. chunk_is_whole (forward_tsn_tree c) };

    fn kind(&self) -> [u8; 2] {
        [Self::TYPE, 0]
    }

    #[tactic(auto, using(crate::proofs::ValueLemmas::length_forward))]
    fn value_size(&self) -> usize {
        skips_size(&self.skipped_streams).saturating_add(4)
    }

    fn is_whole(&self) -> bool {
        are_ssn_skips(&self.skipped_streams)
    }

    #[tactic(auto, using(crate::proofs::ValueLemmas::length_forward), unfolding(crate::specs::Written::chunk_value, crate::specs::Written::forward_value))]
    fn push_value(&self, output: &mut Vec<u8>) -> Result<(), AllocError> {
        push_u32(output, self.new_cumulative_tsn.0)?;
        push_skips(&self.skipped_streams, output)
    }
}

#[tactic(auto, unfolding(crate::specs::Written::chunk_value, crate::specs::Written::forward_value))]
impl SerializableTlv for IForwardTsnChunk {
    ghost item_of = { λ c. chunk_item (i_forward_tsn_tree c) };

    ghost parts_agree = { λ c. chunk_is_whole (i_forward_tsn_tree c) };

    fn kind(&self) -> [u8; 2] {
        [Self::TYPE, 0]
    }

    #[tactic(auto, using(crate::proofs::ValueLemmas::length_i_forward))]
    fn value_size(&self) -> usize {
        skips_size(&self.skipped_streams).saturating_add(4)
    }

    fn is_whole(&self) -> bool {
        are_mid_skips(&self.skipped_streams)
    }

    #[tactic(auto, using(crate::proofs::ValueLemmas::length_i_forward), unfolding(crate::specs::Written::chunk_value, crate::specs::Written::forward_value))]
    fn push_value(&self, output: &mut Vec<u8>) -> Result<(), AllocError> {
        push_u32(output, self.new_cumulative_tsn.0)?;
        push_skips(&self.skipped_streams, output)
    }
}

#[tactic(auto, unfolding(crate::specs::ChunkText::chunk_text))]
impl fmt::Display for ForwardTsnChunk {
    ghost output = { λ c. Some (chunk_text (forward_tsn_tree c)) };

    fn fmt<W: fmt::Write>(&self, f: &mut fmt::Formatter<W>) -> fmt::Result {
        write!(
            f,
            "FORWARD-TSN, new_cumulative_tsn={}, skipped_streams={}",
            self.new_cumulative_tsn.0,
            Joined(&self.skipped_streams)
        )
    }
}

#[tactic(auto, unfolding(crate::specs::ChunkText::chunk_text))]
impl fmt::Display for IForwardTsnChunk {
    ghost output = { λ c. Some (chunk_text (i_forward_tsn_tree c)) };

    fn fmt<W: fmt::Write>(&self, f: &mut fmt::Formatter<W>) -> fmt::Result {
        write!(
            f,
            "I-FORWARD-TSN, new_cumulative_tsn={}, skipped_streams={}",
            self.new_cumulative_tsn.0,
            Joined(&self.skipped_streams)
        )
    }
}

impl fmt::Display for SkippedStream {
    ghost output = { λ s. Some (skip_text s) };

    fn fmt<W: fmt::Write>(&self, f: &mut fmt::Formatter<W>) -> fmt::Result {
        match self {
            SkippedStream::ForwardTsn(id, ssn) => write!(f, "{}-{}", id.0, ssn.0),
            SkippedStream::IForwardTsn(key, mid) => write!(f, "{}-{}", key.id().0, mid.0),
        }
    }
}

impl Listed for SkippedStream {
    ghost text = { skip_text };

    ghost shows = { λ s. refl };
}
