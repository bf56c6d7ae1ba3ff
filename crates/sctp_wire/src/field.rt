//! Fields: numbers of two, four and eight bytes, the most significant byte first, and lists of entries of one width.

ghost use Rattle.std.specs.Prelude.{◌≡◌, ◌≢◌, ◌⊎◌, ℕ, ◌+◌, ◌*◌, ◌%◌, ◌^◌, ◌<◌, ◌≤◌, List, [], ◌++◌, length, All, IfOk, OnErr, IfErr, OnOk};
ghost use Rattle.std.specs.List.{flat_map};
ghost use Rattle.std.proofs.Common.{arith};
ghost use Rattle.sctp_wire.specs.Field.{be16, be32, be64, length_be16, length_be32};
ghost use Rattle.sctp_wire.specs.Room.{Fills};

use crate::ChunkParseError;
use sctp_serial::{StreamId, Tsn};
use std::alloc::{AllocError, Global};

/// The number in the first two bytes, and the bytes behind it; `InvalidLength` where there are fewer.
#[tactic(auto, unfolding(crate::specs::Field::be16))]
pub fn u16_at(bytes: &[u8]) -> Result<(u16, &[u8]), ChunkParseError>
    ensures ok { IfOk result (λ read. bytes.now ≡ be16 read.0 ++ read.1.now) }
    ensures fits { IfOk result (λ read. read.0 < 2 ^ 16) }
    ensures len { IfOk result (λ read. length bytes.now ≡ 2 + length read.1.now) }
    ensures short { OnErr result (length bytes.now < 2) }
    ensures fault { IfErr result (λ e. e ≡ ChunkParseError.InvalidLength) }
{
    let Some((front, rest)) = bytes.split_first_chunk::<2>() else {
        return Err(ChunkParseError::InvalidLength);
    };
    Ok((u16::from_be_bytes(*front), rest))
}

/// The number in the first four bytes, and the bytes behind it; `InvalidLength` where there are fewer.
#[tactic(auto, unfolding(crate::specs::Field::be32))]
pub fn u32_at(bytes: &[u8]) -> Result<(u32, &[u8]), ChunkParseError>
    ensures ok { IfOk result (λ read. bytes.now ≡ be32 read.0 ++ read.1.now) }
    ensures fits { IfOk result (λ read. read.0 < 2 ^ 32) }
    ensures len { IfOk result (λ read. length bytes.now ≡ 4 + length read.1.now) }
    ensures short { OnErr result (length bytes.now < 4) }
    ensures fault { IfErr result (λ e. e ≡ ChunkParseError.InvalidLength) }
{
    let Some((front, rest)) = bytes.split_first_chunk::<4>() else {
        return Err(ChunkParseError::InvalidLength);
    };
    Ok((u32::from_be_bytes(*front), rest))
}

/// The number in the first eight bytes, and the bytes behind it; `InvalidLength` where there are fewer.
#[tactic(auto, unfolding(crate::specs::Field::be64))]
pub fn u64_at(bytes: &[u8]) -> Result<(u64, &[u8]), ChunkParseError>
    ensures ok { IfOk result (λ read. bytes.now ≡ be64 read.0 ++ read.1.now) }
    ensures fits { IfOk result (λ read. read.0 < 2 ^ 64) }
    ensures len { IfOk result (λ read. length bytes.now ≡ 8 + length read.1.now) }
    ensures short { OnErr result (length bytes.now < 8) }
    ensures fault { IfErr result (λ e. e ≡ ChunkParseError.InvalidLength) }
{
    let Some((front, rest)) = bytes.split_first_chunk::<8>() else {
        return Err(ChunkParseError::InvalidLength);
    };
    Ok((u64::from_be_bytes(*front), rest))
}

/// The number in the first two bytes, and the bytes behind it: a reader that has tested the length has no error to pass on.
#[tactic(auto, unfolding(crate::specs::Field::be16))]
pub fn first_u16(bytes: &[u8]) -> (u16, &[u8])
    requires { 2 ≤ length bytes.now }
    ensures number { bytes.now ≡ be16 result.0 ++ result.1.now }
    ensures fits { result.0 < 2 ^ 16 }
    ensures len { length bytes.now ≡ 2 + length result.1.now }
{
    let Some((front, rest)) = bytes.split_first_chunk::<2>() else {
        unreachable!();
    };
    (u16::from_be_bytes(*front), rest)
}

/// The number in the first four bytes, and the bytes behind it: a reader that has tested the length has no error to pass on.
#[tactic(auto, unfolding(crate::specs::Field::be32))]
pub fn first_u32(bytes: &[u8]) -> (u32, &[u8])
    requires { 4 ≤ length bytes.now }
    ensures number { bytes.now ≡ be32 result.0 ++ result.1.now }
    ensures fits { result.0 < 2 ^ 32 }
    ensures len { length bytes.now ≡ 4 + length result.1.now }
{
    let Some((front, rest)) = bytes.split_first_chunk::<4>() else {
        unreachable!();
    };
    (u32::from_be_bytes(*front), rest)
}

/// `InvalidLength` where bytes are left behind the last field.
pub fn ends_here(rest: &[u8]) -> Result<(), ChunkParseError>
    ensures ok { OnOk result (rest.now ≡ []) }
    ensures more { OnErr result (0 < length rest.now) }
    ensures fault { IfErr result (λ e. e ≡ ChunkParseError.InvalidLength) }
{
    if !rest.is_empty() {
        return Err(ChunkParseError::InvalidLength);
    }
    Ok(())
}

/// Appends the two bytes of a number.
#[tactic(auto, unfolding(crate::specs::Field::be16))]
pub fn push_u16(output: &mut Vec<u8>, n: u16) -> Result<(), AllocError>
    ensures wrote { OnOk result (output.new.items ≡ output.old.items ++ be16 n) }
    ensures room { Fills output.old output.new 2 result }
{
    output.extend_from_slice(&n.to_be_bytes())
}

/// Appends the four bytes of a number.
#[tactic(auto, unfolding(crate::specs::Field::be32))]
pub fn push_u32(output: &mut Vec<u8>, n: u32) -> Result<(), AllocError>
    ensures wrote { OnOk result (output.new.items ≡ output.old.items ++ be32 n) }
    ensures room { Fills output.old output.new 4 result }
{
    output.extend_from_slice(&n.to_be_bytes())
}

/// Appends the eight bytes of a number.
#[tactic(auto, unfolding(crate::specs::Field::be64))]
pub fn push_u64(output: &mut Vec<u8>, n: u64) -> Result<(), AllocError>
    ensures wrote { OnOk result (output.new.items ≡ output.old.items ++ be64 n) }
    ensures room { Fills output.old output.new 8 result }
{
    output.extend_from_slice(&n.to_be_bytes())
}

/// An entry of a list inside a value: all entries of one type have the same number of bytes.
pub trait Entry: Sized + Drop {
    ghost width: { ℕ };

    ghost bytes_of: { Self → List ℕ };

    ghost in_range: { Self → Type 0 };

    /// The entry in the first bytes, and the bytes behind it; `InvalidLength` where there are fewer.
    fn entry_at(bytes: &[u8]) -> Result<(Self, &[u8]), ChunkParseError>
        ensures ok { IfOk result (λ read. bytes.now ≡ bytes_of read.0 ++ read.1.now) }
        ensures fits { IfOk result (λ read. in_range read.0) }
        ensures len { IfOk result (λ read. length bytes.now ≡ width + length read.1.now) }
        ensures short { OnErr result (length bytes.now < width) }
        ensures fault { IfErr result (λ e. e ≡ ChunkParseError.InvalidLength) };

    /// Appends the entry's bytes.
    fn push_to(&self, output: &mut Vec<u8>) -> Result<(), AllocError>
        ensures wrote { OnOk result (output.new.items ≡ output.old.items ++ bytes_of self.now) }
        ensures room { Fills output.old output.new width result };

    ghost width_is_positive: { 0 < width };

    ghost width_of: { (entry : Self) → length (bytes_of entry) ≡ width };
}

/// The entries that the bytes are; `InvalidLength` where the last one is cut short, `Memory` where that lacks.
pub fn entries_from_bytes<E: Entry>(alloc: Global, bytes: &[u8]) -> Result<Vec<E>, ChunkParseError>
    ensures ok { IfOk result (λ entries. bytes.now ≡ flat_map E.bytes_of entries.items) }
    ensures fits { IfOk result (λ entries. All E.in_range entries.items) }
    ensures refused { IfErr result (λ e. (e ≡ ChunkParseError.Memory)
        ⊎ ((e ≡ ChunkParseError.InvalidLength) × (length bytes.now % E.width ≢ 0))) }
{
    let mut entries = Vec::new(alloc);
    let mut rest = bytes;
    while !rest.is_empty() {
        let (entry, after) = E::entry_at(rest)?;
        entries.push(entry)?;
        rest = after;
    }
    Ok(entries)
}

/// Appends the bytes of each entry.
pub fn push_entries<E: Entry>(output: &mut Vec<u8>, entries: &[E]) -> Result<(), AllocError>
    ensures wrote { OnOk result (output.new.items ≡ output.old.items ++ flat_map E.bytes_of entries.now) }
    ensures room { Fills output.old output.new (length entries.now * E.width) result }
{
    for entry in entries {
        entry.push_to(output)?;
    }
    Ok(())
}

impl Entry for u16 {
    ghost width = { 2 };

    ghost bytes_of = { be16 };

    ghost in_range = { λ n. n < 2 ^ 16 };

    ghost width_is_positive = { Prim.omega arith };

    ghost width_of = { length_be16 };

    fn entry_at(bytes: &[u8]) -> Result<(u16, &[u8]), ChunkParseError> {
        u16_at(bytes)
    }

    fn push_to(&self, output: &mut Vec<u8>) -> Result<(), AllocError> {
        push_u16(output, *self)
    }
}

impl Entry for StreamId {
    ghost width = { 2 };

    ghost bytes_of = { λ id. be16 id.0 };

    ghost in_range = { λ id. id.0 < 2 ^ 16 };

    ghost width_is_positive = { Prim.omega arith };

    ghost width_of = { λ id. length_be16 id.0 };

    fn entry_at(bytes: &[u8]) -> Result<(StreamId, &[u8]), ChunkParseError> {
        let (id, rest) = u16_at(bytes)?;
        Ok((StreamId(id), rest))
    }

    fn push_to(&self, output: &mut Vec<u8>) -> Result<(), AllocError> {
        push_u16(output, self.0)
    }
}

impl Entry for Tsn {
    ghost width = { 4 };

    ghost bytes_of = { λ tsn. be32 tsn.0 };

    ghost in_range = { λ tsn. tsn.0 < 2 ^ 32 };

    ghost width_is_positive = { Prim.omega arith };

    ghost width_of = { λ tsn. length_be32 tsn.0 };

    fn entry_at(bytes: &[u8]) -> Result<(Tsn, &[u8]), ChunkParseError> {
        let (tsn, rest) = u32_at(bytes)?;
        Ok((Tsn(tsn), rest))
    }

    fn push_to(&self, output: &mut Vec<u8>) -> Result<(), AllocError> {
        push_u32(output, self.0)
    }
}

/// A number of four bytes is one, as its type says.
pub fn number_fits(number: u32)
    ensures { number < 2 ^ 32 }
{
    let _ = number;
}

/// A number of two bytes is one, as its type says.
pub fn id_fits(id: u16)
    ensures { id < 2 ^ 16 }
{
    let _ = id;
}
