//! Chunks as they lie in a packet: type, flags, length, value, and padding to a multiple of four bytes (RFC 9260
//! section 3.2).

ghost use Rattle.std.specs.Prelude.{◌≡◌, ◌≢◌, ◌⊎◌, ◌+◌, ◌<◌, ◌^◌, ◌∷◌, [], ◌++◌, length, IfOk, OnOk, OnErr, IfErr, IfSome, OnSome, IfNone};
ghost use Rattle.sctp_wire.specs.Field.{be16};
ghost use Rattle.sctp_wire.specs.Item.{Takes, TakesNone};
ghost use Rattle.sctp_wire.specs.Views.{raw_item};
ghost use Rattle.sctp_wire.specs.Room.{Fills};
ghost use Rattle.sctp_chunk.specs.Grammar.{IsChunk};
ghost use Rattle.sctp_chunk.specs.Views.{raw_chunk, viewed_data, viewed_idata};

use crate::data::{DataChunk, DataView, IDataChunk};
use sctp_wire::{ChunkParseError, RawItem, write_item_header};
use std::alloc::AllocError;

/// A chunk, borrowed from the bytes that it was read from.
#[derive(Clone, Copy, Debug)]
pub struct RawChunk<'a> {
    pub typ: u8,
    pub flags: u8,
    pub value: &'a [u8],
}

impl<'a> RawChunk<'a> {
    /// The chunk at the front of the bytes, and the bytes behind it and its padding; `InvalidLength` where there is none.
    pub fn from_bytes(bytes: &'a [u8]) -> Result<(RawChunk<'a>, &'a [u8]), ChunkParseError>
        ensures chunk { IfOk result (λ read. Takes bytes.now (raw_chunk read.0) read.1.now) }
        ensures none { OnErr result (TakesNone bytes.now) }
        ensures fault { IfErr result (λ e. e ≡ ChunkParseError.InvalidLength) }
    {
        let (item, rest) = RawItem::from_bytes(bytes)?;
        Ok((RawChunk::from_item(item), rest))
    }

    /// The item as a chunk.
    pub fn from_item(item: RawItem<'a>) -> RawChunk<'a>
        ensures { raw_chunk result ≡ raw_item item.entry }
    {
        RawChunk {
            typ: item.first,
            flags: item.second,
            value: item.value,
        }
    }

    /// The value, where the chunk is of the type asked for; else `InvalidType`.
    pub fn value_as(self, typ: u8) -> Result<&'a [u8], ChunkParseError>
        ensures ok { IfOk result (λ value. (self.entry.typ ≡ typ) × (value.now ≡ self.entry.value.now)) }
        ensures other { OnErr result (self.entry.typ ≢ typ) }
        ensures fault { IfErr result (λ e. e ≡ ChunkParseError.InvalidType) }
    {
        if self.typ != typ {
            return Err(ChunkParseError::InvalidType);
        }
        Ok(self.value)
    }

    /// The fragment that a DATA or an I-DATA carries, where it lies; none where the chunk is of another type, or too short.
    pub fn data_view(self) -> Option<DataView<'a>>
        ensures data { self.entry.typ ≡ 0 → IfSome result (λ v. IsChunk (raw_chunk self.entry) (viewed_data v)) }
        ensures idata { self.entry.typ ≡ 64 → IfSome result (λ v. IsChunk (raw_chunk self.entry) (viewed_idata v)) }
        ensures carrier { OnSome result ((self.entry.typ ≡ 0) ⊎ (self.entry.typ ≡ 64)) }
        ensures no_data { IfNone result (self.entry.typ ≡ 0 → length self.entry.value.now < 12) }
        ensures no_idata { IfNone result (self.entry.typ ≡ 64 → length self.entry.value.now < 16) }
    {
        match self.typ {
            DataChunk::TYPE => DataView::of_data(self).ok(),
            IDataChunk::TYPE => DataView::of_idata(self).ok(),
            _ => None,
        }
    }
}

/// Appends a chunk's header: its type, its flags, and its length in bytes, which is below 2^16.
pub fn write_chunk_header(
    typ: u8,
    flags: u8,
    value_size: usize,
    output: &mut Vec<u8>,
) -> Result<(), AllocError>
    requires { 4 + value_size < 2 ^ 16 }
    ensures wrote { OnOk result (output.new.items ≡ output.old.items ++ ((typ ∷ flags ∷ []) ++ be16 (4 + value_size))) }
    ensures room { Fills output.old output.new 4 result }
{
    write_item_header([typ, flags], value_size, output)
}
