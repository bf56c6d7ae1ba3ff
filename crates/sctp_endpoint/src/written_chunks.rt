//! Chunks that are written one after the other.

ghost use Rattle.std.specs.Prelude.{◌≡◌, ◌+◌, ◌≤◌, ◌++◌, ◌∷◌, [], length, drop, not, true, IfOk, OnOk, OnErr, vec_len, vec_capacity};
ghost use Rattle.sctp_wire.specs.Serialize.{IsEncodable};
ghost use Rattle.sctp_packet.specs.Written.{chunk_item, chunks_bytes};
ghost use Rattle.spec_endpoint.specs.Packets.{is_some_chunk};

use sctp_chunk::FragmentChunk;
use sctp_packet::{COMMON_HEADER_SIZE, Chunk, Data, SackChunk};
use sctp_serial::Tsn;
use sctp_tx::ChunkForm;
use sctp_wire::SerializableTlv;
use std::alloc::{AllocError, Global};
use std::marker::Model;
use std::mem;
use std::snapshot::Snapshot;

/// What was written, as contracts see it: nothing of it is here at run time but which of these it was.
#[derive(Drop)]
pub enum WrittenChunk {
    Whole(Snapshot<Chunk>),
    Sack(Snapshot<SackChunk>),
    Fragment(Snapshot<Tsn>, Snapshot<Data>, Snapshot<ChunkForm>),
}

impl WrittenChunk {
    ghost use Rattle.sctp_packet.specs.ChunkView.{chunk_tree};
    ghost use Rattle.sctp_chunk.specs.Views.{fragment_chunk_tree, sack_chunk_tree};
    ghost use Rattle.sctp_endpoint.specs.WrittenChunks.{written_tree};

    /// A chunk that was written.
    pub fn whole(chunk: &Chunk) -> WrittenChunk
        ensures { written_tree result ≡ chunk_tree chunk.now }
    {
        WrittenChunk::Whole(Snapshot::of(chunk))
    }

    /// A SACK that was written.
    pub fn sack(sack: &SackChunk) -> WrittenChunk
        ensures { written_tree result ≡ sack_chunk_tree sack.now }
    {
        WrittenChunk::Sack(Snapshot::of(sack))
    }

    /// A fragment that was written from where it is kept.
    pub fn fragment(chunk: &FragmentChunk<'_>) -> WrittenChunk
        ensures { written_tree result ≡ fragment_chunk_tree chunk.now }
    {
        let form = ChunkForm {
            is_interleaved: chunk.is_interleaved,
            is_immediate: chunk.immediate_ack,
        };
        WrittenChunk::Fragment(
            Snapshot::of(&chunk.tsn),
            Snapshot::of(chunk.fragment),
            Snapshot::of(&form),
        )
    }
}

// Memory is reserved for a few bytes, or for as many as most packets have.
const SMALL_CAPACITY: usize = 256;

const PACKET_CAPACITY: usize = 1200;

/// The bytes of chunks, behind room for the header of their packet. Its value is the list of these.
#[derive(Drop)]
pub struct WrittenChunks {
    alloc: Global,
    bytes: Vec<u8>,
    chunks: Vec<WrittenChunk>,
}

impl Model for WrittenChunks {
    ghost use Rattle.std.specs.Prelude.{List};
    ghost use Rattle.sctp_packet.specs.Chunk.{ChunkTree};
    ghost use Rattle.sctp_endpoint.specs.WrittenView.{IsWritten, trees_of};

    ghost Value = { List ChunkTree };

    ghost view = { trees_of };

    ghost invariant = { IsWritten };
}

impl WrittenChunks {
    ghost use Rattle.sctp_endpoint.specs.WrittenChunks.{written_tree};

    /// None. Takes no memory.
    pub fn new(alloc: Global) -> WrittenChunks
        ensures { result ≡ [] }
    {
        WrittenChunks {
            alloc,
            bytes: Vec::new(alloc),
            chunks: Vec::new(alloc),
        }
    }

    /// None again; the memory stays.
    pub fn clear(&mut self)
        ensures { self.new ≡ [] }
    {
        self.bytes.clear();
        self.chunks.clear();
    }

    /// Whether there are none.
    pub fn is_empty(&self) -> bool
        ensures { result ≡ not (is_some_chunk self.now) }
    {
        self.chunks.is_empty()
    }

    /// How many bytes they have, with their padding.
    pub fn size(&self) -> usize
        ensures { result ≡ length (chunks_bytes self.now) }
    {
        self.bytes.len().saturating_sub(COMMON_HEADER_SIZE)
    }

    /// Their bytes, with their padding, behind room for a header; then there are none. Memory of which they
    /// fill three quarters goes with them, else they are copied.
    #[inline(always)]
    pub fn take(&mut self) -> Result<Vec<u8>, AllocError>
        ensures bytes { IfOk result (λ bytes. drop 12 bytes.items ≡ chunks_bytes self.old) }
        ensures ok { OnOk result (self.new ≡ []) }
        ensures err { OnErr result (self.new ≡ self.old) }
    {
        if self.bytes.len() < self.bytes.capacity() / 4 * 3 {
            let copy = Vec::from_slice(self.alloc, &self.bytes)?;
            self.clear();
            return Ok(copy);
        }
        self.chunks.clear();
        Ok(mem::replace(&mut self.bytes, Vec::new(self.alloc)))
    }

    /// Writes one more, which contracts see as `written`. Without memory there is none more.
    pub fn write<T: SerializableTlv>(
        &mut self,
        chunk: &T,
        written: WrittenChunk,
    ) -> Result<(), AllocError>
        requires encodable { IsEncodable (T.item_of chunk.now) }
        requires whole { T.parts_agree chunk.now ≡ true }
        requires same { T.item_of chunk.now ≡ chunk_item (written_tree written) }
        ensures ok { OnOk result (self.new ≡ self.old ++ written_tree written ∷ []) }
        ensures err { OnErr result (self.new ≡ self.old) }
    {
        make_room(&mut self.bytes, chunk.serialized_size())?;
        self.chunks.push(written)?;
        chunk.serialize_to(&mut self.bytes)
    }
}

/// Room for so many bytes more, behind that for a header: for a whole packet where they are not a few.
#[inline(always)]
fn make_room(bytes: &mut Vec<u8>, size: usize) -> Result<(), AllocError>
    ensures body { drop 12 bytes.new.items ≡ drop 12 bytes.old.items }
    ensures header { OnOk result (12 ≤ length bytes.new.items) }
    ensures room { OnOk result (vec_len bytes.new + size ≤ vec_capacity bytes.new) }
{
    if COMMON_HEADER_SIZE <= bytes.len() {
        return reserve(bytes, size);
    }
    bytes.clear();
    reserve(bytes, size.saturating_add(COMMON_HEADER_SIZE))?;
    bytes.extend_from_slice(&[0; COMMON_HEADER_SIZE])
}

/// Room for so many bytes more: a few, or as many as most packets have.
#[inline(always)]
fn reserve(bytes: &mut Vec<u8>, size: usize) -> Result<(), AllocError>
    ensures items { bytes.new.items ≡ bytes.old.items }
    ensures room { OnOk result (vec_len bytes.new + size ≤ vec_capacity bytes.new) }
{
    let len = bytes.len();
    let least = if size <= SMALL_CAPACITY.saturating_sub(len) {
        SMALL_CAPACITY
    } else {
        PACKET_CAPACITY
    };
    bytes.reserve(size.max(least.saturating_sub(len)))
}
