//! Packets that are put together, chunk by chunk, as they go out.

ghost use Rattle.std.specs.Prelude.{◌≡◌, ◌≤◌, ◌<◌, ◌^◌, ◌&&◌, length, nat_le, not, true, IfOk, IsTrue, OnOk, OnErr};
ghost use Rattle.sctp_wire.specs.Serialize.{IsEncodable, is_encodable, padded_item};
ghost use Rattle.sctp_packet.specs.ChunkView.{chunk_tree};
ghost use Rattle.sctp_packet.specs.Written.{chunk_is_whole, chunk_item};
ghost use Rattle.sctp_chunk.specs.Views.{fragment_tree, sack_chunk_tree};
ghost use Rattle.sctp_packet.specs.Chunk.{fragment_chunk};
ghost use Rattle.spec_endpoint.specs.Packets.{add, added_if, clear_chunks, fits, has_chunks, packet_to, room};
ghost use Rattle.sctp_endpoint.specs.WrittenChunks.{written_tree};
ghost use Rattle.spec_endpoint.specs.Wire.{word_at, written_bytes};

use crate::written_chunks::{WrittenChunk, WrittenChunks};
use sctp_chunk::FragmentChunk;
use sctp_packet::{
    COMMON_HEADER_SIZE, Chunk, Data, DataChunk, IDataChunk, SackChunk, SctpPacketBuilder,
};
use sctp_serial::Tsn;
use sctp_tx::{ChunkForm, TakesFragments};
use sctp_wire::{Checksum, SerializableTlv};
use std::alloc::{AllocError, Global};
use std::marker::Model;
use std::mem;

/// A packet that is put together.
#[derive(Drop)]
pub struct OutgoingPacket {
    alloc: Global,
    verification_tag: u32,
    write_checksum: bool,
    /// The most bytes of the packet.
    limit: usize,
    chunks: WrittenChunks,
}

impl Model for OutgoingPacket {
    ghost use Rattle.spec_endpoint.specs.Packets.{PacketDraft};
    ghost use Rattle.sctp_endpoint.specs.PacketView.{IsPacket, packet_of};

    ghost Value = { PacketDraft };

    ghost view = { packet_of };

    ghost invariant = { IsPacket };
}

impl OutgoingPacket {
    /// An empty packet of at most `limit` bytes. Its checksum is on.
    pub fn new(alloc: Global, verification_tag: u32, limit: usize) -> OutgoingPacket
        requires { limit < 2 ^ 32 }
        ensures { result ≡ packet_to verification_tag limit }
    {
        OutgoingPacket {
            alloc,
            verification_tag,
            write_checksum: true,
            limit,
            chunks: WrittenChunks::new(alloc),
        }
    }

    /// Whether the packet goes out with its checksum; else the field is zero (RFC 9653).
    pub fn write_checksum(&mut self, write_checksum: bool)
        ensures { self.new ≡ record self.old { is_summed = write_checksum } }
    {
        self.write_checksum = write_checksum;
    }

    /// Gives the memory of its chunks and takes that of these. The packet is empty then, with the same tag and limit.
    pub fn swap_memory(&mut self, spare: &mut WrittenChunks)
        ensures { self.new ≡ clear_chunks self.old }
    {
        spare.clear();
        mem::swap(&mut self.chunks, spare);
    }

    /// Whether nothing was added.
    pub fn is_empty(&self) -> bool
        ensures { result ≡ not (has_chunks self.now) }
    {
        self.chunks.is_empty()
    }

    /// How many bytes of chunks and their padding fit still.
    pub fn bytes_remaining(&self) -> usize
        ensures room { result ≡ room self.now }
        ensures small { result < 2 ^ 32 }
    {
        self.limit
            .saturating_sub(COMMON_HEADER_SIZE)
            .saturating_sub(self.chunks.size())
    }

    /// Whether what is written as a chunk can be written and fits.
    fn has_room_for<T: SerializableTlv>(&self, chunk: &T) -> bool
        ensures encodable { IsTrue result → IsEncodable (T.item_of chunk.now) }
        ensures whole { IsTrue result → T.parts_agree chunk.now ≡ true }
        ensures room { IsTrue result → length (padded_item (T.item_of chunk.now)) ≤ room self.now }
        ensures test { result ≡ (is_encodable (T.item_of chunk.now) (T.parts_agree chunk.now) && nat_le (length (padded_item (T.item_of chunk.now))) (room self.now)) }
    {
        chunk.encodable() && is_within(chunk, self.bytes_remaining())
    }

    /// Adds a chunk, or drops it where it doesn't fit. Where there is no memory the packet is as it was.
    pub fn add(&mut self, chunk: Chunk) -> Result<(), AllocError>
        ensures ok { OnOk result (self.new ≡ add (chunk_tree chunk) self.old) }
        ensures err { OnErr result (self.new ≡ self.old) }
    {
        self.add_if_it_fits(chunk)?;
        Ok(())
    }

    /// The same. The answer is whether it did fit.
    pub fn add_if_it_fits(&mut self, chunk: Chunk) -> Result<bool, AllocError>
        ensures test { IfOk result (λ has_fit. has_fit ≡ fits self.old (chunk_tree chunk)) }
        ensures added { IfOk result (λ has_fit. self.new ≡ added_if has_fit (chunk_tree chunk) self.old) }
        ensures err { OnErr result (self.new ≡ self.old) }
    {
        let written = WrittenChunk::whole(&chunk);
        let outcome = self.write(&chunk, written);
        drop(chunk);
        outcome
    }

    /// Adds a SACK, as `add` does; no other chunk is as frequent but those of fragments.
    pub fn add_sack(&mut self, sack: &SackChunk) -> Result<(), AllocError>
        ensures ok { OnOk result (self.new ≡ add (sack_chunk_tree sack.now) self.old) }
        ensures err { OnErr result (self.new ≡ self.old) }
    {
        let written = WrittenChunk::sack(sack);
        self.write(sack, written)?;
        Ok(())
    }

    /// Writes what contracts see as `written` where it fits. The answer is whether it did.
    fn write<T: SerializableTlv>(
        &mut self,
        chunk: &T,
        written: WrittenChunk,
    ) -> Result<bool, AllocError>
        requires same { T.item_of chunk.now ≡ chunk_item (written_tree written) }
        requires whole { T.parts_agree chunk.now ≡ chunk_is_whole (written_tree written) }
        ensures test { IfOk result (λ has_fit. has_fit ≡ fits self.old (written_tree written)) }
        ensures added { IfOk result (λ has_fit. self.new ≡ added_if has_fit (written_tree written) self.old) }
        ensures err { OnErr result (self.new ≡ self.old) }
    {
        if !self.has_room_for(chunk) {
            return Ok(false);
        }
        self.chunks.write(chunk, written)?;
        Ok(true)
    }

    /// The packet with this chunk, or without it where it doesn't fit.
    pub fn with(mut self, chunk: Chunk) -> Result<OutgoingPacket, AllocError>
        ensures { IfOk result (λ packet. packet ≡ add (chunk_tree chunk) self) }
    {
        self.add(chunk)?;
        Ok(self)
    }

    /// The packet's bytes, at most the limit; the packet is empty again, with the same tag and limit. Where there is no memory it is as
    /// it was.
    pub fn build<C: Checksum>(
        &mut self,
        source_port: u16,
        destination_port: u16,
        checksum: &C,
    ) -> Result<Vec<u8>, AllocError>
        requires { has_chunks self.old ≡ true }
        ensures packet { IfOk result (λ bytes. bytes.items ≡ written_bytes (C.word_of checksum.now) (record {
          source_port = source_port;
          destination_port = destination_port;
          verification_tag = self.old.tag;
        }) self.old.is_summed self.old.chunks) }
        ensures short { IfOk result (λ bytes. length bytes.items ≤ self.old.limit) }
        ensures ok { OnOk result (self.new ≡ clear_chunks self.old) }
        ensures err { OnErr result (self.new ≡ self.old) }
    {
        let bytes = self.chunks.take()?;
        let mut builder = SctpPacketBuilder::new(
            self.alloc,
            self.verification_tag,
            source_port,
            destination_port,
            bytes.len(),
        );
        builder.write_checksum(self.write_checksum);
        builder.set_written(bytes);
        let word = word_of(checksum, builder.unsummed());
        Ok(builder.build(word))
    }
}

impl TakesFragments for OutgoingPacket {
    ghost use Rattle.sctp_tx.specs.declared.fragments.ChunkForm.{ChunkForm};
    ghost use Rattle.spec_endpoint.specs.Packets.{add};
    ghost use Rattle.sctp_packet.specs.Chunk.{fragment_chunk};

    ghost taken = { λ form c p. add (fragment_chunk form.is_interleaved form.is_immediate c) p };

    fn take(&mut self, form: ChunkForm, tsn: Tsn, fragment: &Data) -> Result<(), AllocError> {
        let chunk = FragmentChunk {
            tsn,
            fragment,
            immediate_ack: form.is_immediate,
            is_interleaved: form.is_interleaved,
        };
        let written = WrittenChunk::fragment(&chunk);
        self.write(&chunk, written)?;
        Ok(())
    }
}

/// The chunk that carries the fragment in this form.
pub fn data_chunk(form: ChunkForm, tsn: Tsn, fragment: Data) -> Chunk
    ensures { chunk_tree result ≡ fragment_chunk form.is_interleaved form.is_immediate (tsn.0, fragment_tree fragment) }
{
    if form.is_interleaved {
        Chunk::IData(IDataChunk {
            tsn,
            immediate_ack: form.is_immediate,
            data: fragment,
        })
    } else {
        Chunk::Data(DataChunk {
            tsn,
            immediate_ack: form.is_immediate,
            data: fragment,
        })
    }
}

/// Whether the chunk's bytes are at most so many.
fn is_within<T: SerializableTlv>(chunk: &T, room: usize) -> bool
    requires { room < 2 ^ 32 }
    ensures { result ≡ nat_le (length (padded_item (T.item_of chunk.now))) room }
{
    chunk.serialized_size() <= room
}

/// The word of a packet's bytes, with the checksum's field as zeros.
pub fn word_of<C: Checksum>(checksum: &C, bytes: &[u8]) -> u32
    ensures { result ≡ word_at (C.word_of checksum.now) bytes.now }
{
    let front = bytes.len().min(8);
    let behind = bytes.len().min(12);
    checksum.word(&bytes[..front], &bytes[behind..])
}
