//! Packets written: chunks one after the other behind a common header, up to a limit.

ghost use Rattle.std.specs.Prelude.{◌≡◌, ◌≢◌, ◌<◌, ◌≤◌, ◌+◌, ◌&&◌, nat_le, max, true, List, [], ◌∷◌, ◌++◌, length, take, drop, IsOk, OnOk, OnErr, IsTrue, ◌↔◌, vec_len, vec_capacity};
ghost use Rattle.sctp_wire.specs.Field.{be32};
ghost use Rattle.sctp_wire.specs.Serialize.{IsEncodable, is_encodable};
ghost use Rattle.sctp_wire.specs.Room.{Fills};
ghost use Rattle.sctp_chunk.specs.Chunk.{ChunkTree};
ghost use Rattle.sctp_chunk.specs.Written.{chunk_item, chunk_bytes, chunk_is_whole};
ghost use Rattle.sctp_control_chunk.specs.ChunkView.{chunk_tree};
ghost use Rattle.sctp_packet.specs.Packet.{header_bytes, unsummed_bytes};
ghost use Rattle.sctp_packet.specs.PacketView.{header_tree};
ghost use Rattle.sctp_packet.specs.Builder.{BuilderTree, Holds, remaining, so_far, build};

use crate::packet::{COMMON_HEADER_SIZE, CommonHeader};
use sctp_control_chunk::Chunk;
use sctp_wire::SerializableTlv;
use std::alloc::{AllocError, Global};
use std::marker::Model;
use std::mem;

/// A packet that is being built. Once it is handed out, the builder is empty again.
#[derive(Drop)]
pub struct SctpPacketBuilder {
    alloc: Global,
    header: CommonHeader,
    limit: usize,
    write_checksum: bool,
    /// Nothing, or the packet so far, its checksum zero.
    bytes: Vec<u8>,
}

impl Model for SctpPacketBuilder {
    ghost use Rattle.sctp_packet.specs.Builder.{BuilderTree};

    ghost Value = { BuilderTree };

    ghost use Rattle.sctp_packet.specs.BuilderView.{builder_tree, IsBuilder};

    ghost view = { builder_tree };

    ghost invariant = { IsBuilder };
}

impl SctpPacketBuilder {
    /// An empty builder of packets with at most `limit` bytes. It takes no memory, and its checksum is on.
    pub fn new(
        alloc: Global,
        verification_tag: u32,
        source_port: u16,
        destination_port: u16,
        limit: usize,
    ) -> SctpPacketBuilder
        ensures { result ≡ record {
          header = record {
            source_port = source_port;
            destination_port = destination_port;
            verification_tag = verification_tag;
          };
          limit = limit;
          writes_checksum = true;
          body = [];
        } }
    {
        SctpPacketBuilder {
            alloc,
            header: CommonHeader {
                source_port,
                destination_port,
                verification_tag,
                checksum: 0,
            },
            limit,
            write_checksum: true,
            bytes: Vec::new(alloc),
        }
    }

    /// Whether `build` writes its word into the checksum's field; else that field is zero.
    pub fn write_checksum(&mut self, write_checksum: bool)
        ensures { self.new ≡ record self.old { writes_checksum = write_checksum } }
    {
        self.write_checksum = write_checksum;
    }

    /// How many bytes of chunks and their padding fit still.
    pub fn bytes_remaining(&self) -> usize
        ensures { result ≡ remaining self.now }
    {
        if self.bytes.is_empty() {
            return self.limit.saturating_sub(COMMON_HEADER_SIZE);
        }
        self.limit.saturating_sub(self.bytes.len())
    }

    /// Whether nothing was added.
    pub fn is_empty(&self) -> bool
        ensures { IsTrue result ↔ (self.now.body ≡ []) }
    {
        self.bytes.is_empty()
    }

    /// The packet so far, its checksum zero; no bytes where nothing was added.
    pub fn unsummed(&self) -> &[u8]
        ensures { result.now ≡ so_far self.now.header self.now.body }
    {
        &self.bytes
    }

    /// Whether the chunk can be written and fits: then it may be added.
    pub fn fits(&self, chunk: &Chunk) -> bool
        ensures encodable { IsTrue result → IsEncodable (chunk_item (chunk_tree chunk.now)) }
        ensures whole { IsTrue result → chunk_is_whole (chunk_tree chunk.now) ≡ true }
        ensures fits { IsTrue result → length (chunk_bytes (chunk_tree chunk.now)) ≤ remaining self.now }
        ensures test { result ≡ (is_encodable (chunk_item (chunk_tree chunk.now)) (chunk_is_whole (chunk_tree chunk.now))
            && nat_le (length (chunk_bytes (chunk_tree chunk.now))) (remaining self.now)) }
    {
        chunk.encodable() && has_room(chunk, self.bytes_remaining())
    }

    /// Adds a chunk behind those that were added.
    ///
    /// The caller sees to it that the chunk can be written (`encodable`) and that its `serialized_size` is at most
    /// `bytes_remaining`. The first call reserves the limit, and later ones take no memory. Where there is none the
    /// builder is as it was, which is empty.
    pub fn add(&mut self, chunk: &Chunk) -> Result<(), AllocError>
        requires encodable { IsEncodable (chunk_item (chunk_tree chunk.now)) }
        requires whole { chunk_is_whole (chunk_tree chunk.now) ≡ true }
        requires fits { length (chunk_bytes (chunk_tree chunk.now)) ≤ remaining self.old }
        ensures ok { OnOk result (self.new ≡ record self.old { body = self.old.body ++ chunk_bytes (chunk_tree chunk.now) }) }
        ensures holds { (chunks : List ChunkTree) → Holds self.old chunks
            → OnOk result (Holds self.new (chunks ++ chunk_tree chunk.now ∷ [])) }
        ensures later { self.old.body ≢ [] → IsOk result }
        ensures err { OnErr result (self.new ≡ self.old) }
    {
        if let Err(e) = push_chunk(&mut self.bytes, self.header, self.limit, chunk) {
            self.bytes.clear();
            return Err(e);
        }
        Ok(())
    }

    /// Takes chunks that were written before, with their padding, behind room for the header. There are some, and they fill the limit.
    pub fn set_written(&mut self, bytes: Vec<u8>)
        requires some { 12 < length bytes.items }
        requires full { length bytes.items ≡ self.old.limit }
        ensures { self.new ≡ record self.old { body = drop 12 bytes.items } }
    {
        self.bytes = bytes;
        write_header(&mut self.bytes, self.header);
    }

    /// The packet, with `word` in the checksum's field where the checksum is on; no bytes where nothing was added.
    /// The builder is empty again.
    pub fn build(&mut self, word: u32) -> Vec<u8>
        ensures packet { result.items ≡ build self.old.writes_checksum self.old.header word self.old.body }
        ensures short { length result.items ≤ self.old.limit }
        ensures empty { self.new ≡ record self.old { body = [] } }
    {
        let mut bytes = mem::replace(&mut self.bytes, Vec::new(self.alloc));
        if self.write_checksum && !bytes.is_empty() {
            write_word(&mut bytes, word);
        }
        bytes
    }
}

/// Whether the chunk's bytes are at most so many.
fn has_room(chunk: &Chunk, room: usize) -> bool
    requires { IsEncodable (chunk_item (chunk_tree chunk.now)) }
    ensures { result ≡ nat_le (length (chunk_bytes (chunk_tree chunk.now))) room }
{
    let size = chunk.serialized_size();
    size <= room
}

/// Appends a chunk, behind a header where there are no bytes yet: then it asks for no more than the limit, so that it fails only
/// where the capacity was below that, or too small for header and chunk.
#[tactic(auto, unfolding(sctp_chunk::specs::Written::chunk_bytes))]
fn push_chunk(
    bytes: &mut Vec<u8>,
    header: CommonHeader,
    limit: usize,
    chunk: &Chunk,
) -> Result<(), AllocError>
    requires encodable { IsEncodable (chunk_item (chunk_tree chunk.now)) }
    requires whole { chunk_is_whole (chunk_tree chunk.now) ≡ true }
    ensures reserved { bytes.old.items ≡ [] → OnOk result (limit ≤ vec_capacity bytes.new) }
    ensures full { bytes.old.items ≡ [] → OnErr result (vec_capacity bytes.old < max limit (12 + length (chunk_bytes (chunk_tree chunk.now)))) }
    ensures room { 0 < length bytes.old.items → Fills bytes.old bytes.new (length (chunk_bytes (chunk_tree chunk.now))) result }
    ensures first { bytes.old.items ≡ [] → OnOk result (bytes.new.items ≡ unsummed_bytes (header_tree header) (chunk_bytes (chunk_tree chunk.now))) }
    ensures more { 0 < length bytes.old.items → OnOk result (bytes.new.items ≡ bytes.old.items ++ chunk_bytes (chunk_tree chunk.now)) }
{
    if bytes.is_empty() {
        reserve_packet(bytes, limit)?;
        push_header(bytes, header)?;
    }
    chunk.serialize_to(bytes)
}

/// Reserves what the longest packet takes, and no more.
fn reserve_packet(bytes: &mut Vec<u8>, limit: usize) -> Result<(), AllocError>
    ensures reserved { bytes.old.items ≡ [] → OnOk result (vec_capacity bytes.new ≡ max (vec_capacity bytes.old) limit) }
    ensures full { OnErr result (vec_capacity bytes.old < vec_len bytes.old + limit) }
    ensures items { bytes.new.items ≡ bytes.old.items }
    ensures err { OnErr result (vec_capacity bytes.new ≡ vec_capacity bytes.old) }
{
    bytes.reserve_exact(limit)
}

/// Appends a header, its checksum zero.
fn push_header(bytes: &mut Vec<u8>, header: CommonHeader) -> Result<(), AllocError>
    ensures wrote { OnOk result (bytes.new.items ≡ bytes.old.items ++ unsummed_bytes (header_tree header) []) }
    ensures room { Fills bytes.old bytes.new 12 result }
{
    bytes.extend_from_slice(&header_of(header))
}

/// Writes a header over the first bytes, its checksum zero.
fn write_header(bytes: &mut [u8], header: CommonHeader)
    requires { 12 ≤ length bytes.old }
    ensures { bytes.new ≡ unsummed_bytes (header_tree header) (drop 12 bytes.old) }
{
    bytes[..12].copy_from_slice(&header_of(header));
}

/// The bytes of a header, its checksum zero.
#[tactic(auto, unfolding(crate::specs::Packet::unsummed_bytes, crate::specs::Packet::header_bytes, sctp_wire::specs::Field::be16, sctp_wire::specs::Field::be32))]
fn header_of(header: CommonHeader) -> [u8; 12]
    ensures { result ≡ unsummed_bytes (header_tree header) [] }
{
    let from = header.source_port.to_be_bytes();
    let to = header.destination_port.to_be_bytes();
    let tag = header.verification_tag.to_be_bytes();
    [
        from[0], from[1], to[0], to[1], tag[0], tag[1], tag[2], tag[3], 0, 0, 0, 0,
    ]
}

/// Writes the word into the checksum's field of a packet.
#[tactic(auto)]
fn write_word(bytes: &mut [u8], word: u32)
    requires { 12 ≤ length bytes.old }
    ensures { bytes.new ≡ take 8 bytes.old ++ (be32 word ++ drop 12 bytes.old) }
{
    bytes[8..12].copy_from_slice(&word.to_be_bytes());
}
