//! One packet in, a message and a SACK out.

ghost use Rattle.std.specs.Prelude.{◌≡◌, ◌≤◌, ◌↔◌, length, map, IfOk, IfSome, IfNone, IsTrue, ℕ, Bool, List, [], ◌∷◌};
ghost use Rattle.sctp_packet.specs.Chunk.{FragmentTree, data_chunk};
ghost use Rattle.sctp_packet.specs.ChunkView.{chunk_tree};
ghost use Rattle.sctp_packet.specs.Views.{data_chunk_tree, fragment_tree};
ghost use Rattle.sctp_packet.specs.PacketView.{header_tree};
ghost use Rattle.sctp_probe.specs.Probing.{Answer, Probes, IsWhole, IsMessage, answer_of, packet_word, refusal_of, reply_bytes, reply_chunk};

use crate::answer::{Probe, ProbeError};
use crate::checksum::ByteSum;
use sctp_packet::{
    Chunk, CommonHeader, Data, DataChunk, PacketParseError, SackChunk, SctpPacket,
    SctpPacketBuilder,
};
use sctp_wire::{Checksum, Message, Policy, Tsn};
use std::alloc::{AllocError, Global};

/// The window that each reply advertises.
const REPLY_WINDOW: u32 = 4718592;

/// The length of each reply: a common header, and a SACK without blocks and duplicates.
const REPLY_SIZE: usize = 28;

fn word_of(bytes: &[u8]) -> u32
    ensures { 12 ≤ length bytes.now → result ≡ packet_word bytes.now }
{
    if bytes.len() < 12 {
        0
    } else {
        ByteSum.word(&bytes[..8], &bytes[12..])
    }
}

fn refusal(fault: PacketParseError) -> ProbeError
    ensures { result ≡ refusal_of fault }
{
    match fault {
        PacketParseError::Memory => ProbeError::Memory,
        fault => ProbeError::Refused(fault.number()),
    }
}

/// The DATA chunk that is all that there is.
fn only_data(chunks: Vec<Chunk>) -> Option<DataChunk>
    ensures some { IfSome result (λ c. map chunk_tree chunks.items ≡ data_chunk_tree c ∷ []) }
    ensures none { IfNone result ((tsn : ℕ) (immediate : Bool) (f : FragmentTree)
        → map chunk_tree chunks.items ≡ data_chunk tsn immediate f ∷ [] → ⊥) }
{
    if chunks.len() != 1 {
        return None;
    }
    let mut chunks = chunks;
    match chunks.pop() {
        Some(Chunk::Data(chunk)) => Some(chunk),
        _ => None,
    }
}

/// Whether it is a message from its beginning to its end, with something in it.
fn is_whole(fragment: &Data) -> bool
    ensures { IsTrue result ↔ IsWhole (fragment_tree fragment.now) }
{
    fragment.is_beginning && fragment.is_end && !fragment.payload.is_empty()
}

/// The DATA chunk that holds a whole message, where it is all that there is.
fn whole_message(chunks: Vec<Chunk>) -> Option<DataChunk>
    ensures some { IfSome result (λ c. IsMessage (map chunk_tree chunks.items) c.tsn.0 (fragment_tree c.data)) }
    ensures none { IfNone result ((tsn : ℕ) (f : FragmentTree) → IsMessage (map chunk_tree chunks.items) tsn f → ⊥) }
{
    let chunk = only_data(chunks)?;
    if !is_whole(&chunk.data) {
        return None;
    }
    Some(chunk)
}

/// A SACK of the TSN, without blocks and duplicates.
fn reply_chunk(alloc: Global, tsn: Tsn) -> Chunk
    ensures { chunk_tree result ≡ reply_chunk tsn.0 }
{
    Chunk::Sack(SackChunk {
        cumulative_tsn_ack: tsn,
        a_rwnd: REPLY_WINDOW,
        gap_ack_blocks: Vec::new(alloc),
        duplicate_tsns: Vec::new(alloc),
    })
}

/// The packet that acknowledges the TSN of a packet with this header.
fn reply_to(alloc: Global, header: CommonHeader, tsn: Tsn) -> Result<Vec<u8>, AllocError>
    ensures { IfOk result (λ v. v.items ≡ reply_bytes (header_tree header) tsn.0) }
{
    let mut builder = SctpPacketBuilder::new(
        alloc,
        header.verification_tag,
        header.destination_port,
        header.source_port,
        REPLY_SIZE,
    );
    let sack = reply_chunk(alloc, tsn);
    builder.add(&sack)?;
    let word = word_of(builder.unsummed());
    Ok(builder.build(word))
}

/// A packet has at most one answer.
pub fn one_answer()
    ensures { (bytes : List ℕ) (a b : Answer) → Probes bytes a → Probes bytes b → a ≡ b }
{}

/// What the bytes of a packet say.
pub fn probe(alloc: Global, bytes: &[u8]) -> Result<Probe, ProbeError>
    ensures { IfSome (answer_of result) (Probes bytes.now) }
{
    let packet = match SctpPacket::from_bytes(alloc, bytes, word_of(bytes), &Policy::default()) {
        Ok(packet) => packet,
        Err(fault) => return Err(refusal(fault)),
    };
    let header = packet.common_header;
    let Some(chunk) = whole_message(packet.chunks) else {
        return Err(ProbeError::Other);
    };
    let reply = reply_to(alloc, header, chunk.tsn)?;
    let data = chunk.data;
    Ok(Probe {
        message: Message::new(data.stream_key.id(), data.ppid, data.payload),
        reply,
    })
}
