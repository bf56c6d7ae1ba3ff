//! Packets read in place (RFC 9260 section 3): nothing is built, and no memory is taken.

ghost use Rattle.std.specs.Prelude.{◌≡◌, ◌≢◌, List, [], ◌∷◌, map, IfOk, IfErr, OnOk, IfSome, IfNone, MatchOption};
ghost use Rattle.sctp_wire.specs.Item.{Takes, ParsesAll};
ghost use Rattle.sctp_wire.specs.Refusal.{FailsToParseAs};
ghost use Rattle.sctp_chunk.specs.Chunk.{ChunkTree};
ghost use Rattle.sctp_chunk.specs.Grammar.{IsChunk, RefusesChunk};
ghost use Rattle.sctp_chunk.specs.Views.{raw_chunk};
ghost use Rattle.sctp_control_chunk.specs.ChunkView.{chunk_tree};
ghost use Rattle.sctp_packet.specs.Packet.{Refuses, IsFault};
ghost use Rattle.sctp_packet.specs.PacketView.{header_tree};
ghost use Rattle.sctp_packet.specs.View.{ViewTree, Views, AreLeft};

use crate::packet::{CommonHeader, MAX_PACKET_SIZE, PacketParseError};
use sctp_chunk::RawChunk;
use sctp_control_chunk::Chunk;
use sctp_wire::{ChunkParseError, Policy, check_items};
use std::alloc::Global;
use std::marker::Model;

/// A packet where it lies: its header, and the chunks that are still to be looked at, each of which says something.
#[derive(Drop)]
pub struct PacketView<'a> {
    common_header: CommonHeader,
    /// The bytes of the chunks that are left.
    rest: &'a [u8],
}

impl<'a> Model for PacketView<'a> {
    ghost use Rattle.sctp_packet.specs.View.{ViewTree};

    ghost Value = { ViewTree };

    ghost use Rattle.sctp_packet.specs.ViewInside.{view_tree, IsView};

    ghost view = { view_tree };

    ghost invariant = { IsView };
}

impl<'a> PacketView<'a> {
    /// A packet whose bytes have the checksum `word`. All its chunks are left.
    ///
    /// It accepts what `SctpPacket::from_bytes` accepts, and has the same faults but for want of memory: the tests come in the
    /// same order, and each chunk is checked to its end.
    pub fn new(
        bytes: &'a [u8],
        word: u32,
        policy: &Policy,
    ) -> Result<PacketView<'a>, PacketParseError>
        ensures packet { IfOk result (Views policy.now word bytes.now) }
        ensures refused { IfErr result (Refuses policy.now word bytes.now) }
        ensures never_memory { IfErr result IsFault }
    {
        let Ok((common_header, body)) = CommonHeader::at(bytes) else {
            return Err(PacketParseError::TooShort);
        };
        if bytes.len() > MAX_PACKET_SIZE {
            return Err(PacketParseError::TooLong);
        }
        if !policy.accepts(word, common_header.checksum) {
            return Err(PacketParseError::InvalidChecksum);
        }
        if let Err(fault) = check_chunks(body) {
            return Err(PacketParseError::Chunk(fault));
        }
        Ok(PacketView {
            common_header,
            rest: body,
        })
    }

    /// What the packet begins with.
    pub fn header(&self) -> CommonHeader
        ensures header { header_tree result ≡ self.now.header }
        ensures checksum { result.checksum ≡ self.now.checksum }
    {
        self.common_header
    }

    /// The same view again, to be walked from here without moving this one on.
    pub fn again(&self) -> PacketView<'a>
        ensures { result ≡ self.now }
    {
        PacketView {
            common_header: self.common_header,
            rest: self.rest,
        }
    }

    /// The next of the chunks that are left; none where no chunk is.
    pub fn next_chunk(&mut self) -> Option<RawChunk<'a>>
        ensures next { (chunks : List ChunkTree) → AreLeft self.old chunks → MatchOption result (chunks ≡ [])
            (λ raw. (t : ChunkTree) × (ts : List ChunkTree) × (chunks ≡ t ∷ ts) × IsChunk (raw_chunk raw) t × AreLeft self.new ts) }
        ensures chunk { IfSome result (λ raw. (t : ChunkTree) × IsChunk (raw_chunk raw) t) }
        ensures taken { IfSome result (λ raw. Takes self.old.rest (raw_chunk raw) self.new.rest) }
        ensures ended { IfNone result (self.old.rest ≡ []) }
        ensures kept { self.new ≡ record self.old { rest = self.new.rest } }
    {
        match RawChunk::from_bytes(self.rest) {
            Ok((chunk, rest)) => {
                self.rest = rest;
                Some(chunk)
            }
            Err(_) => None,
        }
    }
}

/// Whether the bytes are chunks.
fn check_chunks(bytes: &[u8]) -> Result<(), ChunkParseError>
    ensures ok { OnOk result ((chunks : List ChunkTree) × ParsesAll IsChunk bytes.now chunks []) }
    ensures refused { IfErr result (FailsToParseAs IsChunk RefusesChunk bytes.now) }
    ensures never_memory { IfErr result (λ fault. fault ≢ ChunkParseError.Memory) }
{
    check_items::<Chunk>(bytes)
}

/// The chunks that are left, each built: what takes memory of all that reading a packet does.
pub(crate) fn build_chunks(
    alloc: Global,
    mut view: PacketView<'_>,
) -> Result<Vec<Chunk>, ChunkParseError>
    ensures ok { IfOk result (λ chunks. AreLeft view.entry (map chunk_tree chunks.items)) }
    ensures refused { IfErr result (λ fault. fault ≡ ChunkParseError.Memory) }
{
    let mut chunks = Vec::new(alloc);
    while let Some(raw) = view.next_chunk() {
        chunks.push(Chunk::try_from(alloc, raw)?)?;
    }
    Ok(chunks)
}
