//! Packets read: a common header and chunks (RFC 9260 section 3).

ghost use Rattle.std.specs.Prelude.{◌≡◌, ◌<◌, ◌≤◌, ◌^◌, length, IfOk, IfErr, OnOk, OnErr};
ghost use Rattle.sctp_packet.specs.Packet.{Accepts, Refuses, FitsHeader, joined_bytes};
ghost use Rattle.sctp_packet.specs.PacketView.{header_tree, packet_tree};
ghost use Rattle.sctp_packet.specs.Faults.{IsPacketFault, fault_number};

use crate::view::{PacketView, build_chunks};
use sctp_control_chunk::Chunk;
use sctp_wire::{ChunkParseError, Policy, first_u16, first_u32};
use std::alloc::Global;
use thiserror::Error;

/// The length of the common header in bytes.
pub const COMMON_HEADER_SIZE: usize = 12;

pub(crate) const MAX_PACKET_SIZE: usize = 65535;

/// Why a packet was refused.
#[derive(Clone, Copy, Debug, PartialEq, Eq, Error)]
pub enum PacketParseError {
    /// It has no whole common header.
    #[error("packet too short")]
    TooShort,
    /// It has over 65,535 bytes.
    #[error("packet too long")]
    TooLong,
    /// Its checksum is not the packet's.
    #[error("invalid checksum")]
    InvalidChecksum,
    /// This is the fault of its first chunk that cannot be read.
    #[error("bad chunk: {0}")]
    Chunk(ChunkParseError),
    /// There was no memory for what was read.
    #[error("out of memory")]
    Memory,
}

impl PacketParseError {
    /// The number of the fault, 1 to 5 in the order above. That of a chunk's fault is `ChunkParseError`'s own.
    pub fn number(&self) -> u8
        ensures { result ≡ fault_number self.now }
    {
        match self {
            PacketParseError::TooShort => 1,
            PacketParseError::TooLong => 2,
            PacketParseError::InvalidChecksum => 3,
            PacketParseError::Chunk(_) => 4,
            PacketParseError::Memory => 5,
        }
    }
}

impl From<ChunkParseError> for PacketParseError {
    ghost from_gives = { IsPacketFault };

    fn from(fault: ChunkParseError) -> PacketParseError {
        match fault {
            ChunkParseError::Memory => PacketParseError::Memory,
            fault => PacketParseError::Chunk(fault),
        }
    }
}

/// What every packet begins with (RFC 9260 section 3.1).
#[derive(Clone, Copy, Debug, PartialEq, Eq)]
pub struct CommonHeader {
    pub source_port: u16,
    pub destination_port: u16,
    pub verification_tag: u32,
    pub checksum: u32,
}

#[tactic(auto, unfolding(crate::specs::Packet::header_bytes))]
impl CommonHeader {
    /// The header at the front of the bytes, and the bytes behind it; `InvalidLength` where there are under 12.
    pub(crate) fn at(bytes: &[u8]) -> Result<(CommonHeader, &[u8]), ChunkParseError>
        ensures ok { IfOk result (λ read. bytes.now ≡ joined_bytes (header_tree read.0) read.0.checksum read.1.now) }
        ensures fits { IfOk result (λ read. FitsHeader (header_tree read.0)) }
        ensures checksum_fits { IfOk result (λ read. read.0.checksum < 2 ^ 32) }
        ensures long { OnOk result (12 ≤ length bytes.now) }
        ensures short { OnErr result (length bytes.now < 12) }
        ensures fault { IfErr result (λ fault. fault ≡ ChunkParseError.InvalidLength) }
    {
        if bytes.len() < COMMON_HEADER_SIZE {
            return Err(ChunkParseError::InvalidLength);
        }
        let (source_port, rest) = first_u16(bytes);
        let (destination_port, rest) = first_u16(rest);
        let (verification_tag, rest) = first_u32(rest);
        let (checksum, rest) = first_u32(rest);
        Ok((
            CommonHeader {
                source_port,
                destination_port,
                verification_tag,
                checksum,
            },
            rest,
        ))
    }
}

/// A packet.
#[derive(Debug, Drop)]
pub struct SctpPacket {
    pub common_header: CommonHeader,
    pub chunks: Vec<Chunk>,
}

impl SctpPacket {
    /// Reads a packet whose bytes have the checksum `word`.
    ///
    /// The tests come in this order: size, checksum, chunks from the left. A checksum is let through that is `word`, or
    /// as `policy` says.
    pub fn from_bytes(
        alloc: Global,
        bytes: &[u8],
        word: u32,
        policy: &Policy,
    ) -> Result<SctpPacket, PacketParseError>
        ensures packet { IfOk result (λ p. Accepts policy.now word bytes.now (packet_tree p)) }
        ensures refused { IfErr result (Refuses policy.now word bytes.now) }
    {
        let view = PacketView::new(bytes, word, policy)?;
        let common_header = view.header();
        let chunks = build_chunks(alloc, view)?;
        Ok(SctpPacket {
            common_header,
            chunks,
        })
    }
}
