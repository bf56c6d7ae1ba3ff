//! A packet as people read it: a line a chunk.

ghost use Rattle.std.specs.Prelude.{◌≡◌, ◌++◌, [], ◌∷◌, map, IfErr, IfOk, string_bytes};
ghost use Rattle.sctp_packet.specs.ChunkView.{chunk_tree};
ghost use Rattle.sctp_packet.specs.Packet.{Refuses};
ghost use Rattle.sctp_c_records.specs.Describe.{IsDescribed, Shows, any_checksum, chunk_lines, refusal_answer};

use crate::answers::{NO_PACKET, NO_ROOM, OK, SHORT_BUFFER};
use crate::event::put_bytes;
use sctp_packet::{Chunk, PacketParseError, SctpPacket};
use sctp_serial::ZERO_CHECKSUM_ALTERNATE_ERROR_DETECTION_METHOD_NONE;
use sctp_wire::Policy;
use std::alloc::{AllocError, Global};

/// A line a chunk.
fn lines_of(alloc: Global, chunks: &[Chunk]) -> Result<String, AllocError>
    ensures { IfOk result (λ text. string_bytes text ≡ chunk_lines (map chunk_tree chunks.now)) }
{
    let mut text = String::new(alloc);
    for chunk in chunks {
        let line = format!(in alloc; "{chunk}\n")?;
        text.push_str(&line)?;
    }
    Ok(text)
}

/// The lines, and a zero byte.
fn ended_lines(alloc: Global, chunks: &[Chunk]) -> Result<String, AllocError>
    ensures { IfOk result (λ text. string_bytes text ≡ chunk_lines (map chunk_tree chunks.now) ++ 0 ∷ []) }
{
    let mut text = lines_of(alloc, chunks)?;
    text.push_str("\0")?;
    Ok(text)
}

/// What the chunks of a packet say, whatever its checksum, a line each, and a zero byte.
fn described(alloc: Global, bytes: &[u8]) -> Result<String, PacketParseError>
    ensures text { IfOk result (λ text. IsDescribed bytes.now (string_bytes text)) }
    ensures refused { IfErr result (Refuses any_checksum 0 bytes.now) }
{
    let policy = Policy {
        disable_checksum_verification: true,
        zero_checksum_alternate_error_detection_method: ZERO_CHECKSUM_ALTERNATE_ERROR_DETECTION_METHOD_NONE,
    };
    let packet = SctpPacket::from_bytes(alloc, bytes, 0, &policy)?;
    let outcome = ended_lines(alloc, &packet.chunks);
    drop(packet);
    match outcome {
        Ok(text) => Ok(text),
        Err(_error) => Err(PacketParseError::Memory),
    }
}

fn refusal_answer(fault: PacketParseError) -> u32
    ensures { result ≡ refusal_answer fault }
{
    match fault {
        PacketParseError::Memory => NO_ROOM,
        _ => NO_PACKET,
    }
}

/// Writes what the chunks of a packet say where it fits, a line each, and a zero byte; and how many bytes that takes.
pub fn describe_packet(alloc: Global, bytes: &[u8], needed: &mut usize, buffer: &mut [u8]) -> u32
    ensures { Shows bytes.now buffer.old buffer.new needed.new result }
{
    let text = match described(alloc, bytes) {
        Ok(text) => text,
        Err(fault) => return refusal_answer(fault),
    };
    *needed = text.len();
    if put_bytes(text.as_bytes(), buffer) {
        OK
    } else {
        SHORT_BUFFER
    }
}
