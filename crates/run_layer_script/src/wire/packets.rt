//! Packets, read and built again.

use crate::answer::Answer;
use crate::output::Output;
use sctp_crc32c::crc32c_of;
use sctp_packet::{
    Chunk, PacketParseError, PacketView, RawChunk, SctpPacket, SctpPacketBuilder, chunk_fits,
};
use sctp_wire::{ChunkParseError, Policy};
use std::alloc::Global;

/// The greatest packet.
const LIMIT: usize = 65535;

/// No packet has more chunks: each has at least four bytes.
const MOST_CHUNKS: usize = LIMIT / 4;

/// Lets every checksum through: CRC32c is the caller's.
pub fn unchecked() -> Policy {
    Policy {
        disable_checksum_verification: true,
        ..Policy::default()
    }
}

pub fn answer(name: &str, bytes: &[u8], output: &mut Output) -> Answer {
    match name {
        "packet" => read(bytes, 0, &unchecked(), false, output),
        "sum-0" => read(bytes, 0, &Policy::default(), false, output),
        "sum-376" => read(bytes, 376, &Policy::default(), false, output),
        "in-place" => look(bytes, output),
        "crc32c" => {
            let word = crc32c_of(bytes);
            output.push_hex(&word.to_be_bytes());
            output.push_str(" ");
            output.hex_line(&word.to_le_bytes())
        }
        _ => read(bytes, 0, &unchecked(), true, output),
    }
}

/// A packet whose bytes have the checksum `word`. Where it is asked for what was copied is compared with what is in place, too.
pub fn read(
    bytes: &[u8],
    word: u32,
    policy: &Policy,
    is_compared: bool,
    output: &mut Output,
) -> Answer {
    match SctpPacket::from_bytes(output.alloc, bytes, word, policy) {
        Ok(packet) => {
            show(&packet, bytes, output);
            if is_compared {
                match is_alike(output.alloc, &packet.chunks, bytes) {
                    Ok(alike) => writeln!(output, "in place alike: {alike}"),
                    Err(fault) => {
                        output.refuse(fault);
                    }
                }
            }
            drop(packet);
            Answer::Done
        }
        Err(fault) => output.refuse(fault),
    }
}

/// The chunks of a packet where they lie.
fn look(bytes: &[u8], output: &mut Output) -> Answer {
    let mut view = match PacketView::new(bytes, 0, &unchecked()) {
        Ok(view) => view,
        Err(fault) => return output.refuse(fault),
    };
    for _ in 0..MOST_CHUNKS {
        let Some(chunk) = view.next_chunk() else {
            return Answer::Done;
        };
        match chunk.data_view() {
            Some(fragment) => output.debug_line(&fragment),
            None => output.debug_line(&chunk),
        }
    }
    Answer::Done
}

/// What the packet's chunks say, and whether it is written alike.
fn show(packet: &SctpPacket, bytes: &[u8], output: &mut Output) {
    output.fill("# chunks\n", &[packet.chunks.len() as u128]);
    let header = packet.common_header;
    let mut builder = SctpPacketBuilder::new(
        output.alloc,
        header.verification_tag,
        header.source_port,
        header.destination_port,
        LIMIT,
    );
    for chunk in &packet.chunks {
        output.put_line(chunk);
        if builder.fits(chunk) {
            chunk_fits(chunk);
            output.note(builder.add(chunk));
        }
    }
    let room = builder.bytes_remaining();
    let again = builder.build(header.checksum);
    drop(builder);
    write!(output, "written alike: {}", is_padded_as(bytes, &again));
    output.fill(", room #\n", &[room as u128]);
}

/// Whether it is the bytes, but for the zeros that bring it to a multiple of four.
fn is_padded_as(bytes: &[u8], again: &[u8]) -> bool {
    match again.strip_prefix(bytes) {
        Some(padding) => again.len() % 4 == 0 && matches!(padding, [] | [0] | [0, 0] | [0, 0, 0]),
        None => false,
    }
}

/// Whether the chunks in place are these.
fn is_alike(alloc: Global, chunks: &[Chunk], bytes: &[u8]) -> Result<bool, PacketParseError> {
    let mut view = PacketView::new(bytes, 0, &unchecked())?;
    for chunk in chunks {
        if !is_same(alloc, chunk, view.next_chunk())? {
            return Ok(false);
        }
    }
    Ok(view.next_chunk().is_none())
}

/// Whether there is a chunk in place, and it is this one, as it is shown, with this payload.
fn is_same(
    alloc: Global,
    chunk: &Chunk,
    raw: Option<RawChunk<'_>>,
) -> Result<bool, ChunkParseError> {
    let Some(raw) = raw else {
        return Ok(false);
    };
    let again = Chunk::try_from(alloc, raw)?;
    let text = format!(in alloc; "{again}");
    drop(again);
    let text = text?;
    Ok(text == format!(in alloc; "{chunk}")? && has_payload(chunk, raw))
}

/// Whether the payload in place is the one that was copied, where the chunk has one.
fn has_payload(chunk: &Chunk, raw: RawChunk<'_>) -> bool {
    match (chunk, raw.data_view()) {
        (Chunk::Data(c), Some(fragment)) => fragment.payload == c.data.payload.as_slice(),
        (Chunk::IData(c), Some(fragment)) => fragment.payload == c.data.payload.as_slice(),
        (_, Some(_)) => false,
        (_, None) => true,
    }
}
