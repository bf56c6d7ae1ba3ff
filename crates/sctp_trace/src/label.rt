//! A packet in a few words: its chunks, with the numbers by which one follows a conversation (RFC 9260 section 3.3).

ghost use Rattle.std.specs.Prelude.{◌≡◌};
ghost use Rattle.sctp_trace.specs.Label.{chunk_name};

use sctp_wire::{RawItem, u16_at, u32_at};
use std::alloc::{AllocError, Global};

/// The common header's length in bytes.
const HEADER_SIZE: usize = 12;

/// The name of a chunk's type.
fn chunk_name(kind: u8) -> &'static str
    ensures { result.now ≡ chunk_name kind }
{
    match kind {
        0 => "DATA",
        1 => "INIT",
        2 => "INIT ACK",
        3 => "SACK",
        4 => "HEARTBEAT",
        5 => "HEARTBEAT ACK",
        6 => "ABORT",
        7 => "SHUTDOWN",
        8 => "SHUTDOWN ACK",
        9 => "ERROR",
        10 => "COOKIE ECHO",
        11 => "COOKIE ACK",
        14 => "SHUTDOWN COMPLETE",
        64 => "I-DATA",
        130 => "RE-CONFIG",
        192 => "FORWARD TSN",
        194 => "I-FORWARD TSN",
        _ => "UNKNOWN",
    }
}

/// The TSN that the chunk begins with; behind it the stream of DATA, or how many blocks a SACK has.
fn push_chunk(label: &mut String, item: RawItem) -> Result<(), AllocError> {
    label.push_str(chunk_name(item.first))?;
    let (tsn, rest) = match (item.first, u32_at(item.value)) {
        (0 | 3 | 7 | 64 | 192 | 194, Ok(parts)) => parts,
        _ => return Ok(()),
    };
    write!(label, " {tsn}")?;
    match item.first {
        0 | 64 => push_number(label, " s", 0, rest),
        3 => push_number(label, " +", 1, rest.get(4..).unwrap_or(&[])),
        _ => Ok(()),
    }
}

/// The number that the bytes begin with, behind its sign, unless it is below the least one.
fn push_number(label: &mut String, sign: &str, least: u16, bytes: &[u8]) -> Result<(), AllocError> {
    match u16_at(bytes) {
        Ok((number, _)) if number >= least => write!(label, "{sign}{number}"),
        _ => Ok(()),
    }
}

/// Appends the next chunk of those that are left, and answers what is left behind it.
fn push_next<'a>(label: &mut String, rest: &'a [u8]) -> Result<&'a [u8], AllocError> {
    if !label.is_empty() {
        label.push_str(", ")?;
    }
    match RawItem::from_bytes(rest) {
        Ok((item, after)) => {
            push_chunk(label, item)?;
            Ok(after)
        }
        Err(_) => {
            label.push_str("?")?;
            Ok(&[])
        }
    }
}

fn push_chunks(label: &mut String, chunks: &[u8]) -> Result<(), AllocError> {
    let mut rest = chunks;
    for _ in 0..chunks.len() {
        if rest.is_empty() {
            return Ok(());
        }
        rest = push_next(label, rest)?;
    }
    Ok(())
}

/// The chunks of the packet, joined by commas: DATA with its TSN and stream, SACK, SHUTDOWN and forward points with the TSN up to which
/// they go, and behind `+` how many blocks a SACK has. A question mark stands for what is no chunk.
pub fn packet_label(alloc: Global, bytes: &[u8]) -> Result<String, AllocError> {
    let mut label = String::new(alloc);
    push_chunks(&mut label, bytes.get(HEADER_SIZE..).unwrap_or(&[]))?;
    Ok(label)
}
