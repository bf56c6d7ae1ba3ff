//! Packets under the checksum of the wire.

ghost use Rattle.std.specs.Prelude.{◌≡◌, IfOk};
ghost use Rattle.sctp_trace.specs.Bytes.{with_crc32c};

use sctp_crc32c::Crc32c;
use sctp_wire::{Checksum, push_u32};
use std::alloc::{AllocError, Global};

/// The packet with its CRC32c in the checksum's field; fewer than 12 bytes stay as they are.
pub fn with_crc32c(alloc: Global, bytes: &[u8]) -> Result<Vec<u8>, AllocError>
    ensures { IfOk result (λ packet. packet.items ≡ with_crc32c bytes.now) }
{
    if bytes.len() < 12 {
        return Vec::from_slice(alloc, bytes);
    }
    let before = &bytes[..8];
    let after = &bytes[12..];
    let mut packet = Vec::from_slice(alloc, before)?;
    push_u32(&mut packet, Crc32c.word(before, after))?;
    packet.extend_from_slice(after)?;
    Ok(packet)
}
