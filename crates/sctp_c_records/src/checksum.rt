//! The checksum of packets.

ghost use Rattle.std.specs.Prelude.{◌≡◌, ◌==◌};
ghost use Rattle.sctp_c_records.specs.Records.{checksum_by};

use sctp_crc32c::Crc32c;
use sctp_wire::Checksum;

/// What stands in the checksum field of packets.
#[derive(Clone, Copy, Drop)]
pub enum PacketChecksum {
    /// CRC32c (RFC 9260 section 6.8).
    Crc32c,
    /// Zero in all packets, over a lower layer that finds damage; RFC 9653 asks for a sum in some.
    Zero,
}

impl Checksum for PacketChecksum {
    ghost use Rattle.sctp_c_records.specs.Checksum.{word_by};

    ghost word_of = { word_by };

    fn word(&self, before: &[u8], after: &[u8]) -> u32 {
        match self {
            PacketChecksum::Crc32c => Crc32c.word(before, after),
            PacketChecksum::Zero => 0,
        }
    }
}

impl PacketChecksum {
    /// Its number in the options.
    pub(crate) fn number(self) -> u16
        ensures { checksum_by (result == 0) ≡ self }
    {
        match self {
            PacketChecksum::Crc32c => 0,
            PacketChecksum::Zero => 1,
        }
    }
}
