//! The checksum of this program: a sum that any reader can redo by hand.

ghost use Rattle.std.specs.Prelude.{◌≡◌, ◌+◌, ◌%◌, ◌^◌, sum};
ghost use Rattle.sctp_probe.specs.Checksum.{byte_sum};

use sctp_wire::Checksum;

/// The sum of all bytes, which wraps at 32 bits.
#[derive(Clone, Copy, Debug, PartialEq, Eq, Default)]
pub struct ByteSum;

impl Checksum for ByteSum {
    ghost word_of = { λ _ bytes. byte_sum bytes };

    fn word(&self, before: &[u8], after: &[u8]) -> u32 {
        add_bytes(add_bytes(0, before), after)
    }
}

fn add_bytes(start: u32, bytes: &[u8]) -> u32
    ensures { result ≡ (start + sum bytes.now) % 2 ^ 32 }
{
    let mut word = start;
    for byte in bytes {
        word = word.wrapping_add(u32::from(*byte));
    }
    word
}
