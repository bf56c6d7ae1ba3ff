//! The checksum of a packet (RFC 9260 section 6.8), handed in by whoever knows the lower layer, and what is asked of it.

ghost use Rattle.std.specs.Prelude.{◌≡◌, ℕ, List};
ghost use Rattle.sctp_wire.specs.Checksum.{with_zero_field, accepts};

use sctp_serial::ZeroChecksumAlternateErrorDetectionMethod;

/// A function from a packet's bytes to the word in its checksum field.
///
/// The word depends on the bytes alone: those before the field, four zero bytes in its place, and those after it.
pub trait Checksum {
    ghost word_of: { Self → List ℕ → ℕ };

    /// The word of `before`, four zero bytes and `after`, joined.
    fn word(&self, before: &[u8], after: &[u8]) -> u32
        ensures { result ≡ word_of self.now (with_zero_field before.now after.now) };
}

/// What is asked of an incoming packet's checksum (RFC 9260 section 6.8, RFC 9653 section 5.3).
#[derive(Clone, Copy, Debug, PartialEq, Eq, Default)]
pub struct Policy {
    /// Lets every word through.
    pub disable_checksum_verification: bool,
    /// Lets the word zero through, where it is not 0: the lower layer finds damage by this method.
    pub zero_checksum_alternate_error_detection_method: ZeroChecksumAlternateErrorDetectionMethod,
}

impl Policy {
    /// Whether a packet is let through whose checksum field holds `field` and whose bytes have the word `word`.
    pub fn accepts(&self, word: u32, field: u32) -> bool
        ensures { result ≡ accepts self.now.disable_checksum_verification
            self.now.zero_checksum_alternate_error_detection_method.0 word field }
    {
        self.disable_checksum_verification
            || field == word
            || (field == 0 && self.zero_checksum_alternate_error_detection_method.0 != 0)
    }
}
