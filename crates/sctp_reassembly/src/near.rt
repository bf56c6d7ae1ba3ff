//! The numbers that SSN and MID stand for.

ghost use Rattle.std.specs.Prelude.{◌≡◌, ◌≤◌};
ghost use Rattle.sctp_serial.specs.Unwrapped.{origin};
ghost use Rattle.sctp_reassembly.specs.ReassemblyStreams.{number_unless_far};
ghost use Rattle.sctp_reassembly.specs.WireNumber.{nearest_of};

use crate::ordered_stream::FIRST;
use sctp_serial::{Mid, SerialNumber, Ssn};

// Numbers from here on are ignored.
const LIMIT: u64 = FIRST + (1 << 62);

/// The number of a message as a chunk carries it.
#[derive(Clone, Copy)]
pub enum WireNumber {
    /// Unordered messages without interleaving carry none: theirs is the first one.
    First,
    /// That of an ordered message without interleaving.
    Ssn(Ssn),
    /// That of a message with interleaving.
    Mid(Mid),
}

impl WireNumber {
    /// The number that is nearest to `next`; none where it is too far above the first one.
    pub fn near(self, next: u128) -> Option<u64>
        requires { origin ≤ next }
        ensures { result ≡ number_unless_far (nearest_of self next) }
    {
        let number = match self {
            WireNumber::First => FIRST,
            WireNumber::Ssn(_) | WireNumber::Mid(_) if next >= 1 << 63 => LIMIT,
            WireNumber::Ssn(ssn) => ssn.unwrapped_near(Ssn(0), next as u64),
            WireNumber::Mid(mid) => mid.unwrapped_near(Mid(0), next as u64),
        };
        if number >= LIMIT {
            return None;
        }
        Some(number)
    }
}
