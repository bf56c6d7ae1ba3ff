//! Numbers of ordered messages on a stream.

ghost use Rattle.std.specs.Prelude.{◌≡◌, ◌+◌, ◌-◌, ◌%◌, ◌^◌, Some, refl};
ghost use Rattle.std.specs.Fmt.{decimal};
ghost use Rattle.std.proofs.Common.{arith};

use crate::SerialNumber;
use std::fmt;
use std::ops::{Add, AddAssign, Sub, SubAssign};

/// A stream sequence number (RFC 9260 section 2.6).
#[derive(Clone, Copy, PartialEq, Eq)]
pub struct Ssn(pub u16);

impl Ssn {
    /// The number `other` steps further on.
    pub fn add_to(self, other: u16) -> Ssn
        ensures { result.0 ≡ (self.0 + other) % 2 ^ 16 }
    {
        Ssn(self.0.wrapping_add(other))
    }
}

impl SerialNumber for Ssn {
    type DistanceType = u16;

    ghost SPACE = { 2 ^ 16 };

    const SPACE: u64 = 1 << 16;

    ghost number = { λ n. n.0 };

    ghost distance = { λ d. d };

    fn distance_to(self, other: Ssn) -> u16 {
        let ahead = self.0.wrapping_sub(other.0);
        let behind = other.0.wrapping_sub(self.0);
        ahead.min(behind)
    }

    fn steps_from(self, other: Ssn) -> u64 {
        self.0.wrapping_sub(other.0) as u64
    }

    fn wrapped(first: Ssn, n: u64) -> Ssn {
        first + (n % (1 << 16)) as u16
    }

    ghost space_fits = { (Prim.omega arith, Prim.omega arith, refl) };

    ghost eq_by_number = { λ a b. refl };
}

impl Add<u16> for Ssn {
    type Output = Ssn;

    ghost add_gives = { λ a n b. b.0 ≡ (a.0 + n) % 2 ^ 16 };

    fn add(self, other: u16) -> Ssn {
        self.add_to(other)
    }
}

impl Sub<u16> for Ssn {
    type Output = Ssn;

    ghost sub_gives = { λ a n b. b.0 ≡ (a.0 + 2 ^ 16 - n) % 2 ^ 16 };

    fn sub(self, other: u16) -> Ssn {
        Ssn(self.0.wrapping_sub(other))
    }
}

impl AddAssign<u16> for Ssn {
    ghost add_assign_gives = { λ a n b. b.0 ≡ (a.0 + n) % 2 ^ 16 };

    fn add_assign(&mut self, other: u16) {
        self.0 = self.0.wrapping_add(other);
    }
}

impl SubAssign<u16> for Ssn {
    ghost sub_assign_gives = { λ a n b. b.0 ≡ (a.0 + 2 ^ 16 - n) % 2 ^ 16 };

    fn sub_assign(&mut self, other: u16) {
        self.0 = self.0.wrapping_sub(other);
    }
}

impl fmt::Display for Ssn {
    ghost output = { λ n. Some (decimal n.0) };

    fn fmt<W: fmt::Write>(&self, f: &mut fmt::Formatter<W>) -> fmt::Result {
        fmt::Display::fmt(&self.0, f)
    }
}

impl fmt::Debug for Ssn {
    ghost debug_output = { λ n. Some (decimal n.0) };

    fn fmt<W: fmt::Write>(&self, f: &mut fmt::Formatter<W>) -> fmt::Result {
        fmt::Display::fmt(self, f)
    }
}
