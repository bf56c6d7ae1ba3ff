//! Numbers of DATA and I-DATA chunks.

ghost use Rattle.std.specs.Prelude.{◌≡◌, ◌+◌, ◌-◌, ◌%◌, ◌^◌, Some, refl};
ghost use Rattle.std.specs.Fmt.{decimal};
ghost use Rattle.std.proofs.Common.{arith};

use crate::SerialNumber;
use std::fmt;
use std::ops::{Add, AddAssign, Sub, SubAssign};

/// A transmission sequence number (RFC 9260 section 2.6).
#[derive(Clone, Copy, PartialEq, Eq)]
pub struct Tsn(pub u32);

impl Tsn {
    /// The number `other` steps further on.
    pub fn add_to(self, other: u32) -> Tsn
        ensures { result.0 ≡ (self.0 + other) % 2 ^ 32 }
    {
        Tsn(self.0.wrapping_add(other))
    }
}

impl SerialNumber for Tsn {
    type DistanceType = u32;

    ghost SPACE = { 2 ^ 32 };

    const SPACE: u64 = 1 << 32;

    ghost number = { λ n. n.0 };

    ghost distance = { λ d. d };

    fn distance_to(self, other: Tsn) -> u32 {
        let ahead = self.0.wrapping_sub(other.0);
        let behind = other.0.wrapping_sub(self.0);
        ahead.min(behind)
    }

    fn steps_from(self, other: Tsn) -> u64 {
        self.0.wrapping_sub(other.0) as u64
    }

    fn wrapped(first: Tsn, n: u64) -> Tsn {
        first + (n % (1 << 32)) as u32
    }

    ghost space_fits = { (Prim.omega arith, Prim.omega arith, refl) };

    ghost eq_by_number = { λ a b. refl };
}

impl Add<u32> for Tsn {
    type Output = Tsn;

    ghost add_gives = { λ a n b. b.0 ≡ (a.0 + n) % 2 ^ 32 };

    fn add(self, other: u32) -> Tsn {
        self.add_to(other)
    }
}

impl Sub<u32> for Tsn {
    type Output = Tsn;

    ghost sub_gives = { λ a n b. b.0 ≡ (a.0 + 2 ^ 32 - n) % 2 ^ 32 };

    fn sub(self, other: u32) -> Tsn {
        Tsn(self.0.wrapping_sub(other))
    }
}

impl AddAssign<u32> for Tsn {
    ghost add_assign_gives = { λ a n b. b.0 ≡ (a.0 + n) % 2 ^ 32 };

    fn add_assign(&mut self, other: u32) {
        self.0 = self.0.wrapping_add(other);
    }
}

impl SubAssign<u32> for Tsn {
    ghost sub_assign_gives = { λ a n b. b.0 ≡ (a.0 + 2 ^ 32 - n) % 2 ^ 32 };

    fn sub_assign(&mut self, other: u32) {
        self.0 = self.0.wrapping_sub(other);
    }
}

impl fmt::Display for Tsn {
    ghost output = { λ n. Some (decimal n.0) };

    fn fmt<W: fmt::Write>(&self, f: &mut fmt::Formatter<W>) -> fmt::Result {
        fmt::Display::fmt(&self.0, f)
    }
}

impl fmt::Debug for Tsn {
    ghost debug_output = { λ n. Some (decimal n.0) };

    fn fmt<W: fmt::Write>(&self, f: &mut fmt::Formatter<W>) -> fmt::Result {
        fmt::Display::fmt(self, f)
    }
}
