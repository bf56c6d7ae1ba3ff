//! What all serial numbers share.

ghost use Rattle.std.specs.Prelude.{◌≡◌, ℕ, ◌+◌, ◌-◌, ◌%◌, ◌^◌, ◌<◌, ◌≤◌, ◌↔◌, ◌⊎◌, ◌==◌, IsTrue};
ghost use Rattle.sctp_serial.specs.SerialNumber.{IsGreater, serial_difference, serial_distance};
ghost use Rattle.sctp_serial.specs.Unwrapped.{IsNearest, nearest, origin, wire};

/// A number that wraps round at the end of its space (RFC 1982). Its order is no order of the whole circle: one number
/// is greater than another where it is ahead of it by less than half the space, and at exactly half neither is.
pub trait SerialNumber: Sized + Copy + Eq {
    /// An unsigned integer that holds each distance.
    type DistanceType;

    // How many numbers there are.
    ghost SPACE: { ℕ };

    const SPACE: u64;

    // The integers that a number and a distance are.
    ghost number: { Self → ℕ };

    ghost distance: { Self.DistanceType → ℕ };

    /// How far the two are apart: the smaller of the two wrapped differences.
    fn distance_to(self, other: Self) -> Self::DistanceType
        ensures { distance result ≡ serial_distance SPACE (number self) (number other) };

    /// By how many steps this number is ahead of the other one, once round.
    fn steps_from(self, other: Self) -> u64
        ensures { result ≡ serial_difference SPACE (number self) (number other) };

    /// How the unwrapped number `n` is written where the first number is written `first`.
    fn wrapped(first: Self, n: u64) -> Self
        ensures { number result ≡ wire SPACE (number first) n };

    /// Whether this number is ahead of the other one by less than half the space.
    final fn greater_than(self, other: Self) -> bool
        ensures { IsTrue result ↔ IsGreater SPACE (number self) (number other) }
    {
        let steps = self.steps_from(other);
        0 < steps && steps < Self::SPACE / 2
    }

    final fn less_than(self, other: Self) -> bool
        ensures { IsTrue result ↔ IsGreater SPACE (number other) (number self) }
    {
        other.greater_than(self)
    }

    final fn greater_than_or_equal(self, other: Self) -> bool
        ensures { IsTrue result ↔ ((number self ≡ number other) ⊎ IsGreater SPACE (number self) (number other)) }
    {
        self == other || self.greater_than(other)
    }

    final fn less_than_or_equal(self, other: Self) -> bool
        ensures { IsTrue result ↔ ((number self ≡ number other) ⊎ IsGreater SPACE (number other) (number self)) }
    {
        self == other || self.less_than(other)
    }

    /// The unwrapped number nearest to `near` that is written as this one, where the first is written `first`. Of two
    /// that are as near, half the space away each, it is the lower one.
    final fn unwrapped_near(self, first: Self, near: u64) -> u64
        requires from_origin { origin ≤ near }
        requires small { near < 2 ^ 63 }
        ensures value { result ≡ nearest SPACE (number first) near (number self) }
        ensures is_nearest { number self < SPACE → IsNearest SPACE (number first) near (number self) result }
    {
        let ahead = self.steps_from(Self::wrapped(first, near));
        if ahead < Self::SPACE / 2 {
            near + ahead
        } else {
            near + ahead - Self::SPACE
        }
    }

    // There are numbers, not too many, and the space has two halves.
    ghost space_fits: { (0 < SPACE) × (SPACE ≤ origin) × (SPACE % 2 ≡ 0) };

    // Numbers are equal where their integers are.
    ghost eq_by_number: { (a b : Self) → Self.eq a b ≡ (number a == number b) };
}
