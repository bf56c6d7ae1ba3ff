//! The laws of serial numbers, each the contract of a function that takes the numbers by value.

ghost use Rattle.std.specs.Prelude.{◌≡◌, ◌+◌, ◌*◌, ◌/◌, ◌^◌, ◌<◌, ◌≤◌, ◌↔◌, IsTrue, false};
ghost use Rattle.sctp_serial.specs.SerialNumber.{serial_distance};
ghost use Rattle.sctp_serial.specs.Unwrapped.{origin};

use crate::SerialNumber;

/// No number is greater than itself.
pub fn is_greater_than_itself<S: SerialNumber>(a: S) -> bool
    ensures { result ≡ false }
{
    a.greater_than(a)
}

/// Of two numbers at most one is greater than the other.
pub fn are_greater_than_each_other<S: SerialNumber>(a: S, b: S) -> bool
    ensures { result ≡ false }
{
    a.greater_than(b) && b.greater_than(a)
}

/// Where two numbers are exactly half the space apart, neither is greater.
pub fn are_ordered_at_half<S: SerialNumber>(a: S, b: S) -> bool
    requires { 2 * serial_distance S.SPACE (S.number a) (S.number b) ≡ S.SPACE }
    ensures { result ≡ false }
{
    a.greater_than(b) || b.greater_than(a)
}

/// From one base, offsets below half the space compare as integers.
pub fn is_greater_by_offset<S: SerialNumber>(base: S, i: u64, j: u64) -> bool
    requires first { i < S.SPACE / 2 }
    requires second { j < S.SPACE / 2 }
    ensures { IsTrue result ↔ (j < i) }
{
    S::wrapped(base, i).greater_than(S::wrapped(base, j))
}

/// An unwrapped number less than half the space away is told from how it is written.
pub fn there_and_back<S: SerialNumber>(first: S, near: u64, n: u64) -> u64
    requires from_origin { origin ≤ near }
    requires small { near < 2 ^ 63 }
    requires not_above { n < near + S.SPACE / 2 }
    requires not_below { near ≤ n + S.SPACE / 2 }
    ensures { result ≡ n }
{
    S::wrapped(first, n).unwrapped_near(first, near)
}
