//! Sets of numbers.

ghost use Rattle.std.specs.Prelude.{◌≡◌, ℕ, ◌<◌, ◌≤◌, ◌==◌, true, false, if◌then◌else◌, IfSome, IfNone};
ghost use Rattle.sctp_tx_outstanding.specs.Numbers.{is_listed};

use std::collections::BTreeSet;

/// Lists the number. Says whether there was memory.
pub(crate) fn add(numbers: &mut BTreeSet<u64>, number: u64) -> bool
    ensures { result ≡ true → (n : ℕ) → is_listed numbers.new.keys n ≡ (if n == number then true else is_listed numbers.old.keys n) }
{
    numbers.insert(number).is_ok()
}

/// The least number from this one on.
pub(crate) fn least_from(numbers: &BTreeSet<u64>, from: u64) -> Option<u64>
    ensures from { IfSome result (λ least. from ≤ least) }
    ensures least { IfSome result (λ least. (n : ℕ) → from ≤ n → n < least → is_listed numbers.now.keys n ≡ false) }
    ensures none { IfNone result ((n : ℕ) → from ≤ n → is_listed numbers.now.keys n ≡ false) }
{
    match numbers.range(from..).next() {
        Some(number) => Some(*number),
        None => None,
    }
}
