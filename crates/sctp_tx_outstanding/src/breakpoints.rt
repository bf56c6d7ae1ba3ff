//! The numbers that were next when streams were reset.

ghost use Rattle.std.specs.Prelude.{◌≡◌, ℕ, ◌<◌, ◌≤◌, ◌&&◌, ◌==◌, nat_lt, filter, true, false, ◌++◌, ◌∷◌, []};
ghost use Rattle.std.specs.List.{list_any};
ghost use Rattle.sctp_tx_outstanding.specs.OutstandingData.{is_last};
ghost use Rattle.sctp_tx_outstanding.specs.Breaks.{AscendFrom, is_first_passed};

use std::alloc::{AllocError, Global};
use std::collections::VecDeque;
use std::marker::Model;

/// The numbers that were next when streams were reset, in that order. They ascend, unless TSNs began anew.
#[derive(Drop)]
pub struct Breakpoints {
    numbers: VecDeque<u128>,
    is_ascending: bool,
}

impl Model for Breakpoints {
    ghost use Rattle.std.specs.Prelude.{◌≡◌, true};
    ghost use Rattle.sctp_tx_outstanding.specs.Breaks.{Breaks, AscendFrom};

    ghost Value = { Breaks };

    ghost view = { λ b. record { numbers = b.numbers.items } };

    ghost invariant = { λ b. b.is_ascending ≡ true → AscendFrom 0 b.numbers.items };
}

/// Whether the number is the last breakpoint.
fn is_last(breakpoints: &VecDeque<u128>, number: u128) -> bool
    ensures { result ≡ is_last number breakpoints.now.items }
{
    match breakpoints.back() {
        Some(last) => *last == number,
        None => false,
    }
}

/// Whether the number isn't below the last breakpoint.
fn is_after(breakpoints: &VecDeque<u128>, number: u128) -> bool
    ensures { result ≡ true → AscendFrom 0 breakpoints.now.items → AscendFrom 0 (breakpoints.now.items ++ number ∷ []) }
{
    match breakpoints.back() {
        Some(last) => *last <= number,
        None => true,
    }
}

/// The least breakpoint above the number, or the end, if none is below that.
fn next_break(breakpoints: &VecDeque<u128>, is_ascending: bool, number: u128, end: u128) -> u128
    requires end { number ≤ end }
    requires ascending { is_ascending ≡ true → AscendFrom 0 breakpoints.now.items }
    ensures onward { number ≤ result }
    ensures within { result ≤ end }
    ensures before { (n : ℕ) → number < n → n < result → list_any (λ b. b == n) breakpoints.now.items ≡ false }
    ensures end { result < end → nat_lt number result && list_any (λ b. b == result) breakpoints.now.items ≡ true }
{
    let mut next = end;
    for breakpoint in breakpoints.iter() {
        if number < *breakpoint {
            next = next.min(*breakpoint);
            if is_ascending {
                return next;
            }
        }
    }
    next
}

/// Whether the first breakpoint isn't above the number.
fn is_first_passed(breakpoints: &VecDeque<u128>, number: u128) -> bool
    ensures { result ≡ is_first_passed number breakpoints.now.items }
{
    match breakpoints.front() {
        Some(first) => *first <= number,
        None => false,
    }
}

/// Leaves the breakpoints above the number, which ascend.
fn forget_first(breakpoints: &mut VecDeque<u128>, number: u64)
    requires { AscendFrom 0 breakpoints.old.items }
    ensures rest { breakpoints.new.items ≡ filter (λ b. nat_lt number b) breakpoints.old.items }
    ensures ascend { AscendFrom 0 breakpoints.new.items }
{
    while is_first_passed(breakpoints, number as u128) {
        breakpoints.pop_front();
    }
}

/// Leaves the breakpoints above the number, of any order.
fn forget_each(breakpoints: &mut VecDeque<u128>, number: u64)
    ensures { breakpoints.new.items ≡ filter (λ b. nat_lt number b) breakpoints.old.items }
{
    let number = number as u128;
    breakpoints.retain(|breakpoint| number < *breakpoint);
}

impl Breakpoints {
    ghost use Rattle.std.specs.Prelude.{◌∷◌, ◌++◌, [], OnOk, OnErr};

    /// None. Takes no memory.
    pub(crate) fn new(alloc: Global) -> Breakpoints
        ensures { result ≡ record { numbers = [] } }
    {
        Breakpoints {
            numbers: VecDeque::new(alloc),
            is_ascending: true,
        }
    }

    pub(crate) fn clear(&mut self)
        ensures { self.new ≡ record { numbers = [] } }
    {
        self.numbers.clear();
        self.is_ascending = true;
    }

    /// Whether the number is the last one.
    pub(crate) fn is_last(&self, number: u128) -> bool
        ensures { result ≡ is_last number self.now.numbers }
    {
        is_last(&self.numbers, number)
    }

    /// One more. Without memory nothing changes.
    pub(crate) fn push(&mut self, number: u128) -> Result<(), AllocError>
        ensures ok { OnOk result (self.new ≡ record { numbers = self.old.numbers ++ number ∷ [] }) }
        ensures err { OnErr result (self.new ≡ self.old) }
    {
        let follows = is_after(&self.numbers, number);
        self.numbers.push_back(number)?;
        self.is_ascending = self.is_ascending && follows;
        Ok(())
    }

    /// The least breakpoint above the number, or the end, if none is below that.
    pub(crate) fn next(&self, number: u128, end: u128) -> u128
        requires { number ≤ end }
        ensures onward { number ≤ result }
        ensures within { result ≤ end }
        ensures before { (n : ℕ) → number < n → n < result → list_any (λ b. b == n) self.now.numbers ≡ false }
        ensures end { result < end → nat_lt number result && list_any (λ b. b == result) self.now.numbers ≡ true }
    {
        next_break(&self.numbers, self.is_ascending, number, end)
    }

    /// Leaves those above the number.
    pub(crate) fn forget_passed(&mut self, number: u64)
        ensures { self.new ≡ record { numbers = filter (λ b. nat_lt number b) self.old.numbers } }
    {
        if self.is_ascending {
            forget_first(&mut self.numbers, number);
            return;
        }
        forget_each(&mut self.numbers, number);
    }
}
