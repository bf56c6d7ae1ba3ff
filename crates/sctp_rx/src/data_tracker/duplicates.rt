//! The numbers that came again.

ghost use Rattle.std.specs.Prelude.{◌≡◌, ◌≤◌, length, [], IfOk, OnOk, OnErr};
ghost use Rattle.sctp_rx.specs.DataTracker.{with_duplicate};
ghost use Rattle.sctp_rx.specs.Sack.{tsns};
ghost use Rattle.sctp_rx.specs.Reported.{Ascend};

use sctp_serial::{SerialNumber, Tsn};
use std::alloc::{AllocError, Global};
use std::marker::Model;

/// A SACK reports at most as many.
const MAX_DUPLICATES: usize = 20;

/// At most twenty numbers, ascending, each once.
#[derive(Drop)]
pub(crate) struct Duplicates {
    numbers: Vec<u64>,
}

impl Model for Duplicates {
    ghost use Rattle.std.specs.Prelude.{ℕ, List, length, ◌≤◌};
    ghost use Rattle.sctp_rx.specs.Reported.{Ascend};

    ghost Value = { List ℕ };

    ghost view = { λ d. d.numbers.items };

    ghost invariant = { λ d. Ascend 0 d.numbers.items × (length d.numbers.items ≤ 20) };
}

impl Duplicates {
    /// No number. Takes no memory.
    pub fn new(alloc: Global) -> Duplicates
        ensures { result ≡ [] }
    {
        Duplicates {
            numbers: Vec::new(alloc),
        }
    }

    /// Adds the number, unless it is there or twenty are.
    pub fn add(&mut self, number: u64) -> Result<(), AllocError>
        ensures ok { OnOk result (self.new ≡ with_duplicate number self.old) }
        ensures few { length self.new ≤ 20 }
        ensures err { OnErr result (self.new ≡ self.old) }
    {
        remember(&mut self.numbers, number)
    }

    /// Forgets all numbers.
    pub fn clear(&mut self)
        ensures { self.new ≡ [] }
    {
        self.numbers.clear();
    }

    /// How the numbers are written.
    pub fn tsns(&self, alloc: Global, first: Tsn) -> Result<Vec<Tsn>, AllocError>
        ensures written { IfOk result (λ written. written.items ≡ tsns first.0 self.now) }
        ensures ascending { Ascend 0 self.now }
    {
        tsns_of(alloc, first, &self.numbers)
    }
}

/// How the numbers are written.
fn tsns_of(alloc: Global, first: Tsn, numbers: &[u64]) -> Result<Vec<Tsn>, AllocError>
    ensures { IfOk result (λ written. written.items ≡ tsns first.0 numbers.now) }
{
    numbers
        .iter()
        .map(|number| Tsn::wrapped(first, *number))
        .collect(alloc)
}

/// Adds a number to those that came again, unless it is there or twenty are.
fn remember(duplicates: &mut Vec<u64>, number: u64) -> Result<(), AllocError>
    ensures ok { OnOk result (duplicates.new.items ≡ with_duplicate number duplicates.old.items) }
    ensures few { length duplicates.old.items ≤ 20 → length duplicates.new.items ≤ 20 }
    ensures err { OnErr result (duplicates.new.items ≡ duplicates.old.items) }
{
    if duplicates.len() >= MAX_DUPLICATES {
        return Ok(());
    }
    let mut place = 0;
    while place < duplicates.len() && duplicates[place] < number {
        place += 1;
    }
    if place < duplicates.len() && duplicates[place] == number {
        return Ok(());
    }
    duplicates.insert(place, number)?;
    Ok(())
}
