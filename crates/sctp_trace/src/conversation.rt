//! Rows, and what became of each packet in them: a walk for each end finds it.

ghost use Rattle.std.specs.Prelude.{◌≡◌, ◌<◌, ◌+◌, take, length, IfOk, OnOk};
ghost use Rattle.sctp_trace.specs.Giving.{sending, times_given, HasSent, HasGiven};
ghost use Rattle.sctp_trace.specs.Followed.{HasWays, IsFollowed, ways_from};

use crate::rows::{End, Row, What};
use std::alloc::{AllocError, Global};
use std::collections::BTreeMap;

/// What became of the packets of one end, by their numbers: rows count from 0.
#[derive(Drop)]
pub struct Ways {
    /// The first row in which it was sent.
    pub sent: BTreeMap<usize, usize>,
    /// In how many rows it was given.
    pub given: BTreeMap<usize, usize>,
}

/// Rows, with what became of their packets.
#[derive(Drop)]
pub struct Conversation<'a> {
    pub rows: &'a [Row],
    pub a: Ways,
    pub b: Ways,
}

fn note_sending(
    sent: &mut BTreeMap<usize, usize>,
    rows: &[Row],
    from: End,
    at: usize,
) -> Result<(), AllocError>
    requires inside { at < length rows.now }
    requires before { HasSent (take at rows.now) from sent.old }
    ensures { OnOk result (HasSent (take (at + 1) rows.now) from sent.new) }
{
    let row = &rows[at];
    if let What::Sent(number, _, _) = &row.what {
        if row.sends(from, *number) {
            let first = sent.get(number).copied().unwrap_or(at);
            sent.insert(*number, first)?;
        }
    }
    Ok(())
}

fn note_giving(
    given: &mut BTreeMap<usize, usize>,
    rows: &[Row],
    from: End,
    at: usize,
) -> Result<(), AllocError>
    requires inside { at < length rows.now }
    requires before { HasGiven (take at rows.now) from given.old }
    ensures { OnOk result (HasGiven (take (at + 1) rows.now) from given.new) }
{
    let row = &rows[at];
    if let What::Given(number) = &row.what {
        if row.is_given(from, *number) {
            let times = given.get(number).copied().unwrap_or(0);
            given.insert(*number, times + 1)?;
        }
    }
    Ok(())
}

/// Walks the rows for the packets that this end sent.
fn follow(alloc: Global, rows: &[Row], from: End) -> Result<Ways, AllocError>
    ensures { IfOk result (HasWays rows.now from) }
{
    let mut sent = BTreeMap::new(alloc);
    let mut given = BTreeMap::new(alloc);
    for at in 0..rows.len() {
        note_sending(&mut sent, rows, from, at)?;
        note_giving(&mut given, rows, from, at)?;
    }
    Ok(Ways { sent, given })
}

impl<'a> Conversation<'a> {
    /// Follows the packets through the rows.
    pub fn of(alloc: Global, rows: &'a [Row]) -> Result<Conversation<'a>, AllocError>
        ensures rows { IfOk result (λ found. found.rows.now ≡ rows.now) }
        ensures followed { IfOk result IsFollowed }
    {
        let a = follow(alloc, rows, End::A)?;
        let b = follow(alloc, rows, End::B)?;
        Ok(Conversation { rows, a, b })
    }

    fn ways_from(&self, from: End) -> &Ways
        ensures { result.now ≡ ways_from from self.now }
    {
        match from {
            End::A => &self.a,
            End::B => &self.b,
        }
    }

    /// The row in which the end sends its packet of this number.
    pub fn sending(&self, from: End, number: usize) -> Option<usize>
        requires { IsFollowed self.now }
        ensures { result ≡ sending self.now.rows.now from number }
    {
        self.ways_from(from).sent.get(&number).copied()
    }

    /// In how many rows the packet of this number that the end sent is given: 0 where it was lost.
    pub fn times_given(&self, from: End, number: usize) -> usize
        requires { IsFollowed self.now }
        ensures { result ≡ times_given self.now.rows.now from number }
    {
        self.ways_from(from)
            .given
            .get(&number)
            .copied()
            .unwrap_or(0)
    }
}
