//! The set of the numbers that were seen.

ghost use Rattle.std.specs.Prelude.{◌≡◌, ◌==◌, ℕ, ◌+◌, ◌^◌, ◌<◌, ◌≤◌, ◌||◌, [], not, max, map, take, drop, nat_lt, nat_le, slice_get, IfOk, OnOk, OnErr, false};
ghost use Rattle.sctp_rx.specs.Seen.{AreRuns, last_above};
ghost use Rattle.sctp_rx.specs.SeenSteps.{Adds, Cuts, Passes, read, runs_of, run_at, is_held, first_with, last_with};
ghost use Rattle.sctp_rx.specs.Sack.{blocks_of, gap_ack_blocks};

use sctp_chunk::GapAckBlock;
use std::alloc::{AllocError, Global};
use std::collections::BTreeMap;
use std::marker::Model;

/// A SACK reports at most as many runs.
const MAX_BLOCKS: usize = 20;

/// So many runs are taken out one by one.
const FEW: usize = 8;

/// Every number up to a front, and the maximal runs above it: from the first number of each to its last.
#[derive(Drop)]
pub(crate) struct Seen {
    front: u64,
    runs: BTreeMap<u64, u64>,
}

impl Model for Seen {
    ghost use Rattle.sctp_rx.specs.Seen.{Seen};
    ghost use Rattle.sctp_rx.specs.SeenSteps.{runs_of, IsSeen};

    ghost Value = { Seen };

    ghost view = { λ s. record { front = s.front; runs = runs_of s.runs.entries } };

    ghost invariant = { λ s. IsSeen (record { front = s.front; runs = runs_of s.runs.entries }) };
}

impl Seen {
    ghost use Rattle.sctp_rx.specs.Seen.{contains, has_gap, add, up_to, IsInRuns, highest};

    /// Every number up to this one.
    pub fn up_to(alloc: Global, front: u64) -> Seen
        requires { (0 < front) × (front < 2 ^ 63) }
        ensures { result ≡ record { front = front; runs = [] } }
    {
        Seen {
            front,
            runs: BTreeMap::new(alloc),
        }
    }

    /// The end of the unbroken beginning.
    pub fn front(&self) -> u64
        ensures value { result ≡ self.now.front }
        ensures bound { result < 2 ^ 63 }
    {
        self.front
    }

    /// Whether a number is missing below the greatest one.
    pub fn has_gap(&self) -> bool
        ensures { result ≡ has_gap self.now }
    {
        !self.runs.is_empty()
    }

    /// The runs as a SACK reports them, by their offsets from the front: the first twenty but those that end more than
    /// 65,535 above it.
    pub fn gap_ack_blocks(&self, alloc: Global) -> Result<Vec<GapAckBlock>, AllocError>
        ensures { IfOk result (λ blocks. blocks.items ≡ gap_ack_blocks self.now) }
    {
        let runs = first_runs(alloc, &self.runs)?;
        blocks_of(alloc, self.front, &runs)
    }

    /// Has seen every number up to this one, and no other.
    pub fn restart(&mut self, front: u64)
        requires { (0 < front) × (front < 2 ^ 63) }
        ensures { self.new ≡ record { front = front; runs = [] } }
    {
        self.front = front;
        self.runs.clear();
    }

    /// Adds the number, and says whether it is new.
    pub fn insert(&mut self, number: u64) -> Result<bool, AllocError>
        requires { number < 2 ^ 63 }
        ensures answer { IfOk result (λ is_new. is_new ≡ not (contains self.old number)) }
        ensures numbers { OnOk result ((m : ℕ) → contains self.new m ≡ (m == number || contains self.old m)) }
        ensures value { OnOk result (self.new ≡ add number self.old) }
        ensures runs { IsInRuns self.new }
        ensures highest { OnOk result (highest self.new ≡ max number (highest self.old)) }
        ensures onward { self.old.front ≤ self.new.front }
        ensures held { IfOk result (λ is_new. is_new ≡ false → self.new ≡ self.old) }
        ensures err { OnErr result (self.new ≡ self.old) }
    {
        if number <= self.front {
            return Ok(false);
        }
        if number == self.front + 1 {
            self.front = pass(&mut self.runs, number);
            return Ok(true);
        }
        let is_new = add_to(&mut self.runs, number)?;
        Ok(is_new)
    }

    /// Adds every number up to this one, and says whether the front moved.
    pub fn forward(&mut self, number: u64) -> bool
        requires { number < 2 ^ 63 }
        ensures answer { result ≡ nat_lt self.old.front number }
        ensures numbers { (m : ℕ) → contains self.new m ≡ (nat_le m number || contains self.old m) }
        ensures value { self.new ≡ up_to number self.old }
        ensures runs { IsInRuns self.new }
        ensures highest { highest self.new ≡ max number (highest self.old) }
        ensures onward { self.old.front ≤ self.new.front }
    {
        if number <= self.front {
            return false;
        }
        self.front = pass_far(&mut self.runs, number);
        true
    }
}

/// The first twenty runs.
fn first_runs(alloc: Global, runs: &BTreeMap<u64, u64>) -> Result<Vec<(u64, u64)>, AllocError>
    ensures { IfOk result (λ first. first.items ≡ take 20 (map read runs.now.entries)) }
{
    runs.iter()
        .map(|(first, last)| (*first, *last))
        .take(MAX_BLOCKS)
        .collect(alloc)
}

/// Runs as offsets from the front, but those whose offsets don't have 16 bits.
fn blocks_of(alloc: Global, front: u64, runs: &[(u64, u64)]) -> Result<Vec<GapAckBlock>, AllocError>
    requires { AreRuns front (runs_of runs.now) }
    ensures { IfOk result (λ blocks. blocks.items ≡ blocks_of front (runs_of runs.now)) }
{
    let mut blocks = Vec::new(alloc);
    for i in 0..runs.len() {
        let (first, last) = runs[i];
        let end = last - front;
        if end <= 65_535 {
            let start = first - front;
            blocks.push(GapAckBlock {
                start: start as u16,
                end: end as u16,
            })?;
        }
    }
    Ok(blocks)
}

/// The first run.
fn first_run(runs: &BTreeMap<u64, u64>) -> Option<(u64, u64)>
    ensures { result ≡ slice_get runs.now.entries 0 }
{
    match runs.first_key_value() {
        Some((first, last)) => Some((*first, *last)),
        None => None,
    }
}

fn drop_first(runs: &mut BTreeMap<u64, u64>)
    ensures { runs.new.entries ≡ drop 1 runs.old.entries }
{
    runs.pop_first();
}

/// Takes out the runs that a front at this point reaches, and gives the point to which it moves.
fn pass(runs: &mut BTreeMap<u64, u64>, mut point: u64) -> u64
    requires runs { AreRuns 0 (runs_of runs.old.entries) }
    requires small { max point (last_above 0 (runs_of runs.old.entries)) < 2 ^ 63 }
    ensures { Passes point (runs_of runs.old.entries) result (runs_of runs.new.entries) }
{
    while let Some((first, last)) = first_run(runs) {
        if point + 1 < first {
            break;
        }
        drop_first(runs);
        point = point.max(last);
    }
    point
}

/// Whether a front at this point reaches more runs than are worth to be taken out one by one.
fn reaches_many(runs: &BTreeMap<u64, u64>, point: u64) -> bool {
    match runs.keys().nth(FEW) {
        Some(first) => *first <= point,
        None => false,
    }
}

/// Takes out the runs that begin at the point or below it, by one cut, and gives the point to which a front there moves by
/// them. Without memory none goes.
fn cut(runs: &mut BTreeMap<u64, u64>, point: u64) -> u64
    requires runs { AreRuns 0 (runs_of runs.old.entries) }
    requires small { point < 2 ^ 63 }
    ensures { Cuts point (runs_of runs.old.entries) result (runs_of runs.new.entries) }
{
    let Ok(rest) = runs.split_off(&(point + 1)) else {
        return point;
    };
    let mut low = std::mem::replace(runs, rest);
    match low.pop_last() {
        Some((_, last)) => point.max(last),
        None => point,
    }
}

/// Takes out the runs that a front at this point reaches, by one cut where they are many, and gives the point to which it moves.
fn pass_far(runs: &mut BTreeMap<u64, u64>, point: u64) -> u64
    requires runs { AreRuns 0 (runs_of runs.old.entries) }
    requires small { max point (last_above 0 (runs_of runs.old.entries)) < 2 ^ 63 }
    ensures { Passes point (runs_of runs.old.entries) result (runs_of runs.new.entries) }
{
    if !reaches_many(runs, point) {
        return pass(runs, point);
    }
    let behind = cut(runs, point);
    pass(runs, behind)
}

/// The last run that begins at the number or before it.
fn run_at(runs: &BTreeMap<u64, u64>, number: u64) -> Option<(u64, u64)>
    ensures { result ≡ run_at number runs.now.entries }
{
    match runs.range(..=number).next_back() {
        Some((first, last)) => Some((*first, *last)),
        None => None,
    }
}

fn is_held(run: Option<(u64, u64)>, number: u64) -> bool
    ensures { result ≡ is_held number run }
{
    match run {
        Some((_, last)) => number <= last,
        None => false,
    }
}

/// Where the number's run begins: at the run before it, if that ends right before it.
fn first_with(run: Option<(u64, u64)>, number: u64) -> u64
    requires { 0 < number }
    ensures { result ≡ first_with number run }
{
    match run {
        Some((first, last)) => { if last == number - 1 { first } else { number } }
        None => number,
    }
}

/// Where the number's run ends: with the run behind it, if that begins right behind it.
fn last_with(runs: &BTreeMap<u64, u64>, number: u64) -> u64
    requires { number < 2 ^ 63 }
    ensures { result ≡ last_with number runs.now.entries }
{
    match runs.get(&(number + 1)) {
        Some(last) => *last,
        None => number,
    }
}

/// Adds a number, and says whether it is new.
fn add_to(runs: &mut BTreeMap<u64, u64>, number: u64) -> Result<bool, AllocError>
    requires within { (0 < number) × (number < 2 ^ 63) }
    requires runs { AreRuns 0 (runs_of runs.old.entries) }
    ensures ok { IfOk result (λ is_new. Adds number (runs_of runs.old.entries) is_new (runs_of runs.new.entries)) }
    ensures held { IfOk result (λ is_new. is_new ≡ false → runs.new.entries ≡ runs.old.entries) }
    ensures err { OnErr result (runs.new.entries ≡ runs.old.entries) }
{
    let run = run_at(runs, number);
    if is_held(run, number) {
        return Ok(false);
    }
    let last = last_with(runs, number);
    runs.insert(first_with(run, number), last)?;
    if number < last {
        runs.remove(&(number + 1));
    }
    Ok(true)
}
