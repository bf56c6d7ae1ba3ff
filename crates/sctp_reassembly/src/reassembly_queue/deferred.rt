//! A reset that is deferred.

ghost use Rattle.std.specs.Prelude.{◌≡◌, ◌==◌, ◌+◌, ◌<◌, ◌^◌, ◌++◌, ◌∷◌, [], suc, nat_lt, nat_le, length, map, IfOk, OnOk, OnErr};
ghost use Rattle.std.specs.List.{sum_by};
ghost use Rattle.sctp_reassembly.specs.ReassemblyStreams.{is_named};
ghost use Rattle.sctp_reassembly.specs.Waiting.{waiting_of};

use crate::reassembly_queue::waiting::Waiting;
use crate::stream_id_set::StreamIdSet;
use sctp_serial::StreamId;
use std::alloc::{AllocError, Global};
use std::collections::VecDeque;
use std::marker::Model;

/// The streams that are to be reset once each TSN up to the last one came, and what waits for it.
#[derive(Drop)]
pub(crate) struct Deferred {
    last: u64,
    streams: StreamIdSet,
    waiting: VecDeque<Waiting>,
    bytes: usize,
    fragments: usize,
    // of forward points, with each point itself
    entries: usize,
}

/// No more entries of forward points wait, with each point itself.
const MOST_ENTRIES: usize = 65_536;

/// No more fragments wait.
const MOST_FRAGMENTS: usize = 1_024;

impl Model for Deferred {
    ghost use Rattle.std.specs.Prelude.{map};
    ghost use Rattle.sctp_reassembly.specs.ReassemblyQueue.{Deferred, IsDeferred};
    ghost use Rattle.sctp_reassembly.specs.Waiting.{waiting_of};

    ghost Value = { Deferred };

    ghost view = { λ d. record { last = d.last; streams = d.streams; waiting = map waiting_of d.waiting.items } };

    ghost invariant = { λ d. IsDeferred d.bytes d.fragments d.entries (map waiting_of d.waiting.items) };
}

impl Deferred {
    ghost use Rattle.sctp_reassembly.specs.ReassemblyQueue.{waiting_bytes, waiting_fragments, waiting_number, waiting_entries, most_waiting_entries, most_waiting_fragments, AreSmall};

    /// A reset for which nothing waits.
    pub fn new(alloc: Global, last: u64, ids: &[StreamId]) -> Result<Deferred, AllocError>
        ensures { IfOk result (λ d. d ≡ record { last = last; streams = ids.now; waiting = [] }) }
    {
        Ok(Deferred {
            last,
            streams: StreamIdSet::new(alloc, ids)?,
            waiting: VecDeque::new(alloc),
            bytes: 0,
            fragments: 0,
            entries: 0,
        })
    }

    /// Whether the number is above the last one.
    pub fn is_behind(&self, number: u64) -> bool
        ensures { result ≡ nat_lt self.now.last number }
    {
        self.last < number
    }

    /// Whether the stream is to be reset.
    pub fn concerns(&self, id: StreamId) -> bool
        ensures { result ≡ is_named self.now.streams id.0 }
    {
        self.streams.is_named(id.0)
    }

    /// The streams that are to be reset; all are where none is named.
    pub fn streams(&self) -> &StreamIdSet
        ensures { result.now ≡ self.now.streams }
    {
        &self.streams
    }

    /// Whether nothing waits.
    pub fn is_empty(&self) -> bool
        ensures { result ≡ (length self.now.waiting == 0) }
    {
        self.waiting.is_empty()
    }

    /// How many bytes of payload wait.
    pub fn total_bytes(&self) -> usize
        ensures { result ≡ sum_by waiting_bytes self.now.waiting }
    {
        self.bytes
    }

    /// How many fragments wait.
    pub fn held_fragments(&self) -> usize
        ensures { result ≡ sum_by waiting_fragments self.now.waiting }
    {
        self.fragments
    }

    /// Has it wait behind the others. Without memory nothing changes.
    pub fn push(&mut self, waiting: Waiting) -> Result<(), AllocError>
        requires room { sum_by waiting_bytes self.old.waiting + waiting_bytes (waiting_of waiting) < 2 ^ 64 }
        requires fragments { sum_by waiting_fragments self.old.waiting + waiting_fragments (waiting_of waiting) < 2 ^ 64 }
        requires small { waiting_number (waiting_of waiting) < 2 ^ 63 }
        ensures ok { OnOk result (self.new ≡ record self.old { waiting = self.old.waiting ++ waiting_of waiting ∷ [] }) }
        ensures err { OnErr result (self.new ≡ self.old) }
    {
        let bytes = bytes_of(&waiting);
        let fragments = fragments_of(&waiting);
        let entries = entries_of(&waiting);
        self.waiting.push_back(waiting)?;
        self.bytes += bytes;
        self.fragments += fragments;
        self.entries = self.entries.saturating_add(entries);
        Ok(())
    }

    /// Whether a forward point with so many entries may wait too.
    pub fn has_room_for(&self, count: usize) -> bool
        ensures { result ≡ nat_le (sum_by waiting_entries self.now.waiting + suc count) most_waiting_entries }
    {
        self.entries < MOST_ENTRIES && count < MOST_ENTRIES - self.entries
    }

    /// Whether one fragment more may wait.
    pub fn has_room_for_fragment(&self) -> bool
        ensures { result ≡ nat_lt (sum_by waiting_fragments self.now.waiting) most_waiting_fragments }
    {
        self.fragments < MOST_FRAGMENTS
    }

    /// What waits, in order.
    pub fn into_waiting(self) -> VecDeque<Waiting>
        ensures value { map waiting_of result.items ≡ self.waiting }
        ensures small { AreSmall (map waiting_of result.items) }
    {
        self.waiting
    }
}

ghost use Rattle.sctp_reassembly.specs.ReassemblyQueue.{waiting_in, waiting_bytes, waiting_fragments, waiting_entries};

/// Whether nothing waits for a reset.
pub(crate) fn none_waits(deferred: &Option<Deferred>) -> bool
    ensures { result ≡ (length (waiting_in deferred.now) == 0) }
{
    match deferred {
        Some(deferred) => deferred.is_empty(),
        None => true,
    }
}

fn entries_of(waiting: &Waiting) -> usize
    ensures { result ≡ waiting_entries (waiting_of waiting.now) }
{
    match waiting {
        Waiting::Fragment(_, _) => 0,
        Waiting::Point(_, entries) => entries.len() + 1,
    }
}

fn fragments_of(waiting: &Waiting) -> usize
    ensures { result ≡ waiting_fragments (waiting_of waiting.now) }
{
    match waiting {
        Waiting::Fragment(_, _) => 1,
        Waiting::Point(_, _) => 0,
    }
}

fn bytes_of(waiting: &Waiting) -> usize
    ensures { result ≡ waiting_bytes (waiting_of waiting.now) }
{
    match waiting {
        Waiting::Fragment(_, fragment) => fragment.payload.len(),
        Waiting::Point(_, _) => 0,
    }
}
