//! The streams that a reset has to go over.

ghost use Rattle.std.specs.Prelude.{◌≡◌, ℕ, ◌≤◌, true, false, cond, [], None, Some, is_some, IfOk, map, filter};
ghost use Rattle.std.specs.Map.{lookup, keys_of};
ghost use Rattle.std.specs.Ordering.{nat_cmp};
ghost use Rattle.std.specs.BTreeMap.{is_at};
ghost use Rattle.sctp_tx_queue.specs.Restarted.{is_among, may_differ, is_restarted, Joins, JoinsAll, after_reset};

use crate::send_queue::stream::Stream;
use sctp_serial::StreamId;
use sctp_stream_scheduler::StreamScheduler;
use std::alloc::{AllocError, Global};
use std::collections::{BTreeMap, BTreeSet};
use std::marker::Model;

/// The streams that may have changed since the last reset. Where memory lacks for them they aren't known any more: then any
/// stream may have changed.
#[derive(Drop)]
pub struct ChangedStreams {
    ids: Option<BTreeSet<u16>>,
}

impl Model for ChangedStreams {
    ghost use Rattle.std.specs.Prelude.{List, ℕ, Option, option_map};

    ghost Value = { Option (List ℕ) };

    ghost view = { λ c. option_map (λ ids. ids.keys) c.ids };
}

/// Adds a stream, unless memory lacks. True says that it is there.
fn add_to(ids: &mut BTreeSet<u16>, id: StreamId) -> bool
    ensures { result ≡ true → ((k : ℕ) → is_among k ids.new.keys ≡ cond (is_at (nat_cmp id.0) k) true (is_among k ids.old.keys)) }
{
    match ids.insert(id.0) {
        Ok(_) => true,
        Err(_) => false,
    }
}

/// Those that are streams, by ascending id.
fn present(
    alloc: Global,
    ids: &BTreeSet<u16>,
    streams: &BTreeMap<u16, Stream>,
) -> Result<Vec<StreamId>, AllocError>
    ensures { IfOk result (λ found. map (λ id. id.0) found.items ≡ filter (λ k. is_some (lookup (is_at (nat_cmp k)) streams.now.entries)) ids.now.keys) }
{
    let mut found = Vec::new(alloc);
    for id in ids {
        if streams.contains_key(id) {
            found.push(StreamId(*id))?;
        }
    }
    Ok(found)
}

/// All streams, by ascending id.
fn stream_ids(alloc: Global, streams: &BTreeMap<u16, Stream>) -> Result<Vec<StreamId>, AllocError>
    ensures { IfOk result (λ ids. map (λ id. id.0) ids.items ≡ keys_of streams.now.entries) }
{
    let mut ids = Vec::new(alloc);
    for (id, _) in streams {
        ids.push(StreamId(*id))?;
    }
    Ok(ids)
}

impl ChangedStreams {
    /// None has changed.
    pub(crate) fn none(alloc: Global) -> ChangedStreams
        ensures { result ≡ Some [] }
    {
        ChangedStreams {
            ids: Some(BTreeSet::new(alloc)),
        }
    }

    /// Any may have changed.
    pub(crate) fn any() -> ChangedStreams
        ensures { result ≡ None }
    {
        ChangedStreams { ids: None }
    }

    /// Those after a reset, where it is known whether all streams are as it leaves them.
    pub(crate) fn after_reset(alloc: Global, are_settled: bool) -> ChangedStreams
        ensures { result ≡ after_reset are_settled }
    {
        if are_settled {
            ChangedStreams::none(alloc)
        } else {
            ChangedStreams::any()
        }
    }

    /// A stream may have changed.
    pub(crate) fn add(&mut self, id: StreamId)
        ensures { Joins true id.0 self.old self.new }
    {
        let Some(ids) = &mut self.ids else {
            return;
        };
        if !add_to(ids, id) {
            self.ids = None;
        }
    }

    /// A stream is to change. One that isn't as a restart leaves it is there.
    #[inline(always)]
    pub(crate) fn add_first(&mut self, id: StreamId, stream: &Stream)
        ensures { Joins (is_restarted stream.now) id.0 self.old self.new }
    {
        if stream.is_restarted() {
            self.add(id);
        }
    }

    /// These streams may have changed.
    pub(crate) fn add_all(&mut self, ids: &[StreamId])
        ensures { JoinsAll (map (λ id. id.0) ids.now) self.old self.new }
    {
        for id in ids {
            self.add(*id);
        }
    }

    /// Whether they are known, and fewer than this.
    pub(crate) fn are_fewer(&self, count: usize) -> bool {
        match &self.ids {
            Some(ids) => ids.len() < count,
            None => false,
        }
    }

    /// The active streams join, if they are fewer than `limit`. True says that they did, and that all are fewer than that.
    pub(crate) fn join_active(
        &mut self,
        alloc: Global,
        scheduler: &StreamScheduler,
        limit: usize,
    ) -> Result<bool, AllocError>
        ensures kept { JoinsAll [] self.old self.new }
        ensures joined { IfOk result (λ are_few. are_few ≡ true → JoinsAll (keys_of scheduler.now.times) self.old self.new) }
    {
        if scheduler.active_count() >= limit {
            return Ok(false);
        }
        let active = scheduler.active_ids(alloc)?;
        self.add_all(&active);
        Ok(self.are_fewer(limit))
    }

    /// Those of these streams that may have changed, by ascending id.
    pub(crate) fn of(
        &self,
        alloc: Global,
        streams: &BTreeMap<u16, Stream>,
    ) -> Result<Vec<StreamId>, AllocError>
        ensures { IfOk result (λ ids. map (λ id. id.0) ids.items ≡ filter (may_differ self.now) (keys_of streams.now.entries)) }
    {
        // (read for their clauses: the ids ascend)
        let _count = streams.len();
        match &self.ids {
            Some(ids) => {
                let _known = ids.len();
                present(alloc, ids, streams)
            }
            None => stream_ids(alloc, streams),
        }
    }
}
