//! Streams with unordered messages, by their ids.

ghost use Rattle.std.specs.Prelude.{◌≡◌, ◌<◌, ◌≤◌, ◌^◌, [], true, map, IfSome, IfNone, IfOk};
ghost use Rattle.std.specs.List.Sorted.{IsStrictlySortedBy};
ghost use Rattle.std.specs.Map.{keys_of};
ghost use Rattle.std.specs.Ordering.{nat_cmp};
ghost use Rattle.sctp_state.specs.Validity.{rises_from, unordered_ids};
ghost use Rattle.sctp_fragments.specs.ReassemblyKey.{rank_at};
ghost use Rattle.sctp_reassembly.specs.Delivery.{fresh_unordered, held_from};
ghost use Rattle.sctp_reassembly.specs.UnorderedByTsn.{BeginsFrom};
ghost use Rattle.sctp_reassembly.specs.ReassemblyHandover.{unordered_records, unordered_entries};
ghost use Rattle.sctp_reassembly.specs.ReassemblyStreams.{unordered_bytes, unordered_fragments, stream_at, put_stream};

use crate::reassembly_stream::ReassemblyStream;
use crate::stream_map::StreamMap;
use crate::unordered_stream::UnorderedStream;
use sctp_fragments::ReassemblyKey;
use sctp_serial::StreamId;
use sctp_state::api::handover::HandoverUnorderedStream;
use std::alloc::{AllocError, Global};
use std::collections::BTreeMap;

/// Streams whose messages become ready when they are complete.
pub type UnorderedStreams<K> = StreamMap<UnorderedStream<K>>;

impl<K: ReassemblyKey> StreamMap<UnorderedStream<K>> {
    /// The streams of a handover record, whose ids rise.
    pub fn restored(
        alloc: Global,
        records: &[HandoverUnorderedStream],
    ) -> Result<UnorderedStreams<K>, AllocError>
        requires { rises_from 0 (unordered_ids records.now) ≡ true }
        ensures { IfOk result (λ streams. streams ≡ unordered_entries records.now) }
    {
        Ok(StreamMap {
            alloc,
            streams: read(alloc, records)?,
            bytes: 0,
            fragments: 0,
        })
    }

    /// The streams in a handover record.
    pub fn handed_over(&self, alloc: Global) -> Result<Vec<HandoverUnorderedStream>, AllocError>
        ensures value { IfOk result (λ records. records.items ≡ unordered_records self.now) }
        ensures rises { IfOk result (λ records. rises_from 0 (unordered_ids records.items) ≡ true) }
    {
        records(alloc, &self.streams)
    }

    /// The key of the stream's first fragment.
    pub fn first(&self, id: StreamId) -> Option<K>
        ensures some { IfSome result (λ k. BeginsFrom (rank_at K.number K.index k) (stream_at fresh_unordered id.0 self.now).held) }
        ensures none { IfNone result ((stream_at fresh_unordered id.0 self.now).held ≡ []) }
    {
        match self.streams.get(&id.0) {
            Some(stream) => stream.first(),
            None => None,
        }
    }

    /// The streams are in the order of their ids.
    pub fn rises(&self)
        ensures { IsStrictlySortedBy nat_cmp (keys_of self.now) }
    {
        // what a map keeps is known once it is read
        let _count = self.streams.len();
    }

    /// Drops the fragments of a stream before the key. Gives the key of the first one that is left.
    pub fn forward_to(&mut self, id: StreamId, first: K) -> Option<K>
        ensures value { self.new ≡ put_stream id.0 (held_from (rank_at K.number K.index first) (stream_at fresh_unordered id.0 self.old)) self.old }
        ensures bytes { unordered_bytes self.new ≤ unordered_bytes self.old }
        ensures fragments { unordered_fragments self.new ≤ unordered_fragments self.old }
        ensures some { IfSome result (λ k. BeginsFrom (rank_at K.number K.index k) (stream_at fresh_unordered id.0 self.new).held) }
        ensures none { IfNone result ((stream_at fresh_unordered id.0 self.new).held ≡ []) }
    {
        let Some(stream) = self.streams.get_mut(&id.0) else {
            return None;
        };
        let before = stream.queued_bytes();
        let fragments_before = stream.held_fragments();
        stream.forward_to(first);
        self.bytes = self.bytes - before + stream.queued_bytes();
        self.fragments = self.fragments - fragments_before + stream.held_fragments();
        stream.first()
    }

    /// Drops the fragments of all streams before the key.
    pub fn forward_all(&mut self, first: K)
        ensures value { self.new ≡ map (λ e. (e.0, held_from (rank_at K.number K.index first) e.1)) self.old }
        ensures bytes { unordered_bytes self.new ≤ unordered_bytes self.old }
        ensures fragments { unordered_fragments self.new ≤ unordered_fragments self.old }
    {
        self.streams.retain(|_, stream| {
            stream.forward_to(first);
            true
        });
        self.bytes = bytes_in(&self.streams);
        self.fragments = fragments_in(&self.streams);
    }
}

fn bytes_in<K: ReassemblyKey>(streams: &BTreeMap<u16, UnorderedStream<K>>) -> usize
    requires { unordered_bytes streams.now.entries < 2 ^ 64 }
    ensures { result ≡ unordered_bytes streams.now.entries }
{
    streams.values().map(|stream| stream.queued_bytes()).sum()
}

fn fragments_in<K: ReassemblyKey>(streams: &BTreeMap<u16, UnorderedStream<K>>) -> usize
    requires { unordered_fragments streams.now.entries < 2 ^ 64 }
    ensures { result ≡ unordered_fragments streams.now.entries }
{
    streams.values().map(|stream| stream.held_fragments()).sum()
}

/// The streams in a handover record.
fn records<K: ReassemblyKey>(
    alloc: Global,
    streams: &BTreeMap<u16, UnorderedStream<K>>,
) -> Result<Vec<HandoverUnorderedStream>, AllocError>
    ensures value { IfOk result (λ records. records.items ≡ unordered_records streams.now.entries) }
    ensures rises { IfOk result (λ records. rises_from 0 (unordered_ids records.items) ≡ true) }
{
    // (what a map keeps is known once it is read)
    let _count = streams.len();
    let mut records = Vec::new(alloc);
    for (id, _) in streams {
        records.push(HandoverUnorderedStream { id: *id })?;
    }
    Ok(records)
}

/// The streams of a handover record.
fn read<K: ReassemblyKey>(
    alloc: Global,
    records: &[HandoverUnorderedStream],
) -> Result<BTreeMap<u16, UnorderedStream<K>>, AllocError>
    requires { rises_from 0 (unordered_ids records.now) ≡ true }
    ensures { IfOk result (λ streams. streams.entries ≡ unordered_entries records.now) }
{
    let mut streams = BTreeMap::new(alloc);
    for record in records {
        streams.insert(record.id, UnorderedStream::new(alloc))?;
    }
    Ok(streams)
}
