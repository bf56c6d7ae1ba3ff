//! Streams with unordered messages, without interleaving: forward points find their fragments by TSN.

ghost use Rattle.std.specs.Prelude.{◌≡◌, ◌+◌, ◌<◌, ◌≤◌, ◌^◌, ◌++◌, ◌⊎◌, ℕ, [], true, false, length, map, OnOk, OnErr, List, IfOk, IfSome, IfNone};
ghost use Rattle.sctp_serial.specs.Unwrapped.{origin};
ghost use Rattle.sctp_fragments.specs.ReassemblyKey.{pair_rank};
ghost use Rattle.sctp_fragments.specs.Held.{Held};
ghost use Rattle.sctp_reassembly.specs.Delivery.{fresh_unordered, held_from};
ghost use Rattle.sctp_reassembly.specs.UnorderedByTsn.{IsNoted, BeginsFrom, HasNote, AreNoted, OthersAreNoted, KeepsOthers, NoneBelow, drop_below};
ghost use Rattle.sctp_reassembly.specs.ReassemblyHandover.{unordered_records, unordered_entries};
ghost use Rattle.sctp_reassembly.specs.ReassemblyStreams.{unordered_bytes, unordered_fragments, is_named, stream_at};
ghost use Rattle.sctp_state.specs.Validity.{rises_from, unordered_ids};

use crate::near::WireNumber;
use crate::ordered_stream::FIRST;
use crate::ready_messages::ReadyMessages;
use crate::unordered_stream::UnorderedStream;
use crate::unordered_streams::UnorderedStreams;
use sctp_chunk::Data;
use sctp_fragments::TraditionalKey;
use sctp_serial::StreamId;
use sctp_state::api::handover::HandoverUnorderedStream;
use std::alloc::{AllocError, Global};
use std::collections::BTreeMap;
use std::marker::Model;

/// The streams, with a note of each that holds a fragment, by the TSN of its first one: a forward point looks at those
/// alone that hold something below it. Where a note is missing, for want of memory, since another stream's has its TSN, or
/// since a key has another number than unordered messages have, the next point looks at all streams, and makes the notes anew.
#[derive(Drop)]
pub struct UnorderedByTsn {
    alloc: Global,
    streams: UnorderedStreams<TraditionalKey>,
    notes: BTreeMap<u64, u16>,
    is_noted: bool,
}

impl Model for UnorderedByTsn {
    ghost use Rattle.std.specs.Prelude.{◌≡◌, true};
    ghost use Rattle.sctp_reassembly.specs.Delivery.{UnorderedStream};
    ghost use Rattle.sctp_reassembly.specs.UnorderedByTsn.{AreNoted};
    ghost use Rattle.sctp_reassembly.specs.ReassemblyStreams.{Entries};

    ghost Value = { Entries UnorderedStream };

    ghost view = { λ s. s.streams };

    ghost invariant = { λ s. s.is_noted ≡ true → AreNoted s.notes.entries s.streams };
}

/// Takes away the note by the key that was the stream's first one.
fn take_note(notes: &mut BTreeMap<u64, u16>, id: StreamId, first: Option<TraditionalKey>)
    ensures { KeepsOthers id.0 notes.old.entries notes.new.entries }
{
    if let Some(key) = first {
        if notes.get(&key.index) == Some(&id.0) {
            notes.remove(&key.index);
        }
    }
}

/// Makes the note of a stream by its first key, where it holds a fragment. Says no where memory lacks, or where it takes the
/// place of another stream's.
fn make_note(notes: &mut BTreeMap<u64, u16>, id: StreamId, first: Option<TraditionalKey>) -> bool
    ensures kept { result ≡ true → (note : ℕ × ℕ) → IsNoted notes.old.entries note → IsNoted notes.new.entries note }
    ensures made { result ≡ true → (hs : List Held) → IfSome first (λ k. BeginsFrom (pair_rank k.number k.index) hs) → IfNone first (hs ≡ []) → HasNote notes.new.entries id.0 hs }
{
    match first {
        Some(key) if key.number != FIRST => false,
        Some(key) => match notes.insert(key.index, id.0) {
            Ok(None) => true,
            Ok(Some(other)) => other == id.0,
            Err(_) => false,
        },
        None => true,
    }
}

/// Makes the note of a stream anew, whose first key was this one. Says whether all have theirs.
fn renew_note(
    is_noted: bool,
    streams: &UnorderedStreams<TraditionalKey>,
    notes: &mut BTreeMap<u64, u16>,
    id: StreamId,
    first: Option<TraditionalKey>,
) -> bool
    ensures { result ≡ true → (is_noted ≡ true) × (OthersAreNoted id.0 notes.old.entries streams.now → AreNoted notes.new.entries streams.now) }
{
    if !is_noted {
        return false;
    }
    let now = streams.first(id);
    if now != first {
        take_note(notes, id, first);
    }
    make_note(notes, id, now)
}

/// Makes the notes of all streams anew. Says whether all have theirs.
fn make_notes(
    streams: &BTreeMap<u16, UnorderedStream<TraditionalKey>>,
    notes: &mut BTreeMap<u64, u16>,
) -> bool
    ensures { result ≡ true → AreNoted notes.new.entries streams.now.entries }
{
    notes.clear();
    for (id, stream) in streams {
        if !make_note(notes, StreamId(*id), stream.first()) {
            return false;
        }
    }
    true
}

/// Whether no note is below the index.
fn is_none_below(notes: &BTreeMap<u64, u16>, index: u64) -> bool
    ensures { result ≡ true → NoneBelow (pair_rank origin index) notes.now.entries }
{
    match notes.first_key_value() {
        Some((least, _)) => index <= *least,
        None => true,
    }
}

/// Takes away the notes below the index. Where there are some, it takes memory.
fn take_below(
    alloc: Global,
    notes: &mut BTreeMap<u64, u16>,
    index: u64,
) -> Option<BTreeMap<u64, u16>>
    ensures parts { IfSome result (λ below. notes.old.entries ≡ below.entries ++ notes.new.entries) }
    ensures rest { IfSome result (λ below. NoneBelow (pair_rank origin index) notes.new.entries) }
    ensures kept { IfNone result (notes.new.entries ≡ notes.old.entries) }
{
    if is_none_below(notes, index) {
        return Some(BTreeMap::new(alloc));
    }
    match notes.split_off(&index) {
        Ok(rest) => Some(std::mem::replace(notes, rest)),
        Err(_) => None,
    }
}

/// Drops the fragments before the key, of the streams that have a note below it. Says whether these are all, and have theirs.
fn forward_noted(
    alloc: Global,
    is_noted: bool,
    streams: &mut UnorderedStreams<TraditionalKey>,
    notes: &mut BTreeMap<u64, u16>,
    first: TraditionalKey,
) -> bool
    ensures same { drop_below (pair_rank first.number first.index) streams.new ≡ drop_below (pair_rank first.number first.index) streams.old }
    ensures bytes { unordered_bytes streams.new ≤ unordered_bytes streams.old }
    ensures fragments { unordered_fragments streams.new ≤ unordered_fragments streams.old }
    ensures before { result ≡ true → is_noted ≡ true }
    ensures noted { AreNoted notes.old.entries streams.old → result ≡ true → AreNoted notes.new.entries streams.new }
    ensures done { AreNoted notes.old.entries streams.old → result ≡ true → streams.new ≡ drop_below (pair_rank first.number first.index) streams.old }
{
    if !is_noted || first.number != FIRST {
        return false;
    }
    let Some(below) = take_below(alloc, notes, first.index) else {
        return false;
    };
    for (_, id) in &below {
        let id = StreamId(*id);
        if !make_note(notes, id, streams.forward_to(id, first)) {
            return false;
        }
    }
    streams.rises();
    true
}

/// Takes away the notes of the streams that are named, or all where none is.
fn take_notes(
    streams: &UnorderedStreams<TraditionalKey>,
    notes: &mut BTreeMap<u64, u16>,
    ids: &[StreamId],
)
    ensures { (note : ℕ × ℕ) → is_named ids.now note.1 ≡ false → IsNoted notes.old.entries note → IsNoted notes.new.entries note }
{
    if ids.is_empty() {
        notes.clear();
        return;
    }
    for id in ids {
        take_note(notes, *id, streams.first(*id));
    }
}

impl UnorderedByTsn {
    ghost use Rattle.sctp_fragments.specs.Interval.{as_held};
    ghost use Rattle.sctp_reassembly.specs.Delivery.{unordered_arrival, ready_bytes, Extends};
    ghost use Rattle.sctp_reassembly.specs.InterruptedStreams.{unordered_arrival_in_part};
    ghost use Rattle.sctp_reassembly.specs.ReassemblyStreams.{set_stream, forget};

    /// No streams. Takes no memory.
    pub fn new(alloc: Global) -> UnorderedByTsn
        ensures { result ≡ [] }
    {
        UnorderedByTsn {
            alloc,
            streams: UnorderedStreams::new(alloc),
            notes: BTreeMap::new(alloc),
            is_noted: true,
        }
    }

    /// The streams of a handover record, whose ids rise.
    pub fn restored(
        alloc: Global,
        records: &[HandoverUnorderedStream],
    ) -> Result<UnorderedByTsn, AllocError>
        requires { rises_from 0 (unordered_ids records.now) ≡ true }
        ensures { IfOk result (λ streams. streams ≡ unordered_entries records.now) }
    {
        Ok(UnorderedByTsn {
            alloc,
            streams: UnorderedStreams::restored(alloc, records)?,
            notes: BTreeMap::new(alloc),
            is_noted: true,
        })
    }

    /// The streams in a handover record.
    pub fn handed_over(&self, alloc: Global) -> Result<Vec<HandoverUnorderedStream>, AllocError>
        ensures value { IfOk result (λ records. records.items ≡ unordered_records self.now) }
        ensures rises { IfOk result (λ records. rises_from 0 (unordered_ids records.items) ≡ true) }
    {
        self.streams.handed_over(alloc)
    }

    /// How many bytes of payload are held.
    pub fn total_bytes(&self) -> usize
        ensures { result ≡ unordered_bytes self.now }
    {
        self.streams.total_bytes()
    }

    /// How many fragments are held.
    pub fn held_fragments(&self) -> usize
        ensures { result ≡ unordered_fragments self.now }
    {
        self.streams.held_fragments()
    }

    /// Adds a fragment to its stream.
    #[tactic(auto, using(crate::proofs::ExtendsLemmas::extends_none))]
    pub fn add(
        &mut self,
        id: StreamId,
        tsn: u64,
        fragment: Data,
        ready: &mut ReadyMessages,
    ) -> Result<(), AllocError>
        requires room { unordered_bytes self.old + ready_bytes ready.old + length fragment.payload.items < 2 ^ 64 }
        requires fragments { unordered_fragments self.old + 1 < 2 ^ 64 }
        ensures ok { OnOk result (self.new ≡ set_stream fresh_unordered id.0 (unordered_arrival (as_held origin tsn fragment) (stream_at fresh_unordered id.0 self.old)).stream self.old) }
        ensures ready { OnOk result (ready.new ≡ ready.old ++ (unordered_arrival (as_held origin tsn fragment) (stream_at fresh_unordered id.0 self.old)).messages) }
        ensures err { OnErr result (((self.new ≡ self.old) × (ready.new ≡ ready.old)) ⊎ ((steps : ℕ) × ((self.new ≡ set_stream fresh_unordered id.0 (unordered_arrival_in_part steps (as_held origin tsn fragment) (stream_at fresh_unordered id.0 self.old)).stream self.old) × (ready.new ≡ ready.old ++ (unordered_arrival_in_part steps (as_held origin tsn fragment) (stream_at fresh_unordered id.0 self.old)).messages)))) }
        ensures kept { Extends ready.old ready.new }
        ensures bytes { unordered_bytes self.new + ready_bytes ready.new ≤ unordered_bytes self.old + ready_bytes ready.old + length fragment.payload.items }
        ensures fragments { unordered_fragments self.new ≤ unordered_fragments self.old + 1 }
    {
        let is_noted = self.is_noted;
        let first = self.streams.first(id);
        self.is_noted = false;
        self.streams
            .add(id, WireNumber::First, tsn, fragment, ready)?;
        self.is_noted = renew_note(is_noted, &self.streams, &mut self.notes, id, first);
        Ok(())
    }

    /// Forgets the streams that are named, or all where none is.
    pub fn forget(&mut self, ids: &[StreamId])
        ensures value { self.new ≡ forget ids.now self.old }
        ensures bytes { unordered_bytes self.new ≤ unordered_bytes self.old }
        ensures fragments { unordered_fragments self.new ≤ unordered_fragments self.old }
    {
        take_notes(&self.streams, &mut self.notes, ids);
        self.streams.forget(ids);
    }

    /// Drops the fragments of all streams before the key. Looks up each stream that holds one of them, and no other,
    /// where all have their notes.
    pub fn forward_all(&mut self, first: TraditionalKey)
        ensures value { self.new ≡ map (λ e. (e.0, held_from (pair_rank first.number first.index) e.1)) self.old }
        ensures bytes { unordered_bytes self.new ≤ unordered_bytes self.old }
        ensures fragments { unordered_fragments self.new ≤ unordered_fragments self.old }
    {
        if forward_noted(
            self.alloc,
            self.is_noted,
            &mut self.streams,
            &mut self.notes,
            first,
        ) {
            return;
        }
        self.streams.forward_all(first);
        self.is_noted = make_notes(&self.streams.streams, &mut self.notes);
    }
}
