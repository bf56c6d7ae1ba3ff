//! Entries of forward points, which ascend by stream, so that one is found by halves. Each has the number of its last item.

ghost use Rattle.std.specs.Prelude.{◌≡◌, ◌+◌, ◌<◌, ◌≤◌, length, map, option_map, true, false, IfOk, OnOk, OnErr, ◌&&◌};
ghost use Rattle.std.specs.List.{list_any};
ghost use Rattle.sctp_tx_outstanding.specs.Forward.{entry_of, entry_in, is_before, is_alike, entries_before, size_with, is_next};
ghost use Rattle.sctp_tx_outstanding.specs.Touched.{entries_in, put_touched, touched_with};
ghost use Rattle.sctp_tx_outstanding.specs.Entries.{ssn_skip, mid_skip};
ghost use Rattle.sctp_tx_outstanding.specs.Point.{Ascend};

use crate::item::Item;
use sctp_chunk::SkippedStream;
use sctp_serial::{Mid, Ssn, StreamId, StreamKey};
use std::alloc::{AllocError, Global};

/// The number of the last message of a stream, among its ordered or its unordered ones, that a forward point touches.
#[derive(Clone, Copy)]
pub struct SkipEntry {
    pub stream_id: StreamId,
    pub is_unordered: bool,
    /// The MID, where messages are interleaved, or the SSN.
    pub number: u32,
}

impl SkipEntry {
    /// It as FORWARD-TSN has it.
    pub(crate) fn ssn_skip(&self) -> SkippedStream
        ensures { result ≡ ssn_skip self.now }
    {
        SkippedStream::ForwardTsn(self.stream_id, Ssn((self.number % 65_536) as u16))
    }

    /// It as I-FORWARD-TSN has it.
    pub(crate) fn mid_skip(&self) -> SkippedStream
        ensures { result ≡ mid_skip self.now }
    {
        SkippedStream::IForwardTsn(
            StreamKey::new(self.is_unordered, self.stream_id),
            Mid(self.number),
        )
    }

    fn is_before(&self, other: &SkipEntry) -> bool
        ensures { result ≡ is_before self.now other.now }
    {
        self.stream_id.0 < other.stream_id.0
            || (self.stream_id.0 == other.stream_id.0 && !self.is_unordered && other.is_unordered)
    }

    fn is_alike(&self, other: &SkipEntry) -> bool
        ensures { result ≡ is_alike self.now other.now }
    {
        self.stream_id.0 == other.stream_id.0 && self.is_unordered == other.is_unordered
    }
}

/// An entry, and the number of the last item that has it.
#[derive(Clone, Copy)]
pub struct Touched {
    pub entry: SkipEntry,
    pub last: u64,
}

/// What an item says of its stream.
fn entry_of(item: &Item, is_interleaved: bool) -> Option<SkipEntry>
    ensures { result ≡ entry_of is_interleaved item.now }
{
    let fragment = item.data();
    if !is_interleaved && fragment.stream_key.is_unordered() {
        return None;
    }
    Some(SkipEntry {
        stream_id: fragment.stream_key.id(),
        is_unordered: fragment.stream_key.is_unordered(),
        number: if is_interleaved {
            fragment.mid.0
        } else {
            u32::from(fragment.ssn.0)
        },
    })
}

/// How many entries stand before the place of this one, found by halves.
fn place_of(touched: &[Touched], entry: SkipEntry) -> usize
    requires { Ascend (entries_in touched.now) }
    ensures place { result ≡ entries_before entry (entries_in touched.now) }
    ensures within { result ≤ length touched.now }
{
    touched.partition_point(|other| other.entry.is_before(&entry))
}

/// Whether an entry of the same stream and order is among these.
fn is_named(touched: &[Touched], entry: SkipEntry) -> bool
    requires { Ascend (entries_in touched.now) }
    ensures { result ≡ list_any (is_alike entry) (entries_in touched.now) }
{
    match touched.get(place_of(touched, entry)) {
        Some(other) => entry.is_alike(&other.entry),
        None => false,
    }
}

/// Puts the entry at its place, or in the place of the one of its stream and order. Without memory nothing changes.
fn put(touched: &mut Vec<Touched>, one: Touched) -> Result<(), AllocError>
    requires { Ascend (entries_in touched.old.items) }
    ensures ok { OnOk result (touched.new.items ≡ put_touched one touched.old.items) }
    ensures err { OnErr result (touched.new.items ≡ touched.old.items) }
{
    let place = place_of(touched, one.entry);
    if place < touched.len() && one.entry.is_alike(&touched[place].entry) {
        touched[place] = one;
        return Ok(());
    }
    touched.insert(place, one)?;
    Ok(())
}

pub(crate) fn ssn_skips(
    alloc: Global,
    touched: &[Touched],
) -> Result<Vec<SkippedStream>, AllocError>
    ensures { IfOk result (λ skips. skips.items ≡ map ssn_skip (entries_in touched.now)) }
{
    touched
        .iter()
        .map(|one| one.entry.ssn_skip())
        .collect(alloc)
}

pub(crate) fn mid_skips(
    alloc: Global,
    touched: &[Touched],
) -> Result<Vec<SkippedStream>, AllocError>
    ensures { IfOk result (λ skips. skips.items ≡ map mid_skip (entries_in touched.now)) }
{
    touched
        .iter()
        .map(|one| one.entry.mid_skip())
        .collect(alloc)
}

/// The bytes of a forward chunk with these entries and one more, if it isn't named.
pub(crate) fn chunk_size_with(
    is_interleaved: bool,
    entry: Option<SkipEntry>,
    touched: &[Touched],
) -> u128
    requires { Ascend (entries_in touched.now) }
    ensures { result ≡ size_with is_interleaved entry (entries_in touched.now) }
{
    let entry_size = if is_interleaved { 8 } else { 4 };
    let more = match entry {
        Some(entry) if !is_named(touched, entry) => 1,
        _ => 0,
    };
    8 + entry_size * (touched.len() as u128 + more)
}

/// Goes on over the item of this number, if it is given up and its stream has room in a chunk of `max_size` bytes: its entry,
/// if it has one, comes to its place. Says whether it did. Without memory nothing changes.
pub(crate) fn pass(
    touched: &mut Vec<Touched>,
    item: Option<&Item>,
    last: u64,
    is_interleaved: bool,
    max_size: usize,
) -> Result<bool, AllocError>
    requires { Ascend (entries_in touched.old.items) }
    ensures passes { IfOk result (λ passes. passes ≡ is_next is_interleaved max_size (entries_in touched.old.items) (option_map (λ i. i.now) item.entry)) }
    ensures on { IfOk result (λ passes. passes ≡ true → touched.new.items ≡ touched_with (entry_in is_interleaved (option_map (λ i. i.now) item.entry)) last touched.old.items) }
    ensures off { IfOk result (λ passes. passes ≡ false → touched.new.items ≡ touched.old.items) }
    ensures err { OnErr result (touched.new.items ≡ touched.old.items) }
{
    let Some(item) = item else {
        return Ok(false);
    };
    if !item.is_abandoned() {
        return Ok(false);
    }
    let entry = entry_of(item, is_interleaved);
    if chunk_size_with(is_interleaved, entry, touched) > max_size as u128 {
        return Ok(false);
    }
    if let Some(entry) = entry {
        put(touched, Touched { entry, last })?;
    }
    Ok(true)
}
