//! Streams of one kind, by their ids.

ghost use Rattle.std.specs.Prelude.{◌≡◌, ◌==◌, ℕ, ◌+◌, ◌<◌, ◌≤◌, ◌^◌, ◌++◌, ◌⊎◌, [], false, if◌then◌else◌, not, filter, length, IsSome, OnOk, OnErr};
ghost use Rattle.std.specs.List.{list_any};
ghost use Rattle.std.specs.Map.{lookup};
ghost use Rattle.std.specs.Ordering.{nat_cmp};
ghost use Rattle.std.specs.BTreeMap.{is_at};
ghost use Rattle.sctp_fragments.specs.Held.{bytes_of};
ghost use Rattle.sctp_fragments.specs.Interval.{as_held};
ghost use Rattle.sctp_reassembly.specs.Delivery.{ready_bytes, Extends};
ghost use Rattle.sctp_reassembly.specs.ReassemblyStreams.{bytes_held, fragments_held, AreCounted, is_far, stream_at, with_stream, set_stream, forget};
ghost use Rattle.sctp_reassembly.specs.WireNumber.{nearest_of};

use crate::near::WireNumber;
use crate::ready_messages::ReadyMessages;
use crate::reassembly_stream::ReassemblyStream;
use sctp_chunk::Data;
use sctp_fragments::ReassemblyKey;
use sctp_serial::StreamId;
use std::alloc::{AllocError, Global};
use std::collections::BTreeMap;
use std::marker::Model;

/// The streams that were named, and how many bytes of payload and how many fragments they hold.
#[derive(Drop)]
pub struct StreamMap<S: ReassemblyStream> {
    pub(crate) alloc: Global,
    pub(crate) streams: BTreeMap<u16, S>,
    pub(crate) bytes: usize,
    pub(crate) fragments: usize,
}

impl<S: ReassemblyStream> Model for StreamMap<S> {
    ghost use Rattle.sctp_reassembly.specs.ReassemblyStreams.{Entries, AreCounted};

    ghost Value = { Entries S };

    ghost view = { λ s. s.streams.entries };

    ghost invariant = { λ s. AreCounted S.held s.bytes s.fragments s.streams.entries };
}

impl<S: ReassemblyStream> StreamMap<S> {
    /// No streams. Takes no memory.
    pub fn new(alloc: Global) -> StreamMap<S>
        ensures { result ≡ [] }
    {
        StreamMap {
            alloc,
            streams: BTreeMap::new(alloc),
            bytes: 0,
            fragments: 0,
        }
    }

    /// How many bytes of payload are held.
    pub fn total_bytes(&self) -> usize
        ensures { result ≡ bytes_held S.held self.now }
    {
        self.bytes
    }

    /// How many fragments are held.
    pub fn held_fragments(&self) -> usize
        ensures { result ≡ fragments_held S.held self.now }
    {
        self.fragments
    }

    /// Makes a stream that isn't there. Without memory nothing changes.
    fn open(&mut self, id: StreamId) -> Result<(), AllocError>
        requires absent { None ≡ lookup (is_at (nat_cmp id.0)) self.old }
        ensures ok { OnOk result (self.new ≡ with_stream S.fresh id.0 self.old) }
        ensures there { OnOk result (IsSome (lookup (is_at (nat_cmp id.0)) self.new)) }
        ensures stream { OnOk result (stream_at S.fresh id.0 self.new ≡ S.fresh) }
        ensures bytes { bytes_held S.held self.new ≡ bytes_held S.held self.old }
        ensures fragments { fragments_held S.held self.new ≡ fragments_held S.held self.old }
        ensures err { OnErr result (self.new ≡ self.old) }
    {
        let stream = S::new(self.alloc);
        self.streams.insert(id.0, stream)?;
        Ok(())
    }

    /// Adds a fragment to its stream, which it looks up once where it is there. Where the number is too far, nothing changes.
    #[tactic(auto, using(crate::proofs::ExtendsLemmas::extends_none))]
    pub fn add(
        &mut self,
        id: StreamId,
        number: WireNumber,
        index: u64,
        fragment: Data,
        ready: &mut ReadyMessages,
    ) -> Result<(), AllocError>
        requires room { bytes_held S.held self.old + ready_bytes ready.old + length fragment.payload.items < 2 ^ 64 }
        requires fragments { fragments_held S.held self.old + 1 < 2 ^ 64 }
        ensures ok { let s = stream_at S.fresh id.0 self.old in let n = nearest_of number (S.reading_point s) in OnOk result (self.new ≡ (if is_far n then self.old else set_stream S.fresh id.0 (S.after_arrival (as_held n index fragment) s) self.old)) }
        ensures ready { let s = stream_at S.fresh id.0 self.old in let n = nearest_of number (S.reading_point s) in OnOk result (ready.new ≡ ready.old ++ (if is_far n then [] else S.made_ready (as_held n index fragment) s)) }
        ensures err { let s = stream_at S.fresh id.0 self.old in let n = nearest_of number (S.reading_point s) in let h = as_held n index fragment in OnErr result ((is_far n ≡ false) × (((self.new ≡ self.old) × (ready.new ≡ ready.old)) ⊎ ((steps : ℕ) × ((self.new ≡ set_stream S.fresh id.0 (S.arrival_in_part steps h s) self.old) × (ready.new ≡ ready.old ++ S.ready_in_part steps h s))))) }
        ensures kept { Extends ready.old ready.new }
        ensures bytes { bytes_held S.held self.new + ready_bytes ready.new ≤ bytes_held S.held self.old + ready_bytes ready.old + length fragment.payload.items }
        ensures fragments { fragments_held S.held self.new ≤ fragments_held S.held self.old + 1 }
    {
        let Some(stream) = self.streams.get_mut(&id.0) else {
            return self.add_first(id, number, index, fragment, ready);
        };
        let before = stream.queued_bytes();
        let fragments_before = stream.held_fragments();
        let added = add_to(stream, number, index, fragment, ready);
        self.bytes = self.bytes - before + stream.queued_bytes();
        self.fragments = self.fragments - fragments_before + stream.held_fragments();
        added
    }

    /// Adds the first fragment of a stream, which it makes.
    #[tactic(auto, using(crate::proofs::ExtendsLemmas::extends_none))]
    fn add_first(
        &mut self,
        id: StreamId,
        number: WireNumber,
        index: u64,
        fragment: Data,
        ready: &mut ReadyMessages,
    ) -> Result<(), AllocError>
        requires absent { None ≡ lookup (is_at (nat_cmp id.0)) self.old }
        requires room { bytes_held S.held self.old + ready_bytes ready.old + length fragment.payload.items < 2 ^ 64 }
        requires fragments { fragments_held S.held self.old + 1 < 2 ^ 64 }
        ensures ok { let s = stream_at S.fresh id.0 self.old in let n = nearest_of number (S.reading_point s) in OnOk result (self.new ≡ (if is_far n then self.old else set_stream S.fresh id.0 (S.after_arrival (as_held n index fragment) s) self.old)) }
        ensures ready { let s = stream_at S.fresh id.0 self.old in let n = nearest_of number (S.reading_point s) in OnOk result (ready.new ≡ ready.old ++ (if is_far n then [] else S.made_ready (as_held n index fragment) s)) }
        ensures err { let s = stream_at S.fresh id.0 self.old in let n = nearest_of number (S.reading_point s) in let h = as_held n index fragment in OnErr result ((is_far n ≡ false) × (((self.new ≡ self.old) × (ready.new ≡ ready.old)) ⊎ ((steps : ℕ) × ((self.new ≡ set_stream S.fresh id.0 (S.arrival_in_part steps h s) self.old) × (ready.new ≡ ready.old ++ S.ready_in_part steps h s))))) }
        ensures kept { Extends ready.old ready.new }
        ensures bytes { bytes_held S.held self.new + ready_bytes ready.new ≤ bytes_held S.held self.old + ready_bytes ready.old + length fragment.payload.items }
        ensures fragments { fragments_held S.held self.new ≤ fragments_held S.held self.old + 1 }
    {
        self.open(id)?;
        let Some(stream) = self.streams.get_mut(&id.0) else {
            return Err(AllocError);
        };
        let added = add_to(stream, number, index, fragment, ready);
        self.bytes += stream.queued_bytes();
        self.fragments += stream.held_fragments();
        added
    }

    /// A forward point names a message: its stream, which it looks up once where it is there, drops it and those before it.
    /// Where the number is too far, nothing changes.
    #[tactic(auto, using(crate::proofs::ExtendsLemmas::extends_none))]
    pub fn forward(
        &mut self,
        id: StreamId,
        number: WireNumber,
        ready: &mut ReadyMessages,
    ) -> Result<(), AllocError>
        requires room { bytes_held S.held self.old + ready_bytes ready.old < 2 ^ 64 }
        ensures ok { let s = stream_at S.fresh id.0 self.old in let n = nearest_of number (S.reading_point s) in OnOk result (self.new ≡ (if is_far n then self.old else set_stream S.fresh id.0 (S.after_forward n s) self.old)) }
        ensures ready { let s = stream_at S.fresh id.0 self.old in let n = nearest_of number (S.reading_point s) in OnOk result (ready.new ≡ ready.old ++ (if is_far n then [] else S.forwarded n s)) }
        ensures err { let s = stream_at S.fresh id.0 self.old in let n = nearest_of number (S.reading_point s) in OnErr result ((is_far n ≡ false) × (((self.new ≡ self.old) × (ready.new ≡ ready.old)) ⊎ ((steps : ℕ) × ((self.new ≡ set_stream S.fresh id.0 (S.forward_in_part steps n s) self.old) × (ready.new ≡ ready.old ++ S.forwarded_in_part steps n s))))) }
        ensures kept { Extends ready.old ready.new }
        ensures bytes { bytes_held S.held self.new + ready_bytes ready.new ≤ bytes_held S.held self.old + ready_bytes ready.old }
        ensures fragments { fragments_held S.held self.new ≤ fragments_held S.held self.old }
    {
        let Some(stream) = self.streams.get_mut(&id.0) else {
            return self.forward_first(id, number, ready);
        };
        let before = stream.queued_bytes();
        let fragments_before = stream.held_fragments();
        let forwarded = forward_behind(stream, number, ready);
        self.bytes = self.bytes - before + stream.queued_bytes();
        self.fragments = self.fragments - fragments_before + stream.held_fragments();
        forwarded
    }

    /// The same for a stream of which nothing came: it is put in once it was forwarded.
    #[tactic(auto, using(crate::proofs::ExtendsLemmas::extends_none))]
    fn forward_first(
        &mut self,
        id: StreamId,
        number: WireNumber,
        ready: &mut ReadyMessages,
    ) -> Result<(), AllocError>
        requires absent { None ≡ lookup (is_at (nat_cmp id.0)) self.old }
        requires room { bytes_held S.held self.old + ready_bytes ready.old < 2 ^ 64 }
        ensures ok { let s = stream_at S.fresh id.0 self.old in let n = nearest_of number (S.reading_point s) in OnOk result (self.new ≡ (if is_far n then self.old else set_stream S.fresh id.0 (S.after_forward n s) self.old)) }
        ensures ready { let s = stream_at S.fresh id.0 self.old in let n = nearest_of number (S.reading_point s) in OnOk result (ready.new ≡ ready.old ++ (if is_far n then [] else S.forwarded n s)) }
        ensures err { let s = stream_at S.fresh id.0 self.old in let n = nearest_of number (S.reading_point s) in OnErr result ((is_far n ≡ false) × (((self.new ≡ self.old) × (ready.new ≡ ready.old)) ⊎ ((steps : ℕ) × ((self.new ≡ set_stream S.fresh id.0 (S.forward_in_part steps n s) self.old) × (ready.new ≡ ready.old ++ S.forwarded_in_part steps n s))))) }
        ensures kept { Extends ready.old ready.new }
        ensures bytes { bytes_held S.held self.new + ready_bytes ready.new ≤ bytes_held S.held self.old + ready_bytes ready.old }
        ensures fragments { fragments_held S.held self.new ≤ fragments_held S.held self.old }
    {
        let mut stream = S::new(self.alloc);
        forward_behind(&mut stream, number, ready)?;
        self.streams.insert(id.0, stream)?;
        Ok(())
    }

    /// Forgets the streams that are named, or all where none is.
    pub fn forget(&mut self, ids: &[StreamId])
        ensures value { self.new ≡ forget ids.now self.old }
        ensures bytes { bytes_held S.held self.new ≤ bytes_held S.held self.old }
        ensures fragments { fragments_held S.held self.new ≤ fragments_held S.held self.old }
    {
        if ids.is_empty() {
            self.streams.clear();
            self.bytes = 0;
            self.fragments = 0;
            return;
        }
        remove_each(&mut self.streams, &mut self.bytes, &mut self.fragments, ids);
    }
}

/// Adds a fragment to its stream, unless the number is too far.
#[tactic(auto, using(crate::proofs::ExtendsLemmas::extends_none))]
fn add_to<S: ReassemblyStream>(
    stream: &mut S,
    number: WireNumber,
    index: u64,
    fragment: Data,
    ready: &mut ReadyMessages,
) -> Result<(), AllocError>
    requires room { bytes_of (S.held stream.old) + ready_bytes ready.old + length fragment.payload.items < 2 ^ 64 }
    requires fragments { length (S.held stream.old) + 1 < 2 ^ 64 }
    ensures ok { let n = nearest_of number (S.reading_point stream.old) in OnOk result (stream.new ≡ (if is_far n then stream.old else S.after_arrival (as_held n index fragment) stream.old)) }
    ensures ready { let n = nearest_of number (S.reading_point stream.old) in OnOk result (ready.new ≡ ready.old ++ (if is_far n then [] else S.made_ready (as_held n index fragment) stream.old)) }
    ensures near { OnErr result (is_far (nearest_of number (S.reading_point stream.old)) ≡ false) }
    ensures err { let n = nearest_of number (S.reading_point stream.old) in let h = as_held n index fragment in OnErr result ((steps : ℕ) × ((stream.new ≡ S.arrival_in_part steps h stream.old) × (ready.new ≡ ready.old ++ S.ready_in_part steps h stream.old))) }
    ensures kept { Extends ready.old ready.new }
    ensures bytes { bytes_of (S.held stream.new) + ready_bytes ready.new ≤ bytes_of (S.held stream.old) + ready_bytes ready.old + length fragment.payload.items }
    ensures fragments { length (S.held stream.new) ≤ length (S.held stream.old) + 1 }
{
    let Some(number) = number.near(stream.reading_point()) else {
        return Ok(());
    };
    stream.add(S::Key::from_parts(number, index), fragment, ready)
}

/// Drops the message with the number and those before it, unless the number is too far.
#[tactic(auto, using(crate::proofs::ExtendsLemmas::extends_none))]
fn forward_behind<S: ReassemblyStream>(
    stream: &mut S,
    number: WireNumber,
    ready: &mut ReadyMessages,
) -> Result<(), AllocError>
    requires room { bytes_of (S.held stream.old) + ready_bytes ready.old < 2 ^ 64 }
    ensures ok { let n = nearest_of number (S.reading_point stream.old) in OnOk result (stream.new ≡ (if is_far n then stream.old else S.after_forward n stream.old)) }
    ensures ready { let n = nearest_of number (S.reading_point stream.old) in OnOk result (ready.new ≡ ready.old ++ (if is_far n then [] else S.forwarded n stream.old)) }
    ensures near { OnErr result (is_far (nearest_of number (S.reading_point stream.old)) ≡ false) }
    ensures err { let n = nearest_of number (S.reading_point stream.old) in OnErr result ((steps : ℕ) × ((stream.new ≡ S.forward_in_part steps n stream.old) × (ready.new ≡ ready.old ++ S.forwarded_in_part steps n stream.old))) }
    ensures kept { Extends ready.old ready.new }
    ensures bytes { bytes_of (S.held stream.new) + ready_bytes ready.new ≤ bytes_of (S.held stream.old) + ready_bytes ready.old }
    ensures fragments { length (S.held stream.new) ≤ length (S.held stream.old) }
{
    let Some(number) = number.near(stream.reading_point()) else {
        return Ok(());
    };
    stream.forward(S::Key::from_parts(number + 1, 0), ready)
}

/// Takes out the streams that are named, each by a look-up, and what they held off the bytes and the count of fragments.
fn remove_each<S: ReassemblyStream>(
    streams: &mut BTreeMap<u16, S>,
    bytes: &mut usize,
    fragments: &mut usize,
    ids: &[StreamId],
)
    requires { AreCounted S.held bytes.old fragments.old streams.old.entries }
    ensures streams { streams.new.entries ≡ filter (λ e. not (list_any (λ i. i.0 == e.0) ids.now)) streams.old.entries }
    ensures counted { AreCounted S.held bytes.new fragments.new streams.new.entries }
{
    // (what a map keeps is known once it is read)
    let _count = streams.len();
    for id in ids {
        if let Some(stream) = streams.remove(&id.0) {
            *bytes -= stream.queued_bytes();
            *fragments -= stream.held_fragments();
        }
    }
}
