//! The fragments of all streams, without interleaving of messages or with it.

ghost use Rattle.std.specs.Prelude.{◌≡◌, ℕ, ◌+◌, ◌<◌, ◌≤◌, ◌^◌, ◌++◌, length, true, IfOk, OnOk, OnErr};
ghost use Rattle.sctp_chunk.specs.Views.{fragment_tree};
ghost use Rattle.sctp_reassembly.specs.ReassemblyMode.{streams_of};
ghost use Rattle.sctp_reassembly.specs.Delivery.{ready_bytes, Extends};
ghost use Rattle.sctp_state.specs.Handover.{handover_state_of, receive_of};
ghost use Rattle.sctp_state.specs.Validity.{is_valid_reception};
ghost use Rattle.sctp_reassembly.specs.ReassemblyHandover.{streams_readiness, streams_written, streams_restored};
ghost use Rattle.sctp_reassembly.specs.ReassemblyStreams.{place_of, no_streams, held_bytes, fragments_of, add, skip, skip_each, dropped_to, forward, reset};
ghost use Rattle.sctp_reassembly.specs.InterruptedStreams.{Stands, add_in_part, skip_in_part, skip_each_in_part, forward_in_part};

use crate::near::WireNumber;
use crate::ordered_stream::FIRST;
use crate::ordered_streams::OrderedStreams;
use crate::ready_messages::ReadyMessages;
use crate::sorted_skips::by_stream;
use crate::unordered_by_tsn::UnorderedByTsn;
use crate::unordered_streams::UnorderedStreams;
use sctp_chunk::{Data, SkippedStream};
use sctp_fragments::{InterleavedKey, TraditionalKey, UnorderedInterleavedKey};
use sctp_serial::{StreamId, StreamKey};
use sctp_state::{HandoverReadiness, SocketHandoverState};
use std::alloc::{AllocError, Global};
use std::marker::Model;

/// The ordered streams and the unordered ones. Without interleaving fragments of a message have one TSN after the other
/// (RFC 9260 section 6.9), with it one FSN after the other, from 0 on (RFC 8260 section 2).
#[derive(Drop)]
pub(crate) enum ReassemblyMode {
    Traditional(OrderedStreams<TraditionalKey>, UnorderedByTsn),
    Interleaved(OrderedStreams<InterleavedKey>, UnorderedStreams<UnorderedInterleavedKey>),
}

/// The fragments of all streams: a map from unwrapped numbers to fragments. What becomes ready by a call is behind what was
/// ready before it.
///
/// `AllocError` is want of memory, and no other refusal is there. `add`, `skip` and `handle_forward_tsn` may then
/// leave a part of their work undone: the first steps are done, and other streams stay (`err`). The fragment, or a message that was
/// in turn, may be lost. What was ready stays ready, in front and in order (`kept`), no byte and no fragment is counted that didn't come (`bytes`, `fragments`),
/// and every call can be made. The calls of a handover then change nothing.
#[derive(Drop)]
pub struct ReassemblyStreams {
    alloc: Global,
    mode: ReassemblyMode,
}

impl Model for ReassemblyStreams {
    ghost use Rattle.sctp_reassembly.specs.ReassemblyMode.{streams_of};
    ghost use Rattle.sctp_reassembly.specs.ReassemblyStreams.{Streams, AreWithin};

    ghost Value = { Streams };

    ghost view = { λ s. streams_of s.mode };

    ghost invariant = { λ s. AreWithin (streams_of s.mode) };
}

impl ReassemblyStreams {
    /// No streams. Takes no memory.
    pub fn new(alloc: Global, is_interleaved: bool) -> ReassemblyStreams
        ensures { result ≡ no_streams is_interleaved }
    {
        if is_interleaved {
            let (ordered, unordered) = (OrderedStreams::new(alloc), UnorderedStreams::new(alloc));
            let mode = ReassemblyMode::Interleaved(ordered, unordered);
            return ReassemblyStreams { alloc, mode };
        }
        let (ordered, unordered) = (OrderedStreams::new(alloc), UnorderedByTsn::new(alloc));
        let mode = ReassemblyMode::Traditional(ordered, unordered);
        ReassemblyStreams { alloc, mode }
    }

    /// Takes a fragment with the unwrapped TSN, which is ignored with interleaving.
    #[tactic(auto, using(crate::proofs::ExtendsLemmas::extends_none))]
    pub fn add(
        &mut self,
        tsn: u64,
        fragment: Data,
        ready: &mut ReadyMessages,
    ) -> Result<(), AllocError>
        requires room { held_bytes self.old + ready_bytes ready.old + length fragment.payload.items < 2 ^ 64 }
        requires fragments { fragments_of self.old + 1 < 2 ^ 64 }
        requires small { tsn < 2 ^ 63 }
        ensures ok { OnOk result (self.new ≡ (add tsn (fragment_tree fragment) self.old).streams) }
        ensures ready { OnOk result (ready.new ≡ ready.old ++ (add tsn (fragment_tree fragment) self.old).messages) }
        ensures err { OnErr result ((steps : ℕ) × Stands (add_in_part steps tsn (fragment_tree fragment) self.old) ready.old self.new ready.new) }
        ensures kept { Extends ready.old ready.new }
        ensures bytes { held_bytes self.new + ready_bytes ready.new ≤ held_bytes self.old + ready_bytes ready.old + length fragment.payload.items }
        ensures fragments { fragments_of self.new ≤ fragments_of self.old + 1 }
    {
        match &mut self.mode {
            ReassemblyMode::Traditional(ordered, unordered) => {
                add_traditional(ordered, unordered, tsn, fragment, ready)
            }
            ReassemblyMode::Interleaved(ordered, unordered) => {
                add_interleaved(ordered, unordered, tsn, fragment, ready)
            }
        }
    }

    /// Takes one entry of a forward point: a message that was given up, and those before it on its stream.
    #[tactic(auto, using(crate::proofs::ExtendsLemmas::extends_none))]
    pub fn skip(
        &mut self,
        entry: SkippedStream,
        ready: &mut ReadyMessages,
    ) -> Result<(), AllocError>
        requires { held_bytes self.old + ready_bytes ready.old < 2 ^ 64 }
        ensures ok { OnOk result (self.new ≡ (skip entry self.old).streams) }
        ensures ready { OnOk result (ready.new ≡ ready.old ++ (skip entry self.old).messages) }
        ensures err { OnErr result ((steps : ℕ) × Stands (skip_in_part steps entry self.old) ready.old self.new ready.new) }
        ensures kept { Extends ready.old ready.new }
        ensures bytes { held_bytes self.new + ready_bytes ready.new ≤ held_bytes self.old + ready_bytes ready.old }
        ensures fragments { fragments_of self.new ≤ fragments_of self.old }
    {
        match &mut self.mode {
            ReassemblyMode::Traditional(ordered, unordered) => {
                skip_traditional(ordered, unordered, entry, ready)
            }
            ReassemblyMode::Interleaved(ordered, unordered) => {
                skip_interleaved(ordered, unordered, entry, ready)
            }
        }
    }

    /// Drops what a forward point to the unwrapped TSN drops by itself, without its entries.
    pub fn drop_to(&mut self, tsn: u64)
        requires { tsn < 2 ^ 63 }
        ensures value { self.new ≡ dropped_to tsn self.old }
        ensures bytes { held_bytes self.new ≤ held_bytes self.old }
        ensures fragments { fragments_of self.new ≤ fragments_of self.old }
    {
        if let ReassemblyMode::Traditional(_, unordered) = &mut self.mode {
            let first = TraditionalKey {
                number: FIRST,
                index: tsn + 1,
            };
            unordered.forward_all(first);
        }
    }

    /// Takes entry after entry.
    #[tactic(auto, using(crate::proofs::ExtendsLemmas::extends_none, crate::proofs::ExtendsLemmas::extends_both, crate::proofs::StandsLemmas::skips_begin))]
    fn skip_each(
        &mut self,
        entries: &[SkippedStream],
        ready: &mut ReadyMessages,
    ) -> Result<(), AllocError>
        requires { held_bytes self.old + ready_bytes ready.old < 2 ^ 64 }
        ensures ok { OnOk result (self.new ≡ (skip_each entries.now self.old).streams) }
        ensures ready { OnOk result (ready.new ≡ ready.old ++ (skip_each entries.now self.old).messages) }
        ensures err { OnErr result ((taken steps : ℕ) × Stands (skip_each_in_part taken steps entries.now self.old) ready.old self.new ready.new) }
        ensures kept { Extends ready.old ready.new }
        ensures bytes { held_bytes self.new + ready_bytes ready.new ≤ held_bytes self.old + ready_bytes ready.old }
        ensures fragments { fragments_of self.new ≤ fragments_of self.old }
    {
        for entry in entries {
            self.skip(*entry, ready)?;
        }
        Ok(())
    }

    /// Takes a forward point to the unwrapped TSN. What it makes ready is in the order of the streams.
    pub fn handle_forward_tsn(
        &mut self,
        alloc: Global,
        tsn: u64,
        skipped: &[SkippedStream],
        ready: &mut ReadyMessages,
    ) -> Result<(), AllocError>
        requires room { held_bytes self.old + ready_bytes ready.old < 2 ^ 64 }
        requires small { tsn < 2 ^ 63 }
        ensures ok { OnOk result (self.new ≡ (forward tsn skipped.now self.old).streams) }
        ensures ready { OnOk result (ready.new ≡ ready.old ++ (forward tsn skipped.now self.old).messages) }
        ensures err { OnErr result ((taken steps : ℕ) × Stands (forward_in_part taken steps tsn skipped.now self.old) ready.old self.new ready.new) }
        ensures kept { Extends ready.old ready.new }
        ensures bytes { held_bytes self.new + ready_bytes ready.new ≤ held_bytes self.old + ready_bytes ready.old }
        ensures fragments { fragments_of self.new ≤ fragments_of self.old }
    {
        let entries = by_stream(alloc, skipped)?;
        self.drop_to(tsn);
        self.skip_each(&entries, ready)
    }

    /// Resets the streams, or all of them where none is named.
    pub fn reset_streams(&mut self, ids: &[StreamId])
        ensures value { self.new ≡ reset ids.now self.old }
        ensures bytes { held_bytes self.new ≤ held_bytes self.old }
        ensures fragments { fragments_of self.new ≤ fragments_of self.old }
    {
        match &mut self.mode {
            ReassemblyMode::Traditional(ordered, unordered) => {
                ordered.forget(ids);
                unordered.forget(ids);
            }
            ReassemblyMode::Interleaved(ordered, unordered) => {
                ordered.forget(ids);
                unordered.forget(ids);
            }
        }
    }

    /// How many bytes of payload are held.
    pub fn queued_bytes(&self) -> usize
        ensures { result ≡ held_bytes self.now }
    {
        match &self.mode {
            ReassemblyMode::Traditional(ordered, unordered) => {
                ordered.total_bytes() + unordered.total_bytes()
            }
            ReassemblyMode::Interleaved(ordered, unordered) => {
                ordered.total_bytes() + unordered.total_bytes()
            }
        }
    }

    /// How many fragments are held.
    pub fn held_fragments(&self) -> usize
        ensures { result ≡ fragments_of self.now }
    {
        match &self.mode {
            ReassemblyMode::Traditional(ordered, unordered) => {
                ordered.held_fragments() + unordered.held_fragments()
            }
            ReassemblyMode::Interleaved(ordered, unordered) => {
                ordered.held_fragments() + unordered.held_fragments()
            }
        }
    }

    /// Whether the streams can be handed over: no fragment must be held.
    pub fn get_handover_readiness(&self) -> HandoverReadiness
        ensures { result.0 ≡ streams_readiness self.now }
    {
        HandoverReadiness::STREAM_HAS_UNASSEMBLED_CHUNKS & (self.held_fragments() > 0)
    }

    /// Writes the streams, and the numbers of the next ordered messages. Without memory nothing is written.
    pub fn add_to_handover_state(
        &self,
        alloc: Global,
        state: &mut SocketHandoverState,
    ) -> Result<(), AllocError>
        ensures ok { OnOk result (let old = handover_state_of state.old in handover_state_of state.new ≡ record old { rx = streams_written self.now old.rx }) }
        ensures valid { OnOk result (is_valid_reception self.now.is_interleaved (receive_of state.new.rx) ≡ true) }
        ensures err { OnErr result (handover_state_of state.new ≡ handover_state_of state.old) }
    {
        match &self.mode {
            ReassemblyMode::Traditional(ordered, unordered) => {
                let ordered = ordered.handed_over(alloc, false)?;
                let unordered = unordered.handed_over(alloc)?;
                state.rx.ordered_streams = ordered;
                state.rx.unordered_streams = unordered;
                Ok(())
            }
            ReassemblyMode::Interleaved(ordered, unordered) => {
                let ordered = ordered.handed_over(alloc, true)?;
                let unordered = unordered.handed_over(alloc)?;
                state.rx.ordered_streams = ordered;
                state.rx.unordered_streams = unordered;
                Ok(())
            }
        }
    }

    /// The record's streams, in the same form.
    fn restored(&self, state: &SocketHandoverState) -> Result<ReassemblyMode, AllocError>
        requires { is_valid_reception self.now.is_interleaved (receive_of state.now.rx) ≡ true }
        ensures { IfOk result (λ mode. streams_of mode ≡ streams_restored (receive_of state.now.rx) self.now) }
    {
        let rx = &state.rx;
        match &self.mode {
            ReassemblyMode::Traditional(_, _) => Ok(ReassemblyMode::Traditional(
                OrderedStreams::restored(self.alloc, &rx.ordered_streams)?,
                UnorderedByTsn::restored(self.alloc, &rx.unordered_streams)?,
            )),
            ReassemblyMode::Interleaved(_, _) => Ok(ReassemblyMode::Interleaved(
                OrderedStreams::restored(self.alloc, &rx.ordered_streams)?,
                UnorderedStreams::restored(self.alloc, &rx.unordered_streams)?,
            )),
        }
    }

    /// Has the record's streams in place of its own, and holds nothing then. Without memory nothing changes.
    pub fn restore_from_state(&mut self, state: &SocketHandoverState) -> Result<(), AllocError>
        requires { is_valid_reception self.old.is_interleaved (receive_of state.now.rx) ≡ true }
        ensures ok { OnOk result (self.new ≡ streams_restored (receive_of state.now.rx) self.old) }
        ensures err { OnErr result (self.new ≡ self.old) }
        ensures bytes { held_bytes self.new ≤ held_bytes self.old }
        ensures fragments { fragments_of self.new ≤ fragments_of self.old }
    {
        let mode = self.restored(state)?;
        drop(std::mem::replace(&mut self.mode, mode));
        Ok(())
    }
}

/// The fragment's place in its message with interleaving: its FSN, and 0 where it begins the message.
fn place_of(fragment: &Data) -> u64
    ensures { (tsn : ℕ) → result ≡ place_of true tsn (fragment_tree fragment.now) }
{
    if fragment.is_beginning {
        return 0;
    }
    fragment.fsn.0 as u64
}

/// Adds a fragment, whose place is its TSN.
#[tactic(auto, using(crate::proofs::ExtendsLemmas::extends_none))]
fn add_traditional(
    ordered: &mut OrderedStreams<TraditionalKey>,
    unordered: &mut UnorderedByTsn,
    tsn: u64,
    fragment: Data,
    ready: &mut ReadyMessages,
) -> Result<(), AllocError>
    requires room { held_bytes (streams_of (ReassemblyMode.Traditional ordered.old unordered.old)) + ready_bytes ready.old + length fragment.payload.items < 2 ^ 64 }
    requires fragments { fragments_of (streams_of (ReassemblyMode.Traditional ordered.old unordered.old)) + 1 < 2 ^ 64 }
    requires small { tsn < 2 ^ 63 }
    ensures ok { OnOk result ((streams_of (ReassemblyMode.Traditional ordered.new unordered.new)) ≡ (add tsn (fragment_tree fragment) (streams_of (ReassemblyMode.Traditional ordered.old unordered.old))).streams) }
    ensures ready { OnOk result (ready.new ≡ ready.old ++ (add tsn (fragment_tree fragment) (streams_of (ReassemblyMode.Traditional ordered.old unordered.old))).messages) }
    ensures err { OnErr result ((steps : ℕ) × Stands (add_in_part steps tsn (fragment_tree fragment) (streams_of (ReassemblyMode.Traditional ordered.old unordered.old))) ready.old (streams_of (ReassemblyMode.Traditional ordered.new unordered.new)) ready.new) }
    ensures kept { Extends ready.old ready.new }
    ensures bytes { held_bytes (streams_of (ReassemblyMode.Traditional ordered.new unordered.new)) + ready_bytes ready.new ≤ held_bytes (streams_of (ReassemblyMode.Traditional ordered.old unordered.old)) + ready_bytes ready.old + length fragment.payload.items }
    ensures fragments { fragments_of (streams_of (ReassemblyMode.Traditional ordered.new unordered.new)) ≤ fragments_of (streams_of (ReassemblyMode.Traditional ordered.old unordered.old)) + 1 }
{
    match fragment.stream_key {
        StreamKey::Unordered(id) => { unordered.add(id, tsn, fragment, ready) }
        StreamKey::Ordered(id) => {
            let number = WireNumber::Ssn(fragment.ssn);
            ordered.add(id, number, tsn, fragment, ready)
        }
    }
}

/// Adds a fragment, whose place is its FSN.
#[tactic(auto, using(crate::proofs::ExtendsLemmas::extends_none))]
fn add_interleaved(
    ordered: &mut OrderedStreams<InterleavedKey>,
    unordered: &mut UnorderedStreams<UnorderedInterleavedKey>,
    tsn: u64,
    fragment: Data,
    ready: &mut ReadyMessages,
) -> Result<(), AllocError>
    requires room { held_bytes (streams_of (ReassemblyMode.Interleaved ordered.old unordered.old)) + ready_bytes ready.old + length fragment.payload.items < 2 ^ 64 }
    requires fragments { fragments_of (streams_of (ReassemblyMode.Interleaved ordered.old unordered.old)) + 1 < 2 ^ 64 }
    requires small { tsn < 2 ^ 63 }
    ensures ok { OnOk result ((streams_of (ReassemblyMode.Interleaved ordered.new unordered.new)) ≡ (add tsn (fragment_tree fragment) (streams_of (ReassemblyMode.Interleaved ordered.old unordered.old))).streams) }
    ensures ready { OnOk result (ready.new ≡ ready.old ++ (add tsn (fragment_tree fragment) (streams_of (ReassemblyMode.Interleaved ordered.old unordered.old))).messages) }
    ensures err { OnErr result ((steps : ℕ) × Stands (add_in_part steps tsn (fragment_tree fragment) (streams_of (ReassemblyMode.Interleaved ordered.old unordered.old))) ready.old (streams_of (ReassemblyMode.Interleaved ordered.new unordered.new)) ready.new) }
    ensures kept { Extends ready.old ready.new }
    ensures bytes { held_bytes (streams_of (ReassemblyMode.Interleaved ordered.new unordered.new)) + ready_bytes ready.new ≤ held_bytes (streams_of (ReassemblyMode.Interleaved ordered.old unordered.old)) + ready_bytes ready.old + length fragment.payload.items }
    ensures fragments { fragments_of (streams_of (ReassemblyMode.Interleaved ordered.new unordered.new)) ≤ fragments_of (streams_of (ReassemblyMode.Interleaved ordered.old unordered.old)) + 1 }
{
    let index = place_of(&fragment);
    let number = WireNumber::Mid(fragment.mid);
    match fragment.stream_key {
        StreamKey::Unordered(id) => { unordered.add(id, number, index, fragment, ready) }
        StreamKey::Ordered(id) => { ordered.add(id, number, index, fragment, ready) }
    }
}

/// Takes an entry that names an SSN.
#[tactic(auto, using(crate::proofs::ExtendsLemmas::extends_none))]
fn skip_traditional(
    ordered: &mut OrderedStreams<TraditionalKey>,
    unordered: &UnorderedByTsn,
    entry: SkippedStream,
    ready: &mut ReadyMessages,
) -> Result<(), AllocError>
    requires { held_bytes (streams_of (ReassemblyMode.Traditional ordered.old unordered.now)) + ready_bytes ready.old < 2 ^ 64 }
    ensures ok { OnOk result ((streams_of (ReassemblyMode.Traditional ordered.new unordered.now)) ≡ (skip entry (streams_of (ReassemblyMode.Traditional ordered.old unordered.now))).streams) }
    ensures ready { OnOk result (ready.new ≡ ready.old ++ (skip entry (streams_of (ReassemblyMode.Traditional ordered.old unordered.now))).messages) }
    ensures err { OnErr result ((steps : ℕ) × Stands (skip_in_part steps entry (streams_of (ReassemblyMode.Traditional ordered.old unordered.now))) ready.old (streams_of (ReassemblyMode.Traditional ordered.new unordered.now)) ready.new) }
    ensures kept { Extends ready.old ready.new }
    ensures bytes { held_bytes (streams_of (ReassemblyMode.Traditional ordered.new unordered.now)) + ready_bytes ready.new ≤ held_bytes (streams_of (ReassemblyMode.Traditional ordered.old unordered.now)) + ready_bytes ready.old }
    ensures fragments { fragments_of (streams_of (ReassemblyMode.Traditional ordered.new unordered.now)) ≤ fragments_of (streams_of (ReassemblyMode.Traditional ordered.old unordered.now)) }
{
    let SkippedStream::ForwardTsn(id, ssn) = entry else {
        return Ok(());
    };
    ordered.forward(id, WireNumber::Ssn(ssn), ready)
}

/// Takes an entry that names a MID.
#[tactic(auto, using(crate::proofs::ExtendsLemmas::extends_none))]
fn skip_interleaved(
    ordered: &mut OrderedStreams<InterleavedKey>,
    unordered: &mut UnorderedStreams<UnorderedInterleavedKey>,
    entry: SkippedStream,
    ready: &mut ReadyMessages,
) -> Result<(), AllocError>
    requires { held_bytes (streams_of (ReassemblyMode.Interleaved ordered.old unordered.old)) + ready_bytes ready.old < 2 ^ 64 }
    ensures ok { OnOk result ((streams_of (ReassemblyMode.Interleaved ordered.new unordered.new)) ≡ (skip entry (streams_of (ReassemblyMode.Interleaved ordered.old unordered.old))).streams) }
    ensures ready { OnOk result (ready.new ≡ ready.old ++ (skip entry (streams_of (ReassemblyMode.Interleaved ordered.old unordered.old))).messages) }
    ensures err { OnErr result ((steps : ℕ) × Stands (skip_in_part steps entry (streams_of (ReassemblyMode.Interleaved ordered.old unordered.old))) ready.old (streams_of (ReassemblyMode.Interleaved ordered.new unordered.new)) ready.new) }
    ensures kept { Extends ready.old ready.new }
    ensures bytes { held_bytes (streams_of (ReassemblyMode.Interleaved ordered.new unordered.new)) + ready_bytes ready.new ≤ held_bytes (streams_of (ReassemblyMode.Interleaved ordered.old unordered.old)) + ready_bytes ready.old }
    ensures fragments { fragments_of (streams_of (ReassemblyMode.Interleaved ordered.new unordered.new)) ≤ fragments_of (streams_of (ReassemblyMode.Interleaved ordered.old unordered.old)) }
{
    let SkippedStream::IForwardTsn(key, mid) = entry else {
        return Ok(());
    };
    match key {
        StreamKey::Unordered(id) => { unordered.forward(id, WireNumber::Mid(mid), ready) }
        StreamKey::Ordered(id) => { ordered.forward(id, WireNumber::Mid(mid), ready) }
    }
}
