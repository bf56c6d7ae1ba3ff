//! Messages put together of their fragments, and taken one after the other.

ghost use Rattle.std.specs.Prelude.{◌≡◌, ℕ, [], ◌+◌, ◌-◌, ◌<◌, ◌≤◌, ◌^◌, ◌++◌, nat_le, max, true, false, is_some, length, map, option_map, OnOk, OnErr, IsSome, IfOk, IfSome, IfNone, ◌↔◌, slice_index_or, Some, unwrap_or};
ghost use Rattle.std.specs.List.{sum_by};
ghost use Rattle.std.specs.Option.{option_to_list};
ghost use Rattle.sctp_serial.specs.Messages.{message_of};
ghost use Rattle.sctp_chunk.specs.Views.{fragment_tree, viewed_fragment};
ghost use Rattle.sctp_state.specs.Handover.{handover_state_of, receive_of};
ghost use Rattle.sctp_state.specs.Validity.{is_valid_reception};
ghost use Rattle.sctp_reassembly.specs.Delivery.{Extends};
ghost use Rattle.sctp_reassembly.specs.ReassemblyHandover.{readiness, write_handover, restore};

mod deferred;
mod waiting;

use crate::ordered_stream::FIRST;
use crate::ready_messages::ReadyMessages;
use crate::reassembly_streams::ReassemblyStreams;
use crate::sorted_skips::entries_in;
use deferred::{Deferred, none_waits};
use sctp_chunk::{Data, DataView, SkippedStream};
use sctp_serial::{Message, SerialNumber, StreamId, StreamKey, Tsn};
use sctp_state::{HandoverReadiness, SocketHandoverState};
use std::alloc::{AllocError, Global};
use std::collections::VecDeque;
use std::marker::Model;
use waiting::Waiting;

// Numbers from here on are ignored.
const LIMIT: u64 = FIRST + (1 << 62);

/// The fragments of all streams, and the messages that are ready.
///
/// The first TSN that comes, or that a deferred reset names, has the number 2^32; later ones are read near the last that came, or
/// near 2^32 where that is greater.
#[derive(Drop)]
pub struct ReassemblyQueue {
    alloc: Global,
    max_size: usize,
    max_fragments: usize,
    first: Option<Tsn>,
    near: u64,
    streams: ReassemblyStreams,
    deferred: Option<Deferred>,
    ready: ReadyMessages,
    ready_count: usize,
}

impl Model for ReassemblyQueue {
    ghost use Rattle.std.specs.Prelude.{option_map};
    ghost use Rattle.sctp_reassembly.specs.ReassemblyQueue.{Reassembly, IsQueue};

    ghost Value = { Reassembly };

    ghost view = { λ q. record { max_size = q.max_size; max_fragments = q.max_fragments; first = option_map (λ t. t.0) q.first; near = q.near; streams = q.streams; deferred = q.deferred; ready = q.ready; ready_count = q.ready_count } };

    ghost invariant = { λ q. IsQueue (record { max_size = q.max_size; max_fragments = q.max_fragments; first = option_map (λ t. t.0) q.first; near = q.near; streams = q.streams; deferred = q.deferred; ready = q.ready; ready_count = q.ready_count }) };
}

impl ReassemblyQueue {
    ghost use Rattle.sctp_reassembly.specs.ReassemblyQueue.{reassembly, queued_bytes, held_fragments, watermark, number_of, came, add_now, forward_now, is_kept_back, point_waits, keep_back, wait_with, resetting, waiting_bytes, waiting_fragments, waiting_number, saturating_sum, IsCounted, AreSmall, admits_fragment, admits_point, add, forward, defer, apply, apply_each, reset};
    ghost use Rattle.sctp_chunk.specs.Written.{key_stream};
    ghost use Rattle.sctp_reassembly.specs.ReassemblyStreams.{entries_in};
    ghost use Rattle.sctp_reassembly.specs.InterruptedQueue.{add_now_in_part, forward_now_in_part, add_in_part, forward_in_part, apply_in_part, apply_each_in_part, reset_in_part};
    ghost use Rattle.sctp_reassembly.specs.Waiting.{waiting_of};

    /// An empty queue, which is full at `max_size` bytes, fewer than 2^32. Takes no memory.
    pub fn new(alloc: Global, max_size: usize, use_message_interleaving: bool) -> ReassemblyQueue
        requires { max_size < 2 ^ 32 }
        ensures { result ≡ reassembly max_size use_message_interleaving }
    {
        ReassemblyQueue {
            alloc,
            max_size,
            max_fragments: usize::MAX,
            first: None,
            near: FIRST,
            streams: ReassemblyStreams::new(alloc, use_message_interleaving),
            deferred: None,
            ready: ReadyMessages::new(alloc),
            ready_count: 0,
        }
    }

    /// The queue with this as the number of fragments at which it holds most of them: its owner lets none in then. At 0 it
    /// always does, so that none is let in. A new queue has the greatest number of the type, which is no bound.
    pub fn with_max_fragments(self, max_fragments: usize) -> ReassemblyQueue
        ensures { result ≡ record self { max_fragments = max_fragments } }
    {
        let mut queue = self;
        queue.max_fragments = max_fragments;
        queue
    }

    /// How many messages are ready.
    pub fn messages_ready_count(&self) -> usize
        ensures { result ≡ length self.now.ready }
    {
        self.ready.len()
    }

    /// How many messages became ready so far; the count stops at the greatest number of its type.
    pub fn rx_messages_count(&self) -> usize
        ensures { result ≡ self.now.ready_count }
    {
        self.ready_count
    }

    /// How many bytes of payload are held, wait and are ready.
    pub fn queued_bytes(&self) -> usize
        ensures { result ≡ queued_bytes self.now }
    {
        let waiting = match &self.deferred {
            Some(deferred) => deferred.total_bytes(),
            None => 0,
        };
        self.streams.queued_bytes() + (waiting + self.ready.total_bytes())
    }

    /// How many fragments are held or wait for a reset.
    pub fn held_fragments(&self) -> usize
        ensures { result ≡ held_fragments self.now }
    {
        let waiting = match &self.deferred {
            Some(deferred) => deferred.held_fragments(),
            None => 0,
        };
        self.streams.held_fragments() + waiting
    }

    /// Whether as many fragments as may be are held or wait, or more.
    pub fn holds_most_fragments(&self) -> bool
        ensures test { result ≡ nat_le self.now.max_fragments (held_fragments self.now) }
        ensures small { result ≡ false → held_fragments self.now < 2 ^ 64 - 1 }
    {
        self.max_fragments <= self.held_fragments()
    }

    /// Whether the bytes are the greatest number that is let in, or more.
    pub fn is_full(&self) -> bool
        ensures test { result ≡ nat_le self.now.max_size (queued_bytes self.now) }
        ensures small { result ≡ false → queued_bytes self.now < 2 ^ 32 }
    {
        self.max_size <= self.queued_bytes()
    }

    /// Whether the bytes are nine tenths of the greatest number that is let in, or more.
    pub fn is_above_watermark(&self) -> bool
        ensures { result ≡ nat_le (watermark self.now) (queued_bytes self.now) }
    {
        self.max_size * 9 / 10 <= self.queued_bytes()
    }

    /// How many bytes are left below the watermark.
    pub fn remaining_bytes(&self) -> usize
        ensures bytes { result ≡ watermark self.now - queued_bytes self.now }
        ensures small { result < 2 ^ 32 }
    {
        (self.max_size * 9 / 10).saturating_sub(self.queued_bytes())
    }

    /// Takes the first of the ready messages.
    pub fn get_next_message(&mut self) -> Option<Message>
        ensures ready { self.old.ready ≡ option_to_list (option_map message_of result) ++ self.new.ready }
        ensures none { IfNone result (self.old.ready ≡ []) }
        ensures others { self.new ≡ record self.old { ready = self.new.ready } }
    {
        self.ready.pop()
    }

    /// The fragment with a copy of its payload. That of a part of a message goes into a buffer that an earlier one left, where one
    /// serves. Without memory nothing changes.
    pub fn copy_of(&mut self, fragment: DataView<'_>) -> Result<Data, AllocError>
        ensures value { IfOk result (λ d. fragment_tree d ≡ viewed_fragment fragment.entry) }
        ensures others { self.new ≡ self.old }
    {
        if fragment.is_beginning && fragment.is_end {
            return fragment.to_data(self.alloc);
        }
        let payload = self.ready.copy(self.alloc, fragment.payload)?;
        Ok(fragment.with_payload(payload))
    }

    /// No buffer is kept any longer for payloads to come.
    pub fn let_buffers_go(&mut self)
        ensures { self.new ≡ self.old }
    {
        self.ready.let_buffers_go(self.alloc);
    }

    /// What the TSN stands for.
    fn number_of(&self, tsn: Tsn) -> u64
        ensures value { result ≡ number_of self.now tsn.0 }
        ensures bound { result < 2 ^ 63 + 2 ^ 33 }
    {
        match self.first {
            Some(first) => tsn.unwrapped_near(first, self.near),
            None => FIRST,
        }
    }

    /// A TSN came.
    fn come(&mut self, tsn: Tsn, number: u64)
        requires value { number ≡ number_of self.old tsn.0 }
        requires small { number < 2 ^ 63 }
        ensures { self.new ≡ came tsn.0 self.old }
    {
        self.first = Some(self.first.unwrap_or(tsn));
        self.near = number.max(FIRST);
    }

    /// Counts the messages that became ready since there were so many.
    fn count_from(&mut self, before: usize)
        requires { before ≤ length self.old.ready }
        ensures { self.new ≡ record self.old { ready_count = saturating_sum self.old.ready_count (length self.old.ready - before) } }
    {
        let more = self.ready.len() - before;
        self.ready_count = self.ready_count.saturating_add(more);
    }

    /// Adds a fragment to its stream.
    fn add_now(&mut self, number: u64, fragment: Data) -> Result<(), AllocError>
        requires room { queued_bytes self.old + length fragment.payload.items < 2 ^ 64 }
        requires fragments { held_fragments self.old + 1 < 2 ^ 64 }
        requires small { number < 2 ^ 63 }
        ensures ok { OnOk result (self.new ≡ add_now number (fragment_tree fragment) self.old) }
        ensures err { OnErr result ((steps : ℕ) × (self.new ≡ add_now_in_part steps number (fragment_tree fragment) self.old)) }
        ensures kept { Extends self.old.ready self.new.ready }
        ensures counted { IsCounted self.old self.new }
        ensures bytes { queued_bytes self.new ≤ queued_bytes self.old + length fragment.payload.items }
        ensures fragments { held_fragments self.new ≤ held_fragments self.old + 1 }
    {
        let before = self.ready.len();
        let added = self.streams.add(number, fragment, &mut self.ready);
        self.count_from(before);
        added
    }

    /// Takes a forward point.
    fn forward_now(&mut self, number: u64, skipped: &[SkippedStream]) -> Result<(), AllocError>
        requires { number < 2 ^ 63 }
        ensures ok { OnOk result (self.new ≡ forward_now number skipped.now self.old) }
        ensures err { OnErr result ((taken steps : ℕ) × (self.new ≡ forward_now_in_part taken steps number skipped.now self.old)) }
        ensures kept { Extends self.old.ready self.new.ready }
        ensures counted { IsCounted self.old self.new }
        ensures bytes { queued_bytes self.new ≤ queued_bytes self.old }
        ensures fragments { held_fragments self.new ≤ held_fragments self.old }
    {
        let before = self.ready.len();
        let passed = self
            .streams
            .handle_forward_tsn(self.alloc, number, skipped, &mut self.ready);
        self.count_from(before);
        passed
    }

    /// Whether a fragment waits for a reset.
    fn fragment_waits(&self, number: u64, id: StreamId) -> bool
        ensures { result ≡ is_kept_back number id.0 self.now.deferred }
    {
        match &self.deferred {
            Some(deferred) => deferred.is_behind(number) && deferred.concerns(id),
            None => false,
        }
    }

    /// Whether a fragment is to be taken: while a reset is deferred, of those that would wait for it only so many that no more than
    /// 1,024 do. This rule is our own.
    pub fn admits_fragment(&self, tsn: Tsn, stream_key: StreamKey) -> bool
        ensures { result ≡ admits_fragment tsn.0 (key_stream stream_key) self.now }
    {
        match &self.deferred {
            Some(deferred) => {
                let waits = deferred.is_behind(self.number_of(tsn))
                    && deferred.concerns(stream_key.id());
                !waits || deferred.has_room_for_fragment()
            }
            None => true,
        }
    }

    /// Whether a forward point is to be taken: while a reset is deferred, of those above its last TSN only so many that no more than
    /// 65,536 entries wait, each point counted too. This rule is our own.
    pub fn admits_point(&self, tsn: Tsn, skipped: &[SkippedStream]) -> bool
        ensures { result ≡ admits_point tsn.0 skipped.now self.now }
    {
        match &self.deferred {
            Some(deferred) => {
                !deferred.is_behind(self.number_of(tsn)) || deferred.has_room_for(skipped.len())
            }
            None => true,
        }
    }

    /// Whether entries of a forward point wait for a reset.
    fn point_waits(&self, number: u64) -> bool
        ensures value { result ≡ point_waits number self.now.deferred }
        ensures deferred { result ≡ true → is_some self.now.deferred ≡ true }
    {
        match &self.deferred {
            Some(deferred) => deferred.is_behind(number),
            None => false,
        }
    }

    /// Has something wait for the reset.
    #[tactic(auto, using(crate::proofs::ExtendsLemmas::extends_none))]
    fn wait(&mut self, waiting: Waiting) -> Result<(), AllocError>
        requires room { queued_bytes self.old + waiting_bytes (waiting_of waiting) < 2 ^ 64 }
        requires fragments { held_fragments self.old + waiting_fragments (waiting_of waiting) < 2 ^ 64 }
        requires small { waiting_number (waiting_of waiting) < 2 ^ 63 }
        ensures ok { OnOk result (self.new ≡ keep_back (waiting_of waiting) self.old) }
        ensures err { OnErr result (self.new ≡ self.old) }
        ensures kept { Extends self.old.ready self.new.ready }
        ensures counted { IsCounted self.old self.new }
        ensures bytes { queued_bytes self.new ≤ queued_bytes self.old + waiting_bytes (waiting_of waiting) }
        ensures fragments { held_fragments self.new ≤ held_fragments self.old + waiting_fragments (waiting_of waiting) }
    {
        match &mut self.deferred {
            Some(deferred) => deferred.push(waiting),
            None => Ok(()),
        }
    }

    /// Has entries of a forward point wait, if it has any, or anything waits before them.
    #[tactic(auto, using(crate::proofs::ExtendsLemmas::extends_none))]
    fn wait_with(&mut self, number: u64, entries: Vec<SkippedStream>) -> Result<(), AllocError>
        requires { number < 2 ^ 63 }
        ensures ok { OnOk result (self.new ≡ wait_with number entries.items self.old) }
        ensures err { OnErr result (self.new ≡ self.old) }
        ensures kept { Extends self.old.ready self.new.ready }
        ensures counted { IsCounted self.old self.new }
        ensures bytes { queued_bytes self.new ≤ queued_bytes self.old }
        ensures fragments { held_fragments self.new ≤ held_fragments self.old }
    {
        if entries.is_empty() && none_waits(&self.deferred) {
            return Ok(());
        }
        self.wait(Waiting::Point(number, entries))
    }

    /// Takes a forward point, but has its entries for the reset's streams wait.
    fn forward_in_parts(&mut self, number: u64, skipped: &[SkippedStream]) -> Result<(), AllocError>
        requires small { number < 2 ^ 63 }
        requires deferred { is_some self.old.deferred ≡ true }
        ensures ok { OnOk result (let ids = resetting self.old.deferred in self.new ≡ wait_with number (entries_in true ids skipped.now) (forward_now number (entries_in false ids skipped.now) self.old)) }
        ensures err { OnErr result ((taken steps : ℕ) × (self.new ≡ forward_now_in_part taken steps number (entries_in false (resetting self.old.deferred) skipped.now) self.old)) }
        ensures kept { Extends self.old.ready self.new.ready }
        ensures counted { IsCounted self.old self.new }
        ensures bytes { queued_bytes self.new ≤ queued_bytes self.old }
        ensures fragments { held_fragments self.new ≤ held_fragments self.old }
    {
        let Some(deferred) = &self.deferred else {
            return Ok(());
        };
        let later = entries_in(self.alloc, true, deferred.streams(), skipped)?;
        let now = entries_in(self.alloc, false, deferred.streams(), skipped)?;
        self.forward_now(number, &now)?;
        self.wait_with(number, later)
    }

    /// Takes a fragment. What is complete and in turn by it becomes ready. While a reset is deferred, a fragment above its last TSN waits where it is
    /// on one of its streams. A TSN that lies 2^62 or more above the first one is ignored. Fewer than 2^64 bytes and fragments may be queued with it.
    ///
    /// Without memory the fragment, or a message that was in turn, may be lost. All else stays, and what was ready stays ready.
    #[tactic(auto, using(crate::proofs::ExtendsLemmas::extends_none))]
    pub fn add(&mut self, tsn: Tsn, fragment: Data) -> Result<(), AllocError>
        requires room { queued_bytes self.old + length fragment.payload.items < 2 ^ 64 }
        requires fragments { held_fragments self.old + 1 < 2 ^ 64 }
        ensures ok { OnOk result (self.new ≡ add tsn.0 (fragment_tree fragment) self.old) }
        ensures err { OnErr result ((steps : ℕ) × (self.new ≡ add_in_part steps tsn.0 (fragment_tree fragment) self.old)) }
        ensures kept { Extends self.old.ready self.new.ready }
        ensures counted { IsCounted self.old self.new }
        ensures bytes { queued_bytes self.new ≤ queued_bytes self.old + length fragment.payload.items }
        ensures fragments { held_fragments self.new ≤ held_fragments self.old + 1 }
    {
        // (what a queue keeps is known once a field is read)
        let _fields = &self.ready_count;
        let number = self.number_of(tsn);
        if number >= LIMIT {
            return Ok(());
        }
        self.come(tsn, number);
        if self.fragment_waits(number, fragment.stream_key.id()) {
            return self.wait(Waiting::Fragment(number, fragment));
        }
        self.add_now(number, fragment)
    }

    /// Takes a forward point: drops what it passes, moves next numbers behind what it names, never back, and makes ready
    /// what is then in turn, by ascending stream. While a reset is deferred, of a forward point above its last TSN the entries for
    /// its streams wait. A TSN that lies 2^62 or more above the first one is ignored.
    ///
    /// Without memory the first entries are taken, one in part, and the others are lost. All else stays, and what was ready stays ready.
    #[tactic(auto, using(crate::proofs::ExtendsLemmas::extends_none))]
    pub fn handle_forward_tsn(
        &mut self,
        tsn: Tsn,
        skipped: &[SkippedStream],
    ) -> Result<(), AllocError>
        ensures ok { OnOk result (self.new ≡ forward tsn.0 skipped.now self.old) }
        ensures err { OnErr result ((taken steps : ℕ) × (self.new ≡ forward_in_part taken steps tsn.0 skipped.now self.old)) }
        ensures kept { Extends self.old.ready self.new.ready }
        ensures counted { IsCounted self.old self.new }
        ensures bytes { queued_bytes self.new ≤ queued_bytes self.old }
        ensures fragments { held_fragments self.new ≤ held_fragments self.old }
    {
        // (what a queue keeps is known once a field is read)
        let _fields = &self.ready_count;
        let number = self.number_of(tsn);
        if number >= LIMIT {
            return Ok(());
        }
        self.come(tsn, number);
        if self.point_waits(number) {
            return self.forward_in_parts(number, skipped);
        }
        self.forward_now(number, skipped)
    }

    /// Defers a reset of the streams, or of all where none is named, until each TSN up to the last one came. Where a reset
    /// is deferred already, that one stays. Without memory nothing changes.
    pub fn enter_deferred_reset(
        &mut self,
        last_tsn: Tsn,
        streams: &[StreamId],
    ) -> Result<(), AllocError>
        ensures ok { OnOk result (self.new ≡ defer last_tsn.0 streams.now self.old) }
        ensures err { OnErr result (self.new ≡ self.old) }
    {
        if self.deferred.is_some() {
            return Ok(());
        }
        let last = self.number_of(last_tsn);
        let deferred = Deferred::new(self.alloc, last, streams)?;
        self.first = Some(self.first.unwrap_or(last_tsn));
        self.deferred = Some(deferred);
        Ok(())
    }

    /// Takes what waited for a reset.
    fn apply(&mut self, waiting: Waiting) -> Result<(), AllocError>
        requires room { queued_bytes self.old + waiting_bytes (waiting_of waiting) < 2 ^ 64 }
        requires fragments { held_fragments self.old + waiting_fragments (waiting_of waiting) < 2 ^ 64 }
        requires small { waiting_number (waiting_of waiting) < 2 ^ 63 }
        ensures ok { OnOk result (self.new ≡ apply (waiting_of waiting) self.old) }
        ensures err { OnErr result ((taken steps : ℕ) × (self.new ≡ apply_in_part taken steps (waiting_of waiting) self.old)) }
        ensures kept { Extends self.old.ready self.new.ready }
        ensures counted { IsCounted self.old self.new }
        ensures bytes { queued_bytes self.new ≤ queued_bytes self.old + waiting_bytes (waiting_of waiting) }
        ensures fragments { held_fragments self.new ≤ held_fragments self.old + waiting_fragments (waiting_of waiting) }
    {
        match waiting {
            Waiting::Fragment(number, fragment) => self.add_now(number, fragment),
            Waiting::Point(number, skipped) => self.forward_now(number, &skipped),
        }
    }

    /// Takes all that waited, in order.
    fn apply_each(&mut self, mut waiting: VecDeque<Waiting>) -> Result<(), AllocError>
        requires room { queued_bytes self.old + sum_by waiting_bytes (map waiting_of waiting.items) < 2 ^ 64 }
        requires fragments { held_fragments self.old + sum_by waiting_fragments (map waiting_of waiting.items) < 2 ^ 64 }
        requires small { AreSmall (map waiting_of waiting.items) }
        ensures ok { OnOk result (self.new ≡ apply_each (map waiting_of waiting.items) self.old) }
        ensures err { OnErr result ((applied taken steps : ℕ) × (self.new ≡ apply_each_in_part applied taken steps (map waiting_of waiting.items) self.old)) }
        ensures kept { Extends self.old.ready self.new.ready }
        ensures counted { IsCounted self.old self.new }
        ensures bytes { queued_bytes self.new ≤ queued_bytes self.old + sum_by waiting_bytes (map waiting_of waiting.items) }
        ensures fragments { held_fragments self.new ≤ held_fragments self.old + sum_by waiting_fragments (map waiting_of waiting.items) }
    {
        // (what a queue keeps is known once a field is read)
        let _fields = &self.ready_count;
        while let Some(next) = waiting.pop_front() {
            self.apply(next)?;
        }
        Ok(())
    }

    /// Resets the streams, or all where none is named: nothing is held of them, and their numbers begin anew. Then comes
    /// what waited for a reset, in order, whatever streams that reset named.
    ///
    /// Without memory the first of what waited is taken, and the rest is lost. What was ready stays ready.
    #[tactic(auto, using(crate::proofs::ExtendsLemmas::extends_none))]
    pub fn reset_streams_and_leave_deferred_reset(
        &mut self,
        streams: &[StreamId],
    ) -> Result<(), AllocError>
        ensures ok { OnOk result (self.new ≡ reset streams.now self.old) }
        ensures err { OnErr result ((applied taken steps : ℕ) × (self.new ≡ reset_in_part applied taken steps streams.now self.old)) }
        ensures kept { Extends self.old.ready self.new.ready }
        ensures counted { IsCounted self.old self.new }
        ensures bytes { queued_bytes self.new ≤ queued_bytes self.old }
        ensures fragments { held_fragments self.new ≤ held_fragments self.old }
    {
        self.streams.reset_streams(streams);
        match self.deferred.take() {
            Some(deferred) => self.apply_each(deferred.into_waiting()),
            None => Ok(()),
        }
    }

    /// Whether the queue can be handed over: no fragment must be held, and no reset deferred.
    pub fn get_handover_readiness(&self) -> HandoverReadiness
        ensures { result.0 ≡ readiness self.now }
    {
        let deferred = HandoverReadiness::STREAM_RESET_DEFERRED & self.deferred.is_some();
        self.streams.get_handover_readiness() | deferred
    }

    /// Writes the streams, and the numbers of the next ordered messages. Messages that are ready stay here. Without memory
    /// nothing is written.
    pub fn add_to_handover_state(&self, state: &mut SocketHandoverState) -> Result<(), AllocError>
        ensures ok { OnOk result (let old = handover_state_of state.old in handover_state_of state.new ≡ record old { rx = write_handover self.now old.rx }) }
        ensures valid { OnOk result (is_valid_reception self.now.streams.is_interleaved (receive_of state.new.rx) ≡ true) }
        ensures err { OnErr result (handover_state_of state.new ≡ handover_state_of state.old) }
    {
        self.streams.add_to_handover_state(self.alloc, state)?;
        state.rx.last_completed_deferred_reset_req_sn = 0;
        Ok(())
    }

    /// Has the streams of a record, which is valid in the queue's mode, in place of its own. For a new queue. Without memory nothing
    /// changes.
    pub fn restore_from_state(&mut self, state: &SocketHandoverState) -> Result<(), AllocError>
        requires { is_valid_reception self.old.streams.is_interleaved (receive_of state.now.rx) ≡ true }
        ensures ok { OnOk result (self.new ≡ restore (receive_of state.now.rx) self.old) }
        ensures err { OnErr result (self.new ≡ self.old) }
    {
        self.streams.restore_from_state(state)
    }

    /// The ready message at the place, where there are so many.
    pub fn ready(&self, place: usize) -> Option<&Message>
        ensures some { IsSome result ↔ (place < length self.now.ready) }
        ensures value { IfSome result (λ m. message_of m.now ≡ slice_index_or self.now.ready place (message_of m.now)) }
    {
        self.ready.get(place)
    }
}
