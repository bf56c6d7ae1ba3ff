//! What waits on one stream.

ghost use Rattle.std.specs.Prelude.{◌≡◌, ◌+◌, ◌<◌, ◌≤◌, ◌^◌, None, [], ◌++◌, sum_by, IsTrue, is_some, IfOk, OnOk, OnErr, option_map, map, not, if◌then◌else◌};
ghost use Rattle.sctp_state.specs.Events.{Grown};
ghost use Rattle.sctp_state.specs.ThresholdWatcher.{crosses, lower};
ghost use Rattle.sctp_tx_queue.specs.SendQueue.{remaining_bytes, amount_of, watched_amount, blank_stream, sendable, push, is_stopped, has_nothing};
ghost use Rattle.sctp_tx_queue.specs.Produced.{is_front_stale, emit_expired, without_stale, front_numbers, front_took, next_fragment, advance, pause_after, pause_if_pending, front_needs_room};
ghost use Rattle.sctp_tx_queue.specs.Settings.{with_threshold, without_front, front_discarded};
ghost use Rattle.sctp_tx_queue.specs.Resets.{is_ready, after_step, emit_unsent, prepare_stream, pause_for_reset};
ghost use Rattle.sctp_tx_queue.specs.Emptied.{emptied, emit_ended};
ghost use Rattle.sctp_state.specs.Handover.{stream_message_of};
ghost use Rattle.sctp_tx_queue.specs.Change.{changed};
ghost use Rattle.sctp_tx_queue.specs.Handover.{messages_of, outgoing_stream};
ghost use Rattle.sctp_tx_queue.specs.Readiness.{has_reset_pending};
ghost use Rattle.sctp_tx_queue.specs.Restarted.{restart, has_first_numbers, is_restarted};
ghost use Rattle.sctp_tx_queue.specs.Restored.{stream_from};
ghost use Rattle.sctp_tx_queue.specs.Whole.{is_front_whole, front_ended, front_lifecycle};
ghost use Rattle.sctp_tx_queue.specs.Views.{produced_of};

use crate::data_to_send::DataToSend;
use crate::send_queue::emitting::Lows;
use crate::send_queue::message::{Details, MessageNumbers, QueuedMessage};
use crate::send_queue::messages::{Messages, SpareRooms};
use crate::send_queue::sending::StreamTurn;
use sctp_chunk::SpareBuffers;
use sctp_serial::{LifecycleId, Mid, OutgoingMessageId, SerialNumber, SocketTime, Ssn, StreamId};
use sctp_state::api::handover::{HandoverOutgoingStream, HandoverStreamMessage};
use sctp_state::{Events, ThresholdWatcher};
use std::alloc::{AllocError, Global};
use std::marker::Model;

/// Whether a stream sends, or waits for a reset (RFC 6525).
#[derive(Clone, Copy)]
pub enum PauseState {
    /// It sends.
    NotPaused,
    /// It is to be reset once its partly sent message has ended.
    Pending,
    /// It can be reset.
    Paused,
    /// Its reset was requested and isn't answered.
    Resetting,
}

/// What happens to a stream that can be reset.
#[derive(Clone, Copy)]
pub enum ResetStep {
    /// It goes into a request.
    Requested,
    /// The peer performed the request.
    Performed,
    /// The peer refused the request.
    Refused,
}

/// What is changed of a stream.
#[derive(Clone, Copy)]
pub enum StreamChange {
    /// It has this low threshold.
    Threshold(usize),
    /// It has this priority.
    Priority(u16),
    /// The messages at its front that expired by this time, before they were begun, are dropped.
    DropStale(SocketTime),
    /// The message at its front is dropped, if it is this one.
    Discard(OutgoingMessageId),
    /// It is to be reset: the messages of which nothing is sent are dropped.
    Prepare,
    /// It takes a step of a reset.
    Step(ResetStep),
    /// A new association begins.
    Restart,
    /// All messages are dropped.
    Empty,
}

/// The messages of a stream. `buffered` counts the bytes that are not sent.
#[derive(Drop)]
pub struct Stream {
    messages: Messages,
    next_ssn: u64,
    next_ordered_mid: u64,
    next_unordered_mid: u64,
    buffered: ThresholdWatcher,
    priority: u16,
    pause_state: PauseState,
}

impl Model for Stream {
    ghost use Rattle.std.specs.Prelude.{◌≡◌, sum_by};
    ghost use Rattle.sctp_tx_queue.specs.SendQueue.{Stream, remaining_bytes};

    ghost Value = { Stream };

    ghost view = { λ s. record { messages = s.messages; pause = s.pause_state; next_ssn = s.next_ssn; next_ordered_mid = s.next_ordered_mid; next_unordered_mid = s.next_unordered_mid; priority = s.priority; threshold = s.buffered.low_threshold } };

    ghost invariant = { λ s. s.buffered.amount ≡ sum_by remaining_bytes s.messages };
}

/// What is known of a message that is to be dropped before it is fully sent.
#[derive(Clone, Copy)]
pub struct Discarded {
    pub lifecycle_id: Option<LifecycleId>,
}

/// The pause of a stream that is to be reset.
fn waiting(is_empty: bool, pause_state: PauseState) -> PauseState
    ensures { result ≡ pause_for_reset is_empty pause_state }
{
    match pause_state {
        PauseState::NotPaused if is_empty => PauseState::Paused,
        PauseState::NotPaused => PauseState::Pending,
        _ => pause_state,
    }
}

/// The pause of a stream of which no message is partly sent any more.
fn settled(pause_state: PauseState) -> PauseState
    ensures { result ≡ pause_if_pending pause_state }
{
    match pause_state {
        PauseState::Pending => PauseState::Paused,
        _ => pause_state,
    }
}

fn is_stopped(pause_state: PauseState) -> bool
    ensures { result ≡ is_stopped pause_state }
{
    match pause_state {
        PauseState::NotPaused | PauseState::Pending => false,
        PauseState::Paused | PauseState::Resetting => true,
    }
}

/// What a stream has to send.
fn sendable(pause_state: PauseState, left: usize) -> usize
    ensures { result ≡ (if is_stopped pause_state then 0 else left) }
{
    if is_stopped(pause_state) { 0 } else { left }
}

/// The pause after a fragment.
fn pause_after(is_end: bool, pause_state: PauseState) -> PauseState
    ensures { result ≡ pause_after is_end pause_state }
{
    if is_end {
        settled(pause_state)
    } else {
        pause_state
    }
}

impl Stream {
    /// No messages.
    pub(crate) fn new(priority: u16, low_threshold: usize) -> Stream
        ensures { result ≡ blank_stream priority low_threshold }
    {
        Stream {
            messages: Messages::new(),
            pause_state: PauseState::NotPaused,
            next_ssn: 1 << 32,
            next_ordered_mid: 1 << 32,
            next_unordered_mid: 1 << 32,
            priority,
            buffered: ThresholdWatcher::new(low_threshold),
        }
    }

    /// The stream of a record, with this threshold and without messages.
    pub(crate) fn restored(low_threshold: usize, stream: &HandoverOutgoingStream) -> Stream
        ensures { result ≡ stream_from 0 low_threshold [] stream.now }
    {
        Stream {
            messages: Messages::new(),
            pause_state: PauseState::NotPaused,
            next_ssn: (1 << 32) + stream.next_ssn as u64,
            next_ordered_mid: (1 << 32) + stream.next_ordered_mid as u64,
            next_unordered_mid: (1 << 32) + stream.next_unordered_mid as u64,
            priority: stream.priority,
            buffered: ThresholdWatcher::new(low_threshold),
        }
    }

    /// The bytes that are not sent.
    pub(crate) fn amount(&self) -> usize
        ensures { result ≡ amount_of self.now }
    {
        self.buffered.amount()
    }

    pub(crate) fn priority(&self) -> u16
        ensures { result ≡ self.now.priority }
    {
        self.priority
    }

    /// The bytes that are not sent of the message that goes next; 0 where the stream is paused.
    pub(crate) fn sendable(&self) -> usize
        ensures { result ≡ sendable self.now }
    {
        sendable(self.pause_state, self.messages.front_left())
    }

    /// The same once a message was added.
    pub(crate) fn sendable_with(&self, message: &QueuedMessage) -> usize
        ensures { result ≡ sendable (push message.now self.now) }
    {
        if self.messages.is_empty() {
            return sendable(self.pause_state, message.left());
        }
        self.sendable()
    }

    /// The same after the next fragment, of at most `size` bytes.
    pub(crate) fn sendable_after(&self, size: usize) -> usize
        ensures { result ≡ sendable (advance size self.now) }
    {
        let is_end = self.messages.front_ends(size);
        sendable(
            pause_after(is_end, self.pause_state),
            self.messages.left_after(size),
        )
    }

    /// The same without the message at the front, if it is this one.
    pub(crate) fn sendable_without(&self, message_id: OutgoingMessageId) -> usize
        ensures { result ≡ sendable (without_front message_id.0 self.now.messages self.now) }
    {
        if self.messages.is_front(message_id) {
            return sendable(settled(self.pause_state), self.messages.second_left());
        }
        self.sendable()
    }

    /// The same once the stream is to be reset.
    pub(crate) fn sendable_prepared(&self) -> usize
        ensures { result ≡ sendable (prepare_stream self.now) }
    {
        let left = self.messages.partly_left();
        sendable(waiting(left == 0, self.pause_state), left)
    }

    /// The same after a step of the stream's reset.
    pub(crate) fn sendable_stepped(&self, step: ResetStep) -> usize
        ensures { result ≡ sendable (after_step step self.now) }
    {
        match step {
            ResetStep::Requested => 0,
            ResetStep::Performed | ResetStep::Refused => self.messages.front_left(),
        }
    }

    /// The same once a new association begins.
    pub(crate) fn sendable_restarted(&self) -> usize
        ensures { result ≡ sendable (restart self.now) }
    {
        self.messages.front_whole()
    }

    /// Adds a message behind the others. Without memory nothing changes.
    #[inline(always)]
    pub(crate) fn push(
        &mut self,
        alloc: Global,
        spare_rooms: &mut SpareRooms,
        message: QueuedMessage,
    ) -> Result<(), AllocError>
        requires { amount_of self.old + remaining_bytes message < 2 ^ 64 }
        ensures ok { OnOk result (self.new ≡ push message self.old) }
        ensures err { OnErr result (self.new ≡ self.old) }
    {
        let bytes = message.left();
        self.messages.push(alloc, spare_rooms, message)?;
        self.buffered.increase(bytes);
        Ok(())
    }

    /// Which amounts fall to their thresholds as so many bytes of the stream are dropped: its own, and that of all streams, which
    /// is `total`.
    pub(crate) fn lows_by(&self, bytes: usize, total: &ThresholdWatcher) -> Lows
        requires own { bytes ≤ amount_of self.now }
        requires all { bytes ≤ total.now.amount }
        ensures low { result.is_low ≡ crosses (watched_amount self.now) (lower bytes (watched_amount self.now)) }
        ensures total { result.is_total_low ≡ crosses total.now (lower bytes total.now) }
    {
        Lows {
            is_low: self.buffered.is_crossed_by(bytes),
            is_total_low: total.is_crossed_by(bytes),
        }
    }

    /// Whether the message at the front expired before it was begun.
    pub(crate) fn is_front_stale(&self, now: SocketTime) -> bool
        ensures { result ≡ is_front_stale now self.now.messages }
    {
        self.messages.is_front_stale(now)
    }

    /// Emits the events of the messages at the front that expired before they were begun. The answer is their bytes.
    pub(crate) fn emit_stale(
        &self,
        now: SocketTime,
        events: &mut Events,
    ) -> Result<usize, AllocError>
        ensures ok { OnOk result (events.new ≡ emit_expired now self.now.messages events.old) }
        ensures bytes { IfOk result (λ bytes. bytes + amount_of (without_stale now self.now) ≡ amount_of self.now) }
        ensures err { OnErr result (Grown events.old events.new) }
    {
        // (read for its bound)
        let _amount = self.buffered.amount();
        self.messages.emit_stale_front(now, events)
    }

    /// Drops these messages.
    fn drop_stale(&mut self, now: SocketTime)
        ensures { self.new ≡ without_stale now self.old }
    {
        self.messages.drop_stale_front(&mut self.buffered, now);
    }

    fn front_numbers(&self) -> MessageNumbers
        ensures { result ≡ front_numbers self.now.messages self.now }
    {
        let Some(message) = self.messages.front() else {
            return MessageNumbers { ssn: 0, mid: 0 };
        };
        match message.numbers() {
            Some(numbers) => numbers,
            None if message.is_unordered() => MessageNumbers {
                ssn: 1 << 32,
                mid: self.next_unordered_mid,
            },
            None => MessageNumbers {
                ssn: self.next_ssn,
                mid: self.next_ordered_mid,
            },
        }
    }

    /// The message at the front takes its numbers, where it has none.
    fn number_front(&mut self)
        ensures { self.new ≡ front_took self.old.messages self.old }
    {
        let Some(message) = self.messages.front() else {
            return;
        };
        if message.numbers().is_some() {
            return;
        }
        if message.is_unordered() {
            self.next_unordered_mid = self.next_unordered_mid.wrapping_add(1);
        } else {
            self.next_ssn = self.next_ssn.wrapping_add(1);
            self.next_ordered_mid = self.next_ordered_mid.wrapping_add(1);
        }
    }

    /// The next fragment. The stream goes on by `advance`.
    pub(crate) fn fragment(
        &self,
        turn: StreamTurn,
        spares: &mut SpareBuffers,
    ) -> Result<Option<DataToSend>, AllocError>
        ensures { IfOk result (λ found. option_map produced_of found ≡ next_fragment turn.id.0 turn.size self.now) }
    {
        let numbers = self.front_numbers();
        self.messages.front_fragment(turn, spares, numbers)
    }

    /// How many bytes the next fragment has.
    pub(crate) fn fragment_size(&self, size: usize) -> usize
        ensures { amount_of (advance size self.now) + result ≡ amount_of self.now }
    {
        self.messages.front_left().min(size)
    }

    /// Whether the stream's amount falls to its threshold by the next fragment.
    pub(crate) fn is_low_after(&self, size: usize) -> bool
        ensures { result ≡ crosses (watched_amount self.now) (watched_amount (advance size self.now)) }
    {
        let bytes = self.fragment_size(size);
        self.buffered.is_crossed_by(bytes)
    }

    /// The next fragment is sent. The answer is the message that it ends.
    #[inline(always)]
    fn send_front(&mut self, size: usize, room: Option<Box<Details>>) -> Option<QueuedMessage>
        requires { is_some room ≡ front_needs_room size self.old.messages }
        ensures ended { result ≡ front_ended size self.old.messages }
        ensures after { self.new ≡ advance size self.old }
        ensures less { amount_of self.new ≤ amount_of self.old }
    {
        let bytes = self.fragment_size(size);
        let numbers = self.front_numbers();
        let is_end = self.messages.front_ends(size);
        self.number_front();
        let ended = self.messages.move_front_on(numbers, size, room);
        self.pause_state = pause_after(is_end, self.pause_state);
        self.buffered.decrease(bytes);
        ended
    }

    /// Without messages it leaves their room to these.
    pub(crate) fn leave_room_to(&mut self, spare_rooms: &mut SpareRooms)
        ensures { self.new ≡ self.old }
    {
        self.messages.leave_room_to(spare_rooms);
    }

    /// The room that the message at the front needs to move on by a fragment of this size.
    pub(crate) fn room_to_move_on(
        &self,
        alloc: Global,
        size: usize,
    ) -> Result<Option<Box<Details>>, AllocError>
        ensures { IfOk result (λ room. is_some room ≡ front_needs_room size self.now.messages) }
    {
        self.messages.room_to_move_on(alloc, size)
    }

    /// The next fragment is sent.
    pub(crate) fn advance(&mut self, size: usize, room: Option<Box<Details>>)
        requires { is_some room ≡ front_needs_room size self.old.messages }
        ensures after { self.new ≡ advance size self.old }
        ensures less { amount_of self.new ≤ amount_of self.old }
    {
        drop(self.send_front(size, room));
    }

    /// Whether the next fragment is a whole message.
    pub(crate) fn is_next_whole(&self, size: usize) -> bool
        ensures { result ≡ is_front_whole size self.now.messages }
    {
        match self.messages.front() {
            Some(message) => message.is_whole(size),
            None => false,
        }
    }

    /// The lifecycle id of the message at the front.
    pub(crate) fn front_lifecycle(&self) -> Option<LifecycleId>
        ensures { result ≡ front_lifecycle self.now.messages }
    {
        match self.messages.front() {
            Some(message) => message.lifecycle_id(),
            None => None,
        }
    }

    /// The next fragment is sent, which is a whole message: its payload isn't copied.
    pub(crate) fn take_whole(&mut self, turn: StreamTurn) -> Option<DataToSend>
        requires { IsTrue (is_front_whole turn.size self.old.messages) }
        ensures made { option_map produced_of result ≡ next_fragment turn.id.0 turn.size self.old }
        ensures after { self.new ≡ advance turn.size self.old }
        ensures less { amount_of self.new ≤ amount_of self.old }
    {
        let numbers = self.front_numbers();
        match self.send_front(turn.size, None) {
            Some(message) => Some(message.into_fragment(turn, numbers)),
            None => None,
        }
    }

    /// The amount at which the stream is low.
    pub(crate) fn low_threshold(&self) -> usize
        ensures { result ≡ self.now.threshold }
    {
        self.buffered.low_threshold()
    }

    /// Whether the amount is above the threshold and would be at most this one.
    pub(crate) fn is_low_at(&self, bytes: usize) -> bool
        ensures { result ≡ crosses (watched_amount self.now) (watched_amount (with_threshold bytes self.now)) }
    {
        self.buffered.is_crossed_at(bytes)
    }

    /// Sets the threshold.
    fn set_low_threshold(&mut self, bytes: usize)
        ensures { self.new ≡ with_threshold bytes self.old }
    {
        self.buffered.set_low_threshold(bytes);
    }

    /// The lifecycle id of the message at the front, if it is this one.
    pub(crate) fn front_discarded(&self, message_id: OutgoingMessageId) -> Option<Discarded>
        ensures { option_map (λ d. d.lifecycle_id) result ≡ front_discarded message_id.0 self.now.messages }
    {
        match self.messages.front() {
            Some(message) if message.message_id().0 == message_id.0 => Some(Discarded {
                lifecycle_id: message.lifecycle_id(),
            }),
            _ => None,
        }
    }

    /// The bytes of the message at the front, if it is this one.
    pub(crate) fn front_bytes(&self, message_id: OutgoingMessageId) -> usize
        ensures { result + amount_of (without_front message_id.0 self.now.messages self.now) ≡ amount_of self.now }
    {
        if self.messages.is_front(message_id) {
            self.messages.front_left()
        } else {
            0
        }
    }

    /// Drops the message at the front, if it is this one.
    fn discard(&mut self, message_id: OutgoingMessageId)
        ensures { self.new ≡ without_front message_id.0 self.old.messages self.old }
    {
        if self.messages.is_front(message_id) {
            self.messages.pop_front(&mut self.buffered);
            self.pause_state = settled(self.pause_state);
        }
    }

    /// Whether the stream can be reset, and is in no request.
    pub(crate) fn is_ready(&self) -> bool
        ensures { result ≡ is_ready self.now }
    {
        match self.pause_state {
            PauseState::Paused => true,
            PauseState::NotPaused | PauseState::Pending | PauseState::Resetting => false,
        }
    }

    /// Whether a reset of the stream waits, or is to be answered.
    pub(crate) fn is_waiting(&self) -> bool
        ensures { result ≡ has_reset_pending self.now }
    {
        match self.pause_state {
            PauseState::NotPaused => false,
            PauseState::Pending | PauseState::Paused | PauseState::Resetting => true,
        }
    }

    /// Takes a step of a reset.
    fn take_step(&mut self, step: ResetStep)
        ensures { self.new ≡ after_step step self.old }
    {
        match step {
            ResetStep::Requested => self.pause_state = PauseState::Resetting,
            ResetStep::Refused => self.pause_state = PauseState::NotPaused,
            ResetStep::Performed => {
                self.pause_state = PauseState::NotPaused;
                self.next_ssn = 1 << 32;
                self.next_ordered_mid = 1 << 32;
                self.next_unordered_mid = 1 << 32;
            }
        }
    }

    /// Emits of the messages of which nothing is sent that they are given up.
    pub(crate) fn emit_waiting(&self, events: &mut Events) -> Result<(), AllocError>
        ensures ok { OnOk result (events.new ≡ emit_unsent self.now.messages events.old) }
        ensures err { OnErr result (Grown events.old events.new) }
    {
        self.messages.emit_waiting(events)
    }

    /// Drops these messages. The stream can be reset once none is partly sent.
    fn prepare_reset(&mut self)
        ensures { self.new ≡ prepare_stream self.old }
    {
        self.messages.keep_partly_sent(&mut self.buffered);
        self.pause_state = waiting(self.messages.is_empty(), self.pause_state);
    }

    pub(crate) fn has_messages(&self) -> bool
        ensures { result ≡ not (has_nothing self.now) }
    {
        !self.messages.is_empty()
    }

    /// Emits of all messages that they are given up, as their association ended.
    pub(crate) fn emit_ended(&self, events: &mut Events) -> Result<(), AllocError>
        ensures ok { OnOk result (events.new ≡ emit_ended self.now.messages events.old) }
        ensures err { OnErr result (Grown events.old events.new) }
    {
        self.messages.emit_ended(events)
    }

    /// Drops all messages.
    fn empty(&mut self)
        ensures { self.new ≡ emptied self.old }
    {
        self.messages.clear();
        let bytes = self.buffered.amount();
        self.buffered.decrease(bytes);
    }

    /// A new association begins: the message at the front is whole again, and the numbers begin again.
    pub(crate) fn restart(&mut self)
        requires { amount_of (restart self.old) < 2 ^ 64 }
        ensures { self.new ≡ restart self.old }
    {
        let sent = self.messages.make_front_whole();
        self.buffered.increase(sent);
        self.pause_state = PauseState::NotPaused;
        self.next_ssn = 1 << 32;
        self.next_ordered_mid = 1 << 32;
        self.next_unordered_mid = 1 << 32;
    }

    fn has_first_numbers(&self) -> bool
        ensures { result ≡ has_first_numbers self.now }
    {
        let first = 1 << 32;
        self.next_ssn == first
            && (self.next_ordered_mid == first && self.next_unordered_mid == first)
    }

    /// Whether it is as a restart leaves it.
    #[inline(always)]
    pub(crate) fn is_restarted(&self) -> bool
        ensures { result ≡ is_restarted self.now }
    {
        !self.is_waiting() && (self.has_first_numbers() && self.messages.is_front_unbegun())
    }

    /// Changes it.
    pub(crate) fn change(&mut self, change: StreamChange)
        requires { amount_of (changed change self.old) < 2 ^ 64 }
        ensures { self.new ≡ changed change self.old }
    {
        match change {
            StreamChange::Threshold(bytes) => self.set_low_threshold(bytes),
            StreamChange::Priority(priority) => self.priority = priority,
            StreamChange::DropStale(now) => self.drop_stale(now),
            StreamChange::Discard(message_id) => self.discard(message_id),
            StreamChange::Prepare => self.prepare_reset(),
            StreamChange::Step(step) => self.take_step(step),
            StreamChange::Restart => self.restart(),
            StreamChange::Empty => self.empty(),
        }
    }

    /// It in the record of a socket that is handed over.
    pub(crate) fn handed_over(&self, id: StreamId) -> HandoverOutgoingStream
        ensures { result ≡ outgoing_stream id.0 self.now }
    {
        HandoverOutgoingStream {
            id: id.0,
            next_ssn: Ssn::wrapped(Ssn(0), self.next_ssn).0,
            next_unordered_mid: Mid::wrapped(Mid(0), self.next_unordered_mid).0,
            next_ordered_mid: Mid::wrapped(Mid(0), self.next_ordered_mid).0,
            priority: self.priority,
        }
    }

    /// Adds its messages to those of the record.
    pub(crate) fn hand_messages_over(
        &self,
        alloc: Global,
        now: SocketTime,
        id: StreamId,
        records: &mut Vec<HandoverStreamMessage>,
    ) -> Result<(), AllocError>
        ensures { OnOk result (map stream_message_of records.new.items ≡ map stream_message_of records.old.items ++ messages_of now id.0 self.now) }
    {
        self.messages.hand_over(alloc, now, id, records)
    }
}
