//! The streams that were named, and what is left on all of them.

ghost use Rattle.std.specs.Prelude.{◌≡◌, ◌+◌, ◌<◌, ◌≤◌, ◌^◌, ◌==◌, ◌&&◌, not, true, false, [], ◌∷◌, ◌++◌, if◌then◌else◌, None, Some, IsTrue, IsSome, IfOk, OnOk, OnErr, option_map, map, take, filter};
ghost use Rattle.std.specs.Map.{lookup, keys_of, values_of};
ghost use Rattle.std.specs.List.{list_all, list_any};
ghost use Rattle.std.specs.List.Sorted.{IsStrictlySortedBy};
ghost use Rattle.std.specs.Ordering.{nat_cmp};
ghost use Rattle.std.specs.BTreeMap.{is_at};
ghost use Rattle.sctp_state.specs.Events.{Grown};
ghost use Rattle.sctp_state.specs.Options.{options_of};
ghost use Rattle.sctp_state.specs.ThresholdWatcher.{crosses, lower};
ghost use Rattle.sctp_tx_queue.specs.SendQueue.{amount_of, total_of, watched_amount, watched_total, no_streams, stream, with_stream, put_stream, push, sendable, has_nothing};
ghost use Rattle.sctp_tx_queue.specs.Produced.{emit_stale, falls_low, total_falls_low, left_empty, without_stale, streams_without_stale, streams_after, next_fragment, emitted_of, in_line};
ghost use Rattle.sctp_tx_queue.specs.Settings.{with_threshold, streams_discarded, front_discarded};
ghost use Rattle.sctp_tx_queue.specs.Resets.{is_ready, after_step, ready, prepare_stream, emit_unsent};
ghost use Rattle.sctp_state.specs.Handover.{stream_message_of};
ghost use Rattle.sctp_tx_queue.specs.Handover.{outgoing_streams, queued_messages};
ghost use Rattle.sctp_tx_queue.specs.Readiness.{has_reset_pending};
ghost use Rattle.sctp_tx_queue.specs.Bounded.{one};
ghost use Rattle.sctp_tx_queue.specs.Change.{changed};
ghost use Rattle.sctp_tx_queue.specs.Restarted.{restart, is_restarted, may_differ, Joins};
ghost use Rattle.sctp_tx_queue.specs.Emptied.{emit_ended, emit_all_ended, is_to_empty, streams_to_empty};
ghost use Rattle.sctp_state.specs.Validity.{are_valid_messages, queued_bytes, outgoing_ids, rises_from};
ghost use Rattle.sctp_state.specs.Handover.{transmission_of};
ghost use Rattle.sctp_tx_queue.specs.Restored.{entries_from, streams_from};
ghost use Rattle.sctp_tx_queue.specs.Views.{produced_of};

mod ending;

use crate::data_to_send::DataToSend;
use crate::send_queue::changes::ChangedStreams;
use crate::send_queue::emitting::{Lows, NOTHING_LOW, emit_production};
use crate::send_queue::message::QueuedMessage;
use crate::send_queue::messages::SpareRooms;
use crate::send_queue::ready_ids::{ReadyIds, first_ids};
use crate::send_queue::sending::{CountedTurn, StreamTurn, send_from};
use crate::send_queue::stream::{Discarded, ResetStep, Stream, StreamChange};
use sctp_chunk::SpareBuffers;
use sctp_serial::{OutgoingMessageId, SocketTime, StreamId};
use sctp_state::api::handover::{
    HandoverOutgoingStream, HandoverStreamMessage, HandoverTransmission,
};
use sctp_state::{Events, Options, ThresholdWatcher};
use sctp_stream_scheduler::StreamScheduler;
use std::alloc::{AllocError, Global};
use std::collections::BTreeMap;
use std::marker::Model;

/// The streams by id. `total` counts the bytes on all of them that are not sent, `ready_count` the streams that can be
/// reset and are in no request. `avoids_stalls` says whether amounts that fall as messages are given
/// up have their events.
#[derive(Drop)]
pub struct Streams {
    streams: BTreeMap<u16, Stream>,
    total: ThresholdWatcher,
    ready_count: usize,
    ready_ids: ReadyIds,
    default_threshold: usize,
    default_priority: u16,
    avoids_stalls: bool,
    spare_rooms: SpareRooms,
}

impl Model for Streams {
    ghost use Rattle.sctp_tx_queue.specs.SendQueue.{Streams};
    ghost use Rattle.sctp_tx_queue.specs.Bounded.{IsCounted};

    ghost Value = { Streams };

    ghost view = { λ s. record { entries = s.streams.entries; total_threshold = s.total.low_threshold; default_threshold = s.default_threshold; default_priority = s.default_priority; avoids_stalls = s.avoids_stalls } };

    ghost invariant = { λ s. IsCounted s.total.amount s.ready_count s.ready_ids s.streams.entries };
}

/// The bytes that a stream has to send, and its priority.
#[derive(Clone, Copy)]
pub struct Demand {
    pub bytes: usize,
    pub priority: u16,
}

impl Streams {
    /// No streams.
    pub(crate) fn new(alloc: Global, options: &Options) -> Streams
        ensures { result ≡ no_streams (options_of options.now) }
    {
        Streams {
            streams: BTreeMap::new(alloc),
            total: ThresholdWatcher::new(options.total_buffered_amount_low_threshold),
            ready_count: 0,
            ready_ids: ReadyIds::new(alloc),
            default_threshold: options.default_stream_buffered_amount_low_threshold,
            default_priority: options.default_stream_priority,
            avoids_stalls: options.avoid_stalls,
            spare_rooms: SpareRooms::new(alloc),
        }
    }

    /// The streams and messages of a record in the socket that takes it up now, with the defaults of these.
    pub(crate) fn restored(
        &self,
        alloc: Global,
        now: SocketTime,
        tx: &HandoverTransmission,
    ) -> Result<Streams, AllocError>
        requires rises { IsTrue (rises_from 0 (outgoing_ids tx.now.streams.items)) }
        requires valid { IsTrue (are_valid_messages tx.now.streams.items (2 ^ 32) (map stream_message_of tx.now.queued_messages.items)) }
        requires small { queued_bytes (map stream_message_of tx.now.queued_messages.items) < 2 ^ 32 }
        ensures { IfOk result (λ ss. ss ≡ streams_from now (transmission_of tx.now) self.now) }
    {
        let mut streams = self.without_messages(alloc, &tx.streams)?;
        restore_messages(&mut streams, alloc, now, &tx.streams, &tx.queued_messages)?;
        Ok(streams)
    }

    /// The streams of a record without messages.
    fn without_messages(
        &self,
        alloc: Global,
        records: &[HandoverOutgoingStream],
    ) -> Result<Streams, AllocError>
        requires { IsTrue (rises_from 0 (outgoing_ids records.now)) }
        ensures { IfOk result (λ ss. ss ≡ record self.now { entries = entries_from 0 self.now.default_threshold [] records.now }) }
    {
        let streams = restored_streams(alloc, self.default_threshold, records)?;
        Ok(Streams {
            streams,
            total: ThresholdWatcher::new(self.total.low_threshold()),
            ready_count: 0,
            ready_ids: ReadyIds::new(alloc),
            default_threshold: self.default_threshold,
            default_priority: self.default_priority,
            avoids_stalls: self.avoids_stalls,
            spare_rooms: SpareRooms::new(alloc),
        })
    }

    pub(crate) fn total(&self) -> usize
        ensures { result ≡ total_of self.now.entries }
    {
        self.total.amount()
    }

    pub(crate) fn amount(&self, id: StreamId) -> usize
        ensures { result ≡ amount_of (stream id.0 self.now) }
    {
        match self.streams.get(&id.0) {
            Some(stream) => stream.amount(),
            None => 0,
        }
    }

    /// How many streams were named.
    pub(crate) fn len(&self) -> usize
        ensures ordered { IsStrictlySortedBy nat_cmp (keys_of self.now.entries) }
    {
        self.streams.len()
    }

    pub(crate) fn is_empty(&self) -> bool
        ensures { result ≡ list_all has_nothing (values_of self.now.entries) }
    {
        self.total.amount() == 0
    }

    pub(crate) fn priority(&self, id: StreamId) -> u16
        ensures { result ≡ (stream id.0 self.now).priority }
    {
        match self.streams.get(&id.0) {
            Some(stream) => stream.priority(),
            None => self.default_priority,
        }
    }

    pub(crate) fn sendable(&self, id: StreamId) -> usize
        ensures { result ≡ sendable (stream id.0 self.now) }
    {
        match self.streams.get(&id.0) {
            Some(stream) => stream.sendable(),
            None => 0,
        }
    }

    /// Makes the stream where there is none. Without memory nothing changes.
    pub(crate) fn open(&mut self, id: StreamId) -> Result<(), AllocError>
        ensures ok { OnOk result (self.new ≡ with_stream id.0 self.old) }
        ensures there { OnOk result (IsSome (lookup (is_at (nat_cmp id.0)) self.new.entries)) }
        ensures stream { OnOk result (stream id.0 self.new ≡ stream id.0 self.old) }
        ensures total { total_of self.new.entries ≡ total_of self.old.entries }
        ensures err { OnErr result (self.new ≡ self.old) }
    {
        if self.streams.contains_key(&id.0) {
            return Ok(());
        }
        self.make(id)
    }

    /// Makes a stream that isn't there. Without memory nothing changes.
    fn make(&mut self, id: StreamId) -> Result<(), AllocError>
        requires { None ≡ lookup (is_at (nat_cmp id.0)) self.old.entries }
        ensures ok { OnOk result (self.new ≡ with_stream id.0 self.old) }
        ensures there { OnOk result (IsSome (lookup (is_at (nat_cmp id.0)) self.new.entries)) }
        ensures stream { OnOk result (stream id.0 self.new ≡ stream id.0 self.old) }
        ensures total { total_of self.new.entries ≡ total_of self.old.entries }
        ensures err { OnErr result (self.new ≡ self.old) }
    {
        let stream = Stream::new(self.default_priority, self.default_threshold);
        self.streams.insert(id.0, stream)?;
        Ok(())
    }

    /// Adds a message behind the others of its stream, which is made where there is none. Without memory nothing changes.
    #[inline(always)]
    pub(crate) fn push(
        &mut self,
        alloc: Global,
        id: StreamId,
        message: QueuedMessage,
    ) -> Result<(), AllocError>
        requires { total_of self.old.entries < 2 ^ 32 }
        ensures ok { OnOk result (self.new ≡ put_stream id.0 (push message (stream id.0 self.old)) (with_stream id.0 self.old)) }
        ensures err { OnErr result (self.new ≡ self.old) }
    {
        let Some(stream) = self.streams.get_mut(&id.0) else {
            return self.push_first(alloc, id, message);
        };
        let bytes = message.left();
        stream.push(alloc, &mut self.spare_rooms, message)?;
        self.total.increase(bytes);
        Ok(())
    }

    /// Makes a stream with a message.
    #[inline(never)]
    fn push_first(
        &mut self,
        alloc: Global,
        id: StreamId,
        message: QueuedMessage,
    ) -> Result<(), AllocError>
        requires absent { None ≡ lookup (is_at (nat_cmp id.0)) self.old.entries }
        requires room { total_of self.old.entries < 2 ^ 32 }
        ensures ok { OnOk result (self.new ≡ put_stream id.0 (push message (stream id.0 self.old)) (with_stream id.0 self.old)) }
        ensures err { OnErr result (self.new ≡ self.old) }
    {
        let bytes = message.left();
        let mut stream = Stream::new(self.default_priority, self.default_threshold);
        stream.push(alloc, &mut self.spare_rooms, message)?;
        self.streams.insert(id.0, stream)?;
        self.total.increase(bytes);
        Ok(())
    }

    /// What a stream has to send once a message was added.
    pub(crate) fn demand_with(&self, id: StreamId, message: &QueuedMessage) -> Demand
        ensures bytes { result.bytes ≡ sendable (push message.now (stream id.0 self.now)) }
        ensures priority { result.priority ≡ (stream id.0 self.now).priority }
    {
        match self.streams.get(&id.0) {
            Some(stream) => Demand {
                bytes: stream.sendable_with(message),
                priority: stream.priority(),
            },
            None => Demand {
                bytes: message.left(),
                priority: self.default_priority,
            },
        }
    }

    /// Drops the messages at the front of a stream that expired before they were begun, with their events. With
    /// `avoid_stalls` events say also what amounts fell to their thresholds by it. The answer is whether none is left, where some
    /// were dropped. Without memory nothing changes.
    pub(crate) fn drop_stale(
        &mut self,
        id: StreamId,
        now: SocketTime,
        events: &mut Events,
    ) -> Result<Option<bool>, AllocError>
        ensures ok { OnOk result (self.new ≡ streams_without_stale now id.0 self.old) }
        ensures emitted { OnOk result (events.new ≡ emit_stale now id.0 self.old events.old) }
        ensures left { IfOk result (λ left. left ≡ left_empty now (stream id.0 self.old).messages) }
        ensures err { OnErr result (self.new ≡ self.old) }
        ensures silent { OnErr result (events.new ≡ events.old) }
    {
        let Some(stream) = self.streams.get(&id.0) else {
            return Ok(None);
        };
        if !stream.is_front_stale(now) {
            return Ok(None);
        }
        let mark = events.mark();
        let Ok(bytes) = self.emit_stale(stream, id, now, events) else {
            events.roll_back(mark);
            return Err(AllocError);
        };
        let is_last = bytes == stream.amount();
        self.change(id, StreamChange::DropStale(now));
        Ok(Some(is_last))
    }

    /// Emits the events of these messages of a stream, and of the amounts that fall as they are dropped. The answer is
    /// their bytes.
    fn emit_stale(
        &self,
        stream: &Stream,
        id: StreamId,
        now: SocketTime,
        events: &mut Events,
    ) -> Result<usize, AllocError>
        requires { Some stream.now ≡ lookup (is_at (nat_cmp id.0)) self.now.entries }
        ensures ok { OnOk result (events.new ≡ emit_stale now id.0 self.now events.old) }
        ensures bytes { IfOk result (λ bytes. bytes + amount_of (without_stale now stream.now) ≡ amount_of stream.now) }
        ensures err { OnErr result (Grown events.old events.new) }
    {
        let bytes = stream.emit_stale(now, events)?;
        let lows = self.lows_by(stream, bytes);
        emit_production(events, id, lows, None)?;
        Ok(bytes)
    }

    /// Which amounts fall to their thresholds as so many bytes of a stream are dropped; none are named without `avoid_stalls`.
    fn lows_by(&self, stream: &Stream, bytes: usize) -> Lows
        requires own { bytes ≤ amount_of stream.now }
        requires all { bytes ≤ total_of self.now.entries }
        ensures low { result.is_low ≡ (self.now.avoids_stalls && crosses (watched_amount stream.now) (lower bytes (watched_amount stream.now))) }
        ensures total { result.is_total_low ≡ (self.now.avoids_stalls && crosses (watched_total self.now) (lower bytes (watched_total self.now))) }
    {
        if self.avoids_stalls {
            stream.lows_by(bytes, &self.total)
        } else {
            NOTHING_LOW
        }
    }

    /// A stream sends its next fragment, of at most `size` bytes, with its events: the stream goes in line for the one after
    /// it; one that has none leaves. Without memory nothing changes but `changed`: the stream joins it, as it does else, unless it is there.
    pub(crate) fn send_front(
        &mut self,
        turn: StreamTurn,
        spares: &mut SpareBuffers,
        scheduler: &mut StreamScheduler,
        changed: &mut ChangedStreams,
        events: &mut Events,
    ) -> Result<Option<DataToSend>, AllocError>
        ensures joins { Joins (is_restarted (stream turn.id.0 self.old)) turn.id.0 changed.old changed.new }
        ensures streams { OnOk result (self.new ≡ streams_after turn.id.0 turn.size self.old) }
        ensures line { OnOk result (scheduler.new ≡ in_line turn.id.0 (sendable (stream turn.id.0 (streams_after turn.id.0 turn.size self.old))) (stream turn.id.0 (streams_after turn.id.0 turn.size self.old)).priority (next_fragment turn.id.0 turn.size (stream turn.id.0 self.old)) scheduler.old) }
        ensures emitted { OnOk result (events.new ≡ emitted_of turn.id.0 turn.size self.old events.old) }
        ensures made { IfOk result (λ found. option_map produced_of found ≡ next_fragment turn.id.0 turn.size (stream turn.id.0 self.old)) }
        ensures err { OnErr result (self.new ≡ self.old) }
        ensures kept { OnErr result (scheduler.new ≡ scheduler.old) }
        ensures silent { OnErr result (events.new ≡ events.old) }
    {
        // (read for its bound: no more streams are ready)
        let _count = self.streams.len();
        let Some(stream) = self.streams.get_mut(&turn.id.0) else {
            changed.add(turn.id);
            scheduler.leave(turn.id);
            return Ok(None);
        };
        changed.add_first(turn.id, stream);
        let before = stream.amount();
        let was_ready = stream.is_ready();
        let is_total_low = self.total.is_crossed_by(stream.fragment_size(turn.size));
        let counted = CountedTurn { turn, is_total_low };
        let made = send_from(counted, spares, stream, scheduler, events)?;
        stream.leave_room_to(&mut self.spare_rooms);
        self.total.decrease(before - stream.amount());
        let is_ready = stream.is_ready();
        self.ready_count = ready_count_after(self.ready_count, was_ready, is_ready);
        self.ready_ids.follow(turn.id.0, was_ready, is_ready);
        Ok(made)
    }

    /// Changes a stream, where it is there.
    pub(crate) fn change(&mut self, id: StreamId, change: StreamChange)
        ensures { self.new ≡ put_stream id.0 (changed change (stream id.0 self.old)) self.old }
    {
        // (read for its bound: no more streams are ready)
        let _count = self.streams.len();
        let Some(stream) = self.streams.get_mut(&id.0) else {
            return;
        };
        let before = stream.amount();
        let was_ready = stream.is_ready();
        stream.change(change);
        self.total.decrease(before);
        self.total.increase(stream.amount());
        let is_ready = stream.is_ready();
        self.ready_count = ready_count_after(self.ready_count, was_ready, is_ready);
        self.ready_ids.follow(id.0, was_ready, is_ready);
    }

    pub(crate) fn low_threshold(&self, id: StreamId) -> usize
        ensures { result ≡ (stream id.0 self.now).threshold }
    {
        match self.streams.get(&id.0) {
            Some(stream) => stream.low_threshold(),
            None => self.default_threshold,
        }
    }

    /// Whether a stream's amount is above its threshold and would be at most this one.
    pub(crate) fn is_low_at(&self, id: StreamId, bytes: usize) -> bool
        ensures { result ≡ crosses (watched_amount (stream id.0 self.now)) (watched_amount (with_threshold bytes (stream id.0 self.now))) }
    {
        match self.streams.get(&id.0) {
            Some(stream) => stream.is_low_at(bytes),
            None => false,
        }
    }

    /// The lifecycle id of the message at the front of a stream, if it is this one.
    pub(crate) fn front_discarded(
        &self,
        id: StreamId,
        message_id: OutgoingMessageId,
    ) -> Option<Discarded>
        ensures { option_map (λ d. d.lifecycle_id) result ≡ front_discarded message_id.0 (stream id.0 self.now).messages }
    {
        match self.streams.get(&id.0) {
            Some(stream) => stream.front_discarded(message_id),
            None => None,
        }
    }

    /// Which amounts fall to their thresholds without that message; none are named without `avoid_stalls`.
    pub(crate) fn lows_without(&self, id: StreamId, message_id: OutgoingMessageId) -> Lows
        ensures low { result.is_low ≡ falls_low id.0 self.now (streams_discarded id.0 message_id.0 self.now) }
        ensures total { result.is_total_low ≡ total_falls_low self.now (streams_discarded id.0 message_id.0 self.now) }
    {
        match self.streams.get(&id.0) {
            Some(stream) => self.lows_by(stream, stream.front_bytes(message_id)),
            None => NOTHING_LOW,
        }
    }

    /// What a stream has to send without that message.
    pub(crate) fn demand_without(&self, id: StreamId, message_id: OutgoingMessageId) -> Demand
        ensures bytes { result.bytes ≡ sendable (stream id.0 (streams_discarded id.0 message_id.0 self.now)) }
        ensures priority { result.priority ≡ (stream id.0 (streams_discarded id.0 message_id.0 self.now)).priority }
    {
        match self.streams.get(&id.0) {
            Some(stream) => Demand {
                bytes: stream.sendable_without(message_id),
                priority: stream.priority(),
            },
            None => self.no_demand(),
        }
    }

    /// Emits of the messages of a stream of which nothing is sent that they are given up, and answers what it has to send once it is to
    /// be reset. Where there is no such stream it is made.
    pub(crate) fn emit_waiting(
        &mut self,
        id: StreamId,
        events: &mut Events,
    ) -> Result<Demand, AllocError>
        ensures ok { OnOk result (self.new ≡ with_stream id.0 self.old) }
        ensures there { OnOk result (IsSome (lookup (is_at (nat_cmp id.0)) self.new.entries)) }
        ensures stream { OnOk result (stream id.0 self.new ≡ stream id.0 self.old) }
        ensures emitted { OnOk result (events.new ≡ emit_unsent (stream id.0 self.old).messages events.old) }
        ensures bytes { IfOk result (λ demand. demand.bytes ≡ sendable (prepare_stream (stream id.0 self.old))) }
        ensures priority { IfOk result (λ demand. demand.priority ≡ (stream id.0 self.old).priority) }
        ensures same { IfOk result (λ demand. 0 < demand.bytes → self.new ≡ self.old) }
        ensures err { OnErr result (self.new ≡ self.old) }
        ensures grown { OnErr result (Grown events.old events.new) }
    {
        match self.streams.get(&id.0) {
            Some(stream) => {
                stream.emit_waiting(events)?;
                Ok(Demand {
                    bytes: stream.sendable_prepared(),
                    priority: stream.priority(),
                })
            }
            None => {
                self.make(id)?;
                Ok(self.no_demand())
            }
        }
    }

    /// What a stream has to send after a step of its reset.
    pub(crate) fn demand_stepped(&self, id: StreamId, step: ResetStep) -> Demand
        ensures bytes { result.bytes ≡ sendable (stream id.0 (put_stream id.0 (after_step step (stream id.0 self.now)) self.now)) }
        ensures priority { result.priority ≡ (stream id.0 (put_stream id.0 (after_step step (stream id.0 self.now)) self.now)).priority }
    {
        match self.streams.get(&id.0) {
            Some(stream) => Demand {
                bytes: stream.sendable_stepped(step),
                priority: stream.priority(),
            },
            None => self.no_demand(),
        }
    }

    /// What a stream has to send once a new association begins.
    pub(crate) fn demand_restarted(&self, id: StreamId) -> Demand
        ensures bytes { result.bytes ≡ sendable (stream id.0 (put_stream id.0 (restart (stream id.0 self.now)) self.now)) }
        ensures priority { result.priority ≡ (stream id.0 (put_stream id.0 (restart (stream id.0 self.now)) self.now)).priority }
    {
        match self.streams.get(&id.0) {
            Some(stream) => Demand {
                bytes: stream.sendable_restarted(),
                priority: stream.priority(),
            },
            None => self.no_demand(),
        }
    }

    /// A new association begins for a stream on which no message waits. The answer is whether it is one.
    pub(crate) fn restart_idle(&mut self, id: StreamId) -> bool
        ensures idle { result ≡ has_nothing (stream id.0 self.old) }
        ensures done { result ≡ true → self.new ≡ put_stream id.0 (restart (stream id.0 self.old)) self.old }
        ensures same { result ≡ false → self.new ≡ self.old }
    {
        // (read for its bound: no more streams are ready)
        let _count = self.streams.len();
        let Some(stream) = self.streams.get_mut(&id.0) else {
            return true;
        };
        if stream.has_messages() {
            return false;
        }
        let was_ready = stream.is_ready();
        stream.restart();
        self.ready_count = ready_count_after(self.ready_count, was_ready, false);
        self.ready_ids.follow(id.0, was_ready, false);
        true
    }

    /// Whether a stream is as a restart leaves it.
    pub(crate) fn is_restarted(&self, id: StreamId) -> bool
        ensures { result ≡ is_restarted (stream id.0 self.now) }
    {
        match self.streams.get(&id.0) {
            Some(stream) => stream.is_restarted(),
            None => true,
        }
    }

    /// What a stream has to send that isn't there.
    fn no_demand(&self) -> Demand
        ensures bytes { result.bytes ≡ 0 }
        ensures priority { result.priority ≡ self.now.default_priority }
    {
        Demand {
            bytes: 0,
            priority: self.default_priority,
        }
    }

    /// Emits of all messages that they are given up, as their association ended. The answer is the streams that have
    /// messages or are in line, by ascending id.
    pub(crate) fn emit_ended(
        &self,
        alloc: Global,
        scheduler: &StreamScheduler,
        events: &mut Events,
    ) -> Result<Vec<StreamId>, AllocError>
        ensures streams { IfOk result (λ ids. map (λ id. id.0) ids.items ≡ streams_to_empty scheduler.now self.now.entries) }
        ensures emitted { OnOk result (events.new ≡ emit_all_ended (values_of self.now.entries) events.old) }
        ensures ordered { IsStrictlySortedBy nat_cmp (keys_of self.now.entries) }
        ensures err { OnErr result (Grown events.old events.new) }
    {
        // (read for its clause: the ids ascend)
        let _count = self.streams.len();
        emit_each_ended(alloc, &self.streams, scheduler, events)
    }

    /// The streams in the record of a socket that is handed over.
    pub(crate) fn handed_over(
        &self,
        alloc: Global,
    ) -> Result<Vec<HandoverOutgoingStream>, AllocError>
        ensures records { IfOk result (λ records. records.items ≡ outgoing_streams self.now.entries) }
        ensures ordered { IsStrictlySortedBy nat_cmp (keys_of self.now.entries) }
    {
        outgoing_streams(alloc, &self.streams)
    }

    /// The messages of all streams in that record.
    pub(crate) fn messages_handed_over(
        &self,
        alloc: Global,
        now: SocketTime,
    ) -> Result<Vec<HandoverStreamMessage>, AllocError>
        ensures { IfOk result (λ records. map stream_message_of records.items ≡ queued_messages now self.now.entries) }
    {
        queued_messages(alloc, now, &self.streams)
    }

    /// Those that may have changed, by ascending id.
    pub(crate) fn changed_ids(
        &self,
        alloc: Global,
        changed: &ChangedStreams,
    ) -> Result<Vec<StreamId>, AllocError>
        ensures { IfOk result (λ ids. map (λ id. id.0) ids.items ≡ filter (may_differ changed.now) (keys_of self.now.entries)) }
    {
        changed.of(alloc, &self.streams)
    }

    /// The first streams that can be reset and are in no request, by ascending id and at most `most`. Where memory was
    /// missing to list them, streams are looked at one by one until so many are found.
    pub(crate) fn ready(&mut self, alloc: Global, most: usize) -> Result<Vec<StreamId>, AllocError>
        ensures ids { IfOk result (λ ids. map (λ id. id.0) ids.items ≡ take most (ready self.old.entries)) }
        ensures same { self.new ≡ self.old }
    {
        if self.ready_count == 0 {
            self.ready_ids.begin();
            return Ok(Vec::new(alloc));
        }
        if self.ready_ids.is_known {
            return first_ids(alloc, &self.ready_ids.ids, most);
        }
        ready_streams(alloc, &self.streams, most)
    }

    /// Whether a reset of a stream waits, or is to be answered.
    pub(crate) fn has_waiting(&self) -> bool
        ensures { result ≡ list_any has_reset_pending (values_of self.now.entries) }
    {
        self.streams.values().any(|stream| stream.is_waiting())
    }

    pub(crate) fn has_ready(&self) -> bool
        ensures { result ≡ list_any is_ready (values_of self.now.entries) }
    {
        self.ready_count > 0
    }
}

/// How many streams are ready after a change of one of them.
fn ready_count_after(count: usize, was_ready: bool, is_ready: bool) -> usize
    requires least { one was_ready ≤ count }
    requires most { count < 2 ^ 63 }
    ensures { result + one was_ready ≡ count + one is_ready }
{
    count + usize::from(is_ready) - usize::from(was_ready)
}

/// The first ready streams, at most `most`.
fn ready_streams(
    alloc: Global,
    streams: &BTreeMap<u16, Stream>,
    most: usize,
) -> Result<Vec<StreamId>, AllocError>
    ensures { IfOk result (λ ids. map (λ id. id.0) ids.items ≡ take most (ready streams.now.entries)) }
{
    let mut ids = Vec::new(alloc);
    for (id, stream) in streams {
        if ids.len() >= most {
            return Ok(ids);
        }
        if stream.is_ready() {
            ids.push(StreamId(*id))?;
        }
    }
    Ok(ids)
}

/// Whether a stream has messages or is in line.
fn is_to_empty(scheduler: &StreamScheduler, id: StreamId, stream: &Stream) -> bool
    ensures { result ≡ is_to_empty id.0 stream.now scheduler.now }
{
    stream.has_messages() || scheduler.is_active(id)
}

/// Emits of the messages of a stream that they are given up. One that has messages or is in line is added to these.
fn emit_and_list(
    ids: &mut Vec<StreamId>,
    scheduler: &StreamScheduler,
    id: StreamId,
    stream: &Stream,
    events: &mut Events,
) -> Result<(), AllocError>
    ensures listed { OnOk result (map (λ id. id.0) ids.new.items ≡ map (λ id. id.0) ids.old.items ++ (if is_to_empty id.0 stream.now scheduler.now then id.0 ∷ [] else [])) }
    ensures emitted { OnOk result (events.new ≡ emit_ended stream.now.messages events.old) }
    ensures err { OnErr result (Grown events.old events.new) }
{
    if !is_to_empty(scheduler, id, stream) {
        return Ok(());
    }
    ids.push(id)?;
    stream.emit_ended(events)
}

/// Emits of the messages of all streams that they are given up. The answer is those that have messages or are in line.
fn emit_each_ended(
    alloc: Global,
    streams: &BTreeMap<u16, Stream>,
    scheduler: &StreamScheduler,
    events: &mut Events,
) -> Result<Vec<StreamId>, AllocError>
    ensures streams { IfOk result (λ ids. map (λ id. id.0) ids.items ≡ streams_to_empty scheduler.now streams.now.entries) }
    ensures emitted { OnOk result (events.new ≡ emit_all_ended (values_of streams.now.entries) events.old) }
    ensures err { OnErr result (Grown events.old events.new) }
{
    let mut ids = Vec::new(alloc);
    for (id, stream) in streams {
        emit_and_list(&mut ids, scheduler, StreamId(*id), stream, events)?;
    }
    Ok(ids)
}

fn outgoing_streams(
    alloc: Global,
    streams: &BTreeMap<u16, Stream>,
) -> Result<Vec<HandoverOutgoingStream>, AllocError>
    ensures records { IfOk result (λ records. records.items ≡ outgoing_streams streams.now.entries) }
    ensures ordered { IsStrictlySortedBy nat_cmp (keys_of streams.now.entries) }
{
    // (read for its clause: the ids ascend)
    let _count = streams.len();
    let mut records = Vec::new(alloc);
    for (id, stream) in streams {
        records.push(stream.handed_over(StreamId(*id)))?;
    }
    Ok(records)
}

fn queued_messages(
    alloc: Global,
    now: SocketTime,
    streams: &BTreeMap<u16, Stream>,
) -> Result<Vec<HandoverStreamMessage>, AllocError>
    ensures { IfOk result (λ records. map stream_message_of records.items ≡ queued_messages now streams.now.entries) }
{
    let mut records = Vec::new(alloc);
    for (id, stream) in streams {
        stream.hand_messages_over(alloc, now, StreamId(*id), &mut records)?;
    }
    Ok(records)
}

/// The streams of a record without messages.
fn restored_streams(
    alloc: Global,
    low_threshold: usize,
    records: &[HandoverOutgoingStream],
) -> Result<BTreeMap<u16, Stream>, AllocError>
    requires { IsTrue (rises_from 0 (outgoing_ids records.now)) }
    ensures { IfOk result (λ streams. streams.entries ≡ entries_from 0 low_threshold [] records.now) }
{
    let mut streams = BTreeMap::new(alloc);
    for stream in records {
        let restored = Stream::restored(low_threshold, stream);
        streams.insert(stream.id, restored)?;
    }
    Ok(streams)
}

/// Adds the messages of a record to its streams, which are there without messages.
fn restore_messages(
    streams: &mut Streams,
    alloc: Global,
    now: SocketTime,
    records: &[HandoverOutgoingStream],
    messages: &[HandoverStreamMessage],
) -> Result<(), AllocError>
    requires empty { streams.old.entries ≡ entries_from 0 streams.old.default_threshold [] records.now }
    requires rises { IsTrue (rises_from 0 (outgoing_ids records.now)) }
    requires valid { IsTrue (are_valid_messages records.now (2 ^ 32) (map stream_message_of messages.now)) }
    requires small { queued_bytes (map stream_message_of messages.now) < 2 ^ 32 }
    ensures { OnOk result (streams.new ≡ record streams.old { entries = entries_from now streams.old.default_threshold (map stream_message_of messages.now) records.now }) }
{
    for message in messages {
        let restored = QueuedMessage::restored(alloc, now, message)?;
        streams.push(alloc, StreamId(message.stream_id), restored)?;
    }
    Ok(())
}
