//! Messages that wait to be sent.

ghost use Rattle.std.specs.Prelude.{◌≡◌, ℕ, ◌<◌, ◌^◌, ◌==◌, ◌||◌, true, false, [], length, not, is_some, None, Some, IsSome, IfOk, OnOk, OnErr, option_map, map, take};
ghost use Rattle.std.specs.List.{list_any};
ghost use Rattle.std.specs.List.Sorted.{IsStrictlySortedBy};
ghost use Rattle.std.specs.Map.{lookup, keys_of, values_of};
ghost use Rattle.std.specs.Ordering.{nat_cmp};
ghost use Rattle.std.specs.BTreeMap.{is_at};
ghost use Rattle.sctp_state.specs.Options.{options_of};
ghost use Rattle.sctp_state.specs.Events.{Grown, expired_events, emit_events};
ghost use Rattle.sctp_stream_scheduler.specs.StreamScheduler.{set_bytes_remaining};
ghost use Rattle.sctp_tx_queue.specs.declared.send_queue.stream.ResetStep.TheVariants.{Requested, Performed, Refused};
ghost use Rattle.sctp_tx_queue.specs.SendQueue.{amount_of, total_of, stream, with_stream, sendable, queue, add, is_empty, has_nothing};
ghost use Rattle.sctp_tx_queue.specs.Produced.{begun_by, production, turn, turn_from, produce, next_stream};
ghost use Rattle.sctp_tx_queue.specs.Settings.{set_low_threshold, set_priority, set_mode, discard, begun_without};
ghost use Rattle.sctp_tx_queue.specs.Resets.{prepare_reset, prepare_stream, emit_unsent, is_ready, streams_to_request, request_resets, commit_resets, roll_back_resets, apply_reset_step, each_stepped};
ghost use Rattle.sctp_tx_queue.specs.Begun.{Begins, GoesOn};
ghost use Rattle.sctp_tx_queue.specs.Interrupted.{Same, Freed, TurnOver, Stopped, Interrupted, SomeStepped};
ghost use Rattle.sctp_state.specs.Handover.{handover_state_of};
ghost use Rattle.sctp_tx_queue.specs.Handover.{write_handover};
ghost use Rattle.sctp_tx_queue.specs.Readiness.{readiness};
ghost use Rattle.sctp_tx_queue.specs.Restarted.{reset, restarted_one, each_restarted, is_begun, is_kept, is_settled, AreSettled, is_in_line, SomeRestarted, NumbersGoOn};
ghost use Rattle.sctp_tx_queue.specs.Emptied.{empty, emptied_one, each_emptied, emit_all_ended, streams_to_empty, is_idle};
ghost use Rattle.sctp_tx_queue.specs.Views.{produced_of, queued_of};

mod changes;
mod emitting;
pub mod message;
pub mod messages;
pub mod ready_ids;
mod restoring;
mod sending;
pub mod stream;
pub mod streams;

use crate::data_to_send::DataToSend;
use changes::ChangedStreams;
use emitting::{Lows, emit_discarded, emit_low};
use message::QueuedMessage;
use sctp_chunk::SpareBuffers;
use sctp_serial::{LifecycleId, Message, OutgoingMessageId, SocketTime, StreamId};
use sctp_state::{Events, HandoverReadiness, Options, SendOptions, SocketHandoverState};
use sctp_stream_scheduler::StreamScheduler;
use sending::StreamTurn;
use std::alloc::{AllocError, Global};
use std::marker::Model;
use stream::{ResetStep, StreamChange};
use streams::{Demand, Streams};

/// The messages of all streams that wait or are partly sent, and which of them goes next.
#[derive(Drop)]
pub struct SendQueue {
    alloc: Global,
    streams: Streams,
    scheduler: StreamScheduler,
    next_message_id: OutgoingMessageId,
    // without interleaving, the stream whose message is partly sent
    begun: Option<StreamId>,
    // the streams that a reset goes over
    changed: ChangedStreams,
}

impl Model for SendQueue {
    ghost use Rattle.std.specs.Prelude.{option_map};
    ghost use Rattle.sctp_tx_queue.specs.SendQueue.{Queue};
    ghost use Rattle.sctp_tx_queue.specs.Restarted.{ResetKeeps};

    ghost Value = { Queue };

    ghost view = { λ q. record { streams = q.streams; scheduler = q.scheduler; next_number = q.next_message_id.0; begun = option_map (λ id. id.0) q.begun } };

    ghost invariant = { λ q. ResetKeeps q.changed (record { streams = q.streams; scheduler = q.scheduler; next_number = q.next_message_id.0; begun = option_map (λ id. id.0) q.begun }) };
}

/// Emits that a message was dropped and which amounts fall by it, and sets what its stream has to send then. Without memory nothing changes.
fn leave_line(
    scheduler: &mut StreamScheduler,
    events: &mut Events,
    id: StreamId,
    demand: Demand,
    lows: Lows,
    lifecycle_id: Option<LifecycleId>,
) -> Result<(), AllocError>
    ensures ok { OnOk result (scheduler.new ≡ set_bytes_remaining id.0 demand.bytes demand.priority scheduler.old) }
    ensures emitted { OnOk result (events.new ≡ emit_events (production id.0 lows.is_low lows.is_total_low None) (emit_events (expired_events lifecycle_id) events.old)) }
    ensures err { OnErr result (scheduler.new ≡ scheduler.old) }
    ensures silent { OnErr result (events.new ≡ events.old) }
{
    let mark = events.mark();
    if emit_discarded(events, id, lows, lifecycle_id).is_err() {
        events.roll_back(mark);
        return Err(AllocError);
    }
    if scheduler
        .set_bytes_remaining(id, demand.bytes, demand.priority)
        .is_err()
    {
        events.roll_back(mark);
        return Err(AllocError);
    }
    Ok(())
}

/// Emits the events of the messages that a stream drops as it is to be reset, and sets what it has to send then. Where there is no
/// such stream it is made.
fn emit_and_open(
    streams: &mut Streams,
    scheduler: &mut StreamScheduler,
    id: StreamId,
    events: &mut Events,
) -> Result<(), AllocError>
    ensures streams { OnOk result (streams.new ≡ with_stream id.0 streams.old) }
    ensures open { OnOk result (IsSome (lookup (is_at (nat_cmp id.0)) streams.new.entries)) }
    ensures stream { OnOk result (stream id.0 streams.new ≡ stream id.0 streams.old) }
    ensures line { OnOk result (scheduler.new ≡ set_bytes_remaining id.0 (sendable (prepare_stream (stream id.0 streams.old))) (stream id.0 streams.old).priority scheduler.old) }
    ensures emitted { OnOk result (events.new ≡ emit_unsent (stream id.0 streams.old).messages events.old) }
    ensures err { OnErr result (streams.new ≡ streams.old) }
    ensures kept { OnErr result (scheduler.new ≡ scheduler.old) }
    ensures grown { OnErr result (Grown events.old events.new) }
{
    let demand = streams.emit_waiting(id, events)?;
    if demand.bytes == 0 {
        scheduler.leave(id);
        return Ok(());
    }
    scheduler.set_bytes_remaining(id, demand.bytes, demand.priority)
}

fn begun_by(id: StreamId, is_interleaved: bool, made: &Option<DataToSend>) -> Option<StreamId>
    ensures { option_map (λ id. id.0) result ≡ begun_by id.0 is_interleaved (option_map produced_of made.now) }
{
    match made {
        Some(made) if !made.data.is_end && !is_interleaved => Some(id),
        _ => None,
    }
}

impl SendQueue {
    /// An empty queue without interleaving.
    pub fn new(alloc: Global, options: &Options) -> SendQueue
        ensures { result ≡ queue (options_of options.now) }
    {
        SendQueue {
            alloc,
            streams: Streams::new(alloc, options),
            scheduler: StreamScheduler::new(alloc, options.mtu.saturating_sub(32)),
            next_message_id: OutgoingMessageId(0),
            begun: None,
            changed: ChangedStreams::none(alloc),
        }
    }

    /// The bytes of a stream that are not sent.
    pub fn buffered_amount(&self, id: StreamId) -> usize
        ensures { result ≡ amount_of (stream id.0 self.now.streams) }
    {
        self.streams.amount(id)
    }

    /// The bytes of all streams that are not sent.
    pub fn total_buffered_amount(&self) -> usize
        ensures { result ≡ total_of self.now.streams.entries }
    {
        self.streams.total()
    }

    /// Whether no message waits or is partly sent.
    pub fn is_empty(&self) -> bool
        ensures { result ≡ is_empty self.now }
    {
        self.streams.is_empty()
    }

    /// Accepts a message of 1 to 2^32 - 1 bytes, and answers its number. Fewer than 2^32 bytes may wait before it: so there are at most 2^32
    /// messages, and no sum of their bytes overflows, also once a new association makes them whole again. Without memory nothing
    /// changes.
    pub fn add(
        &mut self,
        now: SocketTime,
        message: Message,
        options: &SendOptions,
    ) -> Result<OutgoingMessageId, AllocError>
        requires some { 0 < length message.payload.items }
        requires small { length message.payload.items < 2 ^ 32 }
        requires room { total_of self.old.streams.entries < 2 ^ 32 }
        ensures ok { OnOk result (self.new ≡ add message.stream_id.0 (queued_of self.old.next_number now message options.now) self.old) }
        ensures number { IfOk result (λ id. id.0 ≡ self.old.next_number) }
        ensures err { OnErr result (self.new ≡ self.old) }
    {
        let id = message.stream_id;
        let message_id = self.next_message_id;
        let message = QueuedMessage::new(self.alloc, message_id, now, message, options)?;
        let demand = self.streams.demand_with(id, &message);
        if demand.bytes == 0 {
            self.streams.push(self.alloc, id, message)?;
            self.scheduler.leave(id);
            self.next_message_id += 1;
            return Ok(message_id);
        }
        if self.scheduler.is_active(id) {
            self.streams.push(self.alloc, id, message)?;
            self.next_message_id += 1;
            return Ok(message_id);
        }
        self.scheduler
            .set_bytes_remaining(id, demand.bytes, demand.priority)?;
        let Err(_) = self.streams.push(self.alloc, id, message) else {
            self.next_message_id += 1;
            return Ok(message_id);
        };
        self.scheduler.leave(id);
        Err(AllocError)
    }

    /// The stream that is next: one whose message was begun, unless messages are interleaved.
    fn next_stream(&self) -> Option<StreamId>
        ensures { option_map (λ id. id.0) result ≡ next_stream self.now }
    {
        if self.begun.is_some() {
            return self.begun;
        }
        self.scheduler.peek()
    }

    /// Drops the messages at the front of a stream that expired before they were begun. Where no other is left, its turn is
    /// over: it leaves the scheduler, and the answer says so. Without memory nothing changes.
    fn drop_stale(
        &mut self,
        now: SocketTime,
        next: StreamTurn,
        events: &mut Events,
    ) -> Result<bool, AllocError>
        ensures freed { IfOk result (λ is_over. is_over ≡ false → Freed now next.id.0 self.old events.old self.new events.new) }
        ensures over { IfOk result (λ is_over. is_over ≡ true → TurnOver now next.id.0 next.size self.old events.old self.new events.new) }
        ensures err { OnErr result (Same self.old events.old self.new events.new) }
    {
        let id = next.id;
        let Some(is_empty) = self.streams.drop_stale(id, now, events)? else {
            return Ok(false);
        };
        self.changed.add(id);
        if is_empty {
            self.scheduler.leave(id);
            self.begun = None;
        }
        Ok(is_empty)
    }

    /// The next fragment of a stream. Without memory nothing changes.
    fn send_front(
        &mut self,
        turn: StreamTurn,
        spares: &mut SpareBuffers,
        events: &mut Events,
    ) -> Result<Option<DataToSend>, AllocError>
        ensures queue { OnOk result (self.new ≡ (turn_from turn.id.0 turn.size self.old.streams self.old events.old).queue) }
        ensures emitted { OnOk result (events.new ≡ (turn_from turn.id.0 turn.size self.old.streams self.old events.old).emitted) }
        ensures made { IfOk result (λ found. option_map produced_of found ≡ (turn_from turn.id.0 turn.size self.old.streams self.old events.old).made) }
        ensures err { OnErr result (Same self.old events.old self.new events.new) }
    {
        let is_interleaved = self.scheduler.is_interleaved();
        let changed = &mut self.changed;
        let made = self
            .streams
            .send_front(turn, spares, &mut self.scheduler, changed, events)?;
        self.begun = begun_by(turn.id, is_interleaved, &made);
        Ok(made)
    }

    /// Asks one stream for a fragment.
    fn turn(
        &mut self,
        now: SocketTime,
        next: StreamTurn,
        spares: &mut SpareBuffers,
        events: &mut Events,
    ) -> Result<Option<DataToSend>, AllocError>
        ensures queue { OnOk result (self.new ≡ (turn now next.id.0 next.size self.old events.old).queue) }
        ensures emitted { OnOk result (events.new ≡ (turn now next.id.0 next.size self.old events.old).emitted) }
        ensures made { IfOk result (λ found. option_map produced_of found ≡ (turn now next.id.0 next.size self.old events.old).made) }
        ensures err { OnErr result (Stopped now next.id.0 self.old events.old self.new events.new) }
    {
        if self.drop_stale(now, next, events)? {
            return Ok(None);
        }
        self.send_front(next, spares, events)
    }

    /// Asks streams until one gives a fragment, or none is left.
    fn ask(
        &mut self,
        now: SocketTime,
        size: usize,
        spares: &mut SpareBuffers,
        events: &mut Events,
    ) -> Result<Option<DataToSend>, AllocError>
        requires { 0 < size }
        ensures queue { OnOk result (self.new ≡ (produce now size self.old events.old).queue) }
        ensures emitted { OnOk result (events.new ≡ (produce now size self.old events.old).emitted) }
        ensures made { IfOk result (λ found. option_map produced_of found ≡ (produce now size self.old events.old).made) }
        ensures err { OnErr result (Interrupted now size self.old events.old self.new events.new) }
    {
        let mut turns = self.scheduler.active_count() + 2;
        while turns > 0 {
            let Some(id) = self.next_stream() else {
                return Ok(None);
            };
            let alloc = self.alloc;
            let next = StreamTurn { alloc, id, size };
            let made = self.turn(now, next, spares, events)?;
            if let Some(made) = made {
                return Ok(Some(made));
            }
            turns -= 1;
        }
        Ok(None)
    }

    /// The next fragment, with a payload of at most `max_payload` bytes, which is above 0, in the scheduler's order. Messages that expired
    /// before they were begun are dropped on the way: each is given up, and ends its lifecycle. Then events say what
    /// amounts fell to their thresholds, and of a message with a lifecycle that it was handed out whole. `None` says that no stream has
    /// anything to send. Without memory none is made: some of the expired messages may have been dropped, with their events.
    pub fn produce(
        &mut self,
        now: SocketTime,
        max_payload: usize,
        events: &mut Events,
    ) -> Result<Option<DataToSend>, AllocError>
        requires { 0 < max_payload }
        ensures queue { OnOk result (self.new ≡ (produce now max_payload self.old events.old).queue) }
        ensures emitted { OnOk result (events.new ≡ (produce now max_payload self.old events.old).emitted) }
        ensures made { IfOk result (λ found. option_map produced_of found ≡ (produce now max_payload self.old events.old).made) }
        ensures idle { IfOk result (λ found. found ≡ None → self.new.scheduler.times ≡ []) }
        ensures begins { IfOk result (λ found. Begins self.old.scheduler.is_interleaved (option_map produced_of found) self.new) }
        ensures goes_on { IfOk result (λ found. GoesOn self.old (option_map produced_of found)) }
        ensures err { OnErr result (Interrupted now max_payload self.old events.old self.new events.new) }
    {
        let mut spares = SpareBuffers::new(self.alloc, 0);
        self.produce_in(now, max_payload, &mut spares, events)
    }

    /// The same. A part of a message is copied into one of these buffers, where it serves.
    pub fn produce_in(
        &mut self,
        now: SocketTime,
        max_payload: usize,
        spares: &mut SpareBuffers,
        events: &mut Events,
    ) -> Result<Option<DataToSend>, AllocError>
        requires { 0 < max_payload }
        ensures queue { OnOk result (self.new ≡ (produce now max_payload self.old events.old).queue) }
        ensures emitted { OnOk result (events.new ≡ (produce now max_payload self.old events.old).emitted) }
        ensures made { IfOk result (λ found. option_map produced_of found ≡ (produce now max_payload self.old events.old).made) }
        ensures idle { IfOk result (λ found. found ≡ None → self.new.scheduler.times ≡ []) }
        ensures begins { IfOk result (λ found. Begins self.old.scheduler.is_interleaved (option_map produced_of found) self.new) }
        ensures goes_on { IfOk result (λ found. GoesOn self.old (option_map produced_of found)) }
        ensures err { OnErr result (Interrupted now max_payload self.old events.old self.new events.new) }
    {
        let made = self.ask(now, max_payload, spares, events)?;
        Ok(made)
    }

    /// Whether a stream has anything to send.
    pub fn has_data_to_send(&self) -> bool
        ensures { result ≡ not (length self.now.scheduler.times == 0) }
    {
        self.scheduler.active_count() > 0
    }

    /// Whether `produce` has a stream to ask: one whose message is begun, or one that has anything to send.
    pub fn has_next_stream(&self) -> bool
        ensures { result ≡ (is_some self.now.begun || not (length self.now.scheduler.times == 0)) }
    {
        self.begun.is_some() || self.has_data_to_send()
    }

    /// The amount, in bytes, at or below which a stream is low.
    pub fn buffered_amount_low_threshold(&self, id: StreamId) -> usize
        ensures { result ≡ (stream id.0 self.now.streams).threshold }
    {
        self.streams.low_threshold(id)
    }

    /// Sets the amount, in bytes, at or below which a stream is low. Where its amount was above the old one and is at most the new one, an
    /// event says so. Without memory nothing changes.
    pub fn set_buffered_amount_low_threshold(
        &mut self,
        id: StreamId,
        bytes: usize,
        events: &mut Events,
    ) -> Result<(), AllocError>
        ensures queue { OnOk result (self.new ≡ (set_low_threshold id.0 bytes self.old events.old).queue) }
        ensures emitted { OnOk result (events.new ≡ (set_low_threshold id.0 bytes self.old events.old).emitted) }
        ensures err { OnErr result (Same self.old events.old self.new events.new) }
    {
        self.changed.add(id);
        let mark = events.mark();
        let is_low = self.streams.is_low_at(id, bytes);
        if emit_low(events, id, is_low).is_err() {
            events.roll_back(mark);
            return Err(AllocError);
        }
        if self.streams.open(id).is_err() {
            events.roll_back(mark);
            return Err(AllocError);
        }
        self.streams.change(id, StreamChange::Threshold(bytes));
        Ok(())
    }

    /// The priority of a stream, by which it is weighed with interleaving.
    pub fn get_priority(&self, id: StreamId) -> u16
        ensures { result ≡ (stream id.0 self.now.streams).priority }
    {
        self.streams.priority(id)
    }

    /// Sets the priority of a stream, for its later fragments. Without memory nothing changes.
    pub fn set_priority(&mut self, id: StreamId, priority: u16) -> Result<(), AllocError>
        ensures ok { OnOk result (self.new ≡ set_priority id.0 priority self.old) }
        ensures err { OnErr result (self.new ≡ self.old) }
    {
        self.changed.add(id);
        self.streams.open(id)?;
        self.streams.change(id, StreamChange::Priority(priority));
        Ok(())
    }

    /// Whether messages are interleaved (RFC 8260).
    pub fn is_interleaved(&self) -> bool
        ensures { result ≡ self.now.scheduler.is_interleaved }
    {
        self.scheduler.is_interleaved()
    }

    /// Sets whether messages are interleaved (RFC 8260). To be called before the first fragment of an association.
    pub fn enable_message_interleaving(&mut self, is_interleaved: bool)
        ensures { self.new ≡ set_mode is_interleaved self.old }
    {
        self.scheduler.enable_message_interleaving(is_interleaved);
    }

    /// Drops what is left of a message that was given up, where it is the first of its stream, as a partly sent message
    /// is. Its lifecycle ends, and with `avoid_stalls` events say what amounts fell to their thresholds by it. Without memory nothing
    /// changes.
    pub fn discard(
        &mut self,
        id: StreamId,
        message_id: OutgoingMessageId,
        events: &mut Events,
    ) -> Result<(), AllocError>
        ensures queue { OnOk result (self.new ≡ (discard id.0 message_id.0 self.old events.old).queue) }
        ensures emitted { OnOk result (events.new ≡ (discard id.0 message_id.0 self.old events.old).emitted) }
        ensures err { OnErr result (Same self.old events.old self.new events.new) }
    {
        let Some(discarded) = self.streams.front_discarded(id, message_id) else {
            return Ok(());
        };
        self.changed.add(id);
        let demand = self.streams.demand_without(id, message_id);
        let lifecycle_id = discarded.lifecycle_id;
        let lows = self.streams.lows_without(id, message_id);
        leave_line(&mut self.scheduler, events, id, demand, lows, lifecycle_id)?;
        self.streams.change(id, StreamChange::Discard(message_id));
        self.begun = begun_without(id, self.begun);
        Ok(())
    }

    /// Prepares the reset of a stream: its messages of which nothing is sent are given up, and their lifecycles end.
    /// The stream can be reset once its partly sent message has ended, and sends no other one until the reset is
    /// answered. Without memory nothing changes.
    pub fn prepare_reset_stream(
        &mut self,
        id: StreamId,
        events: &mut Events,
    ) -> Result<(), AllocError>
        ensures queue { OnOk result (self.new ≡ (prepare_reset id.0 self.old events.old).queue) }
        ensures emitted { OnOk result (events.new ≡ (prepare_reset id.0 self.old events.old).emitted) }
        ensures err { OnErr result (Same self.old events.old self.new events.new) }
    {
        self.changed.add(id);
        let mark = events.mark();
        if emit_and_open(&mut self.streams, &mut self.scheduler, id, events).is_err() {
            events.roll_back(mark);
            return Err(AllocError);
        }
        self.streams.change(id, StreamChange::Prepare);
        Ok(())
    }

    /// What stands in the way of a handover: messages, where `is_strict` says that none may be handed over, and streams
    /// whose reset waits or is to be answered.
    pub fn get_handover_readiness(&self, is_strict: bool) -> HandoverReadiness
        ensures { result.0 ≡ readiness is_strict self.now }
    {
        let has_messages = is_strict && !self.streams.is_empty();
        (HandoverReadiness::SEND_QUEUE_NOT_EMPTY & has_messages)
            | (HandoverReadiness::PENDING_STREAM_RESET & self.streams.has_waiting())
    }

    /// Writes the streams, the messages and the count of accepted messages into the record of a socket that is handed
    /// over now. Without memory the record stays as it was.
    pub fn add_to_handover_state(
        &self,
        now: SocketTime,
        state: &mut SocketHandoverState,
    ) -> Result<(), AllocError>
        ensures ok { OnOk result (let old = handover_state_of state.old in handover_state_of state.new ≡ record old { tx = write_handover now self.now old.tx }) }
        ensures ordered { IsStrictlySortedBy nat_cmp (keys_of self.now.streams.entries) }
        ensures err { OnErr result (state.new ≡ state.old) }
    {
        let streams = self.streams.handed_over(self.alloc)?;
        let messages = self.streams.messages_handed_over(self.alloc, now)?;
        state.tx.next_outgoing_message_id = u64::from(self.next_message_id.0);
        state.tx.streams = streams;
        state.tx.queued_messages = messages;
        Ok(())
    }

    /// A new association begins: messages that are partly sent are whole again, each stream sends, and its numbers begin
    /// again. Numbers of messages go on. It takes time by the streams that changed since the last one, or by all that
    /// were named where a quarter of them did, memory lacked for their ids, or a record was taken up since. Without memory
    /// this is done for the first streams alone, or for none.
    pub fn reset(&mut self) -> Result<(), AllocError>
        ensures ok { OnOk result (self.new ≡ reset self.old) }
        ensures numbers { NumbersGoOn self.old self.new }
        ensures err { OnErr result (SomeRestarted self.old self.new) }
    {
        let many = self.streams.len() / 4;
        let are_many = !self.changed.are_fewer(many);
        self.forget_if(are_many);
        self.reset_changed()
    }

    /// Where a quarter of the streams change, to go over all takes less time than to know which did.
    fn forget_if(&mut self, are_many: bool)
        ensures { self.new ≡ self.old }
    {
        if are_many {
            self.changed = ChangedStreams::any();
        }
    }

    /// As `reset`, of the streams that may have changed.
    fn reset_changed(&mut self) -> Result<(), AllocError>
        ensures ok { OnOk result (self.new ≡ reset self.old) }
        ensures numbers { NumbersGoOn self.old self.new }
        ensures err { OnErr result (SomeRestarted self.old self.new) }
    {
        let ids = self.streams.changed_ids(self.alloc, &self.changed)?;
        let are_settled = self.restart_all(&ids)?;
        self.begun = None;
        self.changed = ChangedStreams::after_reset(self.alloc, are_settled);
        Ok(())
    }

    /// Restarts all of these streams. The answer is whether they are known to be as a restart leaves them.
    fn restart_all(&mut self, ids: &[StreamId]) -> Result<bool, AllocError>
        ensures ok { OnOk result (self.new ≡ each_restarted (map (λ id. id.0) ids.now) self.old) }
        ensures settled { IfOk result (λ are_settled. are_settled ≡ true → AreSettled (map (λ id. id.0) ids.now) self.new) }
        ensures err { OnErr result ((count : ℕ) × (self.new ≡ each_restarted (take count (map (λ id. id.0) ids.now)) self.old)) }
    {
        let mut are_settled = true;
        for id in ids {
            are_settled = self.restart_in_turn(*id, are_settled)?;
        }
        Ok(are_settled)
    }

    /// Restarts a stream, where that changes anything. The answer is whether it is known to be as a restart leaves it, and
    /// those before it are.
    fn restart_in_turn(&mut self, id: StreamId, so_far: bool) -> Result<bool, AllocError>
        ensures ok { OnOk result (self.new ≡ restarted_one id.0 self.old) }
        ensures settled { IfOk result (λ are_settled. are_settled ≡ true → (so_far ≡ true) × (is_settled id.0 self.new ≡ true)) }
        ensures err { OnErr result (self.new ≡ self.old) }
    {
        if self.restart_idle(id) {
            return Ok(so_far);
        }
        if self.is_kept(id) {
            return Ok(so_far);
        }
        self.restart_one(id)?;
        Ok(so_far && self.is_kept(id))
    }

    /// Restarts a stream on which no message waits, which needs no memory. The answer is whether it is one.
    fn restart_idle(&mut self, id: StreamId) -> bool
        ensures idle { result ≡ true → has_nothing (stream id.0 self.old.streams) ≡ true }
        ensures done { result ≡ true → self.new ≡ restarted_one id.0 self.old }
        ensures settled { result ≡ true → is_settled id.0 self.new ≡ true }
        ensures same { result ≡ false → self.new ≡ self.old }
    {
        if !self.streams.restart_idle(id) {
            return false;
        }
        self.changed.add(id);
        self.scheduler.leave(id);
        self.begun = begun_without(id, self.begun);
        true
    }

    /// Whether a restart of a stream changes nothing.
    fn is_kept(&self, id: StreamId) -> bool
        ensures { result ≡ is_kept id.0 self.now }
    {
        !is_begun(id, self.begun)
            && (self.streams.is_restarted(id)
                && is_in_line(&self.scheduler, id, self.streams.sendable(id)))
    }

    /// A new association begins for a stream. Without memory nothing changes.
    fn restart_one(&mut self, id: StreamId) -> Result<(), AllocError>
        ensures ok { OnOk result (self.new ≡ restarted_one id.0 self.old) }
        ensures err { OnErr result (self.new ≡ self.old) }
    {
        self.changed.add(id);
        let demand = self.streams.demand_restarted(id);
        self.scheduler
            .set_bytes_remaining(id, demand.bytes, demand.priority)?;
        self.streams.change(id, StreamChange::Restart);
        self.begun = begun_without(id, self.begun);
        Ok(())
    }

    /// The association has ended: all messages are given up, each with its record, and their lifecycles end. Streams keep
    /// their settings and numbers. Without memory nothing changes.
    pub fn empty(&mut self, events: &mut Events) -> Result<(), AllocError>
        ensures queue { OnOk result (self.new ≡ (empty self.old events.old).queue) }
        ensures emitted { OnOk result (events.new ≡ (empty self.old events.old).emitted) }
        ensures err { OnErr result (Same self.old events.old self.new events.new) }
    {
        if self.is_idle() {
            return Ok(());
        }
        let mark = events.mark();
        let Ok(ids) = self.emit_ended(events) else {
            events.roll_back(mark);
            return Err(AllocError);
        };
        let many = self.streams.len() / 4;
        self.forget_if(ids.len() > many);
        self.empty_each(&ids);
        self.begun = None;
        Ok(())
    }

    /// Emits of all messages that they are given up. The answer is the streams that have messages or are in line, by
    /// ascending id. It takes time by the streams that changed since the last reset, where they and the active ones are few.
    fn emit_ended(&mut self, events: &mut Events) -> Result<Vec<StreamId>, AllocError>
        ensures streams { IfOk result (λ ids. map (λ id. id.0) ids.items ≡ streams_to_empty self.old.scheduler self.old.streams.entries) }
        ensures emitted { OnOk result (events.new ≡ emit_all_ended (values_of self.old.streams.entries) events.old) }
        ensures ordered { IsStrictlySortedBy nat_cmp (keys_of self.old.streams.entries) }
        ensures same { self.new ≡ self.old }
        ensures err { OnErr result (Grown events.old events.new) }
    {
        let alloc = self.alloc;
        let limit = self.streams.len() / 8;
        let scheduler = &self.scheduler;
        if self.changed.join_active(alloc, scheduler, limit)? {
            return self
                .streams
                .emit_some_ended(alloc, &self.changed, scheduler, events);
        }
        self.streams.emit_ended(alloc, scheduler, events)
    }

    /// Whether no message waits, and no stream is in line.
    fn is_idle(&self) -> bool
        ensures { result ≡ is_idle self.now }
    {
        self.begun.is_none() && (self.streams.is_empty() && self.scheduler.active_count() == 0)
    }

    fn empty_each(&mut self, ids: &[StreamId])
        ensures { self.new ≡ each_emptied (map (λ id. id.0) ids.now) self.old }
    {
        for id in ids {
            self.empty_one(*id);
        }
    }

    /// Drops the messages of a stream, which needs no memory: it has nothing to send from then on.
    fn empty_one(&mut self, id: StreamId)
        ensures { self.new ≡ emptied_one id.0 self.old }
    {
        self.changed.add(id);
        self.scheduler.leave(id);
        self.streams.change(id, StreamChange::Empty);
    }

    /// Whether a stream can be reset, and is in no request.
    pub fn has_streams_ready_to_be_reset(&self) -> bool
        ensures { result ≡ list_any is_ready (values_of self.now.streams.entries) }
    {
        self.streams.has_ready()
    }

    /// The first streams that can be reset and are in no request, by ascending id and at most `most`: they are in one
    /// from then on. Without memory nothing changes.
    pub fn get_streams_ready_to_reset(&mut self, most: usize) -> Result<Vec<StreamId>, AllocError>
        ensures streams { IfOk result (λ ids. map (λ id. id.0) ids.items ≡ streams_to_request most self.old) }
        ensures queue { OnOk result (self.new ≡ request_resets most self.old) }
        ensures err { OnErr result (self.new ≡ self.old) }
    {
        let ids = self.streams.ready(self.alloc, most)?;
        self.request(&ids);
        Ok(ids)
    }

    /// The peer performed the reset of these streams: they send again, with numbers that begin again. Without memory
    /// this is done for some of the first of them alone.
    pub fn commit_reset_streams(&mut self, ids: &[StreamId]) -> Result<(), AllocError>
        ensures ok { OnOk result (self.new ≡ commit_resets (map (λ id. id.0) ids.now) self.old) }
        ensures err { OnErr result (SomeStepped Performed (map (λ id. id.0) ids.now) self.old self.new) }
    {
        self.take_steps(ids, ResetStep::Performed)
    }

    /// The peer refused the reset of these streams: they send again. Without memory this is done for some of the first
    /// of them alone.
    pub fn rollback_reset_streams(&mut self, ids: &[StreamId]) -> Result<(), AllocError>
        ensures ok { OnOk result (self.new ≡ roll_back_resets (map (λ id. id.0) ids.now) self.old) }
        ensures err { OnErr result (SomeStepped Refused (map (λ id. id.0) ids.now) self.old self.new) }
    {
        self.take_steps(ids, ResetStep::Refused)
    }

    /// Takes a step of a stream's reset. Without memory nothing changes.
    fn take_step(&mut self, id: StreamId, step: ResetStep) -> Result<(), AllocError>
        ensures ok { OnOk result (self.new ≡ apply_reset_step step id.0 self.old) }
        ensures err { OnErr result (self.new ≡ self.old) }
    {
        self.changed.add(id);
        let demand = self.streams.demand_stepped(id, step);
        self.scheduler
            .set_bytes_remaining(id, demand.bytes, demand.priority)?;
        self.streams.change(id, StreamChange::Step(step));
        Ok(())
    }

    fn take_steps(&mut self, ids: &[StreamId], step: ResetStep) -> Result<(), AllocError>
        ensures ok { OnOk result (self.new ≡ each_stepped step (map (λ id. id.0) ids.now) self.old) }
        ensures err { OnErr result (SomeStepped step (map (λ id. id.0) ids.now) self.old self.new) }
    {
        for id in ids {
            self.take_step(*id, step)?;
        }
        Ok(())
    }

    /// A stream goes into a request, which needs no memory: it has nothing to send from then on.
    fn request_one(&mut self, id: StreamId)
        ensures { self.new ≡ apply_reset_step Requested id.0 self.old }
    {
        self.changed.add(id);
        self.scheduler.leave(id);
        self.streams
            .change(id, StreamChange::Step(ResetStep::Requested));
    }

    fn request(&mut self, ids: &[StreamId])
        ensures { self.new ≡ each_stepped Requested (map (λ id. id.0) ids.now) self.old }
    {
        for id in ids {
            self.request_one(*id);
        }
    }
}

/// Whether the message of a stream is the one that is begun.
fn is_begun(id: StreamId, begun: Option<StreamId>) -> bool
    ensures { result ≡ is_begun id.0 (option_map (λ id. id.0) begun) }
{
    match begun {
        Some(begun) => begun.0 == id.0,
        None => false,
    }
}

/// Whether a stream is active where it has something to send.
fn is_in_line(scheduler: &StreamScheduler, id: StreamId, bytes: usize) -> bool
    ensures { result ≡ is_in_line id.0 bytes scheduler.now }
{
    if bytes == 0 {
        !scheduler.is_active(id)
    } else {
        scheduler.is_active(id)
    }
}

fn begun_without(id: StreamId, begun: Option<StreamId>) -> Option<StreamId>
    ensures { option_map (λ id. id.0) result ≡ begun_without id.0 (option_map (λ id. id.0) begun) }
{
    match begun {
        Some(begun) if begun.0 != id.0 => Some(begun),
        _ => None,
    }
}
