//! The messages of a stream, and the rooms that they lie in.

ghost use Rattle.std.specs.Prelude.{◌≡◌, ◌+◌, ◌-◌, ◌<◌, ◌≤◌, ◌^◌, ◌==◌, [], ◌∷◌, ◌++◌, length, sum_by, drop, IsSome, is_some, ◌↔◌, slice_index_or, IfSome, IfOk, OnOk, OnErr, option_map, filter, map};
ghost use Rattle.std.specs.Slice.{IsItemAt};
ghost use Rattle.sctp_state.specs.Events.{Grown};
ghost use Rattle.sctp_tx_queue.specs.SendQueue.{remaining_bytes, front_left};
ghost use Rattle.sctp_tx_queue.specs.Produced.{is_front_stale, fresh, emit_expired, front_made, front_ends, moved_front, front_left_after, front_needs_room};
ghost use Rattle.sctp_tx_queue.specs.Settings.{is_front};
ghost use Rattle.sctp_tx_queue.specs.Resets.{is_partly, emit_unsent};
ghost use Rattle.sctp_tx_queue.specs.Emptied.{emit_ended};
ghost use Rattle.sctp_state.specs.Handover.{stream_message_of};
ghost use Rattle.sctp_tx_queue.specs.Handover.{queued_message};
ghost use Rattle.sctp_tx_queue.specs.Restarted.{whole_front, is_front_unbegun};
ghost use Rattle.sctp_tx_queue.specs.Whole.{front_ended};
ghost use Rattle.sctp_tx_queue.specs.Views.{produced_of};

use crate::data_to_send::DataToSend;
use crate::send_queue::emitting::{emit_dropped, emit_ended, emit_waiting};
use crate::send_queue::message::{Details, MessageNumbers, QueuedMessage};
use crate::send_queue::sending::StreamTurn;
use sctp_chunk::SpareBuffers;
use sctp_serial::{OutgoingMessageId, SocketTime, StreamId};
use sctp_state::api::handover::HandoverStreamMessage;
use sctp_state::{Events, GivenUpCause, ThresholdWatcher, take_first};
use std::alloc::{AllocError, Global};
use std::collections::VecDeque;
use std::marker::Model;

/// How many rooms are kept that no stream has.
const MOST_SPARE_ROOMS: usize = 16;
/// A spare room has places for so many messages at most: a larger one isn't kept.
const MOST_MESSAGES_OF_SPARE_ROOM: usize = 16;

/// The messages of a stream, the first one next. Without any they need no room.
#[derive(Drop)]
pub struct Messages {
    room: Option<Box<VecDeque<QueuedMessage>>>,
}

impl Model for Messages {
    ghost use Rattle.std.specs.Prelude.{List, [], unwrap_or, option_map};
    ghost use Rattle.sctp_tx_queue.specs.SendQueue.{Queued};

    ghost Value = { List Queued };

    ghost view = { λ m. unwrap_or (option_map (λ room. room.value.items) m.room) [] };
}

/// Rooms that streams left whose last message went. A stream that has none takes one of them with its next message: so
/// streams keep no memory for messages that they don't have, and most messages take none for their place.
#[derive(Drop)]
pub struct SpareRooms {
    rooms: Vec<Box<VecDeque<QueuedMessage>>>,
}

impl SpareRooms {
    /// No rooms.
    pub(crate) fn new(alloc: Global) -> SpareRooms {
        SpareRooms {
            rooms: Vec::new(alloc),
        }
    }

    /// A room without messages.
    #[inline(always)]
    fn take(&mut self, alloc: Global) -> Result<Box<VecDeque<QueuedMessage>>, AllocError>
        ensures { IfOk result (λ room. room.value.items ≡ []) }
    {
        let Some(mut room) = self.rooms.pop() else {
            return Ok(Box::new(alloc, VecDeque::new(alloc))?);
        };
        if !room.is_empty() {
            room.clear();
        }
        Ok(room)
    }

    /// A room with this message.
    #[inline(always)]
    fn take_with(
        &mut self,
        alloc: Global,
        message: QueuedMessage,
    ) -> Result<Box<VecDeque<QueuedMessage>>, AllocError>
        ensures { IfOk result (λ room. room.value.items ≡ message ∷ []) }
    {
        let mut room = self.take(alloc)?;
        push_back(&mut room, message)?;
        Ok(room)
    }

    /// Keeps the room, unless it is a large one or there are enough.
    fn put(&mut self, room: Box<VecDeque<QueuedMessage>>) {
        if self.rooms.len() < MOST_SPARE_ROOMS && room.capacity() <= MOST_MESSAGES_OF_SPARE_ROOM {
            let _is_kept = self.rooms.push(room).is_ok();
        }
    }
}

/// Adds a message behind the others. Without memory nothing changes.
#[inline(always)]
fn push_back(
    messages: &mut VecDeque<QueuedMessage>,
    message: QueuedMessage,
) -> Result<(), AllocError>
    ensures ok { OnOk result (messages.new.items ≡ messages.old.items ++ message ∷ []) }
    ensures err { OnErr result (messages.new.items ≡ messages.old.items) }
{
    messages.reserve(1)?;
    messages.push_back_reserved(message);
    Ok(())
}

/// Emits the events of the messages at the front that expired before they were begun. The answer is their bytes.
fn emit_stale_front(
    messages: &VecDeque<QueuedMessage>,
    now: SocketTime,
    events: &mut Events,
) -> Result<usize, AllocError>
    requires { sum_by remaining_bytes messages.now.items < 2 ^ 64 }
    ensures ok { OnOk result (events.new ≡ emit_expired now messages.now.items events.old) }
    ensures bytes { IfOk result (λ bytes. bytes + sum_by remaining_bytes (fresh now messages.now.items) ≡ sum_by remaining_bytes messages.now.items) }
    ensures err { OnErr result (Grown events.old events.new) }
{
    let mut bytes = 0;
    for message in messages.iter() {
        if !message.is_stale(now) {
            return Ok(bytes);
        }
        let stale = GivenUpCause::Lifetime;
        emit_dropped(events, message.message_id(), stale, message.lifecycle_id())?;
        bytes += message.left();
    }
    Ok(bytes)
}

fn is_stale_front(messages: &VecDeque<QueuedMessage>, now: SocketTime) -> bool
    ensures { result ≡ is_front_stale now messages.now.items }
{
    match messages.front() {
        Some(message) => message.is_stale(now),
        None => false,
    }
}

/// Drops the messages at the front that expired before they were begun.
fn drop_stale_front(
    messages: &mut VecDeque<QueuedMessage>,
    buffered: &mut ThresholdWatcher,
    now: SocketTime,
)
    requires { buffered.old.amount ≡ sum_by remaining_bytes messages.old.items }
    ensures messages { messages.new.items ≡ fresh now messages.old.items }
    ensures amount { buffered.new.amount ≡ sum_by remaining_bytes messages.new.items }
    ensures threshold { buffered.new.low_threshold ≡ buffered.old.low_threshold }
    ensures less { buffered.new.amount ≤ buffered.old.amount }
{
    while is_stale_front(messages, now) {
        let Some(message) = take_first(messages) else {
            return;
        };
        buffered.decrease(message.left());
    }
}

/// A fragment of the message at the front is sent. The answer is the message, where that ends it.
#[inline(always)]
fn move_front_on(
    messages: &mut VecDeque<QueuedMessage>,
    numbers: MessageNumbers,
    size: usize,
    room: Option<Box<Details>>,
) -> Option<QueuedMessage>
    requires { is_some room ≡ front_needs_room size messages.old.items }
    ensures messages { messages.new.items ≡ moved_front size numbers messages.old.items }
    ensures ended { result ≡ front_ended size messages.old.items }
{
    let message = messages.front_mut()?;
    if message.left() > size {
        message.move_on(numbers, size, room);
        return None;
    }
    take_first(messages)
}

/// Drops the message at the front.
fn pop_front(messages: &mut VecDeque<QueuedMessage>, buffered: &mut ThresholdWatcher)
    requires { buffered.old.amount ≡ sum_by remaining_bytes messages.old.items }
    ensures messages { messages.new.items ≡ drop 1 messages.old.items }
    ensures amount { buffered.new.amount ≡ sum_by remaining_bytes messages.new.items }
    ensures threshold { buffered.new.low_threshold ≡ buffered.old.low_threshold }
    ensures less { buffered.new.amount ≤ buffered.old.amount }
{
    if let Some(message) = take_first(messages) {
        buffered.decrease(message.left());
    }
}

fn bytes_left(messages: &VecDeque<QueuedMessage>) -> usize
    requires { sum_by remaining_bytes messages.now.items < 2 ^ 64 }
    ensures { result ≡ sum_by remaining_bytes messages.now.items }
{
    messages.iter().map(|message| message.left()).sum()
}

/// Drops the messages of which nothing is sent.
fn keep_partly_sent(messages: &mut VecDeque<QueuedMessage>, buffered: &mut ThresholdWatcher)
    requires { buffered.old.amount ≡ sum_by remaining_bytes messages.old.items }
    ensures messages { messages.new.items ≡ filter is_partly messages.old.items }
    ensures amount { buffered.new.amount ≡ sum_by remaining_bytes messages.new.items }
    ensures threshold { buffered.new.low_threshold ≡ buffered.old.low_threshold }
    ensures less { buffered.new.amount ≤ buffered.old.amount }
{
    let before = buffered.amount();
    messages.retain(|message| message.is_partly_sent());
    let bytes = bytes_left(messages);
    buffered.decrease(before - bytes);
}

fn hand_over_all(
    messages: &VecDeque<QueuedMessage>,
    alloc: Global,
    now: SocketTime,
    id: StreamId,
    records: &mut Vec<HandoverStreamMessage>,
) -> Result<(), AllocError>
    ensures { OnOk result (map stream_message_of records.new.items ≡ map stream_message_of records.old.items ++ map (queued_message now id.0) messages.now.items) }
{
    for message in messages.iter() {
        records.push(message.handed_over(alloc, now, id)?)?;
    }
    Ok(())
}

/// The message at the front is sent from its beginning again. The answer is how many bytes of it were sent.
fn make_front_whole(messages: &mut VecDeque<QueuedMessage>) -> usize
    ensures messages { messages.new.items ≡ whole_front messages.old.items }
    ensures sum { sum_by remaining_bytes messages.new.items ≡ sum_by remaining_bytes messages.old.items + result }
{
    let Some(message) = messages.front_mut() else {
        return 0;
    };
    let sent = message.sent();
    message.make_whole();
    sent
}

/// What is left of the message at the front, once those of which nothing is sent are dropped.
fn partly_left(messages: &VecDeque<QueuedMessage>) -> usize
    ensures { result ≡ front_left (filter is_partly messages.now.items) }
{
    for message in messages.iter() {
        if message.is_partly_sent() {
            return message.left();
        }
    }
    0
}

impl Messages {
    /// None.
    pub(crate) fn new() -> Messages
        ensures { result ≡ [] }
    {
        Messages { room: None }
    }

    pub(crate) fn is_empty(&self) -> bool
        ensures { result ≡ (length self.now == 0) }
    {
        match &self.room {
            Some(room) => room.is_empty(),
            None => true,
        }
    }

    fn get(&self, index: usize) -> Option<&QueuedMessage>
        ensures variant { IsSome result ↔ (index < length self.now) }
        ensures lookup { IfSome result (λ message. message.now ≡ slice_index_or self.now index message.now) }
        ensures item { IsItemAt self.now index result }
    {
        match &self.room {
            Some(room) => room.get(index),
            None => None,
        }
    }

    /// The message that is next.
    pub(crate) fn front(&self) -> Option<&QueuedMessage>
        ensures variant { IsSome result ↔ (0 < length self.now) }
        ensures lookup { IfSome result (λ message. message.now ≡ slice_index_or self.now 0 message.now) }
        ensures item { IsItemAt self.now 0 result }
    {
        self.get(0)
    }

    /// Adds a message behind the others, in one of these rooms where it is the only one. Without memory nothing changes.
    #[inline(always)]
    pub(crate) fn push(
        &mut self,
        alloc: Global,
        spare_rooms: &mut SpareRooms,
        message: QueuedMessage,
    ) -> Result<(), AllocError>
        ensures ok { OnOk result (self.new ≡ self.old ++ message ∷ []) }
        ensures err { OnErr result (self.new ≡ self.old) }
    {
        match &mut self.room {
            Some(room) => push_back(room, message)?,
            None => self.room = Some(spare_rooms.take_with(alloc, message)?),
        }
        Ok(())
    }

    /// Lets the room go where there are no messages.
    fn leave_room(&mut self)
        ensures { self.new ≡ self.old }
    {
        if self.is_empty() {
            self.room = None;
        }
    }

    /// The same, to these.
    pub(crate) fn leave_room_to(&mut self, spare_rooms: &mut SpareRooms)
        ensures { self.new ≡ self.old }
    {
        if !self.is_empty() {
            return;
        }
        if let Some(room) = std::mem::replace(&mut self.room, None) {
            spare_rooms.put(room);
        }
    }

    /// Whether the message at the front expired before it was begun.
    pub(crate) fn is_front_stale(&self, now: SocketTime) -> bool
        ensures { result ≡ is_front_stale now self.now }
    {
        match self.front() {
            Some(message) => message.is_stale(now),
            None => false,
        }
    }

    /// Emits the events of the messages at the front that expired before they were begun. The answer is their bytes.
    pub(crate) fn emit_stale_front(
        &self,
        now: SocketTime,
        events: &mut Events,
    ) -> Result<usize, AllocError>
        requires { sum_by remaining_bytes self.now < 2 ^ 64 }
        ensures ok { OnOk result (events.new ≡ emit_expired now self.now events.old) }
        ensures bytes { IfOk result (λ bytes. bytes + sum_by remaining_bytes (fresh now self.now) ≡ sum_by remaining_bytes self.now) }
        ensures err { OnErr result (Grown events.old events.new) }
    {
        match &self.room {
            Some(room) => emit_stale_front(room, now, events),
            None => Ok(0),
        }
    }

    /// Drops these messages.
    pub(crate) fn drop_stale_front(&mut self, buffered: &mut ThresholdWatcher, now: SocketTime)
        requires { buffered.old.amount ≡ sum_by remaining_bytes self.old }
        ensures messages { self.new ≡ fresh now self.old }
        ensures amount { buffered.new.amount ≡ sum_by remaining_bytes self.new }
        ensures threshold { buffered.new.low_threshold ≡ buffered.old.low_threshold }
        ensures less { buffered.new.amount ≤ buffered.old.amount }
    {
        if let Some(room) = &mut self.room {
            drop_stale_front(room, buffered, now);
        }
        self.leave_room();
    }

    /// A fragment of the message at the front is sent. The answer is the message, where that ends it.
    #[inline(always)]
    pub(crate) fn move_front_on(
        &mut self,
        numbers: MessageNumbers,
        size: usize,
        front_room: Option<Box<Details>>,
    ) -> Option<QueuedMessage>
        requires { is_some front_room ≡ front_needs_room size self.old }
        ensures messages { self.new ≡ moved_front size numbers self.old }
        ensures ended { result ≡ front_ended size self.old }
    {
        match &mut self.room {
            Some(room) => move_front_on(room, numbers, size, front_room),
            None => None,
        }
    }

    /// Drops the message at the front.
    pub(crate) fn pop_front(&mut self, buffered: &mut ThresholdWatcher)
        requires { buffered.old.amount ≡ sum_by remaining_bytes self.old }
        ensures messages { self.new ≡ drop 1 self.old }
        ensures amount { buffered.new.amount ≡ sum_by remaining_bytes self.new }
        ensures threshold { buffered.new.low_threshold ≡ buffered.old.low_threshold }
        ensures less { buffered.new.amount ≤ buffered.old.amount }
    {
        if let Some(room) = &mut self.room {
            pop_front(room, buffered);
        }
        self.leave_room();
    }

    /// Drops the messages of which nothing is sent.
    pub(crate) fn keep_partly_sent(&mut self, buffered: &mut ThresholdWatcher)
        requires { buffered.old.amount ≡ sum_by remaining_bytes self.old }
        ensures messages { self.new ≡ filter is_partly self.old }
        ensures amount { buffered.new.amount ≡ sum_by remaining_bytes self.new }
        ensures threshold { buffered.new.low_threshold ≡ buffered.old.low_threshold }
        ensures less { buffered.new.amount ≤ buffered.old.amount }
    {
        if let Some(room) = &mut self.room {
            keep_partly_sent(room, buffered);
            room.shrink_to(MOST_MESSAGES_OF_SPARE_ROOM);
        }
        self.leave_room();
    }

    /// Drops all messages.
    pub(crate) fn clear(&mut self)
        ensures { self.new ≡ [] }
    {
        self.room = None;
    }

    pub(crate) fn is_front(&self, message_id: OutgoingMessageId) -> bool
        ensures { result ≡ is_front message_id.0 self.now }
    {
        match self.front() {
            Some(message) => message.message_id().0 == message_id.0,
            None => false,
        }
    }

    pub(crate) fn front_fragment(
        &self,
        turn: StreamTurn,
        spares: &mut SpareBuffers,
        numbers: MessageNumbers,
    ) -> Result<Option<DataToSend>, AllocError>
        ensures { IfOk result (λ found. option_map produced_of found ≡ front_made turn.id.0 turn.size numbers self.now) }
    {
        match self.front() {
            Some(message) => Ok(Some(message.fragment(turn, spares, numbers)?)),
            None => Ok(None),
        }
    }

    /// The room that the message at the front needs to move on by a fragment of this size.
    pub(crate) fn room_to_move_on(
        &self,
        alloc: Global,
        size: usize,
    ) -> Result<Option<Box<Details>>, AllocError>
        ensures { IfOk result (λ room. is_some room ≡ front_needs_room size self.now) }
    {
        match self.front() {
            Some(message) => message.room_to_move_on(alloc, size),
            None => Ok(None),
        }
    }

    /// Adds them to the messages of a record.
    pub(crate) fn hand_over(
        &self,
        alloc: Global,
        now: SocketTime,
        id: StreamId,
        records: &mut Vec<HandoverStreamMessage>,
    ) -> Result<(), AllocError>
        ensures { OnOk result (map stream_message_of records.new.items ≡ map stream_message_of records.old.items ++ map (queued_message now id.0) self.now) }
    {
        match &self.room {
            Some(room) => hand_over_all(room, alloc, now, id, records),
            None => Ok(()),
        }
    }

    /// The message at the front is sent from its beginning again. The answer is how many bytes of it were sent.
    pub(crate) fn make_front_whole(&mut self) -> usize
        ensures messages { self.new ≡ whole_front self.old }
        ensures sum { sum_by remaining_bytes self.new ≡ sum_by remaining_bytes self.old + result }
    {
        match &mut self.room {
            Some(room) => make_front_whole(room),
            None => 0,
        }
    }

    /// Whether the message at the front, if there is one, isn't begun.
    pub(crate) fn is_front_unbegun(&self) -> bool
        ensures { result ≡ is_front_unbegun self.now }
    {
        match self.front() {
            Some(message) => message.is_unbegun(),
            None => true,
        }
    }

    /// What is left of the message at the front once it is whole.
    pub(crate) fn front_whole(&self) -> usize
        ensures { result ≡ front_left (whole_front self.now) }
    {
        match self.front() {
            Some(message) => message.left() + message.sent(),
            None => 0,
        }
    }

    /// Whether a fragment of this size is the end of the message at the front.
    pub(crate) fn front_ends(&self, size: usize) -> bool
        ensures { result ≡ front_ends size self.now }
    {
        match self.front() {
            Some(message) => message.left() <= size,
            None => false,
        }
    }

    pub(crate) fn front_left(&self) -> usize
        ensures { result ≡ front_left self.now }
    {
        match self.front() {
            Some(message) => message.left(),
            None => 0,
        }
    }

    /// What is left of the message behind the front.
    pub(crate) fn second_left(&self) -> usize
        ensures { result ≡ front_left (drop 1 self.now) }
    {
        match self.get(1) {
            Some(message) => message.left(),
            None => 0,
        }
    }

    /// What is left of the message at the front, after a fragment of this size.
    pub(crate) fn left_after(&self, size: usize) -> usize
        ensures { result ≡ front_left_after size self.now }
    {
        let left = self.front_left();
        if left <= size {
            return self.second_left();
        }
        left - size
    }

    /// What is left of the message at the front, once those of which nothing is sent are dropped.
    pub(crate) fn partly_left(&self) -> usize
        ensures { result ≡ front_left (filter is_partly self.now) }
    {
        match &self.room {
            Some(room) => partly_left(room),
            None => 0,
        }
    }

    /// Emits of the messages of which nothing is sent that they are given up, since their stream is reset.
    pub(crate) fn emit_waiting(&self, events: &mut Events) -> Result<(), AllocError>
        ensures ok { OnOk result (events.new ≡ emit_unsent self.now events.old) }
        ensures err { OnErr result (Grown events.old events.new) }
    {
        match &self.room {
            Some(room) => emit_waiting(room, events),
            None => Ok(()),
        }
    }

    /// Emits of all messages that they are given up, as their association ended.
    pub(crate) fn emit_ended(&self, events: &mut Events) -> Result<(), AllocError>
        ensures ok { OnOk result (events.new ≡ emit_ended self.now events.old) }
        ensures err { OnErr result (Grown events.old events.new) }
    {
        match &self.room {
            Some(room) => emit_ended(room, events),
            None => Ok(()),
        }
    }
}
