//! A message that waits or is partly sent, and its fragments.

ghost use Rattle.std.specs.Prelude.{◌≡◌, ◌+◌, ◌-◌, ◌<◌, ◌^◌, length, IfOk, IsTrue, None, option_map, unwrap_or, is_some, min, take, drop, if◌then◌else◌};
ghost use Rattle.std.specs.Duration.{as_nanos};
ghost use Rattle.sctp_chunk.specs.Written.{key_stream};
ghost use Rattle.sctp_chunk.specs.Views.{is_unordered_key};
ghost use Rattle.sctp_tx_queue.specs.SendQueue.{remaining_bytes, expiry_of};
ghost use Rattle.sctp_tx_queue.specs.Produced.{is_stale, is_expired, ends, made_of, move_past, needs_room};
ghost use Rattle.sctp_tx_queue.specs.Resets.{is_partly};
ghost use Rattle.sctp_tx_queue.specs.Whole.{is_whole, with_payload};
ghost use Rattle.sctp_serial.specs.Unwrapped.{u32_space, halves, wire};
ghost use Rattle.sctp_state.specs.Handover.{stream_message_of};
ghost use Rattle.sctp_tx_queue.specs.Handover.{queued_message};
ghost use Rattle.sctp_tx_queue.specs.Restored.{numbers_from, message_from};
ghost use Rattle.sctp_tx_queue.specs.Restarted.{whole, is_unbegun};
ghost use Rattle.sctp_tx_queue.specs.Views.{produced_of, queued_of};

use crate::data_to_send::DataToSend;
use crate::send_queue::sending::StreamTurn;
use sctp_chunk::{Data, SpareBuffers};
use sctp_serial::{
    Fsn, LifecycleId, Message, Mid, OutgoingMessageId, PpId, SerialNumber, SocketTime, Ssn,
    StreamId, StreamKey,
};
use sctp_state::SendOptions;
use sctp_state::api::handover::HandoverStreamMessage;
use sctp_state::api::handover::times::{expires_in, expiry_from, lifecycle_from, lifecycle_number};
use std::alloc::{AllocError, Global};
use std::marker::Model;
use std::time::Duration;

/// What a message takes with its first fragment, counted without wrapping: its number among the ordered messages of its
/// stream, and that among the messages of its stream and kind, which is used with interleaving.
#[derive(Clone, Copy)]
pub struct MessageNumbers {
    pub ssn: u64,
    pub mid: u64,
}

/// What few messages have that wait: a lifetime, a lifecycle, and what the next fragment is numbered by once one is sent.
#[derive(Clone, Copy)]
pub struct Details {
    expires_at: Option<SocketTime>,
    lifecycle_id: Option<LifecycleId>,
    numbers: Option<MessageNumbers>,
    next_fsn: Fsn,
}

/// A message of the send queue. It takes 56 bytes beside those of its payload, and a box where it has details.
#[derive(Drop)]
pub struct QueuedMessage {
    payload: Vec<u8>,
    details: Option<Box<Details>>,
    // how much of the payload was sent
    offset: u32,
    message_id: OutgoingMessageId,
    ppid: PpId,
    max_retransmissions: u16,
    is_unordered: bool,
}

impl Model for QueuedMessage {
    ghost use Rattle.std.specs.Prelude.{◌<◌, ◌^◌, None, length, option_map, unwrap_or};
    ghost use Rattle.sctp_tx_queue.specs.SendQueue.{Queued};

    ghost Value = { Queued };

    ghost view = { λ m. record { number = m.message_id.0; ppid = m.ppid.0; payload = m.payload.items; is_unordered = m.is_unordered; expires = unwrap_or (option_map (λ d. d.value.expires_at) m.details) None; limit = m.max_retransmissions; lifecycle = unwrap_or (option_map (λ d. d.value.lifecycle_id) m.details) None; offset = m.offset; numbers = unwrap_or (option_map (λ d. d.value.numbers) m.details) None; fsn = unwrap_or (option_map (λ d. d.value.next_fsn.0) m.details) 0 } };

    ghost invariant = { λ m. (m.offset < length m.payload.items) × (length m.payload.items < 2 ^ 32) };
}

fn expiry(now: SocketTime, lifetime: Option<Duration>) -> Option<SocketTime>
    ensures { result ≡ expiry_of now (option_map as_nanos lifetime) }
{
    match lifetime {
        Some(span) => Some(now + span + Duration::from_millis(1)),
        None => None,
    }
}

fn is_due(expires_at: Option<SocketTime>, now: SocketTime) -> bool
    ensures { result ≡ is_expired now expires_at }
{
    match expires_at {
        Some(moment) => moment <= now,
        None => false,
    }
}

fn stream_key(is_unordered: bool, id: StreamId) -> StreamKey
    ensures stream { key_stream result ≡ id.0 }
    ensures kind { is_unordered_key result ≡ is_unordered }
{
    StreamKey::new(is_unordered, id)
}

fn mid_of(numbers: Option<MessageNumbers>) -> Option<u32>
    ensures { result ≡ option_map (λ n. wire u32_space 0 n.mid) numbers }
{
    match numbers {
        Some(numbers) => Some(Mid::wrapped(Mid(0), numbers.mid).0),
        None => None,
    }
}

fn ssn_of(is_unordered: bool, numbers: Option<MessageNumbers>) -> Option<u16>
    ensures { result ≡ (if is_unordered then None else option_map (λ n. wire halves 0 n.ssn) numbers) }
{
    if is_unordered {
        return None;
    }
    match numbers {
        Some(numbers) => Some(Ssn::wrapped(Ssn(0), numbers.ssn).0),
        None => None,
    }
}

fn numbers_from(mid: Option<u32>, ssn: Option<u16>) -> Option<MessageNumbers>
    ensures { result ≡ numbers_from mid ssn }
{
    match mid {
        Some(mid) => Some(MessageNumbers {
            ssn: (1 << 32) + ssn.unwrap_or(0) as u64,
            mid: (1 << 32) + mid as u64,
        }),
        None => None,
    }
}

/// No details.
const NO_DETAILS: Details = Details {
    expires_at: None,
    lifecycle_id: None,
    numbers: None,
    next_fsn: Fsn(0),
};

/// Details, where there are any.
fn boxed(alloc: Global, details: Details) -> Result<Option<Box<Details>>, AllocError>
    ensures expiry { IfOk result (λ boxed. unwrap_or (option_map (λ d. d.value.expires_at) boxed) None ≡ details.expires_at) }
    ensures lifecycle { IfOk result (λ boxed. unwrap_or (option_map (λ d. d.value.lifecycle_id) boxed) None ≡ details.lifecycle_id) }
    ensures numbers { IfOk result (λ boxed. unwrap_or (option_map (λ d. d.value.numbers) boxed) None ≡ details.numbers) }
    ensures fsn { IfOk result (λ boxed. unwrap_or (option_map (λ d. d.value.next_fsn.0) boxed) 0 ≡ details.next_fsn.0) }
{
    let is_timed = details.expires_at.is_some() || details.lifecycle_id.is_some();
    if is_timed || details.numbers.is_some() || details.next_fsn.0 != 0 {
        return Ok(Some(Box::new(alloc, details)?));
    }
    Ok(None)
}

impl QueuedMessage {
    /// The message of a record, in the socket that takes it up now.
    pub(crate) fn restored(
        alloc: Global,
        now: SocketTime,
        message: &HandoverStreamMessage,
    ) -> Result<QueuedMessage, AllocError>
        requires left { message.now.remaining_offset < length message.now.payload.items }
        requires small { length message.now.payload.items < 2 ^ 32 }
        requires number { message.now.message_id < 2 ^ 32 }
        ensures { IfOk result (λ m. m ≡ message_from now (stream_message_of message.now)) }
    {
        let details = Details {
            expires_at: expiry_from(now, message.expires_in_ms),
            lifecycle_id: lifecycle_from(message.lifecycle_id),
            numbers: numbers_from(message.mid, message.ssn),
            next_fsn: Fsn(message.fsn),
        };
        Ok(QueuedMessage {
            message_id: OutgoingMessageId(message.message_id as u32),
            ppid: PpId(message.ppid),
            payload: Vec::from_slice(alloc, &message.payload)?,
            is_unordered: message.unordered,
            details: boxed(alloc, details)?,
            max_retransmissions: message.max_retransmissions,
            offset: message.remaining_offset as u32,
        })
    }

    /// It, on a stream, in the record of a socket that is handed over now.
    pub(crate) fn handed_over(
        &self,
        alloc: Global,
        now: SocketTime,
        id: StreamId,
    ) -> Result<HandoverStreamMessage, AllocError>
        ensures { IfOk result (λ m. stream_message_of m ≡ queued_message now id.0 self.now) }
    {
        Ok(HandoverStreamMessage {
            stream_id: id.0,
            ppid: self.ppid.0,
            payload: Vec::from_slice(alloc, &self.payload)?,
            expires_in_ms: expires_in(now, self.expires_at()),
            max_retransmissions: self.max_retransmissions,
            unordered: self.is_unordered,
            lifecycle_id: lifecycle_number(self.lifecycle_id()),
            message_id: u64::from(self.message_id.0),
            remaining_offset: self.sent(),
            mid: mid_of(self.numbers()),
            ssn: ssn_of(self.is_unordered, self.numbers()),
            fsn: self.next_fsn().0,
        })
    }

    /// A message that is accepted now. It expires a millisecond after its lifetime.
    #[inline(always)]
    pub(crate) fn new(
        alloc: Global,
        message_id: OutgoingMessageId,
        now: SocketTime,
        message: Message,
        options: &SendOptions,
    ) -> Result<QueuedMessage, AllocError>
        requires some { 0 < length message.payload.items }
        requires small { length message.payload.items < 2 ^ 32 }
        ensures { IfOk result (λ m. m ≡ queued_of message_id.0 now message options.now) }
    {
        let details = Details {
            expires_at: expiry(now, options.lifetime),
            lifecycle_id: options.lifecycle_id,
            ..NO_DETAILS
        };
        Ok(QueuedMessage {
            message_id,
            ppid: message.ppid,
            payload: message.payload,
            is_unordered: options.unordered,
            details: boxed(alloc, details)?,
            max_retransmissions: options.max_retransmissions.unwrap_or(u16::MAX),
            offset: 0,
        })
    }

    pub(crate) fn message_id(&self) -> OutgoingMessageId
        ensures { result.0 ≡ self.now.number }
    {
        self.message_id
    }

    pub(crate) fn lifecycle_id(&self) -> Option<LifecycleId>
        ensures { result ≡ self.now.lifecycle }
    {
        match &self.details {
            Some(details) => details.lifecycle_id,
            None => None,
        }
    }

    /// The moment from which it is expired.
    fn expires_at(&self) -> Option<SocketTime>
        ensures { result ≡ self.now.expires }
    {
        match &self.details {
            Some(details) => details.expires_at,
            None => None,
        }
    }

    pub(crate) fn is_unordered(&self) -> bool
        ensures { result ≡ self.now.is_unordered }
    {
        self.is_unordered
    }

    pub(crate) fn numbers(&self) -> Option<MessageNumbers>
        ensures { result ≡ self.now.numbers }
    {
        match &self.details {
            Some(details) => details.numbers,
            None => None,
        }
    }

    /// The FSN of its next fragment.
    fn next_fsn(&self) -> Fsn
        ensures { result.0 ≡ self.now.fsn }
    {
        match &self.details {
            Some(details) => details.next_fsn,
            None => Fsn(0),
        }
    }

    /// Whether it expired before a fragment of it was sent.
    pub(crate) fn is_stale(&self, now: SocketTime) -> bool
        ensures { result ≡ is_stale now self.now }
    {
        self.numbers().is_none() && is_due(self.expires_at(), now)
    }

    /// Whether a fragment of it was sent.
    pub(crate) fn is_partly_sent(&self) -> bool
        ensures { result ≡ is_partly self.now }
    {
        0 < self.offset
    }

    /// The bytes that are not sent.
    pub(crate) fn left(&self) -> usize
        ensures value { result ≡ remaining_bytes self.now }
        ensures more { 0 < result }
        ensures small { result < 2 ^ 32 }
        ensures whole { length self.now.payload < 2 ^ 32 }
    {
        self.payload.len() - self.sent()
    }

    /// The bytes that are sent.
    pub(crate) fn sent(&self) -> usize
        ensures value { result ≡ self.now.offset }
        ensures whole { remaining_bytes self.now + result ≡ length self.now.payload }
        ensures small { result < 2 ^ 32 }
    {
        self.offset as usize
    }

    /// Whether nothing of it is sent, and it has no numbers.
    pub(crate) fn is_unbegun(&self) -> bool
        ensures { result ≡ is_unbegun self.now }
    {
        self.offset == 0 && (self.numbers().is_none() && self.next_fsn().0 == 0)
    }

    /// It is sent from its beginning again.
    pub(crate) fn make_whole(&mut self)
        ensures { self.new ≡ whole self.old }
    {
        self.offset = 0;
        if let Some(details) = &mut self.details {
            details.numbers = None;
            details.next_fsn = Fsn(0);
        }
    }

    /// The bytes of the next fragment, of at most `size`, in one of these buffers where it serves.
    fn next_payload(
        &self,
        alloc: Global,
        spares: &mut SpareBuffers,
        size: usize,
    ) -> Result<Vec<u8>, AllocError>
        ensures { IfOk result (λ bytes. bytes.items ≡ take size (drop self.now.offset self.now.payload)) }
    {
        let start = self.sent();
        let end = start + self.left().min(size);
        spares.copy(alloc, &self.payload[start..end])
    }

    /// The lifecycle id, which goes with the last fragment alone.
    fn lifecycle_ended(&self, size: usize) -> Option<LifecycleId>
        ensures { result ≡ (if ends size self.now then self.now.lifecycle else None) }
    {
        if self.left() <= size {
            self.lifecycle_id()
        } else {
            None
        }
    }

    /// The next fragment under these numbers, with this payload.
    fn fragment_with(
        &self,
        turn: StreamTurn,
        numbers: MessageNumbers,
        payload: Vec<u8>,
    ) -> DataToSend
        ensures { produced_of result ≡ with_payload payload.items (made_of turn.id.0 turn.size numbers self.now) }
    {
        DataToSend {
            message_id: self.message_id,
            data: Data {
                stream_key: stream_key(self.is_unordered, turn.id),
                ssn: Ssn::wrapped(Ssn(0), numbers.ssn),
                mid: Mid::wrapped(Mid(0), numbers.mid),
                fsn: self.next_fsn(),
                ppid: self.ppid,
                payload,
                is_beginning: !self.is_partly_sent(),
                is_end: self.left() <= turn.size,
            },
            max_retransmissions: self.max_retransmissions,
            expires_at: self.expires_at(),
            lifecycle_id: self.lifecycle_ended(turn.size),
        }
    }

    /// The next fragment under these numbers.
    pub(crate) fn fragment(
        &self,
        turn: StreamTurn,
        spares: &mut SpareBuffers,
        numbers: MessageNumbers,
    ) -> Result<DataToSend, AllocError>
        ensures { IfOk result (λ made. produced_of made ≡ made_of turn.id.0 turn.size numbers self.now) }
    {
        let payload = self.next_payload(turn.alloc, spares, turn.size)?;
        Ok(self.fragment_with(turn, numbers, payload))
    }

    /// Whether a fragment of this size is all of it.
    pub(crate) fn is_whole(&self, size: usize) -> bool
        ensures { result ≡ is_whole size self.now }
    {
        !self.is_partly_sent() && self.left() <= size
    }

    /// The fragment that is all of it, with its payload and not a copy.
    pub(crate) fn into_fragment(self, turn: StreamTurn, numbers: MessageNumbers) -> DataToSend
        requires { IsTrue (is_whole turn.size self) }
        ensures { produced_of result ≡ made_of turn.id.0 turn.size numbers self }
    {
        let mut made = self.fragment_with(turn, numbers, Vec::new(turn.alloc));
        made.data.payload = self.payload;
        made
    }

    /// The room that it needs for its numbers, where it takes them with a fragment of this size and isn't ended.
    pub(crate) fn room_to_move_on(
        &self,
        alloc: Global,
        size: usize,
    ) -> Result<Option<Box<Details>>, AllocError>
        ensures { IfOk result (λ room. is_some room ≡ needs_room size self.now) }
    {
        if self.numbers().is_some() || self.left() <= size {
            return Ok(None);
        }
        Ok(Some(Box::new(alloc, NO_DETAILS)?))
    }

    /// That fragment was sent, and it was not the end.
    #[inline(always)]
    pub(crate) fn move_on(
        &mut self,
        numbers: MessageNumbers,
        size: usize,
        room: Option<Box<Details>>,
    )
        requires more { size < remaining_bytes self.old }
        requires room { is_some room ≡ needs_room size self.old }
        ensures { self.new ≡ move_past size numbers self.old }
    {
        if let Some(mut room) = room {
            room.expires_at = self.expires_at();
            room.lifecycle_id = self.lifecycle_id();
            room.next_fsn = self.next_fsn();
            self.details = Some(room);
        }
        if let Some(details) = &mut self.details {
            details.numbers = Some(numbers);
            details.next_fsn += 1;
        }
        self.offset += size as u32;
    }
}
