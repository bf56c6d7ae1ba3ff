//! Messages, in and out.

ghost use Rattle.std.specs.Prelude.{◌≡◌, ◌<◌, ◌^◌, [], ◌∷◌, length, None, Some, drop, option_map};
ghost use Rattle.sctp_association.specs.Socket.{endpoint};
ghost use Rattle.sctp_c_calls.specs.Answers.{Ended, OnSettled, refusal_number};
ghost use Rattle.sctp_c_records.specs.Answers.{IsAmong, OnAnswer, OnOthers};
ghost use Rattle.sctp_c_calls.specs.Events.{HasAll, HasMessage, NeedsMore, message_record, with_given_up};
ghost use Rattle.sctp_c_records.specs.Event.{Copied};
ghost use Rattle.sctp_c_records.specs.GivenUp.{given_up_record};
ghost use Rattle.sctp_state.specs.Events.{first_of};
ghost use Rattle.sctp_serial.specs.Messages.{message_of};
ghost use Rattle.sctp_c_records.specs.Records.{given_send_options};
ghost use Rattle.spec_endpoint.specs.Calls as calls;
ghost use Rattle.spec_endpoint.specs.Input.{in_endpoint_state};

use rand_core::Rng;
use sctp_association::{Checksum, DcSctpSocket, Message, PpId, SendError, Socket, StreamId};
use sctp_c_records::answers::{
    EMPTY_PAYLOAD, FAILED, MEMORY, MESSAGE_TOO_LARGE, NO_ROOM, NOTHING, OK, QUEUE_FULL,
    SHORT_BUFFER, SHUTTING_DOWN,
};
use sctp_c_records::{GivenUpRecord, MessageRecord, SendRecord, put_bytes};
use std::alloc::Global;

/// The record of a message.
fn record_of(message: &Message) -> MessageRecord
    ensures { result ≡ message_record (message_of message.now) }
{
    MessageRecord {
        stream: message.stream_id.0 as u32,
        ppid: message.ppid.0,
        length: message.payload.len(),
    }
}

/// Writes a message's record and, where they fit, its bytes. Answers whether they do.
fn show(message: &Message, head: &mut MessageRecord, buffer: &mut [u8]) -> bool
    ensures head { head.new ≡ message_record (message_of message.now) }
    ensures bytes { Copied result message.now.payload.items buffer.old buffer.new }
{
    *head = record_of(message);
    put_bytes(&message.payload, buffer)
}

/// Hands out the message that was ready first. Where it doesn't fit its length is handed out, and it stays.
pub fn next_message<R: Rng, C: Checksum>(
    socket: &mut Socket<R, C>,
    head: &mut MessageRecord,
    buffer: &mut [u8],
) -> u32
    ensures answers { IsAmong (0 ∷ 8 ∷ 9 ∷ []) result }
    ensures message { OnAnswer 0 result (HasMessage head.new buffer.new (calls.ready_in socket.old.state)) }
    ensures taken { OnAnswer 0 result (endpoint R.stream C.word_of socket.new ≡ in_endpoint_state calls.take_message (endpoint R.stream C.word_of socket.old)) }
    ensures failure { socket.new.has_failed ≡ socket.old.has_failed }
    ensures stays { OnOthers 0 result (socket.new ≡ socket.old) }
    ensures nothing { OnAnswer 8 result (calls.ready_in socket.old.state ≡ []) }
    ensures needed { OnAnswer 9 result (NeedsMore head.new (length buffer.old) (calls.ready_in socket.old.state)) }
{
    let fits = match socket.ready_message(0) {
        None => return NOTHING,
        Some(message) => show(message, head, buffer),
    };
    if !fits {
        return SHORT_BUFFER;
    }
    drop(socket.get_next_message());
    OK
}

/// Hands out the message that was ready first, whose payload `lent` has then in place of what it had.
pub fn borrow_message<R: Rng, C: Checksum>(
    alloc: Global,
    socket: &mut Socket<R, C>,
    head: &mut MessageRecord,
    lent: &mut Vec<u8>,
) -> u32
    ensures answers { IsAmong (0 ∷ 8 ∷ []) result }
    ensures message { OnAnswer 0 result (HasAll head.new lent.new.items (calls.ready_in socket.old.state)) }
    ensures taken { endpoint R.stream C.word_of socket.new ≡ in_endpoint_state calls.take_message (endpoint R.stream C.word_of socket.old) }
    ensures failure { socket.new.has_failed ≡ socket.old.has_failed }
    ensures nothing { OnAnswer 8 result (calls.ready_in socket.old.state ≡ []) }
    ensures let_go { OnAnswer 8 result (lent.new.items ≡ []) }
{
    match socket.get_next_message() {
        None => {
            drop(std::mem::replace(lent, Vec::new(alloc)));
            NOTHING
        }
        Some(message) => {
            *head = record_of(&message);
            drop(std::mem::replace(lent, message.payload));
            OK
        }
    }
}

/// Takes the record of the message that was given up first.
pub fn next_given_up<R: Rng, C: Checksum>(
    socket: &mut Socket<R, C>,
    head: &mut GivenUpRecord,
) -> u32
    ensures answers { IsAmong (0 ∷ 8 ∷ []) result }
    ensures first { OnAnswer 0 result (Some head.new ≡ option_map given_up_record (first_of socket.old.context.emitted.given_up)) }
    ensures nothing { OnAnswer 8 result (first_of socket.old.context.emitted.given_up ≡ None) }
    ensures rest { socket.new ≡ with_given_up socket.old (drop 1 socket.old.context.emitted.given_up) }
{
    match socket.next_given_up() {
        None => NOTHING,
        Some(given_up) => {
            *head = GivenUpRecord::of(&given_up);
            OK
        }
    }
}

/// Why a message isn't accepted.
pub(crate) fn refusal_number(refusal: &SendError) -> u32
    ensures { result ≡ refusal_number (Some refusal.now) }
{
    match refusal {
        SendError::EmptyPayload => EMPTY_PAYLOAD,
        SendError::MessageTooLarge { len: _, limit: _ } => MESSAGE_TOO_LARGE,
        SendError::ShuttingDown => SHUTTING_DOWN,
        SendError::ResourceExhaustion => QUEUE_FULL,
        SendError::Memory => MEMORY,
        SendError::Failed => FAILED,
    }
}

/// A message as C lends it.
#[derive(Clone, Copy)]
pub struct LentMessage<'a> {
    pub stream: u16,
    pub ppid: u32,
    pub payload: &'a [u8],
}

/// Queues a copy of a message, and sends as much as may be sent.
pub fn send<R: Rng, C: Checksum>(
    alloc: Global,
    socket: &mut Socket<R, C>,
    message: LentMessage<'_>,
    options: &SendRecord,
) -> u32
    requires { options.now.max_retransmissions < 2 ^ 16 }
    ensures answers { IsAmong (0 ∷ 1 ∷ 2 ∷ 10 ∷ 11 ∷ 12 ∷ 13 ∷ 17 ∷ []) result }
    ensures ends { Ended result socket.old socket.new }
    ensures answer { OnSettled result (result ≡ refusal_number (calls.send_refusal_of (record { stream = message.entry.stream; ppid = message.entry.ppid; payload = message.entry.payload.now }) (endpoint R.stream C.word_of socket.old).endpoint_state)) }
    ensures sent { OnSettled result (endpoint R.stream C.word_of socket.new
        ≡ in_endpoint_state (calls.send (record { stream = message.entry.stream; ppid = message.entry.ppid; payload = message.entry.payload.now }) (given_send_options options.now)) (endpoint R.stream C.word_of socket.old)) }
{
    let Ok(payload) = Vec::from_slice(alloc, message.payload) else {
        return NO_ROOM;
    };
    let message = Message::new(StreamId(message.stream), PpId(message.ppid), payload);
    match socket.send(message, &options.options()) {
        Ok(()) => OK,
        Err(refusal) => refusal_number(&refusal),
    }
}
