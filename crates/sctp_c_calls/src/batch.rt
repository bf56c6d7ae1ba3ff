//! Several messages at once.

ghost use Rattle.std.specs.Prelude.{◌≡◌, ◌<◌, ◌≤◌, ◌^◌, true, [], ◌∷◌, length, map, replicate, take, IfOk};
ghost use Rattle.sctp_association.specs.Socket.{endpoint};
ghost use Rattle.sctp_c_calls.specs.Answers.{Ended, OnSettled, batch_number, mark_refused};
ghost use Rattle.sctp_c_records.specs.Answers.{IsAmong};
ghost use Rattle.sctp_c_calls.specs.Batch.{given_message, has_stream, have_streams};
ghost use Rattle.sctp_c_records.specs.Records.{given_send_options};
ghost use Rattle.sctp_serial.specs.Messages.{message_of};
ghost use Rattle.spec_endpoint.specs.Calls as calls;
ghost use Rattle.spec_endpoint.specs.Input.{in_endpoint_state};

use crate::messages::refusal_number;
use rand_core::Rng;
use sctp_association::{
    BatchFault, Checksum, DcSctpSocket, Message, PpId, SendError, Socket, StreamId,
};
use sctp_c_records::answers::{FAILED, MEMORY, NO_ROOM, OK, SOME_REFUSED};
use sctp_c_records::{OutgoingRecord, SendRecord};
use std::alloc::{AllocError, Global};

/// Whether each message is for a stream that there is.
pub fn have_streams(messages: &[OutgoingRecord<'_>]) -> bool
    ensures { result ≡ have_streams messages.now }
{
    messages.iter().all(|message| message.stream < 65_536)
}

fn copied(alloc: Global, message: &OutgoingRecord<'_>) -> Result<Message, AllocError>
    requires { has_stream message.now ≡ true }
    ensures { IfOk result (λ m. message_of m ≡ given_message message.now) }
{
    let payload = Vec::from_slice(alloc, message.payload)?;
    Ok(Message::new(StreamId(message.stream as u16), PpId(message.ppid), payload))
}

fn all_copied(alloc: Global, messages: &[OutgoingRecord<'_>]) -> Result<Vec<Message>, AllocError>
    requires { have_streams messages.now ≡ true }
    ensures { IfOk result (λ ms. map message_of ms.items ≡ map given_message messages.now) }
{
    let mut copies = Vec::with_capacity(alloc, messages.len())?;
    for message in messages {
        copies.push(copied(alloc, message)?)?;
    }
    Ok(copies)
}

/// Writes at its place why a message wasn't accepted.
fn note(answers: &mut Vec<u32>, refusals: &[(usize, SendError)])
    ensures noted { answers.new.items ≡ mark_refused refusals.now answers.old.items }
    ensures len { length answers.new.items ≡ length answers.old.items }
{
    for refused in refusals {
        let place = refused.0;
        if place < answers.len() {
            answers[place] = refusal_number(&refused.1);
        }
    }
}

/// Writes each message's answer.
fn write_answers(answers: &mut [u32], mut own: Vec<u32>, refusals: &[(usize, SendError)])
    requires { length own.items ≤ length answers.old }
    ensures { take (length own.items) answers.new ≡ mark_refused refusals.now own.items }
{
    note(&mut own, refusals);
    let (front, _) = answers.split_at_mut(own.len());
    front.copy_from_slice(&own);
}

/// Queues copies of messages, and sends as much as may be sent. Each message's answer is handed out.
pub fn send_many<R: Rng, C: Checksum>(
    alloc: Global,
    socket: &mut Socket<R, C>,
    messages: &[OutgoingRecord<'_>],
    options: &SendRecord,
    answers: &mut [u32],
) -> u32
    requires streams { have_streams messages.now ≡ true }
    requires count { options.now.max_retransmissions < 2 ^ 16 }
    requires room { length messages.now ≤ length answers.old }
    ensures answers { IsAmong (0 ∷ 1 ∷ 2 ∷ 17 ∷ 18 ∷ []) result }
    ensures ends { Ended result socket.old socket.new }
    ensures answer { OnSettled result (let s = (endpoint R.stream C.word_of socket.old).endpoint_state in
        result ≡ batch_number (calls.refusals 0 (map given_message messages.now) (given_send_options options.now) (calls.shown_state s.state) s.context)) }
    ensures each { OnSettled result (let s = (endpoint R.stream C.word_of socket.old).endpoint_state in
        take (length messages.now) answers.new
        ≡ mark_refused (calls.refusals 0 (map given_message messages.now) (given_send_options options.now) (calls.shown_state s.state) s.context) (replicate (length messages.now) 0)) }
    ensures sent { OnSettled result (endpoint R.stream C.word_of socket.new
        ≡ in_endpoint_state (calls.send_many (map given_message messages.now) (given_send_options options.now)) (endpoint R.stream C.word_of socket.old)) }
{
    let Ok(own) = Vec::from_elem(alloc, OK, messages.len()) else {
        return NO_ROOM;
    };
    let Ok(copies) = all_copied(alloc, messages) else {
        return NO_ROOM;
    };
    match socket.send_many(copies, &options.options()) {
        Ok(()) => {
            write_answers(answers, own, &[]);
            OK
        }
        Err(BatchFault::Refused(refusals)) => {
            write_answers(answers, own, &refusals.0);
            SOME_REFUSED
        }
        Err(BatchFault::Memory) => MEMORY,
        Err(BatchFault::Failed) => FAILED,
    }
}
