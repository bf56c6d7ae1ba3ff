//! The calls of an end.

ghost use Rattle.std.specs.Prelude.{◌≡◌, map, IfOk, OnOk};
ghost use Rattle.sctp_serial.specs.Messages.{message_of};
ghost use Rattle.sctp_state.specs.Events.{numbers_of};
ghost use Rattle.sctp_state.specs.Options.{send_options_of};
ghost use Rattle.sctp_association.specs.Socket.{endpoint};
ghost use Rattle.spec_world.specs.Observations.{HandOver, Reset, Send, SendMany};
ghost use Rattle.spec_world.specs.World.{after_call, answer_to};
ghost use Rattle.sctp_network_side.specs.SideView.{answer_tree, call_tree};

use crate::log::{Answer, Call, copies_of, copy_of};
use rand_core::Rng;
use sctp_association::{DcSctpSocket, Socket};
use sctp_serial::{Message, StreamId};
use sctp_state::{BatchFault, CallError, HandoverError, ResetStreamsError, SendError, SendOptions};
use sctp_wire::Checksum;
use std::alloc::Global;

/// Makes a call, and says what it answered.
pub fn make_call<R: Rng, C: Checksum>(
    alloc: Global,
    call: &Call,
    socket: &mut Socket<R, C>,
) -> Result<Answer, CallError>
    ensures after { OnOk result (endpoint R.stream C.word_of socket.new ≡ after_call (call_tree call.now) (endpoint R.stream C.word_of socket.old)) }
    ensures answer { IfOk result (λ answer. answer_tree answer ≡ answer_to (call_tree call.now) (endpoint R.stream C.word_of socket.old)) }
{
    match call {
        Call::Connect => socket.connect()?,
        Call::Shutdown => socket.shutdown()?,
        Call::Close => socket.close()?,
        Call::Send(message, options) => return send(alloc, message, options, socket),
        Call::SendMany(messages, options) => return send_many(alloc, messages, options, socket),
        Call::Handover => return hand_over(socket),
        Call::Receive => return Ok(Answer::Received(socket.get_next_message())),
        Call::Reset(streams) => return reset(streams, socket),
        Call::SetPriority(stream, priority) => socket.set_stream_priority(*stream, *priority)?,
        Call::SetMaxMessageSize(bytes) => socket.set_max_message_size(*bytes as usize),
        Call::SetLowThreshold(stream, bytes) => {
            socket.set_buffered_amount_low_threshold(*stream, *bytes)?
        }
    }
    Ok(Answer::Done)
}

fn send<R: Rng, C: Checksum>(
    alloc: Global,
    message: &Message,
    options: &SendOptions,
    socket: &mut Socket<R, C>,
) -> Result<Answer, CallError>
    ensures after { OnOk result (endpoint R.stream C.word_of socket.new
        ≡ after_call (Send (message_of message.now) (send_options_of options.now)) (endpoint R.stream C.word_of socket.old)) }
    ensures answer { IfOk result (λ answer. answer_tree answer
        ≡ answer_to (Send (message_of message.now) (send_options_of options.now)) (endpoint R.stream C.word_of socket.old)) }
{
    let message = copy_of(alloc, message)?;
    match socket.send(message, options) {
        Ok(()) => Ok(Answer::Sent(None)),
        Err(SendError::Memory) => Err(CallError::Memory),
        Err(SendError::Failed) => Err(CallError::Failed),
        Err(refusal) => Ok(Answer::Sent(Some(refusal))),
    }
}

fn send_many<R: Rng, C: Checksum>(
    alloc: Global,
    messages: &[Message],
    options: &SendOptions,
    socket: &mut Socket<R, C>,
) -> Result<Answer, CallError>
    ensures after { OnOk result (endpoint R.stream C.word_of socket.new
        ≡ after_call (SendMany (map message_of messages.now) (send_options_of options.now)) (endpoint R.stream C.word_of socket.old)) }
    ensures answer { IfOk result (λ answer. answer_tree answer
        ≡ answer_to (SendMany (map message_of messages.now) (send_options_of options.now)) (endpoint R.stream C.word_of socket.old)) }
{
    let messages = copies_of(alloc, messages)?;
    match socket.send_many(messages, options) {
        Ok(()) => Ok(Answer::SentMany(Vec::new(alloc))),
        Err(BatchFault::Refused(refused)) => Ok(Answer::SentMany(refused.0)),
        Err(BatchFault::Memory) => Err(CallError::Memory),
        Err(BatchFault::Failed) => Err(CallError::Failed),
    }
}

fn hand_over<R: Rng, C: Checksum>(socket: &mut Socket<R, C>) -> Result<Answer, CallError>
    ensures after { OnOk result (endpoint R.stream C.word_of socket.new ≡ after_call HandOver (endpoint R.stream C.word_of socket.old)) }
    ensures answer { IfOk result (λ answer. answer_tree answer ≡ answer_to HandOver (endpoint R.stream C.word_of socket.old)) }
{
    match socket.get_handover_state_and_close() {
        Ok(state) => Ok(Answer::HandedOver(state)),
        Err(HandoverError::NotReady(readiness)) => Ok(Answer::NotReady(readiness)),
        Err(HandoverError::Memory) => Err(CallError::Memory),
        Err(HandoverError::Failed) => Err(CallError::Failed),
    }
}

fn reset<R: Rng, C: Checksum>(
    streams: &[StreamId],
    socket: &mut Socket<R, C>,
) -> Result<Answer, CallError>
    ensures after { OnOk result (endpoint R.stream C.word_of socket.new ≡ after_call (Reset (numbers_of streams.now)) (endpoint R.stream C.word_of socket.old)) }
    ensures answer { IfOk result (λ answer. answer_tree answer ≡ answer_to (Reset (numbers_of streams.now)) (endpoint R.stream C.word_of socket.old)) }
{
    match socket.reset_streams(streams) {
        Ok(()) => Ok(Answer::AskedReset(None)),
        Err(ResetStreamsError::Memory) => Err(CallError::Memory),
        Err(ResetStreamsError::Failed) => Err(CallError::Failed),
        Err(refusal) => Ok(Answer::AskedReset(Some(refusal))),
    }
}
