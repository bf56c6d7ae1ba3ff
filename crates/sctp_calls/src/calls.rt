//! The calls that send and that set something.

ghost use Rattle.std.specs.Prelude.{◌≡◌, ◌<◌, ◌^◌, ◌⊎◌, false, true, None, is_some, length, map, IfOk, OnErr, OnOk};
ghost use Rattle.sctp_serial.specs.Messages.{message_of};
ghost use Rattle.sctp_tx_queue.specs.SendQueue.{total_of};
ghost use Rattle.sctp_state.specs.Events.{emit_events};
ghost use Rattle.sctp_state.specs.Options.{send_options_of};
ghost use Rattle.sctp_endpoint.specs.GoesOn.{GoesOn, GrownQuietly};
ghost use Rattle.sctp_endpoint.specs.Views.{context_of, phase_of, endpoint_state_of, state_of};
ghost use Rattle.spec_endpoint.specs.Calls.{ready_in};
ghost use Rattle.spec_endpoint.specs.Shown.{association_in};
ghost use Rattle.spec_endpoint.specs.Calls as table;

use sctp_endpoint::sending::send_waiting;
use sctp_endpoint::{Context, Phase, State};
use sctp_serial::{LifecycleId, Message, StreamId};
use sctp_state::{ErrorKind, SendError, SendOptions, SocketEvent, SocketState};
use sctp_wire::Checksum;
use std::alloc::AllocError;

fn shown_phase(phase: &Phase) -> SocketState
    ensures { result ≡ table.shown_phase (phase_of phase.now) }
{
    match phase {
        Phase::CookieEchoed(_) => SocketState::Connecting,
        Phase::Established => SocketState::Connected,
        Phase::ShutdownPending
        | Phase::ShutdownSent(_)
        | Phase::ShutdownReceived
        | Phase::ShutdownAckSent(_) => SocketState::ShuttingDown,
    }
}

/// What is shown of it.
pub fn socket_state(state: &State) -> SocketState
    ensures { result ≡ table.shown_state (state_of state.now) }
{
    match state {
        State::Closed => SocketState::Closed,
        State::CookieWait(_) => SocketState::Connecting,
        State::Open(phase, _) => shown_phase(phase),
    }
}

/// Whether the queue of all streams, or that of this one, holds as much as it may.
fn is_queue_full<C: Checksum>(context: &Context<C>, id: StreamId) -> bool
    ensures full { result ≡ table.is_queue_full id.0 (context_of C.word_of context.now) }
    ensures room { result ≡ false → total_of context.now.queue.streams.entries < 2 ^ 32 }
{
    context.options.max_send_buffer_size <= context.send_queue.total_buffered_amount()
        || context.options.per_stream_send_queue_limit <= context.send_queue.buffered_amount(id)
}

/// A message is refused: its lifecycle ends.
#[tactic(auto, using(sctp_endpoint::proofs::GoesOnLemmas::goes_on_same, sctp_endpoint::proofs::GoesOnLemmas::goes_on_through))]
fn refuse<C: Checksum>(
    context: &mut Context<C>,
    refusal: &SendError,
    lifecycle_id: Option<LifecycleId>,
) -> Result<(), AllocError>
    ensures ok { OnOk result (context_of C.word_of context.new ≡ table.refuse refusal.now lifecycle_id (context_of C.word_of context.old)) }
    ensures goes_on { GoesOn context.old context.new }
    ensures kept { context.new.queue ≡ context.old.queue }
{
    if let Some(id) = lifecycle_id {
        context.emit_event(SocketEvent::OnLifecycleEnd(id))?;
    }
    emit_refusal(context, refusal)
}

#[tactic(auto, using(sctp_endpoint::proofs::GoesOnLemmas::goes_on_same, sctp_endpoint::proofs::GoesOnLemmas::goes_on_through))]
fn emit_refusal<C: Checksum>(
    context: &mut Context<C>,
    refusal: &SendError,
) -> Result<(), AllocError>
    ensures ok { let c = context_of C.word_of context.old in
        OnOk result (context_of C.word_of context.new ≡ record c { emitted = emit_events (table.refusal_events refusal.now) c.emitted }) }
    ensures goes_on { GoesOn context.old context.new }
    ensures kept { context.new.queue ≡ context.old.queue }
{
    match refusal {
        SendError::EmptyPayload => context.emit_error(
            ErrorKind::ProtocolViolation,
            "Unable to send empty message",
        ),
        SendError::MessageTooLarge { .. } => context.emit_error(
            ErrorKind::ProtocolViolation,
            "Unable to send too large message",
        ),
        SendError::ShuttingDown => context.emit_error(
            ErrorKind::WrongSequence,
            "Unable to send message as the socket is shutting down",
        ),
        SendError::ResourceExhaustion => context.emit_error(
            ErrorKind::ResourceExhaustion,
            "Unable to send message as the send queue is full",
        ),
        SendError::Memory | SendError::Failed => Ok(()),
    }
}

/// A message is queued.
fn accept<C: Checksum>(
    context: &mut Context<C>,
    message: Message,
    options: &SendOptions,
) -> Result<(), AllocError>
    requires some { 0 < length message.payload.items }
    requires small { length message.payload.items < 2 ^ 32 }
    requires room { total_of context.old.queue.streams.entries < 2 ^ 32 }
    ensures ok { OnOk result (context_of C.word_of context.new
        ≡ table.accept (message_of message) (send_options_of options.now) (context_of C.word_of context.old)) }
    ensures err { OnErr result (context.new ≡ context.old) }
    ensures grown { context.new.emitted ≡ context.old.emitted }
{
    context.send_queue.add(context.clock, message, options)?;
    context.tx_messages_count = context.tx_messages_count.saturating_add(1);
    Ok(())
}

/// Why a message isn't accepted, if it isn't: the first reason that applies.
fn refusal<C: Checksum>(
    context: &Context<C>,
    shown: SocketState,
    message: &Message,
) -> Option<SendError>
    ensures answer { result ≡ table.send_refusal (message_of message.now) shown (context_of C.word_of context.now) }
    ensures some { result ≡ None → 0 < length message.now.payload.items }
    ensures small { result ≡ None → length message.now.payload.items < 2 ^ 32 }
    ensures room { result ≡ None → total_of context.now.queue.streams.entries < 2 ^ 32 }
{
    let len = message.payload.len();
    let limit = context.options.max_message_size;
    if len == 0 {
        return Some(SendError::EmptyPayload);
    }
    if limit < len {
        return Some(SendError::MessageTooLarge { len, limit });
    }
    if shown == SocketState::ShuttingDown {
        return Some(SendError::ShuttingDown);
    }
    if is_queue_full(context, message.stream_id) {
        return Some(SendError::ResourceExhaustion);
    }
    None
}

/// A message is queued, or refused; then the answer says why.
#[tactic(auto, using(sctp_endpoint::proofs::GoesOnLemmas::goes_on_same, sctp_endpoint::proofs::GoesOnLemmas::goes_on_through, sctp_endpoint::proofs::QuietLemmas::quietly_same))]
fn offer<C: Checksum>(
    context: &mut Context<C>,
    shown: SocketState,
    message: Message,
    options: &SendOptions,
) -> Result<Option<SendError>, AllocError>
    ensures answer { IfOk result (λ refusal. refusal ≡ table.send_refusal (message_of message) shown (context_of C.word_of context.old)) }
    ensures offered { OnOk result (context_of C.word_of context.new
        ≡ table.offer (message_of message) (send_options_of options.now) shown (context_of C.word_of context.old)) }
    ensures grown { GrownQuietly context.old.emitted context.new.emitted }
    ensures unsent { OnErr result (context.new.queue ≡ context.old.queue) }
    ensures uncounted { OnErr result (context.new.counts.tx_messages ≡ context.old.counts.tx_messages) }
{
    let Some(refusal) = refusal(context, shown, &message) else {
        accept(context, message, options)?;
        return Ok(None);
    };
    refuse(context, &refusal, options.lifecycle_id)?;
    Ok(Some(refusal))
}

/// Sets the amount in bytes at which a stream is low.
#[tactic(auto, using(sctp_endpoint::proofs::GoesOnLemmas::goes_on_same, sctp_endpoint::proofs::GoesOnLemmas::goes_on_through, sctp_endpoint::proofs::GoesOnLemmas::goes_on_as, sctp_endpoint::proofs::GoesOnLemmas::goes_on_by))]
pub fn set_buffered_amount_low_threshold<C: Checksum>(
    context: &mut Context<C>,
    id: StreamId,
    bytes: usize,
) -> Result<(), AllocError>
    ensures ok { OnOk result (context_of C.word_of context.new ≡ table.set_low_threshold id.0 bytes (context_of C.word_of context.old)) }
    ensures goes_on { GoesOn context.old context.new }
{
    context
        .send_queue
        .set_buffered_amount_low_threshold(id, bytes, &mut context.events)
}

/// Sets the priority of a stream, by which it is weighed with interleaving.
#[tactic(auto, using(sctp_endpoint::proofs::GoesOnLemmas::goes_on_same, sctp_endpoint::proofs::GoesOnLemmas::goes_on_through, sctp_endpoint::proofs::GoesOnLemmas::goes_on_as))]
pub fn set_stream_priority<C: Checksum>(
    context: &mut Context<C>,
    id: StreamId,
    priority: u16,
) -> Result<(), AllocError>
    ensures ok { OnOk result (context_of C.word_of context.new ≡ table.set_priority id.0 priority (context_of C.word_of context.old)) }
    ensures goes_on { GoesOn context.old context.new }
{
    context.send_queue.set_priority(id, priority)
}

/// Sets the most bytes of a message's payload.
pub fn set_max_message_size<C: Checksum>(context: &mut Context<C>, bytes: usize)
    requires { bytes < 2 ^ 32 }
    ensures { context_of C.word_of context.new ≡ table.set_max_message_size bytes (context_of C.word_of context.old) }
{
    context.options.max_message_size = bytes;
}

/// A message is queued and sent as far as it may be; or refused, then the answer says why.
#[tactic(auto, using(sctp_endpoint::proofs::GoesOnLemmas::goes_on_same, sctp_endpoint::proofs::GoesOnLemmas::goes_on_through, sctp_endpoint::proofs::QuietLemmas::quietly_through))]
pub fn send<C: Checksum>(
    state: &mut State,
    context: &mut Context<C>,
    message: Message,
    options: &SendOptions,
) -> Result<Option<SendError>, AllocError>
    ensures answer { IfOk result (λ refusal. refusal ≡ table.send_refusal_of (message_of message) (endpoint_state_of C.word_of state.old context.old)) }
    ensures sent { OnOk result (endpoint_state_of C.word_of state.new context.new
        ≡ table.send (message_of message) (send_options_of options.now) (endpoint_state_of C.word_of state.old context.old)) }
    ensures grown { GrownQuietly context.old.emitted context.new.emitted }
    ensures counted { let c = context_of C.word_of context.old in
        OnErr result ((context.new.counts.tx_messages ≡ c.counts.tx_messages) ⊎ (context.new.counts.tx_messages ≡ (table.offer (message_of message) (send_options_of options.now) (table.shown_state (state_of state.old)) c).counts.tx_messages)) }
    ensures unsent { OnErr result (is_some (table.send_refusal_of (message_of message) (endpoint_state_of C.word_of state.old context.old)) ≡ true
        → context.new.queue ≡ context.old.queue) }
    ensures ready { ready_in (state_of state.new) ≡ ready_in (state_of state.old) }
    ensures association { association_in (state_of state.new) ≡ association_in (state_of state.old) }
{
    let shown = socket_state(state);
    let refusal = offer(context, shown, message, options)?;
    if refusal.is_none() {
        send_waiting(state, context)?;
    }
    Ok(refusal)
}

/// Messages are queued or refused, one after the other.
#[tactic(auto, using(sctp_endpoint::proofs::GoesOnLemmas::goes_on_same, sctp_endpoint::proofs::GoesOnLemmas::goes_on_through, sctp_endpoint::proofs::QuietLemmas::quietly_through))]
fn offer_all<C: Checksum>(
    context: &mut Context<C>,
    shown: SocketState,
    messages: Vec<Message>,
    options: &SendOptions,
) -> Result<Vec<(usize, SendError)>, AllocError>
    ensures refusals { IfOk result (λ refusals. refusals.items ≡ table.refusals 0 (map message_of messages.items) (send_options_of options.now) shown (context_of C.word_of context.old)) }
    ensures offered { OnOk result (context_of C.word_of context.new
        ≡ table.offer_all (map message_of messages.items) (send_options_of options.now) shown (context_of C.word_of context.old)) }
    ensures grown { GrownQuietly context.old.emitted context.new.emitted }
{
    let mut refusals = Vec::new(context.alloc);
    for (place, message) in messages.into_iter().enumerate() {
        if let Some(refusal) = offer(context, shown, message, options)? {
            refusals.push((place, refusal))?;
        }
    }
    Ok(refusals)
}

/// Several messages are queued, and sent at the end. The answer names those that are refused by their places.
#[tactic(auto, using(sctp_endpoint::proofs::GoesOnLemmas::goes_on_same, sctp_endpoint::proofs::GoesOnLemmas::goes_on_through, sctp_endpoint::proofs::QuietLemmas::quietly_through))]
pub fn send_many<C: Checksum>(
    state: &mut State,
    context: &mut Context<C>,
    messages: Vec<Message>,
    options: &SendOptions,
) -> Result<Vec<(usize, SendError)>, AllocError>
    ensures refusals { IfOk result (λ refusals. refusals.items ≡ table.refusals 0 (map message_of messages.items) (send_options_of options.now)
        (table.shown_state (state_of state.old)) (context_of C.word_of context.old)) }
    ensures sent { OnOk result (endpoint_state_of C.word_of state.new context.new
        ≡ table.send_many (map message_of messages.items) (send_options_of options.now) (endpoint_state_of C.word_of state.old context.old)) }
    ensures grown { GrownQuietly context.old.emitted context.new.emitted }
    ensures ready { ready_in (state_of state.new) ≡ ready_in (state_of state.old) }
    ensures association { association_in (state_of state.new) ≡ association_in (state_of state.old) }
{
    let shown = socket_state(state);
    let refusals = offer_all(context, shown, messages, options)?;
    send_waiting(state, context)?;
    Ok(refusals)
}
