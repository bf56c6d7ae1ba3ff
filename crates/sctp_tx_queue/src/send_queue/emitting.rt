//! What the send queue emits to the socket's user.

ghost use Rattle.std.specs.Prelude.{◌≡◌, None, OnOk, OnErr};
ghost use Rattle.sctp_state.specs.Events.{OnBufferedAmountLow, OnTotalBufferedAmountLow, expired_events, emit_given_up, emit_events, Grown};
ghost use Rattle.sctp_tx_queue.specs.Produced.{when, fully_sent, production};
ghost use Rattle.sctp_tx_queue.specs.Resets.{emit_unsent};
ghost use Rattle.sctp_tx_queue.specs.Emptied.{emit_ended};

use crate::send_queue::message::QueuedMessage;
use sctp_serial::{LifecycleId, OutgoingMessageId, StreamId};
use sctp_state::{Events, GivenUp, GivenUpCause, SocketEvent};
use std::alloc::AllocError;
use std::collections::VecDeque;

/// Which amounts fall to their thresholds.
#[derive(Clone, Copy)]
pub(crate) struct Lows {
    pub is_low: bool,
    pub is_total_low: bool,
}

/// Neither does.
pub(crate) const NOTHING_LOW: Lows = Lows {
    is_low: false,
    is_total_low: false,
};

/// A message was dropped before it was fully sent.
fn emit_expired(events: &mut Events, lifecycle_id: Option<LifecycleId>) -> Result<(), AllocError>
    ensures ok { OnOk result (events.new ≡ emit_events (expired_events lifecycle_id) events.old) }
    ensures err { OnErr result (Grown events.old events.new) }
{
    if let Some(id) = lifecycle_id {
        events.add(SocketEvent::OnLifecycleMessageExpired(id))?;
        events.add(SocketEvent::OnLifecycleEnd(id))?;
    }
    Ok(())
}

/// The rest of a message was dropped, and these amounts fell by it.
pub(crate) fn emit_discarded(
    events: &mut Events,
    id: StreamId,
    lows: Lows,
    lifecycle_id: Option<LifecycleId>,
) -> Result<(), AllocError>
    ensures ok { OnOk result (events.new ≡ emit_events (production id.0 lows.is_low lows.is_total_low None) (emit_events (expired_events lifecycle_id) events.old)) }
    ensures err { OnErr result (Grown events.old events.new) }
{
    emit_expired(events, lifecycle_id)?;
    emit_production(events, id, lows, None)?;
    Ok(())
}

/// A message was given up before it was fully sent.
pub(crate) fn emit_dropped(
    events: &mut Events,
    number: OutgoingMessageId,
    cause: GivenUpCause,
    lifecycle_id: Option<LifecycleId>,
) -> Result<(), AllocError>
    ensures ok { OnOk result (events.new ≡ emit_events (expired_events lifecycle_id) (emit_given_up number.0 cause events.old)) }
    ensures err { OnErr result (Grown events.old events.new) }
{
    events.add_given_up(GivenUp { number, cause })?;
    emit_expired(events, lifecycle_id)?;
    Ok(())
}

/// Emits of the messages of which nothing is sent that they are given up, since their stream is reset.
pub(crate) fn emit_waiting(
    messages: &VecDeque<QueuedMessage>,
    events: &mut Events,
) -> Result<(), AllocError>
    ensures ok { OnOk result (events.new ≡ emit_unsent messages.now.items events.old) }
    ensures err { OnErr result (Grown events.old events.new) }
{
    for message in messages.iter() {
        if !message.is_partly_sent() {
            let reset = GivenUpCause::Reset;
            emit_dropped(events, message.message_id(), reset, message.lifecycle_id())?;
        }
    }
    Ok(())
}

/// Emits of all messages that they are given up, as their association ended.
pub(crate) fn emit_ended(
    messages: &VecDeque<QueuedMessage>,
    events: &mut Events,
) -> Result<(), AllocError>
    ensures ok { OnOk result (events.new ≡ emit_ended messages.now.items events.old) }
    ensures err { OnErr result (Grown events.old events.new) }
{
    for message in messages.iter() {
        let ended = GivenUpCause::Ended;
        emit_dropped(events, message.message_id(), ended, message.lifecycle_id())?;
    }
    Ok(())
}

/// The amount of a stream fell to its threshold, where this says so.
pub(crate) fn emit_low(events: &mut Events, id: StreamId, is_low: bool) -> Result<(), AllocError>
    ensures ok { OnOk result (events.new ≡ emit_events (when is_low (OnBufferedAmountLow id.0)) events.old) }
    ensures err { OnErr result (Grown events.old events.new) }
{
    if is_low {
        events.add(SocketEvent::OnBufferedAmountLow(id))?;
    }
    Ok(())
}

/// The amount of all streams did.
fn emit_total_low(events: &mut Events, is_total_low: bool) -> Result<(), AllocError>
    ensures ok { OnOk result (events.new ≡ emit_events (when is_total_low OnTotalBufferedAmountLow) events.old) }
    ensures err { OnErr result (Grown events.old events.new) }
{
    if is_total_low {
        events.add(SocketEvent::OnTotalBufferedAmountLow())?;
    }
    Ok(())
}

fn emit_fully_sent(events: &mut Events, lifecycle_id: Option<LifecycleId>) -> Result<(), AllocError>
    ensures ok { OnOk result (events.new ≡ emit_events (fully_sent lifecycle_id) events.old) }
    ensures err { OnErr result (Grown events.old events.new) }
{
    if let Some(id) = lifecycle_id {
        events.add(SocketEvent::OnLifecycleMessageFullySent(id))?;
    }
    Ok(())
}

/// A fragment was handed out.
pub(crate) fn emit_production(
    events: &mut Events,
    id: StreamId,
    lows: Lows,
    lifecycle_id: Option<LifecycleId>,
) -> Result<(), AllocError>
    ensures ok { OnOk result (events.new ≡ emit_events (production id.0 lows.is_low lows.is_total_low lifecycle_id) events.old) }
    ensures err { OnErr result (Grown events.old events.new) }
{
    emit_low(events, id, lows.is_low)?;
    emit_total_low(events, lows.is_total_low)?;
    emit_fully_sent(events, lifecycle_id)?;
    Ok(())
}
