//! What a stream sends in its turn.

ghost use Rattle.std.specs.Prelude.{◌≡◌, IsTrue, IfOk, OnOk, OnErr, option_map};
ghost use Rattle.sctp_state.specs.Events.{Grown, emit_events};
ghost use Rattle.sctp_state.specs.ThresholdWatcher.{crosses};
ghost use Rattle.sctp_stream_scheduler.specs.StreamScheduler.{accept, set_bytes_remaining};
ghost use Rattle.sctp_tx_queue.specs.SendQueue.{sendable, watched_amount};
ghost use Rattle.sctp_tx_queue.specs.Produced.{advance, production};
ghost use Rattle.sctp_tx_queue.specs.Sent.{Sent, Unsent};
ghost use Rattle.sctp_tx_queue.specs.Whole.{is_front_whole};
ghost use Rattle.sctp_tx_queue.specs.Views.{produced_of};

use crate::data_to_send::DataToSend;
use crate::send_queue::emitting::{Lows, emit_production};
use crate::send_queue::stream::Stream;
use sctp_chunk::SpareBuffers;
use sctp_serial::{LifecycleId, StreamId};
use sctp_state::Events;
use sctp_stream_scheduler::StreamScheduler;
use std::alloc::{AllocError, Global};

/// The turn of a stream: its next fragment has at most `size` bytes.
#[derive(Clone, Copy)]
pub(crate) struct StreamTurn {
    pub alloc: Global,
    pub id: StreamId,
    pub size: usize,
}

/// A turn, and whether the amount of all streams falls to its threshold by it.
#[derive(Clone, Copy)]
pub(crate) struct CountedTurn {
    pub turn: StreamTurn,
    pub is_total_low: bool,
}

/// What a stream has to send after a fragment, and which amounts fall to their thresholds by it.
#[derive(Clone, Copy)]
struct Next {
    bytes: usize,
    priority: u16,
    lows: Lows,
}

#[inline(always)]
fn next_after(stream: &Stream, size: usize, is_total_low: bool) -> Next
    ensures bytes { result.bytes ≡ sendable (advance size stream.now) }
    ensures priority { result.priority ≡ stream.now.priority }
    ensures low { result.lows.is_low ≡ crosses (watched_amount stream.now) (watched_amount (advance size stream.now)) }
    ensures total { result.lows.is_total_low ≡ is_total_low }
{
    Next {
        bytes: stream.sendable_after(size),
        priority: stream.priority(),
        lows: Lows {
            is_low: stream.is_low_after(size),
            is_total_low,
        },
    }
}

/// Emits the events of a fragment, and puts its stream in line for the next one.
#[inline(always)]
fn emit_and_queue(
    scheduler: &mut StreamScheduler,
    events: &mut Events,
    id: StreamId,
    next: Next,
    lifecycle_id: Option<LifecycleId>,
) -> Result<(), AllocError>
    ensures ok { OnOk result (scheduler.new ≡ set_bytes_remaining id.0 next.bytes next.priority (accept id.0 scheduler.old)) }
    ensures emitted { OnOk result (events.new ≡ emit_events (production id.0 next.lows.is_low next.lows.is_total_low lifecycle_id) events.old) }
    ensures err { OnErr result (scheduler.new ≡ scheduler.old) }
    ensures grown { OnErr result (Grown events.old events.new) }
{
    emit_production(events, id, next.lows, lifecycle_id)?;
    scheduler.take_turn(id, next.bytes, next.priority)
}

/// The same. Without memory nothing changes.
#[inline(always)]
fn go_in_line(
    scheduler: &mut StreamScheduler,
    events: &mut Events,
    id: StreamId,
    next: Next,
    lifecycle_id: Option<LifecycleId>,
) -> Result<(), AllocError>
    ensures ok { OnOk result (scheduler.new ≡ set_bytes_remaining id.0 next.bytes next.priority (accept id.0 scheduler.old)) }
    ensures emitted { OnOk result (events.new ≡ emit_events (production id.0 next.lows.is_low next.lows.is_total_low lifecycle_id) events.old) }
    ensures err { OnErr result (scheduler.new ≡ scheduler.old) }
    ensures silent { OnErr result (events.new ≡ events.old) }
{
    let mark = events.mark();
    let done = emit_and_queue(scheduler, events, id, next, lifecycle_id);
    if done.is_err() {
        events.roll_back(mark);
    }
    done
}

/// The next fragment of a stream is a whole message, which leaves with its payload.
fn send_whole(
    counted: CountedTurn,
    stream: &mut Stream,
    scheduler: &mut StreamScheduler,
    events: &mut Events,
) -> Result<Option<DataToSend>, AllocError>
    requires { IsTrue (is_front_whole counted.turn.size stream.old.messages) }
    ensures sent { IfOk result (λ found. Sent counted.turn.id.0 counted.turn.size counted.is_total_low (option_map produced_of found) stream.old scheduler.old events.old stream.new scheduler.new events.new) }
    ensures err { OnErr result (Unsent stream.old scheduler.old events.old stream.new scheduler.new events.new) }
{
    let turn = counted.turn;
    let next = next_after(stream, turn.size, counted.is_total_low);
    go_in_line(scheduler, events, turn.id, next, stream.front_lifecycle())?;
    Ok(stream.take_whole(turn))
}

/// The next fragment of a stream is a part of a message, whose payload is copied, or there is none.
fn send_part(
    counted: CountedTurn,
    spares: &mut SpareBuffers,
    stream: &mut Stream,
    scheduler: &mut StreamScheduler,
    events: &mut Events,
) -> Result<Option<DataToSend>, AllocError>
    ensures sent { IfOk result (λ found. Sent counted.turn.id.0 counted.turn.size counted.is_total_low (option_map produced_of found) stream.old scheduler.old events.old stream.new scheduler.new events.new) }
    ensures err { OnErr result (Unsent stream.old scheduler.old events.old stream.new scheduler.new events.new) }
{
    let turn = counted.turn;
    let room = stream.room_to_move_on(turn.alloc, turn.size)?;
    match stream.fragment(turn, spares)? {
        Some(made) => {
            let next = next_after(stream, turn.size, counted.is_total_low);
            go_in_line(scheduler, events, turn.id, next, made.lifecycle_id)?;
            stream.advance(turn.size, room);
            Ok(Some(made))
        }
        None => {
            scheduler.leave(turn.id);
            stream.advance(turn.size, room);
            Ok(None)
        }
    }
}

/// A stream sends its next fragment, with its events, and goes in line for the one after it; one that has none leaves.
/// Without memory nothing changes.
pub(crate) fn send_from(
    counted: CountedTurn,
    spares: &mut SpareBuffers,
    stream: &mut Stream,
    scheduler: &mut StreamScheduler,
    events: &mut Events,
) -> Result<Option<DataToSend>, AllocError>
    ensures sent { IfOk result (λ found. Sent counted.turn.id.0 counted.turn.size counted.is_total_low (option_map produced_of found) stream.old scheduler.old events.old stream.new scheduler.new events.new) }
    ensures err { OnErr result (Unsent stream.old scheduler.old events.old stream.new scheduler.new events.new) }
{
    if stream.is_next_whole(counted.turn.size) {
        send_whole(counted, stream, scheduler, events)
    } else {
        send_part(counted, spares, stream, scheduler, events)
    }
}
