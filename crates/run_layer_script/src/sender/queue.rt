//! The send queue.

use crate::answer::{Answer, done};
use crate::output::Output;
use crate::sender::fragment::{bytes, show_sent};
use crate::words::Line;
use sctp_serial::{LifecycleId, Message, OutgoingMessageId, PpId, SocketTime, StreamId};
use sctp_state::{Events, Options, SendOptions};
use sctp_tx_queue::SendQueue;
use std::mem;

/// More bytes are not accepted.
const MANY: usize = 20_000;

/// `accept STREAM BYTES` at moment 0, and behind these: `accept-named` a lifecycle id, `accept-short` that and a lifetime,
/// `accept-once` that and no retransmission.
fn accept(queue: &mut SendQueue, payload: Vec<u8>, line: &Line<'_>) -> Answer {
    if payload.is_empty() || payload.len() > MANY || queue.total_buffered_amount() > MANY {
        drop(payload);
        return Answer::Refused;
    }
    let mut options = SendOptions::default();
    options.lifecycle_id = LifecycleId::new(line.third.long);
    match line.name {
        "accept-short" => options.lifetime = Some(line.fourth.millis()),
        "accept-once" => options.max_retransmissions = Some(0),
        _ => {}
    }
    let message = Message::new(StreamId(line.first.half), PpId(53), payload);
    match queue.add(SocketTime::zero(), message, &options) {
        Ok(id) => Answer::Number(id.0 as u128),
        Err(_) => Answer::NoMemory,
    }
}

fn ask(queue: &SendQueue, line: &Line<'_>) -> Answer {
    let id = StreamId(line.first.half);
    match line.name {
        "amount" => Answer::Number(queue.buffered_amount(id) as u128),
        "total" => Answer::Number(queue.total_buffered_amount() as u128),
        "priority" => Answer::Number(queue.get_priority(id) as u128),
        "threshold" => Answer::Number(queue.buffered_amount_low_threshold(id) as u128),
        name => is_asked(queue, name, line.first.flag),
    }
}

fn is_asked(queue: &SendQueue, name: &str, is_strict: bool) -> Answer {
    match name {
        "is-empty" => Answer::Is(queue.is_empty()),
        "has-data" => Answer::Is(queue.has_data_to_send()),
        "has-ready" => Answer::Is(queue.has_streams_ready_to_be_reset()),
        "is-interleaved" => Answer::Is(queue.is_interleaved()),
        "readiness" => Answer::Number(queue.get_handover_readiness(is_strict).0 as u128),
        _ => Answer::Unknown,
    }
}

fn change(queue: &mut SendQueue, events: &mut Events, line: &Line<'_>) -> Answer {
    let id = StreamId(line.first.half);
    match line.name {
        "set-threshold" => {
            done(queue.set_buffered_amount_low_threshold(id, line.second.size, events))
        }
        "set-priority" => done(queue.set_priority(id, line.second.half)),
        "discard" => done(queue.discard(id, OutgoingMessageId(line.second.word), events)),
        "prepare" => done(queue.prepare_reset_stream(id, events)),
        "commit" => done(queue.commit_reset_streams(&[id])),
        "roll-back" => done(queue.rollback_reset_streams(&[id])),
        "reset" => done(queue.reset()),
        "empty" => done(queue.empty(events)),
        _ => ask(queue, line),
    }
}

/// `produce MOMENT MOST`: the next fragment. `request MOST`: the streams that go into a request. `options TOTAL STREAM`: another queue, with
/// these low thresholds.
fn answer_once(
    queue: &mut SendQueue,
    events: &mut Events,
    line: &Line<'_>,
    output: &mut Output,
) -> Answer {
    match line.name {
        "accept" | "accept-named" | "accept-short" | "accept-once" => {
            match bytes(output.alloc, line.second.size) {
                Ok(payload) => accept(queue, payload, line),
                Err(_) => Answer::NoMemory,
            }
        }
        "produce" if line.second.size == 0 => Answer::Refused,
        "produce" => {
            let sent = queue.produce(line.first.moment(), line.second.size, events);
            show_sent(sent, output)
        }
        "request" => match queue.get_streams_ready_to_reset(line.first.size) {
            Ok(ids) => output.debug_text("", &ids),
            Err(_) => Answer::NoMemory,
        },
        "interleave" => {
            queue.enable_message_interleaving(true);
            Answer::Done
        }
        "options" => {
            let mut options = Options::default();
            options.total_buffered_amount_low_threshold = line.first.size;
            options.default_stream_buffered_amount_low_threshold = line.second.size;
            drop(mem::replace(queue, SendQueue::new(output.alloc, &options)));
            Answer::Done
        }
        _ => change(queue, events, line),
    }
}

/// A call that lacks memory is made once more: it and all that follow answer as with ample memory.
pub fn answer(
    queue: &mut SendQueue,
    events: &mut Events,
    line: &Line<'_>,
    output: &mut Output,
) -> Answer {
    match answer_once(queue, events, line, output) {
        Answer::NoMemory => answer_once(queue, events, line, output),
        answer => answer,
    }
}
