//! A sender: the fragments that have their TSN, under the windows, and the send queue that more come from.

use crate::answer::{Answer, done};
use crate::output::Output;
use crate::sender::fragment::{millis_of, sack, show_chunks, show_skips};
use crate::words::Line;
use sctp_packet::Chunk;
use sctp_state::Events;
use sctp_tx::RetransmissionQueue;
use sctp_tx_queue::SendQueue;
use std::alloc::AllocError;

/// `sack MOMENT TSN FIRST LAST ..`
fn receive_sack(
    sender: &mut RetransmissionQueue,
    events: &mut Events,
    line: &Line<'_>,
    output: &mut Output,
) -> Answer {
    let chunk = sack(line.second, line, 3, output);
    let result = sender.handle_sack(line.first.moment(), &chunk, events);
    drop(chunk);
    match result {
        Ok(result) => output.debug_text("", &result),
        Err(_) => Answer::NoMemory,
    }
}

/// `point`: the forward point.
fn show_point(point: Result<Chunk, AllocError>, output: &mut Output) -> Answer {
    let Ok(chunk) = point else {
        return Answer::NoMemory;
    };
    let answer = match &chunk {
        Chunk::ForwardTsn(point) => {
            show_skips(point.new_cumulative_tsn, &point.skipped_streams, output)
        }
        _ => Answer::Nothing,
    };
    drop(chunk);
    answer
}

fn is(outcome: Result<bool, AllocError>) -> Answer {
    match outcome {
        Ok(is_so) => Answer::Is(is_so),
        Err(_) => Answer::NoMemory,
    }
}

fn ask(sender: &RetransmissionQueue, line: &Line<'_>, output: &mut Output) -> Answer {
    match line.name {
        "has-fast" => Answer::Is(sender.has_data_to_be_fast_retransmitted()),
        "can-send" => Answer::Is(sender.can_send_data()),
        "is-empty" => Answer::Is(sender.is_empty()),
        "readiness" => {
            let readiness = sender.get_handover_readiness(line.first.flag);
            Answer::Number(readiness.0 as u128)
        }
        "point" => show_point(sender.create_forward_tsn(), output),
        _ => count(sender, line),
    }
}

/// `expires`: when t3-rtx does. `backs MS MS`: the first span as that has backed off, at most the second.
fn count(sender: &RetransmissionQueue, line: &Line<'_>) -> Answer {
    let (first, second) = match line.name {
        "windows" => (sender.cwnd() as u128, sender.rwnd() as u128),
        "flight" => (
            sender.unacked_items() as u128,
            sender.unacked_packet_bytes() as u128,
        ),
        "resent" => (
            sender.rtx_packets_count() as u128,
            sender.rtx_bytes_count() as u128,
        ),
        "tsns" => (
            sender.last_assigned_tsn().0 as u128,
            sender.next_tsn().0 as u128,
        ),
        "expires" => return Answer::Number(millis_of(Some(sender.next_timeout()))),
        "backs" => {
            let span = sender.backed_off(line.first.millis(), line.second.millis());
            return Answer::Number(span.as_millis());
        }
        _ => return Answer::Unknown,
    };
    Answer::Two(first, second)
}

/// `send MOMENT ROOM`: the chunks of a packet. `fast MOMENT ROOM`: of one that ignores the congestion window.
pub fn answer(
    sender: &mut RetransmissionQueue,
    queue: &mut SendQueue,
    events: &mut Events,
    line: &Line<'_>,
    output: &mut Output,
) -> Answer {
    let now = line.first.moment();
    match line.name {
        "send" => {
            let room = line.second.half as usize;
            show_chunks(sender.get_chunks_to_send(now, room, queue, events), output)
        }
        "fast" => {
            let chunks = sender.get_chunks_for_fast_retransmit(now, line.second.size);
            show_chunks(chunks, output)
        }
        "sack" => receive_sack(sender, events, line, output),
        "timeout" => is(sender.handle_timeout(now, events)),
        "is-due" => is(sender.should_send_forward_tsn(now, events)),
        _ => change(sender, line, output),
    }
}

fn change(sender: &mut RetransmissionQueue, line: &Line<'_>, output: &mut Output) -> Answer {
    match line.name {
        "begin-reset" => return done(sender.begin_reset_streams()),
        "rto" => sender.update_rto(line.first.millis()),
        "set-window" => sender.set_cwnd(line.first.size),
        _ => return ask(sender, line, output),
    }
    Answer::Done
}
