//! What is handed over, and a send queue and a sender that others take up.

use crate::answer::{Answer, done};
use crate::output::Output;
use crate::sender::{Bench, first_sender};
use crate::words::Line;
use sctp_serial::SocketTime;
use sctp_state::api::handover::HandoverSocketState;
use sctp_state::{Options, SocketHandoverState};
use sctp_tx::RetransmissionQueue;
use sctp_tx_outstanding::OutstandingData;
use sctp_tx_queue::SendQueue;
use std::alloc::Global;
use std::mem;
use std::time::Duration;

/// `record MICROSECONDS`: what is handed over at this moment. Of both, `hand-over MOMENT`: another queue and another sender take these
/// ones' record up, and the commands go on with them.
pub fn answer(bench: &mut Bench, part: &str, line: &Line<'_>, output: &mut Output) -> Answer {
    let mut state = SocketHandoverState::empty(output.alloc);
    let now = SocketTime::zero() + Duration::from_micros(line.first.long);
    let answer = match part {
        "queue" => record_queue(&bench.queue, now, &mut state, output),
        "data" => record_data(&bench.data, now, &mut state, output),
        "both" => pass_on(bench, line.first.moment(), &mut state, output.alloc),
        _ => Answer::Unknown,
    };
    drop(state);
    answer
}

fn record_queue(
    queue: &SendQueue,
    now: SocketTime,
    state: &mut SocketHandoverState,
    output: &mut Output,
) -> Answer {
    if queue.add_to_handover_state(now, state).is_err() {
        return Answer::NoMemory;
    }
    let tx = &state.tx;
    output.fill("# ", &[tx.next_outgoing_message_id as u128]);
    output.debug_text("", &tx.streams);
    output.debug_text(" ", &tx.queued_messages)
}

fn record_data(
    data: &OutstandingData,
    now: SocketTime,
    state: &mut SocketHandoverState,
    output: &mut Output,
) -> Answer {
    if data.add_to_handover_state(now, state).is_err() {
        return Answer::NoMemory;
    }
    let tx = &state.tx;
    let tsns = [tx.next_tsn as u128, tx.last_cumulative_tsn_ack as u128];
    output.fill("# # ", &tsns);
    output.debug_text("", &tx.outstanding_data)
}

fn take_up(
    queue: &mut SendQueue,
    sender: &mut RetransmissionQueue,
    now: SocketTime,
    state: &SocketHandoverState,
) -> Answer {
    if !state.is_valid() {
        return Answer::Refused;
    }
    if let HandoverSocketState::Closed = state.socket_state {
        return Answer::Refused;
    }
    if queue.restore_from_state(now, state).is_err() {
        return Answer::NoMemory;
    }
    done(sender.restore_from_state(now, state))
}

fn pass_on(
    bench: &mut Bench,
    now: SocketTime,
    state: &mut SocketHandoverState,
    alloc: Global,
) -> Answer {
    let (queue, sender) = (&mut bench.queue, &mut bench.sender);
    state.socket_state = HandoverSocketState::Connected;
    state.my_verification_tag = 1;
    state.peer_verification_tag = 1;
    if queue.add_to_handover_state(now, state).is_err()
        || sender.add_to_handover_state(now, state).is_err()
    {
        return Answer::NoMemory;
    }
    drop(mem::replace(queue, SendQueue::new(alloc, &Options::default())));
    drop(mem::replace(sender, first_sender(alloc)));
    take_up(queue, sender, now, state)
}
