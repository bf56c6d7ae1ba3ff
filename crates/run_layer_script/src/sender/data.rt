//! The fragments that have their TSN.

use crate::answer::{Answer, done};
use crate::output::Output;
use crate::sender::fragment::{bytes, sack, show_chunks, show_skips};
use crate::words::Line;
use sctp_chunk::SpareBuffers;
use sctp_packet::Data;
use sctp_serial::{
    Fsn, LifecycleId, Mid, OutgoingMessageId, PpId, SocketTime, Ssn, StreamId, StreamKey, Tsn,
};
use sctp_state::Events;
use sctp_tx_outstanding::{Discarded, Item, OutstandingData};
use std::alloc::Global;
use std::mem;

/// `send STREAM SSN MESSAGE BYTES LIMIT END LIFECYCLE DUE UNORDERED TIMES`: a fragment that is sent at moment 0, with its limit of
/// retransmissions, and the moment from which it isn't worth sending, 0 if there is none; its MID is its SSN. And so many like it, each
/// with a TSN of its own: answers the last one's.
fn send_each(data: &mut OutstandingData, line: &Line<'_>, alloc: Global) -> Answer {
    let mut answer = send(data, line, alloc);
    for _ in 1..line.number(10).half {
        match answer {
            Answer::NoMemory => {}
            _ => answer = send(data, line, alloc),
        }
    }
    answer
}

fn send(data: &mut OutstandingData, line: &Line<'_>, alloc: Global) -> Answer {
    let Ok(payload) = bytes(alloc, line.fourth.half as usize) else {
        return Answer::NoMemory;
    };
    if payload.len() > 1000 {
        drop(payload);
        return Answer::Refused;
    }
    let fragment = Data {
        stream_key: StreamKey::new(line.number(9).flag, StreamId(line.first.half)),
        ssn: Ssn(line.second.half),
        mid: Mid(line.second.half as u32),
        fsn: Fsn(0),
        ppid: PpId(53),
        payload,
        is_beginning: true,
        is_end: line.number(6).flag,
    };
    let due = line.number(8);
    let item = Item::new(
        OutgoingMessageId(line.third.word),
        fragment,
        SocketTime::zero(),
        line.number(5).half,
        if due.flag { Some(due.moment()) } else { None },
        LifecycleId::new(line.number(7).long),
    );
    match data.insert(item) {
        Ok(tsn) => Answer::Number(tsn.0 as u128),
        Err(_) => Answer::NoMemory,
    }
}

/// `sack TSN FIRST LAST ..`
fn receive_sack(
    data: &mut OutstandingData,
    events: &mut Events,
    line: &Line<'_>,
    output: &mut Output,
) -> Answer {
    let chunk = sack(line.first, line, 2, output);
    if !data.is_sack_valid(&chunk) {
        drop(chunk);
        return Answer::Refused;
    }
    let mut spares = SpareBuffers::new(output.alloc, 0);
    let info = data.handle_sack(&chunk, false, false, &mut spares, events);
    drop(spares);
    drop(chunk);
    match info {
        Ok(info) => {
            output.fill("AckInfo { bytes_acked: #, ", &[info.bytes_acked as u128]);
            write!(output, "has_packet_loss: {} }}", info.has_packet_loss);
            Answer::Text
        }
        Err(_) => Answer::NoMemory,
    }
}

/// `point SIZE`: the forward point whose chunk has at most so many bytes.
fn point(data: &OutstandingData, size: usize, output: &mut Output) -> Answer {
    if data.is_interleaved() {
        match data.create_iforward_tsn(size) {
            Ok(chunk) => {
                let tsn = chunk.new_cumulative_tsn;
                let answer = show_skips(tsn, &chunk.skipped_streams, output);
                drop(chunk);
                answer
            }
            Err(_) => Answer::NoMemory,
        }
    } else {
        match data.create_forward_tsn(size) {
            Ok(chunk) => {
                let tsn = chunk.new_cumulative_tsn;
                let answer = show_skips(tsn, &chunk.skipped_streams, output);
                drop(chunk);
                answer
            }
            Err(_) => Answer::NoMemory,
        }
    }
}

fn push_discarded(before: &str, message: Discarded, output: &mut Output) {
    output.push_str(before);
    let names = [message.stream_id.0 as u128, message.message_id.0 as u128];
    output.fill("Discarded { stream_id: #, message_id: # }", &names);
}

/// `rests`: the messages whose rest the send queue is to drop.
fn show_rests(data: &mut OutstandingData, output: &mut Output) -> Answer {
    let rests = data.get_unsent_messages_to_discard();
    let mut before = "[";
    for place in 0..rests.len() {
        if let Some(message) = rests.get(place) {
            push_discarded(before, *message, output);
            before = ", ";
        }
    }
    output.push_if(rests.is_empty(), "[");
    output.push_str("]");
    drop(rests);
    Answer::Text
}

/// `counts`: how many fragments are in flight or missing, the bytes of their chunks, and of their payloads. `tsns`: the next,
/// the highest outstanding, and the last that all are acknowledged to. `numbers`: the next and the last acknowledged one.
fn ask(data: &OutstandingData, line: &Line<'_>, output: &mut Output) -> Answer {
    match line.name {
        "counts" => {
            let (items, packets) = (data.unacked_items(), data.unacked_packet_bytes());
            let counts = [
                items as u128,
                packets as u128,
                data.unacked_payload_bytes() as u128,
            ];
            output.text("# # #", &counts)
        }
        "tsns" => {
            let (next, highest) = (data.next_tsn(), data.highest_outstanding_tsn());
            let last = data.last_cumulative_acked_tsn();
            output.text(
                "# # #",
                &[next.0 as u128, highest.0 as u128, last.0 as u128],
            )
        }
        "numbers" => Answer::Two(data.next_number(), data.acked_number() as u128),
        "unwrapped" => Answer::Number(data.unwrapped(Tsn(line.first.word)) as u128),
        name => is_asked(data, name),
    }
}

fn is_asked(data: &OutstandingData, name: &str) -> Answer {
    match name {
        "is-empty" => Answer::Is(data.is_empty()),
        "is-due" => Answer::Is(data.should_send_forward_tsn()),
        "is-interleaved" => Answer::Is(data.is_interleaved()),
        "has-lost" => Answer::Is(data.has_data_to_be_retransmitted()),
        "has-fast" => Answer::Is(data.has_data_to_be_fast_retransmitted()),
        "has-rests" => Answer::Is(data.has_unsent_messages_to_discard()),
        _ => Answer::Unknown,
    }
}

/// `new TSN INTERLEAVED`: with no fragments, the first of which takes this TSN. `restored TSN LAST`: the same, and all was acknowledged to
/// the last TSN. `prepare SIZE`: looks up how far a forward point of this size goes. `rtt MOMENT TSN`. `rest`: the message whose rest the
/// send queue is to drop.
fn change(data: &mut OutstandingData, line: &Line<'_>, output: &mut Output) -> Answer {
    let (alloc, first, second) = (output.alloc, Tsn(line.first.word), Tsn(line.second.word));
    match line.name {
        "new" => {
            let other = OutstandingData::new(alloc, first, true, line.second.flag);
            drop(mem::replace(data, other));
        }
        "restored" => {
            drop(mem::replace(data, OutstandingData::new(alloc, first, true, false)));
            data.reset_sequence_numbers(second);
        }
        "prepare" => data.prepare_forward_point(line.first.size),
        "rtt" => match data.measure_rtt(line.first.moment(), second) {
            Some(rtt) => return Answer::Number(rtt.as_millis()),
            None => return Answer::Nothing,
        },
        "rest" => match data.get_unsent_message_to_discard() {
            Some(message) => {
                push_discarded("Some(", message, output);
                return output.text(")", &[]);
            }
            None => return output.text("None", &[]),
        },
        _ => return ask(data, line, output),
    }
    Answer::Done
}

/// `resend SIZE WINDOW` · `resend-fast SIZE`: the chunks that are sent again.
pub fn answer(
    data: &mut OutstandingData,
    events: &mut Events,
    line: &Line<'_>,
    output: &mut Output,
) -> Answer {
    let size = line.first.size;
    match line.name {
        "send" => send_each(data, line, output.alloc),
        "sack" => receive_sack(data, events, line, output),
        "point" => point(data, size, output),
        "resend" => {
            let chunks = data.get_chunks_to_be_retransmitted(size, line.second.size);
            show_chunks(chunks, output)
        }
        "resend-fast" => show_chunks(data.get_chunks_to_be_fast_retransmitted(size), output),
        "rests" => show_rests(data, output),
        "time-out" => done(data.nack_all(events)),
        "expire" => done(data.expire_outstanding_chunks(line.first.moment(), events)),
        "begin-reset" => done(data.begin_reset_streams()),
        _ => change(data, line, output),
    }
}
