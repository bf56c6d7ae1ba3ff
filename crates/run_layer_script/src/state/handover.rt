//! `handover closed`, `handover connected`: which records a socket can take up; at first that of a closed socket, or of a
//! connected one that has sent nothing.

use crate::answer::{Answer, Subject, done};
use crate::output::Output;
use crate::state::{show, show_bytes};
use crate::words::{Line, bytes_of};
use sctp_handover::{RecordFault, from_bytes, to_bytes};
use sctp_state::SocketHandoverState;
use sctp_state::api::handover::{
    HandoverOrderedStream, HandoverOutgoingStream, HandoverOutstandingData, HandoverSocketState,
    HandoverStreamMessage, HandoverTransmission,
};
use std::alloc::Global;

/// The first record.
pub fn record(alloc: Global, line: &Line<'_>) -> SocketHandoverState {
    let mut state = SocketHandoverState::empty(alloc);
    if line.last == "connected" {
        state.socket_state = HandoverSocketState::Connected;
        state.my_verification_tag = 1;
        state.peer_verification_tag = 2;
        state.tx.cwnd = 1191;
        state.tx.last_cumulative_tsn_ack = 4_294_967_295;
    }
    state
}

impl Subject for SocketHandoverState {
    /// `valid`; `written`: its bytes, in hex; `read HEX`: the record that these bytes are, in place of it; `peer-tag TAG`;
    /// `interleaving FLAG`; `ordered STREAM NEXT`: a stream on which messages came; `ordered-count`; and what this end sends.
    fn obey(&mut self, line: &Line<'_>, output: &mut Output) -> Answer {
        match line.name {
            "valid" => return Answer::Is(self.is_valid()),
            "written" => {
                let bytes = output.made(to_bytes(output.alloc, self));
                return show_bytes(&bytes, output);
            }
            "read" => return read(self, line.last, output),
            "peer-tag" => self.peer_verification_tag = line.first.word,
            "interleaving" => self.capabilities.message_interleaving = line.first.long == 1,
            "ordered" => {
                let stream = HandoverOrderedStream {
                    id: line.first.half,
                    next_ssn: line.second.word,
                };
                return done(self.rx.ordered_streams.push(stream));
            }
            "ordered-count" => return Answer::Number(self.rx.ordered_streams.len() as u128),
            _ => return send(&mut self.tx, line, output),
        }
        Answer::Done
    }
}

fn read(state: &mut SocketHandoverState, digits: &str, output: &mut Output) -> Answer {
    let Some(bytes) = bytes_of(digits, output) else {
        return Answer::Unknown;
    };
    match from_bytes(output.alloc, &bytes) {
        Ok(read) => {
            drop(std::mem::replace(state, read));
            Answer::Done
        }
        Err(RecordFault::Memory) => Answer::NoMemory,
        Err(fault) => show(&fault, output),
    }
}

/// `next-tsn N`; `next-message N`; `stream-count`; `stream ID`; `message STREAM ID OFFSET`: a queued message of three bytes; `acked`: a
/// fragment that a selective acknowledgement covers; and a change of the last message or fragment.
fn send(tx: &mut HandoverTransmission, line: &Line<'_>, output: &mut Output) -> Answer {
    match line.name {
        "next-tsn" => tx.next_tsn = line.first.word,
        "next-message" => tx.next_outgoing_message_id = line.first.long,
        "stream-count" => return Answer::Number(tx.streams.len() as u128),
        "stream" => {
            let mut stream = HandoverOutgoingStream::default();
            stream.id = line.first.half;
            return done(tx.streams.push(stream));
        }
        "message" => {
            let mut message = HandoverStreamMessage::empty(output.alloc);
            message.stream_id = line.first.half;
            message.message_id = line.second.long;
            message.remaining_offset = line.third.size;
            output.note(message.payload.extend_from_slice(&[1, 2, 3]));
            return done(tx.queued_messages.push(message));
        }
        "acked" => {
            let mut item = HandoverOutstandingData::empty(output.alloc);
            item.acked = true;
            return done(tx.outstanding_data.push(item));
        }
        _ => return change_last(tx, line),
    }
    Answer::Done
}

/// Of the last fragment or of the last queued message.
fn change_last(tx: &mut HandoverTransmission, line: &Line<'_>) -> Answer {
    match line.name {
        "abandoned" | "sent-later" => match tx.outstanding_data.last_mut() {
            Some(item) => change_item(item, line),
            None => Answer::Refused,
        },
        _ => match tx.queued_messages.last_mut() {
            Some(message) => change_message(message, line),
            None => Answer::Unknown,
        },
    }
}

/// `abandoned FLAG`, `sent-later FLAG`: whether its message was given up, and whether it was first sent after the handover.
fn change_item(item: &mut HandoverOutstandingData, line: &Line<'_>) -> Answer {
    match line.name {
        "abandoned" => item.is_abandoned = line.first.flag,
        _ => item.time_since_sent_ms = if line.first.flag { -1 } else { 0 },
    }
    Answer::Done
}

/// `last-offset OFFSET`, `last-id ID`
fn change_message(message: &mut HandoverStreamMessage, line: &Line<'_>) -> Answer {
    match line.name {
        "last-offset" => message.remaining_offset = line.first.size,
        "last-id" => message.message_id = line.first.long,
        _ => return Answer::Unknown,
    }
    Answer::Done
}
