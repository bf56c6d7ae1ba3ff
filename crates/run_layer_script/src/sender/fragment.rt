//! Bytes and fragments: how they are made, and printed.

use crate::answer::Answer;
use crate::output::Output;
use crate::words::{Line, Number, rest_of};
use sctp_packet::{Data, GapAckBlock, SackChunk, SkippedStream};
use sctp_serial::{LifecycleId, SocketTime, StreamKey, Tsn};
use sctp_tx_queue::DataToSend;
use std::alloc::{AllocError, Global};

/// So many bytes, each its place, modulo 256.
pub fn bytes(alloc: Global, length: usize) -> Result<Vec<u8>, AllocError> {
    let mut bytes = vec![in alloc; 0u8; length]?;
    let mut next = 0u8;
    for byte in bytes.iter_mut() {
        *byte = next;
        next = next.wrapping_add(1);
    }
    Ok(bytes)
}

/// Whether each byte behind the first is greater by one, modulo 256.
fn is_run(bytes: &[u8], first: u8) -> bool {
    let mut want = first;
    for byte in bytes {
        if *byte != want {
            return false;
        }
        want = want.wrapping_add(1);
    }
    true
}

fn push_payload(bytes: &[u8], output: &mut Output) {
    match bytes.first() {
        None => output.push_str(" no bytes"),
        Some(first) if is_run(bytes, *first) => {
            output.fill(" # bytes from #", &[bytes.len() as u128, *first as u128])
        }
        Some(_) => {
            output.push_str(" ");
            output.push_hex(bytes);
        }
    }
}

pub fn push_data(data: &Data, output: &mut Output) -> Answer {
    output.push_str(match data.stream_key {
        StreamKey::Ordered(_) => "ordered",
        StreamKey::Unordered(_) => "unordered",
    });
    output.fill(
        " # ssn # mid # fsn # ppid #",
        &[
            data.stream_key.id().0 as u128,
            data.ssn.0 as u128,
            data.mid.0 as u128,
            data.fsn.0 as u128,
            data.ppid.0 as u128,
        ],
    );
    output.push_if(data.is_beginning, " beginning");
    output.push_if(data.is_end, " end");
    push_payload(&data.payload, output);
    Answer::Text
}

/// Milliseconds; 0 where there is no such moment.
pub fn millis_of(moment: Option<SocketTime>) -> u128 {
    match moment {
        Some(moment) => (moment - SocketTime::zero()).as_millis(),
        None => 0,
    }
}

/// The number of a lifecycle; 0 where there is none.
pub fn number_of(lifecycle: Option<LifecycleId>) -> u128 {
    match lifecycle {
        Some(id) => id.value() as u128,
        None => 0,
    }
}

/// The fragment, where there is one.
pub fn show_sent(sent: Result<Option<DataToSend>, AllocError>, output: &mut Output) -> Answer {
    let sent = match sent {
        Ok(Some(sent)) => sent,
        Ok(None) => return Answer::Nothing,
        Err(_) => return Answer::NoMemory,
    };
    output.fill("message # ", &[sent.message_id.0 as u128]);
    push_data(&sent.data, output);
    let numbers = [
        sent.max_retransmissions as u128,
        millis_of(sent.expires_at),
        number_of(sent.lifecycle_id),
    ];
    drop(sent);
    output.text(" limit # until # lifecycle #", &numbers)
}

/// The chunks of a packet, each with its TSN and its payload's length.
pub fn show_chunks(chunks: Result<Vec<(Tsn, Data)>, AllocError>, output: &mut Output) -> Answer {
    let Ok(chunks) = chunks else {
        return Answer::NoMemory;
    };
    if chunks.is_empty() {
        return Answer::Nothing;
    }
    let mut text = "# with #";
    for chunk in &chunks {
        output.fill(text, &[chunk.0.0 as u128, chunk.1.payload.len() as u128]);
        text = " # with #";
    }
    drop(chunks);
    Answer::Text
}

/// A number, and the streams that a forward point names, with the number that it goes to on each.
pub fn show_skips(number: Tsn, skips: &[SkippedStream], output: &mut Output) -> Answer {
    output.fill("#:", &[number.0 as u128]);
    for skip in skips {
        let (text, id, number) = match skip {
            SkippedStream::ForwardTsn(id, ssn) => (" # to ssn #", id, ssn.0 as u128),
            SkippedStream::IForwardTsn(StreamKey::Ordered(id), mid) => {
                (" ordered # to mid #", id, mid.0 as u128)
            }
            SkippedStream::IForwardTsn(StreamKey::Unordered(id), mid) => {
                (" unordered # to mid #", id, mid.0 as u128)
            }
        };
        output.fill(text, &[id.0 as u128, number]);
    }
    Answer::Text
}

/// A SACK with a block for each two offsets from the place on, the first of which isn't 0.
pub fn sack(tsn: Number, line: &Line<'_>, place: u8, output: &mut Output) -> SackChunk {
    let mut gap_ack_blocks = Vec::new(output.alloc);
    let mut first = 0;
    for word in rest_of(line.text, place) {
        let offset = Number::of(word).half;
        if first == 0 {
            first = offset;
        } else {
            output.note(gap_ack_blocks.push(GapAckBlock::new(first, offset)));
            first = 0;
        }
    }
    SackChunk {
        cumulative_tsn_ack: Tsn(tsn.word),
        a_rwnd: 5_242_880,
        gap_ack_blocks,
        duplicate_tsns: Vec::new(output.alloc),
    }
}
