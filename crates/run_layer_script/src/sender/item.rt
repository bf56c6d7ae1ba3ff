//! One fragment that has its TSN.

use crate::answer::Answer;
use crate::output::Output;
use crate::sender::fragment::{number_of, push_data};
use crate::words::{Line, Number};
use sctp_packet::Data;
use sctp_serial::{Fsn, LifecycleId, Mid, OutgoingMessageId, PpId, Ssn, StreamId, StreamKey};
use sctp_tx_outstanding::Item;
use sctp_tx_outstanding::item::{MissIndication, chunk_size, copy_of, header_size};
use std::mem;

const MESSAGE: OutgoingMessageId = OutgoingMessageId(9);

/// `new LIMIT SHORT`: the whole of message 9 with lifecycle id 4, an unordered one of five or four bytes on stream 3, sent at moment 100,
/// with a limit of retransmissions and a lifetime that ends at 150.
fn limited(limit: u16, payload: Vec<u8>) -> Option<Item> {
    if payload.len() >= 100 {
        return None;
    }
    let fragment = Data {
        stream_key: StreamKey::Unordered(StreamId(3)),
        ssn: Ssn(5),
        mid: Mid(6),
        fsn: Fsn(7),
        ppid: PpId(53),
        payload,
        is_beginning: true,
        is_end: true,
    };
    let (sent, due) = (Number::of("100").moment(), Some(Number::of("150").moment()));
    let id = LifecycleId::new(4);
    Some(Item::new(MESSAGE, fragment, sent, limit, due, id))
}

/// What holds of the item.
fn look(item: &Item, output: &mut Output) -> Answer {
    output.push_if(item.is_outstanding(), "outstanding ");
    output.push_if(item.is_nacked(), "nacked ");
    output.push_if(item.should_be_retransmitted(), "lost ");
    output.push_if(item.is_fast(), "fast ");
    output.push_if(item.is_acked(), "acked ");
    output.push_if(item.is_abandoned(), "abandoned ");
    output.text("sendings #", &[item.sendings() as u128])
}

/// What says that an item is missing: a timeout where it is lost at once, else a report that counts.
fn indication(at_once: bool) -> MissIndication {
    if at_once {
        MissIndication::Timeout
    } else {
        MissIndication::Report { newest: 0, next: 0 }
    }
}

fn ask(item: &Item, line: &Line<'_>, output: &mut Output) -> Answer {
    let (flag, moment) = (line.first.flag, line.first.moment());
    match line.name {
        "is-lost" => Answer::Is(item.is_lost(indication(flag))),
        "is-used-up" => Answer::Is(item.is_used_up()),
        "has-expired" => Answer::Is(item.has_expired(moment)),
        "was-resent" => Answer::Is(item.has_been_retransmitted()),
        "payload-size" => Answer::Number(item.payload_size() as u128),
        _ => show(item, line, output),
    }
}

/// `names`: the message, and its lifecycle id where its end has one. `sizes INTERLEAVED`: of the header, of the chunk, and of a chunk of
/// the same fragment.
fn show(item: &Item, line: &Line<'_>, output: &mut Output) -> Answer {
    let (flag, moment) = (line.first.flag, line.first.moment());
    match line.name {
        "names" => Answer::Two(item.message_id().0 as u128, number_of(item.lifecycle_id())),
        "data" => push_data(item.data(), output),
        "copy" => match copy_of(output.alloc, item.data()) {
            Ok(copy) => push_data(&copy, output),
            Err(_) => Answer::NoMemory,
        },
        "sizes" => {
            let (header, chunk) = (header_size(flag), item.chunk_size(flag));
            let again = chunk_size(item.data(), flag);
            output.text("# # #", &[header as u128, chunk as u128, again as u128])
        }
        "rtt" => Answer::Number(item.get_rtt_from(moment).as_millis()),
        "look" => look(item, output),
        _ => Answer::Unknown,
    }
}

fn change(item: &mut Item, line: &Line<'_>, output: &mut Output) -> Answer {
    match line.name {
        "nack" => item.nack(indication(line.first.flag), line.second.flag),
        "ack" => item.ack(),
        "uncover" => item.uncover(),
        "resend" => item.mark_as_retransmitted(),
        "miss-fast" => item.miss_fast(),
        "abandon" => item.abandon(),
        "hand-over" => return hand_over(item, line, output),
        _ => return ask(item, line, output),
    }
    look(item, output)
}

/// `hand-over MOMENT LATER`: the record of one moment, which is taken up at another.
fn hand_over(item: &mut Item, line: &Line<'_>, output: &mut Output) -> Answer {
    let Ok(record) = item.handed_over(output.alloc, line.first.moment()) else {
        return Answer::NoMemory;
    };
    if record.payload.len() >= 100 {
        drop(record);
        return Answer::Refused;
    }
    let restored = Item::restored(output.alloc, line.second.moment(), &record);
    let answer = output.debug_text("", &record);
    drop(record);
    match restored {
        Ok(other) => {
            drop(mem::replace(item, other));
            answer
        }
        Err(_) => Answer::NoMemory,
    }
}

pub fn answer(kept: &mut Option<Item>, line: &Line<'_>, output: &mut Output) -> Answer {
    match line.name {
        "new" => {
            let word = if line.second.flag { "four" } else { "hello" };
            let payload = output.made(Vec::from_slice(output.alloc, word.as_bytes()));
            drop(mem::replace(kept, limited(line.first.half, payload)));
        }
        "placeholder" => {
            let item = Item::placeholder(MESSAGE, Data::empty(output.alloc));
            drop(mem::replace(kept, Some(item)));
        }
        _ => match kept {
            Some(item) => return change(item, line, output),
            None => return Answer::Nothing,
        },
    }
    Answer::Done
}
