//! The wire formats, row by row: reads items, chunks and packets, writes them again, says what it finds, and draws conversations.
//!
//! A line that is no command is answered by `?` and itself.
//! HEX is bytes as hex digits, other words are decimal numbers of 32 bits. `cut` and `lengths` answer twice, with any checksum let through, and
//! with the packet's own alone, which is the sum of its bytes; readings that follow one another and are equal are printed once, behind the first
//! and the last of what they are of.
//!
//! | command | answers |
//! |---|---|
//! | `item HEX`, `raw HEX`, `item-chunk HEX` | the item at the front: as an item, as a chunk, as a chunk that is made of an item |
//! | `parameter HEX`, `chunk HEX` | what the first one says, its sizes, and the bytes that it is written as |
//! | `parameters HEX`, `causes HEX`, `chunks HEX` | what each says, and whether they are written alike |
//! | `fields HEX` | all fields of a chunk |
//! | `packet HEX`, `sum-0 HEX`, `sum-376 HEX` | what its chunks say, and whether it is written alike: whatever its checksum, and by the default policy where its bytes have the checksum 0 or 376 |
//! | `in-place HEX` | the chunks of a packet where they lie, whatever its checksum |
//! | `usrsctp-0.9.5.0 HEX`, `pion-1.8.6 HEX`, `aiortc-1.4.0 HEX` | of a packet that this stack emitted, the same as of `packet`, and whether its chunks where they lie are those that were copied |
//! | `cut HEX` | what the first bytes of a packet are read as, for each number of them from 0 on |
//! | `lengths HEX PLACE VALUE ..` | what a packet is read as where the two bytes behind so many have each of the values |
//! | `text HEX`, `word HEX` | a cause's text; a number of eight bytes |
//! | `crc32c HEX` | the CRC32c of the bytes, and its own bytes as they are written, the lowest first |
//! | `default WORD FIELD`, `dtls WORD FIELD`, `disabled WORD FIELD` | whether the policy lets the checksum in the field through, where the bytes have the word |
//! | `header TYPE SIZE` | the headers of a parameter, an item and a chunk |
//! | `misread TYPE`, `result N` | the faults of readers of other types; what became of a request |
//! | `response N [TSN]`, `cookie SIZE` | whether the parameter can be written |
//! | `zeros SIZE` | the fault of a packet of zeros |
//! | `builder LIMIT`, `add HEX`, `unsummed`, `no-checksum`, `build WORD` | a builder up to its limit |
//! | `data SIZE`, `fragment` | whether a DATA chunk of so many bytes fits into a packet; an empty fragment |
//! | `clean START END ..`, `validate START END ..` | the SACK of these blocks cleaned; whether it is valid |
//! | `sent END NANOSECONDS NUMBER HEX` | nothing: the end sent its packet of this number |
//! | `given END NANOSECONDS NUMBER` | nothing: the other end's packet of this number was given to this one |
//! | `note END NANOSECONDS WORDS` | nothing: words of the end |
//! | `ladder`, `chart`, `pcap` | the rows so far as text and as SVG; a capture in hex digits |

mod building;
mod items;
mod numbers;
mod packets;
mod readings;
mod rows;

use crate::answer::{Answer, Subject, done, run_commands};
use crate::output::Output;
use crate::words::{Line, bytes_of, numbers_of};
use sctp_packet::SctpPacketBuilder;
use sctp_trace::Row;

/// A builder, and a conversation.
#[derive(Drop)]
struct Wire {
    builder: SctpPacketBuilder,
    rows: Vec<Row>,
}

/// Answers each line.
pub fn run(script: &str, output: &mut Output) {
    let wire = Wire {
        builder: building::empty(output.alloc, 1200),
        rows: Vec::new(output.alloc),
    };
    run_commands(wire, script, output);
}

impl Subject for Wire {
    fn obey(&mut self, line: &Line<'_>, output: &mut Output) -> Answer {
        match line.name {
            "ladder" | "chart" | "pcap" => rows::draw(&self.rows, line.name, output),
            "sent" | "given" | "note" => match rows::row_of(line, output) {
                Some(row) => done(self.rows.push(row)),
                None => Answer::Unknown,
            },
            "lengths" => readings::lengths(line, output),
            _ => match bytes_of(line.rest, output) {
                Some(bytes) => answer_bytes(&mut self.builder, line, &bytes, output),
                None => answer_numbers(&mut self.builder, line, output),
            },
        }
    }
}

/// A command over bytes; or one over numbers, whose digits may be bytes too.
fn answer_bytes(
    builder: &mut SctpPacketBuilder,
    line: &Line<'_>,
    bytes: &[u8],
    output: &mut Output,
) -> Answer {
    match line.name {
        "add" => building::add(builder, bytes, output),
        "cut" => readings::cut(bytes, output),
        "packet"
        | "sum-0"
        | "sum-376"
        | "in-place"
        | "usrsctp-0.9.5.0"
        | "pion-1.8.6"
        | "aiortc-1.4.0"
        | "crc32c" => packets::answer(line.name, bytes, output),
        _ => match items::answer(line.name, bytes, output) {
            Answer::Unknown => answer_numbers(builder, line, output),
            answer => answer,
        },
    }
}

fn answer_numbers(builder: &mut SctpPacketBuilder, line: &Line<'_>, output: &mut Output) -> Answer {
    let Some(numbers) = numbers_of(line.rest, output) else {
        return Answer::Unknown;
    };
    match building::answer(builder, line.name, numbers::number(&numbers, 0), output) {
        Answer::Unknown => numbers::answer(line.name, &numbers, output),
        answer => answer,
    }
}
