//! A builder of packets from port 5000 to port 5001 with the tag 321.

use crate::answer::Answer;
use crate::output::Output;
use crate::wire::items::{first, show_order};
use sctp_packet::{Chunk, Data, DataChunk, SctpPacketBuilder};
use sctp_serial::Tsn;
use std::alloc::Global;
use std::mem;

pub fn empty(alloc: Global, limit: usize) -> SctpPacketBuilder {
    SctpPacketBuilder::new(alloc, 321, 5000, 5001, limit)
}

/// `number` is 0 where the command has none.
pub fn answer(
    builder: &mut SctpPacketBuilder,
    name: &str,
    number: u32,
    output: &mut Output,
) -> Answer {
    match name {
        "builder" => {
            drop(mem::replace(builder, empty(output.alloc, number as usize)));
            show_room(builder, output)
        }
        "unsummed" => output.hex_line(builder.unsummed()),
        "no-checksum" => {
            builder.write_checksum(false);
            Answer::Done
        }
        "build" => {
            output.hex_line(&builder.build(number));
            show_room(builder, output)
        }
        "data" => data(builder, number as usize, output),
        "fragment" => {
            let data = Data::empty(output.alloc);
            output.debug_line(&data);
            show_order(data.stream_key, output);
            Answer::Done
        }
        _ => Answer::Unknown,
    }
}

fn show_room(builder: &SctpPacketBuilder, output: &mut Output) -> Answer {
    write!(output, "empty: {}", builder.is_empty());
    output.fill(", room #\n", &[builder.bytes_remaining() as u128]);
    Answer::Done
}

/// Adds the chunk where it fits.
pub fn add(builder: &mut SctpPacketBuilder, bytes: &[u8], output: &mut Output) -> Answer {
    let chunk = match first(output.alloc, bytes) {
        Ok(chunk) => chunk,
        Err(fault) => return output.refuse(fault),
    };
    let fits = builder.fits(&chunk);
    if fits {
        output.note(builder.add(&chunk));
    }
    drop(chunk);
    if fits {
        return show_room(builder, output);
    }
    output.push_str("does not fit\n");
    Answer::Done
}

/// Whether a DATA chunk of so many bytes fits.
fn data(builder: &SctpPacketBuilder, size: usize, output: &mut Output) -> Answer {
    let mut data = Data::empty(output.alloc);
    data.payload = output.made(vec![in output.alloc; 0u8; size]);
    let chunk = Chunk::Data(DataChunk {
        tsn: Tsn(1),
        data,
        immediate_ack: false,
    });
    output.put_line(&builder.fits(&chunk));
    drop(chunk);
    Answer::Done
}
