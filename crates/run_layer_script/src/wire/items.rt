//! Items, parameters, causes and chunks alone.

use crate::answer::Answer;
use crate::output::Output;
use sctp_error_cause::error_cause_from_bytes;
use sctp_packet::{Chunk, RawChunk, SkippedStream};
use sctp_parameter::{Parameter, parameters_from_bytes};
use sctp_serial::StreamKey;
use sctp_wire::{
    ChunkParseError, RawItem, RawParameter, SerializableTlv, all_encodable, ends_here,
    items_from_bytes, parameters_serialize_to, parameters_serialized_size, push_u64,
    text_from_bytes, u64_at,
};
use std::alloc::Global;
use std::fmt::Display;

pub fn answer(name: &str, bytes: &[u8], output: &mut Output) -> Answer {
    let alloc = output.alloc;
    match name {
        "parameter" => parameter(bytes, output),
        "parameters" => show_read(parameters_from_bytes(alloc, bytes), bytes, output),
        "causes" => show_read(error_cause_from_bytes(alloc, bytes), bytes, output),
        "chunks" => show_read(items_from_bytes::<Chunk>(alloc, bytes), bytes, output),
        "chunk" | "fields" => chunk(name, bytes, output),
        _ => answer_raw(name, bytes, output),
    }
}

fn answer_raw(name: &str, bytes: &[u8], output: &mut Output) -> Answer {
    match name {
        "item" => output.debug_line(&RawItem::from_bytes(bytes)),
        "raw" => raw(bytes, output),
        "item-chunk" => output.debug_line(&from_item(bytes)),
        "text" => {
            let text = output.made_text(text_from_bytes(output.alloc, bytes));
            output.put_line(&text);
        }
        "word" => return word(bytes, output),
        _ => return Answer::Unknown,
    }
    Answer::Done
}

fn parameter(bytes: &[u8], output: &mut Output) -> Answer {
    let raw = match RawParameter::from_bytes(bytes) {
        Ok((raw, rest)) => {
            output.fill("type #, then ", &[raw.typ as u128]);
            output.debug_line(&rest);
            raw
        }
        Err(fault) => return output.refuse(fault),
    };
    match Parameter::try_from(output.alloc, raw) {
        Ok(parameter) => {
            show(&parameter, output);
            drop(parameter);
            Answer::Done
        }
        Err(fault) => output.refuse(fault),
    }
}

/// What it says, its sizes, and the bytes that it is written as, none where it cannot be written.
fn show<T: SerializableTlv + Display>(item: &T, output: &mut Output) {
    let (value, size) = (item.value_size(), item.serialized_size());
    output.put_line(item);
    output.fill("value # of # bytes\n", &[value as u128, size as u128]);
    let mut written = Vec::new(output.alloc);
    if item.encodable() {
        output.note(item.serialize_to(&mut written));
    }
    output.hex_line(&written);
}

/// What each of them says, and whether they are written as they came: none where one of them cannot be.
fn show_read<T: SerializableTlv + Display + Drop>(
    read: Result<Vec<T>, ChunkParseError>,
    bytes: &[u8],
    output: &mut Output,
) -> Answer {
    match read {
        Ok(items) => {
            show_each(&items, bytes, output);
            drop(items);
            Answer::Done
        }
        Err(fault) => output.refuse(fault),
    }
}

fn show_each<T: SerializableTlv + Display>(items: &[T], bytes: &[u8], output: &mut Output) {
    for item in items {
        output.put_line(item);
    }
    let mut written = Vec::new(output.alloc);
    if all_encodable(items) {
        output.note(parameters_serialize_to(items, &mut written));
    }
    let size = parameters_serialized_size(items);
    output.fill("# bytes, written alike: ", &[size as u128]);
    output.put_line(&(written.as_slice() == bytes));
}

/// The number in the first eight bytes, whether they are all, and the bytes that it is written as.
fn word(bytes: &[u8], output: &mut Output) -> Answer {
    match u64_at(bytes) {
        Ok((word, rest)) => {
            output.fill("#, end: ", &[word as u128]);
            output.debug_line(&ends_here(rest));
            let mut written = Vec::new(output.alloc);
            output.note(push_u64(&mut written, word));
            output.hex_line(&written)
        }
        Err(fault) => output.refuse(fault),
    }
}

/// The chunk at the front, and its value where it is asked for as its own type and as the next one.
fn raw(bytes: &[u8], output: &mut Output) {
    let read = RawChunk::from_bytes(bytes);
    output.debug_line(&read);
    if let Ok((chunk, _)) = read {
        output.debug_text("", &chunk.value_as(chunk.typ));
        output.debug_text(", ", &chunk.value_as(chunk.typ.wrapping_add(1)));
        output.push_str("\n");
    }
}

fn from_item(bytes: &[u8]) -> Result<RawChunk<'_>, ChunkParseError> {
    let (item, _) = RawItem::from_bytes(bytes)?;
    Ok(RawChunk::from_item(item))
}

/// The chunk at the front of the bytes.
pub fn first(alloc: Global, bytes: &[u8]) -> Result<Chunk, ChunkParseError> {
    let (raw, _) = RawChunk::from_bytes(bytes)?;
    Chunk::try_from(alloc, raw)
}

/// What the first chunk says, or all its fields.
fn chunk(name: &str, bytes: &[u8], output: &mut Output) -> Answer {
    match first(output.alloc, bytes) {
        Ok(chunk) => {
            match name {
                "chunk" => show(&chunk, output),
                _ => show_fields(&chunk, output),
            }
            drop(chunk);
            Answer::Done
        }
        Err(fault) => output.refuse(fault),
    }
}

/// All fields, and of each stream whether it is the unordered one, which is not to be seen in them.
fn show_fields(chunk: &Chunk, output: &mut Output) {
    output.debug_line(chunk);
    match chunk {
        Chunk::Data(c) => show_order(c.data.stream_key, output),
        Chunk::IData(c) => show_order(c.data.stream_key, output),
        Chunk::IForwardTsn(c) => {
            for stream in &c.skipped_streams {
                if let SkippedStream::IForwardTsn(key, _) = stream {
                    show_order(*key, output);
                }
            }
        }
        _ => {}
    }
}

pub fn show_order(key: StreamKey, output: &mut Output) {
    writeln!(output, "unordered: {}", key.is_unordered());
}
