//! What channels say to each other, and payloads.

use crate::answer::Answer;
use crate::output::Output;
use crate::words::{Line, bytes_of};
use sctp_channels::{
    ChannelMessage, DataChannelOpen, PayloadKind, PayloadProtocol, Reliability, data_message,
};
use sctp_serial::{PpId, StreamId};

/// A command over bytes.
pub fn answer(line: &Line<'_>, output: &mut Output) -> Answer {
    let Some(bytes) = bytes_of(line.rest, output) else {
        return Answer::Unknown;
    };
    match line.name {
        "message" => message(&bytes, output),
        "text" => data(PayloadKind::Text, bytes, output),
        _ => data(PayloadKind::Binary, bytes, output),
    }
}

/// No bytes where it cannot be written.
fn written(message: &ChannelMessage, output: &mut Output) -> Vec<u8> {
    if message.is_encodable() {
        output.made(message.to_bytes(output.alloc))
    } else {
        Vec::new(output.alloc)
    }
}

fn message(bytes: &[u8], output: &mut Output) -> Answer {
    match ChannelMessage::from_bytes(output.alloc, bytes) {
        Ok(message) => {
            output.debug_line(&message);
            let bytes = written(&message, output);
            drop(message);
            output.hex_line(&bytes)
        }
        Err(fault) => output.refuse(fault),
    }
}

pub fn label(size: u32, output: &mut Output) -> Answer {
    let mut label = String::new(output.alloc);
    for _ in 0..size {
        output.note(label.push('a'));
    }
    let open = ChannelMessage::Open(DataChannelOpen {
        unordered: false,
        reliability: Reliability::Reliable,
        priority: 256,
        label,
        protocol: String::new(output.alloc),
    });
    let bytes = written(&open, output);
    write!(output, "{}, {} bytes", open.is_encodable(), bytes.len());
    drop(open);
    Answer::Text
}

pub fn payload(ppid: u32, output: &mut Output) -> Answer {
    match PayloadProtocol::from_ppid(PpId(ppid)) {
        Some(protocol) => output.debug_text("", &protocol),
        None => Answer::Nothing,
    }
}

fn data(kind: PayloadKind, bytes: Vec<u8>, output: &mut Output) -> Answer {
    match data_message(StreamId(0), kind, bytes) {
        Ok(message) => {
            write!(output, "{} ", message.ppid);
            output.hex_line(&message.payload)
        }
        Err(_) => Answer::NoMemory,
    }
}
