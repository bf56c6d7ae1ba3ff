//! The messages of a conversation: what one is follows from its number.

use sctp_association::{Message, PpId, SendOptions, StreamId};
use std::alloc::{AllocError, Global};

/// Messages go on so many streams in turn.
pub const STREAMS: usize = 5;

/// Every so many messages one takes several packets.
const LONG_EACH: u32 = 64;

/// What a conversation is to be. Of so many packets one is lost, given twice, or comes late; 0 is never.
#[derive(Clone, Copy)]
pub struct Plan {
    pub count: u32,
    pub seed: u32,
    pub lost: u32,
    pub twice: u32,
    pub late: u32,
    pub reset: u32,
    pub first: u32,
    pub shows_packets: bool,
}

/// The bytes of a message: its number, and zeros.
#[derive(Clone, Copy, PartialEq, Eq)]
pub struct Label {
    pub number: u32,
    pub size: usize,
}

/// The label of the message of this number.
pub fn wanted_label(number: u32) -> Label {
    let zeros = if number % LONG_EACH == LONG_EACH - 1 {
        3000
    } else {
        number % 200
    };
    Label {
        number,
        size: 4 + zeros as usize,
    }
}

/// The stream that the message of this number goes on.
pub fn stream(number: u32) -> u16 {
    (number % STREAMS as u32) as u16
}

/// Whether the message of this number may not be given up.
pub fn is_reliable(number: u32) -> bool {
    number % 3 != 2
}

/// Every third message is partially reliable, and every sixth is sent once.
pub fn options(number: u32) -> SendOptions {
    SendOptions {
        max_retransmissions: if is_reliable(number) {
            None
        } else {
            Some((number % 2) as u16)
        },
        ..SendOptions::default()
    }
}

/// The message of this number.
pub fn message(alloc: Global, number: u32) -> Result<Message, AllocError> {
    let mut payload = Vec::from_slice(alloc, &number.to_be_bytes())?;
    let size = wanted_label(number).size;
    payload.resize(size, 0)?;
    Ok(Message::new(StreamId(stream(number)), PpId(53), payload))
}

/// What the bytes of a message say that it is.
pub fn label_of(payload: &[u8]) -> Option<Label> {
    match payload {
        [a, b, c, d, ..] => Some(Label {
            number: u32::from_be_bytes([*a, *b, *c, *d]),
            size: payload.len(),
        }),
        _ => None,
    }
}
