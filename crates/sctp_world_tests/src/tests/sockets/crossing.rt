//! A message that crosses, and the SACK that comes back.

use crate::tests::sockets::opening::{Emitted, Fault, Watched, lacks, next_emitted, passes, right};
use sctp_association::{DcSctpSocket, Message, PpId, SendOptions, StreamId};
use sctp_state::SendError;
use std::alloc::Global;

const PAYLOAD: &[u8] = &[1, 2, 3];

/// All of the stream's bytes leave.
fn sends<S: Watched>(socket: &mut S, payload: Vec<u8>) -> Result<(), Fault> {
    let message = Message::new(StreamId(1), PpId(53), payload);
    match socket.send(message, &SendOptions::default()) {
        Ok(()) => right(matches!(next_emitted(socket), Emitted::Sent)),
        Err(SendError::Memory) => Err(lacks(socket)),
        Err(_) => Err(Fault::Wrong),
    }
}

fn hands_out<S: Watched>(socket: &mut S) -> Result<(), Fault> {
    match socket.get_next_message() {
        Some(message) => right(message.payload.as_slice() == PAYLOAD),
        None => Err(Fault::Wrong),
    }
}

pub fn crosses<S: Watched>(alloc: Global, a: &mut S, b: &mut S) -> Result<(), Fault> {
    match Vec::from_slice(alloc, PAYLOAD) {
        Ok(payload) => sends(a, payload)?,
        Err(_) => return Err(Fault::Memory),
    }
    passes(a, b)?;
    hands_out(b)?;
    passes(b, a)
}
