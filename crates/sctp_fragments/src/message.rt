//! The message that an interval is.

ghost use Rattle.std.specs.Prelude.{◌≡◌, length, IfOk};
ghost use Rattle.sctp_serial.specs.Messages.{message_of};
ghost use Rattle.sctp_fragments.specs.Held.{bytes_of, message_of_run, payload_of};
ghost use Rattle.sctp_fragments.specs.Interval.{held_of, run_of};

use crate::interval::{Entries, Entry, Interval};
use crate::reassembly_key::ReassemblyKey;
use sctp_chunk::SpareBuffers;
use sctp_serial::Message;
use std::alloc::{AllocError, Global};
use std::collections::VecDeque;

/// Keeps the buffers of the entries' payloads.
fn keep_all<K: ReassemblyKey>(spares: &mut SpareBuffers, entries: VecDeque<Entry<K>>) {
    for entry in entries {
        spares.keep(entry.fragment.payload);
    }
}

/// Keeps the buffers of an interval's payloads.
fn keep_buffers<K: ReassemblyKey>(spares: &mut SpareBuffers, interval: Interval<K>) {
    match Box::into_inner(interval.entries) {
        Entries::One(_, _) => {}
        Entries::Many(entries) => keep_all(spares, entries),
        Entries::Long(pieces) => {
            let pieces = Box::into_inner(pieces);
            keep_all(spares, pieces.first);
            for piece in pieces.middle {
                keep_all(spares, piece);
            }
            keep_all(spares, pieces.last);
        }
    }
}

/// The payloads of an interval, joined, whose buffers are kept. That of a single fragment is handed on as it came.
fn into_payload<K: ReassemblyKey>(
    alloc: Global,
    spares: &mut SpareBuffers,
    interval: Interval<K>,
) -> Result<Vec<u8>, AllocError>
    ensures { IfOk result (λ payload. payload.items ≡ payload_of (run_of (held_of K.number K.index) interval)) }
{
    if !interval.is_single() {
        let payload = interval.collect_payload(alloc)?;
        keep_buffers(spares, interval);
        return Ok(payload);
    }
    let entry = Box::into_inner(interval.entries).into_first();
    Ok(entry.fragment.payload)
}

/// The message of a complete interval: stream and protocol id are those of its beginning. Here, and nowhere else, its
/// payload is put together. Buffers of its fragments are kept.
pub fn message_of<K: ReassemblyKey>(
    alloc: Global,
    spares: &mut SpareBuffers,
    interval: Interval<K>,
) -> Result<Message, AllocError>
    ensures value { IfOk result (λ m. message_of m ≡ message_of_run (run_of (held_of K.number K.index) interval)) }
    ensures bytes { IfOk result (λ m. length m.payload.items ≡ bytes_of (run_of (held_of K.number K.index) interval)) }
{
    let first = &interval.first().fragment;
    let (id, ppid) = (first.stream_key.id(), first.ppid);
    let payload = into_payload(alloc, spares, interval)?;
    Ok(Message::new(id, ppid, payload))
}
