//! An event as C has it: a record, and bytes that are copied.

ghost use Rattle.std.specs.Prelude.{◌≡◌, ◌≤◌, length, IfOk};
ghost use Rattle.std.specs.List.{flat_map};
ghost use Rattle.sctp_state.specs.Events.{event_of, numbers_of};
ghost use Rattle.sctp_c_records.specs.Event.{Copied, bytes_of, cause_in, cause_of, error_number, event_bytes, faulty, head_of, low_first, record_of, shown, with_length};

use crate::layout::{put_u32, put_u64, set_u32, set_u64};
use crate::streams::spelled;
use sctp_serial::StreamId;
use sctp_state::{ErrorKind, SocketEvent};
use std::alloc::{AllocError, Global};

/// The bytes of `pigeon_event`.
pub const EVENT_SIZE: usize = 40;

/// What an event is beside its bytes; in C `pigeon_event`.
#[derive(Clone, Copy)]
pub struct EventRecord {
    pub kind: u32,
    pub error: u32,
    pub stream: u32,
    pub cause: u32,
    pub lifecycle: u64,
    pub length: usize,
}

fn error_number(kind: ErrorKind) -> u32
    ensures { result ≡ error_number kind }
{
    match kind {
        ErrorKind::NoError => 0,
        ErrorKind::TooManyRetries => 1,
        ErrorKind::NotConnected => 2,
        ErrorKind::ParseFailed => 3,
        ErrorKind::WrongSequence => 4,
        ErrorKind::PeerReported => 5,
        ErrorKind::ProtocolViolation => 6,
        ErrorKind::ResourceExhaustion => 7,
        ErrorKind::UnsupportedOperation => 8,
    }
}

/// The code of the error cause that a text begins with, 0 where none is known.
fn cause_in(text: &[u8]) -> u32
    ensures { result ≡ cause_in text.now }
{
    if text.starts_with(b"MISSING MANDATORY PARAMETER") {
        2
    } else if text.starts_with(b"UNRECOGNIZED CHUNK") {
        6
    } else if text.starts_with(b"NO USER DATA") {
        9
    } else if text.starts_with(b"COOKIE RECEIVED WHILE SHUTTING DOWN") {
        10
    } else if text.starts_with(b"USER INITIATED ABORT") {
        12
    } else if text.starts_with(b"PROTOCOL VIOLATION") {
        13
    } else {
        0
    }
}

/// The code of the first cause that the peer named (RFC 9260 section 3.3.10).
fn cause_of(kind: ErrorKind, text: &[u8]) -> u32
    ensures { result ≡ cause_of kind text.now }
{
    match kind {
        ErrorKind::PeerReported => cause_in(text),
        _ => 0,
    }
}

impl EventRecord {
    fn of(kind: u32, stream: u32, lifecycle: u64) -> EventRecord
        ensures { result ≡ shown kind 0 stream lifecycle 0 }
    {
        EventRecord {
            kind,
            error: 0,
            stream,
            cause: 0,
            lifecycle,
            length: 0,
        }
    }

    fn of_fault(kind: u32, error: ErrorKind, text: &[u8]) -> EventRecord
        ensures { result ≡ faulty kind error text.now }
    {
        EventRecord {
            error: error_number(error),
            cause: cause_of(error, text),
            ..EventRecord::of(kind, 0, 0)
        }
    }

    pub(crate) fn with_length(self, length: usize) -> EventRecord
        ensures { result ≡ with_length length self }
    {
        EventRecord { length, ..self }
    }

    /// Writes the struct of C, as far as there is a place behind its size.
    #[inline(always)]
    pub fn write(&self, bytes: &mut [u8])
        ensures { bytes.new ≡ event_bytes self.now bytes.old }
    {
        if EVENT_SIZE <= bytes.len() {
            self.write_whole(bytes);
        } else {
            self.write_part(bytes);
        }
    }

    #[inline(always)]
    fn write_whole(&self, bytes: &mut [u8])
        requires { 40 ≤ length bytes.old }
        ensures { bytes.new ≡ event_bytes self.now bytes.old }
    {
        set_u32(bytes, 8, self.kind);
        set_u32(bytes, 12, self.error);
        set_u32(bytes, 16, self.stream);
        set_u32(bytes, 20, self.cause);
        set_u64(bytes, 24, self.lifecycle);
        set_u64(bytes, 32, self.length as u64);
    }

    /// The same for a shorter struct.
    #[inline(never)]
    fn write_part(&self, bytes: &mut [u8])
        ensures { bytes.new ≡ event_bytes self.now bytes.old }
    {
        put_u32(bytes, 8, self.kind);
        put_u32(bytes, 12, self.error);
        put_u32(bytes, 16, self.stream);
        put_u32(bytes, 20, self.cause);
        put_u64(bytes, 24, self.lifecycle);
        put_u64(bytes, 32, self.length as u64);
    }

    /// The record of a packet of so many bytes.
    pub fn of_packet(length: usize) -> EventRecord
        ensures { result ≡ shown 0 0 0 0 length }
    {
        EventRecord::of(0, 0, 0).with_length(length)
    }
}

/// The record of an event, but for the length of its bytes.
pub(crate) fn head_of(event: &SocketEvent) -> EventRecord
    ensures { result ≡ head_of (event_of event.now) }
{
    match event {
        SocketEvent::SendPacket(_) => EventRecord::of(0, 0, 0),
        SocketEvent::OnConnected() => EventRecord::of(1, 0, 0),
        SocketEvent::OnClosed() => EventRecord::of(2, 0, 0),
        SocketEvent::OnConnectionRestarted() => EventRecord::of(3, 0, 0),
        SocketEvent::OnAborted(kind, text) => EventRecord::of_fault(4, *kind, text.as_bytes()),
        SocketEvent::OnError(kind, text) => EventRecord::of_fault(5, *kind, text.as_bytes()),
        SocketEvent::OnBufferedAmountLow(id) => EventRecord::of(6, id.0 as u32, 0),
        SocketEvent::OnTotalBufferedAmountLow() => EventRecord::of(7, 0, 0),
        SocketEvent::OnStreamsResetFailed(_) => EventRecord::of(8, 0, 0),
        SocketEvent::OnStreamsResetPerformed(_) => EventRecord::of(9, 0, 0),
        SocketEvent::OnIncomingStreamReset(_) => EventRecord::of(10, 0, 0),
        SocketEvent::OnLifecycleMessageFullySent(id) => EventRecord::of(11, 0, id.value()),
        SocketEvent::OnLifecycleMessageMaybeExpired(id) => EventRecord::of(12, 0, id.value()),
        SocketEvent::OnLifecycleMessageExpired(id) => EventRecord::of(13, 0, id.value()),
        SocketEvent::OnLifecycleMessageDelivered(id) => EventRecord::of(14, 0, id.value()),
        SocketEvent::OnLifecycleEnd(id) => EventRecord::of(15, 0, id.value()),
    }
}

/// Copies the bytes where they fit, and answers whether they do.
pub fn put_bytes(bytes: &[u8], buffer: &mut [u8]) -> bool
    ensures { Copied result bytes.now buffer.old buffer.new }
{
    if buffer.len() < bytes.len() {
        return false;
    }
    let (front, _) = buffer.split_at_mut(bytes.len());
    front.copy_from_slice(bytes);
    true
}

/// Writes the struct of an event that has these bytes and, where they fit, the bytes.
fn put(event: &SocketEvent, bytes: &[u8], head: &mut [u8], buffer: &mut [u8]) -> bool
    requires { bytes.now ≡ bytes_of (event_of event.now) }
    ensures head { head.new ≡ event_bytes (record_of (event_of event.now)) head.old }
    ensures bytes { Copied result (bytes_of (event_of event.now)) buffer.old buffer.new }
{
    head_of(event).with_length(bytes.len()).write(head);
    put_bytes(bytes, buffer)
}

fn put_streams(
    alloc: Global,
    event: &SocketEvent,
    ids: &[StreamId],
    head: &mut [u8],
    buffer: &mut [u8],
) -> Result<bool, AllocError>
    requires { flat_map low_first (numbers_of ids.now) ≡ bytes_of (event_of event.now) }
    ensures head { IfOk result (λ fits. head.new ≡ event_bytes (record_of (event_of event.now)) head.old) }
    ensures bytes { IfOk result (λ fits. Copied fits (bytes_of (event_of event.now)) buffer.old buffer.new) }
{
    let bytes = spelled(alloc, ids)?;
    Ok(put(event, &bytes, head, buffer))
}

/// Writes what an event is and, where they fit, its bytes. Answers whether they do.
pub fn hand_out(
    alloc: Global,
    event: &SocketEvent,
    head: &mut [u8],
    buffer: &mut [u8],
) -> Result<bool, AllocError>
    ensures head { IfOk result (λ fits. head.new ≡ event_bytes (record_of (event_of event.now)) head.old) }
    ensures bytes { IfOk result (λ fits. Copied fits (bytes_of (event_of event.now)) buffer.old buffer.new) }
{
    match event {
        SocketEvent::SendPacket(bytes) => Ok(put(event, bytes, head, buffer)),
        SocketEvent::OnAborted(_, text) => Ok(put(event, text.as_bytes(), head, buffer)),
        SocketEvent::OnError(_, text) => Ok(put(event, text.as_bytes(), head, buffer)),
        SocketEvent::OnStreamsResetFailed(ids) => put_streams(alloc, event, ids, head, buffer),
        SocketEvent::OnStreamsResetPerformed(ids) => put_streams(alloc, event, ids, head, buffer),
        SocketEvent::OnIncomingStreamReset(ids) => put_streams(alloc, event, ids, head, buffer),
        SocketEvent::OnConnected()
        | SocketEvent::OnClosed()
        | SocketEvent::OnConnectionRestarted()
        | SocketEvent::OnBufferedAmountLow(_)
        | SocketEvent::OnTotalBufferedAmountLow()
        | SocketEvent::OnLifecycleMessageFullySent(_)
        | SocketEvent::OnLifecycleMessageMaybeExpired(_)
        | SocketEvent::OnLifecycleMessageExpired(_)
        | SocketEvent::OnLifecycleMessageDelivered(_)
        | SocketEvent::OnLifecycleEnd(_) => Ok(put(event, &[], head, buffer)),
    }
}
