//! What a socket emitted, and what its channels told: lent, in order.

ghost use Rattle.std.specs.Prelude.{◌≡◌, [], ◌∷◌, OnOk};
ghost use Rattle.sctp_channels.specs.Steps.{Follows};
ghost use Rattle.sctp_c_records.specs.Event.{event_bytes, shown};
ghost use Rattle.sctp_c_channels.specs.Answers.{OnChannels};
ghost use Rattle.sctp_c_records.specs.Answers.{IsAmong, OnAnswer};
ghost use Rattle.sctp_c_channels.specs.Events.{Shows, kind_number, refusal_number};

use sctp_c_records::answers::{FAILED, MEMORY, NO_CHANNELS, NO_ROOM, NOTHING, OK, call_number};
use sctp_c_records::{EventParts, EventRecord, parts_of};
use sctp_channels::{ChannelEvent, DataChannels, PayloadKind, Refusal};
use sctp_serial::StreamId;
use sctp_state::{CallError, DcSctpSocket, SocketEvent};
use std::alloc::Global;

fn kind_number(kind: PayloadKind) -> u32
    ensures { result ≡ kind_number kind }
{
    match kind {
        PayloadKind::Text => 17,
        PayloadKind::Binary => 18,
    }
}

fn refusal_number(why: Refusal) -> u32
    ensures { result ≡ refusal_number why }
{
    match why {
        Refusal::BadMessage(_) => 1,
        Refusal::WrongParity => 2,
        Refusal::NoSuchStream => 3,
        Refusal::StreamInUse => 4,
        Refusal::NoChannel => 5,
        Refusal::UnknownPayloadProtocol => 6,
        Refusal::TooLong => 7,
        Refusal::NoRoom => 8,
    }
}

fn head_of(kind: u32, error: u32, id: StreamId, length: usize) -> EventRecord
    ensures { result ≡ shown kind error id.0 0 length }
{
    EventRecord {
        kind,
        error,
        stream: id.0 as u32,
        cause: 0,
        lifecycle: 0,
        length,
    }
}

/// Takes the bytes of a packet that came, and what it brings to the channels, behind what was emitted before, and before the next one.
pub fn handle_input<S: DcSctpSocket>(
    socket: &mut S,
    channels: &mut Option<DataChannels>,
    bytes: &[u8],
) -> u32
    ensures answers { OnChannels (λ d n e. IsAmong (0 ∷ 1 ∷ 2 ∷ []) n) channels.old result channels.new }
    ensures steps { OnChannels (λ d n e. OnAnswer 0 n (Follows d e)) channels.old result channels.new }
{
    let Some(channels) = channels else {
        return NO_CHANNELS;
    };
    call_number(channels.handle_input(socket, bytes))
}

/// Takes the event that comes next: where none waits, what the socket has handed out and emitted since is taken first.
fn take_next<S: DcSctpSocket>(
    socket: &mut S,
    channels: &mut DataChannels,
    kept: &mut Option<SocketEvent>,
) -> Result<Option<ChannelEvent>, CallError> {
    if kept.is_none() {
        return channels.poll_event(socket);
    }
    match kept.take() {
        Some(event) => Ok(Some(ChannelEvent::Socket(event))),
        None => Ok(None),
    }
}

/// Writes a struct, and lends the bytes.
#[inline(always)]
fn show(event: EventRecord, bytes: Vec<u8>, head: &mut [u8], lent: &mut Vec<u8>) -> u32
    ensures answer { result ≡ 0 }
    ensures head { head.new ≡ event_bytes event head.old }
    ensures bytes { lent.new.items ≡ bytes.items }
{
    event.write(head);
    drop(std::mem::replace(lent, bytes));
    OK
}

/// Writes an event's struct, and lends its bytes. Where there is no memory for those of streams, the event is kept.
fn lend(
    alloc: Global,
    event: ChannelEvent,
    kept: &mut Option<SocketEvent>,
    head: &mut [u8],
    lent: &mut Vec<u8>,
) -> u32
    ensures answers { IsAmong (0 ∷ 17 ∷ []) result }
    ensures shown { OnAnswer 0 result (Shows head.old head.new lent.new.items) }
{
    let none = Vec::new(alloc);
    match event {
        ChannelEvent::Socket(SocketEvent::SendPacket(bytes)) => {
            show(EventRecord::of_packet(bytes.len()), bytes, head, lent)
        }
        ChannelEvent::Message(id, kind, bytes) => {
            let record = head_of(kind_number(kind), 0, id, bytes.len());
            show(record, bytes, head, lent)
        }
        ChannelEvent::Opened(id) => show(head_of(16, 0, id, 0), none, head, lent),
        ChannelEvent::BufferedAmountLow(id) => show(head_of(6, 0, id, 0), none, head, lent),
        ChannelEvent::Closed(id) => show(head_of(19, 0, id, 0), none, head, lent),
        ChannelEvent::Refused(id, why) => {
            show(head_of(20, refusal_number(why), id, 0), none, head, lent)
        }
        ChannelEvent::Socket(event) => lend_other(alloc, event, kept, head, lent),
    }
}

/// The same for an event of the socket that is no packet.
#[inline(never)]
fn lend_other(
    alloc: Global,
    event: SocketEvent,
    kept: &mut Option<SocketEvent>,
    head: &mut [u8],
    lent: &mut Vec<u8>,
) -> u32
    ensures answers { IsAmong (0 ∷ 17 ∷ []) result }
    ensures shown { OnAnswer 0 result (Shows head.old head.new lent.new.items) }
{
    match parts_of(alloc, event) {
        Ok(
            EventParts {
                head: record,
                bytes,
            },
        ) => show(record, bytes, head, lent),
        Err(event) => {
            drop(std::mem::replace(kept, Some(event)));
            NO_ROOM
        }
    }
}

/// Hands out the event that comes next, whose bytes `lent` has then in place of what it had.
pub fn borrow_event<S: DcSctpSocket>(
    socket: &mut S,
    channels: &mut Option<DataChannels>,
    kept: &mut Option<SocketEvent>,
    head: &mut [u8],
    lent: &mut Vec<u8>,
) -> u32
    ensures answers { OnChannels (λ d n e. IsAmong (0 ∷ 1 ∷ 2 ∷ 8 ∷ 17 ∷ []) n) channels.old result channels.new }
    ensures shown { OnAnswer 0 result (Shows head.old head.new lent.new.items) }
    ensures let_go { OnAnswer 8 result (lent.new.items ≡ []) }
{
    let Some(channels) = channels else {
        return NO_CHANNELS;
    };
    let alloc = *lent.allocator();
    match take_next(socket, channels, kept) {
        Ok(Some(event)) => lend(alloc, event, kept, head, lent),
        Ok(None) => {
            drop(std::mem::replace(lent, Vec::new(alloc)));
            NOTHING
        }
        Err(CallError::Memory) => MEMORY,
        Err(CallError::Failed) => FAILED,
    }
}
