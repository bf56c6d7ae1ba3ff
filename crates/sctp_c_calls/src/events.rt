//! What a socket emitted, handed out or lent. What doesn't fit stays.

ghost use Rattle.std.specs.Prelude.{◌≡◌, Some, None, [], ◌∷◌, length, drop, option_map};
ghost use Rattle.sctp_c_records.specs.Answers.{IsAmong, OnAnswer, OnOthers};
ghost use Rattle.sctp_c_calls.specs.Events.{Needs, Shows, ShowsAll, waiting, with_events};
ghost use Rattle.sctp_state.specs.Events.{SendPacket, event_of, first_of};

use rand_core::Rng;
use sctp_association::{Checksum, DcSctpSocket, Socket, SocketEvent};
use sctp_c_records::answers::{NO_ROOM, NOTHING, OK, SHORT_BUFFER};
use sctp_c_records::{EventParts, EventRecord, hand_out, parts_of, put_bytes};
use std::alloc::Global;

/// Takes out the event that was emitted first: the one that is kept, or else the socket's.
fn take_first<R: Rng, C: Checksum>(
    socket: &mut Socket<R, C>,
    kept: &mut Option<SocketEvent>,
) -> Option<SocketEvent>
    ensures first { option_map event_of result ≡ first_of (waiting kept.old socket.old) }
    ensures waits { waiting kept.new socket.new ≡ drop 1 (waiting kept.old socket.old) }
    ensures none { kept.new ≡ None }
    ensures rest { socket.new ≡ with_events socket.old socket.new.context.emitted.events }
{
    if kept.is_none() {
        return socket.poll_event();
    }
    kept.take()
}

/// Hands out a packet, which most events are. Where it doesn't fit its length is answered, and it is kept.
fn hand_out_packet(
    packet: Vec<u8>,
    kept: &mut Option<SocketEvent>,
    head: &mut [u8],
    buffer: &mut [u8],
) -> u32
    requires none { kept.old ≡ None }
    ensures answers { IsAmong (0 ∷ 9 ∷ []) result }
    ensures taken { OnAnswer 0 result (kept.new ≡ None) }
    ensures shown { OnAnswer 0 result (Shows head.old head.new buffer.new (SendPacket packet.items ∷ [])) }
    ensures stays { OnAnswer 9 result (option_map event_of kept.new ≡ Some (SendPacket packet.items)) }
    ensures needed { OnAnswer 9 result (Needs head.old head.new (length buffer.old) (SendPacket packet.items ∷ [])) }
{
    EventRecord::of_packet(packet.len()).write(head);
    if put_bytes(&packet, buffer) {
        drop(packet);
        return OK;
    }
    drop(std::mem::replace(kept, Some(SocketEvent::SendPacket(packet))));
    SHORT_BUFFER
}

/// Hands out the event that was emitted first. Where it doesn't fit its length is handed out, and it is kept.
pub fn poll_event<R: Rng, C: Checksum>(
    alloc: Global,
    socket: &mut Socket<R, C>,
    kept: &mut Option<SocketEvent>,
    head: &mut [u8],
    buffer: &mut [u8],
) -> u32
    ensures answers { IsAmong (0 ∷ 8 ∷ 9 ∷ 17 ∷ []) result }
    ensures taken { OnAnswer 0 result (waiting kept.new socket.new ≡ drop 1 (waiting kept.old socket.old)) }
    ensures shown { OnAnswer 0 result (Shows head.old head.new buffer.new (waiting kept.old socket.old)) }
    ensures stays { OnOthers 0 result (waiting kept.new socket.new ≡ waiting kept.old socket.old) }
    ensures nothing { OnAnswer 8 result (waiting kept.old socket.old ≡ []) }
    ensures needed { OnAnswer 9 result (Needs head.old head.new (length buffer.old) (waiting kept.old socket.old)) }
    ensures rest { socket.new ≡ with_events socket.old socket.new.context.emitted.events }
{
    match take_first(socket, kept) {
        None => NOTHING,
        Some(SocketEvent::SendPacket(packet)) => hand_out_packet(packet, kept, head, buffer),
        Some(event) => match hand_out(alloc, &event, head, buffer) {
            Ok(true) => {
                drop(event);
                OK
            }
            Ok(false) => {
                drop(std::mem::replace(kept, Some(event)));
                SHORT_BUFFER
            }
            Err(_error) => {
                drop(std::mem::replace(kept, Some(event)));
                NO_ROOM
            }
        },
    }
}

/// Hands out the event that was emitted first, whose bytes `lent` has then in place of what it had. Where there is no memory for
/// those of streams, the event is kept.
pub fn borrow_event<R: Rng, C: Checksum>(
    alloc: Global,
    socket: &mut Socket<R, C>,
    kept: &mut Option<SocketEvent>,
    head: &mut [u8],
    lent: &mut Vec<u8>,
) -> u32
    ensures answers { IsAmong (0 ∷ 8 ∷ 17 ∷ []) result }
    ensures taken { OnAnswer 0 result (waiting kept.new socket.new ≡ drop 1 (waiting kept.old socket.old)) }
    ensures shown { OnAnswer 0 result (ShowsAll head.old head.new lent.new.items (waiting kept.old socket.old)) }
    ensures stays { OnOthers 0 result (waiting kept.new socket.new ≡ waiting kept.old socket.old) }
    ensures nothing { OnAnswer 8 result (waiting kept.old socket.old ≡ []) }
    ensures let_go { OnAnswer 8 result (lent.new.items ≡ []) }
    ensures rest { socket.new ≡ with_events socket.old socket.new.context.emitted.events }
{
    match take_first(socket, kept) {
        None => {
            drop(std::mem::replace(lent, Vec::new(alloc)));
            NOTHING
        }
        Some(event) => match parts_of(alloc, event) {
            Ok(
                EventParts {
                    head: record,
                    bytes,
                },
            ) => {
                record.write(head);
                drop(std::mem::replace(lent, bytes));
                OK
            }
            Err(event) => {
                drop(std::mem::replace(kept, Some(event)));
                NO_ROOM
            }
        },
    }
}
