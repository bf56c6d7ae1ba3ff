//! A socket's record, out and in.

ghost use Rattle.std.specs.Prelude.{◌≡◌, ◌<◌, [], ◌∷◌, None, Some, length};
ghost use Rattle.sctp_association.specs.Socket.{Ends};
ghost use Rattle.sctp_c.specs.Calls.{Answers, OnSocket, end_of, record_at, stream};
ghost use Rattle.sctp_c_calls.specs.Answers.{ending_at};
ghost use Rattle.sctp_c_records.specs.Answers.{IsAmong, OnAnswer, OnOthers};
ghost use Rattle.sctp_c_calls.specs.Handover.{Holds, IsNone, IsRecord, IsTaken, Refuses, Restores, in_the_way, left_by, record_of};
ghost use Rattle.sctp_c_records.specs.Checksum.{word_by};
ghost use Rattle.sctp_handover.specs.Bounds.{RecordFits};
ghost use Rattle.sctp_handover.specs.Bytes.{record_bytes};
ghost use Rattle.sctp_state.specs.Handover.{HandoverState};

use crate::handle::Handle;
use sctp_c_calls as calls;
use sctp_c_records::answers::NO_SOCKET;
use std::alloc::Global;

/// Hands out the socket's record, and the socket closes. Where it doesn't fit its length is handed out, and it stays.
#[unsafe(no_mangle)]
pub extern "C" fn pigeon_handover(
    alloc: Global,
    socket: &mut Handle,
    needed: &mut usize,
    buffer: &mut [u8],
) -> u32
    ensures answers { Answers (λ e n f. IsAmong (0 ∷ 1 ∷ 2 ∷ 9 ∷ 16 ∷ 17 ∷ []) n) socket.old.held result socket.new.held }
    ensures written { Answers (λ e n f. OnAnswer 0 n (Holds buffer.new (record_bytes (record_at e)))) socket.old.held result socket.new.held }
    ensures fits { Answers (λ e n f. OnAnswer 0 n (RecordFits (record_at e))) socket.old.held result socket.new.held }
    ensures size { Answers (λ e n f. OnAnswer 0 n (needed.new ≡ length (record_bytes (record_at e)))) socket.old.held result socket.new.held }
    ensures needed { Answers (λ e n f. OnAnswer 9 n (needed.new ≡ length (record_bytes (record_at e)))) socket.old.held result socket.new.held }
    ensures short { Answers (λ e n f. OnAnswer 9 n (length buffer.old < needed.new)) socket.old.held result socket.new.held }
    ensures stays { Answers (λ e n f. OnAnswer 9 n (record_of f.handed_over ≡ Some (record_at e))) socket.old.held result socket.new.held }
    ensures no_room { Answers (λ e n f. OnAnswer 17 n (record_of f.handed_over ≡ Some (record_at e))) socket.old.held result socket.new.held }
    ensures none { Answers (λ e n f. OnOthers 9 n (OnOthers 17 n (f.handed_over ≡ None))) socket.old.held result socket.new.held }
    ensures ready { Answers (λ e n f. IsTaken n (in_the_way (record_of e.handed_over) (end_of e.socket).endpoint_state ≡ 0)) socket.old.held result socket.new.held }
    ensures left { Answers (λ e n f. IsTaken n (end_of f.socket ≡ left_by (record_of e.handed_over) (end_of e.socket))) socket.old.held result socket.new.held }
    ensures failure { Answers (λ e n f. IsTaken n (f.socket.has_failed ≡ e.socket.has_failed)) socket.old.held result socket.new.held }
    ensures memory { Answers (λ e n f. OnAnswer 1 n (Ends (ending_at n) e.socket f.socket)) socket.old.held result socket.new.held }
    ensures failed { Answers (λ e n f. OnAnswer 2 n (Ends (ending_at n) e.socket f.socket)) socket.old.held result socket.new.held }
    ensures not_ready { Answers (λ e n f. OnAnswer 16 n (0 < in_the_way (record_of e.handed_over) (end_of e.socket).endpoint_state)) socket.old.held result socket.new.held }
    ensures unchanged { Answers (λ e n f. OnAnswer 16 n (end_of f.socket ≡ end_of e.socket)) socket.old.held result socket.new.held }
    ensures event { Answers (λ e n f. (f.event ≡ e.event) × (f.channels ≡ e.channels)) socket.old.held result socket.new.held }
{
    match socket.as_mut() {
        None => NO_SOCKET,
        Some(end) => calls::hand_over(alloc, &mut end.socket, &mut end.handed_over, needed, buffer),
    }
}

/// Takes up a record in a closed socket, which goes on in place of the one that it is of.
#[unsafe(no_mangle)]
pub extern "C" fn pigeon_restore(alloc: Global, socket: &mut Handle, bytes: &[u8]) -> u32
    ensures answers { Answers (λ e n f. IsAmong (0 ∷ 1 ∷ 2 ∷ 17 ∷ 19 ∷ 20 ∷ []) n) socket.old.held result socket.new.held }
    ensures record { (h : HandoverState) → IsRecord bytes.now h → Answers (OnSocket (λ s n t. Restores stream word_by h s n t)) socket.old.held result socket.new.held }
    ensures none { IsNone bytes.now → Answers (OnSocket (λ s n t. Refuses s n t)) socket.old.held result socket.new.held }
{
    match socket.as_mut() {
        None => NO_SOCKET,
        Some(end) => calls::restore(alloc, &mut end.socket, bytes),
    }
}
