//! A socket's record, out and in.

ghost use Rattle.std.specs.Prelude.{◌≡◌, ◌<◌, [], ◌∷◌, None, Some, Err, length, IfErr, IfOk, OnOk};
ghost use Rattle.sctp_association.specs.Socket.{Ends, endpoint, handover_ending};
ghost use Rattle.sctp_c_calls.specs.Answers.{ending_at};
ghost use Rattle.sctp_c_records.specs.Answers.{IsAmong, OnAnswer, OnOthers};
ghost use Rattle.sctp_c_calls.specs.Handover.{Holds, IsNone, IsRecord, IsTaken, OnNotReady, Refuses, Restores, in_the_way, left_by, record_of, record_or};
ghost use Rattle.sctp_c_records.specs.Event.{Copied};
ghost use Rattle.sctp_handover.specs.Bounds.{RecordFits};
ghost use Rattle.sctp_handover.specs.Bytes.{record_bytes};
ghost use Rattle.sctp_state.specs.Handover.{HandoverState, handover_state_of};

use rand_core::Rng;
use sctp_association::{
    Checksum, DcSctpSocket, HandoverError, RestoreError, Socket, SocketHandoverState,
};
use sctp_c_records::answers::{
    FAILED, INVALID_STATE, MEMORY, NO_ROOM, NOT_CLOSED, NOT_READY, OK, SHORT_BUFFER,
};
use sctp_c_records::put_bytes;
use sctp_handover::{RecordFault, from_bytes, to_bytes};
use std::alloc::{AllocError, Global};

/// Takes the record that is kept, or else the socket's, which closes.
fn take_record<R: Rng, C: Checksum>(
    socket: &mut Socket<R, C>,
    kept: &mut Option<SocketHandoverState>,
) -> Result<SocketHandoverState, HandoverError>
    ensures record { IfOk result (λ h. handover_state_of h ≡ record_or (record_of kept.old) (endpoint R.stream C.word_of socket.old).endpoint_state) }
    ensures ready { OnOk result (in_the_way (record_of kept.old) (endpoint R.stream C.word_of socket.old).endpoint_state ≡ 0) }
    ensures left { OnOk result (endpoint R.stream C.word_of socket.new ≡ left_by (record_of kept.old) (endpoint R.stream C.word_of socket.old)) }
    ensures failure { OnOk result (socket.new.has_failed ≡ socket.old.has_failed) }
    ensures none { kept.new ≡ None }
    ensures not_ready { IfErr result (λ e. OnNotReady e (0 < in_the_way (record_of kept.old) (endpoint R.stream C.word_of socket.old).endpoint_state)) }
    ensures unchanged { IfErr result (λ e. OnNotReady e (endpoint R.stream C.word_of socket.new ≡ endpoint R.stream C.word_of socket.old)) }
    ensures ends { IfErr result (λ e. Ends (handover_ending (Err e)) socket.old socket.new) }
{
    match kept.take() {
        Some(state) => Ok(state),
        None => socket.get_handover_state_and_close(),
    }
}

/// Writes how many bytes a record has and, where they fit, the bytes. Answers whether they do.
fn put_record(
    alloc: Global,
    state: &SocketHandoverState,
    needed: &mut usize,
    buffer: &mut [u8],
) -> Result<bool, AllocError>
    ensures needed { OnOk result (needed.new ≡ length (record_bytes (handover_state_of state.now))) }
    ensures bytes { IfOk result (λ fits. Copied fits (record_bytes (handover_state_of state.now)) buffer.old buffer.new) }
    ensures fits { OnOk result (RecordFits (handover_state_of state.now)) }
{
    let bytes = to_bytes(alloc, state)?;
    *needed = bytes.len();
    Ok(put_bytes(&bytes, buffer))
}

/// Hands out the socket's record, and the socket closes. Where it doesn't fit its length is handed out, and it is kept.
pub fn hand_over<R: Rng, C: Checksum>(
    alloc: Global,
    socket: &mut Socket<R, C>,
    kept: &mut Option<SocketHandoverState>,
    needed: &mut usize,
    buffer: &mut [u8],
) -> u32
    ensures answers { IsAmong (0 ∷ 1 ∷ 2 ∷ 9 ∷ 16 ∷ 17 ∷ []) result }
    ensures written { OnAnswer 0 result (Holds buffer.new (record_bytes (record_or (record_of kept.old) (endpoint R.stream C.word_of socket.old).endpoint_state))) }
    ensures fits { OnAnswer 0 result (RecordFits (record_or (record_of kept.old) (endpoint R.stream C.word_of socket.old).endpoint_state)) }
    ensures size { OnAnswer 0 result (needed.new ≡ length (record_bytes (record_or (record_of kept.old) (endpoint R.stream C.word_of socket.old).endpoint_state))) }
    ensures needed { OnAnswer 9 result (needed.new ≡ length (record_bytes (record_or (record_of kept.old) (endpoint R.stream C.word_of socket.old).endpoint_state))) }
    ensures short { OnAnswer 9 result (length buffer.old < needed.new) }
    ensures stays { OnAnswer 9 result (record_of kept.new ≡ Some (record_or (record_of kept.old) (endpoint R.stream C.word_of socket.old).endpoint_state)) }
    ensures no_room { OnAnswer 17 result (record_of kept.new ≡ Some (record_or (record_of kept.old) (endpoint R.stream C.word_of socket.old).endpoint_state)) }
    ensures none { OnOthers 9 result (OnOthers 17 result (kept.new ≡ None)) }
    ensures ready { IsTaken result (in_the_way (record_of kept.old) (endpoint R.stream C.word_of socket.old).endpoint_state ≡ 0) }
    ensures left { IsTaken result (endpoint R.stream C.word_of socket.new ≡ left_by (record_of kept.old) (endpoint R.stream C.word_of socket.old)) }
    ensures failure { IsTaken result (socket.new.has_failed ≡ socket.old.has_failed) }
    ensures memory { OnAnswer 1 result (Ends (ending_at result) socket.old socket.new) }
    ensures failed { OnAnswer 2 result (Ends (ending_at result) socket.old socket.new) }
    ensures not_ready { OnAnswer 16 result (0 < in_the_way (record_of kept.old) (endpoint R.stream C.word_of socket.old).endpoint_state) }
    ensures unchanged { OnAnswer 16 result (endpoint R.stream C.word_of socket.new ≡ endpoint R.stream C.word_of socket.old) }
{
    match take_record(socket, kept) {
        Err(HandoverError::NotReady(_)) => NOT_READY,
        Err(HandoverError::Memory) => MEMORY,
        Err(HandoverError::Failed) => FAILED,
        Ok(state) => match put_record(alloc, &state, needed, buffer) {
            Ok(true) => {
                drop(state);
                OK
            }
            Ok(false) => {
                drop(std::mem::replace(kept, Some(state)));
                SHORT_BUFFER
            }
            Err(_error) => {
                drop(std::mem::replace(kept, Some(state)));
                NO_ROOM
            }
        },
    }
}

/// Takes up a record.
fn take_up<R: Rng, C: Checksum>(socket: &mut Socket<R, C>, state: &SocketHandoverState) -> u32
    ensures answers { IsAmong (0 ∷ 1 ∷ 2 ∷ 19 ∷ 20 ∷ []) result }
    ensures restores { Restores R.stream C.word_of (handover_state_of state.now) socket.old result socket.new }
{
    match socket.restore_from_state(state) {
        Ok(()) => OK,
        Err(RestoreError::SocketNotClosed) => NOT_CLOSED,
        Err(RestoreError::InvalidState) => INVALID_STATE,
        Err(RestoreError::Memory) => MEMORY,
        Err(RestoreError::Failed) => FAILED,
    }
}

/// Takes up the record that the bytes are, and sends what may be sent.
pub fn restore<R: Rng, C: Checksum>(alloc: Global, socket: &mut Socket<R, C>, bytes: &[u8]) -> u32
    ensures answers { IsAmong (0 ∷ 1 ∷ 2 ∷ 17 ∷ 19 ∷ 20 ∷ []) result }
    ensures record { (h : HandoverState) → IsRecord bytes.now h → Restores R.stream C.word_of h socket.old result socket.new }
    ensures none { IsNone bytes.now → Refuses socket.old result socket.new }
{
    match from_bytes(alloc, bytes) {
        Ok(state) => {
            let number = take_up(socket, &state);
            drop(state);
            number
        }
        Err(RecordFault::NotARecord) => INVALID_STATE,
        Err(RecordFault::Memory) => NO_ROOM,
    }
}
