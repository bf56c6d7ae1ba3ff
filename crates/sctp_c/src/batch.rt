//! Several messages at once.

ghost use Rattle.std.specs.Prelude.{◌≡◌, ◌<◌, ◌≤◌, true, false, [], ◌∷◌, length, map, replicate, take};
ghost use Rattle.sctp_c.specs.Batch.{refusals};
ghost use Rattle.sctp_c.specs.Calls.{Answers, OnSocket, end_of};
ghost use Rattle.sctp_c_calls.specs.Answers.{Ended, OnSettled, batch_number, mark_refused};
ghost use Rattle.sctp_c_records.specs.Answers.{IsAmong};
ghost use Rattle.sctp_c_calls.specs.Batch.{given_message, have_streams};
ghost use Rattle.sctp_c_records.specs.Records.{IsKnown, given_send_options, send_in};
ghost use Rattle.spec_endpoint.specs.Calls as table;
ghost use Rattle.spec_endpoint.specs.Input.{in_endpoint_state};

use crate::handle::Handle;
use sctp_c_calls as calls;
use sctp_c_records::answers::{
    INVALID_ARGUMENT, INVALID_SIZE, INVALID_STREAM, NO_SOCKET, SHORT_BUFFER,
};
use sctp_c_records::{OutgoingRecord, SEND_SIZE, SendRecord};
use std::alloc::Global;

/// Queues copies of messages, and sends as much as may be sent. Each message's answer is handed out.
#[unsafe(no_mangle)]
pub extern "C" fn pigeon_send_many_sized(
    alloc: Global,
    socket: &mut Handle,
    messages: &[OutgoingRecord<'_>],
    options: &[u8],
    answers: &mut [u32],
) -> u32
    ensures size { 32 < length options.now → (result ≡ 21) × (socket.new.held ≡ socket.old.held) }
    ensures unknown { length options.now ≤ 32 → (IsKnown (send_in options.now) → ⊥) → (result ≡ 7) × (socket.new.held ≡ socket.old.held) }
    ensures room { length options.now ≤ 32 → IsKnown (send_in options.now) → length answers.old < length messages.now → (result ≡ 9) × (socket.new.held ≡ socket.old.held) }
    ensures streams { length options.now ≤ 32 → IsKnown (send_in options.now) → length messages.now ≤ length answers.old → have_streams messages.now ≡ false → (result ≡ 6) × (socket.new.held ≡ socket.old.held) }
    ensures answers { length options.now ≤ 32 → IsKnown (send_in options.now) → length messages.now ≤ length answers.old → have_streams messages.now ≡ true → Answers (λ e n f. IsAmong (0 ∷ 1 ∷ 2 ∷ 17 ∷ 18 ∷ []) n) socket.old.held result socket.new.held }
    ensures ends { length options.now ≤ 32 → IsKnown (send_in options.now) → length messages.now ≤ length answers.old → have_streams messages.now ≡ true → Answers (OnSocket (λ s n t. Ended n s t)) socket.old.held result socket.new.held }
    ensures answer { length options.now ≤ 32 → IsKnown (send_in options.now) → length messages.now ≤ length answers.old → have_streams messages.now ≡ true → Answers (OnSocket (λ s n t. OnSettled n (n ≡ batch_number (refusals messages.now (send_in options.now) s)))) socket.old.held result socket.new.held }
    ensures each { length options.now ≤ 32 → IsKnown (send_in options.now) → length messages.now ≤ length answers.old → have_streams messages.now ≡ true → Answers (OnSocket (λ s n t. OnSettled n (take (length messages.now) answers.new
        ≡ mark_refused (refusals messages.now (send_in options.now) s) (replicate (length messages.now) 0)))) socket.old.held result socket.new.held }
    ensures sent { length options.now ≤ 32 → IsKnown (send_in options.now) → length messages.now ≤ length answers.old → have_streams messages.now ≡ true → Answers (OnSocket (λ s n t. OnSettled n (end_of t
        ≡ in_endpoint_state (table.send_many (map given_message messages.now) (given_send_options (send_in options.now))) (end_of s)))) socket.old.held result socket.new.held }
{
    if SEND_SIZE < options.len() {
        return INVALID_SIZE;
    }
    let record = SendRecord::in_bytes(options);
    if !record.is_known() {
        return INVALID_ARGUMENT;
    }
    if answers.len() < messages.len() {
        return SHORT_BUFFER;
    }
    if !calls::have_streams(messages) {
        return INVALID_STREAM;
    }
    match socket.as_mut() {
        None => NO_SOCKET,
        Some(end) => calls::send_many(alloc, &mut end.socket, messages, &record, answers),
    }
}
