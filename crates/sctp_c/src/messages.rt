//! Messages, in and out.

ghost use Rattle.std.specs.Prelude.{◌≡◌, [], ◌∷◌, length, ◌<◌, ◌≤◌, None, Some, drop, option_map};
ghost use Rattle.sctp_c.specs.Calls.{Answers, OnSocket, end_of};
ghost use Rattle.sctp_c.specs.Lent.{PointsAt};
ghost use Rattle.sctp_c_calls.specs.Answers.{Ended, OnSettled, refusal_number};
ghost use Rattle.sctp_c_records.specs.Answers.{IsAmong, OnAnswer, OnOthers};
ghost use Rattle.sctp_c_calls.specs.Events.{HasAll, HasMessage, NeedsMore, with_given_up};
ghost use Rattle.sctp_c_records.specs.Records.{IsKnown, given_send_options, send_in};
ghost use Rattle.sctp_c_records.specs.GivenUp.{given_up_record};
ghost use Rattle.sctp_state.specs.Events.{first_of};
ghost use Rattle.spec_endpoint.specs.Calls as table;
ghost use Rattle.spec_endpoint.specs.Input.{in_endpoint_state};

use crate::handle::Handle;
use crate::stream::stream_of;
use sctp_c_calls as calls;
use sctp_c_records::answers::{INVALID_ARGUMENT, INVALID_SIZE, INVALID_STREAM, NO_SOCKET};
use sctp_c_records::{GivenUpRecord, MessageRecord, SEND_SIZE, SendRecord};
use std::alloc::Global;

/// Hands out the message that was ready first. Where it doesn't fit its length is handed out, and it stays.
#[unsafe(no_mangle)]
pub extern "C" fn pigeon_next_message(
    socket: &mut Handle,
    head: &mut MessageRecord,
    buffer: &mut [u8],
) -> u32
    ensures answers { Answers (λ e n f. IsAmong (0 ∷ 8 ∷ 9 ∷ []) n) socket.old.held result socket.new.held }
    ensures message { Answers (OnSocket (λ s n t. OnAnswer 0 n (HasMessage head.new buffer.new (table.ready_in s.state)))) socket.old.held result socket.new.held }
    ensures taken { Answers (OnSocket (λ s n t. OnAnswer 0 n (end_of t ≡ in_endpoint_state table.take_message (end_of s)))) socket.old.held result socket.new.held }
    ensures stays { Answers (OnSocket (λ s n t. OnOthers 0 n (t ≡ s))) socket.old.held result socket.new.held }
    ensures nothing { Answers (OnSocket (λ s n t. OnAnswer 8 n (table.ready_in s.state ≡ []))) socket.old.held result socket.new.held }
    ensures needed { Answers (OnSocket (λ s n t. OnAnswer 9 n (NeedsMore head.new (length buffer.old) (table.ready_in s.state)))) socket.old.held result socket.new.held }
{
    match socket.as_mut() {
        None => NO_SOCKET,
        Some(end) => calls::next_message(&mut end.socket, head, buffer),
    }
}

/// Hands out the message that was ready first, and lends its payload until the next call.
#[unsafe(no_mangle)]
pub extern "C" fn pigeon_borrow_message(
    alloc: Global,
    socket: &mut Handle,
    head: &mut MessageRecord,
    payload: &mut *const u8,
) -> u32
    ensures answers { Answers (λ e n f. IsAmong (0 ∷ 8 ∷ []) n) socket.old.held result socket.new.held }
    ensures message { Answers (λ e n f. OnAnswer 0 n (HasAll head.new f.lent.items (table.ready_in e.socket.state))) socket.old.held result socket.new.held }
    ensures lent { Answers (λ e n f. PointsAt payload.new f) socket.old.held result socket.new.held }
    ensures taken { Answers (OnSocket (λ s n t. end_of t ≡ in_endpoint_state table.take_message (end_of s))) socket.old.held result socket.new.held }
    ensures failure { Answers (OnSocket (λ s n t. t.has_failed ≡ s.has_failed)) socket.old.held result socket.new.held }
    ensures nothing { Answers (OnSocket (λ s n t. OnAnswer 8 n (table.ready_in s.state ≡ []))) socket.old.held result socket.new.held }
    ensures let_go { Answers (λ e n f. OnAnswer 8 n (f.lent.items ≡ [])) socket.old.held result socket.new.held }
{
    match socket.as_mut() {
        None => NO_SOCKET,
        Some(end) => {
            let number = calls::borrow_message(alloc, &mut end.socket, head, &mut end.lent);
            *payload = end.lent.as_ptr();
            number
        }
    }
}

/// Takes the record of the message that was given up first.
#[unsafe(no_mangle)]
pub extern "C" fn pigeon_next_given_up(socket: &mut Handle, head: &mut GivenUpRecord) -> u32
    ensures answers { Answers (λ e n f. IsAmong (0 ∷ 8 ∷ []) n) socket.old.held result socket.new.held }
    ensures first { Answers (OnSocket (λ s n t. OnAnswer 0 n (Some head.new ≡ option_map given_up_record (first_of s.context.emitted.given_up)))) socket.old.held result socket.new.held }
    ensures nothing { Answers (OnSocket (λ s n t. OnAnswer 8 n (first_of s.context.emitted.given_up ≡ None))) socket.old.held result socket.new.held }
    ensures rest { Answers (OnSocket (λ s n t. t ≡ with_given_up s (drop 1 s.context.emitted.given_up))) socket.old.held result socket.new.held }
{
    match socket.as_mut() {
        None => NO_SOCKET,
        Some(end) => calls::next_given_up(&mut end.socket, head),
    }
}

/// Queues a copy of a message, and sends as much as may be sent.
#[unsafe(no_mangle)]
pub extern "C" fn pigeon_send_sized(
    alloc: Global,
    socket: &mut Handle,
    stream: u32,
    ppid: u32,
    payload: &[u8],
    options: &[u8],
) -> u32
    ensures size { 32 < length options.now → (result ≡ 21) × (socket.new.held ≡ socket.old.held) }
    ensures stream { length options.now ≤ 32 → 65535 < stream → (result ≡ 6) × (socket.new.held ≡ socket.old.held) }
    ensures unknown { length options.now ≤ 32 → stream ≤ 65535 → (IsKnown (send_in options.now) → ⊥) → (result ≡ 7) × (socket.new.held ≡ socket.old.held) }
    ensures answers { length options.now ≤ 32 → stream ≤ 65535 → IsKnown (send_in options.now) → Answers (λ e n f. IsAmong (0 ∷ 1 ∷ 2 ∷ 10 ∷ 11 ∷ 12 ∷ 13 ∷ 17 ∷ []) n) socket.old.held result socket.new.held }
    ensures ends { length options.now ≤ 32 → stream ≤ 65535 → IsKnown (send_in options.now) → Answers (OnSocket (λ s n t. Ended n s t)) socket.old.held result socket.new.held }
    ensures answer { length options.now ≤ 32 → stream ≤ 65535 → IsKnown (send_in options.now) → Answers (OnSocket (λ s n t. OnSettled n (n ≡ refusal_number (table.send_refusal_of (record { stream = stream; ppid = ppid; payload = payload.now }) (end_of s).endpoint_state)))) socket.old.held result socket.new.held }
    ensures sent { length options.now ≤ 32 → stream ≤ 65535 → IsKnown (send_in options.now) → Answers (OnSocket (λ s n t. OnSettled n (end_of t
        ≡ in_endpoint_state (table.send (record { stream = stream; ppid = ppid; payload = payload.now }) (given_send_options (send_in options.now))) (end_of s)))) socket.old.held result socket.new.held }
{
    if SEND_SIZE < options.len() {
        return INVALID_SIZE;
    }
    let Some(stream) = stream_of(stream) else {
        return INVALID_STREAM;
    };
    let record = SendRecord::in_bytes(options);
    if !record.is_known() {
        return INVALID_ARGUMENT;
    }
    match socket.as_mut() {
        None => NO_SOCKET,
        Some(end) => {
            let message = calls::LentMessage {
                stream,
                ppid,
                payload,
            };
            calls::send(alloc, &mut end.socket, message, &record)
        }
    }
}
