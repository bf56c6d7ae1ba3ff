//! What a socket emitted, handed out or lent. What doesn't fit stays.

ghost use Rattle.std.specs.Prelude.{◌≡◌, ◌<◌, ◌≤◌, [], ◌∷◌, length, drop};
ghost use Rattle.sctp_c.specs.Calls.{Answers};
ghost use Rattle.sctp_c.specs.Lent.{PointsAt};
ghost use Rattle.sctp_c_records.specs.Answers.{IsAmong, OnAnswer, OnOthers};
ghost use Rattle.sctp_c_calls.specs.Events.{Needs, Shows, ShowsAll, waiting, with_events};

use crate::handle::Handle;
use sctp_c_calls as calls;
use sctp_c_records::EVENT_SIZE;
use sctp_c_records::answers::{INVALID_SIZE, NO_SOCKET};
use std::alloc::Global;

/// Hands out the event that was emitted first. Where it doesn't fit its length is handed out, and it stays.
#[unsafe(no_mangle)]
pub extern "C" fn pigeon_poll_event_sized(
    alloc: Global,
    socket: &mut Handle,
    head: &mut [u8],
    buffer: &mut [u8],
) -> u32
    ensures size { 40 < length head.old → (result ≡ 21) × (socket.new.held ≡ socket.old.held) }
    ensures answers { length head.old ≤ 40 → Answers (λ e n f. IsAmong (0 ∷ 8 ∷ 9 ∷ 17 ∷ []) n) socket.old.held result socket.new.held }
    ensures taken { length head.old ≤ 40 → Answers (λ e n f. OnAnswer 0 n (waiting f.event f.socket ≡ drop 1 (waiting e.event e.socket))) socket.old.held result socket.new.held }
    ensures shown { length head.old ≤ 40 → Answers (λ e n f. OnAnswer 0 n (Shows head.old head.new buffer.new (waiting e.event e.socket))) socket.old.held result socket.new.held }
    ensures stays { length head.old ≤ 40 → Answers (λ e n f. OnOthers 0 n (waiting f.event f.socket ≡ waiting e.event e.socket)) socket.old.held result socket.new.held }
    ensures nothing { length head.old ≤ 40 → Answers (λ e n f. OnAnswer 8 n (waiting e.event e.socket ≡ [])) socket.old.held result socket.new.held }
    ensures needed { length head.old ≤ 40 → Answers (λ e n f. OnAnswer 9 n (Needs head.old head.new (length buffer.old) (waiting e.event e.socket))) socket.old.held result socket.new.held }
    ensures record { length head.old ≤ 40 → Answers (λ e n f. (f.handed_over ≡ e.handed_over) × (f.channels ≡ e.channels)) socket.old.held result socket.new.held }
    ensures rest { length head.old ≤ 40 → Answers (λ e n f. f.socket ≡ with_events e.socket f.socket.context.emitted.events) socket.old.held result socket.new.held }
{
    if EVENT_SIZE < head.len() {
        return INVALID_SIZE;
    }
    match socket.as_mut() {
        None => NO_SOCKET,
        Some(end) => calls::poll_event(alloc, &mut end.socket, &mut end.event, head, buffer),
    }
}

/// Hands out the event that was emitted first, and lends its bytes until the next call. Where there is no memory for those of streams, it
/// stays.
#[unsafe(no_mangle)]
pub extern "C" fn pigeon_borrow_event_sized(
    alloc: Global,
    socket: &mut Handle,
    head: &mut [u8],
    bytes: &mut *const u8,
) -> u32
    ensures size { 40 < length head.old → (result ≡ 21) × (socket.new.held ≡ socket.old.held) }
    ensures answers { length head.old ≤ 40 → Answers (λ e n f. IsAmong (0 ∷ 8 ∷ 17 ∷ []) n) socket.old.held result socket.new.held }
    ensures taken { length head.old ≤ 40 → Answers (λ e n f. OnAnswer 0 n (waiting f.event f.socket ≡ drop 1 (waiting e.event e.socket))) socket.old.held result socket.new.held }
    ensures shown { length head.old ≤ 40 → Answers (λ e n f. OnAnswer 0 n (ShowsAll head.old head.new f.lent.items (waiting e.event e.socket))) socket.old.held result socket.new.held }
    ensures lent { length head.old ≤ 40 → Answers (λ e n f. PointsAt bytes.new f) socket.old.held result socket.new.held }
    ensures stays { length head.old ≤ 40 → Answers (λ e n f. OnOthers 0 n (waiting f.event f.socket ≡ waiting e.event e.socket)) socket.old.held result socket.new.held }
    ensures nothing { length head.old ≤ 40 → Answers (λ e n f. OnAnswer 8 n (waiting e.event e.socket ≡ [])) socket.old.held result socket.new.held }
    ensures let_go { length head.old ≤ 40 → Answers (λ e n f. OnAnswer 8 n (f.lent.items ≡ [])) socket.old.held result socket.new.held }
    ensures record { length head.old ≤ 40 → Answers (λ e n f. (f.handed_over ≡ e.handed_over) × (f.channels ≡ e.channels)) socket.old.held result socket.new.held }
    ensures rest { length head.old ≤ 40 → Answers (λ e n f. f.socket ≡ with_events e.socket f.socket.context.emitted.events) socket.old.held result socket.new.held }
{
    if EVENT_SIZE < head.len() {
        return INVALID_SIZE;
    }
    match socket.as_mut() {
        None => NO_SOCKET,
        Some(end) => {
            let number = calls::borrow_event(
                alloc,
                &mut end.socket,
                &mut end.event,
                head,
                &mut end.lent,
            );
            *bytes = end.lent.as_ptr();
            number
        }
    }
}
