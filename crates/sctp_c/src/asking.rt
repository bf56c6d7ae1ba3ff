//! What a socket is asked.

ghost use Rattle.std.specs.Prelude.{◌≡◌, ◌==◌, ◌↔◌, true, ◌-◌, ◌^◌, ◌<◌, ◌≤◌, [], ◌∷◌, length, None, min, option_map};
ghost use Rattle.sctp_c.specs.Calls.{Answers, OnSocket, Tells, end_of};
ghost use Rattle.sctp_c_calls.specs.Answers.{state_number};
ghost use Rattle.sctp_c_records.specs.Answers.{IsAmong, OnAnswer};
ghost use Rattle.sctp_c_calls.specs.Asking.{ShowsMetrics, ShowsOptions, shown_metrics};
ghost use Rattle.sctp_calls.specs.Metrics.{metrics_in};
ghost use Rattle.sctp_tx_queue.specs.SendQueue as queue;
ghost use Rattle.spec_endpoint.specs.Calls as table;
ghost use Rattle.spec_endpoint.specs.Handover as handover;
ghost use Rattle.spec_endpoint.specs.Receiving.{Judges};
ghost use Rattle.spec_endpoint.specs.Shown.{is_at_rest};
ghost use Rattle.spec_endpoint.specs.Timers as time;
ghost use Rattle.sctp_c_records.specs.Checksum.{word_by};
ghost use Rattle.sctp_c_records.specs.Metrics.{one_if};

use crate::handle::Handle;
use crate::stream::stream_of;
use sctp_c_calls as calls;
use sctp_c_records::answers::{INVALID_SIZE, INVALID_STREAM, NO_SOCKET, OK};
use sctp_c_records::{METRICS_SIZE, OPTIONS_SIZE, place_of_text};

/// Hands out where the text of a number begins, which ends by a zero byte and stays: of an answer (0), the kind of an event (1), the
/// kind of an error (2), a state (3), the place of an option (4), or a refusal on a channel (5).
#[unsafe(no_mangle)]
pub extern "C" fn pigeon_find_text(what: u32, number: u32, text: &mut *const u8) {
    *text = place_of_text(what, number);
}

/// The library's version: 10,000 times the first number, 100 times the second one, and the third one.
#[unsafe(no_mangle)]
pub extern "C" fn pigeon_version() -> u32
    ensures { result ≡ 100 }
{
    100
}

/// The moment by which the time is to be advanced next, in nanoseconds; the greatest number where no timer runs and nothing is owed.
#[unsafe(no_mangle)]
pub extern "C" fn pigeon_poll_timeout(socket: &mut Handle, nanos: &mut u64) -> u32
    ensures due { Tells (λ s. time.poll_timeout (end_of s).endpoint_state < 2 ^ 64 → nanos.new ≡ time.poll_timeout (end_of s).endpoint_state) socket.old.held result socket.new.held }
    ensures never { Tells (λ s. 2 ^ 64 ≤ time.poll_timeout (end_of s).endpoint_state → nanos.new ≡ 2 ^ 64 - 1) socket.old.held result socket.new.held }
    ensures handle { socket.new ≡ socket.old }
{
    match socket.as_mut() {
        None => NO_SOCKET,
        Some(end) => {
            *nanos = calls::nanos_until(&end.socket);
            OK
        }
    }
}

/// The state: 0 closed, 1 connecting, 2 connected, 3 shutting down.
#[unsafe(no_mangle)]
pub extern "C" fn pigeon_state(socket: &mut Handle, state: &mut u32) -> u32
    ensures state { Tells (λ s. state.new ≡ state_number (table.shown_state s.state)) socket.old.held result socket.new.held }
    ensures handle { socket.new ≡ socket.old }
{
    match socket.as_mut() {
        None => NO_SOCKET,
        Some(end) => {
            *state = calls::state_number(&end.socket);
            OK
        }
    }
}

/// The bytes of a stream that wait to be sent.
#[unsafe(no_mangle)]
pub extern "C" fn pigeon_buffered_amount(socket: &mut Handle, stream: u32, bytes: &mut usize) -> u32
    ensures stream { 65535 < stream → (result ≡ 6) × (socket.new.held ≡ socket.old.held) }
    ensures call { stream ≤ 65535 → Tells (λ s. bytes.new ≡ queue.amount_of (queue.stream stream s.context.queue.streams)) socket.old.held result socket.new.held }
    ensures handle { socket.new ≡ socket.old }
{
    let Some(stream) = stream_of(stream) else {
        return INVALID_STREAM;
    };
    match socket.as_mut() {
        None => NO_SOCKET,
        Some(end) => {
            *bytes = calls::buffered_amount(&end.socket, stream);
            OK
        }
    }
}

/// Writes what is counted of the association and the socket, while there is a control block.
#[unsafe(no_mangle)]
pub extern "C" fn pigeon_get_metrics_sized(socket: &mut Handle, metrics: &mut [u8]) -> u32
    ensures size { 96 < length metrics.old → (result ≡ 21) × (socket.new.held ≡ socket.old.held) }
    ensures answers { length metrics.old ≤ 96 → Answers (λ e n f. IsAmong (0 ∷ 8 ∷ []) n) socket.old.held result socket.new.held }
    ensures stays { length metrics.old ≤ 96 → Answers (λ e n f. f ≡ e) socket.old.held result socket.new.held }
    ensures metrics { length metrics.old ≤ 96 → Answers (OnSocket (λ s n t. OnAnswer 0 n (ShowsMetrics metrics.old metrics.new (option_map shown_metrics (metrics_in s.state s.context))))) socket.old.held result socket.new.held }
    ensures nothing { length metrics.old ≤ 96 → Answers (OnSocket (λ s n t. OnAnswer 8 n (option_map shown_metrics (metrics_in s.state s.context) ≡ None))) socket.old.held result socket.new.held }
    ensures handle { socket.new ≡ socket.old }
{
    if METRICS_SIZE < metrics.len() {
        return INVALID_SIZE;
    }
    match socket.as_mut() {
        None => NO_SOCKET,
        Some(end) => calls::write_metrics(&end.socket, metrics),
    }
}

/// What stands in the way of a handover, a bit each.
#[unsafe(no_mangle)]
pub extern "C" fn pigeon_handover_readiness(socket: &mut Handle, readiness: &mut u32) -> u32
    ensures readiness { Tells (λ s. readiness.new ≡ handover.readiness (end_of s).endpoint_state) socket.old.held result socket.new.held }
    ensures handle { socket.new ≡ socket.old }
{
    match socket.as_mut() {
        None => NO_SOCKET,
        Some(end) => {
            *readiness = calls::handover_readiness(&end.socket);
            OK
        }
    }
}

/// The moment to which the time was advanced last, in nanoseconds since the socket was made.
#[unsafe(no_mangle)]
pub extern "C" fn pigeon_clock(socket: &mut Handle, nanos: &mut u64) -> u32
    ensures clock { Tells (λ s. nanos.new ≡ min s.context.clock (2 ^ 64 - 1)) socket.old.held result socket.new.held }
    ensures handle { socket.new ≡ socket.old }
{
    match socket.as_mut() {
        None => NO_SOCKET,
        Some(end) => {
            *nanos = calls::clock(&end.socket);
            OK
        }
    }
}

/// How many messages are ready.
#[unsafe(no_mangle)]
pub extern "C" fn pigeon_messages_ready_count(socket: &mut Handle, count: &mut usize) -> u32
    ensures count { Tells (λ s. count.new ≡ length (table.ready_in s.state)) socket.old.held result socket.new.held }
    ensures handle { socket.new ≡ socket.old }
{
    match socket.as_mut() {
        None => NO_SOCKET,
        Some(end) => {
            *count = calls::messages_ready(&end.socket);
            OK
        }
    }
}

/// The priority of a stream.
#[unsafe(no_mangle)]
pub extern "C" fn pigeon_stream_priority(
    socket: &mut Handle,
    stream: u32,
    priority: &mut u16,
) -> u32
    ensures stream { 65535 < stream → (result ≡ 6) × (socket.new.held ≡ socket.old.held) }
    ensures call { stream ≤ 65535 → Tells (λ s. priority.new ≡ (queue.stream stream s.context.queue.streams).priority) socket.old.held result socket.new.held }
    ensures handle { socket.new ≡ socket.old }
{
    let Some(stream) = stream_of(stream) else {
        return INVALID_STREAM;
    };
    match socket.as_mut() {
        None => NO_SOCKET,
        Some(end) => {
            *priority = calls::stream_priority(&end.socket, stream);
            OK
        }
    }
}

/// The amount in bytes at which a stream is low.
#[unsafe(no_mangle)]
pub extern "C" fn pigeon_buffered_amount_low_threshold(
    socket: &mut Handle,
    stream: u32,
    bytes: &mut usize,
) -> u32
    ensures stream { 65535 < stream → (result ≡ 6) × (socket.new.held ≡ socket.old.held) }
    ensures call { stream ≤ 65535 → Tells (λ s. bytes.new ≡ (queue.stream stream s.context.queue.streams).threshold) socket.old.held result socket.new.held }
    ensures handle { socket.new ≡ socket.old }
{
    let Some(stream) = stream_of(stream) else {
        return INVALID_STREAM;
    };
    match socket.as_mut() {
        None => NO_SOCKET,
        Some(end) => {
            *bytes = calls::low_threshold(&end.socket, stream);
            OK
        }
    }
}

/// How many bytes more the send queue takes, of all streams.
#[unsafe(no_mangle)]
pub extern "C" fn pigeon_send_queue_room(socket: &mut Handle, bytes: &mut usize) -> u32
    ensures room { Tells (λ s. bytes.new ≡ s.context.options.max_send_buffer_size - queue.total_of s.context.queue.streams.entries) socket.old.held result socket.new.held }
    ensures handle { socket.new ≡ socket.old }
{
    match socket.as_mut() {
        None => NO_SOCKET,
        Some(end) => {
            *bytes = calls::send_queue_room(&end.socket);
            OK
        }
    }
}

/// Whether nothing is queued, and nothing that was sent is kept: 1 or 0.
#[unsafe(no_mangle)]
pub extern "C" fn pigeon_is_at_rest(socket: &mut Handle, rest: &mut u32) -> u32
    ensures rest { Tells (λ s. rest.new ≡ one_if (is_at_rest s.state s.context.queue)) socket.old.held result socket.new.held }
    ensures handle { socket.new ≡ socket.old }
{
    match socket.as_mut() {
        None => NO_SOCKET,
        Some(end) => {
            *rest = calls::rest_number(&end.socket);
            OK
        }
    }
}

/// Whether these bytes would be refused, 1 or 0: they are no packet, not one for this association, or one of more than 4 SACKs and COOKIE ECHOs.
#[unsafe(no_mangle)]
pub extern "C" fn pigeon_refuses(socket: &mut Handle, bytes: &[u8], refused: &mut u32) -> u32
    ensures answers { Answers (λ e n f. IsAmong (0 ∷ 2 ∷ []) n) socket.old.held result socket.new.held }
    ensures stays { Answers (λ e n f. f ≡ e) socket.old.held result socket.new.held }
    ensures judged { Answers (OnSocket (λ s n t. OnAnswer 0 n (Judges (word_by s.context.checksum) bytes.now s.context.options s.state (refused.new == 1)))) socket.old.held result socket.new.held }
    ensures failed { Answers (OnSocket (λ s n t. n ≡ 2 ↔ s.has_failed ≡ true)) socket.old.held result socket.new.held }
    ensures handle { socket.new ≡ socket.old }
{
    match socket.as_mut() {
        None => NO_SOCKET,
        Some(end) => calls::refuses(&end.socket, bytes, refused),
    }
}

/// Writes the options, with the size of messages last set.
#[unsafe(no_mangle)]
pub extern "C" fn pigeon_get_options_sized(socket: &mut Handle, options: &mut [u8]) -> u32
    ensures size { 176 < length options.old → (result ≡ 21) × (socket.new.held ≡ socket.old.held) }
    ensures call { length options.old ≤ 176 → Tells (λ s. ShowsOptions s.context options.old options.new) socket.old.held result socket.new.held }
    ensures handle { socket.new ≡ socket.old }
{
    if OPTIONS_SIZE < options.len() {
        return INVALID_SIZE;
    }
    match socket.as_mut() {
        None => NO_SOCKET,
        Some(end) => {
            calls::write_options(&end.socket, options);
            OK
        }
    }
}
