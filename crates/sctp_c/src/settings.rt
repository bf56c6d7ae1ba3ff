//! Settings of streams, and their reset.

ghost use Rattle.std.specs.Prelude.{◌≡◌, ◌∷◌, [], ◌<◌, ◌≤◌};
ghost use Rattle.sctp_association.specs.Socket.{Ends};
ghost use Rattle.sctp_c.specs.Calls.{Answers, Makes, OnSocket, end_of};
ghost use Rattle.sctp_c_calls.specs.Answers.{Ended, OnSettled, ending_at, reset_number};
ghost use Rattle.sctp_c_records.specs.Answers.{IsAmong};
ghost use Rattle.spec_endpoint.specs.Association.{in_context};
ghost use Rattle.spec_endpoint.specs.Calls as table;
ghost use Rattle.spec_endpoint.specs.Input.{in_endpoint_state};
ghost use Rattle.spec_endpoint.specs.StreamReset as resets;

use crate::handle::Handle;
use crate::stream::stream_of;
use sctp_c_calls as calls;
use sctp_c_records::answers::{INVALID_STREAM, NO_SOCKET, OK};
use std::alloc::Global;

/// Sets the priority of a stream.
#[unsafe(no_mangle)]
pub extern "C" fn pigeon_set_stream_priority(socket: &mut Handle, stream: u32, priority: u16) -> u32
    ensures stream { 65535 < stream → (result ≡ 6) × (socket.new.held ≡ socket.old.held) }
    ensures call { stream ≤ 65535 → Makes (λ s f. f ≡ in_endpoint_state (in_context (table.set_priority stream priority)) (end_of s)) socket.old.held result socket.new.held }
{
    let Some(stream) = stream_of(stream) else {
        return INVALID_STREAM;
    };
    match socket.as_mut() {
        None => NO_SOCKET,
        Some(end) => calls::set_stream_priority(&mut end.socket, stream, priority),
    }
}

/// Sets the amount in bytes at which a stream is low.
#[unsafe(no_mangle)]
pub extern "C" fn pigeon_set_buffered_amount_low_threshold(
    socket: &mut Handle,
    stream: u32,
    bytes: usize,
) -> u32
    ensures stream { 65535 < stream → (result ≡ 6) × (socket.new.held ≡ socket.old.held) }
    ensures call { stream ≤ 65535 → Makes (λ s f. f ≡ in_endpoint_state (in_context (table.set_low_threshold stream bytes)) (end_of s)) socket.old.held result socket.new.held }
{
    let Some(stream) = stream_of(stream) else {
        return INVALID_STREAM;
    };
    match socket.as_mut() {
        None => NO_SOCKET,
        Some(end) => calls::set_buffered_amount_low_threshold(&mut end.socket, stream, bytes),
    }
}

/// Sets the most bytes of an own message.
#[unsafe(no_mangle)]
pub extern "C" fn pigeon_set_max_message_size(socket: &mut Handle, bytes: u32) -> u32
    ensures answers { Answers (λ e n f. n ≡ 0) socket.old.held result socket.new.held }
    ensures failure { Answers (OnSocket (λ s n t. t.has_failed ≡ s.has_failed)) socket.old.held result socket.new.held }
    ensures set { Answers (OnSocket (λ s n t. end_of t ≡ in_endpoint_state (in_context (table.set_max_message_size bytes)) (end_of s))) socket.old.held result socket.new.held }
{
    match socket.as_mut() {
        None => NO_SOCKET,
        Some(end) => {
            calls::set_max_message_size(&mut end.socket, bytes);
            OK
        }
    }
}

/// Resets a stream (RFC 6525).
#[unsafe(no_mangle)]
pub extern "C" fn pigeon_reset_stream(socket: &mut Handle, stream: u32) -> u32
    ensures stream { 65535 < stream → (result ≡ 6) × (socket.new.held ≡ socket.old.held) }
    ensures call { stream ≤ 65535 → Answers (OnSocket (λ s n t. IsAmong (0 ∷ 1 ∷ 2 ∷ 14 ∷ 15 ∷ []) n × (Ends (ending_at n) s t
        × (OnSettled n (n ≡ reset_number (resets.reset_refusal s.state))
        × OnSettled n (end_of t ≡ in_endpoint_state (resets.reset_streams (stream ∷ [])) (end_of s)))))) socket.old.held result socket.new.held }
{
    let Some(stream) = stream_of(stream) else {
        return INVALID_STREAM;
    };
    match socket.as_mut() {
        None => NO_SOCKET,
        Some(end) => calls::reset_stream(&mut end.socket, stream),
    }
}

/// Resets streams (RFC 6525).
#[unsafe(no_mangle)]
pub extern "C" fn pigeon_reset_streams(alloc: Global, socket: &mut Handle, streams: &[u16]) -> u32
    ensures answers { Answers (λ e n f. IsAmong (0 ∷ 1 ∷ 2 ∷ 14 ∷ 15 ∷ 17 ∷ []) n) socket.old.held result socket.new.held }
    ensures ends { Answers (OnSocket (λ s n t. Ended n s t)) socket.old.held result socket.new.held }
    ensures answer { Answers (OnSocket (λ s n t. OnSettled n (n ≡ reset_number (resets.reset_refusal s.state)))) socket.old.held result socket.new.held }
    ensures reset { Answers (OnSocket (λ s n t. OnSettled n (end_of t ≡ in_endpoint_state (resets.reset_streams streams.now) (end_of s)))) socket.old.held result socket.new.held }
{
    match socket.as_mut() {
        None => NO_SOCKET,
        Some(end) => calls::reset_streams(alloc, &mut end.socket, streams),
    }
}
