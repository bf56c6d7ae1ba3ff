//! Settings of streams, and their reset.

ghost use Rattle.std.specs.Prelude.{◌≡◌, [], ◌∷◌, IfOk};
ghost use Rattle.sctp_association.specs.Socket.{Ends, endpoint};
ghost use Rattle.sctp_c_calls.specs.Answers.{Ended, OnSettled, ending_at, reset_number};
ghost use Rattle.sctp_c_records.specs.Answers.{IsAmong, OnAnswer};
ghost use Rattle.sctp_state.specs.Events.{numbers_of};
ghost use Rattle.spec_endpoint.specs.Association.{in_context};
ghost use Rattle.spec_endpoint.specs.Calls as calls;
ghost use Rattle.spec_endpoint.specs.Input.{in_endpoint_state};
ghost use Rattle.spec_endpoint.specs.StreamReset as resets;

use rand_core::Rng;
use sctp_association::{Checksum, DcSctpSocket, ResetStreamsError, Socket, StreamId};
use sctp_c_records::answers::{
    FAILED, MEMORY, NO_ASSOCIATION, NO_ROOM, NOT_SUPPORTED, OK, call_number,
};
use std::alloc::{AllocError, Global};

/// Sets the priority of a stream.
pub fn set_stream_priority<R: Rng, C: Checksum>(
    socket: &mut Socket<R, C>,
    id: u16,
    priority: u16,
) -> u32
    ensures answers { IsAmong (0 ∷ 1 ∷ 2 ∷ []) result }
    ensures ends { Ends (ending_at result) socket.old socket.new }
    ensures ok { OnAnswer 0 result (endpoint R.stream C.word_of socket.new ≡ in_endpoint_state (in_context (calls.set_priority id priority)) (endpoint R.stream C.word_of socket.old)) }
{
    call_number(socket.set_stream_priority(StreamId(id), priority))
}

/// Sets the amount in bytes at which a stream is low.
pub fn set_buffered_amount_low_threshold<R: Rng, C: Checksum>(
    socket: &mut Socket<R, C>,
    id: u16,
    bytes: usize,
) -> u32
    ensures answers { IsAmong (0 ∷ 1 ∷ 2 ∷ []) result }
    ensures ends { Ends (ending_at result) socket.old socket.new }
    ensures ok { OnAnswer 0 result (endpoint R.stream C.word_of socket.new ≡ in_endpoint_state (in_context (calls.set_low_threshold id bytes)) (endpoint R.stream C.word_of socket.old)) }
{
    call_number(socket.set_buffered_amount_low_threshold(StreamId(id), bytes))
}

/// Sets the most bytes of an own message.
pub fn set_max_message_size<R: Rng, C: Checksum>(socket: &mut Socket<R, C>, bytes: u32)
    ensures set { endpoint R.stream C.word_of socket.new ≡ in_endpoint_state (in_context (calls.set_max_message_size bytes)) (endpoint R.stream C.word_of socket.old) }
    ensures failure { socket.new.has_failed ≡ socket.old.has_failed }
{
    socket.set_max_message_size(bytes as usize);
}

/// Resets streams.
fn reset<R: Rng, C: Checksum>(socket: &mut Socket<R, C>, ids: &[StreamId]) -> u32
    ensures answers { IsAmong (0 ∷ 1 ∷ 2 ∷ 14 ∷ 15 ∷ []) result }
    ensures ends { Ends (ending_at result) socket.old socket.new }
    ensures answer { OnSettled result (result ≡ reset_number (resets.reset_refusal socket.old.state)) }
    ensures reset { OnSettled result (endpoint R.stream C.word_of socket.new ≡ in_endpoint_state (resets.reset_streams (numbers_of ids.now)) (endpoint R.stream C.word_of socket.old)) }
{
    match socket.reset_streams(ids) {
        Ok(()) => OK,
        Err(ResetStreamsError::NotConnected) => NO_ASSOCIATION,
        Err(ResetStreamsError::NotSupported) => NOT_SUPPORTED,
        Err(ResetStreamsError::Memory) => MEMORY,
        Err(ResetStreamsError::Failed) => FAILED,
    }
}

/// Resets a stream (RFC 6525).
pub fn reset_stream<R: Rng, C: Checksum>(socket: &mut Socket<R, C>, id: u16) -> u32
    ensures answers { IsAmong (0 ∷ 1 ∷ 2 ∷ 14 ∷ 15 ∷ []) result }
    ensures ends { Ends (ending_at result) socket.old socket.new }
    ensures answer { OnSettled result (result ≡ reset_number (resets.reset_refusal socket.old.state)) }
    ensures reset { OnSettled result (endpoint R.stream C.word_of socket.new ≡ in_endpoint_state (resets.reset_streams (id ∷ [])) (endpoint R.stream C.word_of socket.old)) }
{
    reset(socket, &[StreamId(id)])
}

fn ids_of(alloc: Global, numbers: &[u16]) -> Result<Vec<StreamId>, AllocError>
    ensures { IfOk result (λ ids. numbers_of ids.items ≡ numbers.now) }
{
    let mut ids = Vec::with_capacity(alloc, numbers.len())?;
    for number in numbers {
        ids.push(StreamId(*number))?;
    }
    Ok(ids)
}

/// Resets streams, with one request where they fit (RFC 6525). None only sends what may be sent.
pub fn reset_streams<R: Rng, C: Checksum>(
    alloc: Global,
    socket: &mut Socket<R, C>,
    numbers: &[u16],
) -> u32
    ensures answers { IsAmong (0 ∷ 1 ∷ 2 ∷ 14 ∷ 15 ∷ 17 ∷ []) result }
    ensures ends { Ended result socket.old socket.new }
    ensures answer { OnSettled result (result ≡ reset_number (resets.reset_refusal socket.old.state)) }
    ensures reset { OnSettled result (endpoint R.stream C.word_of socket.new ≡ in_endpoint_state (resets.reset_streams numbers.now) (endpoint R.stream C.word_of socket.old)) }
{
    let Ok(ids) = ids_of(alloc, numbers) else {
        return NO_ROOM;
    };
    reset(socket, &ids)
}
