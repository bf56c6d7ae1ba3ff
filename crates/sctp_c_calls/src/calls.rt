//! The calls that answer a number alone.

ghost use Rattle.std.specs.Prelude.{◌≡◌, [], ◌∷◌};
ghost use Rattle.sctp_association.specs.Socket.{Ends, endpoint};
ghost use Rattle.sctp_c_calls.specs.Answers.{ending_at};
ghost use Rattle.sctp_c_records.specs.Answers.{IsAmong, OnAnswer};
ghost use Rattle.spec_endpoint.specs.Shutdown as closing;
ghost use Rattle.spec_endpoint.specs.Receiving.{Receives};
ghost use Rattle.spec_endpoint.specs.Input.{in_endpoint_state};
ghost use Rattle.spec_endpoint.specs.Opening as opening;
ghost use Rattle.spec_endpoint.specs.Timers as time;

use rand_core::Rng;
use sctp_association::{Checksum, DcSctpSocket, Socket, SocketTime};
use sctp_c_records::answers::call_number;
use std::time::Duration;

/// Opens an association, where the socket is closed.
pub fn connect<R: Rng, C: Checksum>(socket: &mut Socket<R, C>) -> u32
    ensures answers { IsAmong (0 ∷ 1 ∷ 2 ∷ []) result }
    ensures ends { Ends (ending_at result) socket.old socket.new }
    ensures ok { OnAnswer 0 result (endpoint R.stream C.word_of socket.new ≡ opening.connect (endpoint R.stream C.word_of socket.old)) }
{
    call_number(socket.connect())
}

/// Shuts the association down (RFC 9260 section 9.2).
pub fn shutdown<R: Rng, C: Checksum>(socket: &mut Socket<R, C>) -> u32
    ensures answers { IsAmong (0 ∷ 1 ∷ 2 ∷ []) result }
    ensures ends { Ends (ending_at result) socket.old socket.new }
    ensures ok { OnAnswer 0 result (endpoint R.stream C.word_of socket.new ≡ in_endpoint_state closing.shutdown (endpoint R.stream C.word_of socket.old)) }
{
    call_number(socket.shutdown())
}

/// Ends the association at once, with an ABORT to the peer unless its INIT ACK is still waited for (RFC 9260 section 9.1).
pub fn close<R: Rng, C: Checksum>(socket: &mut Socket<R, C>) -> u32
    ensures answers { IsAmong (0 ∷ 1 ∷ 2 ∷ []) result }
    ensures ends { Ends (ending_at result) socket.old socket.new }
    ensures ok { OnAnswer 0 result (endpoint R.stream C.word_of socket.new ≡ in_endpoint_state closing.close (endpoint R.stream C.word_of socket.old)) }
{
    call_number(socket.close())
}

/// Takes the bytes of a packet that came.
pub fn handle_input<R: Rng, C: Checksum>(socket: &mut Socket<R, C>, bytes: &[u8]) -> u32
    ensures answers { IsAmong (0 ∷ 1 ∷ 2 ∷ []) result }
    ensures ends { Ends (ending_at result) socket.old socket.new }
    ensures ok { OnAnswer 0 result (Receives (C.word_of socket.old.context.checksum) bytes.now (endpoint R.stream C.word_of socket.old) (endpoint R.stream C.word_of socket.new)) }
{
    call_number(socket.handle_input(bytes))
}

/// Advances the time, in nanoseconds since the socket was made.
pub fn advance_time<R: Rng, C: Checksum>(socket: &mut Socket<R, C>, nanos: u64) -> u32
    ensures answers { IsAmong (0 ∷ 1 ∷ 2 ∷ []) result }
    ensures ends { Ends (ending_at result) socket.old socket.new }
    ensures ok { OnAnswer 0 result (endpoint R.stream C.word_of socket.new ≡ in_endpoint_state (time.advance nanos) (endpoint R.stream C.word_of socket.old)) }
{
    call_number(socket.advance_time(moment(nanos)))
}

/// The moment so many nanoseconds after the socket was made.
fn moment(nanos: u64) -> SocketTime
    ensures { result ≡ nanos }
{
    SocketTime::zero() + Duration::from_nanos(nanos)
}
