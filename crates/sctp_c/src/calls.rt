//! The calls that answer a number alone.

ghost use Rattle.std.specs.Prelude.{◌≡◌};
ghost use Rattle.sctp_c.specs.Calls.{Makes, end_of};
ghost use Rattle.sctp_c_records.specs.Checksum.{word_by};
ghost use Rattle.spec_endpoint.specs.Shutdown as closing;
ghost use Rattle.spec_endpoint.specs.Receiving.{Receives};
ghost use Rattle.spec_endpoint.specs.Input.{in_endpoint_state};
ghost use Rattle.spec_endpoint.specs.Opening as opening;
ghost use Rattle.spec_endpoint.specs.Timers as time;

use crate::handle::Handle;
use sctp_c_calls as calls;
use sctp_c_records::answers::NO_SOCKET;

/// Opens an association, where the socket is closed.
#[unsafe(no_mangle)]
pub extern "C" fn pigeon_connect(socket: &mut Handle) -> u32
    ensures { Makes (λ s f. f ≡ opening.connect (end_of s)) socket.old.held result socket.new.held }
{
    match socket.as_mut() {
        None => NO_SOCKET,
        Some(end) => calls::connect(&mut end.socket),
    }
}

/// Shuts the association down (RFC 9260 section 9.2).
#[unsafe(no_mangle)]
pub extern "C" fn pigeon_shutdown(socket: &mut Handle) -> u32
    ensures { Makes (λ s f. f ≡ in_endpoint_state closing.shutdown (end_of s)) socket.old.held result socket.new.held }
{
    match socket.as_mut() {
        None => NO_SOCKET,
        Some(end) => calls::shutdown(&mut end.socket),
    }
}

/// Ends the association at once, with an ABORT to the peer unless its INIT ACK is still waited for (RFC 9260 section 9.1).
#[unsafe(no_mangle)]
pub extern "C" fn pigeon_close(socket: &mut Handle) -> u32
    ensures { Makes (λ s f. f ≡ in_endpoint_state closing.close (end_of s)) socket.old.held result socket.new.held }
{
    match socket.as_mut() {
        None => NO_SOCKET,
        Some(end) => calls::close(&mut end.socket),
    }
}

/// Takes the bytes of a packet that came.
#[unsafe(no_mangle)]
pub extern "C" fn pigeon_handle_input(socket: &mut Handle, bytes: &[u8]) -> u32
    ensures { Makes (λ s f. Receives (word_by s.context.checksum) bytes.now (end_of s) f) socket.old.held result socket.new.held }
{
    match socket.as_mut() {
        None => NO_SOCKET,
        Some(end) => calls::handle_input(&mut end.socket, bytes),
    }
}

/// Advances the time, in nanoseconds since the socket was made.
#[unsafe(no_mangle)]
pub extern "C" fn pigeon_advance_time(socket: &mut Handle, nanos: u64) -> u32
    ensures { Makes (λ s f. f ≡ in_endpoint_state (time.advance nanos) (end_of s)) socket.old.held result socket.new.held }
{
    match socket.as_mut() {
        None => NO_SOCKET,
        Some(end) => calls::advance_time(&mut end.socket, nanos),
    }
}
