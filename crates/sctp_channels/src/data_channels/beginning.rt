//! A packet that may begin another association.

ghost use Rattle.std.specs.Prelude.{◌≡◌, [], OnOk};
ghost use Rattle.sctp_channels.specs.Steps.{Follows, StaysTold};

use crate::data_channels::{DataChannels, MANY};
use sctp_state::{CallError, DcSctpSocket, SocketEvent};

/// The type of a COOKIE ECHO, behind a packet's header of 12 bytes (RFC 9260 section 3.2).
const COOKIE_ECHO: u8 = 10;

/// Whether a packet begins with a COOKIE ECHO, as those do by which another association may begin.
pub(super) fn begins_with_cookie(bytes: &[u8]) -> bool {
    match bytes.get(12) {
        Some(chunk_type) => *chunk_type == COOKIE_ECHO,
        None => false,
    }
}

/// Whether an event says that streams are reset, by which channels close: messages that came before go first.
fn is_of_resets(event: &SocketEvent) -> bool {
    match event {
        SocketEvent::OnIncomingStreamReset(_)
        | SocketEvent::OnStreamsResetPerformed(_)
        | SocketEvent::OnStreamsResetFailed(_) => true,
        _ => false,
    }
}

impl DataChannels {
    /// The socket takes such a packet behind what it emitted before.
    #[inline(never)]
    pub(super) fn take_cookie<S: DcSctpSocket>(
        &mut self,
        socket: &mut S,
        bytes: &[u8],
    ) -> Result<(), CallError>
        ensures steps { OnOk result (Follows self.old self.new) }
        ensures done { OnOk result (self.new.channels.outputs ≡ []) }
        ensures told { StaysTold self.old self.new }
    {
        self.collect(socket)?;
        self.take_begun(socket, bytes)
    }

    /// Takes what the packet brings, its messages behind the events that say how the association stands.
    fn take_begun<S: DcSctpSocket>(&mut self, socket: &mut S, bytes: &[u8]) -> Result<(), CallError>
        ensures steps { OnOk result (Follows self.old self.new) }
        ensures done { OnOk result (self.new.channels.outputs ≡ []) }
        ensures told { StaysTold self.old self.new }
    {
        socket.handle_input(bytes)?;
        let first = self.take_turns(socket)?;
        self.take_ready(socket)?;
        match first {
            Some(event) => self.take_others(socket, event),
            None => self.take_rest(socket),
        }
    }

    /// Takes the first events, which say how the association stands, up to one of resets. The answer is that one.
    fn take_turns<S: DcSctpSocket>(
        &mut self,
        socket: &mut S,
    ) -> Result<Option<SocketEvent>, CallError>
        ensures steps { OnOk result (Follows self.old self.new) }
        ensures told { StaysTold self.old self.new }
    {
        for _ in 0..MANY {
            let Some(event) = socket.poll_event() else {
                return Ok(None);
            };
            if is_of_resets(&event) {
                return Ok(Some(event));
            }
            self.take_event(socket, event)?;
        }
        Ok(None)
    }
}
