//! A socket as C holds it.

use sctp_association::{Socket, SocketEvent, SocketHandoverState};
use sctp_c_records::{PacketChecksum, SeededWords};
use sctp_channels::DataChannels;

/// A socket, the event and the record that were taken from it and didn't fit yet, the bytes that are lent, and its data channels, where it has any.
#[derive(Drop)]
pub struct Endpoint {
    pub(crate) socket: Socket<SeededWords, PacketChecksum>,
    pub(crate) event: Option<SocketEvent>,
    pub(crate) handed_over: Option<SocketHandoverState>,
    pub(crate) lent: Vec<u8>,
    pub(crate) channels: Option<DataChannels>,
}
