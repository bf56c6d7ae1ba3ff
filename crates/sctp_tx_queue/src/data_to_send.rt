//! What the send queue hands out.

use sctp_chunk::Data;
use sctp_serial::{LifecycleId, OutgoingMessageId, SocketTime};

/// A fragment that is to be sent, with what its message was accepted with.
#[derive(Debug, Drop)]
pub struct DataToSend {
    /// The message's place in the order of acceptance.
    pub message_id: OutgoingMessageId,
    pub data: Data,
    /// How often the fragment may be sent again.
    pub max_retransmissions: u16,
    /// The moment from which the message isn't worth sending.
    pub expires_at: Option<SocketTime>,
    /// With the end of the message alone.
    pub lifecycle_id: Option<LifecycleId>,
}
