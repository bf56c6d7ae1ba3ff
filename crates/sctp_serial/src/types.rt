//! Numbers and names that stand in chunks, and those that only the sender uses.

ghost use Rattle.std.specs.Prelude.{◌≡◌, ◌+◌, ◌%◌, ◌^◌, ◌↔◌, IsTrue, Some, if◌then◌else◌};
ghost use Rattle.std.specs.Fmt.{decimal};
ghost use Rattle.sctp_serial.specs.Keys.{stream_of};

mod fsn;
pub mod laws;
mod mid;
mod serial_number;
mod ssn;
mod tsn;

use crate::StreamId;
pub use fsn::Fsn;
pub use mid::Mid;
pub use serial_number::SerialNumber;
pub use ssn::Ssn;
use std::fmt;
use std::ops::AddAssign;
pub use tsn::Tsn;

/// The number of a message that a sender accepted: its place in the order of acceptance.
#[derive(Clone, Copy, PartialEq, Eq)]
pub struct OutgoingMessageId(pub u32);

impl AddAssign<u32> for OutgoingMessageId {
    ghost add_assign_gives = { λ a n b. b.0 ≡ (a.0 + n) % 2 ^ 32 };

    fn add_assign(&mut self, other: u32) {
        self.0 = self.0.wrapping_add(other);
    }
}

impl fmt::Display for OutgoingMessageId {
    ghost output = { λ id. Some (decimal id.0) };

    fn fmt<W: fmt::Write>(&self, f: &mut fmt::Formatter<W>) -> fmt::Result {
        fmt::Display::fmt(&self.0, f)
    }
}

impl fmt::Debug for OutgoingMessageId {
    ghost debug_output = { λ id. Some (decimal id.0) };

    fn fmt<W: fmt::Write>(&self, f: &mut fmt::Formatter<W>) -> fmt::Result {
        fmt::Display::fmt(self, f)
    }
}

/// A stream, and whether its ordered or its unordered messages are meant: each has numbers of its own (RFC 8260
/// section 2.1).
#[derive(Clone, Copy, PartialEq, Eq)]
pub enum StreamKey {
    Ordered(StreamId),
    Unordered(StreamId),
}

impl StreamKey {
    /// The key of this stream, for messages without or with an order.
    pub fn new(is_unordered: bool, id: StreamId) -> StreamKey
        ensures { result ≡ (if is_unordered then StreamKey.Unordered id else StreamKey.Ordered id) }
    {
        if is_unordered {
            StreamKey::Unordered(id)
        } else {
            StreamKey::Ordered(id)
        }
    }

    /// The stream.
    pub fn id(&self) -> StreamId
        ensures { result ≡ stream_of self.now }
    {
        match self {
            StreamKey::Ordered(id) => *id,
            StreamKey::Unordered(id) => *id,
        }
    }

    /// Whether its messages are handed out in their order.
    pub fn is_ordered(&self) -> bool
        ensures { IsTrue result ↔ (self.now ≡ StreamKey.Ordered (stream_of self.now)) }
    {
        matches!(self, StreamKey::Ordered(_))
    }

    /// Whether its messages are handed out as they become complete.
    pub fn is_unordered(&self) -> bool
        ensures { IsTrue result ↔ (self.now ≡ StreamKey.Unordered (stream_of self.now)) }
    {
        matches!(self, StreamKey::Unordered(_))
    }
}

impl fmt::Display for StreamKey {
    ghost output = { λ key. Some (decimal (stream_of key).0) };

    fn fmt<W: fmt::Write>(&self, f: &mut fmt::Formatter<W>) -> fmt::Result {
        fmt::Display::fmt(&self.id().0, f)
    }
}

impl fmt::Debug for StreamKey {
    ghost debug_output = { λ key. Some (decimal (stream_of key).0) };

    fn fmt<W: fmt::Write>(&self, f: &mut fmt::Formatter<W>) -> fmt::Result {
        fmt::Display::fmt(self, f)
    }
}
