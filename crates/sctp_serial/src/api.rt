//! What users of a socket name: moments, identifiers and messages.

ghost use Rattle.std.specs.Prelude.{◌≡◌, ℕ, ◌+◌, ◌-◌, ◌*◌, ◌<◌, ◌≤◌, ◌↔◌, min, Some, None, IsNone, IfSome};
ghost use Rattle.std.specs.Duration.{as_nanos};
ghost use Rattle.std.specs.Fmt.{decimal};
ghost use Rattle.sctp_serial.specs.Time.{forever, later};

pub mod laws;

use std::fmt;
use std::marker::Model;
use std::ops::{Add, Sub};
use std::time::Duration;

/// A moment, in nanoseconds since the socket was made. Sums stop at the infinite future, differences at zero.
#[derive(Clone, Copy, Debug, PartialEq, Eq, PartialOrd, Ord)]
pub struct SocketTime {
    nanos: u128,
}

impl Model for SocketTime {
    ghost Value = { ℕ };

    ghost view = { λ t. t.nanos };

    ghost invariant = { λ t. t.nanos ≤ forever };

    ghost inverse = { λ n. record { nanos = n } };
}

impl SocketTime {
    /// The moment at which the socket was made.
    pub fn zero() -> SocketTime
        ensures { result ≡ 0 }
    {
        SocketTime { nanos: 0 }
    }

    /// The last moment, as far from zero as the longest `Duration`: none comes after it.
    pub fn infinite_future() -> SocketTime
        ensures { result ≡ forever }
    {
        SocketTime {
            nanos: (1 << 64) * 1_000_000_000 - 1,
        }
    }

    /// The nanoseconds since zero.
    pub fn as_nanos(self) -> u128
        ensures value { result ≡ self }
        ensures small { result ≤ forever }
    {
        self.nanos
    }
}

impl Add<Duration> for SocketTime {
    type Output = SocketTime;

    ghost add_gives = { λ moment span sum. sum ≡ later moment (as_nanos span) };

    fn add(self, other: Duration) -> SocketTime {
        let sum = self.nanos + other.as_nanos();
        SocketTime {
            nanos: sum.min((1 << 64) * 1_000_000_000 - 1),
        }
    }
}

impl Sub<Duration> for SocketTime {
    type Output = SocketTime;

    ghost sub_gives = { λ moment span difference. difference ≡ moment - as_nanos span };

    fn sub(self, other: Duration) -> SocketTime {
        SocketTime {
            nanos: self.nanos.saturating_sub(other.as_nanos()),
        }
    }
}

impl Sub<SocketTime> for SocketTime {
    type Output = Duration;

    ghost sub_gives = { λ moment earlier span. as_nanos span ≡ moment - earlier };

    fn sub(self, other: SocketTime) -> Duration {
        Duration::from_nanos_u128(self.nanos.saturating_sub(other.nanos))
    }
}

/// A number, not 0, by which a user follows a message in the socket's lifecycle events.
#[derive(Clone, Copy, PartialEq, Eq, Hash, PartialOrd, Ord)]
pub struct LifecycleId {
    value: u64,
}

impl Model for LifecycleId {
    ghost Value = { ℕ };

    ghost view = { λ id. id.value };

    ghost invariant = { λ id. 0 < id.value };

    ghost inverse = { λ n. record { value = n } };
}

impl LifecycleId {
    /// `None` for 0.
    pub fn new(n: u64) -> Option<LifecycleId>
        ensures none { IsNone result ↔ (n ≡ 0) }
        ensures some { IfSome result (λ id. id ≡ n) }
    {
        if n == 0 {
            None
        } else {
            Some(LifecycleId { value: n })
        }
    }

    /// The identifier of this number, which is above 0.
    pub fn from(n: u64) -> LifecycleId
        requires { 0 < n }
        ensures { result ≡ n }
    {
        LifecycleId { value: n }
    }

    /// Its number, above 0.
    pub fn value(&self) -> u64
        ensures value { result ≡ self.now }
        ensures not_zero { 0 < result }
    {
        self.value
    }
}

impl fmt::Display for LifecycleId {
    ghost output = { λ id. Some (decimal id) };

    fn fmt<W: fmt::Write>(&self, f: &mut fmt::Formatter<W>) -> fmt::Result {
        fmt::Display::fmt(&self.value, f)
    }
}

impl fmt::Debug for LifecycleId {
    ghost debug_output = { λ id. Some (decimal id) };

    fn fmt<W: fmt::Write>(&self, f: &mut fmt::Formatter<W>) -> fmt::Result {
        fmt::Display::fmt(self, f)
    }
}

/// A stream of an association (RFC 9260 section 2.3).
#[derive(Clone, Copy, PartialEq, Eq, Hash, PartialOrd, Ord)]
pub struct StreamId(pub u16);

impl fmt::Display for StreamId {
    ghost output = { λ id. Some (decimal id.0) };

    fn fmt<W: fmt::Write>(&self, f: &mut fmt::Formatter<W>) -> fmt::Result {
        fmt::Display::fmt(&self.0, f)
    }
}

impl fmt::Debug for StreamId {
    ghost debug_output = { λ id. Some (decimal id.0) };

    fn fmt<W: fmt::Write>(&self, f: &mut fmt::Formatter<W>) -> fmt::Result {
        fmt::Display::fmt(self, f)
    }
}

/// A payload protocol identifier, which the endpoint hands on unread (RFC 9260 section 3.3.1).
#[derive(Clone, Copy, PartialEq, Eq, Hash)]
pub struct PpId(pub u32);

impl fmt::Display for PpId {
    ghost output = { λ id. Some (decimal id.0) };

    fn fmt<W: fmt::Write>(&self, f: &mut fmt::Formatter<W>) -> fmt::Result {
        fmt::Display::fmt(&self.0, f)
    }
}

impl fmt::Debug for PpId {
    ghost debug_output = { λ id. Some (decimal id.0) };

    fn fmt<W: fmt::Write>(&self, f: &mut fmt::Formatter<W>) -> fmt::Result {
        fmt::Display::fmt(self, f)
    }
}

/// A message of the protocol above, whole.
#[derive(Debug, Drop)]
pub struct Message {
    pub stream_id: StreamId,
    pub ppid: PpId,
    pub payload: Vec<u8>,
}

impl Message {
    /// A message of this stream, payload protocol identifier and payload.
    pub fn new(stream_id: StreamId, ppid: PpId, payload: Vec<u8>) -> Message
        ensures stream { result.stream_id ≡ stream_id }
        ensures ppid { result.ppid ≡ ppid }
        ensures payload { result.payload ≡ payload }
    {
        Message {
            stream_id,
            ppid,
            payload,
        }
    }
}

/// How a layer below finds damage in packets whose checksum is left zero (RFC 9653 section 4).
#[derive(Clone, Copy, Debug, PartialEq, Eq, Default)]
pub struct ZeroChecksumAlternateErrorDetectionMethod(pub u32);

/// No method: each packet has its checksum.
pub const ZERO_CHECKSUM_ALTERNATE_ERROR_DETECTION_METHOD_NONE: ZeroChecksumAlternateErrorDetectionMethod =
    ZeroChecksumAlternateErrorDetectionMethod(0);

/// DTLS below finds damage.
pub const ZERO_CHECKSUM_ALTERNATE_ERROR_DETECTION_METHOD_LOWER_LAYER_DTLS: ZeroChecksumAlternateErrorDetectionMethod =
    ZeroChecksumAlternateErrorDetectionMethod(1);
