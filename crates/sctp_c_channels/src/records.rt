//! How a channel is opened, as C has it.

ghost use Rattle.std.specs.Prelude.{◌≡◌, ◌<◌, ◌↔◌, ◌^◌, IsTrue, IfOk};
ghost use Rattle.sctp_channels.specs.Views.{open_of};
ghost use Rattle.sctp_c_channels.specs.Records.{IsKnown, channel_bytes, channel_in, given_open, given_reliability, shown_channel};

use sctp_c_records::{put_u32, u32_or};
use sctp_channels::{DataChannelOpen, Reliability};
use std::alloc::{AllocError, Global};

/// The bytes of `pigeon_channel_options`.
pub const CHANNEL_SIZE: usize = 24;

/// What a channel is beside its texts; in C `pigeon_channel_options`. The lifetime is in milliseconds.
#[derive(Clone, Copy)]
pub struct ChannelRecord {
    pub flags: u32,
    pub max_retransmissions: u32,
    pub lifetime: u32,
    pub priority: u32,
}

/// What a channel is to be, with its texts.
#[derive(Clone, Copy)]
pub struct GivenChannel<'a> {
    pub record: ChannelRecord,
    pub label: &'a [u8],
    pub protocol: &'a [u8],
}

/// Why no description of a channel is made.
#[derive(Clone, Copy)]
pub(crate) enum DescriptionFault {
    /// A text is not UTF-8.
    NotUtf8,
    /// There is no memory for the texts.
    Memory,
}

impl From<AllocError> for DescriptionFault {
    fn from(_e: AllocError) -> DescriptionFault {
        DescriptionFault::Memory
    }
}

impl ChannelRecord {
    /// The struct of C: where it ends before, an ordered and reliable channel of normal priority.
    pub fn in_bytes(bytes: &[u8]) -> ChannelRecord
        ensures { result ≡ channel_in bytes.now }
    {
        ChannelRecord {
            flags: u32_or(bytes, 8, 0),
            max_retransmissions: u32_or(bytes, 12, 0),
            lifetime: u32_or(bytes, 16, 0),
            priority: u32_or(bytes, 20, 256),
        }
    }

    /// Whether the flags are ones that there are, with one kind of partial reliability at most, and the priority has 16 bits.
    pub fn is_known(&self) -> bool
        ensures { IsTrue result ↔ IsKnown self.now }
    {
        self.flags < 6 && self.priority < 65_536
    }

    fn reliability(&self) -> Reliability
        ensures { result ≡ given_reliability self.now }
    {
        if self.flags / 2 == 0 {
            Reliability::Reliable
        } else if self.flags / 2 == 1 {
            Reliability::MaxLifetime(self.lifetime)
        } else {
            Reliability::MaxRetransmissions(self.max_retransmissions)
        }
    }

    /// What a channel was opened as.
    pub(crate) fn of(description: &DataChannelOpen) -> ChannelRecord
        ensures { result ≡ shown_channel (open_of description.now) }
    {
        let unordered = if description.unordered { 1 } else { 0 };
        let (kind, max_retransmissions, lifetime) = match description.reliability {
            Reliability::Reliable => (0, 0, 0),
            Reliability::MaxLifetime(milliseconds) => (2, 0, milliseconds),
            Reliability::MaxRetransmissions(count) => (4, count, 0),
        };
        ChannelRecord {
            flags: unordered + kind,
            max_retransmissions,
            lifetime,
            priority: description.priority as u32,
        }
    }

    /// Writes the struct of C, as far as there is a place behind its size.
    pub(crate) fn write(&self, bytes: &mut [u8])
        ensures { bytes.new ≡ channel_bytes self.now bytes.old }
    {
        put_u32(bytes, 8, self.flags);
        put_u32(bytes, 12, self.max_retransmissions);
        put_u32(bytes, 16, self.lifetime);
        put_u32(bytes, 20, self.priority);
    }
}

impl GivenChannel<'_> {
    /// The description of the channel, where its texts are UTF-8.
    pub(crate) fn description(&self, alloc: Global) -> Result<DataChannelOpen, DescriptionFault>
        requires { self.now.record.priority < 2 ^ 16 }
        ensures ok { IfOk result (λ it. open_of it ≡ given_open self.now.record self.now.label.now self.now.protocol.now) }
    {
        let Ok(label) = str::from_utf8(self.label) else {
            return Err(DescriptionFault::NotUtf8);
        };
        let Ok(protocol) = str::from_utf8(self.protocol) else {
            return Err(DescriptionFault::NotUtf8);
        };
        Ok(DataChannelOpen {
            unordered: self.record.flags % 2 == 1,
            reliability: self.record.reliability(),
            priority: self.record.priority as u16,
            label: String::from_str(alloc, label)?,
            protocol: String::from_str(alloc, protocol)?,
        })
    }
}
