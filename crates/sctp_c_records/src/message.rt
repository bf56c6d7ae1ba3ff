//! A message as C has it, and how it is sent.

ghost use Rattle.std.specs.Prelude.{◌≡◌, ◌<◌, ◌↔◌, ◌^◌, IsTrue};
ghost use Rattle.sctp_state.specs.Options.{send_options_of};
ghost use Rattle.sctp_c_records.specs.Records.{IsKnown, given_send_options, send_in};

use crate::layout::{u32_or, u64_or};
use crate::options::has_flag;
use sctp_serial::LifecycleId;
use sctp_state::SendOptions;
use std::time::Duration;

/// The bytes of `pigeon_send_options`.
pub const SEND_SIZE: usize = 32;

/// What a message is beside its bytes; in C `pigeon_message`.
#[repr(C)]
#[derive(Clone, Copy)]
pub struct MessageRecord {
    pub stream: u32,
    pub ppid: u32,
    pub length: usize,
}

/// A message to be sent; in C `pigeon_outgoing`, whose payload is a pointer and a length.
#[repr(C)]
#[derive(Clone, Copy)]
pub struct OutgoingRecord<'a> {
    pub stream: u32,
    pub ppid: u32,
    pub payload: &'a [u8],
}

/// How a message is sent; in C `pigeon_send_options`. All zero is an ordered, reliable message.
#[derive(Clone, Copy)]
pub struct SendRecord {
    pub flags: u32,
    pub max_retransmissions: u32,
    pub lifetime: u64,
    pub lifecycle: u64,
}

impl SendRecord {
    /// The struct of C: a field that stands behind its end is zero.
    pub fn in_bytes(bytes: &[u8]) -> SendRecord
        ensures { result ≡ send_in bytes.now }
    {
        SendRecord {
            flags: u32_or(bytes, 8, 0),
            max_retransmissions: u32_or(bytes, 12, 0),
            lifetime: u64_or(bytes, 16, 0),
            lifecycle: u64_or(bytes, 24, 0),
        }
    }

    /// Whether the flags are ones that there are, and the count is one of 16 bits.
    pub fn is_known(&self) -> bool
        ensures { IsTrue result ↔ IsKnown self.now }
    {
        self.flags < 8 && self.max_retransmissions < 65_536
    }

    /// The options of `send`.
    pub fn options(&self) -> SendOptions
        requires { self.now.max_retransmissions < 2 ^ 16 }
        ensures { send_options_of result ≡ given_send_options self.now }
    {
        SendOptions {
            unordered: has_flag(self.flags, 1),
            lifetime: if has_flag(self.flags, 2) {
                Some(Duration::from_nanos(self.lifetime))
            } else {
                None
            },
            max_retransmissions: if has_flag(self.flags, 4) {
                Some(self.max_retransmissions as u16)
            } else {
                None
            },
            lifecycle_id: LifecycleId::new(self.lifecycle),
        }
    }
}
