//! Channels are switched on.

ghost use Rattle.std.specs.Prelude.{◌≡◌, ◌<◌, ◌↔◌, [], ◌∷◌, None, Some, IsTrue, is_some, true};
ghost use Rattle.sctp_c_records.specs.Answers.{IsAmong, OnAnswer, OnOthers};
ghost use Rattle.sctp_c_channels.specs.Records.{IsStarted, start_in};

use sctp_c_records::answers::{HAS_CHANNELS, OK};
use sctp_c_records::u32_or;
use sctp_channels::DataChannels;
use sctp_state::DcSctpSocket;
use std::alloc::Global;

/// The bytes of `pigeon_channels_options`.
pub const START_SIZE: usize = 32;

/// With what channels are switched on; in C `pigeon_channels_options`. Sizes in bytes.
#[derive(Clone, Copy)]
pub struct StartRecord {
    pub role: u32,
    pub max_message_size: u32,
    pub peer_max_message_size: u32,
    pub max_buffered_amount: u32,
    pub max_kept_bytes: u32,
}

impl StartRecord {
    /// The struct of C, with the defaults of what stands behind its end.
    pub fn in_bytes(bytes: &[u8]) -> StartRecord
        ensures { result ≡ start_in bytes.now }
    {
        StartRecord {
            role: u32_or(bytes, 8, 0),
            max_message_size: u32_or(bytes, 12, 262_144),
            peer_max_message_size: u32_or(bytes, 16, 65_536),
            max_buffered_amount: u32_or(bytes, 20, 16_777_216),
            max_kept_bytes: u32_or(bytes, 24, 16_777_216),
        }
    }

    /// Whether the role is one that there is.
    pub fn is_known(&self) -> bool
        ensures { IsTrue result ↔ self.now.role < 2 }
    {
        self.role < 2
    }
}

/// No channels yet, on the streams that the socket announces in both directions.
fn none_yet<S: DcSctpSocket>(alloc: Global, socket: &S, record: &StartRecord) -> DataChannels
    ensures { IsStarted record.now (Some result) }
{
    let options = socket.options();
    let incoming = options.announced_maximum_incoming_streams;
    let outgoing = options.announced_maximum_outgoing_streams;
    drop(options);
    DataChannels::new(
        alloc,
        record.role == 0,
        incoming.min(outgoing),
        record.max_message_size as usize,
        record.peer_max_message_size as usize,
        record.max_buffered_amount as usize,
        record.max_kept_bytes as usize,
    )
}

/// Switches channels on, where there are none.
pub fn start<S: DcSctpSocket>(
    alloc: Global,
    socket: &S,
    channels: &mut Option<DataChannels>,
    record: &StartRecord,
) -> u32
    ensures answers { IsAmong (0 ∷ 24 ∷ []) result }
    ensures started { OnAnswer 0 result (IsStarted record.now channels.new) }
    ensures none { OnAnswer 0 result (channels.old ≡ None) }
    ensures has { OnAnswer 24 result (is_some channels.old ≡ true) }
    ensures stays { OnOthers 0 result (channels.new ≡ channels.old) }
{
    if channels.is_some() {
        return HAS_CHANNELS;
    }
    *channels = Some(none_yet(alloc, socket, record));
    OK
}
