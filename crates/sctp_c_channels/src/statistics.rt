//! What a channel counts, and its texts.

ghost use Rattle.std.specs.Prelude.{◌≡◌};
ghost use Rattle.sctp_c_channels.specs.Answers.{OfChannelAt};
ghost use Rattle.sctp_c_channels.specs.Records.{CopiesText, statistics_bytes};

use sctp_c_records::answers::{NO_CHANNEL, NO_CHANNELS, OK, SHORT_BUFFER};
use sctp_c_records::{put_bytes, put_u64};
use sctp_channels::{DataChannels, Statistics};
use sctp_serial::StreamId;

/// The bytes of `pigeon_channel_statistics`.
pub const STATISTICS_SIZE: usize = 40;

fn write(statistics: Statistics, bytes: &mut [u8])
    ensures { bytes.new ≡ statistics_bytes statistics bytes.old }
{
    put_u64(bytes, 8, statistics.messages_sent);
    put_u64(bytes, 16, statistics.bytes_sent);
    put_u64(bytes, 24, statistics.messages_received);
    put_u64(bytes, 32, statistics.bytes_received);
}

/// Writes what a channel has counted.
pub fn write_statistics(channels: &Option<DataChannels>, id: u16, bytes: &mut [u8]) -> u32
    ensures written { OfChannelAt id (λ c. (result ≡ 0) × (bytes.new ≡ statistics_bytes c.statistics bytes.old)) channels.now result }
{
    let Some(channels) = channels else {
        return NO_CHANNELS;
    };
    let Some(channel) = channels.get(StreamId(id)) else {
        return NO_CHANNEL;
    };
    write(channel.statistics(), bytes);
    OK
}

/// Copies a text where it fits, and hands out its length.
fn copy(text: &[u8], needed: &mut usize, buffer: &mut [u8]) -> u32
    ensures { CopiesText text.now needed.new buffer.old buffer.new result }
{
    *needed = text.len();
    if put_bytes(text, buffer) {
        OK
    } else {
        SHORT_BUFFER
    }
}

/// Copies the label of a channel.
pub fn copy_label(
    channels: &Option<DataChannels>,
    id: u16,
    needed: &mut usize,
    buffer: &mut [u8],
) -> u32
    ensures { OfChannelAt id (λ c. CopiesText c.description.label needed.new buffer.old buffer.new result) channels.now result }
{
    let Some(channels) = channels else {
        return NO_CHANNELS;
    };
    let Some(channel) = channels.get(StreamId(id)) else {
        return NO_CHANNEL;
    };
    copy(channel.description().label.as_bytes(), needed, buffer)
}

/// Copies the protocol of a channel.
pub fn copy_protocol(
    channels: &Option<DataChannels>,
    id: u16,
    needed: &mut usize,
    buffer: &mut [u8],
) -> u32
    ensures { OfChannelAt id (λ c. CopiesText c.description.protocol needed.new buffer.old buffer.new result) channels.now result }
{
    let Some(channels) = channels else {
        return NO_CHANNELS;
    };
    let Some(channel) = channels.get(StreamId(id)) else {
        return NO_CHANNEL;
    };
    copy(channel.description().protocol.as_bytes(), needed, buffer)
}
