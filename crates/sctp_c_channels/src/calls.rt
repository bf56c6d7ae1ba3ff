//! Channels are opened, and looked at.

ghost use Rattle.std.specs.Prelude.{◌≡◌, ◌<◌, ◌^◌, [], ◌∷◌};
ghost use Rattle.sctp_channels.specs.Views.{open_of};
ghost use Rattle.sctp_c_channels.specs.Answers.{Negotiated, OfChannelAt, OnChannels, Opened};
ghost use Rattle.sctp_c_records.specs.Answers.{IsAmong, OnAnswer, OnOthers};
ghost use Rattle.sctp_c_channels.specs.Records.{channel_bytes, given_open, shown_channel, shown_state, state_number};

use crate::records::{ChannelRecord, DescriptionFault, GivenChannel};
use sctp_c_records::answers::{
    MEMORY, NO_CHANNEL, NO_CHANNELS, NO_FREE_STREAM, NO_ROOM, NOT_TAKEN, NOT_UTF8, OK,
    STREAM_IN_USE, TEXT_TOO_LONG,
};
use sctp_channels::{ChannelState, DataChannelOpen, DataChannels, OpenError};
use sctp_serial::StreamId;
use sctp_state::DcSctpSocket;
use std::alloc::Global;

fn open_on<S: DcSctpSocket>(
    socket: &mut S,
    channels: &mut DataChannels,
    description: DataChannelOpen,
    channel: &mut u32,
) -> u32
    ensures answers { IsAmong (0 ∷ 1 ∷ 27 ∷ 28 ∷ 29 ∷ 31 ∷ []) result }
    ensures opened { OnAnswer 0 result (Opened channel.new (open_of description) channels.old channels.new) }
    ensures others { OnOthers 0 result (channels.new ≡ channels.old) }
{
    match channels.open(socket, description) {
        Ok(id) => {
            *channel = id.0 as u32;
            OK
        }
        Err(OpenError::TooLong) => TEXT_TOO_LONG,
        Err(OpenError::NoFreeStream) => NO_FREE_STREAM,
        Err(OpenError::StreamInUse) => STREAM_IN_USE,
        Err(OpenError::SocketRefused) => NOT_TAKEN,
        Err(OpenError::Memory) => MEMORY,
    }
}

/// Opens a channel, and hands out the number of its stream.
pub fn open<S: DcSctpSocket>(
    alloc: Global,
    socket: &mut S,
    channels: &mut Option<DataChannels>,
    given: &GivenChannel<'_>,
    channel: &mut u32,
) -> u32
    requires { given.now.record.priority < 2 ^ 16 }
    ensures answers { OnChannels (λ d n e. IsAmong (0 ∷ 1 ∷ 17 ∷ 27 ∷ 28 ∷ 29 ∷ 30 ∷ 31 ∷ []) n) channels.old result channels.new }
    ensures opened { OnChannels (λ d n e. OnAnswer 0 n (Opened channel.new (given_open given.now.record given.now.label.now given.now.protocol.now) d e)) channels.old result channels.new }
    ensures others { OnChannels (λ d n e. OnOthers 0 n (e ≡ d)) channels.old result channels.new }
{
    let Some(channels) = channels else {
        return NO_CHANNELS;
    };
    match given.description(alloc) {
        Ok(description) => open_on(socket, channels, description, channel),
        Err(DescriptionFault::NotUtf8) => NOT_UTF8,
        Err(DescriptionFault::Memory) => NO_ROOM,
    }
}

fn negotiate_on(channels: &mut DataChannels, id: u16, description: DataChannelOpen) -> u32
    ensures answers { IsAmong (0 ∷ 17 ∷ 27 ∷ 28 ∷ 29 ∷ 31 ∷ []) result }
    ensures negotiated { OnAnswer 0 result (Negotiated id (open_of description) channels.old channels.new) }
    ensures others { OnOthers 0 result (channels.new ≡ channels.old) }
{
    match channels.negotiate(StreamId(id), description) {
        Ok(()) => OK,
        Err(OpenError::TooLong) => TEXT_TOO_LONG,
        Err(OpenError::NoFreeStream) => NO_FREE_STREAM,
        Err(OpenError::StreamInUse) => STREAM_IN_USE,
        Err(OpenError::SocketRefused) => NOT_TAKEN,
        Err(OpenError::Memory) => NO_ROOM,
    }
}

/// A channel that both ends have agreed on.
pub fn negotiate(
    alloc: Global,
    channels: &mut Option<DataChannels>,
    id: u16,
    given: &GivenChannel<'_>,
) -> u32
    requires { given.now.record.priority < 2 ^ 16 }
    ensures answers { OnChannels (λ d n e. IsAmong (0 ∷ 17 ∷ 27 ∷ 28 ∷ 29 ∷ 30 ∷ 31 ∷ []) n) channels.old result channels.new }
    ensures negotiated { OnChannels (λ d n e. OnAnswer 0 n (Negotiated id (given_open given.now.record given.now.label.now given.now.protocol.now) d e)) channels.old result channels.new }
    ensures others { OnChannels (λ d n e. OnOthers 0 n (e ≡ d)) channels.old result channels.new }
{
    let Some(channels) = channels else {
        return NO_CHANNELS;
    };
    match given.description(alloc) {
        Ok(description) => negotiate_on(channels, id, description),
        Err(DescriptionFault::NotUtf8) => NOT_UTF8,
        Err(DescriptionFault::Memory) => NO_ROOM,
    }
}

fn number_of(state: ChannelState) -> u32
    ensures { result ≡ state_number state }
{
    match state {
        ChannelState::Closed => 0,
        ChannelState::Connecting => 1,
        ChannelState::Open => 2,
        ChannelState::Closing => 3,
    }
}

/// Hands out the state of a channel: 0 closed, 1 connecting, 2 open, 3 closing.
pub fn tell_state(channels: &Option<DataChannels>, id: u16, state: &mut u32) -> u32
    ensures { OfChannelAt id (λ c. (result ≡ 0) × (state.new ≡ shown_state c)) channels.now result }
{
    let Some(channels) = channels else {
        return NO_CHANNELS;
    };
    let Some(channel) = channels.get(StreamId(id)) else {
        return NO_CHANNEL;
    };
    *state = number_of(channel.lifecycle().state());
    OK
}

/// Writes what a channel is beside its texts.
pub fn write_options(channels: &Option<DataChannels>, id: u16, bytes: &mut [u8]) -> u32
    ensures written { OfChannelAt id (λ c. (result ≡ 0) × (bytes.new ≡ channel_bytes (shown_channel c.description) bytes.old)) channels.now result }
{
    let Some(channels) = channels else {
        return NO_CHANNELS;
    };
    let Some(channel) = channels.get(StreamId(id)) else {
        return NO_CHANNEL;
    };
    ChannelRecord::of(channel.description()).write(bytes);
    OK
}
