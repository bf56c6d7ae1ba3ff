//! Data channels of a socket.

ghost use Rattle.std.specs.Prelude.{◌≡◌, ◌<◌, ◌≤◌, [], ◌∷◌, length, None};
ghost use Rattle.sctp_c.specs.Calls.{Answers};
ghost use Rattle.sctp_c.specs.Channels.{AsksChannel, OnChannelsOf, StartsOf};
ghost use Rattle.sctp_c.specs.Lent.{PointsAt};
ghost use Rattle.sctp_c_channels.specs.Answers.{IsClosed, Negotiated, Opened, Sent};
ghost use Rattle.sctp_c_records.specs.Answers.{IsAmong, OnAnswer, OnOthers};
ghost use Rattle.sctp_c_channels.specs.Events.{Shows, kind_at};
ghost use Rattle.sctp_c_channels.specs.Records.{CopiesText, IsKnown, channel_bytes, channel_in, given_open, shown_channel, shown_state, start_in, statistics_bytes};
ghost use Rattle.sctp_channels.specs.Entries.{channel_at};
ghost use Rattle.sctp_channels.specs.Steps.{Follows};

use crate::handle::Handle;
use crate::stream::stream_of;
use sctp_c_channels as channels;
use sctp_c_channels::{
    CHANNEL_SIZE, ChannelRecord, GivenChannel, GivenMessage, START_SIZE, STATISTICS_SIZE,
    StartRecord,
};
use sctp_c_records::EVENT_SIZE;
use sctp_c_records::answers::{INVALID_ARGUMENT, INVALID_SIZE, INVALID_STREAM, NO_SOCKET};
use std::alloc::Global;

/// Switches channels on.
#[unsafe(no_mangle)]
pub extern "C" fn pigeon_channels_start_sized(
    alloc: Global,
    socket: &mut Handle,
    options: &[u8],
) -> u32
    ensures size { 32 < length options.now → (result ≡ 21) × (socket.new.held ≡ socket.old.held) }
    ensures role { length options.now ≤ 32 → 2 ≤ (start_in options.now).role → (result ≡ 7) × (socket.new.held ≡ socket.old.held) }
    ensures call { length options.now ≤ 32 → (start_in options.now).role < 2 → Answers (StartsOf (start_in options.now)) socket.old.held result socket.new.held }
{
    if START_SIZE < options.len() {
        return INVALID_SIZE;
    }
    let record = StartRecord::in_bytes(options);
    if !record.is_known() {
        return INVALID_ARGUMENT;
    }
    match socket.as_mut() {
        None => NO_SOCKET,
        Some(end) => channels::start(alloc, &end.socket, &mut end.channels, &record),
    }
}

/// Opens a channel, and hands out the number of its stream.
#[unsafe(no_mangle)]
pub extern "C" fn pigeon_channel_open_sized(
    alloc: Global,
    socket: &mut Handle,
    options: &[u8],
    label: &[u8],
    protocol: &[u8],
    channel: &mut u32,
) -> u32
    ensures size { 24 < length options.now → (result ≡ 21) × (socket.new.held ≡ socket.old.held) }
    ensures unknown { length options.now ≤ 24 → (IsKnown (channel_in options.now) → ⊥) → (result ≡ 7) × (socket.new.held ≡ socket.old.held) }
    ensures answers { length options.now ≤ 24 → IsKnown (channel_in options.now) → Answers (OnChannelsOf (λ d n e. IsAmong (0 ∷ 1 ∷ 17 ∷ 27 ∷ 28 ∷ 29 ∷ 30 ∷ 31 ∷ []) n)) socket.old.held result socket.new.held }
    ensures opened { length options.now ≤ 24 → IsKnown (channel_in options.now) → Answers (OnChannelsOf (λ d n e. OnAnswer 0 n (Opened channel.new (given_open (channel_in options.now) label.now protocol.now) d e))) socket.old.held result socket.new.held }
    ensures others { length options.now ≤ 24 → IsKnown (channel_in options.now) → Answers (OnChannelsOf (λ d n e. OnOthers 0 n (e ≡ d))) socket.old.held result socket.new.held }
{
    if CHANNEL_SIZE < options.len() {
        return INVALID_SIZE;
    }
    let record = ChannelRecord::in_bytes(options);
    if !record.is_known() {
        return INVALID_ARGUMENT;
    }
    let given = GivenChannel {
        record,
        label,
        protocol,
    };
    match socket.as_mut() {
        None => NO_SOCKET,
        Some(end) => { channels::open(alloc, &mut end.socket, &mut end.channels, &given, channel) }
    }
}

/// A channel that both ends have agreed on.
#[unsafe(no_mangle)]
pub extern "C" fn pigeon_channel_negotiate_sized(
    alloc: Global,
    socket: &mut Handle,
    channel: u32,
    options: &[u8],
    label: &[u8],
    protocol: &[u8],
) -> u32
    ensures size { 24 < length options.now → (result ≡ 21) × (socket.new.held ≡ socket.old.held) }
    ensures stream { length options.now ≤ 24 → 65535 < channel → (result ≡ 6) × (socket.new.held ≡ socket.old.held) }
    ensures unknown { length options.now ≤ 24 → channel ≤ 65535 → (IsKnown (channel_in options.now) → ⊥) → (result ≡ 7) × (socket.new.held ≡ socket.old.held) }
    ensures answers { length options.now ≤ 24 → channel ≤ 65535 → IsKnown (channel_in options.now) → Answers (OnChannelsOf (λ d n e. IsAmong (0 ∷ 17 ∷ 27 ∷ 28 ∷ 29 ∷ 30 ∷ 31 ∷ []) n)) socket.old.held result socket.new.held }
    ensures negotiated { length options.now ≤ 24 → channel ≤ 65535 → IsKnown (channel_in options.now) → Answers (OnChannelsOf (λ d n e. OnAnswer 0 n (Negotiated channel (given_open (channel_in options.now) label.now protocol.now) d e))) socket.old.held result socket.new.held }
    ensures others { length options.now ≤ 24 → channel ≤ 65535 → IsKnown (channel_in options.now) → Answers (OnChannelsOf (λ d n e. OnOthers 0 n (e ≡ d))) socket.old.held result socket.new.held }
{
    if CHANNEL_SIZE < options.len() {
        return INVALID_SIZE;
    }
    let Some(id) = stream_of(channel) else {
        return INVALID_STREAM;
    };
    let record = ChannelRecord::in_bytes(options);
    if !record.is_known() {
        return INVALID_ARGUMENT;
    }
    let given = GivenChannel {
        record,
        label,
        protocol,
    };
    match socket.as_mut() {
        None => NO_SOCKET,
        Some(end) => channels::negotiate(alloc, &mut end.channels, id, &given),
    }
}

/// Sends a copy of a message on a channel.
#[unsafe(no_mangle)]
pub extern "C" fn pigeon_channel_send(
    alloc: Global,
    socket: &mut Handle,
    channel: u32,
    kind: u32,
    payload: &[u8],
) -> u32
    ensures stream { 65535 < channel → (result ≡ 6) × (socket.new.held ≡ socket.old.held) }
    ensures kind { channel ≤ 65535 → kind_at kind ≡ None → (result ≡ 7) × (socket.new.held ≡ socket.old.held) }
    ensures answers { channel ≤ 65535 → (kind_at kind ≡ None → ⊥) → Answers (OnChannelsOf (λ d n e. IsAmong (0 ∷ 1 ∷ 11 ∷ 13 ∷ 17 ∷ 25 ∷ 26 ∷ 30 ∷ 31 ∷ []) n)) socket.old.held result socket.new.held }
    ensures sent { channel ≤ 65535 → (kind_at kind ≡ None → ⊥) → Answers (OnChannelsOf (λ d n e. OnAnswer 0 n (Sent channel (length payload.now) d e))) socket.old.held result socket.new.held }
    ensures others { channel ≤ 65535 → (kind_at kind ≡ None → ⊥) → Answers (OnChannelsOf (λ d n e. OnOthers 0 n (e ≡ d))) socket.old.held result socket.new.held }
{
    let Some(id) = stream_of(channel) else {
        return INVALID_STREAM;
    };
    let Some(kind) = channels::kind_of(kind) else {
        return INVALID_ARGUMENT;
    };
    let message = GivenMessage { kind, payload };
    match socket.as_mut() {
        None => NO_SOCKET,
        Some(end) => { channels::send(alloc, &mut end.socket, &mut end.channels, id, &message) }
    }
}

/// Closes a channel. What was accepted is sent first.
#[unsafe(no_mangle)]
pub extern "C" fn pigeon_channel_close(socket: &mut Handle, channel: u32) -> u32
    ensures stream { 65535 < channel → (result ≡ 6) × (socket.new.held ≡ socket.old.held) }
    ensures answers { channel ≤ 65535 → Answers (OnChannelsOf (λ d n e. IsAmong (0 ∷ 1 ∷ 2 ∷ 25 ∷ []) n)) socket.old.held result socket.new.held }
    ensures none { channel ≤ 65535 → Answers (OnChannelsOf (λ d n e. OnAnswer 25 n (channel_at channel d.channels.entries ≡ None))) socket.old.held result socket.new.held }
    ensures stays { channel ≤ 65535 → Answers (OnChannelsOf (λ d n e. OnAnswer 25 n (e ≡ d))) socket.old.held result socket.new.held }
    ensures closed { channel ≤ 65535 → Answers (OnChannelsOf (λ d n e. OnAnswer 0 n (IsClosed channel d e))) socket.old.held result socket.new.held }
{
    let Some(id) = stream_of(channel) else {
        return INVALID_STREAM;
    };
    match socket.as_mut() {
        None => NO_SOCKET,
        Some(end) => channels::close(&mut end.socket, &mut end.channels, id),
    }
}

/// Takes the bytes of a packet that came, and what it brings to the channels.
#[unsafe(no_mangle)]
pub extern "C" fn pigeon_channels_handle_input(socket: &mut Handle, bytes: &[u8]) -> u32
    ensures answers { Answers (OnChannelsOf (λ d n e. IsAmong (0 ∷ 1 ∷ 2 ∷ []) n)) socket.old.held result socket.new.held }
    ensures steps { Answers (OnChannelsOf (λ d n e. OnAnswer 0 n (Follows d e))) socket.old.held result socket.new.held }
{
    match socket.as_mut() {
        None => NO_SOCKET,
        Some(end) => channels::handle_input(&mut end.socket, &mut end.channels, bytes),
    }
}

/// Hands out the event that comes next, of the socket or of its channels, and lends its bytes until the next call.
#[unsafe(no_mangle)]
pub extern "C" fn pigeon_channels_borrow_event_sized(
    socket: &mut Handle,
    head: &mut [u8],
    bytes: &mut *const u8,
) -> u32
    ensures size { 40 < length head.old → (result ≡ 21) × (socket.new.held ≡ socket.old.held) }
    ensures answers { length head.old ≤ 40 → Answers (λ e n f. IsAmong (0 ∷ 1 ∷ 2 ∷ 8 ∷ 17 ∷ 23 ∷ []) n) socket.old.held result socket.new.held }
    ensures shown { length head.old ≤ 40 → Answers (λ e n f. OnAnswer 0 n (Shows head.old head.new f.lent.items)) socket.old.held result socket.new.held }
    ensures let_go { length head.old ≤ 40 → Answers (λ e n f. OnAnswer 8 n (f.lent.items ≡ [])) socket.old.held result socket.new.held }
    ensures lent { length head.old ≤ 40 → Answers (λ e n f. PointsAt bytes.new f) socket.old.held result socket.new.held }
    ensures record { length head.old ≤ 40 → Answers (λ e n f. f.handed_over ≡ e.handed_over) socket.old.held result socket.new.held }
{
    if EVENT_SIZE < head.len() {
        return INVALID_SIZE;
    }
    match socket.as_mut() {
        None => NO_SOCKET,
        Some(end) => {
            let number = channels::borrow_event(
                &mut end.socket,
                &mut end.channels,
                &mut end.event,
                head,
                &mut end.lent,
            );
            *bytes = end.lent.as_ptr();
            number
        }
    }
}

/// Hands out the state of a channel: 0 closed, 1 connecting, 2 open, 3 closing.
#[unsafe(no_mangle)]
pub extern "C" fn pigeon_channel_state(socket: &mut Handle, channel: u32, state: &mut u32) -> u32
    ensures stream { 65535 < channel → (result ≡ 6) × (socket.new.held ≡ socket.old.held) }
    ensures call { channel ≤ 65535 → Answers (AsksChannel channel (λ c n. (n ≡ 0) × (state.new ≡ shown_state c))) socket.old.held result socket.new.held }
{
    let Some(id) = stream_of(channel) else {
        return INVALID_STREAM;
    };
    match socket.as_mut() {
        None => NO_SOCKET,
        Some(end) => channels::tell_state(&end.channels, id, state),
    }
}

/// Writes what a channel is beside its texts.
#[unsafe(no_mangle)]
pub extern "C" fn pigeon_channel_get_options_sized(
    socket: &mut Handle,
    channel: u32,
    options: &mut [u8],
) -> u32
    ensures size { 24 < length options.old → (result ≡ 21) × (socket.new.held ≡ socket.old.held) }
    ensures stream { length options.old ≤ 24 → 65535 < channel → (result ≡ 6) × (socket.new.held ≡ socket.old.held) }
    ensures call { length options.old ≤ 24 → channel ≤ 65535 → Answers (AsksChannel channel (λ c n. (n ≡ 0) × (options.new ≡ channel_bytes (shown_channel c.description) options.old))) socket.old.held result socket.new.held }
{
    if CHANNEL_SIZE < options.len() {
        return INVALID_SIZE;
    }
    let Some(id) = stream_of(channel) else {
        return INVALID_STREAM;
    };
    match socket.as_mut() {
        None => NO_SOCKET,
        Some(end) => channels::write_options(&end.channels, id, options),
    }
}

/// Writes what a channel has counted.
#[unsafe(no_mangle)]
pub extern "C" fn pigeon_channel_get_statistics_sized(
    socket: &mut Handle,
    channel: u32,
    statistics: &mut [u8],
) -> u32
    ensures size { 40 < length statistics.old → (result ≡ 21) × (socket.new.held ≡ socket.old.held) }
    ensures stream { length statistics.old ≤ 40 → 65535 < channel → (result ≡ 6) × (socket.new.held ≡ socket.old.held) }
    ensures call { length statistics.old ≤ 40 → channel ≤ 65535 → Answers (AsksChannel channel (λ c n. (n ≡ 0) × (statistics.new ≡ statistics_bytes c.statistics statistics.old))) socket.old.held result socket.new.held }
{
    if STATISTICS_SIZE < statistics.len() {
        return INVALID_SIZE;
    }
    let Some(id) = stream_of(channel) else {
        return INVALID_STREAM;
    };
    match socket.as_mut() {
        None => NO_SOCKET,
        Some(end) => channels::write_statistics(&end.channels, id, statistics),
    }
}

/// Copies the label of a channel.
#[unsafe(no_mangle)]
pub extern "C" fn pigeon_channel_label(
    socket: &mut Handle,
    channel: u32,
    needed: &mut usize,
    buffer: &mut [u8],
) -> u32
    ensures stream { 65535 < channel → (result ≡ 6) × (socket.new.held ≡ socket.old.held) }
    ensures call { channel ≤ 65535 → Answers (AsksChannel channel (λ c n. CopiesText c.description.label needed.new buffer.old buffer.new n)) socket.old.held result socket.new.held }
{
    let Some(id) = stream_of(channel) else {
        return INVALID_STREAM;
    };
    match socket.as_mut() {
        None => NO_SOCKET,
        Some(end) => channels::copy_label(&end.channels, id, needed, buffer),
    }
}

/// Copies the protocol of a channel.
#[unsafe(no_mangle)]
pub extern "C" fn pigeon_channel_protocol(
    socket: &mut Handle,
    channel: u32,
    needed: &mut usize,
    buffer: &mut [u8],
) -> u32
    ensures stream { 65535 < channel → (result ≡ 6) × (socket.new.held ≡ socket.old.held) }
    ensures call { channel ≤ 65535 → Answers (AsksChannel channel (λ c n. CopiesText c.description.protocol needed.new buffer.old buffer.new n)) socket.old.held result socket.new.held }
{
    let Some(id) = stream_of(channel) else {
        return INVALID_STREAM;
    };
    match socket.as_mut() {
        None => NO_SOCKET,
        Some(end) => channels::copy_protocol(&end.channels, id, needed, buffer),
    }
}
