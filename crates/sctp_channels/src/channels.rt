//! The channels of an association.

ghost use Rattle.std.specs.Prelude.{◌≡◌, ◌<◌, ◌≤◌, ◌++◌, [], true, false, List, None, Some, IfSome, IfNone, IsSome, IsTrue, IsFalse, IfOk, OnOk, OnErr, ℕ, length, map, option_copied, option_map, option_to_list};
ghost use Rattle.std.specs.Result.{is_ok};
ghost use Rattle.std.specs.Map.{keys_of};
ghost use Rattle.sctp_state.specs.Events.{numbers_of};
ghost use Rattle.sctp_channels.specs.Payload.{protocol_of};
ghost use Rattle.sctp_channels.specs.Steps.{each};
ghost use Rattle.sctp_channels.specs.Views.{open_of};
ghost use Rattle.sctp_channels.specs.Channel.{count_received, new_channel, received_as, takes_whole, with_lifecycle};
ghost use Rattle.sctp_channels.specs.Channels.{Emits, OnControl, OnMessage, Output as output, Stands, change, close, deliver, drain, emit, end, end_missing, hand, has_room, has_stream, incoming_streams, is_denied, is_own, is_shown, limit_of, negotiate, no_channels, on_ack, on_incoming_reset, on_open, on_payload, on_reset_denied, on_reset_performed, open_from, open_own, output_of, place, refuse, reset_in_turn, room, sent, shown_streams, take_open, tell_begin, tell_closed, tell_end, turn_down, with_entries};
ghost use Rattle.sctp_channels.specs.DataChannels.{IsOpenAt, is_draining_at, is_incoming_reset_at};
ghost use Rattle.sctp_channels.specs.Entries.{KeepsIncoming, channel_at, forget, put};

use crate::channel_map::ChannelMap;
use crate::{
    Channel, ChannelMessage, ChannelMessageFault, DataChannelOpen, Lifecycle, Opening, Outgoing,
    Output, PayloadProtocol, Received, Refusal, Reliability, SendRefusal, take_first,
};
use sctp_state::DcSctpSocket;
use sctp_wire::{Message, StreamId};
use std::alloc::{AllocError, Global};
use std::collections::{BTreeMap, VecDeque};
use std::marker::Model;

/// The channels of an association, and what is to be done for them.
#[derive(Drop)]
pub struct Channels {
    alloc: Global,
    is_client: bool,
    stream_count: u16,
    limit: usize,
    max_kept_bytes: usize,
    entries: ChannelMap,
    outputs: VecDeque<Output>,
    // where `free_stream` begins: behind the stream that was opened last, since a peer may still close what stands on one that was just freed, and
    // the owner may still have to be told that it was
    first_candidate: u16,
}

impl Model for Channels {
    ghost use Rattle.std.specs.Prelude.{map};
    ghost use Rattle.sctp_channels.specs.Channels.{Channels, output_of};

    ghost Value = { Channels };

    ghost view = { λ c. record { is_client = c.is_client; stream_count = c.stream_count; limit = c.limit; kept_limit = c.max_kept_bytes; entries = c.entries; outputs = map output_of c.outputs.items } };
}

/// Whether this end opens channels on streams of this number.
fn is_own(is_client: bool, id: u16) -> bool
    ensures { result ≡ is_own is_client id }
{
    if is_client { id % 2 == 0 } else { id % 2 == 1 }
}

fn is_denied(outgoing: Outgoing) -> bool
    ensures { result ≡ is_denied outgoing }
{
    matches!(outgoing, Outgoing::Denied)
}

/// Whether the owner knows the channel, and was not told that it is closed.
fn is_shown(lifecycle: Lifecycle) -> bool
    ensures { result ≡ is_shown lifecycle }
{
    !matches!(lifecycle.opening, Opening::Refused) && !is_denied(lifecycle.outgoing)
}

/// Says that each channel is closed whose owner knows it.
fn tell_all_closed(
    channels: &BTreeMap<u16, Channel>,
    outputs: &mut VecDeque<Output>,
) -> Result<(), AllocError>
    ensures ok { OnOk result (map output_of outputs.new.items ≡ map output_of outputs.old.items ++ map tell_closed (shown_streams channels.now.entries)) }
    ensures err { (more : List output) × (map output_of outputs.new.items ≡ map output_of outputs.old.items ++ more) }
{
    for (id, channel) in channels {
        if is_shown(channel.lifecycle()) {
            outputs.push_back(Output::Closed(StreamId(*id)))?;
        }
    }
    Ok(())
}

impl Channels {
    /// No channels. The client of DTLS opens even streams, the server odd ones, below `stream_count`. A message of more than `limit` bytes isn't
    /// taken. Of labels, protocols and parts of unfinished messages all channels keep at most `max_kept_bytes` together, as far as the peer adds
    /// to them: what this end opens counts too, and isn't refused for it.
    pub fn new(
        alloc: Global,
        is_client: bool,
        stream_count: u16,
        limit: usize,
        max_kept_bytes: usize,
    ) -> Channels
        ensures { result ≡ no_channels is_client stream_count limit max_kept_bytes }
    {
        Channels {
            alloc,
            is_client,
            stream_count,
            limit,
            max_kept_bytes,
            entries: ChannelMap::new(alloc),
            outputs: VecDeque::new(alloc),
            first_candidate: 0,
        }
    }

    /// Streams have numbers below this one from now on, the lesser of what was negotiated for both directions. Channels above it stay, until
    /// `end_all_missing`.
    pub fn set_stream_count(&mut self, stream_count: u16)
        ensures { self.new ≡ record self.old { stream_count = stream_count } }
    {
        self.stream_count = stream_count;
    }

    /// The channel on a stream.
    pub fn get(&self, id: StreamId) -> Option<&Channel>
        ensures { option_copied result ≡ channel_at id.0 self.now.entries }
    {
        self.entries.get(&id.0)
    }

    /// Whether a channel is closed on the stream whose reset is still to be asked for.
    pub(crate) fn is_draining(&self, id: StreamId) -> bool
        ensures { result ≡ is_draining_at (channel_at id.0 self.now.entries) }
    {
        match self.entries.get(&id.0) {
            None => false,
            Some(channel) => matches!(channel.lifecycle().outgoing, Outgoing::Draining),
        }
    }

    /// Whether the peer has reset its stream of the channel: it takes nothing of it any more.
    pub(crate) fn is_incoming_reset(&self, id: StreamId) -> bool
        ensures { result ≡ is_incoming_reset_at (channel_at id.0 self.now.entries) }
    {
        match self.entries.get(&id.0) {
            None => false,
            Some(channel) => channel.lifecycle().is_incoming_reset,
        }
    }

    /// Takes what is to be done first.
    pub fn next_output(&mut self) -> Option<Output>
        ensures taken { self.old ≡ record self.new { outputs = option_to_list (option_map output_of result) ++ self.new.outputs } }
        ensures none { IfNone result (self.old.outputs ≡ []) }
    {
        take_first(&mut self.outputs)
    }

    /// How many outputs are not taken yet.
    pub fn output_count(&self) -> usize
        ensures { result ≡ length self.now.outputs }
    {
        self.outputs.len()
    }

    fn emit(&mut self, output: Output) -> Result<(), AllocError>
        ensures ok { OnOk result (self.new ≡ emit (output_of output) self.old) }
        ensures err { OnErr result (self.new ≡ self.old) }
    {
        self.outputs.push_back(output)?;
        Ok(())
    }

    /// A stream of this end's parity without a channel: the first behind the one that was opened last, or else the first of all. So one that
    /// is free again is the last to be taken: until its peer knows that both ends have reset it, what is opened there may be closed.
    pub fn free_stream(&mut self) -> Option<StreamId>
        ensures free { IfSome result (λ id. channel_at id.0 self.old.entries ≡ None) }
        ensures own { IfSome result (λ id. is_own self.old.is_client id.0 ≡ true) }
        ensures there { IfSome result (λ id. id.0 < self.old.stream_count) }
        ensures none { IfNone result ((id : ℕ) → id < self.old.stream_count → is_own self.old.is_client id ≡ true → IsSome (channel_at id self.old.entries)) }
        ensures same { self.new ≡ self.old }
    {
        let id = match self.free_stream_from(self.first_candidate) {
            Some(id) => id,
            None => self.free_stream_from(0)?,
        };
        self.first_candidate = id.0;
        Some(id)
    }

    /// The first one with this number or a greater one.
    fn free_stream_from(&self, start: u16) -> Option<StreamId>
        ensures free { IfSome result (λ id. channel_at id.0 self.now.entries ≡ None) }
        ensures own { IfSome result (λ id. is_own self.now.is_client id.0 ≡ true) }
        ensures there { IfSome result (λ id. id.0 < self.now.stream_count) }
        ensures none { IfNone result ((id : ℕ) → start ≤ id → id < self.now.stream_count → is_own self.now.is_client id ≡ true → IsSome (channel_at id self.now.entries)) }
    {
        for id in start..self.stream_count {
            if is_own(self.is_client, id) && !self.entries.contains_key(&id) {
                return Some(StreamId(id));
            }
        }
        None
    }

    /// Puts a channel to its place, where there is none, or in place of another one.
    fn put(
        &mut self,
        id: StreamId,
        lifecycle: Lifecycle,
        description: DataChannelOpen,
    ) -> Result<(), AllocError>
        requires { lifecycle.is_incoming_reset ≡ false }
        ensures ok { OnOk result (self.new ≡ with_entries (put id.0 (new_channel lifecycle (open_of description)) self.old.entries) self.old) }
        ensures err { OnErr result (self.new ≡ self.old) }
    {
        let channel = Channel::new(self.alloc, lifecycle, description);
        self.entries.insert(id.0, channel)?;
        Ok(())
    }

    /// As `put`, and the stream is to have the channel's priority. One of 0 leaves the stream's own.
    fn place(
        &mut self,
        id: StreamId,
        lifecycle: Lifecycle,
        description: DataChannelOpen,
    ) -> Result<(), AllocError>
        requires { lifecycle.is_incoming_reset ≡ false }
        ensures ok { OnOk result (self.new ≡ place id.0 lifecycle (open_of description) self.old) }
        ensures err { OnErr result (self.new ≡ self.old) }
    {
        let priority = description.priority;
        let channel = Channel::new(self.alloc, lifecycle, description);
        self.outputs.reserve(1)?;
        self.entries.insert(id.0, channel)?;
        if priority != 0 {
            self.outputs
                .push_back_reserved(Output::Prioritize(id, priority));
        }
        Ok(())
    }

    /// Goes on with this lifecycle on a stream that has a channel. Whether the peer has reset its stream stays as it is.
    fn set_lifecycle(&mut self, id: StreamId, lifecycle: Lifecycle)
        requires { IfSome (channel_at id.0 self.old.entries) (KeepsIncoming lifecycle) }
        ensures { self.new ≡ change (with_lifecycle lifecycle) id.0 self.old }
    {
        self.entries.set_lifecycle(&id.0, lifecycle);
    }

    /// Opens a channel on a stream that is free, of this end's parity (`free_stream`), which is to have the channel's priority, unless that is 0.
    /// DATA_CHANNEL_OPEN is to be sent first of all on it.
    pub fn open(&mut self, id: StreamId, description: DataChannelOpen) -> Result<(), AllocError>
        ensures ok { OnOk result (self.new ≡ open_own id.0 (open_of description) self.old) }
        ensures err { OnErr result (self.new ≡ self.old) }
    {
        self.first_candidate = id.0.saturating_add(1);
        self.place(id, Lifecycle::opened(), description)
    }

    /// A channel that both ends have agreed on, on a stream that is free, of any parity, and that is to have its priority, unless that is 0.
    pub fn negotiate(
        &mut self,
        id: StreamId,
        description: DataChannelOpen,
    ) -> Result<(), AllocError>
        ensures ok { OnOk result (self.new ≡ negotiate id.0 (open_of description) self.old) }
        ensures err { OnErr result (self.new ≡ self.old) }
    {
        self.place(id, Lifecycle::negotiated(), description)
    }

    /// The owner closes the channel: what was accepted is sent, as long as the peer takes it, then its stream is reset (`drain`).
    pub fn close(&mut self, id: StreamId)
        ensures { self.new ≡ close id.0 self.old }
    {
        if let Some(channel) = self.entries.get(&id.0) {
            let mut lifecycle = channel.lifecycle();
            lifecycle.close();
            self.set_lifecycle(id, lifecycle);
        }
    }

    /// Hands a message of so many bytes to the socket, unless it is refused, and counts it.
    pub(crate) fn send<S: DcSctpSocket>(
        &mut self,
        socket: &mut S,
        id: StreamId,
        size: usize,
        given: Result<Message, SendRefusal>,
    ) -> Result<(), SendRefusal>
        ensures ok { OnOk result (self.new ≡ sent id.0 size self.old) }
        ensures opened { OnOk result (IsOpenAt (channel_at id.0 self.old.entries)) }
        ensures given { OnOk result (is_ok given ≡ true) }
        ensures err { OnErr result (self.new ≡ self.old) }
    {
        self.entries.send(socket, &id.0, size, given)
    }

    /// Whether the association has the stream.
    fn has_stream(&self, id: StreamId) -> bool
        ensures { result ≡ has_stream id.0 self.now }
    {
        id.0 < self.stream_count
    }

    /// What was opened isn't taken: its stream is reset, where the association has it, and a channel on it is closed.
    fn turn_down(&mut self, id: StreamId, why: Refusal) -> Result<(), AllocError>
        ensures ok { OnOk result (self.new ≡ turn_down id.0 why self.old) }
        ensures err { OnErr result (Emits self.old self.new) }
    {
        self.emit(Output::Refused(id, why))?;
        if self.entries.contains_key(&id.0) {
            self.close(id);
            return Ok(());
        }
        if self.has_stream(id) {
            return self.refuse(id);
        }
        Ok(())
    }

    /// The stream, which has no channel, is to be reset.
    fn refuse(&mut self, id: StreamId) -> Result<(), AllocError>
        ensures ok { OnOk result (self.new ≡ refuse id.0 self.old) }
        ensures err { OnErr result (self.new ≡ self.old) }
    {
        let nothing = DataChannelOpen {
            unordered: false,
            reliability: Reliability::Reliable,
            priority: 0,
            label: String::new(self.alloc),
            protocol: String::new(self.alloc),
        };
        self.put(id, Lifecycle::refused(), nothing)
    }

    fn take_open(
        &mut self,
        id: StreamId,
        description: DataChannelOpen,
        lifecycle: Lifecycle,
    ) -> Result<(), AllocError>
        requires { lifecycle.is_incoming_reset ≡ false }
        ensures ok { OnOk result (self.new ≡ take_open id.0 (open_of description) lifecycle self.old) }
        ensures err { OnErr result (Emits self.old self.new) }
    {
        self.emit(Output::Acknowledge(id))?;
        self.emit(Output::Opened(id))?;
        self.place(id, lifecycle, description)
    }

    /// Says that a channel is closed whose owner knows it.
    fn tell_end(&mut self, id: StreamId, lifecycle: Lifecycle) -> Result<(), AllocError>
        ensures ok { OnOk result (self.new ≡ tell_end lifecycle id.0 self.old) }
        ensures err { OnErr result (self.new ≡ self.old) }
    {
        if !is_shown(lifecycle) {
            return Ok(());
        }
        self.emit(Output::Closed(id))
    }

    /// Says that a channel is open whose owner hasn't closed it meanwhile.
    fn tell_begin(&mut self, id: StreamId, lifecycle: Lifecycle) -> Result<(), AllocError>
        ensures ok { OnOk result (self.new ≡ tell_begin lifecycle id.0 self.old) }
        ensures err { OnErr result (self.new ≡ self.old) }
    {
        if !lifecycle.may_send() {
            return Ok(());
        }
        self.emit(Output::Opened(id))
    }

    /// Says that a channel is closed whose owner knows it, and forgets it.
    fn end_one(&mut self, id: StreamId, lifecycle: Lifecycle) -> Result<(), AllocError>
        ensures ok { OnOk result (self.new ≡ tell_end lifecycle id.0 (with_entries (forget id.0 self.old.entries) self.old)) }
        ensures err { OnErr result (self.new ≡ self.old) }
    {
        self.tell_end(id, lifecycle)?;
        self.entries.remove(&id.0);
        Ok(())
    }

    /// An answer, or a message, came: the peer has the channel. Where the owner has closed it meanwhile nothing is told.
    pub fn on_ack(&mut self, id: StreamId) -> Result<(), AllocError>
        ensures ok { OnOk result (self.new ≡ on_ack id.0 self.old) }
        ensures err { OnErr result (self.new ≡ self.old) }
    {
        let Some(channel) = self.entries.get(&id.0) else {
            return Ok(());
        };
        let mut lifecycle = channel.lifecycle();
        if !lifecycle.is_connecting() {
            return Ok(());
        }
        self.tell_begin(id, lifecycle)?;
        lifecycle.confirm();
        self.set_lifecycle(id, lifecycle);
        Ok(())
    }

    /// The peer has performed a reset of this outgoing stream. A channel that is closed there, and has waited for that, is to be looked at again
    /// (`drain`).
    pub fn on_reset_performed(&mut self, id: StreamId) -> Result<(), AllocError>
        ensures ok { OnOk result (self.new ≡ on_reset_performed id.0 self.old) }
        ensures err { OnErr result (self.new ≡ self.old) }
    {
        let Some(channel) = self.entries.get(&id.0) else {
            return Ok(());
        };
        let mut lifecycle = channel.lifecycle();
        lifecycle.finish();
        if lifecycle.is_over() {
            return self.end_one(id, lifecycle);
        }
        self.set_lifecycle(id, lifecycle);
        Ok(())
    }

    /// As `on_reset_performed`, for each of these streams.
    pub(crate) fn on_resets_performed(&mut self, ids: &[StreamId]) -> Result<(), AllocError>
        ensures { OnOk result (self.new ≡ each on_reset_performed (numbers_of ids.now) self.old) }
    {
        for id in ids {
            self.on_reset_performed(*id)?;
        }
        Ok(())
    }

    /// The peer has reset its outgoing stream of this number, which this end does too, also without a channel. One that was reset already stays as
    /// it is.
    pub fn on_incoming_reset(&mut self, id: StreamId) -> Result<(), AllocError>
        ensures ok { OnOk result (self.new ≡ on_incoming_reset id.0 self.old) }
        ensures err { OnErr result (self.new ≡ self.old) }
    {
        let Some(channel) = self.entries.get(&id.0) else {
            return self.reset_in_turn(id);
        };
        let mut lifecycle = channel.lifecycle();
        if lifecycle.is_incoming_reset {
            return Ok(());
        }
        lifecycle.stop_incoming();
        if lifecycle.is_over() {
            return self.end_one(id, lifecycle);
        }
        self.entries.reset_incoming(&id.0);
        Ok(())
    }

    /// The peer has reset its outgoing stream, on which there is no channel: this end's is to be reset too, where the association has it.
    fn reset_in_turn(&mut self, id: StreamId) -> Result<(), AllocError>
        ensures ok { OnOk result (self.new ≡ reset_in_turn id.0 self.old) }
        ensures err { OnErr result (self.new ≡ self.old) }
    {
        if !self.has_stream(id) {
            return Ok(());
        }
        self.refuse(id)?;
        self.entries.reset_incoming(&id.0);
        Ok(())
    }

    /// So many bytes of the stream wait in the socket for a peer that takes them: of a channel that was closed the stream is reset once there are
    /// none, and its former reset is answered.
    pub fn drain(&mut self, id: StreamId, buffered_amount: usize) -> Result<(), AllocError>
        ensures ok { OnOk result (self.new ≡ drain id.0 buffered_amount self.old) }
        ensures err { OnErr result (self.new ≡ self.old) }
    {
        let Some(channel) = self.entries.get(&id.0) else {
            return Ok(());
        };
        let mut lifecycle = channel.lifecycle();
        if !lifecycle.drain(buffered_amount) {
            return Ok(());
        }
        self.emit(Output::Reset(id))?;
        self.set_lifecycle(id, lifecycle);
        Ok(())
    }

    /// The peer opens a channel. Where it is taken its stream is to have its priority, unless that is 0.
    pub fn on_open(&mut self, id: StreamId, description: DataChannelOpen) -> Result<(), AllocError>
        ensures ok { OnOk result (self.new ≡ on_open id.0 (open_of description) self.old) }
        ensures err { OnErr result (Emits self.old self.new) }
    {
        if !self.has_stream(id) {
            return self.tell(Output::Refused(id, Refusal::NoSuchStream));
        }
        if is_own(self.is_client, id.0) {
            return self.turn_down(id, Refusal::WrongParity);
        }
        self.open_there(id, description)
    }

    /// Where the peer may open channels.
    fn open_there(&mut self, id: StreamId, description: DataChannelOpen) -> Result<(), AllocError>
        ensures ok { OnOk result (self.new ≡ open_from (channel_at id.0 self.old.entries) id.0 (open_of description) self.old) }
        ensures err { OnErr result (Emits self.old self.new) }
    {
        let Some(channel) = self.entries.get(&id.0) else {
            if !self.has_room(0, &description) {
                return self.turn_down(id, Refusal::NoRoom);
            }
            return self.take_open(id, description, Lifecycle::negotiated());
        };
        let lifecycle = channel.lifecycle();
        if !lifecycle.may_reopen() {
            return self.turn_down(id, Refusal::StreamInUse);
        }
        let before = channel.kept_bytes();
        if !self.has_room(before, &description) {
            return self.turn_down(id, Refusal::NoRoom);
        }
        self.tell_end(id, lifecycle)?;
        self.take_open(id, description, Lifecycle::reopened())
    }

    /// As `emit`, for calls that may have emitted something where memory runs out.
    fn tell(&mut self, output: Output) -> Result<(), AllocError>
        ensures ok { OnOk result (self.new ≡ emit (output_of output) self.old) }
        ensures err { OnErr result (Emits self.old self.new) }
    {
        self.emit(output)
    }

    fn hand(&mut self, received: Received, id: StreamId) -> Result<(), AllocError>
        ensures ok { OnOk result (self.new ≡ hand (received_as received) id.0 self.old) }
        ensures err { OnErr result (self.new ≡ self.old) }
    {
        match received {
            Received::Nothing => Ok(()),
            Received::Message(kind, bytes) => self.emit(Output::Message(id, kind, bytes)),
            Received::TooLong => self.emit(Output::Refused(id, Refusal::TooLong)),
        }
    }

    /// How many bytes more the channels may keep.
    fn room(&self) -> usize
        ensures { result ≡ room self.now }
    {
        (self.max_kept_bytes as u128).saturating_sub(self.entries.kept_bytes()) as usize
    }

    /// Whether there is room for a label and a protocol, in place of so many bytes.
    fn has_room(&self, before: u128, description: &DataChannelOpen) -> bool
        ensures { result ≡ has_room before (open_of description.now) self.now }
    {
        description.text_bytes() <= (self.room() as u128).saturating_add(before)
    }

    /// The longest message that what came behind so many bytes may be of. A part is kept until the last one comes, and so has to find room.
    fn limit_of(&self, protocol: PayloadProtocol, parts: usize) -> usize
        ensures { result ≡ limit_of protocol parts self.now }
    {
        match protocol {
            PayloadProtocol::Part(_kind) => self.limit.min(parts.saturating_add(self.room())),
            _ => self.limit,
        }
    }

    /// What becomes of data on the stream, where its channel takes any.
    #[tactic(auto, using(crate::proofs::StandsLemmas::stands_same, crate::proofs::StandsLemmas::stands_told, crate::proofs::StandsLemmas::stands_changed))]
    fn deliver(
        &mut self,
        id: StreamId,
        protocol: PayloadProtocol,
        payload: Vec<u8>,
    ) -> Result<(), AllocError>
        ensures ok { OnOk result (self.new ≡ deliver id.0 protocol payload.items self.old) }
        ensures err { OnErr result (Stands self.old self.new) }
    {
        let Some(channel) = self.entries.get(&id.0) else {
            return self.emit(Output::Refused(id, Refusal::NoChannel));
        };
        if !channel.lifecycle().takes_data() {
            return self.emit(Output::Refused(id, Refusal::NoChannel));
        }
        let parts = channel.parts_len();
        let limit = self.limit_of(protocol, parts);
        let received = self
            .entries
            .on_data(&id.0, self.alloc, limit, protocol, payload)?;
        self.hand(received, id)
    }

    /// The peer, or the socket, has refused to reset this outgoing stream.
    pub fn on_reset_denied(&mut self, id: StreamId) -> Result<(), AllocError>
        ensures ok { OnOk result (self.new ≡ on_reset_denied id.0 self.old) }
        ensures err { OnErr result (self.new ≡ self.old) }
    {
        let Some(channel) = self.entries.get(&id.0) else {
            return Ok(());
        };
        let before = channel.lifecycle();
        let mut lifecycle = before;
        lifecycle.deny();
        if is_denied(lifecycle.outgoing) && is_shown(before) {
            self.emit(Output::Closed(id))?;
        }
        self.set_lifecycle(id, lifecycle);
        Ok(())
    }

    /// As `on_reset_denied`, for each of these streams.
    pub(crate) fn on_resets_denied(&mut self, ids: &[StreamId]) -> Result<(), AllocError>
        ensures { OnOk result (self.new ≡ each on_reset_denied (numbers_of ids.now) self.old) }
    {
        for id in ids {
            self.on_reset_denied(*id)?;
        }
        Ok(())
    }

    /// Counts a message of so many bytes that may be told at once, and answers whether it may: nothing is to be done before it, and the channel
    /// on the stream hands it out as it came. Otherwise nothing changes.
    pub(crate) fn counts_at_once(&mut self, id: StreamId, size: usize) -> bool
        ensures quiet { IsTrue result → self.old.outputs ≡ [] }
        ensures whole { IsTrue result → option_map (takes_whole self.old.limit size) (channel_at id.0 self.old.entries) ≡ Some true }
        ensures row { IsTrue result → self.new ≡ change (count_received size) id.0 self.old }
        ensures none { IsFalse result → self.new ≡ self.old }
    {
        if self.outputs.len() != 0 {
            return false;
        }
        self.entries.count_whole(&id.0, self.limit, size)
    }

    /// Data came on the stream, and with it the news that the peer has the channel.
    #[tactic(auto, using(crate::proofs::StandsLemmas::stands_then, crate::proofs::StandsLemmas::stands_same, crate::proofs::StandsLemmas::stands_ack))]
    fn on_payload(
        &mut self,
        id: StreamId,
        protocol: PayloadProtocol,
        payload: Vec<u8>,
    ) -> Result<(), AllocError>
        ensures ok { OnOk result (self.new ≡ on_payload id.0 protocol payload.items self.old) }
        ensures err { OnErr result (Stands self.old self.new) }
    {
        self.on_ack(id)?;
        self.deliver(id, protocol, payload)
    }

    fn on_control(&mut self, id: StreamId, payload: &[u8]) -> Result<(), AllocError>
        ensures ok { OnOk result (OnControl id.0 payload.now self.old self.new) }
        ensures err { OnErr result (Emits self.old self.new) }
    {
        match ChannelMessage::from_bytes(self.alloc, payload) {
            Ok(ChannelMessage::Open(description)) => self.on_open(id, description),
            Ok(ChannelMessage::Ack) => self.confirm(id),
            Err(ChannelMessageFault::Memory) => Err(AllocError),
            Err(fault) => self.turn_down(id, Refusal::BadMessage(fault)),
        }
    }

    /// As `on_ack`, for calls that may have emitted something where memory runs out.
    fn confirm(&mut self, id: StreamId) -> Result<(), AllocError>
        ensures ok { OnOk result (self.new ≡ on_ack id.0 self.old) }
        ensures err { OnErr result (Emits self.old self.new) }
    {
        self.on_ack(id)
    }

    /// A message of SCTP came.
    pub fn on_message(&mut self, message: Message) -> Result<(), AllocError>
        ensures ok { OnOk result (OnMessage (protocol_of message.ppid.0) message.stream_id.0 message.payload.items self.old self.new) }
        ensures err { OnErr result (Stands self.old self.new) }
    {
        let id = message.stream_id;
        match PayloadProtocol::from_ppid(message.ppid) {
            None => self.emit(Output::Refused(id, Refusal::UnknownPayloadProtocol)),
            Some(PayloadProtocol::Control) => self.on_control(id, &message.payload),
            Some(protocol) => self.on_payload(id, protocol, message.payload),
        }
    }

    /// The streams that have a channel, ascending.
    pub fn streams(&self) -> Result<Vec<StreamId>, AllocError>
        ensures { IfOk result (λ ids. map (λ id. id.0) ids.items ≡ keys_of self.now.entries) }
    {
        self.entries.streams(self.alloc)
    }

    /// Those of them whose peer hasn't reset them yet: no other one is looked at.
    pub fn incoming_streams(&self) -> Result<Vec<StreamId>, AllocError>
        ensures { IfOk result (λ ids. map (λ id. id.0) ids.items ≡ incoming_streams self.now.entries) }
    {
        self.entries.incoming_streams(self.alloc)
    }

    /// The channel on the stream is closed, where the association doesn't have the stream.
    fn end_missing(&mut self, id: StreamId) -> Result<(), AllocError>
        ensures ok { OnOk result (self.new ≡ end_missing id.0 self.old) }
        ensures err { OnErr result (self.new ≡ self.old) }
    {
        if !self.has_stream(id) {
            if let Some(channel) = self.entries.get(&id.0) {
                let lifecycle = channel.lifecycle();
                return self.end_one(id, lifecycle);
            }
        }
        Ok(())
    }

    fn end_each_missing(&mut self, ids: &[StreamId]) -> Result<(), AllocError>
        ensures { OnOk result (self.new ≡ each end_missing (numbers_of ids.now) self.old) }
    {
        for id in ids {
            self.end_missing(*id)?;
        }
        Ok(())
    }

    /// The association stands: each channel on a stream that it doesn't have is closed.
    pub fn end_all_missing(&mut self) -> Result<(), AllocError>
        ensures { OnOk result (self.new ≡ each end_missing (keys_of self.old.entries) self.old) }
    {
        if self.entries.are_below(self.stream_count) {
            return Ok(());
        }
        let ids = self.streams()?;
        self.end_each_missing(&ids)
    }

    /// The association has ended: each channel is closed, and its stream is free.
    pub fn end(&mut self) -> Result<(), AllocError>
        ensures ok { OnOk result (self.new ≡ end self.old) }
        ensures err { OnErr result (Emits self.old self.new) }
    {
        tell_all_closed(self.entries.as_map(), &mut self.outputs)?;
        self.entries.clear();
        Ok(())
    }
}
