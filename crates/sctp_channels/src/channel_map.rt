//! Channels by the numbers of their streams, and how many bytes they keep.

ghost use Rattle.std.specs.Prelude.{◌≡◌, ◌<◌, All, ◌+◌, ◌-◌, ◌^◌, min, map, true, IfOk, OnOk, OnErr, IsTrue, IsFalse, IfSome, false, is_some, option_copied, option_map, Some, []};
ghost use Rattle.std.specs.Result.{is_ok};
ghost use Rattle.std.specs.Map.{keys_of};
ghost use Rattle.sctp_channels.specs.Channel.{count_received, count_sent, on_data, received_as, reset_incoming, takes_whole, with_lifecycle};
ghost use Rattle.sctp_channels.specs.Channels.{incoming_streams};
ghost use Rattle.sctp_channels.specs.DataChannels.{IsOpenAt};
ghost use Rattle.sctp_channels.specs.Entries.{KeepsIncoming, changed, channel_at, forget, kept_at, kept_bytes, put, received_at};

use crate::{Channel, Lifecycle, PayloadProtocol, Received, SendRefusal};
use sctp_state::DcSctpSocket;
use sctp_wire::{Message, StreamId};
use std::alloc::{AllocError, Global};
use std::collections::{BTreeMap, BTreeSet};
use std::marker::Model;

/// The channels, each on its stream.
#[derive(Drop)]
pub(crate) struct ChannelMap {
    entries: BTreeMap<u16, Channel>,
    // the bytes of labels, protocols and parts
    kept: u128,
    // the streams that the peer has not reset yet
    incoming: BTreeSet<u16>,
}

impl Model for ChannelMap {
    ghost use Rattle.std.specs.Prelude.{◌≡◌};
    ghost use Rattle.sctp_channels.specs.Channels.{incoming_streams};
    ghost use Rattle.sctp_channels.specs.Entries.{AreCounted, Entries};

    ghost Value = { Entries };

    ghost view = { λ m. m.entries.entries };

    ghost invariant = { λ m. AreCounted m.kept m.entries.entries × (m.incoming.keys ≡ incoming_streams m.entries.entries) };
}

/// The count, where a channel kept so many bytes before, and keeps so many now.
fn recounted(kept: u128, before: u128, after: u128) -> u128
    ensures { result ≡ min (kept - before + after) (2 ^ 128 - 1) }
{
    kept.saturating_sub(before).saturating_add(after)
}

/// The bytes that a channel kept, which goes.
fn kept_of(channel: Option<Channel>) -> u128
    ensures { result ≡ kept_at channel }
{
    match channel {
        None => 0,
        Some(channel) => channel.kept_bytes(),
    }
}

fn stream_ids(alloc: Global, channels: &BTreeMap<u16, Channel>) -> Result<Vec<StreamId>, AllocError>
    ensures { IfOk result (λ ids. map (λ id. id.0) ids.items ≡ keys_of channels.now.entries) }
{
    let mut ids = Vec::new(alloc);
    for (id, _) in channels {
        ids.push(StreamId(*id))?;
    }
    Ok(ids)
}

fn ids_of(alloc: Global, streams: &BTreeSet<u16>) -> Result<Vec<StreamId>, AllocError>
    ensures { IfOk result (λ ids. map (λ id. id.0) ids.items ≡ streams.now.keys) }
{
    let mut ids = Vec::new(alloc);
    for id in streams {
        ids.push(StreamId(*id))?;
    }
    Ok(ids)
}

impl ChannelMap {
    pub(crate) fn new(alloc: Global) -> ChannelMap
        ensures { result ≡ [] }
    {
        ChannelMap {
            entries: BTreeMap::new(alloc),
            kept: 0,
            incoming: BTreeSet::new(alloc),
        }
    }

    pub(crate) fn get(&self, id: &u16) -> Option<&Channel>
        ensures { option_copied result ≡ channel_at id.now self.now }
    {
        self.entries.get(id)
    }

    pub(crate) fn contains_key(&self, id: &u16) -> bool
        ensures { result ≡ is_some (channel_at id.now self.now) }
    {
        self.entries.contains_key(id)
    }

    /// Whether no channel is on a stream of this number or a greater one.
    pub(crate) fn are_below(&self, count: u16) -> bool
        ensures { IsTrue result → All (λ k. k < count) (keys_of self.now) }
    {
        match self.entries.last_key_value() {
            None => true,
            Some((last, _)) => *last < count,
        }
    }

    /// As a map of the library.
    pub(crate) fn as_map(&self) -> &BTreeMap<u16, Channel>
        ensures { result.now.entries ≡ self.now }
    {
        &self.entries
    }

    /// The bytes that all channels keep.
    pub(crate) fn kept_bytes(&self) -> u128
        ensures { result ≡ kept_bytes self.now }
    {
        self.kept
    }

    /// A channel that is new, or in place of another one. The peer has not reset its stream.
    pub(crate) fn insert(&mut self, id: u16, channel: Channel) -> Result<(), AllocError>
        requires { channel.lifecycle.is_incoming_reset ≡ false }
        ensures ok { OnOk result (self.new ≡ put id channel self.old) }
        ensures err { OnErr result (self.new ≡ self.old) }
    {
        let after = channel.kept_bytes();
        self.incoming.insert(id)?;
        match self.entries.insert(id, channel) {
            Ok(before) => {
                self.kept = recounted(self.kept, kept_of(before), after);
                Ok(())
            }
            Err(refused) => {
                self.incoming.remove(&id);
                Err(refused.into())
            }
        }
    }

    pub(crate) fn remove(&mut self, id: &u16)
        ensures { self.new ≡ forget id.now self.old }
    {
        // (that the streams ascend is known once the map is read)
        let _count = self.entries.len();
        let before = kept_of(self.entries.remove(id));
        self.incoming.remove(id);
        self.kept = recounted(self.kept, before, 0);
    }

    pub(crate) fn clear(&mut self)
        ensures { self.new ≡ [] }
    {
        self.entries.clear();
        self.incoming.clear();
        self.kept = 0;
    }

    /// Goes on with this lifecycle on a stream that has a channel. Whether the peer has reset its stream stays as it is.
    pub(crate) fn set_lifecycle(&mut self, id: &u16, lifecycle: Lifecycle)
        requires { IfSome (channel_at id.now self.old) (KeepsIncoming lifecycle) }
        ensures { self.new ≡ changed (with_lifecycle lifecycle) id.now self.old }
    {
        let Some(channel) = self.entries.get_mut(id) else {
            return;
        };
        channel.set_lifecycle(lifecycle);
    }

    /// The peer has reset its outgoing stream.
    pub(crate) fn reset_incoming(&mut self, id: &u16)
        ensures { self.new ≡ changed reset_incoming id.now self.old }
    {
        if let Some(channel) = self.entries.get_mut(id) {
            let before = channel.kept_bytes();
            channel.reset_incoming();
            self.incoming.remove(id);
            self.kept = recounted(self.kept, before, channel.kept_bytes());
        }
    }

    /// A payload came on the stream (`Channel::on_data`).
    pub(crate) fn on_data(
        &mut self,
        id: &u16,
        alloc: Global,
        limit: usize,
        protocol: PayloadProtocol,
        payload: Vec<u8>,
    ) -> Result<Received, AllocError>
        ensures row { OnOk result (self.new ≡ changed (on_data limit protocol payload.items) id.now self.old) }
        ensures received { IfOk result (λ it. received_as it ≡ received_at (channel_at id.now self.old) limit protocol payload.items) }
        ensures err { OnErr result (self.new ≡ self.old) }
    {
        let Some(channel) = self.entries.get_mut(id) else {
            return Ok(Received::Nothing);
        };
        let before = channel.kept_bytes();
        let received = channel.on_data(alloc, limit, protocol, payload)?;
        self.kept = recounted(self.kept, before, channel.kept_bytes());
        Ok(received)
    }

    /// Hands a message to the socket, unless it is refused (`Channel::send`).
    pub(crate) fn send<S: DcSctpSocket>(
        &mut self,
        socket: &mut S,
        id: &u16,
        size: usize,
        given: Result<Message, SendRefusal>,
    ) -> Result<(), SendRefusal>
        ensures ok { OnOk result (self.new ≡ changed (count_sent size) id.now self.old) }
        ensures opened { OnOk result (IsOpenAt (channel_at id.now self.old)) }
        ensures given { OnOk result (is_ok given ≡ true) }
        ensures err { OnErr result (self.new ≡ self.old) }
    {
        let Some(channel) = self.entries.get_mut(id) else {
            return Err(SendRefusal::NoChannel);
        };
        channel.send(socket, size, given)
    }

    /// Counts a message of so many bytes, where the channel hands it out as it came (`Channel::count_whole`).
    pub(crate) fn count_whole(&mut self, id: &u16, limit: usize, size: usize) -> bool
        ensures whole { IsTrue result → option_map (takes_whole limit size) (channel_at id.now self.old) ≡ Some true }
        ensures row { IsTrue result → self.new ≡ changed (count_received size) id.now self.old }
        ensures none { IsFalse result → self.new ≡ self.old }
    {
        let Some(channel) = self.entries.get_mut(id) else {
            return false;
        };
        channel.count_whole(limit, size)
    }

    /// The streams that have a channel, ascending.
    pub(crate) fn streams(&self, alloc: Global) -> Result<Vec<StreamId>, AllocError>
        ensures { IfOk result (λ ids. map (λ id. id.0) ids.items ≡ keys_of self.now) }
    {
        stream_ids(alloc, &self.entries)
    }

    /// Those of them that weren't reset yet: no other one is looked at.
    pub(crate) fn incoming_streams(&self, alloc: Global) -> Result<Vec<StreamId>, AllocError>
        ensures { IfOk result (λ ids. map (λ id. id.0) ids.items ≡ incoming_streams self.now) }
    {
        ids_of(alloc, &self.incoming)
    }
}
