//! A channel: what it is, its lifecycle, and the data that came.

ghost use Rattle.std.specs.Prelude.{◌≡◌, ◌<◌, ◌^◌, [], ◌++◌, length, option_map, true, IsTrue, IsFalse, None, IfOk, OnOk, OnErr};
ghost use Rattle.std.specs.Result.{is_ok};
ghost use Rattle.std.specs.Duration.{as_nanos};
ghost use Rattle.sctp_channels.specs.Views.{open_of};
ghost use Rattle.sctp_channels.specs.DataChannels.{lifetime, retransmissions};
ghost use Rattle.sctp_channels.specs.Lifecycle.{may_send};
ghost use Rattle.sctp_channels.specs.Channel.{count_received, count_sent, exceeds, goes_unordered, keep, kept_by, new_channel, nothing, on_data, received, received_as, reset_incoming, take, taken, takes_whole, with_lifecycle, with_parts};

use crate::{DataChannelOpen, Lifecycle, PayloadKind, PayloadProtocol, Reliability, SendRefusal};
use sctp_serial::Message;
use sctp_state::{DcSctpSocket, SendOptions};
use std::alloc::{AllocError, Global};
use std::marker::Model;
use std::time::Duration;

/// What a channel counts. Each count stops at the greatest number of its type.
#[derive(Clone, Copy, Debug, Default)]
pub struct Statistics {
    /// Messages of the owner that the socket has accepted.
    pub messages_sent: u64,
    /// The bytes of these.
    pub bytes_sent: u64,
    /// Messages that came and weren't refused.
    pub messages_received: u64,
    /// The bytes of these.
    pub bytes_received: u64,
}

/// What becomes of data.
#[derive(Debug, Drop)]
pub enum Received {
    /// It waits for the last part of its message.
    Nothing,
    /// A message for the owner.
    Message(PayloadKind, Vec<u8>),
    /// A message that was longer than it may be is dropped.
    TooLong,
}

/// A channel.
#[derive(Drop)]
pub struct Channel {
    lifecycle: Lifecycle,
    description: DataChannelOpen,
    parts: Vec<u8>,
    is_too_long: bool,
    statistics: Statistics,
}

impl Model for Channel {
    ghost use Rattle.sctp_channels.specs.Views.{open_of};
    ghost use Rattle.sctp_channels.specs.Channel.{Channel};

    ghost Value = { Channel };

    ghost view = { λ c. record { lifecycle = c.lifecycle; description = open_of c.description; parts = c.parts.items; is_too_long = c.is_too_long; statistics = c.statistics } };
}

/// How often a message is sent again at most, and for how long.
fn limits(reliability: Reliability) -> (Option<u16>, Option<Duration>)
    ensures again { result.0 ≡ retransmissions reliability }
    ensures lifetime { option_map as_nanos result.1 ≡ lifetime reliability }
{
    match reliability {
        Reliability::Reliable => (None, None),
        Reliability::MaxRetransmissions(count) => (Some(count.min(65535) as u16), None),
        Reliability::MaxLifetime(milliseconds) => {
            (None, Some(Duration::from_millis(milliseconds as u64)))
        }
    }
}

impl Channel {
    /// A channel that nothing was sent or came on.
    pub fn new(alloc: Global, lifecycle: Lifecycle, description: DataChannelOpen) -> Channel
        ensures { result ≡ new_channel lifecycle (open_of description) }
    {
        Channel {
            lifecycle,
            description,
            parts: Vec::new(alloc),
            is_too_long: false,
            statistics: Statistics::default(),
        }
    }

    /// What it may do.
    pub fn lifecycle(&self) -> Lifecycle
        ensures { result ≡ self.now.lifecycle }
    {
        self.lifecycle
    }

    /// Goes on with this lifecycle.
    pub fn set_lifecycle(&mut self, lifecycle: Lifecycle)
        ensures { self.new ≡ with_lifecycle lifecycle self.old }
    {
        self.lifecycle = lifecycle;
    }

    /// What it was opened as.
    pub fn description(&self) -> &DataChannelOpen
        ensures { open_of result.now ≡ self.now.description }
    {
        &self.description
    }

    /// What it has counted.
    pub fn statistics(&self) -> Statistics
        ensures { result ≡ self.now.statistics }
    {
        self.statistics
    }

    /// The bytes that it keeps: of its label, its protocol and parts of a message whose last one did not come.
    pub(crate) fn kept_bytes(&self) -> u128
        ensures kept { result ≡ kept_by self.now }
        ensures small { result < 2 ^ 66 }
    {
        self.description.text_bytes() + self.parts.len() as u128
    }

    /// The bytes of these parts.
    pub(crate) fn parts_len(&self) -> usize
        ensures { result ≡ length self.now.parts }
    {
        self.parts.len()
    }

    /// Whether the next message may overtake others: on an unordered channel, once both ends have it.
    pub fn goes_unordered(&self) -> bool
        ensures { result ≡ goes_unordered self.now }
    {
        self.description.unordered && !self.lifecycle.is_connecting()
    }

    /// How its messages go.
    fn send_options(&self) -> SendOptions
        ensures unordered { result.unordered ≡ goes_unordered self.now }
        ensures again { result.max_retransmissions ≡ retransmissions self.now.description.reliability }
        ensures lifetime { option_map as_nanos result.lifetime ≡ lifetime self.now.description.reliability }
        ensures silent { result.lifecycle_id ≡ None }
    {
        let (max_retransmissions, lifetime) = limits(self.description.reliability);
        SendOptions {
            unordered: self.goes_unordered(),
            lifetime,
            max_retransmissions,
            lifecycle_id: None,
        }
    }

    /// Hands a message of so many bytes to the socket, unless it is refused, and counts it.
    pub(crate) fn send<S: DcSctpSocket>(
        &mut self,
        socket: &mut S,
        size: usize,
        given: Result<Message, SendRefusal>,
    ) -> Result<(), SendRefusal>
        ensures ok { OnOk result (self.new ≡ count_sent size self.old) }
        ensures opened { OnOk result (may_send self.old.lifecycle ≡ true) }
        ensures given { OnOk result (is_ok given ≡ true) }
        ensures err { OnErr result (self.new ≡ self.old) }
    {
        if !self.lifecycle.may_send() {
            return Err(SendRefusal::Closing);
        }
        socket.send(given?, &self.send_options())?;
        self.count_sent(size);
        Ok(())
    }

    /// The socket has accepted a message of so many bytes.
    pub fn count_sent(&mut self, size: usize)
        ensures { self.new ≡ count_sent size self.old }
    {
        self.statistics.messages_sent = self.statistics.messages_sent.saturating_add(1);
        self.statistics.bytes_sent = self.statistics.bytes_sent.saturating_add(size as u64);
    }

    fn count_received(&mut self, size: usize)
        ensures { self.new ≡ count_received size self.old }
    {
        self.statistics.messages_received = self.statistics.messages_received.saturating_add(1);
        self.statistics.bytes_received = self.statistics.bytes_received.saturating_add(size as u64);
    }

    /// The peer has reset its outgoing stream: this end closes the channel too, and of a message whose last part did not come nothing is kept.
    pub fn reset_incoming(&mut self)
        ensures { self.new ≡ reset_incoming self.old }
    {
        self.lifecycle.stop_incoming();
        self.drop_parts(false);
    }

    fn drop_parts(&mut self, is_too_long: bool)
        ensures { self.new ≡ with_parts [] is_too_long self.old }
    {
        self.parts.clear();
        self.parts.shrink_to_fit();
        self.is_too_long = is_too_long;
    }

    fn exceeds(&self, limit: usize, payload: &[u8]) -> bool
        ensures { result ≡ exceeds limit (length payload.now) self.now }
    {
        self.is_too_long || limit < self.parts.len() + payload.len()
    }

    /// Counts a message of so many bytes that is handed out as it came, and answers whether it is: both ends have the channel, no part waits
    /// in front of it, and it isn't too long. Otherwise nothing changes.
    pub(crate) fn count_whole(&mut self, limit: usize, size: usize) -> bool
        ensures answer { result ≡ takes_whole limit size self.old }
        ensures row { IsTrue result → self.new ≡ count_received size self.old }
        ensures none { IsFalse result → self.new ≡ self.old }
    {
        let is_whole = !self.lifecycle.is_connecting()
            && self.lifecycle.takes_data()
            && !self.is_too_long
            && self.parts.len() == 0
            && size <= limit;
        if is_whole {
            self.count_received(size);
        }
        is_whole
    }

    /// A payload came on the stream, under a PPID of this protocol. A message of more than `limit` bytes is dropped: more than the peer was
    /// told, or parts for which there is no room. Where memory runs out the channel is as it was, and the payload is lost.
    pub fn on_data(
        &mut self,
        alloc: Global,
        limit: usize,
        protocol: PayloadProtocol,
        payload: Vec<u8>,
    ) -> Result<Received, AllocError>
        ensures row { OnOk result (self.new ≡ on_data limit protocol payload.items self.old) }
        ensures received { IfOk result (λ it. received_as it ≡ received limit protocol payload.items self.old) }
        ensures err { OnErr result (self.new ≡ self.old) }
    {
        match protocol {
            PayloadProtocol::Control => Ok(Received::Nothing),
            PayloadProtocol::Part(_kind) => self.keep(limit, &payload),
            PayloadProtocol::Data(kind) => self.take(alloc, limit, kind, payload),
            PayloadProtocol::Empty(kind) => self.take(alloc, limit, kind, Vec::new(alloc)),
        }
    }

    fn keep(&mut self, limit: usize, payload: &[u8]) -> Result<Received, AllocError>
        ensures row { OnOk result (self.new ≡ keep limit payload.now self.old) }
        ensures received { IfOk result (λ it. received_as it ≡ nothing) }
        ensures err { OnErr result (self.new ≡ self.old) }
    {
        if self.exceeds(limit, payload) {
            self.drop_parts(true);
        } else {
            self.make_room(payload)?;
            self.parts.extend_from_slice(payload)?;
        }
        Ok(Received::Nothing)
    }

    /// Makes room behind the parts. It is a quarter of theirs where the payload takes less: so they are seldom moved, and what is free is never
    /// more than a quarter of what is kept.
    fn make_room(&mut self, payload: &[u8]) -> Result<(), AllocError>
        ensures { self.new ≡ self.old }
    {
        let len = self.parts.len();
        if self.parts.capacity() < len + payload.len() {
            self.parts.reserve_exact(payload.len().max(len / 4))?;
        }
        Ok(())
    }

    fn take(
        &mut self,
        alloc: Global,
        limit: usize,
        kind: PayloadKind,
        payload: Vec<u8>,
    ) -> Result<Received, AllocError>
        ensures row { OnOk result (self.new ≡ take limit payload.items self.old) }
        ensures received { IfOk result (λ it. received_as it ≡ taken limit kind payload.items self.old) }
        ensures err { OnErr result (self.new ≡ self.old) }
    {
        if self.exceeds(limit, &payload) {
            self.drop_parts(false);
            return Ok(Received::TooLong);
        }
        let whole = self.join(alloc, payload)?;
        self.count_received(whole.len());
        Ok(Received::Message(kind, whole))
    }

    /// The parts and the payload behind them. Mostly there are no parts, and then nothing is copied.
    fn join(&mut self, alloc: Global, payload: Vec<u8>) -> Result<Vec<u8>, AllocError>
        ensures whole { IfOk result (λ whole. whole.items ≡ self.old.parts ++ payload.items) }
        ensures rest { OnOk result (self.new ≡ with_parts [] self.old.is_too_long self.old) }
        ensures err { OnErr result (self.new ≡ self.old) }
    {
        if self.parts.is_empty() {
            return Ok(payload);
        }
        self.parts.reserve_exact(payload.len())?;
        self.parts.extend_from_slice(&payload)?;
        Ok(std::mem::replace(&mut self.parts, Vec::new(alloc)))
    }
}
