//! A fragment that has its TSN.

ghost use Rattle.std.specs.Prelude.{◌≡◌, ◌+◌, ◌-◌, ◌*◌, ◌/◌, ◌<◌, ◌≤◌, ◌^◌, length, min, false, None, IfOk};
ghost use Rattle.std.specs.Duration.{as_nanos};
ghost use Rattle.sctp_chunk.specs.Views.{fragment_tree};
ghost use Rattle.sctp_tx_outstanding.specs.OutstandingData.{first_sent};
ghost use Rattle.sctp_tx_outstanding.specs.Item.{header_size, size_of, chunk_size, acked, nack_state, resent};

mod handover;

use sctp_chunk::Data;
use sctp_serial::{LifecycleId, OutgoingMessageId, SocketTime};
use std::alloc::{AllocError, Global};
use std::marker::Model;
use std::time::Duration;

/// The count of an item's sendings stops there: one above the greatest limit of resendings.
const MOST_SENDINGS: u32 = 65_536;

/// What is known of a fragment that was sent.
#[derive(Clone, Copy)]
pub enum ItemState {
    /// It was sent, and nothing was received of it.
    InFlight,
    /// The peer reported later ones, and not this one.
    Missing,
    /// It is lost, and is to be sent again.
    Queued,
    /// It is to be sent again, by the packet that ignores the congestion window.
    QueuedFast,
    /// A gap ack block of the last SACK covers it.
    Acked,
    /// Its message was given up, for good.
    GivenUp,
}

/// What says that items are missing.
#[derive(Clone, Copy)]
pub enum MissIndication {
    /// The expiry of T3-rtx (RFC 9260 section 6.3.3).
    Timeout,
    /// A SACK whose highest number newly acknowledged is `newest` (section 7.2.4). Of an item that it loses reports count from
    /// `next` on: from the number that the next fragment takes, or, if an item may be lost more than once a flight, from 0.
    Report { newest: u128, next: u128 },
}

impl ItemState {
    fn acked(self) -> ItemState
        ensures { result ≡ acked self }
    {
        match self {
            ItemState::GivenUp => ItemState::GivenUp,
            _ => ItemState::Acked,
        }
    }

    fn nacked(is_lost: bool, fast: bool) -> ItemState
        ensures { result ≡ nack_state is_lost fast }
    {
        if !is_lost {
            return ItemState::Missing;
        }
        if fast {
            ItemState::QueuedFast
        } else {
            ItemState::Queued
        }
    }

    fn resent(self) -> ItemState
        ensures { result ≡ resent self }
    {
        match self {
            ItemState::Queued => ItemState::InFlight,
            ItemState::QueuedFast => ItemState::InFlight,
            _ => self,
        }
    }
}

/// A fragment that has its TSN, until the peer's cumulative TSN passes it. Fields stand so that they leave no gap in memory.
#[derive(Drop)]
pub struct Item {
    message_id: OutgoingMessageId,
    max_retransmissions: u16,
    state: ItemState,
    data: Data,
    lifecycle_id: Option<LifecycleId>,
    sendings: u32,
    reports: u32,
    expires_at: Option<SocketTime>,
    counts_from: u128,
    sent_at: SocketTime,
}

impl Model for Item {
    ghost use Rattle.std.specs.Prelude.{◌<◌, ◌≤◌, ◌^◌, length};
    ghost use Rattle.sctp_chunk.specs.Views.{fragment_tree};
    ghost use Rattle.sctp_tx_outstanding.specs.Item.{Item};

    ghost Value = { Item };

    ghost view = { λ i. record { number = i.message_id.0; fragment = fragment_tree i.«data»; expires = i.expires_at; limit = i.max_retransmissions; lifecycle = i.lifecycle_id; state = i.state; sent = i.sendings; reports = i.reports; counts_from = i.counts_from; sent_at = i.sent_at } };

    ghost invariant = { λ i. (length i.«data».payload.items < 2 ^ 32) × ((i.sendings ≤ 65536) × (i.reports ≤ 2)) };
}

impl Item {
    ghost use Rattle.std.specs.Prelude.{Option, true};
    ghost use Rattle.sctp_tx_outstanding.specs.Item.{is_outstanding, is_open, should_be_retransmitted, is_fast, is_nacked, is_acked, is_abandoned, has_been_retransmitted, has_expired, expiry, or_never, is_used_up, ack, uncover, counts, is_lost, nack, mark_as_retransmitted, miss_fast, abandon, rtt_from};

    /// A fragment that is sent now for the first time. Its payload has fewer than 2^32 bytes.
    pub fn new(
        message_id: OutgoingMessageId,
        fragment: Data,
        now: SocketTime,
        max_retransmissions: u16,
        expires_at: Option<SocketTime>,
        lifecycle_id: Option<LifecycleId>,
    ) -> Item
        requires small { length fragment.payload.items < 2 ^ 32 }
        ensures { result ≡ first_sent message_id.0 (fragment_tree fragment) now max_retransmissions expires_at lifecycle_id }
    {
        Item {
            message_id,
            data: fragment,
            expires_at,
            max_retransmissions,
            lifecycle_id,
            state: ItemState::InFlight,
            sendings: 1,
            reports: 0,
            counts_from: 0,
            sent_at: now,
        }
    }

    /// An end of a message that is given up. It is never sent. Its payload has fewer than 2^32 bytes.
    pub fn placeholder(message_id: OutgoingMessageId, fragment: Data) -> Item
        requires small { length fragment.payload.items < 2 ^ 32 }
        ensures { result ≡ record {
          number = message_id.0;
          fragment = fragment_tree fragment;
          expires = None;
          limit = 0;
          lifecycle = None;
          state = ItemState.GivenUp;
          sent = 0;
          reports = 0;
          counts_from = 0;
          sent_at = 0;
        } }
    {
        Item {
            message_id,
            data: fragment,
            expires_at: None,
            max_retransmissions: 0,
            lifecycle_id: None,
            state: ItemState::GivenUp,
            sendings: 0,
            reports: 0,
            counts_from: 0,
            sent_at: SocketTime::zero(),
        }
    }

    /// Whether it is in flight or missing.
    pub fn is_outstanding(&self) -> bool
        ensures { result ≡ is_outstanding self.now }
    {
        matches!(self.state, ItemState::InFlight | ItemState::Missing)
    }

    /// Whether a block of the last SACK covers it.
    pub fn is_acked(&self) -> bool
        ensures { result ≡ is_acked self.now }
    {
        matches!(self.state, ItemState::Acked)
    }

    /// Whether it was reported missing, or is lost.
    pub fn is_nacked(&self) -> bool
        ensures { result ≡ is_nacked self.now }
    {
        matches!(
            self.state,
            ItemState::Missing | ItemState::Queued | ItemState::QueuedFast
        )
    }

    /// Whether its message was given up.
    pub fn is_abandoned(&self) -> bool
        ensures { result ≡ is_abandoned self.now }
    {
        matches!(self.state, ItemState::GivenUp)
    }

    /// Whether it is to be sent again.
    pub fn should_be_retransmitted(&self) -> bool
        ensures { result ≡ should_be_retransmitted self.now }
    {
        matches!(self.state, ItemState::Queued | ItemState::QueuedFast)
    }

    /// Whether it is neither acknowledged nor given up.
    #[inline(always)]
    pub(crate) fn is_open(&self) -> bool
        ensures { result ≡ is_open self.now }
    {
        self.is_outstanding() || self.should_be_retransmitted()
    }

    /// Whether it is to be sent again by the packet that ignores the congestion window.
    pub fn is_fast(&self) -> bool
        ensures { result ≡ is_fast self.now }
    {
        matches!(self.state, ItemState::QueuedFast)
    }

    /// Whether it was sent more than once.
    pub fn has_been_retransmitted(&self) -> bool
        ensures { result ≡ has_been_retransmitted self.now }
    {
        self.sendings > 1
    }

    /// Whether its message isn't worth sending any more.
    pub fn has_expired(&self, now: SocketTime) -> bool
        ensures { result ≡ has_expired now self.now }
    {
        match self.expires_at {
            Some(moment) => moment <= now,
            None => false,
        }
    }

    /// From which nanosecond on its message isn't worth sending, where it is missing or lost; `u128::MAX` is never.
    pub fn expiry(&self) -> u128
        ensures { result ≡ expiry self.now }
    {
        if !self.is_nacked() {
            return u128::MAX;
        }
        self.deadline()
    }

    /// From which nanosecond on its message isn't worth sending; `u128::MAX` is never.
    pub fn deadline(&self) -> u128
        ensures { result ≡ or_never self.now.expires }
    {
        match self.expires_at {
            Some(moment) => moment.as_nanos(),
            None => u128::MAX,
        }
    }

    /// Whether it was sent again as often as it may be.
    pub fn is_used_up(&self) -> bool
        ensures { result ≡ is_used_up self.now }
    {
        u32::from(self.max_retransmissions) <= self.sendings.saturating_sub(1)
    }

    /// How often it was handed out to be sent; the count stops at 65,536.
    pub fn sendings(&self) -> u32
        ensures count { result ≡ self.now.sent }
        ensures small { result ≤ 65536 }
    {
        self.sendings
    }

    /// The number of its message.
    pub fn message_id(&self) -> OutgoingMessageId
        ensures { result.0 ≡ self.now.number }
    {
        self.message_id
    }

    /// The fragment.
    pub fn data(&self) -> &Data
        ensures { fragment_tree result.now ≡ self.now.fragment }
    {
        &self.data
    }

    /// The name of its message, where it is the end of one that has a name.
    pub fn lifecycle_id(&self) -> Option<LifecycleId>
        ensures { result ≡ self.now.lifecycle }
    {
        self.lifecycle_id
    }

    /// The bytes of its payload.
    pub fn payload_size(&self) -> usize
        ensures size { result ≡ length self.now.fragment.payload }
        ensures small { result < 2 ^ 32 }
    {
        self.data.payload.len()
    }

    /// The bytes of its DATA or I-DATA chunk, with the header and the padding.
    pub fn chunk_size(&self, is_interleaved: bool) -> usize
        ensures size { result ≡ chunk_size is_interleaved self.now }
        ensures small { result < 2 ^ 33 }
    {
        chunk_size(&self.data, is_interleaved)
    }

    /// The peer has it, as a block of a SACK says. What was given up stays so.
    pub fn ack(&mut self)
        ensures { self.new ≡ ack self.old }
    {
        if !self.is_abandoned() {
            self.reports = 0;
        }
        self.state = self.state.acked();
    }

    /// Whether an acknowledgement leaves it as it is.
    pub(crate) fn rests_covered(&self) -> bool
        ensures { result ≡ true → ack self.now ≡ self.now }
    {
        match self.state {
            ItemState::Acked => self.reports == 0,
            ItemState::GivenUp => true,
            _ => false,
        }
    }

    /// Whether it stays as it is where no block covers it.
    pub(crate) fn rests_uncovered(&self) -> bool
        ensures { result ≡ true → uncover self.now ≡ self.now }
    {
        !self.is_acked()
    }

    /// No block of the last SACK covers it: what was acknowledged is in flight again.
    pub fn uncover(&mut self)
        ensures { self.new ≡ uncover self.old }
    {
        if matches!(self.state, ItemState::Acked) {
            self.state = ItemState::InFlight;
        }
    }

    /// Whether this counts.
    fn counts(&self, indication: MissIndication) -> bool
        ensures { result ≡ counts indication self.now }
    {
        match indication {
            MissIndication::Timeout => true,
            MissIndication::Report { newest, .. } => self.counts_from <= newest,
        }
    }

    /// Whether it is lost by this.
    pub fn is_lost(&self, indication: MissIndication) -> bool
        ensures { result ≡ is_lost indication self.now }
    {
        match indication {
            MissIndication::Timeout => true,
            MissIndication::Report { .. } => self.counts(indication) && self.reports >= 2,
        }
    }

    /// It is missing, by a report of the peer or by a timeout. By a timeout, or the third report that counts, it is lost, and is
    /// to be sent again, or `fast`. What is not in flight or missing stays as it is.
    pub fn nack(&mut self, indication: MissIndication, fast: bool)
        ensures { self.new ≡ nack indication fast self.old }
    {
        if !self.is_outstanding() {
            return;
        }
        let is_lost = self.is_lost(indication);
        self.state = ItemState::nacked(is_lost, fast);
        if is_lost {
            self.reports = 0;
            if let MissIndication::Report { next, .. } = indication {
                self.counts_from = next;
            }
        } else if self.counts(indication) {
            self.reports += 1;
        }
    }

    /// It is handed out to be sent once more.
    pub fn mark_as_retransmitted(&mut self)
        ensures { self.new ≡ mark_as_retransmitted self.old }
    {
        self.state = self.state.resent();
        self.sendings = MOST_SENDINGS.min(self.sendings + 1);
    }

    /// The fast packet had no room for it.
    pub fn miss_fast(&mut self)
        ensures { self.new ≡ miss_fast self.old }
    {
        if matches!(self.state, ItemState::QueuedFast) {
            self.state = ItemState::Queued;
        }
    }

    /// Its message is given up, for good.
    pub fn abandon(&mut self)
        ensures { self.new ≡ abandon self.old }
    {
        self.state = ItemState::GivenUp;
    }

    /// Its payload's buffer; the rest is let go.
    pub(crate) fn into_payload(self) -> Vec<u8> {
        self.data.payload
    }

    /// The time since it was first sent.
    pub fn get_rtt_from(&self, now: SocketTime) -> Duration
        ensures { as_nanos result ≡ rtt_from now self.now }
    {
        now - self.sent_at
    }
}

/// The bytes of the header of a DATA or an I-DATA chunk, with the chunk's own.
pub fn header_size(is_interleaved: bool) -> usize
    ensures { result ≡ header_size is_interleaved }
{
    if is_interleaved { 20 } else { 16 }
}

/// The bytes of a DATA or I-DATA chunk with so many bytes of payload, with the header and the padding.
pub(crate) fn padded_size(payload: usize, is_interleaved: bool) -> usize
    requires { payload < 2 ^ 63 }
    ensures { result ≡ (header_size is_interleaved + payload + 3) / 4 * 4 }
{
    (header_size(is_interleaved) + payload + 3) / 4 * 4
}

/// The bytes of the fragment's chunk.
pub fn chunk_size(fragment: &Data, is_interleaved: bool) -> usize
    ensures { result ≡ size_of is_interleaved (fragment_tree fragment.now) }
{
    padded_size(fragment.payload.len(), is_interleaved)
}

/// The fragment once more.
pub fn copy_of(alloc: Global, fragment: &Data) -> Result<Data, AllocError>
    ensures { IfOk result (λ f. fragment_tree f ≡ fragment_tree fragment.now) }
{
    Ok(Data {
        stream_key: fragment.stream_key,
        ssn: fragment.ssn,
        mid: fragment.mid,
        fsn: fragment.fsn,
        ppid: fragment.ppid,
        payload: Vec::from_slice(alloc, &fragment.payload)?,
        is_beginning: fragment.is_beginning,
        is_end: fragment.is_end,
    })
}
