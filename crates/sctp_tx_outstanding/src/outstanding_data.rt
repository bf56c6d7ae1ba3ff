//! The fragments that have their TSN and are not acknowledged for good.

ghost use Rattle.std.specs.Prelude.{◌≡◌, ◌⊎◌, ℕ, ◌+◌, ◌-◌, ◌<◌, ◌≤◌, ◌^◌, ◌&&◌, [], not, nat_lt, min, length, map, slice_get, option_map, filter, take, true, ◌||◌, drop, ◌==◌, Option, Some, None, false, IsTrue, IfOk, IfSome, IfNone, OnOk, OnErr};
ghost use Rattle.std.specs.List.{list_any};
ghost use Rattle.std.specs.Duration.{as_nanos};
ghost use Rattle.sctp_chunk.specs.Views.{forward_tsn_tree, i_forward_tsn_tree};
ghost use Rattle.sctp_chunk.specs.Chunk.{forward_tsn_chunk, i_forward_tsn_chunk};
ghost use Rattle.sctp_tx_outstanding.specs.declared.item.ItemState.TheVariants.{InFlight};
ghost use Rattle.sctp_tx_outstanding.specs.Entries.{ssn_skip, mid_skip};
ghost use Rattle.sctp_serial.specs.Unwrapped.{origin};
ghost use Rattle.sctp_state.specs.Events.{emit_given_up, emit_events, first_of};
ghost use Rattle.sctp_tx_outstanding.specs.Views.{discard_of, point_of};
ghost use Rattle.sctp_tx_outstanding.specs.Losses.{loss_of};
ghost use Rattle.sctp_tx_outstanding.specs.OutstandingData.{append_item, begin_reset, is_last, begun_at};
ghost use Rattle.sctp_tx_outstanding.specs.LastBlocks.{Rest};
ghost use Rattle.sctp_tx_outstanding.specs.Flights.{flies_at};
ghost use Rattle.sctp_tx_outstanding.specs.Expiries.{FindsDue};
ghost use Rattle.sctp_tx_outstanding.specs.Interrupted.{Same, SomeNacked, SomeExpired, SackPartlyTaken};
ghost use Rattle.sctp_tx_outstanding.specs.Forward.{is_forward_due, stops, forward_point};
ghost use Rattle.sctp_tx_outstanding.specs.Sack.{sample, is_in_range, is_valid, staying, leaving, departing_bytes, all_leaving_events, receive_sack, acked_bytes, highest_end};

mod handover;
mod resending;

use crate::breakpoints::Breakpoints;
use crate::expiries::Due;
use crate::item::{Item, MissIndication};
use crate::kept::{Change, Kept, abandon_all, placeholder};
use crate::passed::ForwardPoint;
use crate::sack::{AckInfo, highest_end, pass_idle, report, settle_all, take_out};
use crate::skips::{mid_skips, pass, ssn_skips};
use sctp_chunk::{
    Data, ForwardTsnChunk, GapAckBlock, IForwardTsnChunk, SackChunk, SpareBuffers, are_runs,
};
use sctp_serial::{OutgoingMessageId, SerialNumber, SocketTime, StreamId, Tsn};
use sctp_state::{Events, GivenUp, GivenUpCause, take_first};
use std::alloc::{AllocError, Global};
use std::collections::VecDeque;
use std::marker::Model;
use std::mem;
use std::time::Duration;

/// A message of which the send queue is to drop what is left.
#[derive(Clone, Copy)]
pub struct Discarded {
    pub stream_id: StreamId,
    pub message_id: OutgoingMessageId,
}

/// The fragments that have their TSN, until the peer's cumulative TSN passes them (RFC 9260 section 6.2.1). Their numbers
/// never wrap: a TSN stands for the number nearest to the peer's cumulative TSN.
#[derive(Drop)]
pub struct OutstandingData {
    alloc: Global,
    // how `origin` is written
    first: Tsn,
    acked: u64,
    kept: Kept,
    breakpoints: Breakpoints,
    discards: VecDeque<Discarded>,
    is_partial: bool,
}

impl Model for OutstandingData {
    ghost use Rattle.std.specs.Prelude.{◌+◌, ◌<◌, ◌≤◌, ◌^◌, map};
    ghost use Rattle.sctp_serial.specs.Unwrapped.{origin};
    ghost use Rattle.sctp_tx_outstanding.specs.OutstandingData.{Outstanding};
    ghost use Rattle.sctp_tx_outstanding.specs.Views.{discard_of};

    ghost Value = { Outstanding };

    ghost view = { λ d. record { first = d.first.0; items = record { acked = d.acked; kept = d.kept.items; breaks = d.breakpoints.numbers; discards = map discard_of d.discards.items; is_partial = d.is_partial; is_interleaved = d.kept.is_interleaved } } };

    ghost invariant = { λ d. (origin ≤ d.acked + 1) × (d.acked < 2 ^ 63) };
}

// What a missing report or a timeout finds of an item.
#[derive(Clone, Copy)]
struct Loss {
    is_lost: bool,
    gives_up: bool,
    message_id: OutgoingMessageId,
    resendings: u32,
}

impl OutstandingData {
    ghost use Rattle.sctp_tx_outstanding.specs.OutstandingData.{no_items, next_number, wire_tsn, number_of, flight_bytes, flight_payload, flight_items, waiting_items, fast_items};
    ghost use Rattle.sctp_tx_outstanding.specs.Losses.{end_with_placeholder, abandon_message, first_step, nack_at, nack_below, nack_all, expired_at, expire_at, expire_outstanding};

    /// Nothing is outstanding, and the next TSN is `initial_tsn`. Takes no memory. Without partial reliability no message
    /// is given up.
    pub fn new(
        alloc: Global,
        initial_tsn: Tsn,
        partial_reliability: bool,
        message_interleaving: bool,
    ) -> OutstandingData
        ensures { result ≡ record { first = initial_tsn.0; items = no_items partial_reliability message_interleaving } }
    {
        OutstandingData {
            alloc,
            first: initial_tsn,
            acked: (1 << 32) - 1,
            kept: Kept::new(alloc, message_interleaving),
            breakpoints: Breakpoints::new(alloc),
            discards: VecDeque::new(alloc),
            is_partial: partial_reliability,
        }
    }

    /// Whether no item is kept.
    pub fn is_empty(&self) -> bool
        ensures { result ≡ (length self.now.items.kept == 0) }
    {
        self.kept.len() == 0
    }

    /// Whether messages are interleaved: fragments go in I-DATA chunks.
    pub fn is_interleaved(&self) -> bool
        ensures { result ≡ self.now.items.is_interleaved }
    {
        self.kept.is_interleaved()
    }

    /// How many items are in flight or missing.
    pub fn unacked_items(&self) -> usize
        ensures { result ≡ flight_items self.now.items }
    {
        self.kept.flights()
    }

    /// The bytes of the payloads in flight or missing, at most `usize::MAX`.
    pub fn unacked_payload_bytes(&self) -> usize
        ensures { result ≡ min (flight_payload self.now.items) (2 ^ 64 - 1) }
    {
        self.kept.flight_payload().min(usize::MAX as u128) as usize
    }

    /// The bytes of the chunks in flight or missing, with headers and padding, at most `usize::MAX`.
    pub fn unacked_packet_bytes(&self) -> usize
        ensures { result ≡ min (flight_bytes self.now.items) (2 ^ 64 - 1) }
    {
        self.kept.flight_bytes().min(usize::MAX as u128) as usize
    }

    /// Whether an item is to be sent again.
    pub fn has_data_to_be_retransmitted(&self) -> bool
        ensures { result ≡ nat_lt 0 (waiting_items self.now.items) }
    {
        self.kept.has_queued()
    }

    /// Whether an item is to be sent again by the packet that ignores the congestion window.
    pub fn has_data_to_be_fast_retransmitted(&self) -> bool
        ensures { result ≡ nat_lt 0 (fast_items self.now.items) }
    {
        self.kept.has_fast()
    }

    /// The peer's cumulative TSN: all up to it left.
    pub fn last_cumulative_acked_tsn(&self) -> Tsn
        ensures { result.0 ≡ wire_tsn self.now self.now.items.acked }
    {
        Tsn::wrapped(self.first, self.acked)
    }

    /// The number of the peer's cumulative TSN.
    pub fn acked_number(&self) -> u64
        ensures { result ≡ self.now.items.acked }
    {
        self.acked
    }

    /// The number that the next fragment takes.
    pub fn next_number(&self) -> u128
        ensures { result ≡ next_number self.now.items }
    {
        self.acked as u128 + 1 + self.kept.len() as u128
    }

    /// The TSN that the next fragment takes.
    pub fn next_tsn(&self) -> Tsn
        ensures { result.0 ≡ wire_tsn self.now (next_number self.now.items) }
    {
        self.tsn_at(self.kept.len())
    }

    /// The last TSN that was given.
    pub fn highest_outstanding_tsn(&self) -> Tsn
        ensures { result.0 ≡ wire_tsn self.now (next_number self.now.items - 1) }
    {
        if self.kept.len() == 0 {
            return self.last_cumulative_acked_tsn();
        }
        self.tsn_at(self.kept.len() - 1)
    }

    /// The TSN of the item at a place.
    fn tsn_at(&self, place: usize) -> Tsn
        ensures { result.0 ≡ wire_tsn self.now (self.now.items.acked + 1 + place) }
    {
        let past = (place as u64 % (1 << 32)) as u32;
        Tsn::wrapped(self.first, self.acked + 1) + past
    }

    /// Takes an item that is sent now for the first time, and gives its TSN. Without memory nothing changes.
    pub fn insert(&mut self, item: Item) -> Result<Tsn, AllocError>
        requires in_flight { item.state ≡ InFlight }
        ensures ok { OnOk result (self.new ≡ record self.old { items = append_item item self.old.items }) }
        ensures tsn { IfOk result (λ tsn. tsn.0 ≡ wire_tsn self.old (next_number self.old.items)) }
        ensures err { OnErr result (self.new ≡ self.old) }
    {
        let tsn = self.next_tsn();
        self.kept.push(item)?;
        Ok(tsn)
    }

    /// Whether there are messages of which the send queue is to drop what is left.
    pub fn has_unsent_messages_to_discard(&self) -> bool
        ensures { result ≡ not (length self.now.items.discards == 0) }
    {
        !self.discards.is_empty()
    }

    /// Takes out all messages of which the send queue is to drop what is left, in order.
    pub fn get_unsent_messages_to_discard(&mut self) -> VecDeque<Discarded>
        ensures all { map discard_of result.items ≡ self.old.items.discards }
        ensures rest { self.new ≡ record self.old { items = record self.old.items { discards = [] } } }
    {
        mem::replace(&mut self.discards, VecDeque::new(self.alloc))
    }

    /// The next message of which the send queue is to drop what is left.
    pub fn unsent_message_to_discard(&self) -> Option<Discarded>
        ensures { option_map discard_of result ≡ first_of self.now.items.discards }
    {
        match self.discards.front() {
            Some(next) => Some(*next),
            None => None,
        }
    }

    /// Takes out the next message of which the send queue is to drop what is left.
    pub fn get_unsent_message_to_discard(&mut self) -> Option<Discarded>
        ensures first { option_map discard_of result ≡ first_of self.old.items.discards }
        ensures rest { self.new ≡ record self.old { items = record self.old.items { discards = drop 1 self.old.items.discards } } }
    {
        take_first(&mut self.discards)
    }

    /// A reset of streams begins: no forward point crosses the next TSN. Where the last reset began at the same one, nothing
    /// changes, nor without memory.
    pub fn begin_reset_streams(&mut self) -> Result<(), AllocError>
        ensures ok { OnOk result (self.new ≡ record self.old { items = begin_reset self.old.items }) }
        ensures err { OnErr result (self.new ≡ self.old) }
    {
        let number = self.next_number();
        if self.breakpoints.is_last(number) {
            return Ok(());
        }
        self.breakpoints.push(number)?;
        Ok(())
    }

    /// A message whose end was not sent gets one. Without memory nothing changes.
    fn close(&mut self, message_id: OutgoingMessageId) -> Result<(), AllocError>
        ensures ok { OnOk result (self.new ≡ record self.old { items = end_with_placeholder message_id.0 self.old.items }) }
        ensures err { OnErr result (self.new ≡ self.old) }
    {
        let Some(last) = self.kept.last_of(message_id) else {
            return Ok(());
        };
        if last.is_end {
            return Ok(());
        }
        let stream_id = last.stream_key.id();
        self.discards.push_back(Discarded {
            stream_id,
            message_id,
        })?;
        let end = placeholder(self.alloc, message_id, last);
        if self.kept.push(end).is_err() {
            self.discards.pop_back();
            return Err(AllocError);
        }
        Ok(())
    }

    /// Gives up all that is kept of a message, an item of which is at the place, with a record. Without memory nothing changes.
    fn give_up(
        &mut self,
        place: usize,
        message_id: OutgoingMessageId,
        cause: GivenUpCause,
        events: &mut Events,
    ) -> Result<(), AllocError>
        ensures ok { OnOk result (self.new ≡ record self.old { items = abandon_message message_id.0 self.old.items }) }
        ensures emitted { OnOk result (events.new ≡ emit_given_up message_id.0 cause events.old) }
        ensures err { OnErr result (self.new ≡ self.old) }
        ensures silent { OnErr result (events.new ≡ events.old) }
    {
        let mark = events.mark();
        let number = message_id;
        events.add_given_up(GivenUp { number, cause })?;
        self.kept.find_messages();
        if self.kept.is_whole_at(place, message_id) {
            self.kept.change(place, Change::Abandon);
            return Ok(());
        }
        if self.close(message_id).is_err() {
            events.roll_back(mark);
            return Err(AllocError);
        }
        abandon_all(&mut self.kept, message_id);
        Ok(())
    }

    /// What a missing report, or a timeout, finds of the item at the place, if it is in flight or missing.
    fn loss_at(&self, place: usize, indication: MissIndication) -> Option<Loss>
        ensures loss { IfSome result (λ loss. Some loss ≡ option_map (loss_of self.now.items.is_partial indication) (slice_get self.now.items.kept place)) }
        ensures none { IfNone result (flies_at place self.now.items.kept ≡ false) }
    {
        let item = self.kept.get(place)?;
        if !item.is_outstanding() {
            return None;
        }
        let is_lost = item.is_lost(indication);
        let gives_up = is_lost && self.is_partial && item.is_used_up();
        Some(Loss {
            is_lost,
            gives_up,
            message_id: item.message_id(),
            resendings: item.sendings().saturating_sub(1),
        })
    }

    /// The item at the place is missing. Says whether it is lost. Without memory nothing changes.
    fn nack_item(
        &mut self,
        place: usize,
        indication: MissIndication,
        fast: bool,
        events: &mut Events,
    ) -> Result<bool, AllocError>
        ensures items { OnOk result (self.new ≡ record self.old { items = (nack_at indication fast place (first_step self.old.items events.old)).items }) }
        ensures emitted { OnOk result (events.new ≡ (nack_at indication fast place (first_step self.old.items events.old)).emitted) }
        ensures lossy { IfOk result (λ is_lossy. is_lossy ≡ (nack_at indication fast place (first_step self.old.items events.old)).is_lossy) }
        ensures err { OnErr result (self.new ≡ self.old) }
        ensures silent { OnErr result (events.new ≡ events.old) }
    {
        let Some(loss) = self.loss_at(place, indication) else {
            return Ok(false);
        };
        if loss.gives_up {
            let cause = GivenUpCause::Retransmissions(loss.resendings);
            self.give_up(place, loss.message_id, cause, events)?;
            return Ok(true);
        }
        self.kept.change(place, Change::Nack(indication, fast));
        Ok(loss.is_lost)
    }

    /// The items at the places below `count` are missing, in ascending order. Says whether one is lost.
    fn nack_below(
        &mut self,
        count: usize,
        indication: MissIndication,
        fast: bool,
        events: &mut Events,
    ) -> Result<bool, AllocError>
        ensures items { OnOk result (self.new ≡ record self.old { items = (nack_below indication fast count (first_step self.old.items events.old)).items }) }
        ensures emitted { OnOk result (events.new ≡ (nack_below indication fast count (first_step self.old.items events.old)).emitted) }
        ensures lossy { IfOk result (λ is_lossy. is_lossy ≡ (nack_below indication fast count (first_step self.old.items events.old)).is_lossy) }
        ensures err { OnErr result (SomeNacked indication fast self.old events.old self.new events.new) }
    {
        let mut is_lossy = false;
        for place in 0..count {
            let is_lost = self.nack_item(place, indication, fast, events)?;
            is_lossy |= is_lost;
        }
        Ok(is_lossy)
    }

    /// The same of a SACK, by whose blocks the items stand: those that a block covers, and others that aren't outstanding, are
    /// passed over.
    fn nack_uncovered(
        &mut self,
        count: usize,
        blocks: &[GapAckBlock],
        indication: MissIndication,
        fast: bool,
        events: &mut Events,
    ) -> Result<bool, AllocError>
        requires { Rest blocks.now 1 self.old.items.kept }
        ensures items { OnOk result (self.new ≡ record self.old { items = (nack_below indication fast count (first_step self.old.items events.old)).items }) }
        ensures emitted { OnOk result (events.new ≡ (nack_below indication fast count (first_step self.old.items events.old)).emitted) }
        ensures lossy { IfOk result (λ is_lossy. is_lossy ≡ (nack_below indication fast count (first_step self.old.items events.old)).is_lossy) }
        ensures err { OnErr result (SomeNacked indication fast self.old events.old self.new events.new) }
    {
        let are_in_order = are_runs(0, blocks);
        let mut is_lossy = false;
        let mut from = 0;
        let mut uncovered = 0;
        let mut place = 0;
        while place < count {
            let (block, next, end) = pass_idle(
                &self.kept,
                blocks,
                are_in_order,
                from,
                uncovered,
                place,
                count,
            );
            if count <= next {
                return Ok(is_lossy);
            }
            let is_lost = self.nack_item(next, indication, fast, events)?;
            is_lossy |= is_lost;
            from = block;
            uncovered = end;
            place = next + 1;
        }
        Ok(is_lossy)
    }

    /// A timeout: each item in flight or missing is lost, in ascending order. It is to be sent again, or, with partial
    /// reliability and where it was sent again as often as it may be, its message is given up, with a record. Without
    /// memory this is done for some of the first items alone.
    pub fn nack_all(&mut self, events: &mut Events) -> Result<(), AllocError>
        ensures items { OnOk result (self.new ≡ record self.old { items = (nack_all self.old.items events.old).items }) }
        ensures emitted { OnOk result (events.new ≡ (nack_all self.old.items events.old).emitted) }
        ensures err { OnErr result (SomeNacked MissIndication.Timeout false self.old events.old self.new events.new) }
    {
        let count = self.kept.len();
        self.nack_below(count, MissIndication::Timeout, false, events)?;
        Ok(())
    }

    /// Whether a lifetime may have ended: with partial reliability, that of an item that is missing or lost.
    fn may_expire(&self, now: SocketTime) -> bool
        ensures { result ≡ false → (k : ℕ) → expired_at now k self.now.items ≡ None }
    {
        self.is_partial && self.kept.may_expire(now)
    }

    /// Whether the item at the place is missing or lost, and its message expired and may be given up.
    fn expired_at(&self, place: usize, now: SocketTime) -> Option<OutgoingMessageId>
        ensures { option_map (λ id. id.0) result ≡ expired_at now place self.now.items }
    {
        let item = self.kept.get(place)?;
        if self.is_partial && item.is_nacked() && item.has_expired(now) {
            return Some(item.message_id());
        }
        None
    }

    /// Gives the message of the item at the place up if it expired. Without memory nothing changes.
    fn expire_item(
        &mut self,
        place: usize,
        now: SocketTime,
        events: &mut Events,
    ) -> Result<(), AllocError>
        ensures items { OnOk result (self.new ≡ record self.old { items = (expire_at now place (first_step self.old.items events.old)).items }) }
        ensures emitted { OnOk result (events.new ≡ (expire_at now place (first_step self.old.items events.old)).emitted) }
        ensures err { OnErr result (self.new ≡ self.old) }
        ensures silent { OnErr result (events.new ≡ events.old) }
    {
        if let Some(message_id) = self.expired_at(place, now) {
            self.give_up(place, message_id, GivenUpCause::Lifetime, events)?;
        }
        Ok(())
    }

    /// Gives up the messages of the items at these places that expired, in ascending order. Without memory this is done for
    /// some of the first alone.
    fn expire_due(
        &mut self,
        due: &Due,
        now: SocketTime,
        events: &mut Events,
    ) -> Result<(), AllocError>
        requires { FindsDue due.now now self.old.items.kept }
        ensures items { OnOk result (self.new ≡ record self.old { items = (expire_outstanding now self.old.items events.old).items }) }
        ensures emitted { OnOk result (events.new ≡ (expire_outstanding now self.old.items events.old).emitted) }
        ensures err { OnErr result (SomeExpired now self.old events.old self.new events.new) }
    {
        let count = self.kept.len();
        let mut place = 0;
        while place < count {
            let next = due.next(place);
            if count <= next {
                return Ok(());
            }
            self.expire_item(next, now, events)?;
            place = next + 1;
        }
        Ok(())
    }

    /// With partial reliability, gives up each message that expired and has an item that is missing or lost, with a
    /// record. Without memory this is done for some of the first items alone.
    pub fn expire_outstanding_chunks(
        &mut self,
        now: SocketTime,
        events: &mut Events,
    ) -> Result<(), AllocError>
        ensures items { OnOk result (self.new ≡ record self.old { items = (expire_outstanding now self.old.items events.old).items }) }
        ensures emitted { OnOk result (events.new ≡ (expire_outstanding now self.old.items events.old).emitted) }
        ensures err { OnErr result (SomeExpired now self.old events.old self.new events.new) }
    {
        if !self.may_expire(now) {
            return Ok(());
        }
        let due = self.kept.due(self.alloc, now);
        let outcome = self.expire_due(&due, now, events);
        self.kept.find_earliest(now);
        outcome
    }

    /// Whether the first item is given up, so that a forward point is due.
    pub fn should_send_forward_tsn(&self) -> bool
        ensures { result ≡ is_forward_due self.now.items }
    {
        match self.kept.get(0) {
            Some(item) => self.is_partial && item.is_abandoned(),
            None => false,
        }
    }

    /// The number that the TSN stands for: the nearest to the peer's cumulative TSN.
    pub fn unwrapped(&self, tsn: Tsn) -> u64
        ensures value { result ≡ number_of self.now tsn.0 }
        ensures bound { result < 2 ^ 63 + 2 ^ 33 }
    {
        let ahead = tsn.steps_from(Tsn::wrapped(self.first, self.acked));
        if ahead < Tsn::SPACE / 2 {
            self.acked + ahead
        } else {
            self.acked + ahead - Tsn::SPACE
        }
    }

    /// Whether a SACK may be taken: its cumulative TSN lies from the own one to the highest TSN that was given, and no
    /// block reaches above that.
    pub fn is_sack_valid(&self, sack: &SackChunk) -> bool
        ensures { result ≡ is_valid (number_of self.now sack.now.cumulative_tsn_ack.0) sack.now.gap_ack_blocks.items self.now.items }
    {
        let number = self.unwrapped(sack.cumulative_tsn_ack);
        let highest = number as u128 + highest_end(&sack.gap_ack_blocks) as u128;
        self.acked <= number && highest < self.next_number() && number < (1 << 32) + (1 << 62)
    }

    /// The items up to the number leave, with their events. The answer is how many bytes are newly acknowledged by that.
    fn leave(
        &mut self,
        number: u64,
        spares: &mut SpareBuffers,
        events: &mut Events,
    ) -> Result<usize, AllocError>
        requires onward { self.old.items.acked ≤ number }
        requires small { number < 2 ^ 63 }
        ensures items { OnOk result (self.new ≡ record self.old { items = staying number self.old.items }) }
        ensures emitted { OnOk result (events.new ≡ emit_events (all_leaving_events (take (leaving number self.old.items) self.old.items.kept)) events.old) }
        ensures bytes { IfOk result (λ bytes. bytes ≡ min (departing_bytes number self.old.items) (2 ^ 64 - 1)) }
        ensures err { OnErr result (self.new ≡ self.old) }
        ensures silent { OnErr result (events.new ≡ events.old) }
    {
        let count = (number - self.acked) as usize;
        let mark = events.mark();
        if self.kept.emit_leaving(count, events).is_err() {
            events.roll_back(mark);
            return Err(AllocError);
        }
        self.kept.forget_leaving(count);
        let bytes = take_out(&mut self.kept, count, spares);
        self.acked = number;
        self.breakpoints.forget_passed(number);
        Ok(bytes)
    }

    /// Takes a SACK with a valid cumulative TSN, and blocks of any kind: items up to that TSN leave, in order, and an event says of each message
    /// with a lifecycle whose end leaves whether it was delivered; those in blocks are acknowledged, and those that no block covers any more
    /// are in flight again; each that is in flight or missing below the highest one newly acknowledged by a block is
    /// reported missing, and is lost by the third report. `once_a_flight`, the same for each SACK, one that was lost gets reports
    /// anew by what was first sent behind that. Without memory nothing changes, or only some of the first of these reports are
    /// done.
    ///
    /// Items of which the blocks say what the last SACK's said are passed over as they are settled. Blocks that stand in order, as in a
    /// SACK that was cleaned, are walked along with the items. Others are searched whole for each stretch of items of which they say
    /// one thing and the last SACK's one, and once more where these are reported missing. Of the payloads that leave buffers are
    /// kept for the next ones, as many as `spares` takes.
    pub fn handle_sack(
        &mut self,
        sack: &SackChunk,
        once_a_flight: bool,
        is_in_fast_recovery: bool,
        spares: &mut SpareBuffers,
        events: &mut Events,
    ) -> Result<AckInfo, AllocError>
        requires valid { IsTrue (is_in_range (number_of self.old sack.now.cumulative_tsn_ack.0) self.old.items) }
        ensures items { let n = number_of self.old sack.now.cumulative_tsn_ack.0 in let blocks = sack.now.gap_ack_blocks.items in
            OnOk result (self.new ≡ record self.old { items = (receive_sack n blocks once_a_flight is_in_fast_recovery self.old.items events.old).items }) }
        ensures emitted { let n = number_of self.old sack.now.cumulative_tsn_ack.0 in let blocks = sack.now.gap_ack_blocks.items in
            OnOk result (events.new ≡ (receive_sack n blocks once_a_flight is_in_fast_recovery self.old.items events.old).emitted) }
        ensures lossy { let n = number_of self.old sack.now.cumulative_tsn_ack.0 in let blocks = sack.now.gap_ack_blocks.items in
            IfOk result (λ info. info.has_packet_loss ≡ (receive_sack n blocks once_a_flight is_in_fast_recovery self.old.items events.old).is_lossy) }
        ensures bytes { let n = number_of self.old sack.now.cumulative_tsn_ack.0 in let blocks = sack.now.gap_ack_blocks.items in
            IfOk result (λ info. info.bytes_acked ≡ min (acked_bytes n blocks self.old.items) (2 ^ 64 - 1)) }
        ensures err { let n = number_of self.old sack.now.cumulative_tsn_ack.0 in let blocks = sack.now.gap_ack_blocks.items in
            OnErr result (Same self.old events.old self.new events.new ⊎ SackPartlyTaken n blocks once_a_flight is_in_fast_recovery self.old events.old self.new events.new) }
    {
        let number = self.unwrapped(sack.cumulative_tsn_ack);
        let next = self.next_number();
        let left = self.leave(number, spares, events)?;
        let covered = settle_all(&mut self.kept, self.alloc, &sack.gap_ack_blocks);
        let newest = number as u128 + 1 + covered.below as u128;
        let indication = report(once_a_flight, newest, next);
        let fast = !is_in_fast_recovery;
        let is_lossy = self.nack_uncovered(
            covered.below,
            &sack.gap_ack_blocks,
            indication,
            fast,
            events,
        )?;
        Ok(AckInfo {
            bytes_acked: left.saturating_add(covered.bytes),
            has_packet_loss: is_lossy,
        })
    }

    /// How many items stand before the first breakpoint that ends a forward point, or all, if none does.
    fn items_before_break(&self) -> usize
        ensures within { result ≤ length self.now.items.kept }
        ensures before { (place : ℕ) → place < result → stops place self.now.items ≡ false }
        ensures end { result < length self.now.items.kept → stops result self.now.items ≡ true }
    {
        let first = self.acked as u128 + 1;
        let next = self
            .breakpoints
            .next(first, first + self.kept.len() as u128);
        (next - first) as usize
    }

    /// Looks up how far a forward point goes that fits `max_size` bytes, so that it goes on from there later.
    pub fn prepare_forward_point(&mut self, max_size: usize)
        ensures { self.new ≡ self.old }
    {
        let end = self.items_before_break();
        self.kept.find_passed(end, max_size);
    }

    /// The streams of a forward point, and how many items it passes.
    fn forward_point(&self, max_size: usize) -> Result<ForwardPoint, AllocError>
        ensures { IfOk result (λ p. point_of p ≡ forward_point max_size self.now.items) }
    {
        let end = self.items_before_break();
        let begun = self.kept.begun_point(self.alloc, end, max_size)?;
        let mut touched = begun.touched;
        for place in begun.count..end {
            let item = self.kept.get(place);
            let is_interleaved = self.is_interleaved();
            if !pass(&mut touched, item, place as u64, is_interleaved, max_size)? {
                return Ok(ForwardPoint {
                    count: place,
                    touched,
                });
            }
        }
        Ok(ForwardPoint {
            count: end,
            touched,
        })
    }

    /// A FORWARD-TSN over the given-up items from the cumulative TSN on, up to a hole, to a breakpoint of a reset, or to an
    /// entry that would make the chunk longer than `max_size` bytes. It names the streams of ordered messages that it
    /// touches, ascending, each with its last message's number. For messages that are not interleaved. Without memory there is none.
    pub fn create_forward_tsn(&self, max_size: usize) -> Result<ForwardTsnChunk, AllocError>
        requires { self.now.items.is_interleaved ≡ false }
        ensures { let point = forward_point max_size self.now.items in IfOk result (λ c. forward_tsn_tree c ≡ forward_tsn_chunk (wire_tsn self.now (self.now.items.acked + point.count)) (map ssn_skip point.entries)) }
    {
        let point = self.forward_point(max_size)?;
        Ok(ForwardTsnChunk {
            new_cumulative_tsn: self.tsn_behind(point.count),
            skipped_streams: ssn_skips(self.alloc, &point.touched)?,
        })
    }

    /// The same as an I-FORWARD-TSN, for interleaved messages: it names streams with their ordered and their unordered
    /// messages. Without memory there is none.
    pub fn create_iforward_tsn(&self, max_size: usize) -> Result<IForwardTsnChunk, AllocError>
        requires { self.now.items.is_interleaved ≡ true }
        ensures { let point = forward_point max_size self.now.items in IfOk result (λ c. i_forward_tsn_tree c ≡ i_forward_tsn_chunk (wire_tsn self.now (self.now.items.acked + point.count)) (map mid_skip point.entries)) }
    {
        let point = self.forward_point(max_size)?;
        Ok(IForwardTsnChunk {
            new_cumulative_tsn: self.tsn_behind(point.count),
            skipped_streams: mid_skips(self.alloc, &point.touched)?,
        })
    }

    /// The TSN so many items behind the cumulative one.
    fn tsn_behind(&self, count: usize) -> Tsn
        ensures { result.0 ≡ wire_tsn self.now (self.now.items.acked + count) }
    {
        let past = (count as u64 % (1 << 32)) as u32;
        Tsn::wrapped(self.first, self.acked) + past
    }

    /// The round trip time that an acknowledgement of this TSN measures now: the time since its item was sent, where it is
    /// kept and was sent once.
    pub fn measure_rtt(&self, now: SocketTime, tsn: Tsn) -> Option<Duration>
        ensures { option_map as_nanos result ≡ sample now (number_of self.now tsn.0) self.now.items }
    {
        let number = self.unwrapped(tsn);
        if number <= self.acked {
            return None;
        }
        let item = self.kept.get((number - self.acked - 1) as usize)?;
        if item.sendings() == 1 {
            return Some(item.get_rtt_from(now));
        }
        None
    }

    /// Begins behind this TSN. For data of which nothing is outstanding.
    pub fn reset_sequence_numbers(&mut self, last_cumulative_tsn: Tsn)
        requires { self.old.items.kept ≡ [] }
        ensures { self.new ≡ record self.old { items = begun_at self.old.first last_cumulative_tsn.0 self.old.items } }
    {
        let next = last_cumulative_tsn + 1;
        self.acked = (1 << 32) - 1 + next.steps_from(self.first);
    }
}

// What becomes of an item that waits.
#[derive(Clone, Copy)]
enum Turn {
    Send,
    PassOver,
    Leave,
}

// A packet that is being filled.
#[derive(Drop)]
struct Filling {
    chunks: Vec<(Tsn, Data)>,
    room: usize,
    window: usize,
}
