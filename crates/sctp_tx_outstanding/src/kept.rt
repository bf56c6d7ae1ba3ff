//! The kept items, with their indexes.

ghost use Rattle.std.specs.Prelude.{◌≡◌, ◌==◌, ◌+◌, true, Some, map, min, option_map, slice_get, nat_lt, sum_by, ◌<◌, ◌≤◌, ◌∷◌, ◌++◌, [], length, drop, take, OnOk, OnErr, IfOk, IfSome, IfNone};
ghost use Rattle.sctp_tx_outstanding.specs.Change.{apply_change};
ghost use Rattle.std.specs.List.{All};
ghost use Rattle.sctp_tx_outstanding.specs.Item.{NotBefore, earliest_of, never};
ghost use Rattle.sctp_tx_outstanding.specs.Expiries.{Expects, FindsDue};
ghost use Rattle.sctp_tx_outstanding.specs.OutstandingData.{change_at, abandon_if_of, last_of, later_at, without_payload, packet_part, payload_part, flight_part, queued_part, fast_part};
ghost use Rattle.sctp_tx_outstanding.specs.Totals.{Exchanges};
ghost use Rattle.sctp_tx_outstanding.specs.Losses.{expires, placeholder};
ghost use Rattle.sctp_tx_outstanding.specs.Passed.{BeginsPoint};
ghost use Rattle.sctp_tx_outstanding.specs.Views.{last_tree, point_of};
ghost use Rattle.sctp_tx_outstanding.specs.LastBlocks.{Rest, Knows};
ghost use Rattle.sctp_tx_outstanding.specs.Sack.{all_leaving_events, open_size};
ghost use Rattle.sctp_tx_outstanding.specs.Messages.{Finds, IsWhole, Lists, NoneIsOf};
ghost use Rattle.sctp_tx_outstanding.specs.Flights.{NoneFlies};
ghost use Rattle.sctp_tx_outstanding.specs.Runs.{AreGivenUp};
ghost use Rattle.sctp_tx_outstanding.specs.Waiting.{NoneWaits};
ghost use Rattle.sctp_tx_outstanding.specs.Sizes.{NoneFits};
ghost use Rattle.sctp_state.specs.Events.{emit_events, Grown};

mod handover;

use crate::emitting::emit_left;
use crate::expiries::{Due, Expiries};
use crate::indexes::Indexes;
use crate::item::{Item, MissIndication, padded_size};
use crate::last_blocks::LastBlocks;
use crate::messages::Messages;
use crate::passed::ForwardPoint;
use crate::sack::highest_end;
use crate::totals::Totals;
use sctp_chunk::{Data, GapAckBlock};
use sctp_serial::{Fsn, Mid, OutgoingMessageId, PpId, SocketTime, Ssn, StreamKey};
use sctp_state::{Events, take_first};
use std::alloc::{AllocError, Global};
use std::collections::VecDeque;
use std::marker::Model;

/// What may happen to a kept item.
#[derive(Clone, Copy)]
pub enum Change {
    /// A block of a SACK covers it.
    Ack,
    /// No block of the last SACK covers it.
    Uncover,
    /// It is missing: by what, and whether it waits for the fast packet where it is lost.
    Nack(MissIndication, bool),
    /// It is sent once more.
    Retransmit,
    /// The fast packet had no room for it.
    MissFast,
    /// Its message is given up.
    Abandon,
}

impl Change {
    ghost use Rattle.sctp_tx_outstanding.specs.Change.{is_of_sack};

    /// Whether a SACK makes it, by what its blocks cover or not.
    pub(crate) fn is_of_sack(self) -> bool
        ensures { result ≡ is_of_sack self }
    {
        matches!(self, Change::Ack | Change::Uncover)
    }
}

/// Where fewer items leave each is taken out of the indexes.
const MANY: usize = 1_024;

/// What a fragment says, without its payload.
#[derive(Clone, Copy)]
pub struct LastFragment {
    pub stream_key: StreamKey,
    pub ssn: Ssn,
    pub mid: Mid,
    pub fsn: Fsn,
    pub ppid: PpId,
    pub is_beginning: bool,
    pub is_end: bool,
}

impl LastFragment {
    fn of(item: &Item) -> LastFragment
        ensures { last_tree result ≡ without_payload item.now.fragment }
    {
        let fragment = item.data();
        LastFragment {
            stream_key: fragment.stream_key,
            ssn: fragment.ssn,
            mid: fragment.mid,
            fsn: fragment.fsn,
            ppid: fragment.ppid,
            is_beginning: fragment.is_beginning,
            is_end: fragment.is_end,
        }
    }
}

/// The fragment at the place, where it is one of the message, or else the one found before.
fn later_at(
    items: &VecDeque<Item>,
    place: usize,
    message_id: OutgoingMessageId,
    found: Option<LastFragment>,
) -> Option<LastFragment>
    ensures { option_map last_tree result ≡ later_at message_id.0 place (option_map last_tree found) items.now.items }
{
    let Some(item) = items.get(place) else {
        return found;
    };
    if item.message_id().0 == message_id.0 {
        return Some(LastFragment::of(item));
    }
    found
}

/// The place from this one on up to which no item is of the message. It takes no search where the one at this place is.
fn next_from(
    items: &VecDeque<Item>,
    messages: &Messages,
    message_id: OutgoingMessageId,
    place: usize,
) -> usize
    requires { Finds messages.now items.now.items }
    ensures onward { place ≤ result }
    ensures none { NoneIsOf message_id.0 place result items.now.items }
{
    if let Some(item) = items.get(place) {
        if item.message_id().0 == message_id.0 {
            return place;
        }
    }
    messages.next(message_id, place)
}

/// The last fragment of a message.
fn find_last(
    items: &VecDeque<Item>,
    messages: &Messages,
    message_id: OutgoingMessageId,
) -> Option<LastFragment>
    requires { Finds messages.now items.now.items }
    ensures { option_map last_tree result ≡ last_of message_id.0 items.now.items }
{
    let count = items.len();
    let mut last = None;
    let mut place = 0;
    while place < count {
        let next = next_from(items, messages, message_id, place);
        if count <= next {
            return last;
        }
        last = later_at(items, next, message_id, last);
        place = next + 1;
    }
    last
}

/// The item at the place is one of those that are known.
fn list_at(items: &VecDeque<Item>, messages: &mut Messages, place: usize)
    requires { Lists messages.old (take place items.now.items) }
    ensures { Lists messages.new (take (place + 1) items.now.items) }
{
    let Some(item) = items.get(place) else {
        return;
    };
    messages.list(item.message_id(), place);
}

/// Makes known which items are of which message, if there is memory for that: anew where more have come since than are sorted, so
/// that most are found among these, or than are kept, so that keys stay few.
fn list_all(items: &VecDeque<Item>, messages: &mut Messages)
    requires { Finds messages.old items.now.items }
    ensures { Finds messages.new items.now.items }
{
    let count = items.len();
    if messages.is_known && messages.added.len() <= count.min(messages.sorted.len()) {
        return;
    }
    messages.begin();
    for place in 0..count {
        list_at(items, messages, place);
    }
    messages.settle();
}

/// The earliest moment at which an item expires.
fn earliest_of(items: &VecDeque<Item>) -> u128
    ensures { result ≡ earliest_of never items.now.items }
{
    let mut earliest = u128::MAX;
    for item in items.iter() {
        earliest = earliest.min(item.expiry());
    }
    earliest
}

/// It is known of the item at the place when it expires.
fn expect_at(items: &VecDeque<Item>, expiries: &mut Expiries, place: usize)
    requires { Expects expiries.old (take place items.now.items) }
    ensures { Expects expiries.new (take (place + 1) items.now.items) }
{
    let Some(item) = items.get(place) else {
        return;
    };
    let deadline = item.deadline();
    if deadline <= expiries.dropped && !item.is_nacked() {
        return;
    }
    expiries.list(place, deadline);
}

/// Makes known which items expire when, if there is memory for that: of those whose lifetime is over by now, which are missing or lost.
fn expect_all(items: &VecDeque<Item>, expiries: &mut Expiries, now: SocketTime)
    requires { Expects expiries.old items.now.items }
    ensures { Expects expiries.new items.now.items }
{
    if expiries.is_known {
        return;
    }
    expiries.begin(now);
    for place in 0..items.len() {
        expect_at(items, expiries, place);
    }
}

/// A moment before which no item expires.
fn first_expiry(items: &VecDeque<Item>, expiries: &Expiries) -> u128
    requires { Expects expiries.now items.now.items }
    ensures { All (NotBefore result) items.now.items }
{
    match expiries.earliest() {
        Some(earliest) => earliest,
        None => earliest_of(items),
    }
}

/// Emits what is due as the first items leave.
fn emit_first(items: &VecDeque<Item>, count: usize, events: &mut Events) -> Result<(), AllocError>
    ensures ok { OnOk result (events.new ≡ emit_events (all_leaving_events (take count items.now.items)) events.old) }
    ensures err { OnErr result (Grown events.old events.new) }
{
    let mut left = count;
    for item in items.iter() {
        if left == 0 {
            return Ok(());
        }
        emit_left(events, item)?;
        left -= 1;
    }
    Ok(())
}

#[inline(always)]
fn apply(item: &mut Item, change: Change)
    ensures { item.new ≡ apply_change change item.old }
{
    match change {
        Change::Ack => item.ack(),
        Change::Uncover => item.uncover(),
        Change::Nack(indication, fast) => item.nack(indication, fast),
        Change::Retransmit => item.mark_as_retransmitted(),
        Change::MissFast => item.miss_fast(),
        Change::Abandon => item.abandon(),
    }
}

/// Whether it is known that the change leaves the item as it is.
#[inline(always)]
fn stays(item: &Item, change: Change) -> bool
    ensures { result ≡ true → apply_change change item.now ≡ item.now }
{
    match change {
        Change::Ack => item.rests_covered(),
        Change::Uncover => item.rests_uncovered(),
        _ => false,
    }
}

/// The bytes of the item's chunk, where it is neither acknowledged nor given up.
#[inline(always)]
fn open_size(item: &Item, is_interleaved: bool) -> Option<usize>
    ensures { result ≡ open_size is_interleaved (Some item.now) }
{
    if item.is_open() {
        return Some(item.chunk_size(is_interleaved));
    }
    None
}

/// Changes the item at the place. The answer is what it added to the totals and what it adds then, with the bytes of its chunk
/// where it was neither acknowledged nor given up; none, if it stays as it is.
#[inline(always)]
fn change_item(
    items: &mut VecDeque<Item>,
    is_interleaved: bool,
    place: usize,
    change: Change,
) -> Option<((Totals, Totals), Option<usize>)>
    ensures items { items.new.items ≡ change_at place (apply_change change) items.old.items }
    ensures parts { IfSome result (λ c. Exchanges is_interleaved place change items.old.items c.0.0 c.0.1) }
    ensures size { IfSome result (λ c. c.1 ≡ open_size is_interleaved (slice_get items.old.items place)) }
    ensures same { IfNone result (items.new.items ≡ items.old.items) }
{
    let Some(item) = items.get_mut(place) else {
        return None;
    };
    if stays(item, change) {
        return None;
    }
    let size = open_size(item, is_interleaved);
    let old = Totals::of(item, is_interleaved);
    apply(item, change);
    let new = Totals::of(item, is_interleaved);
    Some(((old, new), size))
}

/// The kept items, with their indexes.
#[derive(Drop)]
pub struct Kept {
    is_interleaved: bool,
    items: VecDeque<Item>,
    indexes: Indexes,
}

impl Model for Kept {
    ghost use Rattle.sctp_tx_outstanding.specs.OutstandingData.{Kept};
    ghost use Rattle.sctp_tx_outstanding.specs.Indexes.{AreIndexes};

    ghost Value = { Kept };

    ghost view = { λ k. record { is_interleaved = k.is_interleaved; items = k.items.items } };

    ghost invariant = { λ k. AreIndexes k.is_interleaved k.items.items k.indexes };
}

impl Kept {
    ghost use Rattle.std.specs.Prelude.{false};
    ghost use Rattle.sctp_tx_outstanding.specs.Item.{chunk_size, should_be_retransmitted};
    ghost use Rattle.sctp_tx_outstanding.specs.declared.kept.Change.TheVariants.{Ack};

    /// No items. Takes no memory.
    pub(crate) fn new(alloc: Global, is_interleaved: bool) -> Kept
        ensures { result ≡ record { is_interleaved = is_interleaved; items = [] } }
    {
        Kept {
            is_interleaved,
            items: VecDeque::new(alloc),
            indexes: Indexes::new(alloc),
        }
    }

    pub(crate) fn is_interleaved(&self) -> bool
        ensures { result ≡ self.now.is_interleaved }
    {
        self.is_interleaved
    }

    pub(crate) fn len(&self) -> usize
        ensures { result ≡ length self.now.items }
    {
        self.items.len()
    }

    /// The item at the place.
    pub(crate) fn get(&self, place: usize) -> Option<&Item>
        ensures { option_map (λ i. i.now) result ≡ slice_get self.now.items place }
    {
        self.items.get(place)
    }

    /// A place from this one on up to which no item is in flight or missing, and at which one may be, or where a run ends. It takes no
    /// search where the one at this place is.
    pub(crate) fn next_flight(&self, place: usize) -> usize
        ensures onward { place ≤ result }
        ensures none { NoneFlies place result self.now.items }
    {
        if let Some(item) = self.items.get(place) {
            if item.is_outstanding() {
                return place;
            }
        }
        self.indexes.runs.next_flight(place)
    }

    /// A place from this one on up to which all items are given up, and at which one may be that isn't, or where a run ends.
    pub(crate) fn pass_given_up(&self, place: usize) -> usize
        ensures onward { place ≤ result }
        ensures given_up { AreGivenUp place result self.now.items }
    {
        self.indexes.runs.pass_given_up(place)
    }

    /// A place from this one on up to which of no item it is known that it was given up.
    pub(crate) fn next_given_up(&self, place: usize) -> usize
        ensures onward { place ≤ result }
    {
        self.indexes.runs.next_given_up(place)
    }

    /// The bytes of the chunks in flight or missing, with their headers and padding.
    pub(crate) fn flight_bytes(&self) -> u128
        ensures { result ≡ sum_by (packet_part self.now.is_interleaved) self.now.items }
    {
        self.indexes.totals.packet_bytes
    }

    /// The bytes of their payloads.
    pub(crate) fn flight_payload(&self) -> u128
        ensures { result ≡ sum_by payload_part self.now.items }
    {
        self.indexes.totals.payload_bytes
    }

    /// How many items are in flight or missing.
    pub(crate) fn flights(&self) -> usize
        ensures { result ≡ sum_by flight_part self.now.items }
    {
        self.indexes.totals.flights
    }

    /// Whether an item is to be sent again.
    pub(crate) fn has_queued(&self) -> bool
        ensures { result ≡ nat_lt 0 (sum_by queued_part self.now.items) }
    {
        self.indexes.totals.queued > 0
    }

    /// Whether an item is to be sent again by the packet that ignores the congestion window.
    pub(crate) fn has_fast(&self) -> bool
        ensures { result ≡ nat_lt 0 (sum_by fast_part self.now.items) }
    {
        self.indexes.totals.fast > 0
    }

    /// A place from this one on up to which no item waits to be sent again, by the fast packet or by any, and at which one
    /// may, or where a run ends.
    pub(crate) fn next_waiting(&self, fast: bool, place: usize) -> usize
        ensures onward { place ≤ result }
        ensures none { NoneWaits fast place result self.now.items }
    {
        self.indexes.runs.next_waiting(fast, place)
    }

    /// No item that waits to be sent again has a chunk of fewer bytes.
    pub(crate) fn least_waiting(&self) -> usize
        ensures { All (λ i. should_be_retransmitted i ≡ true → result ≤ chunk_size self.now.is_interleaved i) self.now.items }
    {
        padded_size(self.indexes.runs.least.min(1 << 32), self.is_interleaved)
    }

    /// Looks how small the items that wait to be sent again are, in each run of which one may have a chunk of at most so many bytes.
    pub(crate) fn renew_least(&mut self, allowed: usize)
        ensures { self.new ≡ self.old }
    {
        self.indexes
            .runs
            .renew_small(&self.items, allowed, self.is_interleaved);
    }

    /// A place from this one on, to which a walk came from another, up to which no item that waits has a chunk of so few bytes.
    pub(crate) fn pass_large(&mut self, from: usize, place: usize, allowed: usize) -> usize
        ensures same { self.new ≡ self.old }
        ensures onward { place ≤ result }
        ensures none { NoneFits self.old.is_interleaved allowed place result self.old.items }
    {
        let is_interleaved = self.is_interleaved;
        let runs = &mut self.indexes.runs;
        runs.enter(&self.items, from, place, allowed, is_interleaved);
        runs.pass_large(&self.items, place, allowed, is_interleaved)
    }

    /// Takes out what is known of the last SACK's blocks.
    pub(crate) fn take_last_blocks(&mut self, alloc: Global) -> LastBlocks
        ensures same { self.new ≡ self.old }
        ensures known { Knows result self.old.items }
    {
        self.indexes.last_blocks.take_out(alloc)
    }

    /// The items are as these blocks say. Earlier ones that were taken out have the memory for them.
    pub(crate) fn remember(&mut self, earlier: LastBlocks, blocks: &[GapAckBlock])
        requires { Rest blocks.now 1 self.old.items }
        ensures { self.new ≡ self.old }
    {
        let is_within = highest_end(blocks) as usize <= self.items.len();
        let mut last = earlier;
        last.remember_blocks(blocks, is_within);
        self.indexes.last_blocks = last;
    }

    /// Whether an item that is missing or lost may have expired.
    pub(crate) fn may_expire(&self, now: SocketTime) -> bool
        ensures { result ≡ false → All (λ i. expires now i ≡ false) self.now.items }
    {
        self.indexes.totals.earliest <= now.as_nanos()
    }

    /// Looks up when the first item expires, so that none is looked at before.
    pub(crate) fn find_earliest(&mut self, now: SocketTime)
        ensures { self.new ≡ self.old }
    {
        expect_all(&self.items, &mut self.indexes.expiries, now);
        self.indexes.expiries.drop_stale(&self.items, now);
        self.indexes.totals.earliest = first_expiry(&self.items, &self.indexes.expiries);
    }

    /// The places of the items that expire by now.
    pub(crate) fn due(&self, alloc: Global, now: SocketTime) -> Due
        ensures { FindsDue result now self.now.items }
    {
        self.indexes.expiries.due(alloc, now, self.items.len())
    }

    /// Changes the item at the place, if there is one. If that acknowledges it, the answer is the bytes of its chunk, where it was
    /// neither acknowledged nor given up.
    #[inline(always)]
    pub(crate) fn change(&mut self, place: usize, how: Change) -> Option<usize>
        ensures items { self.new ≡ record self.old { items = change_at place (apply_change how) self.old.items } }
        ensures size { how ≡ Ack → result ≡ open_size self.old.is_interleaved (slice_get self.old.items place) }
    {
        let changed = change_item(&mut self.items, self.is_interleaved, place, how);
        let Some((parts, size)) = changed else {
            return None;
        };
        self.indexes.follow(&self.items, place, how, parts);
        size
    }

    /// Adds an item behind the others. Without memory nothing changes.
    pub(crate) fn push(&mut self, item: Item) -> Result<(), AllocError>
        ensures ok { OnOk result (self.new ≡ record self.old { items = self.old.items ++ item ∷ [] }) }
        ensures err { OnErr result (self.new ≡ self.old) }
    {
        self.items.push_back(item)?;
        self.indexes.insert(&self.items, self.is_interleaved);
        Ok(())
    }

    /// Takes the first item out.
    pub(crate) fn pop(&mut self) -> Option<Item>
        ensures first { IfSome result (λ i. self.old.items ≡ i ∷ self.new.items) }
        ensures none { IfNone result (self.old.items ≡ []) }
        ensures rest { self.new ≡ record self.old { items = drop 1 self.old.items } }
    {
        let item = take_first(&mut self.items)?;
        self.indexes.remove(&item, &self.items, self.is_interleaved);
        Some(item)
    }

    /// Forgets which items are of which message and when they expire, where so many of the first are to leave that this costs less than to
    /// take each moment out.
    pub(crate) fn forget_leaving(&mut self, count: usize)
        ensures { self.new ≡ self.old }
    {
        if count >= MANY && count >= self.items.len() / 2 {
            self.indexes.forget_found();
        }
    }

    /// Emits what is due as the first items leave.
    pub(crate) fn emit_leaving(&self, count: usize, events: &mut Events) -> Result<(), AllocError>
        ensures ok { OnOk result (events.new ≡ emit_events (all_leaving_events (take count self.now.items)) events.old) }
        ensures err { OnErr result (Grown events.old events.new) }
    {
        emit_first(&self.items, count, events)
    }

    /// The last kept fragment of a message.
    pub(crate) fn last_of(&self, message_id: OutgoingMessageId) -> Option<LastFragment>
        ensures { option_map last_tree result ≡ last_of message_id.0 self.now.items }
    {
        find_last(&self.items, &self.indexes.messages, message_id)
    }

    /// Looks up which items are of which message, so that none of another is looked at.
    pub(crate) fn find_messages(&mut self)
        ensures { self.new ≡ self.old }
    {
        list_all(&self.items, &mut self.indexes.messages);
        self.indexes.messages.hold(self.items.len());
    }

    /// Whether the item at the place is all that is kept of the message, and its end.
    pub(crate) fn is_whole_at(&self, place: usize, message_id: OutgoingMessageId) -> bool
        ensures { result ≡ true → IsWhole message_id.0 place self.now.items }
    {
        let Some(item) = self.items.get(place) else {
            return false;
        };
        if item.message_id().0 != message_id.0 || !item.data().is_end {
            return false;
        }
        self.indexes.messages.is_alone(message_id, place)
    }

    /// Looks up how far a forward point goes, up to this place at most, in a chunk of this size.
    pub(crate) fn find_passed(&mut self, end: usize, max_size: usize)
        ensures { self.new ≡ self.old }
    {
        self.indexes
            .passed
            .go_on(&self.items, self.is_interleaved, end, max_size);
    }

    /// A forward point over the first items as far as they are known, up to this place at most, in a chunk of this size.
    pub(crate) fn begun_point(
        &self,
        alloc: Global,
        end: usize,
        max_size: usize,
    ) -> Result<ForwardPoint, AllocError>
        ensures { IfOk result (λ p. BeginsPoint max_size end self.now.is_interleaved self.now.items (point_of p)) }
    {
        self.indexes
            .passed
            .point(alloc, &self.items, self.is_interleaved, end, max_size)
    }

    /// The place from this one on up to which no item is of the message.
    fn next_of(&self, message_id: OutgoingMessageId, place: usize) -> usize
        ensures onward { place ≤ result }
        ensures none { NoneIsOf message_id.0 place result self.now.items }
    {
        next_from(&self.items, &self.indexes.messages, message_id, place)
    }
}

/// Gives up the item at the place, where it is one of the message.
fn abandon_at(kept: &mut Kept, place: usize, message_id: OutgoingMessageId)
    ensures { kept.new ≡ record kept.old { items = change_at place (abandon_if_of message_id.0) kept.old.items } }
{
    let Some(item) = kept.get(place) else {
        return;
    };
    if item.message_id().0 != message_id.0 {
        return;
    }
    kept.change(place, Change::Abandon);
}

/// Gives up all items of a message.
pub(crate) fn abandon_all(kept: &mut Kept, message_id: OutgoingMessageId)
    ensures { kept.new ≡ record kept.old { items = map (abandon_if_of message_id.0) kept.old.items } }
{
    let count = kept.len();
    let mut place = 0;
    while place < count {
        let next = kept.next_of(message_id, place);
        if count <= next {
            return;
        }
        abandon_at(kept, next, message_id);
        place = next + 1;
    }
}

/// The end of a message whose own end was not sent.
pub(crate) fn placeholder(alloc: Global, message_id: OutgoingMessageId, last: LastFragment) -> Item
    ensures { result ≡ placeholder message_id.0 (last_tree last) }
{
    let fragment = Data {
        stream_key: last.stream_key,
        ssn: last.ssn,
        mid: last.mid,
        fsn: last.fsn + 1,
        ppid: last.ppid,
        payload: Vec::new(alloc),
        is_beginning: false,
        is_end: true,
    };
    Item::placeholder(message_id, fragment)
}
