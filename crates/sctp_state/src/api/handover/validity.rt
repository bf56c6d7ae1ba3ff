//! Which handover records a socket can take up.

ghost use Rattle.std.specs.Prelude.{◌≡◌, ◌+◌, ◌-◌, ◌^◌, min, map, true, IfOk};
ghost use Rattle.sctp_state.specs.Handover.{stream_message_of, outstanding_data_of, transmission_of, receive_of, handover_state_of};
ghost use Rattle.sctp_state.specs.Validity.{rises_from, outgoing_ids, ordered_ids, unordered_ids, has_small_numbers, is_valid_reception, has_stream, is_valid_message, are_valid_messages, has_message_id, message_ids_differ, has_partly_sent, first_alone_is_partly_sent, partly_sent_count, has_valid_queue, is_in_one_state, is_past, is_valid_item, are_valid_items, has_valid_items, queued_bytes, outstanding_bytes, payload_fits, is_valid_transmission, is_valid_connection, is_valid_state};

use crate::api::handover::{
    HandoverOrderedStream, HandoverOutgoingStream, HandoverOutstandingData, HandoverReceive,
    HandoverSocketState, HandoverStreamMessage, HandoverTransmission, HandoverUnorderedStream,
    SocketHandoverState,
};
use std::alloc::{AllocError, Global};
use std::collections::BTreeSet;

impl SocketHandoverState {
    /// Whether the record is one that a socket takes up. A closed socket's always is.
    pub fn is_valid(&self) -> bool
        ensures { result ≡ is_valid_state (handover_state_of self.now) }
    {
        match self.socket_state {
            HandoverSocketState::Closed => true,
            HandoverSocketState::Connected => self.is_valid_connection(),
        }
    }

    fn is_valid_connection(&self) -> bool
        ensures { result ≡ is_valid_connection (handover_state_of self.now) }
    {
        let interleaving = self.capabilities.message_interleaving;
        0 < self.my_verification_tag
            && 0 < self.peer_verification_tag
            && self.rx.is_valid(interleaving)
            && self.tx.is_valid(interleaving)
    }
}

impl HandoverReceive {
    fn is_valid(&self, interleaving: bool) -> bool
        ensures { result ≡ is_valid_reception interleaving (receive_of self.now) }
    {
        ordered_ids_rise(&self.ordered_streams)
            && unordered_ids_rise(&self.unordered_streams)
            && (interleaving || has_small_numbers(&self.ordered_streams))
    }
}

impl HandoverTransmission {
    fn is_valid(&self, interleaving: bool) -> bool
        ensures { result ≡ is_valid_transmission interleaving (transmission_of self.now) }
    {
        0 < self.cwnd
            && outgoing_ids_rise(&self.streams)
            && self.has_valid_queue(interleaving)
            && self.has_valid_items()
            && self.payload_fits()
    }

    fn has_valid_queue(&self, interleaving: bool) -> bool
        requires rise { rises_from 0 (outgoing_ids self.now.streams.items) ≡ true }
        ensures { result ≡ has_valid_queue interleaving (transmission_of self.now) }
    {
        let alloc = *self.queued_messages.allocator();
        self.next_outgoing_message_id <= 1 << 32
            && are_valid_messages(
                &self.queued_messages,
                &self.streams,
                self.next_outgoing_message_id,
            )
            && message_ids_differ(alloc, &self.queued_messages)
            && first_alone_is_partly_sent(alloc, &self.queued_messages)
            && (interleaving || partly_sent_count(&self.queued_messages) <= 1)
    }

    fn has_valid_items(&self) -> bool
        ensures { result ≡ has_valid_items (transmission_of self.now) }
    {
        let count = self.outstanding_data.len();
        if count >= 1 << 30 {
            return false;
        }
        let next = self.last_cumulative_tsn_ack.wrapping_add(1 + count as u32);
        self.next_tsn == next && are_valid_items(&self.outstanding_data)
    }

    fn payload_fits(&self) -> bool
        ensures { result ≡ payload_fits (transmission_of self.now) }
    {
        let queued = queued_bytes(&self.queued_messages);
        queued.saturating_add(outstanding_bytes(&self.outstanding_data)) <= u32::MAX as usize
    }
}

fn ordered_ids_rise(streams: &[HandoverOrderedStream]) -> bool
    ensures { result ≡ rises_from 0 (ordered_ids streams.now) }
{
    let mut least = 0;
    'streams: for stream in streams {
        let id = stream.id as u32;
        if id < least {
            return false;
        }
        least = id + 1;
    }
    true
}

fn unordered_ids_rise(streams: &[HandoverUnorderedStream]) -> bool
    ensures { result ≡ rises_from 0 (unordered_ids streams.now) }
{
    let mut least = 0;
    'streams: for stream in streams {
        let id = stream.id as u32;
        if id < least {
            return false;
        }
        least = id + 1;
    }
    true
}

fn outgoing_ids_rise(streams: &[HandoverOutgoingStream]) -> bool
    ensures { result ≡ rises_from 0 (outgoing_ids streams.now) }
{
    let mut least = 0;
    'streams: for stream in streams {
        let id = stream.id as u32;
        if id < least {
            return false;
        }
        least = id + 1;
    }
    true
}

fn has_small_numbers(streams: &[HandoverOrderedStream]) -> bool
    ensures { result ≡ has_small_numbers streams.now }
{
    streams.iter().all(|stream| stream.next_ssn <= 65_535)
}

/// Whether a stream has the id. Their ids rise, so it is found by halves.
fn has_stream(streams: &[HandoverOutgoingStream], id: u16) -> bool
    requires rise { rises_from 0 (outgoing_ids streams.now) ≡ true }
    ensures { result ≡ has_stream streams.now id }
{
    streams
        .binary_search_by_key(&id, |stream| stream.id)
        .is_ok()
}

fn is_valid_message(
    message: &HandoverStreamMessage,
    streams: &[HandoverOutgoingStream],
    next: u64,
) -> bool
    requires rise { rises_from 0 (outgoing_ids streams.now) ≡ true }
    ensures { result ≡ is_valid_message streams.now next (stream_message_of message.now) }
{
    message.remaining_offset < message.payload.len()
        && has_stream(streams, message.stream_id)
        && message.message_id < next
}

fn are_valid_messages(
    messages: &[HandoverStreamMessage],
    streams: &[HandoverOutgoingStream],
    next: u64,
) -> bool
    requires rise { rises_from 0 (outgoing_ids streams.now) ≡ true }
    ensures { result ≡ are_valid_messages streams.now next (map stream_message_of messages.now) }
{
    'messages: for message in messages {
        if !is_valid_message(message, streams, next) {
            return false;
        }
    }
    true
}

fn has_message_id(messages: &[HandoverStreamMessage], id: u64) -> bool
    ensures { result ≡ has_message_id id (map stream_message_of messages.now) }
{
    'messages: for message in messages {
        if message.message_id == id {
            return true;
        }
    }
    false
}

/// Whether no two messages have one id. Where there is no memory for a set of those met, each is looked for behind its message.
fn message_ids_differ(alloc: Global, messages: &[HandoverStreamMessage]) -> bool
    ensures { result ≡ message_ids_differ (map stream_message_of messages.now) }
{
    match met_ids_differ(alloc, messages) {
        Ok(differ) => differ,
        Err(_) => later_ids_differ(messages),
    }
}

/// In one walk, which notes the ids.
fn met_ids_differ(alloc: Global, messages: &[HandoverStreamMessage]) -> Result<bool, AllocError>
    ensures { IfOk result (λ differ. differ ≡ message_ids_differ (map stream_message_of messages.now)) }
{
    let mut met = BTreeSet::new(alloc);
    'messages: for message in messages {
        if met.contains(&message.message_id) {
            return Ok(false);
        }
        met.insert(message.message_id)?;
    }
    Ok(true)
}

fn later_ids_differ(messages: &[HandoverStreamMessage]) -> bool
    ensures { result ≡ message_ids_differ (map stream_message_of messages.now) }
{
    'places: for i in 0..messages.len() {
        if has_message_id(&messages[i + 1..], messages[i].message_id) {
            return false;
        }
    }
    true
}

fn has_partly_sent(messages: &[HandoverStreamMessage], stream_id: u16) -> bool
    ensures { result ≡ has_partly_sent stream_id (map stream_message_of messages.now) }
{
    'messages: for message in messages {
        if message.stream_id == stream_id && 0 < message.remaining_offset {
            return true;
        }
    }
    false
}

/// Whether none is partly sent behind another one of its stream, which is found as ids are.
fn first_alone_is_partly_sent(alloc: Global, messages: &[HandoverStreamMessage]) -> bool
    ensures { result ≡ first_alone_is_partly_sent (map stream_message_of messages.now) }
{
    match none_is_partly_sent_on_met(alloc, messages) {
        Ok(alone) => alone,
        Err(_) => none_is_partly_sent_later(messages),
    }
}

/// In one walk, which notes the streams.
fn none_is_partly_sent_on_met(
    alloc: Global,
    messages: &[HandoverStreamMessage],
) -> Result<bool, AllocError>
    ensures { IfOk result (λ alone. alone ≡ first_alone_is_partly_sent (map stream_message_of messages.now)) }
{
    let mut met = BTreeSet::new(alloc);
    'messages: for message in messages {
        if 0 < message.remaining_offset && met.contains(&message.stream_id) {
            return Ok(false);
        }
        met.insert(message.stream_id)?;
    }
    Ok(true)
}

fn none_is_partly_sent_later(messages: &[HandoverStreamMessage]) -> bool
    ensures { result ≡ first_alone_is_partly_sent (map stream_message_of messages.now) }
{
    'places: for i in 0..messages.len() {
        if has_partly_sent(&messages[i + 1..], messages[i].stream_id) {
            return false;
        }
    }
    true
}

fn partly_sent_count(messages: &[HandoverStreamMessage]) -> usize
    ensures { result ≡ partly_sent_count (map stream_message_of messages.now) }
{
    let mut count = 0;
    'messages: for message in messages {
        if 0 < message.remaining_offset {
            count += 1;
        }
    }
    count
}

fn is_in_one_state(item: &HandoverOutstandingData) -> bool
    ensures { result ≡ is_in_one_state (outstanding_data_of item.now) }
{
    !(item.acked && item.is_abandoned)
        && !(item.acked && item.is_to_be_retransmitted)
        && !(item.is_abandoned && item.is_to_be_retransmitted)
}

fn is_past(millis: i32) -> bool
    ensures { result ≡ is_past millis }
{
    0 <= millis
}

fn is_valid_item(item: &HandoverOutstandingData) -> bool
    ensures { result ≡ is_valid_item (outstanding_data_of item.now) }
{
    is_past(item.time_since_sent_ms) && is_in_one_state(item)
}

fn are_valid_items(items: &[HandoverOutstandingData]) -> bool
    ensures { result ≡ are_valid_items (map outstanding_data_of items.now) }
{
    'items: for item in items {
        if !is_valid_item(item) {
            return false;
        }
    }
    true
}

/// Sums of lengths, which stop at the greatest number.
fn queued_bytes(messages: &[HandoverStreamMessage]) -> usize
    ensures { result ≡ min (queued_bytes (map stream_message_of messages.now)) (2 ^ 64 - 1) }
{
    let mut bytes = 0usize;
    'messages: for message in messages {
        bytes = bytes.saturating_add(message.payload.len());
    }
    bytes
}

fn outstanding_bytes(items: &[HandoverOutstandingData]) -> usize
    ensures { result ≡ min (outstanding_bytes (map outstanding_data_of items.now)) (2 ^ 64 - 1) }
{
    let mut bytes = 0usize;
    'items: for item in items {
        bytes = bytes.saturating_add(item.payload.len());
    }
    bytes
}
