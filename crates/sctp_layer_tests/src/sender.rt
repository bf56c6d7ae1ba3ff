//! Scenarios of a sender in which any allocation may be refused: each call answers as with ample memory, or that memory lacks. What it
//! leaves then its contract says; the sender goes on until nothing is left.

use Call::{Accept, BeginReset, Expire, Sack, Send, SendFast, TimeOut};
use sctp_packet::{Data, GapAckBlock, SackChunk};
use sctp_serial::{Message, PpId, SocketTime, StreamId, Tsn};
use sctp_state::{Events, Options, SendOptions};
use sctp_tx::{HandleSackResult, RetransmissionQueue, SendQueue};
use std::alloc::{AllocError, Global};
use std::time::Duration;

/// How long a message is worth sending.
#[derive(Clone, Copy)]
enum Limit {
    None,
    /// It isn't sent again.
    Once,
    /// Its lifetime is 100 ms.
    Short,
}

/// Moments are in milliseconds.
#[derive(Clone, Copy)]
enum Call {
    /// A message of so many bytes on a stream, accepted at moment 0: 1.
    Accept(u16, usize, Limit),
    /// A packet with 1,176 bytes of room: the TSN of its only chunk, or 0 where it has none.
    Send(u64),
    /// One that ignores the congestion window, the same.
    SendFast(u64),
    /// A SACK: its cumulative TSN and a block from one offset to another, none where they are 0. What it brings: a round trip 2, else
    /// something new 1.
    Sack(u64, u32, u16, u16),
    /// Whether t3-rtx has expired.
    TimeOut(u64),
    /// Whether a forward point is due.
    Expire(u64),
    BeginReset,
}

/// What a scenario asks of a sender. It knows no more of one than its answers.
trait Sends {
    fn accepts(&mut self, stream: u16, size: usize, limit: Limit) -> Result<u32, AllocError>;

    fn sends(&mut self, millis: u64) -> Result<u32, AllocError>;

    fn sends_fast(&mut self, millis: u64) -> Result<u32, AllocError>;

    fn hears(&mut self, millis: u64, tsn: u32, block: (u16, u16)) -> Result<u32, AllocError>;

    fn times_out(&mut self, millis: u64) -> Result<u32, AllocError>;

    fn expires(&mut self, millis: u64) -> Result<u32, AllocError>;

    fn begins_reset(&mut self) -> Result<u32, AllocError>;

    fn last_tsn(&self) -> u32;

    fn rests(&self) -> bool;
}

#[derive(Drop)]
struct Sender {
    alloc: Global,
    queue: SendQueue,
    items: RetransmissionQueue,
    events: Events,
}

/// A sender with default options, whose first TSN is 10, to a peer whose window is 5,242,880 bytes.
fn fresh(alloc: Global) -> Sender {
    let options = Options::default();
    Sender {
        alloc,
        queue: SendQueue::new(alloc, &options),
        items: RetransmissionQueue::new(alloc, Tsn(10), 5_242_880, &options, true, false),
        events: Events::new(alloc),
    }
}

fn at(millis: u64) -> SocketTime {
    SocketTime::zero() + Duration::from_millis(millis)
}

fn options_of(limit: Limit) -> SendOptions {
    let options = SendOptions::default();
    match limit {
        Limit::None => options,
        Limit::Once => SendOptions {
            max_retransmissions: Some(0),
            ..options
        },
        Limit::Short => SendOptions {
            lifetime: Some(Duration::from_millis(100)),
            ..options
        },
    }
}

/// The TSN of the only one; 0 where there is none.
fn only(chunks: Vec<(Tsn, Data)>) -> u32 {
    let tsn = match chunks.as_slice() {
        [] => 0,
        [chunk] => chunk.0.0,
        _ => 1,
    };
    drop(chunks);
    tsn
}

/// A SACK with this block, if it has a first offset.
fn sack(alloc: Global, tsn: u32, block: (u16, u16)) -> Result<SackChunk, AllocError> {
    let mut gap_ack_blocks = Vec::new(alloc);
    if block.0 > 0 {
        gap_ack_blocks.push(GapAckBlock::new(block.0, block.1))?;
    }
    Ok(SackChunk {
        cumulative_tsn_ack: Tsn(tsn),
        a_rwnd: 5_242_880,
        gap_ack_blocks,
        duplicate_tsns: Vec::new(alloc),
    })
}

impl Sends for Sender {
    fn accepts(&mut self, stream: u16, size: usize, limit: Limit) -> Result<u32, AllocError> {
        if size == 0 || size > 12_000 || self.queue.total_buffered_amount() > 12_000 {
            return Ok(0);
        }
        let payload = vec![in self.alloc; 7u8; size]?;
        let message = Message::new(StreamId(stream), PpId(53), payload);
        self.queue.add(at(0), message, &options_of(limit))?;
        Ok(1)
    }

    fn sends(&mut self, millis: u64) -> Result<u32, AllocError> {
        let (queue, events) = (&mut self.queue, &mut self.events);
        let chunks = self
            .items
            .get_chunks_to_send(at(millis), 1176, queue, events)?;
        Ok(only(chunks))
    }

    fn sends_fast(&mut self, millis: u64) -> Result<u32, AllocError> {
        let chunks = self.items.get_chunks_for_fast_retransmit(at(millis), 1176)?;
        Ok(only(chunks))
    }

    fn hears(&mut self, millis: u64, tsn: u32, block: (u16, u16)) -> Result<u32, AllocError> {
        let sack = sack(self.alloc, tsn, block)?;
        let answer = self.items.handle_sack(at(millis), &sack, &mut self.events)?;
        Ok(match answer {
            HandleSackResult::Valid { rtt: Some(_), .. } => 2,
            HandleSackResult::Valid {
                reset_error_counter: true,
                ..
            } => 1,
            _ => 0,
        })
    }

    fn times_out(&mut self, millis: u64) -> Result<u32, AllocError> {
        Ok(self.items.handle_timeout(at(millis), &mut self.events)? as u32)
    }

    fn expires(&mut self, millis: u64) -> Result<u32, AllocError> {
        Ok(
            self.items
                .should_send_forward_tsn(at(millis), &mut self.events)? as u32,
        )
    }

    fn begins_reset(&mut self) -> Result<u32, AllocError> {
        self.items.begin_reset_streams()?;
        Ok(1)
    }

    fn last_tsn(&self) -> u32 {
        self.items.last_assigned_tsn().0
    }

    fn rests(&self) -> bool {
        self.queue.is_empty() & self.items.is_empty() & (self.items.unacked_packet_bytes() == 0)
    }
}

fn answer<S: Sends>(sender: &mut S, call: Call) -> Result<u32, AllocError> {
    match call {
        Accept(stream, size, limit) => sender.accepts(stream, size, limit),
        Send(millis) => sender.sends(millis),
        SendFast(millis) => sender.sends_fast(millis),
        Sack(millis, tsn, first, last) => sender.hears(millis, tsn, (first, last)),
        TimeOut(millis) => sender.times_out(millis),
        Expire(millis) => sender.expires(millis),
        BeginReset => sender.begins_reset(),
    }
}

/// Whether nothing is left after some turns, each at a moment when t3-rtx has expired: what it sends comes. Where a call lacks memory the
/// next turn makes it again.
fn comes_to_rest<S: Sends>(sender: &mut S) -> bool {
    for i in 1..12 {
        let millis = 100_000 * i;
        let _ = sender.times_out(millis);
        let _ = sender.expires(millis);
        let _ = sender.sends(millis);
        let tsn = sender.last_tsn();
        let _ = sender.hears(millis, tsn, (0, 0));
    }
    sender.rests()
}

/// Whether these answer so, up to the first that lacks memory, if one does.
fn all_answer<S: Sends>(sender: &mut S, calls: &[(Call, u32)]) -> bool {
    for (call, want) in calls {
        match answer(sender, *call) {
            Ok(number) => {
                if number != *want {
                    return false;
                }
            }
            Err(_) => break,
        }
    }
    comes_to_rest(sender)
}

fn hold(alloc: Global, calls: &[(Call, u32)]) -> bool {
    let mut sender = fresh(alloc);
    let outcome = all_answer(&mut sender, calls);
    drop(sender);
    outcome
}

/// Three packets are lost; one goes again, and then the others.
const SENDS_AGAIN: [(Call, u32); 9] = [
    (Accept(1, 2500, Limit::None), 1),
    (Send(0), 10),
    (Send(0), 11),
    (Send(0), 12),
    (TimeOut(500), 1),
    (Send(500), 10),
    (Sack(700, 10, 0, 0), 1),
    (Accept(2, 5, Limit::None), 1),
    (Send(700), 11),
];

/// The third report has TSN 10 go again at once.
const RECOVERS: [(Call, u32); 11] = [
    (Accept(1, 5800, Limit::None), 1),
    (Send(0), 10),
    (Send(0), 11),
    (Send(0), 12),
    (Send(0), 13),
    (Send(0), 14),
    (Sack(100, 9, 2, 2), 1),
    (Sack(101, 9, 2, 3), 1),
    (Sack(102, 9, 2, 4), 1),
    (SendFast(102), 10),
    (Sack(150, 14, 0, 0), 2),
];

/// A message's lifetime ends, and the rest of another one leaves the queue; a reset holds the forward point before its end.
const GIVES_UP: [(Call, u32); 10] = [
    (Accept(1, 20, Limit::Short), 1),
    (Send(0), 10),
    (Accept(2, 1500, Limit::Once), 1),
    (Send(0), 11),
    (BeginReset, 1),
    (TimeOut(500), 1),
    (Expire(500), 1),
    (Send(500), 0),
    (Sack(600, 11, 0, 0), 2),
    (Expire(600), 1),
];

/// The test to run with a refused allocation.
#[test]
fn tells_want_of_memory(rt: HostRuntime) {
    let alloc = rt.alloc();
    assert!(rt; hold(alloc, &SENDS_AGAIN) & hold(alloc, &RECOVERS) & hold(alloc, &GIVES_UP));
}
