//! Scenarios in which any allocation may be refused. Each call of the queue answers as with ample memory, or that memory
//! lacks, and what is ready then is a beginning of what becomes ready otherwise. A call of the tracker and of a handover that
//! lacks memory changes nothing: made once more, it and all that follow answer as with ample memory.

use crate::receives::{Receives, fragment};
use sctp_packet::{GapAckBlock, SackChunk, SkippedStream};
use sctp_rx::{DataTracker, ReassemblyQueue};
use sctp_serial::{Mid, SocketTime, Ssn, StreamId, StreamKey, Tsn};
use sctp_state::api::handover::HandoverSocketState;
use sctp_state::{Options, SocketHandoverState};
use std::alloc::{AllocError, Global};

/// A whole message, of an ordered stream and a number.
fn gives<Q: Receives>(
    queue: &mut Q,
    tsn: u32,
    message: (u16, u16),
    payload: &[u8],
) -> Result<(), AllocError> {
    let key = StreamKey::Ordered(StreamId(message.0));
    queue.takes(fragment(tsn, key, (message.1, 0), payload, (true, true)))
}

/// The first fragment or the second of an unordered message.
fn gives_part<Q: Receives>(
    queue: &mut Q,
    tsn: u32,
    fsn: u32,
    payload: &[u8],
) -> Result<(), AllocError> {
    let key = StreamKey::Unordered(StreamId(3));
    queue.takes(fragment(tsn, key, (0, fsn), payload, (fsn == 0, fsn != 0)))
}

/// Forward points name streams in both ways; an entry of the other kind says nothing.
fn passes<Q: Receives>(
    queue: &mut Q,
    tsn: u32,
    stream: u16,
    number: u16,
) -> Result<(), AllocError> {
    let id = StreamId(stream);
    let entries = [
        SkippedStream::ForwardTsn(id, Ssn(number)),
        SkippedStream::IForwardTsn(StreamKey::Ordered(id), Mid(number as u32)),
    ];
    queue.passes(Tsn(tsn), &entries)
}

fn hands_over<Q: Receives>(alloc: Global, queue: &mut Q) -> Result<(), AllocError> {
    let mut state = SocketHandoverState::empty(alloc);
    let outcome = queue.writes(&mut state);
    drop(state);
    outcome
}

fn step<Q: Receives>(alloc: Global, queue: &mut Q, i: u32) -> Result<(), AllocError> {
    match i {
        0 => gives(queue, 11, (1, 1), b"b"),
        1 => gives_part(queue, 12, 0, b"c"),
        2 => queue.defers(Tsn(13), &[StreamId(3)]),
        3 => gives(queue, 14, (3, 0), b"e"),
        4 => gives(queue, 17, (5, 1), b"g"),
        5 => gives_part(queue, 13, 1, b"d"),
        6 => passes(queue, 16, 5, 0),
        7 => passes(queue, 18, 3, 5),
        8 => gives(queue, 10, (1, 0), b"a"),
        9 => queue.resets(&[StreamId(3)]),
        10 => gives(queue, 21, (4, 1), b"f"),
        11 => passes(queue, 20, 4, 0),
        _ => hands_over(alloc, queue),
    }
}

/// Whether all steps were taken; an error ends them.
fn takes_steps<Q: Receives>(alloc: Global, queue: &mut Q) -> bool {
    for i in 0..13 {
        if step(alloc, queue, i).is_err() {
            return false;
        }
    }
    true
}

/// Whether these are ready, in order, and no other; or, where steps are left out, a beginning of them.
fn are_ready<Q: Receives>(queue: &mut Q, is_whole: bool) -> bool {
    let payloads = [b"cd" as &[u8], b"g", b"a", b"b", b"e", b"f"];
    for payload in payloads {
        match queue.is_next(payload) {
            Some(true) => {}
            Some(false) => return false,
            None => return !is_whole,
        }
    }
    queue.is_next(b"").is_none()
}

/// Whether a queue that lacked memory can be used: a reset leaves nothing but what waited.
fn can_be_reset<Q: Receives>(queue: &mut Q) -> bool {
    if queue.resets(&[]).is_err() {
        return false;
    }
    let before = queue.counts().0;
    let is_taken = queue.is_next(b"").is_some();
    (before <= 1) & (is_taken == (before == 1)) & (queue.counts().1 == 0)
}

/// Whether the queue does as it should, wherever an allocation was refused.
fn is_sound<Q: Receives>(alloc: Global, queue: &mut Q) -> bool {
    let is_whole = takes_steps(alloc, queue);
    are_ready(queue, is_whole) && (is_whole || can_be_reset(queue))
}

fn writes<Q: Receives>(queue: &Q, state: &mut SocketHandoverState) -> bool {
    queue.writes(state).is_ok() || queue.writes(state).is_ok()
}

fn takes_up<Q: Receives>(alloc: Global, queue: &mut Q, state: &SocketHandoverState) -> bool {
    match queue.takes_up(alloc, state) {
        Ok(is_up) => is_up,
        Err(_) => queue.takes_up(alloc, state) == Ok(true),
    }
}

/// A message comes on stream 3 before a handover; behind it the second one is in turn.
fn goes_over<Q: Receives>(
    alloc: Global,
    queue: &mut Q,
    state: &mut SocketHandoverState,
) -> Result<bool, AllocError> {
    gives(queue, 1, (3, 0), b"a")?;
    if !writes(queue, state) || !takes_up(alloc, queue, state) {
        return Ok(false);
    }
    gives(queue, 2, (3, 1), b"b")?;
    Ok(queue.is_next(b"b") == Some(true))
}

/// The record is one of a socket that has sent nothing.
fn goes_on<Q: Receives>(
    alloc: Global,
    queue: &mut Q,
    message_interleaving: bool,
) -> Result<bool, AllocError> {
    let mut state = SocketHandoverState::empty(alloc);
    state.socket_state = HandoverSocketState::Connected;
    state.my_verification_tag = 1;
    state.peer_verification_tag = 1;
    state.capabilities.message_interleaving = message_interleaving;
    state.tx.cwnd = 1;
    state.tx.next_tsn = 1;
    let outcome = goes_over(alloc, queue, &mut state);
    drop(state);
    outcome
}

fn are_right<Q: Receives>(
    alloc: Global,
    first: &mut Q,
    second: &mut Q,
    is_interleaved: bool,
) -> bool {
    is_sound(alloc, first) && goes_on(alloc, second, is_interleaved) != Ok(false)
}

fn holds(alloc: Global, is_interleaved: bool) -> bool {
    let mut first = ReassemblyQueue::new(alloc, 1000, is_interleaved);
    let mut second = ReassemblyQueue::new(alloc, 1000, is_interleaved);
    let outcome = are_right(alloc, &mut first, &mut second, is_interleaved);
    drop(first);
    drop(second);
    outcome
}

/// What a test asks of a tracker.
trait Tracks {
    /// Whether a TSN is new.
    fn sees(&mut self, tsn: u32) -> Result<bool, AllocError>;

    /// Whether the SACK has TSN 12, and TSNs 14 and 15, above a gap, and tells that TSNs 10 and 12 came again.
    fn tells(&mut self) -> Result<bool, AllocError>;
}

fn is_sack(sack: &SackChunk) -> bool {
    let blocks = [GapAckBlock::new(2, 2), GapAckBlock::new(4, 5)];
    sack.cumulative_tsn_ack == Tsn(10)
        && sack.gap_ack_blocks.as_slice() == blocks.as_slice()
        && sack.duplicate_tsns.as_slice() == [Tsn(10), Tsn(12)].as_slice()
}

impl Tracks for DataTracker {
    fn sees(&mut self, tsn: u32) -> Result<bool, AllocError> {
        self.observe(SocketTime::zero(), Tsn(tsn), false)
    }

    fn tells(&mut self) -> Result<bool, AllocError> {
        Ok(is_sack(&self.create_selective_ack(4711)?))
    }
}

fn sees<T: Tracks>(tracker: &mut T, tsn: u32) -> Result<bool, AllocError> {
    match tracker.sees(tsn) {
        Ok(is_new) => Ok(is_new),
        Err(_) => tracker.sees(tsn),
    }
}

/// Five TSNs with gaps, and two of them again.
fn follows<T: Tracks>(tracker: &mut T) -> Result<bool, AllocError> {
    for (tsn, is_new) in [
        (15, true),
        (10, true),
        (12, true),
        (14, true),
        (12, false),
        (10, false),
    ] {
        if sees(tracker, tsn)? != is_new {
            return Ok(false);
        }
    }
    match tracker.tells() {
        Ok(is_right) => Ok(is_right),
        Err(_) => tracker.tells(),
    }
}

/// The test to run with a refused allocation.
#[test]
fn tells_want_of_memory(rt: HostRuntime) {
    for is_interleaved in [false, true] {
        assert!(rt; holds(rt.alloc(), is_interleaved));
    }
    let mut tracker = DataTracker::new(rt.alloc(), Tsn(10), &Options::default());
    let is_right = follows(&mut tracker) == Ok(true);
    drop(tracker);
    assert!(rt; is_right);
}
