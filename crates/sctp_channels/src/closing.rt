//! Streams whose channel is closed, and whose reset is still to be asked for.

use crate::{Channels, take_first};
use sctp_serial::StreamId;
use sctp_state::{DcSctpSocket, SocketEvent, SocketState};
use std::alloc::{AllocError, Global};
use std::collections::{BTreeSet, VecDeque};

/// So many streams are looked at in a row at most, from where the last look ended; behind the last one comes the first.
const IN_TURN: usize = 2;

/// So many streams without a channel are reset in turn at most, by which a peer can have no more named.
const MOST_IN_TURN: usize = 256;

/// Whether streams may be reset: there is an association, also one that shuts down.
pub(crate) fn has_association<S: DcSctpSocket>(socket: &S) -> bool {
    match socket.state() {
        SocketState::Connected | SocketState::ShuttingDown => true,
        SocketState::Closed | SocketState::Connecting => false,
    }
}

/// Streams that are to be reset once what was accepted is sent, or the peer has reset them.
#[derive(Drop)]
pub(crate) struct Closing {
    alloc: Global,
    streams: BTreeSet<u16>,
    // those to be looked at first, and perhaps others: the peer has reset them, or answered their former reset, or little of them waits
    due: VecDeque<StreamId>,
    // the first one of the others to be looked at
    next: u16,
    // those without a channel that the peer has reset, and on which nothing came since
    in_turn: BTreeSet<u16>,
}

impl Closing {
    /// None. Takes no memory.
    pub fn new(alloc: Global) -> Closing {
        Closing {
            alloc,
            streams: BTreeSet::new(alloc),
            due: VecDeque::new(alloc),
            next: 0,
            in_turn: BTreeSet::new(alloc),
        }
    }

    pub fn len(&self) -> usize {
        self.streams.len()
    }

    /// Whether none is to be looked at.
    pub fn is_empty(&self) -> bool {
        self.streams.is_empty() && self.due.len() == 0
    }

    pub fn clear(&mut self) {
        self.streams.clear();
        self.due.clear();
        self.in_turn.clear();
    }

    pub fn insert(&mut self, id: StreamId) -> Result<(), AllocError> {
        self.streams.insert(id.0)?;
        Ok(())
    }

    pub fn remove(&mut self, id: StreamId) {
        self.streams.remove(&id.0);
    }

    /// The stream is to be looked at first, whether its channel is closed or not.
    pub fn insert_due(&mut self, id: StreamId) -> Result<(), AllocError> {
        self.due.push_back(id)?;
        Ok(())
    }

    /// Something came on the stream.
    pub fn on_data(&mut self, id: StreamId) {
        self.in_turn.remove(&id.0);
    }

    /// What is left of an event: a stream without a channel is reset in turn once, as long as nothing comes on it. A peer that has none either
    /// resets it in turn as well, and each reset would bring the next one. So are `MOST_IN_TURN` streams at most.
    pub fn left_of(
        &mut self,
        channels: &Channels,
        event: SocketEvent,
    ) -> Result<Option<SocketEvent>, AllocError> {
        let SocketEvent::OnIncomingStreamReset(ids) = event else {
            return Ok(Some(event));
        };
        if ids.is_empty() {
            return Ok(Some(SocketEvent::OnIncomingStreamReset(ids)));
        }
        let left = self.not_in_turn(channels, &ids)?;
        if left.is_empty() {
            return Ok(None);
        }
        Ok(Some(SocketEvent::OnIncomingStreamReset(left)))
    }

    /// Those of the streams that the peer has reset that have a channel, or weren't reset in turn since something came.
    fn not_in_turn(
        &mut self,
        channels: &Channels,
        ids: &[StreamId],
    ) -> Result<Vec<StreamId>, AllocError> {
        let mut left = Vec::new(self.alloc);
        for id in ids {
            if channels.get(*id).is_some() || self.insert_in_turn(*id)? {
                left.push(*id)?;
            }
        }
        Ok(left)
    }

    /// The stream, which has no channel, is reset in turn. Says whether it wasn't before, and there was room.
    fn insert_in_turn(&mut self, id: StreamId) -> Result<bool, AllocError> {
        if self.in_turn.len() >= MOST_IN_TURN {
            return Ok(false);
        }
        Ok(self.in_turn.insert(id.0)?)
    }

    /// The former resets of these streams were answered.
    pub fn on_answers(&mut self, ids: &[StreamId]) -> Result<(), AllocError> {
        for id in ids {
            self.insert_due_if_closing(*id)?;
        }
        Ok(())
    }

    /// Little of the stream waits, or its former reset was answered: where its channel is closed it is to be looked at first.
    pub fn insert_due_if_closing(&mut self, id: StreamId) -> Result<(), AllocError> {
        if !self.streams.contains(&id.0) {
            return Ok(());
        }
        self.insert_due(id)
    }

    pub fn due_count(&self) -> usize {
        self.due.len()
    }

    /// Takes out the next one of those to be looked at first.
    pub fn next_due(&mut self) -> Option<StreamId> {
        take_first(&mut self.due)
    }

    /// The streams that are next in turn: all where they are few, ascending.
    pub fn next_in_turn(&mut self) -> Result<Vec<StreamId>, AllocError> {
        let is_many = self.streams.len() > IN_TURN;
        let from = if is_many { self.next } else { 0 };
        let mut ids = Vec::new(self.alloc);
        let behind = self.streams.range(from..);
        for id in behind.chain(self.streams.range(..from)).take(IN_TURN) {
            ids.push(StreamId(*id))?;
        }
        if let Some(last) = ids.last() {
            self.next = last.0.wrapping_add(1);
        }
        Ok(ids)
    }
}
