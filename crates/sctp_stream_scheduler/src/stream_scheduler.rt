//! Which stream sends next.

ghost use Rattle.std.specs.Prelude.{◌≡◌, ◌<◌, ◌^◌, ◌==◌, false, [], length, map, is_some, IfOk, IsTrue, IfSome, IfNone, OnOk, OnErr, None, Some, option_map};
ghost use Rattle.std.specs.Map.{keys_of};
ghost use Rattle.sctp_stream_scheduler.specs.StreamScheduler.{IsNext, finish_time};

mod active_streams;

use active_streams::ActiveStreams;
use sctp_serial::StreamId;
use std::alloc::{AllocError, Global};
use std::marker::Model;

/// The streams that have something to send, each with its finish time: when its next fragment would be sent if all shared the
/// association, with interleaving by their weights (RFC 8260 section 3.6), and without it by turns. The stream with the
/// least finish time is next; of two with the same, the one with the smaller id. Times are virtual: bytes by weight, or
/// without interleaving a count of fragments. Nothing is drawn, and finding the next stream takes the logarithm of their
/// number.
#[derive(Drop)]
pub struct StreamScheduler {
    active: ActiveStreams,
    virtual_time: u128,
    is_interleaved: bool,
    max_payload: usize,
}

impl Model for StreamScheduler {
    ghost use Rattle.sctp_stream_scheduler.specs.StreamScheduler.{Scheduler};

    ghost Value = { Scheduler };

    ghost view = { λ s. record { times = s.active; virtual_time = s.virtual_time; is_interleaved = s.is_interleaved; most_payload = s.max_payload } };
}

impl StreamScheduler {
    ghost use Rattle.sctp_stream_scheduler.specs.StreamScheduler.{scheduler, is_active, set_bytes_remaining, accept, peek, enable_message_interleaving, leave, finish_at};

    /// No stream has anything to send. `max_payload` is the largest payload of a fragment, in bytes.
    pub fn new(alloc: Global, max_payload: usize) -> StreamScheduler
        ensures { result ≡ scheduler max_payload }
    {
        StreamScheduler {
            active: ActiveStreams::new(alloc),
            virtual_time: 0,
            is_interleaved: false,
            max_payload,
        }
    }

    /// Sets whether messages are interleaved. Finish times that are there stay.
    pub fn enable_message_interleaving(&mut self, is_interleaved: bool)
        ensures { self.new ≡ enable_message_interleaving is_interleaved self.old }
    {
        self.is_interleaved = is_interleaved;
    }

    /// Whether fragments of messages may lie between each other (RFC 8260).
    pub fn is_interleaved(&self) -> bool
        ensures { result ≡ self.now.is_interleaved }
    {
        self.is_interleaved
    }

    /// The largest payload of a fragment, in bytes.
    pub fn max_payload(&self) -> usize
        ensures { result ≡ self.now.most_payload }
    {
        self.max_payload
    }

    /// How many streams have something to send.
    pub fn active_count(&self) -> usize
        ensures value { result ≡ length self.now.times }
        ensures small { result < 2 ^ 63 }
    {
        self.active.len()
    }

    /// The streams that have something to send, ascending.
    pub fn active_ids(&self, alloc: Global) -> Result<Vec<StreamId>, AllocError>
        ensures { IfOk result (λ ids. map (λ id. id.0) ids.items ≡ keys_of self.now.times) }
    {
        self.active.ids(alloc)
    }

    /// Whether the stream has something to send.
    pub fn is_active(&self, id: StreamId) -> bool
        ensures { result ≡ is_active id.0 self.now }
    {
        self.active.finish_time(id.0).is_some()
    }

    /// Sets how many bytes of its next message a stream has to send. With none it leaves. A stream that had none gets
    /// its finish time: the virtual time and 1, or with interleaving the bytes of its next fragment times 65,536 by its
    /// priority. One that has a finish time keeps it. Without memory nothing changes.
    #[inline(always)]
    pub fn set_bytes_remaining(
        &mut self,
        id: StreamId,
        bytes: usize,
        priority: u16,
    ) -> Result<(), AllocError>
        ensures ok { OnOk result (self.new ≡ set_bytes_remaining id.0 bytes priority self.old) }
        ensures err { OnErr result (self.new ≡ self.old) }
    {
        if bytes == 0 {
            self.active.leave(id.0);
            return Ok(());
        }
        if self.active.finish_time(id.0).is_some() {
            return Ok(());
        }
        let finish = self.finish_at(self.virtual_time, bytes, priority);
        self.active.enter(id.0, finish)
    }

    /// The stream that is next.
    pub fn peek(&self) -> Option<StreamId>
        ensures value { option_map (λ id. id.0) result ≡ peek self.now }
        ensures next { IfSome result (λ id. IsNext self.now.times id.0) }
        ensures none { IfNone result (self.now.times ≡ []) }
    {
        match self.active.first() {
            Some(id) => Some(StreamId(id)),
            None => None,
        }
    }

    /// The stream, which is active, sends: the virtual time becomes its finish time, and it has none until its bytes are set anew.
    pub fn accept(&mut self, id: StreamId)
        requires { IsTrue (is_active id.0 self.old) }
        ensures { self.new ≡ accept id.0 self.old }
    {
        if let Some(finish) = self.active.leave(id.0) {
            self.virtual_time = finish;
        }
    }

    /// The stream has nothing to send any more.
    pub fn leave(&mut self, id: StreamId)
        ensures value { self.new ≡ leave id.0 self.old }
        ensures inactive { is_active id.0 self.new ≡ false }
    {
        self.active.leave(id.0);
    }

    /// The stream sends, as `accept` says, if it is active, and then has so many bytes of its next message to send, as
    /// `set_bytes_remaining` says. Without memory nothing changes.
    #[inline(always)]
    pub fn take_turn(&mut self, id: StreamId, bytes: usize, priority: u16) -> Result<(), AllocError>
        ensures ok { OnOk result (self.new ≡ set_bytes_remaining id.0 bytes priority (accept id.0 self.old)) }
        ensures err { OnErr result (self.new ≡ self.old) }
    {
        if bytes == 0 {
            if let Some(finish) = self.active.leave(id.0) {
                self.virtual_time = finish;
            }
            return Ok(());
        }
        let Some(finish) = self.active.finish_time(id.0) else {
            return self.set_bytes_remaining(id, bytes, priority);
        };
        let next = self.finish_at(finish, bytes, priority);
        self.active.renew(id.0, finish, next)?;
        self.virtual_time = finish;
        Ok(())
    }

    /// The finish time of a stream that becomes active at this virtual time.
    fn finish_at(&self, virtual_time: u128, bytes: usize, priority: u16) -> u128
        ensures { result ≡ finish_at virtual_time bytes priority self.now }
    {
        if !self.is_interleaved {
            return virtual_time.saturating_add(1);
        }
        let cost = bytes.min(self.max_payload) as u128 * 65_536 / priority.max(1) as u128;
        virtual_time.saturating_add(cost)
    }
}
