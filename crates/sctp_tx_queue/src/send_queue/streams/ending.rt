//! The end of an association, where only some streams have to be gone over.

ghost use Rattle.std.specs.Prelude.{◌≡◌, ℕ, [], ◌∷◌, ◌++◌, if◌then◌else◌, IfOk, OnOk, OnErr, map, filter};
ghost use Rattle.std.specs.Map.{keys_of, values_of};
ghost use Rattle.std.specs.List.Sorted.{IsStrictlySortedBy};
ghost use Rattle.std.specs.Ordering.{nat_cmp};
ghost use Rattle.sctp_state.specs.Events.{Grown};
ghost use Rattle.sctp_tx_queue.specs.SendQueue.{stream};
ghost use Rattle.sctp_tx_queue.specs.Restarted.{OthersRest};
ghost use Rattle.sctp_tx_queue.specs.Emptied.{emit_ended, emit_all_ended, is_to_empty, streams_to_empty};

use crate::send_queue::changes::ChangedStreams;
use crate::send_queue::streams::{Streams, emit_and_list};
use sctp_serial::StreamId;
use sctp_state::Events;
use sctp_stream_scheduler::StreamScheduler;
use std::alloc::{AllocError, Global};

impl Streams {
    /// What `emit_ended` does, in time by the number of these streams: the others have no messages, and aren't in line.
    pub(crate) fn emit_some_ended(
        &self,
        alloc: Global,
        candidates: &ChangedStreams,
        scheduler: &StreamScheduler,
        events: &mut Events,
    ) -> Result<Vec<StreamId>, AllocError>
        requires { OthersRest candidates.now self.now scheduler.now }
        ensures streams { IfOk result (λ ids. map (λ id. id.0) ids.items ≡ streams_to_empty scheduler.now self.now.entries) }
        ensures emitted { OnOk result (events.new ≡ emit_all_ended (values_of self.now.entries) events.old) }
        ensures ordered { IsStrictlySortedBy nat_cmp (keys_of self.now.entries) }
        ensures err { OnErr result (Grown events.old events.new) }
    {
        // (read for its clause: the ids ascend)
        let _count = self.streams.len();
        let ids = candidates.of(alloc, &self.streams)?;
        self.emit_ended_of(alloc, &ids, scheduler, events)
    }

    /// Emits of the messages of these streams that they are given up. The answer is those that have messages or are in line.
    fn emit_ended_of(
        &self,
        alloc: Global,
        ids: &[StreamId],
        scheduler: &StreamScheduler,
        events: &mut Events,
    ) -> Result<Vec<StreamId>, AllocError>
        ensures streams { IfOk result (λ found. map (λ id. id.0) found.items ≡ filter (λ k. is_to_empty k (stream k self.now) scheduler.now) (map (λ id. id.0) ids.now)) }
        ensures emitted { OnOk result (events.new ≡ emit_all_ended (map (λ k. stream k self.now) (map (λ id. id.0) ids.now)) events.old) }
        ensures err { OnErr result (Grown events.old events.new) }
    {
        let mut found = Vec::new(alloc);
        for id in ids {
            self.emit_ended_one(&mut found, scheduler, *id, events)?;
        }
        Ok(found)
    }

    /// Emits of the messages of a stream that they are given up. One that has messages or is in line is added to these.
    fn emit_ended_one(
        &self,
        found: &mut Vec<StreamId>,
        scheduler: &StreamScheduler,
        id: StreamId,
        events: &mut Events,
    ) -> Result<(), AllocError>
        ensures listed { OnOk result (map (λ id. id.0) found.new.items ≡ map (λ id. id.0) found.old.items ++ (if is_to_empty id.0 (stream id.0 self.now) scheduler.now then id.0 ∷ [] else [])) }
        ensures emitted { OnOk result (events.new ≡ emit_ended (stream id.0 self.now).messages events.old) }
        ensures err { OnErr result (Grown events.old events.new) }
    {
        match self.streams.get(&id.0) {
            Some(stream) => emit_and_list(found, scheduler, id, stream, events),
            None => {
                if scheduler.is_active(id) {
                    found.push(id)?;
                }
                Ok(())
            }
        }
    }
}
