//! A queue that takes up the record of a socket that was handed over.

ghost use Rattle.std.specs.Prelude.{◌≡◌, ◌%◌, IsTrue, OnOk, OnErr, IfOk, map, option_map};
ghost use Rattle.sctp_state.specs.Handover.{transmission_of, handover_state_of, stream_message_of};
ghost use Rattle.sctp_state.specs.Validity.{is_valid_state, outgoing_ids};
ghost use Rattle.sctp_state.specs.declared.api.handover.HandoverSocketState.TheVariants.{Connected};
ghost use Rattle.sctp_tx_queue.specs.Restored.{restore, each_scheduled, scheduler_from, partly_sent, begun_from};

use crate::send_queue::SendQueue;
use crate::send_queue::changes::ChangedStreams;
use crate::send_queue::streams::Streams;
use sctp_serial::{OutgoingMessageId, SocketTime, StreamId};
use sctp_state::SocketHandoverState;
use sctp_state::api::handover::{HandoverOutgoingStream, HandoverStreamMessage};
use sctp_stream_scheduler::StreamScheduler;
use std::alloc::{AllocError, Global};

/// Gives the scheduler what the streams of a record have to send.
fn schedule_all(
    scheduler: &mut StreamScheduler,
    streams: &Streams,
    records: &[HandoverOutgoingStream],
) -> Result<(), AllocError>
    ensures { OnOk result (scheduler.new ≡ each_scheduled (outgoing_ids records.now) streams.now scheduler.old) }
{
    for stream in records {
        let id = StreamId(stream.id);
        let bytes = streams.sendable(id);
        let priority = streams.priority(id);
        scheduler.set_bytes_remaining(id, bytes, priority)?;
    }
    Ok(())
}

/// The same for a new scheduler in place of this one.
fn scheduler_from(
    alloc: Global,
    old: &StreamScheduler,
    is_interleaved: bool,
    streams: &Streams,
    records: &[HandoverOutgoingStream],
) -> Result<StreamScheduler, AllocError>
    ensures { IfOk result (λ scheduler. scheduler ≡ scheduler_from is_interleaved (outgoing_ids records.now) streams.now old.now) }
{
    let mut scheduler = StreamScheduler::new(alloc, old.max_payload());
    scheduler.enable_message_interleaving(is_interleaved);
    schedule_all(&mut scheduler, streams, records)?;
    Ok(scheduler)
}

/// The stream of the first message that is partly sent.
fn partly_sent(messages: &[HandoverStreamMessage]) -> Option<StreamId>
    ensures { option_map (λ id. id.0) result ≡ partly_sent (map stream_message_of messages.now) }
{
    for message in messages {
        if 0 < message.remaining_offset {
            return Some(StreamId(message.stream_id));
        }
    }
    None
}

fn begun_from(is_interleaved: bool, messages: &[HandoverStreamMessage]) -> Option<StreamId>
    ensures { option_map (λ id. id.0) result ≡ begun_from is_interleaved (map stream_message_of messages.now) }
{
    if is_interleaved {
        None
    } else {
        partly_sent(messages)
    }
}

impl SendQueue {
    /// Takes up the streams, the messages and the count of accepted messages of a valid record of a connected socket now, in place of its own, and
    /// whether messages are interleaved. Streams send, and have the default threshold. A message that is partly sent goes
    /// on, and the virtual time begins at 0. Without memory nothing changes.
    #[tactic(auto, using(crate::proofs::AddedLemmas::any_keeps))]
    pub fn restore_from_state(
        &mut self,
        now: SocketTime,
        state: &SocketHandoverState,
    ) -> Result<(), AllocError>
        requires connected { state.now.socket_state ≡ Connected }
        requires valid { IsTrue (is_valid_state (handover_state_of state.now)) }
        ensures ok { OnOk result (self.new ≡ restore now state.now.capabilities.message_interleaving (transmission_of state.now.tx) self.old) }
        ensures err { OnErr result (self.new ≡ self.old) }
    {
        let tx = &state.tx;
        let is_interleaved = state.capabilities.message_interleaving;
        let streams = self.streams.restored(self.alloc, now, tx)?;
        let scheduler = scheduler_from(
            self.alloc,
            &self.scheduler,
            is_interleaved,
            &streams,
            &tx.streams,
        )?;
        self.changed = ChangedStreams::any();
        self.streams = streams;
        self.scheduler = scheduler;
        self.next_message_id = OutgoingMessageId((tx.next_outgoing_message_id % (1 << 32)) as u32);
        self.begun = begun_from(is_interleaved, &tx.queued_messages);
        Ok(())
    }
}
