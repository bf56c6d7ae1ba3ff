//! The socket.

ghost use Rattle.std.specs.Prelude.{◌≡◌, ◌<◌, ◌^◌, ◌↔◌, ◌||◌, false, true, Err, None, is_err, is_some, length, map, option_map, drop, slice_get, IfOk, IfErr, OnErr, OnOk};
ghost use Rattle.sctp_serial.specs.Messages.{message_of};
ghost use Rattle.sctp_tx_queue.specs.SendQueue.{amount_of, stream, total_of};
ghost use Rattle.sctp_state.specs.Events.{Grown, event_of, first_of, given_up_of, numbers_of};
ghost use Rattle.sctp_state.specs.Handover.{handover_state_of};
ghost use Rattle.sctp_state.specs.Options.{IsValid, options_of, send_options_of};
ghost use Rattle.sctp_association.specs.Interrupted.{StopsIn};
ghost use Rattle.spec_endpoint.specs.Association.{fresh, in_context};
ghost use Rattle.spec_endpoint.specs.Input.{my_tag, in_endpoint_state};
ghost use Rattle.sctp_calls.specs.Metrics.{metrics_in, metrics_of};
ghost use Rattle.sctp_association.specs.Socket.{Ends, LeavesAtMemory, LeavesRestoring, RanOut, Worked, association_of, batch_ending, ending_of, endpoint, handover_ending, readiness_in, refusal_in, refusals_in, resetting_ending, restore_ending, sending_ending};
ghost use Rattle.spec_endpoint.specs.Receiving.{Receives, Judges};
ghost use Rattle.spec_endpoint.specs.Shown.{association_in, is_at_rest};
ghost use Rattle.spec_endpoint.specs.Wire.{writing};
ghost use Rattle.spec_endpoint.specs.Calls as calls;
ghost use Rattle.spec_endpoint.specs.Shutdown as closing;
ghost use Rattle.spec_endpoint.specs.Handover as handover;
ghost use Rattle.spec_endpoint.specs.Opening as opening;
ghost use Rattle.spec_endpoint.specs.StreamReset as resets;
ghost use Rattle.spec_endpoint.specs.Timers as time;

use crate::input::handle_input;
use rand_core::Rng;
use sctp_calls::calls::{
    send, send_many, set_buffered_amount_low_threshold, set_max_message_size, set_stream_priority,
    socket_state,
};
use sctp_calls::handover::{get_handover_readiness, hand_over, restore};
use sctp_calls::metrics::metrics_in;
use sctp_endpoint::{Association, Context, State};
use sctp_handshake::judging::judge;
use sctp_handshake::opening::do_connect;
use sctp_handshake::validation::my_verification_tag;
use sctp_serial::{Message, SocketTime, StreamId};
use sctp_state::{
    BatchFault, BatchSendError, CallError, DcSctpSocket, GivenUp, HandoverError, HandoverReadiness,
    Metrics, Options, ResetStreamsError, RestoreError, SendError, SendOptions, SocketEvent,
    SocketHandoverState, SocketState,
};
use sctp_supervision::shutdown::{do_shutdown, handle_close};
use sctp_supervision::timers::{advance_time, poll_timeout};
use sctp_transfer::messages::{get_next_message, keeps_items, ready_count, ready_message};
use sctp_transfer::stream_reset::reset_streams;
use sctp_wire::Checksum;
use std::alloc::{AllocError, Global};
use std::marker::Model;

/// An end of an association, which draws its words from `rng` and makes its checksums by `checksum`.
#[derive(Drop)]
pub struct Socket<R: Rng, C: Checksum> {
    name: String,
    has_failed: bool,
    state: State,
    context: Context<C>,
    rng: R,
}

impl<R: Rng, C: Checksum> Model for Socket<R, C> {
    ghost use Rattle.sctp_association.specs.Socket.{SocketValue};
    ghost use Rattle.sctp_endpoint.specs.Views.{state_of};

    ghost Value = { SocketValue R C };

    ghost view = { λ s. record { has_failed = s.has_failed; state = state_of s.state; context = s.context; rng = s.rng } };
}

impl<R: Rng + Drop, C: Checksum + Drop> Socket<R, C> {
    /// A closed socket at moment zero. The name is kept, and nothing reads it. The error is `Memory`.
    pub fn new(
        alloc: Global,
        name: &str,
        options: &Options,
        rng: R,
        checksum: C,
    ) -> Result<Socket<R, C>, CallError>
        requires { IsValid (options_of options.now) }
        ensures ok { IfOk result (λ s. endpoint R.stream C.word_of s ≡ fresh (options_of options.now) (writing (C.word_of checksum)) (R.stream rng)) }
        ensures working { IfOk result (λ s. s.has_failed ≡ false) }
        ensures memory { IfErr result (λ e. e ≡ CallError.Memory) }
    {
        let name = String::from_str(alloc, name)?;
        Ok(Socket {
            name,
            has_failed: false,
            state: State::Closed,
            context: Context::new(alloc, *options, checksum),
            rng,
        })
    }

    /// Lets the socket go, as a drop does.
    pub fn let_go(self) {
        self.state.let_go();
        self.context.let_go();
    }
}

impl<R: Rng, C: Checksum> Socket<R, C> {
    /// The own tag; 0 where the socket is closed.
    pub fn verification_tag(&self) -> u32
        ensures { result ≡ my_tag self.now.state }
    {
        my_verification_tag(&self.state)
    }

    /// The moment to which time was advanced last.
    pub fn clock(&self) -> SocketTime
        ensures { result ≡ self.now.context.clock }
    {
        self.context.clock
    }

    /// The bytes of all streams that wait to be sent.
    pub fn total_buffered_amount(&self) -> usize
        ensures { result ≡ total_of self.now.context.queue.streams.entries }
    {
        self.context.send_queue.total_buffered_amount()
    }

    /// What makes the checksums of packets.
    pub fn checksum(&self) -> &C
        ensures { result.now ≡ self.now.context.checksum }
    {
        &self.context.checksum
    }

    /// Takes the record of the message that was given up first.
    pub fn next_given_up(&mut self) -> Option<GivenUp>
        ensures first { option_map given_up_of result ≡ first_of self.old.context.emitted.given_up }
        ensures rest { let c = self.old.context in
            self.new ≡ record self.old { context = record c { emitted = record c.emitted { given_up = drop 1 c.emitted.given_up } } } }
    {
        self.context.events.next_given_up()
    }

    /// The ready message at this place, the first one at 0.
    pub fn ready_message(&self, place: usize) -> Option<&Message>
        ensures { option_map (λ m. message_of m.now) result ≡ slice_get (calls.ready_in self.now.state) place }
    {
        ready_message(&self.state, place)
    }

    /// Whether nothing is queued and no item kept.
    pub fn is_at_rest(&self) -> bool
        ensures { result ≡ is_at_rest self.now.state self.now.context.queue }
    {
        self.context.send_queue.is_empty() && !keeps_items(&self.state)
    }

    /// What both ends hold of the association, while there is a control block.
    pub fn association(&self) -> Option<Association>
        ensures { option_map association_of result ≡ association_in self.now.state }
    {
        match self.state.tcb() {
            Some(tcb) => Some(tcb.identity.association()),
            None => None,
        }
    }

    /// Whether `handle_input` would refuse these bytes: they are no packet, not one for this association, or one of more than 4 SACKs and COOKIE ECHOs.
    /// It takes no memory.
    pub fn refuses(&self, bytes: &[u8]) -> Result<bool, CallError>
        ensures judged { IfOk result (λ refused. Judges (C.word_of self.now.context.checksum) bytes.now self.now.context.options self.now.state refused) }
        ensures failed { result ≡ Err CallError.Failed ↔ self.now.has_failed ≡ true }
        ensures without_memory { IfErr result (λ e. e ≡ CallError.Failed) }
    {
        if self.has_failed {
            return Err(CallError::Failed);
        }
        Ok(judge(&self.state, &self.context, bytes))
    }
}

/// What a call answers: where it found too little memory, the socket has failed for good.
fn ended<T>(has_failed: &mut bool, answer: Result<T, AllocError>) -> Result<T, AllocError>
    ensures same { result ≡ answer }
    ensures failed { has_failed.new ≡ (is_err answer || has_failed.old) }
{
    if answer.is_err() {
        *has_failed = true;
    }
    answer
}

impl<R: Rng, C: Checksum> DcSctpSocket for Socket<R, C> {
    fn poll_event(&mut self) -> Option<SocketEvent>
        ensures first { option_map event_of result ≡ first_of self.old.context.emitted.events }
        ensures rest { let c = self.old.context in
            self.new ≡ record self.old { context = record c { emitted = record c.emitted { events = drop 1 c.emitted.events } } } }
    {
        self.context.events.next_event()
    }

    fn get_next_message(&mut self) -> Option<Message>
        ensures message { option_map message_of result ≡ first_of (calls.ready_in self.old.state) }
        ensures rest { endpoint R.stream C.word_of self.new ≡ in_endpoint_state calls.take_message (endpoint R.stream C.word_of self.old) }
        ensures failure { self.new.has_failed ≡ self.old.has_failed }
    {
        get_next_message(&mut self.state, &self.context.options)
    }

    #[tactic(auto, using(crate::proofs::StandsLemmas::stands_same, crate::proofs::StandsLemmas::stands_along))]
    fn handle_input(&mut self, bytes: &[u8]) -> Result<(), CallError>
        ensures ends { Ends (ending_of result) self.old self.new }
        ensures ok { OnOk result (Receives (C.word_of self.old.context.checksum) bytes.now (endpoint R.stream C.word_of self.old) (endpoint R.stream C.word_of self.new)) }
        ensures stands { Grown self.old.context.emitted self.new.context.emitted }
        ensures stops { OnErr result (StopsIn (C.word_of self.old.context.checksum) bytes.now (endpoint R.stream C.word_of self.old) (endpoint R.stream C.word_of self.new).endpoint_state) }
    {
        if self.has_failed {
            return Err(CallError::Failed);
        }
        let done = handle_input(&mut self.state, &mut self.context, &mut self.rng, bytes);
        Ok(ended(&mut self.has_failed, done)?)
    }

    #[tactic(auto, using(crate::proofs::StandsLemmas::stands_same, crate::proofs::StandsLemmas::stands_by, crate::proofs::StandsLemmas::stands_on, crate::proofs::StandsLemmas::quiet_same, crate::proofs::StandsLemmas::quiet_by, crate::proofs::StandsLemmas::quiet_on))]
    fn advance_time(&mut self, now: SocketTime) -> Result<(), CallError>
        ensures ends { Ends (ending_of result) self.old self.new }
        ensures ok { OnOk result (endpoint R.stream C.word_of self.new ≡ in_endpoint_state (time.advance now) (endpoint R.stream C.word_of self.old)) }
        ensures stands { Grown self.old.context.emitted self.new.context.emitted }
        ensures at_memory { OnErr result (LeavesAtMemory self.old self.new) }
    {
        if self.has_failed {
            return Err(CallError::Failed);
        }
        let done = advance_time(&mut self.state, &mut self.context, now);
        Ok(ended(&mut self.has_failed, done)?)
    }

    fn poll_timeout(&self) -> SocketTime
        ensures { result ≡ time.poll_timeout (endpoint R.stream C.word_of self.now).endpoint_state }
    {
        poll_timeout(&self.context, &self.state)
    }

    #[tactic(auto, using(crate::proofs::StandsLemmas::stands_same, crate::proofs::StandsLemmas::stands_by, crate::proofs::StandsLemmas::stands_on, crate::proofs::StandsLemmas::quiet_same, crate::proofs::StandsLemmas::quiet_by, crate::proofs::StandsLemmas::quiet_on))]
    fn connect(&mut self) -> Result<(), CallError>
        ensures ends { Ends (ending_of result) self.old self.new }
        ensures ok { OnOk result (endpoint R.stream C.word_of self.new ≡ opening.connect (endpoint R.stream C.word_of self.old)) }
        ensures stands { Grown self.old.context.emitted self.new.context.emitted }
        ensures at_memory { OnErr result (LeavesAtMemory self.old self.new) }
    {
        if self.has_failed {
            return Err(CallError::Failed);
        }
        let done = do_connect(&mut self.state, &mut self.context, &mut self.rng);
        Ok(ended(&mut self.has_failed, done)?)
    }

    #[tactic(auto, using(crate::proofs::StandsLemmas::stands_same, crate::proofs::StandsLemmas::stands_by, crate::proofs::StandsLemmas::stands_on, crate::proofs::StandsLemmas::quiet_same, crate::proofs::StandsLemmas::quiet_by, crate::proofs::StandsLemmas::quiet_on))]
    fn close(&mut self) -> Result<(), CallError>
        ensures ends { Ends (ending_of result) self.old self.new }
        ensures ok { OnOk result (endpoint R.stream C.word_of self.new ≡ in_endpoint_state closing.close (endpoint R.stream C.word_of self.old)) }
        ensures stands { Grown self.old.context.emitted self.new.context.emitted }
        ensures at_memory { OnErr result (LeavesAtMemory self.old self.new) }
    {
        if self.has_failed {
            return Err(CallError::Failed);
        }
        let done = handle_close(&mut self.state, &mut self.context);
        Ok(ended(&mut self.has_failed, done)?)
    }

    #[tactic(auto, using(crate::proofs::StandsLemmas::stands_same, crate::proofs::StandsLemmas::stands_by, crate::proofs::StandsLemmas::stands_on, crate::proofs::StandsLemmas::quiet_same, crate::proofs::StandsLemmas::quiet_by, crate::proofs::StandsLemmas::quiet_on))]
    fn shutdown(&mut self) -> Result<(), CallError>
        ensures ends { Ends (ending_of result) self.old self.new }
        ensures ok { OnOk result (endpoint R.stream C.word_of self.new ≡ in_endpoint_state closing.shutdown (endpoint R.stream C.word_of self.old)) }
        ensures stands { Grown self.old.context.emitted self.new.context.emitted }
        ensures at_memory { OnErr result (LeavesAtMemory self.old self.new) }
    {
        if self.has_failed {
            return Err(CallError::Failed);
        }
        let done = do_shutdown(&mut self.state, &mut self.context);
        Ok(ended(&mut self.has_failed, done)?)
    }

    #[tactic(auto, using(crate::proofs::StandsLemmas::stands_same, crate::proofs::StandsLemmas::stands_by, crate::proofs::StandsLemmas::stands_on, crate::proofs::StandsLemmas::quiet_same, crate::proofs::StandsLemmas::quiet_by, crate::proofs::StandsLemmas::quiet_on))]
    fn send(&mut self, message: Message, options: &SendOptions) -> Result<(), SendError>
        ensures ends { Ends (sending_ending result) self.old self.new }
        ensures answer { sending_ending result ≡ Worked → refusal_in result ≡ calls.send_refusal_of (message_of message) (endpoint R.stream C.word_of self.old).endpoint_state }
        ensures sent { sending_ending result ≡ Worked
            → endpoint R.stream C.word_of self.new ≡ in_endpoint_state (calls.send (message_of message) (send_options_of options.now)) (endpoint R.stream C.word_of self.old) }
        ensures unsent { sending_ending result ≡ RanOut → is_some (calls.send_refusal_of (message_of message) (endpoint R.stream C.word_of self.old).endpoint_state) ≡ true
            → self.new.context.queue ≡ self.old.context.queue }
        ensures stands { Grown self.old.context.emitted self.new.context.emitted }
        ensures at_memory { OnErr result (LeavesAtMemory self.old self.new) }
    {
        if self.has_failed {
            return Err(SendError::Failed);
        }
        let answer = send(&mut self.state, &mut self.context, message, options);
        match ended(&mut self.has_failed, answer)? {
            None => Ok(()),
            Some(refusal) => Err(refusal),
        }
    }

    #[tactic(auto, using(crate::proofs::StandsLemmas::stands_same, crate::proofs::StandsLemmas::stands_by, crate::proofs::StandsLemmas::stands_on, crate::proofs::StandsLemmas::quiet_same, crate::proofs::StandsLemmas::quiet_by, crate::proofs::StandsLemmas::quiet_on))]
    fn send_many(&mut self, messages: Vec<Message>, options: &SendOptions) -> Result<(), BatchFault>
        ensures ends { Ends (batch_ending result) self.old self.new }
        ensures answer { batch_ending result ≡ Worked → refusals_in result ≡ (let s = (endpoint R.stream C.word_of self.old).endpoint_state in
            calls.refusals 0 (map message_of messages.items) (send_options_of options.now) (calls.shown_state s.state) s.context) }
        ensures refused { (e : BatchSendError) → result ≡ Err (BatchFault.Refused e) → 0 < length e.0.items }
        ensures sent { batch_ending result ≡ Worked → endpoint R.stream C.word_of self.new
            ≡ in_endpoint_state (calls.send_many (map message_of messages.items) (send_options_of options.now)) (endpoint R.stream C.word_of self.old) }
        ensures stands { Grown self.old.context.emitted self.new.context.emitted }
        ensures at_memory { OnErr result (LeavesAtMemory self.old self.new) }
    {
        if self.has_failed {
            return Err(BatchFault::Failed);
        }
        let answer = send_many(&mut self.state, &mut self.context, messages, options);
        let refusals = ended(&mut self.has_failed, answer)?;
        if refusals.is_empty() {
            return Ok(());
        }
        Err(BatchFault::Refused(BatchSendError(refusals)))
    }

    #[tactic(auto, using(crate::proofs::StandsLemmas::stands_same, crate::proofs::StandsLemmas::stands_by, crate::proofs::StandsLemmas::stands_on, crate::proofs::StandsLemmas::quiet_same, crate::proofs::StandsLemmas::quiet_by, crate::proofs::StandsLemmas::quiet_on))]
    fn reset_streams(&mut self, streams: &[StreamId]) -> Result<(), ResetStreamsError>
        ensures ends { Ends (resetting_ending result) self.old self.new }
        ensures answer { resetting_ending result ≡ Worked → refusal_in result ≡ resets.reset_refusal self.old.state }
        ensures reset { resetting_ending result ≡ Worked
            → endpoint R.stream C.word_of self.new ≡ in_endpoint_state (resets.reset_streams (numbers_of streams.now)) (endpoint R.stream C.word_of self.old) }
        ensures allowed { resetting_ending result ≡ RanOut → resets.reset_refusal self.old.state ≡ None }
        ensures stands { Grown self.old.context.emitted self.new.context.emitted }
        ensures at_memory { OnErr result (LeavesAtMemory self.old self.new) }
    {
        if self.has_failed {
            return Err(ResetStreamsError::Failed);
        }
        let answer = reset_streams(&mut self.state, &mut self.context, streams);
        match ended(&mut self.has_failed, answer)? {
            None => Ok(()),
            Some(refusal) => Err(refusal),
        }
    }

    #[tactic(auto, using(crate::proofs::StandsLemmas::stands_same, crate::proofs::StandsLemmas::stands_by, crate::proofs::StandsLemmas::stands_on, crate::proofs::StandsLemmas::quiet_same, crate::proofs::StandsLemmas::quiet_by, crate::proofs::StandsLemmas::quiet_on))]
    fn set_stream_priority(&mut self, id: StreamId, priority: u16) -> Result<(), CallError>
        ensures ends { Ends (ending_of result) self.old self.new }
        ensures ok { OnOk result (endpoint R.stream C.word_of self.new ≡ in_endpoint_state (in_context (calls.set_priority id.0 priority)) (endpoint R.stream C.word_of self.old)) }
        ensures stands { Grown self.old.context.emitted self.new.context.emitted }
        ensures at_memory { OnErr result (LeavesAtMemory self.old self.new) }
    {
        if self.has_failed {
            return Err(CallError::Failed);
        }
        let done = set_stream_priority(&mut self.context, id, priority);
        Ok(ended(&mut self.has_failed, done)?)
    }

    fn get_stream_priority(&self, id: StreamId) -> u16
        ensures { result ≡ (stream id.0 self.now.context.queue.streams).priority }
    {
        self.context.send_queue.get_priority(id)
    }

    #[tactic(auto, using(crate::proofs::StandsLemmas::stands_same, crate::proofs::StandsLemmas::stands_by, crate::proofs::StandsLemmas::stands_on, crate::proofs::StandsLemmas::quiet_same, crate::proofs::StandsLemmas::quiet_by, crate::proofs::StandsLemmas::quiet_on))]
    fn set_buffered_amount_low_threshold(
        &mut self,
        id: StreamId,
        bytes: usize,
    ) -> Result<(), CallError>
        ensures ends { Ends (ending_of result) self.old self.new }
        ensures ok { OnOk result (endpoint R.stream C.word_of self.new ≡ in_endpoint_state (in_context (calls.set_low_threshold id.0 bytes)) (endpoint R.stream C.word_of self.old)) }
        ensures stands { Grown self.old.context.emitted self.new.context.emitted }
        ensures at_memory { OnErr result (LeavesAtMemory self.old self.new) }
    {
        if self.has_failed {
            return Err(CallError::Failed);
        }
        let done = set_buffered_amount_low_threshold(&mut self.context, id, bytes);
        Ok(ended(&mut self.has_failed, done)?)
    }

    fn buffered_amount_low_threshold(&self, id: StreamId) -> usize
        ensures { result ≡ (stream id.0 self.now.context.queue.streams).threshold }
    {
        self.context.send_queue.buffered_amount_low_threshold(id)
    }

    fn buffered_amount(&self, id: StreamId) -> usize
        ensures { result ≡ amount_of (stream id.0 self.now.context.queue.streams) }
    {
        self.context.send_queue.buffered_amount(id)
    }

    fn set_max_message_size(&mut self, bytes: usize)
        requires { bytes < 2 ^ 32 }
        ensures ok { endpoint R.stream C.word_of self.new ≡ in_endpoint_state (in_context (calls.set_max_message_size bytes)) (endpoint R.stream C.word_of self.old) }
        ensures failure { self.new.has_failed ≡ self.old.has_failed }
    {
        set_max_message_size(&mut self.context, bytes);
    }

    fn options(&self) -> Options
        ensures { options_of result ≡ self.now.context.options }
    {
        self.context.options
    }

    fn state(&self) -> SocketState
        ensures { result ≡ calls.shown_state self.now.state }
    {
        socket_state(&self.state)
    }

    fn get_metrics(&self) -> Option<Metrics>
        ensures { option_map metrics_of result ≡ metrics_in self.now.state self.now.context }
    {
        metrics_in(&self.context, &self.state)
    }

    fn messages_ready_count(&self) -> usize
        ensures { result ≡ length (calls.ready_in self.now.state) }
    {
        ready_count(&self.state)
    }

    fn get_handover_readiness(&self) -> HandoverReadiness
        ensures { result.0 ≡ handover.readiness (endpoint R.stream C.word_of self.now).endpoint_state }
    {
        get_handover_readiness(&self.context, &self.state)
    }

    #[tactic(auto, using(crate::proofs::StandsLemmas::stands_same, crate::proofs::StandsLemmas::stands_by, crate::proofs::StandsLemmas::stands_on, crate::proofs::StandsLemmas::quiet_same, crate::proofs::StandsLemmas::quiet_by, crate::proofs::StandsLemmas::quiet_on))]
    fn get_handover_state_and_close(&mut self) -> Result<SocketHandoverState, HandoverError>
        ensures ends { Ends (handover_ending result) self.old self.new }
        ensures answer { handover_ending result ≡ Worked → readiness_in result ≡ handover.readiness (endpoint R.stream C.word_of self.old).endpoint_state }
        ensures refused { (r : HandoverReadiness) → result ≡ Err (HandoverError.NotReady r) → 0 < r.0 }
        ensures record { IfOk result (λ h. handover_state_of h ≡ handover.handed_over (endpoint R.stream C.word_of self.old).endpoint_state) }
        ensures left { handover_ending result ≡ Worked → endpoint R.stream C.word_of self.new ≡ in_endpoint_state handover.hand_over (endpoint R.stream C.word_of self.old) }
        ensures allowed { handover_ending result ≡ RanOut → handover.readiness (endpoint R.stream C.word_of self.old).endpoint_state ≡ 0 }
        ensures stands { Grown self.old.context.emitted self.new.context.emitted }
        ensures at_memory { OnErr result (LeavesAtMemory self.old self.new) }
    {
        if self.has_failed {
            return Err(HandoverError::Failed);
        }
        let readiness = get_handover_readiness(&self.context, &self.state);
        if !readiness.is_ready() {
            return Err(HandoverError::NotReady(readiness));
        }
        let state = hand_over(&mut self.state, &mut self.context);
        Ok(ended(&mut self.has_failed, state)?)
    }

    #[tactic(auto, using(crate::proofs::StandsLemmas::stands_same, crate::proofs::StandsLemmas::stands_with, crate::proofs::StandsLemmas::held_same, crate::proofs::StandsLemmas::held_with))]
    fn restore_from_state(&mut self, state: &SocketHandoverState) -> Result<(), RestoreError>
        ensures ends { Ends (restore_ending result) self.old self.new }
        ensures answer { restore_ending result ≡ Worked → refusal_in result ≡ handover.restore_refusal_in self.old.state (handover_state_of state.now) }
        ensures restored { restore_ending result ≡ Worked
            → endpoint R.stream C.word_of self.new ≡ in_endpoint_state (handover.restore (handover_state_of state.now)) (endpoint R.stream C.word_of self.old) }
        ensures allowed { restore_ending result ≡ RanOut → handover.restore_refusal_in self.old.state (handover_state_of state.now) ≡ None }
        ensures stands { Grown self.old.context.emitted self.new.context.emitted }
        ensures at_memory { OnErr result (LeavesRestoring (handover_state_of state.now) self.old self.new) }
    {
        if self.has_failed {
            return Err(RestoreError::Failed);
        }
        let answer = restore(&mut self.state, &mut self.context, state);
        match ended(&mut self.has_failed, answer)? {
            None => Ok(()),
            Some(refusal) => Err(refusal),
        }
    }
}
