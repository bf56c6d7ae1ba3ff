//! Requests to reset streams: the own one that waits for its answer, and the last one of the peer (RFC 6525 section 5).

ghost use Rattle.std.specs.Prelude.{◌≡◌, true, option_map, is_some, IfOk};
ghost use Rattle.std.specs.Duration.{as_nanos};
ghost use Rattle.sctp_parameter.specs.ParameterViews.{result_number};
ghost use Rattle.sctp_packet.specs.ChunkView.{chunk_tree};
ghost use Rattle.sctp_state.specs.Events.{numbers_of};
ghost use Rattle.sctp_state.specs.Options.{options_of};
ghost use Rattle.sctp_state.specs.Timer.{is_due, next_expiry};
ghost use Rattle.sctp_state.specs.Handover.{handover_state_of};
ghost use Rattle.spec_endpoint.specs.Handover.{request_readiness, requests_restored};
ghost use Rattle.sctp_endpoint.specs.RequestViews.{outcome_of};
ghost use Rattle.spec_endpoint.specs.ResetRequests as table;

use sctp_packet::{Chunk, ReConfigChunk};
use sctp_parameter::{
    OutgoingSsnResetRequestParameter, Parameter, ReconfigurationResponseParameter,
    ReconfigurationResponseResult,
};
use sctp_serial::{SocketTime, StreamId, Tsn};
use sctp_state::{BackoffAlgorithm, HandoverReadiness, Options, SocketHandoverState, Timer};
use std::alloc::{AllocError, Global};
use std::marker::Model;
use std::time::Duration;

/// An own request that waits for its answer.
#[derive(Drop)]
pub struct ResetRequest {
    number: u32,
    /// The last TSN that was assigned before the reset.
    last_tsn: Tsn,
    streams: Vec<StreamId>,
    /// It was answered by "in progress", and not sent again since.
    is_deferred: bool,
}

impl Model for ResetRequest {
    ghost use Rattle.sctp_state.specs.Events.{numbers_of};
    ghost use Rattle.spec_endpoint.specs.ResetRequests.{Request};

    ghost Value = { Request };

    ghost view = { λ r. record { number = r.number; last_tsn = r.last_tsn.0; streams = numbers_of r.streams.items; is_deferred = r.is_deferred } };
}

impl ResetRequest {
    /// The RE-CONFIG with the request (RFC 6525 section 4.1).
    #[tactic(auto, using(crate::proofs::RequestLemmas::ids_numbers))]
    fn chunk(&self, alloc: Global) -> Result<Chunk, AllocError>
        ensures { IfOk result (λ chunk. chunk_tree chunk ≡ table.request_chunk self.now) }
    {
        let request = OutgoingSsnResetRequestParameter {
            request_seq_nbr: self.number,
            response_seq_nbr: self.number,
            sender_last_assigned_tsn: self.last_tsn,
            streams: Vec::from_slice(alloc, &self.streams)?,
        };
        let mut parameters = Vec::new(alloc);
        parameters.push(Parameter::OutgoingSsnResetRequest(request))?;
        Ok(Chunk::ReConfig(ReConfigChunk { parameters }))
    }
}

/// What an answer says of the streams of the own request.
#[derive(Drop)]
pub enum ResetOutcome {
    /// Nothing, or nothing yet.
    Unsettled,
    /// They are reset.
    Done(Vec<StreamId>),
    /// They are not, and won't be.
    Denied(Vec<StreamId>),
}

/// The requests of an association. Each side counts its own from its first TSN.
#[derive(Drop)]
pub struct ResetRequests {
    alloc: Global,
    next: u32,
    current: Option<ResetRequest>,
    reconfig_timer: Timer,
    /// The number of the peer's request that was processed last.
    last: u32,
    result: ReconfigurationResponseResult,
}

impl Model for ResetRequests {
    ghost use Rattle.sctp_parameter.specs.ParameterViews.{result_number};
    ghost use Rattle.spec_endpoint.specs.ResetRequests.{Requests};

    ghost Value = { Requests };

    ghost view = { λ r. record { next = r.next; current = r.current; timer = r.reconfig_timer; last = r.last; result = result_number r.result } };
}

impl ResetRequests {
    /// None was made so far.
    pub fn new(
        alloc: Global,
        options: &Options,
        my_initial_tsn: Tsn,
        peer_initial_tsn: Tsn,
    ) -> ResetRequests
        ensures { result ≡ table.requests (options_of options.now) my_initial_tsn.0 peer_initial_tsn.0 }
    {
        ResetRequests {
            alloc,
            next: my_initial_tsn.0,
            current: None,
            reconfig_timer: Timer::new(
                options.rto_initial,
                BackoffAlgorithm::Exponential,
                None,
                options.reconfig_backoff(),
            ),
            last: peer_initial_tsn.0.wrapping_sub(1),
            result: ReconfigurationResponseResult::SuccessNothingToDo,
        }
    }

    /// Whether an own request stands in the way of a handover: one that waits for its answer.
    pub fn get_handover_readiness(&self) -> HandoverReadiness
        ensures { result.0 ≡ request_readiness self.now }
    {
        match self.current {
            Some(_) => HandoverReadiness::PENDING_STREAM_RESET_REQUEST,
            None => HandoverReadiness::READY,
        }
    }

    /// Writes the numbers of requests into the record of a socket that is handed over.
    pub fn add_to_handover_state(&self, state: &mut SocketHandoverState)
        ensures { let old = handover_state_of state.old in handover_state_of state.new ≡ record old {
          tx = record old.tx { next_reset_req_sn = self.now.next };
          rx = record old.rx { last_completed_reset_req_sn = self.now.last };
        } }
    {
        state.tx.next_reset_req_sn = self.next;
        state.rx.last_completed_reset_req_sn = self.last;
    }

    /// Goes on with the numbers of a record.
    pub fn restore_from_state(&mut self, state: &SocketHandoverState)
        ensures { self.new ≡ requests_restored (handover_state_of state.now) self.old }
    {
        self.next = state.tx.next_reset_req_sn;
        self.last = state.rx.last_completed_reset_req_sn;
    }

    /// Whether an own request waits for its answer.
    pub fn has_current(&self) -> bool
        ensures { result ≡ is_some self.now.current }
    {
        self.current.is_some()
    }

    /// The chunk of the own request that waits for its answer.
    pub fn current_chunk(&self) -> Result<Option<Chunk>, AllocError>
        ensures { IfOk result (λ chunk. option_map chunk_tree chunk ≡ option_map table.request_chunk self.now.current) }
    {
        match &self.current {
            Some(request) => Ok(Some(request.chunk(self.alloc)?)),
            None => Ok(None),
        }
    }

    /// From the next start or expiry of the timer on, this is its duration.
    pub fn update_rto(&mut self, rto: Duration)
        ensures { self.new ≡ table.lasting (as_nanos rto) self.old }
    {
        self.reconfig_timer.set_duration(rto);
    }

    /// A request for these streams begins.
    pub fn start(&mut self, now: SocketTime, rto: Duration, last_tsn: Tsn, streams: Vec<StreamId>)
        ensures { self.new ≡ table.start_request now (as_nanos rto) last_tsn.0 (numbers_of streams.items) self.old }
    {
        self.current = Some(ResetRequest {
            number: self.next,
            last_tsn,
            streams,
            is_deferred: false,
        });
        self.next = self.next.wrapping_add(1);
        self.reconfig_timer.set_duration(rto);
        self.reconfig_timer.start(now);
    }

    fn end(&mut self)
        ensures { self.new ≡ table.end_request self.old }
    {
        self.current = None;
        self.reconfig_timer.stop();
    }

    fn put_off(&mut self, now: SocketTime, rto: Duration, mut request: ResetRequest)
        ensures { self.new ≡ table.defer_request now (as_nanos rto) request self.old }
    {
        request.is_deferred = true;
        self.current = Some(request);
        self.reconfig_timer.set_duration(rto);
        self.reconfig_timer.start(now);
    }

    /// The own request is answered.
    fn settle(
        &mut self,
        now: SocketTime,
        rto: Duration,
        request: ResetRequest,
        answer: ReconfigurationResponseResult,
    ) -> ResetOutcome
        ensures outcome { outcome_of result ≡ table.outcome_if true (result_number answer) request.streams }
        ensures requests { self.new ≡ table.end_or_defer (table.is_final (result_number answer)) now (as_nanos rto) request self.old }
    {
        match answer {
            ReconfigurationResponseResult::SuccessNothingToDo
            | ReconfigurationResponseResult::SuccessPerformed => {
                self.end();
                ResetOutcome::Done(request.streams)
            }
            ReconfigurationResponseResult::Denied
            | ReconfigurationResponseResult::ErrorWrongSSN
            | ReconfigurationResponseResult::ErrorRequestAlreadyInProgress
            | ReconfigurationResponseResult::ErrorBadSequenceNumber => {
                self.end();
                ResetOutcome::Denied(request.streams)
            }
            ReconfigurationResponseResult::InProgress => {
                self.put_off(now, rto, request);
                ResetOutcome::Unsettled
            }
        }
    }

    /// The peer answers a request. What is not the one that waits says nothing.
    pub fn handle_response(
        &mut self,
        now: SocketTime,
        rto: Duration,
        response: &ReconfigurationResponseParameter,
    ) -> ResetOutcome
        ensures outcome { let r = response.now in outcome_of result ≡ table.outcome r.response_seq_nbr (result_number r.result) self.old.current }
        ensures requests { let r = response.now in self.new ≡ table.handle_response now (as_nanos rto) r.response_seq_nbr (result_number r.result) self.old }
    {
        let Some(request) = self.current.take() else {
            return ResetOutcome::Unsettled;
        };
        if request.number != response.response_seq_nbr {
            self.current = Some(request);
            return ResetOutcome::Unsettled;
        }
        self.settle(now, rto, request, response.result)
    }

    /// Whether the timer has expired.
    pub fn expire(&mut self, now: SocketTime) -> bool
        ensures answer { result ≡ is_due now self.old.timer }
        ensures after { self.new ≡ table.expire_reconfig_timer now self.old }
    {
        self.reconfig_timer.expire(now)
    }

    /// The own request is to be sent again, and waits as at first. The answer is whether it was not answered since it was sent last.
    pub fn wake(&mut self) -> bool
        ensures answer { result ≡ table.is_unanswered self.old.current }
        ensures after { self.new ≡ table.clear_deferral self.old }
    {
        let Some(request) = &mut self.current else {
            return false;
        };
        let is_unanswered = !request.is_deferred;
        request.is_deferred = false;
        is_unanswered
    }

    /// When the timer expires next; never, where it doesn't run.
    pub fn next_timeout(&self) -> SocketTime
        ensures { result ≡ next_expiry self.now.timer }
    {
        self.reconfig_timer.next_expiry()
    }

    /// Whether the peer's request is the last one again.
    pub fn is_last(&self, number: u32) -> bool
        ensures { result ≡ table.is_last_request number self.now }
    {
        number == self.last
    }

    /// Whether it is the next one.
    pub fn is_next(&self, number: u32) -> bool
        ensures { result ≡ table.is_next_request number self.now }
    {
        number == self.last.wrapping_add(1)
    }

    /// Whether it is the last one or the next one: others are answered by ErrorBadSequenceNumber (RFC 6525 section 5.2.1).
    pub fn is_known(&self, number: u32) -> bool
        ensures { result ≡ table.is_known_request number self.now }
    {
        self.is_last(number) || self.is_next(number)
    }

    /// What became of the peer's last request.
    pub fn result(&self) -> ReconfigurationResponseResult
        ensures { result_number result ≡ self.now.result }
    {
        self.result
    }

    /// The peer's request with this number is processed now.
    pub fn process(&mut self, number: u32, answer: ReconfigurationResponseResult)
        ensures { self.new ≡ table.set_last_request number (result_number answer) self.old }
    {
        self.last = number;
        self.result = answer;
    }
}
