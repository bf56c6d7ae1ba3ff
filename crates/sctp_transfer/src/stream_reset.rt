//! Streams that are reset (RFC 6525): the peer's requests, the answers to the own one, and the call.

ghost use Rattle.std.specs.Prelude.{◌≡◌, ◌++◌, ◌∷◌, [], false, true, None, map, IfOk, OnErr, OnOk};
ghost use Rattle.sctp_wire.specs.Parameter.{reset_response};
ghost use Rattle.sctp_parameter.specs.ParameterViews.{parameter_tree, result_number};
ghost use Rattle.sctp_state.specs.Events.{numbers_of};
ghost use Rattle.spec_endpoint.specs.Association.{where_open};
ghost use Rattle.spec_endpoint.specs.ResetRequests.{is_final};
ghost use Rattle.sctp_endpoint.specs.RequestViews.{outcome_of};
ghost use Rattle.sctp_rx.specs.Delivery.{Extends};
ghost use Rattle.spec_endpoint.specs.Calls.{ready_in};
ghost use Rattle.spec_endpoint.specs.Shown.{association_in};
ghost use Rattle.sctp_endpoint.specs.GoesOn.{GoesOn};
ghost use Rattle.sctp_endpoint.specs.Views.{context_of, handled_parameters_of, handling_of, opened_of, phase_of, after_sending_of, endpoint_state_of, state_of, tcb_of};
ghost use Rattle.spec_endpoint.specs.StreamReset as table;

use sctp_endpoint::reset_requests::ResetOutcome;
use sctp_endpoint::sending::send_waiting;
use sctp_endpoint::{Context, Phase, State, TransmissionControlBlock};
use sctp_packet::{Chunk, ReConfigChunk};
use sctp_parameter::{
    OutgoingSsnResetRequestParameter, Parameter, ReconfigurationResponseParameter,
    ReconfigurationResponseResult,
};
use sctp_serial::{SerialNumber, StreamId, Tsn};
use sctp_state::{ErrorKind, ResetStreamsError, SocketEvent};
use sctp_wire::Checksum;
use std::alloc::AllocError;

/// A request is answered.
fn respond(
    responses: &mut Vec<Parameter>,
    number: u32,
    answer: ReconfigurationResponseResult,
) -> Result<(), AllocError>
    ensures { OnOk result (map parameter_tree responses.new.items
        ≡ map parameter_tree responses.old.items ++ reset_response number (result_number answer) None None ∷ []) }
{
    responses.push(Parameter::ReconfigurationResponse(ReconfigurationResponseParameter {
        response_seq_nbr: number,
        result: answer,
        sender_next_tsn: None,
        receiver_next_tsn: None,
    }))?;
    Ok(())
}

/// The reset of these streams is to wait for what was sent before it, so that what comes late isn't taken for what is sent behind it
/// (RFC 6525 section 5.2.2).
#[tactic(auto, using(sctp_reassembly::proofs::ExtendsLemmas::extends_none))]
fn defer_reset<C: Checksum>(
    context: &Context<C>,
    tcb: &mut TransmissionControlBlock,
    request: &OutgoingSsnResetRequestParameter,
    responses: &mut Vec<Parameter>,
) -> Result<(), AllocError>
    ensures ok { let r = request.now in OnOk result (handling_of C.word_of tcb.new context.now (map parameter_tree responses.new.items)
        ≡ table.defers r.request_seq_nbr r.sender_last_assigned_tsn.0 r.streams.items (handling_of C.word_of tcb.old context.now (map parameter_tree responses.old.items))) }
    ensures ready { Extends tcb.old.reassembly_queue.ready tcb.new.reassembly_queue.ready }
    ensures identity { tcb.new.identity ≡ tcb.old.identity }
{
    tcb.reassembly_queue
        .enter_deferred_reset(request.sender_last_assigned_tsn, &request.streams)?;
    let answer = ReconfigurationResponseResult::InProgress;
    tcb.reset_requests.process(request.request_seq_nbr, answer);
    respond(responses, request.request_seq_nbr, answer)
}

/// The streams are reset, and an event says so.
#[tactic(auto, using(sctp_reassembly::proofs::ExtendsLemmas::extends_none, sctp_endpoint::proofs::GoesOnLemmas::goes_on_same, sctp_endpoint::proofs::GoesOnLemmas::goes_on_through))]
fn perform_reset<C: Checksum>(
    context: &mut Context<C>,
    tcb: &mut TransmissionControlBlock,
    request: OutgoingSsnResetRequestParameter,
    responses: &mut Vec<Parameter>,
) -> Result<(), AllocError>
    ensures ok { OnOk result (handling_of C.word_of tcb.new context.new (map parameter_tree responses.new.items)
        ≡ table.performs request.request_seq_nbr request.streams.items (handling_of C.word_of tcb.old context.old (map parameter_tree responses.old.items))) }
    ensures goes_on { GoesOn context.old context.new }
    ensures ready { Extends tcb.old.reassembly_queue.ready tcb.new.reassembly_queue.ready }
    ensures identity { tcb.new.identity ≡ tcb.old.identity }
{
    tcb.reassembly_queue
        .reset_streams_and_leave_deferred_reset(&request.streams)?;
    context.emit_event(SocketEvent::OnIncomingStreamReset(request.streams))?;
    let answer = ReconfigurationResponseResult::SuccessPerformed;
    tcb.reset_requests.process(request.request_seq_nbr, answer);
    respond(responses, request.request_seq_nbr, answer)
}

/// Whether some TSN up to this one did not come yet.
fn is_ahead(tcb: &TransmissionControlBlock, tsn: Tsn) -> bool
    ensures { result ≡ table.is_ahead tsn.0 (tcb_of tcb.now) }
{
    tsn.greater_than(tcb.data_tracker.last_cumulative_acked_tsn())
}

#[tactic(auto, using(sctp_reassembly::proofs::ExtendsLemmas::extends_none, sctp_endpoint::proofs::GoesOnLemmas::goes_on_same, sctp_endpoint::proofs::GoesOnLemmas::goes_on_through))]
fn reset_or_defer<C: Checksum>(
    context: &mut Context<C>,
    tcb: &mut TransmissionControlBlock,
    request: OutgoingSsnResetRequestParameter,
    responses: &mut Vec<Parameter>,
) -> Result<(), AllocError>
    ensures ok { OnOk result (handling_of C.word_of tcb.new context.new (map parameter_tree responses.new.items)
        ≡ table.resets request.request_seq_nbr request.sender_last_assigned_tsn.0 request.streams.items (handling_of C.word_of tcb.old context.old (map parameter_tree responses.old.items))) }
    ensures goes_on { GoesOn context.old context.new }
    ensures ready { Extends tcb.old.reassembly_queue.ready tcb.new.reassembly_queue.ready }
    ensures identity { tcb.new.identity ≡ tcb.old.identity }
{
    if is_ahead(tcb, request.sender_last_assigned_tsn) {
        defer_reset(context, tcb, &request, responses)
    } else {
        perform_reset(context, tcb, request, responses)
    }
}

/// Whether the request with this answer is done with.
fn is_final(answer: ReconfigurationResponseResult) -> bool
    ensures { result ≡ is_final (result_number answer) }
{
    !matches!(answer, ReconfigurationResponseResult::InProgress)
}

/// The peer resets its outgoing streams (RFC 6525 section 5.2.2). The last request again is answered as before, once
/// it was done.
#[tactic(auto, using(sctp_reassembly::proofs::ExtendsLemmas::extends_none, sctp_endpoint::proofs::GoesOnLemmas::goes_on_same, sctp_endpoint::proofs::GoesOnLemmas::goes_on_through))]
fn handle_outgoing_request<C: Checksum>(
    context: &mut Context<C>,
    tcb: &mut TransmissionControlBlock,
    request: OutgoingSsnResetRequestParameter,
    responses: &mut Vec<Parameter>,
) -> Result<(), AllocError>
    ensures ok { OnOk result (handling_of C.word_of tcb.new context.new (map parameter_tree responses.new.items)
        ≡ table.on_outgoing request.request_seq_nbr request.sender_last_assigned_tsn.0 request.streams.items (handling_of C.word_of tcb.old context.old (map parameter_tree responses.old.items))) }
    ensures goes_on { GoesOn context.old context.new }
    ensures ready { Extends tcb.old.reassembly_queue.ready tcb.new.reassembly_queue.ready }
    ensures identity { tcb.new.identity ≡ tcb.old.identity }
{
    let number = request.request_seq_nbr;
    if tcb.reset_requests.is_last(number) {
        let answer = tcb.reset_requests.result();
        if is_final(answer) {
            return respond(responses, number, answer);
        }
        return reset_or_defer(context, tcb, request, responses);
    }
    if tcb.reset_requests.is_next(number) {
        return reset_or_defer(context, tcb, request, responses);
    }
    let answer = ReconfigurationResponseResult::ErrorBadSequenceNumber;
    respond(responses, number, answer)
}

/// The peer asks for a reset of its incoming streams: there is nothing to do (RFC 6525 section 5.2.3).
fn handle_incoming_request<C: Checksum>(
    context: &Context<C>,
    tcb: &mut TransmissionControlBlock,
    number: u32,
    responses: &mut Vec<Parameter>,
) -> Result<(), AllocError>
    ensures ok { OnOk result (handling_of C.word_of tcb.new context.now (map parameter_tree responses.new.items)
        ≡ table.on_incoming number (handling_of C.word_of tcb.old context.now (map parameter_tree responses.old.items))) }
    ensures received { tcb.new.reassembly_queue ≡ tcb.old.reassembly_queue }
    ensures identity { tcb.new.identity ≡ tcb.old.identity }
{
    if !tcb.reset_requests.is_known(number) {
        let answer = ReconfigurationResponseResult::ErrorBadSequenceNumber;
        return respond(responses, number, answer);
    }
    let answer = ReconfigurationResponseResult::SuccessNothingToDo;
    tcb.reset_requests.process(number, answer);
    respond(responses, number, answer)
}

/// What an answer says of the streams of the own request, and of no others: their numbers begin anew only where the peer has reset
/// them too (RFC 6525 section 5.2.7).
#[tactic(auto, using(sctp_endpoint::proofs::GoesOnLemmas::goes_on_same, sctp_endpoint::proofs::GoesOnLemmas::goes_on_through, sctp_endpoint::proofs::GoesOnLemmas::goes_on_as))]
fn handle_outcome<C: Checksum>(
    context: &mut Context<C>,
    outcome: ResetOutcome,
) -> Result<(), AllocError>
    ensures ok { OnOk result (context_of C.word_of context.new ≡ table.on_outcome (outcome_of outcome) (context_of C.word_of context.old)) }
    ensures goes_on { GoesOn context.old context.new }
{
    match outcome {
        ResetOutcome::Unsettled => Ok(()),
        ResetOutcome::Done(streams) => {
            context.send_queue.commit_reset_streams(&streams)?;
            context.emit_event(SocketEvent::OnStreamsResetPerformed(streams))
        }
        ResetOutcome::Denied(streams) => {
            context.send_queue.rollback_reset_streams(&streams)?;
            context.emit_event(SocketEvent::OnStreamsResetFailed(streams))
        }
    }
}

/// The peer answers a request (RFC 6525 section 5.2.7).
#[tactic(auto, using(sctp_endpoint::proofs::GoesOnLemmas::goes_on_same, sctp_endpoint::proofs::GoesOnLemmas::goes_on_through))]
fn handle_response<C: Checksum>(
    context: &mut Context<C>,
    tcb: &mut TransmissionControlBlock,
    response: &ReconfigurationResponseParameter,
) -> Result<(), AllocError>
    ensures ok { let r = response.now in OnOk result (after_sending_of C.word_of tcb.new context.new
        ≡ table.on_response r.response_seq_nbr (result_number r.result) (tcb_of tcb.old) (context_of C.word_of context.old)) }
    ensures goes_on { GoesOn context.old context.new }
    ensures received { tcb.new.reassembly_queue ≡ tcb.old.reassembly_queue }
    ensures identity { tcb.new.identity ≡ tcb.old.identity }
{
    let outcome = tcb
        .reset_requests
        .handle_response(context.clock, tcb.rto.rto(), response);
    handle_outcome(context, outcome)
}

/// One parameter.
#[tactic(auto, using(sctp_reassembly::proofs::ExtendsLemmas::extends_none, sctp_reassembly::proofs::ExtendsLemmas::extends_both, crate::proofs::EmittedLemmas::extends_as, sctp_endpoint::proofs::GoesOnLemmas::goes_on_same, sctp_endpoint::proofs::GoesOnLemmas::goes_on_through))]
fn handle_parameter<C: Checksum>(
    context: &mut Context<C>,
    tcb: &mut TransmissionControlBlock,
    parameter: Parameter,
    responses: &mut Vec<Parameter>,
) -> Result<(), AllocError>
    ensures ok { OnOk result (handling_of C.word_of tcb.new context.new (map parameter_tree responses.new.items)
        ≡ table.on_parameter (parameter_tree parameter) (handling_of C.word_of tcb.old context.old (map parameter_tree responses.old.items))) }
    ensures goes_on { GoesOn context.old context.new }
    ensures ready { Extends tcb.old.reassembly_queue.ready tcb.new.reassembly_queue.ready }
    ensures identity { tcb.new.identity ≡ tcb.old.identity }
{
    match parameter {
        Parameter::OutgoingSsnResetRequest(p) => {
            handle_outgoing_request(context, tcb, p, responses)
        }
        Parameter::IncomingSsnResetRequest(p) => {
            handle_incoming_request(context, tcb, p.request_seq_nbr, responses)
        }
        Parameter::ReconfigurationResponse(p) => { handle_response(context, tcb, &p) }
        _ => Ok(()),
    }
}

/// The parameters in order, up to a second outgoing request. The answer is whether there was none.
#[tactic(auto, using(sctp_reassembly::proofs::ExtendsLemmas::extends_none, sctp_reassembly::proofs::ExtendsLemmas::extends_both, crate::proofs::EmittedLemmas::extends_as, sctp_endpoint::proofs::GoesOnLemmas::goes_on_same, sctp_endpoint::proofs::GoesOnLemmas::goes_on_through))]
fn handle_parameters<C: Checksum>(
    context: &mut Context<C>,
    tcb: &mut TransmissionControlBlock,
    parameters: Vec<Parameter>,
    responses: &mut Vec<Parameter>,
) -> Result<bool, AllocError>
    ensures ok { IfOk result (λ is_whole. handled_parameters_of C.word_of tcb.new context.new (map parameter_tree responses.new.items) is_whole
        ≡ table.handle_all (map parameter_tree parameters.items) false (handling_of C.word_of tcb.old context.old (map parameter_tree responses.old.items))) }
    ensures goes_on { GoesOn context.old context.new }
    ensures ready { Extends tcb.old.reassembly_queue.ready tcb.new.reassembly_queue.ready }
    ensures identity { tcb.new.identity ≡ tcb.old.identity }
{
    let mut has_outgoing = false;
    for parameter in parameters {
        let is_outgoing = is_outgoing(&parameter);
        if is_outgoing && has_outgoing {
            return Ok(false);
        }
        has_outgoing = is_outgoing || has_outgoing;
        handle_parameter(context, tcb, parameter, responses)?;
    }
    Ok(true)
}

/// The responses go out in a packet, where there are some.
#[tactic(auto, using(sctp_endpoint::proofs::GoesOnLemmas::goes_on_same, sctp_endpoint::proofs::GoesOnLemmas::goes_on_through))]
fn send_responses<C: Checksum>(
    context: &mut Context<C>,
    tcb: &TransmissionControlBlock,
    responses: Vec<Parameter>,
) -> Result<(), AllocError>
    ensures ok { OnOk result (context_of C.word_of context.new ≡ table.send_responses (map parameter_tree responses.items) (tcb_of tcb.now) (context_of C.word_of context.old)) }
    ensures goes_on { GoesOn context.old context.new }
{
    if responses.is_empty() {
        return Ok(());
    }
    let parameters = responses;
    context.emit_chunk(tcb, Chunk::ReConfig(ReConfigChunk { parameters }))
}

/// The responses go out, and what may be sent then; after a second outgoing request nothing is sent.
#[tactic(auto, using(sctp_endpoint::proofs::GoesOnLemmas::goes_on_same, sctp_endpoint::proofs::GoesOnLemmas::goes_on_through))]
fn finish_reconfig<C: Checksum>(
    context: &mut Context<C>,
    phase: &Phase,
    tcb: &mut TransmissionControlBlock,
    responses: Vec<Parameter>,
    is_whole: bool,
) -> Result<(), AllocError>
    ensures ok { OnOk result (opened_of C.word_of phase.now tcb.new context.new
        ≡ table.finish_reconfig_if is_whole (phase_of phase.now) (handling_of C.word_of tcb.old context.old (map parameter_tree responses.items))) }
    ensures goes_on { GoesOn context.old context.new }
    ensures received { tcb.new.reassembly_queue ≡ tcb.old.reassembly_queue }
    ensures identity { tcb.new.identity ≡ tcb.old.identity }
{
    if !is_whole {
        return context.emit_error(
            ErrorKind::ProtocolViolation,
            "RE-CONFIG chunk must not have multiple Outgoing SSN Reset Request parameters",
        );
    }
    send_responses(context, tcb, responses)?;
    context.send_buffered_packets(tcb, phase.is_before_cookie_ack())
}

#[tactic(auto, using(sctp_reassembly::proofs::ExtendsLemmas::extends_none, sctp_reassembly::proofs::ExtendsLemmas::extends_both, crate::proofs::EmittedLemmas::extends_as, sctp_endpoint::proofs::GoesOnLemmas::goes_on_same, sctp_endpoint::proofs::GoesOnLemmas::goes_on_through))]
fn take_parameters<C: Checksum>(
    context: &mut Context<C>,
    phase: &Phase,
    tcb: &mut TransmissionControlBlock,
    parameters: Vec<Parameter>,
) -> Result<(), AllocError>
    ensures ok { OnOk result (opened_of C.word_of phase.now tcb.new context.new
        ≡ table.finish_reconfig (phase_of phase.now) (table.handle_all (map parameter_tree parameters.items) false (handling_of C.word_of tcb.old context.old []))) }
    ensures goes_on { GoesOn context.old context.new }
    ensures ready { Extends tcb.old.reassembly_queue.ready tcb.new.reassembly_queue.ready }
    ensures identity { tcb.new.identity ≡ tcb.old.identity }
{
    let mut responses = Vec::new(context.alloc);
    let is_whole = handle_parameters(context, tcb, parameters, &mut responses)?;
    finish_reconfig(context, phase, tcb, responses, is_whole)
}

/// A RE-CONFIG without parameters.
#[tactic(auto, using(sctp_endpoint::proofs::GoesOnLemmas::goes_on_same, sctp_endpoint::proofs::GoesOnLemmas::goes_on_through))]
fn emit_reconfig_error<C: Checksum>(
    context: &mut Context<C>,
    phase: &Phase,
    tcb: &TransmissionControlBlock,
) -> Result<(), AllocError>
    ensures ok { OnOk result (opened_of C.word_of phase.now tcb.now context.new
        ≡ table.on_reconfig [] (phase_of phase.now) (tcb_of tcb.now) (context_of C.word_of context.old)) }
    ensures goes_on { GoesOn context.old context.new }
{
    context.emit_error(
        ErrorKind::ProtocolViolation,
        "RE-CONFIG chunk must have at least one parameter",
    )
}

/// RE-CONFIG (RFC 6525 section 5.2): its parameters, the responses, and what may be sent then.
#[tactic(auto, using(sctp_reassembly::proofs::ExtendsLemmas::extends_none, sctp_reassembly::proofs::ExtendsLemmas::extends_both, crate::proofs::EmittedLemmas::extends_as, sctp_endpoint::proofs::GoesOnLemmas::goes_on_same, sctp_endpoint::proofs::GoesOnLemmas::goes_on_through))]
fn reconfig_open<C: Checksum>(
    context: &mut Context<C>,
    phase: &Phase,
    tcb: &mut TransmissionControlBlock,
    parameters: Vec<Parameter>,
) -> Result<(), AllocError>
    ensures ok { OnOk result (opened_of C.word_of phase.now tcb.new context.new
        ≡ table.on_reconfig (map parameter_tree parameters.items) (phase_of phase.now) (tcb_of tcb.old) (context_of C.word_of context.old)) }
    ensures goes_on { GoesOn context.old context.new }
    ensures ready { Extends tcb.old.reassembly_queue.ready tcb.new.reassembly_queue.ready }
    ensures identity { tcb.new.identity ≡ tcb.old.identity }
{
    if parameters.is_empty() {
        return emit_reconfig_error(context, phase, tcb);
    }
    take_parameters(context, phase, tcb, parameters)
}

/// The reset of a stream is prepared: its messages of which nothing is sent are dropped.
#[tactic(auto, using(sctp_endpoint::proofs::GoesOnLemmas::goes_on_same, sctp_endpoint::proofs::GoesOnLemmas::goes_on_through, sctp_endpoint::proofs::GoesOnLemmas::goes_on_as, sctp_endpoint::proofs::GoesOnLemmas::goes_on_by))]
fn prepare_reset<C: Checksum>(context: &mut Context<C>, id: StreamId) -> Result<(), AllocError>
    ensures ok { OnOk result (context_of C.word_of context.new ≡ table.prepare_reset_stream id.0 (context_of C.word_of context.old)) }
    ensures goes_on { GoesOn context.old context.new }
{
    context
        .send_queue
        .prepare_reset_stream(id, &mut context.events)
}

#[tactic(auto, using(sctp_endpoint::proofs::GoesOnLemmas::goes_on_same, sctp_endpoint::proofs::GoesOnLemmas::goes_on_through))]
fn prepare_resets<C: Checksum>(
    context: &mut Context<C>,
    streams: &[StreamId],
) -> Result<(), AllocError>
    ensures ok { OnOk result (context_of C.word_of context.new ≡ table.prepare_all (numbers_of streams.now) (context_of C.word_of context.old)) }
    ensures goes_on { GoesOn context.old context.new }
{
    for id in streams {
        prepare_reset(context, *id)?;
    }
    Ok(())
}

fn is_outgoing(parameter: &Parameter) -> bool
    ensures { result ≡ table.is_outgoing (parameter_tree parameter.now) }
{
    matches!(parameter, Parameter::OutgoingSsnResetRequest(_))
}

/// RE-CONFIG.
#[tactic(auto, using(sctp_reassembly::proofs::ExtendsLemmas::extends_none, sctp_endpoint::proofs::GoesOnLemmas::goes_on_same, sctp_endpoint::proofs::GoesOnLemmas::goes_on_through))]
pub fn handle_reconfig<C: Checksum>(
    state: &mut State,
    context: &mut Context<C>,
    parameters: Vec<Parameter>,
) -> Result<(), AllocError>
    ensures ok { OnOk result (endpoint_state_of C.word_of state.new context.new
        ≡ where_open (table.on_reconfig (map parameter_tree parameters.items)) (endpoint_state_of C.word_of state.old context.old)) }
    ensures goes_on { GoesOn context.old context.new }
    ensures ready { Extends (ready_in (state_of state.old)) (ready_in (state_of state.new)) }
    ensures association { association_in (state_of state.new) ≡ association_in (state_of state.old) }
{
    match state {
        State::Closed | State::CookieWait(_) => Ok(()),
        State::Open(phase, tcb) => reconfig_open(context, phase, tcb, parameters),
    }
}

/// Why streams can't be reset.
fn reset_refusal(state: &State) -> Option<ResetStreamsError>
    ensures { result ≡ table.reset_refusal (state_of state.now) }
{
    match state {
        State::Closed | State::CookieWait(_) => Some(ResetStreamsError::NotConnected),
        State::Open(_, tcb) if tcb.capabilities.reconfig => None,
        State::Open(_, _) => Some(ResetStreamsError::NotSupported),
    }
}

/// Streams are to be reset, once their partly sent messages have ended; or the call is refused, then the answer says why.
#[tactic(auto, using(sctp_endpoint::proofs::GoesOnLemmas::goes_on_same, sctp_endpoint::proofs::GoesOnLemmas::goes_on_through))]
pub fn reset_streams<C: Checksum>(
    state: &mut State,
    context: &mut Context<C>,
    streams: &[StreamId],
) -> Result<Option<ResetStreamsError>, AllocError>
    ensures answer { IfOk result (λ refusal. refusal ≡ table.reset_refusal (state_of state.old)) }
    ensures reset { OnOk result (endpoint_state_of C.word_of state.new context.new
        ≡ table.reset_streams (numbers_of streams.now) (endpoint_state_of C.word_of state.old context.old)) }
    ensures goes_on { GoesOn context.old context.new }
    ensures received { ready_in (state_of state.new) ≡ ready_in (state_of state.old) }
    ensures association { association_in (state_of state.new) ≡ association_in (state_of state.old) }
    ensures allowed { OnErr result (table.reset_refusal (state_of state.old) ≡ None) }
{
    let refusal = reset_refusal(state);
    if refusal.is_none() {
        prepare_resets(context, streams)?;
        send_waiting(state, context)?;
    }
    Ok(refusal)
}
