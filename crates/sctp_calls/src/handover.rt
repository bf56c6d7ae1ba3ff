//! A socket is handed over: its record is written and it closes, and another socket takes the record up and goes on in its
//! place.

ghost use Rattle.std.specs.Prelude.{◌≡◌, ◌⊎◌, [], None, IfOk, IsTrue, OnErr, OnOk};
ghost use Rattle.sctp_capabilities.specs.Capabilities.{capabilities_of};
ghost use Rattle.sctp_state.specs.Events.{OnClosed};
ghost use Rattle.sctp_state.specs.Handover.{handover_state_of};
ghost use Rattle.sctp_state.specs.Validity.{is_valid_state};
ghost use Rattle.spec_endpoint.specs.Association.{Closed, Established, Open};
ghost use Rattle.spec_endpoint.specs.Calls.{ready_in};
ghost use Rattle.spec_endpoint.specs.Shown.{association_in};
ghost use Rattle.spec_endpoint.specs.Packets.{emit_event_in};
ghost use Rattle.sctp_endpoint.specs.GoesOn.{GoesOn, GoesOnWith};
ghost use Rattle.sctp_endpoint.specs.Views.{after_sending_of, context_of, phase_of, endpoint_state_of, state_of, tcb_of};
ghost use Rattle.spec_endpoint.specs.Handover as table;

use sctp_capabilities::Capabilities;
use sctp_endpoint::sending::send_waiting;
use sctp_endpoint::{Context, Identity, Phase, State, TransmissionControlBlock};
use sctp_serial::{Tsn, ZeroChecksumAlternateErrorDetectionMethod};
use sctp_state::api::handover::{HandoverCapabilities, HandoverSocketState};
use sctp_state::{HandoverReadiness, RestoreError, SocketEvent, SocketHandoverState};
use sctp_wire::Checksum;
use std::alloc::AllocError;

/// Whether messages and items stand in the way of a handover.
fn is_strict<C: Checksum>(context: &Context<C>) -> bool
    ensures { result ≡ table.is_strict context.now.options }
{
    !context.options.enable_handover_with_outstanding_data
}

fn phase_readiness<C: Checksum>(
    context: &Context<C>,
    phase: &Phase,
    tcb: &TransmissionControlBlock,
) -> HandoverReadiness
    ensures { result.0 ≡ table.readiness_open (phase_of phase.now) (tcb_of tcb.now) (context_of C.word_of context.now) }
{
    match phase {
        Phase::Established => {
            let is_strict = is_strict(context);
            let queued = context.send_queue.get_handover_readiness(is_strict);
            queued | tcb.get_handover_readiness(is_strict)
        }
        Phase::CookieEchoed(_)
        | Phase::ShutdownPending
        | Phase::ShutdownSent(_)
        | Phase::ShutdownReceived
        | Phase::ShutdownAckSent(_) => HandoverReadiness::WRONG_CONNECTION_STATE,
    }
}

/// What stands in the way of a handover.
pub fn get_handover_readiness<C: Checksum>(context: &Context<C>, state: &State) -> HandoverReadiness
    ensures { result.0 ≡ table.readiness (endpoint_state_of C.word_of state.now context.now) }
{
    match state {
        State::Closed => HandoverReadiness::READY,
        State::CookieWait(_) => HandoverReadiness::WRONG_CONNECTION_STATE,
        State::Open(phase, tcb) => phase_readiness(context, phase, tcb),
    }
}

/// The record of this association.
fn handover_state<C: Checksum>(
    context: &Context<C>,
    tcb: &TransmissionControlBlock,
) -> Result<SocketHandoverState, AllocError>
    ensures { IfOk result (λ h. handover_state_of h ≡ table.handover_state (tcb_of tcb.now) (context_of C.word_of context.now)) }
{
    let mut state = SocketHandoverState::empty(context.alloc);
    context
        .send_queue
        .add_to_handover_state(context.clock, &mut state)?;
    tcb.add_to_handover_state(context.clock, &mut state)?;
    Ok(state)
}

/// What a record says that both ends do, with the own method in place of the checksum.
fn capabilities_from<C: Checksum>(
    context: &Context<C>,
    capabilities: &HandoverCapabilities,
) -> Capabilities
    ensures { capabilities_of result ≡ table.capabilities_from context.now.options capabilities.now }
{
    let zero_checksum_method = if capabilities.zero_checksum {
        context
            .options
            .zero_checksum_alternate_error_detection_method
    } else {
        ZeroChecksumAlternateErrorDetectionMethod(0)
    };
    Capabilities {
        partial_reliability: capabilities.partial_reliability,
        message_interleaving: capabilities.message_interleaving,
        reconfig: capabilities.reconfig,
        zero_checksum_method,
        negotiated_maximum_incoming_streams: capabilities.negotiated_maximum_incoming_streams,
        negotiated_maximum_outgoing_streams: capabilities.negotiated_maximum_outgoing_streams,
    }
}

/// The control block of a record.
fn tcb_from<C: Checksum>(
    context: &Context<C>,
    state: &SocketHandoverState,
) -> Result<TransmissionControlBlock, AllocError>
    requires connected { state.now.socket_state ≡ HandoverSocketState.Connected }
    requires valid { IsTrue (is_valid_state (handover_state_of state.now)) }
    ensures { IfOk result (λ t. tcb_of t ≡ table.tcb_from context.now.clock context.now.options (handover_state_of state.now)) }
{
    let identity = Identity {
        my_verification_tag: state.my_verification_tag,
        my_initial_tsn: Tsn(state.my_initial_tsn),
        peer_verification_tag: state.peer_verification_tag,
        peer_initial_tsn: Tsn(state.peer_initial_tsn),
        tie_tag: state.tie_tag,
    };
    let capabilities = capabilities_from(context, &state.capabilities);
    let mut tcb = TransmissionControlBlock::new(
        context.alloc,
        &context.options,
        identity,
        state.tx.rwnd,
        capabilities,
    );
    match tcb.restore_from_state(context.clock, state) {
        Ok(()) => Ok(tcb),
        Err(fault) => {
            tcb.let_go();
            Err(fault)
        }
    }
}

/// The association has left here; its heartbeat timers run on.
#[tactic(auto, using(sctp_endpoint::proofs::GoesOnLemmas::goes_on_same, sctp_endpoint::proofs::GoesOnLemmas::goes_on_through))]
fn leave<C: Checksum>(state: &mut State, context: &mut Context<C>) -> Result<(), AllocError>
    ensures ok { OnOk result (endpoint_state_of C.word_of state.new context.new ≡ record { state = Closed; context = emit_event_in OnClosed (context_of C.word_of context.old) }) }
    ensures goes_on { GoesOn context.old context.new }
    ensures err { OnErr result (state.new ≡ state.old) }
{
    context.emit_event(SocketEvent::OnClosed())?;
    state.enter(State::Closed);
    Ok(())
}

/// The record is written, and an association that stood has left here; its heartbeat timers run on.
#[tactic(auto, using(sctp_endpoint::proofs::GoesOnLemmas::goes_on_same, sctp_endpoint::proofs::GoesOnLemmas::goes_on_through))]
pub fn hand_over<C: Checksum>(
    state: &mut State,
    context: &mut Context<C>,
) -> Result<SocketHandoverState, AllocError>
    ensures written { IfOk result (λ h. handover_state_of h ≡ table.handed_over (endpoint_state_of C.word_of state.old context.old)) }
    ensures left { OnOk result (endpoint_state_of C.word_of state.new context.new ≡ table.leave (endpoint_state_of C.word_of state.old context.old)) }
    ensures goes_on { GoesOn context.old context.new }
    ensures err { OnErr result (state_of state.new ≡ state_of state.old) }
{
    match state {
        State::Closed | State::CookieWait(_) => Ok(SocketHandoverState::empty(context.alloc)),
        State::Open(_, tcb) => {
            let handed_over = handover_state(context, tcb)?;
            leave(state, context)?;
            Ok(handed_over)
        }
    }
}

/// With stalls avoided the timers of items and of heartbeats start; else they do with the first data that is sent, that of items with a
/// SACK too.
#[tactic(auto, using(sctp_endpoint::proofs::GoesOnLemmas::goes_on_same, sctp_endpoint::proofs::GoesOnLemmas::goes_on_through))]
fn wake<C: Checksum>(context: &mut Context<C>, tcb: &mut TransmissionControlBlock)
    ensures ok { after_sending_of C.word_of tcb.new context.new ≡ table.woken_if context.old.options.avoid_stalls (tcb_of tcb.old) (context_of C.word_of context.old) }
    ensures goes_on { GoesOn context.old context.new }
    ensures association { association_in (Open Established (tcb_of tcb.new)) ≡ association_in (Open Established (tcb_of tcb.old)) }
{
    if context.options.avoid_stalls {
        tcb.retransmission_queue.wake(context.clock);
        context.restart_heartbeat_interval();
    }
}

/// The association goes on; it is new to the user of this socket.
#[tactic(auto, using(sctp_endpoint::proofs::GoesOnLemmas::with_held))]
fn go_on<C: Checksum>(
    state: &mut State,
    context: &mut Context<C>,
    tcb: TransmissionControlBlock,
) -> Result<(), AllocError>
    ensures ok { OnOk result (endpoint_state_of C.word_of state.new context.new ≡ table.goes_on (after_sending_of C.word_of tcb context.old)) }
    ensures goes_on { GoesOnWith context.old context.new (state_of state.new) }
    ensures association { association_in (state_of state.new) ≡ association_in (Open Established (tcb_of tcb)) }
{
    state.enter(State::Open(Phase::Established, tcb));
    context.announce(SocketEvent::OnConnected())?;
    send_waiting(state, context)
}

/// The association of a record goes on.
#[tactic(auto, using(sctp_endpoint::proofs::GoesOnLemmas::with_quiet, sctp_endpoint::proofs::GoesOnLemmas::with_behind, sctp_endpoint::proofs::GoesOnLemmas::goes_on_through, sctp_endpoint::proofs::GoesOnLemmas::goes_on_as))]
fn take_up<C: Checksum>(
    state: &mut State,
    context: &mut Context<C>,
    handed_over: &SocketHandoverState,
) -> Result<(), AllocError>
    requires connected { handed_over.now.socket_state ≡ HandoverSocketState.Connected }
    requires valid { IsTrue (is_valid_state (handover_state_of handed_over.now)) }
    ensures ok { OnOk result (endpoint_state_of C.word_of state.new context.new ≡ table.take_up (handover_state_of handed_over.now) (context_of C.word_of context.old)) }
    ensures goes_on { GoesOnWith context.old context.new (state_of state.new) }
    ensures held { OnErr result ((context.new.emitted ≡ context.old.emitted)
        ⊎ (association_in (state_of state.new) ≡ association_in (Open Established (table.tcb_from context.old.clock context.old.options (handover_state_of handed_over.now))))) }
    ensures association { (association_in (state_of state.new) ≡ association_in (state_of state.old))
        ⊎ (association_in (state_of state.new) ≡ association_in (Open Established (table.tcb_from context.old.clock context.old.options (handover_state_of handed_over.now)))) }
{
    context
        .send_queue
        .restore_from_state(context.clock, handed_over)?;
    context.last_tag = handed_over.my_verification_tag;
    let mut tcb = tcb_from(context, handed_over)?;
    wake(context, &mut tcb);
    go_on(state, context, tcb)
}

/// A valid record is taken up by a closed socket. Of a socket that was closed there is nothing to take up.
#[tactic(auto, using(sctp_endpoint::proofs::GoesOnLemmas::with_same))]
fn restore_closed<C: Checksum>(
    state: &mut State,
    context: &mut Context<C>,
    handed_over: &SocketHandoverState,
) -> Result<(), AllocError>
    requires valid { IsTrue (is_valid_state (handover_state_of handed_over.now)) }
    ensures ok { OnOk result (endpoint_state_of C.word_of state.new context.new
        ≡ table.restored_as handed_over.now.socket_state (handover_state_of handed_over.now) (endpoint_state_of C.word_of state.old context.old)) }
    ensures goes_on { GoesOnWith context.old context.new (state_of state.new) }
    ensures association { (association_in (state_of state.new) ≡ association_in (state_of state.old))
        ⊎ (association_in (state_of state.new) ≡ association_in (Open Established (table.tcb_from context.old.clock context.old.options (handover_state_of handed_over.now)))) }
{
    match handed_over.socket_state {
        HandoverSocketState::Closed => Ok(()),
        HandoverSocketState::Connected => take_up(state, context, handed_over),
    }
}

/// A record is taken up, or refused; then the answer says why.
#[tactic(auto, using(sctp_endpoint::proofs::GoesOnLemmas::with_same))]
pub fn restore<C: Checksum>(
    state: &mut State,
    context: &mut Context<C>,
    handed_over: &SocketHandoverState,
) -> Result<Option<RestoreError>, AllocError>
    ensures answer { IfOk result (λ refusal. refusal ≡ table.restore_refusal_in (state_of state.old) (handover_state_of handed_over.now)) }
    ensures restored { OnOk result (endpoint_state_of C.word_of state.new context.new
        ≡ table.restore (handover_state_of handed_over.now) (endpoint_state_of C.word_of state.old context.old)) }
    ensures goes_on { GoesOnWith context.old context.new (state_of state.new) }
    ensures allowed { OnErr result (table.restore_refusal_in (state_of state.old) (handover_state_of handed_over.now) ≡ None) }
    ensures association { (association_in (state_of state.new) ≡ association_in (state_of state.old))
        ⊎ (association_in (state_of state.new) ≡ association_in (Open Established (table.tcb_from context.old.clock context.old.options (handover_state_of handed_over.now)))) }
    ensures ready { (ready_in (state_of state.old) ≡ []) ⊎ (ready_in (state_of state.new) ≡ ready_in (state_of state.old)) }
{
    match state {
        State::Closed => {
            if !handed_over.is_valid() {
                return Ok(Some(RestoreError::InvalidState));
            }
            restore_closed(state, context, handed_over)?;
            Ok(None)
        }
        State::CookieWait(_) | State::Open(_, _) => Ok(Some(RestoreError::SocketNotClosed)),
    }
}
