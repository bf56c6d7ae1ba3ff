//! How an association ends (RFC 9260 sections 9.1, 9.2).

ghost use Rattle.std.specs.Prelude.{◌≡◌, false, OnErr, OnOk};
ghost use Rattle.spec_endpoint.specs.Association.{where_open};
ghost use Rattle.sctp_state.specs.Events.{OnClosed};
ghost use Rattle.sctp_endpoint.specs.GoesOn.{GoesOn};
ghost use Rattle.sctp_endpoint.specs.Views.{context_of, phase_step_of, phase_of, endpoint_state_of, state_of, tcb_of};
ghost use Rattle.spec_endpoint.specs.Calls.{ready_in};
ghost use Rattle.spec_endpoint.specs.Shown.{association_in};
ghost use Rattle.spec_endpoint.specs.Shutdown as table;

use sctp_endpoint::{Context, OutgoingPacket, Phase, State, TransmissionControlBlock};
use sctp_packet::{Chunk, ShutdownCompleteChunk};
use sctp_state::SocketEvent;
use sctp_wire::Checksum;
use std::alloc::AllocError;

/// The user asks for a shutdown: it goes on once nothing is in flight, with stalls avoided once nothing is kept or queued.
#[tactic(auto, using(sctp_endpoint::proofs::GoesOnLemmas::goes_on_same, sctp_endpoint::proofs::GoesOnLemmas::goes_on_through))]
fn begin_shutdown<C: Checksum>(
    context: &mut Context<C>,
    phase: &mut Phase,
    tcb: &TransmissionControlBlock,
) -> Result<(), AllocError>
    ensures ok { OnOk result (phase_step_of C.word_of phase.new context.new ≡ table.shutdown_in_phase (phase_of phase.old) (tcb_of tcb.now) (context_of C.word_of context.old)) }
    ensures goes_on { GoesOn context.old context.new }
{
    match phase {
        Phase::CookieEchoed(_) => context.shut_early(phase, tcb),
        Phase::Established => {
            *phase = Phase::ShutdownPending;
            context.maybe_send_shutdown_or_ack(phase, tcb)
        }
        Phase::ShutdownPending
        | Phase::ShutdownSent(_)
        | Phase::ShutdownReceived
        | Phase::ShutdownAckSent(_) => Ok(()),
    }
}

/// SHUTDOWN: the peer sends no more, and waits for what is in flight. Where both asked for it, each answers the other at once
/// (RFC 9260 section 9.2).
#[tactic(auto, using(sctp_endpoint::proofs::GoesOnLemmas::goes_on_same, sctp_endpoint::proofs::GoesOnLemmas::goes_on_through))]
fn take_shutdown<C: Checksum>(
    context: &mut Context<C>,
    phase: &mut Phase,
    tcb: &TransmissionControlBlock,
) -> Result<(), AllocError>
    ensures ok { OnOk result (phase_step_of C.word_of phase.new context.new ≡ table.shut_by_peer (phase_of phase.old) (tcb_of tcb.now) (context_of C.word_of context.old)) }
    ensures goes_on { GoesOn context.old context.new }
{
    match phase {
        Phase::Established | Phase::ShutdownPending => {
            *phase = Phase::ShutdownReceived;
            context.maybe_send_shutdown_or_ack(phase, tcb)
        }
        Phase::ShutdownSent(_) => {
            *phase = Phase::ShutdownAckSent(context.t2_shutdown(tcb));
            context.send_shutdown_ack(tcb)
        }
        Phase::ShutdownAckSent(t2_shutdown) => {
            t2_shutdown.set_duration(tcb.rto.rto());
            t2_shutdown.start(context.clock);
            context.send_shutdown_ack(tcb)
        }
        Phase::CookieEchoed(_) | Phase::ShutdownReceived => Ok(()),
    }
}

/// A SHUTDOWN ACK that no shutdown asked for is answered under its tag (RFC 9260 section 8.5.1).
#[tactic(auto, using(sctp_endpoint::proofs::GoesOnLemmas::goes_on_same, sctp_endpoint::proofs::GoesOnLemmas::goes_on_through))]
fn answer_out_of_the_blue<C: Checksum>(context: &mut Context<C>, tag: u32) -> Result<(), AllocError>
    ensures ok { OnOk result (context_of C.word_of context.new ≡ table.out_of_the_blue tag (context_of C.word_of context.old)) }
    ensures goes_on { GoesOn context.old context.new }
{
    let packet = OutgoingPacket::new(context.alloc, tag, context.options.mtu);
    context.emit_in(
        packet,
        Chunk::ShutdownComplete(ShutdownCompleteChunk {
            tag_reflected: true,
        }),
    )
}

/// The shutdown is complete: a chunk says so to the peer, and an event to the user.
#[tactic(auto, using(sctp_endpoint::proofs::GoesOnLemmas::goes_on_same, sctp_endpoint::proofs::GoesOnLemmas::goes_on_through))]
fn complete_shutdown<C: Checksum>(
    context: &mut Context<C>,
    tcb: &TransmissionControlBlock,
) -> Result<(), AllocError>
    ensures ok { OnOk result (context_of C.word_of context.new ≡ (table.complete_shutdown (tcb_of tcb.now) (context_of C.word_of context.old)).context) }
    ensures goes_on { GoesOn context.old context.new }
{
    context.emit_chunk(
        tcb,
        Chunk::ShutdownComplete(ShutdownCompleteChunk {
            tag_reflected: false,
        }),
    )?;
    context.internal_close(SocketEvent::OnClosed())
}

/// The association ends, with an ABORT where there is one.
#[tactic(auto, using(sctp_endpoint::proofs::GoesOnLemmas::goes_on_same, sctp_endpoint::proofs::GoesOnLemmas::goes_on_through))]
pub fn handle_close<C: Checksum>(
    state: &mut State,
    context: &mut Context<C>,
) -> Result<(), AllocError>
    ensures ok { OnOk result (endpoint_state_of C.word_of state.new context.new ≡ table.close (endpoint_state_of C.word_of state.old context.old)) }
    ensures goes_on { GoesOn context.old context.new }
    ensures err { OnErr result (state.new ≡ state.old) }
{
    match state {
        State::Closed => Ok(()),
        State::CookieWait(_) => {
            context.internal_close(SocketEvent::OnClosed())?;
            state.enter(State::Closed);
            Ok(())
        }
        State::Open(_, tcb) => {
            context.abort_by_user(tcb)?;
            state.enter(State::Closed);
            Ok(())
        }
    }
}

/// The association is shut down once nothing is in flight; what waits to be sent, or to be sent again, isn't waited for without
/// `avoid_stalls` (RFC 9260 section 9.2).
#[tactic(auto, using(sctp_endpoint::proofs::GoesOnLemmas::goes_on_same, sctp_endpoint::proofs::GoesOnLemmas::goes_on_through))]
pub fn do_shutdown<C: Checksum>(
    state: &mut State,
    context: &mut Context<C>,
) -> Result<(), AllocError>
    ensures ok { OnOk result (endpoint_state_of C.word_of state.new context.new ≡ table.shutdown (endpoint_state_of C.word_of state.old context.old)) }
    ensures goes_on { GoesOn context.old context.new }
    ensures ready { OnErr result (ready_in (state_of state.new) ≡ ready_in (state_of state.old)) }
    ensures association { OnErr result (association_in (state_of state.new) ≡ association_in (state_of state.old)) }
{
    match state {
        State::Closed => Ok(()),
        State::CookieWait(_) => {
            context.internal_close(SocketEvent::OnClosed())?;
            state.enter(State::Closed);
            Ok(())
        }
        State::Open(phase, tcb) => begin_shutdown(context, phase, tcb),
    }
}

/// SHUTDOWN.
#[tactic(auto, using(sctp_endpoint::proofs::GoesOnLemmas::goes_on_same, sctp_endpoint::proofs::GoesOnLemmas::goes_on_through))]
pub fn handle_shutdown<C: Checksum>(
    state: &mut State,
    context: &mut Context<C>,
) -> Result<(), AllocError>
    ensures ok { OnOk result (endpoint_state_of C.word_of state.new context.new ≡ where_open table.on_shutdown (endpoint_state_of C.word_of state.old context.old)) }
    ensures goes_on { GoesOn context.old context.new }
    ensures received { ready_in (state_of state.new) ≡ ready_in (state_of state.old) }
{
    match state {
        State::Closed | State::CookieWait(_) => Ok(()),
        State::Open(phase, tcb) => take_shutdown(context, phase, tcb),
    }
}

/// SHUTDOWN ACK, in a packet under this tag. Where both ends have sent one, each completes the shutdown (RFC 9260 section 9.2).
#[tactic(auto, using(sctp_endpoint::proofs::GoesOnLemmas::goes_on_same, sctp_endpoint::proofs::GoesOnLemmas::goes_on_through))]
pub fn handle_shutdown_ack<C: Checksum>(
    state: &mut State,
    context: &mut Context<C>,
    tag: u32,
) -> Result<(), AllocError>
    ensures ok { OnOk result (endpoint_state_of C.word_of state.new context.new ≡ table.on_shutdown_ack tag (endpoint_state_of C.word_of state.old context.old)) }
    ensures goes_on { GoesOn context.old context.new }
    ensures err { OnErr result (state.new ≡ state.old) }
{
    match state {
        State::Open(Phase::ShutdownSent(_) | Phase::ShutdownAckSent(_), tcb) => {
            complete_shutdown(context, tcb)?;
            state.enter(State::Closed);
            Ok(())
        }
        _ => answer_out_of_the_blue(context, tag),
    }
}

/// SHUTDOWN COMPLETE. It counts behind the own SHUTDOWN ACK alone (RFC 9260 section 9.2).
#[tactic(auto, using(sctp_endpoint::proofs::GoesOnLemmas::goes_on_same, sctp_endpoint::proofs::GoesOnLemmas::goes_on_through))]
pub fn handle_shutdown_complete<C: Checksum>(
    state: &mut State,
    context: &mut Context<C>,
) -> Result<(), AllocError>
    ensures ok { OnOk result (endpoint_state_of C.word_of state.new context.new ≡ where_open table.on_shutdown_complete (endpoint_state_of C.word_of state.old context.old)) }
    ensures goes_on { GoesOn context.old context.new }
    ensures err { OnErr result (state.new ≡ state.old) }
{
    match state {
        State::Closed | State::CookieWait(_) => Ok(()),
        State::Open(Phase::ShutdownAckSent(_), _) => {
            context.internal_close(SocketEvent::OnClosed())?;
            state.enter(State::Closed);
            Ok(())
        }
        State::Open(_, _) => Ok(()),
    }
}
