//! ABORT and ERROR, and the ABORT that a chunk is answered with that was not negotiated (RFC 9260 section 9.1).

ghost use Rattle.std.specs.Prelude.{◌≡◌, map, IfOk, OnErr, OnOk, string_bytes};
ghost use Rattle.sctp_error_cause.specs.CauseViews.{cause_tree};
ghost use Rattle.sctp_state.specs.Events.{OnAborted};
ghost use Rattle.spec_endpoint.specs.Association.{where_open};
ghost use Rattle.spec_endpoint.specs.Packets.{emit_error};
ghost use Rattle.sctp_endpoint.specs.GoesOn.{GoesOn};
ghost use Rattle.sctp_endpoint.specs.Views.{context_of, endpoint_state_of, tcb_of};
ghost use Rattle.sctp_supervision.specs.MisuseView.{misuse_text};
ghost use Rattle.spec_endpoint.specs.Shutdown as closing;
ghost use Rattle.spec_endpoint.specs.Input as table;

use crate::misuse::Misuse;
use sctp_endpoint::{Context, State, TransmissionControlBlock};
use sctp_error_cause::{ErrorCause, ProtocolViolationErrorCause};
use sctp_state::{ErrorKind, SocketEvent};
use sctp_wire::Checksum;
use std::alloc::{AllocError, Global};

/// What the causes say, with commas between them.
fn causes_text(alloc: Global, causes: &[ErrorCause]) -> Result<String, AllocError>
    ensures { IfOk result (λ text. string_bytes text ≡ closing.causes_text (map cause_tree causes.now)) }
{
    let Some((first, rest)) = causes.split_first() else {
        return Ok(String::new(alloc));
    };
    let mut text = format!(in alloc; "{first}")?;
    for cause in rest {
        let next = format!(in alloc; ",{cause}")?;
        text.push_str(&next)?;
    }
    Ok(text)
}

/// The association is emitted as aborted by the peer.
#[tactic(auto, using(sctp_endpoint::proofs::GoesOnLemmas::goes_on_same, sctp_endpoint::proofs::GoesOnLemmas::goes_on_through))]
fn emit_abort<C: Checksum>(
    context: &mut Context<C>,
    causes: &[ErrorCause],
) -> Result<(), AllocError>
    ensures ok { OnOk result (context_of C.word_of context.new ≡ closing.over (OnAborted ErrorKind.PeerReported (closing.causes_text (map cause_tree causes.now))) (context_of C.word_of context.old)) }
    ensures goes_on { GoesOn context.old context.new }
{
    let text = causes_text(context.alloc, causes)?;
    context.internal_close(SocketEvent::OnAborted(ErrorKind::PeerReported, text))
}

/// An error that the peer reports.
#[tactic(auto, using(sctp_endpoint::proofs::GoesOnLemmas::goes_on_same, sctp_endpoint::proofs::GoesOnLemmas::goes_on_through))]
fn emit_error<C: Checksum>(
    context: &mut Context<C>,
    causes: &[ErrorCause],
) -> Result<(), AllocError>
    ensures ok { OnOk result (context_of C.word_of context.new ≡ emit_error ErrorKind.PeerReported (closing.causes_text (map cause_tree causes.now)) (context_of C.word_of context.old)) }
    ensures goes_on { GoesOn context.old context.new }
{
    let text = causes_text(context.alloc, causes)?;
    context.emit_event(SocketEvent::OnError(ErrorKind::PeerReported, text))
}

/// An ABORT goes out, since what was negotiated forbids a chunk.
#[tactic(auto, using(sctp_endpoint::proofs::GoesOnLemmas::goes_on_same, sctp_endpoint::proofs::GoesOnLemmas::goes_on_through))]
fn abort_by_violation<C: Checksum>(
    context: &mut Context<C>,
    tcb: &TransmissionControlBlock,
    misuse: Misuse,
) -> Result<(), AllocError>
    ensures ok { OnOk result (context_of C.word_of context.new
        ≡ (closing.abort_for_violation (misuse_text misuse) (tcb_of tcb.now) (context_of C.word_of context.old)).context) }
    ensures goes_on { GoesOn context.old context.new }
{
    let information = String::from_str(context.alloc, misuse.text())?;
    let cause = ErrorCause::ProtocolViolation(ProtocolViolationErrorCause { information });
    context.send_abort(tcb, cause)?;
    context.emit_aborted(ErrorKind::ProtocolViolation, misuse.text())
}

/// The end is closed, as the peer's causes say.
#[tactic(auto, using(sctp_endpoint::proofs::GoesOnLemmas::goes_on_same, sctp_endpoint::proofs::GoesOnLemmas::goes_on_through))]
fn end_by_peer<C: Checksum>(
    state: &mut State,
    context: &mut Context<C>,
    causes: &[ErrorCause],
) -> Result<(), AllocError>
    ensures ok { OnOk result (endpoint_state_of C.word_of state.new context.new
        ≡ closing.close_with (OnAborted ErrorKind.PeerReported (closing.causes_text (map cause_tree causes.now))) (context_of C.word_of context.old)) }
    ensures goes_on { GoesOn context.old context.new }
    ensures err { OnErr result (state.new ≡ state.old) }
{
    emit_abort(context, causes)?;
    state.enter(State::Closed);
    Ok(())
}

/// ABORT: the association ends at once, and nothing answers it (RFC 9260 section 9.1); with stalls avoided a connect too.
#[tactic(auto, using(sctp_endpoint::proofs::GoesOnLemmas::goes_on_same, sctp_endpoint::proofs::GoesOnLemmas::goes_on_through))]
pub fn handle_abort<C: Checksum>(
    state: &mut State,
    context: &mut Context<C>,
    causes: &[ErrorCause],
) -> Result<(), AllocError>
    ensures ok { OnOk result (endpoint_state_of C.word_of state.new context.new ≡ closing.aborted (map cause_tree causes.now) (endpoint_state_of C.word_of state.old context.old)) }
    ensures goes_on { GoesOn context.old context.new }
    ensures err { OnErr result (state.new ≡ state.old) }
{
    match state {
        State::Closed => Ok(()),
        State::CookieWait(_) => {
            if context.options.avoid_stalls {
                end_by_peer(state, context, causes)
            } else {
                Ok(())
            }
        }
        State::Open(_, _) => end_by_peer(state, context, causes),
    }
}

/// ERROR.
#[tactic(auto, using(sctp_endpoint::proofs::GoesOnLemmas::goes_on_same, sctp_endpoint::proofs::GoesOnLemmas::goes_on_through))]
pub fn handle_error<C: Checksum>(
    state: &State,
    context: &mut Context<C>,
    causes: &[ErrorCause],
) -> Result<(), AllocError>
    ensures ok { OnOk result (endpoint_state_of C.word_of state.now context.new ≡ where_open (closing.on_error (map cause_tree causes.now)) (endpoint_state_of C.word_of state.now context.old)) }
    ensures goes_on { GoesOn context.old context.new }
{
    match state {
        State::Closed | State::CookieWait(_) => Ok(()),
        State::Open(_, _) => emit_error(context, causes),
    }
}

/// A chunk that what was negotiated forbids ends the association.
#[tactic(auto, using(sctp_endpoint::proofs::GoesOnLemmas::goes_on_same, sctp_endpoint::proofs::GoesOnLemmas::goes_on_through))]
pub fn handle_misuse<C: Checksum>(
    state: &mut State,
    context: &mut Context<C>,
    misuse: Misuse,
) -> Result<(), AllocError>
    ensures ok { OnOk result (endpoint_state_of C.word_of state.new context.new ≡ table.abort_for_violation_in (misuse_text misuse) (endpoint_state_of C.word_of state.old context.old)) }
    ensures goes_on { GoesOn context.old context.new }
    ensures err { OnErr result (state.new ≡ state.old) }
{
    match state {
        State::Closed | State::CookieWait(_) => Ok(()),
        State::Open(_, tcb) => {
            abort_by_violation(context, tcb, misuse)?;
            state.enter(State::Closed);
            Ok(())
        }
    }
}
