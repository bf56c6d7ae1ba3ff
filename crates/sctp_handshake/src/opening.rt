//! How an association is opened (RFC 9260 section 5.1): INIT and INIT ACK.

ghost use Rattle.std.specs.Prelude.{◌≡◌, false, [], ◌∷◌, None, map, OnErr, OnOk};
ghost use Rattle.std.specs.Duration.{as_nanos};
ghost use Rattle.sctp_state.specs.Timer.{start, timer};
ghost use Rattle.rand_core.specs.Stream.{next_u32};
ghost use Rattle.sctp_wire.specs.Cause.{missing_mandatory_parameter};
ghost use Rattle.sctp_parameter.specs.ParameterViews.{parameter_tree};
ghost use Rattle.sctp_packet.specs.Chunk.{abort_chunk};
ghost use Rattle.sctp_control_chunk.specs.Views.{init_ack_tree, init_tree};
ghost use Rattle.spec_endpoint.specs.Packets.{add, emit, packet_to, round_down_to_4};
ghost use Rattle.sctp_endpoint.specs.GoesOn.{GoesOn};
ghost use Rattle.sctp_endpoint.specs.Views.{context_of, endpoint_of, identity_of, opened_endpoint_of, phase_of, endpoint_state_of, tcb_of};
ghost use Rattle.spec_endpoint.specs.Opening as table;

use crate::cookie_echo::prepare_queue;
use crate::draws::{tag_from, tsn_from};
use crate::init_ack::{agreed_by, cookie_in, determine_sctp_implementation, send_init_ack};
use rand_core::Rng;
use sctp_endpoint::{
    Context, CookieEchoedState, CookieWaitState, Identity, OutgoingPacket, Phase, State,
    TransmissionControlBlock,
};
use sctp_error_cause::{ErrorCause, MissingMandatoryParameterErrorCause};
use sctp_packet::{Chunk, InitAckChunk, InitChunk};
use sctp_parameter::StateCookieParameter;
use sctp_serial::Tsn;
use sctp_state::{BackoffAlgorithm, ErrorKind, Timer};
use sctp_wire::Checksum;
use std::alloc::AllocError;
use std::time::Duration;

/// A timer that runs from now on.
fn started<C: Checksum>(context: &Context<C>, duration: Duration) -> Timer
    ensures { result ≡ start context.now.clock (timer (as_nanos duration) BackoffAlgorithm.Exponential context.now.options.max_init_retransmits None) }
{
    let mut timer = Timer::new(
        duration,
        BackoffAlgorithm::Exponential,
        context.options.max_init_retransmits,
        None,
    );
    timer.start(context.clock);
    timer
}

fn t1_init<C: Checksum>(context: &Context<C>) -> Timer
    ensures { result ≡ table.t1_init (context_of C.word_of context.now) }
{
    started(context, context.options.t1_init_timeout)
}

fn t1_cookie<C: Checksum>(context: &Context<C>) -> Timer
    ensures { result ≡ table.t1_cookie (context_of C.word_of context.now) }
{
    started(context, context.options.t1_cookie_timeout)
}

/// A closed end draws its first TSN and its tag, and an INIT goes out.
#[tactic(auto, using(sctp_endpoint::proofs::GoesOnLemmas::goes_on_same, sctp_endpoint::proofs::GoesOnLemmas::goes_on_through))]
pub fn do_connect<R: Rng, C: Checksum>(
    state: &mut State,
    context: &mut Context<C>,
    rng: &mut R,
) -> Result<(), AllocError>
    ensures ok { OnOk result (endpoint_of R.stream C.word_of state.new context.new rng.new ≡ table.connect (endpoint_of R.stream C.word_of state.old context.old rng.old)) }
    ensures goes_on { GoesOn context.old context.new }
    ensures err { OnErr result (state.new ≡ state.old) }
{
    match state {
        State::Closed => {
            let initial_tsn = tsn_from(rng.next_u32());
            let tag = tag_from(rng.next_u32());
            wait(state, context, tag, initial_tsn)
        }
        State::CookieWait(_) | State::Open(_, _) => Ok(()),
    }
}

/// An INIT goes out, and its answer is waited for.
#[tactic(auto, using(sctp_endpoint::proofs::GoesOnLemmas::goes_on_same, sctp_endpoint::proofs::GoesOnLemmas::goes_on_through))]
fn wait<C: Checksum>(
    state: &mut State,
    context: &mut Context<C>,
    tag: u32,
    initial_tsn: Tsn,
) -> Result<(), AllocError>
    ensures ok { OnOk result (endpoint_state_of C.word_of state.new context.new ≡ table.waiting tag initial_tsn.0 (context_of C.word_of context.old)) }
    ensures goes_on { GoesOn context.old context.new }
    ensures err { OnErr result (state.new ≡ state.old) }
{
    let t1_init = t1_init(context);
    context.send_init(tag, initial_tsn)?;
    state.enter(State::CookieWait(CookieWaitState {
        verification_tag: tag,
        initial_tsn,
        t1_init,
    }));
    Ok(())
}

/// INIT. It is answered by what it announces and by what the end is, and nothing of it is kept. An end that has sent an INIT itself
/// answers under the tag and the first TSN of that one, so that both lead to one association (RFC 9260 section 5.2.1).
#[tactic(auto, using(sctp_endpoint::proofs::GoesOnLemmas::goes_on_same, sctp_endpoint::proofs::GoesOnLemmas::goes_on_through))]
pub fn handle_init<R: Rng, C: Checksum>(
    state: &State,
    context: &mut Context<C>,
    rng: &mut R,
    init: &InitChunk,
) -> Result<(), AllocError>
    ensures ok { OnOk result (endpoint_of R.stream C.word_of state.now context.new rng.new
        ≡ table.on_init (init_tree init.now) (endpoint_of R.stream C.word_of state.now context.old rng.old)) }
    ensures goes_on { GoesOn context.old context.new }
{
    match state {
        State::Closed => {
            let initial_tsn = tsn_from(rng.next_u32());
            let tag = tag_from(rng.next_u32());
            send_init_ack(context, init, tag, initial_tsn, 0)
        }
        State::CookieWait(waiting) => {
            send_init_ack(
                context,
                init,
                waiting.verification_tag,
                waiting.initial_tsn,
                0,
            )
        }
        State::Open(phase, tcb) => answer_open(phase, tcb, context, rng, init),
    }
}

/// The answer of an end that has a control block (RFC 9260 sections 5.2.1, 5.2.2, 9.2).
#[tactic(auto, using(sctp_endpoint::proofs::GoesOnLemmas::goes_on_same, sctp_endpoint::proofs::GoesOnLemmas::goes_on_through))]
fn answer_open<R: Rng, C: Checksum>(
    phase: &Phase,
    tcb: &TransmissionControlBlock,
    context: &mut Context<C>,
    rng: &mut R,
    init: &InitChunk,
) -> Result<(), AllocError>
    ensures ok { OnOk result (opened_endpoint_of R.stream C.word_of phase.now tcb.now context.new rng.new
        ≡ table.on_init_open (phase_of phase.now) (init_tree init.now) (tcb_of tcb.now) (opened_endpoint_of R.stream C.word_of phase.now tcb.now context.old rng.old)) }
    ensures goes_on { GoesOn context.old context.new }
{
    match phase {
        Phase::CookieEchoed(_) => {
            let identity = tcb.identity;
            send_init_ack(
                context,
                init,
                identity.my_verification_tag,
                identity.my_initial_tsn,
                0,
            )
        }
        Phase::Established
        | Phase::ShutdownPending
        | Phase::ShutdownSent(_)
        | Phase::ShutdownReceived => answer_restart(tcb, context, rng, init),
        Phase::ShutdownAckSent(_) => context.send_shutdown_ack(tcb),
    }
}

/// The answer to a peer that may have restarted: under a new tag, with the tie of the association that there is, which goes on until
/// the cookie comes back (RFC 9260 section 5.2.2).
#[tactic(auto, using(sctp_endpoint::proofs::GoesOnLemmas::goes_on_same, sctp_endpoint::proofs::GoesOnLemmas::goes_on_through))]
fn answer_restart<R: Rng, C: Checksum>(
    tcb: &TransmissionControlBlock,
    context: &mut Context<C>,
    rng: &mut R,
    init: &InitChunk,
) -> Result<(), AllocError>
    ensures context { OnOk result (context_of C.word_of context.new
        ≡ table.answer (init_tree init.now) (table.tag_from (next_u32 (R.stream rng.old)).0) (table.next_first (tcb_of tcb.now)) tcb.now.identity.tie_tag (context_of C.word_of context.old)) }
    ensures words { OnOk result (R.stream rng.new ≡ (next_u32 (R.stream rng.old)).1) }
    ensures goes_on { GoesOn context.old context.new }
{
    let tag = tag_from(rng.next_u32());
    let initial_tsn = tcb.retransmission_queue.next_tsn() + 1_000_000;
    send_init_ack(context, init, tag, initial_tsn, tcb.identity.tie_tag)
}

/// INIT ACK, for which an end waits that has sent an INIT.
#[tactic(auto, using(sctp_endpoint::proofs::GoesOnLemmas::goes_on_same, sctp_endpoint::proofs::GoesOnLemmas::goes_on_through))]
pub fn handle_init_ack<R: Rng, C: Checksum>(
    state: &mut State,
    context: &mut Context<C>,
    rng: &mut R,
    init_ack: &InitAckChunk,
) -> Result<(), AllocError>
    ensures ok { OnOk result (endpoint_of R.stream C.word_of state.new context.new rng.new
        ≡ table.on_init_ack (init_ack_tree init_ack.now) (endpoint_of R.stream C.word_of state.old context.old rng.old)) }
    ensures goes_on { GoesOn context.old context.new }
    ensures err { OnErr result (state.new ≡ state.old) }
{
    match state {
        State::Closed => Ok(()),
        State::CookieWait(waiting) => {
            let tag = waiting.verification_tag;
            let initial_tsn = waiting.initial_tsn;
            take_init_ack(state, context, rng, (tag, initial_tsn), init_ack)
        }
        State::Open(_, _) => Ok(()),
    }
}

/// The cookie of an INIT ACK is echoed; without one the association ends.
#[tactic(auto, using(sctp_endpoint::proofs::GoesOnLemmas::goes_on_same, sctp_endpoint::proofs::GoesOnLemmas::goes_on_through))]
fn take_init_ack<R: Rng, C: Checksum>(
    state: &mut State,
    context: &mut Context<C>,
    rng: &mut R,
    own: (u32, Tsn),
    init_ack: &InitAckChunk,
) -> Result<(), AllocError>
    ensures ok { OnOk result (endpoint_of R.stream C.word_of state.new context.new rng.new
        ≡ table.echo_or_abort (init_ack_tree init_ack.now) (table.cookie_in (map parameter_tree init_ack.now.parameters.items)) own.0 own.1.0
        (endpoint_of R.stream C.word_of state.old context.old rng.old)) }
    ensures goes_on { GoesOn context.old context.new }
    ensures err { OnErr result (state.new ≡ state.old) }
{
    let Some(cookie) = cookie_in(&init_ack.parameters) else {
        return end_without_cookie(state, context, init_ack.initiate_tag);
    };
    let identity = Identity {
        my_verification_tag: own.0,
        my_initial_tsn: own.1,
        peer_verification_tag: init_ack.initiate_tag,
        peer_initial_tsn: init_ack.initial_tsn,
        tie_tag: rng.next_u64(),
    };
    echo(state, context, identity, init_ack, cookie)
}

/// The association ends with an ABORT, since an INIT ACK came without a cookie (RFC 9260 section 3.3.3).
#[tactic(auto, using(sctp_endpoint::proofs::GoesOnLemmas::goes_on_same, sctp_endpoint::proofs::GoesOnLemmas::goes_on_through))]
fn end_without_cookie<C: Checksum>(
    state: &mut State,
    context: &mut Context<C>,
    peer_tag: u32,
) -> Result<(), AllocError>
    ensures ok { OnOk result (endpoint_state_of C.word_of state.new context.new ≡ table.without_cookie peer_tag (context_of C.word_of context.old)) }
    ensures goes_on { GoesOn context.old context.new }
    ensures err { OnErr result (state.new ≡ state.old) }
{
    send_missing_cookie(context, peer_tag)?;
    context.emit_aborted(
        ErrorKind::ProtocolViolation,
        "InitAck chunk doesn't contain a cookie",
    )?;
    state.enter(State::Closed);
    Ok(())
}

/// The cookie of the peer goes out, with data where both fit.
#[tactic(auto, using(sctp_endpoint::proofs::GoesOnLemmas::goes_on_same, sctp_endpoint::proofs::GoesOnLemmas::goes_on_through, sctp_endpoint::proofs::GoesOnLemmas::goes_on_as))]
fn echo<C: Checksum>(
    state: &mut State,
    context: &mut Context<C>,
    identity: Identity,
    init_ack: &InitAckChunk,
    cookie: &[u8],
) -> Result<(), AllocError>
    ensures ok { OnOk result (endpoint_state_of C.word_of state.new context.new
        ≡ table.echo (init_ack_tree init_ack.now) cookie.now (identity_of identity) (context_of C.word_of context.old)) }
    ensures goes_on { GoesOn context.old context.new }
    ensures err { OnErr result (state.new ≡ state.old) }
{
    let capabilities = agreed_by(
        &context.options,
        init_ack.nbr_outbound_streams,
        init_ack.nbr_inbound_streams,
        &init_ack.parameters,
    );
    context.peer_implementation = determine_sctp_implementation(cookie);
    context.last_tag = identity.my_verification_tag;
    prepare_queue(context, true, capabilities.message_interleaving)?;
    let echoed = CookieEchoedState {
        t1_cookie: t1_cookie(context),
        cookie: Vec::from_slice(context.alloc, cookie)?,
    };
    let mut tcb = TransmissionControlBlock::new(
        context.alloc,
        &context.options,
        identity,
        init_ack.a_rwnd,
        capabilities,
    );
    if let Err(fault) = context.send_cookie_echo(&mut tcb, cookie) {
        tcb.let_go();
        return Err(fault);
    }
    state.enter(State::Open(Phase::CookieEchoed(echoed), tcb));
    Ok(())
}

/// An ABORT that the cookie is missing.
#[tactic(auto, using(sctp_endpoint::proofs::GoesOnLemmas::goes_on_same, sctp_endpoint::proofs::GoesOnLemmas::goes_on_through))]
fn send_missing_cookie<C: Checksum>(
    context: &mut Context<C>,
    peer_tag: u32,
) -> Result<(), AllocError>
    ensures ok { OnOk result (context_of C.word_of context.new
        ≡ emit (add (abort_chunk false (missing_mandatory_parameter (7 ∷ []) ∷ [])) (packet_to peer_tag (round_down_to_4 context.old.options.mtu))) (context_of C.word_of context.old)) }
    ensures goes_on { GoesOn context.old context.new }
{
    let mut missing_parameter_types = Vec::new(context.alloc);
    missing_parameter_types.push(StateCookieParameter::TYPE)?;
    let chunk = context.abort_chunk(ErrorCause::MissingMandatoryParameter(
        MissingMandatoryParameterErrorCause {
            missing_parameter_types,
        },
    ))?;
    let packet = OutgoingPacket::new(context.alloc, peer_tag, context.options.mtu / 4 * 4);
    context.emit_in(packet, chunk)
}
