//! Time: which timers a state looks at, and what their expiries lead to.

ghost use Rattle.std.specs.Prelude.{◌≡◌, ◌||◌, true, cond, IfOk, OnErr, OnOk};
ghost use Rattle.sctp_endpoint.specs.GoesOn.{GoesOn};
ghost use Rattle.sctp_endpoint.specs.Views.{context_of, timer_outcome_of, phase_of, endpoint_state_after, endpoint_state_of, state_of, tcb_of, ticking_of, init_outcome_of};
ghost use Rattle.sctp_state.specs.Timer.{expire};
ghost use Rattle.spec_endpoint.specs.Calls.{ready_in};
ghost use Rattle.spec_endpoint.specs.Shown.{association_in};
ghost use Rattle.spec_endpoint.specs.Shutdown.{send_shutdown, send_shutdown_ack};
ghost use Rattle.spec_endpoint.specs.Timers as table;

use crate::heartbeats::{heartbeat_expiry, tick_heartbeat_interval, tick_heartbeat_timeout};
use sctp_endpoint::{
    Context, CookieEchoedState, CookieWaitState, Phase, State, TransmissionControlBlock,
};
use sctp_serial::SocketTime;
use sctp_state::Timer;
use sctp_wire::Checksum;
use std::alloc::AllocError;

/// The delay of an acknowledgement (RFC 9260 section 6.2). The answer is whether it expired.
fn tick_ack<C: Checksum>(context: &Context<C>, tcb: &mut TransmissionControlBlock) -> bool
    ensures ok { ticking_of C.word_of tcb.new context.now result ≡ table.tick_ack (table.ticking (tcb_of tcb.old) (context_of C.word_of context.now)) }
    ensures received { tcb.new.reassembly_queue ≡ tcb.old.reassembly_queue }
    ensures identity { tcb.new.identity ≡ tcb.old.identity }
{
    tcb.data_tracker.handle_timeout(context.clock)
}

/// T3-rtx (RFC 9260 section 6.3.3), after the other one has expired or not: an expiry is an error of the peer (section 8.1). The
/// answer is whether any did.
#[tactic(auto, using(sctp_endpoint::proofs::GoesOnLemmas::goes_on_same, sctp_endpoint::proofs::GoesOnLemmas::goes_on_through, sctp_endpoint::proofs::GoesOnLemmas::goes_on_as))]
fn tick_t3<C: Checksum>(
    context: &mut Context<C>,
    tcb: &mut TransmissionControlBlock,
    has_expired: bool,
) -> Result<bool, AllocError>
    ensures ok { IfOk result (λ any. ticking_of C.word_of tcb.new context.new any ≡ table.tick_t3 (ticking_of C.word_of tcb.old context.old has_expired)) }
    ensures goes_on { GoesOn context.old context.new }
    ensures received { tcb.new.reassembly_queue ≡ tcb.old.reassembly_queue }
    ensures identity { tcb.new.identity ≡ tcb.old.identity }
{
    if tcb
        .retransmission_queue
        .handle_timeout(context.clock, &mut context.events)?
    {
        context.tx_error_counter.increment();
        return Ok(true);
    }
    Ok(has_expired)
}

/// The own request to reset streams goes out again, unless there were too many errors.
#[tactic(auto, using(sctp_endpoint::proofs::GoesOnLemmas::goes_on_same, sctp_endpoint::proofs::GoesOnLemmas::goes_on_through))]
fn send_request_again<C: Checksum>(
    context: &mut Context<C>,
    tcb: &mut TransmissionControlBlock,
) -> Result<(), AllocError>
    ensures ok { OnOk result (ticking_of C.word_of tcb.new context.new true ≡ table.requests_again (ticking_of C.word_of tcb.old context.old true)) }
    ensures goes_on { GoesOn context.old context.new }
    ensures received { tcb.new.reassembly_queue ≡ tcb.old.reassembly_queue }
    ensures identity { tcb.new.identity ≡ tcb.old.identity }
{
    if context.tx_error_counter.is_exhausted() {
        return Ok(());
    }
    tcb.reset_requests.update_rto(tcb.rto.rto());
    match tcb.reset_requests.current_chunk()? {
        Some(chunk) => context.emit_chunk(tcb, chunk),
        None => Ok(()),
    }
}

/// The reconfiguration timer (RFC 6525 section 5.1.1), after the other ones have expired or not. The answer is whether
/// any did.
#[tactic(auto, using(sctp_endpoint::proofs::GoesOnLemmas::goes_on_same, sctp_endpoint::proofs::GoesOnLemmas::goes_on_through, sctp_endpoint::proofs::GoesOnLemmas::goes_on_as))]
fn tick_requests<C: Checksum>(
    context: &mut Context<C>,
    tcb: &mut TransmissionControlBlock,
    has_expired: bool,
) -> Result<bool, AllocError>
    ensures ok { IfOk result (λ any. ticking_of C.word_of tcb.new context.new any ≡ table.tick_requests (ticking_of C.word_of tcb.old context.old has_expired)) }
    ensures goes_on { GoesOn context.old context.new }
    ensures received { tcb.new.reassembly_queue ≡ tcb.old.reassembly_queue }
    ensures identity { tcb.new.identity ≡ tcb.old.identity }
{
    if !tcb.reset_requests.expire(context.clock) {
        return Ok(has_expired);
    }
    if tcb.reset_requests.wake() {
        context.tx_error_counter.increment();
    }
    send_request_again(context, tcb)?;
    Ok(true)
}

/// The timers of a control block and those of heartbeats, in turn; at a heartbeat spare buffers are let go. The answer is whether any expired.
#[tactic(auto, using(sctp_endpoint::proofs::GoesOnLemmas::goes_on_same, sctp_endpoint::proofs::GoesOnLemmas::goes_on_through), unfolding(spec_endpoint::specs::Timers::tick_timers))]
fn tick_tcb<C: Checksum>(
    context: &mut Context<C>,
    tcb: &mut TransmissionControlBlock,
) -> Result<bool, AllocError>
    ensures ok { IfOk result (λ any. ticking_of C.word_of tcb.new context.new any ≡ table.tick_timers (tcb_of tcb.old) (context_of C.word_of context.old)) }
    ensures goes_on { GoesOn context.old context.new }
    ensures received { tcb.new.reassembly_queue ≡ tcb.old.reassembly_queue }
    ensures identity { tcb.new.identity ≡ tcb.old.identity }
{
    let has_expired = tick_ack(context, tcb);
    let has_expired = tick_t3(context, tcb, has_expired)?;
    let is_beat = tick_heartbeat_interval(context, tcb)?;
    if is_beat {
        tcb.reassembly_queue.let_buffers_go();
    }
    let is_unanswered = tick_heartbeat_timeout(context);
    tick_requests(context, tcb, is_unanswered || is_beat || has_expired)
}

/// Too many errors end the association (RFC 9260 section 8.1). The answer is whether it ended.
#[tactic(auto, using(sctp_endpoint::proofs::GoesOnLemmas::goes_on_same, sctp_endpoint::proofs::GoesOnLemmas::goes_on_through))]
fn end_if_exhausted<C: Checksum>(
    context: &mut Context<C>,
    tcb: &TransmissionControlBlock,
) -> Result<bool, AllocError>
    ensures ok { IfOk result (λ ended. timer_outcome_of C.word_of tcb.now context.new ended ≡ table.abort_if_exhausted (tcb_of tcb.now) (context_of C.word_of context.old)) }
    ensures goes_on { GoesOn context.old context.new }
{
    if context.tx_error_counter.is_exhausted() {
        context.abort_by_retransmissions(tcb)?;
        return Ok(true);
    }
    Ok(false)
}

/// Too many errors end the association; else what may be sent goes out. The answer is whether it ended.
#[tactic(auto, using(sctp_endpoint::proofs::GoesOnLemmas::goes_on_same, sctp_endpoint::proofs::GoesOnLemmas::goes_on_through))]
fn abort_or_send<C: Checksum>(
    context: &mut Context<C>,
    tcb: &mut TransmissionControlBlock,
) -> Result<bool, AllocError>
    ensures ok { IfOk result (λ ended. timer_outcome_of C.word_of tcb.new context.new ended ≡ table.abort_or_send (tcb_of tcb.old) (context_of C.word_of context.old)) }
    ensures goes_on { GoesOn context.old context.new }
    ensures received { tcb.new.reassembly_queue ≡ tcb.old.reassembly_queue }
    ensures identity { tcb.new.identity ≡ tcb.old.identity }
{
    if context.tx_error_counter.is_exhausted() {
        context.abort_by_retransmissions(tcb)?;
        return Ok(true);
    }
    context.send_buffered_packets(tcb, false)?;
    Ok(false)
}

/// This moment where something is due at it, else none.
fn moment_if(is_due: bool, moment: SocketTime) -> SocketTime
    ensures { result ≡ table.moment_if is_due moment }
{
    if is_due {
        moment
    } else {
        SocketTime::infinite_future()
    }
}

/// The first moment at which something is owed that no timer brings: an acknowledgement at once, a forward point where its limit ends.
fn first_owed<C: Checksum>(context: &Context<C>, tcb: &TransmissionControlBlock) -> SocketTime
    ensures { result ≡ table.first_owed (tcb_of tcb.now) (context_of C.word_of context.now) }
{
    let ack = moment_if(tcb.data_tracker.owes_ack(), context.clock);
    let has_point = tcb.retransmission_queue.has_forward_point();
    ack.min(moment_if(has_point, context.limit_forward_tsn_until))
}

/// With stalls avoided what is owed is sent, where packets may go out.
fn sends_owed<C: Checksum>(context: &Context<C>) -> bool
    ensures { result ≡ table.sends_owed (context_of C.word_of context.now) }
{
    context.options.avoid_stalls && context.max_burst() != 0
}

/// From when on something is owed that is sent.
fn owed_moment<C: Checksum>(context: &Context<C>, tcb: &TransmissionControlBlock) -> SocketTime
    ensures { result ≡ table.owed_moment (tcb_of tcb.now) (context_of C.word_of context.now) }
{
    if sends_owed(context) {
        first_owed(context, tcb)
    } else {
        SocketTime::infinite_future()
    }
}

/// A timer has expired, or something is owed by now.
fn sends_now<C: Checksum>(
    context: &Context<C>,
    tcb: &TransmissionControlBlock,
    has_expired: bool,
) -> bool
    ensures { result ≡ (has_expired || table.is_owed (tcb_of tcb.now) (context_of C.word_of context.now)) }
{
    has_expired || (sends_owed(context) && first_owed(context, tcb) <= context.clock)
}

#[tactic(auto, using(sctp_endpoint::proofs::GoesOnLemmas::goes_on_same, sctp_endpoint::proofs::GoesOnLemmas::goes_on_through))]
fn after_ticks<C: Checksum>(
    context: &mut Context<C>,
    tcb: &mut TransmissionControlBlock,
    has_expired: bool,
) -> Result<bool, AllocError>
    ensures ok { IfOk result (λ ended. timer_outcome_of C.word_of tcb.new context.new ended ≡ table.after_ticks (ticking_of C.word_of tcb.old context.old has_expired)) }
    ensures goes_on { GoesOn context.old context.new }
    ensures received { tcb.new.reassembly_queue ≡ tcb.old.reassembly_queue }
    ensures identity { tcb.new.identity ≡ tcb.old.identity }
{
    if sends_now(context, tcb, has_expired) {
        abort_or_send(context, tcb)
    } else {
        Ok(false)
    }
}

/// The timers of an association that is established or is being shut down, but for T2-shutdown.
#[tactic(auto, using(sctp_endpoint::proofs::GoesOnLemmas::goes_on_same, sctp_endpoint::proofs::GoesOnLemmas::goes_on_through))]
fn tick_established<C: Checksum>(
    context: &mut Context<C>,
    tcb: &mut TransmissionControlBlock,
) -> Result<bool, AllocError>
    ensures ok { IfOk result (λ ended. timer_outcome_of C.word_of tcb.new context.new ended ≡ table.after_ticks (table.tick_timers (tcb_of tcb.old) (context_of C.word_of context.old))) }
    ensures goes_on { GoesOn context.old context.new }
    ensures received { tcb.new.reassembly_queue ≡ tcb.old.reassembly_queue }
    ensures identity { tcb.new.identity ≡ tcb.old.identity }
{
    let has_expired = tick_tcb(context, tcb)?;
    after_ticks(context, tcb, has_expired)
}

/// With stalls avoided what went with the COOKIE ECHO, and is overdue, goes with it again: T3-rtx expires with T1-cookie.
#[tactic(auto, using(sctp_endpoint::proofs::GoesOnLemmas::goes_on_same, sctp_endpoint::proofs::GoesOnLemmas::goes_on_through))]
fn tick_t3_with_cookie<C: Checksum>(
    context: &mut Context<C>,
    tcb: &mut TransmissionControlBlock,
    has_expired: bool,
) -> Result<bool, AllocError>
    ensures ok { IfOk result (λ any. ticking_of C.word_of tcb.new context.new any
        ≡ table.t3_with_cookie context.old.options.avoid_stalls (ticking_of C.word_of tcb.old context.old has_expired)) }
    ensures goes_on { GoesOn context.old context.new }
    ensures received { tcb.new.reassembly_queue ≡ tcb.old.reassembly_queue }
    ensures identity { tcb.new.identity ≡ tcb.old.identity }
{
    if context.options.avoid_stalls {
        tick_t3(context, tcb, has_expired)
    } else {
        Ok(has_expired)
    }
}

/// Before the COOKIE ACK: the COOKIE ECHO goes out again (RFC 9260 section 5.1).
#[tactic(auto, using(sctp_endpoint::proofs::GoesOnLemmas::goes_on_same, sctp_endpoint::proofs::GoesOnLemmas::goes_on_through))]
fn tick_cookie_echoed<C: Checksum>(
    context: &mut Context<C>,
    echoed: &mut CookieEchoedState,
    tcb: &mut TransmissionControlBlock,
) -> Result<bool, AllocError>
    ensures timer { OnOk result (echoed.new.t1_cookie ≡ expire context.old.clock echoed.old.t1_cookie) }
    ensures cookie { OnOk result (echoed.new.cookie.items ≡ echoed.old.cookie.items) }
    ensures left { IfOk result (λ ended. timer_outcome_of C.word_of tcb.new context.new ended
        ≡ table.tick_cookie echoed.old.t1_cookie echoed.old.cookie.items (table.tick_ack (table.ticking (tcb_of tcb.old) (context_of C.word_of context.old)))) }
    ensures goes_on { GoesOn context.old context.new }
    ensures received { tcb.new.reassembly_queue ≡ tcb.old.reassembly_queue }
    ensures identity { tcb.new.identity ≡ tcb.old.identity }
{
    let has_expired = tick_ack(context, tcb);
    if !echoed.t1_cookie.expire(context.clock) {
        return end_if_expired(context, tcb, has_expired);
    }
    tick_t3_with_cookie(context, tcb, has_expired)?;
    if !echoed.t1_cookie.is_running() {
        context.emit_no_answer("No COOKIE_ACK received")?;
        return Ok(true);
    }
    context.send_cookie_echo(tcb, &echoed.cookie)?;
    end_if_exhausted(context, tcb)
}

#[tactic(auto, using(sctp_endpoint::proofs::GoesOnLemmas::goes_on_same, sctp_endpoint::proofs::GoesOnLemmas::goes_on_through))]
fn end_if_expired<C: Checksum>(
    context: &mut Context<C>,
    tcb: &TransmissionControlBlock,
    has_expired: bool,
) -> Result<bool, AllocError>
    ensures ok { IfOk result (λ ended. timer_outcome_of C.word_of tcb.now context.new ended ≡ table.waits_unless has_expired (tcb_of tcb.now) (context_of C.word_of context.old)) }
    ensures goes_on { GoesOn context.old context.new }
{
    if has_expired {
        end_if_exhausted(context, tcb)
    } else {
        Ok(false)
    }
}

/// The SHUTDOWN, or the SHUTDOWN ACK, goes out again.
#[tactic(auto, using(sctp_endpoint::proofs::GoesOnLemmas::goes_on_same, sctp_endpoint::proofs::GoesOnLemmas::goes_on_through))]
fn send_again<C: Checksum>(
    context: &mut Context<C>,
    is_ack: bool,
    tcb: &TransmissionControlBlock,
) -> Result<(), AllocError>
    ensures ok { OnOk result (context_of C.word_of context.new ≡ cond is_ack send_shutdown_ack send_shutdown (tcb_of tcb.now) (context_of C.word_of context.old)) }
    ensures goes_on { GoesOn context.old context.new }
{
    if is_ack {
        context.send_shutdown_ack(tcb)
    } else {
        context.send_shutdown(tcb)
    }
}

/// After the own SHUTDOWN, or the own SHUTDOWN ACK: T2-shutdown sends it again (RFC 9260 section 9.2).
#[tactic(auto, using(sctp_endpoint::proofs::GoesOnLemmas::goes_on_same, sctp_endpoint::proofs::GoesOnLemmas::goes_on_through))]
fn tick_shutdown<C: Checksum>(
    context: &mut Context<C>,
    is_ack: bool,
    t2_shutdown: &mut Timer,
    tcb: &mut TransmissionControlBlock,
) -> Result<bool, AllocError>
    ensures timer { OnOk result (t2_shutdown.new ≡ expire context.old.clock t2_shutdown.old) }
    ensures left { IfOk result (λ ended. timer_outcome_of C.word_of tcb.new context.new ended
        ≡ table.tick_t2 context.old.clock (cond is_ack send_shutdown_ack send_shutdown) t2_shutdown.old (table.tick_timers (tcb_of tcb.old) (context_of C.word_of context.old))) }
    ensures goes_on { GoesOn context.old context.new }
    ensures received { tcb.new.reassembly_queue ≡ tcb.old.reassembly_queue }
    ensures identity { tcb.new.identity ≡ tcb.old.identity }
{
    let now = context.clock;
    let has_expired = tick_tcb(context, tcb)?;
    if !t2_shutdown.expire(now) {
        return after_ticks(context, tcb, has_expired);
    }
    if !t2_shutdown.is_running() {
        context.abort_by_retransmissions(tcb)?;
        return Ok(true);
    }
    send_again(context, is_ack, tcb)?;
    abort_or_send(context, tcb)
}

#[tactic(auto, using(sctp_endpoint::proofs::GoesOnLemmas::goes_on_same, sctp_endpoint::proofs::GoesOnLemmas::goes_on_through))]
fn tick_open<C: Checksum>(
    context: &mut Context<C>,
    phase: &mut Phase,
    tcb: &mut TransmissionControlBlock,
) -> Result<bool, AllocError>
    ensures ok { IfOk result (λ ended. endpoint_state_after C.word_of phase.new tcb.new context.new ended
        ≡ table.tick_open (phase_of phase.old) (tcb_of tcb.old) (context_of C.word_of context.old)) }
    ensures goes_on { GoesOn context.old context.new }
    ensures received { tcb.new.reassembly_queue ≡ tcb.old.reassembly_queue }
    ensures identity { tcb.new.identity ≡ tcb.old.identity }
{
    match phase {
        Phase::CookieEchoed(echoed) => tick_cookie_echoed(context, echoed, tcb),
        Phase::Established | Phase::ShutdownPending => tick_established(context, tcb),
        Phase::ShutdownSent(t2_shutdown) => tick_shutdown(context, false, t2_shutdown, tcb),
        Phase::ShutdownReceived => tick_established(context, tcb),
        Phase::ShutdownAckSent(t2_shutdown) => tick_shutdown(context, true, t2_shutdown, tcb),
    }
}

/// Before the INIT ACK: the INIT goes out again (RFC 9260 section 5.1).
#[tactic(auto, using(sctp_endpoint::proofs::GoesOnLemmas::goes_on_same, sctp_endpoint::proofs::GoesOnLemmas::goes_on_through))]
fn tick_cookie_wait<C: Checksum>(
    context: &mut Context<C>,
    waiting: &mut CookieWaitState,
) -> Result<bool, AllocError>
    ensures tag { OnOk result (waiting.new.verification_tag ≡ waiting.old.verification_tag) }
    ensures first { OnOk result (waiting.new.initial_tsn ≡ waiting.old.initial_tsn) }
    ensures timer { OnOk result (waiting.new.t1_init ≡ expire context.old.clock waiting.old.t1_init) }
    ensures waited { IfOk result (λ ended. init_outcome_of C.word_of context.new ended
        ≡ table.tick_init waiting.old.verification_tag waiting.old.initial_tsn.0 waiting.old.t1_init (context_of C.word_of context.old)) }
    ensures goes_on { GoesOn context.old context.new }
{
    if !waiting.t1_init.expire(context.clock) {
        return Ok(false);
    }
    if !waiting.t1_init.is_running() {
        context.emit_no_answer("No INIT_ACK received")?;
        return Ok(true);
    }
    context.send_init(waiting.verification_tag, waiting.initial_tsn)?;
    Ok(false)
}

/// What has expired by now.
#[tactic(auto, using(sctp_endpoint::proofs::GoesOnLemmas::goes_on_same, sctp_endpoint::proofs::GoesOnLemmas::goes_on_through))]
fn handle_timeouts<C: Checksum>(
    state: &mut State,
    context: &mut Context<C>,
) -> Result<(), AllocError>
    ensures ok { OnOk result (endpoint_state_of C.word_of state.new context.new ≡ table.tick_in (state_of state.old) (context_of C.word_of context.old)) }
    ensures goes_on { GoesOn context.old context.new }
    ensures ready { OnErr result (ready_in (state_of state.new) ≡ ready_in (state_of state.old)) }
    ensures association { OnErr result (association_in (state_of state.new) ≡ association_in (state_of state.old)) }
{
    match state {
        State::Closed => Ok(()),
        State::CookieWait(waiting) => {
            if tick_cookie_wait(context, waiting)? {
                state.enter(State::Closed);
            }
            Ok(())
        }
        State::Open(phase, tcb) => {
            if tick_open(context, phase, tcb)? {
                state.enter(State::Closed);
            }
            Ok(())
        }
    }
}

/// Time passes; a moment before the clock's changes nothing.
#[tactic(auto, using(sctp_endpoint::proofs::GoesOnLemmas::goes_on_same, sctp_endpoint::proofs::GoesOnLemmas::goes_on_through, sctp_endpoint::proofs::GoesOnLemmas::goes_on_as))]
pub fn advance_time<C: Checksum>(
    state: &mut State,
    context: &mut Context<C>,
    now: SocketTime,
) -> Result<(), AllocError>
    ensures ok { OnOk result (endpoint_state_of C.word_of state.new context.new ≡ table.advance now (endpoint_state_of C.word_of state.old context.old)) }
    ensures goes_on { GoesOn context.old context.new }
    ensures ready { OnErr result (ready_in (state_of state.new) ≡ ready_in (state_of state.old)) }
    ensures association { OnErr result (association_in (state_of state.new) ≡ association_in (state_of state.old)) }
{
    if now < context.clock {
        return Ok(());
    }
    context.clock = now;
    handle_timeouts(state, context)
}

fn next_timeout(tcb: &TransmissionControlBlock) -> SocketTime
    ensures { result ≡ table.tcb_expiry (tcb_of tcb.now) }
{
    let t3_rtx = tcb.retransmission_queue.next_timeout();
    let earliest = t3_rtx.min(tcb.data_tracker.next_timeout());
    tcb.reset_requests.next_timeout().min(earliest)
}

/// The timers of an association that is established or is being shut down, but for T2-shutdown.
fn running_expiry<C: Checksum>(context: &Context<C>, tcb: &TransmissionControlBlock) -> SocketTime
    ensures { result ≡ table.running_expiry (tcb_of tcb.now) (context_of C.word_of context.now) }
{
    let expiry = next_timeout(tcb).min(heartbeat_expiry(context));
    owed_moment(context, tcb).min(expiry)
}

fn phase_expiry<C: Checksum>(
    context: &Context<C>,
    phase: &Phase,
    tcb: &TransmissionControlBlock,
) -> SocketTime
    ensures { result ≡ table.phase_expiry (phase_of phase.now) (tcb_of tcb.now) (context_of C.word_of context.now) }
{
    match phase {
        Phase::CookieEchoed(echoed) => echoed.t1_cookie.next_expiry(),
        Phase::Established | Phase::ShutdownPending => running_expiry(context, tcb),
        Phase::ShutdownSent(t2_shutdown) => {
            t2_shutdown.next_expiry().min(running_expiry(context, tcb))
        }
        Phase::ShutdownReceived => running_expiry(context, tcb),
        Phase::ShutdownAckSent(t2_shutdown) => {
            t2_shutdown.next_expiry().min(running_expiry(context, tcb))
        }
    }
}

/// The moment by which the time is to be advanced next, not before this one; the greatest one where no timer runs and nothing is owed.
pub fn poll_timeout<C: Checksum>(context: &Context<C>, state: &State) -> SocketTime
    ensures { result ≡ table.poll_timeout (endpoint_state_of C.word_of state.now context.now) }
{
    match state {
        State::Closed => SocketTime::infinite_future(),
        State::CookieWait(waiting) => waiting.t1_init.next_expiry().max(context.clock),
        State::Open(phase, tcb) => phase_expiry(context, phase, tcb).max(context.clock),
    }
}
