//! DATA, I-DATA and forward points (RFC 9260 section 6.2, RFC 3758 section 3.6).

ghost use Rattle.std.specs.Prelude.{◌≡◌, ◌-◌, ◌<◌, ◌^◌, true, false, [], ◌∷◌, OnOk};
ghost use Rattle.sctp_wire.specs.Cause.{no_user_data};
ghost use Rattle.sctp_packet.specs.Chunk.{error_chunk};
ghost use Rattle.spec_endpoint.specs.Packets.{emit_chunk};
ghost use Rattle.sctp_packet.specs.Views.{viewed_fragment};
ghost use Rattle.spec_endpoint.specs.Data.{accepts_point, fragment_if, handle_forward_tsn_if, on_data};
ghost use Rattle.sctp_state.specs.Options.{IsValid, options_of};
ghost use Rattle.sctp_rx.specs.DataTracker.{number_of, is_valid};
ghost use Rattle.sctp_rx.specs.ReassemblyQueue.{queued_bytes, held_fragments};
ghost use Rattle.sctp_rx.specs.Delivery.{Extends};
ghost use Rattle.spec_endpoint.specs.Calls.{ready_in};
ghost use Rattle.spec_endpoint.specs.Shown.{association_in};
ghost use Rattle.sctp_endpoint.specs.GoesOn.{GoesOn};
ghost use Rattle.sctp_endpoint.specs.Views.{context_of, endpoint_state_of, state_of, tcb_of};
ghost use Rattle.spec_endpoint.specs.Data as table;

use sctp_endpoint::{Context, State, TransmissionControlBlock};
use sctp_error_cause::{ErrorCause, NoUserDataErrorCause};
use sctp_packet::{Chunk, DataView, ErrorChunk, SkippedStream};
use sctp_rx::ReassemblyQueue;
use sctp_serial::{SocketTime, Tsn};
use sctp_state::{ErrorKind, Options};
use sctp_wire::Checksum;
use std::alloc::AllocError;

/// DATA or I-DATA, where it lies. Its payload is copied only where it is kept.
#[tactic(auto, using(sctp_reassembly::proofs::ExtendsLemmas::extends_none, sctp_endpoint::proofs::GoesOnLemmas::goes_on_same, sctp_endpoint::proofs::GoesOnLemmas::goes_on_through))]
pub fn handle_data<C: Checksum>(
    state: &mut State,
    context: &mut Context<C>,
    fragment: DataView<'_>,
) -> Result<(), AllocError>
    ensures ok { OnOk result (endpoint_state_of C.word_of state.new context.new
        ≡ on_data fragment.entry.tsn.0 fragment.entry.immediate_ack (viewed_fragment fragment.entry) (endpoint_state_of C.word_of state.old context.old)) }
    ensures goes_on { GoesOn context.old context.new }
    ensures ready { Extends (ready_in (state_of state.old)) (ready_in (state_of state.new)) }
    ensures association { association_in (state_of state.new) ≡ association_in (state_of state.old) }
{
    if fragment.payload.is_empty() {
        return handle_no_data(state, context, fragment.tsn);
    }
    match state {
        State::Closed | State::CookieWait(_) => emit_data_error(context),
        State::Open(_, tcb) => { take_data(tcb, &context.options, context.clock, fragment) }
    }
}

/// No more may come, for bytes or for fragments.
fn is_full(queue: &ReassemblyQueue) -> bool
    ensures test { result ≡ table.is_full queue.now }
    ensures bytes { result ≡ false → queued_bytes queue.now < 2 ^ 33 }
    ensures fragments { result ≡ false → held_fragments queue.now < 2 ^ 64 - 1 }
{
    queue.is_full() || (queue.is_above_watermark() || queue.holds_most_fragments())
}

/// There is room for one message more, and for one fragment.
fn has_reserve(queue: &ReassemblyQueue, options: &Options) -> bool
    requires { IsValid (options_of options.now) }
    ensures test { result ≡ table.has_reserve (options_of options.now) queue.now }
    ensures bytes { result ≡ true → queued_bytes queue.now < 2 ^ 33 }
    ensures fragments { result ≡ true → held_fragments queue.now < 2 ^ 64 - 1 }
{
    let most_bytes = options.max_receiver_window_buffer_size + options.max_message_size;
    queue.queued_bytes() < most_bytes && !queue.holds_most_fragments()
}

/// With stalls avoided the next TSN has room above the watermark too (RFC 9260 section 6.2).
fn takes_next(tcb: &TransmissionControlBlock, options: &Options, tsn: Tsn) -> bool
    requires { IsValid (options_of options.now) }
    ensures test { result ≡ table.takes_next (options_of options.now) tsn.0 (tcb_of tcb.now) }
    ensures bytes { result ≡ true → queued_bytes tcb.now.reassembly_queue < 2 ^ 33 }
    ensures fragments { result ≡ true → held_fragments tcb.now.reassembly_queue < 2 ^ 64 - 1 }
{
    options.avoid_stalls
        && (tcb.data_tracker.will_increase_cum_ack_tsn(tsn)
            && has_reserve(&tcb.reassembly_queue, options))
}

/// Whether there is room for this TSN.
fn has_room(tcb: &TransmissionControlBlock, options: &Options, tsn: Tsn) -> bool
    requires { IsValid (options_of options.now) }
    ensures test { result ≡ table.has_room (options_of options.now) tsn.0 (tcb_of tcb.now) }
    ensures bytes { result ≡ true → queued_bytes tcb.now.reassembly_queue < 2 ^ 33 }
    ensures fragments { result ≡ true → held_fragments tcb.now.reassembly_queue < 2 ^ 64 - 1 }
{
    !is_full(&tcb.reassembly_queue) || takes_next(tcb, options, tsn)
}

/// A fragment for which there is room is observed, and copied and kept where its TSN is new; unless the TSN lies too far away.
#[tactic(auto, using(sctp_reassembly::proofs::ExtendsLemmas::extends_none, crate::proofs::DataLemmas::not_taken))]
fn keep_data(
    tcb: &mut TransmissionControlBlock,
    now: SocketTime,
    fragment: DataView<'_>,
) -> Result<(), AllocError>
    requires bytes { queued_bytes tcb.old.reassembly_queue < 2 ^ 33 }
    requires fragments { held_fragments tcb.old.reassembly_queue < 2 ^ 64 - 1 }
    ensures ok { OnOk result (tcb_of tcb.new ≡ fragment_if (is_valid (tcb_of tcb.old).tracker.tracker (number_of (tcb_of tcb.old).tracker fragment.entry.tsn.0))
        fragment.entry.tsn.0 fragment.entry.immediate_ack (viewed_fragment fragment.entry) (tcb_of tcb.old)) }
    ensures ready { Extends tcb.old.reassembly_queue.ready tcb.new.reassembly_queue.ready }
    ensures identity { tcb.new.identity ≡ tcb.old.identity }
{
    let tsn = fragment.tsn;
    if tcb.data_tracker.observe(now, tsn, fragment.immediate_ack)? {
        let data = tcb.reassembly_queue.copy_of(fragment)?;
        tcb.reassembly_queue.add(tsn, data)?;
    }
    Ok(())
}

/// With stalls avoided a fragment that is dropped for want of room is answered at once.
fn tell_of_drop(tcb: &mut TransmissionControlBlock, options: &Options)
    ensures ok { tcb_of tcb.new ≡ table.told_of_drop (options_of options.now).avoid_stalls false (tcb_of tcb.old) }
    ensures received { tcb.new.reassembly_queue ≡ tcb.old.reassembly_queue }
    ensures identity { tcb.new.identity ≡ tcb.old.identity }
{
    if options.avoid_stalls {
        tcb.data_tracker.force_immediate_sack();
    }
}

/// A fragment is kept where there is room, and where it may wait if it does. What isn't observed isn't acknowledged, so that the peer
/// sends it again (RFC 9260 section 6.2).
#[tactic(auto, using(sctp_reassembly::proofs::ExtendsLemmas::extends_none, crate::proofs::DataLemmas::kept_so, crate::proofs::DataLemmas::dropped_so, crate::proofs::DataLemmas::lost_so))]
fn take_data(
    tcb: &mut TransmissionControlBlock,
    options: &Options,
    now: SocketTime,
    fragment: DataView<'_>,
) -> Result<(), AllocError>
    requires { IsValid (options_of options.now) }
    ensures ok { OnOk result (tcb_of tcb.new
        ≡ table.take_data (options_of options.now) fragment.entry.tsn.0 fragment.entry.immediate_ack (viewed_fragment fragment.entry) (tcb_of tcb.old)) }
    ensures ready { Extends tcb.old.reassembly_queue.ready tcb.new.reassembly_queue.ready }
    ensures identity { tcb.new.identity ≡ tcb.old.identity }
{
    if !has_room(tcb, options, fragment.tsn) {
        tell_of_drop(tcb, options);
        return Ok(());
    }
    if !tcb
        .reassembly_queue
        .admits_fragment(fragment.tsn, fragment.stream_key)
    {
        return Ok(());
    }
    keep_data(tcb, now, fragment)
}

#[tactic(auto, using(sctp_endpoint::proofs::GoesOnLemmas::goes_on_same, sctp_endpoint::proofs::GoesOnLemmas::goes_on_through))]
fn emit_data_error<C: Checksum>(context: &mut Context<C>) -> Result<(), AllocError>
    ensures ok { OnOk result (context_of C.word_of context.new ≡ table.not_connected (context_of C.word_of context.old)) }
    ensures goes_on { GoesOn context.old context.new }
{
    context.emit_error(
        ErrorKind::NotConnected,
        "Received unexpected commands on socket that is not connected",
    )
}

/// DATA without a payload (RFC 9260 section 6.2).
#[tactic(auto, using(sctp_endpoint::proofs::GoesOnLemmas::goes_on_same, sctp_endpoint::proofs::GoesOnLemmas::goes_on_through))]
fn handle_no_data<C: Checksum>(
    state: &State,
    context: &mut Context<C>,
    tsn: Tsn,
) -> Result<(), AllocError>
    ensures ok { OnOk result (context_of C.word_of context.new ≡ table.on_no_data tsn.0 (state_of state.now) (context_of C.word_of context.old)) }
    ensures goes_on { GoesOn context.old context.new }
{
    context.emit_error(
        ErrorKind::ProtocolViolation,
        "Received DATA chunk with no user data",
    )?;
    match state {
        State::Closed | State::CookieWait(_) => Ok(()),
        State::Open(_, tcb) => send_no_user_data(context, tcb, tsn),
    }
}

/// An ERROR that a DATA chunk had no payload (RFC 9260 section 3.3.10.9).
#[tactic(auto, using(sctp_endpoint::proofs::GoesOnLemmas::goes_on_same, sctp_endpoint::proofs::GoesOnLemmas::goes_on_through), unfolding(sctp_wire::specs::Cause::cause_value, sctp_chunk::specs::Written::chunk_value))]
fn send_no_user_data<C: Checksum>(
    context: &mut Context<C>,
    tcb: &TransmissionControlBlock,
    tsn: Tsn,
) -> Result<(), AllocError>
    ensures ok { OnOk result (context_of C.word_of context.new
        ≡ emit_chunk (error_chunk (no_user_data (record { 0 = tsn.0 }) ∷ [])) (tcb_of tcb.now) (context_of C.word_of context.old)) }
    ensures goes_on { GoesOn context.old context.new }
{
    let mut error_causes = Vec::new(context.alloc);
    error_causes.push(ErrorCause::NoUserData(NoUserDataErrorCause { tsn }))?;
    context.emit_chunk(tcb, Chunk::Error(ErrorChunk { error_causes }))
}

/// A forward point is observed, unless it lies too far away, or has no room behind a reset: up to it all counts as received. It
/// reaches reassembly where it moves the cumulative TSN; an older one is acknowledged alone (RFC 3758 section 3.6).
#[tactic(auto, using(sctp_reassembly::proofs::ExtendsLemmas::extends_none))]
fn skip_to(
    tcb: &mut TransmissionControlBlock,
    now: SocketTime,
    new_cumulative_tsn: Tsn,
    skipped: &[SkippedStream],
) -> Result<(), AllocError>
    ensures ok { OnOk result (tcb_of tcb.new
        ≡ handle_forward_tsn_if (accepts_point new_cumulative_tsn.0 skipped.now (tcb_of tcb.old)) new_cumulative_tsn.0 skipped.now (tcb_of tcb.old)) }
    ensures ready { Extends tcb.old.reassembly_queue.ready tcb.new.reassembly_queue.ready }
    ensures identity { tcb.new.identity ≡ tcb.old.identity }
{
    if !tcb.data_tracker.is_tsn_valid(new_cumulative_tsn) {
        return Ok(());
    }
    if !tcb
        .reassembly_queue
        .admits_point(new_cumulative_tsn, skipped)
    {
        return Ok(());
    }
    if tcb.data_tracker.handle_forward_tsn(now, new_cumulative_tsn) {
        tcb.reassembly_queue
            .handle_forward_tsn(new_cumulative_tsn, skipped)?;
    }
    Ok(())
}

/// FORWARD-TSN or I-FORWARD-TSN. It reaches reassembly where it moves the cumulative TSN.
#[tactic(auto, using(sctp_reassembly::proofs::ExtendsLemmas::extends_none))]
pub fn handle_forward_tsn(
    state: &mut State,
    now: SocketTime,
    new_cumulative_tsn: Tsn,
    skipped: &[SkippedStream],
) -> Result<(), AllocError>
    ensures ok { OnOk result (state_of state.new ≡ table.handle_forward_tsn_in (state_of state.old) new_cumulative_tsn.0 skipped.now) }
    ensures ready { Extends (ready_in (state_of state.old)) (ready_in (state_of state.new)) }
    ensures association { association_in (state_of state.new) ≡ association_in (state_of state.old) }
{
    match state {
        State::Closed | State::CookieWait(_) => Ok(()),
        State::Open(_, tcb) => skip_to(tcb, now, new_cumulative_tsn, skipped),
    }
}
