//! SACK (RFC 9260 section 6.2.1).

ghost use Rattle.std.specs.Prelude.{◌≡◌, OnOk};
ghost use Rattle.std.specs.Option.{option_map};
ghost use Rattle.std.specs.Duration.{as_nanos};
ghost use Rattle.spec_endpoint.specs.Sack.{clean_blocks, send_after, after_sack, on_sack, on_sack_open, sample_rtt, is_late, sampled_unless};
ghost use Rattle.sctp_state.specs.Options.{options_of};
ghost use Rattle.sctp_tx_outstanding.specs.OutstandingData.{number_of};
ghost use Rattle.sctp_tx.specs.RetransmissionQueue.{answer_of};
ghost use Rattle.spec_endpoint.specs.Calls.{ready_in};
ghost use Rattle.spec_endpoint.specs.Shown.{association_in};
ghost use Rattle.sctp_endpoint.specs.GoesOn.{GoesOn};
ghost use Rattle.sctp_endpoint.specs.Views.{after_sending_of, context_of, opened_of, phase_of, sack_of, endpoint_state_of, state_of, tcb_of};

use sctp_endpoint::{Context, Phase, State, TransmissionControlBlock};
use sctp_packet::{SackChunk, clean_sack};
use sctp_serial::Tsn;
use sctp_state::{ErrorKind, Options};
use sctp_tx::HandleSackResult;
use sctp_wire::Checksum;
use std::alloc::AllocError;
use std::time::Duration;

/// The chunk with its blocks as the maximal runs of the offsets that they cover: in order and apart, as RFC 9260 section 3.3.4 has
/// them, whatever the peer sends.
fn cleaned(sack: SackChunk) -> SackChunk
    ensures blocks { result.gap_ack_blocks.items ≡ clean_blocks sack.gap_ack_blocks.items }
    ensures kept { result ≡ record sack { gap_ack_blocks = result.gap_ack_blocks } }
{
    clean_sack(sack)
}

/// A round trip sets the retransmission timeout (RFC 9260 section 6.3.1), which each part counts by.
fn observe_rtt(tcb: &mut TransmissionControlBlock, rtt: Option<Duration>)
    ensures ok { tcb_of tcb.new ≡ sample_rtt (option_map as_nanos rtt) (tcb_of tcb.old) }
    ensures received { tcb.new.reassembly_queue ≡ tcb.old.reassembly_queue }
    ensures identity { tcb.new.identity ≡ tcb.old.identity }
{
    let Some(rtt) = rtt else {
        return;
    };
    tcb.rto.observe_rto(rtt);
    let rto = tcb.rto.rto();
    tcb.retransmission_queue.update_rto(rto);
    tcb.data_tracker.update_rto(rto);
}

/// SACK.
#[tactic(auto, using(sctp_endpoint::proofs::GoesOnLemmas::goes_on_same, sctp_endpoint::proofs::GoesOnLemmas::goes_on_through))]
pub fn handle_sack<C: Checksum>(
    state: &mut State,
    context: &mut Context<C>,
    sack: SackChunk,
) -> Result<(), AllocError>
    ensures ok { OnOk result (endpoint_state_of C.word_of state.new context.new ≡ on_sack (sack_of sack) (endpoint_state_of C.word_of state.old context.old)) }
    ensures goes_on { GoesOn context.old context.new }
    ensures received { ready_in (state_of state.new) ≡ ready_in (state_of state.old) }
    ensures association { association_in (state_of state.new) ≡ association_in (state_of state.old) }
{
    match state {
        State::Closed | State::CookieWait(_) => context.emit_error(
            ErrorKind::NotConnected,
            "No TCB",
        ),
        State::Open(phase, tcb) => sack_open(phase, tcb, context, sack),
    }
}

/// With stalls avoided: whether this SACK says nothing of when the item with this TSN came, since a block acknowledged it before, or it was given up.
fn is_late(tcb: &TransmissionControlBlock, options: &Options, tsn: Tsn) -> bool
    ensures { result ≡ is_late (options_of options.now) (number_of (tcb_of tcb.now).sender.outstanding tsn.0) (tcb_of tcb.now).sender.outstanding.items }
{
    options.avoid_stalls && !tcb.retransmission_queue.is_open(tsn)
}

/// The answer, without its round trip where that says nothing.
fn sampled_unless(is_late: bool, answer: HandleSackResult) -> HandleSackResult
    ensures { answer_of result ≡ sampled_unless is_late (answer_of answer) }
{
    if !is_late {
        return answer;
    }
    match answer {
        HandleSackResult::Valid {
            reset_error_counter,
            ..
        } => HandleSackResult::Valid {
            rtt: None,
            reset_error_counter,
        },
        HandleSackResult::Invalid => HandleSackResult::Invalid,
    }
}

#[tactic(auto, using(sctp_endpoint::proofs::GoesOnLemmas::goes_on_same, sctp_endpoint::proofs::GoesOnLemmas::goes_on_through))]
fn sack_open<C: Checksum>(
    phase: &mut Phase,
    tcb: &mut TransmissionControlBlock,
    context: &mut Context<C>,
    sack: SackChunk,
) -> Result<(), AllocError>
    ensures ok { OnOk result (opened_of C.word_of phase.new tcb.new context.new
        ≡ on_sack_open (sack_of sack) (phase_of phase.old) (tcb_of tcb.old) (context_of C.word_of context.old)) }
    ensures goes_on { GoesOn context.old context.new }
    ensures received { tcb.new.reassembly_queue ≡ tcb.old.reassembly_queue }
    ensures identity { tcb.new.identity ≡ tcb.old.identity }
{
    let sack = cleaned(sack);
    let is_late = is_late(tcb, &context.options, sack.cumulative_tsn_ack);
    let answer = tcb
        .retransmission_queue
        .handle_sack(context.clock, &sack, &mut context.events)?;
    after_sack(phase, tcb, context, sampled_unless(is_late, answer))
}

/// What is to be sent again at once goes out (RFC 9260 section 7.2.4), and what there is room for.
#[tactic(auto, using(sctp_endpoint::proofs::GoesOnLemmas::goes_on_same, sctp_endpoint::proofs::GoesOnLemmas::goes_on_through, sctp_endpoint::proofs::GoesOnLemmas::goes_on_as))]
fn send_after<C: Checksum>(
    context: &mut Context<C>,
    phase: &Phase,
    tcb: &mut TransmissionControlBlock,
) -> Result<(), AllocError>
    ensures ok { OnOk result (after_sending_of C.word_of tcb.new context.new ≡ send_after (phase_of phase.now) (tcb_of tcb.old) (context_of C.word_of context.old)) }
    ensures goes_on { GoesOn context.old context.new }
    ensures received { tcb.new.reassembly_queue ≡ tcb.old.reassembly_queue }
    ensures identity { tcb.new.identity ≡ tcb.old.identity }
{
    context.send_fast_retransmit(tcb)?;
    let packet = context.answer_packet(phase, tcb)?;
    context.send_buffered_packets_with(tcb, phase.is_before_cookie_ack(), packet)
}

/// What was acknowledged shows that the peer is there, so its errors are forgotten (RFC 9260 section 8.1). Then goes out what waited for
/// it: a shutdown (section 9.2), what is to be sent again, and what there is room for.
#[tactic(auto, using(sctp_endpoint::proofs::GoesOnLemmas::goes_on_same, sctp_endpoint::proofs::GoesOnLemmas::goes_on_through, sctp_endpoint::proofs::GoesOnLemmas::goes_on_as))]
fn after_sack<C: Checksum>(
    phase: &mut Phase,
    tcb: &mut TransmissionControlBlock,
    context: &mut Context<C>,
    answer: HandleSackResult,
) -> Result<(), AllocError>
    ensures ok { OnOk result (opened_of C.word_of phase.new tcb.new context.new
        ≡ after_sack (answer_of answer) (phase_of phase.old) (tcb_of tcb.old) (context_of C.word_of context.old)) }
    ensures goes_on { GoesOn context.old context.new }
    ensures received { tcb.new.reassembly_queue ≡ tcb.old.reassembly_queue }
    ensures identity { tcb.new.identity ≡ tcb.old.identity }
{
    let HandleSackResult::Valid {
        rtt,
        reset_error_counter,
    } = answer
    else {
        return Ok(());
    };
    observe_rtt(tcb, rtt);
    if reset_error_counter {
        context.tx_error_counter.reset();
    }
    context.maybe_send_shutdown_or_ack(phase, tcb)?;
    send_after(context, phase, tcb)
}
