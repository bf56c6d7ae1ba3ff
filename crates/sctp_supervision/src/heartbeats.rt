//! Own heartbeats (RFC 9260 section 8.3): an end that sends no data asks now and then whether its peer is there.

ghost use Rattle.std.specs.Prelude.{◌≡◌, Some, map, IfOk, OnOk};
ghost use Rattle.std.specs.Option.{option_map};
ghost use Rattle.sctp_packet.specs.ChunkView.{chunk_tree};
ghost use Rattle.sctp_parameter.specs.ParameterViews.{parameter_tree};
ghost use Rattle.sctp_state.specs.Timer.{is_due};
ghost use Rattle.sctp_endpoint.specs.GoesOn.{GoesOn};
ghost use Rattle.sctp_endpoint.specs.Views.{context_of, tcb_of};
ghost use Rattle.spec_endpoint.specs.Heartbeats as table;

use sctp_endpoint::{Context, TransmissionControlBlock};
use sctp_packet::{Chunk, HeartbeatRequestChunk};
use sctp_parameter::{HeartbeatInfoParameter, Parameter};
use sctp_serial::SocketTime;
use sctp_state::ErrorKind;
use sctp_wire::Checksum;
use std::alloc::{AllocError, Global};

/// A HEARTBEAT with this number.
fn make_heartbeat(alloc: Global, counter: u32) -> Result<Chunk, AllocError>
    ensures { IfOk result (λ chunk. chunk_tree chunk ≡ table.heartbeat_chunk counter) }
{
    let info = Vec::from_slice(alloc, &counter.to_be_bytes())?;
    let mut parameters = Vec::new(alloc);
    parameters.push(Parameter::HeartbeatInfo(HeartbeatInfoParameter { info }))?;
    Ok(Chunk::HeartbeatRequest(HeartbeatRequestChunk { parameters }))
}

/// What the first parameter of this type holds.
fn info_in(parameters: &[Parameter]) -> Option<&[u8]>
    ensures { option_map (λ info. info.now) result ≡ table.info_in (map parameter_tree parameters.now) }
{
    for parameter in parameters {
        if let Parameter::HeartbeatInfo(found) = parameter {
            return Some(&found.info);
        }
    }
    None
}

/// A HEARTBEAT with the counter's number goes out.
#[tactic(auto, using(sctp_endpoint::proofs::GoesOnLemmas::goes_on_same, sctp_endpoint::proofs::GoesOnLemmas::goes_on_through))]
fn send_heartbeat<C: Checksum>(
    context: &mut Context<C>,
    tcb: &TransmissionControlBlock,
) -> Result<(), AllocError>
    ensures ok { OnOk result (context_of C.word_of context.new ≡ table.emit_heartbeat (tcb_of tcb.now) (context_of C.word_of context.old)) }
    ensures goes_on { GoesOn context.old context.new }
{
    let chunk = make_heartbeat(context.alloc, context.heartbeat_counter)?;
    context.emit_chunk(tcb, chunk)
}

/// At the interval a HEARTBEAT goes out. The answer is whether the time has come.
#[tactic(auto, using(sctp_endpoint::proofs::GoesOnLemmas::goes_on_same, sctp_endpoint::proofs::GoesOnLemmas::goes_on_through, sctp_endpoint::proofs::GoesOnLemmas::goes_on_as))]
pub fn tick_heartbeat_interval<C: Checksum>(
    context: &mut Context<C>,
    tcb: &TransmissionControlBlock,
) -> Result<bool, AllocError>
    ensures due { IfOk result (λ due. due ≡ is_due context.old.clock context.old.heartbeats.interval) }
    ensures context { IfOk result (λ due. context_of C.word_of context.new ≡ table.send_heartbeat_if due (tcb_of tcb.now) (context_of C.word_of context.old)) }
    ensures goes_on { GoesOn context.old context.new }
{
    if !context.heartbeat_interval.expire(context.clock) {
        return Ok(false);
    }
    context.heartbeat_timeout.start(context.clock);
    context.heartbeat_counter = context.heartbeat_counter.wrapping_add(1);
    send_heartbeat(context, tcb)?;
    Ok(true)
}

/// A HEARTBEAT ACK that doesn't come in time counts as an error (RFC 9260 section 8.3). The answer is whether that time is over.
#[tactic(auto, using(sctp_endpoint::proofs::GoesOnLemmas::goes_on_same, sctp_endpoint::proofs::GoesOnLemmas::goes_on_through, sctp_endpoint::proofs::GoesOnLemmas::goes_on_as))]
pub fn tick_heartbeat_timeout<C: Checksum>(context: &mut Context<C>) -> bool
    ensures due { result ≡ is_due context.old.clock context.old.heartbeats.timeout }
    ensures context { context_of C.word_of context.new ≡ table.heartbeat_timeout_if result (context_of C.word_of context.old) }
    ensures goes_on { GoesOn context.old context.new }
{
    if !context.heartbeat_timeout.expire(context.clock) {
        return false;
    }
    context.tx_error_counter.increment();
    true
}

/// When the heartbeat timers are to be looked at next.
pub fn heartbeat_expiry<C: Checksum>(context: &Context<C>) -> SocketTime
    ensures { result ≡ table.expiry context.now.heartbeats }
{
    let interval = context.heartbeat_interval.next_expiry();
    interval.min(context.heartbeat_timeout.next_expiry())
}

/// HEARTBEAT ACK: an answer to the last HEARTBEAT shows that the peer is there, and its errors are forgotten (RFC 9260 section 8.3).
#[tactic(auto, using(sctp_endpoint::proofs::GoesOnLemmas::goes_on_same, sctp_endpoint::proofs::GoesOnLemmas::goes_on_through))]
pub fn handle_heartbeat_ack<C: Checksum>(
    context: &mut Context<C>,
    parameters: &[Parameter],
) -> Result<(), AllocError>
    ensures ok { OnOk result (context_of C.word_of context.new ≡ table.on_heartbeat_ack (map parameter_tree parameters.now) (context_of C.word_of context.old)) }
    ensures goes_on { GoesOn context.old context.new }
{
    match info_in(parameters) {
        Some(info) => take_heartbeat_info(context, info),
        None => emit_heartbeat_info_error(context),
    }
}

#[tactic(auto, using(sctp_endpoint::proofs::GoesOnLemmas::goes_on_same, sctp_endpoint::proofs::GoesOnLemmas::goes_on_through, sctp_endpoint::proofs::GoesOnLemmas::goes_on_as))]
fn take_heartbeat_info<C: Checksum>(context: &mut Context<C>, info: &[u8]) -> Result<(), AllocError>
    ensures ok { OnOk result (context_of C.word_of context.new ≡ table.on_heartbeat_info (Some info.now) (context_of C.word_of context.old)) }
    ensures goes_on { GoesOn context.old context.new }
{
    if info.len() != 4 {
        return emit_heartbeat_info_error(context);
    }
    if info == context.heartbeat_counter.to_be_bytes().as_slice() {
        context.heartbeat_timeout.stop();
        context.tx_error_counter.reset();
    }
    Ok(())
}

#[tactic(auto, using(sctp_endpoint::proofs::GoesOnLemmas::goes_on_same, sctp_endpoint::proofs::GoesOnLemmas::goes_on_through))]
fn emit_heartbeat_info_error<C: Checksum>(context: &mut Context<C>) -> Result<(), AllocError>
    ensures ok { OnOk result (context_of C.word_of context.new ≡ table.no_info (context_of C.word_of context.old)) }
    ensures goes_on { GoesOn context.old context.new }
{
    context.emit_error(
        ErrorKind::ParseFailed,
        "Failed to parse HEARTBEAT-ACK; Invalid info parameter",
    )
}
