//! How an end takes a packet: whether it is for this association, then chunk by chunk, then what is due.

ghost use Rattle.std.specs.Prelude.{◌≡◌, ◌<◌, ℕ, List, codes, false, length, map, option_map, IfOk, OnErr, OnOk};
ghost use Rattle.rand_core.specs.Stream.{Stream};
ghost use Rattle.sctp_parameter.specs.ParameterViews.{parameter_tree};
ghost use Rattle.sctp_packet.specs.ChunkView.{chunk_tree};
ghost use Rattle.sctp_packet.specs.Chunk.{ChunkTree};
ghost use Rattle.sctp_packet.specs.Grammar.{IsChunk};
ghost use Rattle.sctp_packet.specs.Views.{raw_chunk, sack_chunk_tree};
ghost use Rattle.sctp_packet.specs.View.{AreLeft, viewed_packet};
ghost use Rattle.sctp_chunk.specs.declared.data.DataView.{DataView};
ghost use Rattle.sctp_supervision.specs.MisuseView.{misuse_text};
ghost use Rattle.sctp_association.specs.Kinds.{carries_data, carrying};
ghost use Rattle.spec_endpoint.specs.Association.{where_open};
ghost use Rattle.spec_endpoint.specs.Opening.{on_cookie_ack};
ghost use Rattle.spec_endpoint.specs.Packets.{emit_error};
ghost use Rattle.spec_endpoint.specs.Calls.{ready_in};
ghost use Rattle.spec_endpoint.specs.Receiving.{Receives};
ghost use Rattle.sctp_association.specs.Interrupted.{StopsAmong, StopsIn, StopsPacket};
ghost use Rattle.sctp_endpoint.specs.GoesOn.{Continues, GoesOn, GoesOnWith};
ghost use Rattle.sctp_endpoint.specs.KeepsReady.{KeepsReady};
ghost use Rattle.sctp_endpoint.specs.Views.{context_of, endpoint_of, after_chunk_of, opened_of, phase_of, endpoint_state_of, state_of, tcb_of};
ghost use Rattle.spec_endpoint.specs.Input as table;

use rand_core::Rng;
use sctp_endpoint::{Context, Phase, State, TransmissionControlBlock};
use sctp_handshake::cookie_echo::{handle_cookie_ack, handle_cookie_echo};
use sctp_handshake::cookies::goes_on_behind;
use sctp_handshake::judging::{packet_word, policy};
use sctp_handshake::opening::{handle_init, handle_init_ack};
use sctp_handshake::validation::{has_data, refusal_of};
use sctp_packet::{
    Chunk, DataView, HeartbeatAckChunk, IDataChunk, PacketView, RawChunk, SackChunk,
};
use sctp_parameter::Parameter;
use sctp_state::{ErrorKind, SocketEvent};
use sctp_supervision::aborts::{handle_abort, handle_error, handle_misuse};
use sctp_supervision::heartbeats::handle_heartbeat_ack;
use sctp_supervision::misuse::{Misuse, data_misused, handle_unknown, is_passed_over, violation};
use sctp_supervision::shutdown::{handle_shutdown, handle_shutdown_ack, handle_shutdown_complete};
use sctp_transfer::data::{handle_data, handle_forward_tsn};
use sctp_transfer::sack::handle_sack;
use sctp_transfer::stream_reset::handle_reconfig;
use sctp_wire::Checksum;
use std::alloc::{AllocError, Global};

/// A packet came.
#[tactic(auto, using(sctp_endpoint::proofs::GoesOnLemmas::goes_on_same, sctp_endpoint::proofs::GoesOnLemmas::goes_on_as))]
pub(crate) fn count_packet<C: Checksum>(context: &mut Context<C>)
    ensures ok { context_of C.word_of context.new ≡ table.count_packet (context_of C.word_of context.old) }
    ensures goes_on { GoesOn context.old context.new }
{
    context.rx_packets_count = context.rx_packets_count.saturating_add(1);
}

/// At the end of a packet an acknowledgement goes out, where one is due, and what else may be sent: one SACK for all DATA of a packet
/// (RFC 9260 section 6.2).
#[tactic(auto, using(sctp_endpoint::proofs::GoesOnLemmas::goes_on_same, sctp_endpoint::proofs::GoesOnLemmas::goes_on_through, sctp_endpoint::proofs::GoesOnLemmas::goes_on_as))]
fn maybe_send_sack<C: Checksum>(
    context: &mut Context<C>,
    phase: &Phase,
    tcb: &mut TransmissionControlBlock,
) -> Result<(), AllocError>
    ensures ok { OnOk result (opened_of C.word_of phase.now tcb.new context.new ≡ table.packet_acked (phase_of phase.now) (tcb_of tcb.old) (context_of C.word_of context.old)) }
    ensures goes_on { GoesOn context.old context.new }
    ensures received { tcb.new.reassembly_queue ≡ tcb.old.reassembly_queue }
    ensures identity { tcb.new.identity ≡ tcb.old.identity }
{
    tcb.data_tracker.observe_packet_end(context.clock);
    if !tcb.data_tracker.should_send_ack(context.clock, false) {
        return Ok(());
    }
    let mut packet = context.answer_packet(phase, tcb)?;
    let window = tcb.reassembly_queue.remaining_bytes() as u32;
    let sack = tcb.data_tracker.create_selective_ack(window)?;
    packet.add_sack(&sack)?;
    context.send_buffered_packets_with(tcb, phase.is_before_cookie_ack(), packet)
}

/// With stalls avoided a shutdown that waited goes on.
#[tactic(auto, using(sctp_endpoint::proofs::GoesOnLemmas::goes_on_same, sctp_endpoint::proofs::GoesOnLemmas::goes_on_through))]
fn shut_if<C: Checksum>(
    avoids_stalls: bool,
    context: &mut Context<C>,
    phase: &mut Phase,
    tcb: &TransmissionControlBlock,
) -> Result<(), AllocError>
    ensures ok { OnOk result (opened_of C.word_of phase.new tcb.now context.new ≡ table.shut_if avoids_stalls (opened_of C.word_of phase.old tcb.now context.old)) }
    ensures goes_on { GoesOn context.old context.new }
{
    if avoids_stalls {
        context.maybe_send_shutdown_or_ack(phase, tcb)
    } else {
        Ok(())
    }
}

/// The end of a packet: what is due goes out, and behind it a shutdown that waited, with stalls avoided, since what it waited for may have expired.
#[tactic(auto, using(sctp_endpoint::proofs::GoesOnLemmas::goes_on_same, sctp_endpoint::proofs::GoesOnLemmas::goes_on_through))]
fn end_packet<C: Checksum>(
    context: &mut Context<C>,
    phase: &mut Phase,
    tcb: &mut TransmissionControlBlock,
) -> Result<(), AllocError>
    ensures ok { OnOk result (opened_of C.word_of phase.new tcb.new context.new ≡ table.on_packet_end (phase_of phase.old) (tcb_of tcb.old) (context_of C.word_of context.old)) }
    ensures goes_on { GoesOn context.old context.new }
    ensures received { tcb.new.reassembly_queue ≡ tcb.old.reassembly_queue }
    ensures identity { tcb.new.identity ≡ tcb.old.identity }
{
    let avoids_stalls = context.options.avoid_stalls;
    maybe_send_sack(context, phase, tcb)?;
    shut_if(avoids_stalls, context, phase, tcb)
}

/// After the own SHUTDOWN, DATA has it go out again and its timer start anew (RFC 9260 section 9.2); I-DATA doesn't.
#[tactic(auto, using(sctp_endpoint::proofs::GoesOnLemmas::goes_on_same, sctp_endpoint::proofs::GoesOnLemmas::goes_on_through))]
fn repeat_shutdown<C: Checksum>(
    context: &mut Context<C>,
    phase: &mut Phase,
    tcb: &TransmissionControlBlock,
    view: &PacketView<'_>,
) -> Result<(), AllocError>
    ensures ok { (chunks : List ChunkTree) → AreLeft view.now chunks
        → OnOk result (opened_of C.word_of phase.new tcb.now context.new ≡ table.repeats_if (table.has_data_chunk chunks) (opened_of C.word_of phase.old tcb.now context.old)) }
    ensures goes_on { GoesOn context.old context.new }
{
    match phase {
        Phase::ShutdownSent(t2_shutdown) => {
            if !has_data(view) {
                return Ok(());
            }
            t2_shutdown.set_duration(tcb.rto.rto());
            t2_shutdown.start(context.clock);
            context.send_shutdown(tcb)
        }
        Phase::CookieEchoed(_)
        | Phase::Established
        | Phase::ShutdownPending
        | Phase::ShutdownReceived
        | Phase::ShutdownAckSent(_) => Ok(()),
    }
}

/// HEARTBEAT is answered with its own parameters, where they fit (RFC 9260 section 8.3).
#[tactic(auto, using(sctp_endpoint::proofs::GoesOnLemmas::goes_on_same, sctp_endpoint::proofs::GoesOnLemmas::goes_on_through))]
fn handle_heartbeat<C: Checksum>(
    state: &State,
    context: &mut Context<C>,
    parameters: Vec<Parameter>,
) -> Result<(), AllocError>
    ensures ok { OnOk result (endpoint_state_of C.word_of state.now context.new
        ≡ where_open (table.on_heartbeat (map parameter_tree parameters.items)) (endpoint_state_of C.word_of state.now context.old)) }
    ensures goes_on { GoesOn context.old context.new }
{
    match state {
        State::Closed | State::CookieWait(_) => Ok(()),
        State::Open(_, tcb) => context.emit_chunk(
            tcb,
            Chunk::HeartbeatAck(HeartbeatAckChunk { parameters }),
        ),
    }
}

#[tactic(auto, using(sctp_endpoint::proofs::GoesOnLemmas::with_same))]
fn handle_acked_cookie<C: Checksum>(
    state: &mut State,
    context: &mut Context<C>,
) -> Result<(), AllocError>
    ensures ok { OnOk result (endpoint_state_of C.word_of state.new context.new ≡ where_open on_cookie_ack (endpoint_state_of C.word_of state.old context.old)) }
    ensures goes_on { GoesOnWith context.old context.new (state_of state.new) }
    ensures received { ready_in (state_of state.new) ≡ ready_in (state_of state.old) }
{
    match state {
        State::Closed | State::CookieWait(_) => Ok(()),
        State::Open(phase, tcb) => handle_cookie_ack(phase, tcb, context),
    }
}

/// What a chunk does, of a packet under this tag. DATA and I-DATA are received where they lie.
#[tactic(auto, using(sctp_endpoint::proofs::KeepsReadyLemmas::err_alone, sctp_endpoint::proofs::KeepsReadyLemmas::err_same, sctp_endpoint::proofs::KeepsReadyLemmas::err_more, sctp_endpoint::proofs::KeepsReadyLemmas::err_given, sctp_endpoint::proofs::GoesOnLemmas::with_same, sctp_endpoint::proofs::GoesOnLemmas::with_quiet))]
fn dispatch<R: Rng, C: Checksum>(
    state: &mut State,
    context: &mut Context<C>,
    rng: &mut R,
    tag: u32,
    chunk: Chunk,
) -> Result<(), AllocError>
    requires { carries_data (chunk_tree chunk) ≡ false }
    ensures ok { OnOk result (endpoint_of R.stream C.word_of state.new context.new rng.new
        ≡ table.on_chunk tag (chunk_tree chunk) (endpoint_of R.stream C.word_of state.old context.old rng.old)) }
    ensures goes_on { GoesOnWith context.old context.new (state_of state.new) }
    ensures ready { OnErr result (KeepsReady (state_of state.old) (state_of state.new)) }
{
    match chunk {
        Chunk::Data(_) | Chunk::IData(_) => unreachable!(),
        Chunk::Init(c) => handle_init(state, context, rng, &c),
        Chunk::InitAck(c) => handle_init_ack(state, context, rng, &c),
        Chunk::Sack(c) => handle_sack(state, context, c),
        Chunk::Abort(c) => handle_abort(state, context, &c.error_causes),
        Chunk::Error(c) => handle_error(state, context, &c.error_causes),
        Chunk::CookieEcho(c) => handle_cookie_echo(state, context, rng, tag, &c.cookie),
        Chunk::CookieAck(_) => handle_acked_cookie(state, context),
        Chunk::ForwardTsn(c) => handle_forward_tsn(
            state,
            context.clock,
            c.new_cumulative_tsn,
            &c.skipped_streams,
        ),
        Chunk::IForwardTsn(c) => handle_forward_tsn(
            state,
            context.clock,
            c.new_cumulative_tsn,
            &c.skipped_streams,
        ),
        Chunk::HeartbeatRequest(c) => handle_heartbeat(state, context, c.parameters),
        Chunk::HeartbeatAck(c) => handle_heartbeat_ack(context, &c.parameters),
        Chunk::Shutdown(_) => handle_shutdown(state, context),
        Chunk::ShutdownAck(_) => handle_shutdown_ack(state, context, tag),
        Chunk::ShutdownComplete(_) => handle_shutdown_complete(state, context),
        Chunk::ReConfig(c) => handle_reconfig(state, context, c.parameters),
        Chunk::Unknown(c) => handle_unknown(state, context, &c),
    }
}

/// Whether the chunk behind this one is looked at: an unknown chunk may end the packet, and with stalls avoided a COOKIE ECHO that isn't taken.
fn allows_next(avoids_stalls: bool, last_tag: u32, tag: u32, state: &State, chunk: &Chunk) -> bool
    ensures { result ≡ table.allows_next avoids_stalls last_tag tag (state_of state.now) (chunk_tree chunk.now) }
{
    match chunk {
        Chunk::CookieEcho(echo) => {
            goes_on_behind(avoids_stalls, last_tag, tag, &echo.cookie, state)
        }
        Chunk::Unknown(unknown) => is_passed_over(unknown.typ),
        _ => true,
    }
}

/// One chunk, of those that are built. The answer is whether the next one is looked at.
///
/// It stays out of line, since what the many kinds need would else be set up for each packet.
#[inline(never)]
#[tactic(auto, using(sctp_endpoint::proofs::KeepsReadyLemmas::keeps_given, sctp_endpoint::proofs::GoesOnLemmas::with_quiet))]
fn receive<R: Rng, C: Checksum>(
    state: &mut State,
    context: &mut Context<C>,
    rng: &mut R,
    tag: u32,
    chunk: Chunk,
) -> Result<bool, AllocError>
    requires { carries_data (chunk_tree chunk) ≡ false }
    ensures ok { IfOk result (λ goes_on. after_chunk_of R.stream C.word_of state.new context.new rng.new goes_on
        ≡ table.receive tag (chunk_tree chunk) (endpoint_of R.stream C.word_of state.old context.old rng.old)) }
    ensures goes_on { GoesOnWith context.old context.new (state_of state.new) }
    ensures ready { OnErr result (KeepsReady (state_of state.old) (state_of state.new)) }
{
    if let Some(misuse) = violation(state, &chunk) {
        drop(chunk);
        handle_misuse(state, context, misuse)?;
        return Ok(false);
    }
    let avoids_stalls = context.options.avoid_stalls;
    let goes_on = allows_next(avoids_stalls, context.last_tag, tag, state, &chunk);
    dispatch(state, context, rng, tag, chunk)?;
    Ok(goes_on)
}

/// How a fragment breaks what was negotiated, if it does.
fn data_violation(state: &State, is_interleaved: bool) -> Option<Misuse>
    ensures { (v : DataView) → option_map misuse_text result ≡ table.violation (state_of state.now) (carrying is_interleaved v) }
{
    match state {
        State::Closed | State::CookieWait(_) => None,
        State::Open(_, tcb) => {
            data_misused(tcb.capabilities.message_interleaving, is_interleaved)
        }
    }
}

/// A fragment where it lies, in DATA or in I-DATA. The answer is whether the next chunk is looked at.
#[tactic(auto, using(sctp_endpoint::proofs::KeepsReadyLemmas::keeps_given, sctp_endpoint::proofs::KeepsReadyLemmas::keeps_more, sctp_endpoint::proofs::GoesOnLemmas::goes_on_same, sctp_endpoint::proofs::GoesOnLemmas::goes_on_through))]
fn receive_data<C: Checksum>(
    state: &mut State,
    context: &mut Context<C>,
    is_interleaved: bool,
    fragment: DataView<'_>,
) -> Result<bool, AllocError>
    ensures ok { (tag : ℕ) (words : Stream) → IfOk result (λ goes_on. record { end = record { endpoint_state = endpoint_state_of C.word_of state.new context.new; draws = words }; allows_next = goes_on }
        ≡ table.receive tag (carrying is_interleaved fragment.entry) (record { endpoint_state = endpoint_state_of C.word_of state.old context.old; draws = words })) }
    ensures goes_on { GoesOn context.old context.new }
    ensures ready { OnErr result (KeepsReady (state_of state.old) (state_of state.new)) }
{
    if let Some(misuse) = data_violation(state, is_interleaved) {
        handle_misuse(state, context, misuse)?;
        return Ok(false);
    }
    handle_data(state, context, fragment)?;
    Ok(true)
}

/// The chunk, built: for want of memory alone a chunk of a view is not.
fn built(alloc: Global, raw: RawChunk<'_>) -> Result<Chunk, AllocError>
    ensures { IfOk result (λ c. IsChunk (raw_chunk raw.entry) (chunk_tree c)) }
{
    match Chunk::try_from(alloc, raw) {
        Ok(chunk) => Ok(chunk),
        Err(_) => Err(AllocError),
    }
}

/// The SACK, built; as with `built`, memory alone can be wanting.
fn built_sack(alloc: Global, raw: RawChunk<'_>) -> Result<SackChunk, AllocError>
    ensures { IfOk result (λ c. IsChunk (raw_chunk raw.entry) (sack_chunk_tree c)) }
{
    match SackChunk::try_from(alloc, raw) {
        Ok(sack) => Ok(sack),
        Err(_) => Err(AllocError),
    }
}

/// A SACK, which is the only chunk beside DATA that comes often. The answer is whether the next chunk is looked at.
#[tactic(auto, using(sctp_endpoint::proofs::KeepsReadyLemmas::keeps_alone, sctp_endpoint::proofs::KeepsReadyLemmas::keeps_given, sctp_endpoint::proofs::KeepsReadyLemmas::keeps_same, sctp_endpoint::proofs::GoesOnLemmas::goes_on_same, sctp_endpoint::proofs::GoesOnLemmas::goes_on_through))]
fn receive_sack<C: Checksum>(
    state: &mut State,
    context: &mut Context<C>,
    raw: RawChunk<'_>,
) -> Result<bool, AllocError>
    ensures ok { (tag : ℕ) (words : Stream) (t : ChunkTree) → IsChunk (raw_chunk raw.entry) t → IfOk result (λ goes_on. record { end = record { endpoint_state = endpoint_state_of C.word_of state.new context.new; draws = words }; allows_next = goes_on }
        ≡ table.receive tag t (record { endpoint_state = endpoint_state_of C.word_of state.old context.old; draws = words })) }
    ensures goes_on { GoesOn context.old context.new }
    ensures ready { OnErr result (KeepsReady (state_of state.old) (state_of state.new)) }
{
    let sack = built_sack(context.alloc, raw)?;
    handle_sack(state, context, sack)?;
    Ok(true)
}

/// A chunk that carries no fragment: a SACK, or one that is built. The answer is whether the next one is looked at.
#[tactic(auto, using(sctp_endpoint::proofs::KeepsReadyLemmas::keeps_alone, sctp_endpoint::proofs::GoesOnLemmas::with_same, sctp_endpoint::proofs::GoesOnLemmas::with_quiet))]
fn receive_other<R: Rng, C: Checksum>(
    state: &mut State,
    context: &mut Context<C>,
    rng: &mut R,
    tag: u32,
    raw: RawChunk<'_>,
) -> Result<bool, AllocError>
    requires no_data { raw.typ ≡ 0 → length raw.value.now < 12 }
    requires no_idata { raw.typ ≡ 64 → length raw.value.now < 16 }
    ensures ok { (t : ChunkTree) → IsChunk (raw_chunk raw.entry) t → IfOk result (λ goes_on. after_chunk_of R.stream C.word_of state.new context.new rng.new goes_on
        ≡ table.receive tag t (endpoint_of R.stream C.word_of state.old context.old rng.old)) }
    ensures goes_on { GoesOnWith context.old context.new (state_of state.new) }
    ensures ready { OnErr result (KeepsReady (state_of state.old) (state_of state.new)) }
{
    if raw.typ == SackChunk::TYPE {
        return receive_sack(state, context, raw);
    }
    let chunk = built(context.alloc, raw)?;
    receive(state, context, rng, tag, chunk)
}

/// One chunk where it lies. DATA is received there, and others are built. The answer is whether the next one is looked at.
#[tactic(auto, using(sctp_endpoint::proofs::KeepsReadyLemmas::keeps_alone, sctp_endpoint::proofs::GoesOnLemmas::with_same, sctp_endpoint::proofs::GoesOnLemmas::with_quiet))]
fn receive_in_place<R: Rng, C: Checksum>(
    state: &mut State,
    context: &mut Context<C>,
    rng: &mut R,
    tag: u32,
    raw: RawChunk<'_>,
) -> Result<bool, AllocError>
    ensures ok { (t : ChunkTree) → IsChunk (raw_chunk raw.entry) t → IfOk result (λ goes_on. after_chunk_of R.stream C.word_of state.new context.new rng.new goes_on
        ≡ table.receive tag t (endpoint_of R.stream C.word_of state.old context.old rng.old)) }
    ensures goes_on { GoesOnWith context.old context.new (state_of state.new) }
    ensures ready { OnErr result (KeepsReady (state_of state.old) (state_of state.new)) }
{
    match raw.data_view() {
        Some(fragment) => receive_data(state, context, raw.typ == IDataChunk::TYPE, fragment),
        None => receive_other(state, context, rng, tag, raw),
    }
}

/// One chunk after the other.
#[tactic(auto, using(sctp_endpoint::proofs::GoesOnLemmas::continues_same, sctp_endpoint::proofs::GoesOnLemmas::continues_through, sctp_endpoint::proofs::GoesOnLemmas::continues_with))]
fn receive_all<R: Rng, C: Checksum>(
    state: &mut State,
    context: &mut Context<C>,
    rng: &mut R,
    tag: u32,
    mut view: PacketView<'_>,
) -> Result<(), AllocError>
    ensures ok { (chunks : List ChunkTree) → AreLeft view.entry chunks → OnOk result (endpoint_of R.stream C.word_of state.new context.new rng.new
        ≡ table.receive_all tag chunks (endpoint_of R.stream C.word_of state.old context.old rng.old)) }
    ensures goes_on { Continues context.old context.new }
    ensures stops { (chunks : List ChunkTree) → AreLeft view.entry chunks → OnErr result (StopsAmong tag chunks (endpoint_of R.stream C.word_of state.old context.old rng.old) (endpoint_state_of C.word_of state.new context.new)) }
{
    while let Some(raw) = view.next_chunk() {
        if !receive_in_place(state, context, rng, tag, raw)? {
            return Ok(());
        }
    }
    Ok(())
}

#[tactic(auto, using(sctp_endpoint::proofs::GoesOnLemmas::goes_on_same, sctp_endpoint::proofs::GoesOnLemmas::goes_on_through))]
fn repeat_if<C: Checksum>(
    state: &mut State,
    context: &mut Context<C>,
    view: &PacketView<'_>,
) -> Result<(), AllocError>
    ensures ok { (chunks : List ChunkTree) → AreLeft view.now chunks
        → OnOk result (endpoint_state_of C.word_of state.new context.new ≡ table.repeats_if (table.has_data_chunk chunks) (endpoint_state_of C.word_of state.old context.old)) }
    ensures goes_on { GoesOn context.old context.new }
    ensures received { ready_in (state_of state.new) ≡ ready_in (state_of state.old) }
{
    match state {
        State::Closed | State::CookieWait(_) => Ok(()),
        State::Open(phase, tcb) => repeat_shutdown(context, phase, tcb, view),
    }
}

#[tactic(auto, using(sctp_endpoint::proofs::GoesOnLemmas::goes_on_same, sctp_endpoint::proofs::GoesOnLemmas::goes_on_through))]
fn on_packet_end<C: Checksum>(state: &mut State, context: &mut Context<C>) -> Result<(), AllocError>
    ensures ok { OnOk result (endpoint_state_of C.word_of state.new context.new ≡ where_open table.on_packet_end (endpoint_state_of C.word_of state.old context.old)) }
    ensures goes_on { GoesOn context.old context.new }
    ensures received { ready_in (state_of state.new) ≡ ready_in (state_of state.old) }
{
    match state {
        State::Closed | State::CookieWait(_) => Ok(()),
        State::Open(phase, tcb) => end_packet(context, phase, tcb),
    }
}

/// The chunks of a packet that is taken.
#[tactic(auto, using(sctp_endpoint::proofs::GoesOnLemmas::continues_by, sctp_endpoint::proofs::GoesOnLemmas::continues_behind, sctp_endpoint::proofs::GoesOnLemmas::continues_on))]
fn handle_accepted_packet<R: Rng, C: Checksum>(
    state: &mut State,
    context: &mut Context<C>,
    rng: &mut R,
    tag: u32,
    view: PacketView<'_>,
) -> Result<(), AllocError>
    ensures ok { (chunks : List ChunkTree) → AreLeft view.entry chunks
        → OnOk result (endpoint_of R.stream C.word_of state.new context.new rng.new ≡ table.on_accepted_packet tag chunks (endpoint_of R.stream C.word_of state.old context.old rng.old)) }
    ensures goes_on { Continues context.old context.new }
    ensures stops { (chunks : List ChunkTree) → AreLeft view.entry chunks
        → OnErr result (StopsAmong tag chunks (table.in_endpoint_state (table.repeats_if (table.has_data_chunk chunks)) (endpoint_of R.stream C.word_of state.old context.old rng.old)) (endpoint_state_of C.word_of state.new context.new)) }
{
    repeat_if(state, context, &view)?;
    receive_all(state, context, rng, tag, view)?;
    on_packet_end(state, context)
}

/// A packet that could be read, where it lies.
#[tactic(auto, using(crate::proofs::InterruptedLemmas::stops_quietly, sctp_endpoint::proofs::GoesOnLemmas::continues_by, sctp_endpoint::proofs::GoesOnLemmas::continues_behind, sctp_endpoint::proofs::GoesOnLemmas::goes_on_through))]
pub(crate) fn handle_packet<R: Rng, C: Checksum>(
    state: &mut State,
    context: &mut Context<C>,
    rng: &mut R,
    view: PacketView<'_>,
) -> Result<(), AllocError>
    ensures ok { (chunks : List ChunkTree) → AreLeft view.entry chunks → OnOk result (endpoint_of R.stream C.word_of state.new context.new rng.new
        ≡ table.on_packet (viewed_packet view.entry chunks) (endpoint_of R.stream C.word_of state.old context.old rng.old)) }
    ensures goes_on { Continues context.old context.new }
    ensures stops { (chunks : List ChunkTree) → AreLeft view.entry chunks → OnErr result (StopsPacket (viewed_packet view.entry chunks) (endpoint_of R.stream C.word_of state.old context.old rng.old) (endpoint_state_of C.word_of state.new context.new)) }
{
    count_packet(context);
    let tag = view.header().verification_tag;
    match refusal_of(state, &view) {
        None => handle_accepted_packet(state, context, rng, tag, view),
        Some(refusal) => {
            let text = refusal.text(context.alloc)?;
            context.emit_event(SocketEvent::OnError(ErrorKind::ParseFailed, text))
        }
    }
}

/// Bytes that are no packet.
#[tactic(auto, using(sctp_endpoint::proofs::GoesOnLemmas::goes_on_same, sctp_endpoint::proofs::GoesOnLemmas::goes_on_through))]
fn refuse_bytes<C: Checksum>(context: &mut Context<C>) -> Result<(), AllocError>
    ensures ok { OnOk result (context_of C.word_of context.new
        ≡ emit_error ErrorKind.ParseFailed (codes "Failed to parse SCTP packet") (table.count_packet (context_of C.word_of context.old))) }
    ensures goes_on { GoesOn context.old context.new }
{
    count_packet(context);
    context.emit_error(ErrorKind::ParseFailed, "Failed to parse SCTP packet")
}

/// The bytes of a packet that came.
#[tactic(auto, using(sctp_endpoint::proofs::GoesOnLemmas::continues_by))]
pub(crate) fn handle_input<R: Rng, C: Checksum>(
    state: &mut State,
    context: &mut Context<C>,
    rng: &mut R,
    bytes: &[u8],
) -> Result<(), AllocError>
    ensures ok { OnOk result (Receives (C.word_of context.old.checksum) bytes.now (endpoint_of R.stream C.word_of state.old context.old rng.old)
        (endpoint_of R.stream C.word_of state.new context.new rng.new)) }
    ensures goes_on { Continues context.old context.new }
    ensures stops { OnErr result (StopsIn (C.word_of context.old.checksum) bytes.now (endpoint_of R.stream C.word_of state.old context.old rng.old) (endpoint_state_of C.word_of state.new context.new)) }
{
    let word = packet_word(context, bytes);
    match PacketView::new(bytes, word, &policy(context)) {
        Ok(view) => handle_packet(state, context, rng, view),
        Err(_) => refuse_bytes(context),
    }
}
