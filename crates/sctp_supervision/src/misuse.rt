//! Chunks that what was negotiated forbids, and chunks of unknown types (RFC 8260, RFC 3758, RFC 9260 section 3.2).

ghost use Rattle.std.specs.Prelude.{◌≡◌, ◌++◌, codes, option_map, string_bytes, take, OnOk, IfOk};
ghost use Rattle.sctp_packet.specs.ChunkText.{chunk_text};
ghost use Rattle.sctp_packet.specs.ChunkView.{chunk_tree};
ghost use Rattle.sctp_control_chunk.specs.Views.{unknown_tree};
ghost use Rattle.sctp_wire.specs.Item.{item_bytes};
ghost use Rattle.sctp_packet.specs.Written.{chunk_item};
ghost use Rattle.sctp_capabilities.specs.Capabilities.{capabilities_of};
ghost use Rattle.sctp_endpoint.specs.GoesOn.{GoesOn};
ghost use Rattle.sctp_endpoint.specs.Views.{context_of, endpoint_state_of, state_of, tcb_of};
ghost use Rattle.sctp_supervision.specs.MisuseView.{data_misused, misuse_text};
ghost use Rattle.spec_endpoint.specs.Packets.{emit_chunk};
ghost use Rattle.spec_endpoint.specs.Input as table;

use sctp_capabilities::Capabilities;
use sctp_endpoint::{Context, State, TransmissionControlBlock};
use sctp_error_cause::{ErrorCause, UnrecognizedChunkErrorCause};
use sctp_packet::{Chunk, ErrorChunk, UnknownChunk};
use sctp_state::{ErrorKind, SocketEvent};
use sctp_wire::Checksum;
use std::alloc::{AllocError, Global};

/// How a chunk breaks what was negotiated.
#[derive(Clone, Copy, Debug)]
pub enum Misuse {
    /// DATA or FORWARD-TSN, though messages are interleaved.
    NotInterleaved,
    /// I-DATA or I-FORWARD-TSN, though messages aren't interleaved.
    Interleaved,
    /// FORWARD-TSN or I-FORWARD-TSN, without partial reliability.
    Forward,
}

impl Misuse {
    /// What goes to the peer, and what is emitted.
    pub fn text(self) -> &'static str
        ensures { result.now ≡ misuse_text self }
    {
        match self {
            Misuse::NotInterleaved => {
                "DATA/FORWARD-TSN chunk received when message interleaving is negotiated"
            }
            Misuse::Interleaved => {
                "I-DATA/I-FORWARD-TSN chunk received when message interleaving is not negotiated"
            }
            Misuse::Forward => {
                "FORWARD-TSN/I-FORWARD-TSN chunk received when partial reliability is not negotiated"
            }
        }
    }
}

fn unless(is_right: bool, misuse: Misuse) -> Option<Misuse>
    ensures { option_map misuse_text result ≡ table.unless is_right (misuse_text misuse) }
{
    if is_right { None } else { Some(misuse) }
}

fn forward_misused(is_of_mode: bool, mode: Misuse, is_partial: bool) -> Option<Misuse>
    ensures { option_map misuse_text result ≡ table.forward_misused is_of_mode (misuse_text mode) is_partial }
{
    if is_of_mode {
        unless(is_partial, Misuse::Forward)
    } else {
        Some(mode)
    }
}

/// How a fragment, in I-DATA where `is_interleaved` says so and else in DATA, breaks what was negotiated, if it does.
pub fn data_misused(is_negotiated: bool, is_interleaved: bool) -> Option<Misuse>
    ensures { option_map misuse_text result ≡ data_misused is_negotiated is_interleaved }
{
    if is_interleaved {
        unless(is_negotiated, Misuse::Interleaved)
    } else {
        unless(!is_negotiated, Misuse::NotInterleaved)
    }
}

/// How a chunk breaks what was negotiated, if it does.
pub fn misused(capabilities: &Capabilities, chunk: &Chunk) -> Option<Misuse>
    ensures { option_map misuse_text result ≡ table.misuse (capabilities_of capabilities.now) (chunk_tree chunk.now) }
{
    let is_interleaved = capabilities.message_interleaving;
    let is_partial = capabilities.partial_reliability;
    match chunk {
        Chunk::Data(_) => data_misused(is_interleaved, false),
        Chunk::IData(_) => data_misused(is_interleaved, true),
        Chunk::ForwardTsn(_) => {
            forward_misused(!is_interleaved, Misuse::NotInterleaved, is_partial)
        }
        Chunk::IForwardTsn(_) => {
            forward_misused(is_interleaved, Misuse::Interleaved, is_partial)
        }
        _ => None,
    }
}

/// How a chunk breaks what was negotiated, if it does.
pub fn violation(state: &State, chunk: &Chunk) -> Option<Misuse>
    ensures { option_map misuse_text result ≡ table.violation (state_of state.now) (chunk_tree chunk.now) }
{
    match state {
        State::Closed | State::CookieWait(_) => None,
        State::Open(_, tcb) => misused(&tcb.capabilities, chunk),
    }
}

/// Two bits of an unknown chunk's type say whether to report it, and whether to go on (RFC 9260 section 3.2).
fn is_reported(typ: u8) -> bool
    ensures { result ≡ table.is_reported typ }
{
    typ / 64 % 2 == 1
}

/// Whether the chunks behind an unknown one are received: the highest bit of its type (RFC 9260 section 3.2).
pub fn is_passed_over(typ: u8) -> bool
    ensures { result ≡ table.is_passed_over typ }
{
    typ / 128 == 1
}

/// The bytes of an unknown chunk, at most so many.
fn first_bytes(alloc: Global, chunk: &UnknownChunk, most: usize) -> Result<Vec<u8>, AllocError>
    ensures { IfOk result (λ bytes. bytes.items ≡ take most (item_bytes (chunk_item (unknown_tree chunk.now)))) }
{
    let size = ((4 + chunk.value.len()) % 65536) as u16;
    let mut bytes = Vec::new(alloc);
    bytes.push(chunk.typ)?;
    bytes.push(chunk.flags)?;
    bytes.extend_from_slice(&size.to_be_bytes())?;
    bytes.extend_from_slice(&chunk.value)?;
    bytes.truncate(most);
    Ok(bytes)
}

/// An ERROR with as much of an unknown chunk as a packet holds.
#[tactic(auto, using(sctp_endpoint::proofs::GoesOnLemmas::goes_on_same, sctp_endpoint::proofs::GoesOnLemmas::goes_on_through))]
fn report_unrecognized<C: Checksum>(
    context: &mut Context<C>,
    tcb: &TransmissionControlBlock,
    chunk: &UnknownChunk,
) -> Result<(), AllocError>
    ensures ok { let u = chunk.now in OnOk result (context_of C.word_of context.new
        ≡ emit_chunk (table.unrecognized_chunk_error context.old.options.mtu u.typ u.flags u.value.items) (tcb_of tcb.now) (context_of C.word_of context.old)) }
    ensures goes_on { GoesOn context.old context.new }
{
    let most = (context.options.mtu / 4 * 4).saturating_sub(20);
    let chunk = first_bytes(context.alloc, chunk, most)?;
    let mut error_causes = Vec::new(context.alloc);
    error_causes.push(ErrorCause::UnrecognizedChunk(UnrecognizedChunkErrorCause { chunk }))?;
    context.emit_chunk(tcb, Chunk::Error(ErrorChunk { error_causes }))
}

#[tactic(auto, using(sctp_endpoint::proofs::GoesOnLemmas::goes_on_same, sctp_endpoint::proofs::GoesOnLemmas::goes_on_through))]
fn emit_unknown_chunk_error<C: Checksum>(
    context: &mut Context<C>,
    chunk: &UnknownChunk,
) -> Result<(), AllocError>
    ensures ok { let u = chunk.now in OnOk result (context_of C.word_of context.new ≡ table.emit_unknown_chunk_error u.typ u.flags u.value.items (context_of C.word_of context.old)) }
    ensures goes_on { GoesOn context.old context.new }
{
    let text = unknown_text(context.alloc, chunk)?;
    context.emit_event(SocketEvent::OnError(ErrorKind::ParseFailed, text))
}

/// What is emitted of a chunk of unknown type.
fn unknown_text(alloc: Global, chunk: &UnknownChunk) -> Result<String, AllocError>
    ensures { IfOk result (λ text. string_bytes text ≡ codes "Received " ++ (chunk_text (unknown_tree chunk.now) ++ codes ", ")) }
{
    format!(in alloc; "Received {chunk}, ")
}

/// A chunk of unknown type. Where its type says so, it is reported to the user and the peer.
#[tactic(auto, using(sctp_endpoint::proofs::GoesOnLemmas::goes_on_same, sctp_endpoint::proofs::GoesOnLemmas::goes_on_through))]
pub fn handle_unknown<C: Checksum>(
    state: &State,
    context: &mut Context<C>,
    chunk: &UnknownChunk,
) -> Result<(), AllocError>
    ensures ok { let u = chunk.now in OnOk result (endpoint_state_of C.word_of state.now context.new
        ≡ table.on_unknown u.typ u.flags u.value.items (endpoint_state_of C.word_of state.now context.old)) }
    ensures goes_on { GoesOn context.old context.new }
{
    if !is_reported(chunk.typ) {
        return Ok(());
    }
    emit_unknown_chunk_error(context, chunk)?;
    match state {
        State::Closed | State::CookieWait(_) => Ok(()),
        State::Open(_, tcb) => report_unrecognized(context, tcb, chunk),
    }
}
