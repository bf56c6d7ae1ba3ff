//! The whole record.

ghost use Rattle.std.specs.Prelude.{◌≡◌, ◌++◌, IfErr, IfOk, IsTrue, ◌↔◌, OnOk};
ghost use Rattle.sctp_state.specs.Handover.{HandoverState, handover_state_of};
ghost use Rattle.sctp_handover.specs.Bounds.{RecordFits};
ghost use Rattle.sctp_handover.specs.Bytes.{is_connected, record_bytes};
ghost use Rattle.sctp_handover.specs.Reads.{state_if};
ghost use Rattle.sctp_handover.specs.declared.record.RecordFault.TheVariants.{Memory as no_memory};

use crate::field::{flags_at, number32_at, number64_at, push_flags, push_numbers32};
use crate::section::{
    capabilities_at, push_capabilities, push_reception, push_transmission, reception_at,
    transmission_at,
};
use sctp_state::SocketHandoverState;
use sctp_state::api::handover::HandoverSocketState;
use sctp_wire::{push_u32, push_u64};
use std::alloc::{AllocError, Global};
use thiserror::Error;

/// The number that a record begins with. Another layout has another one.
pub const VERSION: u32 = 1;

/// Why bytes were not read.
#[derive(Clone, Copy, Debug, Error)]
pub enum RecordFault {
    /// They are not what a record is written as.
    #[error("not a record of a socket")]
    NotARecord,
    /// There was no memory for what was read.
    #[error("out of memory")]
    Memory,
}

impl From<AllocError> for RecordFault {
    ghost from_gives = { λ _ e. e ≡ no_memory };

    fn from(_e: AllocError) -> RecordFault {
        RecordFault::Memory
    }
}

fn state_of(is_connected: bool) -> HandoverSocketState
    ensures { result ≡ state_if is_connected }
{
    if is_connected {
        HandoverSocketState::Connected
    } else {
        HandoverSocketState::Closed
    }
}

fn is_connected(state: HandoverSocketState) -> bool
    ensures { result ≡ is_connected state }
{
    match state {
        HandoverSocketState::Closed => false,
        HandoverSocketState::Connected => true,
    }
}

/// What the bytes are read as, where they are a record. The version is not looked at: it is written again as it has to be.
fn record_at(alloc: Global, bytes: &[u8]) -> Result<SocketHandoverState, AllocError>
    ensures { IfOk result (λ s. (h : HandoverState) → RecordFits h → bytes.now ≡ record_bytes h → handover_state_of s ≡ h) }
{
    let (_version, rest) = number32_at(bytes);
    let ((is_connected, _, _, _), rest) = flags_at(rest);
    let (my_verification_tag, rest) = number32_at(rest);
    let (my_initial_tsn, rest) = number32_at(rest);
    let (peer_verification_tag, rest) = number32_at(rest);
    let (peer_initial_tsn, rest) = number32_at(rest);
    let (tie_tag, rest) = number64_at(rest);
    let (capabilities, rest) = capabilities_at(rest);
    let (rx, rest) = reception_at(alloc, rest)?;
    let (tx, _end) = transmission_at(alloc, rest)?;
    Ok(SocketHandoverState {
        socket_state: state_of(is_connected),
        my_verification_tag,
        my_initial_tsn,
        peer_verification_tag,
        peer_initial_tsn,
        tie_tag,
        capabilities,
        tx,
        rx,
    })
}

fn push_record(output: &mut Vec<u8>, state: &SocketHandoverState) -> Result<(), AllocError>
    ensures wrote { OnOk result (output.new.items ≡ output.old.items ++ record_bytes (handover_state_of state.now)) }
    ensures fits { OnOk result (RecordFits (handover_state_of state.now)) }
{
    push_u32(output, VERSION)?;
    push_flags(
        output,
        is_connected(state.socket_state),
        false,
        false,
        false,
    )?;
    push_numbers32(
        output,
        &[
            state.my_verification_tag,
            state.my_initial_tsn,
            state.peer_verification_tag,
            state.peer_initial_tsn,
        ],
    )?;
    push_u64(output, state.tie_tag)?;
    push_capabilities(output, &state.capabilities)?;
    push_reception(output, &state.rx)?;
    push_transmission(output, &state.tx)
}

/// A record as bytes. Without memory there are none.
pub fn to_bytes(alloc: Global, state: &SocketHandoverState) -> Result<Vec<u8>, AllocError>
    ensures wrote { IfOk result (λ output. output.items ≡ record_bytes (handover_state_of state.now)) }
    ensures fits { OnOk result (RecordFits (handover_state_of state.now)) }
{
    let mut output = Vec::new(alloc);
    push_record(&mut output, state)?;
    Ok(output)
}

/// Whether this is what the record is written as.
fn is_written_as(
    alloc: Global,
    state: &SocketHandoverState,
    bytes: &[u8],
) -> Result<bool, AllocError>
    ensures same { IfOk result (λ is. IsTrue is ↔ (record_bytes (handover_state_of state.now) ≡ bytes.now)) }
    ensures fits { OnOk result (RecordFits (handover_state_of state.now)) }
{
    let written = to_bytes(alloc, state)?;
    Ok(written.as_slice() == bytes)
}

/// The record that the bytes are: what was written is read as the same record, else `NotARecord`; `Memory` where that lacks.
pub fn from_bytes(alloc: Global, bytes: &[u8]) -> Result<SocketHandoverState, RecordFault>
    ensures only { IfOk result (λ s. bytes.now ≡ record_bytes (handover_state_of s)) }
    ensures fits { IfOk result (λ s. RecordFits (handover_state_of s)) }
    ensures back { IfOk result (λ s. (h : HandoverState) → RecordFits h → bytes.now ≡ record_bytes h → handover_state_of s ≡ h) }
    ensures refused { IfErr result (λ e. e ≡ RecordFault.NotARecord → (h : HandoverState) → RecordFits h → bytes.now ≡ record_bytes h → ⊥) }
{
    let state = record_at(alloc, bytes)?;
    match is_written_as(alloc, &state, bytes) {
        Ok(true) => Ok(state),
        Ok(false) => {
            drop(state);
            Err(RecordFault::NotARecord)
        }
        Err(_error) => {
            drop(state);
            Err(RecordFault::Memory)
        }
    }
}
