//! Chunks checked where they lie: nothing is built, and no memory is taken.

ghost use Rattle.std.specs.Prelude.{◌≢◌, OnOk, IfErr};
ghost use Rattle.sctp_chunk.specs.Chunk.{ChunkTree};
ghost use Rattle.sctp_chunk.specs.Grammar.{IsChunk, RefusesChunk, value_shape, parameters_behind, HasChunkShape, IsFaulty};

use crate::cookie::{CookieAckChunk, CookieEchoChunk};
use crate::error::{AbortChunk, ErrorChunk};
use crate::heartbeat::{HeartbeatAckChunk, HeartbeatRequestChunk};
use crate::init::{InitAckChunk, InitChunk};
use crate::re_config::ReConfigChunk;
use crate::shutdown::{ShutdownAckChunk, ShutdownChunk, ShutdownCompleteChunk};
use sctp_chunk::{DataChunk, ForwardTsnChunk, IDataChunk, IForwardTsnChunk, SackChunk};
use sctp_error_cause::check_causes;
use sctp_parameter::check_parameters;
use sctp_wire::{ChunkParseError, check_at_least, check_exactly, check_in_steps};

/// Whether a chunk of this type with this value says something, whatever its flags.
pub fn check_value(typ: u8, flags: u8, value: &[u8]) -> Result<(), ChunkParseError>
    ensures ok { OnOk result ((t : ChunkTree) × IsChunk (record { first = typ; second = flags; value = value.now }) t) }
    ensures refused { IfErr result (RefusesChunk (record { first = typ; second = flags; value = value.now })) }
    ensures never_memory { IfErr result (λ fault. fault ≢ ChunkParseError.Memory) }
{
    // (one byte, as its type says)
    let _ = flags;
    check_shape(typ, value)
}

/// Whether the value is one that the type allows.
fn check_shape(typ: u8, value: &[u8]) -> Result<(), ChunkParseError>
    ensures ok { OnOk result (HasChunkShape (value_shape typ) value.now) }
    ensures refused { IfErr result (IsFaulty (value_shape typ) value.now) }
    ensures never_memory { IfErr result (λ fault. fault ≢ ChunkParseError.Memory) }
{
    match typ {
        DataChunk::TYPE => check_at_least(12, value),
        InitChunk::TYPE => check_parameters_behind(16, value),
        InitAckChunk::TYPE => check_parameters_behind(16, value),
        SackChunk::TYPE => SackChunk::check_value(value),
        HeartbeatRequestChunk::TYPE => check_parameters_behind(0, value),
        HeartbeatAckChunk::TYPE => check_parameters_behind(0, value),
        AbortChunk::TYPE => check_causes(value),
        ShutdownChunk::TYPE => check_exactly(4, value),
        ShutdownAckChunk::TYPE => check_exactly(0, value),
        ErrorChunk::TYPE => check_causes(value),
        CookieEchoChunk::TYPE => check_at_least(1, value),
        CookieAckChunk::TYPE => check_exactly(0, value),
        ShutdownCompleteChunk::TYPE => check_exactly(0, value),
        IDataChunk::TYPE => check_at_least(16, value),
        ReConfigChunk::TYPE => check_parameters_behind(0, value),
        ForwardTsnChunk::TYPE => check_in_steps(4, 4, value),
        IForwardTsnChunk::TYPE => check_in_steps(4, 8, value),
        _ => Ok(()),
    }
}

/// Fixed fields of so many bytes, and parameters behind them.
fn check_parameters_behind(fixed: usize, value: &[u8]) -> Result<(), ChunkParseError>
    ensures ok { OnOk result (HasChunkShape (parameters_behind fixed) value.now) }
    ensures refused { IfErr result (IsFaulty (parameters_behind fixed) value.now) }
    ensures never_memory { IfErr result (λ fault. fault ≢ ChunkParseError.Memory) }
{
    if value.len() < fixed {
        return Err(ChunkParseError::InvalidLength);
    }
    let (_fields, parameters) = value.split_at(fixed);
    check_parameters(parameters)
}
