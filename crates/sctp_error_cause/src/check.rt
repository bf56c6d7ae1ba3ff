//! Causes checked where they lie: nothing is built, and no memory is taken.

ghost use Rattle.std.specs.Prelude.{◌≢◌, OnOk, IfErr};
ghost use Rattle.sctp_wire.specs.Shape.{HasShape};
ghost use Rattle.sctp_wire.specs.Cause.{CauseTree, SaysCause, cause_shape, RefusesCauseAs};

use crate::cause::{
    CookieReceivedWhileShuttingDownErrorCause, MissingMandatoryParameterErrorCause,
    NoUserDataErrorCause,
};
use sctp_wire::{ChunkParseError, check_exactly, u32_at};

/// Whether a cause of this type with this value says something.
pub fn check_value(typ: u16, value: &[u8]) -> Result<(), ChunkParseError>
    ensures ok { OnOk result ((t : CauseTree) × SaysCause typ value.now t) }
    ensures refused { IfErr result (RefusesCauseAs typ typ value.now) }
    ensures never_memory { IfErr result (λ fault. fault ≢ ChunkParseError.Memory) }
{
    check_shape(typ, value)
}

/// Whether the value's length is one that the type allows.
fn check_shape(typ: u16, value: &[u8]) -> Result<(), ChunkParseError>
    ensures ok { OnOk result (HasShape (cause_shape typ) value.now) }
    ensures refused { IfErr result (RefusesCauseAs typ typ value.now) }
    ensures never_memory { IfErr result (λ fault. fault ≢ ChunkParseError.Memory) }
{
    match typ {
        MissingMandatoryParameterErrorCause::TYPE => check_counted(value),
        NoUserDataErrorCause::TYPE => check_exactly(4, value),
        CookieReceivedWhileShuttingDownErrorCause::TYPE => check_exactly(0, value),
        _ => Ok(()),
    }
}

/// A number of four bytes, and as many types of two bytes.
fn check_counted(value: &[u8]) -> Result<(), ChunkParseError>
    ensures ok { OnOk result (HasShape (cause_shape 2) value.now) }
    ensures refused { IfErr result (RefusesCauseAs 2 2 value.now) }
    ensures never_memory { IfErr result (λ fault. fault ≢ ChunkParseError.Memory) }
{
    let (count, types) = u32_at(value)?;
    if types.len() != 2 * count as usize {
        return Err(ChunkParseError::InvalidLength);
    }
    Ok(())
}
