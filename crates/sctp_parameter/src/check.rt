//! Parameters checked where they lie: nothing is built, and no memory is taken.

ghost use Rattle.std.specs.Prelude.{◌≢◌, OnOk, IfErr};
ghost use Rattle.sctp_wire.specs.Shape.{HasShape};
ghost use Rattle.sctp_wire.specs.Parameter.{ParameterTree, SaysParameter, parameter_shape, HasNoResult, RefusesParameterAs};

use crate::parameter::{ForwardTsnSupportedParameter, ZeroChecksumAcceptableParameter};
use crate::reset::{
    IncomingSsnResetRequestParameter, OutgoingSsnResetRequestParameter,
    ReconfigurationResponseParameter, ReconfigurationResponseResult,
};
use sctp_wire::{ChunkParseError, check_exactly, check_in_steps, first_u32};

/// Whether a parameter of this type with this value says something.
pub fn check_value(typ: u16, value: &[u8]) -> Result<(), ChunkParseError>
    ensures ok { OnOk result ((t : ParameterTree) × SaysParameter typ value.now t) }
    ensures refused { IfErr result (RefusesParameterAs typ typ value.now) }
    ensures never_memory { IfErr result (λ fault. fault ≢ ChunkParseError.Memory) }
{
    check_shape(typ, value)
}

/// Whether the value's length is one that the type allows, and a response's result one of the seven.
fn check_shape(typ: u16, value: &[u8]) -> Result<(), ChunkParseError>
    ensures ok { OnOk result (HasShape (parameter_shape typ) value.now × (HasNoResult typ value.now → ⊥)) }
    ensures refused { IfErr result (RefusesParameterAs typ typ value.now) }
    ensures never_memory { IfErr result (λ fault. fault ≢ ChunkParseError.Memory) }
{
    match typ {
        OutgoingSsnResetRequestParameter::TYPE => check_in_steps(12, 2, value),
        IncomingSsnResetRequestParameter::TYPE => check_in_steps(4, 2, value),
        ReconfigurationResponseParameter::TYPE => check_response(value),
        ZeroChecksumAcceptableParameter::TYPE => check_exactly(4, value),
        ForwardTsnSupportedParameter::TYPE => check_exactly(0, value),
        _ => Ok(()),
    }
}

fn check_response(value: &[u8]) -> Result<(), ChunkParseError>
    ensures ok { OnOk result (HasShape (parameter_shape 16) value.now × (HasNoResult 16 value.now → ⊥)) }
    ensures refused { IfErr result (RefusesParameterAs 16 16 value.now) }
    ensures never_memory { IfErr result (λ fault. fault ≢ ChunkParseError.Memory) }
{
    if value.len() != 8 && value.len() != 16 {
        return Err(ChunkParseError::InvalidLength);
    }
    let (_response_seq_nbr, rest) = first_u32(value);
    let (result, _tsns) = first_u32(rest);
    let _result = ReconfigurationResponseResult::try_from(result)?;
    Ok(())
}
