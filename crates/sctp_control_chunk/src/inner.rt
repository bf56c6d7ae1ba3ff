//! The items inside a chunk: parameters and causes.

ghost use Rattle.std.specs.Prelude.{◌≡◌, ◌+◌, ◌^◌, ◌-◌, ◌<◌, min, true, ◌++◌, length, map, OnOk};
ghost use Rattle.std.specs.List.{list_all};
ghost use Rattle.sctp_wire.specs.Room.{Fills};
ghost use Rattle.sctp_wire.specs.Serialize.{inner_items};
ghost use Rattle.sctp_wire.specs.Parameter.{parameter_item, parameter_is_whole};
ghost use Rattle.sctp_parameter.specs.ParameterViews.{parameter_tree};
ghost use Rattle.sctp_wire.specs.Cause.{cause_item};
ghost use Rattle.sctp_error_cause.specs.CauseViews.{cause_tree};

use sctp_error_cause::ErrorCause;
use sctp_parameter::Parameter;
use sctp_wire::{SerializableTlv, parameters_serialize_to, parameters_serialized_size};
use std::alloc::AllocError;

/// Whether each parameter is whole.
pub fn are_whole(parameters: &[Parameter]) -> bool
    ensures { result ≡ list_all parameter_is_whole (map parameter_tree parameters.now) }
{
    for parameter in parameters {
        if !parameter.is_whole() {
            return false;
        }
    }
    true
}

/// The length of the parameters as a value, in bytes; `usize::MAX` where it is greater still.
pub fn parameters_size(parameters: &[Parameter]) -> usize
    ensures { result ≡ min (length (inner_items (map parameter_item (map parameter_tree parameters.now)))) (2 ^ 64 - 1) }
{
    parameters_serialized_size(parameters)
}

/// Appends the parameters as a value.
pub fn push_parameters(parameters: &[Parameter], output: &mut Vec<u8>) -> Result<(), AllocError>
    requires fits { 4 + length (inner_items (map parameter_item (map parameter_tree parameters.now))) < 2 ^ 16 }
    requires whole { list_all parameter_is_whole (map parameter_tree parameters.now) ≡ true }
    ensures wrote { OnOk result (output.new.items ≡ output.old.items ++ inner_items (map parameter_item (map parameter_tree parameters.now))) }
    ensures room { Fills output.old output.new (length (inner_items (map parameter_item (map parameter_tree parameters.now)))) result }
{
    parameters_serialize_to(parameters, output)
}

/// The length of the causes as a value, in bytes; `usize::MAX` where it is greater still.
pub fn causes_size(causes: &[ErrorCause]) -> usize
    ensures { result ≡ min (length (inner_items (map cause_item (map cause_tree causes.now)))) (2 ^ 64 - 1) }
{
    parameters_serialized_size(causes)
}

/// Appends the causes as a value.
pub fn push_causes(causes: &[ErrorCause], output: &mut Vec<u8>) -> Result<(), AllocError>
    requires { 4 + length (inner_items (map cause_item (map cause_tree causes.now))) < 2 ^ 16 }
    ensures wrote { OnOk result (output.new.items ≡ output.old.items ++ inner_items (map cause_item (map cause_tree causes.now))) }
    ensures room { Fills output.old output.new (length (inner_items (map cause_item (map cause_tree causes.now)))) result }
{
    parameters_serialize_to(causes, output)
}
