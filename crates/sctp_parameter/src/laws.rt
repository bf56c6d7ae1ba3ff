//! What holds of the definitions: parameters that are written are read back, what is read is not refused, and bytes say one
//! thing.

ghost use Rattle.std.specs.Prelude.{◌≡◌, ◌≢◌, ◌<◌, ◌^◌, ◌++◌, ℕ, List, [], map, All, IfSome};
ghost use Rattle.std.specs.List.{flat_map};
ghost use Rattle.sctp_wire.specs.declared.error.ChunkParseError.{ChunkParseError};
ghost use Rattle.sctp_wire.specs.Item.{Item, ParsesAll};
ghost use Rattle.sctp_wire.specs.Refusal.{FailsToParseAs};
ghost use Rattle.sctp_wire.specs.Serialize.{inner_items, padded_item};
ghost use Rattle.sctp_wire.specs.Parameter.{ParameterTree, ParameterFits, IsParameter, RefusesParameter, parameter_item};
ghost use Rattle.sctp_wire.specs.ReadBack.{ParameterReadsBack};
ghost use Rattle.sctp_parameter.specs.ParameterViews.{parameter_tree};

use crate::Parameter;
use sctp_serial::{StreamId, Tsn};
use sctp_wire::{ChunkParseError, id_fits, number_fits};

/// Parameters that are written one after the other, each with its padding, are read back as the same, whatever follows.
pub fn parameters_read_back()
    ensures padded { (ts : List ParameterTree) (rest : List ℕ) → All ParameterReadsBack ts
        → ParsesAll IsParameter (flat_map (λ t. padded_item (parameter_item t)) ts ++ rest) ts rest }
    ensures inner { (ts : List ParameterTree) → All ParameterReadsBack ts
        → ParsesAll IsParameter (inner_items (map parameter_item ts)) ts [] }
{}

/// An item that stands for a parameter is refused for want of memory alone.
pub fn parameter_is_not_refused()
    ensures { (i : Item) (t : ParameterTree) (fault : ChunkParseError) → IsParameter i t → RefusesParameter i fault
        → fault ≡ ChunkParseError.Memory }
{}

/// The numbers of a parameter fit their fields, as their types say.
pub fn parameter_fits(parameter: &Parameter)
    ensures { ParameterFits (parameter_tree parameter.now) }
{
    match parameter {
        Parameter::OutgoingSsnResetRequest(request) => {
            number_fits(request.request_seq_nbr);
            number_fits(request.response_seq_nbr);
            number_fits(request.sender_last_assigned_tsn.0);
            streams_fit(&request.streams);
        }
        Parameter::IncomingSsnResetRequest(request) => {
            number_fits(request.request_seq_nbr);
            streams_fit(&request.streams);
        }
        Parameter::ReconfigurationResponse(response) => {
            number_fits(response.response_seq_nbr);
            number_fits(response.result.number());
            tsn_fits(response.sender_next_tsn);
            tsn_fits(response.receiver_next_tsn);
        }
        Parameter::ZeroChecksumAcceptable(parameter) => number_fits(parameter.method.0),
        Parameter::HeartbeatInfo(_)
        | Parameter::StateCookie(_)
        | Parameter::SsnTsnResetRequest(_)
        | Parameter::AddOutgoingStreamsRequest(_)
        | Parameter::AddIncomingStreamsRequest(_)
        | Parameter::SupportedExtensions(_)
        | Parameter::ForwardTsnSupported(_)
        | Parameter::Unknown(_) => {}
    }
}

fn tsn_fits(tsn: Option<Tsn>)
    ensures { IfSome tsn (λ tsn. tsn.0 < 2 ^ 32) }
{
    if let Some(tsn) = tsn {
        number_fits(tsn.0);
    }
}

fn streams_fit(streams: &[StreamId])
    ensures { All (λ id. id.0 < 2 ^ 16) streams.now }
{
    for stream in streams {
        id_fits(stream.0);
    }
}

/// An item stands for at most one parameter.
pub fn one_parameter()
    ensures { (i : Item) (t u : ParameterTree) → IsParameter i t → IsParameter i u → t ≡ u }
{}

/// Bytes are at most one list of parameters, and a list that is refused has one fault.
pub fn one_list_of_parameters()
    ensures values { (bytes : List ℕ) (ts us : List ParameterTree) → ParsesAll IsParameter bytes ts [] → ParsesAll IsParameter bytes us [] → ts ≡ us }
    ensures never_both { (bytes : List ℕ) (ts : List ParameterTree) (fault : ChunkParseError) → ParsesAll IsParameter bytes ts []
        → FailsToParseAs IsParameter RefusesParameter bytes fault → fault ≢ ChunkParseError.Memory → ⊥ }
    ensures fault { (bytes : List ℕ) (fault other : ChunkParseError) → FailsToParseAs IsParameter RefusesParameter bytes fault
        → FailsToParseAs IsParameter RefusesParameter bytes other → fault ≢ ChunkParseError.Memory → other ≢ ChunkParseError.Memory → fault ≡ other }
{}
