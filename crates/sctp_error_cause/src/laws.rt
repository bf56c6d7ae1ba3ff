//! What holds of the definitions: causes that are written are read back, what is read is not refused, and bytes say one
//! thing.

ghost use Rattle.std.specs.Prelude.{◌≡◌, ◌≢◌, ◌<◌, ◌^◌, ◌++◌, ℕ, List, [], map, All};
ghost use Rattle.std.specs.List.{flat_map};
ghost use Rattle.sctp_wire.specs.declared.error.ChunkParseError.{ChunkParseError};
ghost use Rattle.sctp_wire.specs.Item.{Item, ParsesAll};
ghost use Rattle.sctp_wire.specs.Refusal.{FailsToParseAs};
ghost use Rattle.sctp_wire.specs.Serialize.{IsEncodable, inner_items, padded_item};
ghost use Rattle.sctp_wire.specs.Cause.{CauseTree, CauseFits, IsCause, RefusesCause, cause_item};
ghost use Rattle.sctp_wire.specs.ReadBack.{CauseReadsBack, IsText};
ghost use Rattle.sctp_error_cause.specs.CauseViews.{cause_tree};

use crate::ErrorCause;
use sctp_wire::{ChunkParseError, id_fits, number_fits};

/// Causes that are written one after the other, each with its padding, are read back as the same, whatever follows.
pub fn causes_read_back()
    ensures padded { (ts : List CauseTree) (rest : List ℕ) → All CauseReadsBack ts
        → ParsesAll IsCause (flat_map (λ t. padded_item (cause_item t)) ts ++ rest) ts rest }
    ensures inner { (ts : List CauseTree) → All CauseReadsBack ts
        → ParsesAll IsCause (inner_items (map cause_item ts)) ts [] }
{}

/// An item that stands for a cause is refused for want of memory alone.
pub fn cause_is_not_refused()
    ensures { (i : Item) (t : CauseTree) (fault : ChunkParseError) → IsCause i t → RefusesCause i fault
        → fault ≡ ChunkParseError.Memory }
{}

/// The numbers of a cause that can be written fit their fields, and its text is UTF-8, as their types say.
#[tactic(auto, using(crate::proofs::CauseLemmas::few_types))]
pub fn cause_fits(cause: &ErrorCause)
    requires { IsEncodable (cause_item (cause_tree cause.now)) }
    ensures fits { CauseFits (cause_tree cause.now) }
    ensures text { IsText (cause_tree cause.now) }
{
    match cause {
        ErrorCause::MissingMandatoryParameter(missing) => {
            types_fit(&missing.missing_parameter_types);
        }
        ErrorCause::NoUserData(cause) => number_fits(cause.tsn.0),
        ErrorCause::UserInitiatedAbort(cause) => {
            let _ = cause.reason.as_str();
        }
        ErrorCause::ProtocolViolation(cause) => {
            let _ = cause.information.as_str();
        }
        _ => {}
    }
}

fn types_fit(types: &[u16])
    ensures { All (λ typ. typ < 2 ^ 16) types.now }
{
    for typ in types {
        id_fits(*typ);
    }
}

/// An item stands for at most one cause.
pub fn one_cause()
    ensures { (i : Item) (t u : CauseTree) → IsCause i t → IsCause i u → t ≡ u }
{}

/// Bytes are at most one list of causes, and a list that is refused has one fault.
pub fn one_list_of_causes()
    ensures values { (bytes : List ℕ) (ts us : List CauseTree) → ParsesAll IsCause bytes ts [] → ParsesAll IsCause bytes us [] → ts ≡ us }
    ensures never_both { (bytes : List ℕ) (ts : List CauseTree) (fault : ChunkParseError) → ParsesAll IsCause bytes ts []
        → FailsToParseAs IsCause RefusesCause bytes fault → fault ≢ ChunkParseError.Memory → ⊥ }
    ensures fault { (bytes : List ℕ) (fault other : ChunkParseError) → FailsToParseAs IsCause RefusesCause bytes fault
        → FailsToParseAs IsCause RefusesCause bytes other → fault ≢ ChunkParseError.Memory → other ≢ ChunkParseError.Memory → fault ≡ other }
{}
