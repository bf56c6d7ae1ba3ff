//! Lists, behind their lengths.

ghost use Rattle.std.specs.Prelude.{◌≡◌, ℕ, List, ◌++◌, length, map, All, IfOk, OnOk};
ghost use Rattle.std.specs.List.{flat_map};
ghost use Rattle.sctp_handover.specs.Bounds.{ListFits};
ghost use Rattle.sctp_handover.specs.Bytes.{list_bytes};
ghost use Rattle.sctp_handover.specs.Parts.{HasBytes};
ghost use Rattle.sctp_handover.specs.Reads.{Finds};

use crate::field::number64_at;
use sctp_wire::push_u64;
use std::alloc::{AllocError, Global};

/// What stands in the lists of a record.
pub(crate) trait Part: Sized + Drop {
    ghost Value: { Type 0 };

    ghost value_of: { Self → Value };

    ghost bytes_of: { Value → List ℕ };

    ghost Fits: { Value → Type 0 };

    /// What the bytes begin with, and the bytes behind it.
    fn part_at(alloc: Global, bytes: &[u8]) -> Result<(Self, &[u8]), AllocError>
        ensures { IfOk result (λ read. Finds bytes_of Fits bytes.now (value_of read.0) read.1.now) };

    /// Appends it.
    fn push_to(&self, output: &mut Vec<u8>) -> Result<(), AllocError>
        ensures wrote { OnOk result (output.new.items ≡ output.old.items ++ bytes_of (value_of self.now)) }
        ensures fits { OnOk result (Fits (value_of self.now)) };

    ghost has_bytes: { (x : Value) → HasBytes (bytes_of x) };
}

/// So many parts, and the bytes behind them; fewer, where a part takes no byte.
fn parts_at<P: Part>(alloc: Global, count: u64, bytes: &[u8]) -> Result<(Vec<P>, &[u8]), AllocError>
    ensures { IfOk result (λ read. (xs : List P.Value) (after : List ℕ) → count ≡ length xs → All P.Fits xs → bytes.now ≡ flat_map P.bytes_of xs ++ after
        → (map P.value_of read.0.items ≡ xs) × (read.1.now ≡ after)) }
{
    let mut parts = Vec::new(alloc);
    let mut rest = bytes;
    for place in 0..count {
        let (part, after) = P::part_at(alloc, rest)?;
        if after.len() == rest.len() {
            drop(part);
            return Ok((parts, rest));
        }
        parts.push(part)?;
        rest = after;
    }
    Ok((parts, rest))
}

/// The list that the bytes begin with, and the bytes behind it.
pub(crate) fn list_at<P: Part>(alloc: Global, bytes: &[u8]) -> Result<(Vec<P>, &[u8]), AllocError>
    ensures { IfOk result (λ read. Finds (list_bytes P.bytes_of) (ListFits P.Fits) bytes.now (map P.value_of read.0.items) read.1.now) }
{
    let (count, rest) = number64_at(bytes);
    parts_at(alloc, count, rest)
}

fn push_parts<P: Part>(output: &mut Vec<u8>, parts: &[P]) -> Result<(), AllocError>
    ensures wrote { OnOk result (output.new.items ≡ output.old.items ++ flat_map P.bytes_of (map P.value_of parts.now)) }
    ensures fits { OnOk result (All P.Fits (map P.value_of parts.now)) }
{
    for part in parts {
        part.push_to(output)?;
    }
    Ok(())
}

/// Appends a list.
#[tactic(auto, unfolding(crate::specs::Bytes::list_bytes))]
pub(crate) fn push_list<P: Part>(output: &mut Vec<u8>, parts: &[P]) -> Result<(), AllocError>
    ensures wrote { OnOk result (output.new.items ≡ output.old.items ++ list_bytes P.bytes_of (map P.value_of parts.now)) }
    ensures fits { OnOk result (ListFits P.Fits (map P.value_of parts.now)) }
{
    push_u64(output, parts.len() as u64)?;
    push_parts(output, parts)
}
