//! Items checked where they lie: nothing is built, and no memory is taken.

ghost use Rattle.std.specs.Prelude.{◌≡◌, ◌≢◌, ◌⊎◌, ◌-◌, ◌%◌, ◌<◌, ◌≤◌, List, [], length, OnOk, OnErr, IfErr};
ghost use Rattle.sctp_wire.specs.declared.error.ChunkParseError.{ChunkParseError};
ghost use Rattle.sctp_item.specs.Item.{Item, ParsesAll};
ghost use Rattle.sctp_wire.specs.Views.{raw_item};
ghost use Rattle.sctp_wire.specs.Refusal.{FailsToParseAs, StandsForSome};

use crate::{ChunkParseError, RawItem};

/// What an item can be checked as: a chunk, a parameter or a cause.
pub trait CheckItem {
    ghost Tree: { Type 0 };

    ghost stands_for: { Item → Tree → Type 0 };

    ghost refuses: { Item → ChunkParseError → Type 0 };

    /// Whether the item says something. It has the faults that reading has, but for want of memory.
    fn check_item(item: RawItem<'_>) -> Result<(), ChunkParseError>
        ensures ok { OnOk result (StandsForSome stands_for (raw_item item.entry)) }
        ensures refused { IfErr result (refuses (raw_item item.entry)) }
        ensures never_memory { IfErr result (λ fault. fault ≢ ChunkParseError.Memory) };
}

/// Whether the bytes are items that each say something, up to the end. The fault is that of the first one from the left that
/// says nothing.
pub fn check_items<T: CheckItem>(bytes: &[u8]) -> Result<(), ChunkParseError>
    ensures ok { OnOk result ((trees : List T.Tree) × ParsesAll T.stands_for bytes.now trees []) }
    ensures refused { IfErr result (FailsToParseAs T.stands_for T.refuses bytes.now) }
    ensures never_memory { IfErr result (λ fault. fault ≢ ChunkParseError.Memory) }
{
    let mut rest = bytes;
    while !rest.is_empty() {
        let (item, after) = RawItem::from_bytes(rest)?;
        T::check_item(item)?;
        rest = after;
    }
    Ok(())
}

/// `InvalidLength` where there are not just so many bytes.
pub fn check_exactly(size: usize, bytes: &[u8]) -> Result<(), ChunkParseError>
    ensures ok { OnOk result (length bytes.now ≡ size) }
    ensures other { OnErr result (length bytes.now ≢ size) }
    ensures fault { IfErr result (λ e. e ≡ ChunkParseError.InvalidLength) }
{
    if bytes.len() != size {
        return Err(ChunkParseError::InvalidLength);
    }
    Ok(())
}

/// `InvalidLength` where there are fewer bytes.
pub fn check_at_least(size: usize, bytes: &[u8]) -> Result<(), ChunkParseError>
    ensures ok { OnOk result (size ≤ length bytes.now) }
    ensures short { OnErr result (length bytes.now < size) }
    ensures fault { IfErr result (λ e. e ≡ ChunkParseError.InvalidLength) }
{
    if bytes.len() < size {
        return Err(ChunkParseError::InvalidLength);
    }
    Ok(())
}

/// `InvalidLength` where the bytes are no fixed part and then whole entries of this width, which is above 0.
pub fn check_in_steps(fixed: usize, width: usize, bytes: &[u8]) -> Result<(), ChunkParseError>
    requires { 0 < width }
    ensures long { OnOk result (fixed ≤ length bytes.now) }
    ensures whole { OnOk result ((length bytes.now - fixed) % width ≡ 0) }
    ensures other { OnErr result ((length bytes.now < fixed) ⊎ ((length bytes.now - fixed) % width ≢ 0)) }
    ensures fault { IfErr result (λ e. e ≡ ChunkParseError.InvalidLength) }
{
    if bytes.len() < fixed || (bytes.len() - fixed) % width != 0 {
        return Err(ChunkParseError::InvalidLength);
    }
    Ok(())
}
