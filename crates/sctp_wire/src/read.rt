//! Lists of items read.

ghost use Rattle.std.specs.Prelude.{◌≡◌, ◌⊎◌, [], IfOk, IfErr};
ghost use Rattle.sctp_wire.specs.declared.error.ChunkParseError.{ChunkParseError};
ghost use Rattle.sctp_item.specs.Item.{Item, ParsesAll};
ghost use Rattle.sctp_wire.specs.Views.{raw_item};
ghost use Rattle.sctp_wire.specs.Refusal.{FailsToParseAs};

use crate::{ChunkParseError, RawItem};
use std::alloc::Global;

/// What an item can be read as: a chunk, a parameter or a cause.
pub trait FromItem: Sized + Drop {
    ghost stands_for: { Item → Self → Type 0 };

    ghost refuses: { Item → ChunkParseError → Type 0 };

    /// What the item says.
    fn from_item(alloc: Global, item: RawItem<'_>) -> Result<Self, ChunkParseError>
        ensures ok { IfOk result (stands_for (raw_item item.entry)) }
        ensures refused { IfErr result (refuses (raw_item item.entry)) };
}

/// What the items say that the bytes are, from the left. The fault is that of the first item that says nothing, `Memory` where that lacks.
pub fn items_from_bytes<T: FromItem>(alloc: Global, bytes: &[u8]) -> Result<Vec<T>, ChunkParseError>
    ensures ok { IfOk result (λ values. ParsesAll T.stands_for bytes.now values.items []) }
    ensures refused { IfErr result (λ fault. (fault ≡ ChunkParseError.Memory)
        ⊎ FailsToParseAs T.stands_for T.refuses bytes.now fault) }
{
    let mut values = Vec::new(alloc);
    let mut rest = bytes;
    while !rest.is_empty() {
        let (item, after) = RawItem::from_bytes(rest)?;
        values.push(T::from_item(alloc, item)?)?;
        rest = after;
    }
    Ok(values)
}

/// Reads an item by its type, as the variant of `$kinds` that holds what the type's reader reads.
#[macro_export]
macro_rules! read_by_type {
    ($kinds:ident, $alloc:ident, $raw:ident, $($typ:pat => $variant:ident($kind:ident),)*) => {
        match $raw.typ {
            $($typ => match $kind::try_from($alloc, $raw) {
                Ok(read) => Ok($kinds::$variant(read)),
                Err(fault) => Err(fault),
            },)*
        }
    };
}
