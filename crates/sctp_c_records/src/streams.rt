//! Streams as C has them: two bytes each, as the processor has a number, the low one first.

ghost use Rattle.std.specs.Prelude.{◌≡◌, ◌++◌, IfOk, OnOk};
ghost use Rattle.std.specs.List.{flat_map};
ghost use Rattle.sctp_state.specs.Events.{numbers_of};
ghost use Rattle.sctp_c_records.specs.Event.{low_first};

use sctp_serial::StreamId;
use std::alloc::{AllocError, Global};

fn push_number(bytes: &mut Vec<u8>, number: u16) -> Result<(), AllocError>
    ensures { OnOk result (bytes.new.items ≡ bytes.old.items ++ low_first number) }
{
    bytes.push((number % 256) as u8)?;
    bytes.push((number / 256) as u8)?;
    Ok(())
}

/// The bytes of streams.
pub(crate) fn spelled(alloc: Global, ids: &[StreamId]) -> Result<Vec<u8>, AllocError>
    ensures { IfOk result (λ bytes. bytes.items ≡ flat_map low_first (numbers_of ids.now)) }
{
    let mut bytes = Vec::new(alloc);
    for id in ids {
        push_number(&mut bytes, id.0)?;
    }
    Ok(bytes)
}
