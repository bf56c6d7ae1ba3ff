//! Entries of a forward point in the order of their streams.

ghost use Rattle.std.specs.Prelude.{◌≡◌, IfOk};
ghost use Rattle.sctp_reassembly.specs.ReassemblyStreams.{skipped_id, by_stream, entries_in};

use crate::stream_id_set::StreamIdSet;
use sctp_chunk::SkippedStream;
use std::alloc::{AllocError, Global};

fn stream_id(entry: SkippedStream) -> u16
    ensures { result ≡ skipped_id entry }
{
    match entry {
        SkippedStream::ForwardTsn(id, _) => id.0,
        SkippedStream::IForwardTsn(key, _) => key.id().0,
    }
}

/// The entries by ascending stream, those of one stream as they came.
pub(crate) fn by_stream(
    alloc: Global,
    entries: &[SkippedStream],
) -> Result<Vec<SkippedStream>, AllocError>
    ensures { IfOk result (λ sorted. sorted.items ≡ by_stream entries.now) }
{
    let mut sorted = Vec::from_slice(alloc, entries)?;
    sorted.sort_by_key(|entry| stream_id(*entry))?;
    Ok(sorted)
}

/// The entries for streams that are named, or for the others, without room for more.
pub(crate) fn entries_in(
    alloc: Global,
    named: bool,
    ids: &StreamIdSet,
    entries: &[SkippedStream],
) -> Result<Vec<SkippedStream>, AllocError>
    ensures { IfOk result (λ part. part.items ≡ entries_in named ids.now entries.now) }
{
    let mut part = Vec::from_slice(alloc, entries)?;
    part.retain(|entry| ids.is_part(named, stream_id(*entry)));
    part.shrink_to_fit();
    Ok(part)
}
