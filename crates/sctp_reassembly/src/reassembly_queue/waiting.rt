//! What comes while a reset is deferred.

use sctp_chunk::{Data, SkippedStream};

/// What waits, with the unwrapped TSN that it came with.
#[derive(Drop)]
pub(crate) enum Waiting {
    Fragment(u64, Data),
    Point(u64, Vec<SkippedStream>),
}
