//! Chunks that carry data, acknowledge it or give it up, read, written and shown (RFC 9260 sections 3.3.1 and 3.3.4,
//! RFC 3758, RFC 8260); and what chunks of all kinds say, as definitions.
#![tactic(auto)]

mod data;
mod flags;
mod forward_tsn;
mod fragment_chunk;
mod raw;
mod runs;
mod sack;
mod spare_buffers;

pub use data::{Data, DataChunk, DataView, IDataChunk};
pub use forward_tsn::{ForwardTsnChunk, IForwardTsnChunk, SkippedStream};
pub use fragment_chunk::FragmentChunk;
pub use raw::{RawChunk, write_chunk_header};
pub use runs::are_runs;
pub use sack::{GapAckBlock, SackChunk};
pub use spare_buffers::SpareBuffers;
