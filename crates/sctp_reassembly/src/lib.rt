//! Messages put together of their fragments (RFC 9260 section 6.9, RFC 8260 section 2.2).
#![tactic(auto)]

mod dropped;
mod finished;
pub mod interval_list;
mod interval_map;
mod near;
mod ordered_fragments;
mod ordered_stream;
mod ordered_streams;
mod places;
pub mod ready_messages;
pub mod reassembly_queue;
pub mod reassembly_stream;
pub mod reassembly_streams;
mod sorted_skips;
pub mod stream_id_set;
mod stream_map;
mod unordered_by_tsn;
mod unordered_fragments;
mod unordered_stream;
mod unordered_streams;

pub use interval_list::IntervalList;
pub use ordered_fragments::is_message;
pub use ordered_stream::OrderedStream;
pub use ready_messages::ReadyMessages;
pub use reassembly_queue::ReassemblyQueue;
pub use reassembly_stream::ReassemblyStream;
pub use reassembly_streams::ReassemblyStreams;
pub use sctp_fragments::{
    Entry, InterleavedKey, Interval, ReassemblyKey, TraditionalKey, UnorderedInterleavedKey,
    is_before, is_same, leads_to, next_key, touch,
};
pub use stream_id_set::StreamIdSet;
pub use unordered_stream::UnorderedStream;
