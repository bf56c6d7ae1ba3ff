//! What comes from the peer: which TSNs were seen, and when they are acknowledged (RFC 9260 section 6.2, RFC 3758); and messages
//! put together of their fragments.
#![tactic(auto)]

pub mod data_tracker;
pub mod set_laws;

pub use data_tracker::DataTracker;
pub use sctp_fragments::{interval, reassembly_key};
pub use sctp_reassembly::{
    Entry, InterleavedKey, Interval, IntervalList, OrderedStream, ReadyMessages, ReassemblyKey,
    ReassemblyQueue, ReassemblyStream, ReassemblyStreams, TraditionalKey, UnorderedInterleavedKey,
    UnorderedStream, interval_list, is_before, is_same, leads_to, next_key, ready_messages,
    reassembly_queue, reassembly_stream, reassembly_streams, touch,
};
pub use set_laws::a_set_has_one_form;
