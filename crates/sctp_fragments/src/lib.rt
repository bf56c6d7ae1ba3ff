//! Fragments with their keys, fragments with one key after the other, and the message that they are (RFC 9260 section 6.9,
//! RFC 8260 section 2.2).
#![tactic(auto)]

pub mod interval;
mod message;
pub mod reassembly_key;

pub use interval::{Entries, Entry, Interval, Pieces, Size, goes_on_to};
pub use message::message_of;
pub use reassembly_key::{
    InterleavedKey, ReassemblyKey, TraditionalKey, UnorderedInterleavedKey, is_before, is_same,
    leads_to, next_key, touch,
};
