//! Data and its acknowledgement, and streams that are reset (RFC 9260 section 6, RFC 6525).
#![tactic(auto)]

pub mod data;
pub mod messages;
pub mod sack;
pub mod stream_reset;
