//! The calls that send, set and ask something, what is counted, and the handover.
#![tactic(auto)]

pub mod calls;
pub mod handover;
pub mod metrics;
