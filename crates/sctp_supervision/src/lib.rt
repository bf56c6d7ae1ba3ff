//! How an association is supervised, and how it ends: heartbeats and what the expiries of timers lead to (RFC 9260 sections 6.3, 8),
//! shutdown and aborts (section 9), and chunks that aren't expected.
#![tactic(auto)]

pub mod aborts;
pub mod heartbeats;
pub mod misuse;
pub mod shutdown;
pub mod timers;
