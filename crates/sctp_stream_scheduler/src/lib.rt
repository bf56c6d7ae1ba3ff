//! Which of a sender's streams sends next: weighted fair queueing (RFC 8260 section 3.6), without a draw.
#![tactic(auto)]

mod stream_scheduler;

pub use stream_scheduler::StreamScheduler;
