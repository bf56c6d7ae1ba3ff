//! Fragments that have their TSN and wait for the peer's acknowledgement.
#![tactic(auto)]

mod breakpoints;
mod emitting;
mod expiries;
mod indexes;
pub mod item;
pub mod kept;
mod last_blocks;
pub mod laws;
mod messages;
mod numbers;
pub mod outstanding_data;
mod passed;
mod runs;
pub mod sack;
mod sizes;
pub mod skips;
mod stretches;
pub mod totals;

pub use item::{Item, ItemState};
pub use outstanding_data::{Discarded, OutstandingData};
pub use sack::AckInfo;
