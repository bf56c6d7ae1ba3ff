//! One end of a network: a socket with all packets that it ever sent, and what is observed of it.
#![tactic(auto)]

mod calling;
mod log;
pub mod side;

pub use log::{Answer, Call, End, Entry, Event};
