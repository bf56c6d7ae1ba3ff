//! Two sockets and the network between them: all packets that they ever sent, of which any may be given again, late or
//! never, and a log of all that is observed.
#![tactic(auto)]

pub mod arguments;
mod world;

pub use world::{Answer, Call, End, Entry, Event, World, WorldError, run, run_pair, step};
