//! The record of a socket that is handed over, as bytes, for who carries it as such.
//!
//! A record is read leniently and then written again: it was one exactly where the same bytes come out.
#![tactic(auto)]

mod field;
mod message;
mod part;
mod record;
mod section;
mod stream;

pub use record::{RecordFault, from_bytes, to_bytes};
