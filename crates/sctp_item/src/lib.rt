//! Items: what chunks, parameters and causes are parsed from, all bytes of them.
#![tactic(auto)]

mod item;

pub use item::{FoundItem, find_item};
