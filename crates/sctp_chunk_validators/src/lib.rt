//! The blocks of a SACK, put into one form and validated.
#![tactic(auto)]

mod chunk_validators;

pub use chunk_validators::{clean_sack, validate_sack};
