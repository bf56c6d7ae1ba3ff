//! What the transfer of one direction of an SCTP association rests on, and resets of streams over it, as laws that know no
//! code. Each law is the contract of a function with an empty body. The definitions stand in `specs/`, and docs/PROOF.md
//! says them in words.
#![tactic(auto)]

pub mod receiver;
pub mod resets;
pub mod runs;
pub mod sender;
pub mod transfer;
pub mod windows;
