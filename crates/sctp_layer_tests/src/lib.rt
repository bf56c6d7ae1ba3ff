//! Tests of the layers below the association that are no rows of a script: numbers that wrap, through their bound, and sender and
//! receiver in want of memory. Apart, so that each crate is proved once.
#![tactic(auto)]

#[cfg(test)]
mod receiver;
#[cfg(test)]
mod receives;
#[cfg(test)]
mod sender;
#[cfg(test)]
mod serial;
