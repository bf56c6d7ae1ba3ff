//! One packet in, its message and the packet that acknowledges it out; and a checksum that any reader can redo by hand.
#![tactic(auto)]

mod answer;
mod checksum;
mod probing;

pub use answer::{Probe, ProbeError};
pub use checksum::ByteSum;
pub use probing::{one_answer, probe};
