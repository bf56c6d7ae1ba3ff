//! Two sockets that talk to each other, what is observed of them, and the commands that drive them.
//!
//! [`World`] has two sockets and all packets that they ever sent, of which any may be given again, late or never. The commands
//! drive one, a line each; one more, `probe`, reads a packet and answers with its message and the packet that acknowledges it.
#![tactic(auto)]

mod command;
mod printing;
mod script;

pub use command::{Command, parse_command};
pub use script::{ScriptFault, run_script};
pub use sctp_network::{Answer, Call, End, Entry, Event, World, WorldError, run, run_pair, step};
pub use sctp_probe::{ByteSum, Probe, ProbeError, one_answer, probe};
