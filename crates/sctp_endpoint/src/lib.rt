//! What an end of an association is: its context, its states, the control block, packets that are put together, and what is sent.
#![tactic(auto)]

pub mod context;
pub mod ending;
pub mod init;
pub mod outgoing_packet;
pub mod reset_requests;
pub mod sending;
pub mod state;
pub mod transmission_control_block;
pub mod written_chunks;

pub use context::Context;
pub use outgoing_packet::OutgoingPacket;
pub use reset_requests::ResetRequests;
pub use state::{CookieEchoedState, CookieWaitState, Phase, State};
pub use transmission_control_block::{Association, Identity, TransmissionControlBlock};
