//! The sender of an SCTP association: messages that wait, by stream, and which of them goes next.
#![tactic(auto)]

pub mod data_to_send;
pub mod send_queue;

pub use data_to_send::DataToSend;
pub use send_queue::SendQueue;
