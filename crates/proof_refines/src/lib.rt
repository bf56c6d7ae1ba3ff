//! The values of the code are a sender and a receiver of the rules of a transfer, and each of their operations is a few of these
//! rules; and what holds over several calls of the send queue, and of what a reassembly holds and makes ready. Each law is the contract
//! of a function with an empty body.
#![tactic(auto)]

pub mod ready_messages;
pub mod receiver;
pub mod send_queue;
pub mod sender;
pub mod settled_streams;
