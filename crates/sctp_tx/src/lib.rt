//! The sender of an SCTP association: what waits in the send queue, what was sent, and what may go next.
#![tactic(auto)]

pub mod fragments;
pub mod laws;
pub mod retransmission_queue;

pub use fragments::{ChunkForm, FragmentList, SendOpportunity, TakesFragments};
pub use retransmission_queue::{HandleSackResult, RetransmissionQueue};
pub use sctp_tx_outstanding::{AckInfo, Item, OutstandingData};
pub use sctp_tx_queue::{DataToSend, SendQueue};
