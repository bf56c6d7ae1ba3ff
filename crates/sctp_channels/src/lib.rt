//! Data channels (RFC 8831, RFC 8832), lowest layer first: the messages that open a channel, and the payload protocol identifiers of its data
//! (`message`, `payload`); one channel (`lifecycle`, `channel`); those of an association, whose public calls know no socket (`channels`); and over one
//! (`data_channels`): opened, written, read and closed, whichever socket it is.
//!
//! The owner drives the socket as without channels, but that `DataChannels::handle_input` hands it its packets. What these brought, and what
//! `advance_time` did, is then taken by `poll_event` until it answers `None`; or by `next_event`, where `collect` is called behind `advance_time`.
#![tactic(auto)]

mod channel;
mod channel_laws;
mod channel_map;
mod channels;
mod closing;
mod data_channels;
mod event;
mod fault;
mod header;
mod lifecycle;
mod message;
mod message_laws;
mod output;
mod payload;
mod reliability;
mod two_ends_laws;
mod unanswered;

pub use channel::{Channel, Received, Statistics};
pub use channel_laws::{
    a_reset_is_asked_for_once, a_reset_waits_for_the_answer_to_the_former,
    both_resets_free_a_stream, data_is_handed_out_as_it_was_accepted,
    ordered_until_it_is_confirmed, who_closes_sends_no_more,
};
pub use channels::Channels;
pub use data_channels::DataChannels;
pub use event::{ChannelEvent, OpenError, SendRefusal};
pub use fault::ChannelMessageFault;
pub use lifecycle::{ChannelState, Lifecycle, Opening, Outgoing};
pub use message::{ChannelMessage, DataChannelOpen};
pub use message_laws::{one_answer, one_message, one_payload, read_back, written_alike};
pub use output::{Output, Refusal};
pub use payload::{CONTROL_PPID, PayloadKind, PayloadProtocol, data_message};
pub use reliability::Reliability;
pub(crate) use sctp_state::take_first;
pub use two_ends_laws::what_is_told_was_accepted;
