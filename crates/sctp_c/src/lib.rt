//! A socket for C: each function of `include/shelfpigeon.h`, over `sctp_c_calls`, `sctp_c_channels` and `sctp_c_records`.
#![tactic(auto)]

mod asking;
mod batch;
mod calls;
mod channels;
mod describing;
mod endpoint;
mod events;
mod handle;
mod handover;
mod loose;
mod making;
mod messages;
mod settings;
mod stream;
