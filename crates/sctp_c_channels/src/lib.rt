//! Data channels as C has them: the records of `include/shelfpigeon.h`, and the calls. For every socket.
#![tactic(auto)]

mod calls;
mod events;
mod records;
mod sending;
mod starting;
mod statistics;

pub use calls::{negotiate, open, tell_state, write_options};
pub use events::{borrow_event, handle_input};
pub use records::{CHANNEL_SIZE, ChannelRecord, GivenChannel};
pub use sending::{GivenMessage, close, kind_of, send};
pub use starting::{START_SIZE, StartRecord, start};
pub use statistics::{STATISTICS_SIZE, copy_label, copy_protocol, write_statistics};
