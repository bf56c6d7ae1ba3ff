//! The calls of a socket as C has them: answers are numbers, what is handed out is copied into buffers, or lent. For every generator and checksum;
//! options are written with a `PacketChecksum` alone.
#![tactic(auto)]

mod asking;
mod batch;
mod calls;
mod events;
mod handover;
mod messages;
mod settings;

pub use asking::{
    buffered_amount, clock, handover_readiness, low_threshold, messages_ready, nanos_until,
    refuses, rest_number, send_queue_room, state_number, stream_priority, write_metrics,
    write_options,
};
pub use batch::{have_streams, send_many};
pub use calls::{advance_time, close, connect, handle_input, shutdown};
pub use events::{borrow_event, poll_event};
pub use handover::{hand_over, restore};
pub use messages::{LentMessage, borrow_message, next_given_up, next_message, send};
pub use settings::{
    reset_stream, reset_streams, set_buffered_amount_low_threshold, set_max_message_size,
    set_stream_priority,
};
