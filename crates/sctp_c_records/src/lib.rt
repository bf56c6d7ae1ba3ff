//! What crosses to C: the numbers that calls answer, and the records of `include/shelfpigeon.h`, as the socket's own values.
#![tactic(auto)]

pub mod answers;
mod checksum;
mod describe;
mod event;
mod given_up;
mod layout;
mod message;
mod metrics;
mod options;
mod options_struct;
mod parts;
mod streams;
mod texts;
mod words;

pub use checksum::PacketChecksum;
pub use describe::describe_packet;
pub use event::{EVENT_SIZE, EventRecord, hand_out, put_bytes};
pub use given_up::GivenUpRecord;
pub use layout::{put_u32, put_u64, u32_or, u64_or};
pub use message::{MessageRecord, OutgoingRecord, SEND_SIZE, SendRecord};
pub use metrics::{METRICS_SIZE, MetricsRecord, one_if};
pub use options::OptionsRecord;
pub use options_struct::OPTIONS_SIZE;
pub use parts::{EventParts, parts_of};
pub use texts::{place_of_text, text_of};
pub use words::SeededWords;
