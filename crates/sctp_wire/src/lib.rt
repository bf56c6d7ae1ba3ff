//! What every layer above reads and writes packets with: items, their fields, their faults, and the checksum; and what
//! parameters and causes say, as definitions.
#![tactic(auto)]

mod check;
mod checksum;
mod error;
mod field;
mod item;
mod kind;
mod read;
mod serialize;
mod show;
mod text;
mod unknown;

pub use check::{CheckItem, check_at_least, check_exactly, check_in_steps, check_items};
pub use checksum::{Checksum, Policy};
pub use error::ChunkParseError;
pub use field::{
    Entry, ends_here, entries_from_bytes, first_u16, first_u32, id_fits, number_fits, push_entries,
    push_u16, push_u32, push_u64, u16_at, u32_at, u64_at,
};
pub use item::{RawItem, RawParameter, one_item};
pub use kind::{FieldValue, OneField};
pub use read::{FromItem, items_from_bytes};
pub use sctp_serial::{
    Fsn, LifecycleId, Message, Mid, OutgoingMessageId, PpId, SerialNumber, SocketTime, Ssn,
    StreamId, StreamKey, Tsn, ZERO_CHECKSUM_ALTERNATE_ERROR_DETECTION_METHOD_LOWER_LAYER_DTLS,
    ZERO_CHECKSUM_ALTERNATE_ERROR_DETECTION_METHOD_NONE, ZeroChecksumAlternateErrorDetectionMethod,
};
pub use serialize::{
    MAX_VALUE_SIZE, SerializableTlv, all_encodable, padding_len, parameters_serialize_to,
    parameters_serialized_size, write_item_header, write_parameter_header,
};
pub use show::{Joined, Listed};
pub use text::text_from_bytes;
pub use unknown::UnknownParameter;
