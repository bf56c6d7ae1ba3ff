//! A conversation as people look at it: a capture for Wireshark, a chart as SVG, and a ladder as text.
//!
//! All three are made of [`Row`]s: what happened at either end, in order, as plain values.
#![tactic(auto)]

mod conversation;
mod crc;
mod giving;
mod label;
mod laws;
mod pcapng;
mod rows;
mod svg;
mod text;
mod xml;

pub use conversation::{Conversation, Ways};
pub use crc::with_crc32c;
pub use giving::{Arrow, Cross, arrows, crosses};
pub use label::packet_label;
pub use laws::lines_fit;
pub use pcapng::{CaptureError, capture};
pub use rows::{End, Row, What};
pub use svg::chart;
pub use text::ladder;
pub use xml::{Attribute, Element, Key, Tag, write};
