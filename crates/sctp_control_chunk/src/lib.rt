//! Chunks that open, keep and end an association, read, written and shown (RFC 9260 section 3.3, RFC 6525); and a chunk of
//! any kind.
#![tactic(auto)]

mod check;
mod chunk;
mod cookie;
mod error;
mod flags;
mod heartbeat;
mod init;
mod inner;
mod re_config;
mod shutdown;
mod unknown;

pub use chunk::Chunk;
pub use cookie::{CookieAckChunk, CookieEchoChunk};
pub use error::{AbortChunk, ErrorChunk};
pub use heartbeat::{HeartbeatAckChunk, HeartbeatRequestChunk};
pub use init::{InitAckChunk, InitChunk};
pub use re_config::ReConfigChunk;
pub use shutdown::{ShutdownAckChunk, ShutdownChunk, ShutdownCompleteChunk};
pub use unknown::UnknownChunk;
