//! What both ends of an association can do, announced by parameters and negotiated, and the state cookie that carries it.
#![tactic(auto)]

mod capabilities;
mod laws;
mod state_cookie;

pub use capabilities::{Capabilities, announced_parameters};
pub use laws::spelled_cookie_is_read;
pub use state_cookie::{STATE_COOKIE_SIZE, StateCookie, StateCookieError};
