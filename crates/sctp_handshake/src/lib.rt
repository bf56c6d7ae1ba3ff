//! Which packets are for an association (RFC 9260 section 8.5), and how it is opened: INIT, INIT ACK, COOKIE ECHO and COOKIE ACK
//! (section 5).
#![tactic(auto)]

pub mod cookie_echo;
pub mod cookies;
pub mod draws;
pub mod init_ack;
pub mod judging;
pub mod opening;
pub mod validation;
