//! Tests of `sctp_world` over its public items, and those of sockets that are no rows of `run_socket_script`: what a call leaves where memory
//! lacks. Apart, so that what they test is proved once.
#![tactic(auto)]

#[cfg(test)]
mod tests;
