//! The table of steps of an association (RFC 9260): what each call, packet and moment does to the value of an end. Definitions,
//! in `specs/`; no code.
#![tactic(auto)]
