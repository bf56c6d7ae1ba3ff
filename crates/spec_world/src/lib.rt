//! Two ends and all packets between them, and the log of what is observed: what each event does to them.
//! Definitions and lemmas alone, in `specs/` and `proofs/`; no code.
#![tactic(auto)]
