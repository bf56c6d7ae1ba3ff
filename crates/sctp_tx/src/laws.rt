//! What holds of a sender whatever memory lacks.

ghost use Rattle.sctp_tx.specs.Unfinished.{UnfinishedStays};

/// A packet that was being filled when memory ran out leaves each item at its place, with its fragment, and the send queue in
/// order as before: with numbers that rise along each stream, and with something left of each message. What was emitted
/// before stands.
pub fn want_of_memory_keeps_what_stood()
    ensures { UnfinishedStays }
{}
