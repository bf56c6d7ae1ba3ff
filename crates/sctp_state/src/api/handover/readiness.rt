//! Whether a socket can be handed over, and what stands in the way.

ghost use Rattle.std.specs.Prelude.{◌≡◌, ◌<◌, ◌↔◌, IsTrue, Some, IfOk, ◌&&◌, not, bit_or, if◌then◌else◌};
ghost use Rattle.std.specs.Fmt.{HasWritten, IsPlainFormatter, WritesOnOk};
ghost use Rattle.sctp_state.specs.Readiness.{joined_names, part, readiness_text, reasons_of, shares_bit};

use std::fmt;
use std::ops::{BitAnd, BitOr};

/// What stands in the way of a handover: the sum of such reasons. Its text is their names, in ascending order and
/// joined by commas.
#[derive(Clone, Copy, Default, PartialEq, Eq)]
pub struct HandoverReadiness(pub u32);

const REASONS: [(HandoverReadiness, &str); 10] = [
    (
        HandoverReadiness::WRONG_CONNECTION_STATE,
        "wrong_connection_state",
    ),
    (
        HandoverReadiness::SEND_QUEUE_NOT_EMPTY,
        "send_queue_not_empty",
    ),
    (
        HandoverReadiness::PENDING_STREAM_RESET_REQUEST,
        "pending_stream_reset_request",
    ),
    (
        HandoverReadiness::DATA_TRACKER_TSN_BLOCKS_PENDING,
        "data_tracker_tsn_blocks_pending",
    ),
    (
        HandoverReadiness::PENDING_STREAM_RESET,
        "pending_stream_reset",
    ),
    (
        HandoverReadiness::STREAM_RESET_DEFERRED,
        "stream_reset_deferred",
    ),
    (
        HandoverReadiness::STREAM_HAS_UNASSEMBLED_CHUNKS,
        "stream_has_unassembled_chunks",
    ),
    (
        HandoverReadiness::RETRANSMISSION_QUEUE_OUTSTANDING_DATA,
        "retransmission_queue_outstanding_data",
    ),
    (
        HandoverReadiness::RETRANSMISSION_QUEUE_FAST_RECOVERY,
        "retransmission_queue_fast_recovery",
    ),
    (
        HandoverReadiness::RETRANSMISSION_QUEUE_NOT_EMPTY,
        "retransmission_queue_not_empty",
    ),
];

impl HandoverReadiness {
    /// Nothing stands in the way.
    pub const READY: HandoverReadiness = HandoverReadiness(0);
    /// The socket is neither closed nor connected.
    pub const WRONG_CONNECTION_STATE: HandoverReadiness = HandoverReadiness(1);
    /// Messages are queued.
    pub const SEND_QUEUE_NOT_EMPTY: HandoverReadiness = HandoverReadiness(2);
    /// A reset request waits for its answer.
    pub const PENDING_STREAM_RESET_REQUEST: HandoverReadiness = HandoverReadiness(4);
    /// Numbers are missing among those that came.
    pub const DATA_TRACKER_TSN_BLOCKS_PENDING: HandoverReadiness = HandoverReadiness(8);
    /// A stream waits to be reset.
    pub const PENDING_STREAM_RESET: HandoverReadiness = HandoverReadiness(16);
    /// The peer's reset waits for data that is to come first.
    pub const STREAM_RESET_DEFERRED: HandoverReadiness = HandoverReadiness(64);
    /// Fragments are held, of messages that are not whole or not yet in turn.
    pub const STREAM_HAS_UNASSEMBLED_CHUNKS: HandoverReadiness = HandoverReadiness(128);
    /// Fragments are not acknowledged.
    pub const RETRANSMISSION_QUEUE_OUTSTANDING_DATA: HandoverReadiness = HandoverReadiness(512);
    /// A loss is being recovered from.
    pub const RETRANSMISSION_QUEUE_FAST_RECOVERY: HandoverReadiness = HandoverReadiness(1024);
    /// Fragments wait to be sent again.
    pub const RETRANSMISSION_QUEUE_NOT_EMPTY: HandoverReadiness = HandoverReadiness(2048);

    /// Whether nothing stands in the way.
    pub fn is_ready(&self) -> bool
        ensures { IsTrue result ↔ (self.now.0 ≡ 0) }
    {
        self.0 == 0
    }

    /// Whether this and `reason` share a bit.
    pub fn contains(&self, reason: HandoverReadiness) -> bool
        ensures { result ≡ shares_bit self.now.0 reason.0 }
    {
        0 < self.0 & reason.0
    }

    /// Writes the name where the reason is there, behind a comma unless it is the first, and answers whether the next
    /// one would be the first.
    fn write_reason<W: fmt::Write>(
        self,
        f: &mut fmt::Formatter<W>,
        is_first: bool,
        reason: HandoverReadiness,
        name: &str,
    ) -> Result<bool, fmt::Error>
        ensures text { IsPlainFormatter f.old → IfOk result (λ _. HasWritten W.write_str_gives f.old (part is_first (shares_bit self.0 reason.0) name.now) f.new) }
        ensures first { IfOk result (λ next. next ≡ (is_first && not (shares_bit self.0 reason.0))) }
    {
        if !self.contains(reason) {
            return Ok(is_first);
        }
        if !is_first {
            write!(f, ",")?;
        }
        write!(f, "{name}")?;
        Ok(false)
    }

    /// Writes the names of those reasons that are there, joined by commas.
    fn write_reasons<W: fmt::Write>(
        self,
        f: &mut fmt::Formatter<W>,
        reasons: &[(HandoverReadiness, &str)],
    ) -> fmt::Result
        ensures { WritesOnOk W.write_str_gives f.old result (joined_names self.0 (reasons_of reasons.now)) f.new }
    {
        let mut is_first = true;
        'reasons: for (reason, name) in reasons {
            is_first = self.write_reason(f, is_first, *reason, name)?;
        }
        Ok(())
    }
}

impl fmt::Display for HandoverReadiness {
    ghost output = { λ r. Some (readiness_text r.0) };

    fn fmt<W: fmt::Write>(&self, f: &mut fmt::Formatter<W>) -> fmt::Result {
        self.write_reasons(f, &REASONS)
    }
}

impl fmt::Debug for HandoverReadiness {
    ghost debug_output = { λ r. Some (readiness_text r.0) };

    fn fmt<W: fmt::Write>(&self, f: &mut fmt::Formatter<W>) -> fmt::Result {
        write!(f, "{self}")
    }
}

impl BitOr for HandoverReadiness {
    type Output = HandoverReadiness;

    ghost bitor_gives = { λ a b r. r.0 ≡ bit_or a.0 b.0 };

    fn bitor(self, other: HandoverReadiness) -> HandoverReadiness {
        HandoverReadiness(self.0 | other.0)
    }
}

/// The reason where the condition holds, else none.
impl BitAnd<bool> for HandoverReadiness {
    type Output = HandoverReadiness;

    ghost bitand_gives = { λ a holds r. r.0 ≡ (if holds then a.0 else 0) };

    fn bitand(self, holds: bool) -> HandoverReadiness {
        if holds {
            self
        } else {
            HandoverReadiness::READY
        }
    }
}
