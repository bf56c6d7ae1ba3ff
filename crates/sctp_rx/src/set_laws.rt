//! A set has one form.

ghost use Rattle.std.specs.Prelude.{◌≡◌, ℕ};
ghost use Rattle.sctp_rx.specs.Seen.{Seen, contains, IsInRuns};
ghost use Rattle.sctp_rx.specs.DataTracker.{Tracker, IsTracker, has_seen};
ghost use Rattle.sctp_rx.specs.Sack.{gap_ack_blocks};

/// Two sets in runs that have the same numbers are equal. So two trackers that have seen the same numbers report the same
/// blocks in a SACK.
pub fn a_set_has_one_form()
    ensures form { (s t : Seen) → IsInRuns s → IsInRuns t → ((n : ℕ) → contains s n ≡ contains t n) → s ≡ t }
    ensures blocks { (t u : Tracker) → IsTracker t → IsTracker u → ((n : ℕ) → has_seen t n ≡ has_seen u n) → gap_ack_blocks t.seen ≡ gap_ack_blocks u.seen }
{}
