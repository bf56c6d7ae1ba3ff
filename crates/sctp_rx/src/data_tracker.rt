//! The tracker of the TSNs that came from the peer.

ghost use Rattle.std.specs.Prelude.{◌≡◌, ◌==◌, ℕ, ◌+◌, ◌-◌, ◌^◌, ◌<◌, ◌≤◌, ◌||◌, ◌&&◌, not, nat_le, length, false, IsTrue, IfOk, OnOk, OnErr, nat_lt, All, Contains};
ghost use Rattle.std.specs.Duration.{as_nanos};
ghost use Rattle.sctp_state.specs.Options.{options_of};
ghost use Rattle.sctp_state.specs.Timer.{is_due, next_expiry};
ghost use Rattle.sctp_state.specs.Handover.{receive_of, handover_state_of};
ghost use Rattle.sctp_serial.specs.Unwrapped.{origin};
ghost use Rattle.sctp_chunk.specs.Chunk.{sack_chunk};
ghost use Rattle.sctp_chunk.specs.Views.{sack_chunk_tree};
ghost use Rattle.sctp_chunk.specs.declared.sack.GapAckBlock.{GapAckBlock};
ghost use Rattle.sctp_chunk.specs.Covered.{AreRuns};

mod duplicates;
mod seen;

use duplicates::Duplicates;
use sctp_chunk::SackChunk;
use sctp_serial::{SerialNumber, SocketTime, Tsn};
use sctp_state::{BackoffAlgorithm, HandoverReadiness, Options, SocketHandoverState, Timer};
use seen::Seen;
use std::alloc::{AllocError, Global};
use std::marker::Model;
use std::time::Duration;

/// How soon an acknowledgement is sent.
#[derive(Clone, Copy, Debug, PartialEq, Eq)]
pub enum AckState {
    /// Nothing is to be acknowledged.
    Idle,
    /// The packet that is being read is to be acknowledged, later.
    Becoming,
    /// A packet waits for the next one, or for the timer, to be acknowledged.
    Delayed,
    /// What came is to be acknowledged at once.
    Immediate,
}

impl AckState {
    ghost use Rattle.sctp_rx.specs.DataTracker.{ack_after, is_ack_due};

    /// The state after one more chunk that is to be acknowledged.
    fn after(self, is_urgent: bool) -> AckState
        ensures { result ≡ ack_after is_urgent self }
    {
        if is_urgent {
            return AckState::Immediate;
        }
        match self {
            AckState::Idle | AckState::Becoming => AckState::Becoming,
            AckState::Delayed | AckState::Immediate => AckState::Immediate,
        }
    }

    fn is_ack_due(self, also_if_delayed: bool) -> bool
        ensures { result ≡ is_ack_due also_if_delayed self }
    {
        match self {
            AckState::Idle => false,
            AckState::Becoming | AckState::Delayed => also_if_delayed,
            AckState::Immediate => true,
        }
    }
}

/// Which TSNs came from the peer or were given up by it, and how soon that is acknowledged (RFC 9260 section 6.2, RFC
/// 3758 section 3.6).
///
/// They are a set of numbers that never wrap: a TSN stands for the number nearest to the cumulative TSN, the end of the
/// unbroken beginning of the set.
#[derive(Drop)]
pub struct DataTracker {
    alloc: Global,
    // how `origin` is written
    first: Tsn,
    begin: u64,
    seen: Seen,
    duplicates: Duplicates,
    seen_packet: bool,
    ack_state: AckState,
    delayed_ack_timer: Timer,
    delayed_ack_max_timeout: Duration,
}

impl Model for DataTracker {
    ghost use Rattle.std.specs.Duration.{as_nanos};
    ghost use Rattle.sctp_rx.specs.DataTracker.{DataTracker, IsTracker};

    ghost Value = { DataTracker };

    ghost view = { λ d. record { first = d.first.0; tracker = record { begin = d.begin; seen = d.seen; duplicates = d.duplicates; seen_packet = d.seen_packet; ack = d.ack_state; delay = d.delayed_ack_timer; most_delay = as_nanos d.delayed_ack_max_timeout } } };

    ghost invariant = { λ d. IsTracker (record { begin = d.begin; seen = d.seen; duplicates = d.duplicates; seen_packet = d.seen_packet; ack = d.ack_state; delay = d.delayed_ack_timer; most_delay = as_nanos d.delayed_ack_max_timeout }) };
}

impl DataTracker {
    ghost use Rattle.sctp_rx.specs.DataTracker.{tracker, update_rto, wire_tsn, number_of, is_valid, has_seen, observe, moves_on, forward, acking, is_ack_due, take_ack, packet_end, ack_timeout, IsTracker};
    ghost use Rattle.sctp_rx.specs.Sack.{sack, tsns, clear_duplicates, is_covered};
    ghost use Rattle.sctp_rx.specs.Reported.{IsReported, is_duplicate, Ascend};
    ghost use Rattle.sctp_rx.specs.TrackerHandover.{readiness, write_handover, restore};

    /// A tracker whose least TSN that was not seen is `peer_initial_tsn`.
    pub fn new(alloc: Global, peer_initial_tsn: Tsn, options: &Options) -> DataTracker
        ensures value { result ≡ record { first = peer_initial_tsn.0; tracker = tracker (options_of options.now) origin } }
        ensures start { wire_tsn result (result.tracker.seen.front + 1) ≡ peer_initial_tsn.0 }
        ensures tracker { IsTracker result.tracker }
    {
        let begin = (1 << 32) - 1;
        let delay = ack_delay(options.rto_initial, options.delayed_ack_max_timeout);
        DataTracker {
            alloc,
            first: peer_initial_tsn,
            begin,
            seen: Seen::up_to(alloc, begin),
            duplicates: Duplicates::new(alloc),
            seen_packet: false,
            ack_state: AckState::Idle,
            delayed_ack_timer: Timer::new(delay, BackoffAlgorithm::Fixed, Some(0), None),
            delayed_ack_max_timeout: options.delayed_ack_max_timeout,
        }
    }

    /// Has acknowledgements wait for half of `rto`, from the next start of the timer on, and at most for the
    /// `delayed_ack_max_timeout` of the options.
    pub fn update_rto(&mut self, rto: Duration)
        ensures value { self.new ≡ record self.old { tracker = update_rto (as_nanos rto) self.old.tracker } }
        ensures tracker { IsTracker self.new.tracker }
    {
        self.delayed_ack_timer
            .set_duration(ack_delay(rto, self.delayed_ack_max_timeout));
    }

    /// When a delayed acknowledgement is due: the infinite future where none waits.
    pub fn next_timeout(&self) -> SocketTime
        ensures { result ≡ next_expiry self.now.tracker.delay }
    {
        self.delayed_ack_timer.next_expiry()
    }

    /// The cumulative TSN: each number up to it was seen, and the next one was not.
    pub fn last_cumulative_acked_tsn(&self) -> Tsn
        ensures { result.0 ≡ wire_tsn self.now self.now.tracker.seen.front }
    {
        Tsn::wrapped(self.first, self.seen.front())
    }

    /// Whether the TSN lies within 100,000 of the cumulative TSN, either way, and less than 2^62 above the beginning.
    pub fn is_tsn_valid(&self, tsn: Tsn) -> bool
        ensures { result ≡ is_valid self.now.tracker (number_of self.now tsn.0) }
    {
        let number = self.unwrapped(tsn);
        let front = self.seen.front();
        front <= number + 100_000 && number <= front + 100_000 && number < self.begin + (1 << 62)
    }

    /// Takes the TSN of a DATA chunk, and says whether it is valid and was not seen before. `is_immediate` is the
    /// chunk's I bit (RFC 7053). A TSN that is not valid changes nothing, and nothing changes without memory.
    #[tactic(auto, using(crate::proofs::TrackerLemmas::few_runs))]
    pub fn observe(
        &mut self,
        _now: SocketTime,
        tsn: Tsn,
        is_immediate: bool,
    ) -> Result<bool, AllocError>
        ensures answer { let n = number_of self.old tsn.0 in IfOk result (λ is_new. is_new ≡ (is_valid self.old.tracker n && not (has_seen self.old.tracker n))) }
        ensures seen { let n = number_of self.old tsn.0 in IsTrue (is_valid self.old.tracker n) → OnOk result ((m : ℕ) → has_seen self.new.tracker m ≡ (m == n || has_seen self.old.tracker m)) }
        ensures value { let n = number_of self.old tsn.0 in IsTrue (is_valid self.old.tracker n) → OnOk result (self.new ≡ record self.old { tracker = observe n is_immediate self.old.tracker }) }
        ensures again { let n = number_of self.old tsn.0 in IsTrue (is_valid self.old.tracker n) → OnOk result ((m : ℕ) → is_duplicate self.new.tracker m ≡ (is_duplicate self.old.tracker m || (m == n && (has_seen self.old.tracker n && nat_lt (length self.old.tracker.duplicates) 20)))) }
        ensures invalid { is_valid self.old.tracker (number_of self.old tsn.0) ≡ false → self.new ≡ self.old }
        ensures tracker { IsTracker self.new.tracker }
        ensures few_runs { length self.new.tracker.seen.runs ≤ 50000 }
        ensures err { OnErr result (self.new ≡ self.old) }
    {
        if !self.is_tsn_valid(tsn) {
            return Ok(false);
        }
        let number = self.unwrapped(tsn);
        let is_new = self.seen.insert(number)?;
        if !is_new {
            self.duplicates.add(number)?;
        }
        let is_urgent = is_urgent(is_new, self.seen.has_gap(), is_immediate, self.seen_packet);
        self.seen_packet = true;
        self.ack_state = self.ack_state.after(is_urgent);
        self.delayed_ack_timer.stop();
        Ok(is_new)
    }

    /// Takes a FORWARD-TSN or I-FORWARD-TSN with a valid TSN: each number up to this one counts as seen. Says whether the cumulative TSN
    /// moved.
    pub fn handle_forward_tsn(&mut self, _now: SocketTime, new_cumulative_tsn: Tsn) -> bool
        requires { IsTrue (is_valid self.old.tracker (number_of self.old new_cumulative_tsn.0)) }
        ensures answer { result ≡ moves_on (number_of self.old new_cumulative_tsn.0) self.old.tracker }
        ensures seen { let n = number_of self.old new_cumulative_tsn.0 in (m : ℕ) → has_seen self.new.tracker m ≡ (nat_le m n || has_seen self.old.tracker m) }
        ensures value { self.new ≡ record self.old { tracker = forward (number_of self.old new_cumulative_tsn.0) self.old.tracker } }
        ensures tracker { IsTracker self.new.tracker }
    {
        let number = self.unwrapped(new_cumulative_tsn);
        let moved = self.seen.forward(number);
        self.ack_state = self.ack_state.after(!moved);
        self.delayed_ack_timer.stop();
        moved
    }

    /// A SACK of what was seen: the cumulative TSN, the first twenty runs above it but those that end more than 65,535 above it, and the first
    /// twenty duplicates since the last SACK, which are reported once. `a_rwnd` is the window in bytes. Without memory nothing changes.
    pub fn create_selective_ack(&mut self, a_rwnd: u32) -> Result<SackChunk, AllocError>
        ensures chunk { IfOk result (λ c. sack_chunk_tree c ≡ sack_chunk (sack a_rwnd self.old)) }
        ensures seen { IfOk result (λ c. (offset : ℕ) → IsTrue (is_covered c.gap_ack_blocks.items offset) → IsTrue (has_seen self.old.tracker (self.old.tracker.seen.front + offset))) }

        // The blocks are the maximal runs of what was seen above the cumulative TSN, ascending, but those behind the first
        // twenty or with an end more than 65,535 above it; the duplicates came again (clause `again` of `observe`).
        ensures maximal { IfOk result (λ c. All (IsReported self.old.tracker.seen) c.gap_ack_blocks.items) }
        ensures ascending { IfOk result (λ c. AreRuns 2 c.gap_ack_blocks.items) }
        ensures every { IfOk result (λ c. (run : GapAckBlock) → IsReported self.old.tracker.seen run → Contains c.gap_ack_blocks.items run) }
        ensures once { IfOk result (λ c. (c.duplicate_tsns.items ≡ tsns self.old.first self.old.tracker.duplicates) × Ascend 0 self.old.tracker.duplicates) }
        ensures few { IfOk result (λ c. length c.duplicate_tsns.items ≤ 20) }

        ensures value { OnOk result (self.new ≡ record self.old { tracker = clear_duplicates self.old.tracker }) }
        ensures tracker { IsTracker self.new.tracker }
        ensures err { OnErr result (self.new ≡ self.old) }
    {
        let gap_ack_blocks = self.seen.gap_ack_blocks(self.alloc)?;
        let duplicate_tsns = self.duplicates.tsns(self.alloc, self.first)?;
        self.duplicates.clear();
        Ok(SackChunk {
            cumulative_tsn_ack: self.last_cumulative_acked_tsn(),
            a_rwnd,
            gap_ack_blocks,
            duplicate_tsns,
        })
    }

    /// Whether an acknowledgement is due, or, with `also_if_delayed`, waits. If so, it counts as sent.
    pub fn should_send_ack(&mut self, _now: SocketTime, also_if_delayed: bool) -> bool
        ensures answer { result ≡ is_ack_due also_if_delayed self.old.tracker.ack }
        ensures value { self.new ≡ record self.old { tracker = take_ack also_if_delayed self.old.tracker } }
        ensures tracker { IsTracker self.new.tracker }
    {
        if !self.ack_state.is_ack_due(also_if_delayed) {
            return false;
        }
        self.ack_state = AckState::Idle;
        self.delayed_ack_timer.stop();
        true
    }

    /// Whether an acknowledgement is to go out at once.
    pub fn owes_ack(&self) -> bool
        ensures { result ≡ is_ack_due false self.now.tracker.ack }
    {
        self.ack_state.is_ack_due(false)
    }

    /// Whether observing this TSN would raise the cumulative TSN.
    pub fn will_increase_cum_ack_tsn(&self, tsn: Tsn) -> bool
        ensures { result ≡ (number_of self.now tsn.0 == self.now.tracker.seen.front + 1) }
    {
        self.unwrapped(tsn) == self.seen.front() + 1
    }

    /// Has an acknowledgement sent at once.
    pub fn force_immediate_sack(&mut self)
        ensures value { self.new ≡ record self.old { tracker = acking AckState.Immediate self.old.tracker } }
        ensures tracker { IsTracker self.new.tracker }
    {
        self.ack_state = AckState::Immediate;
        self.delayed_ack_timer.stop();
    }

    /// Says whether the timer of a delayed acknowledgement has expired, and then has it sent at once.
    pub fn handle_timeout(&mut self, now: SocketTime) -> bool
        ensures answer { result ≡ is_due now self.old.tracker.delay }
        ensures value { self.new ≡ record self.old { tracker = ack_timeout now self.old.tracker } }
        ensures tracker { IsTracker self.new.tracker }
    {
        if !self.delayed_ack_timer.expire(now) {
            return false;
        }
        self.ack_state = AckState::Immediate;
        self.delayed_ack_timer.stop();
        true
    }

    /// Takes the end of a packet: an acknowledgement that has become necessary by it starts to wait.
    pub fn observe_packet_end(&mut self, now: SocketTime)
        ensures value { self.new ≡ record self.old { tracker = packet_end now self.old.tracker } }
        ensures tracker { IsTracker self.new.tracker }
    {
        if self.ack_state == AckState::Becoming {
            self.ack_state = AckState::Delayed;
            self.delayed_ack_timer.start(now);
        }
    }

    /// Whether the tracker can be handed over: numbers must not be missing among those that came.
    pub fn get_handover_readiness(&self) -> HandoverReadiness
        ensures { result.0 ≡ readiness self.now.tracker }
    {
        HandoverReadiness::DATA_TRACKER_TSN_BLOCKS_PENDING & self.seen.has_gap()
    }

    /// Writes the cumulative TSN, as `last_assembled_tsn` too, and whether DATA came.
    pub fn add_to_handover_state(&self, state: &mut SocketHandoverState)
        ensures { let old = handover_state_of state.old in handover_state_of state.new ≡ record old { rx = write_handover self.now old.rx } }
    {
        let cumulative_tsn = self.last_cumulative_acked_tsn().0;
        state.rx.seen_packet = self.seen_packet;
        state.rx.last_cumulative_acked_tsn = cumulative_tsn;
        state.rx.last_assembled_tsn = cumulative_tsn;
    }

    /// Begins at the record's cumulative TSN, which may lie below the one before. For a tracker that has seen nothing.
    pub fn restore_from_state(&mut self, state: &SocketHandoverState)
        ensures value { self.new ≡ restore (receive_of state.now.rx) self.old }
        ensures tracker { IsTracker self.new.tracker }
    {
        let next = Tsn(state.rx.last_cumulative_acked_tsn) + 1;
        let front = (1 << 32) - 1 + next.steps_from(self.first);
        self.begin = front;
        self.seen.restart(front);
        self.seen_packet = state.rx.seen_packet;
    }

    /// The number that the TSN stands for.
    fn unwrapped(&self, tsn: Tsn) -> u64
        ensures value { result ≡ number_of self.now tsn.0 }
        ensures bound { result < 2 ^ 63 + 2 ^ 33 }
    {
        let front = self.seen.front();
        let ahead = tsn.steps_from(Tsn::wrapped(self.first, front));
        if ahead < Tsn::SPACE / 2 {
            front + ahead
        } else {
            front + ahead - Tsn::SPACE
        }
    }
}

ghost use Rattle.sctp_rx.specs.DataTracker.{ack_delay, is_urgent};

/// How long an acknowledgement waits at most.
fn ack_delay(rto: Duration, most: Duration) -> Duration
    ensures { as_nanos result ≡ ack_delay (as_nanos rto) (as_nanos most) }
{
    let half = rto / 2;
    if half.as_nanos() < most.as_nanos() {
        half
    } else {
        most
    }
}

/// Whether there is a reason to acknowledge at once: a TSN that came before, one that is missing (RFC 9260 section 6.2), the peer's wish
/// (RFC 7053), or the first DATA chunk of all.
fn is_urgent(is_new: bool, has_gap: bool, is_immediate: bool, seen_packet: bool) -> bool
    ensures { result ≡ is_urgent is_new has_gap is_immediate seen_packet }
{
    !is_new || has_gap || is_immediate || !seen_packet
}
