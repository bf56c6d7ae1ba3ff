//! Congestion control (RFC 9260 section 7.2): slow start, congestion avoidance, fast recovery, and timeouts.

ghost use Rattle.std.specs.Prelude.{◌≡◌, ◌+◌, nat_le};
ghost use Rattle.sctp_state.specs.Options.{options_of, IsValid};
ghost use Rattle.sctp_tx.specs.CongestionControl.{at_first, grow, slow_start, avoidance, halved_cwnd, recovering, timed_out, maybe_exit_fast_recovery, is_open};

use sctp_state::Options;

/// How much may be in flight as far as the network goes. Sizes are in bytes. They stop at the greatest number of their type.
#[derive(Clone, Copy, Debug, PartialEq, Eq)]
pub struct CongestionControl {
    /// The largest packet.
    pub mtu: usize,
    /// A loss leaves at least so large a slow start threshold, and congestion window but after T3-rtx.
    pub least_cwnd: usize,
    /// The congestion window.
    pub cwnd: usize,
    /// Up to this congestion window, slow start.
    pub ssthresh: usize,
    /// What was acknowledged towards the next growth in congestion avoidance.
    pub partial_bytes_acked: usize,
    /// Fast recovery, until this TSN, unwrapped, is acknowledged.
    pub fast_recovery_exit: Option<u128>,
}

impl CongestionControl {
    /// Slow start goes up to `ssthresh`.
    pub fn new(options: &Options, ssthresh: usize) -> CongestionControl
        requires { IsValid (options_of options.now) }
        ensures { result ≡ at_first (options_of options.now) ssthresh }
    {
        CongestionControl {
            mtu: options.mtu,
            least_cwnd: options.cwnd_mtus_min * options.mtu,
            cwnd: options.cwnd_mtus_initial * options.mtu,
            ssthresh,
            partial_bytes_acked: 0,
            fast_recovery_exit: None,
        }
    }

    /// The cumulative TSN moved outside fast recovery: `before` bytes were unacknowledged, of which `acked` newly aren't.
    pub fn grow(&mut self, before: usize, acked: usize)
        ensures { self.new ≡ grow before acked self.old }
    {
        if self.cwnd <= self.ssthresh {
            self.start_slowly(before, acked);
        } else {
            self.avoid_congestion(self.partial_bytes_acked.saturating_add(acked));
        }
    }

    /// A window that is used grows by what was acknowledged, at most by a packet (RFC 9260 section 7.2.1).
    fn start_slowly(&mut self, before: usize, acked: usize)
        ensures { self.new ≡ record self.old { cwnd = slow_start (nat_le self.old.cwnd (before + self.old.mtu)) acked self.old } }
    {
        if self.cwnd <= before.saturating_add(self.mtu) {
            self.cwnd = self.cwnd.saturating_add(acked.min(self.mtu));
        }
    }

    /// A packet more for each window that was acknowledged (RFC 9260 section 7.2.2).
    fn avoid_congestion(&mut self, sum: usize)
        ensures { self.new ≡ avoidance (nat_le self.old.cwnd sum) sum self.old }
    {
        if self.cwnd <= sum {
            self.partial_bytes_acked = sum - self.cwnd;
            self.cwnd = self.cwnd.saturating_add(self.mtu);
        } else {
            self.partial_bytes_acked = sum;
        }
    }

    /// What a loss leaves of the window (RFC 9260 section 7.2.3).
    fn halved(&self) -> usize
        ensures { result ≡ halved_cwnd self.now }
    {
        (self.cwnd / 2).max(self.least_cwnd)
    }

    /// An item was reported missing for the third time outside fast recovery, which lasts until `exit` is acknowledged: the window is
    /// halved once for all that was lost in one flight (RFC 9260 section 7.2.4).
    pub fn recover(&mut self, exit: u128)
        ensures { self.new ≡ recovering exit self.old }
    {
        self.ssthresh = self.halved();
        self.cwnd = self.ssthresh;
        self.fast_recovery_exit = Some(exit);
    }

    /// The timer of retransmissions expired: slow start begins anew, with one packet (RFC 9260 section 7.2.3).
    pub fn time_out(&mut self)
        ensures { self.new ≡ timed_out self.old }
    {
        self.ssthresh = self.halved();
        self.cwnd = self.mtu;
    }

    /// All TSNs up to this one, unwrapped, are acknowledged.
    pub fn maybe_exit_fast_recovery(&mut self, cumulative: u64)
        ensures { self.new ≡ maybe_exit_fast_recovery cumulative self.old }
    {
        if self.is_open_at(cumulative) {
            self.fast_recovery_exit = None;
        }
    }

    /// Whether there is no fast recovery once all TSNs up to this one are acknowledged.
    pub fn is_open_at(&self, cumulative: u64) -> bool
        ensures { result ≡ is_open cumulative self.now }
    {
        match self.fast_recovery_exit {
            Some(exit) => exit <= cumulative as u128,
            None => true,
        }
    }
}
