//! The windows of a sender: how much it may have in flight (RFC 9260 section 6.1).

ghost use Rattle.std.specs.Prelude.{◌≡◌, is_some};
ghost use Rattle.sctp_state.specs.Handover.{transmission_of};
ghost use Rattle.sctp_state.specs.Options.{options_of, IsValid};
ghost use Rattle.sctp_tx.specs.Handover.{windows_from};
ghost use Rattle.sctp_tx.specs.Windows.{at_first, grow, recovering, timed_out, maybe_exit_fast_recovery, is_open, update_rwnd, consume_rwnd, is_shut, room, may_send};

use crate::retransmission_queue::congestion_control::CongestionControl;
use sctp_state::Options;
use sctp_state::api::handover::HandoverTransmission;
use std::marker::Model;

/// What congestion control allows, and what the peer does. Sizes are in bytes. They stop at the greatest number of their type.
#[derive(Drop)]
pub struct Windows {
    pub congestion: CongestionControl,
    /// What the peer's window has left.
    pub rwnd: usize,
    /// Below this congestion window new fragments may be smaller than a packet.
    pub unfragmented_cwnd: usize,
    /// Whether new fragments wait for what is to be sent again (RFC 9260 section 6.1 rule C), and a window that opens is used.
    pub avoids_stalls: bool,
}

impl Model for Windows {
    ghost use Rattle.sctp_tx.specs.Windows.{Windows, windows_of};

    ghost Value = { Windows };

    ghost view = { λ w. windows_of w.congestion w.rwnd w.unfragmented_cwnd w.avoids_stalls };
}

impl Windows {
    /// `a_rwnd` is the peer's first window.
    pub fn new(options: &Options, a_rwnd: u32) -> Windows
        requires { IsValid (options_of options.now) }
        ensures { result ≡ at_first (options_of options.now) a_rwnd }
    {
        Windows {
            congestion: CongestionControl::new(options, a_rwnd as usize),
            rwnd: a_rwnd as usize,
            unfragmented_cwnd: options.avoid_fragmentation_cwnd_mtus * options.mtu,
            avoids_stalls: options.avoid_stalls,
        }
    }

    /// The largest packet.
    pub fn mtu(&self) -> usize
        ensures { result ≡ self.now.mtu }
    {
        self.congestion.mtu
    }

    /// The congestion window, in bytes.
    pub fn cwnd(&self) -> usize
        ensures { result ≡ self.now.cwnd }
    {
        self.congestion.cwnd
    }

    /// Sets the congestion window, in bytes.
    pub fn set_cwnd(&mut self, cwnd: usize)
        ensures { self.new ≡ record self.old { cwnd = cwnd } }
    {
        self.congestion.cwnd = cwnd;
    }

    /// The slow start threshold, in bytes.
    pub fn ssthresh(&self) -> usize
        ensures { result ≡ self.now.ssthresh }
    {
        self.congestion.ssthresh
    }

    /// The bytes acknowledged in congestion avoidance towards the next growth of the window (RFC 9260 section 7.2.2).
    pub fn partial_bytes_acked(&self) -> usize
        ensures { result ≡ self.now.partial_bytes_acked }
    {
        self.congestion.partial_bytes_acked
    }

    /// What the peer's window has left, in bytes.
    pub fn rwnd(&self) -> usize
        ensures { result ≡ self.now.rwnd }
    {
        self.rwnd
    }

    /// Whether a fast recovery lasts (RFC 9260 section 7.2.4).
    pub fn is_recovering(&self) -> bool
        ensures { result ≡ is_some self.now.fast_recovery_exit }
    {
        self.congestion.fast_recovery_exit.is_some()
    }

    /// Whether there is no fast recovery once all TSNs up to this one, unwrapped, are acknowledged.
    pub fn is_open_at(&self, cumulative: u64) -> bool
        ensures { result ≡ is_open cumulative self.now }
    {
        self.congestion.is_open_at(cumulative)
    }

    /// The cumulative TSN moved outside fast recovery: `before` bytes were unacknowledged, of which `acked` newly aren't.
    pub fn grow(&mut self, before: usize, acked: usize)
        ensures { self.new ≡ grow before acked self.old }
    {
        self.congestion.grow(before, acked);
    }

    /// An item was reported missing for the third time outside fast recovery, which lasts until `exit` is acknowledged.
    pub fn recover(&mut self, exit: u128)
        ensures { self.new ≡ recovering exit self.old }
    {
        self.congestion.recover(exit);
    }

    /// The timer of retransmissions expired. With stalls avoided that ends a fast recovery: slow start follows (RFC 9260 section 7.2.3).
    pub fn time_out(&mut self)
        ensures { self.new ≡ timed_out self.old }
    {
        self.congestion.time_out();
        if self.avoids_stalls {
            self.congestion.fast_recovery_exit = None;
        }
    }

    /// All TSNs up to this one, unwrapped, are acknowledged.
    pub fn maybe_exit_fast_recovery(&mut self, cumulative: u64)
        ensures { self.new ≡ maybe_exit_fast_recovery cumulative self.old }
    {
        self.congestion.maybe_exit_fast_recovery(cumulative);
    }

    /// The peer advertised its window, while so much payload was unacknowledged, which may not have reached it (RFC 9260 section 6.2.1).
    pub fn update_receiver_window(&mut self, a_rwnd: u32, payload: usize)
        ensures { self.new ≡ update_rwnd a_rwnd payload self.old }
    {
        self.rwnd = (a_rwnd as usize).saturating_sub(payload);
    }

    /// Whether the peer's window is closed, and will be used once it opens: with stalls avoided alone.
    pub fn is_shut(&self) -> bool
        ensures { result ≡ is_shut self.now }
    {
        self.avoids_stalls && self.rwnd == 0
    }

    /// Chunks of this size in all, with padding, go out.
    pub fn take(&mut self, size: usize)
        ensures { self.new ≡ consume_rwnd size self.old }
    {
        self.rwnd = self.rwnd.saturating_sub(size);
    }

    /// What may go yet, with so much in flight. With nothing in flight the peer's window doesn't count, so that one chunk asks for a SACK
    /// that tells of a window that has opened again (RFC 9260 section 6.1, rule A).
    pub fn room(&self, is_quiet: bool, flight: usize) -> usize
        ensures { result ≡ room is_quiet flight self.now }
    {
        let left = self.congestion.cwnd.saturating_sub(flight);
        if is_quiet { left } else { left.min(self.rwnd) }
    }

    /// Whether new fragments may go: with a small congestion window, or with room for a whole packet.
    pub fn may_send(&self, is_quiet: bool, flight: usize) -> bool
        ensures { result ≡ may_send is_quiet flight self.now }
    {
        self.congestion.cwnd < self.unfragmented_cwnd
            || self.congestion.mtu <= self.room(is_quiet, flight)
    }

    /// Takes up the windows of a record. There is no fast recovery.
    pub fn restore(&mut self, tx: &HandoverTransmission)
        ensures { self.new ≡ windows_from (transmission_of tx.now) self.old }
    {
        self.congestion.cwnd = tx.cwnd as usize;
        self.congestion.ssthresh = tx.ssthresh as usize;
        self.congestion.partial_bytes_acked = tx.partial_bytes_acked as usize;
        self.congestion.fast_recovery_exit = None;
        self.rwnd = tx.rwnd as usize;
    }
}
