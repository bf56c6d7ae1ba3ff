//! How long an answer is waited for, by the round trip times that were measured.

ghost use Rattle.std.specs.Prelude.{◌≡◌, ◌+◌, ◌-◌, ◌*◌, ◌/◌, ◌≤◌, max, min, true};
ghost use Rattle.std.specs.Duration.{as_nanos, max_nanos};
ghost use Rattle.sctp_state.specs.Options.{options_of};

use crate::Options;
use crate::timer::MAX_DURATION;
use std::marker::Model;
use std::time::Duration;

/// The retransmission timeout (RFC 9260 section 6.3.1), in whole nanoseconds: the smoothed round trip time is kept times
/// 8 and its variance times 4, and divisions round down.
#[derive(Drop)]
pub struct RetransmissionTimeout {
    rtt_max: Duration,
    rto_initial: Duration,
    rto_max: Duration,
    rto_min: Duration,
    min_rtt_variance: Duration,
    is_sampled: bool,
    scaled_srtt: u128,
    scaled_variance: u128,
}

impl Model for RetransmissionTimeout {
    ghost use Rattle.std.specs.Prelude.{◌*◌, ◌≤◌};
    ghost use Rattle.std.specs.Duration.{as_nanos, max_nanos};
    ghost use Rattle.sctp_state.specs.RetransmissionTimeout.{Rtt};
    ghost use Rattle.sctp_state.specs.Timer.{longest};

    ghost Value = { Rtt };

    ghost view = { λ t. record { rtt_max = as_nanos t.rtt_max; rto_initial = as_nanos t.rto_initial; rto_max = as_nanos t.rto_max; rto_min = as_nanos t.rto_min; min_rtt_variance = as_nanos t.min_rtt_variance; is_sampled = t.is_sampled; s8 = t.scaled_srtt; v4 = t.scaled_variance } };

    ghost invariant = { λ t. (t.scaled_srtt ≤ 8 * longest) × (t.scaled_variance ≤ max_nanos) };
}

impl RetransmissionTimeout {
    ghost use Rattle.sctp_state.specs.RetransmissionTimeout.{unsampled, rto, srtt, observe_rto, IsBetween};

    /// No round trip time is known yet.
    pub fn new(options: &Options) -> RetransmissionTimeout
        ensures { result ≡ unsampled (options_of options.now) }
    {
        RetransmissionTimeout {
            rtt_max: options.rtt_max,
            rto_initial: options.rto_initial,
            rto_max: options.rto_max,
            rto_min: options.rto_min,
            min_rtt_variance: options.min_rtt_variance,
            is_sampled: false,
            scaled_srtt: 0,
            scaled_variance: 0,
        }
    }

    /// Takes a measured round trip time into account, unless it is longer than `rtt_max` or 24 hours.
    pub fn observe_rto(&mut self, rtt: Duration)
        ensures { self.new ≡ observe_rto (as_nanos rtt) self.old }
    {
        let sample = rtt.as_nanos();
        if self.rtt_max.as_nanos() < sample || MAX_DURATION < sample {
            return;
        }
        if self.is_sampled {
            let srtt = self.scaled_srtt / 8;
            self.scaled_srtt = self.scaled_srtt - srtt + sample;
            self.scaled_variance = self.scaled_variance - self.scaled_variance / 4
                + sample.abs_diff(srtt);
        } else {
            self.is_sampled = true;
            self.scaled_srtt = 8 * sample;
            self.scaled_variance = 2 * sample;
        }
        self.scaled_variance = self
            .scaled_variance
            .max(self.min_rtt_variance.as_nanos() / 2);
    }

    /// How long to wait: the smoothed round trip time and four times its variance, held between `rto_min` and
    /// `rto_max`; `rto_initial` before the first sample.
    pub fn rto(&self) -> Duration
        ensures value { as_nanos result ≡ rto self.now }
        ensures held { self.now.is_sampled ≡ true → self.now.rto_min ≤ self.now.rto_max → IsBetween self.now.rto_min self.now.rto_max (as_nanos result) }
    {
        if !self.is_sampled {
            return self.rto_initial;
        }
        let nanos = self.scaled_srtt / 8 + self.scaled_variance;
        let nanos = nanos
            .max(self.rto_min.as_nanos())
            .min(self.rto_max.as_nanos());
        Duration::from_nanos_u128(nanos)
    }

    /// The smoothed round trip time; `rto_initial` before the first sample.
    pub fn srtt(&self) -> Duration
        ensures { as_nanos result ≡ srtt self.now }
    {
        if self.is_sampled {
            Duration::from_nanos_u128(self.scaled_srtt / 8)
        } else {
            self.rto_initial
        }
    }
}
