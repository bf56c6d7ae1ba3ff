//! A timer that is asked whether it expired, with its backoff.

ghost use Rattle.std.specs.Prelude.{◌≡◌, ◌+◌, ◌-◌, ◌^◌, ◌≤◌, min, option_map};
ghost use Rattle.std.specs.Duration.{as_nanos};

use sctp_serial::SocketTime;
use std::marker::Model;
use std::time::Duration;

/// The longest wait after an expiry: 24 hours, in nanoseconds.
pub const MAX_DURATION: u128 = 24 * 3600 * 1_000_000_000;

/// An exponential wait is doubled no more often.
pub const MAX_RESTARTS: u64 = 31;

/// How the wait grows from one expiry to the next.
#[derive(Clone, Copy, Debug, PartialEq, Eq)]
pub enum BackoffAlgorithm {
    /// Each is the duration.
    Fixed,
    /// The first two are the duration, each later one doubles it (RFC 9260 section 6.3.3).
    Exponential,
}

/// A timer that runs until it is stopped, or has expired too often. It knows no time: who asks names the moment.
#[derive(Drop)]
pub struct Timer {
    duration: Duration,
    backoff_algorithm: BackoffAlgorithm,
    max_restarts: Option<u32>,
    max_backoff_duration: Option<Duration>,
    next_expiry: Option<SocketTime>,
    expiry_count: u64,
}

impl Model for Timer {
    ghost use Rattle.std.specs.Prelude.{option_map};
    ghost use Rattle.std.specs.Duration.{as_nanos};
    ghost use Rattle.sctp_state.specs.Timer.{Timer};

    ghost Value = { Timer };

    ghost view = { λ t. record { duration = as_nanos t.duration; backoff = t.backoff_algorithm; restarts = t.max_restarts; most = option_map as_nanos t.max_backoff_duration; due = t.next_expiry; expiries = t.expiry_count } };
}

impl Timer {
    ghost use Rattle.sctp_state.specs.Timer.{timer, start, start_backed_off, stop, expire, is_due, is_running, next_expiry, set_duration, backed_off, backed_off_with, cap_at, longest, is_last_expiry};

    /// A stopped timer. After more than `max_restarts` expiries it stops by itself, and no wait after an expiry is
    /// longer than `max_backoff_duration`.
    pub fn new(
        duration: Duration,
        backoff_algorithm: BackoffAlgorithm,
        max_restarts: Option<u32>,
        max_backoff_duration: Option<Duration>,
    ) -> Timer
        ensures { result ≡ timer (as_nanos duration) backoff_algorithm max_restarts (option_map as_nanos max_backoff_duration) }
    {
        Timer {
            duration,
            backoff_algorithm,
            max_restarts,
            max_backoff_duration,
            next_expiry: None,
            expiry_count: 0,
        }
    }

    /// Starts the timer anew: it expires once its duration has passed. With a duration of zero it is stopped.
    pub fn start(&mut self, now: SocketTime)
        ensures { self.new ≡ start now self.old }
    {
        self.expiry_count = 0;
        self.next_expiry = if self.duration.is_zero() {
            None
        } else {
            Some(now + self.duration)
        };
    }

    /// Starts the timer with the wait to which it has backed off, where that is longer: it is its duration then, until another one
    /// is set.
    pub fn start_backed_off(&mut self, now: SocketTime)
        ensures { self.new ≡ start_backed_off now self.old }
    {
        let count = self.expiry_count.saturating_add(1);
        let nanos = Timer::doubled(self.backoff_algorithm, self.duration, count);
        let wait = Timer::bounded(nanos, self.max_backoff_duration);
        if self.duration < wait {
            self.duration = wait;
        }
        self.start(now);
    }

    /// Stops the timer: it expires no more until it is started.
    pub fn stop(&mut self)
        ensures { self.new ≡ stop self.old }
    {
        self.next_expiry = None;
    }

    /// Whether the timer runs and its next expiry has come. If so, it goes on to the one after, which is counted from
    /// this one and not from `now`.
    pub fn expire(&mut self, now: SocketTime) -> bool
        ensures answer { result ≡ is_due now self.old }
        ensures after { self.new ≡ expire now self.old }
    {
        let Some(expiry) = self.next_expiry else {
            return false;
        };
        if now < expiry {
            return false;
        }
        let count = self.expiry_count.saturating_add(1);
        self.expiry_count = count;
        self.next_expiry = if Timer::is_last_expiry(self.max_restarts, count) {
            None
        } else {
            let nanos = Timer::doubled(self.backoff_algorithm, self.duration, count);
            Some(expiry + Timer::bounded(nanos, self.max_backoff_duration))
        };
        true
    }

    /// When the timer expires next: the infinite future where it is stopped.
    pub fn next_expiry(&self) -> SocketTime
        ensures { result ≡ next_expiry self.now }
    {
        self.next_expiry.unwrap_or(SocketTime::infinite_future())
    }

    /// Whether an expiry lies ahead.
    pub fn is_running(&self) -> bool
        ensures { result ≡ is_running self.now }
    {
        self.next_expiry.is_some()
    }

    /// How often it has expired since it was started last.
    pub fn expiry_count(&self) -> u64
        ensures { result ≡ self.now.expiries }
    {
        self.expiry_count
    }

    /// Sets the duration, from the next start or expiry on.
    pub fn set_duration(&mut self, duration: Duration)
        ensures { self.new ≡ set_duration (as_nanos duration) self.old }
    {
        self.duration = duration;
    }

    /// The duration that is set.
    pub fn duration(&self) -> Duration
        ensures { as_nanos result ≡ self.now.duration }
    {
        self.duration
    }

    /// Another span, doubled as often as the timer expired since it was started last, at most `most`.
    pub fn backed_off_with(&self, span: Duration, most: Duration) -> Duration
        ensures { as_nanos result ≡ backed_off_with self.now (as_nanos span) (as_nanos most) }
    {
        let count = self.expiry_count.saturating_add(1);
        let nanos = Timer::doubled(BackoffAlgorithm::Exponential, span, count);
        Timer::bounded(nanos, Some(most))
    }

    /// Whether the timer stops at its expiry of this number.
    fn is_last_expiry(max_restarts: Option<u32>, count: u64) -> bool
        ensures { result ≡ is_last_expiry max_restarts count }
    {
        match max_restarts {
            Some(most) => (most as u64) < count,
            None => false,
        }
    }

    /// The nanoseconds from the expiry of this number to the next one, before they are bounded.
    fn doubled(backoff_algorithm: BackoffAlgorithm, duration: Duration, count: u64) -> u128
        ensures value { result ≡ backed_off backoff_algorithm (as_nanos duration) count }
    {
        match backoff_algorithm {
            BackoffAlgorithm::Fixed => duration.as_nanos(),
            BackoffAlgorithm::Exponential => duration.as_nanos() * Timer::doublings(count),
        }
    }

    fn doublings(count: u64) -> u128
        ensures value { result ≡ 2 ^ min (count - 1) 31 }
        ensures small { result ≤ 2 ^ 31 }
    {
        1 << count.saturating_sub(1).min(MAX_RESTARTS)
    }

    fn bounded(nanos: u128, max_backoff_duration: Option<Duration>) -> Duration
        ensures { as_nanos result ≡ min (cap_at (option_map as_nanos max_backoff_duration) nanos) longest }
    {
        let capped = match max_backoff_duration {
            Some(most) => nanos.min(most.as_nanos()),
            None => nanos,
        };
        Duration::from_nanos_u128(capped.min(MAX_DURATION))
    }
}
