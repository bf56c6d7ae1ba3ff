//! An amount that says when it falls to a threshold.

ghost use Rattle.std.specs.Prelude.{◌≡◌, ◌+◌, ◌≤◌, ◌<◌, ◌^◌};

use std::marker::Model;

/// An amount of bytes and its low threshold.
#[derive(Drop)]
pub struct ThresholdWatcher {
    amount: usize,
    low_threshold: usize,
}

impl Model for ThresholdWatcher {
    ghost use Rattle.sctp_state.specs.ThresholdWatcher.{Watched};

    ghost Value = { Watched };

    ghost view = { λ w. record { amount = w.amount; low_threshold = w.low_threshold } };
}

impl ThresholdWatcher {
    ghost use Rattle.sctp_state.specs.ThresholdWatcher.{watched, raise, lower, set_low_threshold, crosses};

    /// No bytes, with this threshold.
    pub fn new(low_threshold: usize) -> ThresholdWatcher
        ensures { result ≡ watched low_threshold }
    {
        ThresholdWatcher {
            amount: 0,
            low_threshold,
        }
    }

    /// The amount, in bytes.
    pub fn amount(&self) -> usize
        ensures { result ≡ self.now.amount }
    {
        self.amount
    }

    /// The threshold, in bytes.
    pub fn low_threshold(&self) -> usize
        ensures { result ≡ self.now.low_threshold }
    {
        self.low_threshold
    }

    /// Sets the threshold. The answer says whether an amount that was above the threshold is at most it now.
    pub fn set_low_threshold(&mut self, bytes: usize) -> bool
        ensures after { self.new ≡ set_low_threshold bytes self.old }
        ensures answer { result ≡ crosses self.old self.new }
    {
        let was_above = self.low_threshold < self.amount;
        self.low_threshold = bytes;
        was_above && self.amount <= self.low_threshold
    }

    /// Adds bytes. No threshold is crossed downwards.
    pub fn increase(&mut self, bytes: usize)
        requires { self.old.amount + bytes < 2 ^ 64 }
        ensures { self.new ≡ raise bytes self.old }
    {
        self.amount += bytes;
    }

    /// Takes bytes off. The answer says whether the amount fell from above the threshold to at most it.
    pub fn decrease(&mut self, bytes: usize) -> bool
        requires { bytes ≤ self.old.amount }
        ensures after { self.new ≡ lower bytes self.old }
        ensures answer { result ≡ crosses self.old self.new }
    {
        let was_above = self.low_threshold < self.amount;
        self.amount -= bytes;
        was_above && self.amount <= self.low_threshold
    }

    /// Whether the amount would fall from above the threshold to at most it, if these bytes were taken off.
    pub fn is_crossed_by(&self, bytes: usize) -> bool
        requires { bytes ≤ self.now.amount }
        ensures { result ≡ crosses self.now (lower bytes self.now) }
    {
        self.low_threshold < self.amount && self.amount - bytes <= self.low_threshold
    }

    /// Whether the amount would be above the threshold that is there and at most this one.
    pub fn is_crossed_at(&self, low_threshold: usize) -> bool
        ensures { result ≡ crosses self.now (set_low_threshold low_threshold self.now) }
    {
        self.low_threshold < self.amount && self.amount <= low_threshold
    }
}
