//! How often in turn the peer didn't answer (RFC 9260 section 8.1).

ghost use Rattle.std.specs.Prelude.{◌≡◌, ◌≤◌};
ghost use Rattle.sctp_state.specs.TxErrorCounter.{no_errors, highest};

use std::marker::Model;

/// Counts what wasn't answered, up to one above its limit. Without a limit nothing is counted.
#[derive(Debug, Drop)]
pub struct TxErrorCounter {
    error_counter: u64,
    limit: Option<u32>,
}

impl Model for TxErrorCounter {
    ghost use Rattle.std.specs.Prelude.{◌≤◌};
    ghost use Rattle.sctp_state.specs.TxErrorCounter.{ErrorCounter, highest};

    ghost Value = { ErrorCounter };

    ghost view = { λ c. record { limit = c.limit; value = c.error_counter } };

    ghost invariant = { λ c. c.error_counter ≤ highest (record { limit = c.limit; value = c.error_counter }) };
}

impl TxErrorCounter {
    ghost use Rattle.sctp_state.specs.TxErrorCounter.{one_error, is_exhausted};

    /// Nothing is counted yet.
    pub fn new(limit: Option<u32>) -> TxErrorCounter
        ensures { result ≡ no_errors limit }
    {
        TxErrorCounter {
            error_counter: 0,
            limit,
        }
    }

    /// Something wasn't answered.
    pub fn increment(&mut self)
        ensures { self.new ≡ one_error self.old }
    {
        if let Some(limit) = self.limit {
            let limit = u64::from(limit);
            if self.error_counter <= limit {
                self.error_counter += 1;
            }
        }
    }

    /// The peer answered.
    pub fn reset(&mut self)
        ensures { self.new ≡ no_errors self.old.limit }
    {
        self.error_counter = 0;
    }

    /// Whether there were more errors than the limit.
    pub fn is_exhausted(&self) -> bool
        ensures { result ≡ is_exhausted self.now }
    {
        match self.limit {
            Some(limit) => self.error_counter > u64::from(limit),
            None => false,
        }
    }

    /// The errors since the peer answered last, at most one more than the limit; 0 without a limit.
    pub fn value(&self) -> u64
        ensures value { result ≡ self.now.value }
        ensures bound { result ≤ highest self.now }
    {
        self.error_counter
    }
}
