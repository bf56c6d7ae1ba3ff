//! Two ends that exchange what they send, over a link that loses packets.

use crate::events::half_seconds;
use crate::pair::Pair;
use sctp_world::{End, Event, WorldError};

/// The next packet of each end that is on its way, how often time passed, and each how many-th packet is lost.
#[derive(Drop)]
pub struct Link {
    a: usize,
    b: usize,
    passed: u64,
    lost: usize,
}

impl Link {
    pub fn new() -> Link {
        Link {
            a: 0,
            b: 0,
            passed: 0,
            lost: 0,
        }
    }

    /// From now on each how many-th packet of an end is lost; with 0 or 1 none is.
    pub fn lose(&mut self, each: u64) {
        self.lost = usize::try_from(each).unwrap_or(0);
    }

    /// This packet, or the next one where it is lost.
    fn not_lost(&self, number: usize) -> usize {
        if self.lost > 1 && number % self.lost == self.lost - 1 {
            number.saturating_add(1)
        } else {
            number
        }
    }

    /// Half a second passes, at a and then at b.
    fn pass_time(&mut self) -> Event {
        self.passed = self.passed.saturating_add(1);
        let end = if self.passed % 2 == 0 { End::B } else { End::A };
        Event::Time(end, half_seconds(self.passed.div_ceil(2)))
    }

    /// The next event: a packet that is on its way is given, or time passes.
    fn next_event<P: Pair>(&mut self, pair: &P) -> Event {
        let (a, b) = (self.not_lost(self.a), self.not_lost(self.b));
        if pair.has_sent(End::A, a) {
            self.a = a.saturating_add(1);
            Event::Give(a, End::B)
        } else if pair.has_sent(End::B, b) {
            self.b = b.saturating_add(1);
            Event::Give(b, End::A)
        } else {
            self.pass_time()
        }
    }
}

/// Runs so many events, each as what came before leads to it.
pub fn exchange<P: Pair>(pair: &mut P, link: &mut Link, events: u64) -> Result<(), WorldError> {
    for _ in 0..events {
        let event = link.next_event(pair);
        let answer = pair.lead(&[event]);
        answer?;
    }
    Ok(())
}
