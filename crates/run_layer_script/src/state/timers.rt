//! `timer MS RESTARTS MS fixed` or `.. exponential`: a timer, by its duration, its greatest count of restarts, its longest wait and
//! how its waits grow. A word that is no number sets no limit.
//!
//! `timeout`: the retransmission timeout, by the samples of a round trip time.

use crate::answer::{Answer, Subject};
use crate::output::Output;
use crate::state::options::set_option;
use crate::words::Line;
use sctp_serial::SocketTime;
use sctp_state::{BackoffAlgorithm, Options, RetransmissionTimeout, Timer};

pub fn timer(line: &Line<'_>) -> Timer {
    let backoff = if line.last == "fixed" {
        BackoffAlgorithm::Fixed
    } else {
        BackoffAlgorithm::Exponential
    };
    let longest = if line.third.long == u64::MAX {
        None
    } else {
        Some(line.third.millis())
    };
    let restarts = u32::try_from(line.second.long).ok();
    Timer::new(line.first.millis(), backoff, restarts, longest)
}

impl Subject for Timer {
    /// `start MS`, `duration MS`, `stop`, `expire MS`, `backed MS MS`.
    fn obey(&mut self, line: &Line<'_>, _output: &mut Output) -> Answer {
        let time = line.first.millis();
        let now = SocketTime::zero() + time;
        match line.name {
            "start" => self.start(now),
            "duration" => self.set_duration(time),
            "stop" => self.stop(),
            "expire" => return Answer::Is(self.expire(now)),
            "backed" => {
                let span = self.backed_off_with(time, line.second.millis());
                return Answer::Number(span.as_nanos());
            }
            name => return ask(self, name),
        }
        Answer::Done
    }
}

/// `running`, `lasts`, `expiries`; `next`: the next expiry, in nanoseconds, "no" for the infinite future.
fn ask(timer: &Timer, name: &str) -> Answer {
    let next = timer.next_expiry();
    match name {
        "running" => Answer::Is(timer.is_running()),
        "lasts" => Answer::Number(timer.duration().as_nanos()),
        "expiries" => Answer::Number(timer.expiry_count() as u128),
        "next" if next == SocketTime::infinite_future() => Answer::Nothing,
        "next" => Answer::Number(next.as_nanos()),
        _ => Answer::Unknown,
    }
}

/// The options that a timeout is made with, and the timeout.
#[derive(Drop)]
pub struct Estimate {
    options: Options,
    timeout: RetransmissionTimeout,
}

impl Estimate {
    pub fn new() -> Estimate {
        let options = Options::default();
        Estimate {
            options,
            timeout: RetransmissionTimeout::new(&options),
        }
    }
}

impl Subject for Estimate {
    /// `rto` and `srtt`, in whole milliseconds; `sample MS`; or an option, with which the timeout begins anew.
    fn obey(&mut self, line: &Line<'_>, _output: &mut Output) -> Answer {
        match line.name {
            "rto" => Answer::Number(self.timeout.rto().as_millis()),
            "srtt" => Answer::Number(self.timeout.srtt().as_millis()),
            "sample" => {
                self.timeout.observe_rto(line.first.millis());
                Answer::Done
            }
            _ => {
                let answer = set_option(&mut self.options, line);
                self.timeout = RetransmissionTimeout::new(&self.options);
                answer
            }
        }
    }
}
