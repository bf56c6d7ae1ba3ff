//! Moments and names in the record of a socket that is handed over.

ghost use Rattle.std.specs.Prelude.{◌≡◌, ◌-◌, ◌<◌, ◌^◌, pos, min, option_map, unwrap_or};
ghost use Rattle.sctp_state.specs.HandoverTimes.{ms_from, moment_from, ms_since, moment_before, lifecycle_from};

use sctp_serial::{LifecycleId, SocketTime};
use std::time::Duration;

/// At most the greatest number of 31 bits.
fn bounded(millis: u128) -> i32
    ensures { result ≡ pos (min millis (2 ^ 31 - 1)) }
{
    millis.min(2_147_483_647) as i32
}

fn millis_to(now: SocketTime, moment: SocketTime) -> i32
    ensures { result ≡ ms_from now moment }
{
    let now = now.as_nanos();
    let moment = moment.as_nanos();
    if now <= moment {
        return bounded((moment - now) / 1_000_000);
    }
    -1 - bounded((now - moment - 1) / 1_000_000)
}

fn moment_from(now: SocketTime, millis: i32) -> SocketTime
    ensures { result ≡ moment_from now millis }
{
    let span = Duration::from_millis(millis.unsigned_abs() as u64);
    if millis < 0 { now - span } else { now + span }
}

/// The milliseconds from now to the moment of an expiry, rounded down and within 32 bits: below 0 where it has passed.
pub fn expires_in(now: SocketTime, expires_at: Option<SocketTime>) -> Option<i32>
    ensures { result ≡ option_map (ms_from now) expires_at }
{
    match expires_at {
        Some(moment) => Some(millis_to(now, moment)),
        None => None,
    }
}

/// The moment so many milliseconds from now.
pub fn expiry_from(now: SocketTime, millis: Option<i32>) -> Option<SocketTime>
    ensures { result ≡ option_map (moment_from now) millis }
{
    match millis {
        Some(millis) => Some(moment_from(now, millis)),
        None => None,
    }
}

/// The milliseconds since a moment, rounded down and within 32 bits: 0 where it is to come.
pub fn millis_since(now: SocketTime, moment: SocketTime) -> i32
    ensures { result ≡ ms_since now moment }
{
    bounded(now.as_nanos().saturating_sub(moment.as_nanos()) / 1_000_000)
}

/// The moment so many milliseconds ago.
pub fn moment_before(now: SocketTime, millis: i32) -> SocketTime
    ensures { result ≡ moment_before now millis }
{
    let span = Duration::from_millis(millis.unsigned_abs() as u64);
    if millis < 0 { now + span } else { now - span }
}

/// 0 where there is none.
pub fn lifecycle_number(id: Option<LifecycleId>) -> u64
    ensures { result ≡ unwrap_or id 0 }
{
    match id {
        Some(id) => id.value(),
        None => 0,
    }
}

/// None for 0.
pub fn lifecycle_from(number: u64) -> Option<LifecycleId>
    ensures { result ≡ lifecycle_from number }
{
    LifecycleId::new(number)
}
