//! A message that was given up, as C has it.

ghost use Rattle.std.specs.Prelude.{◌≡◌};
ghost use Rattle.sctp_state.specs.Events.{given_up_of};
ghost use Rattle.sctp_c_records.specs.GivenUp.{given_up_record};

use sctp_state::{GivenUp, GivenUpCause};

/// A message that was given up; in C `pigeon_given_up`.
#[repr(C)]
#[derive(Clone, Copy)]
pub struct GivenUpRecord {
    pub number: u32,
    pub cause: u32,
    pub retransmissions: u32,
}

impl GivenUpRecord {
    /// The record of a message, for C.
    pub fn of(given_up: &GivenUp) -> GivenUpRecord
        ensures { result ≡ given_up_record (given_up_of given_up.now) }
    {
        let (cause, retransmissions) = match given_up.cause {
            GivenUpCause::Lifetime => (0, 0),
            GivenUpCause::Retransmissions(count) => (1, count),
            GivenUpCause::Reset => (2, 0),
            GivenUpCause::Ended => (3, 0),
        };
        GivenUpRecord {
            number: given_up.number.0,
            cause,
            retransmissions,
        }
    }
}
