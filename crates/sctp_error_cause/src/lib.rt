//! Error causes: each kind read, written and shown (RFC 9260 section 3.3.10).
#![tactic(auto)]

mod cause;
mod check;
mod error_cause;
mod laws;

pub use cause::{
    CookieReceivedWhileShuttingDownErrorCause, MissingMandatoryParameterErrorCause,
    NoUserDataErrorCause, ProtocolViolationErrorCause, UnrecognizedChunkErrorCause,
    UserInitiatedAbortErrorCause,
};
pub use error_cause::{ErrorCause, check_causes, error_cause_from_bytes};
pub use laws::{cause_fits, cause_is_not_refused, causes_read_back, one_cause, one_list_of_causes};
