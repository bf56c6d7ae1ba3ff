//! Parameters: each kind read, written and shown (RFC 9260 sections 3.3.2, 3.3.3 and 3.3.5, RFC 6525, RFC 3758, RFC 5061, RFC 9653).
#![tactic(auto)]

mod check;
mod laws;
mod parameter;
mod parameters;
mod reset;

pub use laws::{
    one_list_of_parameters, one_parameter, parameter_fits, parameter_is_not_refused,
    parameters_read_back,
};
pub use parameter::{
    ForwardTsnSupportedParameter, HeartbeatInfoParameter, StateCookieParameter,
    SupportedExtensionsParameter, ZeroChecksumAcceptableParameter,
};
pub use parameters::{
    PARAMETER_TYPE_ADD_INCOMING_STREAMS_REQUEST, PARAMETER_TYPE_ADD_OUTGOING_STREAMS_REQUEST,
    PARAMETER_TYPE_SSN_TSN_RESET_REQUEST, Parameter, check_parameters, parameters_from_bytes,
};
pub use reset::{
    IncomingSsnResetRequestParameter, OutgoingSsnResetRequestParameter,
    ReconfigurationResponseParameter, ReconfigurationResponseResult,
};
