//! What both directions of an SCTP association share: a socket's calls, options, events, errors, timers and handover records.
#![tactic(auto)]

pub mod api;
pub mod events;
pub mod queue;
pub mod retransmission_timeout;
pub mod threshold_watcher;
pub mod timer;
pub mod tx_error_counter;

pub use api::{
    BatchFault, BatchSendError, CallError, DcSctpSocket, ErrorKind, GivenUp, GivenUpCause,
    HandoverError, HandoverReadiness, Metrics, Options, ResetStreamsError, RestoreError,
    SctpImplementation, SendError, SendOptions, SocketEvent, SocketHandoverState, SocketState,
};
pub use events::{EventMark, EventSink, Events};
pub use queue::take_first;
pub use retransmission_timeout::RetransmissionTimeout;
pub use threshold_watcher::ThresholdWatcher;
pub use timer::{BackoffAlgorithm, MAX_DURATION, MAX_RESTARTS, Timer};
pub use tx_error_counter::TxErrorCounter;
