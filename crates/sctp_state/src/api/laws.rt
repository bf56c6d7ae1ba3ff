//! What equality of kinds, states and errors means, each the contract of a function, and what a clone and a default are.

ghost use Rattle.std.specs.Prelude.{◌≡◌, ◌↔◌, IsTrue, IfOk, false};
ghost use Rattle.sctp_state.specs.Errors.{batch_number, refused_messages};
ghost use Rattle.sctp_state.specs.Options.{options_of, plainly, send_options_of};

use crate::api::handover::{
    HandoverCapabilities, HandoverOrderedStream, HandoverOutgoingStream, HandoverSocketState,
    HandoverUnorderedStream,
};
use crate::{
    BackoffAlgorithm, BatchFault, BatchSendError, CallError, ErrorKind, GivenUp, GivenUpCause,
    HandoverError, HandoverReadiness, Metrics, Options, ResetStreamsError, RestoreError,
    SctpImplementation, SendError, SendOptions, SocketState,
};
use std::alloc::AllocError;

/// `==` of kinds of errors.
pub fn is_same_kind(a: ErrorKind, b: ErrorKind) -> bool
    ensures { IsTrue result ↔ (a ≡ b) }
{
    a == b
}

/// `==` of implementations.
pub fn is_same_implementation(a: SctpImplementation, b: SctpImplementation) -> bool
    ensures { IsTrue result ↔ (a ≡ b) }
{
    a == b
}

/// `==` of states.
pub fn is_same_state(a: SocketState, b: SocketState) -> bool
    ensures { IsTrue result ↔ (a ≡ b) }
{
    a == b
}

/// `==` of readinesses for handover.
pub fn is_same_readiness(a: HandoverReadiness, b: HandoverReadiness) -> bool
    ensures { IsTrue result ↔ (a ≡ b) }
{
    a == b
}

/// `==` of causes of giving up.
pub fn is_same_cause(a: GivenUpCause, b: GivenUpCause) -> bool
    ensures { IsTrue result ↔ (a ≡ b) }
{
    a == b
}

/// `==` of records of messages given up.
pub fn is_same_given_up(a: GivenUp, b: GivenUp) -> bool
    ensures { IsTrue result ↔ (a ≡ b) }
{
    a == b
}

/// `==` of backoff algorithms.
pub fn is_same_backoff_algorithm(a: BackoffAlgorithm, b: BackoffAlgorithm) -> bool
    ensures { IsTrue result ↔ (a ≡ b) }
{
    a == b
}

/// `==` of metrics.
pub fn are_same_metrics(a: Metrics, b: Metrics) -> bool
    ensures { IsTrue result ↔ (a ≡ b) }
{
    a == b
}

/// `==` of options of `send`.
pub fn are_same_send_options(a: SendOptions, b: SendOptions) -> bool
    ensures { IsTrue result ↔ (a ≡ b) }
{
    a == b
}

/// `==` of states of a handover.
pub fn is_same_handover_socket_state(a: HandoverSocketState, b: HandoverSocketState) -> bool
    ensures { IsTrue result ↔ (a ≡ b) }
{
    a == b
}

/// `==` of capabilities of a handover.
pub fn are_same_handover_capabilities(a: HandoverCapabilities, b: HandoverCapabilities) -> bool
    ensures { IsTrue result ↔ (a ≡ b) }
{
    a == b
}

/// `==` of outgoing streams of a handover.
pub fn is_same_outgoing_stream(a: HandoverOutgoingStream, b: HandoverOutgoingStream) -> bool
    ensures { IsTrue result ↔ (a ≡ b) }
{
    a == b
}

/// `==` of ordered streams of a handover.
pub fn is_same_ordered_stream(a: HandoverOrderedStream, b: HandoverOrderedStream) -> bool
    ensures { IsTrue result ↔ (a ≡ b) }
{
    a == b
}

/// `==` of unordered streams of a handover.
pub fn is_same_unordered_stream(a: HandoverUnorderedStream, b: HandoverUnorderedStream) -> bool
    ensures { IsTrue result ↔ (a ≡ b) }
{
    a == b
}

/// `==` of errors of calls.
pub fn is_same_call_error(a: &CallError, b: &CallError) -> bool
    ensures { IsTrue result ↔ (a.now ≡ b.now) }
{
    a == b
}

/// `==` of errors of `send`.
pub fn is_same_send_error(a: &SendError, b: &SendError) -> bool
    ensures { IsTrue result ↔ (a.now ≡ b.now) }
{
    a == b
}

/// The same messages were refused, each for the same reason.
pub fn is_same_batch_send_error(a: &BatchSendError, b: &BatchSendError) -> bool
    ensures { IsTrue result ↔ (a.now.0.items ≡ b.now.0.items) }
{
    a == b
}

/// `==` of faults of a batch.
pub fn is_same_batch_fault(a: &BatchFault, b: &BatchFault) -> bool
    ensures { IsTrue result ↔ ((batch_number a.now ≡ batch_number b.now) × (refused_messages a.now ≡ refused_messages b.now)) }
{
    a == b
}

/// `==` of errors of `reset_streams`.
pub fn is_same_reset_streams_error(a: &ResetStreamsError, b: &ResetStreamsError) -> bool
    ensures { IsTrue result ↔ (a.now ≡ b.now) }
{
    a == b
}

/// `==` of errors of a handover.
pub fn is_same_handover_error(a: &HandoverError, b: &HandoverError) -> bool
    ensures { IsTrue result ↔ (a.now ≡ b.now) }
{
    a == b
}

/// `==` of errors of a restoration.
pub fn is_same_restore_error(a: &RestoreError, b: &RestoreError) -> bool
    ensures { IsTrue result ↔ (a.now ≡ b.now) }
{
    a == b
}

/// `clone` of options, where there is memory.
pub fn copy_of_options(options: &Options) -> Result<Options, AllocError>
    ensures { IfOk result (λ copy. options_of copy ≡ options_of options.now) }
{
    options.clone()
}

/// The default options of `send`.
pub fn plain_send_options() -> SendOptions
    ensures { send_options_of result ≡ plainly }
{
    SendOptions::default()
}

/// The default state of a handover.
pub fn default_handover_socket_state() -> HandoverSocketState
    ensures { result ≡ HandoverSocketState.Closed }
{
    HandoverSocketState::default()
}

/// Nothing stands in the way.
pub fn default_readiness() -> HandoverReadiness
    ensures { result.0 ≡ 0 }
{
    HandoverReadiness::default()
}

/// Nothing was negotiated.
pub fn default_handover_capabilities() -> HandoverCapabilities
    ensures partial_reliability { result.partial_reliability ≡ false }
    ensures message_interleaving { result.message_interleaving ≡ false }
    ensures reconfig { result.reconfig ≡ false }
    ensures zero_checksum { result.zero_checksum ≡ false }
    ensures incoming { result.negotiated_maximum_incoming_streams ≡ 0 }
    ensures outgoing { result.negotiated_maximum_outgoing_streams ≡ 0 }
{
    HandoverCapabilities::default()
}

/// The default outgoing stream of a handover.
pub fn default_outgoing_stream() -> HandoverOutgoingStream
    ensures id { result.id ≡ 0 }
    ensures next_ssn { result.next_ssn ≡ 0 }
    ensures next_unordered_mid { result.next_unordered_mid ≡ 0 }
    ensures next_ordered_mid { result.next_ordered_mid ≡ 0 }
    ensures priority { result.priority ≡ 0 }
{
    HandoverOutgoingStream::default()
}

/// The default ordered stream of a handover.
pub fn default_ordered_stream() -> HandoverOrderedStream
    ensures id { result.id ≡ 0 }
    ensures next_ssn { result.next_ssn ≡ 0 }
{
    HandoverOrderedStream::default()
}

/// The default unordered stream of a handover.
pub fn default_unordered_stream() -> HandoverUnorderedStream
    ensures { result.id ≡ 0 }
{
    HandoverUnorderedStream::default()
}
