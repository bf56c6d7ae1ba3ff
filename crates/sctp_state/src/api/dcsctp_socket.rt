//! The calls of a socket, whichever it is. What drives one stands on them alone, and not on how a socket is built.

ghost use Rattle.std.specs.Prelude.{◌<◌, ◌^◌};

use crate::api::{
    BatchFault, CallError, HandoverError, HandoverReadiness, Metrics, Options, ResetStreamsError,
    RestoreError, SendError, SendOptions, SocketEvent, SocketHandoverState, SocketState,
};
use sctp_serial::{Message, SocketTime, StreamId};

/// An end of an SCTP association, which makes no system call. Packets, moments and messages are handed in; events, among
/// them packets to send, are taken out. A changing call that finds too little memory answers `Memory`, and the socket has
/// failed: from then on changing calls but `set_max_message_size` answer `Failed` and change nothing, and what was emitted before can
/// still be taken.
///
/// All calls go by the moment to which the time was advanced last, so a turn begins with `advance_time`, and ends with
/// `poll_timeout`.
///
/// Write what drives a socket over `S: DcSctpSocket`: it then serves a socket of tests too.
pub trait DcSctpSocket {
    /// Takes the event that was emitted first. Take all of them each turn: those that wait are kept, however many there are. An arm
    /// that passes events over is written `Some(_event) => ()`, since `Some(_)` doesn't take it.
    fn poll_event(&mut self) -> Option<SocketEvent>;

    /// Hands out the message that was ready first.
    fn get_next_message(&mut self) -> Option<Message>;

    /// Takes the bytes of a packet that came. Bytes that are no packet, not one for this association, or one of more than 4 SACKs and COOKIE ECHOs, are
    /// emitted as an error and counted; ports aren't compared. Advance the time first: a round trip ends at the moment of the clock.
    fn handle_input(&mut self, bytes: &[u8]) -> Result<(), CallError>;

    /// Advances the time, and expires timers. It comes before the other calls of a turn: they go by this clock and by no
    /// other, so that a late one measures wrong round trips, and sends again what has just been sent. An earlier moment than
    /// the last one changes nothing.
    fn advance_time(&mut self, now: SocketTime) -> Result<(), CallError>;

    /// The moment by which the time is to be advanced next. Where no timer runs that is the greatest one, 2^64 seconds less a
    /// nanosecond, which no 64 bits of nanoseconds hold. Ask last in a turn, since each call may change it; and not where a call
    /// answered `Memory`: the moment may then be one that no call moves any more.
    fn poll_timeout(&self) -> SocketTime;

    /// Opens an association, where the socket is closed. Advance the time first: the wait for an answer begins at the clock's
    /// moment.
    fn connect(&mut self) -> Result<(), CallError>;

    /// Ends the association at once, with an ABORT to the peer unless its INIT ACK is still waited for (RFC 9260 section 9.1). Without
    /// `avoid_stalls` the send queue stays, also where the peer aborts: what it holds goes to the peer of the next association, a partly
    /// sent message from its start, but from its middle at an end that answers a COOKIE ECHO. With it all is given up.
    fn close(&mut self) -> Result<(), CallError>;

    /// Shuts the association down: no more messages are accepted, and SHUTDOWN goes out once nothing is in flight (RFC 9260
    /// section 9.2). What waits to be sent, or to be sent again, is waited for with `avoid_stalls` alone, and else may be lost: call
    /// it once `Socket::is_at_rest` holds. On a closed socket it does nothing. Advance the time first.
    fn shutdown(&mut self) -> Result<(), CallError>;

    /// Queues a message, and sends as much as may be sent; a closed socket queues it too, for its next association. Advance the
    /// time first: lifetime, round trip and retransmission count from the clock's moment. A refused message changes nothing
    /// but the events that speak of it and of the end of its lifecycle. A full queue emits an `OnError` at each call: look at
    /// `buffered_amount` first.
    fn send(&mut self, message: Message, options: &SendOptions) -> Result<(), SendError>;

    /// Queues several messages, and sends then. Some may be refused; the others are sent all the same. Advance the time first,
    /// as for `send`.
    fn send_many(
        &mut self,
        messages: Vec<Message>,
        options: &SendOptions,
    ) -> Result<(), BatchFault>;

    /// Resets streams, whose numbers then begin anew (RFC 6525): their messages of which nothing is sent are dropped, a
    /// partly sent one ends first, and no other one is sent until the peer has answered. An empty list only sends what may
    /// be sent. Refused without an association, or where the peer can't reset streams; then nothing changes. Advance the time
    /// first: the wait for the answer begins at the clock's moment.
    fn reset_streams(&mut self, streams: &[StreamId]) -> Result<(), ResetStreamsError>;

    /// Sets the priority of a stream, by which it is weighed where messages are interleaved (RFC 8260).
    fn set_stream_priority(&mut self, id: StreamId, priority: u16) -> Result<(), CallError>;

    /// The priority of a stream.
    fn get_stream_priority(&self, id: StreamId) -> u16;

    /// Sets the amount in bytes at which a stream is low.
    fn set_buffered_amount_low_threshold(
        &mut self,
        id: StreamId,
        bytes: usize,
    ) -> Result<(), CallError>;

    /// The amount in bytes at which a stream is low.
    fn buffered_amount_low_threshold(&self, id: StreamId) -> usize;

    /// The bytes of a stream that wait to be sent.
    fn buffered_amount(&self, id: StreamId) -> usize;

    /// Sets the most bytes of an own message's payload, below 2^32.
    fn set_max_message_size(&mut self, bytes: usize)
        requires { bytes < 2 ^ 32 };

    /// The options, with the size last set.
    fn options(&self) -> Options;

    /// Whether the socket is closed, connecting, connected or shutting down.
    fn state(&self) -> SocketState;

    /// What is counted of the association and the socket, while there is a control block.
    fn get_metrics(&self) -> Option<Metrics>;

    /// How many messages wait to be handed out.
    fn messages_ready_count(&self) -> usize;

    /// What stands in the way of a handover: nothing where the socket is closed; where it is neither closed nor connected,
    /// that; else reset requests and streams that wait for a reset, data that is missing, isn't whole or isn't in turn, a loss that is
    /// being recovered from, and, unless `enable_handover_with_outstanding_data` is set, messages and fragments that wait.
    fn get_handover_readiness(&self) -> HandoverReadiness;

    /// Hands over the socket: its record is written, and it closes; the peer gets nothing. `NotReady` says what stands in the
    /// way, and changes nothing. Of a closed socket nothing is emitted.
    fn get_handover_state_and_close(&mut self) -> Result<SocketHandoverState, HandoverError>;

    /// Takes up the record of a socket that was handed over, and sends what may be sent; of a closed one there is nothing to
    /// take up. The queue's content is replaced, and thresholds of streams are the default again. Advance the time first, to
    /// the present: what is outstanding is dated back from the clock's moment. Without `avoid_stalls` the retransmission timer starts
    /// with the next fragment that goes out, or with a SACK that leaves some in flight, and heartbeats with the next data; with it
    /// both do at once. A socket that isn't closed answers `SocketNotClosed`, and a closed one `InvalidState` where the record isn't valid
    /// (`SocketHandoverState::is_valid`, which refuses a negative `time_since_sent_ms` too); both change nothing.
    fn restore_from_state(&mut self, state: &SocketHandoverState) -> Result<(), RestoreError>;
}
