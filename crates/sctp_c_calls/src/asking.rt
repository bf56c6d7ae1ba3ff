//! What a socket is asked.

ghost use Rattle.std.specs.Prelude.{◌≡◌, ◌==◌, ◌-◌, ◌^◌, ◌<◌, ◌≤◌, ◌↔◌, true, [], ◌∷◌, length, None, min, option_map};
ghost use Rattle.sctp_association.specs.Socket.{endpoint};
ghost use Rattle.sctp_c_calls.specs.Answers.{state_number};
ghost use Rattle.sctp_c_records.specs.Answers.{IsAmong, OnAnswer};
ghost use Rattle.sctp_c_calls.specs.Asking.{ShowsMetrics, ShowsOptions, shown_metrics};
ghost use Rattle.sctp_c_records.specs.Metrics.{one_if};
ghost use Rattle.sctp_calls.specs.Metrics.{metrics_in};
ghost use Rattle.sctp_tx_queue.specs.SendQueue.{amount_of, stream, total_of};
ghost use Rattle.spec_endpoint.specs.Calls as calls;
ghost use Rattle.spec_endpoint.specs.Handover as handover;
ghost use Rattle.spec_endpoint.specs.Receiving.{Judges};
ghost use Rattle.spec_endpoint.specs.Shown.{is_at_rest};
ghost use Rattle.spec_endpoint.specs.Timers as time;

use rand_core::Rng;
use sctp_association::{Checksum, DcSctpSocket, Socket, SocketState, StreamId};
use sctp_c_records::answers::{FAILED, NOTHING, OK};
use sctp_c_records::{MetricsRecord, OptionsRecord, PacketChecksum, one_if};

/// The moment by which the time is to be advanced next, in nanoseconds; the greatest number where none so early is.
pub fn nanos_until<R: Rng, C: Checksum>(socket: &Socket<R, C>) -> u64
    ensures due { time.poll_timeout (endpoint R.stream C.word_of socket.now).endpoint_state < 2 ^ 64 → result ≡ time.poll_timeout (endpoint R.stream C.word_of socket.now).endpoint_state }
    ensures never { 2 ^ 64 ≤ time.poll_timeout (endpoint R.stream C.word_of socket.now).endpoint_state → result ≡ 2 ^ 64 - 1 }
{
    socket.poll_timeout().as_nanos().min(u64::MAX as u128) as u64
}

fn number_of(state: SocketState) -> u32
    ensures { result ≡ state_number state }
{
    match state {
        SocketState::Closed => 0,
        SocketState::Connecting => 1,
        SocketState::Connected => 2,
        SocketState::ShuttingDown => 3,
    }
}

/// The state: 0 closed, 1 connecting, 2 connected, 3 shutting down.
pub fn state_number<R: Rng, C: Checksum>(socket: &Socket<R, C>) -> u32
    ensures { result ≡ state_number (calls.shown_state socket.now.state) }
{
    number_of(socket.state())
}

/// The bytes of a stream that wait to be sent.
pub fn buffered_amount<R: Rng, C: Checksum>(socket: &Socket<R, C>, id: u16) -> usize
    ensures { result ≡ amount_of (stream id socket.now.context.queue.streams) }
{
    socket.buffered_amount(StreamId(id))
}

/// Writes what is counted, while there is a control block, into the struct of C.
pub fn write_metrics<R: Rng, C: Checksum>(socket: &Socket<R, C>, bytes: &mut [u8]) -> u32
    ensures answers { IsAmong (0 ∷ 8 ∷ []) result }
    ensures metrics { OnAnswer 0 result (ShowsMetrics bytes.old bytes.new (option_map shown_metrics (metrics_in socket.now.state socket.now.context))) }
    ensures nothing { OnAnswer 8 result (option_map shown_metrics (metrics_in socket.now.state socket.now.context) ≡ None) }
{
    match metrics(socket) {
        None => NOTHING,
        Some(found) => {
            found.write(bytes);
            OK
        }
    }
}

/// What is counted, while there is a control block.
fn metrics<R: Rng, C: Checksum>(socket: &Socket<R, C>) -> Option<MetricsRecord>
    ensures { result ≡ option_map shown_metrics (metrics_in socket.now.state socket.now.context) }
{
    match socket.get_metrics() {
        None => None,
        Some(metrics) => Some(MetricsRecord::of(&metrics)),
    }
}

/// What stands in the way of a handover, a bit each.
pub fn handover_readiness<R: Rng, C: Checksum>(socket: &Socket<R, C>) -> u32
    ensures { result ≡ handover.readiness (endpoint R.stream C.word_of socket.now).endpoint_state }
{
    socket.get_handover_readiness().0
}

/// The moment to which the time was advanced last, in nanoseconds; the greatest number where it is later.
pub fn clock<R: Rng, C: Checksum>(socket: &Socket<R, C>) -> u64
    ensures { result ≡ min socket.now.context.clock (2 ^ 64 - 1) }
{
    socket.clock().as_nanos().min(u64::MAX as u128) as u64
}

/// How many messages are ready.
pub fn messages_ready<R: Rng, C: Checksum>(socket: &Socket<R, C>) -> usize
    ensures { result ≡ length (calls.ready_in socket.now.state) }
{
    socket.messages_ready_count()
}

/// The priority of a stream.
pub fn stream_priority<R: Rng, C: Checksum>(socket: &Socket<R, C>, id: u16) -> u16
    ensures { result ≡ (stream id socket.now.context.queue.streams).priority }
{
    socket.get_stream_priority(StreamId(id))
}

/// The amount in bytes at which a stream is low.
pub fn low_threshold<R: Rng, C: Checksum>(socket: &Socket<R, C>, id: u16) -> usize
    ensures { result ≡ (stream id socket.now.context.queue.streams).threshold }
{
    socket.buffered_amount_low_threshold(StreamId(id))
}

/// How many bytes more the send queue takes of all streams.
pub fn send_queue_room<R: Rng, C: Checksum>(socket: &Socket<R, C>) -> usize
    ensures { result ≡ socket.now.context.options.max_send_buffer_size - total_of socket.now.context.queue.streams.entries }
{
    let most = socket.options().max_send_buffer_size;
    most.saturating_sub(socket.total_buffered_amount())
}

/// Writes the options, with the size of messages last set, into the struct of C.
pub fn write_options<R: Rng>(socket: &Socket<R, PacketChecksum>, bytes: &mut [u8])
    ensures { ShowsOptions socket.now.context bytes.old bytes.new }
{
    OptionsRecord::of(&socket.options(), *socket.checksum()).write(bytes);
}

/// Whether nothing is queued, and nothing that was sent is kept: 1 or 0.
pub fn rest_number<R: Rng, C: Checksum>(socket: &Socket<R, C>) -> u32
    ensures { result ≡ one_if (is_at_rest socket.now.state socket.now.context.queue) }
{
    one_if(socket.is_at_rest()) as u32
}

/// Whether bytes would be refused, 1 or 0.
pub fn refuses<R: Rng, C: Checksum>(socket: &Socket<R, C>, bytes: &[u8], refused: &mut u32) -> u32
    ensures answers { IsAmong (0 ∷ 2 ∷ []) result }
    ensures judged { OnAnswer 0 result (Judges (C.word_of socket.now.context.checksum) bytes.now socket.now.context.options socket.now.state (refused.new == 1)) }
    ensures failed { result ≡ 2 ↔ socket.now.has_failed ≡ true }
{
    match socket.refuses(bytes) {
        Ok(is_refused) => {
            *refused = one_if(is_refused) as u32;
            OK
        }
        Err(_) => FAILED,
    }
}
