//! What is sent again, and when (RFC 9260 sections 6.3 and 7.2).

ghost use Rattle.std.specs.Prelude.{◌≡◌, ◌-◌, ◌==◌, min, ◌^◌, ◌<◌, ◌≤◌, ◌&&◌, ◌||◌, not, [], suc, nat_lt, length, map, is_some, option_map, true, false, IsTrue, OnOk, OnErr, IfOk, IfSome, Ok};
ghost use Rattle.std.specs.Duration.{as_nanos};
ghost use Rattle.sctp_state.specs.Options.{options_of, IsValid};
ghost use Rattle.sctp_state.specs.Timer.{backed_off_with, is_due, next_expiry, set_duration};
ghost use Rattle.sctp_tx_outstanding.specs.OutstandingData.{number_of, wire_tsn, next_number, flight_bytes, flight_payload, flight_items, fast_items, begin_reset};
ghost use Rattle.sctp_tx_outstanding.specs.Losses.{nack_all, expire_outstanding};
ghost use Rattle.sctp_tx_outstanding.specs.Forward.{is_forward_due};
ghost use Rattle.sctp_control_chunk.specs.ChunkView.{chunk_tree};
ghost use Rattle.sctp_tx.specs.ForwardPoints.{abandon_expired, forward_chunk, most_of};
ghost use Rattle.sctp_tx_outstanding.specs.Sack.{is_valid, is_open_at, acked_bytes, sample};
ghost use Rattle.sctp_tx.specs.RetransmissionQueue.{backed_off_if, stays_backed_off, sender, wake, handle_sack, step_of, sender_if, emitted_if, answer_if, answer_of, windows_after, t3_after_sack, kept_running, nothing_in_flight, timed_out_sender};
ghost use Rattle.sctp_tx.specs.Interrupted.{PartlyAcknowledged, PartlyTimedOut, PartlyExpired, PartlyResentFast, PartlyResent, TurnStopped, PartlyFilled, SomeDiscarded, PartlySent};
ghost use Rattle.sctp_tx.specs.Flight.{StaysWithin, AddsAtMost, FitWithin};
ghost use Rattle.sctp_tx.specs.Windows.{saturate_u64};
ghost use Rattle.sctp_tx_queue.specs.Views.{produced_of};
ghost use Rattle.sctp_tx_outstanding.specs.Item.{size_of};
ghost use Rattle.sctp_tx.specs.Resent.{sizes, is_interleaved, count_retransmission_of, resent, resent_by, resent_fast, send_fast, start_t3_if, start_t3_if_sent, may_send_new};
ghost use Rattle.sctp_tx.specs.Sending.{send, fill, filling, next_turn, offered_payload, sent_new, discard_all, is_idle};
ghost use Rattle.sctp_tx.specs.Taken.{taken_all};
ghost use Rattle.sctp_tx_outstanding.specs.Views.{chunk_of};
ghost use Rattle.sctp_chunk.specs.Views.{fragment_tree};

mod congestion_control;
mod handover;
mod windows;

use crate::fragments::{ChunkForm, FragmentList, SendOpportunity, TakesFragments};
use sctp_chunk::SpareBuffers;
use sctp_packet::{COMMON_HEADER_SIZE, Chunk, Data, SackChunk};
use sctp_serial::{SocketTime, Tsn};
use sctp_state::{BackoffAlgorithm, Events, Options, Timer};
use sctp_tx_outstanding::item::{chunk_size, header_size};
use sctp_tx_outstanding::{AckInfo, Item, OutstandingData};
use sctp_tx_queue::{DataToSend, SendQueue};
use std::alloc::{AllocError, Global};
use std::marker::Model;
use std::time::Duration;
use windows::Windows;

/// What became of a SACK.
#[derive(Clone, Copy, Debug, PartialEq, Eq)]
pub enum HandleSackResult {
    /// It acknowledges what was never sent, or less than before, and changed nothing.
    Invalid,
    Valid {
        /// A round trip time, where the item at a new cumulative TSN was sent once.
        rtt: Option<Duration>,
        /// Something was newly acknowledged.
        reset_error_counter: bool,
    },
}

// So many buffers are kept at most.
const SPARE_BUFFERS: usize = 1024;

// What a SACK's cumulative TSN meets.
#[derive(Clone, Copy)]
struct CumulativeAck {
    // the TSN, unwrapped
    number: u64,
    // whether it acknowledges more than the last one
    moved: bool,
    // the bytes of the chunks that were unacknowledged
    before: usize,
}

/// The fragments that have their TSN, the windows that let more go, and the timer t3-rtx.
#[derive(Drop)]
pub struct RetransmissionQueue {
    alloc: Global,
    outstanding: OutstandingData,
    windows: Windows,
    t3_rtx: Timer,
    rtx_packets_count: usize,
    rtx_bytes_count: u64,
    /// A round trip was measured.
    is_sampled: bool,
    /// Buffers of payloads that were acknowledged, for the next ones, while something is outstanding.
    spares: SpareBuffers,
}

impl Model for RetransmissionQueue {
    ghost use Rattle.sctp_tx.specs.RetransmissionQueue.{Sender};

    ghost Value = { Sender };

    ghost view = { λ q. record { outstanding = q.outstanding; windows = q.windows; t3 = q.t3_rtx; rtx_packets = q.rtx_packets_count; rtx_bytes = q.rtx_bytes_count; is_sampled = q.is_sampled } };
}

impl RetransmissionQueue {
    /// A queue whose first TSN is `initial_tsn`, to a peer with this window, by valid options.
    pub fn new(
        alloc: Global,
        initial_tsn: Tsn,
        a_rwnd: u32,
        options: &Options,
        partial_reliability: bool,
        message_interleaving: bool,
    ) -> RetransmissionQueue
        requires { IsValid (options_of options.now) }
        ensures { result ≡ sender (options_of options.now) initial_tsn.0 a_rwnd partial_reliability message_interleaving }
    {
        RetransmissionQueue {
            alloc,
            outstanding: OutstandingData::new(
                alloc,
                initial_tsn,
                partial_reliability,
                message_interleaving,
            ),
            windows: Windows::new(options, a_rwnd),
            t3_rtx: Timer::new(
                options.rto_initial,
                BackoffAlgorithm::Exponential,
                None,
                options.t3_backoff(),
            ),
            rtx_packets_count: 0,
            rtx_bytes_count: 0,
            is_sampled: false,
            spares: SpareBuffers::new(alloc, SPARE_BUFFERS),
        }
    }

    /// When t3-rtx expires next; never, where it doesn't run.
    pub fn next_timeout(&self) -> SocketTime
        ensures { result ≡ next_expiry self.now.t3 }
    {
        self.t3_rtx.next_expiry()
    }

    /// From the next start or expiry of t3-rtx on, this is its duration.
    pub fn update_rto(&mut self, rto: Duration)
        ensures { self.new ≡ record self.old { t3 = set_duration (as_nanos rto) self.old.t3; is_sampled = true } }
    {
        self.t3_rtx.set_duration(rto);
        self.is_sampled = true;
    }

    /// This span, doubled as often as t3-rtx expired since it was started last, at most `most`.
    pub fn backed_off(&self, span: Duration, most: Duration) -> Duration
        ensures { as_nanos result ≡ backed_off_with self.now.t3 (as_nanos span) (as_nanos most) }
    {
        self.t3_rtx.backed_off_with(span, most)
    }

    /// The TSN that the next fragment takes.
    pub fn next_tsn(&self) -> Tsn
        ensures { result.0 ≡ wire_tsn self.now.outstanding (next_number self.now.outstanding.items) }
    {
        self.outstanding.next_tsn()
    }

    /// The last TSN that was given.
    pub fn last_assigned_tsn(&self) -> Tsn
        ensures { result.0 ≡ wire_tsn self.now.outstanding (next_number self.now.outstanding.items - 1) }
    {
        self.outstanding.highest_outstanding_tsn()
    }

    /// The congestion window, in bytes.
    pub fn cwnd(&self) -> usize
        ensures { result ≡ self.now.windows.cwnd }
    {
        self.windows.cwnd()
    }

    /// Sets the congestion window, in bytes.
    pub fn set_cwnd(&mut self, cwnd: usize)
        ensures { self.new ≡ record self.old { windows = record self.old.windows { cwnd = cwnd } } }
    {
        self.windows.set_cwnd(cwnd);
    }

    /// What the peer's window has left, in bytes.
    pub fn rwnd(&self) -> usize
        ensures { result ≡ self.now.windows.rwnd }
    {
        self.windows.rwnd()
    }

    /// How many packets had an item that was sent again.
    pub fn rtx_packets_count(&self) -> usize
        ensures { result ≡ self.now.rtx_packets }
    {
        self.rtx_packets_count
    }

    /// The bytes of the chunks that were sent again, with headers and padding.
    pub fn rtx_bytes_count(&self) -> u64
        ensures { result ≡ self.now.rtx_bytes }
    {
        self.rtx_bytes_count
    }

    /// Whether no item is kept.
    pub fn is_empty(&self) -> bool
        ensures { result ≡ (length self.now.outstanding.items.kept == 0) }
    {
        self.outstanding.is_empty()
    }

    /// The bytes of the chunks in flight or missing, with headers and padding.
    pub fn unacked_packet_bytes(&self) -> usize
        ensures { result ≡ min (flight_bytes self.now.outstanding.items) (2 ^ 64 - 1) }
    {
        self.outstanding.unacked_packet_bytes()
    }

    /// How many items are in flight or missing.
    pub fn unacked_items(&self) -> usize
        ensures { result ≡ flight_items self.now.outstanding.items }
    {
        self.outstanding.unacked_items()
    }

    /// Any SACK: one whose cumulative TSN or blocks lie out of range is `Invalid`, and changes nothing. What it acknowledges
    /// for good leaves, with its events; the windows and t3-rtx follow (RFC 9260 sections 6.2.1, 6.3.2 and 7.2). Without memory
    /// the items may have received a part of it, and nothing else changes.
    pub fn handle_sack(
        &mut self,
        now: SocketTime,
        sack: &SackChunk,
        events: &mut Events,
    ) -> Result<HandleSackResult, AllocError>
        ensures queue { let n = number_of self.old.outstanding sack.now.cumulative_tsn_ack.0 in let blocks = sack.now.gap_ack_blocks.items in
            OnOk result (self.new ≡ sender_if (is_valid n blocks self.old.outstanding.items) now n sack.now.a_rwnd blocks self.old events.old) }
        ensures emitted { let n = number_of self.old.outstanding sack.now.cumulative_tsn_ack.0 in let blocks = sack.now.gap_ack_blocks.items in
            OnOk result (events.new ≡ emitted_if (is_valid n blocks self.old.outstanding.items) n blocks self.old events.old) }
        ensures answer { let n = number_of self.old.outstanding sack.now.cumulative_tsn_ack.0 in let blocks = sack.now.gap_ack_blocks.items in
            IfOk result (λ answer. answer_of answer ≡ answer_if (is_valid n blocks self.old.outstanding.items) now n blocks self.old) }
        ensures err { let n = number_of self.old.outstanding sack.now.cumulative_tsn_ack.0 in let blocks = sack.now.gap_ack_blocks.items in
            OnErr result (PartlyAcknowledged n blocks self.old events.old self.new events.new) }
    {
        if !self.outstanding.is_sack_valid(sack) {
            return Ok(HandleSackResult::Invalid);
        }
        let rtt = self.outstanding.measure_rtt(now, sack.cumulative_tsn_ack);
        let acked = self.receive_sack(now, sack, rtt, events)?;
        Ok(HandleSackResult::Valid {
            rtt,
            reset_error_counter: acked > 0,
        })
    }

    /// A SACK that is valid, with the round trip that it measures. The answer is how many bytes are newly acknowledged.
    fn receive_sack(
        &mut self,
        now: SocketTime,
        sack: &SackChunk,
        rtt: Option<Duration>,
        events: &mut Events,
    ) -> Result<usize, AllocError>
        requires valid { IsTrue (is_valid (number_of self.old.outstanding sack.now.cumulative_tsn_ack.0) sack.now.gap_ack_blocks.items self.old.outstanding.items) }
        requires timed { option_map as_nanos rtt ≡ sample now (number_of self.old.outstanding sack.now.cumulative_tsn_ack.0) self.old.outstanding.items }
        ensures queue { let n = number_of self.old.outstanding sack.now.cumulative_tsn_ack.0 in let blocks = sack.now.gap_ack_blocks.items in
            OnOk result (self.new ≡ handle_sack now n sack.now.a_rwnd blocks self.old events.old) }
        ensures emitted { let n = number_of self.old.outstanding sack.now.cumulative_tsn_ack.0 in let blocks = sack.now.gap_ack_blocks.items in
            OnOk result (events.new ≡ (step_of n blocks self.old events.old).emitted) }
        ensures acked { let n = number_of self.old.outstanding sack.now.cumulative_tsn_ack.0 in let blocks = sack.now.gap_ack_blocks.items in
            IfOk result (λ acked. acked ≡ saturate_u64 (acked_bytes n blocks self.old.outstanding.items)) }
        ensures err { let n = number_of self.old.outstanding sack.now.cumulative_tsn_ack.0 in let blocks = sack.now.gap_ack_blocks.items in
            OnErr result (PartlyAcknowledged n blocks self.old events.old self.new events.new) }
    {
        let number = self.outstanding.unwrapped(sack.cumulative_tsn_ack);
        let ack = CumulativeAck {
            number,
            moved: self.outstanding.acked_number() < number,
            before: self.outstanding.unacked_packet_bytes(),
        };
        let is_open = self.windows.is_open_at(number);
        let was_shut = self.windows.is_shut();
        let stays = self.stays_backed_off(ack.moved, rtt);
        let once_a_flight = self.avoids_stalls();
        let info = self
            .outstanding
            .handle_sack(sack, once_a_flight, !is_open, &mut self.spares, events)?;
        self.let_spares_go();
        self.update_windows(sack.a_rwnd, ack, info);
        let restarts = self.restarts_timer(ack.moved, was_shut);
        self.back_off_if(stays, now);
        self.run_timer(now, restarts);
        Ok(info.bytes_acked)
    }

    fn avoids_stalls(&self) -> bool
        ensures { result ≡ self.now.windows.avoids_stalls }
    {
        self.windows.avoids_stalls
    }

    /// Whether t3-rtx stays backed off: with stalls avoided, before the first round trip is measured (RFC 9260 section 6.3.1 C5).
    fn stays_backed_off(&self, moved: bool, rtt: Option<Duration>) -> bool
        ensures { result ≡ stays_backed_off moved (option_map as_nanos rtt) self.now }
    {
        match rtt {
            Some(_) => false,
            None => !self.is_sampled
                && moved
                && self.windows.avoids_stalls
                && self.t3_rtx.expiry_count() > 0,
        }
    }

    fn back_off_if(&mut self, stays: bool, now: SocketTime)
        ensures { self.new ≡ record self.old { t3 = backed_off_if stays now self.old.t3 } }
    {
        if stays {
            self.t3_rtx.start_backed_off(now);
        }
    }

    /// Whether t3-rtx begins anew: the cumulative TSN moved, or it had expired and the peer's window, into which it was sent, opened.
    fn restarts_timer(&self, moved: bool, was_shut: bool) -> bool
        ensures { result ≡ (moved || ((was_shut && not (self.now.windows.rwnd == 0)) && nat_lt 0 self.now.t3.expiries)) }
    {
        moved || was_shut && self.windows.rwnd() != 0 && self.t3_rtx.expiry_count() > 0
    }

    /// Where nothing is outstanding no buffer is kept.
    fn let_spares_go(&mut self)
        ensures { self.new ≡ self.old }
    {
        if self.outstanding.is_empty() {
            self.spares = SpareBuffers::new(self.alloc, SPARE_BUFFERS);
        }
    }

    /// The windows follow what the items received.
    fn update_windows(&mut self, a_rwnd: u32, ack: CumulativeAck, info: AckInfo)
        ensures { self.new ≡ record self.old {
          windows = windows_after ack.number a_rwnd ack.moved info.has_packet_loss ack.before info.bytes_acked
              (saturate_u64 (flight_payload self.old.outstanding.items)) (next_number self.old.outstanding.items - 1) self.old.windows;
        } }
    {
        let is_open = self.windows.is_open_at(ack.number);
        self.windows.maybe_exit_fast_recovery(ack.number);
        self.windows
            .update_receiver_window(a_rwnd, self.outstanding.unacked_payload_bytes());
        if ack.moved && is_open {
            self.windows.grow(ack.before, info.bytes_acked);
        }
        if info.has_packet_loss && is_open {
            self.windows.recover(self.outstanding.next_number() - 1);
        }
    }

    /// Whether the item with this TSN is kept, and neither acknowledged by a block nor given up.
    pub fn is_open(&self, tsn: Tsn) -> bool
        ensures { result ≡ is_open_at (number_of self.now.outstanding tsn.0) self.now.outstanding.items }
    {
        self.outstanding.is_open(tsn)
    }

    /// Whether the first item that is kept is given up: a forward point is due.
    pub fn has_forward_point(&self) -> bool
        ensures { result ≡ is_forward_due self.now.outstanding.items }
    {
        self.outstanding.should_send_forward_tsn()
    }

    /// t3-rtx begins anew where items are kept, as those of a record that was taken up, and stops where none is (RFC 9260 section 6.3.2).
    pub fn wake(&mut self, now: SocketTime)
        ensures { self.new ≡ wake now self.old }
    {
        if self.outstanding.is_empty() {
            self.t3_rtx.stop();
        } else {
            self.t3_rtx.start(now);
        }
    }

    /// Where it begins anew, t3-rtx stops if nothing is kept; it runs while something is in flight or missing.
    fn run_timer(&mut self, now: SocketTime, restarts: bool)
        ensures { self.new ≡ record self.old { t3 = t3_after_sack restarts self.old.outstanding.items now self.old.t3 } }
    {
        if restarts {
            self.wake(now);
        }
        self.keep_running(now);
    }

    fn keep_running(&mut self, now: SocketTime)
        ensures { self.new ≡ record self.old { t3 = kept_running (nothing_in_flight self.old.outstanding.items) now self.old.t3 } }
    {
        if !self.t3_rtx.is_running() && self.outstanding.unacked_items() != 0 {
            self.t3_rtx.start(now);
        }
    }

    /// Whether t3-rtx expired. All that is in flight or missing is lost then: it is to be sent again, or its message
    /// given up (RFC 9260 section 6.3.3). Without memory this is done for some of the first items alone.
    pub fn handle_timeout(
        &mut self,
        now: SocketTime,
        events: &mut Events,
    ) -> Result<bool, AllocError>
        ensures expired { IfOk result (λ expired. expired ≡ is_due now self.old.t3) }
        ensures no { result ≡ Ok false → self.new ≡ self.old }
        ensures silent { result ≡ Ok false → events.new ≡ events.old }
        ensures yes { result ≡ Ok true → self.new ≡ timed_out_sender now (nack_all self.old.outstanding.items events.old).items self.old }
        ensures emitted { result ≡ Ok true → events.new ≡ (nack_all self.old.outstanding.items events.old).emitted }
        ensures err { OnErr result (PartlyTimedOut now self.old events.old self.new events.new) }
    {
        if !self.t3_rtx.expire(now) {
            return Ok(false);
        }
        self.windows.time_out();
        self.outstanding.nack_all(events)?;
        Ok(true)
    }

    /// Whether the windows let new fragments go, and with stalls avoided none is to be sent again.
    pub fn can_send_data(&self) -> bool
        ensures { result ≡ may_send_new self.now }
    {
        if self.windows.avoids_stalls && self.outstanding.has_data_to_be_retransmitted() {
            return false;
        }
        let is_quiet = self.outstanding.unacked_items() == 0;
        let flight = self.outstanding.unacked_packet_bytes();
        self.windows.may_send(is_quiet, flight)
    }

    /// Whether a forward point is due. Before that, each message that expired and has an item that is missing or waits
    /// is given up (RFC 3758 section 3.5). Without memory this is done for some of the first items alone.
    pub fn should_send_forward_tsn(
        &mut self,
        now: SocketTime,
        events: &mut Events,
    ) -> Result<bool, AllocError>
        ensures queue { OnOk result (self.new ≡ abandon_expired now self.old events.old) }
        ensures emitted { OnOk result (events.new ≡ (expire_outstanding now self.old.outstanding.items events.old).emitted) }
        ensures due { IfOk result (λ due. due ≡ is_forward_due self.new.outstanding.items) }
        ensures err { OnErr result (PartlyExpired now self.old events.old self.new events.new) }
    {
        self.outstanding.expire_outstanding_chunks(now, events)?;
        if !self.outstanding.should_send_forward_tsn() {
            return Ok(false);
        }
        let most = self.forward_size();
        self.outstanding.prepare_forward_point(most);
        Ok(true)
    }

    /// The bytes that the chunk of a forward point may have in a packet of `mtu`.
    fn forward_size(&self) -> usize
        ensures { result ≡ most_of self.now }
    {
        (self.windows.mtu() / 4 * 4).saturating_sub(COMMON_HEADER_SIZE)
    }

    /// The forward point, as FORWARD-TSN or, where messages are interleaved, as I-FORWARD-TSN. It fits a packet of `mtu`. None without memory.
    pub fn create_forward_tsn(&self) -> Result<Chunk, AllocError>
        ensures { IfOk result (λ chunk. chunk_tree chunk ≡ forward_chunk self.now) }
    {
        let most = self.forward_size();
        if self.outstanding.is_interleaved() {
            Ok(Chunk::IForwardTsn(self.outstanding.create_iforward_tsn(most)?))
        } else {
            Ok(Chunk::ForwardTsn(self.outstanding.create_forward_tsn(most)?))
        }
    }

    /// A reset of streams begins: no forward point crosses the next TSN (RFC 6525 section 5.1.2). Without memory nothing changes.
    pub fn begin_reset_streams(&mut self) -> Result<(), AllocError>
        ensures ok { OnOk result (self.new ≡ record self.old { outstanding = record self.old.outstanding { items = begin_reset self.old.outstanding.items } }) }
        ensures err { OnErr result (self.new ≡ self.old) }
    {
        self.outstanding.begin_reset_streams()
    }

    /// Whether an item waits for the packet that ignores the congestion window.
    pub fn has_data_to_be_fast_retransmitted(&self) -> bool
        ensures { result ≡ nat_lt 0 (fast_items self.now.outstanding.items) }
    {
        self.outstanding.has_data_to_be_fast_retransmitted()
    }

    /// The items that were reported missing for the third time, ascending, as far as they fit into `max_bytes`. This
    /// packet ignores the congestion window; what doesn't fit waits for another one (RFC 9260 section 7.2.4). Without memory
    /// some of the first items count as sent again, and none is handed out.
    pub fn get_chunks_for_fast_retransmit(
        &mut self,
        now: SocketTime,
        max_bytes: usize,
    ) -> Result<Vec<(Tsn, Data)>, AllocError>
        ensures queue { OnOk result (self.new ≡ send_fast now max_bytes self.old) }
        ensures chunks { IfOk result (λ chunks. map chunk_of chunks.items ≡ (resent_fast max_bytes self.old).chunks) }
        ensures fits { IfOk result (λ chunks. FitWithin max_bytes self.old (map chunk_of chunks.items)) }
        ensures flight { OnOk result (AddsAtMost max_bytes self.old self.new) }
        ensures err { OnErr result (PartlyResentFast max_bytes self.old self.new) }
    {
        let chunks = self
            .outstanding
            .get_chunks_to_be_fast_retransmitted(max_bytes)?;
        self.count_resent(&chunks);
        self.run_for(now, &chunks);
        Ok(chunks)
    }

    /// What a packet with room for `max_bytes` of chunks, fewer than 2^32, takes, as far as the windows let it go: first the items that
    /// wait to be sent again, ascending, then new fragments. Before that, what is left of messages that were given up
    /// leaves the send queue. Without memory none is handed out, and only the first of these steps are done: t3-rtx isn't
    /// started, and a new fragment at which memory ran out has left the queue, and has no TSN.
    pub fn get_chunks_to_send(
        &mut self,
        now: SocketTime,
        max_bytes: usize,
        queue: &mut SendQueue,
        events: &mut Events,
    ) -> Result<Vec<(Tsn, Data)>, AllocError>
        requires small { max_bytes < 2 ^ 32 }
        ensures sender { OnOk result (self.new ≡ (send now max_bytes self.old queue.old events.old).sender) }
        ensures queue { OnOk result (queue.new ≡ (send now max_bytes self.old queue.old events.old).queue) }
        ensures emitted { OnOk result (events.new ≡ (send now max_bytes self.old queue.old events.old).emitted) }
        ensures chunks { IfOk result (λ chunks. map chunk_of chunks.items ≡ (send now max_bytes self.old queue.old events.old).chunks) }
        ensures fits { IfOk result (λ chunks. FitWithin max_bytes self.old (map chunk_of chunks.items)) }
        ensures flight { OnOk result (StaysWithin self.old self.new) }
        ensures err { OnErr result (PartlySent now max_bytes self.old queue.old events.old self.new queue.new events.new) }
    {
        let mut list = FragmentList::new(self.alloc);
        let opportunity = SendOpportunity {
            now,
            max_bytes,
            form: ChunkForm {
                is_interleaved: self.outstanding.is_interleaved(),
                is_immediate: false,
            },
        };
        self.send_into(opportunity, queue, &mut list, events)?;
        Ok(list.into_chunks())
    }

    /// The same, into a packet: each fragment is handed to it by reference, in order, with the form. Its room is below 2^32. The answer is whether
    /// there was one. Without memory the packet may have taken the first of them.
    pub fn send_into<P: TakesFragments>(
        &mut self,
        opportunity: SendOpportunity,
        queue: &mut SendQueue,
        packet: &mut P,
        events: &mut Events,
    ) -> Result<bool, AllocError>
        requires small { opportunity.max_bytes < 2 ^ 32 }
        ensures sender { OnOk result (self.new ≡ (send opportunity.now opportunity.max_bytes self.old queue.old events.old).sender) }
        ensures queue { OnOk result (queue.new ≡ (send opportunity.now opportunity.max_bytes self.old queue.old events.old).queue) }
        ensures emitted { OnOk result (events.new ≡ (send opportunity.now opportunity.max_bytes self.old queue.old events.old).emitted) }
        ensures packet { OnOk result (packet.new ≡ taken_all (P.taken opportunity.form) (send opportunity.now opportunity.max_bytes self.old queue.old events.old).chunks packet.old) }
        ensures sent { IfOk result (λ sent. sent ≡ nat_lt 0 (length (send opportunity.now opportunity.max_bytes self.old queue.old events.old).chunks)) }
        ensures fits { OnOk result (FitWithin opportunity.max_bytes self.old (send opportunity.now opportunity.max_bytes self.old queue.old events.old).chunks) }
        ensures flight { OnOk result (StaysWithin self.old self.new) }
        ensures err { OnErr result (PartlySent opportunity.now opportunity.max_bytes self.old queue.old events.old self.new queue.new events.new) }
    {
        // (read for its bound)
        let _cwnd = self.cwnd();
        discard_all(&mut self.outstanding, queue, events)?;
        let (is_again, bytes) = self.resend(opportunity.max_bytes, opportunity.form, packet)?;
        let left = opportunity.max_bytes.saturating_sub(bytes);
        let rest = SendOpportunity {
            max_bytes: left,
            ..opportunity
        };
        let is_new = self.fill(rest, queue, packet, events)?;
        let is_sent = either(is_again, is_new);
        self.run_if(opportunity.now, is_sent);
        Ok(is_sent)
    }

    /// Whether nothing is left of messages that were given up, no item waits to be sent again, and the queue has nothing to
    /// send: then `send_into` does nothing.
    pub fn is_idle(&self, queue: &SendQueue) -> bool
        ensures idle { result ≡ is_idle self.now queue.now }
        ensures small { self.now.rtx_bytes < 2 ^ 64 }
    {
        // (read for its bound)
        let _count = self.rtx_bytes_count();
        if self.outstanding.has_unsent_messages_to_discard() {
            return false;
        }
        if self.outstanding.has_data_to_be_retransmitted() {
            return false;
        }
        !queue.has_next_stream()
    }

    /// What is sent again, in so much of a packet: whether something is, and the bytes of the chunks. Without memory some of the
    /// first items count as sent again, and nothing else changes but the packet.
    fn resend<P: TakesFragments>(
        &mut self,
        max_bytes: usize,
        form: ChunkForm,
        packet: &mut P,
    ) -> Result<(bool, usize), AllocError>
        ensures sender { OnOk result (self.new ≡ resent_by self.old (resent max_bytes self.old)) }
        ensures packet { OnOk result (packet.new ≡ taken_all (P.taken form) (resent max_bytes self.old).chunks packet.old) }
        ensures sent { IfOk result (λ r. r.0 ≡ nat_lt 0 (length (resent max_bytes self.old).chunks)) }
        ensures bytes { IfOk result (λ r. r.1 ≡ saturate_u64 (sizes (is_interleaved self.new) (resent max_bytes self.old).chunks)) }
        ensures err { OnErr result (PartlyResent max_bytes self.old self.new) }
    {
        // (read for its bound: a sum that nothing is added to isn't capped)
        let _count = self.rtx_bytes_count();
        if !self.outstanding.has_data_to_be_retransmitted() {
            return Ok((false, 0));
        }
        let flight = self.outstanding.unacked_packet_bytes();
        let room = max_bytes.min(self.windows.cwnd().saturating_sub(flight));
        let rwnd = self.windows.rwnd();
        let chunks = self.outstanding.get_chunks_to_be_retransmitted(room, rwnd)?;
        take_each(&chunks, form, packet)?;
        let bytes = self.count_resent(&chunks);
        Ok((!chunks.is_empty(), bytes))
    }

    /// New fragments, one after the other. The answer is whether there was one.
    fn fill<P: TakesFragments>(
        &mut self,
        opportunity: SendOpportunity,
        queue: &mut SendQueue,
        packet: &mut P,
        events: &mut Events,
    ) -> Result<bool, AllocError>
        requires small { opportunity.max_bytes < 2 ^ 32 }
        ensures sender { OnOk result (self.new ≡ (fill (suc opportunity.max_bytes) opportunity.now (filling self.old queue.old events.old [] opportunity.max_bytes)).sender) }
        ensures queue { OnOk result (queue.new ≡ (fill (suc opportunity.max_bytes) opportunity.now (filling self.old queue.old events.old [] opportunity.max_bytes)).queue) }
        ensures emitted { OnOk result (events.new ≡ (fill (suc opportunity.max_bytes) opportunity.now (filling self.old queue.old events.old [] opportunity.max_bytes)).emitted) }
        ensures packet { OnOk result (packet.new ≡ taken_all (P.taken opportunity.form) (fill (suc opportunity.max_bytes) opportunity.now (filling self.old queue.old events.old [] opportunity.max_bytes)).chunks packet.old) }
        ensures sent { IfOk result (λ sent. sent ≡ nat_lt 0 (length (fill (suc opportunity.max_bytes) opportunity.now (filling self.old queue.old events.old [] opportunity.max_bytes)).chunks)) }
        ensures err { OnErr result (PartlyFilled opportunity.now (filling self.old queue.old events.old [] opportunity.max_bytes) self.new queue.new events.new) }
    {
        let now = opportunity.now;
        let form = opportunity.form;
        let mut left = opportunity.max_bytes;
        let mut is_sent = false;
        while let Some(rest) = self.add_new(
            SendOpportunity::at(now, left, form),
            queue,
            packet,
            events,
        )? {
            left = rest;
            is_sent = true;
        }
        Ok(is_sent)
    }

    /// One more fragment, where the windows let it go and the queue has one. The answer is what the packet has left then.
    fn add_new<P: TakesFragments>(
        &mut self,
        opportunity: SendOpportunity,
        queue: &mut SendQueue,
        packet: &mut P,
        events: &mut Events,
    ) -> Result<Option<usize>, AllocError>
        requires small { opportunity.max_bytes < 2 ^ 32 }
        ensures sender { OnOk result (self.new ≡ (next_turn opportunity.now (filling self.old queue.old events.old [] opportunity.max_bytes)).filling.sender) }
        ensures queue { OnOk result (queue.new ≡ (next_turn opportunity.now (filling self.old queue.old events.old [] opportunity.max_bytes)).filling.queue) }
        ensures emitted { OnOk result (events.new ≡ (next_turn opportunity.now (filling self.old queue.old events.old [] opportunity.max_bytes)).filling.emitted) }
        ensures packet { OnOk result (packet.new ≡ taken_all (P.taken opportunity.form) (next_turn opportunity.now (filling self.old queue.old events.old [] opportunity.max_bytes)).filling.chunks packet.old) }
        ensures left { IfOk result (λ more. IfSome more (λ rest. rest ≡ (next_turn opportunity.now (filling self.old queue.old events.old [] opportunity.max_bytes)).filling.left)) }
        ensures more { IfOk result (λ more. is_some more ≡ (next_turn opportunity.now (filling self.old queue.old events.old [] opportunity.max_bytes)).is_more) }
        ensures less { IfOk result (λ more. IfSome more (λ rest. rest < opportunity.max_bytes)) }
        ensures err { OnErr result (TurnStopped opportunity.now (filling self.old queue.old events.old [] opportunity.max_bytes) self.new queue.new events.new) }
    {
        if !queue.has_next_stream() {
            return Ok(None);
        }
        let max_payload = self.offered(opportunity.max_bytes);
        if !self.can_send_data() || max_payload == 0 {
            return Ok(None);
        }
        let now = opportunity.now;
        let Some(fragment) = queue.produce_in(now, max_payload, &mut self.spares, events)? else {
            return Ok(None);
        };
        let size = self.append(now, fragment, opportunity.form, packet)?;
        Ok(Some(opportunity.max_bytes.saturating_sub(size)))
    }

    /// The largest payload that a packet with so much left takes, and the windows have room for: chunks are padded to 4 bytes.
    fn offered(&self, left: usize) -> usize
        ensures size { result ≡ offered_payload left self.now }
        ensures small { result ≤ left }
    {
        let is_quiet = self.outstanding.unacked_items() == 0;
        let flight = self.outstanding.unacked_packet_bytes();
        let room = left.min(self.windows.room(is_quiet, flight)) / 4 * 4;
        room.saturating_sub(header_size(self.outstanding.is_interleaved()))
    }

    /// The fragment takes the next TSN. The answer is the size of its chunk. Without memory it is lost, and the packet alone changes.
    fn append<P: TakesFragments>(
        &mut self,
        now: SocketTime,
        fragment: DataToSend,
        form: ChunkForm,
        packet: &mut P,
    ) -> Result<usize, AllocError>
        requires small { length fragment.data.payload.items < 2 ^ 32 }
        ensures sender { OnOk result (self.new ≡ sent_new now (produced_of fragment) self.old) }
        ensures packet { OnOk result (packet.new ≡ P.taken form (wire_tsn self.old.outstanding (next_number self.old.outstanding.items), fragment_tree fragment.data) packet.old) }
        ensures size { IfOk result (λ size. size ≡ size_of (is_interleaved self.old) (fragment_tree fragment.data)) }
        ensures err { OnErr result (self.new ≡ self.old) }
    {
        let size = chunk_size(&fragment.data, self.outstanding.is_interleaved());
        packet.take(form, self.outstanding.next_tsn(), &fragment.data)?;
        self.outstanding.insert(Item::new(
            fragment.message_id,
            fragment.data,
            now,
            fragment.max_retransmissions,
            fragment.expires_at,
            fragment.lifecycle_id,
        ))?;
        self.windows.take(size);
        Ok(size)
    }

    /// The timer runs once something was handed out.
    fn run_for(&mut self, now: SocketTime, chunks: &[(Tsn, Data)])
        ensures { self.new ≡ start_t3_if_sent now (map chunk_of chunks.now) self.old }
    {
        self.run_if(now, !chunks.is_empty());
    }

    /// The same, of what is known to be handed out or not.
    fn run_if(&mut self, now: SocketTime, is_sent: bool)
        ensures { self.new ≡ start_t3_if is_sent now self.old }
    {
        if is_sent {
            self.keep_running(now);
        }
    }

    /// These were sent again: the peer's window shrinks, and they are counted. The answer is their bytes.
    fn count_resent(&mut self, chunks: &[(Tsn, Data)]) -> usize
        ensures sender { self.new ≡ count_retransmission_of (map chunk_of chunks.now) self.old }
        ensures bytes { result ≡ saturate_u64 (sizes (is_interleaved self.old) (map chunk_of chunks.now)) }
    {
        let bytes = sizes(chunks, self.outstanding.is_interleaved());
        self.windows.take(bytes);
        if !chunks.is_empty() {
            self.rtx_packets_count = self.rtx_packets_count.saturating_add(1);
        }
        self.rtx_bytes_count = self.rtx_bytes_count.saturating_add(bytes as u64);
        bytes
    }
}

/// What is left of messages that were given up leaves the send queue. Without memory this is done for some of the first.
fn discard_all(
    outstanding: &mut OutstandingData,
    queue: &mut SendQueue,
    events: &mut Events,
) -> Result<(), AllocError>
    ensures items { OnOk result (outstanding.new ≡ record outstanding.old { items = record outstanding.old.items { discards = [] } }) }
    ensures queue { OnOk result (queue.new ≡ (discard_all outstanding.old.items.discards queue.old events.old).queue) }
    ensures emitted { OnOk result (events.new ≡ (discard_all outstanding.old.items.discards queue.old events.old).emitted) }
    ensures err { OnErr result (SomeDiscarded outstanding.old queue.old events.old outstanding.new queue.new events.new) }
{
    while let Some(next) = outstanding.unsent_message_to_discard() {
        queue.discard(next.stream_id, next.message_id, events)?;
        outstanding.get_unsent_message_to_discard();
    }
    Ok(())
}

fn either(one: bool, other: bool) -> bool
    ensures { result ≡ one || other }
{
    one || other
}

/// Hands these out, one after the other.
fn take_each<P: TakesFragments>(
    chunks: &[(Tsn, Data)],
    form: ChunkForm,
    packet: &mut P,
) -> Result<(), AllocError>
    ensures { OnOk result (packet.new ≡ taken_all (P.taken form) (map chunk_of chunks.now) packet.old) }
{
    for chunk in chunks {
        packet.take(form, chunk.0, &chunk.1)?;
    }
    Ok(())
}

/// The bytes of the chunks, with headers and padding; at most `usize::MAX`.
fn sizes(chunks: &[(Tsn, Data)], is_interleaved: bool) -> usize
    ensures { result ≡ saturate_u64 (sizes is_interleaved (map chunk_of chunks.now)) }
{
    let mut bytes = 0usize;
    for chunk in chunks {
        bytes = bytes.saturating_add(chunk_size(&chunk.1, is_interleaved));
    }
    bytes
}
