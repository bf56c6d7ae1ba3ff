//! What goes into packets (RFC 9260 section 6.1).

ghost use Rattle.std.specs.Prelude.{◌≡◌, ◌*◌, true, map, OnOk, IfOk, ◌<◌, false};
ghost use Rattle.sctp_tx_outstanding.specs.Views.{chunk_of};
ghost use Rattle.sctp_state.specs.Events.{numbers_of};
ghost use Rattle.sctp_packet.specs.Chunk.{cookie_echo_chunk};
ghost use Rattle.spec_endpoint.specs.Packets.{add_all, added_if, fits};
ghost use Rattle.std.specs.Duration.{as_nanos};
ghost use Rattle.spec_endpoint.specs.Sending.{answer_packet, asks_at_once, burst_with, carrying, data_chunks, filled_as, forward_if, forward_pause, most_streams, request_of, request_started, send_buffered, send_cookie, send_lost, send_with, small_window, next_packet, with_ack, with_data, with_forward, with_request, send_in};
ghost use Rattle.spec_endpoint.specs.Calls.{ready_in};
ghost use Rattle.sctp_endpoint.specs.GoesOn.{GoesOn};
ghost use Rattle.sctp_endpoint.specs.Views.{context_of, filling_of, after_sending_of, phase_of, tcb_of, endpoint_state_of, state_of};
ghost use Rattle.spec_endpoint.specs.Association.{where_open};
ghost use Rattle.spec_endpoint.specs.Shown.{association_in};

use crate::context::Context;
use crate::outgoing_packet::OutgoingPacket;
use crate::state::{Phase, State};
use crate::transmission_control_block::TransmissionControlBlock;
use sctp_packet::{COMMON_HEADER_SIZE, Chunk, CookieEchoChunk, Data};
use sctp_serial::{StreamId, Tsn};
use sctp_tx::{ChunkForm, RetransmissionQueue, SendOpportunity};
use sctp_wire::Checksum;
use std::alloc::{AllocError, Global};
use std::time::Duration;

impl<C: Checksum> Context<C> {
    /// An acknowledgement that is due goes along; a delayed one where data may go.
    fn add_ack(
        &self,
        packet: &mut OutgoingPacket,
        tcb: &mut TransmissionControlBlock,
    ) -> Result<(), AllocError>
        ensures ok { OnOk result (filling_of C.word_of packet.new tcb.new self.now ≡ with_ack (filling_of C.word_of packet.old tcb.old self.now)) }
        ensures received { tcb.new.reassembly_queue ≡ tcb.old.reassembly_queue }
        ensures identity { tcb.new.identity ≡ tcb.old.identity }
    {
        let also_if_delayed = self.send_queue.has_data_to_send()
            || tcb.retransmission_queue.can_send_data();
        if tcb
            .data_tracker
            .should_send_ack(self.clock, also_if_delayed)
        {
            let window = tcb.reassembly_queue.remaining_bytes() as u32;
            let sack = tcb.data_tracker.create_selective_ack(window)?;
            packet.add_sack(&sack)?;
        }
        Ok(())
    }

    /// A forward point that is due goes along, where it fits. A test for it first gives up what has expired.
    #[tactic(auto, using(crate::proofs::GoesOnLemmas::goes_on_same))]
    fn add_forward_tsn(
        &mut self,
        packet: &mut OutgoingPacket,
        tcb: &mut TransmissionControlBlock,
    ) -> Result<(), AllocError>
        ensures ok { OnOk result (filling_of C.word_of packet.new tcb.new self.new ≡ with_forward (filling_of C.word_of packet.old tcb.old self.old)) }
        ensures goes_on { GoesOn self.old self.new }
        ensures received { tcb.new.reassembly_queue ≡ tcb.old.reassembly_queue }
        ensures identity { tcb.new.identity ≡ tcb.old.identity }
    {
        if self.clock < self.limit_forward_tsn_until {
            return Ok(());
        }
        if tcb
            .retransmission_queue
            .should_send_forward_tsn(self.clock, &mut self.events)?
        {
            self.push_forward_tsn(packet, tcb)?;
        }
        Ok(())
    }

    /// The forward point goes along, where it fits; not sooner again than after a round trip, of which at most 200 ms count
    /// (RFC 3758 section 3.5).
    #[tactic(auto, using(crate::proofs::GoesOnLemmas::goes_on_same, crate::proofs::GoesOnLemmas::goes_on_as))]
    fn push_forward_tsn(
        &mut self,
        packet: &mut OutgoingPacket,
        tcb: &TransmissionControlBlock,
    ) -> Result<(), AllocError>
        ensures ok { OnOk result (filling_of C.word_of packet.new tcb.now self.new ≡ forward_if true (filling_of C.word_of packet.old tcb.now self.old)) }
        ensures goes_on { GoesOn self.old self.new }
    {
        let chunk = tcb.retransmission_queue.create_forward_tsn()?;
        if !packet.add_if_it_fits(chunk)? {
            return Ok(());
        }
        let pause = tcb.rto.srtt().min(Duration::from_millis(200));
        self.limit_forward_tsn_until = self.clock + self.forward_pause(tcb, pause);
        Ok(())
    }

    /// With stalls avoided the end of this span is waited for: it is a millisecond at least, and backs off as t3-rtx does, to 200 ms at most.
    fn forward_pause(&self, tcb: &TransmissionControlBlock, span: Duration) -> Duration
        ensures { as_nanos result ≡ forward_pause self.now.options.avoid_stalls (tcb_of tcb.now).sender.t3 (as_nanos span) }
    {
        if self.options.avoid_stalls {
            tcb.retransmission_queue.backed_off(
                span.max(Duration::from_millis(1)),
                Duration::from_millis(200),
            )
        } else {
            span
        }
    }

    /// A request for these streams begins, and goes along.
    fn carry_reset_request(
        &self,
        packet: &mut OutgoingPacket,
        tcb: &mut TransmissionControlBlock,
        streams: Vec<StreamId>,
    ) -> Result<(), AllocError>
        ensures ok { let x = filling_of C.word_of packet.old tcb.old self.now in
            OnOk result (filling_of C.word_of packet.new tcb.new self.now ≡ carrying (request_started x.context.now (numbers_of streams.items) x.tcb) x) }
        ensures received { tcb.new.reassembly_queue ≡ tcb.old.reassembly_queue }
        ensures identity { tcb.new.identity ≡ tcb.old.identity }
    {
        tcb.start_ssn_reset_request(self.clock, streams, packet)
    }

    /// The same, where there are streams to reset.
    fn start_reset_request(
        &self,
        packet: &mut OutgoingPacket,
        tcb: &mut TransmissionControlBlock,
        streams: Vec<StreamId>,
    ) -> Result<(), AllocError>
        ensures ok { OnOk result (filling_of C.word_of packet.new tcb.new self.now
            ≡ request_of (numbers_of streams.items) (filling_of C.word_of packet.old tcb.old self.now)) }
        ensures received { tcb.new.reassembly_queue ≡ tcb.old.reassembly_queue }
        ensures identity { tcb.new.identity ≡ tcb.old.identity }
    {
        if streams.is_empty() {
            return Ok(());
        }
        self.carry_reset_request(packet, tcb, streams)
    }

    /// A request to reset the streams that are ready goes along, as many as there is room for, where none waits for its
    /// answer (RFC 6525 section 5.1.2). The others wait for another request.
    #[tactic(auto, using(crate::proofs::GoesOnLemmas::goes_on_same, crate::proofs::GoesOnLemmas::goes_on_as))]
    fn add_reset_request(
        &mut self,
        packet: &mut OutgoingPacket,
        tcb: &mut TransmissionControlBlock,
    ) -> Result<(), AllocError>
        ensures ok { OnOk result (filling_of C.word_of packet.new tcb.new self.new ≡ with_request (filling_of C.word_of packet.old tcb.old self.old)) }
        ensures goes_on { GoesOn self.old self.new }
        ensures received { tcb.new.reassembly_queue ≡ tcb.old.reassembly_queue }
        ensures identity { tcb.new.identity ≡ tcb.old.identity }
    {
        if tcb.reset_requests.has_current() {
            return Ok(());
        }
        let most = most_streams(packet);
        let streams = self.send_queue.get_streams_ready_to_reset(most)?;
        self.start_reset_request(packet, tcb, streams)
    }

    /// As much data goes along as the windows and the packet let go.
    fn add_data(
        &mut self,
        packet: &mut OutgoingPacket,
        tcb: &mut TransmissionControlBlock,
    ) -> Result<(), AllocError>
        ensures ok { OnOk result (filling_of C.word_of packet.new tcb.new self.new ≡ with_data (filling_of C.word_of packet.old tcb.old self.old)) }
        ensures goes_on { GoesOn self.old self.new }
        ensures received { tcb.new.reassembly_queue ≡ tcb.old.reassembly_queue }
        ensures identity { tcb.new.identity ≡ tcb.old.identity }
    {
        if tcb.retransmission_queue.is_idle(&self.send_queue) {
            return Ok(());
        }
        let form = ChunkForm {
            is_interleaved: tcb.capabilities.message_interleaving,
            is_immediate: self.asks_at_once(&tcb.retransmission_queue),
        };
        let room = packet.bytes_remaining();
        let opportunity = SendOpportunity {
            now: self.clock,
            max_bytes: room,
            form,
        };
        let is_sent = tcb.retransmission_queue.send_into(
            opportunity,
            &mut self.send_queue,
            packet,
            &mut self.events,
        )?;
        if !is_sent {
            return Ok(());
        }
        self.restart_heartbeat_interval();
        Ok(())
    }

    /// Whether a packet asks the peer to acknowledge at once (RFC 7053): the congestion window is small, or with stalls avoided the
    /// packet fills the peer's.
    fn asks_at_once(&self, sender: &RetransmissionQueue) -> bool
        ensures { result ≡ asks_at_once self.now.options sender.now }
    {
        let fills_window = self.options.avoid_stalls && sender.rwnd() < 2 * self.options.mtu;
        sender.cwnd() < self.immediate_sack_cwnd() || fills_window
    }

    /// Below this congestion window it does: with stalls avoided below any, where a burst has one packet.
    fn immediate_sack_cwnd(&self) -> usize
        ensures { result ≡ small_window self.now.options }
    {
        if self.options.avoid_stalls && self.max_burst() < 2 {
            usize::MAX
        } else {
            self.options.immediate_sack_under_cwnd_mtus * self.options.mtu
        }
    }

    /// What goes into the first packet of a burst beside data.
    #[tactic(auto, using(crate::proofs::GoesOnLemmas::goes_on_same, crate::proofs::GoesOnLemmas::goes_on_through))]
    fn add_controls(
        &mut self,
        packet: &mut OutgoingPacket,
        tcb: &mut TransmissionControlBlock,
    ) -> Result<(), AllocError>
        ensures ok { OnOk result (filling_of C.word_of packet.new tcb.new self.new
            ≡ with_request (with_forward (with_ack (filling_of C.word_of packet.old tcb.old self.old)))) }
        ensures goes_on { GoesOn self.old self.new }
        ensures received { tcb.new.reassembly_queue ≡ tcb.old.reassembly_queue }
        ensures identity { tcb.new.identity ≡ tcb.old.identity }
    {
        self.add_ack(packet, tcb)?;
        self.add_forward_tsn(packet, tcb)?;
        self.add_reset_request(packet, tcb)
    }

    /// What goes into a packet of a burst.
    #[tactic(auto, using(crate::proofs::GoesOnLemmas::goes_on_same, crate::proofs::GoesOnLemmas::goes_on_through))]
    fn fill(
        &mut self,
        packet: &mut OutgoingPacket,
        tcb: &mut TransmissionControlBlock,
        is_first: bool,
    ) -> Result<(), AllocError>
        ensures ok { OnOk result (filling_of C.word_of packet.new tcb.new self.new ≡ filled_as is_first (filling_of C.word_of packet.old tcb.old self.old)) }
        ensures goes_on { GoesOn self.old self.new }
        ensures received { tcb.new.reassembly_queue ≡ tcb.old.reassembly_queue }
        ensures identity { tcb.new.identity ≡ tcb.old.identity }
    {
        if !is_first {
            return self.add_data(packet, tcb);
        }
        self.add_controls(packet, tcb)?;
        self.add_data(packet, tcb)
    }

    /// One packet of a burst. The answer is whether another one may follow.
    #[tactic(auto, using(crate::proofs::GoesOnLemmas::goes_on_same, crate::proofs::GoesOnLemmas::goes_on_through))]
    fn send_packet(
        &mut self,
        packet: &mut OutgoingPacket,
        tcb: &mut TransmissionControlBlock,
        is_first: bool,
        is_alone: bool,
    ) -> Result<bool, AllocError>
        ensures filling { OnOk result (filling_of C.word_of packet.new tcb.new self.new
            ≡ (next_packet is_first is_alone (filling_of C.word_of packet.old tcb.old self.old)).filling) }
        ensures more { IfOk result (λ more. more ≡ (next_packet is_first is_alone (filling_of C.word_of packet.old tcb.old self.old)).is_more) }
        ensures goes_on { GoesOn self.old self.new }
        ensures received { tcb.new.reassembly_queue ≡ tcb.old.reassembly_queue }
        ensures identity { tcb.new.identity ≡ tcb.old.identity }
    {
        self.fill(packet, tcb, is_first)?;
        if packet.is_empty() {
            return Ok(false);
        }
        self.emit(packet)?;
        Ok(!is_alone)
    }

    /// The most packets of a burst.
    pub fn max_burst(&self) -> u32
        ensures { result ≡ self.now.options.max_burst }
    {
        u32::try_from(self.options.max_burst).unwrap_or(0)
    }

    /// What may be sent goes out, in at most `max_burst` packets, the first of which may hold chunks already; in one
    /// packet before the COOKIE ACK (RFC 9260 section 5.1).
    #[tactic(auto, using(crate::proofs::GoesOnLemmas::goes_on_same, crate::proofs::GoesOnLemmas::goes_on_through))]
    pub fn send_burst(
        &mut self,
        packet: &mut OutgoingPacket,
        tcb: &mut TransmissionControlBlock,
        is_alone: bool,
    ) -> Result<(), AllocError>
        ensures ok { OnOk result (filling_of C.word_of packet.new tcb.new self.new ≡ burst_with is_alone packet.old (tcb_of tcb.old) (context_of C.word_of self.old)) }
        ensures goes_on { GoesOn self.old self.new }
        ensures received { tcb.new.reassembly_queue ≡ tcb.old.reassembly_queue }
        ensures identity { tcb.new.identity ≡ tcb.old.identity }
    {
        for index in 0..self.max_burst() {
            if !self.send_packet(packet, tcb, index == 0, is_alone)? {
                return Ok(());
            }
        }
        Ok(())
    }

    /// What may be sent goes out, behind the chunks of this packet.
    #[tactic(auto, using(crate::proofs::GoesOnLemmas::goes_on_same, crate::proofs::GoesOnLemmas::goes_on_through))]
    pub fn send_buffered_packets_with(
        &mut self,
        tcb: &mut TransmissionControlBlock,
        is_alone: bool,
        mut packet: OutgoingPacket,
    ) -> Result<(), AllocError>
        ensures ok { OnOk result (after_sending_of C.word_of tcb.new self.new ≡ send_with is_alone packet (tcb_of tcb.old) (context_of C.word_of self.old)) }
        ensures goes_on { GoesOn self.old self.new }
        ensures received { tcb.new.reassembly_queue ≡ tcb.old.reassembly_queue }
        ensures identity { tcb.new.identity ≡ tcb.old.identity }
    {
        self.send_burst(&mut packet, tcb, is_alone)?;
        packet.swap_memory(&mut self.spare_chunks);
        Ok(())
    }

    /// What may be sent goes out.
    #[tactic(auto, using(crate::proofs::GoesOnLemmas::goes_on_same, crate::proofs::GoesOnLemmas::goes_on_through))]
    pub fn send_buffered_packets(
        &mut self,
        tcb: &mut TransmissionControlBlock,
        is_alone: bool,
    ) -> Result<(), AllocError>
        ensures ok { OnOk result (after_sending_of C.word_of tcb.new self.new ≡ send_buffered is_alone (tcb_of tcb.old) (context_of C.word_of self.old)) }
        ensures goes_on { GoesOn self.old self.new }
        ensures received { tcb.new.reassembly_queue ≡ tcb.old.reassembly_queue }
        ensures identity { tcb.new.identity ≡ tcb.old.identity }
    {
        let packet = self.new_packet(tcb);
        self.send_buffered_packets_with(tcb, is_alone, packet)
    }

    /// The cookie goes out, with data where both fit (RFC 9260 section 5.1).
    #[tactic(auto, using(crate::proofs::GoesOnLemmas::goes_on_same, crate::proofs::GoesOnLemmas::goes_on_through))]
    pub fn send_cookie_echo(
        &mut self,
        tcb: &mut TransmissionControlBlock,
        cookie: &[u8],
    ) -> Result<(), AllocError>
        ensures ok { OnOk result (after_sending_of C.word_of tcb.new self.new ≡ send_cookie cookie.now (tcb_of tcb.old) (context_of C.word_of self.old)) }
        ensures goes_on { GoesOn self.old self.new }
        ensures received { tcb.new.reassembly_queue ≡ tcb.old.reassembly_queue }
        ensures identity { tcb.new.identity ≡ tcb.old.identity }
    {
        let mut packet = OutgoingPacket::new(
            self.alloc,
            tcb.identity.peer_verification_tag,
            self.options.mtu,
        );
        if !add_cookie(self.alloc, &mut packet, cookie)? {
            return Ok(());
        }
        self.send_buffered_packets_with(tcb, true, packet)
    }

    /// A packet in which something is answered. With stalls avoided the COOKIE ECHO goes again in front, before the COOKIE ACK: what came shows
    /// that the peer has taken it, so that its COOKIE ACK is lost or late (RFC 9260 section 5.1 C).
    pub fn answer_packet(
        &mut self,
        phase: &Phase,
        tcb: &TransmissionControlBlock,
    ) -> Result<OutgoingPacket, AllocError>
        ensures packet { IfOk result (λ packet. packet ≡ answer_packet (phase_of phase.now) self.old.options (tcb_of tcb.now)) }
        ensures context { self.new ≡ self.old }
    {
        match phase {
            Phase::CookieEchoed(echoed) if self.options.avoid_stalls => {
                let mut packet = OutgoingPacket::new(
                    self.alloc,
                    tcb.identity.peer_verification_tag,
                    self.options.mtu,
                );
                add_cookie(self.alloc, &mut packet, &echoed.cookie)?;
                Ok(packet)
            }
            _ => Ok(self.new_packet(tcb)),
        }
    }

    /// What a third missing report showed to be lost goes out, whatever the window says (RFC 9260 section 7.2.4).
    #[tactic(auto, using(crate::proofs::GoesOnLemmas::goes_on_same, crate::proofs::GoesOnLemmas::goes_on_through))]
    pub fn send_fast_retransmit(
        &mut self,
        tcb: &mut TransmissionControlBlock,
    ) -> Result<(), AllocError>
        ensures ok { OnOk result (after_sending_of C.word_of tcb.new self.new ≡ send_lost (tcb_of tcb.old) (context_of C.word_of self.old)) }
        ensures goes_on { GoesOn self.old self.new }
        ensures received { tcb.new.reassembly_queue ≡ tcb.old.reassembly_queue }
        ensures identity { tcb.new.identity ≡ tcb.old.identity }
    {
        if !tcb.retransmission_queue.has_data_to_be_fast_retransmitted() {
            return Ok(());
        }
        let mut packet = tcb.new_packet(self.alloc, &self.options);
        let most = (self.options.mtu / 4 * 4).saturating_sub(COMMON_HEADER_SIZE);
        let fragments = tcb
            .retransmission_queue
            .get_chunks_for_fast_retransmit(self.clock, most)?;
        add_fragments(&mut packet, tcb, false, fragments)?;
        self.emit(&mut packet)
    }
}

/// The COOKIE ECHO of this cookie, where it fits. The answer is whether it did.
fn add_cookie(alloc: Global, packet: &mut OutgoingPacket, cookie: &[u8]) -> Result<bool, AllocError>
    ensures test { IfOk result (λ has_fit. has_fit ≡ fits packet.old (cookie_echo_chunk cookie.now)) }
    ensures added { IfOk result (λ has_fit. packet.new ≡ added_if has_fit (cookie_echo_chunk cookie.now) packet.old) }
{
    let cookie = Vec::from_slice(alloc, cookie)?;
    packet.add_if_it_fits(Chunk::CookieEcho(CookieEchoChunk { cookie }))
}

/// How many streams a request in this packet has room for.
fn most_streams(packet: &OutgoingPacket) -> usize
    ensures { result ≡ most_streams packet.now }
{
    let whole = packet.bytes_remaining() / 4 * 4;
    whole.saturating_sub(20) / 2
}

/// The chunks of the fragments that fit, one after the other.
fn add_fragments(
    packet: &mut OutgoingPacket,
    tcb: &TransmissionControlBlock,
    is_immediate: bool,
    fragments: Vec<(Tsn, Data)>,
) -> Result<(), AllocError>
    ensures { OnOk result (packet.new ≡ add_all (data_chunks (tcb_of tcb.now) is_immediate (map chunk_of fragments.items)) packet.old) }
{
    for (tsn, data) in fragments {
        packet.add(tcb.make_data_chunk(tsn, data, is_immediate))?;
    }
    Ok(())
}

/// What waits goes out, as far as it may, where there is a control block; with stalls avoided not before the COOKIE ACK, as a packet
/// without the cookie may not go then (RFC 9260 section 5.1 C).
#[tactic(auto, using(crate::proofs::GoesOnLemmas::goes_on_same, crate::proofs::GoesOnLemmas::goes_on_through))]
pub fn send_waiting<C: Checksum>(
    state: &mut State,
    context: &mut Context<C>,
) -> Result<(), AllocError>
    ensures ok { OnOk result (endpoint_state_of C.word_of state.new context.new ≡ where_open send_in (endpoint_state_of C.word_of state.old context.old)) }
    ensures goes_on { GoesOn context.old context.new }
    ensures received { ready_in (state_of state.new) ≡ ready_in (state_of state.old) }
    ensures association { association_in (state_of state.new) ≡ association_in (state_of state.old) }
{
    match state {
        State::Closed | State::CookieWait(_) => Ok(()),
        State::Open(phase, tcb) => {
            let is_alone = phase.is_before_cookie_ack();
            if is_alone && context.options.avoid_stalls {
                return Ok(());
            }
            context.send_buffered_packets(tcb, is_alone)
        }
    }
}
