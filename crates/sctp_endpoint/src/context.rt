//! What an end has in every state: its options, its clock, the messages that wait, and what it emits.

ghost use Rattle.std.specs.Prelude.{◌≡◌, false, OnErr, OnOk, Some};
ghost use Rattle.sctp_packet.specs.ChunkView.{chunk_tree};
ghost use Rattle.sctp_state.specs.Events.{OnError, OnAborted, event_of};
ghost use Rattle.sctp_state.specs.Options.{IsValid, options_of};
ghost use Rattle.spec_endpoint.specs.Association.{context};
ghost use Rattle.spec_endpoint.specs.Packets.{add, emit_error, emit, emit_chunk, clear_chunks, new_packet, emit_event_in};
ghost use Rattle.sctp_endpoint.specs.Views.{context_of, tcb_of};
ghost use Rattle.sctp_endpoint.specs.GoesOn.{Continues, GoesOn, announces};
ghost use Rattle.spec_endpoint.specs.Wire.{writing};
ghost use Rattle.spec_endpoint.specs.Shutdown as closing;
ghost use Rattle.spec_endpoint.specs.Heartbeats as heartbeats;

use crate::outgoing_packet::OutgoingPacket;
use crate::transmission_control_block::TransmissionControlBlock;
use crate::written_chunks::WrittenChunks;
use sctp_packet::Chunk;
use sctp_serial::SocketTime;
use sctp_state::{
    BackoffAlgorithm, ErrorKind, Events, Options, SctpImplementation, SocketEvent, Timer,
    TxErrorCounter,
};
use sctp_tx::SendQueue;
use sctp_wire::Checksum;
use std::alloc::{AllocError, Global};
use std::marker::Model;

/// What an end has in every state.
#[derive(Drop)]
pub struct Context<C: Checksum> {
    pub alloc: Global,
    pub options: Options,
    pub clock: SocketTime,
    pub send_queue: SendQueue,
    /// No forward point is looked for or sent before this moment.
    pub limit_forward_tsn_until: SocketTime,
    pub tx_error_counter: TxErrorCounter,
    /// Until the next heartbeat, where no data is sent.
    pub heartbeat_interval: Timer,
    /// For the answer to the last one.
    pub heartbeat_timeout: Timer,
    /// The number of the last one.
    pub heartbeat_counter: u32,
    pub rx_packets_count: usize,
    pub tx_packets_count: usize,
    pub tx_messages_count: usize,
    pub peer_implementation: SctpImplementation,
    /// The own verification tag of the last association; 0 before the first.
    pub last_tag: u32,
    pub events: Events,
    pub checksum: C,
    /// The memory of the last packet's chunks, for the next packet.
    pub spare_chunks: WrittenChunks,
}

impl<C: Checksum> Model for Context<C> {
    ghost use Rattle.sctp_state.specs.Options.{IsValid, options_of};
    ghost use Rattle.sctp_endpoint.specs.Views.{ContextValue};

    ghost Value = { ContextValue C };

    ghost view = { λ c. record {
      options = options_of c.options;
      clock = c.clock;
      queue = c.send_queue;
      forward_from = c.limit_forward_tsn_until;
      errors = c.tx_error_counter;
      heartbeats = record { interval = c.heartbeat_interval; timeout = c.heartbeat_timeout; counter = c.heartbeat_counter };
      counts = record { rx_packets = c.rx_packets_count; tx_packets = c.tx_packets_count; tx_messages = c.tx_messages_count };
      peer = c.peer_implementation;
      last_tag = c.last_tag;
      emitted = c.events;
      checksum = c.checksum;
    } };

    ghost invariant = { λ c. IsValid (options_of c.options) };
}

impl<C: Checksum + Drop> Context<C> {
    /// The context is let go, as a control block is.
    pub fn let_go(self) {
        drop(self);
    }
}

impl<C: Checksum> Context<C> {
    /// A new end, at moment zero.
    pub fn new(alloc: Global, options: Options, checksum: C) -> Context<C>
        requires { IsValid (options_of options) }
        ensures { context_of C.word_of result ≡ context (options_of options) (writing (C.word_of checksum)) }
    {
        Context {
            alloc,
            send_queue: SendQueue::new(alloc, &options),
            tx_error_counter: TxErrorCounter::new(options.max_retransmissions),
            heartbeat_interval: Timer::new(
                options.heartbeat_interval,
                BackoffAlgorithm::Fixed,
                None,
                None,
            ),
            heartbeat_timeout: Timer::new(
                options.rto_initial,
                BackoffAlgorithm::Exponential,
                Some(0),
                None,
            ),
            heartbeat_counter: 0,
            options,
            clock: SocketTime::zero(),
            limit_forward_tsn_until: SocketTime::zero(),
            rx_packets_count: 0,
            tx_packets_count: 0,
            tx_messages_count: 0,
            peer_implementation: SctpImplementation::Unknown,
            last_tag: 0,
            events: Events::new(alloc),
            checksum,
            spare_chunks: WrittenChunks::new(alloc),
        }
    }

    /// An empty packet to the peer, in the memory of an earlier one.
    pub fn new_packet(&mut self, tcb: &TransmissionControlBlock) -> OutgoingPacket
        ensures packet { result ≡ new_packet self.old.options (tcb_of tcb.now) }
        ensures context { self.new ≡ self.old }
    {
        let mut packet = tcb.new_packet(self.alloc, &self.options);
        packet.swap_memory(&mut self.spare_chunks);
        packet
    }

    /// A packet goes out, where something was put into it; then it is empty again.
    #[tactic(auto, using(crate::proofs::GoesOnLemmas::goes_on_same, crate::proofs::GoesOnLemmas::goes_on_as, crate::proofs::GoesOnLemmas::goes_on_by, crate::proofs::QuietLemmas::quietly_by))]
    pub fn emit(&mut self, packet: &mut OutgoingPacket) -> Result<(), AllocError>
        ensures context { OnOk result (context_of C.word_of self.new ≡ emit packet.old (context_of C.word_of self.old)) }
        ensures packet { OnOk result (packet.new ≡ clear_chunks packet.old) }
        ensures goes_on { GoesOn self.old self.new }
    {
        if packet.is_empty() {
            return Ok(());
        }
        let bytes = packet.build(
            self.options.local_port,
            self.options.remote_port,
            &self.checksum,
        )?;
        self.events.add(SocketEvent::SendPacket(bytes))?;
        self.tx_packets_count = self.tx_packets_count.saturating_add(1);
        Ok(())
    }

    /// A chunk goes out in this packet, behind those that it holds.
    #[tactic(auto, using(crate::proofs::GoesOnLemmas::goes_on_same, crate::proofs::GoesOnLemmas::goes_on_through))]
    pub fn emit_in(&mut self, mut packet: OutgoingPacket, chunk: Chunk) -> Result<(), AllocError>
        ensures ok { OnOk result (context_of C.word_of self.new ≡ emit (add (chunk_tree chunk) packet) (context_of C.word_of self.old)) }
        ensures goes_on { GoesOn self.old self.new }
    {
        packet.add(chunk)?;
        self.emit(&mut packet)
    }

    /// A packet of one chunk goes out to the peer.
    #[tactic(auto, using(crate::proofs::GoesOnLemmas::goes_on_same, crate::proofs::GoesOnLemmas::goes_on_through))]
    pub fn emit_chunk(
        &mut self,
        tcb: &TransmissionControlBlock,
        chunk: Chunk,
    ) -> Result<(), AllocError>
        ensures ok { OnOk result (context_of C.word_of self.new ≡ emit_chunk (chunk_tree chunk) (tcb_of tcb.now) (context_of C.word_of self.old)) }
        ensures goes_on { GoesOn self.old self.new }
    {
        let packet = tcb.new_packet(self.alloc, &self.options);
        self.emit_in(packet, chunk)
    }

    /// Emits an error.
    #[tactic(auto, using(crate::proofs::GoesOnLemmas::goes_on_same, crate::proofs::GoesOnLemmas::goes_on_as, crate::proofs::GoesOnLemmas::goes_on_by, crate::proofs::QuietLemmas::quietly_by))]
    pub fn emit_error(&mut self, kind: ErrorKind, text: &str) -> Result<(), AllocError>
        ensures ok { OnOk result (context_of C.word_of self.new ≡ emit_error kind text.now (context_of C.word_of self.old)) }
        ensures goes_on { GoesOn self.old self.new }
        ensures err { OnErr result (self.new ≡ self.old) }
    {
        let text = String::from_str(self.alloc, text)?;
        self.events.add(SocketEvent::OnError(kind, text))
    }

    /// Emits an event that announces no association. The error is want of memory; nothing is emitted then.
    #[tactic(auto, using(crate::proofs::GoesOnLemmas::goes_on_same, crate::proofs::GoesOnLemmas::goes_on_as, crate::proofs::GoesOnLemmas::goes_on_by, crate::proofs::QuietLemmas::quietly_by))]
    pub fn emit_event(&mut self, event: SocketEvent) -> Result<(), AllocError>
        requires { announces (event_of event) ≡ false }
        ensures ok { OnOk result (context_of C.word_of self.new ≡ emit_event_in (event_of event) (context_of C.word_of self.old)) }
        ensures goes_on { GoesOn self.old self.new }
        ensures err { OnErr result (self.new ≡ self.old) }
    {
        self.events.add(event)
    }

    /// Emits an event that may announce an association, which the end then holds. The error is want of memory; nothing is emitted
    /// then.
    #[tactic(auto, using(crate::proofs::GoesOnLemmas::continues_same, crate::proofs::GoesOnLemmas::continues_by_event))]
    pub fn announce(&mut self, event: SocketEvent) -> Result<(), AllocError>
        ensures ok { OnOk result (context_of C.word_of self.new ≡ emit_event_in (event_of event) (context_of C.word_of self.old)) }
        ensures goes_on { Continues self.old self.new }
        ensures err { OnErr result (self.new ≡ self.old) }
    {
        self.events.add(event)
    }

    /// With stalls avoided the count of errors doesn't go to another association.
    #[tactic(auto, using(crate::proofs::GoesOnLemmas::goes_on_same, crate::proofs::GoesOnLemmas::goes_on_as))]
    pub fn forget_errors(&mut self)
        ensures ok { let c = context_of C.word_of self.old in context_of C.word_of self.new ≡ record c { errors = closing.cleared_if c.options.avoid_stalls c.errors } }
        ensures goes_on { GoesOn self.old self.new }
    {
        if self.options.avoid_stalls {
            self.tx_error_counter.reset();
        }
    }

    /// With stalls avoided, neither what waits nor the count of errors goes to another association.
    #[tactic(auto, using(crate::proofs::GoesOnLemmas::goes_on_same, crate::proofs::GoesOnLemmas::goes_on_as))]
    pub fn empty_if_avoided(&mut self) -> Result<(), AllocError>
        ensures ok { OnOk result (context_of C.word_of self.new ≡ closing.emptied_if self.old.options.avoid_stalls (context_of C.word_of self.old)) }
        ensures goes_on { GoesOn self.old self.new }
    {
        self.forget_errors();
        if self.options.avoid_stalls {
            self.send_queue.empty(&mut self.events)?;
        }
        Ok(())
    }

    /// The event that says that the association is over; no heartbeats are sent any more. With stalls avoided, what waits is
    /// given up, and errors count from 0.
    #[tactic(auto, using(crate::proofs::GoesOnLemmas::goes_on_same, crate::proofs::GoesOnLemmas::goes_on_through))]
    pub fn internal_close(&mut self, event: SocketEvent) -> Result<(), AllocError>
        requires { announces (event_of event) ≡ false }
        ensures ok { OnOk result (context_of C.word_of self.new ≡ closing.over (event_of event) (context_of C.word_of self.old)) }
        ensures goes_on { GoesOn self.old self.new }
    {
        self.stop_heartbeats();
        self.emit_event(event)?;
        self.empty_if_avoided()
    }

    /// The association is over, as aborted.
    #[tactic(auto, using(crate::proofs::GoesOnLemmas::goes_on_same, crate::proofs::GoesOnLemmas::goes_on_through))]
    pub fn emit_aborted(&mut self, kind: ErrorKind, text: &str) -> Result<(), AllocError>
        ensures ok { OnOk result (context_of C.word_of self.new ≡ closing.over (OnAborted kind text.now) (context_of C.word_of self.old)) }
        ensures goes_on { GoesOn self.old self.new }
    {
        let text = String::from_str(self.alloc, text)?;
        self.internal_close(SocketEvent::OnAborted(kind, text))
    }

    /// The same, since the peer doesn't answer.
    #[tactic(auto, using(crate::proofs::GoesOnLemmas::goes_on_same, crate::proofs::GoesOnLemmas::goes_on_through))]
    pub fn emit_no_answer(&mut self, text: &str) -> Result<(), AllocError>
        ensures ok { OnOk result (context_of C.word_of self.new ≡ closing.over (OnAborted ErrorKind.TooManyRetries text.now) (context_of C.word_of self.old)) }
        ensures goes_on { GoesOn self.old self.new }
    {
        self.emit_aborted(ErrorKind::TooManyRetries, text)
    }

    /// The next heartbeat is an interval away.
    #[tactic(auto, using(crate::proofs::GoesOnLemmas::goes_on_same, crate::proofs::GoesOnLemmas::goes_on_as))]
    pub fn restart_heartbeat_interval(&mut self)
        ensures ok { let c = context_of C.word_of self.old in
            context_of C.word_of self.new ≡ record c { heartbeats = heartbeats.restart_interval c.now c.heartbeats } }
        ensures goes_on { GoesOn self.old self.new }
    {
        self.heartbeat_interval.start(self.clock);
    }

    /// No heartbeat is sent any more, and no answer waited for.
    #[tactic(auto, using(crate::proofs::GoesOnLemmas::goes_on_same, crate::proofs::GoesOnLemmas::goes_on_as))]
    pub fn stop_heartbeats(&mut self)
        ensures ok { let c = context_of C.word_of self.old in
            context_of C.word_of self.new ≡ record c { heartbeats = heartbeats.stop_heartbeats c.heartbeats } }
        ensures goes_on { GoesOn self.old self.new }
    {
        self.heartbeat_interval.stop();
        self.heartbeat_timeout.stop();
    }
}
