//! What an end keeps of an association (RFC 9260 section 14).

ghost use Rattle.std.specs.Prelude.{◌≡◌, None, OnOk, IsTrue};
ghost use Rattle.sctp_state.specs.Options.{IsValid, options_of};
ghost use Rattle.sctp_capabilities.specs.Capabilities.{capabilities_of};
ghost use Rattle.spec_endpoint.specs.Association.{tcb};
ghost use Rattle.spec_endpoint.specs.Packets.{new_packet};
ghost use Rattle.spec_endpoint.specs.Sending.{add_request, request_started};
ghost use Rattle.sctp_packet.specs.Chunk.{fragment_chunk};
ghost use Rattle.sctp_endpoint.specs.Views.{identity_of, tcb_of};
ghost use Rattle.sctp_packet.specs.Views.{fragment_tree};
ghost use Rattle.sctp_packet.specs.ChunkView.{chunk_tree};
ghost use Rattle.sctp_state.specs.Events.{numbers_of};
ghost use Rattle.sctp_state.specs.Handover.{handover_state_of};
ghost use Rattle.sctp_state.specs.Validity.{is_valid_state};
ghost use Rattle.spec_endpoint.specs.Handover as handover;

use crate::outgoing_packet::{OutgoingPacket, data_chunk};
use crate::reset_requests::ResetRequests;
use sctp_capabilities::Capabilities;
use sctp_packet::{Chunk, Data};
use sctp_rx::{DataTracker, ReassemblyQueue};
use sctp_serial::{SocketTime, StreamId, Tsn};
use sctp_state::api::handover::{HandoverCapabilities, HandoverSocketState};
use sctp_state::{HandoverReadiness, Options, RetransmissionTimeout, SocketHandoverState};
use sctp_tx::{ChunkForm, RetransmissionQueue};
use std::alloc::{AllocError, Global};

/// Tags and first TSNs of both ends, and the tag that tells this association from a later one.
#[derive(Clone, Copy, Debug)]
pub struct Identity {
    pub my_verification_tag: u32,
    pub my_initial_tsn: Tsn,
    pub peer_verification_tag: u32,
    pub peer_initial_tsn: Tsn,
    pub tie_tag: u64,
}

/// What both ends of an association hold, mirrored.
#[derive(Clone, Copy, Debug, PartialEq, Eq)]
pub struct Association {
    pub my_tag: u32,
    pub my_initial_tsn: Tsn,
    pub peer_tag: u32,
    pub peer_initial_tsn: Tsn,
}

impl Identity {
    /// The tags and first TSNs.
    pub fn association(&self) -> Association
        ensures my_tag { result.my_tag ≡ self.now.my_verification_tag }
        ensures my_first { result.my_initial_tsn ≡ self.now.my_initial_tsn }
        ensures peer_tag { result.peer_tag ≡ self.now.peer_verification_tag }
        ensures peer_first { result.peer_initial_tsn ≡ self.now.peer_initial_tsn }
    {
        Association {
            my_tag: self.my_verification_tag,
            my_initial_tsn: self.my_initial_tsn,
            peer_tag: self.peer_verification_tag,
            peer_initial_tsn: self.peer_initial_tsn,
        }
    }
}

/// The control block of an association: all that ends with it.
#[derive(Drop)]
pub struct TransmissionControlBlock {
    pub identity: Identity,
    pub capabilities: Capabilities,
    pub data_tracker: DataTracker,
    pub reassembly_queue: ReassemblyQueue,
    pub retransmission_queue: RetransmissionQueue,
    pub rto: RetransmissionTimeout,
    pub reset_requests: ResetRequests,
}

impl TransmissionControlBlock {
    /// The block is let go.
    pub fn let_go(self) {
        drop(self);
    }

    /// A new association with a peer whose window is `a_rwnd` bytes. It takes no memory.
    pub fn new(
        alloc: Global,
        options: &Options,
        identity: Identity,
        a_rwnd: u32,
        capabilities: Capabilities,
    ) -> TransmissionControlBlock
        requires { IsValid (options_of options.now) }
        ensures { tcb_of result ≡ tcb (options_of options.now) (identity_of identity) a_rwnd (capabilities_of capabilities) }
    {
        TransmissionControlBlock {
            identity,
            capabilities,
            data_tracker: DataTracker::new(alloc, identity.peer_initial_tsn, options),
            reassembly_queue: ReassemblyQueue::new(
                alloc,
                options.max_receiver_window_buffer_size,
                capabilities.message_interleaving,
            )
            .with_max_fragments(options.max_held_fragments.unwrap_or(usize::MAX)),
            retransmission_queue: RetransmissionQueue::new(
                alloc,
                identity.my_initial_tsn,
                a_rwnd,
                options,
                capabilities.partial_reliability,
                capabilities.message_interleaving,
            ),
            rto: RetransmissionTimeout::new(options),
            reset_requests: ResetRequests::new(
                alloc,
                options,
                identity.my_initial_tsn,
                identity.peer_initial_tsn,
            ),
        }
    }

    /// The chunk of a fragment with this TSN: DATA, or I-DATA where messages are interleaved.
    pub fn make_data_chunk(&self, tsn: Tsn, fragment: Data, immediate_ack: bool) -> Chunk
        ensures { chunk_tree result ≡ fragment_chunk self.now.capabilities.message_interleaving immediate_ack (tsn.0, fragment_tree fragment) }
    {
        let form = ChunkForm {
            is_interleaved: self.capabilities.message_interleaving,
            is_immediate: immediate_ack,
        };
        data_chunk(form, tsn, fragment)
    }

    /// An empty packet to the peer, of at most the largest multiple of 4 bytes that is no more than the `mtu`.
    pub fn new_packet(&self, alloc: Global, options: &Options) -> OutgoingPacket
        requires { IsValid (options_of options.now) }
        ensures { result ≡ new_packet (options_of options.now) (tcb_of self.now) }
    {
        let mut packet = OutgoingPacket::new(
            alloc,
            self.identity.peer_verification_tag,
            options.mtu / 4 * 4,
        );
        packet.write_checksum(!self.capabilities.zero_checksum_enabled());
        packet
    }

    /// The request that waits for its answer goes along, where it fits.
    pub fn add_prepared_ssn_reset_request(
        &self,
        packet: &mut OutgoingPacket,
    ) -> Result<(), AllocError>
        ensures { OnOk result (packet.new ≡ add_request (tcb_of self.now).requests.current packet.old) }
    {
        match self.reset_requests.current_chunk()? {
            Some(chunk) => packet.add(chunk),
            None => Ok(()),
        }
    }

    /// A request to reset these streams begins, and goes along.
    pub fn start_ssn_reset_request(
        &mut self,
        now: SocketTime,
        streams: Vec<StreamId>,
        packet: &mut OutgoingPacket,
    ) -> Result<(), AllocError>
        ensures tcb { OnOk result (tcb_of self.new ≡ request_started now (numbers_of streams.items) (tcb_of self.old)) }
        ensures packet { OnOk result (packet.new ≡ add_request (request_started now (numbers_of streams.items) (tcb_of self.old)).requests.current packet.old) }
        ensures received { self.new.reassembly_queue ≡ self.old.reassembly_queue }
        ensures identity { self.new.identity ≡ self.old.identity }
    {
        self.retransmission_queue.begin_reset_streams()?;
        let last_tsn = self.retransmission_queue.last_assigned_tsn();
        self.reset_requests
            .start(now, self.rto.rto(), last_tsn, streams);
        self.add_prepared_ssn_reset_request(packet)
    }
}

fn capabilities_written(capabilities: &Capabilities) -> HandoverCapabilities
    ensures { result ≡ handover.capabilities_written (capabilities_of capabilities.now) }
{
    HandoverCapabilities {
        partial_reliability: capabilities.partial_reliability,
        message_interleaving: capabilities.message_interleaving,
        reconfig: capabilities.reconfig,
        zero_checksum: capabilities.zero_checksum_enabled(),
        negotiated_maximum_incoming_streams: capabilities.negotiated_maximum_incoming_streams,
        negotiated_maximum_outgoing_streams: capabilities.negotiated_maximum_outgoing_streams,
    }
}

impl TransmissionControlBlock {
    /// What of the control block stands in the way of a handover; items where `is_strict` says that no data may be handed
    /// over.
    pub fn get_handover_readiness(&self, is_strict: bool) -> HandoverReadiness
        ensures { result.0 ≡ handover.block_readiness is_strict (tcb_of self.now) }
    {
        let receiving = self.data_tracker.get_handover_readiness()
            | self.reassembly_queue.get_handover_readiness();
        let sending = self.retransmission_queue.get_handover_readiness(is_strict);
        receiving | sending | self.reset_requests.get_handover_readiness()
    }

    /// Writes the association into the record of a socket that is handed over now, but for messages that wait.
    pub fn add_to_handover_state(
        &self,
        now: SocketTime,
        state: &mut SocketHandoverState,
    ) -> Result<(), AllocError>
        ensures { OnOk result (handover_state_of state.new ≡ handover.block_written now (tcb_of self.now) (handover_state_of state.old)) }
    {
        state.socket_state = HandoverSocketState::Connected;
        state.my_verification_tag = self.identity.my_verification_tag;
        state.my_initial_tsn = self.identity.my_initial_tsn.0;
        state.peer_verification_tag = self.identity.peer_verification_tag;
        state.peer_initial_tsn = self.identity.peer_initial_tsn.0;
        state.tie_tag = self.identity.tie_tag;
        state.capabilities = capabilities_written(&self.capabilities);
        self.retransmission_queue.add_to_handover_state(now, state)?;
        self.data_tracker.add_to_handover_state(state);
        self.reassembly_queue.add_to_handover_state(state)?;
        self.reset_requests.add_to_handover_state(state);
        Ok(())
    }

    /// Takes up the association of a record now. For a new control block of the record's identity and capabilities.
    pub fn restore_from_state(
        &mut self,
        now: SocketTime,
        state: &SocketHandoverState,
    ) -> Result<(), AllocError>
        requires connected { state.now.socket_state ≡ HandoverSocketState.Connected }
        requires valid { IsTrue (is_valid_state (handover_state_of state.now)) }
        requires mode { (tcb_of self.old).reassembly.streams.is_interleaved ≡ state.now.capabilities.message_interleaving }
        ensures { OnOk result (tcb_of self.new ≡ handover.block_restored now (handover_state_of state.now) (tcb_of self.old)) }
    {
        self.data_tracker.restore_from_state(state);
        self.reset_requests.restore_from_state(state);
        self.reassembly_queue.restore_from_state(state)?;
        self.retransmission_queue.restore_from_state(now, state)
    }
}
