//! INIT, which the call to connect sends, and a timer again.

ghost use Rattle.std.specs.Prelude.{◌≡◌, IfOk, OnOk};
ghost use Rattle.sctp_packet.specs.Chunk.{init_chunk};
ghost use Rattle.sctp_packet.specs.ChunkView.{chunk_tree};
ghost use Rattle.sctp_capabilities.specs.Capabilities.{announced_parameters};
ghost use Rattle.sctp_state.specs.Options.{IsValid, options_of};
ghost use Rattle.spec_endpoint.specs.Opening.{init_of, send_init};
ghost use Rattle.sctp_endpoint.specs.GoesOn.{GoesOn};
ghost use Rattle.sctp_endpoint.specs.Views.{context_of};

use crate::context::Context;
use crate::outgoing_packet::OutgoingPacket;
use sctp_capabilities::announced_parameters;
use sctp_packet::{Chunk, InitChunk};
use sctp_serial::Tsn;
use sctp_state::Options;
use sctp_wire::Checksum;
use std::alloc::{AllocError, Global};

fn make_init(
    alloc: Global,
    options: &Options,
    tag: u32,
    initial_tsn: Tsn,
) -> Result<Chunk, AllocError>
    requires { IsValid (options_of options.now) }
    ensures { IfOk result (λ chunk. chunk_tree chunk ≡ init_chunk (init_of (options_of options.now) tag initial_tsn.0
        (announced_parameters (options_of options.now) (options_of options.now).zero_checksum_method))) }
{
    Ok(Chunk::Init(InitChunk {
        initiate_tag: tag,
        a_rwnd: options.max_receiver_window_buffer_size as u32,
        nbr_outbound_streams: options.announced_maximum_outgoing_streams,
        nbr_inbound_streams: options.announced_maximum_incoming_streams,
        initial_tsn,
        parameters: announced_parameters(
            alloc,
            options,
            options.zero_checksum_alternate_error_detection_method,
        )?,
    }))
}

impl<C: Checksum> Context<C> {
    /// An INIT goes out under tag 0.
    #[tactic(auto, using(crate::proofs::GoesOnLemmas::goes_on_same, crate::proofs::GoesOnLemmas::goes_on_through))]
    pub fn send_init(&mut self, tag: u32, initial_tsn: Tsn) -> Result<(), AllocError>
        ensures ok { OnOk result (context_of C.word_of self.new ≡ send_init tag initial_tsn.0 (context_of C.word_of self.old)) }
        ensures goes_on { GoesOn self.old self.new }
    {
        let chunk = make_init(self.alloc, &self.options, tag, initial_tsn)?;
        let packet = OutgoingPacket::new(self.alloc, 0, self.options.mtu);
        self.emit_in(packet, chunk)
    }
}
