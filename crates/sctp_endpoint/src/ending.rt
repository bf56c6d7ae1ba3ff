//! What goes out and is emitted where an association ends (RFC 9260 sections 9.1, 9.2).

ghost use Rattle.std.specs.Prelude.{◌≡◌, false, [], ◌∷◌, codes, IfOk, OnOk};
ghost use Rattle.sctp_wire.specs.Cause.{user_initiated_abort};
ghost use Rattle.sctp_error_cause.specs.CauseViews.{cause_tree};
ghost use Rattle.sctp_packet.specs.Chunk.{abort_chunk};
ghost use Rattle.sctp_packet.specs.ChunkView.{chunk_tree};
ghost use Rattle.spec_endpoint.specs.Packets.{emit_chunk};
ghost use Rattle.sctp_state.specs.Events.{OnAborted, OnClosed};
ghost use Rattle.sctp_endpoint.specs.GoesOn.{GoesOn};
ghost use Rattle.sctp_endpoint.specs.Views.{context_of, phase_step_of, phase_of, tcb_of};
ghost use Rattle.spec_endpoint.specs.Shutdown as table;

use crate::context::Context;
use crate::state::Phase;
use crate::transmission_control_block::TransmissionControlBlock;
use sctp_error_cause::{ErrorCause, UserInitiatedAbortErrorCause};
use sctp_packet::{AbortChunk, Chunk, ShutdownAckChunk, ShutdownChunk};
use sctp_state::{BackoffAlgorithm, ErrorKind, SocketEvent, Timer};
use sctp_wire::Checksum;
use std::alloc::AllocError;

impl<C: Checksum> Context<C> {
    /// An ABORT with one cause goes out.
    #[tactic(auto, using(crate::proofs::GoesOnLemmas::goes_on_same, crate::proofs::GoesOnLemmas::goes_on_through))]
    pub fn send_abort(
        &mut self,
        tcb: &TransmissionControlBlock,
        cause: ErrorCause,
    ) -> Result<(), AllocError>
        ensures ok { OnOk result (context_of C.word_of self.new ≡ emit_chunk (abort_chunk false (cause_tree cause ∷ [])) (tcb_of tcb.now) (context_of C.word_of self.old)) }
        ensures goes_on { GoesOn self.old self.new }
    {
        let chunk = self.abort_chunk(cause)?;
        self.emit_chunk(tcb, chunk)
    }

    /// An ABORT with this cause alone (RFC 9260 section 3.3.7).
    pub fn abort_chunk(&self, cause: ErrorCause) -> Result<Chunk, AllocError>
        ensures { IfOk result (λ chunk. chunk_tree chunk ≡ abort_chunk false (cause_tree cause ∷ [])) }
    {
        let mut error_causes = Vec::new(self.alloc);
        error_causes.push(cause)?;
        Ok(Chunk::Abort(AbortChunk {
            tag_reflected: false,
            error_causes,
        }))
    }

    /// What the user gave as the cause of an ABORT.
    pub fn user_abort(&self, reason: &str) -> Result<ErrorCause, AllocError>
        ensures { IfOk result (λ cause. cause_tree cause ≡ user_initiated_abort reason.now) }
    {
        let reason = String::from_str(self.alloc, reason)?;
        Ok(ErrorCause::UserInitiatedAbort(UserInitiatedAbortErrorCause { reason }))
    }

    /// The owner ends the association: an ABORT with the cause User-Initiated Abort (RFC 9260 section 3.3.10.12), then `OnClosed`.
    #[tactic(auto, using(crate::proofs::GoesOnLemmas::goes_on_same, crate::proofs::GoesOnLemmas::goes_on_through))]
    pub fn abort_by_user(&mut self, tcb: &TransmissionControlBlock) -> Result<(), AllocError>
        ensures ok { OnOk result (context_of C.word_of self.new
            ≡ table.over OnClosed (emit_chunk (abort_chunk false (user_initiated_abort (codes "Close called") ∷ [])) (tcb_of tcb.now) (context_of C.word_of self.old))) }
        ensures goes_on { GoesOn self.old self.new }
    {
        let cause = self.user_abort("Close called")?;
        self.send_abort(tcb, cause)?;
        self.internal_close(SocketEvent::OnClosed())
    }

    /// Too many retransmissions end the association (RFC 9260 section 8.1): an ABORT, then `OnAborted`.
    #[tactic(auto, using(crate::proofs::GoesOnLemmas::goes_on_same, crate::proofs::GoesOnLemmas::goes_on_through))]
    pub fn abort_by_retransmissions(
        &mut self,
        tcb: &TransmissionControlBlock,
    ) -> Result<(), AllocError>
        ensures ok { OnOk result (context_of C.word_of self.new
            ≡ table.over (OnAborted ErrorKind.TooManyRetries (codes "Too many retransmissions"))
            (emit_chunk (abort_chunk false (user_initiated_abort (codes "Too many retransmissions") ∷ [])) (tcb_of tcb.now) (context_of C.word_of self.old))) }
        ensures goes_on { GoesOn self.old self.new }
    {
        let cause = self.user_abort("Too many retransmissions")?;
        self.send_abort(tcb, cause)?;
        self.emit_no_answer("Too many retransmissions")
    }

    /// T2-shutdown as it starts (RFC 9260 section 9.2): it expires after a retransmission timeout.
    pub fn t2_shutdown(&self, tcb: &TransmissionControlBlock) -> Timer
        ensures { result ≡ table.t2_shutdown (tcb_of tcb.now) (context_of C.word_of self.now) }
    {
        let mut timer = Timer::new(
            tcb.rto.rto(),
            BackoffAlgorithm::Exponential,
            self.options.max_retransmissions,
            None,
        );
        timer.start(self.clock);
        timer
    }

    /// A SHUTDOWN with the cumulative TSN goes out (RFC 9260 section 9.2).
    #[tactic(auto, using(crate::proofs::GoesOnLemmas::goes_on_same, crate::proofs::GoesOnLemmas::goes_on_through))]
    pub fn send_shutdown(&mut self, tcb: &TransmissionControlBlock) -> Result<(), AllocError>
        ensures ok { OnOk result (context_of C.word_of self.new ≡ table.send_shutdown (tcb_of tcb.now) (context_of C.word_of self.old)) }
        ensures goes_on { GoesOn self.old self.new }
    {
        let cumulative_tsn_ack = tcb.data_tracker.last_cumulative_acked_tsn();
        self.emit_chunk(tcb, Chunk::Shutdown(ShutdownChunk { cumulative_tsn_ack }))
    }

    /// A SHUTDOWN ACK goes out (RFC 9260 section 9.2).
    #[tactic(auto, using(crate::proofs::GoesOnLemmas::goes_on_same, crate::proofs::GoesOnLemmas::goes_on_through))]
    pub fn send_shutdown_ack(&mut self, tcb: &TransmissionControlBlock) -> Result<(), AllocError>
        ensures ok { OnOk result (context_of C.word_of self.new ≡ table.send_shutdown_ack (tcb_of tcb.now) (context_of C.word_of self.old)) }
        ensures goes_on { GoesOn self.old self.new }
    {
        self.emit_chunk(tcb, Chunk::ShutdownAck(ShutdownAckChunk {}))
    }

    /// What a shutdown waits for: nothing is in flight; with stalls avoided nothing is kept or queued (RFC 9260 section 9.2).
    fn is_quiet(&self, tcb: &TransmissionControlBlock) -> bool
        ensures { result ≡ table.is_quiet (tcb_of tcb.now) (context_of C.word_of self.now) }
    {
        if self.options.avoid_stalls {
            tcb.retransmission_queue.is_empty() && self.send_queue.is_empty()
        } else {
            tcb.retransmission_queue.unacked_items() == 0
        }
    }

    /// A shutdown before the COOKIE ACK: it goes on once nothing is in flight, whatever is queued, as no COOKIE ECHO goes again, behind which that
    /// could go.
    #[tactic(auto, using(crate::proofs::GoesOnLemmas::goes_on_same, crate::proofs::GoesOnLemmas::goes_on_through))]
    pub fn shut_early(
        &mut self,
        phase: &mut Phase,
        tcb: &TransmissionControlBlock,
    ) -> Result<(), AllocError>
        ensures ok { OnOk result (phase_step_of C.word_of phase.new self.new ≡ table.shut_early (tcb_of tcb.now) (context_of C.word_of self.old)) }
        ensures goes_on { GoesOn self.old self.new }
    {
        if tcb.retransmission_queue.unacked_items() != 0 {
            *phase = Phase::ShutdownPending;
            return Ok(());
        }
        *phase = Phase::ShutdownSent(self.t2_shutdown(tcb));
        self.send_shutdown(tcb)
    }

    /// Where it is quiet, a shutdown that waited for that goes on.
    #[tactic(auto, using(crate::proofs::GoesOnLemmas::goes_on_same, crate::proofs::GoesOnLemmas::goes_on_through))]
    pub fn maybe_send_shutdown_or_ack(
        &mut self,
        phase: &mut Phase,
        tcb: &TransmissionControlBlock,
    ) -> Result<(), AllocError>
        ensures ok { OnOk result (phase_step_of C.word_of phase.new self.new ≡ table.maybe_send_shutdown_or_ack (phase_of phase.old) (tcb_of tcb.now) (context_of C.word_of self.old)) }
        ensures goes_on { GoesOn self.old self.new }
    {
        if !self.is_quiet(tcb) {
            return Ok(());
        }
        match phase {
            Phase::ShutdownPending => {
                *phase = Phase::ShutdownSent(self.t2_shutdown(tcb));
                self.send_shutdown(tcb)
            }
            Phase::ShutdownReceived => {
                *phase = Phase::ShutdownAckSent(self.t2_shutdown(tcb));
                self.send_shutdown_ack(tcb)
            }
            Phase::CookieEchoed(_)
            | Phase::Established
            | Phase::ShutdownSent(_)
            | Phase::ShutdownAckSent(_) => Ok(()),
        }
    }
}
