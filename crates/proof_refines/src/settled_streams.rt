//! Nothing that is complete and in turn stays behind in a reassembly: of the value of a queue, and of the streams in either form, after each
//! call that changes them.

ghost use Rattle.std.specs.Prelude.{ℕ, Bool, List};
ghost use Rattle.sctp_serial.specs.declared.api.StreamId.{StreamId};
ghost use Rattle.sctp_chunk.specs.declared.forward_tsn.SkippedStream.{SkippedStream};
ghost use Rattle.sctp_chunk.specs.Chunk.{FragmentTree};
ghost use Rattle.sctp_state.specs.Handover.{Receive};
ghost use Rattle.sctp_reassembly.specs.ReassemblyStreams as streams;
ghost use Rattle.sctp_reassembly.specs.ReassemblyStreams.{Streams, no_streams, skip, dropped_to};
ghost use Rattle.sctp_reassembly.specs.ReassemblyHandover.{restore, streams_restored};
ghost use Rattle.sctp_reassembly.specs.ReassemblyQueue.{Reassembly, reassembly, add, forward, reset};
ghost use Rattle.proof_refines.specs.SettledStreams.{AreSettled};

/// A new queue holds nothing.
pub fn new_queues_are_settled()
    ensures { (max_size : ℕ) (is_interleaved : Bool) → AreSettled (reassembly max_size is_interleaved).streams }
{}

/// Once a fragment came, nothing that is complete and in turn is held, if nothing was before.
pub fn fragments_leave_queues_settled()
    ensures { (tsn : ℕ) (f : FragmentTree) (r : Reassembly) → AreSettled r.streams → AreSettled (add tsn f r).streams }
{}

/// Nor once a forward point came.
pub fn forward_points_leave_queues_settled()
    ensures { (tsn : ℕ) (entries : List SkippedStream) (r : Reassembly) → AreSettled r.streams → AreSettled (forward tsn entries r).streams }
{}

/// Nor once streams were reset, and what waited came.
pub fn resets_leave_queues_settled()
    ensures { (ids : List StreamId) (r : Reassembly) → AreSettled r.streams → AreSettled (reset ids r).streams }
{}

/// Nor in a queue with the streams of a handover record.
pub fn restored_queues_are_settled()
    ensures { (rx : Receive) (r : Reassembly) → AreSettled (restore rx r).streams }
{}

/// The same of the streams alone, in either form, after each of their calls.
pub fn calls_leave_streams_settled()
    ensures new { (is_interleaved : Bool) → AreSettled (no_streams is_interleaved) }
    ensures add { (tsn : ℕ) (f : FragmentTree) (ss : Streams) → AreSettled ss → AreSettled (streams.add tsn f ss).streams }
    ensures skip { (entry : SkippedStream) (ss : Streams) → AreSettled ss → AreSettled (skip entry ss).streams }
    ensures drop_to { (tsn : ℕ) (ss : Streams) → AreSettled ss → AreSettled (dropped_to tsn ss) }
    ensures forward { (tsn : ℕ) (entries : List SkippedStream) (ss : Streams) → AreSettled ss → AreSettled (streams.forward tsn entries ss).streams }
    ensures reset { (ids : List StreamId) (ss : Streams) → AreSettled ss → AreSettled (streams.reset ids ss) }
    ensures restored { (rx : Receive) (ss : Streams) → AreSettled (streams_restored rx ss) }
{}
