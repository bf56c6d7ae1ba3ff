//! Laws of the table of steps: what each call keeps, over packets of every type and over packets as bytes; the first run.
#![tactic(auto)]

pub mod arguments;

ghost use Rattle.spec_endpoint.specs.Laws.{EachCallSendsAtMost, EachCallStaysWithin, EachCallEmitsEndings, EachClosingEnds};
ghost use Rattle.spec_endpoint.specs.Moments.{AMomentBeforeMovesTheClock, AnEarlierMomentChangesNothing};
ghost use Rattle.spec_endpoint.specs.ResetLaws.{DoneRequestsAreAnswered, RequestsFit, ResetsWait};
ghost use Rattle.spec_endpoint.specs.Rows.{Beats, BothConnect, Closes, FirstConversation, Fragments, GivenUpOnce, OtherOrder, ResetsOnce, ResetWaits, ShutsDown, TakenUp};
ghost use Rattle.proof_endpoint.specs.FirstRun.{FirstRunCrosses, FirstRunInBytes, FirstRunOpens, FirstRunRests};
ghost use Rattle.proof_endpoint.specs.HandoverRoundTrip.{CallsNumberOnce, HandoverGoesOn, MadeConnected, NewEndsAreReady};
ghost use Rattle.proof_endpoint.specs.ReceivedBack.{WrittenPacketsAreReceived, WrittenPacketsAreOne};
ghost use Rattle.proof_endpoint.specs.Lifecycles.{EachCallEndsWithin, EndsAreHandedIn, NoLifecycleEndsTwice};
ghost use Rattle.proof_endpoint.specs.Mapped.{BytesAreWrittenChunks};
ghost use Rattle.proof_endpoint.specs.ReadBack.{AcceptedPacketsFit, EachCallKeepsEndsSound, EmittedChunksAreReceived, EmittedChunksReadBack, EmittedPacketsCanBeReceived, EmittedPacketsCanBeRead, EmittedPacketsFit, NewEndsAreSound, RefusalsCanBeRead, RefusedPacketsKeepEndsSound};

/// Conversations of two ends with default options go as they have to: an opening, a message that is delivered once, two
/// that come in the other order, ends that connect at once, a message that is given up, one of three fragments, a close,
/// a shutdown, heartbeats of idle ends, an end that is handed over, a stream that is reset, and a reset that waits for what
/// was sent before it.
pub fn conversations_go()
    ensures first { FirstConversation }
    ensures order { OtherOrder }
    ensures both { BothConnect }
    ensures given_up { GivenUpOnce }
    ensures fragments { Fragments }
    ensures closes { Closes }
    ensures shuts_down { ShutsDown }
    ensures beats { Beats }
    ensures taken_up { TakenUp }
    ensures resets { ResetsOnce }
    ensures reset_waits { ResetWaits }
{}

/// A reset of the peer's streams is performed once, not before all that was sent before it came; and an own request has
/// room for the streams that are put into it.
pub fn resets_are_in_turn()
    ensures done { DoneRequestsAreAnswered }
    ensures waits { ResetsWait }
    ensures fit { RequestsFit }
{}

/// No call makes an end emit a packet above the mtu, by its chunks and by its bytes.
pub fn packets_are_within_the_mtu()
    ensures chunks { EachCallStaysWithin }
    ensures bytes { EachCallSendsAtMost }
{}

/// A call by which an end is closed emits so once, by `OnClosed` or `OnAborted`, and no other call does: not one that puts an association
/// in the place of another. Of a packet each chunk counts alone, since after an ABORT a COOKIE ECHO may open another association.
pub fn an_end_closes_once()
    ensures endings { EachCallEmitsEndings }
    ensures closing { EachClosingEnds }
{}

/// Before the moment that `poll_timeout` names, the passing of time moves the clock alone, but while a COOKIE ECHO waits for
/// its answer: there the delay of an acknowledgement, which isn't named, may end. An earlier moment than the clock's changes
/// nothing.
pub fn a_moment_before_the_timeout_moves_the_clock_alone()
    ensures before { AMomentBeforeMovesTheClock }
    ensures earlier { AnEarlierMomentChangesNothing }
{}

/// An end whose packets are bytes does what the end whose packets are lists of chunks does, with each packet written.
pub fn bytes_are_written_chunks()
    ensures calls { BytesAreWrittenChunks }
{}

/// Bytes that one end writes for a packet are received by another end as this packet, and nothing else.
pub fn written_packets_are_received()
    ensures received { WrittenPacketsAreReceived }
    ensures alone { WrittenPacketsAreOne }
{}

/// Two new ends with default options connect by four packets, whatever words they draw: each emits once that it is
/// connected, and the associations that they hold are mirrored. Then a message of 1 to 1,000 bytes crosses in a fifth
/// packet, and is ready at the other end, alone. The sixth packet acknowledges it, and the sender is at rest. Each of
/// the six is received as it was written.
pub fn the_first_run_goes()
    ensures opens { FirstRunOpens }
    ensures crosses { FirstRunCrosses }
    ensures rests { FirstRunRests }
    ensures in_bytes { FirstRunInBytes }
{}

/// A new end whose options fit is sound, whatever words it draws: what it may put into a chunk fits the chunk's fields and
/// can be read back. Each call on a sound end leaves it sound, where what the call hands in fits; and so does a packet that
/// the end refuses, whatever is in it.
pub fn sound_ends_stay_sound()
    ensures anew { NewEndsAreSound }
    ensures after { EachCallKeepsEndsSound }
    ensures refusing { RefusedPacketsKeepEndsSound }
{}

/// Each packet that a sound end emits can be read back, at every call whose arguments fit: its header fits, it has at most
/// `mtu` bytes, and each of its chunks reads back as the chunk that was put in. So each end that lets its checksum through
/// receives its bytes as this packet, and as nothing else.
pub fn emitted_packets_can_be_read_back()
    ensures chunks { EmittedChunksReadBack }
    ensures as_put_in { EmittedChunksAreReceived }
    ensures bytes { EmittedPacketsCanBeRead }
    ensures refusals { RefusalsCanBeRead }
    ensures received { EmittedPacketsCanBeReceived }
{}

/// A packet that a reader makes of bytes fits as an argument, unless it is an INIT ACK with an empty cookie; and so does
/// each packet that a reader makes of what a sound end emitted.
pub fn arguments_fit()
    ensures accepted { AcceptedPacketsFit }
    ensures emitted { EmittedPacketsFit }
{}

/// Of each message it emits at most once that its lifecycle ended, where no other message with its lifecycle id is handed
/// to the end, accepted or refused, and nothing is restored. Each call emits no more ends than it takes from the messages
/// that wait, the ends of messages that are kept, and what it hands in; from a new end on, whatever is called and whenever
/// events are taken, no more ends are emitted than messages were handed in.
pub fn no_lifecycle_ends_twice()
    ensures call { EachCallEndsWithin }
    ensures handed { EndsAreHandedIn }
    ensures once { NoLifecycleEndsTwice }
{}

/// An end whose association stands, which nothing keeps from being handed over, and which has what fits a record (fewer than 2^30 items,
/// payloads of less than 2^32 bytes, an open congestion window) closes and leaves a valid record. A new
/// end with the same options that takes it up at the same moment has the association, what was negotiated, the items that
/// are kept and the queue, and goes on with what may be sent. What the record has less of is read anew: moments in whole
/// milliseconds, numbers as they are on the wire, thresholds, missing reports, how often an item was sent. Control blocks are
/// made as this asks, an end that has just connected can be handed over, and no call of the queue gives a number twice, as
/// long as the numbers of messages don't wrap.
pub fn a_handover_and_its_restore_give_the_end_back()
    ensures goes_on { HandoverGoesOn }
    ensures made { MadeConnected }
    ensures ready { NewEndsAreReady }
    ensures numbers { CallsNumberOnce }
{}
