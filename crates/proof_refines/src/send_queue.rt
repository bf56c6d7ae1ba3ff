//! What holds over several calls of the send queue.

ghost use Rattle.std.specs.Prelude.{◌≡◌, true, drop};
ghost use Rattle.sctp_tx_queue.specs.Begun.{fragments_payload, is_ended, AddedStays, ThresholdStays, PriorityStays, ModeStays, PreparedStays, StepsStay, DiscardStays, ResetEnds, EmptiedEnds};
ghost use Rattle.sctp_tx_queue.specs.Again.{EachComesBack};
ghost use Rattle.sctp_tx_queue.specs.InOrder.{NewIsInOrder, AddedInOrder, ProducedInOrder, SettingsInOrder, DiscardedInOrder, ResetsInOrder, RestartedInOrder, EmptiedInOrder, CallsNumber, CallsLeaveRests, IsInOrder, IsNumbered, HasRests};
ghost use Rattle.sctp_tx_queue.specs.TakenUp.{RestoredInOrder, WrittenAsSent};
ghost use Rattle.sctp_tx_queue.specs.Unfinished.{IsKept};

use sctp_tx_queue::send_queue::message::{MessageNumbers, QueuedMessage};

/// The payloads of the fragments that are produced of a message, up to its end and whatever their sizes, are joined what
/// was left of its payload: of a message of which nothing was sent, the payload.
pub fn fragments_are_what_is_left(message: &QueuedMessage, numbers: MessageNumbers, sizes: &[usize])
    ensures { is_ended sizes.now numbers message.now ≡ true → fragments_payload sizes.now numbers message.now ≡ drop message.now.offset message.now.payload }
{}

/// Without interleaving a message that is begun is ended before another begins (RFC 9260 section 6.9): `produce` goes on
/// with it, and the other calls leave it begun. A discard may drop its rest, an association that ends leaves none, and a
/// new one begins with none.
pub fn a_begun_message_stays_begun()
    ensures added { AddedStays }
    ensures threshold { ThresholdStays }
    ensures priority { PriorityStays }
    ensures mode { ModeStays }
    ensures prepared { PreparedStays }
    ensures steps { StepsStay }
    ensures discarded { DiscardStays }
    ensures reset { ResetEnds }
    ensures emptied { EmptiedEnds }
{}

/// A queue that is written into a record, which is taken up at the same moment, has its streams and messages again, in
/// whatever queue: with all but the thresholds, the pauses and what the wire's numbers and whole milliseconds in 32 bits don't hold.
pub fn a_record_brings_the_queue_back()
    ensures { EachComesBack }
{}

/// A new queue is in order, and each call leaves it so: of a stream only the first message is partly sent, and without
/// interleaving no more than one message of all is, the first one of the stream that is begun.
pub fn queues_stay_in_order()
    ensures new { NewIsInOrder }
    ensures added { AddedInOrder }
    ensures produced { ProducedInOrder }
    ensures settings { SettingsInOrder }
    ensures discarded { DiscardedInOrder }
    ensures resets { ResetsInOrder }
    ensures restarted { RestartedInOrder }
    ensures emptied { EmptiedInOrder }
{}

/// A queue that takes a valid record up is in order, if a message of the record has its MID exactly where something of it
/// is sent. What a queue in order writes is such a record.
pub fn restored_queues_are_in_order()
    ensures restored { RestoredInOrder }
    ensures written { WrittenAsSent }
{}

/// A call that runs out of memory leaves a queue in order as well, with numbers that rise along each stream and with
/// something left of each message.
pub fn want_of_memory_keeps_the_order()
    ensures order { IsKept IsInOrder }
    ensures numbers { IsKept IsNumbered }
    ensures rests { IsKept HasRests }
{}

/// The messages of each stream stand in the order of acceptance: their numbers rise, and are below the next one.
pub fn numbers_rise_along_a_stream()
    ensures { CallsNumber }
{}

/// Something of each queued message is left to be sent, so that no fragment is empty; none has more bytes than were asked
/// for.
pub fn no_fragment_is_empty()
    ensures { CallsLeaveRests }
{}
