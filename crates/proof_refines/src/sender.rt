//! What the sender of an SCTP association does is a run of the rules of the transfer, as laws over its values: the send
//! queue, the items and the windows; and what a packet takes, as properties beside the equations of `sctp_tx`: nothing that is due and
//! fits is passed over. Each law is the contract of a function with an empty body.

ghost use Rattle.proof_refines.specs.Records.{AcceptingKeepsOne, LeavingKeepsOne, NewHaveNone, SendingKeepsOne, TakingKeepsOne, ValuesHaveOneRecord};
ghost use Rattle.proof_refines.specs.Asked.{AnsweredAreOpen, AnsweringOpens, CallsKeepAsked, EachIsAsked, NoneIsAsked, PreparingRaises, RequestedAreAsked, RequestingSends};
ghost use Rattle.proof_refines.specs.Following.{AcceptingFollows, AnsweringFollows, BeginningFollows, BreaksAreKept, FastFollows, SackFollows, ItemsFollow, LeadsBegin, NextIsCounted, OthersFollow, PreparingFollows, PreparingLeads, RequestedAreReady, RequestingFollows, SendingFollows, SettingFollows};
ghost use Rattle.proof_refines.specs.Line.{CallsKeepLine, NextFlows, ProducingPauses};
ghost use Rattle.proof_refines.specs.Pauses.{AcceptingPauses, AnswerPauses, CommittingPauses, DiscardingPauses, PointsEndAtBreaks, PreparesRefine, PreparingPauses, RequestPauses, RequestingPauses, RequestsBreak, SacksPassBreaks, SendingPauses, SettingPauses, TurningPauses, TurnsBegin};
ghost use Rattle.proof_refines.specs.Rows.{Accepts, BeginningsRefine, CarryingStays, CommitsRefine, DiscardsRefine, Expires, FastPacketsAreSent, GivesUp, LifetimesEnd, Loses, NewRefine, OffersAreQueued, RefinementReadsTheSender, PacketsAreSent, PointsAreDue, Produces, RecordsAreExact, RequestsRefine, ResetsRefine, RestIsRest, SacksAreReceived, SettingsRefine, TimesOut};
ghost use Rattle.proof_refines.specs.Filled.{PacketsTakeWhatIsDue};
ghost use Rattle.proof_refines.specs.Picked.{ResendingPassesNothingOver};
ghost use Rattle.proof_refines.specs.Scheduled.{ProducesByTheScheduler, ProducesWhatWaits};

/// A new queue, and no item, show the start. Where messages were accepted and nothing was sent, an association may begin, in
/// either mode, and the queue may begin anew: all that was accepted waits.
pub fn new_values_show_the_start()
    ensures new { NewRefine }
    ensures beginning { BeginningsRefine }
    ensures reset { ResetsRefine }
{}

/// The values show the rules' sender, and how many fragments have left it. What the receiver does, and what is under way,
/// changes nothing.
pub fn the_receiver_is_not_shown()
    ensures { RefinementReadsTheSender }
{}

/// A message that is queued is accepted, as long as there are fewer than 2^32. Settings of streams change nothing.
pub fn messages_are_accepted()
    ensures offered { OffersAreQueued }
    ensures accepted { Accepts }
    ensures settings { SettingsRefine }
{}

/// Where a stream is to be reset, its messages of which nothing was sent are given up, each with its record. Streams that go into a request change nothing of
/// what the values show. Once its answer has come, their numbers on the wire begin again, and nothing else changes.
pub fn streams_are_reset()
    ensures prepared { PreparesRefine }
    ensures recorded { PreparingLeads }
    ensures requested { RequestsRefine }
    ensures committed { CommitsRefine }
{}

/// By the rules with epochs, a stream's pause says whether it is open: so it is still when a message is accepted, when a stream is
/// prepared for a reset, when one that is ready goes into a request, and when the answer comes to a reset that was performed. Each of these
/// may happen by the rules then.
pub fn pauses_follow_epochs()
    ensures accepting { AcceptingPauses }
    ensures preparing { PreparingPauses }
    ensures requesting { RequestingPauses }
    ensures committing { CommittingPauses }
    ensures requests { RequestPauses }
    ensures answers { AnswerPauses }
    ensures settings { SettingPauses }
    ensures discarding { DiscardingPauses }
    ensures turning { TurningPauses }
    ensures beginning { TurnsBegin }
    ensures sending { SendingPauses }
{}

/// The scheduler has no stream in line that is stopped, from the first call on. So none that is stopped gives a fragment, and pauses agree
/// with the epochs after the next fragment.
pub fn stopped_streams_wait()
    ensures line { CallsKeepLine }
    ensures next { NextFlows }
    ensures produces { ProducingPauses }
{}

/// The streams that go into a request are ready, each of them once. They alone wait for its answer, whatever other calls do, until they
/// have it. Of the epochs a stream that is prepared raises one, a request adds its own, and an answer opens its streams; nothing else
/// changes. Where what waits on a stream that isn't open waits still, nothing of a later epoch was begun.
pub fn streams_wait_for_their_reset()
    ensures ready { RequestedAreReady }
    ensures requested { RequestedAreAsked }
    ensures kept { CallsKeepAsked }
    ensures answered { AnsweredAreOpen }
    ensures each { EachIsAsked }
    ensures none { NoneIsAsked }
    ensures raising { PreparingRaises }
    ensures sending { RequestingSends }
    ensures opening { AnsweringOpens }
    ensures begins { LeadsBegin }
{}

/// All together: pauses agree with the epochs, no stream that is stopped is in line, each stream stands once, and each request has its
/// breakpoint. So it is in a new queue, and where an association begins; each call keeps it, and what a call does as rules may happen by the
/// rules with epochs too.
pub fn epochs_are_followed()
    ensures beginning { BeginningFollows }
    ensures accepting { AcceptingFollows }
    ensures settings { SettingFollows }
    ensures preparing { PreparingFollows }
    ensures requesting { RequestingFollows }
    ensures counted { NextIsCounted }
    ensures answering { AnsweringFollows }
    ensures sending { SendingFollows }
    ensures fast { FastFollows }
    ensures hearing { SackFollows }
    ensures items { ItemsFollow }
    ensures breaks { BreaksAreKept }
    ensures others { OthersFollow }
{}

/// A forward point goes on over no request of a reset before all below that is acknowledged: a request makes a breakpoint of what is
/// numbered next, which stays until it is passed.
pub fn points_end_at_requests()
    ensures requests { RequestsBreak }
    ensures sacks { SacksPassBreaks }
    ensures points { PointsEndAtBreaks }
{}

/// Where nothing waits to be discarded, `produce` gives up the messages that expired before their first fragment, each with
/// its record; and the fragment that it answers, if it answers one, takes the next TSN as it is inserted. The first one of
/// a message gives the message its number.
pub fn fragments_are_numbered()
    ensures { Produces }
{}

/// A valid SACK whose cumulative TSN the peer sent lets the fragments below leave, one by one. What is emitted as delivered are
/// the lifecycle ids of what the rules report. Blocks, missing reports, windows and timers change nothing else, but that
/// a message may be given up of which a fragment is lost.
pub fn sacks_are_received()
    ensures { SacksAreReceived }
{}

/// A message of which an item is kept is given up with one record. Where its end was not sent, a placeholder takes the next
/// TSN, and what is left of it in the queue is discarded later, which changes nothing more. Of missing reports, timeouts
/// and lifetimes nothing else is seen.
pub fn messages_are_given_up()
    ensures message { GivesUp }
    ensures discards { DiscardsRefine }
    ensures losses { Loses }
    ensures timeout { TimesOut }
    ensures lifetimes { Expires }
    ensures expiry { LifetimesEnd }
{}

/// What a run of rules gives up are the messages that its records name.
pub fn records_are_exact()
    ensures { RecordsAreExact }
{}

/// In one association each message that is given up has one record, whatever its cause: the records that the user took and those
/// that wait name it once, and no other message. A new association has none; acceptance, SACKs, losses, timeouts, lifetimes and
/// packets keep it, and so does taking a record. In the values: no two records name the same message, a fragment that is kept
/// is given up exactly where its message has a record, and a message in the queue that isn't to be discarded has none.
pub fn each_message_has_one_record()
    ensures new { NewHaveNone }
    ensures accepting { AcceptingKeepsOne }
    ensures sending { SendingKeepsOne }
    ensures leaving { LeavingKeepsOne }
    ensures taking { TakingKeepsOne }
    ensures values { ValuesHaveOneRecord }
{}

/// A forward point that is due may be sent: it passes fragments of messages given up alone, from the acknowledged ones on
/// without a hole, and names each stream and kind that it touches once, with its greatest number. The chunk is written of
/// it.
pub fn points_are_due()
    ensures { PointsAreDue }
{}

/// What a packet takes: discards, items that are sent again, and new fragments. Each chunk carries a numbered fragment that is
/// kept and no placeholder, so that it may come at any later time.
pub fn packets_carry_fragments()
    ensures packets { PacketsAreSent }
    ensures fast { FastPacketsAreSent }
    ensures stays { CarryingStays }
{}

/// With nothing queued and no item kept, the rules are at rest.
pub fn rest_is_rest()
    ensures { RestIsRest }
{}

/// The send queue gives the next fragment of the stream that goes next: the one that the scheduler names (RFC 8260 section 3), or
/// without interleaving that of the message which is partly sent. A stream whose messages all expired gives none, and the
/// next one is asked. Where no fragment comes, no stream has anything to send.
pub fn the_queue_gives_the_next_stream()
    ensures next { ProducesByTheScheduler }
    ensures waits { ProducesWhatWaits }
{}

/// A packet takes the items that wait to be sent again, in ascending order of their TSNs, each that fits where the packet and the
/// windows stand by then (RFC 9260 sections 6.3.3, 7.2.4), the fast packet alike but for the peer's window. Behind them come
/// new fragments, one by one as the queue gives them, each with the next TSN, until the windows let none go, the packet
/// has no room for a byte of payload, or no stream has anything to send (RFC 9260 section 6.1).
pub fn a_packet_takes_what_is_due()
    ensures resends { ResendingPassesNothingOver }
    ensures fills { PacketsTakeWhatIsDue }
{}
