//! What two ends deliver, along all that can happen to them: each direction of an association is a run of the transfer's rules.
#![tactic(auto)]

ghost use Rattle.proof_delivery.specs.Delivery.{MessagesAreDelivered, NoResetIsRefused, TwoAreDelivered};
ghost use Rattle.proof_delivery.specs.Ending.{MessagesAreDeliveredThen};
ghost use Rattle.proof_delivery.specs.Justified.{AcceptancesAreAccepted, RecordsAreJustified, TwoAreGivenUp};
ghost use Rattle.proof_delivery.specs.Skipping.{OneIsSkipped};
ghost use Rattle.proof_delivery.specs.Resetting.{OneIsReset};

pub mod asks;

/// Two new ends go on as in `ends_are_consistent`: by any calls, moments, foreign bytes that they refuse, and packets of the other
/// end, each of which may come again, late, in any order, or never. At each point of such a trace, in either direction and
/// until an association first ends: the messages that became ready at one end are messages that the other one accepted, byte
/// for byte, each at most once, with its stream and its protocol identifier; on each stream, ordered messages become ready in
/// the order in which they were accepted (RFC 9260 sections 6.5, 6.6; RFC 8260 section 2.2; RFC 3758 section 3.6). What became
/// ready stays ready or is handed out, and the places of the messages only grow at their back.
///
/// Streams may be reset (RFC 6525). A message is of the epoch that its stream is in at its acceptance; a reset of an open stream begins the
/// next one. Each message becomes ready in its epoch: at the action at which it does, its epoch lies between the resets of its stream that
/// its end emitted before that action, and those that it emitted up to its end (`epochs` of Delivers). No end emits that a reset failed
/// (`none_refused`).
///
/// Of the others, at each point: an ordered message that isn't ready, while a later one of its stream is, was given up, and a
/// record of its sender names it (RFC 3758 section 3.5). No two records name the same message. A lifecycle id that the sender reports as delivered is that of a message
/// that is ready. And where nothing waits at the sender and it keeps no fragment, each message that it accepted is ready or was
/// given up.
///
/// The trace keeps these bounds (`IsInBounds`), all read off what the ends hold between actions:
/// - no fragment is kept while more than 2^30 fragments are numbered from it on, and fewer than 2^62 are numbered in all;
/// - on each stream fewer than 32,000 ordered messages are numbered from one with a kept fragment on;
/// - a packet is given while its end has numbered fewer than 3 * 2^30 fragments, and the other end fewer than 2^31, from those on that were kept
///   before the action that emitted it;
/// - each end accepts fewer than 2^32 messages, and a limit on their size is set below 2^32, as `set_max_message_size` asks;
/// - each end has fewer than 2^32 - 1 requests to reset streams performed; and while one waits for its answer, its end has numbered fewer
///   than 2^31 fragments since the action that started it.
///
/// An action behind such a trace may end an association. What its end emits before that is true too: a lifecycle id that it reports as
/// delivered is that of a message that is ready (`ends`).
///
/// In one such trace, computed, two messages are accepted and become ready (`goes`).
///
/// It doesn't say that anything arrives, that a message is given up for a good reason, or anything of a peer that breaks the
/// rules.
pub fn messages_are_delivered()
    ensures delivered { MessagesAreDelivered }
    ensures none_refused { NoResetIsRefused }
    ensures ends { MessagesAreDeliveredThen }
    ensures goes { TwoAreDelivered }
{}

/// There are such traces within these bounds. In one, computed, three messages are sent on one stream; the packet of the second is
/// lost, and it may not be sent again. It is given up, the others become ready, the first is reported as delivered, and in the end
/// the sender is at rest.
pub fn a_message_is_skipped()
    ensures { OneIsSkipped }
{}

/// Along each trace of two ends in which no handover is taken up, also behind the end of an association and with resets of
/// streams: each record of a message given up is justified. It names the place of a message that this end accepted so far, and its
/// cause holds. Either the message has a lifetime, and the end's clock isn't before acceptance plus lifetime (RFC 3758 section
/// 4.1); or it was sent again as often as its limit says, 65,535 times where none was set (RFC 7496 section 3.1); or the action is a
/// call that reset its stream (RFC 6525 section 5.1.2); or the end avoids stalls, and the record says that the association is over.
/// An end accepts fewer than 2^32 messages, so that their numbers don't wrap.
/// In one such trace, computed, two messages are given up, one for its lifetime, one for its limit.
pub fn records_are_justified()
    ensures justified { RecordsAreJustified }
    ensures accepted { AcceptancesAreAccepted }
    ensures goes { TwoAreGivenUp }
{}

/// There are such traces with resets. In one, computed, a message is sent, its stream is reset, twice, and another message is accepted
/// before the answer comes. The first is of epoch 0, the second of epoch 1; both become ready; the reset is emitted once at either end, and
/// none is refused.
pub fn a_stream_is_reset()
    ensures { OneIsReset }
{}
