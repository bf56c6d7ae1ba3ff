//! Two ends of an association along all that can happen to them: laws of the table of steps.
#![tactic(auto)]

ghost use Rattle.proof_pair.specs.Agreement.{EndsAgree};
ghost use Rattle.proof_pair.specs.HandoverInvariants.{EachCallPreservesHandoverInvariant, EachCallNumbersOnce, EachEndGoesOn, NewEndsMeetHandoverInvariant};
ghost use Rattle.proof_pair.specs.Trace.{EndsAreConsistent};
ghost use Rattle.proof_pair.specs.Handing.{AssociationsStand, HandedGrows, HandedIsAPrefix, MessagesAreHandedInOrder, OneIsHandedOut, MadeReadyGrows};
ghost use Rattle.proof_pair.specs.Opens.{BothConnect, OneConnects};
ghost use Rattle.proof_pair.specs.Reopens.{AnOldCookieOpens, ARestartOpens};
ghost use Rattle.proof_pair.specs.Taking.{NewDataIsAdded, PointsReachReassembly, RefusedDataChangesNothing, RefusedPointsChangeNothing};

use proof_endpoint::a_handover_and_its_restore_give_the_end_back;

/// Two new ends go on by any calls, moments, foreign bytes that they refuse, and packets of the other end, each of which may
/// come again and in any order. Until an association first ends at one of them, what each end's association can do was
/// negotiated of the two option sets; and associations that both hold are mirrored: tags, first TSNs and stream counts. Before
/// it emitted that it is connected, an end is asked neither for a shutdown, nor to connect once an INIT was given to it
/// (RFC 9260 sections 5.1, 5.2).
pub fn ends_are_consistent()
    ensures consistent { EndsAreConsistent }
{}

/// A DATA or I-DATA chunk that is refused before its TSN is observed leaves reassembly, and what the tracker has seen, as they were; of the others
/// each whose TSN is new is added to reassembly. A forward point reaches reassembly exactly where it moves the cumulative TSN; one
/// that is out of range, or for which there is no room behind a reset, changes nothing (RFC 9260 section 6.2, RFC 3758 section 3.6).
pub fn data_is_taken()
    ensures refused { RefusedDataChangesNothing }
    ensures added { NewDataIsAdded }
    ensures ignored { RefusedPointsChangeNothing }
    ensures passed { PointsReachReassembly }
{}

/// Along the same traces, at either end and until an association first ends: the messages that became ready are those that
/// were handed out, in this order, and behind them those that are ready now. So what was handed out is a prefix of what became
/// ready. Both only grow at their back, and an association that an end holds is not replaced. In one such trace, computed, two
/// messages come and the first is handed out.
pub fn messages_are_handed_out_in_order()
    ensures in_order { MessagesAreHandedInOrder }
    ensures prefix { HandedIsAPrefix }
    ensures readied_grows { MadeReadyGrows }
    ensures handed_grows { HandedGrows }
    ensures stands { AssociationsStand }
    ensures goes { OneIsHandedOut }
{}

/// There are such traces: with default options four packets connect both ends where one of them connects, and six where both
/// do at once.
pub fn traces_open()
    ensures one { OneConnects }
    ensures both { BothConnect }
{}

/// A new end has the handover invariant of its control block and of its queue, in the form that each call preserves: tags above 0, the
/// first TSNs and the mode that it was made with, streams by ascending ids, at most their first messages partly sent, something left
/// of each, and numbers that differ, as long as they don't wrap. A peer names a tag above 0, and what is restored is a valid record.
/// So whatever is done with a new end to which fewer than 2^32 messages are offered and nothing is restored, and whatever it receives:
/// whenever its association stands, nothing keeps it from being handed over, and a record has room for what it has (`Fits`), its
/// record is valid, and a new end that takes it up has it again.
pub fn each_end_can_be_handed_over()
    ensures anew { NewEndsMeetHandoverInvariant }
    ensures after { EachCallPreservesHandoverInvariant }
    ensures numbers { EachCallNumbersOnce }
    ensures goes_on { EachEndGoesOn }
{
    a_handover_and_its_restore_give_the_end_back();
}

/// Over every trace of two new ends, without the rules of `ends_are_consistent`: collisions, restarts, old cookies and repeated
/// ones, closes, shutdowns and new openings (RFC 9260 section 5.2). Where no end draws a tag twice, and no record of a handover
/// is taken up: an end that emitted in an action that it is connected holds an association after it, and the other end holds or
/// held it, mirrored in tags and first TSNs. What an end held is what it held after one of its actions.
///
/// Two such traces, computed: after both ends closed, an old cookie opens one of them again; and an end that closed and
/// connects anew opens the other one, that still held the old association.
///
/// It doesn't say that two ends ever connect, or anything of a sender that knows the tags.
pub fn ends_agree()
    ensures agree { EndsAgree }
    ensures old_cookie { AnOldCookieOpens }
    ensures restart { ARestartOpens }
{}
