//! Progress of an SCTP association, as laws over the table of steps: between calls an end that owes something has a timer that
//! runs, so that it names a moment at which to call it next.
#![tactic(auto)]

ghost use Rattle.proof_awake.specs.Asking.{OwnPacketsAskOnce};
ghost use Rattle.proof_awake.specs.Laws.{DueAcknowledgementsHaveAMoment, DuePointsHaveAMoment, EachCallKeepsTimed, NewEndsAreTimed, OnlyQuietEndsNameNoMoment, OpenedWindowsHaveAMoment, TimedEndsAreAwake};
ghost use Rattle.proof_awake.specs.LeftBehind.{ALineIsLeft, AResetIsLeftBehind, NumbersAreLeftBehind};
ghost use Rattle.proof_awake.specs.Line.{EachCallKeepsLined, NewEndsAreLined, SendingCallsLeaveNoLine, SendingsLeaveNoLine};
ghost use Rattle.proof_awake.specs.Restored.{EachPacketWithDataStartsTimers, EachRestoreKeepsTimed, EachSackStartsT3};
ghost use Rattle.proof_awake.specs.Worlds.{WorldsAreAwake, WorldsHaveNoLine};

/// A new end, with valid options, and what each call leaves of one is awake: where an item is kept T3-rtx runs; where a request to
/// reset streams waits its timer runs, and where an acknowledgement is delayed its delay; T1 and T2 run in their states, and the
/// heartbeats' interval once connected. A shutdown waits for nothing but items, unless stalls are avoided: then it may wait for the
/// queue alone. The one call that is left out takes up the record of a handover (`timers_start_again`).
pub fn ends_are_awake()
    ensures new { NewEndsAreTimed }
    ensures calls { EachCallKeepsTimed }
    ensures awake { TimedEndsAreAwake }
{}

/// So `poll_timeout` names no moment only of an end that is closed, or connected with nothing kept, no request, no delayed
/// acknowledgement and no heartbeats; or, with stalls avoided, whose shutdown waits for the queue alone.
pub fn only_quiet_ends_name_no_moment()
    ensures quiet { OnlyQuietEndsNameNoMoment }
{}

/// With stalls avoided a forward point that is due has a moment, once COOKIE ACK is there and where a burst has a packet at least:
/// `poll_timeout` names none behind the end of its limit, or the present where that is over.
pub fn due_points_have_a_moment()
    ensures point { DuePointsHaveAMoment }
{}

/// And so has an acknowledgement that is due: `poll_timeout` names the present. One is due where taking a message opens a window again
/// that was too small to be used, so that the peer is told of it.
pub fn due_acknowledgements_have_a_moment()
    ensures due { DueAcknowledgementsHaveAMoment }
    ensures opened { OpenedWindowsHaveAMoment }
{}

/// Each end of a world is awake between events, whatever led it there.
pub fn worlds_are_awake()
    ensures worlds { WorldsAreAwake }
{}

/// Not all that is queued waits for a request: in this conversation, computed, a stream waits for the answer to one of an association
/// that is over. An end that answers a COOKIE ECHO without an association keeps its queue as it was, unless stalls are avoided. And not
/// all that is in line is sent: a RE-CONFIG with two requests for outgoing streams ends without a sending, even where its answer has put
/// a stream in line.
pub fn a_reset_is_left_behind()
    ensures left { AResetIsLeftBehind }
    ensures line { ALineIsLeft }
{}

/// And numbers go on: in this conversation, computed, such an end sends an ordered message on a stream that it used before. It has the number
/// behind the last one, is acknowledged and never ready, and nothing says so.
pub fn numbers_are_left_behind()
    ensures left { NumbersAreLeftBehind }
{}

/// Once connected, a sending leaves no stream in line where it leaves no item kept: with bursts of two packets at least, since the first
/// one may be full of a request to reset streams.
pub fn sendings_leave_no_line()
    ensures line { SendingsLeaveNoLine }
    ensures calls { SendingCallsLeaveNoLine }
{}

/// So an end with valid options and bursts of two packets or more has no stream in line between calls, once connected with no item
/// kept, as long as no RE-CONFIG comes with two requests for outgoing streams.
pub fn no_line_is_left()
    ensures new { NewEndsAreLined }
    ensures calls { EachCallKeepsLined }
{}

/// The end that took up a record has its timers again from its first packet with data on: that starts the heartbeats' interval, and
/// T3-rtx where something is in flight. So does the first SACK that leaves something in flight start T3-rtx. With stalls avoided they
/// start as the record is taken up, if its congestion window is an mtu at least: the end is as awake as behind any other call.
pub fn timers_start_again()
    ensures data_starts { EachPacketWithDataStartsTimers }
    ensures sack_starts { EachSackStartsT3 }
    ensures restored { EachRestoreKeepsTimed }
{}

/// What an end itself sends asks once: no RE-CONFIG that it puts together has two requests for outgoing streams, whatever comes to it.
pub fn own_packets_ask_once()
    ensures calls { OwnPacketsAskOnce }
{}

/// So at an end of a world with bursts of two packets or more no stream is in line between events, once connected with no item kept.
/// Whatever led the world there, since what is given to an end the other one sent, and bytes from elsewhere are given only where the
/// end refuses them.
pub fn worlds_have_no_line()
    ensures worlds { WorldsHaveNoLine }
{}
