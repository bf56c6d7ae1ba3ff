//! Laws of two ends and all packets between them. Each run of a new world is a trace of two ends, which the theorem is read off, and each
//! trace is that of a world, where no bytes come from elsewhere; four runs are computed. Two worlds that the same events lead on, and
//! whose ends draw other words, show the same.
#![tactic(auto)]

ghost use Rattle.proof_world.specs.Agreed.{WorldsAgree};
ghost use Rattle.proof_world.specs.Composed.{WorldsCompose};
ghost use Rattle.proof_world.specs.Traces.{WorldsHaveTraces};
ghost use Rattle.proof_world.specs.Delivered.{AcceptedMessagesAgree, AcceptedMessagesHaveEpochs};
ghost use Rattle.proof_world.specs.Reachable.{RunsHaveOneOutcome};
ghost use Rattle.proof_world.specs.Ended.{EndedAreHandedIn, NoLifecycleEndsTwiceHere};
ghost use Rattle.proof_world.specs.Connecting.{EndsConnect, TwoWorldsConnect};
ghost use Rattle.proof_world.specs.Consistent.{OpeningFollows, WorldsAreConsistent};
ghost use Rattle.proof_world.specs.Justified.{AcceptancesAreOfAcceptedMessages, WorldsAreJustified};
ghost use Rattle.proof_world.specs.Readable.{EachActionKeepsWorldsReadable, NewWorldsAreReadable, RunsKeepWorldsReadable};
ghost use Rattle.proof_world.specs.Resetting.{OneIsReset};
ghost use Rattle.proof_world.specs.Skipping.{OneIsSkipped};
ghost use Rattle.proof_world.specs.Worlds.{TracesHaveWorlds};
ghost use Rattle.proof_world.specs.Alike.{WorldsShowTheSame};

/// Each packet that one of two ends ever sent can be read back, as the chunks that were put together and as nothing else: of a
/// new world whose options fit, and along each run of actions that fit. A packet that is given is one of the other end's, so
/// it is asked only that it is bytes; bytes from elsewhere may be any, since they are given only where the end refuses them.
pub fn packets_read_back()
    ensures anew { NewWorldsAreReadable }
    ensures happening { EachActionKeepsWorldsReadable }
    ensures running { RunsKeepWorldsReadable }
{}

/// Along each run of a new world no end emits that a lifecycle ended more often than messages with its id were handed to it,
/// accepted or refused, alone or in a batch: at most once, where one message at most has it. Whatever comes to the ends, and
/// whatever is reset or handed over.
pub fn lifecycles_are_accounted()
    ensures handed { EndedAreHandedIn }
    ensures once { NoLifecycleEndsTwiceHere }
{}

/// Each run of a new world is a trace of two new ends, by one end's action an event, for any options, words and checksum functions, calls
/// whose arguments fit, and bytes from elsewhere. The world's sockets are the trace's ends with each packet written, its packets
/// are those that they emitted, in order, and the log has all that they emitted, packets by their numbers. A packet that is given
/// is received as the chunks that were put in, where its reader lets the checksum through, and else as no packet. Each packet that was
/// emitted is to be bytes, numbers up to 255.
pub fn worlds_have_traces()
    ensures traces { WorldsHaveTraces }
{}

/// Until an end emits that an association is over, what each end of a world can do was negotiated of the two option sets, and
/// the associations that the log says that both hold are mirrored. Before its own OnConnected an end calls neither shutdown,
/// nor connect once an INIT was given to it (RFC 9260 sections 5.1, 5.2). The opening of the first run keeps these rules. Each packet
/// that was emitted is to be bytes.
pub fn worlds_are_consistent()
    ensures consistent { WorldsAreConsistent }
    ensures can_be_kept { OpeningFollows }
{}

/// Of each run of a new world, whatever it goes on with, until an end first emits that an association is over, in the middle of an
/// event as well: the rules and the bounds are asked of the part up to there alone. Between events both ends are consistent. What was
/// handed out at an end, in order, is a prefix of what became ready there, at each point of the log.
///
/// And as long as the run keeps its bounds, in either direction and at each point of the log, the messages that became ready at one
/// end are messages that the other one accepted, byte for byte, each at most once, and on each stream ordered ones in the order of
/// acceptance (RFC 9260 sections 6.5, 6.6; RFC 8260 section 2.2; RFC 3758 section 3.6). One list of places says which, and grows
/// at its back. Of the others, an ordered one that isn't ready, while a later one of its stream is, was given up, and the log names
/// it (RFC 3758 section 3.5). A lifecycle id that the log reports as delivered is that of a message that is ready. And between events,
/// where nothing is queued at the sender and it keeps no item, each message that it accepted is ready or was given up. The bounds
/// are read off the log and the values of the sockets between events: those of `messages_are_delivered` of `proof_delivery`. A run whose log
/// uses few numbers keeps them (`specs/Few.antt`).
///
/// Streams may be reset (RFC 6525). By the log alone, a call of reset that is answered Ok begins the next epoch of each open stream that it
/// names, and the stream is open again once its end emits that it was reset. Each message becomes ready in its epoch: that lies between
/// the resets of its stream that the other end emitted before that event, and those that it emitted before the message. Within the bounds no
/// end emits that a reset failed, at any point up to the first end of an association.
///
/// Behind the end of an association too, and whatever rules the run follows: no packet is larger than its sender's mtu; the packets are the
/// lists of chunks that the rows put in, each of them written, and are read back; and no lifecycle is reported to have ended more often
/// than messages with its id were handed in.
///
/// The messages of the offers are those that were accepted, and each has an epoch.
pub fn worlds_compose()
    ensures composes { WorldsCompose }
    ensures offers { AcceptedMessagesAgree }
    ensures epochs { AcceptedMessagesHaveEpochs }
{}

/// Each record of a message given up is justified, by what stands before it in the log, whatever rules the run follows, and behind the
/// end of an association too: the message was accepted there, by its place, and its cause holds. Either the message has a lifetime,
/// and the end's clock isn't before acceptance plus lifetime (RFC 3758 section 4.1); or it was sent again as often as its limit
/// says, 65,535 times where none was set (RFC 7496 section 3.1); or the event is a call that reset its stream, and was answered Ok
/// (RFC 6525 section 5.1.2); or the end was made to avoid stalls, and the record says that an association is over. Clocks are those
/// of the log: an event has its end's clock, which only moments move. An end accepts fewer than 2^32 messages, so that their numbers
/// don't wrap. Each packet that was emitted is to be bytes.
pub fn records_are_justified()
    ensures justified { WorldsAreJustified }
    ensures offers { AcceptancesAreOfAcceptedMessages }
{}

/// At each OnConnected of a world's log the end holds an association, and the other end holds or has held the mirrored one, by
/// the association entries of the log: along any run of a new world, through collisions, restarts, old and repeated cookies,
/// closes and new openings (RFC 9260 section 5.2), as long as no verification tag is drawn twice, by either end.
///
/// It doesn't say that two ends ever connect, or anything of a sender that knows the tags.
pub fn worlds_agree()
    ensures agree { WorldsAgree }
{}

/// Each trace of two new ends is that of a world, as long as no bytes come from elsewhere: a new world runs by these actions, and
/// its sockets are the trace's ends with each packet written. So what a trace shows can happen, happens in bytes. Each packet
/// that is emitted is to be bytes.
pub fn traces_have_worlds()
    ensures worlds { TracesHaveWorlds }
{}

/// So can all that `worlds_agree` asks: in one run of a new world, computed, both ends connect, and no tag is drawn twice.
pub fn ends_connect()
    ensures { EndsConnect }
{}

/// And all that `worlds_show_the_same` asks: two such runs, computed, whose ends draw other words.
pub fn two_worlds_connect()
    ensures { TwoWorldsConnect }
{}

/// Two runs of the same actions from one world lead to the same world, whatever packets are given and bytes come from elsewhere.
pub fn runs_have_one_outcome()
    ensures { RunsHaveOneOutcome }
{}

/// All that `worlds_compose` of `proof_world` asks can be had. In one run of a new world, computed, the rules are followed,
/// no association is over, few numbers are used and the bounds are kept, while of three messages that are sent on one stream the packet
/// of the second is lost, and it may not be sent again. It is given up, the others become ready, the first is reported as delivered, and in
/// the end the sender is at rest.
pub fn a_message_is_skipped()
    ensures { OneIsSkipped }
{}

/// It can be had with resets, too. In one run of a new world, computed, a message is sent, its stream is reset, twice, and another message
/// is accepted before the answer comes. The first is of epoch 0, the second of epoch 1; both become ready, and each end emits once
/// that the stream was reset.
pub fn a_stream_is_reset()
    ensures { OneIsReset }
{}

/// Two new worlds with the same options in pairs, one checksum function for all four sockets and the same events show the same, whatever
/// words were drawn: until an end of the first emits that an association is over, and up to and with the event in which it does. Asked
/// for, until then, is that the first follows the rules, that in neither a verification tag is drawn twice, and that no bytes come from
/// elsewhere; and each packet that was emitted is to be bytes.
pub fn worlds_show_the_same()
    ensures show { WorldsShowTheSame }
{}
