//! Draws: an end whose tags, ties and first TSNs are others does the same under these names, and emits the same packets under them. So two
//! traces of two ends that differ in what their ends drew alone are alike until an association first ends.
#![tactic(auto)]

ghost use Rattle.proof_draws.specs.Laws.{AnswersAreNamed, BurstsAreNamed, CallsAreNamed, ConnectIsNamed, DataIsNamed, EchoesAreNamed, EndingsAreNamed, ForwardPointsAreNamed, MomentsAreNamed, NewBlocksAreNamed, PacketsAreNamed, RefusalsAreNamed, SacksAreNamed, ResolutionsAreNamed};
ghost use Rattle.proof_draws.specs.NamedCalls.{EachCallIsNamed, EachRefusalIsNamed};
ghost use Rattle.proof_draws.specs.NamedCookies.{CookiesAreNamed};
ghost use Rattle.proof_draws.specs.Renamed.{PairsAreRenamed};
ghost use Rattle.proof_draws.specs.Alike.{TracesAreAlike, ImagesPass, PacketsPass};
ghost use Rattle.proof_draws.specs.Kinds.{PacketsAreOfAKind};
ghost use Rattle.proof_draws.specs.Pairing.{DrawsHaveNames};

/// What is drawn has other names, and the INIT is written under them.
pub fn what_is_drawn_is_named()
    ensures connects { ConnectIsNamed }
{}

/// Tags and ties are told apart by any names that tell them apart.
pub fn tags_are_told_apart()
    ensures refusals { RefusalsAreNamed }
    ensures verdicts { ResolutionsAreNamed }
{}

/// TSNs that come stand for the same numbers.
pub fn numbers_stand_for_the_same()
    ensures fragments { DataIsNamed }
    ensures forward { ForwardPointsAreNamed }
    ensures sacks { SacksAreNamed }
{}

/// Bursts of packets hold the same chunks, written under the names.
pub fn bursts_are_named()
    ensures bursts { BurstsAreNamed }
{}

/// Cookies are made, echoed and taken back under other names.
pub fn associations_are_named()
    ensures answers { AnswersAreNamed }
    ensures echoes { EchoesAreNamed }
    ensures blocks { NewBlocksAreNamed }
{}

/// Whatever two ends drew, where no tag was drawn twice there are names for all numbers that take the tags of one run to those of
/// the other; and cookies can be written under any names.
pub fn tags_can_be_renamed()
    ensures pairs { PairsAreRenamed }
    ensures cookies { CookiesAreNamed }
{}

/// Associations end, and packets, as under the first names.
pub fn endings_are_named()
    ensures endings { EndingsAreNamed }
{}

/// Time passes as under the first names.
pub fn moments_are_named()
    ensures moments { MomentsAreNamed }
{}

/// What is sent and taken is sent and taken as under the first names.
pub fn calls_are_named()
    ensures calls { CallsAreNamed }
{}

/// A packet that opens no association is received, chunk by chunk, as under the first names.
pub fn packets_are_named()
    ensures packets { PacketsAreNamed }
{}

/// Each call of an end under other names leaves it as the same call leaves the first one, under these names, and emits the same packets
/// under them. Asked for are the words that are drawn, and of a packet what opens an association in it; of other calls nothing, but that
/// no record is taken up. A packet that one of the two refuses the other one refuses too.
pub fn each_call_is_named()
    ensures calls { EachCallIsNamed }
    ensures refusals { EachRefusalIsNamed }
{}

/// Where no tag is drawn twice in either of two traces, what their ends drew, place by place, gives names: each tag goes to the one
/// that was drawn in its place, and numbers that count from a first TSN move as far as it does.
pub fn draws_have_names()
    ensures names { DrawsHaveNames }
{}

/// Along each trace that follows the rules, until an association first ends, INIT and INIT ACK are alone in their packets and a COOKIE
/// ECHO comes first; DATA has a payload, and the numbers of reset requests are of 32 bits, in packets and in what both ends hold.
pub fn packets_are_whole()
    ensures kinds { PacketsAreOfAKind }
{}

/// Along such a trace each packet without a checksum is for an end with a method, which lets it through: an end leaves the checksum out
/// as was negotiated of the two option sets, and not before.
pub fn packets_pass()
    ensures pass { PacketsPass }
{}

/// Two traces of the same actions, by the same options, in which ends draw other words: after each action, and after the one that first
/// ends an association, each end of the second is the one of the first under other names, it has emitted the same events, each packet
/// under names, and given up the same messages. An association stays in one where it stays in the other. Asked for is that no bytes
/// come from elsewhere, that no tag is drawn twice in either, and that the first follows the rules.
pub fn traces_are_alike()
    ensures alike { TracesAreAlike }
{}

/// In traces that are alike a packet without a checksum is let through in the one where it is in the other.
pub fn images_pass_too()
    ensures pass { ImagesPass }
{}
