//! What holds over several calls of what was sent.

ghost use Rattle.sctp_tx_outstanding.specs.Again.{EachComesBack};
ghost use Rattle.sctp_tx_outstanding.specs.Keeps.{LossesKeep, LifetimesKeep, ResendingKeeps, NewItemsKeep, SacksKeep, MessagesAreGivenUp};
ghost use Rattle.sctp_tx_outstanding.specs.Point.{PointsAreSound, PointsGoFar};
ghost use Rattle.sctp_tx_outstanding.specs.Records.{NewRecordsAreExact, NewItemsRecordOnce, LossesRecordOnce, LifetimesRecordOnce, SacksRecordOnce, ResendingRecordsOnce, TakingRecordsOnce, CountsAreRecorded, LifetimesAreRecorded};

/// Items that are written into a record, which is taken up at the same moment, come back under their TSNs, with all but
/// what whole milliseconds in 32 bits don't hold, how often an item was reported missing and from which number on reports count, and
/// whether it waits for the fast packet. A placeholder, which was never sent, counts as sent once.
pub fn a_record_brings_the_items_back()
    ensures { EachComesBack }
{}

/// Items leave by a cumulative TSN alone: all else leaves each one at its place, with its fragment. What is given up stays
/// so, whatever SACKs, timeouts, lifetimes and packets come.
pub fn items_stay()
    ensures losses { LossesKeep }
    ensures lifetimes { LifetimesKeep }
    ensures resending { ResendingKeeps }
    ensures new { NewItemsKeep }
    ensures sacks { SacksKeep }
{}

/// Once a fragment is given up, all that is kept of its message is, with the end that it gets.
pub fn messages_are_given_up()
    ensures { MessagesAreGivenUp }
{}

/// In one association each message has one record at most, and an item is given up exactly where its message has one: a new
/// association has neither, and each call keeps that, as long as no fragment is sent of a message that was given up.
pub fn a_message_is_given_up_once()
    ensures new { NewRecordsAreExact }
    ensures new_items { NewItemsRecordOnce }
    ensures losses { LossesRecordOnce }
    ensures lifetimes { LifetimesRecordOnce }
    ensures sacks { SacksRecordOnce }
    ensures resending { ResendingRecordsOnce }
    ensures taking { TakingRecordsOnce }
{}

/// Where an item is lost by a report or a timeout, a record is made exactly where its message is given up: of partial
/// reliability, once the item was sent again as often as its limit allows. The record has that item's sendings less one,
/// which is no less than the limit. Where a lifetime passed the record says so.
pub fn records_say_why()
    ensures counts { CountsAreRecorded }
    ensures lifetimes { LifetimesAreRecorded }
{}

/// A forward point passes given-up items alone, from the cumulative TSN on without a hole and over no breakpoint of a
/// reset; and it names each stream that it touches, ordered and unordered messages apart, without interleaving the ordered
/// ones alone, and no other, with the number of its last message. Its entries ascend,
/// and the chunk that they make is no longer than it may be.
pub fn points_are_sound()
    ensures { PointsAreSound }
{}

/// A forward point ends only before an item that isn't given up, before a breakpoint of a reset, before an entry that would
/// make its chunk too long, or behind the last item.
pub fn points_go_as_far_as_they_can()
    ensures { PointsGoFar }
{}
