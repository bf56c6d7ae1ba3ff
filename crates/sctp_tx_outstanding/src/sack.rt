//! What a SACK says of the kept items.

ghost use Rattle.std.specs.Prelude.{◌≡◌, ◌+◌, ◌-◌, ◌<◌, ◌≤◌, ◌^◌, true, List, min, length, take, drop, sum_by, slice_get, if◌then◌else◌};
ghost use Rattle.sctp_chunk.specs.declared.sack.GapAckBlock.{GapAckBlock};
ghost use Rattle.sctp_tx_outstanding.specs.OutstandingData.{change_at};
ghost use Rattle.sctp_tx_outstanding.specs.Sack.{departing_part, ack_or_uncover_all, newly_acked, below_highest, ack_or_uncover, bytes_of, newly_of, highest_end, report};
ghost use Rattle.sctp_tx_outstanding.specs.LastBlocks.{Rest};
ghost use Rattle.sctp_tx_outstanding.specs.Passes.{IsWalk, AllAre, Advances};
ghost use Rattle.sctp_tx_outstanding.specs.Flights.{NoneFlies};

use crate::item::{Item, MissIndication};
use crate::kept::{Change, Kept};
use crate::last_blocks::LastBlocks;
use crate::stretches::stretch_of;
use sctp_chunk::{GapAckBlock, SpareBuffers, are_runs};
use std::alloc::Global;

/// What a SACK acknowledged.
#[derive(Clone, Copy)]
pub struct AckInfo {
    /// The bytes of the chunks newly acknowledged, with headers and padding; at most `usize::MAX`.
    pub bytes_acked: usize,
    /// Whether an item was found to be lost.
    pub has_packet_loss: bool,
}

/// The reports of a SACK by its highest number newly acknowledged. Of an item that may be lost more than once a flight they count from 0 on.
pub(crate) fn report(once_a_flight: bool, newest: u128, next: u128) -> MissIndication
    ensures { result ≡ report once_a_flight newest next }
{
    MissIndication::Report {
        newest,
        next: if once_a_flight { next } else { 0 },
    }
}

/// The bytes that count as newly acknowledged as an item leaves.
fn left_bytes(item: &Item, is_interleaved: bool) -> usize
    ensures { result ≡ departing_part is_interleaved item.now }
{
    if item.is_acked() {
        return 0;
    }
    item.chunk_size(is_interleaved)
}

/// Takes the first items out, and keeps buffers of their payloads. The answer is how many bytes are newly acknowledged by that, at
/// most `usize::MAX`.
pub(crate) fn take_out(kept: &mut Kept, count: usize, spares: &mut SpareBuffers) -> usize
    ensures items { kept.new ≡ record kept.old { items = drop count kept.old.items } }
    ensures bytes { result ≡ min (sum_by (departing_part kept.old.is_interleaved) (take count kept.old.items)) (2 ^ 64 - 1) }
{
    let is_interleaved = kept.is_interleaved();
    let mut bytes = 0usize;
    let mut left = count;
    while left > 0 {
        let Some(item) = kept.pop() else {
            return bytes;
        };
        bytes = bytes.saturating_add(left_bytes(&item, is_interleaved));
        spares.keep(item.into_payload());
        left -= 1;
    }
    bytes
}

/// The first block that may cover items behind those that blocks cover from the place on, the place behind these, and one up to which
/// no block covers items from there on. Before the place `uncovered` none is searched for.
pub(crate) fn pass_covered(
    blocks: &[GapAckBlock],
    are_in_order: bool,
    from: usize,
    uncovered: usize,
    place: usize,
) -> (usize, usize, usize)
    requires small { place + 1 < 2 ^ 64 }
    requires cursor { IsWalk are_in_order blocks.now (place + 1) from }
    ensures cursor { IsWalk are_in_order blocks.now (result.1 + 1) result.0 }
    ensures onward { place ≤ result.1 }
    ensures covered { AllAre true blocks.now 1 place result.1 }
{
    if place < uncovered {
        return (from, place, uncovered);
    }
    let stretch = stretch_of(blocks, are_in_order, from, place);
    if stretch.is_covered {
        return (stretch.block, stretch.end, stretch.end);
    }
    (stretch.block, place, stretch.end)
}

/// The same over items that aren't outstanding, covered or not, up to one that may be or to `count`.
pub(crate) fn pass_idle(
    kept: &Kept,
    blocks: &[GapAckBlock],
    are_in_order: bool,
    from: usize,
    uncovered: usize,
    place: usize,
    count: usize,
) -> (usize, usize, usize)
    requires rest { Rest blocks.now 1 kept.now.items }
    requires cursor { IsWalk are_in_order blocks.now (place + 1) from }
    ensures cursor { IsWalk are_in_order blocks.now (result.1 + 1) result.0 }
    ensures onward { place ≤ result.1 }
    ensures none { NoneFlies place result.1 kept.now.items }
{
    let mut block = from;
    let mut end = uncovered;
    let mut next = place;
    while next < count {
        let (later, behind, later_end) = pass_covered(blocks, are_in_order, block, end, next);
        let flight = kept.next_flight(behind);
        block = later;
        end = later_end;
        if flight == next {
            return (block, next, end);
        }
        next = flight;
    }
    (block, next, end)
}

/// What blocks newly acknowledged.
#[derive(Clone, Copy)]
pub struct Covered {
    /// The bytes of the chunks, at most `usize::MAX`.
    pub bytes: usize,
    /// How many items stand below the highest one.
    pub below: usize,
}

/// Settles the item at the place, which a block covers or none does.
#[inline(always)]
fn settle_at(kept: &mut Kept, place: usize, is_covered: bool, covered: Covered) -> Covered
    requires within { place < length kept.old.items }
    ensures items { kept.new ≡ record kept.old { items = change_at place (ack_or_uncover is_covered) kept.old.items } }
    ensures bytes { result.bytes ≡ min (covered.bytes + bytes_of is_covered kept.old.is_interleaved (slice_get kept.old.items place)) (2 ^ 64 - 1) }
    ensures below { result.below ≡ (if newly_of is_covered (slice_get kept.old.items place) then place else covered.below) }
{
    if !is_covered {
        kept.change(place, Change::Uncover);
        return covered;
    }
    match kept.change(place, Change::Ack) {
        Some(size) => Covered {
            bytes: covered.bytes.saturating_add(size),
            below: place,
        },
        None => covered,
    }
}

/// Settles the items from one place up to another, of which blocks cover each or none.
fn settle_each(
    kept: &mut Kept,
    from: usize,
    to: usize,
    is_covered: bool,
    covered: Covered,
) -> Covered
    requires onward { from ≤ to }
    requires within { to ≤ length kept.old.items }
    ensures mode { kept.new.is_interleaved ≡ kept.old.is_interleaved }
    ensures length { length kept.new.items ≡ length kept.old.items }
    ensures settled { (blocks : List GapAckBlock) → AllAre is_covered blocks 1 from to → Advances blocks kept.old.is_interleaved from to covered result kept.old.items kept.new.items }
{
    let mut found = covered;
    let mut place = from;
    while place < to {
        found = settle_at(kept, place, is_covered, found);
        place += 1;
    }
    found
}

/// The same, but those that are known to be given up are passed over, since they stay as they are.
fn settle_range(
    kept: &mut Kept,
    from: usize,
    to: usize,
    is_covered: bool,
    covered: Covered,
) -> Covered
    requires onward { from ≤ to }
    requires within { to ≤ length kept.old.items }
    ensures mode { kept.new.is_interleaved ≡ kept.old.is_interleaved }
    ensures settled { (blocks : List GapAckBlock) → AllAre is_covered blocks 1 from to → Advances blocks kept.old.is_interleaved from to covered result kept.old.items kept.new.items }
{
    let mut found = covered;
    let mut place = from;
    while place < to {
        let next = kept.pass_given_up(place).min(to);
        let end = kept.next_given_up(next).max(place + 1).min(to);
        found = settle_each(kept, next, end, is_covered, found);
        place = end;
    }
    found
}

// How far the walk has come in the items, the earlier blocks and the later ones, and what it found.
#[derive(Clone, Copy)]
struct Walk {
    place: usize,
    earlier: usize,
    later: usize,
    covered: Covered,
}

/// Settles a stretch of items of which the earlier blocks say one thing and the new ones one, or passes it over, if they agree.
fn settle_stretch(
    kept: &mut Kept,
    last: &LastBlocks,
    blocks: &[GapAckBlock],
    are_in_order: bool,
    count: usize,
    walk: Walk,
) -> Walk
    requires count { count ≤ length kept.old.items }
    requires within { walk.place < count }
    requires rest { last.now.is_known ≡ true → Rest last.now.gap_ack_blocks.items (walk.place + last.now.offset) (drop walk.place kept.old.items) }
    requires earlier { IsWalk last.now.is_known last.now.gap_ack_blocks.items (walk.place + last.now.offset) walk.earlier }
    requires later { IsWalk are_in_order blocks.now (walk.place + 1) walk.later }
    ensures onward { walk.place < result.place }
    ensures within { result.place ≤ count }
    ensures earlier { IsWalk last.now.is_known last.now.gap_ack_blocks.items (result.place + last.now.offset) result.earlier }
    ensures later { IsWalk are_in_order blocks.now (result.place + 1) result.later }
    ensures mode { kept.new.is_interleaved ≡ kept.old.is_interleaved }
    ensures settled { Advances blocks.now kept.old.is_interleaved walk.place result.place walk.covered result.covered kept.old.items kept.new.items }
{
    let earlier = last.stretch(walk.earlier, walk.place);
    let later = stretch_of(blocks, are_in_order, walk.later, walk.place);
    let end = count.min(earlier.end).min(later.end);
    let next = Walk {
        place: end,
        earlier: earlier.block,
        later: later.block,
        covered: walk.covered,
    };
    if last.is_known && earlier.is_covered == later.is_covered {
        return next;
    }
    let covered = settle_range(kept, walk.place, end, later.is_covered, walk.covered);
    Walk { covered, ..next }
}

/// Acknowledges the items that blocks cover, and has those in flight again that no block covers any more. Only those are looked
/// at of which these blocks say something else than the last ones, if they are known.
pub(crate) fn settle_all(kept: &mut Kept, alloc: Global, blocks: &[GapAckBlock]) -> Covered
    ensures items { kept.new ≡ record kept.old { items = ack_or_uncover_all blocks.now 1 kept.old.items } }
    ensures bytes { result.bytes ≡ min (newly_acked blocks.now kept.old.is_interleaved 1 kept.old.items) (2 ^ 64 - 1) }
    ensures below { result.below ≡ below_highest blocks.now 1 0 0 kept.old.items }
    ensures rests { Rest blocks.now 1 kept.new.items }
{
    let last = kept.take_last_blocks(alloc);
    let are_in_order = are_runs(0, blocks);
    let count = kept.len();
    let mut walk = Walk {
        place: 0,
        earlier: 0,
        later: 0,
        covered: Covered { bytes: 0, below: 0 },
    };
    while walk.place < count {
        walk = settle_stretch(kept, &last, blocks, are_in_order, count, walk);
    }
    kept.remember(last, blocks);
    walk.covered
}

/// The greatest end of a block.
pub(crate) fn highest_end(blocks: &[GapAckBlock]) -> u16
    ensures { result ≡ highest_end blocks.now }
{
    let mut highest = 0;
    let mut place = blocks.len();
    while place > 0 {
        place -= 1;
        highest = blocks[place].end.max(highest);
    }
    highest
}
