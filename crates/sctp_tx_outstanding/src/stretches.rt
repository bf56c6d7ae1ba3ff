//! Stretches of items that blocks cover alike.

ghost use Rattle.std.specs.Prelude.{◌≡◌, ℕ, ◌+◌, ◌-◌, ◌<◌, ◌≤◌, ◌^◌, length, slice_index_or};
ghost use Rattle.sctp_chunk.specs.declared.sack.GapAckBlock.{GapAckBlock};
ghost use Rattle.sctp_chunk.specs.Covered.{is_covered, covers};
ghost use Rattle.sctp_tx_outstanding.specs.Passes.{IsCursor, IsWalk, AllAre};

use sctp_chunk::GapAckBlock;

/// Items from a place on, of which blocks cover each or none.
#[derive(Clone, Copy)]
pub struct Stretch {
    pub is_covered: bool,
    /// The place behind them.
    pub end: usize,
    /// The blocks before this one end before them, if they stand in order.
    pub block: usize,
}

/// The place behind the last item that the block covers, where the first one has the offset `first`.
#[inline(always)]
fn end_of(block: GapAckBlock, first: usize) -> usize
    ensures { result ≡ block.end + 1 - first }
{
    (block.end as usize + 1).saturating_sub(first)
}

/// The first block from `from` on that doesn't end before the item at the place.
#[inline(always)]
fn skip_blocks(blocks: &[GapAckBlock], mut from: usize, first: usize, place: usize) -> usize
    requires { IsCursor blocks.now (place + first) from }
    ensures cursor { IsCursor blocks.now (place + first) result }
    ensures ends { (d : GapAckBlock) → result < length blocks.now → place + first ≤ (slice_index_or blocks.now result d).end }
{
    while from < blocks.len() && end_of(blocks[from], first) <= place {
        from += 1;
    }
    from
}

/// The stretch from the place on in blocks that stand in order, where the first item has the offset `first`. They are searched from
/// `from` on.
#[inline(always)]
pub(crate) fn stretch_in_order(
    blocks: &[GapAckBlock],
    from: usize,
    first: usize,
    place: usize,
) -> Stretch
    requires small { place + 1 < 2 ^ 64 }
    requires cursor { IsCursor blocks.now (place + first) from }
    ensures cursor { IsCursor blocks.now (place + first) result.block }
    ensures onward { place < result.end }
    ensures covered { AllAre result.is_covered blocks.now first place result.end }
{
    let block = skip_blocks(blocks, from, first, place);
    if block >= blocks.len() {
        return Stretch {
            is_covered: false,
            end: usize::MAX,
            block,
        };
    }
    let begin = (blocks[block].start as usize).saturating_sub(first);
    if place < begin {
        return Stretch {
            is_covered: false,
            end: begin,
            block,
        };
    }
    Stretch {
        is_covered: true,
        end: end_of(blocks[block], first),
        block,
    }
}

/// Whether one of the blocks covers the offset.
fn is_covered(blocks: &[GapAckBlock], offset: usize) -> bool
    ensures { result ≡ is_covered blocks.now offset }
{
    blocks.iter().any(|block| block.start as usize <= offset && offset <= block.end as usize)
}

/// The next place of whose item the block may say something else than of this one.
fn border_of(block: GapAckBlock, place: usize) -> usize
    requires small { place + 1 < 2 ^ 64 }
    ensures onward { place < result }
    ensures alike { (p : ℕ) → place ≤ p → p < result → covers (p + 1) block ≡ covers (place + 1) block }
{
    let begin = (block.start as usize).saturating_sub(1);
    if place < begin {
        return begin;
    }
    if place < block.end as usize {
        return block.end as usize;
    }
    usize::MAX
}

/// The next place of whose item one of the blocks may say something else than of this one.
fn border(blocks: &[GapAckBlock], place: usize) -> usize
    requires small { place + 1 < 2 ^ 64 }
    ensures onward { place < result }
    ensures alike { (p : ℕ) → place ≤ p → p < result → is_covered blocks.now (p + 1) ≡ is_covered blocks.now (place + 1) }
{
    let mut next = usize::MAX;
    let mut left = blocks.len();
    while left > 0 {
        left -= 1;
        next = next.min(border_of(blocks[left], place));
    }
    next
}

/// The stretch from the place on in a SACK's blocks. Only blocks in order are searched from `from` on.
#[inline(always)]
pub(crate) fn stretch_of(
    blocks: &[GapAckBlock],
    are_in_order: bool,
    from: usize,
    place: usize,
) -> Stretch
    requires small { place + 1 < 2 ^ 64 }
    requires cursor { IsWalk are_in_order blocks.now (place + 1) from }
    ensures cursor { IsWalk are_in_order blocks.now (place + 1) result.block }
    ensures onward { place < result.end }
    ensures covered { AllAre result.is_covered blocks.now 1 place result.end }
{
    if are_in_order {
        return stretch_in_order(blocks, from, 1, place);
    }
    Stretch {
        is_covered: is_covered(blocks, place + 1),
        end: border(blocks, place),
        block: from,
    }
}
