//! The blocks of the last SACK.

ghost use Rattle.std.specs.Prelude.{◌≡◌, ℕ, ◌+◌, ◌<◌, ◌≤◌, ◌^◌, length, drop};
ghost use Rattle.sctp_tx_outstanding.specs.Passes.{IsWalk, AllAre};
ghost use Rattle.sctp_tx_outstanding.specs.Sack.{highest_end};

use crate::kept::Change;
use crate::stretches::{Stretch, stretch_in_order};
use sctp_chunk::{GapAckBlock, are_runs};
use std::alloc::Global;

/// The blocks of the last SACK, if they are known, stand in order and say what the items are: they are then looked at again only
/// where the next ones differ.
#[derive(Drop)]
pub struct LastBlocks {
    pub gap_ack_blocks: Vec<GapAckBlock>,
    /// The first item's offset in them.
    pub offset: usize,
    pub is_known: bool,
}

impl LastBlocks {
    ghost use Rattle.std.specs.Prelude.{◌∷◌, ◌++◌, [], true, List};
    ghost use Rattle.sctp_tx_outstanding.specs.Item.{Item, is_acked};
    ghost use Rattle.sctp_tx_outstanding.specs.Change.{apply_change};
    ghost use Rattle.sctp_tx_outstanding.specs.OutstandingData.{change_at};
    ghost use Rattle.sctp_tx_outstanding.specs.LastBlocks.{Knows, Rest};

    /// No blocks, of no items. Takes no memory.
    pub fn new(alloc: Global) -> LastBlocks
        ensures { Knows result [] }
    {
        LastBlocks {
            gap_ack_blocks: Vec::new(alloc),
            offset: 1,
            is_known: true,
        }
    }

    /// The first item leaves.
    pub fn pass(&mut self)
        ensures { (is : List Item) → Knows self.old is → Knows self.new (drop 1 is) }
    {
        if self.offset >= 1 << 62 {
            self.is_known = false;
            return;
        }
        self.offset += 1;
    }

    /// An item comes behind the others, acknowledged or not.
    pub fn take(&mut self, acked: bool)
        ensures { (is : List Item) (i : Item) → is_acked i ≡ acked → Knows self.old is → Knows self.new (is ++ i ∷ []) }
    {
        if acked {
            self.is_known = false;
            return;
        }
    }

    /// An item changes.
    pub fn see(&mut self, how: Change)
        ensures { (k : ℕ) (is : List Item) → Knows self.old is → Knows self.new (change_at k (apply_change how) is) }
    {
        if how.is_of_sack() {
            self.is_known = false;
            return;
        }
    }

    /// They are taken out, and none are known.
    pub fn take_out(&mut self, alloc: Global) -> LastBlocks
        ensures taken { result ≡ self.old }
        ensures left { (is : List Item) → Knows self.new is }
    {
        std::mem::replace(
            self,
            LastBlocks {
                gap_ack_blocks: Vec::new(alloc),
                offset: 1,
                is_known: false,
            },
        )
    }

    /// The stretch of items from the place on of which they say the same, if they are known. They are searched from `from` on.
    #[inline(always)]
    pub fn stretch(&self, from: usize, place: usize) -> Stretch
        requires small { place + 1 < 2 ^ 64 }
        requires cursor { IsWalk self.now.is_known self.now.gap_ack_blocks.items (place + self.now.offset) from }
        ensures cursor { IsWalk self.now.is_known self.now.gap_ack_blocks.items (place + self.now.offset) result.block }
        ensures onward { place < result.end }
        ensures covered { self.now.is_known ≡ true → AllAre result.is_covered self.now.gap_ack_blocks.items self.now.offset place result.end }
    {
        if !self.is_known {
            return Stretch {
                is_covered: false,
                end: usize::MAX,
                block: from,
            };
        }
        stretch_in_order(&self.gap_ack_blocks, from, self.offset, place)
    }

    /// The items are as these blocks say. What can't be kept is not known.
    pub fn remember_blocks(&mut self, blocks: &[GapAckBlock], is_within: bool)
        ensures { (is : List Item) → (is_within ≡ true → highest_end blocks.now ≤ length is) → Rest blocks.now 1 is → Knows self.new is }
    {
        self.gap_ack_blocks.clear();
        self.offset = 1;
        let is_remembered = is_within && are_runs(0, blocks);
        self.is_known = is_remembered && self.gap_ack_blocks.extend_from_slice(blocks).is_ok();
    }
}
