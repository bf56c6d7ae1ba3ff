//! Whether the gap ack blocks of a SACK are runs.

ghost use Rattle.std.specs.Prelude.{◌↔◌, IsTrue};
ghost use Rattle.sctp_chunk.specs.Covered.{AreRuns};

use crate::sack::GapAckBlock;

/// Whether the blocks ascend from the offset `from` on, none is empty, and between two an offset is missing.
pub fn are_runs(from: u32, blocks: &[GapAckBlock]) -> bool
    ensures { IsTrue result ↔ AreRuns from blocks.now }
{
    let mut lowest = from;
    for block in blocks {
        if u32::from(block.start) < lowest || block.end < block.start {
            return false;
        }
        lowest = u32::from(block.end) + 2;
    }
    true
}
