//! SACKs of peers: their blocks put into one form, and the test whether they are in it.

ghost use Rattle.std.specs.Prelude.{◌≡◌, ◌≤◌, ◌↔◌, IsTrue, List, All, length};
ghost use Rattle.sctp_chunk.specs.declared.sack.GapAckBlock.{GapAckBlock};
ghost use Rattle.sctp_chunk.specs.Covered.{SameOffsets, IsMaximalRun, AreRuns, AreValid, Ascend};

use sctp_chunk::{GapAckBlock, SackChunk, are_runs};

/// The chunk with its gap ack blocks as the maximal runs of the offsets that they cover, ascending; the other fields stay.
/// A block whose start is above its end covers nothing. It takes no memory, and n log n comparisons for n blocks.
pub fn clean_sack(mut sack: SackChunk) -> SackChunk
    ensures covered { SameOffsets result.gap_ack_blocks.items sack.gap_ack_blocks.items }
    ensures maximal { All (IsMaximalRun sack.gap_ack_blocks.items) result.gap_ack_blocks.items }
    ensures runs { AreRuns 0 result.gap_ack_blocks.items }
    ensures kept { result ≡ record sack { gap_ack_blocks = result.gap_ack_blocks } }

    // They are the only runs over these offsets, so a clean SACK stays as it is; and no list is shorter.
    ensures only { (runs : List GapAckBlock) → AreRuns 0 runs
        → SameOffsets runs sack.gap_ack_blocks.items → result.gap_ack_blocks.items ≡ runs }
    ensures again { AreRuns 0 sack.gap_ack_blocks.items
        → result.gap_ack_blocks.items ≡ sack.gap_ack_blocks.items }
    ensures shortest { (others : List GapAckBlock) → SameOffsets others sack.gap_ack_blocks.items
        → length result.gap_ack_blocks.items ≤ length others }
{
    clean(&mut sack.gap_ack_blocks);
    sack
}

/// Whether the blocks are the maximal runs of the offsets that they cover, ascending, and none covers an offset below 2:
/// offset 1 is the TSN right above the cumulative one, which would have been counted there.
pub fn validate_sack(sack: &SackChunk) -> bool
    ensures runs { IsTrue result ↔ AreRuns 2 sack.now.gap_ack_blocks.items }
    ensures valid { IsTrue result ↔ AreValid sack.now.gap_ack_blocks.items }
{
    are_runs(2, &sack.gap_ack_blocks)
}

fn clean(blocks: &mut Vec<GapAckBlock>)
    ensures covered { SameOffsets blocks.new.items blocks.old.items }
    ensures runs { AreRuns 0 blocks.new.items }
{
    blocks.retain(|block| block.start <= block.end);
    blocks.sort_unstable_by_key(|block| block.start);
    join_touching(blocks);
}

/// Joins blocks that overlap or follow one another. Each is put at its place in front of those that are still to be read.
fn join_touching(blocks: &mut Vec<GapAckBlock>)
    requires { Ascend 0 blocks.old.items }
    ensures covered { SameOffsets blocks.new.items blocks.old.items }
    ensures runs { AreRuns 0 blocks.new.items }
{
    let Some(&first) = blocks.first() else {
        return;
    };
    let mut run = first;
    let mut count = 0;
    for place in 1..blocks.len() {
        let block = blocks[place];
        if block.start <= run.end || block.start - run.end == 1 {
            run = GapAckBlock::new(run.start, run.end.max(block.end));
        } else {
            blocks[count] = run;
            count += 1;
            run = block;
        }
    }
    blocks[count] = run;
    blocks.truncate(count + 1);
}
