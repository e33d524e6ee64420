//! The greatest time of blocks.

ghost use Rattle.log_directory.specs.Greatest.{IsGreatest, times_in_order};

use crate::meta::BlockTimes;

/// Returns the greatest time of the blocks that were not made of samples that came late, if there is one.
pub fn greatest_time(blocks: &[BlockTimes]) -> Option<i64>
    ensures { IsGreatest (times_in_order blocks.now) result }
{
    blocks
        .iter()
        .filter(|block| !block.out_of_order)
        .map(|block| block.max_time)
        .max()
}
