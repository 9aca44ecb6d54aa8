//! Counting pairs of blocks.

ghost use Rattle.std.specs.Prelude.{◌≡◌, ◌<◌, ◌^◌, length, T};
ghost use Rattle.std.specs.FinMap.Entries.{is_sorted};
ghost use Rattle.byte_map.specs.Blocks.{joined, AllFilled};
ghost use Rattle.byte_map.specs.Words.{bytes_cmp, pairs_between};

use crate::block::Block;
use crate::blocks::lower_bound;

/// How many pairs have their keys in a range.
pub fn count_between(blocks: &[Block], from: &[u8], to: &[u8]) -> usize
    requires sorted { T (is_sorted bytes_cmp (joined blocks.now)) }
    requires filled { AllFilled blocks.now }
    requires few { length (joined blocks.now) < 2 ^ 64 }
    ensures { result ≡ length (pairs_between from.now to.now (joined blocks.now)) }
{
    let start = lower_bound(blocks, from);
    let end = lower_bound(blocks, to);
    if end.block < start.block {
        return 0;
    }
    let whole = count_of(&blocks[start.block..end.block]);
    (whole + end.index).saturating_sub(start.index)
}

// How many pairs blocks have.
fn count_of(blocks: &[Block]) -> usize
    requires { length (joined blocks.now) < 2 ^ 64 }
    ensures { result ≡ length (joined blocks.now) }
{
    let mut count = 0;
    for block in blocks {
        count += block.len();
    }
    count
}
