//! Dropping pairs of blocks.

ghost use Rattle.std.specs.Prelude.{◌≡◌, ◌<◌, ◌≤◌, ◌+◌, ◌^◌, ◌++◌, length, take, drop, slice_set, T};
ghost use Rattle.std.specs.FinMap.Entries.{is_sorted};
ghost use Rattle.byte_map.specs.Blocks.{joined, block_of, before, rest, AllFilled, IsPlace, IsDropped, without_part};
ghost use Rattle.byte_map.specs.Words.{bytes_cmp, bytes_in, without};

use crate::block::Block;
use crate::blocks::lower_bound;
use crate::place::Place;

/// How many pairs were dropped, and their bytes.
#[derive(Clone, Copy)]
pub struct Dropped {
    pub count: usize,
    pub bytes: u64,
}

/// Drops the pairs whose keys are in a range.
pub fn drop_range(blocks: &mut Vec<Block>, from: &[u8], to: &[u8]) -> Dropped
    requires sorted { T (is_sorted bytes_cmp (joined blocks.old.items)) }
    requires filled { AllFilled blocks.old.items }
    requires few { length (joined blocks.old.items) < 2 ^ 64 }
    requires fits { bytes_in (joined blocks.old.items) < 2 ^ 64 }
    ensures joined { joined blocks.new.items ≡ without from.now to.now (joined blocks.old.items) }
    ensures filled { AllFilled blocks.new.items }
    ensures dropped { IsDropped (joined blocks.old.items) (joined blocks.new.items) result.count result.bytes }
{
    let start = lower_bound(blocks, from);
    let end = lower_bound(blocks, to);
    if start.block < end.block {
        return drop_across(blocks, start, end);
    }
    if start.block == end.block && start.index < end.index {
        return drop_within(blocks, start, end.index);
    }
    Dropped { count: 0, bytes: 0 }
}

// From a place up to one in a later block.
fn drop_across(blocks: &mut Vec<Block>, from: Place, to: Place) -> Dropped
    requires from { IsPlace blocks.old.items from.block from.index }
    requires to { IsPlace blocks.old.items to.block to.index }
    requires order { from.block < to.block }
    requires filled { AllFilled blocks.old.items }
    requires few { length (joined blocks.old.items) < 2 ^ 64 }
    requires fits { bytes_in (joined blocks.old.items) < 2 ^ 64 }
    ensures joined { joined blocks.new.items
        ≡ before blocks.old.items from.block from.index ++ rest blocks.old.items to.block to.index }
    ensures filled { AllFilled blocks.new.items }
    ensures dropped { IsDropped (joined blocks.old.items) (joined blocks.new.items) result.count result.bytes }
{
    let first = first_whole(from, to);
    let tail = drop_tail(blocks, from);
    let head = drop_head(blocks, to);
    let middle = drop_blocks(blocks, first, to.block);
    Dropped {
        count: tail.count + head.count + middle.count,
        bytes: tail.bytes + head.bytes + middle.bytes,
    }
}

// The first block from a place on of which nothing is kept.
fn first_whole(from: Place, to: Place) -> usize
    requires { from.block < to.block }
    ensures none { from.index ≡ 0 → result ≡ from.block }
    ensures some { 0 < from.index → result ≡ from.block + 1 }
{
    if from.index == 0 {
        from.block
    } else {
        from.block + 1
    }
}

// From a place up to an index in its block, behind which the block has a pair.
fn drop_within(blocks: &mut Vec<Block>, from: Place, to: usize) -> Dropped
    requires block { from.block < length blocks.old.items }
    requires order { from.index ≤ to }
    requires in_range { to < length (block_of blocks.old.items from.block) }
    requires filled { AllFilled blocks.old.items }
    requires fits { bytes_in (joined blocks.old.items) < 2 ^ 64 }
    ensures joined { joined blocks.new.items
        ≡ before blocks.old.items from.block from.index ++ rest blocks.old.items from.block to }
    ensures filled { AllFilled blocks.new.items }
    ensures dropped { IsDropped (joined blocks.old.items) (joined blocks.new.items) result.count result.bytes }
{
    drop_part(blocks, from.block, from.index, to)
}

// The pairs of a block before a place.
fn drop_head(blocks: &mut Vec<Block>, to: Place) -> Dropped
    requires block { to.block ≤ length blocks.old.items }
    requires index { to.block < length blocks.old.items → to.index ≤ length (block_of blocks.old.items to.block) }
    requires fits { bytes_in (joined blocks.old.items) < 2 ^ 64 }
    ensures items { blocks.new.items
        ≡ slice_set blocks.old.items to.block (drop to.index (block_of blocks.old.items to.block)) }
    ensures dropped { IsDropped (joined blocks.old.items) (joined blocks.new.items) result.count result.bytes }
{
    if to.block == blocks.len() {
        return Dropped { count: 0, bytes: 0 };
    }
    drop_part(blocks, to.block, 0, to.index)
}

// The pairs of a block from a place on.
fn drop_tail(blocks: &mut Vec<Block>, from: Place) -> Dropped
    requires block { from.block < length blocks.old.items }
    requires index { from.index ≤ length (block_of blocks.old.items from.block) }
    requires fits { bytes_in (joined blocks.old.items) < 2 ^ 64 }
    ensures items { blocks.new.items
        ≡ slice_set blocks.old.items from.block (take from.index (block_of blocks.old.items from.block)) }
    ensures dropped { IsDropped (joined blocks.old.items) (joined blocks.new.items) result.count result.bytes }
{
    let end = blocks[from.block].len();
    drop_part(blocks, from.block, from.index, end)
}

// The pairs of a block from an index up to another.
fn drop_part(blocks: &mut Vec<Block>, block: usize, from: usize, to: usize) -> Dropped
    requires block { block < length blocks.old.items }
    requires order { from ≤ to }
    requires in_range { to ≤ length (block_of blocks.old.items block) }
    requires fits { bytes_in (joined blocks.old.items) < 2 ^ 64 }
    ensures items { blocks.new.items ≡ without_part blocks.old.items block from to }
    ensures dropped { IsDropped (joined blocks.old.items) (joined blocks.new.items) result.count result.bytes }
{
    let bytes = blocks[block].drop_between(from, to);
    Dropped {
        count: to - from,
        bytes,
    }
}

// Whole blocks.
fn drop_blocks(blocks: &mut Vec<Block>, from: usize, to: usize) -> Dropped
    requires order { from ≤ to }
    requires in_range { to ≤ length blocks.old.items }
    requires few { length (joined blocks.old.items) < 2 ^ 64 }
    requires fits { bytes_in (joined blocks.old.items) < 2 ^ 64 }
    ensures items { blocks.new.items ≡ take from blocks.old.items ++ drop to blocks.old.items }
    ensures dropped { IsDropped (joined blocks.old.items) (joined blocks.new.items) result.count result.bytes }
{
    let dropped = all_of(&blocks[from..to]);
    remove(blocks, from, to);
    dropped
}

fn remove(blocks: &mut Vec<Block>, from: usize, to: usize)
    requires order { from ≤ to }
    requires in_range { to ≤ length blocks.old.items }
    ensures { blocks.new.items ≡ take from blocks.old.items ++ drop to blocks.old.items }
{
    blocks.drain(from..to);
}

fn all_of(blocks: &[Block]) -> Dropped
    requires few { length (joined blocks.now) < 2 ^ 64 }
    requires fits { bytes_in (joined blocks.now) < 2 ^ 64 }
    ensures count { result.count ≡ length (joined blocks.now) }
    ensures bytes { result.bytes ≡ bytes_in (joined blocks.now) }
{
    let mut count = 0;
    let mut bytes = 0;
    for block in blocks {
        count += block.len();
        bytes += block.bytes();
    }
    Dropped { count, bytes }
}
