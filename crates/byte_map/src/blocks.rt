//! Blocks one after the other, and places in them.

ghost use Rattle.std.specs.Prelude.{◌≡◌, ◌<◌, ◌≤◌, ◌+◌, ◌^◌, ◌++◌, ◌∷◌, [], length, take, drop, slice_set, slice_index_or, T, IfOk, IfErr, IsOk, OnOk, OnErr, option_map, ◌⊎◌, true, false};
ghost use Rattle.std.specs.List.{AllWithin};
ghost use Rattle.std.specs.FinMap.Entries.{is_sorted};
ghost use Rattle.byte_map.specs.Blocks.{joined, block_of, before, rest, AllFilled, IsPlace, IsBoundFor, IsHeld, IsGap, HasRoom, SameParts, in_halves, with_value, value_at, ends_below};
ghost use Rattle.byte_map.specs.Words.{bytes_cmp, bytes_in, first_of, next_in};

use crate::block::Block;
use crate::limits::BLOCK_PAIRS;
use crate::pair::Pair;
use crate::place::Place;
use std::alloc::{AllocError, Global};

// Where a full block is split.
const HALF: usize = BLOCK_PAIRS / 2;

/// The place of the first key that is not below another, or the end.
pub fn lower_bound(blocks: &[Block], key: &[u8]) -> Place
    requires sorted { T (is_sorted bytes_cmp (joined blocks.now)) }
    requires filled { AllFilled blocks.now }
    ensures { IsBoundFor blocks.now key.now result.block result.index }
{
    let block = first_block(blocks, key);
    let index = if block < blocks.len() {
        blocks[block].lower_bound(key)
    } else {
        0
    };
    Place { block, index }
}

// The first block whose last key is not below.
fn first_block(blocks: &[Block], key: &[u8]) -> usize
    requires sorted { T (is_sorted bytes_cmp (joined blocks.now)) }
    requires filled { AllFilled blocks.now }
    ensures within { result ≤ length blocks.now }
    ensures lesser { AllWithin (λ block. ends_below key.now block ≡ true) blocks.now 0 result }
    ensures others { AllWithin (λ block. ends_below key.now block ≡ false) blocks.now result (length blocks.now) }
{
    blocks.partition_point(
        |block: &Block| -> bool
            ensures { result ≡ ends_below key.entry.now block.now }
        { block.ends_below(key) },
    )
}

/// The place of a key, or where it would go.
pub fn search(blocks: &[Block], key: &[u8]) -> Result<Place, Place>
    requires sorted { T (is_sorted bytes_cmp (joined blocks.now)) }
    requires filled { AllFilled blocks.now }
    ensures held { IfOk result (λ place. IsHeld blocks.now key.now place.block place.index) }
    ensures gap { IfErr result (λ place. IsGap blocks.now key.now place.block place.index) }
{
    let place = lower_bound(blocks, key);
    match pair_at(blocks, place) {
        Some(pair) => {
            if pair.has_key(key) {
                Ok(place)
            } else {
                Err(place)
            }
        }
        None => Err(place),
    }
}

/// The place of the least key above another, or the end.
pub fn place_above(blocks: &[Block], key: &[u8]) -> Place
    requires sorted { T (is_sorted bytes_cmp (joined blocks.now)) }
    requires filled { AllFilled blocks.now }
    ensures place { IsPlace blocks.now result.block result.index }
    ensures next { next_in bytes_cmp key.now (joined blocks.now)
        ≡ first_of (rest blocks.now result.block result.index) }
{
    match search(blocks, key) {
        Ok(place) => next_place(blocks, place),
        Err(place) => place,
    }
}

/// The pair at a place.
pub fn pair_at<'a>(blocks: &'a [Block], place: Place) -> Option<&'a Pair>
    requires { IsPlace blocks.now place.block place.index }
    ensures { option_map (λ pair. pair.now) result ≡ first_of (rest blocks.now place.block place.index) }
{
    if place.block < blocks.len() {
        Some(blocks[place.block].at(place.index))
    } else {
        None
    }
}

/// The place behind that of a pair.
pub fn next_place(blocks: &[Block], place: Place) -> Place
    requires place { IsPlace blocks.now place.block place.index }
    requires pair { place.block < length blocks.now }
    requires filled { AllFilled blocks.now }
    ensures place { IsPlace blocks.now result.block result.index }
    ensures rest { rest blocks.now result.block result.index ≡ rest blocks.now place.block (place.index + 1) }
{
    let count = blocks[place.block].len();
    if place.index + 1 < count {
        Place {
            block: place.block,
            index: place.index + 1,
        }
    } else {
        Place {
            block: place.block + 1,
            index: 0,
        }
    }
}

/// Gives the pair at a place another value. One of the same length takes no memory.
pub fn set_value(
    blocks: &mut Vec<Block>,
    alloc: Global,
    place: Place,
    value: &[u8],
) -> Result<(), AllocError>
    requires block { place.block < length blocks.old.items }
    requires index { place.index < length (block_of blocks.old.items place.block) }
    requires filled { AllFilled blocks.old.items }
    ensures ok { OnOk result (joined blocks.new.items
        ≡ with_value blocks.old.items place.block place.index value.now) }
    ensures err { OnErr result (joined blocks.new.items ≡ joined blocks.old.items) }
    ensures filled { AllFilled blocks.new.items }
    ensures in_place { length value.now ≡ length (value_at blocks.old.items place.block place.index) → IsOk result }
{
    blocks[place.block].set_value(alloc, place.index, value)
}

/// Puts a pair where it goes.
pub fn insert(
    blocks: &mut Vec<Block>,
    alloc: Global,
    place: Place,
    pair: Pair,
) -> Result<(), AllocError>
    requires place { IsPlace blocks.old.items place.block place.index }
    requires filled { AllFilled blocks.old.items }
    ensures ok { OnOk result (joined blocks.new.items
        ≡ before blocks.old.items place.block place.index ++ pair ∷ rest blocks.old.items place.block place.index) }
    ensures err { OnErr result (joined blocks.new.items ≡ joined blocks.old.items) }
    ensures filled { AllFilled blocks.new.items }
{
    if place.block == blocks.len() {
        return push(blocks, alloc, pair);
    }
    let place = make_room(blocks, place)?;
    insert_in(blocks, place, pair)
}

// Behind all others.
fn push(blocks: &mut Vec<Block>, alloc: Global, pair: Pair) -> Result<(), AllocError>
    requires { AllFilled blocks.old.items }
    ensures ok { OnOk result (joined blocks.new.items ≡ joined blocks.old.items ++ pair ∷ []) }
    ensures err { OnErr result (joined blocks.new.items ≡ joined blocks.old.items) }
    ensures filled { AllFilled blocks.new.items }
{
    let count = blocks.len();
    if count > 0 {
        let index = blocks[count - 1].len();
        if index < BLOCK_PAIRS {
            let block = count - 1;
            return insert_in(blocks, Place { block, index }, pair);
        }
    }
    blocks.push(Block::of(alloc, pair)?)?;
    Ok(())
}

// In a block that has room.
fn insert_in(blocks: &mut Vec<Block>, place: Place, pair: Pair) -> Result<(), AllocError>
    requires block { place.block < length blocks.old.items }
    requires index { place.index ≤ length (block_of blocks.old.items place.block) }
    requires room { length (block_of blocks.old.items place.block) < BLOCK_PAIRS }
    requires filled { AllFilled blocks.old.items }
    ensures ok { OnOk result (joined blocks.new.items
        ≡ before blocks.old.items place.block place.index ++ pair ∷ rest blocks.old.items place.block place.index) }
    ensures err { OnErr result (joined blocks.new.items ≡ joined blocks.old.items) }
    ensures filled { AllFilled blocks.new.items }
{
    blocks[place.block].insert(place.index, pair)
}

// Splits the block of a place where it is full, and gives the place as it is then.
fn make_room(blocks: &mut Vec<Block>, place: Place) -> Result<Place, AllocError>
    requires block { place.block < length blocks.old.items }
    requires index { place.index < length (block_of blocks.old.items place.block) }
    requires filled { AllFilled blocks.old.items }
    ensures ok { IfOk result (λ to. HasRoom blocks.new.items to.block to.index) }
    ensures same { IfOk result (λ to.
        SameParts blocks.old.items place.block place.index blocks.new.items to.block to.index) }
    ensures err { OnErr result (joined blocks.new.items ≡ joined blocks.old.items) }
    ensures filled { AllFilled blocks.new.items }
{
    if blocks[place.block].len() < BLOCK_PAIRS {
        return Ok(place);
    }
    split(blocks, place.block)?;
    if place.index <= HALF {
        return Ok(place);
    }
    Ok(Place {
        block: place.block + 1,
        index: place.index - HALF,
    })
}

// Splits a full block in two halves.
fn split(blocks: &mut Vec<Block>, block: usize) -> Result<(), AllocError>
    requires block { block < length blocks.old.items }
    requires full { BLOCK_PAIRS ≤ length (block_of blocks.old.items block) }
    ensures ok { OnOk result (blocks.new.items ≡ in_halves blocks.old.items block HALF) }
    ensures err { OnErr result (blocks.new.items ≡ blocks.old.items) }
{
    blocks.reserve(1)?;
    let upper = blocks[block].split_off(HALF)?;
    blocks.insert(block + 1, upper)?;
    Ok(())
}
