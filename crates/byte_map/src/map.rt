//! The map.

ghost use Rattle.std.specs.Prelude.{◌≡◌, [], ◌∷◌, ◌++◌, length, T, option_map, OnOk, OnErr, IsOk, IsErrOf, IsTrue, IfOk, IfErr, ◌↔◌, ◌+◌, ◌<◌, ◌≤◌, ◌^◌, Some};
ghost use Rattle.std.specs.FinMap.Entries.{find, put, is_sorted};
ghost use Rattle.byte_map.specs.Blocks.{joined, before, rest, block_of, value_at, with_value, AllFilled, IsPlace, IsHeld, IsGap};
ghost use Rattle.byte_map.specs.Words.{bytes_cmp, bytes_in, bytes_with, first_of, next_in, pairs_between, without};

use crate::block::Block;
use crate::blocks::{insert, pair_at, place_above, search, set_value};
use crate::counts::count_between;
use crate::drops::drop_range;
use crate::not_put::NotPut;
use crate::pair::Pair;
use crate::place::Place;
use crate::walk::Walk;
use std::alloc::{AllocError, Global};
use std::marker::Model;

/// A map from byte strings to byte strings, seen as the list of its pairs in the order of their keys: byte by byte,
/// and a proper prefix is less.
#[derive(Drop)]
pub struct ByteMap {
    alloc: Global,
    blocks: Vec<Block>,
    pairs: usize,
    size: u64,
}

impl Model for ByteMap {
    ghost use Rattle.byte_map.specs.Words.{Map};
    ghost use Rattle.byte_map.specs.Blocks.{joined, IsLaidOut};

    ghost Value = { Map };

    ghost view = { λ a. joined a.blocks.items };

    ghost invariant = { λ a. IsLaidOut a.blocks.items a.pairs a.size };
}

impl ByteMap {
    /// The empty map. It takes no memory.
    pub fn new(alloc: Global) -> ByteMap
        ensures { result ≡ [] }
    {
        ByteMap {
            alloc,
            blocks: Vec::new(alloc),
            pairs: 0,
            size: 0,
        }
    }

    /// How many pairs it has.
    pub fn count(&self) -> usize
        ensures count { result ≡ length self.now }
        ensures sorted { T (is_sorted bytes_cmp self.now) }
    {
        self.pairs
    }

    /// The bytes of its keys and values.
    pub fn bytes(&self) -> u64
        ensures { result ≡ bytes_in self.now }
    {
        self.size
    }

    /// The value of a key.
    pub fn get(&self, key: &[u8]) -> Option<&[u8]>
        ensures value { option_map (λ value. value.now) result ≡ find bytes_cmp key.now self.now }
        ensures sorted { T (is_sorted bytes_cmp self.now) }
    {
        match search(&self.blocks, key) {
            Ok(place) => Some(self.blocks[place.block].at(place.index).value()),
            Err(_) => None,
        }
    }

    /// The pair with the least key.
    pub fn first(&self) -> Option<(&[u8], &[u8])>
        ensures { option_map (λ pair. (pair.0.now, pair.1.now)) result ≡ first_of self.now }
    {
        match pair_at(&self.blocks, Place { block: 0, index: 0 }) {
            Some(pair) => Some((pair.key(), pair.value())),
            None => None,
        }
    }

    /// The pair with the least key above another.
    pub fn next(&self, after: &[u8]) -> Option<(&[u8], &[u8])>
        ensures { option_map (λ pair. (pair.0.now, pair.1.now)) result
            ≡ next_in bytes_cmp after.now self.now }
    {
        let place = place_above(&self.blocks, after);
        match pair_at(&self.blocks, place) {
            Some(pair) => Some((pair.key(), pair.value())),
            None => None,
        }
    }

    /// A walk over all pairs, in the order of their keys.
    pub fn walk(&self) -> Walk<'_>
        ensures { result ≡ self.now }
    {
        Walk::over(&self.blocks)
    }

    /// How many pairs have a key from one on and below another. It searches twice, and counts whole blocks in between.
    pub fn count_between(&self, from: &[u8], to: &[u8]) -> usize
        ensures { result ≡ length (pairs_between from.now to.now self.now) }
    {
        // No count passes this one.
        let _pairs = self.pairs;
        count_between(&self.blocks, from, to)
    }

    /// Gives a key a value, in place of the one before. A value as long as the one before takes no memory. Where there
    /// is no memory, or the pairs or their bytes would be 2^64 or more, the map stays as it was.
    pub fn put(&mut self, key: &[u8], value: &[u8]) -> Result<(), AllocError>
        ensures ok { OnOk result (self.new ≡ put bytes_cmp key.now value.now self.old) }
        ensures err { OnErr result (self.new ≡ self.old) }
        ensures in_place { option_map length (find bytes_cmp key.now self.old) ≡ Some (length value.now)
            → IsOk result }
    {
        // No more bytes than a `u64` counts.
        let _size = self.size;
        match self.put_within(key, value, 0, u64::MAX) {
            Ok(()) => Ok(()),
            Err(_) => Err(AllocError),
        }
    }

    /// Gives a key a value as `put` does, unless the map would then have more than `most` bytes, with `each` more for
    /// each pair. It searches once, also where it refuses.
    pub fn put_within(
        &mut self,
        key: &[u8],
        value: &[u8],
        each: u64,
        most: u64,
    ) -> Result<(), NotPut>
        requires { bytes_with each self.old ≤ most }
        ensures beyond { IsErrOf result NotPut.Beyond
            ↔ (most < bytes_with each (put bytes_cmp key.now value.now self.old)) }
        ensures ok { OnOk result (self.new ≡ put bytes_cmp key.now value.now self.old) }
        ensures err { OnErr result (self.new ≡ self.old) }
        ensures in_place { option_map length (find bytes_cmp key.now self.old) ≡ Some (length value.now)
            → IsOk result }
    {
        let room = most - (each * self.pairs as u64 + self.size);
        let spot = search(&self.blocks, key);
        if !has_room(&self.blocks, spot, key, value, each, room) {
            return Err(NotPut::Beyond);
        }
        match spot {
            Ok(place) => {
                let size = change(&mut self.blocks, self.alloc, self.size, place, value)?;
                self.size = size;
            }
            Err(place) => {
                let pairs = one_more(self.pairs)?;
                let size = add(&mut self.blocks, self.alloc, self.size, place, key, value)?;
                self.pairs = pairs;
                self.size = size;
            }
        }
        Ok(())
    }

    /// Drops the keys from one up to another, which stays. It takes no memory.
    pub fn drop_range(&mut self, from: &[u8], to: &[u8])
        ensures { self.new ≡ without from.now to.now self.old }
    {
        let dropped = drop_range(&mut self.blocks, from, to);
        self.pairs -= dropped.count;
        self.size -= dropped.bytes;
    }
}

// Whether a pair at its place, with `each` bytes more where it is new, adds no more bytes than there is room for.
fn has_room(
    blocks: &[Block],
    spot: Result<Place, Place>,
    key: &[u8],
    value: &[u8],
    each: u64,
    room: u64,
) -> bool
    requires held { IfOk spot (λ place. IsHeld blocks.now key.now place.block place.index) }
    requires gap { IfErr spot (λ place. IsGap blocks.now key.now place.block place.index) }
    requires sorted { T (is_sorted bytes_cmp (joined blocks.now)) }
    requires fits { bytes_with each (joined blocks.now) + room < 2 ^ 64 }
    ensures { IsTrue result ↔ (bytes_with each (put bytes_cmp key.now value.now (joined blocks.now))
        ≤ bytes_with each (joined blocks.now) + room) }
{
    match spot {
        Ok(place) => {
            let replaced = blocks[place.block].at(place.index).value().len() as u64;
            value.len() as u64 <= room + replaced
        }
        Err(_) => fits_in(room, each, key.len() as u64, value.len() as u64),
    }
}

// Whether these three fit together.
fn fits_in(room: u64, each: u64, key: u64, value: u64) -> bool
    ensures { IsTrue result ↔ (each + (key + value) ≤ room) }
{
    each <= room && key <= room - each && value <= room - each - key
}

// Gives the pair at a place another value, and answers how many bytes there are then.
fn change(
    blocks: &mut Vec<Block>,
    alloc: Global,
    size: u64,
    place: Place,
    value: &[u8],
) -> Result<u64, AllocError>
    requires block { place.block < length blocks.old.items }
    requires index { place.index < length (block_of blocks.old.items place.block) }
    requires filled { AllFilled blocks.old.items }
    requires counted { length (value_at blocks.old.items place.block place.index) ≤ size }
    ensures ok { OnOk result (joined blocks.new.items
        ≡ with_value blocks.old.items place.block place.index value.now) }
    ensures size { IfOk result (λ sum.
        sum + length (value_at blocks.old.items place.block place.index) ≡ size + length value.now) }
    ensures err { OnErr result (joined blocks.new.items ≡ joined blocks.old.items) }
    ensures filled { AllFilled blocks.new.items }
    ensures in_place { length value.now ≡ length (value_at blocks.old.items place.block place.index) → IsOk result }
{
    let replaced = blocks[place.block].at(place.index).value().len() as u64;
    let sum = sum_of(size - replaced, value.len())?;
    set_value(blocks, alloc, place, value)?;
    Ok(sum)
}

// Puts a new pair where it goes, and answers how many bytes there are then.
fn add(
    blocks: &mut Vec<Block>,
    alloc: Global,
    size: u64,
    place: Place,
    key: &[u8],
    value: &[u8],
) -> Result<u64, AllocError>
    requires place { IsPlace blocks.old.items place.block place.index }
    requires filled { AllFilled blocks.old.items }
    ensures ok { OnOk result (joined blocks.new.items ≡ before blocks.old.items place.block place.index
        ++ (key.now, value.now) ∷ rest blocks.old.items place.block place.index) }
    ensures size { IfOk result (λ sum. sum ≡ size + length key.now + length value.now) }
    ensures err { OnErr result (joined blocks.new.items ≡ joined blocks.old.items) }
    ensures filled { AllFilled blocks.new.items }
{
    let sum = sum_of(sum_of(size, key.len())?, value.len())?;
    let pair = Pair::new(alloc, key, value)?;
    insert(blocks, alloc, place, pair)?;
    Ok(sum)
}

// An error where the sum is 2^64 or more.
fn sum_of(size: u64, more: usize) -> Result<u64, AllocError>
    ensures sum { IfOk result (λ sum. sum ≡ size + more) }
    ensures fits { size + more < 2 ^ 64 → IsOk result }
{
    size.checked_add(more as u64).ok_or(AllocError)
}

fn one_more(count: usize) -> Result<usize, AllocError>
    ensures { IfOk result (λ more. more ≡ count + 1) }
{
    count.checked_add(1).ok_or(AllocError)
}
