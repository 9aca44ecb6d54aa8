//! A block of pairs.

ghost use Rattle.std.specs.Prelude.{◌≡◌, ◌<◌, ◌≤◌, ◌+◌, ◌++◌, ◌∷◌, ◌^◌, [], length, take, drop, insert, slice_set, slice_index_or, IfOk, IsOk, OnOk, OnErr, T};
ghost use Rattle.std.specs.FinMap.Entries.{is_sorted};
ghost use Rattle.byte_map.specs.Blocks.{AllBelow, NoneBelow, ends_below, key_below};
ghost use Rattle.byte_map.specs.Words.{bytes_cmp, bytes_in};

use crate::limits::BLOCK_PAIRS;
use crate::pair::Pair;
use std::alloc::{AllocError, Global};
use std::marker::Model;

/// At most `BLOCK_PAIRS` pairs, seen as the list of them.
#[derive(Drop)]
pub struct Block {
    pairs: Vec<Pair>,
}

impl Model for Block {
    ghost use Rattle.std.specs.Prelude.{◌≤◌, length};
    ghost use Rattle.byte_map.specs.Words.{Map};
    ghost use Rattle.byte_map.specs.declared.limits.TheConstants.{BLOCK_PAIRS};

    ghost Value = { Map };

    ghost view = { λ a. a.pairs.items };

    ghost invariant = { λ a. length a.pairs.items ≤ BLOCK_PAIRS };
}

impl Block {
    /// A block of one pair.
    pub fn of(alloc: Global, pair: Pair) -> Result<Block, AllocError>
        ensures { IfOk result (λ block. block ≡ pair ∷ []) }
    {
        let mut pairs = Vec::new(alloc);
        pairs.push(pair)?;
        Ok(Block { pairs })
    }

    pub fn len(&self) -> usize
        ensures len { result ≡ length self.now }
        ensures few { length self.now ≤ BLOCK_PAIRS }
    {
        self.pairs.len()
    }

    pub fn at(&self, index: usize) -> &Pair
        requires { index < length self.now }
        ensures { result.now ≡ slice_index_or self.now index ([], []) }
    {
        &self.pairs[index]
    }

    /// Whether the last key is below another; it is where there is none.
    pub fn ends_below(&self, key: &[u8]) -> bool
        ensures { result ≡ ends_below key.now self.now }
    {
        match self.pairs.last() {
            Some(pair) => pair.is_below(key),
            None => true,
        }
    }

    /// The index of the first key that is not below another.
    pub fn lower_bound(&self, key: &[u8]) -> usize
        requires { T (is_sorted bytes_cmp self.now) }
        ensures within { result ≤ length self.now }
        ensures lesser { AllBelow key.now (take result self.now) }
        ensures others { NoneBelow key.now (drop result self.now) }
    {
        self.pairs.partition_point(
            |pair: &Pair| -> bool
                ensures { result ≡ key_below key.entry.now pair.now }
            { pair.is_below(key) },
        )
    }

    /// A value of the same length takes no memory.
    pub fn set_value(&mut self, alloc: Global, index: usize, value: &[u8]) -> Result<(), AllocError>
        requires { index < length self.old }
        ensures ok { let pair = slice_index_or self.old index ([], []) in
            OnOk result (self.new ≡ slice_set self.old index (pair.0, value.now)) }
        ensures err { OnErr result (self.new ≡ self.old) }
        ensures in_place { let pair = slice_index_or self.old index ([], []) in
            length value.now ≡ length pair.1 → IsOk result }
    {
        self.pairs[index].set_value(alloc, value)
    }

    pub fn insert(&mut self, index: usize, pair: Pair) -> Result<(), AllocError>
        requires in_range { index ≤ length self.old }
        requires room { length self.old < BLOCK_PAIRS }
        ensures ok { OnOk result (self.new ≡ insert self.old index pair) }
        ensures err { OnErr result (self.new ≡ self.old) }
    {
        self.pairs.insert(index, pair)?;
        Ok(())
    }

    /// Keeps the pairs below an index, and gives the others.
    pub fn split_off(&mut self, index: usize) -> Result<Block, AllocError>
        requires { index ≤ length self.old }
        ensures kept { OnOk result (self.new ≡ take index self.old) }
        ensures given { IfOk result (λ upper. upper ≡ drop index self.old) }
        ensures err { OnErr result (self.new ≡ self.old) }
    {
        let pairs = self.pairs.split_off(index)?;
        Ok(Block { pairs })
    }

    /// Drops the pairs from an index up to another, and answers their bytes.
    pub fn drop_between(&mut self, from: usize, to: usize) -> u64
        requires order { from ≤ to }
        requires in_range { to ≤ length self.old }
        requires fits { bytes_in self.old < 2 ^ 64 }
        ensures rest { self.new ≡ take from self.old ++ drop to self.old }
        ensures bytes { bytes_in self.new + result ≡ bytes_in self.old }
    {
        let bytes = bytes_of(&self.pairs[from..to]);
        self.pairs.drain(from..to);
        bytes
    }

    /// The bytes of its keys and values.
    pub fn bytes(&self) -> u64
        requires { bytes_in self.now < 2 ^ 64 }
        ensures { result ≡ bytes_in self.now }
    {
        bytes_of(&self.pairs)
    }
}

fn bytes_of(pairs: &[Pair]) -> u64
    requires { bytes_in pairs.now < 2 ^ 64 }
    ensures { result ≡ bytes_in pairs.now }
{
    let mut bytes = 0;
    for pair in pairs {
        bytes += pair.key().len() as u64 + pair.value().len() as u64;
    }
    bytes
}
