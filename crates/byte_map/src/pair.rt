//! A key and its value in one piece of memory.

ghost use Rattle.std.specs.Prelude.{◌≡◌, ℕ, ◌≤◌, List, take, drop, length, IfOk, IsOk, OnOk, OnErr};
ghost use Rattle.std.specs.Ordering.{is_eq, is_lt};
ghost use Rattle.byte_map.specs.Words.{bytes_cmp};

use std::alloc::{AllocError, Global};
use std::marker::Model;

/// A key and its value, seen as a pair of their bytes.
#[derive(Drop)]
pub struct Pair {
    bytes: Vec<u8>,
    key_length: usize,
}

impl Model for Pair {
    ghost Value = { List ℕ × List ℕ };

    ghost view = { λ p. (take p.key_length p.bytes.items, drop p.key_length p.bytes.items) };

    ghost invariant = { λ p. p.key_length ≤ length p.bytes.items };
}

impl Pair {
    pub fn new(alloc: Global, key: &[u8], value: &[u8]) -> Result<Pair, AllocError>
        ensures { IfOk result (λ pair. pair ≡ (key.now, value.now)) }
    {
        let mut bytes = Vec::with_capacity(alloc, key.len() + value.len())?;
        bytes.extend_from_slice(key)?;
        bytes.extend_from_slice(value)?;
        Ok(Pair {
            bytes,
            key_length: key.len(),
        })
    }

    pub fn key(&self) -> &[u8]
        ensures { result.now ≡ self.now.0 }
    {
        &self.bytes[..self.key_length]
    }

    pub fn value(&self) -> &[u8]
        ensures { result.now ≡ self.now.1 }
    {
        &self.bytes[self.key_length..]
    }

    /// Whether its key is below another.
    pub fn is_below(&self, key: &[u8]) -> bool
        ensures { result ≡ is_lt (bytes_cmp self.now.0 key.now) }
    {
        self.key().cmp(key).is_lt()
    }

    pub fn has_key(&self, key: &[u8]) -> bool
        ensures { result ≡ is_eq (bytes_cmp self.now.0 key.now) }
    {
        self.key().cmp(key).is_eq()
    }

    /// A value of the same length takes no memory.
    pub fn set_value(&mut self, alloc: Global, value: &[u8]) -> Result<(), AllocError>
        ensures ok { OnOk result (self.new ≡ (self.old.0, value.now)) }
        ensures err { OnErr result (self.new ≡ self.old) }
        ensures in_place { length value.now ≡ length self.old.1 → IsOk result }
    {
        if value.len() == self.value().len() {
            self.bytes[self.key_length..].copy_from_slice(value);
            return Ok(());
        }
        let changed = Pair::new(alloc, self.key(), value)?;
        *self = changed;
        Ok(())
    }
}
