ghost use Rattle.std.specs.Prelude.{◌≡◌, ◌<◌, ◌≤◌, ◌^◌, ◌↔◌, ◌∷◌, [], ℕ, List, Option, OnOk, OnErr, MatchOption, IsTrue};
ghost use Rattle.hash_index.specs.Pairs.{Pair};
ghost use Rattle.hash_index.specs.Ordered.{has, OrderedStandsFor};

use crate::traits::{Digests, Index};
use groundwork::Memory;
use std::alloc::Global;
use std::collections::BTreeSet;
use std::marker::Model;

/// An index that keeps its pairs in an ordered set: a search goes down the tree.
#[derive(Drop)]
pub struct OrderedIndex {
    pairs: BTreeSet<([u8; 32], u64)>,
}

impl Model for OrderedIndex {
    ghost use Rattle.std.specs.Prelude.{List};
    ghost use Rattle.hash_index.specs.Pairs.{Pair};

    ghost Value = { List Pair };

    ghost view = { λ a. a.pairs.keys };
}

impl OrderedIndex {
    /// An index that holds nothing. Takes no memory.
    pub fn new(alloc: Global) -> OrderedIndex
        ensures value { result ≡ [] }
        ensures stands { OrderedStandsFor result [] }
    {
        OrderedIndex {
            pairs: BTreeSet::new(alloc),
        }
    }

    /// The least held id above `after` with this digest, known or not.
    fn next_id(&self, digest: &[u8; 32], after: u64) -> Option<u64>
        ensures { MatchOption result
            ((id : ℕ) → after < id → id < 2 ^ 64 → IsTrue (has self.now (digest.now, id)) → ⊥)
            (λ id. (after < id) × IsTrue (has self.now (digest.now, id))
            × ((other : ℕ) → after < other → IsTrue (has self.now (digest.now, other)) → id ≤ other)) }
    {
        let from = after.checked_add(1)?;
        let Some(pair) = self.pairs.range((*digest, from)..).next() else {
            return None;
        };
        if pair.0 == *digest {
            Some(pair.1)
        } else {
            None
        }
    }
}

impl Index for OrderedIndex {
    ghost stands_for = { λ s pairs. OrderedStandsFor s pairs };

    fn find<T: Digests>(&self, digest: &[u8; 32], after: u64, tells: &T) -> Option<u64> {
        let mut last = after;
        while let Some(id) = self.next_id(digest, last) {
            if tells.digest_of(id).is_some() {
                return Some(id);
            }
            last = id;
        }
        None
    }

    fn insert<T: Digests>(&mut self, digest: &[u8; 32], id: u64, _tells: &T) -> Result<(), Memory> {
        self.pairs.insert((*digest, id))?;
        Ok(())
    }

    fn clear(&mut self) {
        self.pairs.clear();
    }
}
