ghost use Rattle.std.specs.Prelude.{◌≡◌, ◌<◌, ◌≤◌, ◌+◌, ◌*◌, [], List, length, OnOk, OnErr, max};
ghost use Rattle.hash_index.specs.Pairs.{Pair, Agrees, Keeps};
ghost use Rattle.hash_index.specs.Slots.{SlotTable, SlotsStandFor};

use crate::table::Table;
use crate::traits::{Digests, Index};
use groundwork::Memory;
use std::alloc::Global;
use std::marker::Model;

/// An index that keeps the ids alone, six bytes a slot, and asks [`Digests`] for the digest of an id.
///
/// An id stands in the first slot that was empty when it came, from the home of its digest on, going round. The home is
/// the number that the first eight bytes of the digest spell, the high byte first, wrapped to the count of slots. So
/// digests that are spread in these bytes have their homes spread, and since at most half of the slots are filled, a
/// search passes a few slots on average. A search ends at the first empty slot: ids with one digest stand in one run of
/// filled slots, and they cost a search for another digest no more than their own number, and that only where its
/// home lies in that run.
#[derive(Drop)]
pub struct CompactIndex {
    alloc: Global,
    table: Table,
}

impl Model for CompactIndex {
    ghost use Rattle.std.specs.Prelude.{◌≤◌, ◌*◌, length, max};
    ghost use Rattle.hash_index.specs.Slots.{SlotTable};

    ghost Value = { SlotTable };

    ghost view = { λ a. a.table };

    ghost invariant = { λ a. length a.table.slots ≤ max 64 (4 * a.table.held) };
}

impl CompactIndex {
    /// An index that holds nothing. Takes no memory.
    pub fn new(alloc: Global) -> CompactIndex
        ensures value { result ≡ record { slots = []; held = 0 } }
        ensures stands { SlotsStandFor result [] }
    {
        CompactIndex {
            alloc,
            table: Table::new(alloc),
        }
    }

    /// How many slots the index has, of six bytes each.
    pub fn slots(&self) -> usize
        ensures value { result ≡ length self.now.slots }
        ensures bound { result ≤ max 64 (4 * self.now.held) }
    {
        self.table.slots()
    }

    /// How many pairs the index holds, known or not.
    pub fn held(&self) -> usize
        ensures value { result ≡ self.now.held }
        ensures pairs { (pairs : List Pair) → SlotsStandFor self.now pairs → result ≡ length pairs }
    {
        self.table.held()
    }

    /// Makes a table of the known ids, with room for more.
    fn make_room<T: Digests>(&mut self, tells: &T) -> Result<(), Memory>
        ensures room { OnOk result (2 * (self.new.held + 1) ≤ length self.new.slots) }
        ensures kept { OnOk result ((pairs : List Pair) → SlotsStandFor self.old pairs
            → Agrees (T.digest_of tells.now) pairs
            → (kept : List Pair) × Keeps (T.digest_of tells.now) pairs kept × SlotsStandFor self.new kept) }
        ensures refused { OnErr result (self.new ≡ self.old) }
    {
        self.table = self.table.rebuilt(self.alloc, tells)?;
        Ok(())
    }
}

impl Index for CompactIndex {
    ghost stands_for = { SlotsStandFor };

    fn find<T: Digests>(&self, digest: &[u8; 32], after: u64, tells: &T) -> Option<u64> {
        self.table.find(digest, after, tells)
    }

    fn insert<T: Digests>(&mut self, digest: &[u8; 32], id: u64, tells: &T) -> Result<(), Memory> {
        if self.table.is_full() {
            self.make_room(tells)?;
        }
        self.table.place(digest, id);
        Ok(())
    }

    fn clear(&mut self) {
        self.table = Table::new(self.alloc);
    }
}
