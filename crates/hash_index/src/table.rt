ghost use Rattle.std.specs.Prelude.{◌≡◌, ◌<◌, ◌≤◌, ◌+◌, ◌*◌, ◌^◌, ◌++◌, ◌∷◌, [], List, length, IfOk, IsSome, max, false};
ghost use Rattle.hash_index.specs.Pairs.{Pair, Agrees, Finds};
ghost use Rattle.hash_index.specs.Slots.{SlotTable, SlotsStandFor, told_pair, known_pair, known_pairs};

use crate::probe;
use crate::slot::Slot;
use crate::traits::Digests;
use groundwork::Memory;
use std::alloc::Global;
use std::marker::Model;

/// The slots of a table that was made to hold ids, even if there are few.
pub const LEAST_SLOTS: usize = 64;

/// How many slots a held pair has where a table is made for more.
pub const SLOTS_A_PAIR: usize = 4;

/// Slots, of which at most half hold an id.
#[derive(Drop)]
pub struct Table {
    cells: Vec<Slot>,
    used: usize,
}

impl Model for Table {
    ghost use Rattle.std.specs.Prelude.{◌≡◌, ◌≤◌, ◌*◌, length, count_by};
    ghost use Rattle.hash_index.specs.Slots.{SlotTable};
    ghost use Rattle.hash_index.specs.Probe.{is_used};

    ghost Value = { SlotTable };

    ghost view = { λ t. record { slots = t.cells.items; held = t.used } };

    ghost invariant = { λ t. (count_by is_used t.cells.items ≡ t.used) × (2 * t.used ≤ length t.cells.items) };
}

/// The digest of what a slot holds, where it holds an id that is known.
fn known_digest<T: Digests>(id: u64, tells: &T) -> Option<[u8; 32]>
    ensures pair { known_pair (T.digest_of tells.now) id ≡ told_pair result id }
    ensures used { IsSome result → 0 < id }
{
    if id == 0 { None } else { tells.digest_of(id) }
}

impl Table {
    /// A table of no slots. Takes no memory.
    pub fn new(alloc: Global) -> Table
        ensures { result ≡ record { slots = []; held = 0 } }
    {
        Table {
            cells: Vec::new(alloc),
            used: 0,
        }
    }

    /// Empty slots.
    fn with_slots(alloc: Global, count: usize) -> Result<Table, Memory>
        ensures slots { IfOk result (λ t. length t.slots ≡ count) }
        ensures held { IfOk result (λ t. t.held ≡ 0) }
        ensures empty { IfOk result (λ t. SlotsStandFor t []) }
    {
        let mut cells = Vec::with_capacity(alloc, count)?;
        for _step in 0..count {
            cells.push(Slot::new(0))?;
        }
        Ok(Table { cells, used: 0 })
    }

    /// How many slots there are.
    pub fn slots(&self) -> usize
        ensures { result ≡ length self.now.slots }
    {
        self.cells.len()
    }

    /// How many slots hold an id.
    pub fn held(&self) -> usize
        ensures { result ≡ self.now.held }
    {
        self.used
    }

    /// Whether one more id would fill more than half of the slots.
    pub fn is_full(&self) -> bool
        ensures { result ≡ false → 2 * (self.now.held + 1) ≤ length self.now.slots }
    {
        self.cells.len() / 2 <= self.used
    }

    /// The least held id above `after` with this digest that `tells` knows.
    pub fn find<T: Digests>(&self, digest: &[u8; 32], after: u64, tells: &T) -> Option<u64>
        ensures { (pairs : List Pair) → SlotsStandFor self.now pairs → Agrees (T.digest_of tells.now) pairs
            → Finds (T.digest_of tells.now) pairs digest.now after result }
    {
        if self.cells.is_empty() {
            return None;
        }
        let home = probe::home(self.cells.len(), digest);
        probe::least_in_run(&self.cells, home, digest, after, tells)
    }

    /// Puts the id into the first empty slot from the home of its digest on.
    pub fn place(&mut self, digest: &[u8; 32], id: u64)
        requires least { 0 < id }
        requires most { id < 2 ^ 48 }
        requires room { 2 * (self.old.held + 1) ≤ length self.old.slots }
        ensures slots { length self.new.slots ≡ length self.old.slots }
        ensures held { self.new.held ≡ self.old.held + 1 }
        ensures added { (pairs : List Pair) → SlotsStandFor self.old pairs
            → SlotsStandFor self.new (pairs ++ (digest.now, id) ∷ []) }
    {
        let home = probe::home(self.cells.len(), digest);
        let place = probe::vacancy(&self.cells, home);
        self.cells[place] = Slot::new(id);
        self.used += 1;
    }

    /// How many of the held ids are known.
    fn known_count<T: Digests>(&self, tells: &T) -> usize
        ensures value { result ≡ length (known_pairs (T.digest_of tells.now) self.now.slots) }
        ensures half { 2 * result ≤ length self.now.slots }
        ensures fits { result < 2 ^ 62 }
    {
        let mut known = 0;
        for cell in &self.cells {
            if known_digest(cell.id(), tells).is_some() {
                known += 1;
            }
        }
        known
    }

    /// A table of the known ids, with room for more.
    pub fn rebuilt<T: Digests>(&self, alloc: Global, tells: &T) -> Result<Table, Memory>
        ensures slots { IfOk result (λ t. length t.slots ≡ max 64 (4 * t.held)) }
        ensures pairs { IfOk result (λ t. SlotsStandFor t (known_pairs (T.digest_of tells.now) self.now.slots)) }
    {
        let known = self.known_count(tells);
        let mut table = Table::with_slots(alloc, usize::max(LEAST_SLOTS, SLOTS_A_PAIR * known))?;
        table.place_known(&self.cells, tells);
        Ok(table)
    }

    /// Places the known ids of the slots.
    fn place_known<T: Digests>(&mut self, slots: &[Slot], tells: &T)
        requires empty { SlotsStandFor self.old [] }
        requires room { 2 * length (known_pairs (T.digest_of tells.now) slots.now) ≤ length self.old.slots }
        ensures slots { length self.new.slots ≡ length self.old.slots }
        ensures pairs { SlotsStandFor self.new (known_pairs (T.digest_of tells.now) slots.now) }
    {
        for slot in slots {
            let id = slot.id();
            if let Some(digest) = known_digest(id, tells) {
                self.place(&digest, id);
            }
        }
    }
}
