//! Copies of rows are added, and copies and rows are dropped.

ghost use Rattle.std.specs.Prelude.{◌≡◌, ◌≤◌, ◌<◌, ◌+◌, ◌^◌, ℕ, false, None, IsSomeAnd, IsTrue};
ghost use Rattle.std.specs.Ordering.{nat_cmp};
ghost use Rattle.std.specs.FinMap.{find};
ghost use Rattle.groundwork.specs.declared.limits.TheConstants.{LAST_ID};
ghost use Rattle.table_records.specs.Keys.{pair_cmp};
ghost use Rattle.volume_inside.specs.Changes.{with_place};
ghost use Rattle.volume_inside.specs.ChunkRules.{PlaceOfHolds};
ghost use Rattle.volume_inside.specs.Chunks.{chunk};
ghost use Rattle.volume_tables.specs.declared.room.TheConstants.{MOST_RECORDS};
ghost use Rattle.volume_tables.specs.Setters.{IsDroppedIn};
ghost use Rattle.volume_tables.specs.Sound.{IsSound};
ghost use Rattle.volume_tables.specs.Tables.{tables_now, view_now, states_of, staged_of, disk_of, stopped, new_bytes};
ghost use Rattle.chunk_container.specs.Bases.{bases_now, IsOutOfMaps};
ghost use Rattle.chunk_container.specs.Calls.{IsRowCall, IsSoundWithout};
ghost use Rattle.chunk_container.specs.Rows.{copy_at as number_at, copy_needs, without_copy, without_row};
ghost use Rattle.chunk_container.specs.Rows.{IsUntargeted, IsUnmapped, AreOthersGone};

use crate::store::Store;
use plain_volume::Fault;
use vdisk::Disk;
use volume_inside::HOT_CONTAINER;
use volume_tables::{Place, Tables, make_room};

/// The number of the copy that lies at a place.
fn copy_at<D: Disk>(tables: &Tables<D>, place: Place) -> u8
    ensures { result ≡ number_at (tables_now tables.now).chunks.containers place }
{
    match tables.get_container(place.container) {
        Some(container) if container.kind == HOT_CONTAINER => 1,
        _ => 0,
    }
}

/// By how many bytes a copy makes a checkpoint longer.
fn copy_grows<D: Disk>(tables: &Tables<D>, key: (u64, u8)) -> u64
    ensures { result ≡ new_bytes (find pair_cmp key (tables_now tables.now).chunks.places) 27 }
{
    match tables.get_place(key) {
        Some(_) => 0,
        None => 27,
    }
}

/// Puts a copy, in the place of one with its number.
fn put_copy<D: Disk>(tables: &mut Tables<D>, id: u64, copy: u8, place: Place) -> Result<(), Fault>
    requires running { stopped tables.old ≡ false }
    requires sound { IsSound tables.old }
    requires there { IsSomeAnd (find nat_cmp id (tables_now tables.old).chunks.rows)
        (PlaceOfHolds (tables_now tables.old).chunks.containers copy place) }
    ensures call { IsRowCall (find pair_cmp (id, copy) (tables_now tables.old).chunks.places ≡ None)
        (with_place (id, copy) place) (copy_needs (id, copy) (tables_now tables.old)) 27 tables.old tables.new result }
    ensures view { IsTrue (disk_of tables.old).tells → chunk (bases_now tables.new) id ≡ chunk (bases_now tables.old) id →
        view_now tables.new ≡ view_now tables.old }
{
    let grows = copy_grows(tables, (id, copy));
    make_room(tables, false, grows, 27, 0)?;
    tables.set_place((id, copy), place)
}

impl<D: Disk> Store<D> {
    ghost use Rattle.chunk_container.specs.Stores.{tables_of, open_in};

    /// Puts a copy of a row that lies at this place: its second one in a container of second copies, and else its first
    /// one. A place of that copy that stood there is replaced, which takes no memory. Where the row keeps its chunk, no
    /// file sees it. The tables stay sound where the maps of files are as they should be with that copy.
    ///
    /// The faults, in this order: `TableFull`, `Worn` where a commit must come first and is worn, `Failed`; and `Memory`.
    pub fn add_copy(&mut self, id: u64, place: Place) -> Result<(), Fault>
        requires running { stopped (tables_of self.old) ≡ false }
        requires sound { IsSound (tables_of self.old) }
        requires there { IsSomeAnd (find nat_cmp id (tables_now (tables_of self.old)).chunks.rows)
            (PlaceOfHolds (tables_now (tables_of self.old)).chunks.containers
            (number_at (tables_now (tables_of self.old)).chunks.containers place) place) }
        ensures call { (copy : ℕ) → copy ≡ number_at (tables_now (tables_of self.old)).chunks.containers place →
            IsRowCall (find pair_cmp (id, copy) (tables_now (tables_of self.old)).chunks.places ≡ None)
            (with_place (id, copy) place) (copy_needs (id, copy) (tables_now (tables_of self.old))) 27
            (tables_of self.old) (tables_of self.new) result }
        ensures view { IsTrue (disk_of (tables_of self.old)).tells →
            chunk (bases_now (tables_of self.new)) id ≡ chunk (bases_now (tables_of self.old)) id →
            view_now (tables_of self.new) ≡ view_now (tables_of self.old) }
        ensures open { open_in self.new ≡ open_in self.old }
    {
        let copy = copy_at(&self.tables, place);
        put_copy(&mut self.tables, id, copy, place)
    }

    /// Drops a copy of a row, if it is there. Room for 25 bytes of records was ensured. It takes no memory.
    ///
    /// The tables stay sound where it is a second copy, and once a row is gone and all its copies too.
    pub fn drop_copy(&mut self, id: u64, copy: u8)
        requires few { copy ≤ 1 }
        requires room { staged_of (tables_of self.old) + 25 ≤ MOST_RECORDS }
        ensures dropped { IsDroppedIn (without_copy (id, copy)) 25 (states_of (tables_of self.old))
            (tables_of self.old) (tables_of self.new) }
        ensures second { IsSound (tables_of self.old) → copy ≡ 1 → IsSound (tables_of self.new) }
        ensures without { IsSoundWithout id (tables_of self.old) → IsSoundWithout id (tables_of self.new) }
        ensures last { IsSoundWithout id (tables_of self.old) →
            AreOthersGone (tables_now (tables_of self.old)).chunks.places (id, copy) → IsSound (tables_of self.new) }
        ensures open { open_in self.new ≡ open_in self.old }
    {
        self.tables.drop_place((id, copy), Some((id, copy + 1)));
    }

    /// Drops a row, if it is there, and leaves its copies. Room for 23 bytes of records was ensured. It takes no memory.
    ///
    /// The tables stay sound where no copy, no redirect, no file and no map of one names the row. Where copies of it are left, they are
    /// sound once these are dropped.
    pub fn drop_row(&mut self, id: u64)
        requires id { id ≤ LAST_ID }
        requires room { staged_of (tables_of self.old) + 23 ≤ MOST_RECORDS }
        ensures dropped { IsDroppedIn (without_row id) 23 (states_of (tables_of self.old))
            (tables_of self.old) (tables_of self.new) }
        ensures without { IsSound (tables_of self.old) → IsUntargeted (tables_now (tables_of self.old)).chunks.rows id →
            IsUnmapped (tables_now (tables_of self.old)).files id → IsOutOfMaps (tables_of self.old) id →
            IsSoundWithout id (tables_of self.new) }
        ensures alone { IsSound (tables_of self.old) → IsUntargeted (tables_now (tables_of self.old)).chunks.rows id →
            IsUnmapped (tables_now (tables_of self.old)).files id → IsOutOfMaps (tables_of self.old) id →
            ((copy : ℕ) → find pair_cmp (id, copy) (tables_now (tables_of self.old)).chunks.places ≡ None) →
            IsSound (tables_of self.new) }
        ensures open { open_in self.new ≡ open_in self.old }
    {
        self.tables.drop_row(id, Some(id + 1));
    }
}
