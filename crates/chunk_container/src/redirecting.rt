//! Rows are redirected to others that have the same chunk.

ghost use Rattle.std.specs.Prelude.{◌≡◌, ◌≤◌, ◌<◌, ◌+◌, ◌^◌, ℕ, false, Some, IsSome, IsSomeAnd, IsTrue, OnOk};
ghost use Rattle.std.specs.Ordering.{nat_cmp};
ghost use Rattle.std.specs.FinMap.{find};
ghost use Rattle.groundwork.specs.declared.limits.TheConstants.{LAST_ID};
ghost use Rattle.table_records.specs.declared.chunk_records.Row.{Row as RowRecord};
ghost use Rattle.volume_inside.specs.ChunkChanges.{IsRedirected};
ghost use Rattle.volume_inside.specs.Chunks.{own_chunk};
ghost use Rattle.volume_tables.specs.declared.room.TheConstants.{MOST_RECORDS};
ghost use Rattle.volume_tables.specs.Sound.{IsSound};
ghost use Rattle.volume_tables.specs.Tables.{tables_now, view_now, states_of, staged_of, disk_of, stopped, Leaves};
ghost use Rattle.chunk_container.specs.Bases.{bases_now};
ghost use Rattle.chunk_container.specs.Calls.{IsRowCall};
ghost use Rattle.chunk_container.specs.Rows.{IsRedirectable, redirected, redirect_needs, redirect_bytes};

use crate::store::Store;
use plain_volume::Fault;
use vdisk::Disk;
use volume_tables::{Row, Tables, make_room};

/// Sets the redirect of a row that is there, and drops the copies of it.
fn put_redirect<D: Disk>(tables: &mut Tables<D>, id: u64, row: Row, to: u64)
    requires there { IsSome (find nat_cmp id (tables_now tables.old).chunks.rows) }
    requires id { id ≤ LAST_ID }
    requires room { staged_of tables.old + 89 ≤ MOST_RECORDS }
    ensures tables { tables_now tables.new ≡ redirected id to row (tables_now tables.old) }
    ensures leaves { Leaves tables.old tables.new }
    ensures staged { staged_of tables.new ≡ staged_of tables.old + redirect_bytes }
    ensures states { states_of tables.new ≡ states_of tables.old }
    ensures image { (disk_of tables.new).image ≡ (disk_of tables.old).image }
    ensures running { stopped tables.new ≡ stopped tables.old }
{
    let redirected = Row {
        redirect: to,
        ..row
    };
    tables.set_row(id, redirected).unwrap();
    tables.drop_place((id, 0), Some((id + 1, 0)));
}

impl<D: Disk> Store<D> {
    ghost use Rattle.chunk_container.specs.Stores.{tables_of, open_in};

    /// Redirects a row to another one that stands for it from then on, and drops its copies. It takes no memory. Where
    /// both rows have the same chunk, each row keeps its chunk, and no file sees it.
    ///
    /// The faults: `Worn` where a commit must come first and is worn, `Failed`.
    pub fn redirect(&mut self, id: u64, to: u64) -> Result<(), Fault>
        requires running { stopped (tables_of self.old) ≡ false }
        requires sound { IsSound (tables_of self.old) }
        requires may { IsSomeAnd (find nat_cmp id (tables_now (tables_of self.old)).chunks.rows)
            (IsRedirectable (tables_now (tables_of self.old)).chunks.rows id to) }
        ensures call { (row : RowRecord) → find nat_cmp id (tables_now (tables_of self.old)).chunks.rows ≡ Some row →
            IsRowCall ⊥ (redirected id to row) redirect_needs redirect_bytes (tables_of self.old) (tables_of self.new)
            result }
        ensures sound { IsSound (tables_of self.new) }
        ensures alike { (row target : RowRecord) →
            find nat_cmp id (tables_now (tables_of self.old)).chunks.rows ≡ Some row →
            find nat_cmp to (tables_now (tables_of self.old)).chunks.rows ≡ Some target →
            own_chunk (bases_now (tables_of self.old)) to target ≡ own_chunk (bases_now (tables_of self.old)) id row →
            OnOk result (IsRedirected (bases_now (tables_of self.old)) (bases_now (tables_of self.new)) id to row target) }
        ensures view { (row target : RowRecord) →
            find nat_cmp id (tables_now (tables_of self.old)).chunks.rows ≡ Some row →
            find nat_cmp to (tables_now (tables_of self.old)).chunks.rows ≡ Some target →
            own_chunk (bases_now (tables_of self.old)) to target ≡ own_chunk (bases_now (tables_of self.old)) id row →
            IsTrue (disk_of (tables_of self.old)).tells → view_now (tables_of self.new) ≡ view_now (tables_of self.old) }
        ensures open { open_in self.new ≡ open_in self.old }
    {
        let row = self.tables.get_row(id).unwrap();
        make_room(&mut self.tables, false, 0, 89, 0)?;
        put_redirect(&mut self.tables, id, row, to);
        Ok(())
    }
}
