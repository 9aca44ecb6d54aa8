//! Rows are added.

ghost use Rattle.std.specs.Prelude.{◌≡◌, ◌≤◌, ◌+◌, false, IfOk, IsErrOf, IsTrue, OnOk, OnErr};
ghost use Rattle.volume_inside.specs.ChunkChanges.{Extends};
ghost use Rattle.volume_inside.specs.ChunkRules.{PlaceOfHolds};
ghost use Rattle.volume_inside.specs.Layout.{half_bytes};
ghost use Rattle.volume_inside.specs.Rules.{next_id_of, RulesHold};
ghost use Rattle.volume_tables.specs.declared.room.TheConstants.{MOST_RECORDS};
ghost use Rattle.volume_tables.specs.Sound.{IsSound};
ghost use Rattle.volume_tables.specs.Tables.{clusters_in, tables_now, view_now, states_of, staged_of, checkpoint_of};
ghost use Rattle.volume_tables.specs.Tables.{disk_of, stopped, Leaves};
ghost use Rattle.volume_tables.specs.Wants.{last_id};
ghost use Rattle.chunk_container.specs.Bases.{bases_now, HasFirstCopy};
ghost use Rattle.chunk_container.specs.Calls.{IsRowCall};
ghost use Rattle.chunk_container.specs.Rows.{IsNewRow, with_new_row, row_needs, row_bytes, without_id};

use crate::store::Store;
use plain_volume::Fault;
use vdisk::Disk;
use volume_tables::{Place, Row, Tables, make_room};

/// Puts a new row and its first copy, and draws its id. The fault is `Memory`, and then the tables are as they were.
fn put_row<D: Disk>(tables: &mut Tables<D>, row: Row, place: Place) -> Result<(), Fault>
    requires rules { RulesHold (clusters_in tables.old) (tables_now tables.old) }
    requires room { staged_of tables.old + 132 ≤ MOST_RECORDS }
    requires fits { checkpoint_of tables.old + 91 ≤ half_bytes (clusters_in tables.old) }
    requires ids { next_id_of (tables_now tables.old) ≡ last_id → ⊥ }
    ensures ok { OnOk result (tables_now tables.new ≡ with_new_row row place (tables_now tables.old)) }
    ensures err { OnErr result (tables_now tables.new ≡ tables_now tables.old) }
    ensures refused { OnErr result (IsErrOf result Fault.Memory) }
    ensures leaves { Leaves tables.old tables.new }
    ensures staged { OnOk result (staged_of tables.new ≡ staged_of tables.old + row_bytes) }
    ensures states { states_of tables.new ≡ states_of tables.old }
    ensures image { (disk_of tables.new).image ≡ (disk_of tables.old).image }
    ensures running { stopped tables.new ≡ stopped tables.old }
{
    let id = tables.stored_next_id();
    tables.set_row(id, row)?;
    if let Err(fault) = tables.set_place((id, 0), place) {
        tables.drop_row(id, Some(id + 1));
        return Err(fault);
    }
    tables.next_id().unwrap();
    Ok(())
}

/// Adds a row to tables, with its first copy.
fn add<D: Disk>(tables: &mut Tables<D>, row: Row, place: Place) -> Result<(), Fault>
    requires running { stopped tables.old ≡ false }
    requires sound { IsSound tables.old }
    requires new { IsNewRow row }
    requires place { PlaceOfHolds (tables_now tables.old).chunks.containers 0 place row }
    ensures call { IsRowCall (Unit {0}) (with_new_row row place) row_needs row_bytes tables.old tables.new result }
    ensures sound { IsSound tables.new }
    ensures extends { OnOk result (Extends (bases_now tables.old) (bases_now tables.new)) }
    ensures view { IsTrue (disk_of tables.old).tells → view_now tables.new ≡ view_now tables.old }
{
    make_room(tables, true, 91, 132, 0)?;
    put_row(tables, row, place)
}

impl<D: Disk> Store<D> {
    ghost use Rattle.chunk_container.specs.Stores.{tables_of, open_in};

    /// Adds a row, which draws the next id, and whose first copy lies at this place. No file sees it. In the clauses a
    /// disk tells what it holds where its content is known.
    ///
    /// The faults, in this order: `Worn` where no id is left, `TableFull`, `Worn` where a commit must come first and is
    /// worn, `Failed`; and `Memory`.
    pub fn add_row(&mut self, row: Row, place: Place) -> Result<u64, Fault>
        requires running { stopped (tables_of self.old) ≡ false }
        requires sound { IsSound (tables_of self.old) }
        requires new { IsNewRow row }
        requires place { PlaceOfHolds (tables_now (tables_of self.old)).chunks.containers 0 place row }
        ensures id { IfOk result (λ id. id ≡ next_id_of (tables_now (tables_of self.old))) }
        ensures call { IsRowCall (Unit {0}) (with_new_row row place) row_needs row_bytes
            (tables_of self.old) (tables_of self.new) (without_id result) }
        ensures sound { IsSound (tables_of self.new) }
        ensures extends { OnOk result (Extends (bases_now (tables_of self.old)) (bases_now (tables_of self.new))) }
        ensures copy { IfOk result (λ id. HasFirstCopy id row place (tables_of self.old) (tables_of self.new)) }
        ensures view { IsTrue (disk_of (tables_of self.old)).tells →
            view_now (tables_of self.new) ≡ view_now (tables_of self.old) }
        ensures open { open_in self.new ≡ open_in self.old }
    {
        let id = self.tables.stored_next_id();
        add(&mut self.tables, row, place)?;
        Ok(id)
    }
}
