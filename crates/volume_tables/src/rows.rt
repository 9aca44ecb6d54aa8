//! Rows: the chunks, and the stream maps of bases.

ghost use Rattle.std.specs.Prelude.{◌≡◌, ◌≤◌, ◌+◌, not};
ghost use Rattle.std.specs.Ordering.{nat_cmp};
ghost use Rattle.std.specs.FinMap.Entries.{find};
ghost use Rattle.table_records.specs.Changes.{is_in_range};
ghost use Rattle.volume_inside.specs.Changes.{with_row, keep_rows};
ghost use Rattle.volume_tables.specs.Dropped.{end_bytes};

use crate::raw;
use crate::room::MOST_RECORDS;
use crate::tables::Tables;
use plain_volume::Fault;
use table_records::{Row, RowTable};
use vdisk::Disk;

impl<D: Disk> Tables<D> {
    ghost use Rattle.volume_tables.specs.Setters.{IsSetIn, IsDroppedIn};
    ghost use Rattle.volume_tables.specs.Tables.{tables_now, states_of, staged_of, next_after};

    /// The row of an id.
    pub fn get_row(&self, id: u64) -> Option<Row>
        ensures { result ≡ find nat_cmp id (tables_now self.now).chunks.rows }
    {
        raw::get::<D, RowTable>(&self.log, id)
    }

    /// The row with the least id above `after`, or with the least of all.
    pub fn next_row(&self, after: Option<u64>) -> Option<(u64, Row)>
        ensures { result ≡ next_after nat_cmp after (tables_now self.now).chunks.rows }
    {
        match after {
            Some(id) => raw::next::<D, RowTable>(&self.log, id),
            None => raw::first::<D, RowTable>(&self.log),
        }
    }

    /// Sets a row. Room for 64 bytes of records was ensured.
    pub fn set_row(&mut self, id: u64, row: Row) -> Result<(), Fault>
        requires { staged_of self.old + 64 ≤ MOST_RECORDS }
        ensures { IsSetIn (with_row id row) (find nat_cmp id (tables_now self.old).chunks.rows) 64
            self.old self.new result }
    {
        raw::put::<D, RowTable>(&mut self.log, id, row)
    }

    /// Drops the rows from an id on, all of them or those below another. Room for 23 bytes of
    /// records was ensured.
    pub fn drop_row(&mut self, from: u64, to: Option<u64>)
        requires { staged_of self.old + 23 ≤ MOST_RECORDS }
        ensures { IsDroppedIn (keep_rows (λ id. not (is_in_range nat_cmp from to id)))
            (5 + 9 + end_bytes (λ id. 9) to) (states_of self.old) self.old self.new }
    {
        raw::drop_range::<D, RowTable>(&mut self.log, from, to);
    }
}
