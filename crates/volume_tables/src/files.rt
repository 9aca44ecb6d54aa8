//! Files and their records.

ghost use Rattle.std.specs.Prelude.{◌≡◌, ◌≤◌, ◌+◌, not};
ghost use Rattle.std.specs.Ordering.{nat_cmp};
ghost use Rattle.std.specs.FinMap.Entries.{find};
ghost use Rattle.table_records.specs.Changes.{is_in_range};
ghost use Rattle.volume_inside.specs.Changes.{with_file, keep_files};
ghost use Rattle.volume_tables.specs.Dropped.{end_bytes};

use crate::raw;
use crate::room::MOST_RECORDS;
use crate::tables::Tables;
use plain_volume::Fault;
use table_records::{FileRecord, FileTable};
use vdisk::Disk;

impl<D: Disk> Tables<D> {
    ghost use Rattle.volume_tables.specs.Setters.{IsSetIn, IsDroppedIn};
    ghost use Rattle.volume_tables.specs.Tables.{tables_now, states_of, staged_of, next_after};

    /// The record of a file.
    pub fn get_file(&self, id: u64) -> Option<FileRecord>
        ensures { result ≡ find nat_cmp id (tables_now self.now).files }
    {
        raw::get::<D, FileTable>(&self.log, id)
    }

    /// The file with the least id above `after`, or with the least of all.
    pub fn next_file(&self, after: Option<u64>) -> Option<(u64, FileRecord)>
        ensures { result ≡ next_after nat_cmp after (tables_now self.now).files }
    {
        match after {
            Some(id) => raw::next::<D, FileTable>(&self.log, id),
            None => raw::first::<D, FileTable>(&self.log),
        }
    }

    /// Sets the record of a file. Room for 38 bytes of records was ensured.
    pub fn set_file(&mut self, id: u64, file: FileRecord) -> Result<(), Fault>
        requires { staged_of self.old + 38 ≤ MOST_RECORDS }
        ensures { IsSetIn (with_file id file) (find nat_cmp id (tables_now self.old).files) 38 self.old self.new result }
    {
        raw::put::<D, FileTable>(&mut self.log, id, file)
    }

    /// Drops the records of the files from an id on, all of them or those below another. Room for 23 bytes of records
    /// was ensured.
    pub fn drop_file(&mut self, from: u64, to: Option<u64>)
        requires { staged_of self.old + 23 ≤ MOST_RECORDS }
        ensures { IsDroppedIn (keep_files (λ id. not (is_in_range nat_cmp from to id)))
            (5 + 9 + end_bytes (λ id. 9) to) (states_of self.old) self.old self.new }
    {
        raw::drop_range::<D, FileTable>(&mut self.log, from, to);
    }
}
