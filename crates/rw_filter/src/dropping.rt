//! Bases that no cell comes from any more are dropped.

ghost use Rattle.std.specs.Prelude.{◌≡◌, ◌≤◌, ◌+◌, ℕ, Some, IsSome};
ghost use Rattle.std.specs.Ordering.{nat_cmp};
ghost use Rattle.std.specs.FinMap.{find};
ghost use Rattle.table_records.specs.declared.records.FileRecord.{FileRecord as Record};
ghost use Rattle.volume_inside.specs.Changes.{with_file};
ghost use Rattle.volume_tables.specs.declared.room.TheConstants.{MOST_RECORDS};
ghost use Rattle.volume_tables.specs.Sound.{IsSound};
ghost use Rattle.volume_tables.specs.Stages.{Stages};
ghost use Rattle.volume_tables.specs.Tables.{tables_now, view_now, staged_of};
ghost use Rattle.volume_files.specs.Own.{IsOwn};
ghost use Rattle.rw_filter.specs.Own.{without_base, file_record_bytes};

use vdisk::Disk;
use volume_tables::{FileRecord, Tables};

/// Drops the base of a file of which each covered block has an extent. No file sees it. Room for the file's record was
/// ensured. It takes no memory.
pub fn drop_base<D: Disk>(tables: &mut Tables<D>, file: u64)
    requires sound { IsSound tables.old }
    requires there { IsSome (find nat_cmp file (tables_now tables.old).files) }
    requires recalled { (p : ℕ) → IsOwn (tables_now tables.old) file p }
    requires room { staged_of tables.old + file_record_bytes ≤ MOST_RECORDS }
    ensures dropped { (was : Record) → find nat_cmp file (tables_now tables.old).files ≡ Some was →
        tables_now tables.new ≡ with_file file (without_base was) (tables_now tables.old) }
    ensures view { view_now tables.new ≡ view_now tables.old }
    ensures sound { IsSound tables.new }
    ensures stages { Stages file_record_bytes tables.old tables.new }
{
    let was = tables.get_file(file).unwrap();
    let bare = FileRecord {
        length: was.length,
        map_row: 0,
        covers: 0,
    };
    tables.set_file(file, bare).unwrap();
}
