//! The cells of a file that come from no base are read.

ghost use Rattle.std.specs.Prelude.{◌≡◌, ◌≤◌, ◌+◌, length, Some, IsErrOf, OnOk, OnErr};
ghost use Rattle.std.specs.Ordering.{nat_cmp};
ghost use Rattle.std.specs.FinMap.{find};
ghost use Rattle.vdisk.specs.Causes.{Rose};
ghost use Rattle.volume_inside.specs.Rules.{RulesHold};
ghost use Rattle.volume_inside.specs.Typed.{Typed};
ghost use Rattle.volume_tables.specs.Tables.{tables_now, inside_now, disk_of, clusters_in, IsTables};
ghost use Rattle.volume_tables.specs.Reads.{ReadsOnly};
ghost use Rattle.rw_filter.specs.Own.{HasOwn, KeepsOthers};

use crate::runs::run_at;
use plain_volume::Fault;
use vdisk::Disk;
use volume_files::read_plain;
use volume_tables::{FileRecord, Tables};

/// Reads those bytes of a file from a place on that come from no base, and leaves the others. After a refusal `out` may
/// hold anything. A refusal stops nothing.
pub(crate) fn read_own<D: Disk>(
    tables: &mut Tables<D>,
    file: u64,
    found: FileRecord,
    at: u64,
    out: &mut [u8],
) -> Result<(), Fault>
    requires rules { RulesHold (clusters_in tables.old) (tables_now tables.old) }
    requires there { find nat_cmp file (tables_now tables.old).files ≡ Some found }
    requires within { at + length out.old ≤ found.length }
    ensures bytes { (stored : Typed) → IsTables tables.old stored → OnOk result
        (HasOwn (tables_now tables.old) (inside_now tables.old) file found at (length out.old) out.new) }
    ensures others { OnOk result (KeepsOthers (tables_now tables.old) file at (length out.old) out.old out.new) }
    ensures reads { ReadsOnly tables.old tables.new }
    ensures failed { OnErr result (IsErrOf result Fault.Failed ×
        Rose (disk_of tables.old).faults (disk_of tables.new).faults) }
{
    let mut done = 0;
    while done < out.len() {
        let place = at + done as u64;
        let run = run_at(tables, file, found.covers, place, out.len() - done);
        let end = done + run.count;
        if run.own {
            read_plain(tables, file, place, &mut out[done..end])?;
        }
        done = end;
    }
    Ok(())
}
