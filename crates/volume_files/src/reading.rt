//! Bytes of files are read.

ghost use Rattle.std.specs.Prelude.{◌≡◌, ◌≤◌, ◌+◌, length, take, drop, IsSome, IsErrOf, OnOk, OnErr};
ghost use Rattle.std.specs.Ordering.{nat_cmp};
ghost use Rattle.std.specs.FinMap.{find};
ghost use Rattle.vdisk.specs.Causes.{Rose};
ghost use Rattle.plain_volume.specs.Volume.{bytes_of};
ghost use Rattle.volume_inside.specs.Rules.{RulesHold};
ghost use Rattle.volume_inside.specs.Typed.{Typed};
ghost use Rattle.volume_inside.specs.View.{file_cells};
ghost use Rattle.volume_tables.specs.Tables.{tables_now, inside_now, disk_of, clusters_in, IsTables};
ghost use Rattle.volume_tables.specs.Reads.{ReadsOnly};
ghost use Rattle.volume_files.specs.Own.{AreOwn};

use crate::stretches::{extent_at, read_stretch};
use plain_volume::Fault;
use vdisk::Disk;
use volume_tables::Tables;

/// Reads bytes of a file that is there, from a place in it on, of which none comes from a base. After a refusal `out`
/// may hold anything. A refusal stops nothing.
pub fn read_plain<D: Disk>(
    tables: &mut Tables<D>,
    file: u64,
    at: u64,
    out: &mut [u8],
) -> Result<(), Fault>
    requires rules { RulesHold (clusters_in tables.old) (tables_now tables.old) }
    requires there { IsSome (find nat_cmp file (tables_now tables.old).files) }
    requires within { at + length out.old ≤ length (file_cells (inside_now tables.old) file) }
    requires own { AreOwn (tables_now tables.old) file at (at + length out.old) }
    ensures bytes { (stored : Typed) → IsTables tables.old stored → OnOk result (out.new ≡
        bytes_of (take (length out.old) (drop at (file_cells (inside_now tables.old) file)))) }
    ensures inside { inside_now tables.new ≡ inside_now tables.old }
    ensures reads { ReadsOnly tables.old tables.new }
    ensures failed { OnErr result (IsErrOf result Fault.Failed ×
        Rose (disk_of tables.old).faults (disk_of tables.new).faults) }
{
    let mut extent = extent_at(tables, file, at);
    let mut done = 0;
    while done < out.len() {
        let stretch = read_stretch(tables, file, at + done as u64, extent, &mut out[done..])?;
        done += stretch.count;
        extent = stretch.next;
    }
    Ok(())
}
