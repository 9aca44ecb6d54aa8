//! Bytes of files are read.

ghost use Rattle.std.specs.Prelude.{◌≡◌, ◌⊎◌, ◌≤◌, ◌+◌, ℕ, length, take, drop, Some, None, IsSome, IsErrOf, OnOk, OnErr};
ghost use Rattle.std.specs.Ordering.{nat_cmp};
ghost use Rattle.std.specs.FinMap.{find};
ghost use Rattle.vdisk.specs.Causes.{Rose};
ghost use Rattle.plain_volume.specs.Volume.{bytes_of, lost_where, is_within};
ghost use Rattle.volume_inside.specs.Rules.{RulesHold};
ghost use Rattle.volume_inside.specs.Typed.{Typed};
ghost use Rattle.volume_inside.specs.View.{file_cells};
ghost use Rattle.volume_tables.specs.Tables.{tables_now, inside_now, disk_of, clusters_in, IsTables};
ghost use Rattle.volume_tables.specs.Reads.{ReadsOnly};
ghost use Rattle.rw_filter.specs.Cells.{HasCells, IsFirstLoss};
ghost use Rattle.rw_filter.specs.Own.{HasBase, IsFirstHole};

use crate::holes::Holes;
use crate::own_cells::read_own;
use plain_volume::Fault;
use row_reading::{CellFault, read_base};
use vdisk::Disk;
use volume_tables::{FileRecord, Tables};

/// Reads those bytes of a file from a place on that its base has to give; what stands for the others is not said.
fn read_covered<D: Disk>(
    tables: &mut Tables<D>,
    file: u64,
    found: FileRecord,
    at: u64,
    out: &mut [u8],
) -> Result<(), Fault>
    requires rules { RulesHold (clusters_in tables.old) (tables_now tables.old) }
    requires there { find nat_cmp file (tables_now tables.old).files ≡ Some found }
    requires within { at + length out.old ≤ found.length }
    ensures bytes { (stored : Typed) → IsTables tables.old stored → OnOk result
        (HasBase (tables_now tables.old) (inside_now tables.old) file found at (length out.old) out.new) }
    ensures damaged { (stored : Typed) → IsTables tables.old stored → (q : ℕ) → IsErrOf result (Fault.Damaged q) →
        IsFirstHole (tables_now tables.old) (inside_now tables.old) file found at (length out.old) q }
    ensures reads { ReadsOnly tables.old tables.new }
    ensures refused { OnErr result (((q : ℕ) × IsErrOf result (Fault.Damaged q)) ⊎ (IsErrOf result Fault.Failed ×
        Rose (disk_of tables.old).faults (disk_of tables.new).faults)) }
{
    if found.covers <= at {
        return Ok(());
    }
    let holes = Holes {
        file,
        covers: found.covers,
    };
    let count = (found.covers - at).min(out.len() as u64) as usize;
    match read_base(tables, &holes, found, at, &mut out[..count]) {
        Ok(()) => Ok(()),
        Err(CellFault::Lost(place)) => Err(Fault::Damaged(place)),
        Err(CellFault::Failed) => Err(Fault::Failed),
    }
}

/// Reads bytes of a file with this record, from a place in it on: those of its extents, else of its base, else zeros. A
/// refusal stops nothing, and after it `out` may hold anything.
pub(crate) fn read_found<D: Disk>(
    tables: &mut Tables<D>,
    file: u64,
    found: FileRecord,
    at: u64,
    out: &mut [u8],
) -> Result<(), Fault>
    requires rules { RulesHold (clusters_in tables.old) (tables_now tables.old) }
    requires there { find nat_cmp file (tables_now tables.old).files ≡ Some found }
    requires within { at + length out.old ≤ found.length }
    ensures cells { (stored : Typed) → IsTables tables.old stored → OnOk result
        (HasCells (inside_now tables.old) file found at (length out.old) out.new) }
    ensures damaged { (stored : Typed) → IsTables tables.old stored → (q : ℕ) → IsErrOf result (Fault.Damaged q) →
        IsFirstLoss (inside_now tables.old) file found at (at + length out.old) q }
    ensures reads { ReadsOnly tables.old tables.new }
    ensures refused { OnErr result (((q : ℕ) × IsErrOf result (Fault.Damaged q)) ⊎ (IsErrOf result Fault.Failed ×
        Rose (disk_of tables.old).faults (disk_of tables.new).faults)) }
{
    read_covered(tables, file, found, at, out)?;
    read_own(tables, file, found, at, out)
}

/// Reads bytes of a file that is there, from a place in it on: those of its extents, else of its base, else zeros. A
/// refusal stops nothing, and after it `out` may hold anything. It takes no memory. Each copy of a chunk or a map is
/// hashed once at most.
///
/// The faults: `Failed`, and `Damaged` with the first place of the range whose cell is lost.
pub fn read_file<D: Disk>(
    tables: &mut Tables<D>,
    file: u64,
    at: u64,
    out: &mut [u8],
) -> Result<(), Fault>
    requires rules { RulesHold (clusters_in tables.old) (tables_now tables.old) }
    requires there { IsSome (find nat_cmp file (tables_now tables.old).files) }
    requires within { at + length out.old ≤ length (file_cells (inside_now tables.old) file) }
    ensures bytes { (stored : Typed) → IsTables tables.old stored → OnOk result (out.new ≡
        bytes_of (take (length out.old) (drop at (file_cells (inside_now tables.old) file)))) }
    ensures whole { (stored : Typed) → IsTables tables.old stored → OnOk result
        (lost_where (is_within at (length out.old)) 0 (file_cells (inside_now tables.old) file) ≡ None) }
    ensures damaged { (stored : Typed) → IsTables tables.old stored → (q : ℕ) → IsErrOf result (Fault.Damaged q) →
        lost_where (is_within at (length out.old)) 0 (file_cells (inside_now tables.old) file) ≡ Some q }
    ensures reads { ReadsOnly tables.old tables.new }
    ensures refused { OnErr result (((q : ℕ) × IsErrOf result (Fault.Damaged q)) ⊎ (IsErrOf result Fault.Failed ×
        Rose (disk_of tables.old).faults (disk_of tables.new).faults)) }
{
    let found = tables.get_file(file).unwrap();
    read_found(tables, file, found, at, out)
}
