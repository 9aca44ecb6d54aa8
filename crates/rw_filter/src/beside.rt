//! The cells of a file beside bytes that are to be written are read, in the blocks that these touch.

ghost use Rattle.std.specs.Prelude.{◌≡◌, ◌⊎◌, ◌≤◌, ◌<◌, ◌+◌, ◌*◌, ◌↔◌, ℕ, None, Some, IsSome, IsTrue, IfOk, IsErrOf, OnOk, OnErr};
ghost use Rattle.std.specs.Ordering.{nat_cmp};
ghost use Rattle.std.specs.FinMap.{find};
ghost use Rattle.vdisk.specs.Causes.{Rose};
ghost use Rattle.plain_volume.specs.declared.limits.TheConstants.{MOST_BYTES_OF_A_FILE};
ghost use Rattle.plain_volume.specs.Volume.{lost_where, is_beside};
ghost use Rattle.table_records.specs.Keys.{pair_cmp};
ghost use Rattle.volume_inside.specs.declared.layout.TheConstants.{CLUSTER_BYTES};
ghost use Rattle.volume_inside.specs.Rules.{RulesHold};
ghost use Rattle.volume_inside.specs.Typed.{Typed};
ghost use Rattle.volume_inside.specs.View.{file_cells};
ghost use Rattle.volume_tables.specs.Tables.{tables_now, inside_now, disk_of, clusters_in, IsTables};
ghost use Rattle.volume_tables.specs.Reads.{ReadsOnly};
ghost use Rattle.volume_files.specs.Edges.{AreEdges};
ghost use Rattle.rw_filter.specs.Beside.{HasPart, KeepsRest, IsRead, ReadsBeside};
ghost use Rattle.rw_filter.specs.Cells.{IsFirstLoss};

use crate::reading::read_found;
use plain_volume::Fault;
use vdisk::Disk;
use volume_files::Edges;
use volume_inside::CLUSTER_BYTES;
use volume_tables::{FileRecord, Tables};

/// How many bytes a block has.
const BLOCK: u64 = CLUSTER_BYTES as u64;

/// The same as the length of an array.
const BLOCK_BYTES: usize = BLOCK as usize;

/// Whether neither an extent nor the base of a file gives the cells of a block from this place on, so that they are zero.
fn is_hole<D: Disk>(
    tables: &Tables<D>,
    file: u64,
    found: FileRecord,
    index: u32,
    place: u64,
) -> bool
    ensures { IsTrue result ↔ (found.covers ≤ place) ×
        (find pair_cmp (file, index) (tables_now tables.now).extents ≡ None) }
{
    found.covers <= place && tables.get_extent((file, index)).is_none()
}

/// Reads the cells of a file from a place in a block of it up to another, as far as the file reaches, into their places
/// of the block. The others stay. Cells of a hole are zero, and are not read.
fn read_part<D: Disk>(
    tables: &mut Tables<D>,
    file: u64,
    found: FileRecord,
    index: u32,
    from: usize,
    to: usize,
    block: &mut [u8; BLOCK_BYTES],
) -> Result<(), Fault>
    requires rules { RulesHold (clusters_in tables.old) (tables_now tables.old) }
    requires there { find nat_cmp file (tables_now tables.old).files ≡ Some found }
    requires low { CLUSTER_BYTES * index ≤ MOST_BYTES_OF_A_FILE }
    requires within { to ≤ CLUSTER_BYTES }
    ensures cells { (stored : Typed) → IsTables tables.old stored → OnOk result
        (HasPart (inside_now tables.old) file found index from to block.new) }
    ensures rest { OnOk result (KeepsRest found index from to block.old block.new) }
    ensures damaged { (stored : Typed) → IsTables tables.old stored → (q : ℕ) → IsErrOf result (Fault.Damaged q) →
        IsFirstLoss (inside_now tables.old) file found (CLUSTER_BYTES * index + from) (CLUSTER_BYTES * index + to) q ×
        (q < found.length) }
    ensures some { OnErr result ((from < to) × (CLUSTER_BYTES * index + from < found.length) ×
        IsRead (tables_now tables.old) file index found.covers (CLUSTER_BYTES * index + from)) }
    ensures reads { ReadsOnly tables.old tables.new }
    ensures refused { OnErr result (((q : ℕ) × IsErrOf result (Fault.Damaged q)) ⊎ (IsErrOf result Fault.Failed ×
        Rose (disk_of tables.old).faults (disk_of tables.new).faults)) }
{
    let start = BLOCK * index as u64;
    let end = (to as u64).min(found.length.saturating_sub(start)) as usize;
    if end <= from {
        return Ok(());
    }
    let place = start + from as u64;
    if is_hole(tables, file, found, index, place) {
        block[from..end].fill(0);
        return Ok(());
    }
    read_found(tables, file, found, place, &mut block[from..end])
}

/// Reads what the first and the last block of a file that so many bytes at the place `at` touch hold beside these, with
/// zeros behind the end of the file. A refusal stops nothing.
///
/// The faults: `Failed`, and `Damaged` with the first place beside the bytes whose cell is lost.
pub(crate) fn read_beside<D: Disk>(
    tables: &mut Tables<D>,
    file: u64,
    at: u64,
    count: usize,
) -> Result<Edges, Fault>
    requires rules { RulesHold (clusters_in tables.old) (tables_now tables.old) }
    requires there { IsSome (find nat_cmp file (tables_now tables.old).files) }
    requires some { 0 < count }
    requires within { at + count ≤ MOST_BYTES_OF_A_FILE }
    ensures edges { (stored : Typed) → IsTables tables.old stored →
        IfOk result (AreEdges (inside_now tables.old) file at count) }
    ensures damaged { (stored : Typed) → IsTables tables.old stored → (q : ℕ) → IsErrOf result (Fault.Damaged q) →
        lost_where (is_beside at count) 0 (file_cells (inside_now tables.old) file) ≡ Some q }
    ensures read { OnErr result (ReadsBeside (tables_now tables.old) file at count) }
    ensures reads { ReadsOnly tables.old tables.new }
    ensures refused { OnErr result (((q : ℕ) × IsErrOf result (Fault.Damaged q)) ⊎ (IsErrOf result Fault.Failed ×
        Rose (disk_of tables.old).faults (disk_of tables.new).faults)) }
{
    let found = tables.get_file(file).unwrap();
    let first_index = (at / BLOCK) as u32;
    let last_index = ((at + count as u64 - 1) / BLOCK) as u32;
    let behind = (at + count as u64 - BLOCK * last_index as u64) as usize;
    let mut first = [0; BLOCK_BYTES];
    read_part(
        tables,
        file,
        found,
        first_index,
        0,
        (at % BLOCK) as usize,
        &mut first,
    )?;
    if first_index == last_index {
        read_part(
            tables,
            file,
            found,
            last_index,
            behind,
            BLOCK_BYTES,
            &mut first,
        )?;
        return Ok(Edges { first, last: first });
    }
    let mut last = [0; BLOCK_BYTES];
    read_part(
        tables,
        file,
        found,
        last_index,
        behind,
        BLOCK_BYTES,
        &mut last,
    )?;
    Ok(Edges { first, last })
}
