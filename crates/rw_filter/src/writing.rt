//! Bytes of files are written.

ghost use Rattle.std.specs.Prelude.{◌≡◌, ◌⊎◌, ◌≤◌, ◌<◌, ◌+◌, ◌*◌, ℕ, List, length, true, false, None, Some, IsSome};
ghost use Rattle.std.specs.Prelude.{IfErr, OnOk, OnErr, IsErrOf};
ghost use Rattle.std.specs.Ordering.{nat_cmp};
ghost use Rattle.std.specs.FinMap.{find};
ghost use Rattle.vdisk.specs.Causes.{Rose};
ghost use Rattle.cluster_space.specs.States.{free_in};
ghost use Rattle.plain_volume.specs.Volume.{Volume, overwritten, lost_where, is_beside};
ghost use Rattle.plain_volume.specs.Step.{write};
ghost use Rattle.plain_volume.specs.Replies.{done_reply};
ghost use Rattle.plain_volume.specs.declared.limits.TheConstants.{MOST_BYTES_OF_A_CALL, MOST_BYTES_OF_A_FILE};
ghost use Rattle.volume_inside.specs.Layout.{half_bytes};
ghost use Rattle.volume_inside.specs.Typed.{Typed};
ghost use Rattle.volume_inside.specs.View.{file_cells};
ghost use Rattle.volume_tables.specs.Tables.{tables_now, inside_now, states_of, staged_of, checkpoint_of, disk_of};
ghost use Rattle.volume_tables.specs.Tables.{clusters_in, stopped, IsTables, IsRoomFor, Leaves};
ghost use Rattle.volume_tables.specs.Pending.{pending_of, roomed_of};
ghost use Rattle.volume_tables.specs.Sound.{IsSound, IsKept, Endures, Spares};
ghost use Rattle.volume_tables.specs.Spending.{Spends};
ghost use Rattle.volume_tables.specs.Wants.{IsRepliedOrMemory};
ghost use Rattle.volume_files.specs.Insides.{id_written};
ghost use Rattle.volume_files.specs.Needs.{missing, first_touched, touched, touched_at, write_needs, write_bytes};
ghost use Rattle.volume_files.specs.Writing.{AreWritten, IsWritten, IsWritePending, write_wants};
ghost use Rattle.rw_filter.specs.Beside.{ReadsBeside, IsWriteFault};

use crate::beside::read_beside;
use plain_volume::Fault;
use plain_volume::limits::{MOST_BYTES_OF_A_CALL, MOST_BYTES_OF_A_FILE};
use vdisk::Disk;
use volume_files::{make_room_for_write, write_with_edges};
use volume_tables::Tables;

/// Writes some bytes at a place of a file for which there is room. The cells beside them in the blocks that they touch
/// are read first. A refusal leaves the tables as they are.
fn write_roomed<D: Disk>(
    tables: &mut Tables<D>,
    file: u64,
    at: u64,
    bytes: &[u8],
) -> Result<(), Fault>
    requires running { stopped tables.old ≡ false }
    requires sound { IsSound tables.old }
    requires there { IsSome (find nat_cmp file (tables_now tables.old).files) }
    requires some { 0 < length bytes.now }
    requires short { length bytes.now ≤ MOST_BYTES_OF_A_CALL }
    requires within { at + length bytes.now ≤ MOST_BYTES_OF_A_FILE }
    requires room { IsRoomFor tables.old (38 + 55 * touched at (length bytes.now)) (touched at (length bytes.now)) }
    requires fits { checkpoint_of tables.old +
        24 * missing (tables_now tables.old) file (first_touched at) (touched at (length bytes.now))
        ≤ half_bytes (clusters_in tables.old) }
    ensures written { OnOk result (IsWritten file at (at + length bytes.now)
        (tables_now tables.old) (tables_now tables.new)) }
    ensures err { OnErr result (tables_now tables.new ≡ tables_now tables.old) }
    ensures err_inside { OnErr result (inside_now tables.new ≡ inside_now tables.old) }
    ensures cells { (stored : Typed) → IsTables tables.old stored → OnOk result
        (file_cells (inside_now tables.new) file ≡
        overwritten at bytes.now (file_cells (inside_now tables.old) file)) }
    ensures inside { (stored : Typed) → IsTables tables.old stored → OnOk result
        (inside_now tables.new ≡ id_written file at bytes.now (inside_now tables.old)) }
    ensures others { OnOk result ((other : ℕ) → (other ≡ file → ⊥) →
        file_cells (inside_now tables.new) other ≡ file_cells (inside_now tables.old) other) }
    ensures whole { (stored : Typed) → IsTables tables.old stored → OnOk result
        (lost_where (is_beside at (length bytes.now)) 0 (file_cells (inside_now tables.old) file) ≡ None) }
    ensures damaged { (stored : Typed) → IsTables tables.old stored → (q : ℕ) → IsErrOf result (Fault.Damaged q) →
        lost_where (is_beside at (length bytes.now)) 0 (file_cells (inside_now tables.old) file) ≡ Some q }
    ensures waits { (q : ℕ) → IsErrOf result (Fault.Damaged q) → pending_of tables.new ≡ pending_of tables.old }
    ensures sound { IsSound tables.new }
    ensures leaves { Leaves tables.old tables.new }
    ensures spends { Spends (touched at (length bytes.now)) 0 tables.old tables.new }
    ensures staged { OnOk result (staged_of tables.new ≡ staged_of tables.old + write_bytes at (length bytes.now)) }
    ensures taken { OnOk result (free_in (states_of tables.new) + touched at (length bytes.now) ≡
        free_in (states_of tables.old)) }
    ensures stops { stopped tables.new ≡ true → IsErrOf result Fault.Failed }
    ensures refused { OnErr result (((q : ℕ) × IsErrOf result (Fault.Damaged q)) ⊎
        (IsErrOf result Fault.Failed ⊎ IsErrOf result Fault.Memory)) }
    ensures failed { IsErrOf result Fault.Failed → Rose (disk_of tables.old).faults (disk_of tables.new).faults }
    ensures halts { IsErrOf result Fault.Failed → (stopped tables.new ≡ true) ⊎
        ReadsBeside (tables_now tables.old) file at (length bytes.now) }
{
    let edges = read_beside(tables, file, at, bytes.len())?;
    write_with_edges(tables, file, at, bytes, &edges)
}

/// Puts bytes at a place of a file that is there, with zeros up to it where the file is shorter; no bytes change
/// nothing, and want nothing. The cells beside them in the blocks that they touch are read first, from extents and from
/// the base; those under them are not, so lost cells can be written over. Each block that is touched gets a new cluster.
/// After a refusal the tables are what they were. In the clauses `v` is a volume and `name` a name in it whose file has
/// these cells.
///
/// The faults, in their order: `TooLarge`; `TableFull`, `Full` or `Worn`, where a resource is wanting; `Damaged`, with
/// the first place beside the bytes whose cell is lost; and, at any place behind the first, `Failed` and `Memory`.
pub fn write_file<D: Disk>(
    tables: &mut Tables<D>,
    file: u64,
    at: u64,
    bytes: &[u8],
) -> Result<(), Fault>
    requires running { stopped tables.old ≡ false }
    requires sound { IsSound tables.old }
    requires there { IsSome (find nat_cmp file (tables_now tables.old).files) }
    ensures reply { (w : Volume) → IsKept tables.old w → (name : List ℕ) (v : Volume) → IsRepliedOrMemory
        (write name at bytes.now v (file_cells (inside_now tables.old) file))
        (write_wants tables.old file at bytes.now) (disk_of tables.old).faults (disk_of tables.new).faults
        (done_reply result) }
    ensures cells { (w : Volume) → IsKept tables.old w → OnOk result
        (file_cells (inside_now tables.new) file ≡
        overwritten at bytes.now (file_cells (inside_now tables.old) file)) }
    ensures inside { (w : Volume) → IsKept tables.old w → OnOk result
        (inside_now tables.new ≡ id_written file at bytes.now (inside_now tables.old)) }
    ensures others { OnOk result ((other : ℕ) → (other ≡ file → ⊥) →
        file_cells (inside_now tables.new) other ≡ file_cells (inside_now tables.old) other) }
    ensures written { OnOk result (AreWritten file at bytes.now (tables_now tables.old) (tables_now tables.new)) }
    ensures err { OnErr result (tables_now tables.new ≡ tables_now tables.old) }
    ensures err_inside { OnErr result (inside_now tables.new ≡ inside_now tables.old) }
    ensures sound { IsSound tables.new }
    ensures endures { Endures tables.old tables.new }
    ensures spends { Spends (touched_at at bytes.now) 0 tables.old tables.new }
    ensures stops { stopped tables.new ≡ true → IsErrOf result Fault.Failed }
    ensures refused { IfErr result (IsWriteFault tables.old tables.new file at bytes.now) }
    ensures failed { IsErrOf result Fault.Failed → Rose (disk_of tables.old).faults (disk_of tables.new).faults }
    ensures halts { IsErrOf result Fault.Failed → (stopped tables.new ≡ true) ⊎
        ReadsBeside (tables_now tables.old) file at (length bytes.now) }
    ensures spares { Spares tables.old tables.new result }
    ensures pending { IsWritePending file at bytes.now tables.old tables.new result }
    ensures waits { (q : ℕ) → IsErrOf result (Fault.Damaged q) → pending_of tables.new ≡ roomed_of tables.old
        (write_needs (tables_now tables.old) file at (length bytes.now)) }
{
    if bytes.len() as u64 > MOST_BYTES_OF_A_CALL {
        return Err(Fault::TooLarge(MOST_BYTES_OF_A_CALL));
    }
    if at > MOST_BYTES_OF_A_FILE || at + bytes.len() as u64 > MOST_BYTES_OF_A_FILE {
        return Err(Fault::TooLarge(MOST_BYTES_OF_A_FILE));
    }
    if bytes.is_empty() {
        return Ok(());
    }
    make_room_for_write(tables, file, at, bytes.len())?;
    write_roomed(tables, file, at, bytes)
}
