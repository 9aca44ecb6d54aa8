//! Bytes are written into a file over the tables.

ghost use Rattle.std.specs.Prelude.{◌≡◌, ◌⊎◌, ◌≤◌, ◌<◌, ◌+◌, ◌-◌, ◌*◌, ◌/◌, ℕ, List, length, true, false, max, IsSome};
ghost use Rattle.std.specs.Prelude.{None, IfErr, OnOk, OnErr, IsErrOf};
ghost use Rattle.std.specs.Ordering.{nat_cmp};
ghost use Rattle.std.specs.FinMap.{find};
ghost use Rattle.vdisk.specs.Causes.{Rose};
ghost use Rattle.cluster_space.specs.States.{free_in};
ghost use Rattle.plain_volume.specs.Volume.{Volume, overwritten};
ghost use Rattle.plain_volume.specs.Step.{write};
ghost use Rattle.plain_volume.specs.Replies.{done_reply};
ghost use Rattle.volume_inside.specs.declared.layout.TheConstants.{MOST_CLUSTERS};
ghost use Rattle.volume_inside.specs.Layout.{half_bytes};
ghost use Rattle.volume_inside.specs.Typed.{Typed};
ghost use Rattle.volume_inside.specs.View.{file_cells};
ghost use Rattle.volume_tables.specs.Tables.{tables_now, inside_now, states_of, staged_of, checkpoint_of, disk_of};
ghost use Rattle.volume_tables.specs.Tables.{clusters_in, stopped, IsTables, IsRoomFor, Leaves};
ghost use Rattle.volume_tables.specs.Pending.{pending_of, roomed_of, worn_of};
ghost use Rattle.volume_tables.specs.Sound.{IsSound, IsKept, Endures, Spares};
ghost use Rattle.volume_tables.specs.Spending.{Spends};
ghost use Rattle.volume_tables.specs.Wants.{wanting, IsWanting, IsRepliedOrMemory};
ghost use Rattle.volume_files.specs.Edges.{AreEdges};
ghost use Rattle.volume_files.specs.Insides.{id_written};
ghost use Rattle.volume_files.specs.Own.{AreOwnAround, AreOwnBeside};
ghost use Rattle.volume_files.specs.Needs.{missing, first_touched, touched, touched_at, write_needs, write_bytes};
ghost use Rattle.volume_files.specs.Writing.{AreWritten, IsWritten, IsWritePending, ReadsFirst, write_wants};

use crate::block::BLOCK;
use crate::blocks::write_blocks;
use crate::edges::{Edges, read_edges};
use cluster_space::Run;
use plain_volume::Fault;
use plain_volume::limits::{MOST_BYTES_OF_A_CALL, MOST_BYTES_OF_A_FILE};
use vdisk::Disk;
use volume_tables::{FileRecord, Tables, make_room};

/// How many of so many blocks of a file from one on have no extent.
fn count_missing<D: Disk>(tables: &Tables<D>, file: u64, first: u32, count: u32) -> u32
    requires low { first + count ≤ MOST_CLUSTERS }
    ensures is { result ≡ missing (tables_now tables.now) file first count }
    ensures most { result ≤ count }
{
    let present = tables.count_extents((file, first), (file, first + count));
    count - present as u32
}

/// Makes room for a write of some bytes into a file that stays within the limits.
pub fn make_room_for_write<D: Disk>(
    tables: &mut Tables<D>,
    file: u64,
    at: u64,
    count: usize,
) -> Result<(), Fault>
    requires running { stopped tables.old ≡ false }
    requires sound { IsSound tables.old }
    requires some { 0 < count }
    requires short { count ≤ MOST_BYTES_OF_A_CALL }
    requires within { at + count ≤ MOST_BYTES_OF_A_FILE }
    ensures refused { IfErr result (IsWanting tables.old tables.new
        (write_needs (tables_now tables.old) file at count)) }
    ensures none { OnOk result (wanting tables.old (write_needs (tables_now tables.old) file at count) ≡ None) }
    ensures room { OnOk result (IsRoomFor tables.new (38 + 55 * touched at count) (touched at count)) }
    ensures fits { OnOk result (checkpoint_of tables.new +
        24 * missing (tables_now tables.new) file (first_touched at) (touched at count)
        ≤ half_bytes (clusters_in tables.new)) }
    ensures now { tables_now tables.new ≡ tables_now tables.old }
    ensures inside { inside_now tables.new ≡ inside_now tables.old }
    ensures sound { IsSound tables.new }
    ensures endures { Endures tables.old tables.new }
    ensures runs { OnOk result (stopped tables.new ≡ false) }
    ensures stops { stopped tables.new ≡ true → IsErrOf result Fault.Failed }
    ensures halts { IsErrOf result Fault.Failed → stopped tables.new ≡ true }
    ensures spares { Spares tables.old tables.new result }
    ensures pending { OnOk result (pending_of tables.new ≡ roomed_of tables.old
        (write_needs (tables_now tables.old) file at count)) }
    ensures worn { IsErrOf result Fault.Worn → pending_of tables.new ≡ worn_of tables.old
        (write_needs (tables_now tables.old) file at count) }
{
    let first = (at / BLOCK) as u32;
    let touches = ((at + count as u64 - 1) / BLOCK) as u32 + 1 - first;
    let grows = 24 * count_missing(tables, file, first, touches) as u64;
    make_room(tables, false, grows, 38 + 55 * touches as usize, touches)
}

/// Writes some bytes at a place of a file for which there is room. Of the two blocks at their edges the file keeps what
/// the edges say, so nothing is read. A refusal leaves the tables as they are.
///
/// The faults: `Failed`, where the device failed, which stops the volume; `Memory`.
pub fn write_with_edges<D: Disk>(
    tables: &mut Tables<D>,
    file: u64,
    at: u64,
    bytes: &[u8],
    edges: &Edges,
) -> Result<(), Fault>
    requires running { stopped tables.old ≡ false }
    requires sound { IsSound tables.old }
    requires there { IsSome (find nat_cmp file (tables_now tables.old).files) }
    requires some { 0 < length bytes.now }
    requires short { length bytes.now ≤ MOST_BYTES_OF_A_CALL }
    requires within { at + length bytes.now ≤ MOST_BYTES_OF_A_FILE }
    requires room { IsRoomFor tables.old (38 + 55 * touched at (length bytes.now)) (touched at (length bytes.now)) }
    requires fits { checkpoint_of tables.old +
        24 * missing (tables_now tables.old) file (first_touched at) (touched at (length bytes.now))
        ≤ half_bytes (clusters_in tables.old) }
    ensures written { OnOk result (IsWritten file at (at + length bytes.now)
        (tables_now tables.old) (tables_now tables.new)) }
    ensures err { OnErr result (tables_now tables.new ≡ tables_now tables.old) }
    ensures err_inside { OnErr result (inside_now tables.new ≡ inside_now tables.old) }
    ensures cells { (stored : Typed) → IsTables tables.old stored →
        AreEdges (inside_now tables.old) file at (length bytes.now) edges.now → OnOk result
        (file_cells (inside_now tables.new) file ≡
        overwritten at bytes.now (file_cells (inside_now tables.old) file)) }
    ensures inside { (stored : Typed) → IsTables tables.old stored →
        AreEdges (inside_now tables.old) file at (length bytes.now) edges.now → OnOk result
        (inside_now tables.new ≡ id_written file at bytes.now (inside_now tables.old)) }
    ensures others { OnOk result ((other : ℕ) → (other ≡ file → ⊥) →
        file_cells (inside_now tables.new) other ≡ file_cells (inside_now tables.old) other) }
    ensures sound { IsSound tables.new }
    ensures leaves { Leaves tables.old tables.new }
    ensures spends { Spends (touched at (length bytes.now)) 0 tables.old tables.new }
    ensures staged { OnOk result (staged_of tables.new ≡ staged_of tables.old + write_bytes at (length bytes.now)) }
    ensures taken { OnOk result (free_in (states_of tables.new) + touched at (length bytes.now) ≡
        free_in (states_of tables.old)) }
    ensures stops { stopped tables.new ≡ true → IsErrOf result Fault.Failed }
    ensures refused { OnErr result (IsErrOf result Fault.Failed ⊎ IsErrOf result Fault.Memory) }
    ensures failed { IsErrOf result Fault.Failed → Rose (disk_of tables.old).faults (disk_of tables.new).faults }
    ensures halts { IsErrOf result Fault.Failed → stopped tables.new ≡ true }
{
    let mut grown = tables.get_file(file).unwrap();
    grown.length = grown.length.max(at + bytes.len() as u64);
    let none = Run { first: 0, count: 0 };
    write_blocks(
        tables,
        file,
        grown,
        edges,
        at,
        bytes,
        (at / BLOCK) as u32,
        none,
    )?;
    tables.set_file(file, grown).unwrap();
    Ok(())
}

/// Writes some bytes at a place of a file for which there is room. No cell beside them in the blocks that they touch comes
/// from a base. What these blocks keep is read first. A refusal leaves the tables as they are.
///
/// The faults: `Failed`, where the device failed; `Memory`.
pub fn write_with_room<D: Disk>(
    tables: &mut Tables<D>,
    file: u64,
    at: u64,
    bytes: &[u8],
) -> Result<(), Fault>
    requires running { stopped tables.old ≡ false }
    requires sound { IsSound tables.old }
    requires there { IsSome (find nat_cmp file (tables_now tables.old).files) }
    requires some { 0 < length bytes.now }
    requires short { length bytes.now ≤ MOST_BYTES_OF_A_CALL }
    requires within { at + length bytes.now ≤ MOST_BYTES_OF_A_FILE }
    requires own { AreOwnBeside (tables_now tables.old) file at (length bytes.now) }
    requires room { IsRoomFor tables.old (38 + 55 * touched at (length bytes.now)) (touched at (length bytes.now)) }
    requires fits { checkpoint_of tables.old +
        24 * missing (tables_now tables.old) file (first_touched at) (touched at (length bytes.now))
        ≤ half_bytes (clusters_in tables.old) }
    ensures written { OnOk result (IsWritten file at (at + length bytes.now)
        (tables_now tables.old) (tables_now tables.new)) }
    ensures err { OnErr result (tables_now tables.new ≡ tables_now tables.old) }
    ensures err_inside { OnErr result (inside_now tables.new ≡ inside_now tables.old) }
    ensures cells { (stored : Typed) → IsTables tables.old stored → OnOk result
        (file_cells (inside_now tables.new) file ≡
        overwritten at bytes.now (file_cells (inside_now tables.old) file)) }
    ensures inside { (stored : Typed) → IsTables tables.old stored → OnOk result
        (inside_now tables.new ≡ id_written file at bytes.now (inside_now tables.old)) }
    ensures others { OnOk result ((other : ℕ) → (other ≡ file → ⊥) →
        file_cells (inside_now tables.new) other ≡ file_cells (inside_now tables.old) other) }
    ensures sound { IsSound tables.new }
    ensures leaves { Leaves tables.old tables.new }
    ensures spends { Spends (touched at (length bytes.now)) 0 tables.old tables.new }
    ensures staged { OnOk result (staged_of tables.new ≡ staged_of tables.old + write_bytes at (length bytes.now)) }
    ensures taken { OnOk result (free_in (states_of tables.new) + touched at (length bytes.now) ≡
        free_in (states_of tables.old)) }
    ensures stops { stopped tables.new ≡ true → IsErrOf result Fault.Failed }
    ensures refused { OnErr result (IsErrOf result Fault.Failed ⊎ IsErrOf result Fault.Memory) }
    ensures failed { IsErrOf result Fault.Failed → Rose (disk_of tables.old).faults (disk_of tables.new).faults }
    ensures halts { IsErrOf result Fault.Failed → (stopped tables.new ≡ true) ⊎
        ReadsFirst file at at (length bytes.now) (tables_now tables.old) }
{
    let edges = read_edges(tables, file, at, bytes.len())?;
    write_with_edges(tables, file, at, bytes, &edges)
}

/// Puts bytes at a place of a file that is there, with zeros up to it where the file is shorter; no bytes change
/// nothing, and want nothing. No cell beside them in the blocks that they touch comes from a base; cells under them may.
/// Each block that is touched gets a new cluster: named bytes are never overwritten. After a refusal the tables are what
/// they were. In the clauses `v` is a volume and `name` a name in it whose file has these cells.
pub fn write_plain<D: Disk>(
    tables: &mut Tables<D>,
    file: u64,
    at: u64,
    bytes: &[u8],
) -> Result<(), Fault>
    requires running { stopped tables.old ≡ false }
    requires sound { IsSound tables.old }
    requires there { IsSome (find nat_cmp file (tables_now tables.old).files) }
    requires own { AreOwnAround (tables_now tables.old) file at bytes.now }
    ensures reply { (name : List ℕ) (v : Volume) → IsRepliedOrMemory
        (write name at bytes.now v (file_cells (inside_now tables.old) file))
        (write_wants tables.old file at bytes.now) (disk_of tables.old).faults (disk_of tables.new).faults
        (done_reply result) }
    ensures cells { (w : Volume) → IsKept tables.old w → OnOk result
        (file_cells (inside_now tables.new) file ≡
        overwritten at bytes.now (file_cells (inside_now tables.old) file)) }
    ensures inside { (w : Volume) → IsKept tables.old w → OnOk result
        (inside_now tables.new ≡ id_written file at bytes.now (inside_now tables.old)) }
    ensures others { OnOk result ((other : ℕ) → (other ≡ file → ⊥) →
        file_cells (inside_now tables.new) other ≡ file_cells (inside_now tables.old) other) }
    ensures written { OnOk result (AreWritten file at bytes.now (tables_now tables.old) (tables_now tables.new)) }
    ensures err { OnErr result (tables_now tables.new ≡ tables_now tables.old) }
    ensures err_inside { OnErr result (inside_now tables.new ≡ inside_now tables.old) }
    ensures sound { IsSound tables.new }
    ensures endures { Endures tables.old tables.new }
    ensures spends { Spends (touched_at at bytes.now) 0 tables.old tables.new }
    ensures stops { stopped tables.new ≡ true → IsErrOf result Fault.Failed }
    ensures failed { IsErrOf result Fault.Failed → Rose (disk_of tables.old).faults (disk_of tables.new).faults }
    ensures halts { IsErrOf result Fault.Failed → (stopped tables.new ≡ true) ⊎
        ReadsFirst file at at (length bytes.now) (tables_now tables.old) }
    ensures spares { Spares tables.old tables.new result }
    ensures pending { IsWritePending file at bytes.now tables.old tables.new result }
{
    if bytes.len() as u64 > MOST_BYTES_OF_A_CALL {
        return Err(Fault::TooLarge(MOST_BYTES_OF_A_CALL));
    }
    if at > MOST_BYTES_OF_A_FILE || at + bytes.len() as u64 > MOST_BYTES_OF_A_FILE {
        return Err(Fault::TooLarge(MOST_BYTES_OF_A_FILE));
    }
    if bytes.is_empty() {
        return Ok(());
    }
    make_room_for_write(tables, file, at, bytes.len())?;
    write_with_room(tables, file, at, bytes)
}
