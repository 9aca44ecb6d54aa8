//! Covered blocks that have no extent get one of the file's own.

ghost use Rattle.std.specs.Prelude.{◌≡◌, ◌⊎◌, ◌≤◌, ◌<◌, ◌+◌, ◌*◌, ℕ, false, true, length, None, Some, IsSome, IsErrOf, IfErr, OnOk, OnErr};
ghost use Rattle.std.specs.Ordering.{nat_cmp};
ghost use Rattle.std.specs.FinMap.{find};
ghost use Rattle.vdisk.specs.Causes.{Rose};
ghost use Rattle.cluster_space.specs.States.{free_in};
ghost use Rattle.plain_volume.specs.Volume.{Volume};
ghost use Rattle.plain_volume.specs.Replies.{done_reply};
ghost use Rattle.plain_volume.specs.declared.limits.TheConstants.{MOST_BYTES_OF_A_FILE};
ghost use Rattle.table_records.specs.Keys.{pair_cmp};
ghost use Rattle.volume_inside.specs.declared.layout.TheConstants.{CLUSTER_BYTES};
ghost use Rattle.volume_inside.specs.Layout.{half_bytes};
ghost use Rattle.volume_inside.specs.Rules.{RulesHold};
ghost use Rattle.volume_inside.specs.Typed.{Typed};
ghost use Rattle.volume_tables.specs.Tables.{tables_now, inside_now, view_now, states_of, staged_of, checkpoint_of, disk_of};
ghost use Rattle.volume_tables.specs.Tables.{clusters_in, stopped, IsTables, IsRoomFor, Leaves};
ghost use Rattle.volume_tables.specs.Pending.{pending_of, roomed_of, IsPending};
ghost use Rattle.volume_tables.specs.Sound.{IsSound, IsKept, Endures, Spares};
ghost use Rattle.volume_tables.specs.Spending.{Spends};
ghost use Rattle.volume_tables.specs.Wants.{wanting, IsRepliedOrMemory};
ghost use Rattle.volume_files.specs.Lengths.{length_of};
ghost use Rattle.volume_files.specs.Needs.{missing, first_touched, touched, write_bytes};
ghost use Rattle.volume_files.specs.Own.{covered_in};
ghost use Rattle.rw_filter.specs.Recalling.{block_start, block_count, recall_needs, IsRecalled, lost_there, with_recalled};
ghost use Rattle.rw_filter.specs.Recalling.{recall, TellsLost, IsRecallRefused};

use crate::reading::read_file;
use plain_volume::Fault;
use vdisk::Disk;
use volume_files::{make_room_for_write, write_with_room};
use volume_inside::CLUSTER_BYTES;
use volume_tables::Tables;

/// The bytes of a block.
const BLOCK_BYTES: usize = CLUSTER_BYTES as usize;

/// How many bytes of a file that is there a covered block has: all, or those up to the file's end.
fn count_in_block<D: Disk>(tables: &Tables<D>, file: u64, index: u32) -> usize
    requires rules { RulesHold (clusters_in tables.now) (tables_now tables.now) }
    requires covered { block_start index < covered_in (find nat_cmp file (tables_now tables.now).files) }
    ensures is { result ≡ block_count (tables_now tables.now) file index }
    ensures some { 0 < result }
    ensures most { result ≤ CLUSTER_BYTES }
    ensures within { block_start index + result ≤ length_of (tables_now tables.now) file }
    ensures low { block_start index + result ≤ MOST_BYTES_OF_A_FILE }
{
    let start = u64::from(CLUSTER_BYTES) * u64::from(index);
    let found = tables.get_file(file).unwrap();
    u64::from(CLUSTER_BYTES).min(found.length - start) as usize
}

/// Writes the cells of a covered block that has no extent as an extent of the file's own, through a place in memory that
/// has as many bytes. There is room for it. A refusal leaves the tables as they are.
fn recall_with_room<D: Disk>(
    tables: &mut Tables<D>,
    file: u64,
    index: u32,
    block: &mut [u8],
) -> Result<(), Fault>
    requires running { stopped tables.old ≡ false }
    requires sound { IsSound tables.old }
    requires covered { block_start index < covered_in (find nat_cmp file (tables_now tables.old).files) }
    requires hole { find pair_cmp (file, index) (tables_now tables.old).extents ≡ None }
    requires long { length block.old ≡ block_count (tables_now tables.old) file index }
    requires some { 0 < block_count (tables_now tables.old) file index }
    requires within { block_start index + block_count (tables_now tables.old) file index
        ≤ length_of (tables_now tables.old) file }
    requires low { block_start index + block_count (tables_now tables.old) file index ≤ MOST_BYTES_OF_A_FILE }
    requires room { IsRoomFor tables.old
        (38 + 55 * touched (block_start index) (block_count (tables_now tables.old) file index))
        (touched (block_start index) (block_count (tables_now tables.old) file index)) }
    requires fits { checkpoint_of tables.old + 24 * missing (tables_now tables.old) file
        (first_touched (block_start index))
        (touched (block_start index) (block_count (tables_now tables.old) file index)) ≤ half_bytes (clusters_in tables.old) }
    ensures recalled { OnOk result (IsRecalled file index (tables_now tables.old) (tables_now tables.new)) }
    ensures err { OnErr result (tables_now tables.new ≡ tables_now tables.old) }
    ensures err_inside { OnErr result (inside_now tables.new ≡ inside_now tables.old) }
    ensures inside { (stored : Typed) → IsTables tables.old stored → OnOk result (inside_now tables.new ≡
        with_recalled (tables_now tables.old) file index (inside_now tables.old)) }
    ensures view { (stored : Typed) → IsTables tables.old stored →
        OnOk result (view_now tables.new ≡ view_now tables.old) }
    ensures sound { IsSound tables.new }
    ensures leaves { Leaves tables.old tables.new }
    ensures spends { Spends 1 0 tables.old tables.new }
    ensures staged { OnOk result (staged_of tables.new ≡ staged_of tables.old +
        write_bytes (block_start index) (block_count (tables_now tables.old) file index)) }
    ensures taken { OnOk result (free_in (states_of tables.new) +
        touched (block_start index) (block_count (tables_now tables.old) file index) ≡ free_in (states_of tables.old)) }
    ensures waits { (q : ℕ) → IsErrOf result (Fault.Damaged q) → pending_of tables.new ≡ pending_of tables.old }
    ensures stops { stopped tables.new ≡ true → IsErrOf result Fault.Failed }
    ensures refused { OnErr result (((q : ℕ) × IsErrOf result (Fault.Damaged q)) ⊎
        (IsErrOf result Fault.Failed ⊎ IsErrOf result Fault.Memory)) }
    ensures failed { IsErrOf result Fault.Failed → Rose (disk_of tables.old).faults (disk_of tables.new).faults }
    ensures lost { (stored : Typed) → IsTables tables.old stored →
        TellsLost (lost_there (tables_now tables.old) (inside_now tables.old) file index) result }
{
    let start = u64::from(CLUSTER_BYTES) * u64::from(index);
    read_file(tables, file, start, block)?;
    write_with_room(tables, file, start, block)
}

/// Writes a block that the base of a file covers, and that has no extent, as an extent of the file's own, so that no
/// cell of the block comes from the base any more. No file sees it. The block gets a new cluster, as by a write of its
/// bytes. After a refusal the tables are what they were. It takes no memory but for the tables.
///
/// The faults: `Worn`, `TableFull` and `Full` where a write of the block's bytes would be refused so; then `Failed`, or
/// `Damaged` with the first place of the block whose cell is lost; and `Memory`.
pub fn recall_cluster<D: Disk>(tables: &mut Tables<D>, file: u64, index: u32) -> Result<(), Fault>
    requires running { stopped tables.old ≡ false }
    requires sound { IsSound tables.old }
    requires there { IsSome (find nat_cmp file (tables_now tables.old).files) }
    requires covered { block_start index < covered_in (find nat_cmp file (tables_now tables.old).files) }
    requires hole { find pair_cmp (file, index) (tables_now tables.old).extents ≡ None }
    ensures reply { (w : Volume) → IsKept tables.old w → IsRepliedOrMemory
        (recall (lost_there (tables_now tables.old) (inside_now tables.old) file index) (view_now tables.old))
        (wanting tables.old (recall_needs (tables_now tables.old) file index))
        (disk_of tables.old).faults (disk_of tables.new).faults (done_reply result) }
    ensures refused { IfErr result (IsRecallRefused tables.old tables.new
        (recall_needs (tables_now tables.old) file index)) }
    ensures none { OnOk result (wanting tables.old (recall_needs (tables_now tables.old) file index) ≡ None) }
    ensures lost { (w : Volume) → IsKept tables.old w →
        TellsLost (lost_there (tables_now tables.old) (inside_now tables.old) file index) result }
    ensures recalled { OnOk result (IsRecalled file index (tables_now tables.old) (tables_now tables.new)) }
    ensures err { OnErr result (tables_now tables.new ≡ tables_now tables.old) }
    ensures err_inside { OnErr result (inside_now tables.new ≡ inside_now tables.old) }
    ensures err_view { OnErr result (view_now tables.new ≡ view_now tables.old) }
    ensures inside { (w : Volume) → IsKept tables.old w → OnOk result (inside_now tables.new ≡
        with_recalled (tables_now tables.old) file index (inside_now tables.old)) }
    ensures view { (w : Volume) → IsKept tables.old w → OnOk result (view_now tables.new ≡ view_now tables.old) }
    ensures sound { IsSound tables.new }
    ensures endures { Endures tables.old tables.new }
    ensures spends { Spends 1 0 tables.old tables.new }
    ensures stops { stopped tables.new ≡ true → IsErrOf result Fault.Failed }
    ensures failed { IsErrOf result Fault.Failed → Rose (disk_of tables.old).faults (disk_of tables.new).faults }
    ensures spares { Spares tables.old tables.new result }
    ensures pending { IsPending (recall_needs (tables_now tables.old) file index)
        (write_bytes (block_start index) (block_count (tables_now tables.old) file index))
        tables.old tables.new result }
    ensures roomed { (q : ℕ) → IsErrOf result (Fault.Damaged q) → pending_of tables.new ≡
        roomed_of tables.old (recall_needs (tables_now tables.old) file index) }
{
    let start = u64::from(CLUSTER_BYTES) * u64::from(index);
    let count = count_in_block(tables, file, index);
    make_room_for_write(tables, file, start, count)?;
    let mut block = [0; BLOCK_BYTES];
    recall_with_room(tables, file, index, &mut block[..count])
}
