//! The files of a store, whose cells come from extents, from bases, or are zero.

ghost use Rattle.std.specs.Prelude.{◌≡◌, ◌⊎◌, ◌≤◌, ◌<◌, ◌+◌, ℕ, false, true, length, take, drop, None, Some, IsSome};
ghost use Rattle.std.specs.Prelude.{IfErr, IsErrOf, OnOk, OnErr, List};
ghost use Rattle.std.specs.Ordering.{nat_cmp};
ghost use Rattle.std.specs.FinMap.{find};
ghost use Rattle.vdisk.specs.Causes.{Rose};
ghost use Rattle.plain_volume.specs.Volume.{Volume, bytes_of, lost_where, is_within, overwritten};
ghost use Rattle.plain_volume.specs.Replies.{done_reply};
ghost use Rattle.table_records.specs.Keys.{pair_cmp};
ghost use Rattle.plain_volume.specs.Step.{write};
ghost use Rattle.volume_inside.specs.Rules.{RulesHold};
ghost use Rattle.volume_inside.specs.Typed.{Typed};
ghost use Rattle.volume_inside.specs.View.{file_cells};
ghost use Rattle.volume_inside.specs.Changes.{with_file};
ghost use Rattle.volume_tables.specs.declared.room.TheConstants.{MOST_RECORDS};
ghost use Rattle.volume_tables.specs.Reads.{ReadsOnly};
ghost use Rattle.volume_tables.specs.Pending.{pending_of, roomed_of, IsPending};
ghost use Rattle.volume_tables.specs.Sound.{IsSound, IsKept, Endures, Spares};
ghost use Rattle.volume_tables.specs.Spending.{Spends};
ghost use Rattle.volume_tables.specs.Wants.{wanting, IsRepliedOrMemory};
ghost use Rattle.volume_tables.specs.Stages.{Stages};
ghost use Rattle.volume_tables.specs.Tables.{tables_now, inside_now, view_now, staged_of, disk_of, clusters_in};
ghost use Rattle.volume_tables.specs.Tables.{stopped, IsTables};
ghost use Rattle.table_records.specs.declared.records.FileRecord.{FileRecord as Record};
ghost use Rattle.volume_files.specs.Needs.{write_bytes, touched_at, write_needs};
ghost use Rattle.volume_files.specs.Own.{covered_in, IsOwn};
ghost use Rattle.volume_files.specs.Insides.{id_written};
ghost use Rattle.volume_files.specs.Writing.{AreWritten, IsWritePending, write_wants};
ghost use Rattle.rw_filter.specs.Beside.{ReadsBeside, IsWriteFault};
ghost use Rattle.rw_filter.specs.Own.{without_base, file_record_bytes};
ghost use Rattle.rw_filter.specs.Recalling.{block_start, block_count, recall_needs, IsRecalled, lost_there, with_recalled};
ghost use Rattle.rw_filter.specs.Recalling.{recall, TellsLost, IsRecallRefused};

use crate::dropping::drop_base;
use crate::reading::read_file;
use crate::recalling::recall_cluster;
use crate::writing::write_file;
use chunk_container::Store;
use plain_volume::Fault;
use vdisk::Disk;

/// A store whose files are read with their bases.
#[derive(Drop)]
pub struct Filter<D: Disk> {
    pub(crate) store: Store<D>,
}

impl<D: Disk> Filter<D> {
    ghost use Rattle.std.specs.Borrow.{sem};
    ghost use Rattle.rw_filter.specs.Filters.{store_of, filtered, lends_store};

    /// The files of a store.
    pub fn new(store: Store<D>) -> Filter<D>
        ensures { store_of result ≡ store }
    {
        Filter { store }
    }

    /// The store.
    pub fn store(&self) -> &Store<D>
        ensures { result.now ≡ store_of self.now }
    {
        &self.store
    }

    /// The store, for calls that the filter has none for.
    pub fn store_mut(&mut self) -> &mut Store<D>
        ensures* lent { sem 𝓛 (lends_store D.row D.Disk self.entry result) }
        ensures store { result.now ≡ store_of self.old }
    {
        &mut self.store
    }

    /// Hands back what the filter was made of.
    pub fn into_store(self) -> Store<D>
        ensures { result ≡ store_of self }
    {
        self.store
    }

    /// Reads bytes of a file that is there, from a place in it on: those of its extents, else of its base, else zeros. A
    /// refusal stops nothing, and after it `out` may hold anything. It takes no memory. Each copy of a chunk or a map is
    /// hashed once at most.
    ///
    /// The faults: `Failed`, or `Damaged` with the first place of the range whose cell is lost.
    pub fn read_into(&mut self, file: u64, at: u64, out: &mut [u8]) -> Result<(), Fault>
        requires rules { RulesHold (clusters_in (filtered self.old)) (tables_now (filtered self.old)) }
        requires there { IsSome (find nat_cmp file (tables_now (filtered self.old)).files) }
        requires within { at + length out.old ≤ length (file_cells (inside_now (filtered self.old)) file) }
        ensures bytes { (stored : Typed) → IsTables (filtered self.old) stored → OnOk result (out.new ≡
            bytes_of (take (length out.old) (drop at (file_cells (inside_now (filtered self.old)) file)))) }
        ensures whole { (stored : Typed) → IsTables (filtered self.old) stored → OnOk result
            (lost_where (is_within at (length out.old)) 0 (file_cells (inside_now (filtered self.old)) file) ≡ None) }
        ensures damaged { (stored : Typed) → IsTables (filtered self.old) stored → (q : ℕ) →
            IsErrOf result (Fault.Damaged q) →
            lost_where (is_within at (length out.old)) 0 (file_cells (inside_now (filtered self.old)) file) ≡ Some q }
        ensures reads { ReadsOnly (filtered self.old) (filtered self.new) }
        ensures refused { OnErr result (((q : ℕ) × IsErrOf result (Fault.Damaged q)) ⊎ (IsErrOf result Fault.Failed ×
            Rose (disk_of (filtered self.old)).faults (disk_of (filtered self.new)).faults)) }
    {
        read_file(self.store.tables_mut(), file, at, out)
    }

    /// Writes a block that the base of a file covers, and that has no extent, as an extent of the file's own, so that no
    /// cell of the block comes from the base any more. No file sees it. The block gets a new cluster, as by a write of its
    /// bytes. After a refusal the tables are what they were. It takes no memory but for the tables.
    ///
    /// The faults: `Worn`, `TableFull` and `Full` where a write of the block's bytes would be refused so; then `Failed`, or
    /// `Damaged` with the first place of the block whose cell is lost; and `Memory`.
    pub fn recall_cluster(&mut self, file: u64, index: u32) -> Result<(), Fault>
        requires running { stopped (filtered self.old) ≡ false }
        requires sound { IsSound (filtered self.old) }
        requires there { IsSome (find nat_cmp file (tables_now (filtered self.old)).files) }
        requires covered { block_start index < covered_in (find nat_cmp file (tables_now (filtered self.old)).files) }
        requires hole { find pair_cmp (file, index) (tables_now (filtered self.old)).extents ≡ None }
        ensures reply { (w : Volume) → IsKept (filtered self.old) w → IsRepliedOrMemory
            (recall (lost_there (tables_now (filtered self.old)) (inside_now (filtered self.old)) file index) (view_now (filtered self.old)))
            (wanting (filtered self.old) (recall_needs (tables_now (filtered self.old)) file index))
            (disk_of (filtered self.old)).faults (disk_of (filtered self.new)).faults (done_reply result) }
        ensures refused { IfErr result (IsRecallRefused (filtered self.old) (filtered self.new)
            (recall_needs (tables_now (filtered self.old)) file index)) }
        ensures none { OnOk result (wanting (filtered self.old) (recall_needs (tables_now (filtered self.old)) file index) ≡ None) }
        ensures lost { (w : Volume) → IsKept (filtered self.old) w →
            TellsLost (lost_there (tables_now (filtered self.old)) (inside_now (filtered self.old)) file index) result }
        ensures recalled { OnOk result (IsRecalled file index (tables_now (filtered self.old)) (tables_now (filtered self.new))) }
        ensures err { OnErr result (tables_now (filtered self.new) ≡ tables_now (filtered self.old)) }
        ensures err_inside { OnErr result (inside_now (filtered self.new) ≡ inside_now (filtered self.old)) }
        ensures err_view { OnErr result (view_now (filtered self.new) ≡ view_now (filtered self.old)) }
        ensures inside { (w : Volume) → IsKept (filtered self.old) w → OnOk result (inside_now (filtered self.new) ≡
            with_recalled (tables_now (filtered self.old)) file index (inside_now (filtered self.old))) }
        ensures view { (w : Volume) → IsKept (filtered self.old) w → OnOk result (view_now (filtered self.new) ≡ view_now (filtered self.old)) }
        ensures sound { IsSound (filtered self.new) }
        ensures endures { Endures (filtered self.old) (filtered self.new) }
        ensures spends { Spends 1 0 (filtered self.old) (filtered self.new) }
        ensures stops { stopped (filtered self.new) ≡ true → IsErrOf result Fault.Failed }
        ensures failed { IsErrOf result Fault.Failed → Rose (disk_of (filtered self.old)).faults (disk_of (filtered self.new)).faults }
        ensures spares { Spares (filtered self.old) (filtered self.new) result }
        ensures pending { IsPending (recall_needs (tables_now (filtered self.old)) file index)
            (write_bytes (block_start index) (block_count (tables_now (filtered self.old)) file index))
            (filtered self.old) (filtered self.new) result }
        ensures roomed { (q : ℕ) → IsErrOf result (Fault.Damaged q) → pending_of (filtered self.new) ≡
            roomed_of (filtered self.old) (recall_needs (tables_now (filtered self.old)) file index) }
    {
        recall_cluster(self.store.tables_mut(), file, index)
    }

    /// Puts bytes at a place of a file that is there, with zeros up to it where the file is shorter; no bytes change
    /// nothing, and want nothing. The cells beside them in the blocks that they touch are read first, from extents and from
    /// the base; those under them are not, so lost cells can be written over. Each block that is touched gets a new cluster.
    /// After a refusal the tables are what they were. In the clauses `v` is a volume and `name` a name in it whose file has
    /// these cells.
    ///
    /// The faults, in their order: `TooLarge`; `TableFull`, `Full` or `Worn`, where a resource is wanting; `Damaged`, with
    /// the first place beside the bytes whose cell is lost; and, at any place behind the first, `Failed` and `Memory`.
    pub fn write(&mut self, file: u64, at: u64, bytes: &[u8]) -> Result<(), Fault>
        requires running { stopped (filtered self.old) ≡ false }
        requires sound { IsSound (filtered self.old) }
        requires there { IsSome (find nat_cmp file (tables_now (filtered self.old)).files) }
        ensures reply { (w : Volume) → IsKept (filtered self.old) w → (name : List ℕ) (v : Volume) → IsRepliedOrMemory
            (write name at bytes.now v (file_cells (inside_now (filtered self.old)) file))
            (write_wants (filtered self.old) file at bytes.now) (disk_of (filtered self.old)).faults (disk_of (filtered self.new)).faults
            (done_reply result) }
        ensures cells { (w : Volume) → IsKept (filtered self.old) w → OnOk result
            (file_cells (inside_now (filtered self.new)) file ≡
            overwritten at bytes.now (file_cells (inside_now (filtered self.old)) file)) }
        ensures inside { (w : Volume) → IsKept (filtered self.old) w → OnOk result
            (inside_now (filtered self.new) ≡ id_written file at bytes.now (inside_now (filtered self.old))) }
        ensures others { OnOk result ((other : ℕ) → (other ≡ file → ⊥) →
            file_cells (inside_now (filtered self.new)) other ≡ file_cells (inside_now (filtered self.old)) other) }
        ensures written { OnOk result (AreWritten file at bytes.now (tables_now (filtered self.old)) (tables_now (filtered self.new))) }
        ensures err { OnErr result (tables_now (filtered self.new) ≡ tables_now (filtered self.old)) }
        ensures err_inside { OnErr result (inside_now (filtered self.new) ≡ inside_now (filtered self.old)) }
        ensures sound { IsSound (filtered self.new) }
        ensures endures { Endures (filtered self.old) (filtered self.new) }
        ensures spends { Spends (touched_at at bytes.now) 0 (filtered self.old) (filtered self.new) }
        ensures stops { stopped (filtered self.new) ≡ true → IsErrOf result Fault.Failed }
        ensures refused { IfErr result (IsWriteFault (filtered self.old) (filtered self.new) file at bytes.now) }
        ensures failed { IsErrOf result Fault.Failed → Rose (disk_of (filtered self.old)).faults (disk_of (filtered self.new)).faults }
        ensures halts { IsErrOf result Fault.Failed → (stopped (filtered self.new) ≡ true) ⊎
            ReadsBeside (tables_now (filtered self.old)) file at (length bytes.now) }
        ensures spares { Spares (filtered self.old) (filtered self.new) result }
        ensures pending { IsWritePending file at bytes.now (filtered self.old) (filtered self.new) result }
        ensures waits { (q : ℕ) → IsErrOf result (Fault.Damaged q) → pending_of (filtered self.new) ≡ roomed_of (filtered self.old)
            (write_needs (tables_now (filtered self.old)) file at (length bytes.now)) }
    {
        write_file(self.store.tables_mut(), file, at, bytes)
    }

    /// Drops the base of a file of which each covered block has an extent. No file sees it. Room for the file's record
    /// was ensured. It takes no memory.
    pub fn drop_base(&mut self, file: u64)
        requires sound { IsSound (filtered self.old) }
        requires there { IsSome (find nat_cmp file (tables_now (filtered self.old)).files) }
        requires recalled { (p : ℕ) → IsOwn (tables_now (filtered self.old)) file p }
        requires room { staged_of (filtered self.old) + file_record_bytes ≤ MOST_RECORDS }
        ensures dropped { (was : Record) → find nat_cmp file (tables_now (filtered self.old)).files ≡ Some was →
            tables_now (filtered self.new) ≡ with_file file (without_base was) (tables_now (filtered self.old)) }
        ensures view { view_now (filtered self.new) ≡ view_now (filtered self.old) }
        ensures sound { IsSound (filtered self.new) }
        ensures stages { Stages file_record_bytes (filtered self.old) (filtered self.new) }
    {
        drop_base(self.store.tables_mut(), file)
    }
}
