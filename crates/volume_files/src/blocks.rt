//! The blocks of a file that bytes touch are made anew, all of them or none.

ghost use Rattle.std.specs.Prelude.{◌≡◌, ◌⊎◌, ◌≤◌, ◌<◌, ◌+◌, ◌*◌, ℕ, T, length, true, false, OnOk, OnErr};
ghost use Rattle.std.specs.Prelude.{IsErrOf, Some};
ghost use Rattle.std.specs.FinMap.{find, is_sorted};
ghost use Rattle.volume_inside.specs.declared.layout.TheConstants.{CLUSTER_BYTES, MOST_CLUSTERS};
ghost use Rattle.vdisk.specs.Causes.{Rose};
ghost use Rattle.plain_volume.specs.declared.limits.TheConstants.{MOST_BYTES_OF_A_CALL, MOST_BYTES_OF_A_FILE};
ghost use Rattle.cluster_space.specs.States.{IsIn, free_in};
ghost use Rattle.cluster_space.specs.declared.state.State.TheVariants.{Deferred};
ghost use Rattle.table_records.specs.Keys.{pair_cmp};
ghost use Rattle.table_records.specs.declared.records.Extent.{Extent};
ghost use Rattle.table_records.specs.declared.records.FileRecord.{FileRecord};
ghost use Rattle.volume_inside.specs.Changes.{with_extent, with_file};
ghost use Rattle.volume_inside.specs.Inside.{inside_at};
ghost use Rattle.volume_inside.specs.Layout.{half_bytes, first_data_cluster};
ghost use Rattle.volume_inside.specs.Rules.{RulesHold};
ghost use Rattle.volume_inside.specs.Typed.{Typed};
ghost use Rattle.volume_inside.specs.View.{cell};
ghost use Rattle.volume_tables.specs.declared.room.TheConstants.{MOST_RECORDS};
ghost use Rattle.volume_tables.specs.Clusters.{HasState};
ghost use Rattle.volume_tables.specs.Frames.{AreFree, NamesNoFree};
ghost use Rattle.volume_tables.specs.Tables.{tables_now, inside_now, states_of, staged_of, checkpoint_of, disk_of};
ghost use Rattle.volume_tables.specs.Tables.{stopped, IsTables, Leaves};
ghost use Rattle.volume_tables.specs.Spending.{Spends};
ghost use Rattle.volume_files.specs.Edges.{edge_byte};
ghost use Rattle.volume_files.specs.Insides.{blocks_written, with_blocks};
ghost use Rattle.volume_files.specs.Needs.{missing};
ghost use Rattle.volume_files.specs.Writing.{blocks_up_to, AreAhead, AreExtentsSet, AreFilled, LosesNone};

use crate::block::{BLOCK, write_block};
use crate::edges::Edges;
use cluster_space::Run;
use plain_volume::Fault;
use vdisk::Disk;
use volume_tables::{Extent, FileRecord, Tables};

/// Gives a key, which has the extent `named`, the one that it had before, or none. The cluster of the one before is
/// deferred.
fn restore_extent<D: Disk>(
    tables: &mut Tables<D>,
    key: (u64, u32),
    named: Extent,
    was: Option<Extent>,
)
    requires room { staged_of tables.old + 31 ≤ MOST_RECORDS }
    requires low { key.1 < MOST_CLUSTERS }
    requires there { find pair_cmp key (tables_now tables.old).extents ≡ Some named }
    requires deferred { (o : Extent) → was ≡ Some o →
        HasState tables.old.clusters (states_of tables.old) Deferred o.cluster }
    ensures tables { (t : Typed) (e : Extent) → T (is_sorted pair_cmp t.extents) → find pair_cmp key t.extents ≡ was →
        tables_now tables.old ≡ with_extent key e t → tables_now tables.new ≡ t }
    ensures leaves { Leaves tables.old tables.new }
    ensures deferred { (k : ℕ) → IsIn (states_of tables.old) k Deferred →
        ((o : Extent) → was ≡ Some o → o.cluster ≡ first_data_cluster tables.old.clusters + k → ⊥) →
        IsIn (states_of tables.new) k Deferred }
    ensures loses_none { LosesNone tables.old tables.new }
    ensures staged { staged_of tables.new ≤ staged_of tables.old + 31 }
    ensures image { (disk_of tables.new).image ≡ (disk_of tables.old).image }
    ensures running { stopped tables.new ≡ stopped tables.old }
{
    match was {
        None => tables.drop_extent(key, Some((key.0, key.1 + 1))),
        Some(extent) => tables.set_extent(key, Some(named), extent).unwrap(),
    }
}

/// Writes the part of bytes that belong at the place `at` of a file which lies in its blocks from `index` on. What they
/// leave of these blocks is that of the edges. The file is as long as its record `grown` says, and `ahead` are clusters
/// that were written ahead for these blocks. A refusal leaves the tables as they are. It calls itself once for each
/// block, at most 257 times.
pub(crate) fn write_blocks<D: Disk>(
    tables: &mut Tables<D>,
    file: u64,
    grown: FileRecord,
    edges: &Edges,
    at: u64,
    bytes: &[u8],
    index: u32,
    ahead: Run,
) -> Result<(), Fault>
    requires running { stopped tables.old ≡ false }
    requires rules { RulesHold tables.old.clusters (with_file file grown (tables_now tables.old)) }
    requires short { length bytes.now ≤ MOST_BYTES_OF_A_CALL }
    requires reach { at + length bytes.now ≤ grown.length }
    requires most { grown.length ≤ MOST_BYTES_OF_A_FILE }
    requires from_first { at < CLUSTER_BYTES * index + CLUSTER_BYTES }
    requires clusters { blocks_up_to (at + length bytes.now) index ≤ free_in (states_of tables.old) }
    requires room { staged_of tables.old + 55 * blocks_up_to (at + length bytes.now) index ≤ MOST_RECORDS }
    requires fits { checkpoint_of tables.old +
        24 * missing (tables_now tables.old) file index (blocks_up_to (at + length bytes.now) index)
        ≤ half_bytes tables.old.clusters }
    requires free { AreFree tables.old.clusters (states_of tables.old) ahead }
    requires filled { AreFilled (CLUSTER_BYTES * index) at (length bytes.now) ahead.count }
    ensures ok { OnOk result (AreExtentsSet file (CLUSTER_BYTES * index) (at + length bytes.now)
        (tables_now tables.old) (tables_now tables.new)) }
    ensures err { OnErr result (tables_now tables.new ≡ tables_now tables.old) }
    ensures rules { OnOk result (RulesHold tables.new.clusters (with_file file grown (tables_now tables.new))) }
    ensures others { OnOk result ((other p : ℕ) (record_of : FileRecord) → (other ≡ file → ⊥) →
        cell (inside_now tables.new) other record_of p ≡ cell (inside_now tables.old) other record_of p) }
    ensures inside { (stored : Typed) → IsTables tables.old stored →
        AreAhead (CLUSTER_BYTES * index) at bytes.now ahead (disk_of tables.old).image → OnOk result (inside_now tables.new ≡
        with_blocks (blocks_written file grown.length at bytes.now (edge_byte edges.now at) index
        (blocks_up_to (at + length bytes.now) index) (inside_now tables.old).blocks) (inside_now tables.old)) }
    ensures frame { (t : Typed) → NamesNoFree tables.old.clusters (states_of tables.old) t →
        inside_at t (disk_of tables.new).image ≡ inside_at t (disk_of tables.old).image }
    ensures leaves { Leaves tables.old tables.new }
    ensures spends { Spends (blocks_up_to (at + length bytes.now) index) 0 tables.old tables.new }
    ensures deferred { (k : ℕ) → IsIn (states_of tables.old) k Deferred → IsIn (states_of tables.new) k Deferred }
    ensures loses_none { LosesNone tables.old tables.new }
    ensures most { staged_of tables.new ≤
        staged_of tables.old + 55 * blocks_up_to (at + length bytes.now) index }
    ensures staged { OnOk result (staged_of tables.new ≡
        staged_of tables.old + 24 * blocks_up_to (at + length bytes.now) index) }
    ensures taken { OnOk result (free_in (states_of tables.new) + blocks_up_to (at + length bytes.now) index ≡
        free_in (states_of tables.old)) }
    ensures runs { OnOk result (stopped tables.new ≡ false) }
    ensures stops { stopped tables.new ≡ true → IsErrOf result Fault.Failed }
    ensures refused { OnErr result (IsErrOf result Fault.Failed ⊎ IsErrOf result Fault.Memory) }
    ensures failed { IsErrOf result Fault.Failed → Rose (disk_of tables.old).faults (disk_of tables.new).faults }
    ensures halts { IsErrOf result Fault.Failed → stopped tables.new ≡ true }
{
    if BLOCK * index as u64 >= at + bytes.len() as u64 {
        return Ok(());
    }
    let key = (file, index);
    let was = tables.get_extent(key);
    let written = write_block(tables, key, was, grown, edges, at, bytes, ahead)?;
    match write_blocks(
        tables,
        file,
        grown,
        edges,
        at,
        bytes,
        index + 1,
        written.ahead,
    ) {
        Ok(()) => Ok(()),
        Err(fault) => {
            restore_extent(tables, key, written.extent, was);
            Err(fault)
        }
    }
}
