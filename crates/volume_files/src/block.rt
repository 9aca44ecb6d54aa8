//! A block of a file is made anew and set.

ghost use Rattle.std.specs.Prelude.{◌≡◌, ◌⊎◌, ◌↔◌, ◌≤◌, ◌<◌, ◌+◌, ◌-◌, ◌*◌, ℕ, length, slice_index, ◌++◌, true};
ghost use Rattle.std.specs.Prelude.{false, min, take, drop, IfOk, OnOk, OnErr, IsErrOf, IsTrue, Some};
ghost use Rattle.std.specs.FinMap.{find};
ghost use Rattle.vdisk.specs.Causes.{Rose};
ghost use Rattle.plain_volume.specs.declared.limits.TheConstants.{MOST_BYTES_OF_A_CALL, MOST_BYTES_OF_A_FILE};
ghost use Rattle.cluster_space.specs.States.{free_in};
ghost use Rattle.cluster_space.specs.declared.state.State.TheVariants.{Deferred, Free};
ghost use Rattle.table_records.specs.Keys.{pair_cmp};
ghost use Rattle.table_records.specs.declared.records.Extent.{Extent};
ghost use Rattle.volume_inside.specs.Changes.{with_block, with_extent, with_file};
ghost use Rattle.volume_inside.specs.Inside.{block_of, inside_at};
ghost use Rattle.volume_inside.specs.Layout.{half_bytes};
ghost use Rattle.volume_inside.specs.Rules.{RulesHold};
ghost use Rattle.volume_inside.specs.Typed.{Typed};
ghost use Rattle.volume_tables.specs.declared.room.TheConstants.{MOST_RECORDS};
ghost use Rattle.volume_tables.specs.Clusters.{HasState};
ghost use Rattle.volume_tables.specs.Frames.{AreFree, NamesNoFree};
ghost use Rattle.volume_tables.specs.Tables.{tables_now, inside_now, states_of, staged_of, checkpoint_of, disk_of};
ghost use Rattle.volume_tables.specs.Tables.{stopped, new_bytes, IsTables, Leaves};
ghost use Rattle.volume_files.specs.Edges.{edge_byte};
ghost use Rattle.volume_files.specs.Insides.{block_written};
ghost use Rattle.volume_files.specs.Writing.{laid, without_first, AreAhead, AreFilled, HasLaid};
ghost use Rattle.volume_files.specs.Writing.{IsNoFreer, LosesNone};

use crate::edges::Edges;
use cluster_space::Run;
use plain_volume::Fault;
use vdisk::Disk;
use volume_inside::CLUSTER_BYTES;
use volume_tables::{Extent, FileRecord, Tables};

/// How many bytes a block has.
pub(crate) const BLOCK: u64 = CLUSTER_BYTES as u64;

/// The same as the length of an array.
pub(crate) const BLOCK_BYTES: usize = BLOCK as usize;

/// Puts bytes in the place of others.
fn put_part(block: &mut [u8], from: usize, part: &[u8])
    requires { from + length part.now ≤ length block.old }
    ensures { block.new ≡ take from block.old ++ part.now ++ drop (from + length part.now) block.old }
{
    block[from..from + part.len()].copy_from_slice(part);
}

/// Lays bytes that belong at the place `at` of a file over its block that begins at `start`. Some of them lie in it.
fn lay_over(block: &mut [u8; BLOCK_BYTES], start: u64, at: u64, bytes: &[u8])
    requires short { length bytes.now ≤ MOST_BYTES_OF_A_CALL }
    requires low { at ≤ MOST_BYTES_OF_A_FILE }
    requires block_low { start ≤ MOST_BYTES_OF_A_FILE }
    requires before { at < start + CLUSTER_BYTES }
    requires behind { start < at + length bytes.now }
    ensures { (o : ℕ) → o < CLUSTER_BYTES → slice_index block.new o ≡
        laid at bytes.now (start + o) (slice_index block.old o) }
{
    let from = at.saturating_sub(start) as usize;
    let skipped = start.saturating_sub(at) as usize;
    let count = (bytes.len() - skipped).min(BLOCK_BYTES - from);
    put_part(block, from, &bytes[skipped..skipped + count]);
}

/// Whether so many bytes that belong at the place `at` of a file fill its block that begins at `start`.
pub(crate) fn fills(start: u64, at: u64, count: usize) -> bool
    requires low { at ≤ MOST_BYTES_OF_A_FILE }
    requires block_low { start ≤ MOST_BYTES_OF_A_FILE }
    requires short { count ≤ MOST_BYTES_OF_A_CALL }
    ensures { IsTrue result ↔ (at ≤ start) × (start + CLUSTER_BYTES ≤ at + count) }
{
    at <= start && start + BLOCK <= at + count as u64
}

/// A block of a file, once bytes were written at the place `at` of the file, some of which lie in it. What they leave of
/// it is that of its edge.
fn block_with(edges: &Edges, index: u32, at: u64, bytes: &[u8]) -> [u8; BLOCK_BYTES]
    requires short { length bytes.now ≤ MOST_BYTES_OF_A_CALL }
    requires low { at ≤ MOST_BYTES_OF_A_FILE }
    requires block_low { CLUSTER_BYTES * index ≤ MOST_BYTES_OF_A_FILE }
    requires before { at < CLUSTER_BYTES * index + CLUSTER_BYTES }
    requires behind { CLUSTER_BYTES * index < at + length bytes.now }
    ensures { (o : ℕ) → o < CLUSTER_BYTES → slice_index result o ≡
        laid at bytes.now (CLUSTER_BYTES * index + o) (edge_byte edges.now at (CLUSTER_BYTES * index + o)) }
{
    let mut block = if index as u64 == at / BLOCK {
        edges.first
    } else {
        edges.last
    };
    lay_over(&mut block, BLOCK * index as u64, at, bytes);
    block
}

/// Writes a block of a file into a free cluster, as it is once bytes were written at the place `at` of the file, which
/// do not fill it. Answers the run of that cluster.
fn write_alone<D: Disk>(
    tables: &mut Tables<D>,
    edges: &Edges,
    index: u32,
    at: u64,
    bytes: &[u8],
) -> Result<Run, Fault>
    requires running { stopped tables.old ≡ false }
    requires short { length bytes.now ≤ MOST_BYTES_OF_A_CALL }
    requires low { at ≤ MOST_BYTES_OF_A_FILE }
    requires block_low { CLUSTER_BYTES * index ≤ MOST_BYTES_OF_A_FILE }
    requires before { at < CLUSTER_BYTES * index + CLUSTER_BYTES }
    requires behind { CLUSTER_BYTES * index < at + length bytes.now }
    requires some { 0 < free_in (states_of tables.old) }
    ensures one { IfOk result (λ run. run.count ≡ 1) }
    ensures free { IfOk result (λ run. AreFree tables.old.clusters (states_of tables.old) run) }
    ensures block { (stored : Typed) → IsTables tables.old stored → IfOk result (λ run.
        HasLaid (CLUSTER_BYTES * index) at bytes.now (edge_byte edges.now at) (disk_of tables.new).image run.first) }
    ensures now { tables_now tables.new ≡ tables_now tables.old }
    ensures states { states_of tables.new ≡ states_of tables.old }
    ensures same { inside_now tables.new ≡ inside_now tables.old }
    ensures frame { (t : Typed) → NamesNoFree tables.old.clusters (states_of tables.old) t →
        inside_at t (disk_of tables.new).image ≡ inside_at t (disk_of tables.old).image }
    ensures leaves { Leaves tables.old tables.new }
    ensures staged { staged_of tables.new ≡ staged_of tables.old }
    ensures checkpoint { checkpoint_of tables.new ≡ checkpoint_of tables.old }
    ensures runs { OnOk result (stopped tables.new ≡ false) }
    ensures failed { OnErr result (IsErrOf result Fault.Failed ×
        Rose (disk_of tables.old).faults (disk_of tables.new).faults) }
    ensures stops { OnErr result (stopped tables.new ≡ true) }
{
    let block = block_with(edges, index, at, bytes);
    tables.write_free_run(&block)
}

/// Writes the blocks from the one on that begins at `start`, which bytes fill that belong at the place `at` of the
/// file, into free clusters, at once: as many as are found beside one another.
fn write_filled<D: Disk>(
    tables: &mut Tables<D>,
    start: u64,
    at: u64,
    bytes: &[u8],
) -> Result<Run, Fault>
    requires running { stopped tables.old ≡ false }
    requires short { length bytes.now ≤ MOST_BYTES_OF_A_CALL }
    requires low { at ≤ start }
    requires filled { start + CLUSTER_BYTES ≤ at + length bytes.now }
    requires some { 0 < free_in (states_of tables.old) }
    ensures some { IfOk result (λ run. 0 < run.count) }
    ensures free { IfOk result (λ run. AreFree tables.old.clusters (states_of tables.old) run) }
    ensures filled { IfOk result (λ run. AreFilled start at (length bytes.now) run.count) }
    ensures ahead { (stored : Typed) → IsTables tables.old stored → IfOk result (λ run.
        AreAhead start at bytes.now run (disk_of tables.new).image) }
    ensures now { tables_now tables.new ≡ tables_now tables.old }
    ensures states { states_of tables.new ≡ states_of tables.old }
    ensures same { inside_now tables.new ≡ inside_now tables.old }
    ensures frame { (t : Typed) → NamesNoFree tables.old.clusters (states_of tables.old) t →
        inside_at t (disk_of tables.new).image ≡ inside_at t (disk_of tables.old).image }
    ensures leaves { Leaves tables.old tables.new }
    ensures staged { staged_of tables.new ≡ staged_of tables.old }
    ensures checkpoint { checkpoint_of tables.new ≡ checkpoint_of tables.old }
    ensures runs { OnOk result (stopped tables.new ≡ false) }
    ensures failed { OnErr result (IsErrOf result Fault.Failed ×
        Rose (disk_of tables.old).faults (disk_of tables.new).faults) }
    ensures stops { OnErr result (stopped tables.new ≡ true) }
{
    tables.write_free_run(&bytes[(start - at) as usize..])
}

/// Sees to it that a free cluster has a block of a file, as it is once bytes were written at the place `at` of the file.
/// Such a cluster was written ahead, or it is written now, and those of the blocks behind it which the bytes fill with
/// it. Answers the clusters written ahead, from this block on.
fn write_ahead<D: Disk>(
    tables: &mut Tables<D>,
    edges: &Edges,
    index: u32,
    at: u64,
    bytes: &[u8],
    ahead: Run,
) -> Result<Run, Fault>
    requires running { stopped tables.old ≡ false }
    requires short { length bytes.now ≤ MOST_BYTES_OF_A_CALL }
    requires low { at ≤ MOST_BYTES_OF_A_FILE }
    requires block_low { CLUSTER_BYTES * index ≤ MOST_BYTES_OF_A_FILE }
    requires before { at < CLUSTER_BYTES * index + CLUSTER_BYTES }
    requires behind { CLUSTER_BYTES * index < at + length bytes.now }
    requires some { 0 < free_in (states_of tables.old) }
    requires free { AreFree tables.old.clusters (states_of tables.old) ahead }
    requires filled { AreFilled (CLUSTER_BYTES * index) at (length bytes.now) ahead.count }
    ensures some { IfOk result (λ run. 0 < run.count) }
    ensures free { IfOk result (λ run. AreFree tables.old.clusters (states_of tables.old) run) }
    ensures filled { IfOk result (λ run. AreFilled (CLUSTER_BYTES * index + CLUSTER_BYTES) at (length bytes.now) (run.count - 1)) }
    ensures block { (stored : Typed) → IsTables tables.old stored →
        AreAhead (CLUSTER_BYTES * index) at bytes.now ahead (disk_of tables.old).image → IfOk result (λ run.
        HasLaid (CLUSTER_BYTES * index) at bytes.now (edge_byte edges.now at) (disk_of tables.new).image run.first) }
    ensures ahead { (stored : Typed) → IsTables tables.old stored →
        AreAhead (CLUSTER_BYTES * index) at bytes.now ahead (disk_of tables.old).image → IfOk result (λ run.
        AreAhead (CLUSTER_BYTES * index + CLUSTER_BYTES) at bytes.now (without_first run) (disk_of tables.new).image) }
    ensures now { tables_now tables.new ≡ tables_now tables.old }
    ensures states { states_of tables.new ≡ states_of tables.old }
    ensures same { inside_now tables.new ≡ inside_now tables.old }
    ensures frame { (t : Typed) → NamesNoFree tables.old.clusters (states_of tables.old) t →
        inside_at t (disk_of tables.new).image ≡ inside_at t (disk_of tables.old).image }
    ensures leaves { Leaves tables.old tables.new }
    ensures staged { staged_of tables.new ≡ staged_of tables.old }
    ensures checkpoint { checkpoint_of tables.new ≡ checkpoint_of tables.old }
    ensures runs { OnOk result (stopped tables.new ≡ false) }
    ensures failed { OnErr result (IsErrOf result Fault.Failed ×
        Rose (disk_of tables.old).faults (disk_of tables.new).faults) }
    ensures stops { OnErr result (stopped tables.new ≡ true) }
{
    if ahead.count > 0 {
        return Ok(ahead);
    }
    let start = BLOCK * index as u64;
    if fills(start, at, bytes.len()) {
        return write_filled(tables, start, at, bytes);
    }
    write_alone(tables, edges, index, at, bytes)
}

/// Takes a free cluster and names it as the block of a key, of which `valid` bytes are the file's; the key's extent was
/// `was`. Answers the new extent.
fn name_block<D: Disk>(
    tables: &mut Tables<D>,
    key: (u64, u32),
    was: Option<Extent>,
    cluster: u32,
    valid: u16,
) -> Result<Extent, Fault>
    requires running { stopped tables.old ≡ false }
    requires is { was ≡ find pair_cmp key (tables_now tables.old).extents }
    requires some { HasState tables.old.clusters (states_of tables.old) Free cluster }
    requires room { staged_of tables.old + 24 ≤ MOST_RECORDS }
    requires fits { checkpoint_of tables.old + new_bytes (find pair_cmp key (tables_now tables.old).extents) 24
        ≤ half_bytes tables.old.clusters }
    ensures ok { IfOk result (λ e. tables_now tables.new ≡ with_extent key e (tables_now tables.old)) }
    ensures err { OnErr result (tables_now tables.new ≡ tables_now tables.old) }
    ensures valid { IfOk result (λ e. e.valid ≡ valid) }
    ensures cluster { IfOk result (λ e. e.cluster ≡ cluster) }
    ensures image { (disk_of tables.new).image ≡ (disk_of tables.old).image }
    ensures others { OnOk result ((c : ℕ) → (c ≡ cluster → ⊥) →
        HasState tables.old.clusters (states_of tables.old) Free c →
        HasState tables.new.clusters (states_of tables.new) Free c) }
    ensures leaves { Leaves tables.old tables.new }
    ensures replaced { IfOk result (λ e. (o : Extent) →
        find pair_cmp key (tables_now tables.old).extents ≡ Some o →
        HasState tables.new.clusters (states_of tables.new) Deferred o.cluster) }
    ensures fewer { IsNoFreer (states_of tables.old) (states_of tables.new) }
    ensures free { OnOk result (free_in (states_of tables.new) + 1 ≡ free_in (states_of tables.old)) }
    ensures loses_none { LosesNone tables.old tables.new }
    ensures staged { OnOk result (staged_of tables.new ≡ staged_of tables.old + 24) }
    ensures none_staged { OnErr result (staged_of tables.new ≡ staged_of tables.old) }
    ensures checkpoint { OnOk result (checkpoint_of tables.new ≡
        checkpoint_of tables.old + new_bytes (find pair_cmp key (tables_now tables.old).extents) 24) }
    ensures runs { OnOk result (stopped tables.new ≡ false) }
    ensures stops { stopped tables.new ≡ true → IsErrOf result Fault.Failed }
    ensures refused { OnErr result (IsErrOf result Fault.Failed ⊎ IsErrOf result Fault.Memory) }
    ensures failed { IsErrOf result Fault.Failed → Rose (disk_of tables.old).faults (disk_of tables.new).faults }
    ensures halts { IsErrOf result Fault.Failed → stopped tables.new ≡ true }
{
    tables.take_free(cluster);
    let extent = Extent { cluster, valid };
    tables.set_extent(key, was, extent)?;
    Ok(extent)
}

/// A block that was written: its new extent, and the clusters that were written ahead for the blocks behind it.
#[derive(Clone, Copy)]
pub(crate) struct Written {
    pub(crate) extent: Extent,
    pub(crate) ahead: Run,
}

/// Writes the part of bytes that belong at the place `at` of a file which lies in one of its blocks: `key` is the
/// file's id and the block's number, `was` the block's extent. What the bytes leave of the block is that of its edge. The
/// file is as long as its record `grown` says, and `ahead` are clusters that were written ahead, for this block and those
/// behind it.
pub(crate) fn write_block<D: Disk>(
    tables: &mut Tables<D>,
    key: (u64, u32),
    was: Option<Extent>,
    grown: FileRecord,
    edges: &Edges,
    at: u64,
    bytes: &[u8],
    ahead: Run,
) -> Result<Written, Fault>
    requires running { stopped tables.old ≡ false }
    requires is { was ≡ find pair_cmp key (tables_now tables.old).extents }
    requires rules { RulesHold tables.old.clusters (with_file key.0 grown (tables_now tables.old)) }
    requires short { length bytes.now ≤ MOST_BYTES_OF_A_CALL }
    requires reach { at + length bytes.now ≤ grown.length }
    requires before { at < CLUSTER_BYTES * key.1 + CLUSTER_BYTES }
    requires behind { CLUSTER_BYTES * key.1 < at + length bytes.now }
    requires most { grown.length ≤ MOST_BYTES_OF_A_FILE }
    requires some { 0 < free_in (states_of tables.old) }
    requires room { staged_of tables.old + 24 ≤ MOST_RECORDS }
    requires fits { checkpoint_of tables.old + new_bytes was 24 ≤ half_bytes tables.old.clusters }
    requires free { AreFree tables.old.clusters (states_of tables.old) ahead }
    requires filled { AreFilled (CLUSTER_BYTES * key.1) at (length bytes.now) ahead.count }
    ensures ok { IfOk result (λ w. tables_now tables.new ≡ with_extent key w.extent (tables_now tables.old)) }
    ensures err { OnErr result (tables_now tables.new ≡ tables_now tables.old) }
    ensures free_ahead { IfOk result (λ w. AreFree tables.new.clusters (states_of tables.new) w.ahead) }
    ensures filled { IfOk result (λ w. AreFilled (CLUSTER_BYTES * (key.1 + 1)) at (length bytes.now) w.ahead.count) }
    ensures ahead { (stored : Typed) → IsTables tables.old stored →
        AreAhead (CLUSTER_BYTES * key.1) at bytes.now ahead (disk_of tables.old).image → IfOk result (λ w.
        AreAhead (CLUSTER_BYTES * (key.1 + 1)) at bytes.now w.ahead (disk_of tables.new).image) }
    ensures rules { RulesHold tables.new.clusters (with_file key.0 grown (tables_now tables.new)) }
    ensures inside { IfOk result (λ w. inside_now tables.new ≡
        with_block key (block_of w.extent (disk_of tables.new).image) (inside_now tables.old)) }
    ensures block { (stored : Typed) → IsTables tables.old stored →
        AreAhead (CLUSTER_BYTES * key.1) at bytes.now ahead (disk_of tables.old).image → IfOk result (λ w.
        block_of w.extent (disk_of tables.new).image ≡ block_written grown.length at bytes.now
        (edge_byte edges.now at) key.1) }
    ensures frame { (t : Typed) → NamesNoFree tables.old.clusters (states_of tables.old) t →
        inside_at t (disk_of tables.new).image ≡ inside_at t (disk_of tables.old).image }
    ensures leaves { Leaves tables.old tables.new }
    ensures replaced { IfOk result (λ w. (o : Extent) → was ≡ Some o →
        HasState tables.new.clusters (states_of tables.new) Deferred o.cluster) }
    ensures fewer { IsNoFreer (states_of tables.old) (states_of tables.new) }
    ensures free { OnOk result (free_in (states_of tables.new) + 1 ≡ free_in (states_of tables.old)) }
    ensures loses_none { LosesNone tables.old tables.new }
    ensures staged { OnOk result (staged_of tables.new ≡ staged_of tables.old + 24) }
    ensures none_staged { OnErr result (staged_of tables.new ≡ staged_of tables.old) }
    ensures checkpoint { OnOk result (checkpoint_of tables.new ≡ checkpoint_of tables.old + new_bytes was 24) }
    ensures runs { OnOk result (stopped tables.new ≡ false) }
    ensures stops { stopped tables.new ≡ true → IsErrOf result Fault.Failed }
    ensures refused { OnErr result (IsErrOf result Fault.Failed ⊎ IsErrOf result Fault.Memory) }
    ensures failed { IsErrOf result Fault.Failed → Rose (disk_of tables.old).faults (disk_of tables.new).faults }
    ensures halts { IsErrOf result Fault.Failed → stopped tables.new ≡ true }
{
    let ready = write_ahead(tables, edges, key.1, at, bytes, ahead)?;
    let valid = BLOCK.min(grown.length - BLOCK * key.1 as u64) as u16;
    let extent = name_block(tables, key, was, ready.first, valid)?;
    Ok(Written {
        extent,
        ahead: Run {
            first: ready.first + 1,
            count: ready.count - 1,
        },
    })
}
