//! What the blocks at the two edges of bytes hold is read, before these are written.

ghost use Rattle.std.specs.Prelude.{◌≡◌, ◌≤◌, ◌<◌, ◌+◌, ◌++◌, ◌*◌, ℕ, slice_index, length, drop, IfOk, OnOk, OnErr};
ghost use Rattle.std.specs.Prelude.{IfSome, IsSome, IsErrOf};
ghost use Rattle.std.specs.FinMap.{find};
ghost use Rattle.vdisk.specs.Causes.{Rose};
ghost use Rattle.table_records.specs.Keys.{pair_cmp};
ghost use Rattle.volume_inside.specs.Inside.{block_of};
ghost use Rattle.volume_inside.specs.Rules.{RulesHold};
ghost use Rattle.volume_inside.specs.Typed.{Typed};
ghost use Rattle.volume_tables.specs.Tables.{tables_now, inside_now, states_of, staged_of, checkpoint_of, disk_of};
ghost use Rattle.volume_tables.specs.Tables.{stopped, IsTables, Leaves};
ghost use Rattle.volume_files.specs.Edges.{AreEdges};
ghost use Rattle.volume_files.specs.Own.{AreOwnBeside};
ghost use Rattle.volume_files.specs.Reads.{byte_at};
ghost use Rattle.volume_files.specs.Writing.{named_bytes, IsReadable, IsReadFirst, ReadsFirst};

use crate::block::{BLOCK, BLOCK_BYTES, fills};
use plain_volume::Fault;
use plain_volume::limits::{MOST_BYTES_OF_A_CALL, MOST_BYTES_OF_A_FILE};
use vdisk::Disk;
use volume_inside::CLUSTER_BYTES;
use volume_tables::{Extent, Tables};

/// What the first and the last block of a file that some bytes touch hold before these are written, with zeros behind
/// the end of the file. Where the bytes touch one block alone, only `first` counts. A byte that the bytes cover may be
/// any.
#[derive(Clone, Copy)]
pub struct Edges {
    pub first: [u8; BLOCK_BYTES],
    pub last: [u8; BLOCK_BYTES],
}

/// Reads the bytes that an extent names into the front of a block.
fn read_extent<D: Disk>(
    tables: &mut Tables<D>,
    extent: Extent,
    block: &mut [u8],
) -> Result<(), Fault>
    requires readable { IsReadable tables.old.clusters extent }
    requires whole { length block.old ≡ CLUSTER_BYTES }
    ensures bytes { (stored : Typed) → IsTables tables.old stored → OnOk result (block.new ≡
        block_of extent (disk_of tables.old).image ++ drop extent.valid block.old) }
    ensures now { tables_now tables.new ≡ tables_now tables.old }
    ensures states { states_of tables.new ≡ states_of tables.old }
    ensures image { (disk_of tables.new).image ≡ (disk_of tables.old).image }
    ensures leaves { Leaves tables.old tables.new }
    ensures staged { staged_of tables.new ≡ staged_of tables.old }
    ensures checkpoint { checkpoint_of tables.new ≡ checkpoint_of tables.old }
    ensures running { stopped tables.new ≡ stopped tables.old }
    ensures failed { OnErr result (IsErrOf result Fault.Failed ×
        Rose (disk_of tables.old).faults (disk_of tables.new).faults) }
{
    tables.read_run(extent.cluster, 0, &mut block[..extent.valid as usize])
}

/// Reads the bytes that an extent names, if there is one, into a block of zeros.
fn read_block<D: Disk>(
    tables: &mut Tables<D>,
    was: Option<Extent>,
    block: &mut [u8; BLOCK_BYTES],
) -> Result<(), Fault>
    requires readable { IfSome was (IsReadable tables.old.clusters) }
    requires zeros { (o : ℕ) → slice_index block.old o ≡ 0 }
    ensures bytes { (stored : Typed) → IsTables tables.old stored → OnOk result ((o : ℕ) → o < CLUSTER_BYTES →
        slice_index block.new o ≡ slice_index (named_bytes was (disk_of tables.old).image) o) }
    ensures now { tables_now tables.new ≡ tables_now tables.old }
    ensures states { states_of tables.new ≡ states_of tables.old }
    ensures image { (disk_of tables.new).image ≡ (disk_of tables.old).image }
    ensures leaves { Leaves tables.old tables.new }
    ensures staged { staged_of tables.new ≡ staged_of tables.old }
    ensures checkpoint { checkpoint_of tables.new ≡ checkpoint_of tables.old }
    ensures running { stopped tables.new ≡ stopped tables.old }
    ensures failed { OnErr result (IsErrOf result Fault.Failed ×
        Rose (disk_of tables.old).faults (disk_of tables.new).faults) }
    ensures read { OnErr result (IsSome was) }
{
    match was {
        None => Ok(()),
        Some(extent) => read_extent(tables, extent, block),
    }
}

/// Reads a block of a file as far as its extent names bytes, with zeros behind them. A block that so many bytes at the
/// place `at` fill is not read, and answers zeros.
fn read_edge<D: Disk>(
    tables: &mut Tables<D>,
    file: u64,
    index: u32,
    at: u64,
    count: usize,
) -> Result<[u8; BLOCK_BYTES], Fault>
    requires rules { RulesHold tables.old.clusters (tables_now tables.old) }
    requires short { count ≤ MOST_BYTES_OF_A_CALL }
    requires low { at ≤ MOST_BYTES_OF_A_FILE }
    requires block_low { CLUSTER_BYTES * index ≤ MOST_BYTES_OF_A_FILE }
    ensures bytes { (stored : Typed) → IsTables tables.old stored →
        ((at ≤ CLUSTER_BYTES * index) × (CLUSTER_BYTES * index + CLUSTER_BYTES ≤ at + count) → ⊥) →
        IfOk result (λ block. (o : ℕ) → o < CLUSTER_BYTES →
        slice_index block o ≡ byte_at (inside_now tables.old) file (CLUSTER_BYTES * index + o)) }
    ensures now { tables_now tables.new ≡ tables_now tables.old }
    ensures states { states_of tables.new ≡ states_of tables.old }
    ensures image { (disk_of tables.new).image ≡ (disk_of tables.old).image }
    ensures leaves { Leaves tables.old tables.new }
    ensures staged { staged_of tables.new ≡ staged_of tables.old }
    ensures checkpoint { checkpoint_of tables.new ≡ checkpoint_of tables.old }
    ensures running { stopped tables.new ≡ stopped tables.old }
    ensures failed { OnErr result (IsErrOf result Fault.Failed ×
        Rose (disk_of tables.old).faults (disk_of tables.new).faults) }
    ensures read { OnErr result (IsReadFirst (CLUSTER_BYTES * index) at count
        (find pair_cmp (file, index) (tables_now tables.old).extents)) }
{
    let mut block = [0; BLOCK_BYTES];
    if fills(BLOCK * index as u64, at, count) {
        return Ok(block);
    }
    let was = tables.get_extent((file, index));
    read_block(tables, was, &mut block)?;
    Ok(block)
}

/// Reads what the first and the last block of a file that so many bytes at the place `at` touch hold, which are to be
/// written there; nothing that they do not cover of these blocks comes from a base. A block that they fill, or that has
/// no extent, is not read.
pub fn read_edges<D: Disk>(
    tables: &mut Tables<D>,
    file: u64,
    at: u64,
    count: usize,
) -> Result<Edges, Fault>
    requires rules { RulesHold tables.old.clusters (tables_now tables.old) }
    requires some { 0 < count }
    requires short { count ≤ MOST_BYTES_OF_A_CALL }
    requires within { at + count ≤ MOST_BYTES_OF_A_FILE }
    requires own { AreOwnBeside (tables_now tables.old) file at count }
    ensures edges { (stored : Typed) → IsTables tables.old stored →
        IfOk result (AreEdges (inside_now tables.old) file at count) }
    ensures now { tables_now tables.new ≡ tables_now tables.old }
    ensures states { states_of tables.new ≡ states_of tables.old }
    ensures image { (disk_of tables.new).image ≡ (disk_of tables.old).image }
    ensures leaves { Leaves tables.old tables.new }
    ensures staged { staged_of tables.new ≡ staged_of tables.old }
    ensures checkpoint { checkpoint_of tables.new ≡ checkpoint_of tables.old }
    ensures running { stopped tables.new ≡ stopped tables.old }
    ensures failed { OnErr result (IsErrOf result Fault.Failed ×
        Rose (disk_of tables.old).faults (disk_of tables.new).faults) }
    ensures read { OnErr result (ReadsFirst file at at count (tables_now tables.old)) }
{
    let first_index = (at / BLOCK) as u32;
    let last_index = ((at + count as u64 - 1) / BLOCK) as u32;
    let first = read_edge(tables, file, first_index, at, count)?;
    if first_index == last_index {
        return Ok(Edges { first, last: first });
    }
    let last = read_edge(tables, file, last_index, at, count)?;
    Ok(Edges { first, last })
}
