//! Bytes of a file are read a stretch at a time: those that lie beside one another on the disk are read in one call of
//! it, and those that lie nowhere are zero.

ghost use Rattle.std.specs.Prelude.{◌≡◌, ◌≤◌, ◌<◌, ◌+◌, ◌*◌, ◌/◌, ◌%◌, ℕ, length, slice_index, Some, IfOk, IfSome, IsSomeAnd, IsErrOf, OnErr};
ghost use Rattle.std.specs.FinMap.{find};
ghost use Rattle.vdisk.specs.Causes.{Rose};
ghost use Rattle.plain_volume.specs.declared.limits.TheConstants.{MOST_BYTES_OF_A_FILE};
ghost use Rattle.table_records.specs.Keys.{pair_cmp};
ghost use Rattle.volume_inside.specs.declared.layout.TheConstants.{CLUSTER_BYTES};
ghost use Rattle.volume_inside.specs.Rules.{ExtentsHold};
ghost use Rattle.volume_inside.specs.Typed.{Typed};
ghost use Rattle.volume_tables.specs.Tables.{tables_now, inside_now, disk_of, clusters_in, IsTables};
ghost use Rattle.volume_tables.specs.Reads.{ReadsOnly};
ghost use Rattle.volume_files.specs.Reads.{byte_at};
ghost use Rattle.volume_files.specs.Stretches.{HasBytes, IsStretch};

use crate::block::BLOCK;
use plain_volume::Fault;
use vdisk::Disk;
use volume_tables::{Extent, Tables};

/// Bytes of a file from a place on that are read at once.
#[derive(Clone, Copy)]
pub(crate) struct Stretch {
    /// How many they are.
    pub(crate) count: usize,
    /// The extent of the block of the byte behind them, if it has one. It is looked up only where that byte is wanted.
    pub(crate) next: Option<Extent>,
}

/// The extent of the block of a file in which a place lies.
pub(crate) fn extent_at<D: Disk>(tables: &Tables<D>, file: u64, place: u64) -> Option<Extent>
    requires low { place ≤ MOST_BYTES_OF_A_FILE }
    ensures { result ≡ find pair_cmp (file, place / CLUSTER_BYTES) (tables_now tables.now).extents }
{
    tables.get_extent((file, (place / BLOCK) as u32))
}

/// How many bytes of its block an extent names, if it names the cluster at a place of the disk; else 0.
fn bytes_beside(extent: Option<Extent>, end: u64) -> usize
    ensures { 0 < result → IsSomeAnd extent (λ e. (e.valid ≡ result) × (CLUSTER_BYTES * e.cluster ≡ end)) }
{
    match extent {
        Some(beside) if BLOCK * beside.cluster as u64 == end => usize::from(beside.valid),
        _ => 0,
    }
}

/// How many bytes of a file, of at most so many from a place on, lie beside one another on the disk: `first` is the
/// extent of the first one's block. Each block is looked up once.
fn stretch_held<D: Disk>(
    tables: &Tables<D>,
    file: u64,
    place: u64,
    first: Extent,
    most: usize,
) -> Stretch
    requires extents { let t = tables_now tables.now in ExtentsHold (clusters_in tables.now) t.files t.extents }
    requires first { find pair_cmp (file, place / CLUSTER_BYTES) (tables_now tables.now).extents ≡ Some first }
    requires held { place % CLUSTER_BYTES < first.valid }
    requires some { 0 < most }
    requires low { place + most ≤ MOST_BYTES_OF_A_FILE }
    ensures is { IsStretch (tables_now tables.now) file place most result }
    ensures within { CLUSTER_BYTES * first.cluster + place % CLUSTER_BYTES + result.count ≤ CLUSTER_BYTES * clusters_in tables.now }
    ensures lie { (k : ℕ) → k < result.count → byte_at (inside_now tables.now) file (place + k) ≡
        slice_index (disk_of tables.now).image (CLUSTER_BYTES * first.cluster + place % CLUSTER_BYTES + k) }
{
    let from = place % BLOCK;
    let start = BLOCK * first.cluster as u64 + from;
    let mut count = ((first.valid as u64 - from) as usize).min(most);
    let mut next = Some(first);
    while count < most && (place + count as u64) % BLOCK == 0 {
        next = extent_at(tables, file, place + count as u64);
        let beside = bytes_beside(next, start + count as u64);
        if beside == 0 {
            return Stretch { count, next };
        }
        count += beside.min(most - count);
    }
    Stretch { count, next }
}

/// Reads bytes of a file from a place on, as many as lie beside one another on the disk: `first` is the extent of the
/// first one's block. After a refusal `out` may hold anything.
fn read_held<D: Disk>(
    tables: &mut Tables<D>,
    file: u64,
    place: u64,
    first: Extent,
    out: &mut [u8],
) -> Result<Stretch, Fault>
    requires extents { let t = tables_now tables.old in ExtentsHold (clusters_in tables.old) t.files t.extents }
    requires first { find pair_cmp (file, place / CLUSTER_BYTES) (tables_now tables.old).extents ≡ Some first }
    requires held { place % CLUSTER_BYTES < first.valid }
    requires some { 0 < length out.old }
    requires low { place + length out.old ≤ MOST_BYTES_OF_A_FILE }
    ensures is { IfOk result (IsStretch (tables_now tables.old) file place (length out.old)) }
    ensures bytes { (stored : Typed) → IsTables tables.old stored →
        IfOk result (λ s. HasBytes (inside_now tables.old) file place s.count out.new) }
    ensures reads { ReadsOnly tables.old tables.new }
    ensures failed { OnErr result (IsErrOf result Fault.Failed ×
        Rose (disk_of tables.old).faults (disk_of tables.new).faults) }
{
    let stretch = stretch_held(tables, file, place, first, out.len());
    let from = (place % BLOCK) as u16;
    tables.read_run(first.cluster, from, &mut out[..stretch.count])?;
    Ok(stretch)
}

/// Zeroes bytes of a file from a place on, as many as its block has: it has no extent, or the place lies behind the
/// bytes that its extent names.
fn zero_rest<D: Disk>(
    tables: &Tables<D>,
    file: u64,
    place: u64,
    extent: Option<Extent>,
    out: &mut [u8],
) -> Stretch
    requires extent { extent ≡ find pair_cmp (file, place / CLUSTER_BYTES) (tables_now tables.now).extents }
    requires behind { IfSome extent (λ e. e.valid ≤ place % CLUSTER_BYTES) }
    requires some { 0 < length out.old }
    requires low { place + length out.old ≤ MOST_BYTES_OF_A_FILE }
    ensures is { IsStretch (tables_now tables.now) file place (length out.old) result }
    ensures bytes { HasBytes (inside_now tables.now) file place result.count out.new }
{
    let count = ((BLOCK - place % BLOCK) as usize).min(out.len());
    let next = if count < out.len() {
        extent_at(tables, file, place + count as u64)
    } else {
        None
    };
    out[..count].fill(0);
    Stretch { count, next }
}

/// Reads bytes of a file from a place on, as many as lie beside one another on the disk, or as are zero in the first
/// one's block, whose extent is `extent`. After a refusal `out` may hold anything.
pub(crate) fn read_stretch<D: Disk>(
    tables: &mut Tables<D>,
    file: u64,
    place: u64,
    extent: Option<Extent>,
    out: &mut [u8],
) -> Result<Stretch, Fault>
    requires extents { let t = tables_now tables.old in ExtentsHold (clusters_in tables.old) t.files t.extents }
    requires extent { extent ≡ find pair_cmp (file, place / CLUSTER_BYTES) (tables_now tables.old).extents }
    requires some { 0 < length out.old }
    requires low { place + length out.old ≤ MOST_BYTES_OF_A_FILE }
    ensures is { IfOk result (IsStretch (tables_now tables.old) file place (length out.old)) }
    ensures bytes { (stored : Typed) → IsTables tables.old stored →
        IfOk result (λ s. HasBytes (inside_now tables.old) file place s.count out.new) }
    ensures reads { ReadsOnly tables.old tables.new }
    ensures failed { OnErr result (IsErrOf result Fault.Failed ×
        Rose (disk_of tables.old).faults (disk_of tables.new).faults) }
{
    match extent {
        Some(first) if place % BLOCK < u64::from(first.valid) => {
            read_held(tables, file, place, first, out)
        }
        _ => Ok(zero_rest(tables, file, place, extent, out)),
    }
}
