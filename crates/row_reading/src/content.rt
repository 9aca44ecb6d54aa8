// The bytes of containers are read.
ghost use Rattle.std.specs.Prelude.{◌≡◌, ◌≤◌, ◌<◌, ◌+◌, ◌*◌, ◌-◌, ℕ, length, take, Some, IfOk, OnOk, OnErr, IsTrue, ◌↔◌};
ghost use Rattle.std.specs.FinMap.{find};
ghost use Rattle.volume_inside.specs.declared.chunk_rules.TheConstants.{MOST_PAGES};
ghost use Rattle.vdisk.specs.Causes.{Rose};
ghost use Rattle.vdisk.specs.Ranges.{part};
ghost use Rattle.table_records.specs.Keys.{pair_cmp};
ghost use Rattle.volume_inside.specs.declared.layout.TheConstants.{CLUSTER_BYTES};
ghost use Rattle.volume_inside.specs.Pages.{used_of, content};
ghost use Rattle.row_reading.specs.Reading.{HasContent, AreBeside};

use crate::chunk_disk::ChunkDisk;
use vdisk::Failed;
use volume_inside::CLUSTER_BYTES;

/// Clusters beside one another.
#[derive(Clone, Copy)]
struct Run {
    first: u32,
    count: u32,
}

/// Whether a page of a container is in this cluster.
fn is_in<D: ChunkDisk>(disk: &D, container: u64, index: u32, cluster: u64) -> bool
    ensures { IsTrue result ↔ (find pair_cmp (container, index) (D.chunks disk.now).clusters ≡ Some cluster) }
{
    match disk.get_cluster((container, index)) {
        Some(found) => u64::from(found) == cluster,
        None => false,
    }
}

/// The cluster of a page of a container, and of how many pages from it on, at most so many, the clusters lie beside one
/// another.
fn run_at<D: ChunkDisk>(disk: &D, container: u64, index: u32, most: u32) -> Run
    requires content { HasContent (D.chunks disk.now) (D.image disk.now) container }
    requires used { CLUSTER_BYTES * index < used_of (D.chunks disk.now).containers container }
    requires some { 1 ≤ most }
    requires few { index + most ≤ MOST_PAGES }
    ensures some { 1 ≤ result.count }
    ensures most { result.count ≤ most }
    ensures beside { AreBeside (D.chunks disk.now) container index result.first result.count }
    ensures longest { result.count < most → find pair_cmp (container, index + result.count)
        (D.chunks disk.now).clusters ≡ Some (result.first + result.count) → ⊥ }
{
    let first = disk.get_cluster((container, index)).unwrap();
    let mut count = 1;
    while count < most {
        let next = u64::from(first) + u64::from(count);
        if !is_in(disk, container, index + count, next) {
            break;
        }
        count += 1;
    }
    Run { first, count }
}

/// Reads the first bytes of a container from a place in it on that lie in clusters beside one another, at once, and says
/// how many. After a refusal `out` may hold anything.
fn read_beside<D: ChunkDisk>(
    disk: &mut D,
    container: u64,
    at: u32,
    out: &mut [u8],
) -> Result<usize, Failed>
    requires content { HasContent (D.chunks disk.old) (D.image disk.old) container }
    requires within { at + length out.old ≤ used_of (D.chunks disk.old).containers container }
    requires some { 1 ≤ length out.old }
    ensures some { IfOk result (λ count. 1 ≤ count) }
    ensures most { IfOk result (λ count. count ≤ length out.old) }
    ensures bytes { D.tells disk.old → IfOk result (λ count.
        take count out.new ≡ part at count (content (D.chunks disk.old) container (D.image disk.old))) }
    ensures chunks { D.chunks disk.new ≡ D.chunks disk.old }
    ensures image { D.image disk.new ≡ D.image disk.old }
    ensures tells { D.tells disk.old → D.tells disk.new }
    ensures from { D.is_from disk.old disk.new }
    ensures later { D.faults disk.old ≤ D.faults disk.new }
    ensures failed { OnErr result (Rose (D.faults disk.old) (D.faults disk.new)) }
{
    let from = at % CLUSTER_BYTES;
    let pages = (from + out.len() as u32 + CLUSTER_BYTES - 1) / CLUSTER_BYTES;
    let run = run_at(disk, container, at / CLUSTER_BYTES, pages);
    let count = ((run.count * CLUSTER_BYTES - from) as usize).min(out.len());
    disk.read_run(run.first, from as u16, &mut out[..count])?;
    Ok(count)
}

/// Reads bytes of a container from a place in it on: those in clusters beside one another at once. After a refusal `out`
/// may hold anything.
pub fn read_content<D: ChunkDisk>(
    disk: &mut D,
    container: u64,
    at: u32,
    out: &mut [u8],
) -> Result<(), Failed>
    requires content { HasContent (D.chunks disk.old) (D.image disk.old) container }
    requires within { at + length out.old ≤ used_of (D.chunks disk.old).containers container }
    ensures bytes { D.tells disk.old → OnOk result
        (out.new ≡ part at (length out.old) (content (D.chunks disk.old) container (D.image disk.old))) }
    ensures chunks { D.chunks disk.new ≡ D.chunks disk.old }
    ensures image { D.image disk.new ≡ D.image disk.old }
    ensures tells { D.tells disk.old → D.tells disk.new }
    ensures from { D.is_from disk.old disk.new }
    ensures later { D.faults disk.old ≤ D.faults disk.new }
    ensures failed { OnErr result (Rose (D.faults disk.old) (D.faults disk.new)) }
{
    let mut done = 0;
    while done < out.len() {
        done += read_beside(disk, container, at + done as u32, &mut out[done..])?;
    }
    Ok(())
}
