//! The superblock of an image is read.

ghost use Rattle.std.specs.Prelude.{◌≡◌, ◌≤◌, ◌*◌, ℕ, IsTrue, IfOk, IfErr, IfSome, IfNone, OnOk, length};
ghost use Rattle.vdisk.specs.Causes.{HasCause};
ghost use Rattle.vdisk.specs.Disk.{Only, Untouched};
ghost use Rattle.volume_inside.specs.declared.layout.TheConstants.{LEAST_CLUSTERS, MOST_CLUSTERS};
ghost use Rattle.meta_log.specs.Opened.{IsOnlyRead};
ghost use Rattle.volume_inside.specs.InsideOf.{IsImageOf};
ghost use Rattle.volume_inside.specs.Superblock.{HasSuperblock};
ghost use Rattle.volume_tables.specs.Mount.{IsFrontFault};

use vdisk::{Disk, Failed};
use volume_inside::{CLUSTER_BYTES, MountFault, read_superblock};

/// The number of clusters that the superblock names, or `None` where the disk does not begin with one.
fn read_clusters<D: Disk>(disk: &mut D) -> Result<Option<u32>, Failed>
    requires { CLUSTER_BYTES ≤ length (D.state disk.old).image }
    ensures some { IsTrue (D.state disk.old).tells →
        IfOk result (λ found. IfSome found (λ n. HasSuperblock n (D.state disk.old).image)) }
    ensures none { IsTrue (D.state disk.old).tells →
        IfOk result (λ found. IfNone found ((n : ℕ) → HasSuperblock n (D.state disk.old).image → ⊥)) }
    ensures least { IfOk result (λ found. IfSome found (λ n. LEAST_CLUSTERS ≤ n)) }
    ensures most { IfOk result (λ found. IfSome found (λ n. n ≤ MOST_CLUSTERS)) }
    ensures untouched { Untouched (D.state disk.old) (D.state disk.new) }
    ensures same { D.is_same disk.old disk.new }
    ensures cause { HasCause (D.state disk.old).faults (D.state disk.new).faults result }
{
    let mut bytes = [0; 44];
    disk.read(0, &mut bytes)?;
    Ok(read_superblock(&bytes))
}

/// Syncs the disk, and reads of how many clusters its image is.
pub(crate) fn read_front<D: Disk>(disk: &mut D) -> Result<u32, MountFault>
    ensures image { IsTrue (D.state disk.old).tells → IfOk result (λ n. IsImageOf n (D.state disk.old).image) }
    ensures settled { IsTrue (D.state disk.old).tells
        → OnOk result (Only (D.state disk.old).image (D.state disk.new).may_leave) }
    ensures size { IfOk result (λ n. length (D.state disk.old).image ≡ CLUSTER_BYTES * n) }
    ensures least { IfOk result (λ n. LEAST_CLUSTERS ≤ n) }
    ensures most { IfOk result (λ n. n ≤ MOST_CLUSTERS) }
    ensures refused { IfErr result (IsFrontFault (D.state disk.old) (D.state disk.new)) }
    ensures read { IsOnlyRead (D.state disk.old) (D.state disk.new) }
    ensures same { D.is_same disk.old disk.new }
{
    if disk.sync().is_err() {
        return Err(MountFault::Failed);
    }
    let size = disk.size();
    if size < CLUSTER_BYTES as u64 {
        return Err(MountFault::NotVolume);
    }
    let clusters = match read_clusters(disk) {
        Ok(Some(clusters)) => clusters,
        Ok(None) => return Err(MountFault::NotVolume),
        Err(_) => return Err(MountFault::Failed),
    };
    let named = CLUSTER_BYTES as u64 * clusters as u64;
    if size != named {
        return Err(MountFault::SizeDiffers(named, size));
    }
    Ok(clusters)
}
