// Calls on a volume of which only this is told, whether they were done; so no bench reads their contracts.
ghost use Rattle.std.specs.Prelude.{◌≤◌, ◌^◌};

use crate::faults::BenchFault;
use std::alloc::Global;
use vdisk::Disk;
use volume_core::Volume;

/// Makes an empty volume of so many clusters, from 4,096 to 1,048,576.
pub fn format<D: Disk + Drop>(
    alloc: Global,
    disk: D,
    clusters: u32,
) -> Result<Volume<D>, BenchFault>
    requires least { 4096 ≤ clusters }
    requires most { clusters ≤ 1048576 }
{
    match Volume::format(alloc, disk, clusters) {
        Ok(volume) => Ok(volume),
        Err((_disk, _fault)) => Err(BenchFault::Refused),
    }
}

pub fn create<D: Disk>(volume: &mut Volume<D>, name: &[u8]) -> bool {
    !volume.is_stopped() && volume.create(name).is_ok()
}

pub fn write<D: Disk>(volume: &mut Volume<D>, name: &[u8], at: u64, bytes: &[u8]) -> bool {
    !volume.is_stopped() && volume.write(name, at, bytes).is_ok()
}

pub fn flush<D: Disk>(volume: &mut Volume<D>) -> bool {
    !volume.is_stopped() && volume.flush().is_ok()
}
