//! A volume is made on a disk, or mounted from it, and let go.

ghost use Rattle.std.specs.Prelude.{◌≡◌, ◌≤◌, ◌<◌, ◌*◌, [], Ok, false, length, IsTrue, IfOk, IfErr, OnOk};
ghost use Rattle.meta_log.specs.Opened.{IsOnlyRead};
ghost use Rattle.vdisk.specs.Steps.{Keeps};
ghost use Rattle.plain_volume.specs.Volume.{Volume as PlainVolume};
ghost use Rattle.plain_volume.specs.Replies.{done_reply};
ghost use Rattle.plain_volume.specs.Step.{plain};
ghost use Rattle.plain_volume.specs.declared.call.Call.TheVariants.{Flush};
ghost use Rattle.volume_inside.specs.declared.layout.TheConstants.{CLUSTER_BYTES, LEAST_CLUSTERS, MOST_CLUSTERS};
ghost use Rattle.volume_inside.specs.Inside.{Inside};
ghost use Rattle.volume_inside.specs.InsideOf.{InsideOf};
ghost use Rattle.volume_inside.specs.Shows.{Kept, ShowsEither};
ghost use Rattle.volume_inside.specs.View.{view};
ghost use Rattle.volume_tables.specs.Formats.{IsFormatFault, IsMakeImage};
ghost use Rattle.volume_tables.specs.Mount.{read_meta, IsMountFault};
ghost use Rattle.volume_tables.specs.Wants.{IsReplied};

use crate::lending::filter_over;
use crate::volume::Volume;
use plain_volume::Fault;
use std::alloc::Global;
use vdisk::Disk;
use volume_tables::{MountFault, Tables};

impl<D: Disk> Volume<D> {
    ghost use Rattle.volume_core.specs.Volumes.{device_of, disk_of, clusters_in, area_of, view_now, stopped, IsKept};
    ghost use Rattle.volume_core.specs.Bounds.{HasSpent};
    ghost use Rattle.volume_core.specs.States.{state_of, IsStateOf, IsFreshState};
    ghost use Rattle.volume_core.specs.Wants.{wants_of};

    /// Makes an empty volume of so many clusters, from 4,096 to 1,048,576. A shorter disk grows; a longer one is
    /// refused, as it was. Other refusals hand the disk back too, maybe with a part of the volume made.
    pub fn format(alloc: Global, disk: D, clusters: u32) -> Result<Volume<D>, (D, MountFault)>
        requires least { LEAST_CLUSTERS ≤ clusters }
        requires most { clusters ≤ MOST_CLUSTERS }
        ensures kept { IsTrue (D.state disk).tells → IfOk result (λ v. IsKept v []) }
        ensures now { IfOk result (λ v. view_now v ≡ []) }
        ensures fresh { IfOk result (λ v. HasSpent v 0 0) }
        ensures state { IfOk result (λ v. IsFreshState clusters (state_of v)) }
        ensures clusters { IfOk result (λ v. clusters_in v ≡ clusters) }
        ensures runs { IfOk result (λ v. stopped v ≡ false) }
        ensures moments { IsTrue (D.state disk).tells →
            IfOk result (λ v. Keeps (D.state disk) (disk_of v) (IsMakeImage clusters (D.state disk))) }
        ensures moments_err { IsTrue (D.state disk).tells →
            IfErr result (λ e. Keeps (D.state disk) (D.state e.0) (IsMakeImage clusters (D.state disk))) }
        ensures later { IfOk result (λ v. (D.state disk).faults ≤ (disk_of v).faults) }
        ensures longer { CLUSTER_BYTES * clusters < length (D.state disk).image → IfErr result (λ e. e.0 ≡ disk) }
        ensures fits { OnOk result (length (D.state disk).image ≤ CLUSTER_BYTES * clusters) }
        ensures refused { IfErr result (λ e. IsFormatFault clusters (D.state disk) (D.state e.0) e.1) }
        ensures same { IfOk result (λ v. D.is_same disk (device_of v)) }
        ensures same_err { IfErr result (λ e. D.is_same disk e.0) }
    {
        match Tables::format(alloc, disk, clusters) {
            Ok(fresh) => Ok(Volume {
                filter: filter_over(fresh),
            }),
            Err(fault) => Err(fault),
        }
    }

    /// Mounts the image of a disk, which is not written. A refusal hands the disk back, with the first reason why its
    /// image has no inside.
    pub fn mount(alloc: Global, disk: D) -> Result<Volume<D>, (D, MountFault)>
        ensures inside { IsTrue (D.state disk).tells → IfOk result (λ v. (inside : Inside)
            × InsideOf read_meta (D.state disk).image (Ok inside) × (view inside ≡ view_now v)) }
        ensures state { IsTrue (D.state disk).tells →
            IfOk result (λ v. IsStateOf (D.state disk).image (state_of v)) }
        ensures kept { IsTrue (D.state disk).tells → IfOk result (λ v. IsKept v (view_now v)) }
        ensures runs { IfOk result (λ v. stopped v ≡ false) }
        ensures refused { IfErr result (λ e. IsMountFault (D.state disk) (D.state e.0) e.1) }
        ensures read { IfOk result (λ v. IsOnlyRead (D.state disk) (disk_of v)) }
        ensures read_err { IfErr result (λ e. IsOnlyRead (D.state disk) (D.state e.0)) }
        ensures same { IfOk result (λ v. D.is_same disk (device_of v)) }
        ensures same_err { IfErr result (λ e. D.is_same disk e.0) }
    {
        match Tables::mount(alloc, disk) {
            Ok(tables) => Ok(Volume {
                filter: filter_over(tables),
            }),
            Err(fault) => Err(fault),
        }
    }

    /// Makes all calls so far durable, and hands the disk back.
    pub fn unmount(mut self) -> Result<D, (D, Fault)>
        requires running { stopped self ≡ false }
        ensures reply { IfOk result (λ disk. IsReplied (plain (view_now self) Flush) (wants_of self Flush)
            (disk_of self).faults (D.state disk).faults (done_reply (Ok tt))) }
        ensures refused { IfErr result (λ e. IsReplied (plain (view_now self) Flush) (wants_of self Flush)
            (disk_of self).faults (D.state e.0).faults (done_reply (Err e.1))) }
        ensures kept { (w : PlainVolume) → IsKept self w →
            IfOk result (λ disk. Kept (area_of self) (D.state disk) (view_now self)) }
        ensures inside { (w : PlainVolume) → IsKept self w → IfOk result (λ disk.
            InsideOf read_meta (D.state disk).image (Ok (state_of self).inside)) }
        ensures moments { (w : PlainVolume) → IsKept self w → IfOk result (λ disk.
            Keeps (disk_of self) (D.state disk) (ShowsEither (area_of self) w (view_now self))) }
        ensures moments_err { (w : PlainVolume) → IsKept self w → IfErr result (λ e.
            Keeps (disk_of self) (D.state e.0) (ShowsEither (area_of self) w (view_now self))) }
        ensures later { IfOk result (λ disk. (disk_of self).faults ≤ (D.state disk).faults) }
        ensures later_err { IfErr result (λ e. (disk_of self).faults ≤ (D.state e.0).faults) }
        ensures same { IfOk result (λ disk. D.is_same (device_of self) disk) }
        ensures same_err { IfErr result (λ e. D.is_same (device_of self) e.0) }
    {
        match self.flush() {
            Ok(()) => Ok(self.into_disk()),
            Err(fault) => Err((self.into_disk(), fault)),
        }
    }

    /// Hands the disk back. What no flush has made durable is lost.
    pub fn into_disk(self) -> D
        ensures { result ≡ device_of self }
    {
        self.filter.into_store().into_tables().into_disk()
    }
}
