//! Calls become durable.

ghost use Rattle.std.specs.Prelude.{◌≡◌, ◌⊎◌, false, true, OnOk, OnErr, IsErrOf};
ghost use Rattle.vdisk.specs.Causes.{Rose};
ghost use Rattle.plain_volume.specs.Volume.{Volume as PlainVolume};
ghost use Rattle.plain_volume.specs.Replies.{done_reply};
ghost use Rattle.plain_volume.specs.declared.call.Call.TheVariants.{Flush};

use crate::lending::{tables_in, tables_mut};
use crate::volume::Volume;
use plain_volume::Fault;
use vdisk::Disk;

impl<D: Disk> Volume<D> {
    ghost use Rattle.volume_core.specs.Volumes.{device_of, disk_of, view_now, due_of, stopped, IsKept, Endures};
    ghost use Rattle.volume_core.specs.States.{state_of, IsStateOf};
    ghost use Rattle.volume_core.specs.Moves.{Moves};
    ghost use Rattle.volume_core.specs.Wants.{wants_of, IsWant};
    ghost use Rattle.volume_core.specs.Bounds.{AddsToSpent};
    ghost use Rattle.volume_core.specs.Replies.{Replies, FollowsPlain};

    /// Makes all calls so far durable. Where nothing is due, as after a flush that answered Ok, the disk is
    /// not called.
    pub fn flush(&mut self) -> Result<(), Fault>
        requires running { stopped self.old ≡ false }
        ensures reply { Replies Flush self.old self.new (done_reply result) }
        ensures left { FollowsPlain Flush self.old self.new (done_reply result) }
        ensures durable { (w : PlainVolume) → IsKept self.old w → OnOk result (IsKept self.new (view_now self.old)) }
        ensures moves { Moves Flush (done_reply result) (state_of self.old) (state_of self.new) }
        ensures stored { (w : PlainVolume) → IsKept self.old w →
            OnOk result (IsStateOf (disk_of self.new).image (state_of self.new)) }
        ensures nothing_due { OnOk result (due_of self.new ≡ 0) }
        ensures idle { due_of self.old ≡ 0 → device_of self.new ≡ device_of self.old }
        ensures endures { Endures self.old self.new }
        ensures adds { AddsToSpent Flush self.old self.new }
        ensures stops { stopped self.new ≡ true → IsErrOf result Fault.Failed }
        ensures halts { IsErrOf result Fault.Failed → stopped self.new ≡ true }
        ensures want { IsWant Flush (wants_of self.old Flush) }
        ensures failed { IsErrOf result Fault.Failed → Rose (disk_of self.old).faults (disk_of self.new).faults }
    {
        tables_mut(&mut self.filter).commit()
    }

    /// The disk's moment.
    pub fn moment(&self) -> u64
        ensures { result ≡ (disk_of self.now).moment }
    {
        tables_in(&self.filter).moment()
    }

    /// Whether a write or a sync has failed. Then no call may be made but this one, `moment` and `into_disk`.
    pub fn is_stopped(&self) -> bool
        ensures { result ≡ stopped self.now }
    {
        tables_in(&self.filter).is_stopped()
    }
}
