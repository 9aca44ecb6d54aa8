// A commit whose group goes behind the last one.
ghost use Rattle.std.specs.Prelude.{◌≡◌, ◌≤◌, ◌+◌, ◌*◌, List, ℕ, false, true, OnOk, OnErr, IsErrOf};
ghost use Rattle.vdisk.specs.Causes.{Rose};
ghost use Rattle.vdisk.specs.Disk.{DiskState, ChangedWithin};
ghost use Rattle.vdisk.specs.Steps.{Keeps};
ghost use Rattle.byte_map.specs.Words.{Map};
ghost use Rattle.meta_log.specs.declared.limits.TheConstants.{GROUP_HEAD};
ghost use Rattle.meta_log.specs.Ready.{IsCommitImage, IsSettledImage};

use crate::fault::MetaFault;
use crate::group::{seal, write_group};
use crate::limits::BEFORE_BODY;
use crate::log::MetaLog;
use vdisk::{Disk, write_synced};

impl<D: Disk> MetaLog<D> {
    ghost use Rattle.meta_log.specs.Log.{IsLog, state_of, now_of, staged_of};
    ghost use Rattle.meta_log.specs.declared.fault.MetaFault.TheVariants.{Failed};

    /// Makes what is staged durable behind the last group of the live half.
    pub(crate) fn append(&mut self) -> Result<(), MetaFault>
        requires fits { self.old.place + (GROUP_HEAD + staged_of self.old) ≤ self.old.half }
        ensures moments { (m : Map) → IsLog self.old m → Keeps (state_of self.old) (state_of self.new)
            (IsCommitImage self.old.at self.old.half (state_of self.old) (now_of self.old)) }
        ensures ok { (m : Map) → IsLog self.old m → OnOk result (IsLog self.new (now_of self.old)) }
        ensures settled { (m : Map) → IsLog self.old m → OnOk result ((c : List ℕ) → (state_of self.new).may_leave c →
            IsSettledImage self.old.at self.old.half (state_of self.old) m (now_of self.old) c) }
        ensures outside { ChangedWithin self.old.at (2 * self.old.half)
            (state_of self.old).image (state_of self.new).image }
        ensures now { now_of self.new ≡ now_of self.old }
        ensures place { (self.new.at ≡ self.old.at) × (self.new.half ≡ self.old.half) }
        ensures staged { OnOk result (staged_of self.new ≡ 0) }
        ensures epoch { self.new.epoch ≡ self.old.epoch }
        ensures next { OnOk result (self.new.place ≡ self.old.place + (GROUP_HEAD + staged_of self.old)) }
        ensures failed { OnErr result
            (IsErrOf result Failed × Rose (state_of self.old).faults (state_of self.new).faults) }
        ensures stopped { OnErr result (self.new.stopped ≡ true) }
        ensures runs { OnOk result (self.new.stopped ≡ false) }
        ensures later { (state_of self.old).faults ≤ (state_of self.new).faults }
        ensures tells { (state_of self.new).tells ≡ (state_of self.old).tells }
        ensures moment { (state_of self.old).moment ≤ (state_of self.new).moment }
        ensures same { D.is_same self.old.disk self.new.disk }
    {
        let next = self.place + (self.staged.len() as u64 + 1);
        let closed = next < self.half;
        // A write or a sync that fails leaves this true.
        self.stopped = true;
        seal(&mut self.staged);
        write_group(
            &mut self.disk,
            self.live_at + (self.place + 1),
            &mut self.staged,
            closed,
        )?;
        write_synced(&mut self.disk, self.live_at + self.place, &[1])?;
        self.place = next;
        self.staged.truncate(BEFORE_BODY);
        self.stopped = false;
        Ok(())
    }
}
