// A checkpoint of the map goes to the other half, and that one becomes the live half.
ghost use Rattle.std.specs.Prelude.{◌≡◌, ◌⊎◌, ◌<◌, ◌≤◌, ◌+◌, ◌-◌, ◌*◌, ◌^◌, ℕ, List, Bool, IsTrue, true, false, length, OnOk, OnErr, IsErrOf};
ghost use Rattle.vdisk.specs.Causes.{Rose, HasCause};
ghost use Rattle.vdisk.specs.Disk.{ChangedWithin};
ghost use Rattle.vdisk.specs.Steps.{Keeps};
ghost use Rattle.byte_map.specs.Words.{Map};
ghost use Rattle.meta_log.specs.Ready.{Layout, Stands, IsCommitImage, IsSettledImage};
ghost use Rattle.meta_log.specs.Turn.{IsShut};
ghost use Rattle.meta_log.specs.Stream.{WritesWithin};

use crate::checkpoint::{body_bytes, write_half};
use crate::fault::MetaFault;
use crate::limits::{BEFORE_BODY, LAST_EPOCH, LEAST_HALF};
use crate::log::MetaLog;
use vdisk::{Disk, write_synced};

// Closes the gate of the half that is not live, where it may be open.
fn close_gate<D: Disk>(disk: &mut D, at: u64, may_be_open: bool) -> Result<(), vdisk::Failed>
    requires { at + 1 ≤ length (D.state disk.old).image }
    ensures moments { (l : Layout) (m n : Map) → Stands l (D.state disk.old) m →
        l.other_at ≡ at → l.other_open ≡ may_be_open → 1 ≤ l.half →
        Keeps (D.state disk.old) (D.state disk.new) (IsCommitImage l.at l.half (D.state disk.old) n) }
    ensures shut { (l : Layout) (m : Map) → Stands l (D.state disk.old) m →
        l.other_at ≡ at → l.other_open ≡ may_be_open → 1 ≤ l.half →
        OnOk result (IsShut l (D.state disk.old) (D.state disk.new)) }
    ensures within { WritesWithin at 1 (D.state disk.old) (D.state disk.new) }
    ensures same { D.is_same disk.old disk.new }
    ensures cause { HasCause (D.state disk.old).faults (D.state disk.new).faults result }
{
    if !may_be_open {
        return Ok(());
    }
    write_synced(disk, at, &[0])
}

impl<D: Disk> MetaLog<D> {
    ghost use Rattle.meta_log.specs.Log.{IsLog, state_of, now_of, staged_of, checkpoint_length};
    ghost use Rattle.meta_log.specs.declared.fault.MetaFault.TheVariants.{Failed};

    /// Makes what is staged durable by a checkpoint of the map now in the other half, which is live from then on.
    pub(crate) fn turn_over(&mut self) -> Result<(), MetaFault>
        requires running { self.old.stopped ≡ false }
        requires epoch { self.old.epoch < LAST_EPOCH }
        ensures moments { (m : Map) → IsLog self.old m → Keeps (state_of self.old) (state_of self.new)
            (IsCommitImage self.old.at self.old.half (state_of self.old) (now_of self.old)) }
        ensures ok { (m : Map) → IsLog self.old m → OnOk result (IsLog self.new (now_of self.old)) }
        ensures settled { (m : Map) → IsLog self.old m → OnOk result ((c : List ℕ) → (state_of self.new).may_leave c →
            IsSettledImage self.old.at self.old.half (state_of self.old) m (now_of self.old) c) }
        ensures outside { ChangedWithin self.old.at (2 * self.old.half)
            (state_of self.old).image (state_of self.new).image }
        ensures now { now_of self.new ≡ now_of self.old }
        ensures place { (self.new.at ≡ self.old.at) × (self.new.half ≡ self.old.half) }
        ensures staged { OnOk result (staged_of self.new ≡ 0) }
        ensures epoch { OnOk result (self.new.epoch ≡ self.old.epoch + 1) }
        ensures same_epoch { OnErr result (self.new.epoch ≡ self.old.epoch) }
        ensures next { OnOk result (self.new.place ≡ checkpoint_length (now_of self.old)) }
        ensures failed { OnErr result (IsErrOf result Failed
            × Rose (state_of self.old).faults (state_of self.new).faults) }
        ensures stopped { OnErr result (self.new.stopped ≡ true) }
        ensures runs { OnOk result (self.new.stopped ≡ false) }
        ensures later { (state_of self.old).faults ≤ (state_of self.new).faults }
        ensures tells { (state_of self.new).tells ≡ (state_of self.old).tells }
        ensures moment { (state_of self.old).moment ≤ (state_of self.new).moment }
        ensures same { D.is_same self.old.disk self.new.disk }
    {
        // It stays stopped where a write or a sync fails.
        self.stopped = true;
        let epoch = self.epoch + 1;
        let place = LEAST_HALF + body_bytes(&self.map);
        close_gate(&mut self.disk, self.other_at, self.other_open)?;
        write_half(
            &mut self.disk,
            &mut self.scratch,
            &self.map,
            self.other_at,
            self.half,
            epoch,
        )?;
        let written_at = self.other_at;
        self.other_at = self.live_at;
        self.live_at = written_at;
        self.other_open = true;
        self.epoch = epoch;
        self.place = place;
        self.staged.truncate(BEFORE_BODY);
        self.stopped = false;
        Ok(())
    }
}
