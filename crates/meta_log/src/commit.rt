// What is staged becomes durable.
ghost use Rattle.std.specs.Prelude.{◌≡◌, ◌⊎◌, ◌↔◌, ◌≤◌, ◌+◌, ◌*◌, List, ℕ, IsTrue, false, true, IsOk, OnOk, OnErr, IsErrOf};
ghost use Rattle.vdisk.specs.Causes.{Rose};
ghost use Rattle.vdisk.specs.Disk.{DiskState, ChangedWithin};
ghost use Rattle.vdisk.specs.Steps.{Keeps};
ghost use Rattle.byte_map.specs.Words.{Map};
ghost use Rattle.meta_log.specs.Meta.{last_epoch};
ghost use Rattle.meta_log.specs.Ready.{IsCommitImage, IsSettledImage};

use crate::fault::MetaFault;
use crate::limits::{GROUP_HEAD, LAST_EPOCH};
use crate::log::MetaLog;
use vdisk::Disk;

impl<D: Disk> MetaLog<D> {
    ghost use Rattle.meta_log.specs.Log.{IsLog, state_of, now_of, staged_of, needs_checkpoint, epochs_taken, next_place, HasSpentEpochs};
    ghost use Rattle.meta_log.specs.declared.fault.MetaFault.TheVariants.{Failed, Worn};

    /// Makes what is staged durable, all of it or nothing: behind the last group where it fits there, or else as a
    /// checkpoint of the map, which takes an epoch. It takes no memory.
    ///
    /// After `Failed` the journal is stopped and is to be opened again. After `Worn` nothing has changed.
    pub fn commit(&mut self) -> Result<(), MetaFault>
        requires running { self.old.stopped ≡ false }

        // At each moment a crash leaves the map from before, with the bytes outside as a crash before might have left
        // them, or the map now, with the bytes outside as they read.
        ensures moments { (m : Map) → IsLog self.old m → Keeps (state_of self.old) (state_of self.new)
            (IsCommitImage self.old.at self.old.half (state_of self.old) (now_of self.old)) }

        // Afterwards the map now is the stored one, and each crash image spells it.
        ensures ok { (m : Map) → IsLog self.old m → OnOk result (IsLog self.new (now_of self.old)) }
        ensures settled { (m : Map) → IsLog self.old m → OnOk result ((c : List ℕ) → (state_of self.new).may_leave c →
            IsSettledImage self.old.at self.old.half (state_of self.old) m (now_of self.old) c) }
        ensures outside { ChangedWithin self.old.at (2 * self.old.half)
            (state_of self.old).image (state_of self.new).image }
        ensures now { now_of self.new ≡ now_of self.old }
        ensures place { (self.new.at ≡ self.old.at) × (self.new.half ≡ self.old.half) }
        ensures staged { OnOk result (staged_of self.new ≡ 0) }

        // The epoch rises by one exactly where the staged records do not fit behind the last group, as the disk tells
        // where that ends.
        ensures epoch { OnOk result (self.new.epoch ≡ self.old.epoch + epochs_taken self.old) }
        ensures same_epoch { OnErr result (self.new.epoch ≡ self.old.epoch) }
        ensures next { OnOk result (self.new.place ≡ next_place self.old) }
        ensures spent { (m : Map) → IsLog self.old m → OnOk result (HasSpentEpochs self.old self.new) }

        // With nothing staged it does nothing.
        ensures idle { staged_of self.old ≡ 0 → (self.new ≡ self.old) × IsOk result }
        ensures worn { IsErrOf result Worn ↔ (IsTrue (needs_checkpoint self.old) × (self.old.epoch ≡ last_epoch)) }
        ensures unspent { IsErrOf result Worn → self.new ≡ self.old }
        ensures failed { IsErrOf result Failed →
            Rose (state_of self.old).faults (state_of self.new).faults × (self.new.stopped ≡ true) }
        ensures refused { OnErr result (IsErrOf result Worn ⊎ IsErrOf result Failed) }
        ensures runs { OnOk result (self.new.stopped ≡ false) }
        ensures later { (state_of self.old).faults ≤ (state_of self.new).faults }
        ensures tells { (state_of self.new).tells ≡ (state_of self.old).tells }
        ensures moment { (state_of self.old).moment ≤ (state_of self.new).moment }
        ensures same { D.is_same self.old.disk self.new.disk }
    {
        let count = self.staged_bytes() as u64;
        if count == 0 {
            return Ok(());
        }
        if self.place + (GROUP_HEAD + count) <= self.half {
            return self.append();
        }
        if self.epoch == LAST_EPOCH {
            return Err(MetaFault::Worn);
        }
        self.turn_over()
    }
}
