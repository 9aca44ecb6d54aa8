// Bytes of the disk outside the two halves.
ghost use Rattle.std.specs.Prelude.{◌≡◌, ◌⊎◌, ◌≤◌, ◌+◌, ◌*◌, List, ℕ, IsTrue, false, true, length, take, drop, OnOk, OnErr, IsErrOf};
ghost use Rattle.vdisk.specs.Causes.{Rose};
ghost use Rattle.vdisk.specs.Disk.{DiskState, Holds, ChangedWithin, Untouched};
ghost use Rattle.vdisk.specs.Steps.{TornWithin};
ghost use Rattle.byte_map.specs.Words.{Map};

use crate::fault::MetaFault;
use crate::log::MetaLog;
use vdisk::Disk;

impl<D: Disk> MetaLog<D> {
    ghost use Rattle.meta_log.specs.Log.{IsLog, IsOutside, KeepsPlace, state_of, now_of, staged_of};
    ghost use Rattle.meta_log.specs.declared.fault.MetaFault.TheVariants.{Failed};

    /// Reads bytes of the disk outside the two halves. After a refusal `out` may hold anything.
    pub fn read_data(&mut self, at: u64, out: &mut [u8]) -> Result<(), MetaFault>
        requires range { at + length out.old ≤ length (state_of self.old).image }
        requires apart { IsOutside self.old at (length out.old) }
        ensures bytes { IsTrue (state_of self.old).tells →
            OnOk result (out.new ≡ take (length out.old) (drop at (state_of self.old).image)) }
        ensures log { (m : Map) → IsLog self.old m → IsLog self.new m }
        ensures untouched { Untouched (state_of self.old) (state_of self.new) }
        ensures now { now_of self.new ≡ now_of self.old }
        ensures staged { staged_of self.new ≡ staged_of self.old }
        ensures place { KeepsPlace self.old self.new }
        ensures stopped { self.new.stopped ≡ self.old.stopped }
        ensures failed { OnErr result
            (IsErrOf result Failed × Rose (state_of self.old).faults (state_of self.new).faults) }
        ensures later { (state_of self.old).faults ≤ (state_of self.new).faults }
        ensures same { D.is_same self.old.disk self.new.disk }
    {
        self.disk.read(at, out)?;
        Ok(())
    }

    /// Writes over bytes of the disk outside the two halves. The journal goes on as it was, whatever the disk answers;
    /// until the next commit a crash may leave any bytes in the range.
    pub fn write_data(&mut self, at: u64, bytes: &[u8]) -> Result<(), MetaFault>
        requires running { self.old.stopped ≡ false }
        requires range { at + length bytes.now ≤ length (state_of self.old).image }
        requires apart { IsOutside self.old at (length bytes.now) }
        ensures log { (m : Map) → IsLog self.old m → IsLog self.new m }
        ensures written { IsTrue (state_of self.old).tells →
            OnOk result (Holds (state_of self.old).image at bytes.now (state_of self.new).image) }
        ensures image { ChangedWithin at (length bytes.now) (state_of self.old).image (state_of self.new).image }
        ensures torn { TornWithin at (length bytes.now) (state_of self.old) (state_of self.new) }
        ensures now { now_of self.new ≡ now_of self.old }
        ensures staged { staged_of self.new ≡ staged_of self.old }
        ensures place { KeepsPlace self.old self.new }
        ensures runs { OnOk result (self.new.stopped ≡ false) }
        ensures stopped { OnErr result (self.new.stopped ≡ true) }
        ensures failed { OnErr result
            (IsErrOf result Failed × Rose (state_of self.old).faults (state_of self.new).faults) }
        ensures later { (state_of self.old).faults ≤ (state_of self.new).faults }
        ensures same { D.is_same self.old.disk self.new.disk }
    {
        // A write that fails leaves this true.
        self.stopped = true;
        self.disk.write(at, bytes)?;
        self.stopped = false;
        Ok(())
    }
}
