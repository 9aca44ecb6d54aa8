// A write that is on the disk once it returns.
ghost use Rattle.std.specs.Prelude.{◌≡◌, ◌≤◌, ◌+◌, List, ℕ, IsTrue, length, take, drop, OnOk};
ghost use Rattle.vdisk.specs.Causes.{HasCause};
ghost use Rattle.vdisk.specs.Disk.{DiskState, Holds, ChangedWithin, Only};
ghost use Rattle.vdisk.specs.Steps.{TornWithin};

use crate::disk::{Disk, Failed};

/// Writes the bytes and syncs: once it returns Ok, the bytes are on the disk whatever happens. A crash at any moment in
/// it leaves what it might have left before, but for bytes of the range.
pub fn write_synced<D: Disk>(disk: &mut D, at: u64, bytes: &[u8]) -> Result<(), Failed>
    requires { at + length bytes.now ≤ length (D.state disk.old).image }
    ensures written { IsTrue (D.state disk.old).tells →
        OnOk result (Holds (D.state disk.old).image at bytes.now (D.state disk.new).image) }
    ensures durable { IsTrue (D.state disk.old).tells →
        OnOk result (Only (D.state disk.new).image (D.state disk.new).may_leave) }
    ensures image { ChangedWithin at (length bytes.now) (D.state disk.old).image (D.state disk.new).image }
    ensures torn { TornWithin at (length bytes.now) (D.state disk.old) (D.state disk.new) }
    ensures same { D.is_same disk.old disk.new }
    ensures cause { HasCause (D.state disk.old).faults (D.state disk.new).faults result }
{
    disk.write(at, bytes)?;
    disk.sync()
}
