// Bytes that go to a disk in order, through a buffer.
ghost use Rattle.std.specs.Prelude.{◌≡◌, ◌≤◌, ◌+◌, [], ◌++◌, length, vec_capacity, OnOk, OnErr};
ghost use Rattle.vdisk.specs.Causes.{HasCause};
ghost use Rattle.meta_log.specs.Stream.{Advances, WritesWithin};

use crate::limits::STREAM_ROOM;
use vdisk::{Disk, Failed};

/// A stream of bytes to a disk. Its buffer is lent to each call, since it must have its room before the first one.
#[derive(Clone, Copy, Debug)]
pub(crate) struct DiskStream {
    /// Where on the disk the bytes go that wait in the buffer.
    pub(crate) place: u64,
}

impl DiskStream {
    /// Writes the waiting bytes to the disk.
    pub(crate) fn flush<D: Disk>(
        &mut self,
        disk: &mut D,
        waiting: &mut Vec<u8>,
    ) -> Result<(), Failed>
        requires range { self.old.place + length waiting.old.items ≤ length (D.state disk.old).image }
        ensures goes_on { OnOk result (Advances [] self.old.place waiting.old.items (D.state disk.old)
            self.new.place waiting.new.items (D.state disk.new)) }
        ensures none { OnOk result (waiting.new.items ≡ []) }
        ensures within { WritesWithin self.old.place (length waiting.old.items) (D.state disk.old) (D.state disk.new) }
        ensures room { vec_capacity waiting.old ≤ vec_capacity waiting.new }
        ensures same { D.is_same disk.old disk.new }
        ensures cause { HasCause (D.state disk.old).faults (D.state disk.new).faults result }
    {
        disk.write(self.place, waiting)?;
        self.place += waiting.len() as u64;
        waiting.clear();
        Ok(())
    }

    // Writes the waiting bytes where so many more do not fit behind them.
    fn make_room<D: Disk>(
        &mut self,
        disk: &mut D,
        waiting: &mut Vec<u8>,
        more: usize,
    ) -> Result<(), Failed>
        requires few { length waiting.old.items ≤ STREAM_ROOM }
        requires piece { more ≤ STREAM_ROOM }
        requires range { self.old.place + length waiting.old.items ≤ length (D.state disk.old).image }
        ensures goes_on { OnOk result (Advances [] self.old.place waiting.old.items (D.state disk.old)
            self.new.place waiting.new.items (D.state disk.new)) }
        ensures few { OnOk result (length waiting.new.items + more ≤ STREAM_ROOM) }
        ensures within { WritesWithin self.old.place (length waiting.old.items) (D.state disk.old) (D.state disk.new) }
        ensures room { vec_capacity waiting.old ≤ vec_capacity waiting.new }
        ensures same { D.is_same disk.old disk.new }
        ensures cause { HasCause (D.state disk.old).faults (D.state disk.new).faults result }
    {
        if waiting.len() + more <= STREAM_ROOM {
            return Ok(());
        }
        self.flush(disk, waiting)
    }

    /// Adds bytes, no more than the buffer has room for. It takes no memory.
    pub(crate) fn put<D: Disk>(
        &mut self,
        disk: &mut D,
        waiting: &mut Vec<u8>,
        bytes: &[u8],
    ) -> Result<(), Failed>
        requires room { STREAM_ROOM ≤ vec_capacity waiting.old }
        requires few { length waiting.old.items ≤ STREAM_ROOM }
        requires piece { length bytes.now ≤ STREAM_ROOM }
        requires range { self.old.place + (length waiting.old.items + length bytes.now)
            ≤ length (D.state disk.old).image }
        ensures goes_on { OnOk result (Advances bytes.now self.old.place waiting.old.items (D.state disk.old)
            self.new.place waiting.new.items (D.state disk.new)) }
        ensures few { OnOk result (length waiting.new.items ≤ STREAM_ROOM) }
        ensures within { WritesWithin self.old.place (length waiting.old.items + length bytes.now)
            (D.state disk.old) (D.state disk.new) }
        ensures room { vec_capacity waiting.old ≤ vec_capacity waiting.new }
        ensures same { D.is_same disk.old disk.new }
        ensures cause { HasCause (D.state disk.old).faults (D.state disk.new).faults result }
    {
        self.make_room(disk, waiting, bytes.len())?;
        waiting.extend_from_slice(bytes).unwrap();
        Ok(())
    }
}
