//! Files are made, written, cut, renamed and dropped.

ghost use Rattle.std.specs.Prelude.{◌≡◌, ◌⊎◌, false, true, length, IsErrOf, OnErr};
ghost use Rattle.vdisk.specs.Causes.{Rose};
ghost use Rattle.plain_volume.specs.Volume.{Volume as PlainVolume};
ghost use Rattle.plain_volume.specs.Replies.{done_reply};
ghost use Rattle.plain_volume.specs.declared.call.Call.TheVariants.{Create, Write, SetLength, Rename, Delete};

use crate::lending::{tables_in, tables_mut};
use crate::volume::Volume;
use plain_volume::Fault;
use vdisk::Disk;
use volume_files::find_file;

impl<D: Disk> Volume<D> {
    ghost use Rattle.volume_core.specs.Volumes.{disk_of, view_now, stopped, IsKept, Endures};
    ghost use Rattle.volume_core.specs.States.{state_of};
    ghost use Rattle.volume_core.specs.Moves.{Moves, ReadsABlock};
    ghost use Rattle.volume_core.specs.Wants.{wants_of, IsWant};
    ghost use Rattle.volume_core.specs.Bounds.{AddsToSpent};
    ghost use Rattle.volume_core.specs.Replies.{Replies, RepliesOrMemory, FollowsPlain};

    /// Makes an empty file.
    pub fn create(&mut self, name: &[u8]) -> Result<(), Fault>
        requires running { stopped self.old ≡ false }
        ensures reply { RepliesOrMemory (Create name.now) self.old self.new (done_reply result) }
        ensures left { FollowsPlain (Create name.now) self.old self.new (done_reply result) }
        ensures endures { Endures self.old self.new }
        ensures adds { AddsToSpent (Create name.now) self.old self.new }
        ensures stops { stopped self.new ≡ true → IsErrOf result Fault.Failed }
        ensures moves { Moves (Create name.now) (done_reply result) (state_of self.old) (state_of self.new) }
        ensures halts { IsErrOf result Fault.Failed → stopped self.new ≡ true }
        ensures want { IsWant (Create name.now) (wants_of self.old (Create name.now)) }
        ensures failed { IsErrOf result Fault.Failed → Rose (disk_of self.old).faults (disk_of self.new).faults }
    {
        volume_files::create(tables_mut(&mut self.filter), name)
    }

    /// Puts bytes at a place of a file, with zeros up to it where the file is shorter. No bytes change nothing. A lost cell
    /// beside the bytes, in a block that they touch, is told by the first place of one.
    pub fn write(&mut self, name: &[u8], at: u64, bytes: &[u8]) -> Result<(), Fault>
        requires running { stopped self.old ≡ false }
        ensures reply { (w : PlainVolume) → IsKept self.old w →
            RepliesOrMemory (Write name.now at bytes.now) self.old self.new (done_reply result) }
        ensures left { (w : PlainVolume) → IsKept self.old w →
            FollowsPlain (Write name.now at bytes.now) self.old self.new (done_reply result) }
        ensures unchanged { OnErr result (view_now self.new ≡ view_now self.old) }
        ensures endures { Endures self.old self.new }
        ensures adds { AddsToSpent (Write name.now at bytes.now) self.old self.new }
        ensures stops { stopped self.new ≡ true → IsErrOf result Fault.Failed }
        ensures moves { (w : PlainVolume) → IsKept self.old w →
            Moves (Write name.now at bytes.now) (done_reply result) (state_of self.old) (state_of self.new) }
        ensures halts { IsErrOf result Fault.Failed → (stopped self.new ≡ true) ⊎
            ReadsABlock name.now at (length bytes.now) (state_of self.old) }
        ensures want { IsWant (Write name.now at bytes.now) (wants_of self.old (Write name.now at bytes.now)) }
        ensures failed { IsErrOf result Fault.Failed → Rose (disk_of self.old).faults (disk_of self.new).faults }
    {
        let (file, _record) = find_file(tables_in(&self.filter), name)?;
        self.filter.write(file, at, bytes)
    }

    /// Cuts a file to a length, or extends it by zeros. It takes no memory.
    pub fn set_length(&mut self, name: &[u8], length: u64) -> Result<(), Fault>
        requires running { stopped self.old ≡ false }
        ensures reply { Replies (SetLength name.now length) self.old self.new (done_reply result) }
        ensures left { FollowsPlain (SetLength name.now length) self.old self.new (done_reply result) }
        ensures endures { Endures self.old self.new }
        ensures adds { AddsToSpent (SetLength name.now length) self.old self.new }
        ensures stops { stopped self.new ≡ true → IsErrOf result Fault.Failed }
        ensures moves { Moves (SetLength name.now length) (done_reply result) (state_of self.old) (state_of self.new) }
        ensures halts { IsErrOf result Fault.Failed → stopped self.new ≡ true }
        ensures want { IsWant (SetLength name.now length) (wants_of self.old (SetLength name.now length)) }
        ensures failed { IsErrOf result Fault.Failed → Rose (disk_of self.old).faults (disk_of self.new).faults }
    {
        volume_files::set_length(tables_mut(&mut self.filter), name, length)
    }

    /// Gives a file another name, which no file has, its own included.
    pub fn rename(&mut self, from: &[u8], to: &[u8]) -> Result<(), Fault>
        requires running { stopped self.old ≡ false }
        ensures reply { RepliesOrMemory (Rename from.now to.now) self.old self.new (done_reply result) }
        ensures left { FollowsPlain (Rename from.now to.now) self.old self.new (done_reply result) }
        ensures endures { Endures self.old self.new }
        ensures adds { AddsToSpent (Rename from.now to.now) self.old self.new }
        ensures stops { stopped self.new ≡ true → IsErrOf result Fault.Failed }
        ensures moves { Moves (Rename from.now to.now) (done_reply result) (state_of self.old) (state_of self.new) }
        ensures halts { IsErrOf result Fault.Failed → stopped self.new ≡ true }
        ensures want { IsWant (Rename from.now to.now) (wants_of self.old (Rename from.now to.now)) }
        ensures failed { IsErrOf result Fault.Failed → Rose (disk_of self.old).faults (disk_of self.new).faults }
    {
        volume_files::rename(tables_mut(&mut self.filter), from, to)
    }

    /// Drops a file. It takes no memory.
    pub fn delete(&mut self, name: &[u8]) -> Result<(), Fault>
        requires running { stopped self.old ≡ false }
        ensures reply { Replies (Delete name.now) self.old self.new (done_reply result) }
        ensures left { FollowsPlain (Delete name.now) self.old self.new (done_reply result) }
        ensures endures { Endures self.old self.new }
        ensures adds { AddsToSpent (Delete name.now) self.old self.new }
        ensures stops { stopped self.new ≡ true → IsErrOf result Fault.Failed }
        ensures moves { Moves (Delete name.now) (done_reply result) (state_of self.old) (state_of self.new) }
        ensures halts { IsErrOf result Fault.Failed → stopped self.new ≡ true }
        ensures want { IsWant (Delete name.now) (wants_of self.old (Delete name.now)) }
        ensures failed { IsErrOf result Fault.Failed → Rose (disk_of self.old).faults (disk_of self.new).faults }
    {
        volume_files::delete(tables_mut(&mut self.filter), name)
    }
}
