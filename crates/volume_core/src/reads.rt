//! What a volume holds is told.

ghost use Rattle.std.specs.Prelude.{◌≡◌, ◌⊎◌, ◌≤◌, ℕ, false, length, take, IfSome, IsErrOf, OnErr};
ghost use Rattle.std.specs.Option.{option_map};
ghost use Rattle.groundwork.specs.declared.limits.TheConstants.{MOST_NAME_BYTES};
ghost use Rattle.vdisk.specs.Causes.{Rose};
ghost use Rattle.plain_volume.specs.Volume.{Volume as PlainVolume};
ghost use Rattle.plain_volume.specs.Step.{plain};
ghost use Rattle.plain_volume.specs.Replies.{own_reply, bytes_reply, done_reply, IsOwnOrMemory};
ghost use Rattle.plain_volume.specs.declared.call.Call.TheVariants.{Read, Digest, Stat, Next};

use crate::hashing::hash_file;
use crate::lending::tables_in;
use crate::volume::Volume;
use plain_volume::limits::MOST_BYTES_OF_A_NAME;
use plain_volume::{Fault, Name};
use std::alloc::Global;
use vdisk::Disk;
use volume_files::find_file;

/// As many bytes as the longest name of a file has.
fn name_front(name: &[u8]) -> &[u8]
    ensures { result.now ≡ take MOST_NAME_BYTES name.now }
{
    &name[..name.len().min(MOST_BYTES_OF_A_NAME)]
}

/// The front of a name. No name of a file lies between it and the name.
fn shortened<'a>(after: Option<&'a [u8]>) -> Option<&'a [u8]>
    ensures short { IfSome result (λ name. length name.now ≤ MOST_NAME_BYTES) }
    ensures is { option_map (λ name. name.now) result ≡ option_map (λ name. take MOST_NAME_BYTES name.now) after.entry }
{
    match after {
        Some(name) => Some(name_front(name)),
        None => None,
    }
}

impl<D: Disk> Volume<D> {
    ghost use Rattle.volume_core.specs.Volumes.{disk_of, view_now, stopped, IsKept, Endures};
    ghost use Rattle.volume_core.specs.Bounds.{AddsToSpent};
    ghost use Rattle.volume_core.specs.States.{state_of};
    ghost use Rattle.volume_core.specs.Moves.{Moves};
    ghost use Rattle.volume_core.specs.Replies.{Replies, digest_reply, length_reply, name_reply};

    /// Fills the buffer from a place of a file. After a refusal `out` may hold anything. It takes no memory. A lost cell
    /// of the range is told by the first place of one.
    pub fn read_into(&mut self, name: &[u8], at: u64, out: &mut [u8]) -> Result<(), Fault>
        requires running { stopped self.old ≡ false }
        ensures reply { (w : PlainVolume) → IsKept self.old w →
            Replies (Read name.now at (length out.old)) self.old self.new (bytes_reply out.new result) }
        ensures refused { OnErr result (((place : ℕ) × IsErrOf result (Fault.Damaged place)) ⊎
            Replies (Read name.now at (length out.old)) self.old self.new (done_reply result)) }
        ensures moves { Moves (Read name.now at (length out.old)) (bytes_reply out.new result) (state_of self.old)
            (state_of self.new) }
        ensures left { view_now self.new ≡ view_now self.old }
        ensures endures { Endures self.old self.new }
        ensures adds { AddsToSpent (Read name.now at (length out.old)) self.old self.new }
        ensures runs { stopped self.new ≡ false }
        ensures failed { IsErrOf result Fault.Failed → Rose (disk_of self.old).faults (disk_of self.new).faults }
    {
        let (file, record) = find_file(tables_in(&self.filter), name)?;
        if at > record.length || record.length - at < out.len() as u64 {
            return Err(Fault::OutsideFile(record.length));
        }
        self.filter.read_into(file, at, out)
    }

    /// The SHA-256 of a whole file. It takes no memory. A lost cell is told by the first place of one.
    pub fn digest(&mut self, name: &[u8]) -> Result<[u8; 32], Fault>
        requires running { stopped self.old ≡ false }
        ensures reply { (w : PlainVolume) → IsKept self.old w →
            Replies (Digest name.now) self.old self.new (digest_reply result) }
        ensures refused { OnErr result (((place : ℕ) × IsErrOf result (Fault.Damaged place)) ⊎
            Replies (Digest name.now) self.old self.new (digest_reply result)) }
        ensures moves { Moves (Digest name.now) (digest_reply result) (state_of self.old) (state_of self.new) }
        ensures left { view_now self.new ≡ view_now self.old }
        ensures endures { Endures self.old self.new }
        ensures adds { AddsToSpent (Digest name.now) self.old self.new }
        ensures runs { stopped self.new ≡ false }
        ensures failed { IsErrOf result Fault.Failed → Rose (disk_of self.old).faults (disk_of self.new).faults }
    {
        let (file, record) = find_file(tables_in(&self.filter), name)?;
        hash_file(&mut self.filter, file, record.length)
    }

    /// The length of a file, in bytes.
    pub fn stat(&self, name: &[u8]) -> Result<u64, Fault>
        ensures { length_reply result ≡ own_reply (plain (view_now self.now) (Stat name.now)) }
    {
        let (_file, record) = find_file(tables_in(&self.filter), name)?;
        Ok(record.length)
    }

    /// A copy of the least name above `after`, in the order of their bytes, or of the least of all. The only fault is
    /// `Memory`.
    pub fn next_name(&self, alloc: Global, after: Option<&[u8]>) -> Result<Option<Name>, Fault>
        ensures { IsOwnOrMemory (view_now self.now) (Next (option_map (λ name. name.now) after.entry))
            (name_reply result) (view_now self.now) }
    {
        match tables_in(&self.filter).next_name(shortened(after)) {
            Some((name, _file)) => Ok(Some(Name::of(alloc, name)?)),
            None => Ok(None),
        }
    }
}
