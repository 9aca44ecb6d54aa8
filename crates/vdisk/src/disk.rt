// A disk as the volume sees it: what reads give, and what a crash may leave.
ghost use Rattle.std.specs.Prelude.{◌≡◌, ◌<◌, ◌≤◌, ◌+◌, ◌-◌, ◌^◌, List, ℕ, IsTrue, length, take, drop, refl, OnOk, OnErr};
ghost use Rattle.std.proofs.Common.{◌∙◌};
ghost use Rattle.vdisk.specs.Causes.{HasCause};
ghost use Rattle.vdisk.specs.Disk.{DiskState, Holds, ChangedWithin, GrownTo, Follows, Only, Elapses, Untouched, RefusedAtTheEnd};

use thiserror::Error;

/// The device failed.
#[derive(Clone, Copy, Debug, PartialEq, Eq, Error)]
#[error("the device failed")]
pub struct Failed;

/// A disk: bytes that can be read, written over and added to, and that a crash may tear until a sync.
///
/// Places and sizes are in bytes. The moment counts the calls that change or sync the disk, and at its last value
/// every call fails. Only a disk that tells
/// what it holds promises anything of the bytes that a read gives, and of what a sync leaves; ranges, sizes, the
/// moment and the count of faults are promised of every disk.
pub trait Disk {
    /// What the disk means now.
    ghost state: { Self → DiskState };

    /// The two are one borrow, where a disk is a borrow.
    ghost is_same: { Self → Self → Type 0 };

    /// How many bytes it has. Only `grow` changes that.
    fn size(&self) -> u64
        ensures { result ≡ length (state self.now).image };

    /// The moment, which never falls, and rises with each `grow`, `write` and `sync`.
    fn moment(&self) -> u64
        ensures { result ≡ (state self.now).moment };

    /// Makes the disk longer. Until a sync, a crash may leave any bytes past the old end.
    fn grow(&mut self, to: u64) -> Result<(), Failed>
        requires { length (state self.old).image ≤ to }
        ensures grown { OnOk result (length (state self.new).image ≡ to) }
        ensures image { GrownTo to (state self.old).image (state self.new).image }
        ensures crash { Follows (GrownTo to) (state self.old).may_leave (state self.new).may_leave }
        ensures time { Elapses (state self.old) (state self.new) }
        ensures end { RefusedAtTheEnd (state self.old) result }
        ensures same { is_same self.old self.new }
        ensures cause { HasCause (state self.old).faults (state self.new).faults result };

    /// Reads the bytes from a place on. After a refusal `out` may hold anything.
    fn read(&mut self, at: u64, out: &mut [u8]) -> Result<(), Failed>
        requires { at + length out.old ≤ length (state self.old).image }
        ensures bytes { IsTrue (state self.old).tells →
            OnOk result (out.new ≡ take (length out.old) (drop at (state self.old).image)) }
        ensures untouched { Untouched (state self.old) (state self.new) }
        ensures end { RefusedAtTheEnd (state self.old) result }
        ensures same { is_same self.old self.new }
        ensures cause { HasCause (state self.old).faults (state self.new).faults result };

    /// Writes over the bytes from a place on. Until a sync, a crash may leave any bytes in the range; after a refusal
    /// the range may also read as any bytes.
    fn write(&mut self, at: u64, bytes: &[u8]) -> Result<(), Failed>
        requires { at + length bytes.now ≤ length (state self.old).image }
        ensures written { IsTrue (state self.old).tells →
            OnOk result (Holds (state self.old).image at bytes.now (state self.new).image) }
        ensures image { ChangedWithin at (length bytes.now) (state self.old).image (state self.new).image }
        ensures crash { Follows (ChangedWithin at (length bytes.now)) (state self.old).may_leave
            (state self.new).may_leave }
        ensures time { Elapses (state self.old) (state self.new) }
        ensures end { RefusedAtTheEnd (state self.old) result }
        ensures same { is_same self.old self.new }
        ensures cause { HasCause (state self.old).faults (state self.new).faults result };

    /// Makes all that was written safe: after it, a crash leaves what reads give.
    fn sync(&mut self) -> Result<(), Failed>
        ensures durable { IsTrue (state self.old).tells
            → OnOk result (Only (state self.old).image (state self.new).may_leave) }
        ensures image { (state self.new).image ≡ (state self.old).image }
        ensures crash { (c : List ℕ) → (state self.new).may_leave c → (state self.old).may_leave c }
        ensures time { Elapses (state self.old) (state self.new) }
        ensures end { RefusedAtTheEnd (state self.old) result }
        ensures same { is_same self.old self.new }
        ensures cause { HasCause (state self.old).faults (state self.new).faults result };

    /// A disk is the same as itself.
    ghost same_self: { (disk : Self) → is_same disk disk };

    /// Being the same goes on from call to call.
    ghost same_next: { (a b c : Self) → is_same a b → is_same b c → is_same a c };
}

/// A disk that is lent is a disk.
impl<D: Disk> Disk for &mut D {
    ghost state = { λ d. D.state d.now };

    ghost is_same = { λ a b. a.ghost_name ≡ b.ghost_name };

    ghost same_self = { λ d. refl };

    ghost same_next = { λ a b c one two. one ∙ two };

    fn size(&self) -> u64 {
        (**self).size()
    }

    fn moment(&self) -> u64 {
        (**self).moment()
    }

    fn grow(&mut self, to: u64) -> Result<(), Failed> {
        (**self).grow(to)
    }

    fn read(&mut self, at: u64, out: &mut [u8]) -> Result<(), Failed> {
        (**self).read(at, out)
    }

    fn write(&mut self, at: u64, bytes: &[u8]) -> Result<(), Failed> {
        (**self).write(at, bytes)
    }

    fn sync(&mut self) -> Result<(), Failed> {
        (**self).sync()
    }
}
