// Laws on what a crash may leave.
ghost use Rattle.std.specs.Prelude.{◌≡◌, ◌⊎◌, ◌≤◌, ◌+◌, ◌∷◌, ℕ, List, Vec, length};
ghost use Rattle.std.specs.declared.alloc.Global.{Global};
ghost use Rattle.vdisk.specs.declared.record.Event.{Event};
ghost use Rattle.vdisk.specs.declared.record.Change.TheVariants.{Wrote};
ghost use Rattle.vdisk.specs.Disk.{ChangedWithin, Elapses, Follows};
ghost use Rattle.vdisk.specs.Laws.{IsMix};
ghost use Rattle.vdisk.specs.Past.{LeftByCrash, put};
ghost use Rattle.vdisk.specs.Ranges.{part};

use crate::disk::Disk;

/// A write may be torn at every byte: each mix of old and written bytes is an image that a crash after it may leave,
/// whatever was pending before.
pub fn a_write_may_tear_at_every_byte()
    ensures { (image bytes mix : List ℕ) (at stamp : ℕ) (past : List Event) (was : Vec ℕ Global) →
        at + length bytes ≤ length image → length was.items ≡ length bytes → IsMix at bytes image mix →
        LeftByCrash (put image at bytes) (record { stamp = stamp; change = Wrote at was } ∷ past) mix }
{}

/// What a crash since a moment before a call might have left, it might have left by then, or it may leave after the
/// call. The premise is what each call of a disk ensures.
pub fn a_call_adds_what_it_may_leave<D: Disk>(before: &D, after: &D)
    requires { Elapses (D.state before.now) (D.state after.now) }
    ensures { (t : ℕ) (image : List ℕ) → t ≤ (D.state before.now).moment → (D.state after.now).left_since t image →
        (D.state before.now).left_since t image ⊎ (D.state after.now).may_leave image }
{}

/// Time goes on from one call to the next: what a crash since a moment before two calls might have left, it might have
/// left by then, or it might leave after the first, or it may leave after the second.
pub fn time_goes_on<D: Disk>(first: &D, second: &D, third: &D)
    requires one { Elapses (D.state first.now) (D.state second.now) }
    requires two { Elapses (D.state second.now) (D.state third.now) }
    ensures later { (D.state first.now).moment ≤ (D.state third.now).moment }
    ensures since { (t : ℕ) (image : List ℕ) → t ≤ (D.state first.now).moment → (D.state third.now).left_since t image →
        (D.state first.now).left_since t image
        ⊎ ((D.state second.now).may_leave image ⊎ (D.state third.now).may_leave image) }
{}

/// A write leaves each byte outside its range, in every image of a crash after it, as some crash before it might have
/// left it. So a range that nobody names may be written at any time.
pub fn unnamed_bytes_stay<D: Disk>(before: &D, after: &D, at: u64, n: u64, place: u64, len: u64)
    requires written { Follows (ChangedWithin at n) (D.state before.now).may_leave (D.state after.now).may_leave }
    requires apart { (place + len ≤ at) ⊎ (at + n ≤ place) }
    ensures { (image : List ℕ) → (D.state after.now).may_leave image →
        (was : List ℕ) × (D.state before.now).may_leave was × (part place len image ≡ part place len was) }
{}
