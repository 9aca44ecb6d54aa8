//! Laws of a volume, each the contract of an empty function.

ghost use Rattle.std.specs.Prelude.{◌≡◌, ℕ, true, Some};
ghost use Rattle.meta_log.specs.Meta.{last_epoch};
ghost use Rattle.plain_volume.specs.Volume.{IsLawfulVolume};
ghost use Rattle.plain_volume.specs.declared.call.Call.{Call};
ghost use Rattle.plain_volume.specs.declared.call.Fault.{Fault};
ghost use Rattle.volume_core.specs.Bounds.{HasSpent, IsSpent};
ghost use Rattle.volume_core.specs.States.{state_of, wears_at};
ghost use Rattle.volume_core.specs.Volumes.{view_now};
ghost use Rattle.volume_core.specs.Wants.{wants_of};

use crate::volume::Volume;
use vdisk::Disk;

/// The names of a volume are lawful and in the order of their bytes, no file is too long, and there are not too many.
pub fn volume_is_lawful<D: Disk>(volume: &Volume<D>)
    ensures { IsLawfulVolume (view_now volume.now) }
{
    let _filter = &volume.filter;
}

/// Where a resource is wanting for a call, it is spent: what the volume has spent so far and what the call asks for
/// tell it, in terms of its files and of counts of clusters and of calls that change.
pub fn what_is_wanting_is_spent<D: Disk>(volume: &Volume<D>)
    ensures { (b i : ℕ) (call : Call) (fault : Fault) → HasSpent volume.now b i →
        wants_of volume.now call ≡ Some fault → IsSpent volume.now b i call fault }
{
    let _filter = &volume.filter;
}

/// A commit is refused for want of an epoch only where the last one is taken.
pub fn volumes_wear_at_the_last_epoch<D: Disk>(volume: &Volume<D>)
    ensures { wears_at (state_of volume.now) ≡ true → (state_of volume.now).pending.epoch ≡ last_epoch }
{
    let _filter = &volume.filter;
}
