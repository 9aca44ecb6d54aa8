//! A volume over a disk.

ghost use Rattle.volume_tables.specs.Sound.{IsSound};
ghost use Rattle.rw_filter.specs.Filters.{filtered};
ghost use Rattle.volume_core.specs.Sound.{sound_prop};

use rw_filter::Filter;
use vdisk::Disk;

/// A volume over a disk: its files with their bases, over tables that are sound between two calls.
#[derive(Drop)]
pub struct Volume<D: Disk> {
    pub(crate) filter: Filter<D>,
    ghost sound: { IsSound (filtered filter) } by { sound_prop (filtered filter) },
}
