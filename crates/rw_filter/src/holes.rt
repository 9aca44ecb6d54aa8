//! The cells of a file that its base has to give.

ghost use Rattle.std.specs.Prelude.{◌≤◌};
ghost use Rattle.plain_volume.specs.declared.limits.TheConstants.{MOST_BYTES_OF_A_FILE};
ghost use Rattle.volume_tables.specs.Tables.{tables_now};
ghost use Rattle.rw_filter.specs.Holes.{IsHole, same_hole};

use row_reading::Wanted;
use vdisk::Disk;
use volume_inside::CLUSTER_BYTES as BLOCK;
use volume_tables::Tables;

/// The covered cells of a file that no extent names.
#[derive(Clone, Copy)]
pub(crate) struct Holes {
    pub(crate) file: u64,
    /// How many cells of the file its base covers.
    pub(crate) covers: u64,
    ghost low: { covers ≤ MOST_BYTES_OF_A_FILE },
}

impl<D: Disk> Wanted<Tables<D>> for Holes {
    ghost is_wanted = { λ w t p. IsHole (tables_now t) w.file w.covers p };

    ghost same_wanted = { λ w a b reads p. same_hole (tables_now a) (tables_now b) reads.now w.file w.covers p };

    fn first_wanted(&self, disk: &Tables<D>, from: u64, to: u64) -> Option<u64> {
        let end = to.min(self.covers);
        let block = u64::from(BLOCK);
        let mut place = from;
        while place < end {
            if disk
                .get_extent((self.file, (place / block) as u32))
                .is_none()
            {
                return Some(place);
            }
            place = (place / block + 1) * block;
        }
        None
    }
}
