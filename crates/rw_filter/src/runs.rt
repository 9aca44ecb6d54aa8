//! Cells of a file beside one another that all come from its base, or of which none does.

ghost use Rattle.std.specs.Prelude.{◌≡◌, ◌≤◌, ◌<◌, ◌+◌, ◌%◌};
ghost use Rattle.std.specs.Ordering.{nat_cmp};
ghost use Rattle.std.specs.FinMap.{find};
ghost use Rattle.plain_volume.specs.declared.limits.TheConstants.{MOST_BYTES_OF_A_FILE};
ghost use Rattle.volume_inside.specs.declared.layout.TheConstants.{CLUSTER_BYTES};
ghost use Rattle.volume_files.specs.Own.{covered_in};
ghost use Rattle.volume_tables.specs.Tables.{tables_now};
ghost use Rattle.rw_filter.specs.Own.{is_own as is_own_in, IsRun};

use vdisk::Disk;
use volume_inside::CLUSTER_BYTES;
use volume_tables::Tables;

/// Cells of a file from a place on.
#[derive(Clone, Copy)]
pub(crate) struct Run {
    /// How many they are.
    pub(crate) count: usize,
    /// Whether none of them comes from a base.
    pub(crate) own: bool,
}

/// Whether the cell at a place of a file, of which a base covers so many bytes, comes from no base.
fn is_own<D: Disk>(tables: &Tables<D>, file: u64, covers: u64, place: u64) -> bool
    requires covers { covers ≡ covered_in (find nat_cmp file (tables_now tables.now).files) }
    requires low { place ≤ MOST_BYTES_OF_A_FILE }
    ensures { result ≡ is_own_in (tables_now tables.now) file place }
{
    let index = (place / u64::from(CLUSTER_BYTES)) as u32;
    place >= covers || tables.get_extent((file, index)).is_some()
}

/// How many cells from a place on, at most so many, lie in one block and on one side of what the base covers.
fn part_beside(covers: u64, place: u64, most: usize) -> usize
    requires some { 0 < most }
    ensures some { 0 < result }
    ensures fits { result ≤ most }
    ensures beside { place < covers → place + result ≤ covers }
    ensures in_block { place < covers → place % CLUSTER_BYTES + result ≤ CLUSTER_BYTES }
{
    if place >= covers {
        return most;
    }
    let block = u64::from(CLUSTER_BYTES) - place % u64::from(CLUSTER_BYTES);
    block.min(covers - place).min(most as u64) as usize
}

/// The longest run of cells from a place on, at most so many. Each block is looked up once.
pub(crate) fn run_at<D: Disk>(
    tables: &Tables<D>,
    file: u64,
    covers: u64,
    place: u64,
    most: usize,
) -> Run
    requires covers { covers ≡ covered_in (find nat_cmp file (tables_now tables.now).files) }
    requires some { 0 < most }
    requires low { place + most ≤ MOST_BYTES_OF_A_FILE }
    ensures { IsRun (tables_now tables.now) file place most result }
{
    let own = is_own(tables, file, covers, place);
    let mut count = part_beside(covers, place, most);
    while count < most {
        let next = place + count as u64;
        if is_own(tables, file, covers, next) != own {
            break;
        }
        count += part_beside(covers, next, most - count);
    }
    Run { count, own }
}
