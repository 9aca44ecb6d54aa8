//! The pages of a range of keys in the journal's map, whose clusters are deferred.

ghost use Rattle.std.specs.Prelude.{◌≡◌};
ghost use Rattle.table_records.specs.Codecs.{typed, IsKeyed};
ghost use Rattle.table_records.specs.Keys.{pair_cmp};
ghost use Rattle.table_records.specs.Tables.{cluster_codec};
ghost use Rattle.volume_inside.specs.Pages.{page_clusters};
ghost use Rattle.volume_tables.specs.Clusters.{each_deferred};
ghost use Rattle.volume_tables.specs.Contents.{SortedAnd};
ghost use Rattle.volume_tables.specs.Dropped.{pages_in, entries_above, entries_left, AreUsed};
ghost use Rattle.volume_tables.specs.Log.{log_now};

use crate::raw;
use crate::raw_extents::is_below;
use cluster_space::Space;
use meta_log::MetaLog;
use table_records::ClusterTable;
use vdisk::Disk;

/// The page with the least key above one, if it is in the range.
fn next_in_range<D: Disk>(
    log: &MetaLog<D>,
    after: (u64, u32),
    to: Option<(u64, u32)>,
) -> Option<((u64, u32), u32)>
    requires { SortedAnd (IsKeyed cluster_codec) (log_now log.now) }
    ensures { entries_left result to (typed cluster_codec (log_now log.now)) ≡
        entries_above after to (typed cluster_codec (log_now log.now)) }
{
    match raw::next::<D, ClusterTable>(log, after) {
        None => None,
        Some((key, cluster)) => {
            if is_below(key, to) {
                Some((key, cluster))
            } else {
                None
            }
        }
    }
}

/// The page with the least key of a range.
fn first_in_range<D: Disk>(
    log: &MetaLog<D>,
    from: (u64, u32),
    to: Option<(u64, u32)>,
) -> Option<((u64, u32), u32)>
    requires { SortedAnd (IsKeyed cluster_codec) (log_now log.now) }
    ensures { entries_left result to (typed cluster_codec (log_now log.now)) ≡
        pages_in from to (typed cluster_codec (log_now log.now)) }
{
    match raw::get::<D, ClusterTable>(log, from) {
        None => next_in_range(log, from, to),
        Some(cluster) => {
            if is_below(from, to) {
                Some((from, cluster))
            } else {
                None
            }
        }
    }
}

/// Defers the clusters of the pages of a range, where the first data cluster is this one.
pub(crate) fn defer_pages<D: Disk>(
    log: &MetaLog<D>,
    space: &mut Space,
    first: u32,
    from: (u64, u32),
    to: Option<(u64, u32)>,
)
    requires keyed { SortedAnd (IsKeyed cluster_codec) (log_now log.now) }
    requires used { AreUsed first space.old
        (page_clusters (pages_in from to (typed cluster_codec (log_now log.now)))) }
    ensures { space.new ≡ each_deferred first
        (page_clusters (pages_in from to (typed cluster_codec (log_now log.now)))) space.old }
{
    let mut next = first_in_range(log, from, to);
    while let Some((key, cluster)) = next {
        space.defer(cluster - first);
        next = next_in_range(log, key, to);
    }
}
