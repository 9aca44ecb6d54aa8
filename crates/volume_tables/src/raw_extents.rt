//! The extents of a range of keys in the journal's map, whose clusters are deferred.

ghost use Rattle.std.specs.Prelude.{◌≡◌};
ghost use Rattle.table_records.specs.Changes.{is_under};
ghost use Rattle.table_records.specs.Codecs.{typed, IsKeyed};
ghost use Rattle.table_records.specs.Keys.{pair_cmp};
ghost use Rattle.table_records.specs.Tables.{extent_codec};
ghost use Rattle.volume_tables.specs.Clusters.{all_deferred};
ghost use Rattle.volume_tables.specs.Contents.{SortedAnd};
ghost use Rattle.volume_tables.specs.Dropped.{extents_in, extents_above, extents_left, AreUsedOnce};
ghost use Rattle.volume_tables.specs.Log.{log_now};

use crate::raw;
use cluster_space::Space;
use meta_log::MetaLog;
use table_records::{Extent, ExtentTable};
use vdisk::Disk;

/// Whether a key is below the end of a range, if it has one.
pub(crate) fn is_below(key: (u64, u32), to: Option<(u64, u32)>) -> bool
    ensures { result ≡ is_under pair_cmp to key }
{
    match to {
        None => true,
        Some(to) => key < to,
    }
}

/// The extent with the least key above one, if it is in the range.
fn next_in_range<D: Disk>(
    log: &MetaLog<D>,
    after: (u64, u32),
    to: Option<(u64, u32)>,
) -> Option<((u64, u32), Extent)>
    requires { SortedAnd (IsKeyed extent_codec) (log_now log.now) }
    ensures { extents_left result to (typed extent_codec (log_now log.now)) ≡
        extents_above after to (typed extent_codec (log_now log.now)) }
{
    match raw::next::<D, ExtentTable>(log, after) {
        None => None,
        Some((key, extent)) => {
            if is_below(key, to) {
                Some((key, extent))
            } else {
                None
            }
        }
    }
}

/// The extent with the least key of a range.
fn first_in_range<D: Disk>(
    log: &MetaLog<D>,
    from: (u64, u32),
    to: Option<(u64, u32)>,
) -> Option<((u64, u32), Extent)>
    requires { SortedAnd (IsKeyed extent_codec) (log_now log.now) }
    ensures { extents_left result to (typed extent_codec (log_now log.now)) ≡
        extents_in from to (typed extent_codec (log_now log.now)) }
{
    match raw::get::<D, ExtentTable>(log, from) {
        None => next_in_range(log, from, to),
        Some(extent) => {
            if is_below(from, to) {
                Some((from, extent))
            } else {
                None
            }
        }
    }
}

/// Defers the clusters of the extents of a range, where the first data cluster is this one.
pub(crate) fn defer_range<D: Disk>(
    log: &MetaLog<D>,
    space: &mut Space,
    first: u32,
    from: (u64, u32),
    to: Option<(u64, u32)>,
)
    requires keyed { SortedAnd (IsKeyed extent_codec) (log_now log.now) }
    requires used { AreUsedOnce first space.old (extents_in from to (typed extent_codec (log_now log.now))) }
    ensures { space.new ≡ all_deferred first (extents_in from to (typed extent_codec (log_now log.now))) space.old }
{
    let mut next = first_in_range(log, from, to);
    while let Some((key, extent)) = next {
        space.defer(extent.cluster - first);
        next = next_in_range(log, key, to);
    }
}
