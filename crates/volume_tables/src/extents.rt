//! Extents, and the clusters that they name.

ghost use Rattle.std.specs.Prelude.{◌≡◌, ◌⊎◌, ◌≤◌, ◌<◌, ◌+◌, not, length, Option, Some};
ghost use Rattle.std.specs.FinMap.Entries.{find};
ghost use Rattle.table_records.specs.Changes.{is_in_range};
ghost use Rattle.table_records.specs.Keys.{pair_cmp};
ghost use Rattle.table_records.specs.declared.records.Extent.{Extent};
ghost use Rattle.volume_inside.specs.Changes.{with_extent, keep_extents};
ghost use Rattle.volume_inside.specs.Layout.{first_data_cluster};
ghost use Rattle.volume_inside.specs.Lists.{IsOut};
ghost use Rattle.volume_inside.specs.Named.{clusters_of};
ghost use Rattle.volume_tables.specs.Clusters.{HasState, IsNoOthers, cluster_at, all_deferred};
ghost use Rattle.volume_tables.specs.Dropped.{end_bytes, extents_in};

use crate::raw;
use crate::raw_extents::defer_range;
use crate::room::MOST_RECORDS;
use crate::tables::Tables;
use cluster_space::State;
use plain_volume::Fault;
use table_records::{Extent, ExtentTable};
use vdisk::Disk;

/// The cluster of an extent, if there is one.
fn cluster_of(extent: Option<Extent>) -> Option<u32>
    ensures { result ≡ cluster_at extent }
{
    match extent {
        None => None,
        Some(extent) => Some(extent.cluster),
    }
}

impl<D: Disk> Tables<D> {
    ghost use Rattle.volume_tables.specs.Setters.{IsSetIn, IsExtentSet, IsDroppedIn};
    ghost use Rattle.volume_tables.specs.Moves.{MovesStatesTo};
    ghost use Rattle.volume_tables.specs.Tables.{tables_now, states_of, staged_of, next_after};

    /// The extent of a block of a file: `key` is the file's id and the block's number.
    pub fn get_extent(&self, key: (u64, u32)) -> Option<Extent>
        ensures { result ≡ find pair_cmp key (tables_now self.now).extents }
    {
        raw::get::<D, ExtentTable>(&self.log, key)
    }

    /// The extent with the least key above `after`, or with the least of all.
    pub fn next_extent(&self, after: Option<(u64, u32)>) -> Option<((u64, u32), Extent)>
        ensures { result ≡ next_after pair_cmp after (tables_now self.now).extents }
    {
        match after {
            Some(key) => raw::next::<D, ExtentTable>(&self.log, key),
            None => raw::first::<D, ExtentTable>(&self.log),
        }
    }

    /// How many extents have a key from one on and below another. However many they are, it searches twice.
    pub fn count_extents(&self, from: (u64, u32), to: (u64, u32)) -> usize
        ensures { result ≡ length (extents_in from (Some to) (tables_now self.now).extents) }
    {
        raw::count_between::<D, ExtentTable>(&self.log, from, to)
    }

    /// Sets an extent over a used cluster that no other key names. The cluster that stood at the key stays used.
    fn put_extent(&mut self, key: (u64, u32), extent: Extent) -> Result<(), Fault>
        requires room { staged_of self.old + 24 ≤ MOST_RECORDS }
        requires below { extent.cluster < self.old.clusters }
        requires used { HasState self.old.clusters (states_of self.old) State.Used extent.cluster }
        requires alone { IsNoOthers key extent.cluster (tables_now self.old) }
        ensures { IsSetIn (with_extent key extent) (find pair_cmp key (tables_now self.old).extents) 24
            self.old self.new result }
    {
        raw::put::<D, ExtentTable>(&mut self.log, key, extent)
    }

    /// Names a cluster as a block of a file: `key` is the file's id and the block's number. No other key names the
    /// cluster, and the extent `was` stands at the key, if one does. Room for 24 bytes of records was ensured.
    ///
    /// After Ok the cluster is used, and another one that stood at the key is deferred. After a refusal the cluster is
    /// deferred, unless the key names it.
    pub fn set_extent(
        &mut self,
        key: (u64, u32),
        was: Option<Extent>,
        extent: Extent,
    ) -> Result<(), Fault>
        requires is { was ≡ find pair_cmp key (tables_now self.old).extents }
        requires room { staged_of self.old + 24 ≤ MOST_RECORDS }
        requires taken { HasState self.old.clusters (states_of self.old) State.Used extent.cluster ⊎
            HasState self.old.clusters (states_of self.old) State.Deferred extent.cluster }
        requires alone { IsNoOthers key extent.cluster (tables_now self.old) }
        ensures { IsExtentSet key extent self.old self.new result }
    {
        let stood = cluster_of(was);
        self.take_back(extent.cluster);
        match self.put_extent(key, extent) {
            Ok(()) => {
                self.give_up_replaced(stood, extent.cluster);
                Ok(())
            }
            Err(fault) => {
                self.give_up_refused(stood, extent.cluster);
                Err(fault)
            }
        }
    }

    /// Drops the extents from a key on, all of them or those below another. Their clusters are deferred. Room for 31
    /// bytes of records was ensured.
    pub fn drop_extent(&mut self, from: (u64, u32), to: Option<(u64, u32)>)
        requires { staged_of self.old + 31 ≤ MOST_RECORDS }
        ensures { IsDroppedIn (keep_extents (λ key. not (is_in_range pair_cmp from to key)))
            (5 + 13 + end_bytes (λ key. 13) to) (all_deferred (first_data_cluster self.old.clusters)
            (extents_in from to (tables_now self.old).extents) (states_of self.old)) self.old self.new }
    {
        let first = self.first_cluster();
        defer_range(&self.log, &mut self.space, first, from, to);
        raw::drop_range::<D, ExtentTable>(&mut self.log, from, to);
    }
}
