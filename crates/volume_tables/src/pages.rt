//! The clusters of containers, each of which holds a page.

ghost use Rattle.std.specs.Prelude.{◌≡◌, ◌≤◌, ◌+◌, not, None};
ghost use Rattle.std.specs.FinMap.Entries.{find};
ghost use Rattle.table_records.specs.Changes.{is_in_range};
ghost use Rattle.table_records.specs.Keys.{pair_cmp};
ghost use Rattle.volume_inside.specs.Changes.{with_cluster, keep_clusters};
ghost use Rattle.volume_inside.specs.Layout.{first_data_cluster};
ghost use Rattle.volume_inside.specs.Pages.{page_clusters};
ghost use Rattle.volume_tables.specs.Clusters.{HasState, each_deferred};
ghost use Rattle.volume_tables.specs.Dropped.{end_bytes, pages_in};

use crate::raw;
use crate::raw_pages::defer_pages;
use crate::room::MOST_RECORDS;
use crate::tables::Tables;
use cluster_space::State;
use plain_volume::Fault;
use table_records::ClusterTable;
use vdisk::Disk;

impl<D: Disk> Tables<D> {
    ghost use Rattle.volume_tables.specs.Setters.{IsPageSet, IsDroppedIn};
    ghost use Rattle.volume_tables.specs.Tables.{tables_now, states_of, staged_of, next_after};

    /// The cluster of a page: `key` is the container's id and the page's number.
    pub fn get_cluster(&self, key: (u64, u32)) -> Option<u32>
        ensures { result ≡ find pair_cmp key (tables_now self.now).chunks.clusters }
    {
        raw::get::<D, ClusterTable>(&self.log, key)
    }

    /// The page with the least key above `after`, or with the least of all, with its cluster.
    pub fn next_cluster(&self, after: Option<(u64, u32)>) -> Option<((u64, u32), u32)>
        ensures { result ≡ next_after pair_cmp after (tables_now self.now).chunks.clusters }
    {
        match after {
            Some(key) => raw::next::<D, ClusterTable>(&self.log, key),
            None => raw::first::<D, ClusterTable>(&self.log),
        }
    }

    /// Names a free cluster as a page that its container has not yet: `key` is the container's id and the page's
    /// number. Room for 22 bytes of records was ensured. After Ok the cluster is used; after a refusal all is as before.
    pub fn set_cluster(&mut self, key: (u64, u32), cluster: u32) -> Result<(), Fault>
        requires room { staged_of self.old + 22 ≤ MOST_RECORDS }
        requires new { find pair_cmp key (tables_now self.old).chunks.clusters ≡ None }
        requires free { HasState self.old.clusters (states_of self.old) State.Free cluster }
        ensures { IsPageSet key cluster self.old self.new result }
    {
        let first = self.first_cluster();
        raw::put::<D, ClusterTable>(&mut self.log, key, cluster)?;
        self.space.mark_used(cluster - first);
        Ok(())
    }

    /// Drops the pages from a key on, all of them or those below another. Their clusters are deferred. Room for 31
    /// bytes of records was ensured.
    pub fn drop_cluster(&mut self, from: (u64, u32), to: Option<(u64, u32)>)
        requires { staged_of self.old + 31 ≤ MOST_RECORDS }
        ensures { IsDroppedIn (keep_clusters (λ key. not (is_in_range pair_cmp from to key)))
            (5 + 13 + end_bytes (λ key. 13) to) (each_deferred (first_data_cluster self.old.clusters)
            (page_clusters (pages_in from to (tables_now self.old).chunks.clusters)) (states_of self.old))
            self.old self.new }
    {
        let first = self.first_cluster();
        defer_pages(&self.log, &mut self.space, first, from, to);
        raw::drop_range::<D, ClusterTable>(&mut self.log, from, to);
    }
}
