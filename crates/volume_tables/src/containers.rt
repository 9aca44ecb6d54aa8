//! Containers, to which chunks are appended.

ghost use Rattle.std.specs.Prelude.{◌≡◌, ◌≤◌, ◌+◌, not, true, None};
ghost use Rattle.std.specs.Ordering.{nat_cmp};
ghost use Rattle.std.specs.FinMap.Entries.{find};
ghost use Rattle.table_records.specs.Changes.{is_in_range};
ghost use Rattle.table_records.specs.Keys.{pair_cmp};
ghost use Rattle.volume_inside.specs.Changes.{with_container, keep_containers};
ghost use Rattle.volume_inside.specs.ChunkTables.{PageKey};
ghost use Rattle.volume_inside.specs.Pages.{used_of};
ghost use Rattle.volume_tables.specs.Dropped.{end_bytes};

use crate::raw;
use crate::room::MOST_RECORDS;
use crate::tables::Tables;
use plain_volume::Fault;
use table_records::{Container, ContainerTable};
use vdisk::Disk;

impl<D: Disk> Tables<D> {
    ghost use Rattle.volume_tables.specs.Setters.{IsSetIn, IsDroppedIn};
    ghost use Rattle.volume_tables.specs.Tables.{tables_now, states_of, staged_of, next_after};

    /// The record of a container.
    pub fn get_container(&self, id: u64) -> Option<Container>
        ensures { result ≡ find nat_cmp id (tables_now self.now).chunks.containers }
    {
        raw::get::<D, ContainerTable>(&self.log, id)
    }

    /// The container with the least id above `after`, or with the least of all.
    pub fn next_container(&self, after: Option<u64>) -> Option<(u64, Container)>
        ensures { result ≡ next_after nat_cmp after (tables_now self.now).chunks.containers }
    {
        match after {
            Some(id) => raw::next::<D, ContainerTable>(&self.log, id),
            None => raw::first::<D, ContainerTable>(&self.log),
        }
    }

    /// Sets the record of a container, of which no fewer bytes are used than before. Room for 19 bytes of records was
    /// ensured.
    pub fn set_container(&mut self, id: u64, container: Container) -> Result<(), Fault>
        requires room { staged_of self.old + 19 ≤ MOST_RECORDS }
        requires grows { used_of (tables_now self.old).chunks.containers id ≤ container.used }
        ensures { IsSetIn (with_container id container) (find nat_cmp id (tables_now self.old).chunks.containers) 19
            self.old self.new result }
    {
        raw::put::<D, ContainerTable>(&mut self.log, id, container)
    }

    /// Drops the records of the containers from an id on, all of them or those below another, none of which has a page.
    /// Room for 23 bytes of records was ensured.
    pub fn drop_container(&mut self, from: u64, to: Option<u64>)
        requires room { staged_of self.old + 23 ≤ MOST_RECORDS }
        requires bare { (key : PageKey) → is_in_range nat_cmp from to key.0 ≡ true →
            find pair_cmp key (tables_now self.old).chunks.clusters ≡ None }
        ensures { IsDroppedIn (keep_containers (λ id. not (is_in_range nat_cmp from to id)))
            (5 + 9 + end_bytes (λ id. 9) to) (states_of self.old) self.old self.new }
    {
        raw::drop_range::<D, ContainerTable>(&mut self.log, from, to);
    }
}
