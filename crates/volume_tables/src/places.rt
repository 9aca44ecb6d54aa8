//! Where the copies of rows lie.

ghost use Rattle.std.specs.Prelude.{◌≡◌, ◌≤◌, ◌+◌, not};
ghost use Rattle.std.specs.FinMap.Entries.{find};
ghost use Rattle.table_records.specs.Changes.{is_in_range};
ghost use Rattle.table_records.specs.Keys.{pair_cmp};
ghost use Rattle.volume_inside.specs.Changes.{with_place, keep_places};
ghost use Rattle.volume_tables.specs.Dropped.{end_bytes};

use crate::raw;
use crate::room::MOST_RECORDS;
use crate::tables::Tables;
use plain_volume::Fault;
use table_records::{Place, PlaceTable};
use vdisk::Disk;

impl<D: Disk> Tables<D> {
    ghost use Rattle.volume_tables.specs.Setters.{IsSetIn, IsDroppedIn};
    ghost use Rattle.volume_tables.specs.Tables.{tables_now, states_of, staged_of, next_after};

    /// The place of a copy: `key` is the row's id and the copy's number.
    pub fn get_place(&self, key: (u64, u8)) -> Option<Place>
        ensures { result ≡ find pair_cmp key (tables_now self.now).chunks.places }
    {
        raw::get::<D, PlaceTable>(&self.log, key)
    }

    /// The place with the least key above `after`, or with the least of all.
    pub fn next_place(&self, after: Option<(u64, u8)>) -> Option<((u64, u8), Place)>
        ensures { result ≡ next_after pair_cmp after (tables_now self.now).chunks.places }
    {
        match after {
            Some(key) => raw::next::<D, PlaceTable>(&self.log, key),
            None => raw::first::<D, PlaceTable>(&self.log),
        }
    }

    /// Sets the place of a copy: `key` is the row's id and the copy's number. Room for 27 bytes of records was ensured.
    pub fn set_place(&mut self, key: (u64, u8), place: Place) -> Result<(), Fault>
        requires { staged_of self.old + 27 ≤ MOST_RECORDS }
        ensures { IsSetIn (with_place key place) (find pair_cmp key (tables_now self.old).chunks.places) 27
            self.old self.new result }
    {
        raw::put::<D, PlaceTable>(&mut self.log, key, place)
    }

    /// Drops the places from a key on, all of them or those below another. Room for 25 bytes of
    /// records was ensured.
    pub fn drop_place(&mut self, from: (u64, u8), to: Option<(u64, u8)>)
        requires { staged_of self.old + 25 ≤ MOST_RECORDS }
        ensures { IsDroppedIn (keep_places (λ key. not (is_in_range pair_cmp from to key)))
            (5 + 10 + end_bytes (λ key. 10) to) (states_of self.old) self.old self.new }
    {
        raw::drop_range::<D, PlaceTable>(&mut self.log, from, to);
    }
}
