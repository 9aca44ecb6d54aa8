//! Room for records and clusters is ensured, and ids are drawn.

ghost use Rattle.std.specs.Prelude.{◌≡◌, ◌≤◌, false, ◌↔◌, IsTrue};
ghost use Rattle.volume_inside.specs.Rules.{RulesHold};

use crate::tables::Tables;
use plain_volume::Fault;
use vdisk::Disk;

/// The most bytes of records that calls may stage: behind them the records of four results find room.
pub const MOST_RECORDS: usize = 65_472;

impl<D: Disk> Tables<D> {
    ghost use Rattle.volume_tables.specs.Tables.{tables_now, stopped, HasMaps, IsRoomFor};
    ghost use Rattle.volume_tables.specs.Rooms.{IsRoomEnsured};

    /// Whether records of so many bytes and so many clusters find room without a commit.
    fn has_room(&self, records: usize, clusters: u32) -> bool
        requires { records ≤ MOST_RECORDS }
        ensures { IsTrue result ↔ IsRoomFor self.now records clusters }
    {
        self.log.staged_bytes() <= MOST_RECORDS - records && clusters <= self.space.free_count()
    }

    /// Ensures that records of so many bytes can be staged and so many clusters be taken. Where they cannot at once,
    /// the tables, which meet the rules, are committed first.
    ///
    /// The fault is `Full`, before any commit and with the tables untouched, exactly where more clusters are asked for
    /// than are free and deferred; others are those of the commit. `Failed` alone stops the tables, and what is stored
    /// then is not known.
    pub fn ensure_room(&mut self, records: usize, clusters: u32) -> Result<(), Fault>
        requires running { stopped self.old ≡ false }
        requires records { records ≤ MOST_RECORDS }
        requires rules { RulesHold self.old.clusters (tables_now self.old) }
        requires maps { HasMaps self.old }
        ensures { IsRoomEnsured records clusters self.old self.new result }
    {
        let free = self.space.free_count() as u64 + self.space.deferred_count() as u64;
        if (clusters as u64) > free {
            return Err(Fault::Full(clusters as u64, free));
        }
        if self.has_room(records, clusters) {
            return Ok(());
        }
        self.commit()
    }
}
