//! The tables become durable.

ghost use Rattle.std.specs.Prelude.{◌≡◌, false};
ghost use Rattle.volume_inside.specs.Rules.{RulesHold};

use crate::fault;
use crate::results::stage_ends;
use crate::tables::Tables;
use plain_volume::Fault;
use vdisk::Disk;

impl<D: Disk> Tables<D> {
    ghost use Rattle.volume_tables.specs.Tables.{tables_now, stopped, HasMaps};
    ghost use Rattle.volume_tables.specs.Commits.{IsCommitted};

    /// Makes the tables durable, which meet the rules as the maps of their bases do, with the results of jobs. A crash at any moment shows what was
    /// kept, or the tables now; after Ok the tables now are kept, and clusters that were deferred are free. After
    /// `Worn` what is stored is as it was, the tables now are too, and each later commit is refused so; after `Failed`
    /// the tables are stopped. Where nothing is due the disk is not called. What waits is told exactly after Ok and
    /// after `Worn`: the epoch rises by one just where what is due does not fit behind the last group.
    pub fn commit(&mut self) -> Result<(), Fault>
        requires running { stopped self.old ≡ false }
        requires rules { RulesHold self.old.clusters (tables_now self.old) }
        requires maps { HasMaps self.old }
        ensures { IsCommitted self.old self.new result }
    {
        if self.worn {
            return Err(Fault::Worn);
        }
        stage_ends(&mut self.log, &mut self.ends);
        match fault::of_log(self.log.commit()) {
            Ok(()) => {
                self.space.release_all();
                Ok(())
            }
            Err(fault) => {
                self.worn = fault::is_worn(&fault);
                Err(fault)
            }
        }
    }
}
