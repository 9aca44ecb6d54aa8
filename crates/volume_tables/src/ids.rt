//! Ids, which are drawn.

ghost use Rattle.std.specs.Prelude.{◌≡◌, ◌↔◌, ◌≤◌, ◌+◌, ◌-◌, ◌^◌, OnOk, OnErr, IfOk, IsErrOf};
ghost use Rattle.volume_inside.specs.Rules.{next_id_of};
ghost use Rattle.volume_inside.specs.Changes.{with_volume};

use crate::raw;
use crate::room::MOST_RECORDS;
use crate::tables::Tables;
use groundwork::LAST_ID;
use plain_volume::Fault;
use table_records::{VolumeRecord, VolumeTable};
use vdisk::Disk;

/// The version of the formats.
pub(crate) const VERSION: u32 = 1;

impl<D: Disk> Tables<D> {
    ghost use Rattle.volume_tables.specs.Tables.{tables_now, states_of, staged_of, checkpoint_of, disk_of, stopped, Leaves};

    /// The id that is drawn next.
    pub fn stored_next_id(&self) -> u64
        ensures { result ≡ next_id_of (tables_now self.now) }
    {
        self.next_id
    }

    /// Answers the next id, and raises it by one. The fault is `Worn`, exactly where the next id is the last one, and
    /// then nothing has changed. Room for 18 bytes of records was ensured. It takes no memory.
    pub fn next_id(&mut self) -> Result<u64, Fault>
        requires { staged_of self.old + 18 ≤ MOST_RECORDS }
        ensures id { IfOk result (λ id. id ≡ next_id_of (tables_now self.old)) }
        ensures ok { OnOk result (tables_now self.new ≡
            with_volume (record { version = 1; next_id = next_id_of (tables_now self.old) + 1 })
            (tables_now self.old)) }
        ensures err { OnErr result (tables_now self.new ≡ tables_now self.old) }
        ensures worn { IsErrOf result Fault.Worn ↔ next_id_of (tables_now self.old) ≡ LAST_ID }
        ensures refused { OnErr result (IsErrOf result Fault.Worn) }
        ensures staged { OnOk result (staged_of self.new ≡ staged_of self.old + 18) }
        ensures none_staged { OnErr result (staged_of self.new ≡ staged_of self.old) }
        ensures checkpoint { checkpoint_of self.new ≡ checkpoint_of self.old }
        ensures leaves { Leaves self.old self.new }
        ensures states { states_of self.new ≡ states_of self.old }
        ensures image { (disk_of self.new).image ≡ (disk_of self.old).image }
        ensures running { stopped self.new ≡ stopped self.old }
    {
        let id = self.next_id;
        if id == LAST_ID {
            return Err(Fault::Worn);
        }
        self.put_next_id(id + 1);
        Ok(id)
    }

    /// Puts the volume's record in its place.
    fn put_next_id(&mut self, next_id: u64)
        requires room { staged_of self.old + 18 ≤ MOST_RECORDS }
        requires last { next_id ≤ LAST_ID }
        ensures now { tables_now self.new ≡
            with_volume (record { version = 1; next_id = next_id }) (tables_now self.old) }
        ensures staged { staged_of self.new ≡ staged_of self.old + 18 }
        ensures checkpoint { checkpoint_of self.new ≡ checkpoint_of self.old }
        ensures leaves { Leaves self.old self.new }
        ensures states { states_of self.new ≡ states_of self.old }
        ensures image { (disk_of self.new).image ≡ (disk_of self.old).image }
        ensures running { stopped self.new ≡ stopped self.old }
    {
        let volume = VolumeRecord {
            version: VERSION,
            next_id,
        };
        raw::put::<D, VolumeTable>(&mut self.log, (), volume).unwrap();
        self.next_id = next_id;
    }
}
