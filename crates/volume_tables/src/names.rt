//! Names and their files.

ghost use Rattle.std.specs.Prelude.{◌≡◌, ◌≤◌, ◌+◌, not, length, IfSome};
ghost use Rattle.std.specs.Option.{option_map};
ghost use Rattle.std.specs.FinMap.Entries.{find};
ghost use Rattle.groundwork.specs.declared.limits.TheConstants.{MOST_NAME_BYTES};
ghost use Rattle.byte_map.specs.Words.{bytes_cmp};
ghost use Rattle.table_records.specs.Changes.{is_in_range};
ghost use Rattle.volume_inside.specs.Changes.{with_name, keep_names};
ghost use Rattle.volume_tables.specs.Dropped.{end_bytes};
ghost use Rattle.volume_tables.specs.Log.{log_now};

use crate::raw_names;
use crate::room::MOST_RECORDS;
use crate::tables::Tables;
use plain_volume::Fault;
use vdisk::Disk;

impl<D: Disk> Tables<D> {
    ghost use Rattle.volume_tables.specs.Setters.{IsSetIn, IsDroppedIn};
    ghost use Rattle.volume_tables.specs.Tables.{tables_now, states_of, staged_of, next_after};

    /// The file of a name.
    pub fn get_name(&self, name: &[u8]) -> Option<u64>
        requires { length name.now ≤ MOST_NAME_BYTES }
        ensures { result ≡ find bytes_cmp name.now (tables_now self.now).names }
    {
        raw_names::get_name(&self.log, name)
    }

    /// The name above `after` that is the least in the order of their bytes, or the least of all, with its file.
    pub fn next_name<'a>(&'a self, after: Option<&[u8]>) -> Option<(&'a [u8], u64)>
        requires { IfSome after (λ name. length name.now ≤ MOST_NAME_BYTES) }
        ensures { option_map (λ p. (p.0.now, p.1)) result ≡
            next_after bytes_cmp (option_map (λ name. name.now) after.entry) (tables_now self.now).names }
    {
        match after {
            Some(name) => raw_names::next_name(&self.log, name),
            None => raw_names::first_name(&self.log),
        }
    }

    /// How many names there are.
    pub fn name_count(&self) -> u64
        ensures { result ≡ length (tables_now self.now).names }
    {
        self.names
    }

    /// How many pairs of the journal's map are no names. Setting and dropping names leaves this.
    fn other_pairs(&self) -> u64
        ensures { result + self.now.names ≡ length (log_now self.now.log) }
    {
        self.log.pairs().count() as u64 - self.names
    }

    /// Sets the file of a name, which has at most `MOST_NAME_BYTES`. Room for 14 bytes of records and those of the name was
    /// ensured.
    pub fn set_name(&mut self, name: &[u8], id: u64) -> Result<(), Fault>
        requires short { length name.now ≤ MOST_NAME_BYTES }
        requires room { staged_of self.old + (14 + length name.now) ≤ MOST_RECORDS }
        ensures { IsSetIn (with_name name.now id) (find bytes_cmp name.now (tables_now self.old).names)
            (14 + length name.now) self.old self.new result }
    {
        let others = self.other_pairs();
        let answer = raw_names::put_name(&mut self.log, name, id);
        self.names = self.log.pairs().count() as u64 - others;
        answer
    }

    /// Drops the names from one on, all of them or those below another. Each has at most `MOST_NAME_BYTES`. Room for 262
    /// bytes of records and those of the first name was ensured.
    pub fn drop_name(&mut self, from: &[u8], to: Option<&[u8]>)
        requires short { length from.now ≤ MOST_NAME_BYTES }
        requires short_end { IfSome to (λ name. length name.now ≤ MOST_NAME_BYTES) }
        requires room { staged_of self.old + (262 + length from.now) ≤ MOST_RECORDS }
        ensures { IsDroppedIn (keep_names (λ name. not (is_in_range bytes_cmp from.now (option_map
            (λ name. name.now) to.entry) name)))
            (5 + (1 + length from.now) + end_bytes (λ name. 1 + length name) (option_map (λ name. name.now) to.entry))
            (states_of self.old) self.old self.new }
    {
        let others = self.other_pairs();
        raw_names::drop_name_range(&mut self.log, from, to);
        self.names = self.log.pairs().count() as u64 - others;
    }
}
