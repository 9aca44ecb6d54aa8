//! The settings.

ghost use Rattle.std.specs.Prelude.{◌≡◌, ◌≤◌, ◌+◌, Some};
ghost use Rattle.std.specs.FinMap.Entries.{find};
ghost use Rattle.table_records.specs.Keys.{single_cmp};
ghost use Rattle.table_records.specs.Settings.{settings_bytes, AreSpellable};
ghost use Rattle.volume_tables.specs.Sizes.{settings_size, settings_size_of};

use crate::raw_settings;
use crate::room::MOST_RECORDS;
use crate::tables::Tables;
use plain_volume::Fault;
use std::alloc::Global;
use table_records::Settings;
use vdisk::Disk;

impl<D: Disk> Tables<D> {
    ghost use Rattle.volume_tables.specs.Setters.{AreSettingsSet};
    ghost use Rattle.volume_tables.specs.Tables.{tables_now, staged_of};

    /// The settings.
    pub fn settings(&self) -> &Settings
        ensures { find single_cmp tt (tables_now self.now).settings ≡ Some result.now }
    {
        &self.settings
    }

    /// Sets the settings. Room for six bytes of records and those of the settings was ensured. `TableFull` is found
    /// before memory is taken.
    pub fn set_settings(&mut self, alloc: Global, settings: Settings) -> Result<(), Fault>
        requires { staged_of self.old + (6 + settings_size settings) ≤ MOST_RECORDS }
        ensures { AreSettingsSet settings self.old self.new result }
    {
        let size = raw_settings::size_of(&settings) as u64;
        let was = self.settings_bytes() as u64;
        if self.checkpoint_bytes() > self.half_bytes() + was - size {
            return Err(Fault::TableFull);
        }
        let Ok(bytes) = settings.to_value(alloc) else {
            return Err(Fault::Memory);
        };
        self.put_settings(settings, &bytes)
    }

    /// How many bytes the value of the settings has.
    fn settings_bytes(&self) -> usize
        ensures size { result ≡ settings_size_of (tables_now self.now) }
        ensures most { result ≤ 16402 }
    {
        raw_settings::size_of(&self.settings)
    }

    /// Sets the settings, which these bytes spell.
    fn put_settings(&mut self, settings: Settings, bytes: &[u8]) -> Result<(), Fault>
        requires spellable { AreSpellable settings }
        requires spelled { bytes.now ≡ settings_bytes settings }
        requires room { staged_of self.old + (6 + settings_size settings) ≤ MOST_RECORDS }
        ensures { AreSettingsSet settings self.old self.new result }
    {
        raw_settings::put_settings(&mut self.log, &settings, bytes)?;
        self.settings = settings;
        Ok(())
    }
}
