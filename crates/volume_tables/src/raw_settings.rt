//! The record of the settings in the journal's map.

ghost use Rattle.std.specs.Prelude.{◌≡◌, ◌≤◌, ◌<◌, ◌+◌, ◌^◌};
ghost use Rattle.table_records.specs.Settings.{settings_bytes, AreSpellable};
ghost use Rattle.table_records.specs.Tables.{settings_codec};
ghost use Rattle.meta_log.specs.declared.limits.TheConstants.{MOST_STAGED};
ghost use Rattle.volume_tables.specs.Log.{log_staged};
ghost use Rattle.volume_tables.specs.Sizes.{settings_size};
ghost use Rattle.volume_tables.specs.Staging.{IsStagedPut};

use crate::fault;
use meta_log::MetaLog;
use plain_volume::Fault;
use table_records::{SETTINGS_KEY, Settings};
use vdisk::Disk;

/// How many bytes settings are spelled by.
pub(crate) fn size_of(settings: &Settings) -> usize
    ensures spellable { AreSpellable settings.now }
    ensures size { result ≡ settings_size settings.now }
    ensures most { result ≤ 16402 }
{
    let head = head_size(settings.minimum_size, settings.age_days, settings.threshold);
    head + (settings.folders.byte_count() + settings.types.byte_count())
}

/// How many bytes the two flags, these numbers and the counts of the two lists are spelled by.
fn head_size(minimum_size: u32, age_days: u32, threshold: u32) -> usize
    ensures minimum_size { minimum_size < 256 ^ 4 }
    ensures age_days { age_days < 256 ^ 4 }
    ensures threshold { threshold < 256 ^ 4 }
    ensures size { result ≡ 18 }
{
    let numbers = [minimum_size, age_days, threshold];
    4 * numbers.len() + 6
}

/// Stages settings, which these bytes spell. Room for the record was ensured.
pub(crate) fn put_settings<D: Disk>(
    log: &mut MetaLog<D>,
    settings: &Settings,
    bytes: &[u8],
) -> Result<(), Fault>
    requires spellable { AreSpellable settings.now }
    requires spelled { bytes.now ≡ settings_bytes settings.now }
    requires room { log_staged log.old + (6 + settings_size settings.now) ≤ MOST_STAGED }
    ensures { IsStagedPut settings_codec tt settings.now log.old log.new result }
{
    fault::of_log(log.stage_put(&SETTINGS_KEY, bytes))
}
