// Calls on the tables of a disk in memory, each from a mount to when the disk is handed back. They say nothing more, so
// that no caller reads the contracts of the tables.
ghost use Rattle.std.specs.Prelude.{◌≡◌, false};
ghost use Rattle.volume_inside.specs.Rules.{RulesHold};
ghost use Rattle.volume_tables.specs.Tables.{tables_now, stopped, HasMaps};

use crate::memory::{disk_of, disk_of_zeros};
use plain_volume::Fault;
use row_files::RowFault;
use std::alloc::Global;
use vdisk::{Disk, MemoryDisk};
use volume_inside::settings_hold;
use volume_tables::laws::{
    results_of_known_numbers_keep_the_rules, settings_in_their_ranges_keep_the_rules,
};
use volume_tables::{JobKind, ResultRecord, Settings, Tables};

/// A job of this kind ended well at this second.
#[derive(Clone, Copy)]
pub struct End {
    pub kind: JobKind,
    pub second: u64,
}

/// The disk of a fresh volume of 4,096 clusters.
pub fn fresh(alloc: Global) -> Result<MemoryDisk, RowFault> {
    match Tables::format(alloc, disk_of_zeros(alloc, 0)?, 4096) {
        Ok(tables) => Ok(tables.into_disk()),
        Err((_disk, _fault)) => Err(RowFault::NotMade),
    }
}

fn set_end<D: Disk>(tables: &mut Tables<D>, end: End)
    requires rules { RulesHold tables.old.clusters (tables_now tables.old) }
    requires maps { HasMaps tables.old }
    ensures rules { RulesHold tables.new.clusters (tables_now tables.new) }
    ensures maps { HasMaps tables.new }
    ensures running { stopped tables.new ≡ stopped tables.old }
{
    results_of_known_numbers_keep_the_rules();
    let record = ResultRecord {
        second: end.second,
        result: 1,
    };
    tables.set_result(end.kind, record);
}

fn set_ends<D: Disk>(tables: &mut Tables<D>, ends: &[End])
    requires rules { RulesHold tables.old.clusters (tables_now tables.old) }
    requires maps { HasMaps tables.old }
    ensures rules { RulesHold tables.new.clusters (tables_now tables.new) }
    ensures maps { HasMaps tables.new }
    ensures running { stopped tables.new ≡ stopped tables.old }
{
    for end in ends {
        set_end(tables, *end);
    }
}

fn commit_ends<D: Disk>(tables: &mut Tables<D>, ends: &[End]) -> Result<(), Fault>
    requires rules { RulesHold tables.old.clusters (tables_now tables.old) }
    requires maps { HasMaps tables.old }
    requires running { stopped tables.old ≡ false }
{
    set_ends(tables, ends);
    tables.commit()
}

/// Sets how jobs ended, makes that durable, and says whether all was done.
pub fn end_jobs(alloc: Global, disk: MemoryDisk, ends: &[End]) -> (MemoryDisk, bool) {
    match Tables::mount(alloc, disk) {
        Ok(mut tables) => {
            let done = commit_ends(&mut tables, ends).is_ok();
            (tables.into_disk(), done)
        }
        Err((disk, _fault)) => (disk, false),
    }
}

/// When the last jobs ended, in the order of the kinds.
fn seconds<D: Disk>(tables: &Tables<D>) -> [u64; 4] {
    [
        tables.get_result(JobKind::Optimization).second,
        tables.get_result(JobKind::GarbageCollection).second,
        tables.get_result(JobKind::Scrubbing).second,
        tables.get_result(JobKind::Unoptimization).second,
    ]
}

/// When the last jobs ended once these ends are set, and not committed; None where the image is refused.
pub fn seconds_with(alloc: Global, image: Vec<u8>, ends: &[End]) -> Option<[u64; 4]> {
    match Tables::mount(alloc, disk_of(alloc, image)) {
        Ok(mut tables) => {
            set_ends(&mut tables, ends);
            Some(seconds(&tables))
        }
        Err((_disk, _fault)) => None,
    }
}

/// Sets settings and makes them durable, where they meet their rule.
fn commit_settings<D: Disk>(
    tables: &mut Tables<D>,
    alloc: Global,
    settings: Settings,
) -> Result<(), Fault>
    requires rules { RulesHold tables.old.clusters (tables_now tables.old) }
    requires maps { HasMaps tables.old }
    requires running { stopped tables.old ≡ false }
{
    if !settings_hold(&settings) {
        return Err(Fault::BadName);
    }
    settings_in_their_ranges_keep_the_rules();
    let bytes = 18 + (settings.folders.byte_count() + settings.types.byte_count());
    tables.ensure_room(6 + bytes, 0)?;
    tables.set_settings(alloc, settings)?;
    tables.commit()
}

/// Sets settings, makes them durable, and says whether all was done.
pub fn set_settings(alloc: Global, disk: MemoryDisk, settings: Settings) -> (MemoryDisk, bool) {
    match Tables::mount(alloc, disk) {
        Ok(mut tables) => {
            let done = commit_settings(&mut tables, alloc, settings).is_ok();
            (tables.into_disk(), done)
        }
        Err((disk, _fault)) => (disk, false),
    }
}

/// The bytes of the settings that an image holds; None where it is refused.
pub fn settings_in(alloc: Global, image: Vec<u8>) -> Result<Option<Vec<u8>>, RowFault> {
    match Tables::mount(alloc, disk_of(alloc, image)) {
        Ok(tables) => match tables.settings().to_value(alloc) {
            Ok(value) => Ok(Some(value)),
            Err(_) => Err(RowFault::Memory),
        },
        Err((_disk, _fault)) => Ok(None),
    }
}
