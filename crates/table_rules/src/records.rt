//! The records that each volume has.

ghost use Rattle.std.specs.Prelude.{◌≡◌, IfOk, IfSome, IfNone, IsSomeAnd};
ghost use Rattle.std.specs.FinMap.{find};
ghost use Rattle.table_records.specs.Codecs.{typed};
ghost use Rattle.table_records.specs.Keys.{single_cmp, kind_cmp};
ghost use Rattle.table_records.specs.Tables.{volume_codec};
ghost use Rattle.table_records.specs.WellFormed.{AllWellFormed};
ghost use Rattle.volume_inside.specs.Typed.{typed_of};
ghost use Rattle.volume_inside.specs.Rules.{IsVolumeRecord, AreSettings, IsResultRecord, RecordsHold};
ghost use Rattle.table_rules.specs.Found.{volume_record, AreRecordsOf, result_of, with_result_of};
ghost use Rattle.table_records.specs.declared.jobs.JobKind.{JobKind};

use crate::lookup::get;
use byte_map::ByteMap;
use std::alloc::Global;
use table_records::{
    JobKind, Memory, ResultRecord, ResultTable, SETTINGS_KEY, Settings, VolumeTable,
};
use volume_inside::{result_holds, settings_hold, volume_record_holds};

/// How the last job of each kind ended.
#[derive(Clone, Copy, Debug, PartialEq, Eq)]
pub struct LastResults {
    pub optimization: ResultRecord,
    pub garbage_collection: ResultRecord,
    pub scrubbing: ResultRecord,
    pub unoptimization: ResultRecord,
}

impl LastResults {
    pub fn of(&self, kind: JobKind) -> ResultRecord
        ensures { result ≡ result_of kind self.now }
    {
        match kind {
            JobKind::Optimization => self.optimization,
            JobKind::GarbageCollection => self.garbage_collection,
            JobKind::Scrubbing => self.scrubbing,
            JobKind::Unoptimization => self.unoptimization,
        }
    }

    pub fn set(&mut self, kind: JobKind, end: ResultRecord)
        ensures { self.new ≡ with_result_of kind end self.old }
    {
        match kind {
            JobKind::Optimization => self.optimization = end,
            JobKind::GarbageCollection => self.garbage_collection = end,
            JobKind::Scrubbing => self.scrubbing = end,
            JobKind::Unoptimization => self.unoptimization = end,
        }
    }
}

/// The records that each volume has.
#[derive(Drop)]
pub struct Records {
    /// The id that is drawn next.
    pub next_id: u64,
    pub settings: Settings,
    pub results: LastResults,
}

/// The id that is drawn next, or `None` where the volume's record is not there or not lawful.
fn find_next_id(map: &ByteMap) -> Option<u64>
    ensures some { IfSome result (λ next_id. find single_cmp tt (typed_of map.now).volume
        ≡ Some (volume_record next_id)) }
    ensures lawful { IfSome result (λ next_id. IsVolumeRecord (volume_record next_id)) }
    ensures none { IfNone result (IsSomeAnd (find single_cmp tt (typed_of map.now).volume) IsVolumeRecord → ⊥) }
{
    let volume = get::<VolumeTable>(map, ())?;
    if volume_record_holds(volume) {
        Some(volume.next_id)
    } else {
        None
    }
}

/// The settings, or `None` where they are not there.
fn stored_settings(alloc: Global, map: &ByteMap) -> Result<Option<Settings>, Memory>
    requires { AllWellFormed map.now }
    ensures { IfOk result (λ found. found ≡ find single_cmp tt (typed_of map.now).settings) }
{
    match map.get(&SETTINGS_KEY) {
        Some(value) => Settings::read_value(alloc, value),
        None => Ok(None),
    }
}

/// The settings that were found, where they are in their ranges.
fn lawful_settings(found: Option<Settings>) -> Option<Settings>
    ensures some { IfSome result (λ settings. found ≡ Some settings) }
    ensures lawful { IfSome result AreSettings }
    ensures none { IfNone result (IsSomeAnd found AreSettings → ⊥) }
{
    let settings = found?;
    if settings_hold(&settings) {
        Some(settings)
    } else {
        None
    }
}

/// The result of a kind of job, or `None` where it is not there or its number is not known.
fn find_result(map: &ByteMap, kind: JobKind) -> Option<ResultRecord>
    ensures some { IfSome result (λ last. find kind_cmp kind (typed_of map.now).results ≡ Some last) }
    ensures lawful { IfSome result (λ last. IsResultRecord last) }
    ensures none { IfNone result (IsSomeAnd (find kind_cmp kind (typed_of map.now).results) IsResultRecord → ⊥) }
{
    let last = get::<ResultTable>(map, kind)?;
    if result_holds(last) { Some(last) } else { None }
}

/// The results of all kinds, or `None` where one is not there or its number is not known.
fn find_results(map: &ByteMap) -> Option<LastResults>
    ensures some { IfSome result (λ last. (kind : JobKind) → find kind_cmp kind (typed_of map.now).results
        ≡ Some (result_of kind last)) }
    ensures lawful { IfSome result (λ last. (kind : JobKind) → IsResultRecord (result_of kind last)) }
    ensures none { IfNone result (((kind : JobKind)
        → IsSomeAnd (find kind_cmp kind (typed_of map.now).results) IsResultRecord) → ⊥) }
{
    let optimization = find_result(map, JobKind::Optimization)?;
    let garbage_collection = find_result(map, JobKind::GarbageCollection)?;
    let scrubbing = find_result(map, JobKind::Scrubbing)?;
    let unoptimization = find_result(map, JobKind::Unoptimization)?;
    Some(LastResults {
        optimization,
        garbage_collection,
        scrubbing,
        unoptimization,
    })
}

/// The records that each volume has, or `None` where one is not there or not lawful.
pub(crate) fn find_records(alloc: Global, map: &ByteMap) -> Result<Option<Records>, Memory>
    requires { AllWellFormed map.now }
    ensures some { IfOk result (λ found. IfSome found (AreRecordsOf (typed_of map.now))) }
    ensures hold { let t = typed_of map.now in
        IfOk result (λ found. IfSome found (λ records. RecordsHold t.volume t.settings t.results)) }
    ensures none { let t = typed_of map.now in
        IfOk result (λ found. IfNone found (RecordsHold t.volume t.settings t.results → ⊥)) }
{
    let Some(next_id) = find_next_id(map) else {
        return Ok(None);
    };
    let Some(results) = find_results(map) else {
        return Ok(None);
    };
    let Some(settings) = lawful_settings(stored_settings(alloc, map)?) else {
        return Ok(None);
    };
    Ok(Some(Records {
        next_id,
        settings,
        results,
    }))
}
