//! The rules on one record at a time.
ghost use Rattle.std.specs.Prelude.{◌≡◌, ◌↔◌, ℕ, List, IsTrue};
ghost use Rattle.std.specs.Ordering.{nat_cmp};
ghost use Rattle.std.specs.FinMap.{find};
ghost use Rattle.table_records.specs.declared.records.FileRecord.{FileRecord};
ghost use Rattle.volume_inside.specs.ChunkRules.{CoverHolds};
ghost use Rattle.volume_inside.specs.Rules.{IsVolumeRecord, AreSettings, are_lawful_texts, IsResultRecord, FileHolds, ExtentHolds};

use crate::layout::{CLUSTER_BYTES, is_data_cluster};
use groundwork::LAST_ID;
use plain_volume::limits::MOST_BYTES_OF_A_FILE;
use plain_volume::text_is_lawful;
use table_records::{Extent, FileRecord, ResultRecord, Settings, Texts, VolumeRecord};

/// The least size, in bytes, that settings may ask of a file: that of a fresh volume.
pub const LEAST_MINIMUM_SIZE: u32 = 32_768;

/// The most days of age that settings may ask of a file.
pub const MOST_AGE_DAYS: u32 = 36_500;

/// The least threshold that settings may have.
pub const LEAST_THRESHOLD: u32 = 2;

/// Whether the record of the volume has a version that is known, and a next id that may be drawn.
pub fn volume_record_holds(volume: VolumeRecord) -> bool
    ensures { IsTrue result ↔ IsVolumeRecord volume }
{
    volume.version == 1 && volume.next_id >= 1 && volume.next_id <= LAST_ID
}

/// Whether settings are in their ranges, and their texts lawful.
pub fn settings_hold(settings: &Settings) -> bool
    ensures { IsTrue result ↔ AreSettings settings.now }
{
    let size = settings.minimum_size >= LEAST_MINIMUM_SIZE
        && settings.minimum_size as u64 <= MOST_BYTES_OF_A_FILE;
    let in_range = size
        && settings.age_days <= MOST_AGE_DAYS
        && settings.threshold >= LEAST_THRESHOLD;
    in_range && texts_hold(&settings.folders) && texts_hold(&settings.types)
}

/// Whether each text has at least one byte, and only bytes that a name may have.
#[tactic(auto, using(std::proofs::lemmas::List::Folds::list_all_more, std::proofs::lemmas::List::Folds::list_all_at))]
fn texts_hold(texts: &Texts) -> bool
    ensures { result ≡ are_lawful_texts texts.now }
{
    for place in 0..texts.count() {
        if !text_is_lawful(texts.at(place)) {
            return false;
        }
    }
    true
}

/// Whether the number of a result is known.
pub fn result_holds(end: ResultRecord) -> bool
    ensures { IsTrue result ↔ IsResultRecord end }
{
    end.result <= 6
}

/// Whether a file has a map just where bytes of it are covered, and none is covered behind its end.
fn cover_holds(file: FileRecord) -> bool
    ensures { IsTrue result ↔ CoverHolds file }
{
    if file.covers == 0 {
        return file.map_row == 0;
    }
    file.map_row != 0 && file.covers <= file.length
}

/// Whether a file meets the rules of files, where `next_id` is drawn next.
pub fn file_holds(next_id: u64, id: u64, file: FileRecord) -> bool
    ensures { IsTrue result ↔ FileHolds next_id id file }
{
    let drawn = id >= 1 && id < next_id;
    drawn && file.length <= MOST_BYTES_OF_A_FILE && cover_holds(file)
}

/// Whether an extent meets the rules of extents, in an image of so many clusters and among files that have this record
/// of its own, if it is there.
pub fn extent_holds(
    clusters: u32,
    file: Option<FileRecord>,
    key: (u64, u32),
    extent: Extent,
) -> bool
    ensures { (files : List (ℕ × FileRecord)) → find nat_cmp key.0 files ≡ file
        → (IsTrue result ↔ ExtentHolds clusters files key extent) }
{
    match file {
        Some(file) => {
            let end = CLUSTER_BYTES as u64 * key.1 as u64 + extent.valid as u64;
            let whole = extent.valid >= 1 && extent.valid as u32 <= CLUSTER_BYTES;
            whole && end <= file.length && is_data_cluster(clusters, extent.cluster)
        }
        None => false,
    }
}
