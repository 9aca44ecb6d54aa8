//! Laws of the tables, each the contract of an empty function.

ghost use Rattle.std.specs.Prelude.{◌≡◌, ◌≤◌, ℕ, List, IsTrue, T, length};
ghost use Rattle.std.specs.Ordering.{nat_cmp};
ghost use Rattle.std.specs.FinMap.Entries.{is_sorted};
ghost use Rattle.byte_map.specs.Words.{bytes_cmp};
ghost use Rattle.table_records.specs.Keys.{pair_cmp};
ghost use Rattle.table_records.specs.declared.jobs.JobKind.{JobKind};
ghost use Rattle.table_records.specs.declared.records.ResultRecord.{ResultRecord};
ghost use Rattle.table_records.specs.declared.settings.Settings.{Settings};
ghost use Rattle.volume_inside.specs.Changes.{with_result, with_settings};
ghost use Rattle.volume_inside.specs.Rules.{RulesHold, AreSettings};
ghost use Rattle.volume_inside.specs.Typed.{Typed};
ghost use Rattle.volume_tables.specs.Sizes.{tables_bytes};
ghost use Rattle.meta_log.specs.Meta.{last_epoch};
ghost use Rattle.volume_tables.specs.Log.{log_epoch};
ghost use Rattle.volume_tables.specs.Mounted.{AreTablesOf};
ghost use Rattle.volume_tables.specs.Tables.{tables_now, checkpoint_of, disk_of, would_wear, IsTables, IsToldBy};

use crate::tables::Tables;
use vdisk::Disk;

/// The keys of each table rise in the tables now.
pub fn tables_are_in_order<D: Disk>(tables: &Tables<D>)
    ensures names { T (is_sorted bytes_cmp (tables_now tables.now).names) }
    ensures files { T (is_sorted nat_cmp (tables_now tables.now).files) }
    ensures extents { T (is_sorted pair_cmp (tables_now tables.now).extents) }
    ensures rows { T (is_sorted nat_cmp (tables_now tables.now).chunks.rows) }
    ensures places { T (is_sorted pair_cmp (tables_now tables.now).chunks.places) }
    ensures containers { T (is_sorted nat_cmp (tables_now tables.now).chunks.containers) }
    ensures pages { T (is_sorted pair_cmp (tables_now tables.now).chunks.clusters) }
{
    let _clusters = tables.clusters;
}

/// What a checkpoint of the tables now is as long as: each entry tells the bytes of its record. The records that are
/// always there are one of the volume, one of the settings and one of each kind of job.
pub fn tables_tell_their_checkpoint<D: Disk>(tables: &Tables<D>)
    ensures length { checkpoint_of tables.now ≡ tables_bytes (tables_now tables.now) }
    ensures volume { length (tables_now tables.now).volume ≡ 1 }
    ensures settings { length (tables_now tables.now).settings ≡ 1 }
    ensures results { length (tables_now tables.now).results ≡ 4 }
{
    let _clusters = tables.clusters;
}

/// Each image that a crash may leave now tells where the journal goes on, and so does the disk as it reads: the next
/// group goes where the groups of the live half end, and the epoch is that half's.
pub fn the_journal_goes_on_where_its_groups_end<D: Disk>(tables: &Tables<D>)
    ensures crash { (stored : Typed) (c : List ℕ) → IsTables tables.now stored → (disk_of tables.now).may_leave c →
        IsToldBy tables.now c }
    ensures read { (stored : Typed) → IsTables tables.now stored → IsToldBy tables.now (disk_of tables.now).image }
{
    let _clusters = tables.clusters;
}

/// Each image that a crash may leave now has all the stored tables, and so has the disk as it reads: ids, settings and
/// results too.
pub fn crash_images_hold_the_stored_tables<D: Disk>(tables: &Tables<D>)
    ensures crash { (stored : Typed) (c : List ℕ) → IsTables tables.now stored → (disk_of tables.now).may_leave c →
        AreTablesOf tables.now.clusters c stored }
    ensures read { (stored : Typed) → IsTables tables.now stored →
        AreTablesOf tables.now.clusters (disk_of tables.now).image stored }
{
    let _clusters = tables.clusters;
}

/// A commit would be refused as worn at the last epoch alone.
pub fn tables_wear_at_the_last_epoch<D: Disk>(tables: &Tables<D>)
    ensures { IsTrue (would_wear tables.now) → log_epoch tables.now.log ≡ last_epoch }
{
    let _clusters = tables.clusters;
}

/// The end of a job with a known number keeps the rules.
pub fn results_of_known_numbers_keep_the_rules()
    ensures { (n : ℕ) (t : Typed) (kind : JobKind) (end : ResultRecord) → RulesHold n t →
        end.result ≤ 6 → RulesHold n (with_result kind end t) }
{}

/// Settings in their ranges keep the rules.
pub fn settings_in_their_ranges_keep_the_rules()
    ensures { (n : ℕ) (t : Typed) (settings : Settings) → RulesHold n t → AreSettings settings →
        RulesHold n (with_settings settings t) }
{}
