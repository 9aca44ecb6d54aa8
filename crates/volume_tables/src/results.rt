//! How the last jobs ended: read, set, and staged for a commit.

ghost use Rattle.std.specs.Prelude.{◌≡◌, ◌≤◌, ◌+◌, ◌*◌, true, Some, IsSome};
ghost use Rattle.std.specs.FinMap.Entries.{find, is_sorted};
ghost use Rattle.byte_map.specs.Words.{bytes_cmp};
ghost use Rattle.meta_log.specs.Log.{checkpoint_length};
ghost use Rattle.table_records.specs.Codecs.{typed};
ghost use Rattle.table_records.specs.Keys.{kind_cmp};
ghost use Rattle.table_records.specs.Tables.{result_codec};
ghost use Rattle.table_rules.specs.Found.{result_of};
ghost use Rattle.volume_inside.specs.Changes.{with_result};
ghost use Rattle.volume_inside.specs.Typed.{typed_of};
ghost use Rattle.meta_log.specs.declared.limits.TheConstants.{MOST_STAGED};
ghost use Rattle.volume_tables.specs.Contents.{HasEnds};
ghost use Rattle.volume_tables.specs.Ends.{with_staged, all_staged, unstaged, unstaged_in};
ghost use Rattle.volume_tables.specs.Log.{log_now, log_staged};
ghost use Rattle.volume_tables.specs.Spelled.{are_well_formed};
ghost use Rattle.volume_tables.specs.Staging.{IsQuiet};
ghost use Rattle.volume_tables.specs.Tables.{with_ends};

use crate::ends::JobEnds;
use crate::raw;
use crate::room::MOST_RECORDS;
use crate::tables::Tables;
use meta_log::MetaLog;
use table_records::{JobKind, ResultRecord, ResultTable};
use vdisk::Disk;

/// Puts the record of a kind of job in its place.
fn put_end<D: Disk>(log: &mut MetaLog<D>, kind: JobKind, end: ResultRecord)
    requires sorted { is_sorted bytes_cmp (log_now log.old) ≡ true }
    requires spelled { are_well_formed (log_now log.old) ≡ true }
    requires there { IsSome (find kind_cmp kind (typed result_codec (log_now log.old))) }
    requires room { log_staged log.old + 16 ≤ MOST_STAGED }
    ensures sorted { is_sorted bytes_cmp (log_now log.new) ≡ true }
    ensures spelled { are_well_formed (log_now log.new) ≡ true }
    ensures tables { typed_of (log_now log.new) ≡ with_result kind end (typed_of (log_now log.old)) }
    ensures staged { log_staged log.new ≡ log_staged log.old + 16 }
    ensures checkpoint { checkpoint_length (log_now log.new) ≡ checkpoint_length (log_now log.old) }
    ensures quiet { IsQuiet log.old log.new }
{
    raw::put::<D, ResultTable>(log, kind, end).unwrap();
}

/// Stages how the last job of a kind ended, where that is not staged.
fn stage_end<D: Disk>(log: &mut MetaLog<D>, ends: &mut JobEnds, kind: JobKind)
    requires there { HasEnds (log_now log.old) ends.old }
    requires room { log_staged log.old + 16 ≤ MOST_STAGED }
    ensures there { HasEnds (log_now log.new) (with_staged kind ends.old) }
    ensures ends { ends.new ≡ with_staged kind ends.old }
    ensures tables { typed_of (log_now log.new)
        ≡ with_result kind (result_of kind ends.old.last) (typed_of (log_now log.old)) }
    ensures staged { log_staged log.new ≡ log_staged log.old + 16 * unstaged kind ends.old }
    ensures checkpoint { checkpoint_length (log_now log.new) ≡ checkpoint_length (log_now log.old) }
    ensures quiet { IsQuiet log.old log.new }
{
    let last = ends.last.of(kind);
    if last == ends.staged.of(kind) {
        return;
    }
    put_end(log, kind, last);
    ends.staged.set(kind, last);
}

/// Stages how the last jobs ended, those that are not staged.
pub(crate) fn stage_ends<D: Disk>(log: &mut MetaLog<D>, ends: &mut JobEnds)
    requires there { HasEnds (log_now log.old) ends.old }
    requires room { log_staged log.old ≤ MOST_RECORDS }
    ensures there { HasEnds (log_now log.new) (all_staged ends.old) }
    ensures ends { ends.new ≡ all_staged ends.old }
    ensures tables { typed_of (log_now log.new) ≡ with_ends ends.old (typed_of (log_now log.old)) }
    ensures staged { log_staged log.new ≡ log_staged log.old + 16 * unstaged_in ends.old }
    ensures checkpoint { checkpoint_length (log_now log.new) ≡ checkpoint_length (log_now log.old) }
    ensures quiet { IsQuiet log.old log.new }
{
    stage_end(log, ends, JobKind::Optimization);
    stage_end(log, ends, JobKind::GarbageCollection);
    stage_end(log, ends, JobKind::Scrubbing);
    stage_end(log, ends, JobKind::Unoptimization);
}

impl<D: Disk> Tables<D> {
    ghost use Rattle.volume_tables.specs.Results.{IsResultSet};
    ghost use Rattle.volume_tables.specs.Tables.{tables_now};

    /// The record of the last job of a kind.
    pub fn get_result(&self, kind: JobKind) -> ResultRecord
        ensures { find kind_cmp kind (tables_now self.now).results ≡ Some result }
    {
        self.ends.last.of(kind)
    }

    /// Sets how the last job of a kind ended. The next commit makes it durable; until then it is lost with these
    /// tables. It takes no memory, and no room for records.
    pub fn set_result(&mut self, kind: JobKind, end: ResultRecord)
        ensures { IsResultSet kind end self.old self.new }
    {
        self.ends.last.set(kind, end);
    }
}
