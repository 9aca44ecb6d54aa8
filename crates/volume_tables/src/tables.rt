//! The tables of a volume over its journal.

ghost use Rattle.std.specs.Prelude.{◌≡◌, ◌≤◌, ◌*◌, ◌-◌, ◌^◌, false, true, length};
ghost use Rattle.groundwork.specs.declared.limits.TheConstants.{LAST_ID};
ghost use Rattle.volume_inside.specs.declared.layout.TheConstants.{CLUSTER_BYTES, LEAST_CLUSTERS, MOST_CLUSTERS};
ghost use Rattle.volume_inside.specs.Layout.{half_bytes, journal_at, data_clusters};
ghost use Rattle.volume_inside.specs.Typed.{typed_of};
ghost use Rattle.meta_log.specs.Meta.{last_epoch};
ghost use Rattle.volume_tables.specs.declared.room.TheConstants.{MOST_RECORDS};
ghost use Rattle.volume_tables.specs.Log.{log_state, log_now, log_staged, log_stopped, log_epoch};
ghost use Rattle.volume_tables.specs.Contents.{HasContents};
ghost use Rattle.volume_tables.specs.Clusters.{AreHeld, held_prop};

use crate::ends::JobEnds;
use cluster_space::Space;
use meta_log::MetaLog;
use table_records::Settings;
use vdisk::Disk;

/// The tables of a volume over its journal, with the states of the data clusters.
#[derive(Drop)]
pub struct Tables<D: Disk> {
    pub(crate) log: MetaLog<D>,
    /// The states of the data clusters, from the first on.
    pub(crate) space: Space,
    /// How many clusters the image has.
    pub(crate) clusters: u32,
    pub(crate) next_id: u64,
    /// How many names there are.
    pub(crate) names: u64,
    pub(crate) settings: Settings,
    pub(crate) ends: JobEnds,
    /// Whether a commit was refused because the last epoch is used up.
    pub(crate) worn: bool,
    ghost least: { LEAST_CLUSTERS ≤ clusters },
    ghost most: { clusters ≤ MOST_CLUSTERS },
    ghost place: { log.at ≡ journal_at },
    ghost half: { log.half ≡ half_bytes clusters },
    ghost size: { length (log_state log).image ≡ CLUSTER_BYTES * clusters },
    ghost spaces: { length space ≡ data_clusters clusters },
    ghost last_id: { next_id ≤ LAST_ID },
    ghost named: { names ≡ length (typed_of (log_now log)).names },
    ghost contents: { HasContents (log_now log) next_id settings ends },
    ghost held: { AreHeld clusters space (typed_of (log_now log)) } by { held_prop _ _ (typed_of (log_now log)) },
    ghost tired: { worn ≡ true → log_epoch log ≡ last_epoch },
    // Room is left for the records of four results.
    ghost few: { log_stopped log ≡ false → worn ≡ false → log_staged log ≤ MOST_RECORDS },
}
