//! An image is mounted.

ghost use Rattle.std.specs.Prelude.{◌≡◌, ◌≤◌, ◌*◌, T, false, length, IsTrue, Ok, IfOk, IfErr};
ghost use Rattle.std.specs.FinMap.Entries.{is_sorted};
ghost use Rattle.byte_map.specs.Words.{bytes_cmp};
ghost use Rattle.volume_inside.specs.declared.layout.TheConstants.{CLUSTER_BYTES, LEAST_CLUSTERS, MOST_CLUSTERS};
ghost use Rattle.meta_log.specs.Log.{IsLog, now_of, staged_of, state_of};
ghost use Rattle.meta_log.specs.Opened.{IsOnlyRead, IsOpenFault};
ghost use Rattle.meta_log.specs.Ready.{GoesOnFrom};
ghost use Rattle.table_rules.specs.Found.{AreRecordsOf};
ghost use Rattle.table_rules.specs.Marks.{IsFilled};
ghost use Rattle.volume_inside.specs.InsideOf.{InsideOf};
ghost use Rattle.volume_inside.specs.Layout.{half_bytes as half_of, journal_at};
ghost use Rattle.volume_inside.specs.Named.{clusters_of};
ghost use Rattle.volume_inside.specs.Rules.{IsVolume};
ghost use Rattle.volume_inside.specs.Shows.{Kept};
ghost use Rattle.volume_inside.specs.Typed.{typed_of};
ghost use Rattle.volume_tables.specs.Mount.{read_meta, IsLogFault};
ghost use Rattle.volume_tables.specs.Mount.{IsInnerFault, IsMountFault, mount_fault_of};
ghost use Rattle.volume_tables.specs.Mounted.{IsMountedFrom, IsOpened, AreTablesOf};
ghost use Rattle.volume_tables.specs.Log.{log_now};
ghost use Rattle.volume_tables.specs.Tables.{tables_now, inside_now, view_now, area_of, disk_of, IsToldBy, IsTables, HasMaps};

use crate::ends::JobEnds;
use crate::front::read_front;
use crate::maps::with_maps;
use crate::raw_names;
use crate::tables::Tables;
use meta_log::{MetaFault, MetaLog};
use std::alloc::Global;
use table_rules::{Checked, Records, read_tables};
use vdisk::Disk;
use volume_inside::{JOURNAL_AT, MountFault, half_bytes};

/// What a refusal to open the journal is for a mount.
pub(crate) fn mount_fault(fault: MetaFault) -> MountFault
    requires { IsOpenFault fault }
    ensures { result ≡ mount_fault_of fault }
{
    match fault {
        MetaFault::Damaged(half) => MountFault::MetaDamaged(half),
        MetaFault::Failed => MountFault::Failed,
        MetaFault::Memory => MountFault::Memory,
        MetaFault::GroupFull => unreachable!(),
        MetaFault::TableFull => unreachable!(),
        MetaFault::Worn => unreachable!(),
    }
}

/// Opens the journal of an image of so many clusters.
fn open_log<D: Disk>(alloc: Global, disk: D, clusters: u32) -> Result<MetaLog<D>, (D, MountFault)>
    requires least { LEAST_CLUSTERS ≤ clusters }
    requires most { clusters ≤ MOST_CLUSTERS }
    requires size { length (D.state disk).image ≡ CLUSTER_BYTES * clusters }
    ensures opened { IsTrue (D.state disk).tells → IfOk result (λ log. IsLog log (now_of log)) }
    ensures spells { IsTrue (D.state disk).tells →
        IfOk result (λ log. read_meta clusters (D.state disk).image ≡ Ok (now_of log)) }
    ensures goes_on { IsTrue (D.state disk).tells → IfOk result
        (λ log. GoesOnFrom journal_at (half_of clusters) log.place log.epoch (D.state disk).image) }
    ensures refused { IfErr result (λ e. IsLogFault clusters (D.state disk) (D.state e.0) e.1) }
    ensures read { IfOk result (λ log. IsOnlyRead (D.state disk) (state_of log)) }
    ensures read_err { IfErr result (λ e. IsOnlyRead (D.state disk) (D.state e.0)) }
    ensures same { IfOk result (λ log. D.is_same disk log.disk) }
    ensures same_err { IfErr result (λ e. D.is_same disk e.0) }
    ensures at { IfOk result (λ log. log.at ≡ journal_at) }
    ensures half { IfOk result (λ log. log.half ≡ half_of clusters) }
    ensures staged { IfOk result (λ log. staged_of log ≡ 0) }
    ensures runs { IfOk result (λ log. log.stopped ≡ false) }
{
    match MetaLog::open(alloc, disk, JOURNAL_AT, half_bytes(clusters)) {
        Ok(log) => Ok(log),
        Err((disk, fault)) => Err((disk, mount_fault(fault))),
    }
}

/// The tables over a journal that was just opened or made, with what was found in it.
pub(crate) fn assemble<D: Disk>(log: MetaLog<D>, clusters: u32, found: Checked) -> Tables<D>
    requires least { LEAST_CLUSTERS ≤ clusters }
    requires most { clusters ≤ MOST_CLUSTERS }
    requires at { log.at ≡ journal_at }
    requires half { log.half ≡ half_of clusters }
    requires size { length (state_of log).image ≡ CLUSTER_BYTES * clusters }
    requires staged { staged_of log ≡ 0 }
    requires running { log.stopped ≡ false }
    requires volume { IsVolume clusters (log_now log) }
    requires sorted { T (is_sorted bytes_cmp (log_now log)) }
    requires records { AreRecordsOf (typed_of (log_now log)) found.records }
    requires space { IsFilled clusters (clusters_of (typed_of (log_now log))) found.space }
    ensures log { result.log ≡ log }
    ensures clusters { result.clusters ≡ clusters }
    ensures tables { tables_now result ≡ typed_of (log_now log) }
    ensures opened { IsOpened result }
{
    let Checked { records, space } = found;
    let Records {
        next_id,
        settings,
        results,
    } = records;
    let ends = JobEnds {
        last: results,
        staged: results,
    };
    let names = raw_names::count_names(&log);
    Tables {
        log,
        space,
        clusters,
        next_id,
        names,
        settings,
        ends,
        worn: false,
    }
}

/// Opens the journal of an image of so many clusters, and checks its tables, but for the maps of bases.
fn open_tables<D: Disk>(alloc: Global, disk: D, clusters: u32) -> Result<Tables<D>, (D, MountFault)>
    requires least { LEAST_CLUSTERS ≤ clusters }
    requires most { clusters ≤ MOST_CLUSTERS }
    requires size { length (D.state disk).image ≡ CLUSTER_BYTES * clusters }
    ensures spells { IsTrue (D.state disk).tells → IfOk result (IsMountedFrom clusters (D.state disk)) }
    ensures opened { IfOk result IsOpened }
    ensures clusters { IfOk result (λ tables. tables.clusters ≡ clusters) }
    ensures refused { IfErr result (λ e. IsInnerFault clusters (D.state disk) (D.state e.0) e.1) }
    ensures read { IfOk result (λ tables. IsOnlyRead (D.state disk) (disk_of tables)) }
    ensures read_err { IfErr result (λ e. IsOnlyRead (D.state disk) (D.state e.0)) }
    ensures same { IfOk result (λ tables. D.is_same disk tables.log.disk) }
    ensures same_err { IfErr result (λ e. D.is_same disk e.0) }
{
    let log = match open_log(alloc, disk, clusters) {
        Ok(log) => log,
        Err(fault) => return Err(fault),
    };
    match read_tables(alloc, clusters, log.pairs()) {
        Ok(found) => Ok(assemble(log, clusters, found)),
        Err(fault) => Err((log.into_disk(), fault)),
    }
}

impl<D: Disk> Tables<D> {
    /// Mounts the image of a disk, which is synced and read, and not written. A refusal hands the disk back, with the
    /// first reason why its image has no inside: it does not begin with a superblock, it is not as long as that says,
    /// the live half of its journal is damaged, the version of its tables is not known, or a rule is broken, of which
    /// that on the maps of bases is the last.
    pub fn mount(alloc: Global, mut disk: D) -> Result<Tables<D>, (D, MountFault)>
        ensures inside { IsTrue (D.state disk).tells →
            IfOk result (λ tables. InsideOf read_meta (D.state disk).image (Ok (inside_now tables))) }
        // The tables now are all those of the image, and the journal goes on where its groups end.
        ensures whole { IsTrue (D.state disk).tells →
            IfOk result (λ tables. AreTablesOf tables.clusters (D.state disk).image (tables_now tables)) }
        ensures goes_on { IsTrue (D.state disk).tells →
            IfOk result (λ tables. IsToldBy tables (D.state disk).image) }
        ensures tables { IsTrue (D.state disk).tells → IfOk result (λ tables. IsTables tables (tables_now tables)) }
        ensures kept { IsTrue (D.state disk).tells →
            IfOk result (λ tables. Kept (area_of tables) (disk_of tables) (view_now tables)) }
        ensures opened { IfOk result IsOpened }
        ensures maps { IfOk result HasMaps }
        ensures refused { IfErr result (λ e. IsMountFault (D.state disk) (D.state e.0) e.1) }
        ensures read { IfOk result (λ tables. IsOnlyRead (D.state disk) (disk_of tables)) }
        ensures read_err { IfErr result (λ e. IsOnlyRead (D.state disk) (D.state e.0)) }
        ensures same { IfOk result (λ tables. D.is_same disk tables.log.disk) }
        ensures same_err { IfErr result (λ e. D.is_same disk e.0) }
    {
        let clusters = match read_front(&mut disk) {
            Ok(clusters) => clusters,
            Err(fault) => return Err((disk, fault)),
        };
        match open_tables(alloc, disk, clusters) {
            Ok(tables) => with_maps(tables),
            Err(refusal) => Err(refusal),
        }
    }
}
