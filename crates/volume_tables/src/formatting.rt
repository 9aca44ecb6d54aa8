//! A fresh volume is made.

ghost use Rattle.std.specs.Prelude.{◌≡◌, ◌⊎◌, ◌≤◌, ◌<◌, ◌*◌, ◌+◌, ℕ, List, []};
ghost use Rattle.std.specs.Prelude.{false, length, IsTrue, Ok, IfOk, IfErr, OnOk, OnErr, IsErrOf};
ghost use Rattle.std.specs.FinMap.Entries.{put};
ghost use Rattle.byte_map.specs.Words.{bytes_cmp};
ghost use Rattle.meta_log.specs.Log.{IsLog, now_of, staged_of, state_of, checkpoint_length};
ghost use Rattle.table_records.specs.Settings.{settings_bytes};
ghost use Rattle.vdisk.specs.Causes.{HasCause, Rose};
ghost use Rattle.volume_inside.specs.Fresh.{fresh_map, fresh_settings, fresh_tables};
ghost use Rattle.volume_inside.specs.Layout.{journal_at, half_bytes as half_of};
ghost use Rattle.table_rules.specs.Found.{AreRecordsOf};
ghost use Rattle.table_rules.specs.Marks.{IsFilled};
ghost use Rattle.volume_inside.specs.Superblock.{IsSuperblock, HasSuperblock};
ghost use Rattle.vdisk.specs.Steps.{Keeps};
ghost use Rattle.volume_inside.specs.declared.layout.TheConstants.{LEAST_CLUSTERS, MOST_CLUSTERS};
ghost use Rattle.volume_tables.specs.Log.{log_epoch, log_place};
ghost use Rattle.volume_tables.specs.Formats.{SpellsFresh, IsFormatFault, with_results};
ghost use Rattle.volume_tables.specs.Formats.{IsBegun, IsMakeImage, SpellsNoFile};
ghost use Rattle.volume_tables.specs.Sizes.{tables_bytes};
ghost use Rattle.volume_tables.specs.Staging.{IsQuiet};
ghost use Rattle.volume_inside.specs.Shows.{Kept};
ghost use Rattle.meta_log.specs.declared.limits.TheConstants.{CHECKPOINT_HEAD, GROUP_HEAD, RECORD_HEAD, MOST_STAGED};
ghost use Rattle.volume_tables.specs.Mounted.{IsOpened};
ghost use Rattle.volume_tables.specs.Tables.{tables_now, area_of, disk_of, IsToldBy, IsTables, HasMaps};

use crate::mounting::{assemble, mount_fault};
use crate::tables::Tables;
use cluster_space::Space;
use meta_log::{MetaFault, MetaLog};
use std::alloc::Global;
use table_records::{Memory, ResultRecord, Settings, Texts};
use table_rules::{Checked, LastResults, Records, TableFault};
use vdisk::{Disk, Failed, write_synced};
use volume_inside::{
    CLUSTER_BYTES, JOURNAL_AT, LEAST_MINIMUM_SIZE, MountFault, data_clusters, half_bytes,
    write_superblock,
};

/// The first record of a volume: version 1, and 1 is drawn next.
const FIRST_RECORD: [u8; 12] = [0, 0, 0, 1, 0, 0, 0, 0, 0, 0, 0, 1];

/// The result of a kind of job of which none has ended.
const NO_RESULT: [u8; 9] = [0; 9];

/// The first cluster of an image of so many clusters.
fn superblock_cluster(alloc: Global, clusters: u32) -> Result<Vec<u8>, Memory>
    requires least { LEAST_CLUSTERS ≤ clusters }
    requires most { clusters ≤ MOST_CLUSTERS }
    ensures size { IfOk result (λ bytes. length bytes.items ≡ CLUSTER_BYTES) }
    ensures is { IfOk result (λ bytes. IsSuperblock clusters bytes.items) }
{
    let mut bytes = Vec::new(alloc);
    bytes.extend_from_slice(&write_superblock(clusters))?;
    bytes.resize(CLUSTER_BYTES as usize, 0)?;
    Ok(bytes)
}

/// Makes the disk as long as an image of so many clusters, and writes and syncs its superblock.
fn prepare<D: Disk>(disk: &mut D, clusters: u32, superblock: &[u8]) -> Result<(), Failed>
    requires fits { length (D.state disk.old).image ≤ CLUSTER_BYTES * clusters }
    requires some { 1 ≤ clusters }
    requires cluster { length superblock.now ≡ CLUSTER_BYTES }
    requires is { IsSuperblock clusters superblock.now }
    ensures written { IsTrue (D.state disk.old).tells → OnOk result (HasSuperblock clusters (D.state disk.new).image) }
    ensures size { OnOk result (length (D.state disk.new).image ≡ CLUSTER_BYTES * clusters) }
    ensures tells { (D.state disk.new).tells ≡ (D.state disk.old).tells }
    ensures moments { Keeps (D.state disk.old) (D.state disk.new) (IsBegun clusters (D.state disk.old)) }
    ensures same { D.is_same disk.old disk.new }
    ensures cause { HasCause (D.state disk.old).faults (D.state disk.new).faults result }
{
    disk.grow(CLUSTER_BYTES as u64 * clusters as u64)?;
    write_synced(disk, 0, superblock)
}

/// The settings of a fresh volume.
fn first_settings(alloc: Global) -> Settings
    ensures { result ≡ fresh_settings }
{
    Settings {
        enabled: false,
        verify: false,
        minimum_size: LEAST_MINIMUM_SIZE,
        age_days: 3,
        threshold: 100,
        folders: Texts::new(alloc),
        types: Texts::new(alloc),
    }
}

/// Stages a pair for which there is room.
fn stage_pair<D: Disk>(log: &mut MetaLog<D>, key: &[u8], value: &[u8]) -> Result<(), MetaFault>
    requires group { staged_of log.old + (RECORD_HEAD + (length key.now + length value.now)) ≤ MOST_STAGED }
    requires half { checkpoint_length (now_of log.old) + (RECORD_HEAD + (length key.now + length value.now))
        ≤ log.old.half }
    ensures now { OnOk result (now_of log.new ≡ put bytes_cmp key.now value.now (now_of log.old)) }
    ensures staged { OnOk result (staged_of log.new ≡ staged_of log.old + (RECORD_HEAD + (length key.now + length value.now))) }
    ensures checkpoint { OnOk result (checkpoint_length (now_of log.new)
        ≤ checkpoint_length (now_of log.old) + (RECORD_HEAD + (length key.now + length value.now))) }
    ensures quiet { IsQuiet log.old log.new }
    ensures refused { OnErr result (IsErrOf result MetaFault.Memory) }
{
    log.stage_put(key, value)
}

/// Stages the results of all kinds.
fn stage_results<D: Disk>(log: &mut MetaLog<D>) -> Result<(), MetaFault>
    requires group { staged_of log.old + 64 ≤ MOST_STAGED }
    requires half { checkpoint_length (now_of log.old) + 64 ≤ log.old.half }
    ensures now { OnOk result (now_of log.new ≡ with_results (now_of log.old)) }
    ensures staged { OnOk result (staged_of log.new ≡ staged_of log.old + 64) }
    ensures quiet { IsQuiet log.old log.new }
    ensures refused { OnErr result (IsErrOf result MetaFault.Memory) }
{
    stage_pair(log, &[10, 1], &NO_RESULT)?;
    stage_pair(log, &[10, 2], &NO_RESULT)?;
    stage_pair(log, &[10, 3], &NO_RESULT)?;
    stage_pair(log, &[10, 4], &NO_RESULT)
}

/// Stages the first records of a volume.
fn stage_first<D: Disk>(log: &mut MetaLog<D>, settings: &[u8]) -> Result<(), MetaFault>
    requires empty { now_of log.old ≡ [] }
    requires settings { settings.now ≡ settings_bytes fresh_settings }
    requires none { staged_of log.old ≡ 0 }
    requires wide { 65618 ≤ log.old.half }
    ensures now { OnOk result (now_of log.new ≡ fresh_map) }
    ensures staged { OnOk result (staged_of log.new ≡ staged_of log.old + 106) }
    ensures quiet { IsQuiet log.old log.new }
    ensures refused { OnErr result (IsErrOf result MetaFault.Memory) }
{
    stage_pair(log, &[1], &FIRST_RECORD)?;
    stage_pair(log, &[9], settings)?;
    stage_results(log)
}

/// Makes the first records of a volume durable, in a journal that was just made.
fn commit_first<D: Disk>(
    mut log: MetaLog<D>,
    settings: &[u8],
) -> Result<MetaLog<D>, (D, MountFault)>
    requires empty { now_of log ≡ [] }
    requires settings { settings.now ≡ settings_bytes fresh_settings }
    requires running { log.stopped ≡ false }
    requires begun { log_place log ≡ CHECKPOINT_HEAD }
    requires none { staged_of log ≡ 0 }
    requires wide { 65618 ≤ log.half }
    ensures now { IfOk result (λ new. now_of new ≡ fresh_map) }
    ensures log { IsLog log [] → IfOk result (λ new. IsLog new fresh_map) }
    ensures settled { IsLog log [] → IfOk result (λ new. (c : List ℕ) → (state_of new).may_leave c →
        SpellsFresh log.at log.half (state_of log).image c) }
    ensures moments { IsLog log [] → IfOk result (λ new. Keeps (state_of log) (state_of new)
        (SpellsNoFile log.at log.half (length (state_of log).image))) }
    ensures moments_err { IsLog log [] → IfErr result (λ e. Keeps (state_of log) (D.state e.0)
        (SpellsNoFile log.at log.half (length (state_of log).image))) }
    ensures later { IfOk result (λ new. (state_of log).faults ≤ (state_of new).faults) }
    ensures size { IfOk result (λ new. length (state_of new).image ≡ length (state_of log).image) }
    ensures at { IfOk result (λ new. new.at ≡ log.at) }
    ensures half { IfOk result (λ new. new.half ≡ log.half) }
    ensures staged { IfOk result (λ new. staged_of new ≡ 0) }
    // A group fits behind an empty checkpoint, whatever it holds.
    ensures first { IfOk result (λ new. log_epoch new ≡ log_epoch log) }
    ensures next { IfOk result (λ new. log_place new ≡ CHECKPOINT_HEAD + (GROUP_HEAD + 106)) }
    ensures runs { IfOk result (λ new. new.stopped ≡ false) }
    ensures refused { IfErr result (λ e. ((e.1 ≡ MountFault.Failed) × Rose (state_of log).faults (D.state e.0).faults)
        ⊎ (e.1 ≡ MountFault.Memory)) }
    ensures same { IfOk result (λ new. D.is_same log.disk new.disk) }
    ensures same_err { IfErr result (λ e. D.is_same log.disk e.0) }
{
    match stage_first(&mut log, settings) {
        Ok(()) => {}
        Err(MetaFault::Memory) => return Err((log.into_disk(), MountFault::Memory)),
        Err(_) => unreachable!(),
    }
    match log.commit() {
        Ok(()) => Ok(log),
        Err(MetaFault::Failed) => Err((log.into_disk(), MountFault::Failed)),
        Err(_) => unreachable!(),
    }
}

/// What stands in the tables of a fresh volume of so many clusters.
fn first_found(alloc: Global, clusters: u32) -> Result<Checked, cluster_space::Memory>
    requires { LEAST_CLUSTERS ≤ clusters }
    ensures records { IfOk result (λ found. AreRecordsOf fresh_tables found.records) }
    ensures space { IfOk result (λ found. IsFilled clusters [] found.space) }
{
    let space = Space::new(alloc, data_clusters(clusters))?;
    let none = ResultRecord {
        second: 0,
        result: 0,
    };
    let records = Records {
        next_id: 1,
        settings: first_settings(alloc),
        results: LastResults {
            optimization: none,
            garbage_collection: none,
            scrubbing: none,
            unoptimization: none,
        },
    };
    Ok(Checked { records, space })
}

/// Writes the superblock, and makes the journal behind it.
fn make_log<D: Disk>(
    alloc: Global,
    mut disk: D,
    clusters: u32,
    superblock: &[u8],
) -> Result<MetaLog<D>, (D, MountFault)>
    requires least { LEAST_CLUSTERS ≤ clusters }
    requires most { clusters ≤ MOST_CLUSTERS }
    requires fits { length (D.state disk).image ≤ CLUSTER_BYTES * clusters }
    requires cluster { length superblock.now ≡ CLUSTER_BYTES }
    requires is { IsSuperblock clusters superblock.now }
    ensures log { IsTrue (D.state disk).tells → IfOk result (λ log. IsLog log []) }
    ensures superblock { IsTrue (D.state disk).tells → IfOk result
        (λ log. HasSuperblock clusters (state_of log).image) }
    ensures size { IfOk result (λ log. length (state_of log).image ≡ CLUSTER_BYTES * clusters) }
    ensures empty { IfOk result (λ log. now_of log ≡ []) }
    ensures at { IfOk result (λ log. log.at ≡ journal_at) }
    ensures half { IfOk result (λ log. log.half ≡ half_of clusters) }
    ensures epoch { IfOk result (λ log. log_epoch log ≡ 1) }
    ensures next { IfOk result (λ log. log_place log ≡ CHECKPOINT_HEAD) }
    ensures staged { IfOk result (λ log. staged_of log ≡ 0) }
    ensures runs { IfOk result (λ log. log.stopped ≡ false) }
    ensures refused { IfErr result (λ e. ((e.1 ≡ MountFault.Failed) × Rose (D.state disk).faults (D.state e.0).faults)
        ⊎ (e.1 ≡ MountFault.Memory)) }
    ensures moments { IsTrue (D.state disk).tells →
        IfOk result (λ log. Keeps (D.state disk) (state_of log) (IsMakeImage clusters (D.state disk))) }
    ensures moments_err { IsTrue (D.state disk).tells →
        IfErr result (λ e. Keeps (D.state disk) (D.state e.0) (IsMakeImage clusters (D.state disk))) }
    ensures later { IfOk result (λ log. (D.state disk).faults ≤ (state_of log).faults) }
    ensures same { IfOk result (λ log. D.is_same disk log.disk) }
    ensures same_err { IfErr result (λ e. D.is_same disk e.0) }
{
    match prepare(&mut disk, clusters, superblock) {
        Ok(()) => {}
        Err(_) => return Err((disk, MountFault::Failed)),
    }
    match MetaLog::format(alloc, disk, JOURNAL_AT, half_bytes(clusters)) {
        Ok(log) => Ok(log),
        Err((disk, fault)) => Err((disk, mount_fault(fault))),
    }
}

/// What is made in memory before the disk is written.
#[derive(Drop)]
struct Parts {
    superblock: Vec<u8>,
    settings: Vec<u8>,
    found: Checked,
}

fn first_parts(alloc: Global, clusters: u32) -> Result<Parts, TableFault>
    requires least { LEAST_CLUSTERS ≤ clusters }
    requires most { clusters ≤ MOST_CLUSTERS }
    ensures size { IfOk result (λ parts. length parts.superblock.items ≡ CLUSTER_BYTES) }
    ensures is { IfOk result (λ parts. IsSuperblock clusters parts.superblock.items) }
    ensures settings { IfOk result (λ parts. parts.settings.items ≡ settings_bytes fresh_settings) }
    ensures records { IfOk result (λ parts. AreRecordsOf fresh_tables parts.found.records) }
    ensures space { IfOk result (λ parts. IsFilled clusters [] parts.found.space) }
{
    let superblock = superblock_cluster(alloc, clusters)?;
    let settings = first_settings(alloc).to_value(alloc)?;
    let found = first_found(alloc, clusters)?;
    Ok(Parts {
        superblock,
        settings,
        found,
    })
}

/// Makes a fresh volume on a disk that is not too long.
fn make<D: Disk>(alloc: Global, disk: D, clusters: u32) -> Result<Tables<D>, (D, MountFault)>
    requires least { LEAST_CLUSTERS ≤ clusters }
    requires most { clusters ≤ MOST_CLUSTERS }
    requires fits { length (D.state disk).image ≤ CLUSTER_BYTES * clusters }
    ensures tables { IsTrue (D.state disk).tells → IfOk result (λ tables. IsTables tables fresh_tables) }
    ensures kept { IsTrue (D.state disk).tells → IfOk result (λ tables. Kept (area_of tables) (disk_of tables) []) }
    ensures opened { IfOk result IsOpened }
    ensures now { IfOk result (λ tables. tables_now tables ≡ fresh_tables) }
    ensures clusters { IfOk result (λ tables. tables.clusters ≡ clusters) }
    ensures first { IfOk result (λ tables. log_epoch tables.log ≡ 1) }
    ensures next { IfOk result (λ tables. log_place tables.log ≡ tables_bytes fresh_tables + GROUP_HEAD) }
    ensures goes_on { IsTrue (D.state disk).tells → IfOk result (λ tables. IsToldBy tables (disk_of tables).image) }
    ensures moments { IsTrue (D.state disk).tells →
        IfOk result (λ tables. Keeps (D.state disk) (disk_of tables) (IsMakeImage clusters (D.state disk))) }
    ensures moments_err { IsTrue (D.state disk).tells →
        IfErr result (λ e. Keeps (D.state disk) (D.state e.0) (IsMakeImage clusters (D.state disk))) }
    ensures later { IfOk result (λ tables. (D.state disk).faults ≤ (disk_of tables).faults) }
    ensures refused { IfErr result (λ e. IsFormatFault clusters (D.state disk) (D.state e.0) e.1) }
    ensures same { IfOk result (λ tables. D.is_same disk tables.log.disk) }
    ensures same_err { IfErr result (λ e. D.is_same disk e.0) }
{
    let parts = match first_parts(alloc, clusters) {
        Ok(parts) => parts,
        Err(_) => return Err((disk, MountFault::Memory)),
    };
    let log = match make_log(alloc, disk, clusters, &parts.superblock) {
        Ok(log) => log,
        Err(fault) => return Err(fault),
    };
    match commit_first(log, &parts.settings) {
        Ok(log) => Ok(assemble(log, clusters, parts.found)),
        Err(fault) => Err(fault),
    }
}

impl<D: Disk> Tables<D> {
    /// Makes a fresh volume of so many clusters, from 4,096 to 1,048,576, with no file. A disk that is shorter grows;
    /// one that is longer is refused, as it was, with the bytes that were asked for and the bytes that it has. Other
    /// refusals hand the disk back too, maybe with a part of the volume made. A crash leaves an image with no file, or
    /// one that is not mounted, from when the gates of the journal are closed; before that an older state of a volume
    /// that stood on the disk may show.
    pub fn format(alloc: Global, disk: D, clusters: u32) -> Result<Tables<D>, (D, MountFault)>
        requires least { LEAST_CLUSTERS ≤ clusters }
        requires most { clusters ≤ MOST_CLUSTERS }
        ensures tables { IsTrue (D.state disk).tells → IfOk result (λ tables. IsTables tables fresh_tables) }
        ensures kept { IsTrue (D.state disk).tells → IfOk result (λ tables. Kept (area_of tables) (disk_of tables) []) }
        ensures opened { IfOk result IsOpened }
        ensures maps { IfOk result HasMaps }
        ensures now { IfOk result (λ tables. tables_now tables ≡ fresh_tables) }
        ensures clusters { IfOk result (λ tables. tables.clusters ≡ clusters) }
        ensures first { IfOk result (λ tables. log_epoch tables.log ≡ 1) }
        // The first records stand as one group behind an empty checkpoint.
        ensures next { IfOk result (λ tables. log_place tables.log ≡ tables_bytes fresh_tables + GROUP_HEAD) }
        ensures goes_on { IsTrue (D.state disk).tells → IfOk result (λ tables. IsToldBy tables (disk_of tables).image) }
        ensures moments { IsTrue (D.state disk).tells →
            IfOk result (λ tables. Keeps (D.state disk) (disk_of tables) (IsMakeImage clusters (D.state disk))) }
        ensures moments_err { IsTrue (D.state disk).tells →
            IfErr result (λ e. Keeps (D.state disk) (D.state e.0) (IsMakeImage clusters (D.state disk))) }
        ensures later { IfOk result (λ tables. (D.state disk).faults ≤ (disk_of tables).faults) }
        ensures longer { CLUSTER_BYTES * clusters < length (D.state disk).image → IfErr result (λ e. e.0 ≡ disk) }
        ensures fits { OnOk result (length (D.state disk).image ≤ CLUSTER_BYTES * clusters) }
        ensures refused { IfErr result (λ e. IsFormatFault clusters (D.state disk) (D.state e.0) e.1) }
        ensures same { IfOk result (λ tables. D.is_same disk tables.log.disk) }
        ensures same_err { IfErr result (λ e. D.is_same disk e.0) }
    {
        let asked = CLUSTER_BYTES as u64 * clusters as u64;
        let size = disk.size();
        if size > asked {
            return Err((disk, MountFault::SizeDiffers(asked, size)));
        }
        make(alloc, disk, clusters)
    }
}
