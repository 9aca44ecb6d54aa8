//! The rules of a volume's tables, in their order.

ghost use Rattle.std.specs.Prelude.{◌≡◌, ◌≤◌, OnOk, IfOk, IfErr};
ghost use Rattle.table_records.specs.WellFormed.{AllWellFormed};
ghost use Rattle.volume_inside.specs.declared.layout.TheConstants.{LEAST_CLUSTERS};
ghost use Rattle.volume_inside.specs.Named.{clusters_of};
ghost use Rattle.volume_inside.specs.Typed.{typed_of};
ghost use Rattle.volume_inside.specs.Rules.{RecordsHold, IsVolume, next_id_of};
ghost use Rattle.table_rules.specs.Causes.{BreaksRecords, IsCause};
ghost use Rattle.table_rules.specs.Found.{AreRecordsOf};
ghost use Rattle.table_rules.specs.Marks.{IsFilled};

use crate::chunks::{containers_hold, places_hold, redirects_hold, rows_hold};
use crate::clusters::mark_clusters;
use crate::entries::{extents_hold, files_hold, map_rows_hold};
use crate::fault::TableFault;
use crate::named::names_hold;
use crate::pairs::all_well_formed;
use crate::records::{Records, find_records};
use byte_map::ByteMap;
use cluster_space::Space;
use std::alloc::Global;

/// What was found in the tables of a volume.
#[derive(Drop)]
pub struct Checked {
    /// The records that each volume has.
    pub records: Records,
    /// The states of the data clusters, from the first on: those that the tables name are used, all others free.
    pub space: Space,
}

/// The first rule: each pair is a key and a value of a table, and the records that each volume has are there.
fn check_records(alloc: Global, map: &ByteMap) -> Result<Records, TableFault>
    ensures spelled { OnOk result (AllWellFormed map.now) }
    ensures hold { let t = typed_of map.now in OnOk result (RecordsHold t.volume t.settings t.results) }
    ensures records { IfOk result (AreRecordsOf (typed_of map.now)) }
    ensures next_id { IfOk result (λ records. next_id_of (typed_of map.now) ≡ records.next_id) }
    ensures broken { IfErr result (BreaksRecords map.now) }
{
    if !all_well_formed(map) {
        return Err(TableFault::Broken(1));
    }
    match find_records(alloc, map)? {
        Some(records) => Ok(records),
        None => Err(TableFault::Broken(1)),
    }
}

/// Checks the tables of an image of so many clusters by all rules. The least one that is broken is told.
pub fn check(alloc: Global, clusters: u32, map: &ByteMap) -> Result<Checked, TableFault>
    requires { LEAST_CLUSTERS ≤ clusters }
    ensures volume { OnOk result (IsVolume clusters map.now) }
    ensures records { IfOk result (λ found. AreRecordsOf (typed_of map.now) found.records) }
    ensures space { IfOk result (λ found. IsFilled clusters (clusters_of (typed_of map.now)) found.space) }
    ensures broken { IfErr result (IsCause clusters map.now) }
{
    let records = check_records(alloc, map)?;
    if !names_hold(alloc, map)? {
        return Err(TableFault::Broken(2));
    }
    if !files_hold(map, records.next_id) {
        return Err(TableFault::Broken(3));
    }
    if !map_rows_hold(map) {
        return Err(TableFault::Broken(4));
    }
    if !extents_hold(map, clusters) {
        return Err(TableFault::Broken(5));
    }
    if !rows_hold(map, records.next_id) {
        return Err(TableFault::Broken(6));
    }
    if !redirects_hold(map) {
        return Err(TableFault::Broken(7));
    }
    if !places_hold(map) {
        return Err(TableFault::Broken(8));
    }
    if !containers_hold(map, clusters, records.next_id) {
        return Err(TableFault::Broken(9));
    }
    match mark_clusters(alloc, map, clusters)? {
        Some(space) => Ok(Checked { records, space }),
        None => Err(TableFault::Broken(10)),
    }
}
