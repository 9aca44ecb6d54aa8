//! Why the tables of an image are not mounted.

ghost use Rattle.std.specs.Prelude.{◌≡◌, ◌≤◌, OnOk, IfOk, IfErr, T};
ghost use Rattle.std.specs.FinMap.Entries.{is_sorted};
ghost use Rattle.byte_map.specs.Words.{bytes_cmp};
ghost use Rattle.volume_inside.specs.declared.layout.TheConstants.{LEAST_CLUSTERS};
ghost use Rattle.volume_inside.specs.Named.{clusters_of};
ghost use Rattle.volume_inside.specs.Typed.{typed_of};
ghost use Rattle.volume_inside.specs.Rules.{IsVolume};
ghost use Rattle.table_rules.specs.Causes.{IsRefusal};
ghost use Rattle.table_rules.specs.Found.{AreRecordsOf};
ghost use Rattle.table_rules.specs.Marks.{IsFilled};

use crate::checking::{Checked, check};
use crate::fault::TableFault;
use crate::version::unknown_version;
use byte_map::ByteMap;
use std::alloc::Global;
use volume_inside::MountFault;

/// What stands in the tables of an image of so many clusters; or why it is not mounted: a version that is not known,
/// or else the least rule that is broken.
pub fn read_tables(alloc: Global, clusters: u32, map: &ByteMap) -> Result<Checked, MountFault>
    requires { LEAST_CLUSTERS ≤ clusters }
    ensures volume { OnOk result (IsVolume clusters map.now) }
    ensures records { IfOk result (λ found. AreRecordsOf (typed_of map.now) found.records) }
    ensures space { IfOk result (λ found. IsFilled clusters (clusters_of (typed_of map.now)) found.space) }
    ensures sorted { T (is_sorted bytes_cmp map.now) }
    ensures refused { IfErr result (IsRefusal clusters map.now) }
{
    if let Some(found) = unknown_version(map) {
        return Err(MountFault::VersionUnknown(found));
    }
    match check(alloc, clusters, map) {
        Ok(found) => Ok(found),
        Err(TableFault::Broken(rule)) => Err(MountFault::BadTable(rule)),
        Err(TableFault::Memory) => Err(MountFault::Memory),
    }
}
