//! The maps of the bases of files are checked.

ghost use Rattle.std.specs.Prelude.{◌≡◌, ◌⊎◌, IsOk, IsErrOf, IfOk, IfErr, OnErr};
ghost use Rattle.vdisk.specs.Causes.{Rose};
ghost use Rattle.meta_log.specs.Opened.{IsOnlyRead};
ghost use Rattle.row_reading.specs.Reading.{IsReadable};
ghost use Rattle.volume_inside.specs.ChunkRules.{MapsHold};
ghost use Rattle.volume_tables.specs.Mount.{IsMapsFault};
ghost use Rattle.volume_tables.specs.Reads.{ReadsOnly, IsTold};
ghost use Rattle.volume_tables.specs.Tables.{tables_now, inside_now, disk_of};

use crate::tables::Tables;
use row_reading::{BaseFault, check_base};
use vdisk::Disk;
use volume_inside::MountFault;

/// The number of the rule on maps.
const RULE_ON_MAPS: u8 = 12;

/// Checks the map of the base of each file. A file without a base costs no read.
fn check_maps<D: Disk>(tables: &mut Tables<D>) -> Result<(), BaseFault>
    requires readable { IsReadable (tables_now tables.old).chunks (disk_of tables.old).image }
    ensures held { IsTold tables.old → IsOk result → MapsHold (inside_now tables.old) }
    ensures broken { IsTold tables.old → IsErrOf result BaseFault.Broken → MapsHold (inside_now tables.old) → ⊥ }
    ensures refused { OnErr result (IsErrOf result BaseFault.Broken ⊎ (IsErrOf result BaseFault.Failed ×
        Rose (disk_of tables.old).faults (disk_of tables.new).faults)) }
    ensures reads { ReadsOnly tables.old tables.new }
{
    let mut next = tables.next_file(None);
    while let Some((id, file)) = next {
        check_base(tables, file)?;
        next = tables.next_file(Some(id));
    }
    Ok(())
}

/// The tables, where the map of the base of each file is as it should be, or the disk and why they are not mounted.
pub(crate) fn with_maps<D: Disk>(mut tables: Tables<D>) -> Result<Tables<D>, (D, MountFault)>
    requires readable { IsReadable (tables_now tables).chunks (disk_of tables).image }
    ensures maps { IsTold tables → IsOk result → MapsHold (inside_now tables) }
    ensures reads { IfOk result (λ checked. ReadsOnly tables checked) }
    ensures refused { IfErr result (λ e. IsMapsFault tables (D.state e.0) e.1) }
    ensures read_err { IfErr result (λ e. IsOnlyRead (disk_of tables) (D.state e.0)) }
    ensures same_err { IfErr result (λ e. D.is_same tables.log.disk e.0) }
{
    match check_maps(&mut tables) {
        Ok(()) => Ok(tables),
        Err(BaseFault::Broken) => Err((tables.log.into_disk(), MountFault::BadTable(RULE_ON_MAPS))),
        Err(BaseFault::Failed) => Err((tables.log.into_disk(), MountFault::Failed)),
    }
}
