//! Room is made for a call.

ghost use Rattle.std.specs.Prelude.{◌≡◌, ◌≤◌, false};
ghost use Rattle.volume_tables.specs.Rooms.{IsRoomMade};
ghost use Rattle.volume_tables.specs.Sound.{IsSound};
ghost use Rattle.volume_tables.specs.Tables.{stopped};

use crate::room::MOST_RECORDS;
use crate::tables::Tables;
use groundwork::LAST_ID;
use plain_volume::Fault;
use vdisk::Disk;

/// Makes room for a call that draws an id or not, makes a checkpoint longer by so many bytes, stages records of at most
/// so many bytes and writes so many clusters. The tables are committed first where it is not there at once.
///
/// A refusal is the first resource that is wanting, or `Failed`. It changes no table.
pub fn make_room<D: Disk>(
    tables: &mut Tables<D>,
    draws: bool,
    grows: u64,
    records: usize,
    clusters: u32,
) -> Result<(), Fault>
    requires running { stopped tables.old ≡ false }
    requires sound { IsSound tables.old }
    requires most { records ≤ MOST_RECORDS }
    ensures { IsRoomMade (record { draws = draws; grows = grows; records = records; clusters = clusters })
        tables.old tables.new result }
{
    if draws && tables.stored_next_id() == LAST_ID {
        return Err(Fault::Worn);
    }
    let half = tables.half_bytes();
    if grows > half || tables.checkpoint_bytes() > half - grows {
        return Err(Fault::TableFull);
    }
    tables.ensure_room(records, clusters)
}
