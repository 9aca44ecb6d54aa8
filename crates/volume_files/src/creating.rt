// Files are made.
ghost use Rattle.std.specs.Prelude.{◌≡◌, ◌≤◌, ◌+◌, false, true, IfErr, IsErrOf, OnOk, OnErr, length};
ghost use Rattle.plain_volume.specs.Step.{plain, after};
ghost use Rattle.plain_volume.specs.Replies.{done_reply};
ghost use Rattle.plain_volume.specs.declared.call.Call.TheVariants.{Create};
ghost use Rattle.volume_inside.specs.Layout.{half_bytes};
ghost use Rattle.volume_inside.specs.Rules.{RulesHold, next_id_of};
ghost use Rattle.volume_tables.specs.declared.room.TheConstants.{MOST_RECORDS};
ghost use Rattle.volume_tables.specs.Tables.{clusters_in, tables_now, inside_now, view_now, states_of, staged_of};
ghost use Rattle.volume_tables.specs.Tables.{checkpoint_of, disk_of, stopped, Leaves};
ghost use Rattle.volume_tables.specs.Pending.{IsPending};
ghost use Rattle.volume_tables.specs.Sound.{IsSound, Endures, Spares};
ghost use Rattle.volume_tables.specs.Spending.{Spends};
ghost use Rattle.volume_tables.specs.Wants.{last_id, wanting, IsRepliedOrMemory};
ghost use Rattle.volume_files.specs.Insides.{inside_created};
ghost use Rattle.volume_files.specs.Names.{with_new, IsNewName, IsRefused};
ghost use Rattle.volume_files.specs.Needs.{create_needs, create_bytes};

use plain_volume::limits::MOST_FILES;
use plain_volume::{Fault, name_is_lawful};
use vdisk::Disk;
use volume_tables::{FileRecord, Tables, make_room};

/// Whether a new file may have a name, or why not.
fn check_new<D: Disk>(tables: &Tables<D>, name: &[u8]) -> Result<(), Fault>
    requires { RulesHold (clusters_in tables.now) (tables_now tables.now) }
    ensures new { OnOk result (IsNewName (tables_now tables.now) name.now) }
    ensures refused { IfErr result (IsRefused (view_now tables.now) (Create name.now)) }
    ensures no_fault { IsErrOf result Fault.Failed → ⊥ }
    ensures not_worn { IsErrOf result Fault.Worn → ⊥ }
{
    if !name_is_lawful(name) {
        return Err(Fault::BadName);
    }
    if tables.get_name(name).is_some() {
        return Err(Fault::Exists);
    }
    if tables.name_count() >= MOST_FILES {
        return Err(Fault::TooLarge(MOST_FILES));
    }
    Ok(())
}

/// Puts an empty file under a name. The fault is `Memory`, and then the tables are as they were.
fn put_file<D: Disk>(tables: &mut Tables<D>, name: &[u8]) -> Result<(), Fault>
    requires new { IsNewName (tables_now tables.old) name.now }
    requires rules { RulesHold (clusters_in tables.old) (tables_now tables.old) }
    requires room { staged_of tables.old + (93 + length name.now) ≤ MOST_RECORDS }
    requires fits { checkpoint_of tables.old + (52 + length name.now) ≤ half_bytes (clusters_in tables.old) }
    requires ids { next_id_of (tables_now tables.old) ≡ last_id → ⊥ }
    ensures ok { OnOk result (tables_now tables.new ≡ with_new name.now (tables_now tables.old)) }
    ensures err { OnErr result (tables_now tables.new ≡ tables_now tables.old) }
    ensures refused { OnErr result (IsErrOf result Fault.Memory) }
    ensures leaves { Leaves tables.old tables.new }
    ensures staged { OnOk result (staged_of tables.new ≡ staged_of tables.old + create_bytes name.now) }
    ensures states { states_of tables.new ≡ states_of tables.old }
    ensures image { (disk_of tables.new).image ≡ (disk_of tables.old).image }
    ensures running { stopped tables.new ≡ stopped tables.old }
{
    let id = tables.stored_next_id();
    let empty = FileRecord {
        length: 0,
        map_row: 0,
        covers: 0,
    };
    tables.set_file(id, empty)?;
    if let Err(fault) = tables.set_name(name, id) {
        tables.drop_file(id, Some(id + 1));
        return Err(fault);
    }
    tables.next_id().unwrap();
    Ok(())
}

/// Makes an empty file. The faults, in this order: `BadName`, `Exists`, `TooLarge` where there are as many files as
/// there may be, `Worn` where no id is left, `TableFull`, `Worn` where a commit must come first and is worn, `Failed`;
/// and `Memory`.
pub fn create<D: Disk>(tables: &mut Tables<D>, name: &[u8]) -> Result<(), Fault>
    requires running { stopped tables.old ≡ false }
    requires sound { IsSound tables.old }
    ensures reply { IsRepliedOrMemory (plain (view_now tables.old) (Create name.now))
        (wanting tables.old (create_needs name.now)) (disk_of tables.old).faults (disk_of tables.new).faults
        (done_reply result) }
    ensures left { view_now tables.new ≡ after (view_now tables.old) (Create name.now) (done_reply result) }
    ensures inside { OnOk result (inside_now tables.new ≡ inside_created name.now (inside_now tables.old)) }
    ensures err_inside { OnErr result (inside_now tables.new ≡ inside_now tables.old) }
    ensures made { OnOk result (tables_now tables.new ≡ with_new name.now (tables_now tables.old)) }
    ensures same { OnErr result (tables_now tables.new ≡ tables_now tables.old) }
    ensures sound { IsSound tables.new }
    ensures endures { Endures tables.old tables.new }
    ensures spends { Spends 0 1 tables.old tables.new }
    ensures stops { stopped tables.new ≡ true → IsErrOf result Fault.Failed }
    ensures halts { IsErrOf result Fault.Failed → stopped tables.new ≡ true }
    ensures spares { Spares tables.old tables.new result }
    ensures pending { IsPending (create_needs name.now) (create_bytes name.now) tables.old tables.new result }
{
    check_new(tables, name)?;
    make_room(tables, true, 52 + name.len() as u64, 93 + name.len(), 0)?;
    put_file(tables, name)
}
