// Files get other names.
ghost use Rattle.std.specs.Prelude.{◌≡◌, ◌≤◌, ◌+◌, ℕ, false, true, length, Some, IfOk, IfErr, IsErrOf, OnOk, OnErr};
ghost use Rattle.std.specs.FinMap.Entries.{find};
ghost use Rattle.groundwork.specs.declared.limits.TheConstants.{MOST_NAME_BYTES};
ghost use Rattle.byte_map.specs.Words.{bytes_cmp};
ghost use Rattle.plain_volume.specs.Step.{plain, after};
ghost use Rattle.plain_volume.specs.Replies.{done_reply};
ghost use Rattle.plain_volume.specs.declared.call.Call.TheVariants.{Rename};
ghost use Rattle.volume_inside.specs.Layout.{half_bytes};
ghost use Rattle.volume_inside.specs.Rules.{RulesHold};
ghost use Rattle.volume_tables.specs.declared.room.TheConstants.{MOST_RECORDS};
ghost use Rattle.volume_tables.specs.Tables.{clusters_in, tables_now, inside_now, view_now, staged_of, checkpoint_of};
ghost use Rattle.volume_tables.specs.Tables.{disk_of, stopped};
ghost use Rattle.volume_tables.specs.Pending.{IsPending};
ghost use Rattle.volume_tables.specs.Sound.{IsSound, Endures, Spares};
ghost use Rattle.volume_tables.specs.Spending.{Spends};
ghost use Rattle.volume_tables.specs.Stages.{if_ok, Stages};
ghost use Rattle.volume_tables.specs.Wants.{wanting, IsRepliedOrMemory};
ghost use Rattle.volume_files.specs.Insides.{inside_renamed};
ghost use Rattle.volume_files.specs.Names.{with_renamed, AreShort, IsRenaming, IsRefused};
ghost use Rattle.volume_files.specs.Needs.{rename_needs, rename_bytes};

use crate::deleting::drop_one_name;
use plain_volume::{Fault, name_is_lawful};
use vdisk::Disk;
use volume_tables::{Tables, make_room};

/// The id of the file that gets another name, or why it does not.
fn check_names<D: Disk>(tables: &Tables<D>, from: &[u8], to: &[u8]) -> Result<u64, Fault>
    requires { RulesHold (clusters_in tables.now) (tables_now tables.now) }
    ensures found { IfOk result (IsRenaming (tables_now tables.now) from.now to.now) }
    ensures refused { IfErr result (IsRefused (view_now tables.now) (Rename from.now to.now)) }
    ensures no_fault { IsErrOf result Fault.Failed → ⊥ }
    ensures not_worn { IsErrOf result Fault.Worn → ⊥ }
{
    if !name_is_lawful(from) {
        return Err(Fault::BadName);
    }
    if !name_is_lawful(to) {
        return Err(Fault::BadName);
    }
    let Some(id) = tables.get_name(from) else {
        return Err(Fault::NoFile);
    };
    if tables.get_name(to).is_some() {
        return Err(Fault::Exists);
    }
    Ok(id)
}

/// Puts the new name of a file, and drops the old one. The fault is `Memory`, and then the tables are as they were.
fn replace_name<D: Disk>(
    tables: &mut Tables<D>,
    from: &[u8],
    to: &[u8],
    id: u64,
) -> Result<(), Fault>
    requires short { length from.now ≤ MOST_NAME_BYTES }
    requires short_to { length to.now ≤ MOST_NAME_BYTES }
    requires names { AreShort (tables_now tables.old).names }
    requires room { staged_of tables.old + (276 + (length from.now + length to.now)) ≤ MOST_RECORDS }
    requires fits { checkpoint_of tables.old + (14 + length to.now) ≤ half_bytes (clusters_in tables.old) }
    ensures ok { OnOk result (tables_now tables.new ≡ with_renamed from.now to.now id (tables_now tables.old)) }
    ensures err { OnErr result (tables_now tables.new ≡ tables_now tables.old) }
    ensures refused { OnErr result (IsErrOf result Fault.Memory) }
    ensures stages { Stages (if_ok result (rename_bytes (tables_now tables.old).names from.now to.now id))
        tables.old tables.new }
{
    tables.set_name(to, id)?;
    drop_one_name(tables, from);
    Ok(())
}

/// Gives the file of a name another one. Where there are as many files as there may be, that is no hindrance.
///
/// The faults, in this order: `BadName`, `NoFile`, `Exists` (also for its own name), `TableFull`, `Worn` where a commit
/// must come first and is worn, `Failed`; and `Memory`.
pub fn rename<D: Disk>(tables: &mut Tables<D>, from: &[u8], to: &[u8]) -> Result<(), Fault>
    requires running { stopped tables.old ≡ false }
    requires sound { IsSound tables.old }
    ensures reply { IsRepliedOrMemory (plain (view_now tables.old) (Rename from.now to.now))
        (wanting tables.old (rename_needs from.now to.now)) (disk_of tables.old).faults (disk_of tables.new).faults
        (done_reply result) }
    ensures left { view_now tables.new ≡ after (view_now tables.old) (Rename from.now to.now) (done_reply result) }
    ensures inside { OnOk result (inside_now tables.new ≡ inside_renamed from.now to.now (inside_now tables.old)) }
    ensures err_inside { OnErr result (inside_now tables.new ≡ inside_now tables.old) }
    ensures renamed { (id : ℕ) → find bytes_cmp from.now (tables_now tables.old).names ≡ Some id →
        OnOk result (tables_now tables.new ≡ with_renamed from.now to.now id (tables_now tables.old)) }
    ensures same { OnErr result (tables_now tables.new ≡ tables_now tables.old) }
    ensures sound { IsSound tables.new }
    ensures endures { Endures tables.old tables.new }
    ensures spends { Spends 0 0 tables.old tables.new }
    ensures stops { stopped tables.new ≡ true → IsErrOf result Fault.Failed }
    ensures halts { IsErrOf result Fault.Failed → stopped tables.new ≡ true }
    ensures spares { Spares tables.old tables.new result }
    ensures pending { (id : ℕ) → find bytes_cmp from.now (tables_now tables.old).names ≡ Some id →
        IsPending (rename_needs from.now to.now)
        (rename_bytes (tables_now tables.old).names from.now to.now id) tables.old tables.new result }
{
    let id = check_names(tables, from, to)?;
    make_room(
        tables,
        false,
        14 + to.len() as u64,
        276 + (from.len() + to.len()),
        0,
    )?;
    replace_name(tables, from, to, id)
}
