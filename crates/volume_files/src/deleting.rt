// Files are deleted.
ghost use Rattle.std.specs.Prelude.{◌≡◌, ◌≤◌, ◌+◌, ◌^◌, ◌<◌, ℕ, false, true, take, length, Some, IfSome, IsErrOf};
ghost use Rattle.std.specs.Prelude.{OnOk, OnErr};
ghost use Rattle.std.specs.FinMap.Entries.{find};
ghost use Rattle.std.specs.Option.{option_map};
ghost use Rattle.groundwork.specs.declared.limits.TheConstants.{LAST_ID, MOST_NAME_BYTES};
ghost use Rattle.byte_map.specs.Words.{bytes_cmp, next_in};
ghost use Rattle.plain_volume.specs.Step.{plain, after};
ghost use Rattle.plain_volume.specs.Replies.{done_reply};
ghost use Rattle.plain_volume.specs.declared.call.Call.TheVariants.{Delete};
ghost use Rattle.volume_inside.specs.Changes.{keep_names};
ghost use Rattle.volume_tables.specs.declared.room.TheConstants.{MOST_RECORDS};
ghost use Rattle.volume_tables.specs.Tables.{tables_now, inside_now, view_now, staged_of, disk_of, stopped};
ghost use Rattle.volume_tables.specs.Pending.{IsPending};
ghost use Rattle.volume_tables.specs.Sound.{IsSound, Endures, Spares};
ghost use Rattle.volume_tables.specs.Spending.{Spends};
ghost use Rattle.volume_tables.specs.Stages.{Stages};
ghost use Rattle.volume_tables.specs.Wants.{wanting, IsReplied};
ghost use Rattle.volume_files.specs.Insides.{inside_deleted};
ghost use Rattle.volume_files.specs.Names.{is_other, without_name, AreShort};
ghost use Rattle.volume_files.specs.Needs.{delete_needs, drop_bytes, delete_bytes};

use crate::lookup::find_file;
use plain_volume::Fault;
use plain_volume::limits::MOST_BYTES_OF_A_NAME;
use vdisk::Disk;
use volume_tables::{Tables, make_room};

/// Copies the least name above another one, and tells its length, if there is one.
fn copy_next<D: Disk>(
    tables: &Tables<D>,
    name: &[u8],
    out: &mut [u8; MOST_BYTES_OF_A_NAME],
) -> Option<usize>
    requires short { length name.now ≤ MOST_NAME_BYTES }
    requires names { AreShort (tables_now tables.now).names }
    ensures within { IfSome result (λ n. n ≤ MOST_NAME_BYTES) }
    ensures is { option_map (λ n. take n out.new) result ≡
        option_map (λ p. p.0) (next_in bytes_cmp name.now (tables_now tables.now).names) }
{
    match tables.next_name(Some(name)) {
        None => None,
        Some((next, _)) => {
            out[..next.len()].copy_from_slice(next);
            Some(next.len())
        }
    }
}

/// Drops a name, and no other.
pub(crate) fn drop_one_name<D: Disk>(tables: &mut Tables<D>, name: &[u8])
    requires short { length name.now ≤ MOST_NAME_BYTES }
    requires names { AreShort (tables_now tables.old).names }
    requires room { staged_of tables.old + (262 + length name.now) ≤ MOST_RECORDS }
    ensures tables { tables_now tables.new ≡ keep_names (is_other name.now) (tables_now tables.old) }
    ensures stages { Stages (drop_bytes (tables_now tables.old).names name.now) tables.old tables.new }
{
    let mut next = [0; MOST_BYTES_OF_A_NAME];
    match copy_next(tables, name, &mut next) {
        None => tables.drop_name(name, None),
        Some(length) => tables.drop_name(name, Some(&next[..length])),
    }
}

/// Drops a name, its file and the blocks of that.
fn drop_all<D: Disk>(tables: &mut Tables<D>, name: &[u8], id: u64)
    requires short { length name.now ≤ MOST_NAME_BYTES }
    requires names { AreShort (tables_now tables.old).names }
    requires id { id ≤ LAST_ID }
    requires room { staged_of tables.old + (316 + length name.now) ≤ MOST_RECORDS }
    ensures tables { tables_now tables.new ≡ without_name name.now id (tables_now tables.old) }
    ensures stages { Stages (delete_bytes (tables_now tables.old).names name.now) tables.old tables.new }
{
    drop_one_name(tables, name);
    tables.drop_file(id, Some(id + 1));
    tables.drop_extent((id, 0), Some((id + 1, 0)));
}

/// Drops the file of a name. Its clusters are free after the next commit. It takes no memory.
///
/// The faults, in this order: `BadName`, `NoFile`, `Worn` where a commit must come first and is worn, `Failed`.
pub fn delete<D: Disk>(tables: &mut Tables<D>, name: &[u8]) -> Result<(), Fault>
    requires running { stopped tables.old ≡ false }
    requires sound { IsSound tables.old }
    ensures reply { IsReplied (plain (view_now tables.old) (Delete name.now))
        (wanting tables.old (delete_needs name.now)) (disk_of tables.old).faults (disk_of tables.new).faults
        (done_reply result) }
    ensures left { view_now tables.new ≡ after (view_now tables.old) (Delete name.now) (done_reply result) }
    ensures inside { OnOk result (inside_now tables.new ≡ inside_deleted name.now (inside_now tables.old)) }
    ensures err_inside { OnErr result (inside_now tables.new ≡ inside_now tables.old) }
    ensures gone { (id : ℕ) → find bytes_cmp name.now (tables_now tables.old).names ≡ Some id →
        OnOk result (tables_now tables.new ≡ without_name name.now id (tables_now tables.old)) }
    ensures same { OnErr result (tables_now tables.new ≡ tables_now tables.old) }
    ensures sound { IsSound tables.new }
    ensures endures { Endures tables.old tables.new }
    ensures spends { Spends 0 0 tables.old tables.new }
    ensures stops { stopped tables.new ≡ true → IsErrOf result Fault.Failed }
    ensures halts { IsErrOf result Fault.Failed → stopped tables.new ≡ true }
    ensures spares { Spares tables.old tables.new result }
    ensures pending { IsPending (delete_needs name.now) (delete_bytes (tables_now tables.old).names name.now)
        tables.old tables.new result }
{
    let (id, _) = find_file(tables, name)?;
    make_room(tables, false, 0, 316 + name.len(), 0)?;
    drop_all(tables, name, id);
    Ok(())
}
