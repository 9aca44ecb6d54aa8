// Files get another length.
ghost use Rattle.std.specs.Prelude.{◌≡◌, ◌≤◌, ◌<◌, ◌+◌, ◌^◌, ◌/◌, ◌%◌, ℕ, Some, OnOk, OnErr, IsErrOf, false, true};
ghost use Rattle.std.specs.Ordering.{nat_cmp};
ghost use Rattle.std.specs.FinMap.{find};
ghost use Rattle.groundwork.specs.declared.limits.TheConstants.{LAST_ID};
ghost use Rattle.table_records.specs.Keys.{pair_cmp};
ghost use Rattle.plain_volume.specs.Replies.{done_reply};
ghost use Rattle.plain_volume.specs.Step.{plain, after};
ghost use Rattle.plain_volume.specs.declared.call.Call.TheVariants.{SetLength};
ghost use Rattle.table_records.specs.declared.records.FileRecord.{FileRecord};
ghost use Rattle.volume_inside.specs.declared.layout.TheConstants.{CLUSTER_BYTES};
ghost use Rattle.volume_tables.specs.declared.room.TheConstants.{MOST_RECORDS};
ghost use Rattle.volume_tables.specs.Tables.{tables_now, inside_now, view_now, disk_of, staged_of, stopped};
ghost use Rattle.volume_tables.specs.Pending.{IsPending};
ghost use Rattle.volume_tables.specs.Sound.{IsSound, Endures, Spares};
ghost use Rattle.volume_tables.specs.Spending.{Spends};
ghost use Rattle.volume_tables.specs.Stages.{Stages};
ghost use Rattle.volume_tables.specs.Wants.{IsReplied};
ghost use Rattle.volume_files.specs.Found.{IsFileOf};
ghost use Rattle.volume_files.specs.Insides.{inside_resized};
ghost use Rattle.volume_files.specs.Needs.{length_needs, set_at_end};
ghost use Rattle.volume_files.specs.Lengths.{cut_extent, end_cut, cut_at, record_resized, resized_in, length_wants};

use crate::block::BLOCK;
use crate::lookup::find_file;
use plain_volume::Fault;
use plain_volume::limits::MOST_BYTES_OF_A_FILE;
use vdisk::Disk;
use volume_tables::{Extent, FileRecord, Tables, make_room};

/// The extent of the block in which a file of this length ends, cut to the file's end, if it has more bytes.
fn cut_end_extent<D: Disk>(tables: &Tables<D>, id: u64, length: u64) -> Option<Extent>
    requires { length ≤ MOST_BYTES_OF_A_FILE }
    ensures { result ≡ cut_extent (length % CLUSTER_BYTES) (find pair_cmp (id, length / CLUSTER_BYTES) (tables_now tables.now).extents) }
{
    let extent = tables.get_extent((id, (length / BLOCK) as u32))?;
    let rest = (length % BLOCK) as u16;
    if 0 < rest && rest < extent.valid {
        Some(Extent {
            cluster: extent.cluster,
            valid: rest,
        })
    } else {
        None
    }
}

/// The most bytes of records that another length of a file stages.
fn records_of_length<D: Disk>(tables: &Tables<D>, id: u64, old: u64, length: u64) -> usize
    requires { length ≤ MOST_BYTES_OF_A_FILE }
    ensures { result ≡ (length_needs (tables_now tables.now) id old length).records }
{
    if old <= length {
        return 38;
    }
    match cut_end_extent(tables, id, length) {
        None => 69,
        Some(_) => 93,
    }
}

/// Cuts the block in which a file of this length ends.
fn cut_end<D: Disk>(tables: &mut Tables<D>, id: u64, length: u64)
    requires short { length ≤ MOST_BYTES_OF_A_FILE }
    requires room { staged_of tables.old + set_at_end (tables_now tables.old) id length ≤ MOST_RECORDS }
    ensures tables { tables_now tables.new ≡ end_cut id length (tables_now tables.old) }
    ensures stages { Stages (set_at_end (tables_now tables.old) id length) tables.old tables.new }
{
    if let Some(extent) = cut_end_extent(tables, id, length) {
        let key = (id, (length / BLOCK) as u32);
        let was = tables.get_extent(key);
        tables.set_extent(key, was, extent).unwrap();
    }
}

/// Cuts the blocks of a file to its end, where it has this length.
fn cut<D: Disk>(tables: &mut Tables<D>, id: u64, length: u64)
    requires id { id ≤ LAST_ID }
    requires short { length ≤ MOST_BYTES_OF_A_FILE }
    requires room { staged_of tables.old + (31 + set_at_end (tables_now tables.old) id length) ≤ MOST_RECORDS }
    ensures tables { tables_now tables.new ≡ cut_at id length (tables_now tables.old) }
    ensures stages { Stages (31 + set_at_end (tables_now tables.old) id length) tables.old tables.new }
{
    cut_end(tables, id, length);
    let behind = ((length + (BLOCK - 1)) / BLOCK) as u32;
    tables.drop_extent((id, behind), Some((id + 1, 0)));
}

/// The record of a file with another length.
fn record_of_length(file: FileRecord, length: u64) -> FileRecord
    ensures { result ≡ record_resized length file }
{
    let covers = file.covers.min(length);
    let map_row = if covers == 0 { 0 } else { file.map_row };
    FileRecord {
        length,
        map_row,
        covers,
    }
}

/// Gives a file that is there another length.
fn resize<D: Disk>(tables: &mut Tables<D>, id: u64, file: FileRecord, length: u64)
    requires id { id ≤ LAST_ID }
    requires short { length ≤ MOST_BYTES_OF_A_FILE }
    requires there { find nat_cmp id (tables_now tables.old).files ≡ Some file }
    requires room { staged_of tables.old +
        (length_needs (tables_now tables.old) id file.length length).records ≤ MOST_RECORDS }
    ensures tables { tables_now tables.new ≡ resized_in id file length (tables_now tables.old) }
    ensures stages { Stages (length_needs (tables_now tables.old) id file.length length).records tables.old tables.new }
{
    if length < file.length {
        cut(tables, id, length);
    }
    tables.set_file(id, record_of_length(file, length)).unwrap();
}

/// Cuts the file of a name to a length, or extends it by zeros. It takes no memory.
///
/// The bytes that are cut off do not come back when the file grows again, also where they came from a base: that covers
/// what is left, and goes where nothing of it is left. The record of the file is set also where the length is the same.
pub fn set_length<D: Disk>(tables: &mut Tables<D>, name: &[u8], length: u64) -> Result<(), Fault>
    requires running { stopped tables.old ≡ false }
    requires sound { IsSound tables.old }
    ensures reply { IsReplied (plain (view_now tables.old) (SetLength name.now length))
        (length_wants tables.old name.now length) (disk_of tables.old).faults (disk_of tables.new).faults
        (done_reply result) }
    ensures left { view_now tables.new ≡ after (view_now tables.old) (SetLength name.now length) (done_reply result) }
    ensures sound { IsSound tables.new }
    ensures endures { Endures tables.old tables.new }
    ensures spends { Spends 0 0 tables.old tables.new }
    ensures stops { stopped tables.new ≡ true → IsErrOf result Fault.Failed }
    ensures halts { IsErrOf result Fault.Failed → stopped tables.new ≡ true }
    ensures spares { Spares tables.old tables.new result }
    ensures pending { (id : ℕ) (file : FileRecord) → IsFileOf tables.old name.now id file →
        IsPending (length_needs (tables_now tables.old) id file.length length)
        (length_needs (tables_now tables.old) id file.length length).records tables.old tables.new result }
    ensures same { OnErr result (tables_now tables.new ≡ tables_now tables.old) }
    ensures inside { OnOk result (inside_now tables.new ≡ inside_resized name.now length (inside_now tables.old)) }
    ensures err_inside { OnErr result (inside_now tables.new ≡ inside_now tables.old) }
    ensures resized { (id : ℕ) (file : FileRecord) → IsFileOf tables.old name.now id file →
        OnOk result (tables_now tables.new ≡ resized_in id file length (tables_now tables.old)) }
{
    let (id, file) = find_file(tables, name)?;
    if length > MOST_BYTES_OF_A_FILE {
        return Err(Fault::TooLarge(MOST_BYTES_OF_A_FILE));
    }
    let records = records_of_length(tables, id, file.length, length);
    make_room(tables, false, 0, records, 0)?;
    resize(tables, id, file, length);
    Ok(())
}
