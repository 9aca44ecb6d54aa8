// Rows are read.
ghost use Rattle.std.specs.Prelude.{◌≡◌, ◌⊎◌, ◌≤◌, ◌+◌, length, Some, None, IsSome, IsErrOf, IfOk, OnOk, OnErr};
ghost use Rattle.std.specs.Ordering.{nat_cmp};
ghost use Rattle.std.specs.FinMap.{find};
ghost use Rattle.vdisk.specs.Causes.{Rose};
ghost use Rattle.table_records.specs.Keys.{pair_cmp};
ghost use Rattle.volume_inside.specs.Chunks.{if_sound, own_chunk, chunk, chunks_at, length_of};
ghost use Rattle.row_reading.specs.Reading.{IsReadable, IsRangeOf, IsFoundOf};

use crate::chunk_disk::ChunkDisk;
use crate::content::read_content;
use crate::copies::{sound_place, text_of};
use crate::fault::RowFault;
use sha2::{Digest, Sha256};
use table_records::Row;
use vdisk::Failed;

/// Reads a whole copy of a row, and says whether it has the digest of the row.
fn read_copy<D: ChunkDisk>(
    disk: &mut D,
    id: u64,
    copy: u8,
    row: &Row,
    out: &mut [u8],
) -> Result<bool, Failed>
    requires there { find nat_cmp id (D.chunks disk.old).rows ≡ Some row.now }
    requires readable { IsReadable (D.chunks disk.old) (D.image disk.old) }
    requires whole { length out.old ≡ row.now.length }
    ensures bytes { D.tells disk.old → IfOk result (λ sound. IsFoundOf (if_sound row.now.digest
        (find pair_cmp (id, copy) (chunks_at (D.chunks disk.old) (D.image disk.old)).copies))
        0 (length out.old) sound out.new) }
    ensures chunks { D.chunks disk.new ≡ D.chunks disk.old }
    ensures image { D.image disk.new ≡ D.image disk.old }
    ensures tells { D.tells disk.old → D.tells disk.new }
    ensures from { D.is_from disk.old disk.new }
    ensures later { D.faults disk.old ≤ D.faults disk.new }
    ensures failed { OnErr result (Rose (D.faults disk.old) (D.faults disk.new)) }
{
    match disk.get_place((id, copy)) {
        None => Ok(false),
        Some(place) => {
            read_content(disk, place.container, place.offset, out)?;
            Ok(Sha256::digest(&*out) == row.digest)
        }
    }
}

/// Reads the first copy of a row, 0 and then 1, that has its digest, and says whether there is one.
fn read_whole<D: ChunkDisk>(
    disk: &mut D,
    id: u64,
    row: &Row,
    out: &mut [u8],
) -> Result<bool, Failed>
    requires there { find nat_cmp id (D.chunks disk.old).rows ≡ Some row.now }
    requires readable { IsReadable (D.chunks disk.old) (D.image disk.old) }
    requires whole { length out.old ≡ row.now.length }
    ensures bytes { D.tells disk.old → IfOk result (λ sound. IsFoundOf (own_chunk
        (chunks_at (D.chunks disk.old) (D.image disk.old)) id row.now) 0 (length out.old) sound out.new) }
    ensures chunks { D.chunks disk.new ≡ D.chunks disk.old }
    ensures image { D.image disk.new ≡ D.image disk.old }
    ensures tells { D.tells disk.old → D.tells disk.new }
    ensures from { D.is_from disk.old disk.new }
    ensures later { D.faults disk.old ≤ D.faults disk.new }
    ensures failed { OnErr result (Rose (D.faults disk.old) (D.faults disk.new)) }
{
    if read_copy(disk, id, 0, row, &mut *out)? {
        return Ok(true);
    }
    read_copy(disk, id, 1, row, out)
}

/// Reads bytes of the first copy of a row that has its digest, from a place in it on, and says whether there is one.
fn read_part<D: ChunkDisk>(
    disk: &mut D,
    id: u64,
    row: &Row,
    from: u32,
    out: &mut [u8],
) -> Result<bool, Failed>
    requires there { find nat_cmp id (D.chunks disk.old).rows ≡ Some row.now }
    requires readable { IsReadable (D.chunks disk.old) (D.image disk.old) }
    requires within { from + length out.old ≤ row.now.length }
    ensures bytes { D.tells disk.old → IfOk result (λ sound. IsFoundOf (own_chunk
        (chunks_at (D.chunks disk.old) (D.image disk.old)) id row.now) from (length out.old) sound out.new) }
    ensures chunks { D.chunks disk.new ≡ D.chunks disk.old }
    ensures image { D.image disk.new ≡ D.image disk.old }
    ensures tells { D.tells disk.old → D.tells disk.new }
    ensures from { D.is_from disk.old disk.new }
    ensures later { D.faults disk.old ≤ D.faults disk.new }
    ensures failed { OnErr result (Rose (D.faults disk.old) (D.faults disk.new)) }
{
    match sound_place(disk, id, row)? {
        None => Ok(false),
        Some(place) => {
            read_content(disk, place.container, place.offset + from, out)?;
            Ok(true)
        }
    }
}

/// Reads bytes of a row, as `read_row` does, and says whether a copy has the digest.
pub(crate) fn read_found<D: ChunkDisk>(
    disk: &mut D,
    id: u64,
    row: &Row,
    from: u32,
    out: &mut [u8],
) -> Result<bool, Failed>
    requires there { find nat_cmp id (D.chunks disk.old).rows ≡ Some row.now }
    requires readable { IsReadable (D.chunks disk.old) (D.image disk.old) }
    requires within { from + length out.old ≤ row.now.length }
    ensures bytes { D.tells disk.old → IfOk result (λ sound. IsFoundOf (own_chunk
        (chunks_at (D.chunks disk.old) (D.image disk.old)) id row.now) from (length out.old) sound out.new) }
    ensures chunks { D.chunks disk.new ≡ D.chunks disk.old }
    ensures image { D.image disk.new ≡ D.image disk.old }
    ensures tells { D.tells disk.old → D.tells disk.new }
    ensures from { D.is_from disk.old disk.new }
    ensures later { D.faults disk.old ≤ D.faults disk.new }
    ensures failed { OnErr result (Rose (D.faults disk.old) (D.faults disk.new)) }
{
    if from == 0 && out.len() == row.length as usize {
        read_whole(disk, id, row, out)
    } else {
        read_part(disk, id, row, from, out)
    }
}

/// Reads bytes of a row that is there, from a place in it on: those of its chunk, of the first copy, 0 and then 1, that
/// has the digest. The fault is `Lost` where no copy has it. Each copy is hashed once at most; where the whole row is
/// wanted, a copy is read once. After a refusal `out` may hold anything.
pub fn read_row<D: ChunkDisk>(
    disk: &mut D,
    id: u64,
    from: u32,
    out: &mut [u8],
) -> Result<(), RowFault>
    requires there { IsSome (find nat_cmp id (D.chunks disk.old).rows) }
    requires readable { IsReadable (D.chunks disk.old) (D.image disk.old) }
    requires within { from + length out.old ≤ length_of (D.chunks disk.old).rows id }
    ensures bytes { D.tells disk.old → OnOk result (IsRangeOf
        (chunk (chunks_at (D.chunks disk.old) (D.image disk.old)) id) from (length out.old) out.new) }
    ensures lost { D.tells disk.old → IsErrOf result (RowFault.Lost id) →
        chunk (chunks_at (D.chunks disk.old) (D.image disk.old)) id ≡ None }
    ensures refused { OnErr result (IsErrOf result (RowFault.Lost id) ⊎ (IsErrOf result RowFault.Failed ×
        Rose (D.faults disk.old) (D.faults disk.new))) }
    ensures chunks { D.chunks disk.new ≡ D.chunks disk.old }
    ensures image { D.image disk.new ≡ D.image disk.old }
    ensures tells { D.tells disk.old → D.tells disk.new }
    ensures from { D.is_from disk.old disk.new }
    ensures later { D.faults disk.old ≤ D.faults disk.new }
{
    let (own, row) = text_of(disk, id);
    match read_found(disk, own, &row, from, out) {
        Ok(true) => Ok(()),
        Ok(false) => Err(RowFault::Lost(id)),
        Err(_) => Err(RowFault::Failed),
    }
}
