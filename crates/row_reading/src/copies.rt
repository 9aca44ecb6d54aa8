// Copies of rows that have the digest of their row.
ghost use Rattle.std.specs.Prelude.{◌≡◌, ◌↔◌, ◌≤◌, ◌+◌, length, Some, None, IsSome, IsTrue, IfOk, OnErr};
ghost use Rattle.std.specs.Ordering.{nat_cmp};
ghost use Rattle.std.specs.FinMap.{find};
ghost use Rattle.sha2.specs.Sha256.{sha256};
ghost use Rattle.vdisk.specs.Causes.{Rose};
ghost use Rattle.vdisk.specs.Ranges.{part};
ghost use Rattle.table_records.specs.Keys.{pair_cmp};
ghost use Rattle.volume_inside.specs.Chunks.{if_sound, chunk, chunks_at};
ghost use Rattle.volume_inside.specs.Pages.{used_of, content};
ghost use Rattle.row_reading.specs.BaseReads.{ReadsAlone, bytes_of_text, IsTextWithin};
ghost use Rattle.row_reading.specs.Reading.{HasContent, IsReadable, IsPicked, IsTextOf, LiesIfSome, bytes_if_some};

use crate::chunk_disk::ChunkDisk;
use crate::content::read_content;
use sha2::{Digest, Sha256};
use table_records::{Place, Row};
use vdisk::Failed;

/// Where the bytes of a chunk lie.
#[derive(Clone, Copy)]
pub(crate) struct Text {
    pub place: Place,
    /// In bytes.
    pub length: u32,
}

/// How many bytes are hashed at once.
const PIECE_BYTES: u32 = 16_384;

/// The SHA-256 of so many bytes of a container from a place in it on.
fn hash_content<D: ChunkDisk>(
    disk: &mut D,
    container: u64,
    at: u32,
    size: u32,
) -> Result<[u8; 32], Failed>
    requires content { HasContent (D.chunks disk.old) (D.image disk.old) container }
    requires within { at + size ≤ used_of (D.chunks disk.old).containers container }
    ensures is { D.tells disk.old → IfOk result (λ found. found ≡ sha256
        (part at size (content (D.chunks disk.old) container (D.image disk.old)))) }
    ensures chunks { D.chunks disk.new ≡ D.chunks disk.old }
    ensures image { D.image disk.new ≡ D.image disk.old }
    ensures tells { D.tells disk.old → D.tells disk.new }
    ensures from { D.is_from disk.old disk.new }
    ensures later { D.faults disk.old ≤ D.faults disk.new }
    ensures failed { OnErr result (Rose (D.faults disk.old) (D.faults disk.new)) }
{
    let mut hasher = Sha256::new();
    let mut buffer = [0; PIECE_BYTES as usize];
    let mut done = 0;
    while done < size {
        let count = (size - done).min(PIECE_BYTES);
        let piece = &mut buffer[..count as usize];
        read_content(disk, container, at + done, piece)?;
        hasher.update(&*piece);
        done += count;
    }
    Ok(hasher.finalize())
}

/// Whether so many bytes of a container from a place in it on have this SHA-256.
fn has_digest<D: ChunkDisk>(
    disk: &mut D,
    container: u64,
    at: u32,
    size: u32,
    digest: &[u8; 32],
) -> Result<bool, Failed>
    requires content { HasContent (D.chunks disk.old) (D.image disk.old) container }
    requires within { at + size ≤ used_of (D.chunks disk.old).containers container }
    ensures is { D.tells disk.old → IfOk result (λ sound. IsTrue sound ↔ (sha256
        (part at size (content (D.chunks disk.old) container (D.image disk.old))) ≡ digest.now)) }
    ensures chunks { D.chunks disk.new ≡ D.chunks disk.old }
    ensures image { D.image disk.new ≡ D.image disk.old }
    ensures tells { D.tells disk.old → D.tells disk.new }
    ensures from { D.is_from disk.old disk.new }
    ensures later { D.faults disk.old ≤ D.faults disk.new }
    ensures failed { OnErr result (Rose (D.faults disk.old) (D.faults disk.new)) }
{
    let found = hash_content(disk, container, at, size)?;
    Ok(found == *digest)
}

/// The place of a copy, if it has the digest of its row.
fn sound_copy<D: ChunkDisk>(
    disk: &mut D,
    id: u64,
    copy: u8,
    row: &Row,
) -> Result<Option<Place>, Failed>
    requires there { find nat_cmp id (D.chunks disk.old).rows ≡ Some row.now }
    requires readable { IsReadable (D.chunks disk.old) (D.image disk.old) }
    ensures is { D.tells disk.old → IfOk result (λ place. if_sound row.now.digest
        (find pair_cmp (id, copy) (chunks_at (D.chunks disk.old) (D.image disk.old)).copies)
        ≡ bytes_if_some (D.chunks disk.old) (D.image disk.old) row.now place) }
    ensures lies { IfOk result (LiesIfSome (D.chunks disk.old) row.now) }
    ensures chunks { D.chunks disk.new ≡ D.chunks disk.old }
    ensures image { D.image disk.new ≡ D.image disk.old }
    ensures tells { D.tells disk.old → D.tells disk.new }
    ensures from { D.is_from disk.old disk.new }
    ensures later { D.faults disk.old ≤ D.faults disk.new }
    ensures failed { OnErr result (Rose (D.faults disk.old) (D.faults disk.new)) }
{
    match disk.get_place((id, copy)) {
        None => Ok(None),
        Some(place) => {
            if has_digest(disk, place.container, place.offset, row.length, &row.digest)? {
                Ok(Some(place))
            } else {
                Ok(None)
            }
        }
    }
}

/// The place of the first copy, 0 and then 1, that has the digest of its row.
pub(crate) fn sound_place<D: ChunkDisk>(
    disk: &mut D,
    id: u64,
    row: &Row,
) -> Result<Option<Place>, Failed>
    requires there { find nat_cmp id (D.chunks disk.old).rows ≡ Some row.now }
    requires readable { IsReadable (D.chunks disk.old) (D.image disk.old) }
    ensures is { D.tells disk.old → IfOk result (IsPicked (D.chunks disk.old) (D.image disk.old) id row.now) }
    ensures lies { IfOk result (LiesIfSome (D.chunks disk.old) row.now) }
    ensures chunks { D.chunks disk.new ≡ D.chunks disk.old }
    ensures image { D.image disk.new ≡ D.image disk.old }
    ensures tells { D.tells disk.old → D.tells disk.new }
    ensures from { D.is_from disk.old disk.new }
    ensures later { D.faults disk.old ≤ D.faults disk.new }
    ensures failed { OnErr result (Rose (D.faults disk.old) (D.faults disk.new)) }
{
    let first = sound_copy(disk, id, 0, row)?;
    if first.is_some() {
        return Ok(first);
    }
    sound_copy(disk, id, 1, row)
}

/// The row, with its id, whose copies a row reads: itself, or the row that stands for it.
pub(crate) fn text_of<D: ChunkDisk>(disk: &D, id: u64) -> (u64, Row)
    requires there { IsSome (find nat_cmp id (D.chunks disk.now).rows) }
    requires readable { IsReadable (D.chunks disk.now) (D.image disk.now) }
    ensures { IsTextOf (D.chunks disk.now) (D.image disk.now) id result.0 result.1 }
{
    let row = disk.get_row(id).unwrap();
    if row.redirect == 0 {
        return (id, row);
    }
    (row.redirect, disk.get_row(row.redirect).unwrap())
}

/// Where the bytes of a row's chunk lie, if it is not lost. Each copy is hashed once at most.
pub(crate) fn find_text<D: ChunkDisk>(disk: &mut D, id: u64) -> Result<Option<Text>, Failed>
    requires readable { IsReadable (D.chunks disk.old) (D.image disk.old) }
    ensures is { D.tells disk.old → IfOk result (λ text. chunk (chunks_at (D.chunks disk.old) (D.image disk.old)) id
        ≡ bytes_of_text (D.chunks disk.old) (D.image disk.old) text) }
    ensures lies { IfOk result (IsTextWithin (D.chunks disk.old)) }
    ensures reads { ReadsAlone ⟦<D as ChunkDisk>⟧ disk.old disk.new }
    ensures failed { OnErr result (Rose (D.faults disk.old) (D.faults disk.new)) }
{
    if disk.get_row(id).is_none() {
        return Ok(None);
    }
    let (own, row) = text_of(disk, id);
    match sound_place(disk, own, &row)? {
        None => Ok(None),
        Some(place) => {
            let length = row.length;
            Ok(Some(Text { place, length }))
        }
    }
}
