// Bases of files are checked.
ghost use Rattle.std.specs.Prelude.{◌≡◌, ◌⊎◌, ◌↔◌, ◌≤◌, ◌+◌, ℕ, Some, IsOk, IsTrue, IsErrOf, IfOk, OnErr};
ghost use Rattle.vdisk.specs.Causes.{Rose};
ghost use Rattle.vdisk.specs.Ranges.{part};
ghost use Rattle.volume_inside.specs.ChunkRules.{MapHolds, BaseHolds};
ghost use Rattle.volume_inside.specs.Chunks.{chunk, chunks_at};
ghost use Rattle.volume_inside.specs.Pages.{used_of, content};
ghost use Rattle.row_reading.specs.Reading.{HasContent, IsReadable};

use crate::chunk_disk::ChunkDisk;
use crate::content::read_content;
use crate::copies::find_text;
use crate::entries::sum_of;
use crate::fault::BaseFault;
use stream_map::ENTRY_BYTES;
use stream_map::laws::entries_of_joined_bytes;
use table_records::FileRecord;
use vdisk::Failed;

/// How many entries are read at once.
const PIECE_ENTRIES: u32 = 1_024;

/// Whether the map that stands in a container meets the rule of maps.
fn map_holds<D: ChunkDisk>(
    disk: &mut D,
    container: u64,
    at: u32,
    size: u32,
    covers: u64,
) -> Result<bool, Failed>
    requires content { HasContent (D.chunks disk.old) (D.image disk.old) container }
    requires within { at + size ≤ used_of (D.chunks disk.old).containers container }
    ensures is { D.tells disk.old → IfOk result (λ holds. IsTrue holds ↔ MapHolds (D.chunks disk.old).rows covers
        (Some (part at size (content (D.chunks disk.old) container (D.image disk.old))))) }
    ensures chunks { D.chunks disk.new ≡ D.chunks disk.old }
    ensures image { D.image disk.new ≡ D.image disk.old }
    ensures tells { D.tells disk.old → D.tells disk.new }
    ensures from { D.is_from disk.old disk.new }
    ensures later { D.faults disk.old ≤ D.faults disk.new }
    ensures failed { OnErr result (Rose (D.faults disk.old) (D.faults disk.new)) }
{
    entries_of_joined_bytes();
    let mut buffer = [0; ENTRY_BYTES * PIECE_ENTRIES as usize];
    let entries = size / ENTRY_BYTES as u32;
    let mut sum = 0;
    let mut done = 0;
    while done < entries {
        let count = (entries - done).min(PIECE_ENTRIES);
        let piece = &mut buffer[..ENTRY_BYTES * count as usize];
        read_content(disk, container, at + ENTRY_BYTES as u32 * done, piece)?;
        match sum_of(disk, &*piece) {
            Some(more) => sum += more,
            None => return Ok(false),
        }
        done += count;
    }
    Ok(covers <= sum)
}

/// Whether the map of this row meets the rule of maps, or is lost.
fn row_holds<D: ChunkDisk>(disk: &mut D, id: u64, covers: u64) -> Result<bool, Failed>
    requires readable { IsReadable (D.chunks disk.old) (D.image disk.old) }
    ensures is { D.tells disk.old → IfOk result (λ holds. IsTrue holds ↔ MapHolds (D.chunks disk.old).rows covers
        (chunk (chunks_at (D.chunks disk.old) (D.image disk.old)) id)) }
    ensures chunks { D.chunks disk.new ≡ D.chunks disk.old }
    ensures image { D.image disk.new ≡ D.image disk.old }
    ensures tells { D.tells disk.old → D.tells disk.new }
    ensures from { D.is_from disk.old disk.new }
    ensures later { D.faults disk.old ≤ D.faults disk.new }
    ensures failed { OnErr result (Rose (D.faults disk.old) (D.faults disk.new)) }
{
    match find_text(disk, id)? {
        None => Ok(true),
        Some(text) => {
            let place = text.place;
            map_holds(disk, place.container, place.offset, text.length, covers)
        }
    }
}

/// Checks the rule of maps of one file. The fault is `Broken` where a file with a base has a map that is not lost and
/// breaks the rule. The map is hashed once. It takes no memory.
pub fn check_base<D: ChunkDisk>(disk: &mut D, file: FileRecord) -> Result<(), BaseFault>
    requires readable { IsReadable (D.chunks disk.old) (D.image disk.old) }
    ensures held { D.tells disk.old → (id : ℕ) → IsOk result →
        BaseHolds (chunks_at (D.chunks disk.old) (D.image disk.old)) id file }
    ensures broken { D.tells disk.old → (id : ℕ) → IsErrOf result BaseFault.Broken →
        BaseHolds (chunks_at (D.chunks disk.old) (D.image disk.old)) id file → ⊥ }
    ensures refused { OnErr result (IsErrOf result BaseFault.Broken ⊎ (IsErrOf result BaseFault.Failed ×
        Rose (D.faults disk.old) (D.faults disk.new))) }
    ensures chunks { D.chunks disk.new ≡ D.chunks disk.old }
    ensures image { D.image disk.new ≡ D.image disk.old }
    ensures tells { D.tells disk.old → D.tells disk.new }
    ensures from { D.is_from disk.old disk.new }
    ensures later { D.faults disk.old ≤ D.faults disk.new }
{
    if file.covers == 0 {
        return Ok(());
    }
    match row_holds(disk, file.map_row, file.covers) {
        Ok(true) => Ok(()),
        Ok(false) => Err(BaseFault::Broken),
        Err(_) => Err(BaseFault::Failed),
    }
}
