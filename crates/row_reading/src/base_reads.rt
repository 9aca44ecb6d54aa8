// The cells that the base of a file gives are read.
ghost use Rattle.std.specs.Prelude.{◌≡◌, ◌≤◌, ◌<◌, ◌+◌, ◌*◌, ◌/◌, ◌%◌, ◌^◌, ◌-◌, ℕ, length, slice_index, IfOk, OnOk, OnErr, IsErrOf, Some};
ghost use Rattle.vdisk.specs.Causes.{Rose};
ghost use Rattle.volume_inside.specs.declared.chunk_rules.TheConstants.{ENTRY_BYTES};
ghost use Rattle.stream_map.specs.Pieces.{entries_in, total_length};
ghost use Rattle.volume_inside.specs.Bases.{base_cell};
ghost use Rattle.volume_inside.specs.BaseCells.{piece_cell, map_cell};
ghost use Rattle.volume_inside.specs.Chunks.{chunk, chunks_at};
ghost use Rattle.row_reading.specs.BaseReads.{ReadsAlone, AreRead, AreReadFrom, IsKeptBefore, IsFirstLost, IsIn, cell_from, AreCellsOf, bytes_of_text, IsTextWithin};
ghost use Rattle.row_reading.specs.Reading.{IsReadable};

use crate::chunk_disk::ChunkDisk;
use crate::content::read_content;
use crate::copies::{Text, find_text, text_of};
use crate::entries::entry_at;
use crate::fault::CellFault;
use crate::reading::read_found;
use crate::wanted::Wanted;
use stream_map::laws::{
    each_offset_has_its_entry, entries_of_joined_bytes, pieces_of_joined_lists,
};
use stream_map::{ENTRY_BYTES, Entry};
use table_records::FileRecord;
use vdisk::Failed;

/// How many entries are read at once.
const READ_ENTRIES: u32 = 1_024;

/// Writes zeros from an index on.
fn clear_from(out: &mut [u8], from: usize)
    requires { from ≤ length out.old }
    ensures before { (k : ℕ) → k < from → slice_index out.new k ≡ slice_index out.old k }
    ensures behind { (k : ℕ) → from ≤ k → slice_index out.new k ≡ 0 }
{
    out[from..].fill(0);
}

/// Reads bytes of a row's chunk from an offset in it on, and zeros behind its end, and says whether there is a chunk: it
/// is lost where there is no such row, or where no copy has the digest. After a refusal `out` may hold anything.
fn read_chunk<D: ChunkDisk>(
    disk: &mut D,
    id: u64,
    from: u32,
    out: &mut [u8],
) -> Result<bool, Failed>
    requires readable { IsReadable (D.chunks disk.old) (D.image disk.old) }
    ensures is { D.tells disk.old → IfOk result (λ found.
        AreCellsOf (chunk (chunks_at (D.chunks disk.old) (D.image disk.old)) id) from found out.new) }
    ensures reads { ReadsAlone ⟦<D as ChunkDisk>⟧ disk.old disk.new }
    ensures failed { OnErr result (Rose (D.faults disk.old) (D.faults disk.new)) }
{
    if disk.get_row(id).is_none() {
        return Ok(false);
    }
    let (own, row) = text_of(disk, id);
    let start = from.min(row.length);
    let count = ((row.length - start) as usize).min(out.len());
    if !read_found(disk, own, &row, start, &mut out[..count])? {
        return Ok(false);
    }
    clear_from(out, count);
    Ok(true)
}

/// Reads what of a piece lies in the range that `out` stands for, which begins at `at`. The piece begins at `begin`.
fn read_piece<D: ChunkDisk, W: Wanted<D>>(
    disk: &mut D,
    wanted: &W,
    entry: Entry,
    begin: u64,
    at: u64,
    out: &mut [u8],
) -> Result<(), CellFault>
    requires readable { IsReadable (D.chunks disk.old) (D.image disk.old) }
    requires piece { begin + entry.length < 2 ^ 64 }
    requires range { at + length out.old < 2 ^ 64 }
    ensures read { D.tells disk.old → OnOk result (AreRead
        (λ p. piece_cell (chunk (chunks_at (D.chunks disk.old) (D.image disk.old)) entry.id) (p - begin))
        (W.is_wanted wanted.now disk.old) begin (begin + entry.length) at out.new) }
    ensures kept { IsKeptBefore begin at out.old out.new }
    ensures lost { D.tells disk.old → (q : ℕ) → IsErrOf result (CellFault.Lost q) → IsFirstLost
        (λ p. piece_cell (chunk (chunks_at (D.chunks disk.old) (D.image disk.old)) entry.id) (p - begin))
        (IsIn (W.is_wanted wanted.now disk.old) at (length out.old)) begin (begin + entry.length) q }
    ensures reads { ReadsAlone ⟦<D as ChunkDisk>⟧ disk.old disk.new }
    ensures failed { IsErrOf result CellFault.Failed → Rose (D.faults disk.old) (D.faults disk.new) }
{
    let from = begin.max(at);
    let to = (begin + u64::from(entry.length)).min(at + out.len() as u64);
    if to <= from {
        return Ok(());
    }
    let Some(first) = wanted.first_wanted(disk, from, to) else {
        return Ok(());
    };
    let piece = &mut out[(from - at) as usize..(to - at) as usize];
    match read_chunk(disk, entry.id, (from - begin) as u32, piece) {
        Ok(true) => Ok(()),
        Ok(false) => Err(CellFault::Lost(first)),
        Err(_) => Err(CellFault::Failed),
    }
}

/// Reads what of the pieces of entries lies in the range that `out` stands for, which begins at `at`, and says where the
/// pieces end. The first begins at `begin`.
fn read_pieces<D: ChunkDisk, W: Wanted<D>>(
    disk: &mut D,
    wanted: &W,
    bytes: &[u8],
    begin: u64,
    at: u64,
    out: &mut [u8],
) -> Result<u64, CellFault>
    requires readable { IsReadable (D.chunks disk.old) (D.image disk.old) }
    requires whole { length bytes.now % ENTRY_BYTES ≡ 0 }
    requires pieces { begin + 2 ^ 32 * (length bytes.now / ENTRY_BYTES) < 2 ^ 63 }
    requires range { at + length out.old < 2 ^ 64 }
    ensures read { D.tells disk.old → IfOk result (λ next. AreRead
        (cell_from (chunks_at (D.chunks disk.old) (D.image disk.old)) (entries_in bytes.now) begin)
        (W.is_wanted wanted.now disk.old) begin next at out.new) }
    ensures next { IfOk result (λ next. next ≡ begin + total_length (entries_in bytes.now)) }
    ensures most { IfOk result (λ next. next ≤ begin + 2 ^ 32 * (length bytes.now / ENTRY_BYTES)) }
    ensures kept { IsKeptBefore begin at out.old out.new }
    ensures lost { D.tells disk.old → (q : ℕ) → IsErrOf result (CellFault.Lost q) → IsFirstLost
        (cell_from (chunks_at (D.chunks disk.old) (D.image disk.old)) (entries_in bytes.now) begin)
        (IsIn (W.is_wanted wanted.now disk.old) at (length out.old))
        begin (begin + total_length (entries_in bytes.now)) q }
    ensures reads { ReadsAlone ⟦<D as ChunkDisk>⟧ disk.old disk.new }
    ensures failed { IsErrOf result CellFault.Failed → Rose (D.faults disk.old) (D.faults disk.new) }
{
    entries_of_joined_bytes();
    each_offset_has_its_entry();
    let mut next = begin;
    for index in 0..bytes.len() / ENTRY_BYTES {
        let entry = entry_at(bytes, index);
        read_piece(disk, wanted, entry, next, at, out)?;
        next += u64::from(entry.length);
    }
    Ok(next)
}

/// Reads the cells of a map, whose bytes lie at this place, in the range that `out` stands for, which begins at `at`.
fn read_map<D: ChunkDisk, W: Wanted<D>>(
    disk: &mut D,
    wanted: &W,
    text: Text,
    at: u64,
    out: &mut [u8],
) -> Result<(), CellFault>
    requires readable { IsReadable (D.chunks disk.old) (D.image disk.old) }
    requires within { IsTextWithin (D.chunks disk.old) (Some text) }
    requires range { at + length out.old < 2 ^ 64 }
    ensures read { D.tells disk.old → OnOk result (AreReadFrom
        (map_cell (chunks_at (D.chunks disk.old) (D.image disk.old))
        (bytes_of_text (D.chunks disk.old) (D.image disk.old) (Some text)))
        (W.is_wanted wanted.now disk.old) at out.new) }
    ensures lost { D.tells disk.old → (q : ℕ) → IsErrOf result (CellFault.Lost q) → IsFirstLost
        (map_cell (chunks_at (D.chunks disk.old) (D.image disk.old))
        (bytes_of_text (D.chunks disk.old) (D.image disk.old) (Some text)))
        (W.is_wanted wanted.now disk.old) at (at + length out.old) q }
    ensures reads { ReadsAlone ⟦<D as ChunkDisk>⟧ disk.old disk.new }
    ensures failed { IsErrOf result CellFault.Failed → Rose (D.faults disk.old) (D.faults disk.new) }
{
    entries_of_joined_bytes();
    pieces_of_joined_lists();
    each_offset_has_its_entry();
    let mut buffer = [0; ENTRY_BYTES * READ_ENTRIES as usize];
    let end = at + out.len() as u64;
    let entries = text.length / ENTRY_BYTES as u32;
    let mut begin = 0;
    let mut done = 0;
    while done < entries && begin < end {
        let count = (entries - done).min(READ_ENTRIES);
        let piece = &mut buffer[..ENTRY_BYTES * count as usize];
        let place = text.place.offset + ENTRY_BYTES as u32 * done;
        match read_content(disk, text.place.container, place, piece) {
            Ok(()) => begin = read_pieces(disk, wanted, &*piece, begin, at, out)?,
            Err(_) => return Err(CellFault::Failed),
        }
        done += count;
    }
    match wanted.first_wanted(disk, begin.max(at).min(end), end) {
        None => Ok(()),
        Some(first) => Err(CellFault::Lost(first)),
    }
}

/// Reads cells that the base of a file gives, from the place `at` of the file on: where a cell is wanted, its byte stands
/// in `out`; what stands for the others is not said. The map need not meet its rule.
///
/// Where no cell is wanted, nothing is read. Otherwise the map is hashed once, and then each piece that has a wanted cell
/// there is read, in the order of the file, each of its copies hashed once at most. It takes no memory.
///
/// The faults: `Failed`, or `Lost` with the place in the file of the first wanted cell that is lost. After either `out`
/// may hold anything.
pub fn read_base<D: ChunkDisk, W: Wanted<D>>(
    disk: &mut D,
    wanted: &W,
    file: FileRecord,
    at: u64,
    out: &mut [u8],
) -> Result<(), CellFault>
    requires readable { IsReadable (D.chunks disk.old) (D.image disk.old) }
    requires within { at + length out.old ≤ file.covers }
    ensures read { D.tells disk.old → OnOk result (AreReadFrom
        (base_cell (chunks_at (D.chunks disk.old) (D.image disk.old)) file)
        (W.is_wanted wanted.now disk.old) at out.new) }
    ensures lost { D.tells disk.old → (q : ℕ) → IsErrOf result (CellFault.Lost q) → IsFirstLost
        (base_cell (chunks_at (D.chunks disk.old) (D.image disk.old)) file)
        (W.is_wanted wanted.now disk.old) at (at + length out.old) q }
    ensures reads { ReadsAlone ⟦<D as ChunkDisk>⟧ disk.old disk.new }
    ensures failed { IsErrOf result CellFault.Failed → Rose (D.faults disk.old) (D.faults disk.new) }
{
    let end = at + out.len() as u64;
    let Some(first) = wanted.first_wanted(disk, at, end) else {
        return Ok(());
    };
    match find_text(disk, file.map_row) {
        Ok(Some(text)) => read_map(disk, wanted, text, at, out),
        Ok(None) => Err(CellFault::Lost(first)),
        Err(_) => Err(CellFault::Failed),
    }
}
