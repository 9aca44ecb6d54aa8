// Entries of the map of a base are checked.
ghost use Rattle.std.specs.Prelude.{◌≡◌, ◌↔◌, ◌≤◌, ◌+◌, ◌*◌, ◌/◌, ◌%◌, length, take, drop, IsTrue, IfSome};
ghost use Rattle.stream_map.specs.Entries.{entry_of};
ghost use Rattle.stream_map.specs.Pieces.{entries_in};
ghost use Rattle.volume_inside.specs.declared.chunk_rules.TheConstants.{ENTRY_BYTES, MOST_CHUNK_BYTES, MOST_MAP_BYTES};
ghost use Rattle.volume_inside.specs.ChunkRules.{EntryHolds};
ghost use Rattle.row_reading.specs.Reading.{IsSum};

use crate::chunk_disk::ChunkDisk;
use stream_map::laws::entries_of_joined_bytes;
use stream_map::{ENTRY_BYTES, Entry, MOST_LENGTH, decode_entry};
use volume_inside::DATA_ROW;

/// Whether an entry has a lawful length and names a row of data of that length.
fn entry_holds<D: ChunkDisk>(disk: &D, entry: Entry) -> bool
    ensures { IsTrue result ↔ EntryHolds (D.chunks disk.now).rows entry }
{
    match disk.get_row(entry.id) {
        Some(row) => {
            let lawful = entry.length >= 1 && entry.length <= MOST_LENGTH;
            lawful && row.kind == DATA_ROW && entry.length == row.length
        }
        None => false,
    }
}

/// The entry of this number, counted from 0.
pub(crate) fn entry_at(bytes: &[u8], index: usize) -> Entry
    requires { ENTRY_BYTES * index + ENTRY_BYTES ≤ length bytes.now }
    ensures { result ≡ entry_of (take ENTRY_BYTES (drop (ENTRY_BYTES * index) bytes.now)) }
{
    let rest = &bytes[ENTRY_BYTES * index..];
    decode_entry(rest.first_chunk().unwrap())
}

/// The sum of the lengths of entries, if each of them holds.
pub(crate) fn sum_of<D: ChunkDisk>(disk: &D, bytes: &[u8]) -> Option<u64>
    requires whole { length bytes.now % ENTRY_BYTES ≡ 0 }
    requires few { length bytes.now ≤ MOST_MAP_BYTES }
    ensures is { IsSum (D.chunks disk.now).rows (entries_in bytes.now) result }
    ensures most { IfSome result (λ sum. sum ≤ MOST_CHUNK_BYTES * (length bytes.now / ENTRY_BYTES)) }
{
    entries_of_joined_bytes();
    let mut sum = 0;
    for index in 0..bytes.len() / ENTRY_BYTES {
        let entry = entry_at(bytes, index);
        if !entry_holds(disk, entry) {
            return None;
        }
        sum += u64::from(entry.length);
    }
    Some(sum)
}
