//! An entry of a stream map, and its bytes.

ghost use Rattle.std.specs.Prelude.{◌≡◌};
ghost use Rattle.stream_map.specs.Entries.{bytes_of, entry_of};

use crate::limits::ENTRY_BYTES;
use byteorder::{BigEndian, ByteOrder};

/// One piece of a file: the chunk that holds its bytes, and their number.
#[derive(Clone, Copy, Debug)]
pub struct Entry {
    pub id: u64,
    /// In bytes.
    pub length: u32,
}

/// The bytes of an entry: its id, then its length, both big-endian.
pub fn encode_entry(entry: Entry) -> [u8; ENTRY_BYTES]
    ensures spelled { result ≡ bytes_of entry }
    ensures read_back { entry_of result ≡ entry }
{
    let mut bytes = [0; ENTRY_BYTES];
    BigEndian::write_u64(&mut bytes, entry.id);
    BigEndian::write_u32(&mut bytes[8..], entry.length);
    bytes
}

/// The entry that bytes spell. Any twelve bytes spell one, which need not be lawful in a map.
pub fn decode_entry(bytes: &[u8; ENTRY_BYTES]) -> Entry
    ensures read { result ≡ entry_of bytes.now }
    ensures spelled_again { bytes_of result ≡ bytes.now }
{
    read_entry(bytes)
}

fn read_entry(bytes: &[u8; ENTRY_BYTES]) -> Entry
    ensures { result ≡ entry_of bytes.now }
{
    Entry {
        id: BigEndian::read_u64(bytes),
        length: BigEndian::read_u32(&bytes[8..]),
    }
}
