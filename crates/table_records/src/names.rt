//! The table of names.

ghost use Rattle.std.specs.Prelude.{◌≡◌, ◌≤◌, ◌+◌, ◌++◌, ◌∷◌, IsTrue, length, take, drop, Some, option_map};
ghost use Rattle.table_records.specs.declared.limits.TheConstants.{MOST_NAME_KEY_BYTES, MOST_VALUE_BYTES};
ghost use Rattle.groundwork.specs.declared.limits.TheConstants.{MOST_NAME_BYTES};
ghost use Rattle.table_records.specs.Tables.{name_codec};

use crate::numbers::u64_at;
use byteorder::{BigEndian, ByteOrder};

/// The names, table 2: a key is a name, a value the id of its file. Keys are borrowed bytes, so it is no
/// [`Table`](crate::Table), but has calls like those.
pub struct NameTable;

impl NameTable {
    /// The number of the table, with which each of its keys begins.
    pub const NUMBER: u8 = 2;

    /// Spells the key of a name at the front of `out`, and answers how many bytes it has. A name has at most
    /// [`MOST_NAME_BYTES`](crate::MOST_NAME_BYTES), and `out` needs
    /// [`MOST_NAME_KEY_BYTES`](crate::MOST_NAME_KEY_BYTES).
    pub fn write_key(name: &[u8], out: &mut [u8]) -> usize
        requires room { MOST_NAME_KEY_BYTES ≤ length out.old }
        requires short { length name.now ≤ MOST_NAME_BYTES }
        ensures size { result ≡ length name.now + 1 }
        ensures spelled { name_codec.read_key (take result out.new) ≡ Some name.now }
    {
        put_name(out, name);
        name.len() + 1
    }

    /// The name that bytes spell, or None where they are no key of this table.
    pub fn read_key(bytes: &[u8]) -> Option<&[u8]>
        ensures { option_map (λ name. name.now) result ≡ name_codec.read_key bytes.now }
    {
        if bytes.len() > 0 && bytes[0] == Self::NUMBER {
            Some(&bytes[1..])
        } else {
            None
        }
    }

    /// Spells the id of a file at the front of `out`, and answers how many bytes it has: eight.
    pub fn write_value(id: u64, out: &mut [u8]) -> usize
        requires { MOST_VALUE_BYTES ≤ length out.old }
        ensures short { result ≤ MOST_VALUE_BYTES }
        ensures whole { IsTrue (name_codec.is_value (take result out.new)) }
        ensures spelled { name_codec.read_value (take result out.new) ≡ id }
    {
        BigEndian::write_u64(out, id);
        8
    }

    /// The id that bytes spell. Where they are no value of this table, it is some id all the same.
    pub fn read_value(bytes: &[u8]) -> u64
        ensures { result ≡ name_codec.read_value bytes.now }
    {
        u64_at(bytes, 0)
    }

    /// Whether bytes are a value of this table.
    pub fn is_value(bytes: &[u8]) -> bool
        ensures { result ≡ name_codec.is_value bytes.now }
    {
        bytes.len() == 8
    }
}

fn put_name(out: &mut [u8], name: &[u8])
    requires room { MOST_NAME_KEY_BYTES ≤ length out.old }
    requires short { length name.now ≤ MOST_NAME_BYTES }
    ensures { out.new ≡ (2 ∷ name.now) ++ drop (length name.now + 1) out.old }
{
    out[0] = NameTable::NUMBER;
    out[1..name.len() + 1].copy_from_slice(name);
}
