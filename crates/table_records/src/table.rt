//! How the keys and values of a table are spelled.

ghost use Rattle.std.specs.Prelude.{◌≡◌, ◌≤◌, ◌<◌, ℕ, IsTrue, length, take, Some};
ghost use Rattle.table_records.specs.declared.limits.TheConstants.{MOST_KEY_BYTES, MOST_VALUE_BYTES};
ghost use Rattle.table_records.specs.Codecs.{Codec};

/// A table whose keys and values have few bytes: a key at most 32, a value at most 64. All numbers are big-endian,
/// and the first byte of a key is the number of the table.
pub trait Table {
    type Key: Copy;

    type Value: Copy;

    ghost codec: { Codec Self.Key Self.Value };

    ghost NUMBER: { ℕ };

    /// The number of the table, with which each of its keys begins.
    const NUMBER: u8;

    /// Spells a key at the front of `out`, and answers how many bytes it has. `out` needs
    /// [`MOST_KEY_BYTES`](crate::MOST_KEY_BYTES).
    fn write_key(key: Self::Key, out: &mut [u8]) -> usize
        requires { MOST_KEY_BYTES ≤ length out.old }
        ensures short { result ≤ MOST_KEY_BYTES }
        ensures spelled { codec.read_key (take result out.new) ≡ Some key };

    /// The key that bytes spell, or None where they are no key of this table.
    fn read_key(bytes: &[u8]) -> Option<Self::Key>
        ensures { result ≡ codec.read_key bytes.now };

    /// Spells a value at the front of `out`, and answers how many bytes it has. `out` needs
    /// [`MOST_VALUE_BYTES`](crate::MOST_VALUE_BYTES).
    fn write_value(value: Self::Value, out: &mut [u8]) -> usize
        requires { MOST_VALUE_BYTES ≤ length out.old }
        ensures short { result ≤ MOST_VALUE_BYTES }
        ensures whole { IsTrue (codec.is_value (take result out.new)) }
        ensures spelled { codec.read_value (take result out.new) ≡ value };

    /// The value that bytes spell. Where they are no value of this table, it is some value all the same.
    fn read_value(bytes: &[u8]) -> Self::Value
        ensures { result ≡ codec.read_value bytes.now };

    /// Whether bytes are a value of this table.
    fn is_value(bytes: &[u8]) -> bool
        ensures { result ≡ codec.is_value bytes.now };

    ghost numbered: { codec.number ≡ NUMBER };

    // A number stands above those of all tables: alone it ends the keys of the last one.
    ghost followed: { NUMBER < 255 };
}
