//! Entries of one table by their keys.

ghost use Rattle.std.specs.Prelude.{◌≡◌};
ghost use Rattle.std.specs.FinMap.Entries.{find};
ghost use Rattle.table_records.specs.Codecs.{typed};

use byte_map::ByteMap;
use table_records::{MOST_KEY_BYTES, Table};

/// The value of a key of a table.
pub(crate) fn get<T: Table>(map: &ByteMap, key: T::Key) -> Option<T::Value>
    ensures { result ≡ find T.codec.cmp key (typed T.codec map.now) }
{
    let mut spelled = [0u8; MOST_KEY_BYTES];
    let length = T::write_key(key, &mut spelled);
    match map.get(&spelled[..length]) {
        Some(bytes) => Some(T::read_value(bytes)),
        None => None,
    }
}
