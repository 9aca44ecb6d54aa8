//! Which pairs of the map are keys and values of the tables.

ghost use Rattle.std.specs.Prelude.{◌≡◌, ◌↔◌, IsTrue};
ghost use Rattle.table_records.specs.Tables.{name_codec, settings_codec, shape_of};
ghost use Rattle.table_records.specs.WellFormed.{IsWellFormed, is_of};

use crate::chunk_tables::{ClusterTable, ContainerTable, PlaceTable, RowTable};
use crate::names::NameTable;
use crate::settings::Settings;
use crate::table::Table;
use crate::tables::{ExtentTable, FileTable, ResultTable, VolumeTable};

/// Whether bytes are a key and a value of one of the tables: the key begins with the number of a table, and both have
/// the lengths that the table states.
pub fn is_well_formed(key: &[u8], value: &[u8]) -> bool
    ensures { IsTrue result ↔ IsWellFormed key.now value.now }
{
    is_pair_of::<VolumeTable>(key, value)
        || is_name(key, value)
        || is_pair_of::<FileTable>(key, value)
        || is_pair_of::<ExtentTable>(key, value)
        || is_pair_of::<RowTable>(key, value)
        || is_pair_of::<PlaceTable>(key, value)
        || is_pair_of::<ContainerTable>(key, value)
        || is_pair_of::<ClusterTable>(key, value)
        || are_settings(key, value)
        || is_pair_of::<ResultTable>(key, value)
}

/// Whether bytes are a key and a value of this table.
pub fn is_pair_of<T: Table>(key: &[u8], value: &[u8]) -> bool
    ensures { result ≡ is_of (shape_of T.codec) key.now value.now }
{
    T::read_key(key).is_some() && T::is_value(value)
}

fn is_name(key: &[u8], value: &[u8]) -> bool
    ensures { result ≡ is_of (shape_of name_codec) key.now value.now }
{
    NameTable::read_key(key).is_some() && NameTable::is_value(value)
}

fn are_settings(key: &[u8], value: &[u8]) -> bool
    ensures { result ≡ is_of (shape_of settings_codec) key.now value.now }
{
    Settings::is_key(key) && Settings::is_value(value)
}
