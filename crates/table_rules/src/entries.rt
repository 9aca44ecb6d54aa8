//! Rules on one entry of a table at a time.

ghost use Rattle.std.specs.Prelude.{◌≡◌, ◌↔◌, IsTrue, IsSome, ℕ};
ghost use Rattle.std.specs.Ordering.{nat_cmp};
ghost use Rattle.std.specs.FinMap.{find};
ghost use Rattle.table_records.specs.Tables.{name_codec, file_codec, extent_codec};
ghost use Rattle.volume_inside.specs.ChunkRules.{MapRowHolds};
ghost use Rattle.volume_inside.specs.Entries.{Each};
ghost use Rattle.volume_inside.specs.Typed.{typed_of};
ghost use Rattle.volume_inside.specs.Rules.{NameHolds, FileHolds, ExtentHolds, FilesHold, MapRowsHold, ExtentsHold, next_id_of};
ghost use Rattle.table_rules.specs.Pairs.{PairMeets};

use crate::lookup::get;
use crate::pairs::{PairRule, each};
use byte_map::ByteMap;
use plain_volume::name_is_lawful;
use table_records::{ExtentTable, FileTable, NameTable, RowTable, Table};
use volume_inside::{extent_holds, file_holds, map_row_holds};

/// A name is lawful, and its file is there.
#[derive(Drop)]
struct NameRule<'a> {
    map: &'a ByteMap,
}

impl<'a> PairRule for NameRule<'a> {
    ghost meets = { λ rule. PairMeets name_codec (NameHolds (typed_of rule.map.now).files) };

    fn holds(&self, key: &[u8], value: &[u8]) -> bool {
        match NameTable::read_key(key) {
            Some(name) => names_file(self.map, name, NameTable::read_value(value)),
            None => true,
        }
    }
}

fn names_file(map: &ByteMap, name: &[u8], id: u64) -> bool
    ensures { IsTrue result ↔ NameHolds (typed_of map.now).files name.now id }
{
    name_is_lawful(name) && get::<FileTable>(map, id).is_some()
}

/// Whether each name is lawful and its file is there.
pub(crate) fn names_are_lawful(map: &ByteMap) -> bool
    ensures { let t = typed_of map.now in IsTrue result ↔ Each (NameHolds t.files) t.names }
{
    each(map, &NameRule { map })
}

/// A file meets the rule of files, where this id is drawn next.
#[derive(Drop)]
struct FileRule {
    next_id: u64,
}

impl PairRule for FileRule {
    ghost meets = { λ rule. PairMeets file_codec (FileHolds rule.next_id) };

    fn holds(&self, key: &[u8], value: &[u8]) -> bool {
        match FileTable::read_key(key) {
            Some(id) => file_holds(self.next_id, id, FileTable::read_value(value)),
            None => true,
        }
    }
}

/// Whether the files meet their rule, in tables that draw `next_id` next.
pub(crate) fn files_hold(map: &ByteMap, next_id: u64) -> bool
    requires { next_id_of (typed_of map.now) ≡ next_id }
    ensures { let t = typed_of map.now in IsTrue result ↔ FilesHold (next_id_of t) t.files }
{
    each(map, &FileRule { next_id })
}

/// The map row of a file is a row of a map.
#[derive(Drop)]
struct MapRowRule<'a> {
    map: &'a ByteMap,
}

impl<'a> PairRule for MapRowRule<'a> {
    ghost meets = { λ rule. PairMeets file_codec (MapRowHolds (typed_of rule.map.now).chunks.rows) };

    fn holds(&self, key: &[u8], value: &[u8]) -> bool {
        match FileTable::read_key(key) {
            Some(_) => {
                let file = FileTable::read_value(value);
                map_row_holds(file, get::<RowTable>(self.map, file.map_row))
            }
            None => true,
        }
    }
}

/// Whether the map row of each file that has one is a row of a map.
pub(crate) fn map_rows_hold(map: &ByteMap) -> bool
    ensures { let t = typed_of map.now in IsTrue result ↔ MapRowsHold t.chunks.rows t.files }
{
    each(map, &MapRowRule { map })
}

/// An extent meets the rule of extents, in an image of so many clusters.
#[derive(Drop)]
struct ExtentRule<'a> {
    map: &'a ByteMap,
    clusters: u32,
}

impl<'a> PairRule for ExtentRule<'a> {
    ghost meets = { λ rule. PairMeets extent_codec (ExtentHolds rule.clusters (typed_of rule.map.now).files) };

    fn holds(&self, key: &[u8], value: &[u8]) -> bool {
        match ExtentTable::read_key(key) {
            Some(key) => {
                let file = get::<FileTable>(self.map, key.0);
                extent_holds(self.clusters, file, key, ExtentTable::read_value(value))
            }
            None => true,
        }
    }
}

/// Whether the extents meet their rule, in an image of so many clusters.
pub(crate) fn extents_hold(map: &ByteMap, clusters: u32) -> bool
    ensures { let t = typed_of map.now in IsTrue result ↔ ExtentsHold clusters t.files t.extents }
{
    each(map, &ExtentRule { map, clusters })
}
