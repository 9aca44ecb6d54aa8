//! The rules on one record of the tables of chunks at a time.
ghost use Rattle.std.specs.Prelude.{◌≡◌, ◌↔◌, ℕ, List, Some, IsTrue};
ghost use Rattle.std.specs.Ordering.{nat_cmp};
ghost use Rattle.std.specs.FinMap.{find};
ghost use Rattle.table_records.specs.declared.chunk_records.Row.{Row as RowRecord};
ghost use Rattle.table_records.specs.declared.chunk_records.Container.{Container as ContainerRecord};
ghost use Rattle.volume_inside.specs.ChunkRules.{IsDataRow, IsMapRecord, MapRowHolds, RowHolds, IsTarget, RedirectHolds};
ghost use Rattle.volume_inside.specs.ChunkRules.{PlaceOfHolds, PlaceHolds, ContainerRecordHolds, ClusterHolds};
ghost use Rattle.volume_inside.specs.ChunkRules.{kind_of_copy as kind_for};

use crate::layout::CLUSTER_BYTES;
use groundwork::MOST_PIECE_BYTES;
use table_records::{Container, FileRecord, Place, Row};

/// The kind of the row of a chunk of file data.
pub const DATA_ROW: u8 = 1;

/// The kind of the row of a stream map.
pub const MAP_ROW: u8 = 2;

/// The kind of the containers that hold second copies.
pub const HOT_CONTAINER: u8 = 3;

/// The most bytes of a chunk of file data.
pub const MOST_CHUNK_BYTES: u32 = MOST_PIECE_BYTES;

/// The bytes of an entry of a stream map.
pub const ENTRY_BYTES: u32 = stream_map::ENTRY_BYTES as u32;

/// The most bytes of a stream map: 32,768 entries.
pub const MOST_MAP_BYTES: u32 = 32_768 * ENTRY_BYTES;

/// How many partitions rows of file data are in.
pub const PARTITIONS: u8 = 8;

/// The most pages of a container, each a cluster.
pub const MOST_PAGES: u32 = 4_096;

/// The most bytes of a container: 4,096 clusters.
pub const MOST_CONTAINER_BYTES: u32 = MOST_PAGES * CLUSTER_BYTES;

fn is_data_row(row: &Row) -> bool
    ensures { IsTrue result ↔ IsDataRow row.now }
{
    row.length >= 1 && row.length <= MOST_CHUNK_BYTES && row.partition < PARTITIONS
}

fn is_map_record(row: &Row) -> bool
    ensures { IsTrue result ↔ IsMapRecord row.now }
{
    let whole = row.length >= ENTRY_BYTES && row.length <= MOST_MAP_BYTES;
    whole && row.length % ENTRY_BYTES == 0 && row.partition == 0 && row.redirect == 0
}

/// Whether a row meets the rule of rows, where `next_id` is drawn next.
pub fn row_holds(next_id: u64, id: u64, row: &Row) -> bool
    ensures { IsTrue result ↔ RowHolds next_id id row.now }
{
    let drawn = id >= 1 && id < next_id && row.seen >= 1;
    match row.kind {
        DATA_ROW => drawn && is_data_row(row),
        MAP_ROW => drawn && is_map_record(row),
        _ => false,
    }
}

/// Whether a row may stand for one that is redirected to it.
fn is_target(id: u64, row: &Row, target: &Row) -> bool
    ensures { IsTrue result ↔ IsTarget id row.now target.now }
{
    let alike = target.digest == row.digest && target.length == row.length;
    row.redirect < id && target.kind == DATA_ROW && alike && target.redirect == 0
}

/// Whether the map row of a file is a row of a map, where it has this record, if it is there.
pub fn map_row_holds(file: FileRecord, row: Option<Row>) -> bool
    ensures { (rows : List (ℕ × RowRecord)) (id : ℕ) → find nat_cmp file.map_row rows ≡ row →
        (IsTrue result ↔ MapRowHolds rows id file) }
{
    if file.map_row == 0 {
        return true;
    }
    match row {
        Some(row) => row.kind == MAP_ROW,
        None => false,
    }
}

/// Whether a row meets the rule of redirects, where the row that its redirect names is this one, if it is there.
pub fn redirect_holds(id: u64, row: &Row, target: Option<Row>) -> bool
    ensures { (rows : List (ℕ × RowRecord)) → find nat_cmp row.now.redirect rows ≡ target →
        (IsTrue result ↔ RedirectHolds rows id row.now) }
{
    if row.redirect == 0 {
        return true;
    }
    match target {
        Some(target) => is_target(id, row, &target),
        None => false,
    }
}

/// The kind of container in which a copy of a row lies.
fn kind_of_copy(row: &Row, copy: u8) -> u8
    ensures { result ≡ kind_for row.now copy }
{
    if copy == 0 { row.kind } else { HOT_CONTAINER }
}

/// Whether a copy of a row meets the rule of places, whose container is there.
fn copy_holds(copy: u8, place: &Place, row: &Row, container: &Container) -> bool
    ensures { (containers : List (ℕ × ContainerRecord)) → find nat_cmp place.now.container containers ≡
        Some container.now → (IsTrue result ↔ PlaceOfHolds containers copy place.now row.now) }
{
    let numbered = copy == 0 || (copy == 1 && row.kind == DATA_ROW);
    let end = place.offset as u64 + row.length as u64;
    let lies = container.kind == kind_of_copy(row, copy) && end <= container.used as u64;
    row.redirect == 0 && numbered && lies
}

/// Whether the place of a copy meets the rule of places, among rows and containers that have these records of its own,
/// if they are there.
pub fn place_holds(copy: u8, place: &Place, row: Option<Row>, container: Option<Container>) -> bool
    ensures { (rows : List (ℕ × RowRecord)) (containers : List (ℕ × ContainerRecord)) (id : ℕ) →
        find nat_cmp id rows ≡ row → find nat_cmp place.now.container containers ≡ container →
        (IsTrue result ↔ PlaceHolds rows containers (id, copy) place.now) }
{
    match (row, container) {
        (Some(row), Some(container)) => copy_holds(copy, place, &row, &container),
        (_, _) => false,
    }
}

/// Whether the record of a container meets its rule, where `next_id` is drawn next. Its pages are a rule beside it.
pub fn container_holds(next_id: u64, id: u64, container: &Container) -> bool
    ensures { IsTrue result ↔ ContainerRecordHolds next_id id container.now }
{
    let drawn = id >= 1 && id < next_id;
    let kind = container.kind >= 1 && container.kind <= HOT_CONTAINER;
    drawn && kind && container.used >= 1 && container.used <= MOST_CONTAINER_BYTES
}

/// Whether a page meets the rule of pages, where its container has this record, if it is there.
pub fn page_holds(index: u32, container: Option<Container>) -> bool
    ensures { (containers : List (ℕ × ContainerRecord)) (id cluster : ℕ) → find nat_cmp id containers ≡ container →
        (IsTrue result ↔ ClusterHolds containers (id, index) cluster) }
{
    match container {
        Some(container) => CLUSTER_BYTES as u64 * (index as u64) < container.used as u64,
        None => false,
    }
}
