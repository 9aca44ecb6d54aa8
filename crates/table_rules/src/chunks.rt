//! Rules on one entry of the tables of chunks at a time.

ghost use Rattle.std.specs.Prelude.{◌≡◌, ◌≤◌, ◌<◌, ◌*◌, ◌↔◌, IsTrue, IsSome, ℕ};
ghost use Rattle.std.specs.FinMap.{find};
ghost use Rattle.table_records.specs.Keys.{pair_cmp};
ghost use Rattle.table_records.specs.Tables.{row_codec, place_codec, container_codec, cluster_codec};
ghost use Rattle.volume_inside.specs.ChunkRules.{RowHolds, RowsHold, RedirectHolds, RedirectsHold, PlaceHolds};
ghost use Rattle.volume_inside.specs.ChunkRules.{FirstCopyHolds, PlacesHold, ContainerHolds, ClusterHolds, ContainersHold};
ghost use Rattle.volume_inside.specs.Entries.{Each};
ghost use Rattle.volume_inside.specs.Layout.{AreData, IsDataCluster};
ghost use Rattle.volume_inside.specs.Pages.{page_clusters};
ghost use Rattle.volume_inside.specs.Rules.{next_id_of};
ghost use Rattle.volume_inside.specs.Typed.{typed_of};
ghost use Rattle.table_rules.specs.Pairs.{PairMeets};

use crate::lookup::get;
use crate::pairs::{PairRule, each};
use byte_map::ByteMap;
use table_records::{ClusterTable, ContainerTable, PlaceTable, RowTable, Table};
use volume_inside::{
    CLUSTER_BYTES, container_holds, is_data_cluster, page_holds, place_holds, redirect_holds,
    row_holds,
};

/// A row meets the rule of rows, where this id is drawn next.
#[derive(Drop)]
struct RowRule {
    next_id: u64,
}

impl PairRule for RowRule {
    ghost meets = { λ rule. PairMeets row_codec (RowHolds rule.next_id) };

    fn holds(&self, key: &[u8], value: &[u8]) -> bool {
        match RowTable::read_key(key) {
            Some(id) => row_holds(self.next_id, id, &RowTable::read_value(value)),
            None => true,
        }
    }
}

/// Whether the rows meet their rule, in tables that draw `next_id` next.
pub(crate) fn rows_hold(map: &ByteMap, next_id: u64) -> bool
    requires { next_id_of (typed_of map.now) ≡ next_id }
    ensures { let t = typed_of map.now in IsTrue result ↔ RowsHold (next_id_of t) t.chunks }
{
    each(map, &RowRule { next_id })
}

/// A row meets the rule of redirects.
#[derive(Drop)]
struct RedirectRule<'a> {
    map: &'a ByteMap,
}

impl<'a> PairRule for RedirectRule<'a> {
    ghost meets = { λ rule. PairMeets row_codec (RedirectHolds (typed_of rule.map.now).chunks.rows) };

    fn holds(&self, key: &[u8], value: &[u8]) -> bool {
        match RowTable::read_key(key) {
            Some(id) => {
                let row = RowTable::read_value(value);
                redirect_holds(id, &row, get::<RowTable>(self.map, row.redirect))
            }
            None => true,
        }
    }
}

/// Whether redirects meet their rule.
pub(crate) fn redirects_hold(map: &ByteMap) -> bool
    ensures { IsTrue result ↔ RedirectsHold (typed_of map.now).chunks }
{
    each(map, &RedirectRule { map })
}

/// The place of a copy meets the rule of places.
#[derive(Drop)]
struct PlaceRule<'a> {
    map: &'a ByteMap,
}

impl<'a> PairRule for PlaceRule<'a> {
    ghost meets = { λ rule. let t = typed_of rule.map.now in PairMeets place_codec (PlaceHolds t.chunks.rows t.chunks.containers) };

    fn holds(&self, key: &[u8], value: &[u8]) -> bool {
        match PlaceTable::read_key(key) {
            Some(key) => {
                let place = PlaceTable::read_value(value);
                let row = get::<RowTable>(self.map, key.0);
                let container = get::<ContainerTable>(self.map, place.container);
                place_holds(key.1, &place, row, container)
            }
            None => true,
        }
    }
}

/// A row that is not redirected has a first copy.
#[derive(Drop)]
struct FirstCopyRule<'a> {
    map: &'a ByteMap,
}

impl<'a> PairRule for FirstCopyRule<'a> {
    ghost meets = { λ rule. PairMeets row_codec (FirstCopyHolds (typed_of rule.map.now).chunks.places) };

    fn holds(&self, key: &[u8], value: &[u8]) -> bool {
        match RowTable::read_key(key) {
            Some(id) => has_first_copy(self.map, id, RowTable::read_value(value).redirect),
            None => true,
        }
    }
}

/// Whether a row of this redirect has the copy that it has to have.
fn has_first_copy(map: &ByteMap, id: u64, redirect: u64) -> bool
    ensures { IsTrue result ↔ (redirect ≡ 0 → IsSome (find pair_cmp (id, 0) (typed_of map.now).chunks.places)) }
{
    redirect != 0 || get::<PlaceTable>(map, (id, 0)).is_some()
}

/// Whether the places of copies meet their rule, and each row has those that it has to have.
pub(crate) fn places_hold(map: &ByteMap) -> bool
    ensures { IsTrue result ↔ PlacesHold (typed_of map.now).chunks }
{
    each(map, &PlaceRule { map }) && each(map, &FirstCopyRule { map })
}

/// A container meets the rule of containers, where this id is drawn next.
#[derive(Drop)]
struct ContainerRule<'a> {
    map: &'a ByteMap,
    next_id: u64,
}

impl<'a> PairRule for ContainerRule<'a> {
    ghost meets = { λ rule. PairMeets container_codec (ContainerHolds rule.next_id (typed_of rule.map.now).chunks.clusters) };

    fn holds(&self, key: &[u8], value: &[u8]) -> bool {
        match ContainerTable::read_key(key) {
            Some(id) => {
                let container = ContainerTable::read_value(value);
                container_holds(self.next_id, id, &container)
                    && has_pages(self.map, id, container.used)
            }
            None => true,
        }
    }
}

/// Whether a container has each page as far as so many bytes are used.
fn has_pages(map: &ByteMap, id: u64, used: u32) -> bool
    ensures { IsTrue result ↔ ((index : ℕ) → CLUSTER_BYTES * index < used
        → IsSome (find pair_cmp (id, index) (typed_of map.now).chunks.clusters)) }
{
    for index in 0..pages_of(used) {
        if get::<ClusterTable>(map, (id, index)).is_none() {
            return false;
        }
    }
    true
}

/// How many pages so many bytes take.
fn pages_of(used: u32) -> u32
    ensures enough { used ≤ CLUSTER_BYTES * result }
    ensures needed { (index : ℕ) → index < result → CLUSTER_BYTES * index < used }
{
    used / CLUSTER_BYTES + (used % CLUSTER_BYTES > 0) as u32
}

/// A page meets the rule of pages.
#[derive(Drop)]
struct PageRule<'a> {
    map: &'a ByteMap,
}

impl<'a> PairRule for PageRule<'a> {
    ghost meets = { λ rule. PairMeets cluster_codec (ClusterHolds (typed_of rule.map.now).chunks.containers) };

    fn holds(&self, key: &[u8], _value: &[u8]) -> bool {
        match ClusterTable::read_key(key) {
            Some(key) => page_holds(key.1, get::<ContainerTable>(self.map, key.0)),
            None => true,
        }
    }
}

/// A page lies in a data cluster of an image of so many.
#[derive(Drop)]
struct DataRule {
    clusters: u32,
}

impl PairRule for DataRule {
    ghost meets = { λ rule. PairMeets cluster_codec (λ _ cluster. IsDataCluster rule.clusters cluster) };

    fn holds(&self, key: &[u8], value: &[u8]) -> bool {
        match ClusterTable::read_key(key) {
            Some(_) => is_data_cluster(self.clusters, ClusterTable::read_value(value)),
            None => true,
        }
    }
}

/// Whether all pages lie in data clusters.
fn pages_are_data(map: &ByteMap, clusters: u32) -> bool
    ensures { IsTrue result ↔ AreData clusters (page_clusters (typed_of map.now).chunks.clusters) }
{
    each(map, &DataRule { clusters })
}

/// Whether each page is one of a container as far as that is used, and lies in a data cluster of an image of so many.
fn pages_hold(map: &ByteMap, clusters: u32) -> bool
    ensures { let t = typed_of map.now in IsTrue result ↔ (Each (ClusterHolds t.chunks.containers) t.chunks.clusters
        × AreData clusters (page_clusters t.chunks.clusters)) }
{
    each(map, &PageRule { map }) && pages_are_data(map, clusters)
}

/// Whether containers and their pages meet their rule, in an image of so many clusters whose tables draw `next_id`
/// next.
pub(crate) fn containers_hold(map: &ByteMap, clusters: u32, next_id: u64) -> bool
    requires { next_id_of (typed_of map.now) ≡ next_id }
    ensures { let t = typed_of map.now in IsTrue result ↔ ContainersHold clusters (next_id_of t) t.chunks }
{
    each(map, &ContainerRule { map, next_id }) && pages_hold(map, clusters)
}
