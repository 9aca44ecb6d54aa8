//! Which clusters the tables name.

ghost use Rattle.std.specs.Prelude.{◌≡◌, ◌↔◌, ◌<◌, ◌≤◌, ℕ, List, IsTrue, IfOk, IfSome, IfNone, length, slice_set};
ghost use Rattle.cluster_space.specs.States.{IsIn};
ghost use Rattle.volume_inside.specs.declared.layout.TheConstants.{LEAST_CLUSTERS};
ghost use Rattle.volume_inside.specs.Layout.{AreData};
ghost use Rattle.volume_inside.specs.Layout.{data_clusters as data_clusters_of, first_data_cluster as first_of};
ghost use Rattle.volume_inside.specs.Named.{clusters_of};
ghost use Rattle.volume_inside.specs.Typed.{typed_of};
ghost use Rattle.volume_inside.specs.Rules.{ClustersHold};
ghost use Rattle.table_rules.specs.Marks.{list_of, clusters_in, extent_in_pair, page_in_pair, CanMark, marked, IsFilled};

use byte_map::ByteMap;
use cluster_space::{Memory, Space, State};
use std::alloc::Global;
use table_records::{ClusterTable, ExtentTable, Table};
use volume_inside::{data_clusters, first_data_cluster};

/// Makes the data cluster of this place used, and answers whether it was free.
fn mark(space: &mut Space, place: u32) -> bool
    requires { place < length space.old }
    ensures free { IsTrue result ↔ IsIn space.old place State.Free }
    ensures marked { IsTrue result → space.new ≡ slice_set space.old place State.Used }
{
    match space.state(place) {
        State::Free => {
            space.mark_used(place);
            true
        }
        State::Used | State::Deferred => false,
    }
}

/// The cluster that a pair of the map names.
trait PairClusters {
    ghost clusters: { List ℕ → List ℕ → List ℕ };

    /// The cluster that a pair names, or `None` where it names none.
    fn cluster(key: &[u8], value: &[u8]) -> Option<u32>
        ensures { list_of result ≡ clusters key.now value.now };
}

/// An extent names a cluster.
struct ExtentClusters;

impl PairClusters for ExtentClusters {
    ghost clusters = { extent_in_pair };

    fn cluster(key: &[u8], value: &[u8]) -> Option<u32> {
        match ExtentTable::read_key(key) {
            Some(_) => Some(ExtentTable::read_value(value).cluster),
            None => None,
        }
    }
}

/// A page of a container names a cluster.
struct PageClusters;

impl PairClusters for PageClusters {
    ghost clusters = { page_in_pair };

    fn cluster(key: &[u8], value: &[u8]) -> Option<u32> {
        match ClusterTable::read_key(key) {
            Some(_) => Some(ClusterTable::read_value(value)),
            None => None,
        }
    }
}

/// Makes a cluster used, if there is one, and answers whether it was free.
fn mark_one(space: &mut Space, clusters: u32, cluster: Option<u32>) -> bool
    requires size { length space.old ≡ data_clusters_of clusters }
    requires data { AreData clusters (list_of cluster) }
    ensures free { IsTrue result ↔ CanMark (first_of clusters) space.old (list_of cluster) }
    ensures marked { IsTrue result → space.new ≡ marked (first_of clusters) (list_of cluster) space.old }
{
    match cluster {
        Some(cluster) => mark(space, cluster - first_data_cluster(clusters)),
        None => true,
    }
}

/// Makes the clusters used that the pairs of a map name, and answers whether each was free.
fn mark_pairs<P: PairClusters>(space: &mut Space, clusters: u32, map: &ByteMap) -> bool
    requires size { length space.old ≡ data_clusters_of clusters }
    requires data { AreData clusters (clusters_in P.clusters map.now) }
    ensures free { IsTrue result ↔ CanMark (first_of clusters) space.old (clusters_in P.clusters map.now) }
    ensures marked { IsTrue result → space.new ≡ marked (first_of clusters) (clusters_in P.clusters map.now) space.old }
{
    let mut walk = map.walk();
    while let Some((key, value)) = walk.next() {
        if !mark_one(space, clusters, P::cluster(key, value)) {
            return false;
        }
    }
    true
}

/// The states of the data clusters, where those that the tables name are used and all others free; or `None` where one
/// is named twice.
pub(crate) fn mark_clusters(
    alloc: Global,
    map: &ByteMap,
    clusters: u32,
) -> Result<Option<Space>, Memory>
    requires least { LEAST_CLUSTERS ≤ clusters }
    requires data { AreData clusters (clusters_of (typed_of map.now)) }
    ensures filled { IfOk result (λ found. IfSome found (IsFilled clusters (clusters_of (typed_of map.now)))) }
    ensures once { IfOk result (λ found. IfSome found (λ space. ClustersHold (typed_of map.now))) }
    ensures twice { IfOk result (λ found. IfNone found (ClustersHold (typed_of map.now) → ⊥)) }
{
    let mut space = Space::new(alloc, data_clusters(clusters))?;
    if mark_all(&mut space, clusters, map) {
        Ok(Some(space))
    } else {
        Ok(None)
    }
}

/// Makes the clusters used that extents and pages name, and answers whether each was free.
fn mark_all(space: &mut Space, clusters: u32, map: &ByteMap) -> bool
    requires size { length space.old ≡ data_clusters_of clusters }
    requires data { AreData clusters (clusters_of (typed_of map.now)) }
    ensures free { IsTrue result ↔ CanMark (first_of clusters) space.old (clusters_of (typed_of map.now)) }
    ensures marked { IsTrue result → space.new ≡ marked (first_of clusters) (clusters_of (typed_of map.now)) space.old }
{
    mark_pairs::<ExtentClusters>(space, clusters, map)
        && mark_pairs::<PageClusters>(space, clusters, map)
}
