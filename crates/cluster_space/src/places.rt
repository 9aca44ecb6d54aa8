// The clusters in an order that changes: each has a place of its own.
ghost use Rattle.std.specs.Prelude.{◌≡◌, ◌<◌, length, slice_index, IfOk, IfSome};
ghost use Rattle.cluster_space.specs.Places.{exchanged, IsAscending, IsAt, IsMove};

use groundwork::Memory;
use std::alloc::Global;
use std::marker::Model;

/// The places of the clusters, by cluster, which contracts see. No two clusters have one place.
#[derive(Drop)]
pub struct Places {
    /// The clusters by place.
    order: Vec<u32>,
    /// The places by cluster.
    place: Vec<u32>,
}

impl Model for Places {
    ghost use Rattle.std.specs.Prelude.{ℕ, List};

    ghost Value = { List ℕ };

    ghost use Rattle.cluster_space.specs.Places.{IsInverse};

    ghost view = { λ a. a.place.items };

    ghost invariant = { λ a. IsInverse a.order.items a.place.items };
}

impl Places {
    /// Each cluster at the place of its own number.
    pub fn new(alloc: Global, count: u32) -> Result<Places, Memory>
        ensures { IfOk result (λ places. IsAscending count places) }
    {
        Ok(Places {
            order: ascending(alloc, count)?,
            place: ascending(alloc, count)?,
        })
    }

    /// The cluster at a place.
    pub fn cluster_at(&self, place: u32) -> u32
        requires { place < length self.now }
        ensures { IsAt self.now result place }
    {
        self.order[place as usize]
    }

    /// The place of a cluster.
    pub fn place_of(&self, cluster: u32) -> u32
        requires { cluster < length self.now }
        ensures place { result ≡ slice_index self.now cluster }
        ensures there { IsAt self.now cluster result }
        ensures within { result < length self.now }
    {
        self.place[cluster as usize]
    }

    /// The place of a cluster, if there is that cluster.
    pub fn find(&self, cluster: u32) -> Option<u32>
        ensures { IfSome result (λ place. (cluster < length self.now) × (place ≡ slice_index self.now cluster)) }
    {
        if (cluster as usize) < self.place.len() {
            Some(self.place_of(cluster))
        } else {
            None
        }
    }

    /// Moves a cluster to a place. The cluster there goes to the place that it leaves.
    pub fn move_to(&mut self, cluster: u32, place: u32)
        requires cluster { cluster < length self.old }
        requires place { place < length self.old }
        ensures { IsMove self.old self.new cluster place }
    {
        let other = self.cluster_at(place);
        self.exchange(cluster, other);
    }

    /// Exchanges the places of two clusters.
    fn exchange(&mut self, a: u32, b: u32)
        requires first { a < length self.old }
        requires second { b < length self.old }
        ensures own { IsAt self.old a (slice_index self.old a) }
        ensures places { self.new ≡ exchanged self.old a b }
    {
        let place_of_a = self.place_of(a);
        let place_of_b = self.place_of(b);
        self.place[a as usize] = place_of_b;
        self.place[b as usize] = place_of_a;
        self.order[place_of_b as usize] = a;
        self.order[place_of_a as usize] = b;
    }
}

/// The numbers below a bound, in order.
fn ascending(alloc: Global, count: u32) -> Result<Vec<u32>, Memory>
    ensures { IfOk result (λ numbers. IsAscending count numbers.items) }
{
    let mut numbers = Vec::with_capacity(alloc, count as usize)?;
    for number in 0..count {
        numbers.push(number)?;
    }
    Ok(numbers)
}
