// The states of all clusters.
ghost use Rattle.std.specs.Prelude.{◌≡◌, ◌<◌, ◌≤◌, ◌+◌, ℕ, IsTrue, length, map, replicate, slice_set};
ghost use Rattle.std.specs.Prelude.{slice_index_or, IfOk, IfSome, IfNone};
ghost use Rattle.cluster_space.specs.States.{IsIn, free_in, deferred_in, released};

use crate::places::Places;
use crate::{Memory, Run, State};
use std::alloc::Global;
use std::marker::Model;

/// The states of the clusters, which contracts see as a list, by cluster.
#[derive(Drop)]
pub struct Space {
    /// The free clusters have the first places, then come the deferred ones, then the used ones.
    places: Places,
    free: u32,
    deferred: u32,
    /// The cluster behind the one that was used last, where the search for free ones begins.
    next: u32,
}

impl Model for Space {
    ghost use Rattle.std.specs.Prelude.{List};
    ghost use Rattle.cluster_space.specs.declared.state.State.{State};

    ghost Value = { List State };

    ghost use Rattle.cluster_space.specs.Parts.{states_of, IsParted};

    ghost view = { λ a. states_of a.free a.deferred a.places };

    ghost invariant = { λ a. IsParted a.free a.deferred a.places };
}

impl Space {
    /// As many clusters as are asked for, all free. No other call takes memory.
    pub fn new(alloc: Global, clusters: u32) -> Result<Space, Memory>
        ensures { IfOk result (λ space. space ≡ replicate clusters State.Free) }
    {
        Ok(Space {
            places: Places::new(alloc, clusters)?,
            free: clusters,
            deferred: 0,
            next: 0,
        })
    }

    /// How many clusters are free.
    pub fn free_count(&self) -> u32
        ensures { result ≡ free_in self.now }
    {
        self.free
    }

    /// How many clusters are deferred.
    pub fn deferred_count(&self) -> u32
        ensures { result ≡ deferred_in self.now }
    {
        self.deferred
    }

    /// The state of a cluster.
    pub fn state(&self, cluster: u32) -> State
        requires { cluster < length self.now }
        ensures { IsIn self.now cluster result }
    {
        let place = self.places.place_of(cluster);
        if place < self.free {
            State::Free
        } else if place - self.free < self.deferred {
            State::Deferred
        } else {
            State::Used
        }
    }

    /// Whether there is a cluster of this number that is free.
    fn is_free(&self, cluster: u32) -> bool
        ensures { IsTrue result → IsIn self.now cluster State.Free }
    {
        match self.places.find(cluster) {
            Some(place) => place < self.free,
            None => false,
        }
    }

    /// Whether the cluster so many behind another one is free.
    fn is_free_behind(&self, cluster: u32, count: u32) -> bool
        ensures { IsTrue result → IsIn self.now (cluster + count) State.Free }
    {
        match cluster.checked_add(count) {
            Some(behind) => self.is_free(behind),
            None => false,
        }
    }

    /// The lowest of the free clusters beside a free one and below it, but at most so many clusters below.
    fn lowest_beside(&self, cluster: u32, most: u32) -> u32
        requires { IsIn self.now cluster State.Free }
        ensures { IsIn self.now result State.Free }
    {
        let mut lowest = cluster;
        let mut steps = most;
        while steps > 0 && lowest > 0 && self.is_free(lowest - 1) {
            lowest -= 1;
            steps -= 1;
        }
        lowest
    }

    /// The free cluster where a run of at most so many begins.
    fn first_free(&self, most: u32) -> u32
        requires some { 0 < free_in self.now }
        requires wanted { 0 < most }
        ensures { IsIn self.now result State.Free }
    {
        if self.is_free(self.next) {
            return self.next;
        }
        let last = self.places.cluster_at(self.free - 1);
        self.lowest_beside(last, most - 1)
    }

    /// Free clusters beside one another, at most so many. They stay free. The search goes on behind the cluster that
    /// was used last, so that runs ascend while nothing lies in their way.
    pub fn free_run(&self, most: u32) -> Run
        requires some { 0 < free_in self.now }
        requires wanted { 0 < most }
        ensures some { 0 < result.count }
        ensures most { result.count ≤ most }
        ensures free { (k : ℕ) → k < result.count → IsIn self.now (result.first + k) State.Free }
    {
        let first = self.first_free(most);
        let mut count = 1;
        while count < most && self.is_free_behind(first, count) {
            count += 1;
        }
        Run { first, count }
    }

    /// Some free cluster, which is used from now on, or none where no cluster is free.
    pub fn take(&mut self) -> Option<u32>
        ensures some { IfSome result (λ c. IsIn self.old c State.Free × (self.new ≡ slice_set self.old c State.Used)) }
        ensures none { IfNone result ((free_in self.old ≡ 0) × (self.new ≡ self.old)) }
    {
        if self.free == 0 {
            return None;
        }
        let cluster = self.free_run(1).first;
        self.mark_used(cluster);
        Some(cluster)
    }

    /// Makes a free cluster used.
    pub fn mark_used(&mut self, cluster: u32)
        requires { IsIn self.old cluster State.Free }
        ensures { self.new ≡ slice_set self.old cluster State.Used }
    {
        self.hold(cluster);
        self.reuse(cluster);
    }

    /// Makes a free cluster deferred.
    fn hold(&mut self, cluster: u32)
        requires { IsIn self.old cluster State.Free }
        ensures states { self.new ≡ slice_set self.old cluster State.Deferred }
        ensures deferred { IsIn self.new cluster State.Deferred }
    {
        self.places.move_to(cluster, self.free - 1);
        self.free -= 1;
        self.deferred += 1;
    }

    /// Makes a deferred cluster used.
    fn reuse(&mut self, cluster: u32)
        requires { IsIn self.old cluster State.Deferred }
        ensures { self.new ≡ slice_set self.old cluster State.Used }
    {
        self.places.move_to(cluster, self.free + self.deferred - 1);
        self.deferred -= 1;
        self.next = cluster.saturating_add(1);
    }

    /// Makes a used cluster deferred.
    pub fn defer(&mut self, cluster: u32)
        requires { IsIn self.old cluster State.Used }
        ensures { self.new ≡ slice_set self.old cluster State.Deferred }
    {
        // That the cluster has a place past the others shows that there is a first used one.
        self.places.place_of(cluster);
        self.places.move_to(cluster, self.free + self.deferred);
        self.deferred += 1;
    }

    /// Makes a deferred cluster free.
    pub fn release(&mut self, cluster: u32)
        requires { IsIn self.old cluster State.Deferred }
        ensures { self.new ≡ slice_set self.old cluster State.Free }
    {
        self.places.move_to(cluster, self.free);
        self.free += 1;
        self.deferred -= 1;
    }

    /// Makes every deferred cluster free.
    pub fn release_all(&mut self)
        ensures { self.new ≡ map released self.old }
    {
        self.free += self.deferred;
        self.deferred = 0;
    }
}
