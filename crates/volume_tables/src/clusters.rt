//! Data clusters: they are taken, written, read and given up.

ghost use Rattle.std.specs.Prelude.{◌≡◌, ◌⊎◌, ◌≤◌, ◌<◌, ◌+◌, ◌*◌, ◌-◌, ℕ, length, false, OnOk, OnErr, IfOk, IsErrOf};
ghost use Rattle.vdisk.specs.Causes.{Rose};
ghost use Rattle.vdisk.specs.Disk.{ChangedWithin};
ghost use Rattle.vdisk.specs.Ranges.{part};
ghost use Rattle.plain_volume.specs.declared.limits.TheConstants.{MOST_BYTES_OF_A_CALL};
ghost use Rattle.cluster_space.specs.States.{free_in};
ghost use Rattle.volume_inside.specs.Layout.{first_data_cluster, IsDataCluster};
ghost use Rattle.volume_inside.specs.Lists.{IsOut};
ghost use Rattle.volume_inside.specs.Named.{clusters_of};
ghost use Rattle.volume_inside.specs.Inside.{cluster_bytes, inside_at};
ghost use Rattle.volume_inside.specs.Tails.{IsBehind};
ghost use Rattle.volume_inside.specs.Typed.{Typed};
ghost use Rattle.volume_tables.specs.Clusters.{HasState, used_at, deferred_at, deferred_unless, with_other, with_spare};
ghost use Rattle.volume_tables.specs.Frames.{AreFree, NamesNoFree};

use crate::fault;
use crate::tables::Tables;
use cluster_space::{Run, State};
use plain_volume::Fault;
use vdisk::Disk;
use volume_inside::CLUSTER_BYTES;

impl<D: Disk> Tables<D> {
    ghost use Rattle.volume_tables.specs.Moves.{MovesStatesTo, WritesData};
    ghost use Rattle.volume_tables.specs.Reads.{ReadsOnly};
    ghost use Rattle.volume_tables.specs.Tables.{tables_now, inside_now, states_of, staged_of, checkpoint_of, disk_of, stopped, IsTables, Leaves};

    /// The first data cluster.
    pub(crate) fn first_cluster(&self) -> u32
        ensures is { result ≡ first_data_cluster self.now.clusters }
        ensures most { result ≤ 65537 }
    {
        1 + 2 * (self.clusters / 32)
    }

    /// Makes a free cluster used.
    fn use_free(&mut self, cluster: u32)
        requires { HasState self.old.clusters (states_of self.old) State.Free cluster }
        ensures { MovesStatesTo (used_at self.old.clusters cluster (states_of self.old)) self.old self.new }
    {
        let index = cluster - self.first_cluster();
        self.space.mark_used(index);
    }

    /// Makes a free cluster used. No bytes change.
    pub fn take_free(&mut self, cluster: u32)
        requires { HasState self.old.clusters (states_of self.old) State.Free cluster }
        ensures used { states_of self.new ≡ used_at self.old.clusters cluster (states_of self.old) }
        ensures unnamed { IsOut cluster (clusters_of (tables_now self.old)) }
        ensures now { tables_now self.new ≡ tables_now self.old }
        ensures image { (disk_of self.new).image ≡ (disk_of self.old).image }
        ensures faults { (disk_of self.new).faults ≡ (disk_of self.old).faults }
        ensures leaves { Leaves self.old self.new }
        ensures numbers { (staged_of self.new ≡ staged_of self.old) × (checkpoint_of self.new ≡
            checkpoint_of self.old) }
        ensures running { stopped self.new ≡ stopped self.old }
    {
        self.use_free(cluster);
    }

    /// Free clusters beside one another, at most so many. They stay free.
    fn free_run(&self, most: u32) -> Run
        requires some { 0 < free_in (states_of self.now) }
        requires wanted { 0 < most }
        ensures some { 0 < result.count }
        ensures most { result.count ≤ most }
        ensures free { AreFree self.now.clusters (states_of self.now) result }
    {
        let run = self.space.free_run(most);
        Run {
            first: self.first_cluster() + run.first,
            count: run.count,
        }
    }

    /// Makes a cluster that nobody names deferred.
    pub(crate) fn give_up(&mut self, cluster: u32)
        requires used { HasState self.old.clusters (states_of self.old) State.Used cluster }
        requires unnamed { IsOut cluster (clusters_of (tables_now self.old)) }
        ensures { MovesStatesTo (deferred_at self.old.clusters cluster (states_of self.old)) self.old self.new }
    {
        let index = cluster - self.first_cluster();
        self.space.defer(index);
    }

    /// Makes a cluster that nobody names deferred, unless it is another one.
    pub(crate) fn give_up_unless(&mut self, cluster: u32, other: u32)
        requires { (cluster ≡ other → ⊥) →
            HasState self.old.clusters (states_of self.old) State.Used cluster ×
            IsOut cluster (clusters_of (tables_now self.old)) }
        ensures { MovesStatesTo (deferred_unless self.old.clusters cluster other (states_of self.old)) self.old self.new }
    {
        if cluster != other {
            self.give_up(cluster);
        }
    }

    /// Gives up the cluster that stood at a key where this one now stands, if one did.
    pub(crate) fn give_up_replaced(&mut self, stood: Option<u32>, cluster: u32)
        requires { (o : ℕ) → stood ≡ Some o → (o ≡ cluster → ⊥) →
            HasState self.old.clusters (states_of self.old) State.Used o ×
            IsOut o (clusters_of (tables_now self.old)) }
        ensures { MovesStatesTo (with_other self.old.clusters stood cluster (states_of self.old)) self.old self.new }
    {
        match stood {
            None => {}
            Some(other) => self.give_up_unless(other, cluster),
        }
    }

    /// Gives up a cluster that was refused a key where this one stands, if one does.
    pub(crate) fn give_up_refused(&mut self, stood: Option<u32>, cluster: u32)
        requires { ((o : ℕ) → stood ≡ Some o → cluster ≡ o → ⊥) →
            HasState self.old.clusters (states_of self.old) State.Used cluster ×
            IsOut cluster (clusters_of (tables_now self.old)) }
        ensures { MovesStatesTo (with_spare self.old.clusters stood cluster (states_of self.old)) self.old self.new }
    {
        match stood {
            None => self.give_up(cluster),
            Some(other) => self.give_up_unless(cluster, other),
        }
    }

    /// Makes a cluster that is not free used.
    pub(crate) fn take_back(&mut self, cluster: u32)
        requires { HasState self.old.clusters (states_of self.old) State.Used cluster ⊎
            HasState self.old.clusters (states_of self.old) State.Deferred cluster }
        ensures { MovesStatesTo (used_at self.old.clusters cluster (states_of self.old)) self.old self.new }
    {
        let index = cluster - self.first_cluster();
        if self.space.state(index) == State::Deferred {
            self.space.release(index);
            self.space.mark_used(index);
        }
    }

    /// Writes bytes over neighbouring free clusters, which they fill.
    fn write_run(&mut self, run: Run, bytes: &[u8]) -> Result<(), Fault>
        requires running { stopped self.old ≡ false }
        requires some { 0 < run.count }
        requires whole { length bytes.now ≡ CLUSTER_BYTES * run.count }
        requires free { AreFree self.old.clusters (states_of self.old) run }
        ensures writes { WritesData self.old self.new result }
        ensures written { (stored : Typed) → IsTables self.old stored → OnOk result
            (part (CLUSTER_BYTES * run.first) (CLUSTER_BYTES * run.count) (disk_of self.new).image ≡ bytes.now) }
        ensures image { ChangedWithin (CLUSTER_BYTES * run.first) (CLUSTER_BYTES * run.count) (disk_of self.old).image
            (disk_of self.new).image }
    {
        fault::of_log(
            self.log
                .write_data(CLUSTER_BYTES as u64 * run.first as u64, bytes),
        )
    }

    /// Writes the whole clusters at the front of some bytes into free ones, at once: as many as are found beside one
    /// another. They stay free, and neither the stored tables nor those now name them. A refusal stops the tables.
    pub fn write_free_run(&mut self, bytes: &[u8]) -> Result<Run, Fault>
        requires running { stopped self.old ≡ false }
        requires some { 0 < free_in (states_of self.old) }
        requires whole { CLUSTER_BYTES ≤ length bytes.now }
        requires short { length bytes.now ≤ MOST_BYTES_OF_A_CALL }
        ensures some { IfOk result (λ run. 0 < run.count) }
        ensures fits { IfOk result (λ run. CLUSTER_BYTES * run.count ≤ length bytes.now) }
        ensures free { IfOk result (λ run. AreFree self.old.clusters (states_of self.old) run) }
        ensures writes { WritesData self.old self.new result }
        ensures written { (stored : Typed) → IsTables self.old stored → IfOk result (λ run. (k : ℕ) → k < run.count →
            cluster_bytes (run.first + k) (disk_of self.new).image ≡ part (CLUSTER_BYTES * k) CLUSTER_BYTES bytes.now) }
        ensures image { IfOk result (λ run. ChangedWithin (CLUSTER_BYTES * run.first) (CLUSTER_BYTES * run.count)
            (disk_of self.old).image (disk_of self.new).image) }
        ensures same { inside_now self.new ≡ inside_now self.old }
        ensures frame { (t : Typed) → NamesNoFree self.old.clusters (states_of self.old) t →
            inside_at t (disk_of self.new).image ≡ inside_at t (disk_of self.old).image }
    {
        let run = self.free_run((bytes.len() / CLUSTER_BYTES as usize) as u32);
        self.write_run(run, &bytes[..CLUSTER_BYTES as usize * run.count as usize])?;
        Ok(run)
    }

    /// Writes bytes of a cluster of a container, from a place in it on, behind what is used of it. A refusal stops the
    /// tables.
    pub fn write_range(&mut self, cluster: u32, from: u16, bytes: &[u8]) -> Result<(), Fault>
        requires running { stopped self.old ≡ false }
        requires within { from + length bytes.now ≤ CLUSTER_BYTES }
        requires behind { IsBehind cluster from (tables_now self.old).chunks }
        ensures writes { WritesData self.old self.new result }
        ensures written { (stored : Typed) → IsTables self.old stored → OnOk result
            (part (CLUSTER_BYTES * cluster + from) (length bytes.now) (disk_of self.new).image ≡ bytes.now) }
        ensures image { ChangedWithin (CLUSTER_BYTES * cluster + from) (length bytes.now) (disk_of self.old).image
            (disk_of self.new).image }
        ensures same { inside_now self.new ≡ inside_now self.old }
    {
        fault::of_log(
            self.log
                .write_data(CLUSTER_BYTES as u64 * cluster as u64 + from as u64, bytes),
        )
    }

    /// Reads bytes of data clusters beside one another, from a place in the first of them on, at once. After a refusal
    /// `out` may hold anything.
    pub fn read_run(&mut self, first: u32, from: u16, out: &mut [u8]) -> Result<(), Fault>
        requires in_data { IsDataCluster self.old.clusters first }
        requires in_clusters { CLUSTER_BYTES * first + from + length out.old ≤ CLUSTER_BYTES * self.old.clusters }
        ensures bytes { (stored : Typed) → IsTables self.old stored →
            OnOk result (out.new ≡ part (CLUSTER_BYTES * first + from) (length out.old) (disk_of self.old).image) }
        ensures reads { ReadsOnly self.old self.new }
        ensures failed { OnErr result (IsErrOf result Fault.Failed ×
            Rose (disk_of self.old).faults (disk_of self.new).faults) }
    {
        fault::of_log(
            self.log
                .read_data(CLUSTER_BYTES as u64 * first as u64 + from as u64, out),
        )
    }
}
