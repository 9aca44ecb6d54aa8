//! What the tables have of room, clusters and their disk.

ghost use Rattle.std.specs.Prelude.{◌≡◌};
ghost use Rattle.cluster_space.specs.States.{free_in, deferred_in};
ghost use Rattle.volume_inside.specs.Layout.{half_bytes, data_clusters};

use crate::tables::Tables;
use vdisk::Disk;

impl<D: Disk> Tables<D> {
    ghost use Rattle.volume_tables.specs.Tables.{disk_of, states_of, checkpoint_of, stopped, staged_of};

    /// The bytes of a checkpoint of the tables now.
    pub fn checkpoint_bytes(&self) -> u64
        ensures { result ≡ checkpoint_of self.now }
    {
        self.log.checkpoint_bytes()
    }

    /// The bytes of a half of the journal, which a checkpoint of the tables must fit.
    pub fn half_bytes(&self) -> u64
        ensures { result ≡ half_bytes self.now.clusters }
    {
        volume_inside::half_bytes(self.clusters)
    }

    /// How many data clusters there are.
    pub fn data_clusters(&self) -> u32
        ensures { result ≡ data_clusters self.now.clusters }
    {
        self.clusters - (1 + 2 * (self.clusters / 32))
    }

    /// How many clusters are free.
    pub fn free_clusters(&self) -> u32
        ensures { result ≡ free_in (states_of self.now) }
    {
        self.space.free_count()
    }

    /// How many clusters are free once the next commit is made, and are not yet.
    pub fn deferred_clusters(&self) -> u32
        ensures { result ≡ deferred_in (states_of self.now) }
    {
        self.space.deferred_count()
    }

    /// How many bytes of records are staged.
    pub fn staged_bytes(&self) -> usize
        ensures { result ≡ staged_of self.now }
    {
        self.log.staged_bytes()
    }

    /// Whether a write or a sync has failed.
    pub fn is_stopped(&self) -> bool
        ensures { result ≡ stopped self.now }
    {
        self.log.is_stopped()
    }

    /// The disk's moment.
    pub fn moment(&self) -> u64
        ensures { result ≡ (disk_of self.now).moment }
    {
        self.log.moment()
    }

    /// Hands the disk back. What is staged is lost.
    pub fn into_disk(self) -> D
        ensures { result ≡ self.log.disk }
    {
        self.log.into_disk()
    }
}
