// The tables of chunks with the image that holds their bytes, as a reader of rows sees them.
ghost use Rattle.std.specs.Prelude.{◌≡◌, ◌≤◌, ◌+◌, ◌*◌, ◌/◌, List, ℕ, length, OnOk, OnErr};
ghost use Rattle.std.specs.Ordering.{nat_cmp};
ghost use Rattle.std.specs.FinMap.{find};
ghost use Rattle.vdisk.specs.Causes.{Rose};
ghost use Rattle.vdisk.specs.Ranges.{part};
ghost use Rattle.table_records.specs.Keys.{pair_cmp};
ghost use Rattle.volume_inside.specs.ChunkTables.{ChunkTables};
ghost use Rattle.volume_inside.specs.declared.layout.TheConstants.{CLUSTER_BYTES};
ghost use Rattle.volume_inside.specs.Layout.{IsDataCluster};

use table_records::{Place, Row};
use vdisk::Failed;

/// Tables of chunks over a disk: what a reader of rows needs of them.
///
/// The image is what reads give, of 4,096 bytes a cluster. Only tables over a disk that tells what it holds promise
/// anything of the bytes that are read.
pub trait ChunkDisk {
    /// The tables of chunks.
    ghost chunks: { Self → ChunkTables };

    ghost image: { Self → List ℕ };

    /// The disk tells what it holds.
    ghost tells: { Self → Type 0 };

    /// How often the disk has failed.
    ghost faults: { Self → ℕ };

    /// Reads alone lead from the first to the second.
    ghost is_from: { Self → Self → Type 0 };

    /// The row of an id.
    fn get_row(&self, id: u64) -> Option<Row>
        ensures { result ≡ find nat_cmp id (chunks self.now).rows };

    /// Where a copy of a row lies.
    fn get_place(&self, key: (u64, u8)) -> Option<Place>
        ensures { result ≡ find pair_cmp key (chunks self.now).places };

    /// The cluster of a page of a container.
    fn get_cluster(&self, key: (u64, u32)) -> Option<u32>
        ensures { result ≡ find pair_cmp key (chunks self.now).clusters };

    /// Reads bytes of data clusters beside one another, from a place in the first of them on, at once. After a refusal
    /// `out` may hold anything.
    fn read_run(&mut self, first: u32, from: u16, out: &mut [u8]) -> Result<(), Failed>
        requires in_data { IsDataCluster (length (image self.old) / CLUSTER_BYTES) first }
        requires in_image { CLUSTER_BYTES * first + from + length out.old ≤ length (image self.old) }
        ensures bytes { tells self.old →
            OnOk result (out.new ≡ part (CLUSTER_BYTES * first + from) (length out.old) (image self.old)) }
        ensures chunks { chunks self.new ≡ chunks self.old }
        ensures image { image self.new ≡ image self.old }
        ensures tells { tells self.old → tells self.new }
        ensures from { is_from self.old self.new }
        ensures later { faults self.old ≤ faults self.new }
        ensures failed { OnErr result (Rose (faults self.old) (faults self.new)) };

    /// No read leads from each to itself.
    ghost from_self: { (disk : Self) → is_from disk disk };

    /// Reads go on from read to read.
    ghost from_next: { (a b c : Self) → is_from a b → is_from b c → is_from a c };
}
