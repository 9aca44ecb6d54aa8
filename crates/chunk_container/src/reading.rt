//! Rows are read.

ghost use Rattle.std.specs.Prelude.{◌≡◌, ◌⊎◌, ◌≤◌, ◌+◌, None, IsSome, IsErrOf, OnOk, OnErr, length};
ghost use Rattle.std.specs.Ordering.{nat_cmp};
ghost use Rattle.std.specs.FinMap.{find};
ghost use Rattle.vdisk.specs.Causes.{Rose};
ghost use Rattle.volume_inside.specs.Chunks.{chunk, length_of};
ghost use Rattle.volume_inside.specs.Rules.{RulesHold};
ghost use Rattle.volume_inside.specs.Typed.{Typed};
ghost use Rattle.row_reading.specs.Reading.{IsRangeOf};
ghost use Rattle.volume_tables.specs.Reads.{ReadsOnly};
ghost use Rattle.volume_tables.specs.Tables.{tables_now, clusters_in, disk_of, IsTables};
ghost use Rattle.chunk_container.specs.Bases.{bases_now};

use crate::store::Store;
use row_reading::{RowFault, read_row};
use vdisk::Disk;

impl<D: Disk> Store<D> {
    ghost use Rattle.chunk_container.specs.Stores.{tables_of, open_in};

    /// Reads bytes of a row's chunk, from a place in it on, out of its first copy that has its digest. A redirected row
    /// reads the copies of the row that stands for it. Each copy is hashed once at most. It takes no memory. After a
    /// refusal `out` may hold anything.
    ///
    /// The faults: `Failed`, or `Lost` where no copy has the digest.
    pub fn read_row(&mut self, id: u64, from: u32, out: &mut [u8]) -> Result<(), RowFault>
        requires rules { RulesHold (clusters_in (tables_of self.old)) (tables_now (tables_of self.old)) }
        requires there { IsSome (find nat_cmp id (tables_now (tables_of self.old)).chunks.rows) }
        requires within { from + length out.old ≤ length_of (tables_now (tables_of self.old)).chunks.rows id }
        ensures bytes { (stored : Typed) → IsTables (tables_of self.old) stored →
            OnOk result (IsRangeOf (chunk (bases_now (tables_of self.old)) id) from (length out.old) out.new) }
        ensures lost { (stored : Typed) → IsTables (tables_of self.old) stored →
            IsErrOf result (RowFault.Lost id) → chunk (bases_now (tables_of self.old)) id ≡ None }
        ensures refused { OnErr result (IsErrOf result (RowFault.Lost id) ⊎ (IsErrOf result RowFault.Failed ×
            Rose (disk_of (tables_of self.old)).faults (disk_of (tables_of self.new)).faults)) }
        ensures reads { ReadsOnly (tables_of self.old) (tables_of self.new) }
        ensures open { open_in self.new ≡ open_in self.old }
    {
        read_row(&mut self.tables, id, from, out)
    }
}
