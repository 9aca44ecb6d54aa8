//! The SHA-256 of a file, read piece by piece.

ghost use Rattle.std.specs.Prelude.{◌≡◌, ◌⊎◌, ◌<◌, ℕ, true, length, None, Some, IsSome, IsErrOf, IfOk, OnOk, OnErr};
ghost use Rattle.std.specs.Ordering.{nat_cmp};
ghost use Rattle.std.specs.FinMap.{find};
ghost use Rattle.sha2.specs.Sha256.{sha256};
ghost use Rattle.vdisk.specs.Causes.{Rose};
ghost use Rattle.plain_volume.specs.Volume.{bytes_of, lost_where};
ghost use Rattle.volume_inside.specs.Rules.{RulesHold};
ghost use Rattle.volume_inside.specs.Typed.{Typed};
ghost use Rattle.volume_inside.specs.View.{file_cells};
ghost use Rattle.volume_tables.specs.Tables.{tables_now, inside_now, disk_of, clusters_in, IsTables};
ghost use Rattle.volume_tables.specs.Reads.{ReadsOnly};
ghost use Rattle.rw_filter.specs.Filters.{filtered};

use plain_volume::Fault;
use rw_filter::Filter;
use sha2::{Digest, Sha256};
use vdisk::Disk;

/// How many bytes are read at once.
const PIECE_BYTES: usize = 65536;

/// A file of so many bytes is read at once: its buffer costs less to zero.
const SMALL_BYTES: usize = 4096;

/// The SHA-256 of a file that is there, and has so many bytes, read through a buffer. It takes no memory, and a refusal
/// stops nothing. The faults: `Failed`, or `Damaged` with the first place of the file whose cell is lost.
fn hash_through<D: Disk>(
    filter: &mut Filter<D>,
    file: u64,
    size: u64,
    buffer: &mut [u8],
) -> Result<[u8; 32], Fault>
    requires rules { RulesHold (clusters_in (filtered filter.old)) (tables_now (filtered filter.old)) }
    requires there { IsSome (find nat_cmp file (tables_now (filtered filter.old)).files) }
    requires long { length (file_cells (inside_now (filtered filter.old)) file) ≡ size }
    requires some { 0 < length buffer.old }
    ensures digest { (stored : Typed) → IsTables (filtered filter.old) stored →
        IfOk result (λ digest. digest ≡ sha256 (bytes_of (file_cells (inside_now (filtered filter.old)) file))) }
    ensures whole { (stored : Typed) → IsTables (filtered filter.old) stored →
        OnOk result (lost_where (λ p. true) 0 (file_cells (inside_now (filtered filter.old)) file) ≡ None) }
    ensures damaged { (stored : Typed) → IsTables (filtered filter.old) stored → (q : ℕ) →
        IsErrOf result (Fault.Damaged q) →
        lost_where (λ p. true) 0 (file_cells (inside_now (filtered filter.old)) file) ≡ Some q }
    ensures reads { ReadsOnly (filtered filter.old) (filtered filter.new) }
    ensures refused { OnErr result (((q : ℕ) × IsErrOf result (Fault.Damaged q)) ⊎ (IsErrOf result Fault.Failed ×
        Rose (disk_of (filtered filter.old)).faults (disk_of (filtered filter.new)).faults)) }
{
    let mut hasher = Sha256::new();
    let mut at = 0;
    while at < size {
        let count = (size - at).min(buffer.len() as u64);
        let piece = &mut buffer[..count as usize];
        filter.read_into(file, at, piece)?;
        hasher.update(&*piece);
        at += count;
    }
    Ok(hasher.finalize())
}

/// The SHA-256 of a file that is there, and has so many bytes. It takes no memory, and a refusal stops nothing. The faults
/// are those of `hash_through`.
pub(crate) fn hash_file<D: Disk>(
    filter: &mut Filter<D>,
    file: u64,
    size: u64,
) -> Result<[u8; 32], Fault>
    requires rules { RulesHold (clusters_in (filtered filter.old)) (tables_now (filtered filter.old)) }
    requires there { IsSome (find nat_cmp file (tables_now (filtered filter.old)).files) }
    requires long { length (file_cells (inside_now (filtered filter.old)) file) ≡ size }
    ensures digest { (stored : Typed) → IsTables (filtered filter.old) stored →
        IfOk result (λ digest. digest ≡ sha256 (bytes_of (file_cells (inside_now (filtered filter.old)) file))) }
    ensures whole { (stored : Typed) → IsTables (filtered filter.old) stored →
        OnOk result (lost_where (λ p. true) 0 (file_cells (inside_now (filtered filter.old)) file) ≡ None) }
    ensures damaged { (stored : Typed) → IsTables (filtered filter.old) stored → (q : ℕ) →
        IsErrOf result (Fault.Damaged q) →
        lost_where (λ p. true) 0 (file_cells (inside_now (filtered filter.old)) file) ≡ Some q }
    ensures reads { ReadsOnly (filtered filter.old) (filtered filter.new) }
    ensures refused { OnErr result (((q : ℕ) × IsErrOf result (Fault.Damaged q)) ⊎ (IsErrOf result Fault.Failed ×
        Rose (disk_of (filtered filter.old)).faults (disk_of (filtered filter.new)).faults)) }
{
    if size <= SMALL_BYTES as u64 {
        let mut buffer = [0; SMALL_BYTES];
        return hash_through(filter, file, size, &mut buffer);
    }
    let mut buffer = [0; PIECE_BYTES];
    hash_through(filter, file, size, &mut buffer)
}
