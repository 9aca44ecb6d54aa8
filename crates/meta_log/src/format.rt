// A fresh journal.
ghost use Rattle.std.specs.Prelude.{◌≡◌, ◌⊎◌, ◌<◌, ◌≤◌, ◌+◌, ◌*◌, ◌^◌, [], ℕ, IsTrue, false, length, vec_capacity, IfOk, IfErr, OnOk, OnErr};
ghost use Rattle.vdisk.specs.Causes.{Rose, HasCause};
ghost use Rattle.vdisk.specs.Steps.{Keeps};
ghost use Rattle.meta_log.specs.declared.limits.TheConstants.{CHECKPOINT_HEAD};
ghost use Rattle.meta_log.specs.declared.fault.MetaFault.TheVariants.{Failed, Memory};
ghost use Rattle.meta_log.specs.Ready.{Stands};
ghost use Rattle.meta_log.specs.Format.{fresh, IsFormatImage};
ghost use Rattle.meta_log.specs.Stream.{WritesWithin};

use crate::buffers::buffers;
use crate::checkpoint::write_half;
use crate::fault::MetaFault;
use crate::limits::{LEAST_HALF, STREAM_ROOM};
use crate::log::MetaLog;
use byte_map::ByteMap;
use std::alloc::Global;
use vdisk::{Disk, write_synced};

// Closes the gates of both halves, and writes the checkpoint of a map with no pair to the first one.
fn write_empty<D: Disk>(
    disk: &mut D,
    scratch: &mut Vec<u8>,
    map: &ByteMap,
    at: u64,
    half: u64,
) -> Result<(), vdisk::Failed>
    requires room { STREAM_ROOM ≤ vec_capacity scratch.old }
    requires empty { map.now ≡ [] }
    requires least { LEAST_HALF ≤ half }
    requires most { half < 2 ^ 32 }
    requires range { at + 2 * half ≤ length (D.state disk.old).image }
    ensures moments { IsTrue (D.state disk.old).tells →
        Keeps (D.state disk.old) (D.state disk.new) (IsFormatImage at half (D.state disk.old)) }
    ensures stands { IsTrue (D.state disk.old).tells → OnOk result (Stands (fresh at half) (D.state disk.new) []) }
    ensures within { WritesWithin at (2 * half) (D.state disk.old) (D.state disk.new) }
    ensures room { vec_capacity scratch.old ≤ vec_capacity scratch.new }
    ensures same { D.is_same disk.old disk.new }
    ensures cause { HasCause (D.state disk.old).faults (D.state disk.new).faults result }
{
    disk.write(at + half, &[0])?;
    write_synced(disk, at, &[0])?;
    write_half(disk, scratch, map, at, half, 1)
}

impl<D: Disk> MetaLog<D> {
    ghost use Rattle.meta_log.specs.Log.{IsLog, state_of, now_of, staged_of};

    /// Makes a journal with an empty map: two halves of so many bytes, one behind the other from a place on. A journal
    /// that stood there is lost from its first moment on.
    pub fn format(
        alloc: Global,
        mut disk: D,
        at: u64,
        half: u64,
    ) -> Result<MetaLog<D>, (D, MetaFault)>
        requires least { LEAST_HALF ≤ half }
        requires most { half < 2 ^ 32 }
        requires range { at + 2 * half ≤ length (D.state disk).image }
        ensures ok { IsTrue (D.state disk).tells → IfOk result (λ log. IsLog log []) }
        ensures empty { IfOk result (λ log. now_of log ≡ []) }
        ensures place { IfOk result (λ log. (log.at ≡ at) × (log.half ≡ half)) }
        ensures staged { IfOk result (λ log. staged_of log ≡ 0) }
        ensures epoch { IfOk result (λ log. log.epoch ≡ 1) }
        ensures next { IfOk result (λ log. log.place ≡ CHECKPOINT_HEAD) }
        ensures runs { IfOk result (λ log. log.stopped ≡ false) }
        // At each moment only the halves have changed, and from when both gates are closed they spell nothing, or the
        // empty map.
        ensures moments { IsTrue (D.state disk).tells →
            IfOk result (λ log. Keeps (D.state disk) (state_of log) (IsFormatImage at half (D.state disk))) }
        ensures moments_err { IsTrue (D.state disk).tells →
            IfErr result (λ fault. Keeps (D.state disk) (D.state fault.0) (IsFormatImage at half (D.state disk))) }
        ensures within { IfOk result (λ log. WritesWithin at (2 * half) (D.state disk) (state_of log)) }
        ensures within_err { IfErr result (λ fault. WritesWithin at (2 * half) (D.state disk) (D.state fault.0)) }
        ensures refused { IfErr result (λ fault.
            ((fault.1 ≡ Failed) × Rose (D.state disk).faults (D.state fault.0).faults) ⊎ (fault.1 ≡ Memory)) }
        ensures later { IfOk result (λ log. (D.state disk).faults ≤ (state_of log).faults) }
        ensures later_err { IfErr result (λ fault. (D.state disk).faults ≤ (D.state fault.0).faults) }
        ensures same { IfOk result (λ log. D.is_same disk log.disk) }
        ensures same_err { IfErr result (λ fault. D.is_same disk fault.0) }
    {
        let (staged, mut scratch) = match buffers(alloc) {
            Ok(made) => made,
            Err(_) => return Err((disk, MetaFault::Memory)),
        };
        let map = ByteMap::new(alloc);
        match write_empty(&mut disk, &mut scratch, &map, at, half) {
            Ok(()) => Ok(MetaLog {
                disk,
                at,
                half,
                live_at: at,
                other_at: at + half,
                other_open: false,
                epoch: 1,
                place: LEAST_HALF,
                map,
                staged,
                scratch,
                stopped: false,
            }),
            Err(_) => Err((disk, MetaFault::Failed)),
        }
    }
}
