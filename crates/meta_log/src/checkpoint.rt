// A checkpoint of a map, and how it is written to a half.
ghost use Rattle.std.specs.Prelude.{◌≡◌, ◌⊎◌, ◌<◌, ◌≤◌, ◌+◌, ◌-◌, ◌*◌, ◌^◌, [], ◌∷◌, ◌++◌, ℕ, Bool, IsTrue, T, true, length, get_or, vec_capacity, OnOk, OnErr};
ghost use Rattle.std.specs.FinMap.Entries.{is_sorted};
ghost use Rattle.byteorder.specs.Endian.{big_bytes};
ghost use Rattle.vdisk.specs.Causes.{HasCause};
ghost use Rattle.vdisk.specs.Disk.{Only};
ghost use Rattle.vdisk.specs.Ranges.{part};
ghost use Rattle.vdisk.specs.Steps.{Keeps};
ghost use Rattle.byte_map.specs.Words.{Map, bytes_cmp, bytes_in};
ghost use Rattle.meta_log.specs.declared.limits.TheConstants.{CHECKPOINT_HEAD};
ghost use Rattle.meta_log.specs.Short.{are_short};
ghost use Rattle.meta_log.specs.Ready.{Layout, Stands, IsCommitImage};
ghost use Rattle.meta_log.specs.Checkpoint.{body_text, IsCheckpoint, IsHalfImage};
ghost use Rattle.meta_log.specs.Stream.{WritesWithin};

use crate::body::write_body;
use crate::limits::{LEAST_HALF, RECORD_HEAD, STREAM_ROOM};
use byte_map::ByteMap;
use vdisk::{Disk, Failed, write_synced};

/// The bytes of the body of a map's checkpoint.
#[tactic(auto, using(crate::proofs::Checkpoints::length_body))]
pub(crate) fn body_bytes(map: &ByteMap) -> u64
    requires { RECORD_HEAD * length map.now + bytes_in map.now < 2 ^ 64 }
    ensures text { result ≡ length (body_text map.now) }
    ensures sum { result ≡ RECORD_HEAD * length map.now + bytes_in map.now }
    ensures sorted { T (is_sorted bytes_cmp map.now) }
{
    RECORD_HEAD * map.count() as u64 + map.bytes()
}

// What stands before a body: its epoch and length, and the digest of these and the body.
fn put_header(scratch: &mut Vec<u8>, numbers: (u64, u32), digest: &[u8])
    requires room { STREAM_ROOM ≤ vec_capacity scratch.old }
    requires size { length digest.now ≡ 32 }
    ensures items { scratch.new.items ≡ (big_bytes 8 numbers.0 ++ big_bytes 4 numbers.1) ++ digest.now }
    ensures room { vec_capacity scratch.old ≤ vec_capacity scratch.new }
{
    scratch.clear();
    scratch.extend_from_slice(&numbers.0.to_be_bytes()).unwrap();
    scratch.extend_from_slice(&numbers.1.to_be_bytes()).unwrap();
    scratch.extend_from_slice(digest).unwrap();
}

// A closed gate, where a byte is left for it.
fn closed_gate(left: u64) -> &'static [u8]
    ensures none { left ≡ 0 → result.now ≡ [] }
    ensures one { 0 < left → result.now ≡ 0 ∷ [] }
{
    if left == 0 { &[] } else { &[0] }
}

// Writes all behind the gate of a half, which is to stand closed until the last of it is on the disk.
fn write_behind<D: Disk>(
    disk: &mut D,
    scratch: &mut Vec<u8>,
    map: &ByteMap,
    at: u64,
    half: u64,
    epoch: u64,
) -> Result<(), Failed>
    requires room { STREAM_ROOM ≤ vec_capacity scratch.old }
    requires short { are_short map.now ≡ true }
    requires fits { CHECKPOINT_HEAD + (RECORD_HEAD * length map.now + bytes_in map.now) ≤ half }
    requires small { half < 2 ^ 32 }
    requires range { at + half ≤ length (D.state disk.old).image }
    ensures written { IsTrue (D.state disk.old).tells →
        OnOk result (IsCheckpoint epoch map.now (part at half (D.state disk.new).image)) }
    ensures durable { IsTrue (D.state disk.old).tells →
        OnOk result (Only (D.state disk.new).image (D.state disk.new).may_leave) }
    ensures within { WritesWithin (at + 1) (half - 1) (D.state disk.old) (D.state disk.new) }
    ensures room { vec_capacity scratch.old ≤ vec_capacity scratch.new }
    ensures same { D.is_same disk.old disk.new }
    ensures cause { HasCause (D.state disk.old).faults (D.state disk.new).faults result }
{
    let length = body_bytes(map);
    let numbers = (epoch, length as u32);
    let behind = closed_gate(half - (LEAST_HALF + length));
    let digest = write_body(disk, scratch, map, at + LEAST_HALF, numbers, behind)?;
    put_header(scratch, numbers, &digest);
    write_synced(disk, at + 1, scratch)
}

/// Writes a checkpoint of the map to a half whose gate stands closed, and opens the gate once all else is on the disk.
pub(crate) fn write_half<D: Disk>(
    disk: &mut D,
    scratch: &mut Vec<u8>,
    map: &ByteMap,
    at: u64,
    half: u64,
    epoch: u64,
) -> Result<(), Failed>
    requires room { STREAM_ROOM ≤ vec_capacity scratch.old }
    requires short { are_short map.now ≡ true }
    requires fits { CHECKPOINT_HEAD + (RECORD_HEAD * length map.now + bytes_in map.now) ≤ half }
    requires small { half < 2 ^ 32 }
    requires range { at + half ≤ length (D.state disk.old).image }
    ensures moments { IsTrue (D.state disk.old).tells →
        Keeps (D.state disk.old) (D.state disk.new) (IsHalfImage at half (D.state disk.old) epoch map.now) }
    ensures written { IsTrue (D.state disk.old).tells →
        OnOk result (IsCheckpoint epoch map.now (part at half (D.state disk.new).image)) }
    ensures opened { IsTrue (D.state disk.old).tells →
        OnOk result (get_or (part at half (D.state disk.new).image) 0 0 ≡ 1) }
    ensures durable { IsTrue (D.state disk.old).tells →
        OnOk result (Only (D.state disk.new).image (D.state disk.new).may_leave) }
    ensures within { WritesWithin at half (D.state disk.old) (D.state disk.new) }
    ensures room { vec_capacity scratch.old ≤ vec_capacity scratch.new }
    ensures same { D.is_same disk.old disk.new }
    ensures cause { HasCause (D.state disk.old).faults (D.state disk.new).faults result }
{
    write_behind(disk, scratch, map, at, half, epoch)?;
    write_synced(disk, at, &[1])
}
