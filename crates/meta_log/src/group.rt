// A group: its bytes, and how they go to a disk.
ghost use Rattle.std.specs.Prelude.{◌≡◌, ◌<◌, ◌≤◌, ◌+◌, ◌++◌, List, ℕ, IsTrue, length, take, drop, vec_capacity, OnOk};
ghost use Rattle.vdisk.specs.Causes.{HasCause};
ghost use Rattle.vdisk.specs.Disk.{DiskState, Holds, ChangedWithin, Only};
ghost use Rattle.vdisk.specs.Steps.{TornWithin};
ghost use Rattle.meta_log.specs.declared.limits.TheConstants.{STAGED_ROOM};
ghost use Rattle.meta_log.specs.Meta.{digest_of};
ghost use Rattle.meta_log.specs.Group.{group_text, gate_behind};

use crate::digest::digest_of_parts;
use crate::limits::BEFORE_BODY;
use byteorder::{BigEndian, ByteOrder};
use vdisk::{Disk, Failed, write_synced};

/// Writes the length of a group's body and the digest of both in front of the body. It takes no memory.
pub(crate) fn seal(group: &mut Vec<u8>)
    requires head { BEFORE_BODY ≤ length group.old.items }
    requires short { length group.old.items < STAGED_ROOM }
    ensures items { group.new.items ≡ group_text (drop BEFORE_BODY group.old.items) }
    ensures len { length group.new.items ≡ length group.old.items }
    ensures capacity { vec_capacity group.old ≤ vec_capacity group.new }
{
    seal_bytes(group);
}

#[tactic(auto, unfolding(crate::specs::Group::group_text))]
fn seal_bytes(group: &mut [u8])
    requires head { BEFORE_BODY ≤ length group.old }
    requires short { length group.old < STAGED_ROOM }
    ensures { group.new ≡ group_text (drop BEFORE_BODY group.old) }
{
    let count = (group.len() - BEFORE_BODY) as u32;
    BigEndian::write_u32(group, count);
    let digest = group_digest(group);
    group[4..BEFORE_BODY].copy_from_slice(&digest);
}

// The digest of a group's length and body.
fn group_digest(group: &[u8]) -> [u8; 32]
    requires { BEFORE_BODY ≤ length group.now }
    ensures digest { result ≡ digest_of (take 4 group.now ++ drop BEFORE_BODY group.now) }
    ensures size { length result ≡ 32 }
{
    digest_of_parts(&group[..4], &group[BEFORE_BODY..])
}

/// Writes a group at the place behind its gate, with a closed gate behind it where that is asked, and syncs.
/// It takes no memory.
pub(crate) fn write_group<D: Disk>(
    disk: &mut D,
    at: u64,
    group: &mut Vec<u8>,
    closed: bool,
) -> Result<(), Failed>
    requires room { length group.old.items < vec_capacity group.old }
    requires range { at + length (group.old.items ++ gate_behind closed) ≤ length (D.state disk.old).image }
    ensures items { group.new.items ≡ group.old.items }
    ensures capacity { vec_capacity group.old ≤ vec_capacity group.new }
    ensures written { IsTrue (D.state disk.old).tells →
        OnOk result (Holds (D.state disk.old).image at (group.old.items ++ gate_behind closed)
        (D.state disk.new).image) }
    ensures durable { IsTrue (D.state disk.old).tells →
        OnOk result (Only (D.state disk.new).image (D.state disk.new).may_leave) }
    ensures image { ChangedWithin at (length (group.old.items ++ gate_behind closed))
        (D.state disk.old).image (D.state disk.new).image }
    ensures torn { TornWithin at (length (group.old.items ++ gate_behind closed))
        (D.state disk.old) (D.state disk.new) }
    ensures same { D.is_same disk.old disk.new }
    ensures cause { HasCause (D.state disk.old).faults (D.state disk.new).faults result }
{
    let end = group.len();
    push_gate(group, closed);
    let written = write_synced(disk, at, group);
    group.truncate(end);
    written
}

fn push_gate(group: &mut Vec<u8>, closed: bool)
    requires { length group.old.items < vec_capacity group.old }
    ensures items { group.new.items ≡ group.old.items ++ gate_behind closed }
    ensures capacity { vec_capacity group.old ≤ vec_capacity group.new }
{
    if closed {
        group.push(0).unwrap();
    }
}
