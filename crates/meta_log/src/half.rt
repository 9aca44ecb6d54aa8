// Reading a half: its checkpoint, and the groups behind it.
ghost use Rattle.std.specs.Prelude.{◌≡◌, ◌<◌, ◌≤◌, ◌+◌, ◌^◌, ◌++◌, ◌==◌, length, get_or, nat_eq, true, IfOk, OnOk, IsErrOf, IfSome, IfNone};
ghost use Rattle.std.specs.Cmp.Lexicographic.{pointwise};
ghost use Rattle.meta_log.specs.declared.limits.TheConstants.{LEAST_HALF};
ghost use Rattle.meta_log.specs.Meta.{digest_of, group_at, map_of_half, epoch_of};
ghost use Rattle.meta_log.specs.Ready.{GoesOn};
ghost use Rattle.meta_log.specs.Reading.{IsGroupOf, IsGroupTaken, IsCheckpointOf, IsReadTo, IsSpellable, records_bytes};

use crate::digest::digest_of_parts;
use crate::limits::{BEFORE_BODY, CHECKPOINT_HEAD, LAST_EPOCH};
use crate::pieces::{piece, rest_from};
use crate::records::{Unread, read_pairs, take_records};
use byte_map::ByteMap;
use byteorder::{BigEndian, ByteOrder};
use std::alloc::Global;

/// What a live half spells: its epoch, its map, and where in it the next group goes.
#[derive(Drop)]
pub(crate) struct Found {
    pub(crate) epoch: u64,
    pub(crate) map: ByteMap,
    pub(crate) place: usize,
}

fn has_digest(digest: &[u8], first: &[u8], second: &[u8]) -> bool
    ensures { result ≡ pointwise nat_eq digest.now (digest_of (first.now ++ second.now)) }
{
    digest == digest_of_parts(first, second).as_slice()
}

// The length of the body of a group, of which these bytes are what stands behind its gate; there is none where the
// group passes their end, or its digest differs.
fn group_body_length(bytes: &[u8]) -> Option<usize>
    ensures some { IfSome result (λ n. IsGroupOf bytes.now n) }
    ensures none { IfNone result (group_at bytes.now ≡ None) }
{
    if bytes.len() < BEFORE_BODY {
        return None;
    }
    let length = BigEndian::read_u32(bytes) as usize;
    if bytes.len() < BEFORE_BODY + length {
        return None;
    }
    if !has_digest(
        piece(bytes, 4, 32),
        piece(bytes, 0, 4),
        piece(bytes, BEFORE_BODY, length),
    ) {
        return None;
    }
    Some(length)
}

// The epoch of a half or of its first nine bytes.
pub(crate) fn epoch_in(half: &[u8]) -> u64
    requires { 9 ≤ length half.now }
    ensures { result ≡ epoch_of half.now }
{
    BigEndian::read_u64(rest_from(half, 1))
}

// The length of the body of the checkpoint at the front of a half; there is none where its epoch is out of range, it
// passes the half, or its digest differs.
fn checkpoint_body_length(half: &[u8]) -> Option<usize>
    requires { LEAST_HALF ≤ length half.now }
    ensures some { IfSome result (λ n. IsCheckpointOf half.now n) }
    ensures none { IfNone result (map_of_half half.now ≡ None) }
{
    let epoch = epoch_in(half);
    if epoch == 0 || epoch > LAST_EPOCH {
        return None;
    }
    let length = BigEndian::read_u32(rest_from(half, 9)) as usize;
    if half.len() < CHECKPOINT_HEAD + length {
        return None;
    }
    if !has_digest(
        piece(half, 13, 32),
        piece(half, 1, 12),
        piece(half, CHECKPOINT_HEAD, length),
    ) {
        return None;
    }
    Some(length)
}

// Whether a gate lies inside the half and is open.
fn is_open_at(half: &[u8], place: usize) -> bool
    ensures open_gate { result ≡ (get_or half.now place 0 == 1) }
    ensures inside { result ≡ true → place < length half.now }
{
    place < half.len() && half[place] == 1
}

// Changes a map by the records of a group, of which these bytes begin with what stands behind its gate, and answers how
// many bytes that are.
fn take_group(bytes: &[u8], map: &mut ByteMap) -> Result<usize, Unread>
    ensures ok { IsSpellable map.old → IfOk result (λ n. IsGroupTaken bytes.now map.old map.new n) }
    ensures within { IfOk result (λ n. n ≤ length bytes.now) }
    ensures damaged { IsErrOf result Unread.Damaged → group_at bytes.now ≡ None }
{
    let Some(length) = group_body_length(bytes) else {
        return Err(Unread::Damaged);
    };
    take_records(piece(bytes, BEFORE_BODY, length), map)?;
    Ok(BEFORE_BODY + length)
}

// Changes a map by the groups from a place on, up to the first closed gate or the half's end, and answers where that
// is.
fn take_groups(half: &[u8], from: usize, map: &mut ByteMap) -> Result<usize, Unread>
    requires { from ≤ length half.now }
    ensures ok { IsReadTo from half.now map.old → IfOk result (λ place. GoesOn place half.now map.new) }
    ensures fits { IsReadTo from half.now map.old → IfOk result (λ place. CHECKPOINT_HEAD + records_bytes map.new ≤ place) }
    ensures spellable { IsReadTo from half.now map.old → OnOk result (IsSpellable map.new) }
    ensures within { IfOk result (λ place. place ≤ length half.now) }
    ensures damaged { IsReadTo from half.now map.old → IsErrOf result Unread.Damaged → map_of_half half.now ≡ None }
{
    let mut place = from;
    while is_open_at(half, place) {
        match take_group(rest_from(half, place + 1), map) {
            Ok(length) => place += 1 + length,
            Err(unread) => return Err(unread),
        }
    }
    Ok(place)
}

/// What a live half spells.
pub(crate) fn read_half(alloc: Global, half: &[u8]) -> Result<Found, Unread>
    requires { LEAST_HALF ≤ length half.now }
    ensures ok { IfOk result (λ found. GoesOn found.place half.now found.map) }
    ensures fits { IfOk result (λ found. CHECKPOINT_HEAD + records_bytes found.map ≤ found.place) }
    ensures spellable { IfOk result (λ found. IsSpellable found.map) }
    ensures within { IfOk result (λ found. found.place ≤ length half.now) }
    ensures epoch { IfOk result (λ found. found.epoch ≡ epoch_of half.now) }
    ensures counts { IfOk result (λ found. (1 ≤ found.epoch) × (found.epoch < 2 ^ 63)) }
    ensures damaged { IsErrOf result Unread.Damaged → map_of_half half.now ≡ None }
{
    let Some(length) = checkpoint_body_length(half) else {
        return Err(Unread::Damaged);
    };
    let mut map = read_pairs(alloc, piece(half, CHECKPOINT_HEAD, length))?;
    match take_groups(half, CHECKPOINT_HEAD + length, &mut map) {
        Ok(place) => Ok(Found {
            epoch: epoch_in(half),
            map,
            place,
        }),
        Err(unread) => Err(unread),
    }
}
