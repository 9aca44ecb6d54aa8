// Reading the records of a body into a map.
ghost use Rattle.std.specs.Prelude.{◌≡◌, ◌<◌, ◌≤◌, ◌+◌, ◌||◌, length, option_map, Some, IfOk, OnOk, IsErrOf, IfSome, IfNone};
ghost use Rattle.std.specs.Ordering.{is_lt};
ghost use Rattle.byte_map.specs.Words.{bytes_cmp};
ghost use Rattle.vdisk.specs.Ranges.{part};
ghost use Rattle.meta_log.specs.Records.{Record, Put, record_at, records_of, change, changes};
ghost use Rattle.meta_log.specs.Meta.{checkpoint_map};
ghost use Rattle.meta_log.specs.Reading.{record_of, IsTaken, IsPutHeadOf, IsSpellable, pairs_in, records_bytes};
ghost use Rattle.meta_log.specs.declared.records.Unread.TheVariants.{Damaged, Memory};

use crate::head::{Effect, RecordHead, head_of};
use crate::pieces::rest_from;
use byte_map::ByteMap;
use std::alloc::{AllocError, Global};

/// Why a half was not read.
#[derive(Clone, Copy, Debug)]
pub(crate) enum Unread {
    Damaged,
    Memory,
}

impl From<AllocError> for Unread {
    ghost from_gives = { λ _ e. e ≡ Memory };

    fn from(_: AllocError) -> Self {
        Unread::Memory
    }
}

fn apply(effect: Effect, first: &[u8], second: &[u8], map: &mut ByteMap) -> Result<(), AllocError>
    ensures { OnOk result (map.new ≡ change (record_of effect first.now second.now) map.old) }
{
    match effect {
        Effect::Sets => map.put(first, second),
        Effect::Drops => {
            map.drop_range(first, second);
            Ok(())
        }
    }
}

// Changes a map by the record at the front of some bytes, and answers how many bytes that has.
fn take_record(bytes: &[u8], map: &mut ByteMap) -> Result<usize, Unread>
    ensures ok { IfOk result (λ n. IsTaken bytes.now map.old map.new n) }
    ensures damaged { IsErrOf result Unread.Damaged → record_at bytes.now ≡ None }
{
    let Some(head) = head_of(bytes) else {
        return Err(Unread::Damaged);
    };
    let first = head.first_of(bytes);
    let second = head.second_of(bytes);
    apply(head.effect, first, second, map)?;
    Ok(head.record_length())
}

/// Changes a map by the records of a body, in order. After a refusal the map may have been changed by the first ones.
pub(crate) fn take_records(body: &[u8], map: &mut ByteMap) -> Result<(), Unread>
    ensures ok { OnOk result (Some map.new ≡ option_map (λ made. changes made map.old) (records_of body.now)) }
    ensures spellable { IsSpellable map.old → OnOk result (IsSpellable map.new) }
    ensures fits { IsSpellable map.old → OnOk result (records_bytes map.new ≤ records_bytes map.old + length body.now) }
    ensures damaged { IsErrOf result Unread.Damaged → records_of body.now ≡ None }
{
    let mut place = 0;
    while place < body.len() {
        place += take_record(&body[place..], map)?;
    }
    Ok(())
}

// Whether a key may stand behind the last one.
fn may_follow(is_first: bool, last: &[u8], key: &[u8]) -> bool
    ensures { result ≡ (is_first || is_lt (bytes_cmp last.now key.now)) }
{
    is_first || last.cmp(key).is_lt()
}

// The head of the Put record at the front of some bytes.
fn put_head_of(bytes: &[u8]) -> Option<RecordHead>
    requires { 0 < length bytes.now }
    ensures some { IfSome result (λ head. IsPutHeadOf bytes.now head) }
    ensures none { IfNone result (pairs_in bytes.now ≡ None) }
{
    let head = head_of(bytes)?;
    match head.effect {
        Effect::Sets => Some(head),
        Effect::Drops => None,
    }
}

/// The map that the body of a checkpoint spells: Put records with strictly ascending keys.
pub(crate) fn read_pairs(alloc: Global, body: &[u8]) -> Result<ByteMap, Unread>
    ensures ok { IfOk result (λ map. checkpoint_map body.now ≡ Some map) }
    ensures spellable { IfOk result (λ map. IsSpellable map) }
    ensures fits { IfOk result (λ map. records_bytes map ≤ length body.now) }
    ensures damaged { IsErrOf result Unread.Damaged → checkpoint_map body.now ≡ None }
{
    let mut map = ByteMap::new(alloc);
    let mut place = 0;
    let mut last: &[u8] = &[];
    while place < body.len() {
        let rest = rest_from(body, place);
        let Some(head) = put_head_of(rest) else {
            return Err(Unread::Damaged);
        };
        let key = head.first_of(rest);
        if !may_follow(place == 0, last, key) {
            return Err(Unread::Damaged);
        }
        map.put(key, head.second_of(rest))?;
        last = key;
        place += head.record_length();
    }
    Ok(map)
}
