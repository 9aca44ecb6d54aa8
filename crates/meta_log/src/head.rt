// The bytes before a record's strings.
ghost use Rattle.std.specs.Prelude.{◌≡◌, ◌<◌, ◌≤◌, ◌+◌, ◌^◌, ℕ, List, length, option_map, IfSome, IfNone};
ghost use Rattle.vdisk.specs.Ranges.{part};
ghost use Rattle.meta_log.specs.Records.{tagged, record_at};
ghost use Rattle.meta_log.specs.Reading.{record_of, IsHeadOf};

use crate::limits::{DROP_RANGE, PUT};
use byteorder::{BigEndian, ByteOrder};

/// What a record does: it sets the value of a key, or drops a range of keys.
#[derive(Clone, Copy)]
pub(crate) enum Effect {
    Sets,
    Drops,
}

/// A record's effect, and the lengths of its two strings, in bytes.
#[derive(Clone, Copy)]
pub(crate) struct RecordHead {
    pub(crate) effect: Effect,
    pub(crate) first: usize,
    pub(crate) second: usize,
}

fn effect_of(tag: u8) -> Option<Effect>
    ensures { (first second : List ℕ) →
        tagged tag first second ≡ option_map (λ effect. record_of effect first second) result }
{
    if tag == PUT {
        return Some(Effect::Sets);
    }
    if tag == DROP_RANGE {
        return Some(Effect::Drops);
    }
    None
}

/// The head of the record at the front of some bytes. There is none where the tag is unknown, or the bytes end before
/// the record does.
pub(crate) fn head_of(bytes: &[u8]) -> Option<RecordHead>
    ensures some { IfSome result (λ head. IsHeadOf bytes.now head) }
    ensures none { IfNone result (record_at bytes.now ≡ None) }
{
    if bytes.len() < 5 {
        return None;
    }
    let Some(effect) = effect_of(bytes[0]) else {
        return None;
    };
    let first = BigEndian::read_u16(&bytes[1..]) as usize;
    let second = BigEndian::read_u16(&bytes[3..]) as usize;
    if bytes.len() < 5 + (first + second) {
        return None;
    }
    Some(RecordHead {
        effect,
        first,
        second,
    })
}

impl RecordHead {
    /// The bytes of the whole record.
    pub(crate) fn record_length(self) -> usize
        requires first { self.first < 2 ^ 16 }
        requires second { self.second < 2 ^ 16 }
        ensures { result ≡ 5 + (self.first + self.second) }
    {
        5 + (self.first + self.second)
    }

    pub(crate) fn first_of(self, bytes: &[u8]) -> &[u8]
        requires { 5 + (self.first + self.second) ≤ length bytes.now }
        ensures { result.now ≡ part 5 self.first bytes.now }
    {
        &bytes[5..][..self.first]
    }

    pub(crate) fn second_of(self, bytes: &[u8]) -> &[u8]
        requires { 5 + (self.first + self.second) ≤ length bytes.now }
        ensures { result.now ≡ part (5 + self.first) self.second bytes.now }
    {
        &bytes[5 + self.first..][..self.second]
    }
}
