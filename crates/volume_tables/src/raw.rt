//! The pairs of one table in the journal's map.

ghost use Rattle.std.specs.Prelude.{◌≡◌, ◌≤◌, ◌+◌, ℕ, List, [], ◌∷◌, length, take, None, Some, IsTrue};
ghost use Rattle.std.specs.FinMap.Entries.{find};
ghost use Rattle.byte_map.specs.Words.{first_of, next_in};
ghost use Rattle.table_records.specs.Codecs.{typed, IsKeyed};
ghost use Rattle.table_records.specs.Changes.{EndsRange};
ghost use Rattle.meta_log.specs.declared.limits.TheConstants.{MOST_STAGED, RECORD_HEAD};
ghost use Rattle.volume_tables.specs.Log.{log_now, log_staged};
ghost use Rattle.volume_tables.specs.Contents.{SortedAnd};
ghost use Rattle.volume_tables.specs.Dropped.{in_range};
ghost use Rattle.volume_tables.specs.Staging.{IsStagedPut, IsStagedDrop};

use crate::fault;
use meta_log::MetaLog;
use plain_volume::Fault;
use table_records::{MOST_KEY_BYTES, MOST_VALUE_BYTES, Table};
use vdisk::Disk;

/// The value of a key.
pub(crate) fn get<D: Disk, T: Table>(log: &MetaLog<D>, key: T::Key) -> Option<T::Value>
    ensures { result ≡ find T.codec.cmp key (typed T.codec (log_now log.now)) }
{
    let mut spelled = [0u8; MOST_KEY_BYTES];
    let length = T::write_key(key, &mut spelled);
    match log.get(&spelled[..length]) {
        Some(bytes) => Some(T::read_value(bytes)),
        None => None,
    }
}

/// The entry with the least key above one, where each key with the number of the table is one of its keys.
pub(crate) fn next<D: Disk, T: Table>(log: &MetaLog<D>, after: T::Key) -> Option<(T::Key, T::Value)>
    ensures { SortedAnd (IsKeyed T.codec) (log_now log.now) →
        result ≡ next_in T.codec.cmp after (typed T.codec (log_now log.now)) }
{
    let mut spelled = [0u8; MOST_KEY_BYTES];
    let length = T::write_key(after, &mut spelled);
    match log.next(&spelled[..length]) {
        None => None,
        Some((key, value)) => match T::read_key(key) {
            None => None,
            Some(key) => Some((key, T::read_value(value))),
        },
    }
}

/// The first entry of a table, where each key with its number is one of its keys, and the number alone is none.
pub(crate) fn first<D: Disk, T: Table>(log: &MetaLog<D>) -> Option<(T::Key, T::Value)>
    ensures { T.codec.read_key (T.codec.number ∷ []) ≡ None →
        SortedAnd (IsKeyed T.codec) (log_now log.now) →
        result ≡ first_of (typed T.codec (log_now log.now)) }
{
    match log.next(&[T::NUMBER]) {
        None => None,
        Some((key, value)) => match T::read_key(key) {
            None => None,
            Some(key) => Some((key, T::read_value(value))),
        },
    }
}

/// How many entries of a table have a key from one on and below another, where each key with the number of the table is
/// one of its keys.
pub(crate) fn count_between<D: Disk, T: Table>(log: &MetaLog<D>, from: T::Key, to: T::Key) -> usize
    ensures { SortedAnd (IsKeyed T.codec) (log_now log.now) →
        result ≡ length (in_range T.codec from (Some to) (typed T.codec (log_now log.now))) }
{
    let mut low = [0u8; MOST_KEY_BYTES];
    let low_length = T::write_key(from, &mut low);
    let mut high = [0u8; MOST_KEY_BYTES];
    let high_length = T::write_key(to, &mut high);
    log.count_between(&low[..low_length], &high[..high_length])
}

/// Stages an entry of a table. Room for its record was ensured.
pub(crate) fn put<D: Disk, T: Table>(
    log: &mut MetaLog<D>,
    key: T::Key,
    value: T::Value,
) -> Result<(), Fault>
    requires { (b w : List ℕ) → T.codec.read_key b ≡ Some key → IsTrue (T.codec.is_value w) →
        log_staged log.old + (RECORD_HEAD + (length b + length w)) ≤ MOST_STAGED }
    ensures { IsStagedPut T.codec key value log.old log.new result }
{
    let mut spelled = [0u8; MOST_KEY_BYTES];
    let length = T::write_key(key, &mut spelled);
    let mut bytes = [0u8; MOST_VALUE_BYTES];
    let size = T::write_value(value, &mut bytes);
    fault::of_log(log.stage_put(&spelled[..length], &bytes[..size]))
}

/// Stages that the entries of a table with the keys from one on are dropped, all of them or those below another. Room
/// for the record was ensured.
pub(crate) fn drop_range<D: Disk, T: Table>(log: &mut MetaLog<D>, from: T::Key, to: Option<T::Key>)
    requires { (b w : List ℕ) → T.codec.read_key b ≡ Some from → EndsRange T.codec to w →
        log_staged log.old + (RECORD_HEAD + (length b + length w)) ≤ MOST_STAGED }
    ensures { IsStagedDrop T.codec from to log.old log.new }
{
    let mut low = [0u8; MOST_KEY_BYTES];
    let low_length = T::write_key(from, &mut low);
    let mut high = [0u8; MOST_KEY_BYTES];
    let high_length = write_end::<T>(to, &mut high);
    log.stage_drop(&low[..low_length], &high[..high_length])
        .unwrap();
}

/// Spells the end of a range of keys: a key, or the number above that of the table.
fn write_end<T: Table>(to: Option<T::Key>, out: &mut [u8]) -> usize
    requires { 32 ≤ length out.old }
    ensures short { result ≤ 32 }
    ensures ends { EndsRange T.codec to (take result out.new) }
{
    match to {
        Some(to) => T::write_key(to, out),
        None => {
            out[0] = T::NUMBER + 1;
            1
        }
    }
}
