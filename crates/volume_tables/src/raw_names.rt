//! The pairs of the table of names in the journal's map.

ghost use Rattle.std.specs.Prelude.{◌≡◌, ◌≤◌, ◌+◌, length, Some, None, IfSome};
ghost use Rattle.std.specs.Option.{option_map};
ghost use Rattle.std.specs.FinMap.Entries.{find};
ghost use Rattle.groundwork.specs.declared.limits.TheConstants.{MOST_NAME_BYTES};
ghost use Rattle.byte_map.specs.Words.{first_of, next_in, bytes_cmp};
ghost use Rattle.table_records.specs.Codecs.{typed, IsKeyed};
ghost use Rattle.table_records.specs.Tables.{name_codec};
ghost use Rattle.meta_log.specs.declared.limits.TheConstants.{MOST_STAGED};
ghost use Rattle.volume_tables.specs.Log.{log_now, log_staged};
ghost use Rattle.volume_tables.specs.Contents.{SortedAnd};
ghost use Rattle.volume_tables.specs.Staging.{IsStagedPut, IsStagedDrop};
ghost use Rattle.volume_tables.specs.Counts.{one_if_key};

use crate::fault;
use meta_log::MetaLog;
use plain_volume::Fault;
use table_records::{MOST_NAME_KEY_BYTES, MOST_VALUE_BYTES, NameTable};
use vdisk::Disk;

/// The file of a name.
pub(crate) fn get_name<D: Disk>(log: &MetaLog<D>, name: &[u8]) -> Option<u64>
    requires { length name.now ≤ MOST_NAME_BYTES }
    ensures { result ≡ find bytes_cmp name.now (typed name_codec (log_now log.now)) }
{
    let mut spelled = [0u8; MOST_NAME_KEY_BYTES];
    let length = NameTable::write_key(name, &mut spelled);
    match log.get(&spelled[..length]) {
        Some(bytes) => Some(NameTable::read_value(bytes)),
        None => None,
    }
}

/// The least name above one, with its file, where each key with the number of the table is one of its keys.
pub(crate) fn next_name<'a, D: Disk>(log: &'a MetaLog<D>, after: &[u8]) -> Option<(&'a [u8], u64)>
    requires { length after.now ≤ MOST_NAME_BYTES }
    ensures { SortedAnd (IsKeyed name_codec) (log_now log.now) →
        option_map (λ p. (p.0.now, p.1)) result ≡ next_in bytes_cmp after.now (typed name_codec (log_now log.now)) }
{
    let mut spelled = [0u8; MOST_NAME_KEY_BYTES];
    let length = NameTable::write_key(after, &mut spelled);
    match log.next(&spelled[..length]) {
        None => None,
        Some((key, value)) => match NameTable::read_key(key) {
            None => None,
            Some(name) => Some((name, NameTable::read_value(value))),
        },
    }
}

/// The least name above the empty one, with its file, where the empty one is no name of the table.
pub(crate) fn first_name<D: Disk>(log: &MetaLog<D>) -> Option<(&[u8], u64)>
    ensures { SortedAnd (IsKeyed name_codec) (log_now log.now) →
        option_map (λ p. (p.0.now, p.1)) result ≡ first_of (typed name_codec (log_now log.now)) }
{
    match get_name(log, &[]) {
        Some(id) => Some((&[], id)),
        None => next_name(log, &[]),
    }
}

/// Stages a name and its file. Room for the record was ensured.
pub(crate) fn put_name<D: Disk>(log: &mut MetaLog<D>, name: &[u8], id: u64) -> Result<(), Fault>
    requires short { length name.now ≤ MOST_NAME_BYTES }
    requires room { log_staged log.old + (14 + length name.now) ≤ MOST_STAGED }
    ensures { IsStagedPut name_codec name.now id log.old log.new result }
{
    let mut spelled = [0u8; MOST_NAME_KEY_BYTES];
    let length = NameTable::write_key(name, &mut spelled);
    let mut bytes = [0u8; MOST_VALUE_BYTES];
    let size = NameTable::write_value(id, &mut bytes);
    fault::of_log(log.stage_put(&spelled[..length], &bytes[..size]))
}

/// Stages that the names from one on and below another are dropped. Room for the record was ensured.
pub(crate) fn drop_names<D: Disk>(log: &mut MetaLog<D>, from: &[u8], to: &[u8])
    requires short { length from.now ≤ MOST_NAME_BYTES }
    requires short_end { length to.now ≤ MOST_NAME_BYTES }
    requires room { log_staged log.old + (7 + (length from.now + length to.now)) ≤ MOST_STAGED }
    ensures { IsStagedDrop name_codec from.now (Some to.now) log.old log.new }
{
    let mut low = [0u8; MOST_NAME_KEY_BYTES];
    let low_length = NameTable::write_key(from, &mut low);
    let mut high = [0u8; MOST_NAME_KEY_BYTES];
    let high_length = NameTable::write_key(to, &mut high);
    log.stage_drop(&low[..low_length], &high[..high_length])
        .unwrap();
}

/// Stages that all names from one on are dropped. Room for the record was ensured.
pub(crate) fn drop_names_from<D: Disk>(log: &mut MetaLog<D>, from: &[u8])
    requires short { length from.now ≤ MOST_NAME_BYTES }
    requires room { log_staged log.old + (7 + length from.now) ≤ MOST_STAGED }
    ensures { IsStagedDrop name_codec from.now None log.old log.new }
{
    let mut low = [0u8; MOST_NAME_KEY_BYTES];
    let low_length = NameTable::write_key(from, &mut low);
    log.stage_drop(&low[..low_length], &[NameTable::NUMBER + 1])
        .unwrap();
}

/// Stages that the names from one on are dropped, all of them or those below another. Room for the record was ensured.
pub(crate) fn drop_name_range<D: Disk>(log: &mut MetaLog<D>, from: &[u8], to: Option<&[u8]>)
    requires short { length from.now ≤ MOST_NAME_BYTES }
    requires short_end { IfSome to (λ name. length name.now ≤ MOST_NAME_BYTES) }
    requires room { log_staged log.old + (262 + length from.now) ≤ MOST_STAGED }
    ensures { IsStagedDrop name_codec from.now (option_map (λ name. name.now) to.entry) log.old log.new }
{
    match to {
        Some(to) => drop_names(log, from, to),
        None => drop_names_from(log, from),
    }
}

/// 1 where a key is a name, and else 0.
fn name_at(key: &[u8]) -> u64
    ensures { result ≡ one_if_key (name_codec.read_key key.now) }
{
    match NameTable::read_key(key) {
        Some(_) => 1,
        None => 0,
    }
}

/// How many names there are.
pub(crate) fn count_names<D: Disk>(log: &MetaLog<D>) -> u64
    ensures { result ≡ length (typed name_codec (log_now log.now)) }
{
    let mut count = 0;
    let mut walk = log.pairs().walk();
    while let Some((key, _)) = walk.next() {
        count += name_at(key);
    }
    count
}
