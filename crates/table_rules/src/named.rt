//! That each file is named exactly once.

ghost use Rattle.std.specs.Prelude.{◌≡◌, ◌≢◌, ◌⊎◌, ◌↔◌, ◌<◌, ◌≤◌, ◌+◌, ◌-◌};
ghost use Rattle.std.specs.Prelude.{◌++◌, ℕ, IsTrue, IfOk, OnOk, length, get_or, IsPermutation};
ghost use Rattle.std.specs.List.Sorted.{IsNonDecreasing};
ghost use Rattle.table_records.specs.Tables.{file_codec};
ghost use Rattle.volume_inside.specs.Entries.{Each};
ghost use Rattle.volume_inside.specs.Typed.{typed_of};
ghost use Rattle.volume_inside.specs.Rules.{IsNamedOnce, NamesHold};
ghost use Rattle.table_rules.specs.Ids.{ids_of, id_in_pair, times, IsOnceIn};
ghost use Rattle.table_rules.specs.Pairs.{PairMeets};

use crate::entries::names_are_lawful;
use crate::pairs::{PairRule, each};
use byte_map::ByteMap;
use plain_volume::limits::MOST_FILES;
use std::alloc::Global;
use table_records::{FileTable, Memory, NameTable, Table};

/// Adds the id that a pair names, if it is a name.
fn push_id(ids: &mut Vec<u64>, key: &[u8], value: &[u8]) -> Result<(), Memory>
    ensures { OnOk result (ids.new.items ≡ ids.old.items ++ id_in_pair key.now value.now) }
{
    if let Some(_) = NameTable::read_key(key) {
        ids.push(NameTable::read_value(value))?;
    }
    Ok(())
}

/// The ids that names have, in the order of the names.
fn named_ids(alloc: Global, map: &ByteMap) -> Result<Vec<u64>, Memory>
    ensures ids { IfOk result (λ ids. ids.items ≡ ids_of (typed_of map.now).names) }
    ensures count { IfOk result (λ ids. length ids.items ≡ length (typed_of map.now).names) }
{
    let mut ids = Vec::new(alloc);
    let mut walk = map.walk();
    while let Some((key, value)) = walk.next() {
        push_id(&mut ids, key, value)?;
    }
    Ok(ids)
}

/// The same ids in order.
fn sorted_ids(alloc: Global, map: &ByteMap) -> Result<Vec<u64>, Memory>
    ensures sorted { IfOk result (λ ids. IsNonDecreasing ids.items) }
    ensures same { IfOk result (λ ids. IsPermutation (ids_of (typed_of map.now).names) ids.items) }
    ensures count { IfOk result (λ ids. length ids.items ≡ length (typed_of map.now).names) }
{
    let mut ids = named_ids(alloc, map)?;
    ids.sort_unstable();
    Ok(ids)
}

/// Whether the id before a place, if there is one, is another one.
fn differs_below(ids: &[u64], place: usize) -> bool
    requires { place < length ids.now }
    ensures { IsTrue result ↔ ((place ≡ 0) ⊎ (get_or ids.now (place - 1) 0 ≢ get_or ids.now place 0)) }
{
    place == 0 || ids[place - 1] != ids[place]
}

/// Whether the id behind a place, if there is one, is another one.
fn differs_above(ids: &[u64], place: usize) -> bool
    requires { place < length ids.now }
    ensures { IsTrue result ↔ ((length ids.now ≤ place + 1) ⊎ (get_or ids.now (place + 1) 0 ≢ get_or ids.now place 0)) }
{
    ids.len() <= place + 1 || ids[place + 1] != ids[place]
}

/// Whether the id at a place of ids in order is not there once more.
fn stands_alone(ids: &[u64], place: usize) -> bool
    requires sorted { IsNonDecreasing ids.now }
    requires range { place < length ids.now }
    ensures { IsTrue result ↔ (times (get_or ids.now place 0) ids.now ≡ 1) }
{
    let below = differs_below(ids, place);
    let above = differs_above(ids, place);
    below && above
}

/// Whether an id stands exactly once among ids in order.
fn stands_once(ids: &[u64], id: u64) -> bool
    requires { IsNonDecreasing ids.now }
    ensures { IsTrue result ↔ (times id ids.now ≡ 1) }
{
    match ids.binary_search(&id) {
        Ok(place) => stands_alone(ids, place),
        Err(_) => false,
    }
}

/// The id of a file stands exactly once among ids in order.
#[derive(Drop)]
struct OnceRule<'a> {
    ids: &'a [u64],
    ghost sorted: { IsNonDecreasing ids.now },
}

impl<'a> PairRule for OnceRule<'a> {
    ghost meets = { λ rule. PairMeets file_codec (IsOnceIn rule.ids.now) };

    fn holds(&self, key: &[u8], _value: &[u8]) -> bool {
        match FileTable::read_key(key) {
            Some(id) => stands_once(self.ids, id),
            None => true,
        }
    }
}

/// Whether each file is named exactly once, where these are the ids of all names in order.
fn files_are_named_once(map: &ByteMap, ids: &[u64]) -> bool
    requires sorted { IsNonDecreasing ids.now }
    requires same { IsPermutation (ids_of (typed_of map.now).names) ids.now }
    ensures { let t = typed_of map.now in IsTrue result ↔ Each (IsNamedOnce t.names) t.files }
{
    each(map, &OnceRule { ids })
}

/// Whether names meet their rule: each is lawful and names a file, each file has exactly one, and they are not too
/// many.
pub(crate) fn names_hold(alloc: Global, map: &ByteMap) -> Result<bool, Memory>
    ensures { let t = typed_of map.now in IfOk result (λ holds. IsTrue holds ↔ NamesHold t.names t.files) }
{
    let ids = sorted_ids(alloc, map)?;
    let few = ids.len() as u64 <= MOST_FILES;
    let lawful = names_are_lawful(map);
    let once = files_are_named_once(map, &ids);
    Ok(few && lawful && once)
}
