//! Rules on one pair of the map at a time.

ghost use Rattle.std.specs.Prelude.{◌↔◌, ℕ, List, IsTrue};
ghost use Rattle.table_records.specs.WellFormed.{IsWellFormed, AllWellFormed};
ghost use Rattle.volume_inside.specs.Entries.{Each};

use byte_map::ByteMap;
use table_records::is_well_formed;

/// A rule on one pair of the map.
pub(crate) trait PairRule {
    ghost meets: { Self → List ℕ → List ℕ → Type 0 };

    /// Whether a pair meets the rule.
    fn holds(&self, key: &[u8], value: &[u8]) -> bool
        ensures { IsTrue result ↔ meets self.now key.now value.now };
}

/// Whether each pair of a map meets a rule.
pub(crate) fn each<R: PairRule>(map: &ByteMap, rule: &R) -> bool
    ensures { IsTrue result ↔ Each (R.meets rule.now) map.now }
{
    let mut walk = map.walk();
    while let Some((key, value)) = walk.next() {
        if !rule.holds(key, value) {
            return false;
        }
    }
    true
}

/// A pair is a key and a value of a table.
struct WellFormed;

impl PairRule for WellFormed {
    ghost meets = { λ rule key value. IsWellFormed key value };

    fn holds(&self, key: &[u8], value: &[u8]) -> bool {
        is_well_formed(key, value)
    }
}

/// Whether each pair is a key and a value of a table.
pub(crate) fn all_well_formed(map: &ByteMap) -> bool
    ensures { IsTrue result ↔ AllWellFormed map.now }
{
    each(map, &WellFormed)
}
