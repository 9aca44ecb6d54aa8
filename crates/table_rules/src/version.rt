//! The version of the formats.

ghost use Rattle.std.specs.Prelude.{IfSome, IfNone, ℕ, T};
ghost use Rattle.std.specs.FinMap.Entries.{is_sorted};
ghost use Rattle.byte_map.specs.Words.{bytes_cmp};
ghost use Rattle.volume_inside.specs.InsideOf.{HasVersion};

use byte_map::ByteMap;
use table_records::{Table, VolumeTable};

/// The version of the volume's record, where that is there with its twelve bytes and the version is not known.
pub fn unknown_version(map: &ByteMap) -> Option<u32>
    ensures some { IfSome result (λ found. HasVersion found map.now) }
    ensures none { IfNone result ((found : ℕ) → HasVersion found map.now → ⊥) }
    ensures sorted { T (is_sorted bytes_cmp map.now) }
{
    let value = map.get(&[VolumeTable::NUMBER])?;
    if value.len() != 12 {
        return None;
    }
    let version = VolumeTable::read_value(value).version;
    if version == 1 { None } else { Some(version) }
}
