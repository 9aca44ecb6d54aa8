// A caller of the journal: what its public clauses give to the layers above.
ghost use Rattle.std.specs.Prelude.{◌≡◌, ◌⊎◌, ◌≤◌, ◌+◌, List, ℕ, Ok, IsTrue, false, length, OnOk};
ghost use Rattle.std.specs.FinMap.Entries.{put};
ghost use Rattle.vdisk.specs.Disk.{DiskState};
ghost use Rattle.vdisk.specs.Ranges.{part};
ghost use Rattle.vdisk.specs.Steps.{Keeps};
ghost use Rattle.byte_map.specs.Words.{Map, bytes_cmp};
ghost use Rattle.meta_log.specs.Log.{IsLog, IsOutside, state_of, now_of, meta};
ghost use Rattle.meta_log.specs.Client.{SpellsEither};

use crate::fault::MetaFault;
use crate::laws::{crash_images_spell_the_stored_map, halves_tell_the_map};
use crate::log::MetaLog;
use vdisk::Disk;

/// Writes bytes outside the halves, sets a pair and makes both durable. A crash at any moment leaves the map that was
/// stored, or the map now with the pair, and then with the bytes.
pub fn put_with_data<D: Disk>(
    log: &mut MetaLog<D>,
    at: u64,
    bytes: &[u8],
    key: &[u8],
    value: &[u8],
) -> Result<(), MetaFault>
    requires running { log.old.stopped ≡ false }
    requires range { at + length bytes.now ≤ length (state_of log.old).image }
    requires apart { IsOutside log.old at (length bytes.now) }
    ensures moments { (m : Map) → IsLog log.old m → Keeps (state_of log.old) (state_of log.new)
        (SpellsEither log.old.at log.old.half m (put bytes_cmp key.now value.now (now_of log.old)) at bytes.now) }
    ensures ok { (m : Map) → IsLog log.old m →
        OnOk result (IsLog log.new (put bytes_cmp key.now value.now (now_of log.old))) }
{
    halves_tell_the_map();
    crash_images_spell_the_stored_map(log);
    log.write_data(at, bytes)?;
    log.stage_put(key, value)?;
    log.commit()
}
