//! Laws of the journal, each the contract of a function that does nothing.

ghost use Rattle.std.specs.Prelude.{◌≡◌, ◌*◌, ℕ, List, Ok};
ghost use Rattle.vdisk.specs.Disk.{DiskState};
ghost use Rattle.vdisk.specs.Ranges.{part};
ghost use Rattle.byte_map.specs.Words.{Map};
ghost use Rattle.meta_log.specs.Meta.{meta_of};
ghost use Rattle.meta_log.specs.Ready.{GoesOnFrom};
ghost use Rattle.meta_log.specs.Log.{IsLog, meta, state_of};

use crate::log::MetaLog;
use vdisk::Disk;

/// Each image that a crash may leave now spells the map that the journal has stored, and so does the disk as it reads.
pub fn crash_images_spell_the_stored_map<D: Disk>(log: &MetaLog<D>)
    ensures crash { (stored : Map) (c : List ℕ) → IsLog log.now stored → (state_of log.now).may_leave c →
        meta log.now c ≡ Ok stored }
    ensures read { (stored : Map) → IsLog log.now stored → meta log.now (state_of log.now).image ≡ Ok stored }
{}

/// Each image that a crash may leave now tells where the journal goes on, and so does the disk as it reads: the next
/// group goes where the groups of the live half end, and the epoch is that half's.
pub fn the_journal_goes_on_where_its_groups_end<D: Disk>(log: &MetaLog<D>)
    ensures crash { (stored : Map) (c : List ℕ) → IsLog log.now stored → (state_of log.now).may_leave c →
        GoesOnFrom log.now.at log.now.half log.now.place log.now.epoch c }
    ensures read { (stored : Map) → IsLog log.now stored →
        GoesOnFrom log.now.at log.now.half log.now.place log.now.epoch (state_of log.now).image }
{}

/// The bytes of the two halves alone tell the map.
pub fn halves_tell_the_map()
    ensures { (at half : ℕ) (c d : List ℕ) → part at (2 * half) c ≡ part at (2 * half) d →
        meta_of at half c ≡ meta_of at half d }
{}
