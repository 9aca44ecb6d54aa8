// The map in memory, and what is staged for the next commit.
ghost use Rattle.std.specs.Prelude.{◌≡◌, ◌⊎◌, ◌↔◌, T, ◌<◌, ◌≤◌, ◌+◌, ◌*◌, List, ℕ, length, Option, Some, option_map, IsTrue, IsOk, OnOk, OnErr, IsErrOf};
ghost use Rattle.std.specs.FinMap.Entries.{put, find, is_sorted};
ghost use Rattle.byte_map.specs.Words.{Map, bytes_cmp, next_in, pairs_between, without};
ghost use Rattle.meta_log.specs.Spelled.{record_length};

use crate::checkpoint::body_bytes;
use crate::fault::MetaFault;
use crate::limits::{LEAST_HALF, MOST_STAGED, RECORD_HEAD};
use crate::log::MetaLog;
use crate::record::{push_drop, push_put};
use byte_map::NotPut;
use vdisk::Disk;

impl<D: Disk> MetaLog<D> {
    ghost use Rattle.meta_log.specs.Log.{IsLog, KeepsPlace, now_of, staged_of, checkpoint_length};
    ghost use Rattle.meta_log.specs.declared.fault.MetaFault.TheVariants.{GroupFull, TableFull, Memory};

    /// The value of a key, with all that is staged.
    pub fn get(&self, key: &[u8]) -> Option<&[u8]>
        ensures { option_map (λ v. v.now) result ≡ find bytes_cmp key.now (now_of self.now) }
    {
        self.map.get(key)
    }

    /// The pair with the least key above this one, with all that is staged.
    pub fn next(&self, after: &[u8]) -> Option<(&[u8], &[u8])>
        ensures { option_map (λ p. (p.0.now, p.1.now)) result ≡ next_in bytes_cmp after.now (now_of self.now) }
    {
        self.map.next(after)
    }

    /// How many pairs have a key from one on and below another, with all that is staged.
    pub fn count_between(&self, from: &[u8], to: &[u8]) -> usize
        ensures { result ≡ length (pairs_between from.now to.now (now_of self.now)) }
    {
        self.map.count_between(from, to)
    }

    /// How many bytes a checkpoint of the map would have now.
    pub fn checkpoint_bytes(&self) -> u64
        ensures bytes { result ≡ checkpoint_length (now_of self.now) }
        ensures sorted { T (is_sorted bytes_cmp (now_of self.now)) }
    {
        LEAST_HALF + body_bytes(&self.map)
    }

    // Whether a record of these two strings fits behind those that are staged.
    fn has_room(&self, first: &[u8], second: &[u8]) -> bool
        ensures { IsTrue result ↔ (staged_of self.now + record_length first.now second.now ≤ MOST_STAGED) }
    {
        let record = first
            .len()
            .saturating_add(second.len())
            .saturating_add(RECORD_HEAD as usize);
        record <= MOST_STAGED - self.staged_bytes()
    }

    /// Stages a pair. Only the memory is changed, and after a refusal nothing is.
    ///
    /// A pair whose key is there with a value of the same length takes no memory.
    pub fn stage_put(&mut self, key: &[u8], value: &[u8]) -> Result<(), MetaFault>
        ensures full { IsErrOf result GroupFull ↔ (MOST_STAGED < staged_of self.old + record_length key.now value.now) }
        ensures table { IsErrOf result TableFull ↔
            ((staged_of self.old + record_length key.now value.now ≤ MOST_STAGED)
            × (self.old.half < checkpoint_length (put bytes_cmp key.now value.now (now_of self.old)))) }
        ensures in_place { (old : List ℕ) → find bytes_cmp key.now (now_of self.old) ≡ Some old →
            length value.now ≡ length old → staged_of self.old + record_length key.now value.now ≤ MOST_STAGED →
            IsOk result }
        ensures refused { OnErr result (IsErrOf result GroupFull ⊎ (IsErrOf result TableFull ⊎ IsErrOf result Memory)) }
        ensures now { OnOk result (now_of self.new ≡ put bytes_cmp key.now value.now (now_of self.old)) }
        ensures staged { OnOk result (staged_of self.new ≡ staged_of self.old + record_length key.now value.now) }
        ensures unspent { OnErr result
            ((now_of self.new ≡ now_of self.old) × (staged_of self.new ≡ staged_of self.old)) }
        ensures log { (m : Map) → IsLog self.old m → IsLog self.new m }
        ensures disk { self.new.disk ≡ self.old.disk }
        ensures place { KeepsPlace self.old self.new }
        ensures stopped { self.new.stopped ≡ self.old.stopped }
    {
        if !self.has_room(key, value) {
            return Err(MetaFault::GroupFull);
        }
        let most = self.half - LEAST_HALF;
        match self.map.put_within(key, value, RECORD_HEAD, most) {
            Ok(()) => {
                push_put(&mut self.staged, key, value);
                Ok(())
            }
            Err(NotPut::Beyond) => Err(MetaFault::TableFull),
            Err(NotPut::Memory) => Err(MetaFault::Memory),
        }
    }

    /// Stages that each key from the first on and below the second is dropped. Only the memory is changed, and after a
    /// refusal nothing is. It takes no memory.
    pub fn stage_drop(&mut self, from: &[u8], to: &[u8]) -> Result<(), MetaFault>
        ensures full { IsErrOf result GroupFull ↔ (MOST_STAGED < staged_of self.old + record_length from.now to.now) }
        ensures refused { OnErr result (IsErrOf result GroupFull) }
        ensures now { OnOk result (now_of self.new ≡ without from.now to.now (now_of self.old)) }
        ensures staged { OnOk result (staged_of self.new ≡ staged_of self.old + record_length from.now to.now) }
        ensures unspent { OnErr result
            ((now_of self.new ≡ now_of self.old) × (staged_of self.new ≡ staged_of self.old)) }
        ensures log { (m : Map) → IsLog self.old m → IsLog self.new m }
        ensures disk { self.new.disk ≡ self.old.disk }
        ensures place { KeepsPlace self.old self.new }
        ensures stopped { self.new.stopped ≡ self.old.stopped }
    {
        if !self.has_room(from, to) {
            return Err(MetaFault::GroupFull);
        }
        self.map.drop_range(from, to);
        push_drop(&mut self.staged, from, to);
        Ok(())
    }
}
