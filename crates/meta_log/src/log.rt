// The journal: its disk, its map and what is staged.
ghost use Rattle.std.specs.Prelude.{◌≡◌, ◌⊎◌, ◌<◌, ◌≤◌, ◌+◌, ◌-◌, ◌*◌, ◌^◌, ℕ, Bool, true, length, vec_capacity};
ghost use Rattle.byte_map.specs.Words.{Map, bytes_in};
ghost use Rattle.meta_log.specs.declared.limits.TheConstants.{BEFORE_BODY, CHECKPOINT_HEAD, LEAST_HALF, RECORD_HEAD, STAGED_ROOM, STREAM_ROOM};
ghost use Rattle.meta_log.specs.Short.{are_short};

use crate::limits::BEFORE_BODY;
use byte_map::ByteMap;
use std::alloc::Global;
use vdisk::Disk;

/// A durable map from byte strings to byte strings. Places and sizes are in bytes.
#[derive(Drop)]
pub struct MetaLog<D: Disk> {
    pub(crate) disk: D,
    // The first half stands at this place, and the second one behind it; a half has so many bytes.
    pub(crate) at: u64,
    pub(crate) half: u64,
    pub(crate) live_at: u64,
    pub(crate) other_at: u64,
    // Whether the gate of the other half may be open.
    pub(crate) other_open: bool,
    pub(crate) epoch: u64,
    // Where in the live half the next group goes.
    pub(crate) place: u64,
    pub(crate) map: ByteMap,
    // Room for a group's length and digest, and then the staged records.
    pub(crate) staged: Vec<u8>,
    // A checkpoint streams through this.
    pub(crate) scratch: Vec<u8>,
    // Whether a write or a sync has failed.
    pub(crate) stopped: bool,
    ghost on_disk: { at + 2 * half ≤ length (D.state disk).image },
    ghost least: { LEAST_HALF ≤ half },
    ghost most: { half < 2 ^ 32 },
    ghost live_low: { at ≤ live_at },
    ghost live_high: { live_at ≤ at + half },
    ghost other_low: { at ≤ other_at },
    ghost other_high: { other_at ≤ at + half },
    ghost behind: { CHECKPOINT_HEAD ≤ place },
    ghost within: { place ≤ half },
    ghost counts: { 1 ≤ epoch },
    ghost last: { epoch < 2 ^ 63 },
    // With all that is staged the map still fits a half, as a checkpoint.
    ghost fits: { CHECKPOINT_HEAD + (RECORD_HEAD * length map + bytes_in map) ≤ half },
    // Its records have their lengths in two bytes.
    ghost short: { are_short map ≡ true },
    ghost head: { BEFORE_BODY ≤ length staged.items },
    ghost few: { length staged.items < STAGED_ROOM },
    // A group and the gate behind it are made without memory, and so is a checkpoint.
    ghost room: { STAGED_ROOM ≤ vec_capacity staged },
    ghost stream: { STREAM_ROOM ≤ vec_capacity scratch },
}

impl<D: Disk> MetaLog<D> {
    ghost use Rattle.meta_log.specs.Log.{IsLog, state_of, now_of, staged_of, meta, checkpoint_length};

    /// Whether a write or a sync by this journal has failed.
    pub fn is_stopped(&self) -> bool
        ensures { result ≡ self.now.stopped }
    {
        self.stopped
    }

    /// The disk's moment.
    pub fn moment(&self) -> u64
        ensures { result ≡ (state_of self.now).moment }
    {
        self.disk.moment()
    }

    /// How many bytes of records are staged.
    pub fn staged_bytes(&self) -> usize
        ensures { result ≡ staged_of self.now }
    {
        self.staged.len() - BEFORE_BODY
    }

    /// The map now, with all that is staged.
    pub fn pairs(&self) -> &ByteMap
        ensures { result.now ≡ now_of self.now }
    {
        &self.map
    }

    /// Hands the disk back. What is staged is lost.
    pub fn into_disk(self) -> D
        ensures { result ≡ self.disk }
    {
        self.disk
    }
}
