//! A walk over the entries of a stream map, in order.

ghost use Rattle.std.specs.Prelude.{◌≡◌, ◌≤◌, ◌*◌, ◌+◌, ◌↔◌, IfOk, IfErr, IsOk};
ghost use Rattle.stream_map.specs.Entries.{entry_of};
ghost use Rattle.stream_map.specs.Walks.{IsMapLength, IsLawful, walk_of, after};
ghost use Rattle.stream_map.specs.declared.fault.MapFault.TheVariants.{BadLength, ZeroPiece};

use crate::entry::{Entry, decode_entry};
use crate::fault::MapFault;
use crate::limits::{ENTRY_BYTES, MOST_LENGTH};
use std::marker::Model;

/// A walk over a map of a given number of bytes, which is handed one entry at a time. It is seen as that
/// number, the number of entries so far, and the sum of their lengths.
#[derive(Drop)]
pub struct Walk {
    bytes: u32,
    entries: u32,
    sum: u64,
}

impl Model for Walk {
    ghost use Rattle.stream_map.specs.Walks.{Walked, is_possible};

    ghost Value = { Walked };

    ghost view = { λ w. record { total = w.bytes; count = w.entries; covered = w.sum } };

    ghost invariant = { λ w. is_possible w.bytes w.entries w.sum };
}

impl Walk {
    /// Begins a walk over a map of `total` bytes. The fault is `BadLength`.
    pub fn new(total: u32) -> Result<Walk, MapFault>
        ensures accepted { IsOk result ↔ IsMapLength total }
        ensures begun { IfOk result (λ walk. walk ≡ walk_of total) }
        ensures fault { IfErr result (λ fault. fault ≡ BadLength) }
    {
        if total == 0 || total as usize % ENTRY_BYTES != 0 {
            return Err(MapFault::BadLength);
        }
        Ok(Walk {
            bytes: total,
            entries: 0,
            sum: 0,
        })
    }

    /// Takes the next entry of the map, or leaves the walk as it was. The fault is `ZeroPiece` with the number
    /// of entries before this one.
    pub fn push(&mut self, bytes: &[u8; ENTRY_BYTES]) -> Result<Entry, MapFault>
        requires { ENTRY_BYTES * (self.old.count + 1) ≤ self.old.total }
        ensures accepted { IsOk result ↔ IsLawful (entry_of bytes.now) }
        ensures taken { IfOk result (λ entry. (entry ≡ entry_of bytes.now) × (self.new ≡ after self.old entry)) }
        ensures fault { IfErr result (λ fault. (fault ≡ ZeroPiece self.old.count) × (self.new ≡ self.old)) }
    {
        let entry = decode_entry(bytes);
        if entry.length == 0 || entry.length > MOST_LENGTH {
            return Err(MapFault::ZeroPiece(self.entries));
        }
        self.entries += 1;
        self.sum += u64::from(entry.length);
        Ok(entry)
    }

    /// The bytes of the file that the entries so far cover.
    pub fn covered(&self) -> u64
        ensures { result ≡ self.now.covered }
    {
        self.sum
    }
}
