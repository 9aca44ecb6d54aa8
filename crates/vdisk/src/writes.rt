// How a disk in memory changes its bytes and keeps how to take that back.
ghost use Rattle.std.specs.Prelude.{◌≡◌, ◌≤◌, ◌+◌, ◌-◌, ◌/◌, [], ◌∷◌, ◌++◌, List, length, take, drop, IsTrue, IsFalse, OnOk, OnErr};
ghost use Rattle.vdisk.specs.declared.record.Change.TheVariants.{Wrote, Grew};
ghost use Rattle.vdisk.specs.Disk.{zeros};
ghost use Rattle.vdisk.specs.Past.{put};

use crate::record::{Change, Event};
use std::alloc::{AllocError, Global};

/// How many of n bytes a write keeps: half of them where it is to fail.
pub fn part_kept(n: usize, fails: bool) -> usize
    ensures within { result ≤ n }
    ensures all { IsFalse fails → result ≡ n }
    ensures half { IsTrue fails → result ≡ n / 2 }
{
    if fails { n / 2 } else { n }
}

/// Writes the first `kept` of the bytes, and keeps those that stood in the whole range.
pub fn write_at(
    alloc: Global,
    image: &mut Vec<u8>,
    events: &mut Vec<Event>,
    stamp: u64,
    at: u64,
    bytes: &[u8],
    kept: usize,
) -> Result<(), AllocError>
    requires range { at + length bytes.now ≤ length image.old.items }
    requires part { kept ≤ length bytes.now }
    ensures image { OnOk result (image.new.items ≡ put image.old.items at (take kept bytes.now)) }
    ensures events { OnOk result ((v : _) × (v.items ≡ take (length bytes.now) (drop at image.old.items))
        × (events.new.items ≡ events.old.items ++ record { stamp = stamp; change = Wrote at v } ∷ [])) }
    ensures err { OnErr result (image.new.items ≡ image.old.items) }
    ensures err_events { OnErr result (events.new.items ≡ events.old.items) }
{
    let from = at as usize;
    let was = image[from..from + bytes.len()].to_vec(alloc)?;
    events.push(Event {
        stamp,
        change: Change::Wrote(at, was),
    })?;
    image[from..from + kept].copy_from_slice(&bytes[..kept]);
    Ok(())
}

/// Grows the image with zeros, and keeps how long it was.
pub fn grow_to(
    image: &mut Vec<u8>,
    events: &mut Vec<Event>,
    stamp: u64,
    to: usize,
) -> Result<(), AllocError>
    requires { length image.old.items ≤ to }
    ensures filled { OnOk result (image.new.items ≡ image.old.items ++ zeros (to - length image.old.items)) }
    ensures image { OnOk result (take (length image.old.items) image.new.items ≡ image.old.items) }
    ensures size { OnOk result (length image.new.items ≡ to) }
    ensures events { OnOk result (events.new.items
        ≡ events.old.items ++ record { stamp = stamp; change = Grew (length image.old.items) } ∷ []) }
    ensures err { OnErr result (image.new.items ≡ image.old.items) }
    ensures err_events { OnErr result (events.new.items ≡ events.old.items) }
{
    let from = image.len();
    image.reserve(to - from)?;
    events.push(Event {
        stamp,
        change: Change::Grew(from as u64),
    })?;
    image.resize(to, 0)?;
    Ok(())
}

/// Keeps one more event.
pub fn push_event(events: &mut Vec<Event>, event: Event) -> Result<(), AllocError>
    ensures ok { OnOk result (events.new.items ≡ events.old.items ++ event ∷ []) }
    ensures err { OnErr result (events.new.items ≡ events.old.items) }
{
    events.push(event)?;
    Ok(())
}
