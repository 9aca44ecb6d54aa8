// The images that a crash of a disk in memory may leave.
ghost use Rattle.std.specs.Prelude.{◌≡◌, ◌≢◌, ◌⊎◌, ◌<◌, ◌≤◌, ◌+◌, ◌-◌, ℕ, true, false, ◌||◌, reverse, length, get_or, slice_set, IsTrue, IsFalse, IfOk, ◌/◌, ◌^◌};
ghost use Rattle.vdisk.specs.Past.{is_sync as is_sync_change, touches, is_pending, byte_before, byte_at_sync};
ghost use Rattle.vdisk.specs.Picks.{next_state, drawn_byte, places_below, IsPicked};

use crate::record::{Change, Event};
use groundwork::Memory;
use std::alloc::Global;

/// The factor of the linear congruential generator: Knuth's for 64 bits.
pub const MULTIPLIER: u64 = 6364136223846793005;

/// What the generator adds.
pub const INCREMENT: u64 = 1442695040888963407;

/// The image as it was at the last sync, with zeros past the size of then.
pub fn as_synced(alloc: Global, image: &[u8], events: &[Event]) -> Result<Vec<u8>, Memory>
    ensures { IfOk result (λ v. IsPicked image.now (reverse events.now) 0 v.items) }
{
    let mut synced = image.to_vec(alloc)?;
    undo_unsynced(&mut synced, events);
    Ok(synced)
}

/// The image, with bytes drawn from the pick where a byte is pending.
pub fn drawn(alloc: Global, image: &[u8], events: &[Event], pick: u64) -> Result<Vec<u8>, Memory>
    requires not_synced { pick ≢ 0 }
    requires not_read { pick ≢ 1 }
    ensures { IfOk result (λ v. IsPicked image.now (reverse events.now) pick v.items) }
{
    let pending = pending_places(alloc, image.len(), events)?;
    let mut crashed = image.to_vec(alloc)?;
    let (from, to) = touched(events, image.len());
    draw(&mut crashed, &pending, from, to, pick);
    Ok(crashed)
}

/// Undoes the events since the last sync, the newest first.
fn undo_unsynced(image: &mut [u8], events: &[Event])
    ensures { (i : ℕ) → i < length image.old →
        get_or image.new i 0 ≡ byte_at_sync (reverse events.now) i (get_or image.old i 0) }
{
    let mut left = events;
    while let Some((last, rest)) = left.split_last() {
        if is_sync(&last.change) {
            return;
        }
        undo(image, &last.change);
        left = rest;
    }
}

fn is_sync(change: &Change) -> bool
    ensures { result ≡ is_sync_change change.now }
{
    match change {
        Change::Wrote(_, _) => false,
        Change::Grew(_) => false,
        Change::Synced => true,
    }
}

/// Undoes a change, with zeros past the size of before.
fn undo(image: &mut [u8], change: &Change)
    ensures { (i : ℕ) → i < length image.old → get_or image.new i 0 ≡ byte_before change.now i (get_or image.old i 0) }
{
    match change {
        Change::Wrote(at, was) => restore(image, *at as usize, was),
        Change::Grew(from) => clear(image, *from as usize),
        Change::Synced => {}
    }
}

/// Puts bytes at a place, as far as the image goes.
fn restore(image: &mut [u8], at: usize, was: &[u8])
    ensures outside { (i : ℕ) → (i < at) ⊎ (at + length was.now ≤ i) → get_or image.new i 0 ≡ get_or image.old i 0 }
    ensures inside { (i : ℕ) → at ≤ i → i < at + length was.now → i < length image.old →
        get_or image.new i 0 ≡ get_or was.now (i - at) 0 }
{
    let end = image.len().min(at.saturating_add(was.len()));
    for i in at..end {
        image[i] = was[i - at];
    }
}

/// Makes the bytes from a place on zeros.
fn clear(image: &mut [u8], from: usize)
    ensures below { (i : ℕ) → i < from → get_or image.new i 0 ≡ get_or image.old i 0 }
    ensures above { (i : ℕ) → from ≤ i → get_or image.new i 0 ≡ 0 }
{
    for i in from..image.len() {
        image[i] = 0;
    }
}

/// Which places a crash may change.
fn pending_places(alloc: Global, size: usize, events: &[Event]) -> Result<Vec<bool>, Memory>
    ensures size { IfOk result (λ v. length v.items ≡ size) }
    ensures places { IfOk result (λ v.
        (i : ℕ) → i < size → get_or v.items i false ≡ is_pending (reverse events.now) i) }
{
    let mut pending = vec![in alloc; false; size]?;
    mark_pending(&mut pending, events);
    Ok(pending)
}

/// Marks the places that the events since the last sync left pending.
fn mark_pending(pending: &mut [bool], events: &[Event])
    ensures { (i : ℕ) → i < length pending.old →
        get_or pending.new i false ≡ (get_or pending.old i false || is_pending (reverse events.now) i) }
{
    let mut left = events;
    while let Some((last, rest)) = left.split_last() {
        if is_sync(&last.change) {
            return;
        }
        mark_touched(pending, &last.change);
        left = rest;
    }
}

/// Marks the places that a change leaves pending.
fn mark_touched(pending: &mut [bool], change: &Change)
    ensures { (i : ℕ) → i < length pending.old →
        get_or pending.new i false ≡ (touches change.now i || get_or pending.old i false) }
{
    match change {
        Change::Wrote(at, was) => mark(pending, *at as usize, was.len()),
        Change::Grew(from) => mark(pending, *from as usize, usize::MAX),
        Change::Synced => {}
    }
}

/// Marks so many places from one on, as far as there are places.
fn mark(pending: &mut [bool], at: usize, n: usize)
    ensures outside { (i : ℕ) → (i < at) ⊎ (at + n ≤ i) → get_or pending.new i false ≡ get_or pending.old i false }
    ensures inside { (i : ℕ) → at ≤ i → i < at + n → i < length pending.old → get_or pending.new i false ≡ true }
{
    let end = pending.len().min(at.saturating_add(n));
    for i in at..end {
        pending[i] = true;
    }
}

/// The stretch of an image that the events since the last sync touched.
fn touched(events: &[Event], size: usize) -> (usize, usize)
    ensures inside { (i : ℕ) → i < size → is_pending (reverse events.now) i ≡ true →
        (result.0 ≤ i) × (i < result.1) }
    ensures end { result.1 ≤ size }
{
    let mut from = size;
    let mut to = 0;
    let mut left = events;
    while let Some((last, rest)) = left.split_last() {
        if is_sync(&last.change) {
            return (from, to);
        }
        let change = stretch(&last.change, size);
        from = from.min(change.0);
        to = to.max(change.1);
        left = rest;
    }
    (from, to)
}

/// The stretch of an image that a change touches.
fn stretch(change: &Change, size: usize) -> (usize, usize)
    ensures inside { (i : ℕ) → i < size → touches change.now i ≡ true → (result.0 ≤ i) × (i < result.1) }
    ensures end { result.1 ≤ size }
{
    match change {
        Change::Wrote(at, was) => {
            let at = *at as usize;
            (at, size.min(at.saturating_add(was.len())))
        }
        Change::Grew(from) => (*from as usize, size),
        Change::Synced => (size, 0),
    }
}

/// Draws a byte for each pending place, in ascending order. They lie in a stretch.
fn draw(image: &mut [u8], pending: &[bool], from: usize, to: usize, seed: u64)
    requires size { length pending.now ≡ length image.old }
    requires stretch { (i : ℕ) → i < length image.old → get_or pending.now i false ≡ true → (from ≤ i) × (i < to) }
    requires end { to ≤ length image.old }
    ensures clean { (i : ℕ) → i < length image.old → get_or pending.now i false ≡ false
        → get_or image.new i 0 ≡ get_or image.old i 0 }
    ensures drawn { (i : ℕ) → i < length image.old → get_or pending.now i false ≡ true →
        get_or image.new i 0 ≡ drawn_byte seed (places_below (λ k. get_or pending.now k false) i) }
{
    let mut state = seed;
    for i in from..to {
        state = draw_at(image, i, pending[i], state);
    }
}

/// Draws a byte for a place where it is pending, and answers the generator's state then.
fn draw_at(image: &mut [u8], i: usize, is_pending: bool, state: u64) -> u64
    requires { i < length image.old }
    ensures state { IsTrue is_pending → result ≡ next_state state }
    ensures byte { IsTrue is_pending → image.new ≡ slice_set image.old i (next_state state / 2 ^ 56) }
    ensures same_state { IsFalse is_pending → result ≡ state }
    ensures same { IsFalse is_pending → image.new ≡ image.old }
{
    if !is_pending {
        return state;
    }
    let drawn = next(state);
    image[i] = (drawn >> 56) as u8;
    drawn
}

/// The generator's next state.
fn next(state: u64) -> u64
    ensures { result ≡ next_state state }
{
    state.wrapping_mul(MULTIPLIER).wrapping_add(INCREMENT)
}
