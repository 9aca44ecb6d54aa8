ghost use Rattle.std.specs.Prelude.{◌≡◌, ◌<◌, length, count_by};
ghost use Rattle.hash_index.specs.Probe.{around, home_of, slot_at, is_used, IsVacancy, IsCandidate, IsNearer, FindsReached};

use crate::slot::Slot;
use crate::traits::Digests;

/// The place that many steps from the home, going round.
#[tactic(auto, unfolding(crate::specs::Probe::around))]
fn place_after(count: usize, home: usize, step: usize) -> usize
    requires home { home < count }
    requires step { step < count }
    ensures value { result ≡ around count home step }
    ensures within { result < count }
{
    let ahead = count - home;
    if step < ahead {
        home + step
    } else {
        step - ahead
    }
}

/// The place where a search for the digest begins.
#[tactic(auto, unfolding(crate::specs::Probe::home_of))]
pub fn home(count: usize, digest: &[u8; 32]) -> usize
    requires { 0 < count }
    ensures value { result ≡ home_of count digest.now }
    ensures within { result < count }
{
    let first = u64::from_be_bytes([
        digest[0], digest[1], digest[2], digest[3], digest[4], digest[5], digest[6], digest[7],
    ]);
    (first % count as u64) as usize
}

/// The first empty place from the home on.
pub fn vacancy(slots: &[Slot], home: usize) -> usize
    requires home { home < length slots.now }
    requires room { count_by is_used slots.now < length slots.now }
    ensures first { IsVacancy (length slots.now) slots.now home result }
    ensures within { result < length slots.now }
{
    for step in 0..slots.len() {
        let place = place_after(slots.len(), home, step);
        if slots[place].id() == 0 {
            return place;
        }
    }
    unreachable!()
}

/// The lesser of the least id so far and the next, where that is a candidate. `tells` is asked only of an id that
/// would be the least.
fn nearer<T: Digests>(
    least: Option<u64>,
    id: u64,
    digest: &[u8; 32],
    after: u64,
    tells: &T,
) -> Option<u64>
    ensures { IsNearer (IsCandidate (T.digest_of tells.now) digest.now after) least id result }
{
    if id <= after {
        return least;
    }
    if let Some(found) = least
        && found <= id
    {
        return least;
    }
    match tells.digest_of(id) {
        Some(known) if known == *digest => Some(id),
        _ => least,
    }
}

/// The least candidate in the run of filled slots from the home on.
pub fn least_in_run<T: Digests>(
    slots: &[Slot],
    home: usize,
    digest: &[u8; 32],
    after: u64,
    tells: &T,
) -> Option<u64>
    requires { home < length slots.now }
    ensures { FindsReached (T.digest_of tells.now) slots.now home digest.now after result }
{
    let mut least = None;
    for step in 0..slots.len() {
        let id = slots[place_after(slots.len(), home, step)].id();
        if id == 0 {
            return least;
        }
        least = nearer(least, id, digest, after, tells);
    }
    least
}
