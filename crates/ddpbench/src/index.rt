// Inserting into and finding in the two forms of an index.
ghost use Rattle.std.specs.Prelude.{◌<◌, ◌^◌, slice_get, vec_len};

use crate::faults::{BenchFault, or_refused};
use crate::random::mixed;
use crate::report::{cost, figure};
use hash_index::{CompactIndex, Digests, Index, OrderedIndex};
use std::alloc::{AllocError, Global};
use std::io;
use std::rt::Clock;
use std::time::Instant;

/// The digests by their ids; 0 is no id.
#[derive(Drop)]
struct Listed {
    digests: Vec<[u8; 32]>,
}

impl Digests for Listed {
    ghost digest_of = { λ s id. slice_get s.digests.items id };

    fn digest_of(&self, id: u64) -> Option<[u8; 32]> {
        self.digests.get(id as usize).copied()
    }
}

/// Inserts so many random digests into both forms and finds each of them.
pub fn measure(
    rt: &(impl Print + Eprint + Alloc<A = Global> + Clock),
    count: u32,
) -> Result<(), BenchFault> {
    let known = digests_of(rt.alloc(), count)?;
    measure_ordered(rt, &known, count)?;
    measure_compact(rt, &known, count)
}

fn measure_ordered(
    rt: &(impl Print + Eprint + Alloc<A = Global> + Clock),
    known: &Listed,
    count: u32,
) -> Result<(), BenchFault> {
    let mut index = OrderedIndex::new(rt.alloc());
    time_inserts(rt, &mut index, known, count, "index.ordered.insert")?;
    let found = time_finds(rt, &index, known, count, "index.ordered.find")?;
    tell_ordered(rt, count, found)
}

fn tell_ordered(rt: &impl Print, count: u32, found: u64) -> Result<(), BenchFault> {
    println!(rt; "index ordered digests {count} found {found}")?;
    Ok(())
}

fn measure_compact(
    rt: &(impl Print + Eprint + Alloc<A = Global> + Clock),
    known: &Listed,
    count: u32,
) -> Result<(), BenchFault> {
    let mut index = CompactIndex::new(rt.alloc());
    time_inserts(rt, &mut index, known, count, "index.compact.insert")?;
    let found = time_finds(rt, &index, known, count, "index.compact.find")?;
    tell_compact(rt, count, found, index.held(), index.slots())
}

fn tell_compact(
    rt: &(impl Print + Eprint),
    count: u32,
    found: u64,
    held: usize,
    slots: usize,
) -> Result<(), BenchFault> {
    println!(rt; "index compact digests {count} found {found} held {held} slots {slots}")?;
    let bytes = (slots as u64).saturating_mul(6);
    figure(
        rt,
        "index.compact.slot_bytes",
        bytes / u64::from(count).max(1),
        "bytes",
    )?;
    Ok(())
}

/// Inserts each digest, and tells the figure of that name.
fn time_inserts<I: Index>(
    rt: &(impl Eprint + Clock),
    index: &mut I,
    known: &Listed,
    count: u32,
    name: &str,
) -> Result<(), BenchFault> {
    let start = Instant::now(rt)?;
    or_refused(insert_all(index, known, count))?;
    cost(rt, name, count, start)?;
    Ok(())
}

/// How many digests are found at their own id. It tells the figure of that name.
fn time_finds<I: Index>(
    rt: &(impl Eprint + Clock),
    index: &I,
    known: &Listed,
    count: u32,
    name: &str,
) -> io::Result<u64> {
    let start = Instant::now(rt)?;
    let found = find_all(index, known);
    cost(rt, name, count, start)?;
    Ok(found)
}

fn insert_all<I: Index>(
    index: &mut I,
    known: &Listed,
    count: u32,
) -> Result<(), hash_index::Memory> {
    for id in 1..=count {
        insert_one(index, known, id)?;
    }
    Ok(())
}

/// Inserts an id above 0 under its digest.
fn insert_one<I: Index>(index: &mut I, known: &Listed, id: u32) -> Result<(), hash_index::Memory>
    requires { 0 < id }
{
    match known.digests.get(id as usize) {
        Some(digest) => index.insert(digest, u64::from(id), known),
        None => Ok(()),
    }
}

fn find_all<I: Index>(index: &I, known: &Listed) -> u64 {
    let mut found = 0u64;
    for (id, digest) in known.digests.iter().enumerate() {
        if find_one(index, known, digest) == Some(id as u64) {
            found = found.saturating_add(1);
        }
    }
    found
}

/// The least id that is held with a digest.
fn find_one<I: Index>(index: &I, known: &Listed, digest: &[u8; 32]) -> Option<u64> {
    index.find(digest, 0, known)
}

/// Digests for the ids 1 to `count`, spread in their first sixteen bytes.
fn digests_of(alloc: Global, count: u32) -> Result<Listed, AllocError> {
    let mut digests = Vec::new(alloc);
    for id in 0..=u64::from(count) {
        digests.push(random_digest(id))?;
    }
    Ok(Listed { digests })
}

fn random_digest(number: u64) -> [u8; 32] {
    let first = mixed(number);
    let mut digest = [0; 32];
    digest[..8].copy_from_slice(&first.to_be_bytes());
    digest[8..16].copy_from_slice(&mixed(first).to_be_bytes());
    digest
}
