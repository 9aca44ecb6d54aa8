// Puts, look-ups and steps in the map of byte strings.
use crate::faults::BenchFault;
use crate::random::mixed;
use crate::report::cost_among;
use byte_map::ByteMap;
use std::alloc::{AllocError, Global};
use std::io;
use std::rt::Clock;
use std::time::Instant;

/// The smaller counts that a run measures too, so that the growth of a cost is a ratio in one run.
const SMALLER: [u32; 2] = [10_000, 100_000];

/// The bytes of a value.
const VALUE: [u8; 16] = [7; 16];

/// Puts so many random keys of eight bytes, finds each and steps past each, and the same for the smaller counts.
pub fn measure(
    rt: &(impl Print + Eprint + Alloc<A = Global> + Clock),
    count: u32,
) -> Result<(), BenchFault> {
    for smaller in SMALLER {
        if smaller < count {
            measure_one(rt, smaller)?;
        }
    }
    measure_one(rt, count)
}

fn measure_one(
    rt: &(impl Print + Eprint + Alloc<A = Global> + Clock),
    count: u32,
) -> Result<(), BenchFault> {
    let mut map = ByteMap::new(rt.alloc());
    measure_calls(rt, &mut map, count)
}

fn measure_calls(
    rt: &(impl Print + Eprint + Clock),
    map: &mut ByteMap,
    count: u32,
) -> Result<(), BenchFault> {
    time_puts(rt, map, count)?;
    let found = time_finds(rt, map, count)?;
    let stepped = time_steps(rt, map, count)?;
    let held = map.count();
    println!(rt; "map keys {count} held {held} found {found} stepped {stepped}")?;
    Ok(())
}

fn time_puts(rt: &(impl Eprint + Clock), map: &mut ByteMap, count: u32) -> Result<(), BenchFault> {
    let start = Instant::now(rt)?;
    put_all(map, count)?;
    cost_among(rt, "map.put", count, start)?;
    Ok(())
}

/// How many of the keys are found.
fn time_finds(rt: &(impl Eprint + Clock), map: &ByteMap, count: u32) -> io::Result<u32> {
    let start = Instant::now(rt)?;
    let found = find_all(map, count);
    cost_among(rt, "map.get", count, start)?;
    Ok(found)
}

/// How many of the keys have one above them.
fn time_steps(rt: &(impl Eprint + Clock), map: &ByteMap, count: u32) -> io::Result<u32> {
    let start = Instant::now(rt)?;
    let stepped = step_all(map, count);
    cost_among(rt, "map.next", count, start)?;
    Ok(stepped)
}

fn put_all(map: &mut ByteMap, count: u32) -> Result<(), AllocError> {
    for k in 0..count {
        put_one(map, k)?;
    }
    Ok(())
}

fn put_one(map: &mut ByteMap, number: u32) -> Result<(), AllocError> {
    map.put(&key_of(number), &VALUE)
}

fn find_all(map: &ByteMap, count: u32) -> u32 {
    let mut found = 0u32;
    for k in 0..count {
        if has_one(map, k) {
            found = found.saturating_add(1);
        }
    }
    found
}

fn has_one(map: &ByteMap, number: u32) -> bool {
    map.get(&key_of(number)).is_some()
}

fn step_all(map: &ByteMap, count: u32) -> u32 {
    let mut stepped = 0u32;
    for k in 0..count {
        if has_one_above(map, k) {
            stepped = stepped.saturating_add(1);
        }
    }
    stepped
}

fn has_one_above(map: &ByteMap, number: u32) -> bool {
    map.next(&key_of(number)).is_some()
}

/// A random key.
fn key_of(number: u32) -> [u8; 8] {
    mixed(u64::from(number)).to_be_bytes()
}
