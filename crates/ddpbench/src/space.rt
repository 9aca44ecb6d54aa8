// Taking clusters, deferring and releasing them.
ghost use Rattle.std.specs.Prelude.{IfSome};
ghost use Rattle.cluster_space.specs.States.{IsIn};

use crate::faults::{BenchFault, or_refused};
use crate::report::cost;
use cluster_space::{Space, State};
use std::alloc::Global;
use std::io;
use std::rt::Clock;
use std::time::Instant;

/// Takes and defers so many clusters, releases them all at once, and takes, defers and releases one at a time as often.
pub fn measure(
    rt: &(impl Print + Eprint + Alloc<A = Global> + Clock),
    count: u32,
) -> Result<(), BenchFault> {
    let mut space = or_refused(Space::new(rt.alloc(), count))?;
    measure_calls(rt, &mut space, count)?;
    Ok(())
}

fn measure_calls(
    rt: &(impl Print + Eprint + Clock),
    space: &mut Space,
    count: u32,
) -> io::Result<()> {
    let given_up = time_giving_up(rt, space, count)?;
    time_releasing(rt, space)?;
    let cycled = time_cycling(rt, space, count)?;
    let free = space.free_count();
    println!(rt; "space given up {given_up} cycled {cycled} free {free}")
}

/// How many clusters were there to be given up.
fn time_giving_up(rt: &(impl Eprint + Clock), space: &mut Space, count: u32) -> io::Result<u32> {
    let start = Instant::now(rt)?;
    let given_up = give_up_all(space, count);
    cost(rt, "space.take_defer", count, start)?;
    Ok(given_up)
}

fn time_releasing(rt: &(impl Eprint + Clock), space: &mut Space) -> io::Result<()> {
    let start = Instant::now(rt)?;
    space.release_all();
    cost(rt, "space.release_all", 1, start)
}

/// How often a cluster was there to be given up and released.
fn time_cycling(rt: &(impl Eprint + Clock), space: &mut Space, count: u32) -> io::Result<u32> {
    let start = Instant::now(rt)?;
    let cycled = cycle(space, count);
    cost(rt, "space.take_defer_release", count, start)?;
    Ok(cycled)
}

fn give_up_all(space: &mut Space, count: u32) -> u32 {
    let mut done = 0u32;
    for _ in 0..count {
        if give_up_one(space).is_some() {
            done = done.saturating_add(1);
        }
    }
    done
}

fn cycle(space: &mut Space, count: u32) -> u32 {
    let mut done = 0u32;
    for _ in 0..count {
        if cycle_one(space) {
            done = done.saturating_add(1);
        }
    }
    done
}

/// Gives a cluster up and releases it, where there is one.
fn cycle_one(space: &mut Space) -> bool {
    match give_up_one(space) {
        Some(cluster) => {
            space.release(cluster);
            true
        }
        None => false,
    }
}

/// Takes a cluster and defers it.
fn give_up_one(space: &mut Space) -> Option<u32>
    ensures { IfSome result (λ cluster. IsIn space.new cluster State.Deferred) }
{
    let cluster = space.take()?;
    space.defer(cluster);
    Some(cluster)
}
