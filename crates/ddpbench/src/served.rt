// A run of which only this is told: what it came to, and how long it took.
use crate::report::nanos_since;
use cmdlet_line::Words;
use ddpsh::run;
use std::alloc::Global;
use std::io;
use std::rt::Clock as SystemTime;
use std::time::Instant;
use vdisk::{Clock, Disk, MemoryClock, Sink, Source};

/// What a run of the program came to.
#[derive(Clone, Copy)]
pub struct Served {
    pub lines: u64,
    pub status: u8,
    pub nanos: u64,
}

/// Serves a script, by a clock that stands.
pub fn time_over<S: Source, K: Sink, D: Disk>(
    rt: &(impl Alloc<A = Global> + SystemTime),
    words: &Words,
    script: &mut S,
    out: &mut K,
    disk: &mut D,
) -> io::Result<Served> {
    let mut clock = MemoryClock::new(0);
    let start = Instant::now(rt)?;
    let (lines, status) = serve(rt.alloc(), words, script, out, disk, &mut clock);
    let nanos = nanos_since(rt, start)?;
    Ok(Served {
        lines,
        status,
        nanos,
    })
}

/// Serves a script. It says nothing more, so that no bench reads the contract of a run.
fn serve<S: Source, K: Sink, D: Disk, C: Clock>(
    alloc: Global,
    words: &Words,
    script: &mut S,
    out: &mut K,
    disk: &mut D,
    clock: &mut C,
) -> (u64, u8) {
    let outcome = run(alloc, words, script, out, disk, clock);
    (outcome.lines, outcome.status)
}
