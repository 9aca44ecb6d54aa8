//! Measures the program's paths on input that it makes itself: `ddpbench BENCH SIZE`.
//!
//! Each figure is one line on standard error, `figure: NAME VALUE UNIT`. Figures of one run are to be read as ratios,
//! since the machine may be shared. Counts go to standard output, and are the same at each run.
#![tactic(auto)]

mod calls;
mod counted;
mod cut;
mod faults;
mod files;
mod index;
mod journal;
mod lines;
mod map;
mod memory;
mod overwrite;
mod random;
mod report;
mod scripts;
mod served;
mod space;
mod store;

use faults::{BenchFault, or_refused};
use std::env;
use std::process::ExitCode;
use vdisk::StandardStreams;

/// The largest size of `cut`, `lines` and `store`, in MiB: what one file of the volume holds.
const MOST_MEBIBYTES: u32 = 1024;

const USAGE: &str =
    "usage: ddpbench cut|lines|store MB, or ddpbench index|journal|map|overwrite|space COUNT";

fn main(rt: HostRuntime) -> Result<ExitCode, BenchFault> {
    // Taken first and kept to the end: no file of a bench gets the number of a stream that is closed.
    let _streams = or_refused(StandardStreams::hold(&rt))?;
    let mut words = env::args(&rt)?;
    let _program = words.next();
    let (Some(bench), Some(size)) = (words.next(), words.next()) else {
        return refuse(&rt);
    };
    match size.as_str().parse::<u32>() {
        Ok(size) => measure(&rt, bench.as_str(), size),
        Err(_) => refuse(&rt),
    }
}

/// Says how the program is called.
fn refuse(rt: &HostRuntime) -> Result<ExitCode, BenchFault> {
    rt.eprintln(USAGE)?;
    Ok(ExitCode::from(2))
}

fn measure(rt: &HostRuntime, bench: &str, size: u32) -> Result<ExitCode, BenchFault> {
    let measured = match bench {
        "cut" if size <= MOST_MEBIBYTES => cut::measure(rt, size),
        "lines" if size <= MOST_MEBIBYTES => lines::measure(rt, size),
        "store" if size <= MOST_MEBIBYTES => store::measure(rt, size),
        "index" if 0 < size => index::measure(rt, size),
        "journal" if 0 < size => journal::measure(rt, size),
        "map" if 0 < size => map::measure(rt, size),
        "overwrite" if 0 < size => overwrite::measure(rt, size),
        "space" if 0 < size => space::measure(rt, size),
        _ => return refuse(rt),
    };
    measured?;
    Ok(ExitCode::from(0))
}
