//! Runs worked scripts: `ddp_rows FILE..`. `data/README.md` tells of the files and of the marks of their lines.
//!
//! Each file has one line of output, with how many rows it has; a row that differs has one before it.
#![tactic(auto)]

use ddp_running::run_table;
use row_files::RowFault;
use std::{env, fs};

fn main(rt: HostRuntime) -> Result<(), RowFault> {
    let mut paths = env::args(&rt)?;
    let _program = paths.next();
    for path in paths {
        let file = fs::read(&rt, &path)?;
        let told = run_table(rt.alloc(), &path, &file)?;
        print!(rt; "{told}")?;
    }
    Ok(())
}
