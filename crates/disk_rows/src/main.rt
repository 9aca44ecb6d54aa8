//! Asks disks and what stands on them by rows: `disk_rows FILE..`. What the files hold: data/README.md.
//!
//! Each file has one line of output, with how many rows it has, and each row that differs has one before it. The rows
//! of `files.rows` make files in the folder that the program runs in, and remove them.
#![tactic(auto)]

mod adapters;
mod disks;
mod ends;
mod files;
mod halves;
mod images;
mod journal;
mod journals;
mod kept;
mod memory;
mod replays;
mod session;
mod settings;
mod stored;
mod streams;
mod torn;

use row_files::{Answers, RowFault, Tally, rows, rows_of_steps};
use std::alloc::Global;
use std::fs::File;
use std::rt::{Clock, Files};
use std::{env, fs};
use vdisk::StandardStreams;

fn main(rt: HostRuntime) -> Result<(), RowFault> {
    // Taken first and kept to the end: no file of a row gets the number of a stream that is closed.
    let Ok(_streams) = StandardStreams::hold(&rt) else {
        return Err(RowFault::System);
    };
    let mut paths = env::args(&rt)?;
    let _program = paths.next();
    for path in paths {
        let file = fs::read(&rt, &path)?;
        let told = told(&rt, &path, &file)?;
        print!(rt; "{told}")?;
    }
    Ok(())
}

/// What is told of a file.
fn told(
    rt: &(impl Alloc<A = Global> + Files<File = File> + Clock),
    path: &str,
    file: &[u8],
) -> Result<String, RowFault> {
    let mut tally = Tally::new(rt.alloc());
    match path {
        "journal.rows" | "limits.rows" | "opens.rows" | "stops.rows" | "stored.rows" => {
            make_steps(rt.alloc(), file, &mut tally)?;
        }
        _ => ask(rt, path, file, &mut tally)?,
    }
    Ok(tally.told(path)?)
}

/// Makes the steps of the rows over journals.
fn make_steps(alloc: Global, file: &[u8], tally: &mut Tally) -> Result<(), RowFault> {
    for row in &rows_of_steps(alloc, file)? {
        journals::count(alloc, row, tally)?;
    }
    Ok(())
}

/// Asks what the rows of a table ask.
fn ask(
    rt: &(impl Alloc<A = Global> + Files<File = File> + Clock),
    table: &str,
    file: &[u8],
    tally: &mut Tally,
) -> Result<(), RowFault> {
    for row in &rows(rt.alloc(), file)? {
        let mut answers = Answers::new(rt.alloc());
        answer(rt, table, &row.asked, &mut answers)?;
        tally.count(row.line, answers.text() == row.answered.as_slice())?;
    }
    Ok(())
}

/// Answers a row of a table.
fn answer(
    rt: &(impl Alloc<A = Global> + Files<File = File> + Clock),
    table: &str,
    asked: &[u8],
    answers: &mut Answers,
) -> Result<(), RowFault> {
    match table {
        "adapters.rows" => adapters::answer(rt, asked, answers),
        "ends.rows" => ends::answer(rt.alloc(), asked, answers),
        "files.rows" => files::answer(rt, asked, answers),
        "memory.rows" => memory::answer(rt.alloc(), asked, answers),
        "settings.rows" => settings::answer(rt.alloc(), asked, answers),
        "streams.rows" => streams::answer(rt.alloc(), asked, answers),
        _ => Err(RowFault::NoTable),
    }
}
