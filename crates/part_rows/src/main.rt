//! Asks what stands without a disk by rows: `part_rows FILE..`. What the files hold: data/README.md.
//!
//! Each file has one line of output, with how many rows it has, and each row that differs has one before it.
#![tactic(auto)]

mod calls;
mod chunk_records;
mod clusters;
mod cutting;
mod draws;
mod entries;
mod indexes;
mod lines;
mod maps;
mod prints;
mod records;
mod replies;
mod settings;
mod spelled;
mod texts;
mod words;

use row_files::{Answers, RowFault, Tally, rows, rows_of_steps};
use std::alloc::Global;
use std::{env, fs};

fn main(rt: HostRuntime) -> Result<(), RowFault> {
    let mut paths = env::args(&rt)?;
    let _program = paths.next();
    for path in paths {
        let file = fs::read(&rt, &path)?;
        let told = told(rt.alloc(), &path, &file)?;
        print!(rt; "{told}")?;
    }
    Ok(())
}

/// What is told of a file.
fn told(alloc: Global, path: &str, file: &[u8]) -> Result<String, RowFault> {
    let mut tally = Tally::new(alloc);
    if path == "records.rows" {
        for row in &rows_of_steps(alloc, file)? {
            let wrong = records::first_wrong(alloc, row)?;
            tally.count(wrong.unwrap_or(0), wrong.is_none())?;
        }
    } else {
        for row in &rows(alloc, file)? {
            let mut answers = Answers::new(alloc);
            answer(alloc, path, &row.asked, &mut answers)?;
            tally.count(row.line, answers.text() == row.answered.as_slice())?;
        }
    }
    Ok(tally.told(path)?)
}

/// Answers a row of a table.
fn answer(alloc: Global, table: &str, asked: &[u8], answers: &mut Answers) -> Result<(), RowFault> {
    match table {
        "calls.rows" => calls::answer(alloc, asked, answers),
        "clusters.rows" => clusters::answer(alloc, asked, answers),
        "cuts.rows" => cutting::answer(alloc, asked, answers),
        "entries.rows" => entries::answer(alloc, asked, answers),
        "indexes.rows" => indexes::answer(alloc, asked, answers),
        "lines.rows" => Ok(lines::answer(asked, answers)?),
        "maps.rows" => maps::answer(alloc, asked, answers),
        "names.rows" => Ok(lines::answer_name(asked, answers)?),
        "prints.rows" => prints::answer(alloc, asked, answers),
        "words.rows" => words::answer(alloc, asked, answers),
        _ => Err(RowFault::NoTable),
    }
}
