// A table of rows is run.
use crate::crashes::survives;
use crate::images::{disk_for, holds};
use crate::plain::Plain;
use crate::rows::{Row, Run};
use crate::running::{Way, fresh, make_run};
use crate::settings::Setting;
use crate::tables::rows_of;
use crate::told::is_as_told;
use row_files::{RowFault, Tally};
use std::alloc::{AllocError, Global};

/// How a row is run, if its settings do not choose one way.
const WAYS: [Way; 4] = [
    Way::Portions(1),
    Way::Portions(7),
    Way::Portions(u64::MAX),
    Way::Std,
];

/// The one way that a run's settings choose, if they do.
fn chosen(run: &Run) -> Option<Way> {
    for setting in &run.settings {
        match setting {
            Setting::Portion(most) => return Some(Way::Portions(*most)),
            Setting::NoSource => return Some(Way::Std),
            Setting::Room(_) => return Some(Way::Std),
            _ => {}
        }
    }
    None
}

/// Does the row come to what it tells, by one way? Each run goes on over what the one before it left.
fn comes_to(alloc: Global, row: &Row, image: &[u8], way: Way) -> Result<bool, RowFault> {
    let mut plain = Plain::new(alloc);
    let mut left = image.to_vec(alloc)?;
    for run in &row.runs {
        let mut disk = disk_for(alloc, run, &left)?;
        let ran = make_run(alloc, run, way, &mut disk)?;
        if !holds(run, &left) || !is_as_told(run, &mut plain, &ran)? {
            return Ok(false);
        }
        left = disk.image().to_vec(alloc)?;
    }
    Ok(true)
}

/// Does the row come to what it tells, by each way, or where it reads back behind crashes, stopped at each call?
fn passes(alloc: Global, row: &Row, image: &[u8]) -> Result<bool, RowFault> {
    if let [run] = row.runs.as_slice()
        && !run.reading.is_empty()
    {
        return survives(alloc, run, image);
    }
    for run in &row.runs {
        if let Some(way) = chosen(run) {
            return comes_to(alloc, row, image, way);
        }
    }
    for way in WAYS {
        if !comes_to(alloc, row, image, way)? {
            return Ok(false);
        }
    }
    Ok(true)
}

/// A block of memory that is larger than an image.
const LARGE: u64 = 31_457_280;

/// Takes a block of so many bytes, and gives it back. The C library then keeps smaller blocks that are given back for
/// the next ones; else each copy of an image has all its pages from the system anew, which is most of a row's time.
fn keep_blocks(alloc: Global, size: u64) -> Result<(), AllocError> {
    let _block: Vec<u8> = Vec::with_capacity(alloc, size as usize)?;
    Ok(())
}

/// Runs the rows of a table, and tells which ones differ and how many there are.
pub fn run_table(alloc: Global, path: &str, file: &[u8]) -> Result<String, RowFault> {
    keep_blocks(alloc, LARGE)?;
    let image = fresh(alloc)?;
    let mut tally = Tally::new(alloc);
    for row in &rows_of(alloc, file)? {
        tally.count(row.line, passes(alloc, row, &image)?)?;
    }
    Ok(tally.told(path)?)
}
