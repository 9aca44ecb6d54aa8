// Files of rows are read.
use crate::blocks::{Block, block_of, filled, push_many};
use crate::drawn_lines::push_drawn;
use crate::rows::{Durable, End, Row, Run};
use crate::settings::setting_of;
use row_files::{Asked, Line, RowFault, lines, push_line};
use std::alloc::Global;
use std::mem;

fn end_of(text: &[u8]) -> Result<End, RowFault> {
    if text == b"plain".as_slice() {
        return Ok(End::Plain);
    }
    let mut asked = Asked::new(text);
    Ok(End::Told(asked.number()?, asked.number()?))
}

fn durable_of(mut asked: Asked<'_>) -> Result<Durable, RowFault> {
    let moment = asked.number()?;
    let calls = asked.number()?;
    Ok(Durable { moment, calls })
}

/// Adds lines that are drawn, as `SEED LINES` asks.
fn push_lines(alloc: Global, to: &mut Vec<u8>, mut asked: Asked<'_>) -> Result<(), RowFault> {
    let seed = asked.number()?;
    Ok(push_drawn(alloc, to, seed, asked.number()?)?)
}

/// Adds a line of what is read back after a front of the calls.
fn push_front_line(alloc: Global, run: &mut Run, text: &[u8]) -> Result<(), RowFault> {
    if run.fronts.is_empty() {
        run.fronts.push(Vec::new(alloc))?;
    }
    if let Some(front) = run.fronts.last_mut() {
        push_line(front, text)?;
    }
    Ok(())
}

/// Takes a line of a run in.
fn take_in(alloc: Global, run: &mut Run, mark: u8, text: &[u8]) -> Result<(), RowFault> {
    match mark {
        b'>' => push_line(&mut run.script, text)?,
        b'<' => push_line(&mut run.output, text)?,
        b'?' => push_line(&mut run.reading, text)?,
        b'~' => push_front_line(alloc, run, text)?,
        b'|' => run.fronts.push(Vec::new(alloc))?,
        b'+' => push_many(alloc, &mut run.script, text)?,
        b'-' => push_many(alloc, &mut run.output, text)?,
        b':' => run.settings.push(setting_of(alloc, text)?)?,
        b'@' => run.acks.push(durable_of(Asked::new(text))?)?,
        b'%' => push_lines(alloc, &mut run.script, Asked::new(text))?,
        _ => return Err(RowFault::NoQuestion),
    }
    Ok(())
}

/// Takes the lines of a block in, as often as it says.
fn repeat(alloc: Global, run: &mut Run, block: &Block<'_>) -> Result<(), RowFault> {
    for turn in 0..block.count {
        let place = turn.wrapping_mul(block.step).checked_rem(block.count);
        take_block(alloc, run, block, place.unwrap_or(0))?;
    }
    Ok(())
}

fn take_block(
    alloc: Global,
    run: &mut Run,
    block: &Block<'_>,
    number: u64,
) -> Result<(), RowFault> {
    for line in &block.lines {
        take_in(alloc, run, line.mark, &filled(alloc, line.text, number)?)?;
    }
    Ok(())
}

/// Rows, as far as a file was read.
#[derive(Drop)]
struct Table<'a> {
    alloc: Global,
    rows: Vec<Row>,
    runs: Vec<Run>,
    run: Run,
    block: Option<Block<'a>>,
}

impl<'a> Table<'a> {
    /// Ends a run, and hands it out.
    fn end_run(&mut self, text: &[u8]) -> Result<Run, RowFault> {
        let mut run = mem::replace(&mut self.run, Run::new(self.alloc));
        run.end = end_of(text)?;
        Ok(run)
    }

    fn end_row(&mut self, line: Line<'a>) -> Result<(), RowFault> {
        let run = self.end_run(line.text)?;
        let mut runs = mem::replace(&mut self.runs, Vec::new(self.alloc));
        runs.push(run)?;
        self.rows.push(Row {
            line: line.number,
            runs,
        })?;
        Ok(())
    }

    fn take_in(&mut self, line: Line<'a>) -> Result<(), RowFault> {
        if line.mark == b'/' {
            return self.end_block();
        }
        if let Some(block) = &mut self.block {
            block.lines.push(line)?;
            return Ok(());
        }
        match line.mark {
            b'#' => {}
            b'*' => self.block = Some(block_of(self.alloc, line.text)),
            b';' => {
                let run = self.end_run(line.text)?;
                self.runs.push(run)?;
            }
            b'=' => self.end_row(line)?,
            _ => take_in(self.alloc, &mut self.run, line.mark, line.text)?,
        }
        Ok(())
    }

    fn end_block(&mut self) -> Result<(), RowFault> {
        if let Some(block) = self.block.take() {
            repeat(self.alloc, &mut self.run, &block)?;
        }
        Ok(())
    }
}

/// The rows of a file. A line that has no known mark is an error, and so is one that is not spelt as its mark asks.
pub fn rows_of(alloc: Global, file: &[u8]) -> Result<Vec<Row>, RowFault> {
    let mut table = Table {
        alloc,
        rows: Vec::new(alloc),
        runs: Vec::new(alloc),
        run: Run::new(alloc),
        block: None,
    };
    for line in &lines(alloc, file)? {
        match table.take_in(*line) {
            Err(RowFault::NoQuestion) => return Err(RowFault::BadLine(line.number)),
            taken => taken?,
        }
    }
    Ok(table.rows)
}
