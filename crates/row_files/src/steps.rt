// Rows of steps, each with what it is to tell.
//
// A line with the mark `>` is a step, and one with `<` is told by the step before it. A step with the mark `?` tells a
// state, which stands from there on until the next such step, and a line with `|` may be told in place of a state
// before the first one. `=` and `!` end a row. A line with any other mark is a remark.
use crate::faults::RowFault;
use crate::splitting::{Line, lines};
use crate::texts::push_line;
use std::alloc::Global;

/// A step with what it is to tell.
#[derive(Drop)]
pub struct Step {
    /// The number of its line.
    pub line: u64,
    pub text: Vec<u8>,
    pub wanted: Vec<u8>,
    pub tells_state: bool,
}

/// Steps that are made one after another.
#[derive(Drop)]
pub struct Steps<'a> {
    pub steps: Vec<Step>,
    /// The lines that may be told in place of a state, where a run is stopped before the first one.
    pub before: Vec<u8>,
    /// The line that ends the row.
    pub end: Line<'a>,
}

/// A row whose end has not come yet.
#[derive(Drop)]
struct Begun {
    alloc: Global,
    steps: Vec<Step>,
    before: Vec<u8>,
}

impl Begun {
    fn new(alloc: Global) -> Begun {
        Begun {
            alloc,
            steps: Vec::new(alloc),
            before: Vec::new(alloc),
        }
    }

    fn push_step(&mut self, line: Line<'_>) -> Result<(), RowFault> {
        self.steps.push(Step {
            line: line.number,
            text: line.text.to_vec(self.alloc)?,
            wanted: Vec::new(self.alloc),
            tells_state: line.mark == b'?',
        })?;
        Ok(())
    }

    /// Takes a line in that the last step is to tell.
    fn push_wanted(&mut self, line: Line<'_>) -> Result<(), RowFault> {
        match self.steps.last_mut() {
            Some(step) => Ok(push_line(&mut step.wanted, line.text)?),
            None => Err(RowFault::BadLine(line.number)),
        }
    }

    /// Takes a line in that ends no row.
    fn take_in(&mut self, line: Line<'_>) -> Result<(), RowFault> {
        match line.mark {
            b'>' | b'?' => self.push_step(line),
            b'<' => self.push_wanted(line),
            b'|' => Ok(push_line(&mut self.before, line.text)?),
            _ => Ok(()),
        }
    }
}

/// All rows of a file of steps, in their order.
pub fn rows_of_steps(alloc: Global, file: &[u8]) -> Result<Vec<Steps<'_>>, RowFault> {
    let mut rows = Vec::new(alloc);
    let mut begun = Begun::new(alloc);
    for line in lines(alloc, file)? {
        if matches!(line.mark, b'=' | b'!') {
            rows.push(Steps {
                steps: begun.steps,
                before: begun.before,
                end: line,
            })?;
            begun = Begun::new(alloc);
        } else {
            begun.take_in(line)?;
        }
    }
    if begun.steps.is_empty() {
        Ok(rows)
    } else {
        Err(RowFault::NoEnd)
    }
}
