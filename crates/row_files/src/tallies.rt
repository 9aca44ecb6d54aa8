// What is told of a file of rows.
use std::alloc::{AllocError, Global};

/// How many rows a file has, and a line of text for each of them that differs.
#[derive(Drop)]
pub struct Tally {
    alloc: Global,
    rows: u64,
    told: String,
}

impl Tally {
    pub fn new(alloc: Global) -> Tally {
        Tally {
            alloc,
            rows: 0,
            told: String::new(alloc),
        }
    }

    /// Counts a row; where it is not right, a line of the file is told at which that is seen.
    pub fn count(&mut self, line: u64, is_right: bool) -> Result<(), AllocError> {
        self.rows = self.rows.saturating_add(1);
        if !is_right {
            let text = format!(in self.alloc; "a row differs at line {line}\n")?;
            self.told.push_str(&text)?;
        }
        Ok(())
    }

    /// Tells more of the row that is counted next.
    pub fn tell(&mut self, line: &str) -> Result<(), AllocError> {
        self.told.push_str(line)?;
        self.told.push_str("\n")
    }

    /// The rows that differ, one a line, and then how many there are in all, with the file's name.
    pub fn told(&self, file: &str) -> Result<String, AllocError> {
        format!(in self.alloc; "{}{} rows: {file}\n", self.told.as_str(), self.rows)
    }
}
