// What is answered.
use crate::numbers::digit_of;
use std::alloc::{AllocError, Global};

/// Answers, a line each.
#[derive(Drop)]
pub struct Answers {
    alloc: Global,
    text: Vec<u8>,
}

impl Answers {
    /// None so far.
    pub fn new(alloc: Global) -> Answers {
        Answers {
            alloc,
            text: Vec::new(alloc),
        }
    }

    /// Adds a line.
    pub fn line(&mut self, line: &str) -> Result<(), AllocError> {
        self.bytes(line.as_bytes())
    }

    /// Adds a line of these bytes.
    pub fn bytes(&mut self, line: &[u8]) -> Result<(), AllocError> {
        self.part(line)?;
        self.part(b"\n")
    }

    /// Adds a line of these bytes in hexadecimal digits.
    pub fn digits(&mut self, bytes: &[u8]) -> Result<(), AllocError> {
        self.part_digits(bytes)?;
        self.part(b"\n")
    }

    /// Adds a line of a number.
    pub fn number(&mut self, number: u64) -> Result<(), AllocError> {
        self.part_number(number)?;
        self.part(b"\n")
    }

    /// Adds `yes` or `no`.
    pub fn whether(&mut self, is_so: bool) -> Result<(), AllocError> {
        self.line(if is_so { "yes" } else { "no" })
    }

    /// Adds bytes in hexadecimal digits to a line that has not ended.
    pub fn part_digits(&mut self, bytes: &[u8]) -> Result<(), AllocError> {
        for byte in bytes {
            self.text.push(digit_of(*byte >> 4))?;
            self.text.push(digit_of(*byte & 15))?;
        }
        Ok(())
    }

    /// Adds bytes as a step shows them to a line that has not ended: hexadecimal digits, or `-` for none.
    pub fn part_shown(&mut self, bytes: &[u8]) -> Result<(), AllocError> {
        if bytes.is_empty() {
            self.part(b"-")
        } else {
            self.part_digits(bytes)
        }
    }

    /// Adds a number to a line that has not ended.
    pub fn part_number(&mut self, number: u64) -> Result<(), AllocError> {
        let digits = format!(in self.alloc; "{number}")?;
        self.part(digits.as_bytes())
    }

    /// Adds bytes to a line that has not ended.
    pub fn part(&mut self, bytes: &[u8]) -> Result<(), AllocError> {
        self.text.extend_from_slice(bytes)
    }

    /// All lines so far.
    pub fn text(&self) -> &[u8] {
        &self.text
    }

    /// Takes all lines out.
    pub fn clear(&mut self) {
        self.text.clear();
    }
}
