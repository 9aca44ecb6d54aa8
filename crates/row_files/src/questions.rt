// Rows of what is asked and what has to be answered.
//
// A line with the mark `>` is asked, one with `<` is answered, and one with `=` is the last that is answered and ends
// the row. `* COUNT BYTE` stands for so many more of that byte behind the line above, which has to end in a backslash.
// A line with `#` is a remark.
use crate::faults::RowFault;
use crate::numbers::number;
use crate::splitting::{Line, lines, split_word};
use crate::texts::{push_bytes, push_line};
use std::alloc::{AllocError, Global};

/// What is asked, and what has to be answered, a line each.
#[derive(Drop)]
pub struct Row {
    /// The line of the file that it ends with.
    pub line: u64,
    pub asked: Vec<u8>,
    pub answered: Vec<u8>,
}

/// The side of a row to which a line with copies of a byte adds them.
#[derive(Clone, Copy)]
enum Side {
    Asked,
    Answered,
}

/// A row whose end has not come yet.
#[derive(Drop)]
struct Begun {
    alloc: Global,
    side: Side,
    is_empty: bool,
    asked: Vec<u8>,
    answered: Vec<u8>,
}

impl Begun {
    fn new(alloc: Global) -> Begun {
        Begun {
            alloc,
            side: Side::Asked,
            is_empty: true,
            asked: Vec::new(alloc),
            answered: Vec::new(alloc),
        }
    }

    fn ask(&mut self, text: &[u8]) -> Result<(), AllocError> {
        self.side = Side::Asked;
        self.is_empty = false;
        push_line(&mut self.asked, text)
    }

    fn answer(&mut self, text: &[u8]) -> Result<(), AllocError> {
        self.side = Side::Answered;
        self.is_empty = false;
        push_line(&mut self.answered, text)
    }

    /// Adds copies of a byte, and answers whether the text says which and how many.
    fn copies(&mut self, text: &[u8]) -> Result<bool, AllocError> {
        let (count, byte) = split_word(text);
        let mut spelt = Vec::new(self.alloc);
        push_bytes(&mut spelt, byte)?;
        let (Some(count), [byte]) = (number(count), spelt.as_slice()) else {
            return Ok(false);
        };
        for _ in 0..count {
            match self.side {
                Side::Asked => self.asked.push(*byte)?,
                Side::Answered => self.answered.push(*byte)?,
            }
        }
        Ok(true)
    }

    /// The row whose last line is this one; nothing is left of it.
    fn end(&mut self, line: Line<'_>) -> Result<Row, AllocError> {
        self.answer(line.text)?;
        let ended = std::mem::replace(self, Begun::new(self.alloc));
        Ok(Row {
            line: line.number,
            asked: ended.asked,
            answered: ended.answered,
        })
    }

    /// Takes a line in that ends no row, and answers whether it may stand in one.
    fn take_in(&mut self, line: Line<'_>) -> Result<bool, AllocError> {
        match line.mark {
            b'#' => {}
            b'>' => self.ask(line.text)?,
            b'<' => self.answer(line.text)?,
            b'*' => return self.copies(line.text),
            _ => return Ok(false),
        }
        Ok(true)
    }
}

/// All rows of a file that asks questions, in their order.
pub fn rows(alloc: Global, file: &[u8]) -> Result<Vec<Row>, RowFault> {
    let mut rows = Vec::new(alloc);
    let mut begun = Begun::new(alloc);
    for line in lines(alloc, file)? {
        if line.mark == b'=' {
            rows.push(begun.end(line)?)?;
        } else if !begun.take_in(line)? {
            return Err(RowFault::BadLine(line.number));
        }
    }
    if begun.is_empty {
        Ok(rows)
    } else {
        Err(RowFault::NoEnd)
    }
}
