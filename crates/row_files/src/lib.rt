//! Data files of rows: lines with a mark of one byte, whose texts stand for bytes.
//!
//! A line is its mark and behind it a text; one space between the two is left out, and an empty line has no mark. What
//! a mark means is the reader's matter. A text spells bytes: `\0`, `\r`, `\n`, `\s` and `\\` stand for a zero, a
//! carriage return, a newline, a space and a backslash, `\xHH` for any byte, and a backslash at the end of a line
//! leaves out the newline that the text has otherwise.
//!
//! `rows` reads rows of what is asked and what has to be answered, and `rows_of_steps` those whose every step has what
//! it is to tell.
#![tactic(auto)]

mod answers;
mod asked;
mod faults;
mod numbers;
mod questions;
mod splitting;
mod steps;
mod tallies;
mod texts;

pub use answers::Answers;
pub use asked::Asked;
pub use faults::{RowFault, or_memory};
pub use numbers::{number, push_hex};
pub use questions::{Row, rows};
pub use splitting::{Line, lines, split_word};
pub use steps::{Step, Steps, rows_of_steps};
pub use tallies::Tally;
pub use texts::{push_bytes, push_line};
