//! What a line of a script asks, and the words of a command line.
#![tactic(auto)]

mod commands;
pub mod laws;
mod limits;
mod lines;
mod parsing;
mod program_words;
mod quotes;
mod spelling;

pub use groundwork::Memory;
pub use limits::{MOST_COUNT, MOST_DIGITS, MOST_LINE};
pub use lines::{Line, LineFault};
pub use parsing::parse;
pub use program_words::Words;
