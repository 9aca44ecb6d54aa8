//! A script is split into items, each a line with the payload behind it, as it is read from a source.
#![tactic(auto)]

mod input;
mod items;
mod limits;
mod lines;
mod payload;

pub use input::{Input, ScriptFault};
pub use items::read_item;
pub use limits::{MOST_AHEAD, MOST_KEPT, MOST_SCRIPT, VOLUME};
pub use payload::is_spoilt_at;
