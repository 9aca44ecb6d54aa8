//! The files of a volume over its tables: made, found by name, read, written, cut, renamed and dropped.
//!
//! What each call does to what an image holds is a function in `specs/Insides.antt`, apart from all tables, disks and
//! places. Small cases of it that were worked out by hand are the contracts of the functions in `rows`.
#![tactic(auto)]

mod block;
mod blocks;
mod creating;
mod deleting;
mod edges;
mod lookup;
mod reading;
mod renaming;
mod resizing;
pub mod rows;
mod stretches;
mod writing;

pub use creating::create;
pub use deleting::delete;
pub use edges::{Edges, read_edges};
pub use lookup::find_file;
pub use reading::read_plain;
pub use renaming::rename;
pub use resizing::set_length;
pub use writing::{make_room_for_write, write_plain, write_with_edges, write_with_room};
