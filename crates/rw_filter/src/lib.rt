//! Files whose cells come from a base are read and written: from their extents first, else from the pieces of their
//! stream maps, else they are zero.
#![tactic(auto)]

mod beside;
mod dropping;
mod filter;
mod holes;
mod own_cells;
mod reading;
mod recalling;
mod runs;
mod writing;

pub use dropping::drop_base;
pub use filter::Filter;
pub use reading::read_file;
pub use recalling::recall_cluster;
pub use writing::write_file;
