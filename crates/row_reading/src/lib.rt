//! Rows are read, and the cells that the bases of files give, over the tables of chunks and the image that holds their
//! bytes.
//!
//! A row is read from the first of its copies that has its digest (`specs/Reading.antt`). The bytes of a container lie in
//! clusters, and those of clusters that lie beside one another are read at once. The base of a file is read piece by
//! piece, where a reader wants its cells (`specs/BaseReads.antt`). Nothing here takes memory.
#![tactic(auto)]

mod base_reads;
mod bases;
mod chunk_disk;
mod content;
mod copies;
mod entries;
mod fault;
pub mod laws;
mod reading;
mod wanted;

pub use base_reads::read_base;
pub use bases::check_base;
pub use chunk_disk::ChunkDisk;
pub use content::read_content;
pub use fault::{BaseFault, CellFault, RowFault};
pub use reading::read_row;
pub use vdisk::Failed;
pub use wanted::{EachCell, Wanted};
