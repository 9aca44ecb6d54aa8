//! A plain volume: what the calls of a volume mean, apart from any code that stores one.
//!
//! A volume is a list of files by name, in the order of the names' bytes. A file is a list of cells, and a cell is
//! a byte, or it is lost. `specs/Volume.antt` has the volumes, `specs/Step.antt` what each call answers and leaves,
//! and `specs/Laws.antt` laws of both, which are the contracts of the functions in `laws`.
#![tactic(auto)]

mod bytes;
mod call;
pub mod laws;
pub mod limits;
mod names;
mod plain_files;
mod reference;
pub mod rows;

pub use bytes::{Bytes, Name};
pub use call::{Call, Fault, Reply};
pub use groundwork::Memory;
pub use names::{name_is_lawful, text_is_lawful};
pub use reference::Reference;
