//! The rules of a volume's tables, as a mount checks them over the map that an image's journal spells.
#![tactic(auto)]

mod checking;
mod chunks;
mod clusters;
mod entries;
mod fault;
mod lookup;
mod named;
mod pairs;
mod records;
mod tables;
mod version;

pub use checking::{Checked, check};
pub use fault::TableFault;
pub use records::{LastResults, Records};
pub use tables::read_tables;
pub use version::unknown_version;
