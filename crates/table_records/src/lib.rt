//! The tables of a volume, as a journal's map from byte strings to byte strings holds them.
#![tactic(auto)]

mod chunk_records;
mod chunk_tables;
mod jobs;
pub mod laws;
mod limits;
mod lists;
mod names;
mod numbers;
mod records;
mod settings;
mod table;
mod tables;
mod texts;
mod well_formed;

pub use chunk_records::{Container, Place, Row};
pub use chunk_tables::{ClusterTable, ContainerTable, PlaceTable, RowTable};
pub use groundwork::{MOST_NAME_BYTES, Memory};
pub use jobs::{JobKind, JobResult};
pub use limits::{MOST_KEY_BYTES, MOST_LIST_BYTES, MOST_NAME_KEY_BYTES, MOST_VALUE_BYTES};
pub use names::NameTable;
pub use records::{Extent, FileRecord, ResultRecord, VolumeRecord};
pub use settings::{SETTINGS_KEY, Settings};
pub use table::Table;
pub use tables::{ExtentTable, FileTable, ResultTable, VolumeTable};
pub use texts::{Texts, TextsFault};
pub use well_formed::{is_pair_of, is_well_formed};
