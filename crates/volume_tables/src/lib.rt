//! The typed tables of a volume, over its journal and its data clusters.
#![tactic(auto)]

mod call_room;
mod clusters;
mod commit;
mod containers;
mod ends;
mod extents;
mod fault;
mod files;
mod formatting;
mod front;
mod ids;
pub mod laws;
mod maps;
mod mounting;
mod names;
mod numbers;
mod pages;
mod places;
mod raw;
mod raw_extents;
mod raw_names;
mod raw_pages;
mod raw_settings;
mod results;
mod room;
mod row_disk;
mod rows;
mod settings;
mod tables;

pub use call_room::make_room;
pub use groundwork::LAST_ID;
pub use room::MOST_RECORDS;
pub use table_records::{
    Container, Extent, FileRecord, JobKind, JobResult, Place, ResultRecord, Row, Settings, Texts,
};
pub use tables::Tables;
pub use volume_inside::MountFault;
