//! What an image of a volume holds.
//!
//! The journal of an image spells a map from byte strings to byte strings, and that spells the tables. An inside is
//! these tables with the bytes that they name (`specs/Inside.antt`), and its view is the plain volume that it spells
//! (`specs/View.antt`). `specs/Rules.antt` has the rules that tables of a volume meet, `specs/InsideOf.antt` the
//! inside of an image, or the first reason why it has none. `specs/Shows.antt` says what is kept whenever a crash
//! comes, and `specs/Space.antt` which clusters may be written. Laws of these definitions are the contracts of the
//! functions in `laws`, `base_laws` and `changes`; a crate above cites their proofs in `proofs/`.
#![tactic(auto)]

mod base_laws;
mod changes;
mod chunk_rules;
pub mod laws;
mod layout;
mod mount_fault;
mod page_laws;
pub mod rows;
mod rules;
mod superblock;

pub use chunk_rules::{
    DATA_ROW, HOT_CONTAINER, MAP_ROW, MOST_CHUNK_BYTES, MOST_CONTAINER_BYTES, MOST_MAP_BYTES,
    MOST_PAGES, container_holds, map_row_holds, page_holds, place_holds, redirect_holds, row_holds,
};
pub use layout::{
    CLUSTER_BYTES, JOURNAL_AT, LEAST_CLUSTERS, MOST_CLUSTERS, data_clusters, first_data_cluster,
    half_bytes, is_data_cluster,
};
pub use mount_fault::MountFault;
pub use rules::{
    LEAST_MINIMUM_SIZE, extent_holds, file_holds, result_holds, settings_hold, volume_record_holds,
};
pub use superblock::{read_superblock, write_superblock};
