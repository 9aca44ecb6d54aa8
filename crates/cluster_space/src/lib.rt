//! The states of the clusters of a disk: each is free, used or deferred.
//!
//! A used cluster that is given up is deferred first, and is free again only once it is released: what was
//! stored before may still name it. Contracts see a `Space` as the list of the states of its clusters, so the
//! three sets are disjoint and cover all clusters. Only `Space::new` takes memory, 8 bytes a cluster, and every
//! other call takes constant time, but for `Space::free_run`, which takes the time of the run that was asked for.
#![tactic(auto)]

pub mod laws;
mod places;
mod run;
mod space;
mod state;

pub use groundwork::Memory;
pub use run::Run;
pub use space::Space;
pub use state::State;
