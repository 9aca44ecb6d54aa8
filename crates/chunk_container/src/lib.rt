//! Containers, to which chunks and maps are appended, and the rows that name them.
#![tactic(auto)]

mod appending;
mod containers;
mod copies;
mod pages;
mod reading;
mod redirecting;
mod rows;
mod store;

pub use containers::{OpenContainers, Target};
pub use row_reading::RowFault;
pub use store::Store;
