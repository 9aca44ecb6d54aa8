//! Rows of scripts: how data files spell them, how they are run over a disk in memory, and what a plain volume in
//! memory answers to them.
//!
//! `data/README.md` of the program `ddp_rows` tells the marks of the lines.
#![tactic(auto)]

mod blocks;
mod crashes;
mod drawn_lines;
mod draws;
mod images;
mod items;
mod plain;
mod replies;
mod rows;
mod running;
mod settings;
mod table;
mod tables;
mod told;

pub use table::run_table;
