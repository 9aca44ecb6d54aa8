// Rows as they are run.
use crate::settings::{Outside, Setting};
use std::alloc::Global;

/// How a run ends.
#[derive(Clone, Copy)]
pub enum End {
    /// With this status, after so many answers, which the row spells.
    Told(u64, u64),
    /// With the answers of a plain volume in memory, and the status 0 or 1 that fits them.
    Plain,
}

/// An acknowledgement, whose moment is counted from the volume's opening on.
#[derive(Clone, Copy)]
pub struct Durable {
    pub moment: u64,
    pub calls: u64,
}

/// A script, the outside that it runs in, and what it comes to.
#[derive(Drop)]
pub struct Run {
    pub settings: Vec<Setting>,
    pub script: Vec<u8>,
    pub output: Vec<u8>,
    /// The script that is read back behind a crash.
    pub reading: Vec<u8>,
    /// What it tells after each front of the script's calls, the empty one first; none where a plain volume in memory tells
    /// that.
    pub fronts: Vec<Vec<u8>>,
    /// All acknowledgements; none where they are not looked at.
    pub acks: Vec<Durable>,
    pub end: End,
}

impl Run {
    pub fn new(alloc: Global) -> Run {
        Run {
            settings: Vec::new(alloc),
            script: Vec::new(alloc),
            output: Vec::new(alloc),
            reading: Vec::new(alloc),
            fronts: Vec::new(alloc),
            acks: Vec::new(alloc),
            end: End::Plain,
        }
    }

    /// Has the disk no bytes?
    pub fn is_blank(&self) -> bool {
        for setting in &self.settings {
            if let Setting::Blank = setting {
                return true;
            }
        }
        false
    }

    /// The call from which on a part of the outside is to fail; 0 where it is not.
    pub fn fails_from(&self, outside: Outside) -> u64 {
        for setting in &self.settings {
            if let Setting::Fail(failing, call) = setting {
                if failing.is(outside) {
                    return *call;
                }
            }
        }
        0
    }
}

/// Runs over one disk, one after another, and the line of the file that ends them.
#[derive(Drop)]
pub struct Row {
    pub line: u64,
    pub runs: Vec<Run>,
}
