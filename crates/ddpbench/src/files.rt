// The files that a bench leaves in the folder that it is started in.
use std::fs;
use std::rt::Files;

/// Removes what an earlier run may have left.
pub fn clear(rt: &impl Files, path: &str) {
    let _gone = fs::remove_file(rt, path);
}
