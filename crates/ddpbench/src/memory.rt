// The memory that the process took at most.
use std::fs::{self, File};
use std::io;
use std::rt::Files;

/// The most memory that the process had resident so far, in KiB, as Linux tells it in `/proc/self/status` (proc(5)); 0
/// where it does not.
pub fn most_resident(rt: &(impl Alloc + Files<File = File>)) -> io::Result<u64> {
    Ok(told_in(&fs::read(rt, "/proc/self/status")?))
}

fn told_in(status: &[u8]) -> u64 {
    for line in status.split(|byte| *byte == b'\n') {
        if let Some(rest) = line.strip_prefix(b"VmHWM:") {
            return number_in(rest);
        }
    }
    0
}

/// The number of all digits of a text.
fn number_in(text: &[u8]) -> u64 {
    let mut number = 0u64;
    for byte in text {
        if byte.is_ascii_digit() {
            number = number
                .saturating_mul(10)
                .saturating_add(u64::from(*byte & 15));
        }
    }
    number
}
