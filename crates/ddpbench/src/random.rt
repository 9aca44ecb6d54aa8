// Bytes that look random and are the same at each run.
use std::alloc::AllocError;

/// Adds so many times eight bytes, drawn from a seed that is not 0 (xorshift64, Marsaglia 2003).
pub fn add_random(bytes: &mut Vec<u8>, seed: u64, eights: usize) -> Result<(), AllocError> {
    let mut state = seed;
    for _ in 0..eights {
        state ^= state << 13;
        state ^= state >> 7;
        state ^= state << 17;
        bytes.extend_from_slice(&state.to_le_bytes())?;
    }
    Ok(())
}

/// The step of splitmix64 (Steele, Lea and Flood 2014).
pub fn mixed(number: u64) -> u64 {
    let one = number.wrapping_add(0x9e37_79b9_7f4a_7c15);
    let two = (one ^ (one >> 30)).wrapping_mul(0xbf58_476d_1ce4_e5b9);
    let three = (two ^ (two >> 27)).wrapping_mul(0x94d0_49bb_1331_11eb);
    three ^ (three >> 31)
}
