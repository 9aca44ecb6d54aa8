// Numbers that look random.

/// The next state of a generator after Marsaglia, "Xorshift RNGs" (2003).
pub fn next_state(state: u64) -> u64 {
    let mut next = state;
    next ^= next << 13;
    next ^= next >> 7;
    next ^= next << 17;
    next
}
