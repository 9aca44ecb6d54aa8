// Numbers drawn from a seed.
use std::alloc::{AllocError, Global};

/// A linear congruential generator, with Knuth's factor for 64 bits.
#[derive(Drop)]
pub struct Draws {
    state: u64,
}

impl Draws {
    pub fn new(seed: u64) -> Draws {
        Draws { state: seed }
    }

    /// A number below another; 0 where that is 0.
    pub fn below(&mut self, most: u64) -> u64 {
        self.state = self
            .state
            .wrapping_mul(6_364_136_223_846_793_005)
            .wrapping_add(1_442_695_040_888_963_407);
        (self.state >> 33).checked_rem(most).unwrap_or(0)
    }

    /// One of four names, one of which wants quotes, or one that no file may have.
    pub fn name(&mut self) -> &'static [u8] {
        match self.below(13) {
            0..=3 => b"a",
            4..=6 => b"bc",
            7..=9 => b"b\xc3\xa9",
            10 | 11 => b"\"d e\"",
            _ => b"d\x1f",
        }
    }

    /// A place in the first blocks of a file, mostly near the border of two.
    pub fn place(&mut self) -> u64 {
        match self.below(40) {
            0..=9 => self.below(20_000),
            10..=19 => self.below(5).wrapping_mul(4096),
            20..=29 => self.below(40),
            _ => self
                .below(4)
                .wrapping_mul(4096)
                .wrapping_add(4090)
                .wrapping_add(self.below(12)),
        }
    }

    /// How many bytes a payload has: few, a block, or some blocks.
    pub fn count(&mut self) -> u64 {
        match self.below(4) {
            0 => self.below(10_000),
            1 => 4096,
            _ => self.below(30),
        }
    }

    pub fn push_bytes(&mut self, to: &mut Vec<u8>, count: u64) -> Result<(), AllocError> {
        for _ in 0..count {
            let byte = self.below(256);
            to.push(u8::try_from(byte).unwrap_or(0))?;
        }
        Ok(())
    }

    /// A line's end, now and then with a carriage return before it, or a space.
    pub fn line_end(&mut self) -> &'static [u8] {
        match self.below(4) {
            0 => b"\r\n",
            1 => b" \n",
            _ => b"\n",
        }
    }
}

/// Adds three pieces to a script.
pub fn push_three(
    to: &mut Vec<u8>,
    first: &[u8],
    second: &[u8],
    third: &[u8],
) -> Result<(), AllocError> {
    to.extend_from_slice(first)?;
    to.extend_from_slice(second)?;
    to.extend_from_slice(third)
}

/// The digits of two numbers, with a space before each.
pub fn digits(alloc: Global, first: u64, second: u64) -> Result<String, AllocError> {
    format!(in alloc; " {first} {second}")
}
