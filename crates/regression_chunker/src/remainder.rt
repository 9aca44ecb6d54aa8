//! Remainders modulo the polynomial of the prints.

ghost use Rattle.std.specs.Prelude.{◌≡◌, ℕ, ◌+◌, ◌*◌, ◌/◌, ◌%◌, ◌^◌, ◌<◌, ◌≤◌};
ghost use Rattle.regression_chunker.specs.Fingerprint.{times_x, times_x_to};

/// `x^4 + x^3 + x + 1`, the remainder of `x^64`.
const TOP: u64 = 0x1b;

/// x times a remainder.
#[tactic(auto, unfolding(crate::specs::Fingerprint::times_x))]
pub fn times_x(v: u64) -> u64
    ensures { result ≡ times_x v }
{
    if v >> 63 == 0 { v << 1 } else { (v << 1) ^ TOP }
}

/// A power of x times a remainder.
#[tactic(auto, unfolding(crate::specs::Fingerprint::times_x_to))]
pub fn times_x_to(bits: u32, v: u64) -> u64
    ensures { result ≡ times_x_to bits v }
{
    let mut product = v;
    for _ in 0..bits {
        product = times_x(product);
    }
    product
}
