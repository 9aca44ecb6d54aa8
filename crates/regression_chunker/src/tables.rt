//! Prints of windows that move on, by two tables.

ghost use Rattle.std.specs.Prelude.{◌≡◌, ℕ, ◌+◌, ◌*◌, ◌/◌, ◌%◌, ◌^◌, ◌<◌, ◌≤◌, List, length};
ghost use Rattle.regression_chunker.specs.Cuts.{print_at};
ghost use Rattle.regression_chunker.specs.Tables.{push_of, complement_of, IsTable, IsTurnTable};

use crate::limits::WINDOW;
use crate::remainder::{times_x, times_x_to};

/// A power of x times each byte. Each pair of entries comes from the entry of half the number, so that
/// a table is made in the time of one product.
fn table(bits: u32) -> [u64; 256]
    ensures { IsTable bits result }
{
    let mut entries = [0; 256];
    let one = times_x_to(bits, 1);
    for i in 0..128usize {
        let even = times_x(if i == 0 { 0 } else { entries[i] });
        entries[2 * i] = even;
        entries[2 * i + 1] = even ^ one;
    }
    entries
}

/// The table of a push on complements, from that of a push.
fn turn_table(top: &[u64; 256]) -> [u64; 256]
    requires { IsTable 64 top.now }
    ensures { IsTurnTable result }
{
    let mut entries = [0; 256];
    for byte in 0..256usize {
        let own = byte ^ 0xff;
        entries[byte] = top[own] ^ own as u64;
    }
    entries
}

/// What leaves at the top of a print, and what the oldest byte of a window gave to its print.
#[derive(Drop)]
pub struct Tables {
    top: [u64; 256],
    old: [u64; 256],
    turn: [u64; 256],
    pub ghost top_is: { IsTable 64 top },
    pub ghost old_is: { IsTable 384 old },
    pub ghost turn_is: { IsTurnTable turn },
}

impl Tables {
    pub fn new() -> Tables {
        let top = table(64);
        let turn = turn_table(&top);
        Tables {
            top,
            old: table(384),
            turn,
        }
    }

    /// The print of the window that follows when `new` comes in and `old` goes. The look-up that needs
    /// the print stands last, since the next push waits for it.
    #[inline]
    pub fn push(&self, print: u64, new: u8, old: u8) -> u64
        ensures { result ≡ push_of print new old }
    {
        ((print << 8) ^ (new as u64 ^ self.old[old as usize])) ^ self.top[(print >> 56) as usize]
    }

    /// The print of a place of the rest, from its window alone.
    #[tactic(auto, unfolding(crate::specs::Cuts::print_at))]
    pub fn print_at(&self, rest: &[u8], at: usize) -> u64
        requires enough { 48 ≤ at }
        requires within { at ≤ length rest.now }
        ensures { result ≡ print_at rest.now at }
    {
        let mut print = 0;
        for i in at - WINDOW..at {
            print = self.push(print, rest[i], 0);
        }
        print
    }

    /// The print of the place after `at`, from that of `at`.
    #[inline]
    pub fn next_print(&self, print: u64, rest: &[u8], at: usize) -> u64
        requires enough { 48 ≤ at }
        requires within { at < length rest.now }
        requires before { print ≡ print_at rest.now at }
        ensures { result ≡ print_at rest.now (at + 1) }
    {
        self.push(print, rest[at], rest[at - WINDOW])
    }

    /// `next_print` on complements. A turn by a byte moves the print up and brings what leaves at its top
    /// round to where the table is looked up, in one step; and a complement shows a match as zeros.
    #[inline]
    pub fn next_complement(&self, complement: u64, rest: &[u8], at: usize) -> u64
        requires enough { 48 ≤ at }
        requires within { at < length rest.now }
        requires before { complement ≡ complement_of (print_at rest.now at) }
        ensures { result ≡ complement_of (print_at rest.now (at + 1)) }
    {
        let turned = complement.rotate_left(8);
        (turned ^ (rest[at] as u64 ^ self.old[rest[at - WINDOW] as usize]))
            ^ self.turn[(turned & 0xff) as usize]
    }
}
