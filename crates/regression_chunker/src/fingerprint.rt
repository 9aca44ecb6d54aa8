//! The print of the bytes pushed last.

ghost use Rattle.std.specs.Prelude.{◌≡◌, ℕ, ◌+◌, ◌<◌, List, ◌++◌, ◌∷◌, [], take, drop, replicate};
ghost use Rattle.regression_chunker.specs.Fingerprint.{print_of};

use crate::limits::WINDOW;
use crate::tables::Tables;
use std::marker::Model;

/// The last 48 bytes pushed and their print. Contracts see the window: its bytes, the oldest first.
#[derive(Drop)]
pub struct Print {
    tables: Tables,
    ring: [u8; WINDOW],
    oldest: usize,
    print: u64,
}

impl Model for Print {
    ghost use Rattle.std.specs.Prelude.{List, ℕ, ◌≡◌, ◌<◌, ◌++◌, take, drop};
    ghost use Rattle.regression_chunker.specs.Fingerprint.{print_of};

    ghost Value = { List ℕ };

    ghost view = { λ p. drop p.oldest p.ring ++ take p.oldest p.ring };

    ghost invariant = { λ p. (p.oldest < 48) × (p.print ≡ print_of (drop p.oldest p.ring ++ take p.oldest p.ring)) };
}

impl Print {
    /// A window of zeros.
    pub fn new() -> Print
        ensures { result ≡ replicate 48 0 }
    {
        Print {
            tables: Tables::new(),
            ring: [0; WINDOW],
            oldest: 0,
            print: 0,
        }
    }

    /// Takes a byte in for the oldest one, and answers the print of the new window.
    pub fn push(&mut self, byte: u8) -> u64
        ensures window { self.new ≡ drop 1 self.old ++ byte ∷ [] }
        ensures print { result ≡ print_of self.new }
    {
        let print = self.tables.push(self.print, byte, self.ring[self.oldest]);
        self.print = print;
        self.ring[self.oldest] = byte;
        self.oldest = if self.oldest == WINDOW - 1 {
            0
        } else {
            self.oldest + 1
        };
        print
    }
}
