//! A walk over the pairs of a map.

ghost use Rattle.std.specs.Prelude.{◌≡◌, [], ◌∷◌, T, IfNone, IfSome};
ghost use Rattle.std.specs.FinMap.Entries.{is_sorted};
ghost use Rattle.byte_map.specs.Blocks.{joined, AllFilled};
ghost use Rattle.byte_map.specs.Words.{bytes_cmp};

use crate::block::Block;
use crate::blocks::{next_place, pair_at};
use crate::place::Place;
use std::marker::Model;

/// The pairs of a map that a walk over it has still to give, in the order of their keys.
///
/// A loop over a map begins with `let mut walk = map.walk();` and goes `while let Some((key, value)) = walk.next()`.
/// With `F` a recursion over a list of pairs, its invariant says of what is left that `F l.walk`, after what was done
/// so far, is `F` of the map; its measure is `length l.walk`.
#[derive(Drop)]
pub struct Walk<'a> {
    blocks: &'a [Block],
    place: Place,
}

impl<'a> Model for Walk<'a> {
    ghost use Rattle.byte_map.specs.Words.{Map};
    ghost use Rattle.byte_map.specs.Blocks.{rest, IsWalk};

    ghost Value = { Map };

    ghost view = { λ a. rest a.blocks.now a.place.block a.place.index };

    ghost invariant = { λ a. IsWalk a.blocks.now a.place.block a.place.index };
}

impl<'a> Walk<'a> {
    /// A walk over all pairs of blocks.
    pub(crate) fn over(blocks: &'a [Block]) -> Walk<'a>
        requires { AllFilled blocks.now }
        ensures { result ≡ joined blocks.now }
    {
        Walk {
            blocks,
            place: Place { block: 0, index: 0 },
        }
    }

    /// The first pair that is left. It takes no memory and constant time.
    pub fn next(&mut self) -> Option<(&'a [u8], &'a [u8])>
        ensures some { IfSome result (λ pair. self.old ≡ (pair.0.now, pair.1.now) ∷ self.new) }
        ensures none { IfNone result ((self.old ≡ []) × (self.new ≡ [])) }
    {
        match pair_at(self.blocks, self.place) {
            Some(pair) => {
                self.place = next_place(self.blocks, self.place);
                Some((pair.key(), pair.value()))
            }
            None => None,
        }
    }
}
