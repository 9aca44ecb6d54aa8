//! What a scan over places has seen.

ghost use Rattle.std.specs.Prelude.{◌≡◌, ℕ, ◌+◌, ◌-◌, ◌*◌, ◌/◌, ◌%◌, ◌^◌, ◌<◌, ◌≤◌, ◌==◌, ◌↔◌, if◌then◌else◌, List, length, min, Some, None, IsNone, IsTrue, unwrap_or};
ghost use Rattle.std.specs.Option.{option_or};
ghost use Rattle.regression_chunker.specs.Answer.{IfAt, IsNeedMore};
ghost use Rattle.regression_chunker.specs.Cuts.{print_at, NoMatch, Decides};
ghost use Rattle.regression_chunker.specs.Sees.{Sees, FirstIn, HasRun, HasTurningRun};
ghost use Rattle.regression_chunker.specs.Tables.{complement_of};

use crate::cuts::Cut;
use crate::limits::{FULL_BITS, LEAST_BITS, MOST};
use crate::tables::Tables;

/// Whether the low bits of a print, so many of them, are all 1.
#[inline]
fn is_match(print: u64, bits: u32) -> bool
    requires { bits < 64 }
    ensures { result ≡ (print % 2 ^ bits == 2 ^ bits - 1) }
{
    let ones = (1u64 << bits) - 1;
    print & ones == ones
}

/// Whether a print has a match of the fewest bits, from its complement.
#[inline]
fn is_least_match(complement: u64) -> bool
    ensures { (print : ℕ) → complement ≡ complement_of print → result ≡ (print % 2 ^ 12 == 2 ^ 12 - 1) }
{
    complement & ((1 << LEAST_BITS) - 1) == 0
}

/// The place, if its print matches.
fn place_of_match(print: u64, bits: u32, place: usize) -> Option<usize>
    requires { bits < 64 }
    ensures { result ≡ (if print % 2 ^ bits == 2 ^ bits - 1 then Some place else None) }
{
    if is_match(print, bits) {
        Some(place)
    } else {
        None
    }
}

/// The first place of a stretch that is a full match, and the last ones that match with fewer bits.
#[derive(Clone, Copy)]
pub struct Seen {
    pub full: Option<usize>,
    pub fifteen: Option<usize>,
    pub fourteen: Option<usize>,
    pub thirteen: Option<usize>,
    pub twelve: Option<usize>,
}

/// The arguments `rest`, `after`, `mid` and `last` are read by the clauses alone.
impl Seen {
    /// What a stretch without places shows.
    pub fn nothing() -> Seen
        ensures { result ≡ record { full = None; fifteen = None; fourteen = None; thirteen = None; twelve = None } }
    {
        Seen {
            full: None,
            fifteen: None,
            fourteen: None,
            thirteen: None,
            twelve: None,
        }
    }

    /// What the place after `at` shows.
    fn one(print: u64, rest: &[u8], at: usize) -> Seen
        requires within { at < length rest.now }
        requires print { print ≡ print_at rest.now (at + 1) }
        ensures { Sees rest.now at (at + 1) result }
    {
        let place = at + 1;
        Seen {
            full: place_of_match(print, FULL_BITS, place),
            fifteen: place_of_match(print, 15, place),
            fourteen: place_of_match(print, 14, place),
            thirteen: place_of_match(print, 13, place),
            twelve: place_of_match(print, LEAST_BITS, place),
        }
    }

    /// What two stretches show, after `after` up to `mid` and on to `last`.
    #[inline]
    pub fn then(self, next: Seen, rest: &[u8], after: usize, mid: usize, last: usize) -> Seen
        requires starts { after ≤ mid }
        requires ends { mid ≤ last }
        requires first { Sees rest.now after mid self }
        requires second { Sees rest.now mid last next }
        ensures { Sees rest.now after last result }
    {
        Seen {
            full: self.full.or(next.full),
            fifteen: next.fifteen.or(self.fifteen),
            fourteen: next.fourteen.or(self.fourteen),
            thirteen: next.thirteen.or(self.thirteen),
            twelve: next.twelve.or(self.twelve),
        }
    }

    /// Takes the place after `at` in. Few places come here, so it stands apart from the loops.
    #[cold]
    #[inline(never)]
    fn take_in(&mut self, print: u64, rest: &[u8], at: usize, after: usize)
        requires starts { after ≤ at }
        requires within { at < length rest.now }
        requires print { print ≡ print_at rest.now (at + 1) }
        requires before { Sees rest.now after at self.old }
        ensures { Sees rest.now after (at + 1) self.new }
    {
        *self = self.then(Seen::one(print, rest, at), rest, after, at, at + 1);
    }

    /// Moves a run on: it has come to `at`, whose print is given, and looks at the place after it. Answers
    /// the print there.
    #[inline]
    pub fn step(&mut self, print: u64, tables: &Tables, rest: &[u8], at: usize, after: usize) -> u64
        requires enough { 48 ≤ at }
        requires within { at < length rest.now }
        requires starts { after ≤ at }
        requires before { HasRun rest.now after at print self.old }
        ensures { HasRun rest.now after (at + 1) result self.new }
    {
        let next = tables.next_print(print, rest, at);
        if is_match(next, LEAST_BITS) {
            self.take_in(next, rest, at, after);
        }
        next
    }

    /// The same on complements.
    #[inline]
    pub fn step_complement(
        &mut self,
        complement: u64,
        tables: &Tables,
        rest: &[u8],
        at: usize,
        after: usize,
    ) -> u64
        requires enough { 48 ≤ at }
        requires within { at < length rest.now }
        requires starts { after ≤ at }
        requires before { HasTurningRun rest.now after at complement self.old }
        ensures { HasTurningRun rest.now after (at + 1) result self.new }
    {
        let next = tables.next_complement(complement, rest, at);
        if is_least_match(next) {
            self.take_in(next ^ u64::MAX, rest, at, after);
        }
        next
    }

    /// Where a rest without a full match is cut that is too long for one piece.
    fn regression(self) -> usize
        ensures { result ≡ unwrap_or
            (option_or (option_or (option_or self.fifteen self.fourteen) self.thirteen) self.twelve) 131072 }
    {
        self.fifteen
            .or(self.fourteen)
            .or(self.thirteen)
            .or(self.twelve)
            .unwrap_or(MOST)
    }

    /// The cut of a rest of `rest_len` bytes of which the first are given, from what their places show.
    pub fn cut(self, rest: &[u8], rest_len: u64) -> Cut
        requires some { 0 < length rest.now }
        requires prefix { length rest.now ≤ rest_len }
        requires full { FirstIn 16 rest.now 32768 (min (length rest.now) 131072) self.full }
        requires all { IsNone self.full → Sees rest.now 32767 (min (length rest.now) 131072) self }
        ensures at { IfAt result (λ p. Decides rest.now rest_len p) }
        ensures size { IfAt result (λ p. (0 < p) × (p ≤ 131072) × (p ≤ length rest.now)) }
        ensures need { IsNeedMore result
            ↔ ((length rest.now < min rest_len 131072) × NoMatch 16 rest.now 32768 (length rest.now)) }
    {
        let given = rest.len();
        if let Some(place) = self.full {
            Cut::At(place)
        } else if given < MOST && (given as u64) < rest_len {
            Cut::NeedMore
        } else if rest_len <= MOST as u64 {
            Cut::At(given)
        } else {
            Cut::At(self.regression())
        }
    }
}
