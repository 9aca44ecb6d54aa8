//! The cut rule by a plain scan.

ghost use Rattle.std.specs.Prelude.{◌≡◌, ℕ, ◌+◌, ◌<◌, ◌≤◌, ◌↔◌, List, length, min, IsNone};
ghost use Rattle.regression_chunker.specs.Answer.{IfAt, IsNeedMore};
ghost use Rattle.regression_chunker.specs.Cuts.{NoMatch, Decides};
ghost use Rattle.regression_chunker.specs.Sees.{Sees, FirstIn};

use crate::cuts::Cut;
use crate::limits::{LEAST, MOST};
use crate::seen::Seen;
use crate::tables::Tables;

/// Looks at one place after the other, up to the first full match.
fn scan(rest: &[u8]) -> Seen
    ensures full { FirstIn 16 rest.now 32768 (min (length rest.now) 131072) result.full }
    ensures all { IsNone result.full → Sees rest.now 32767 (min (length rest.now) 131072) result }
{
    let end = rest.len().min(MOST);
    if end < LEAST {
        return Seen::nothing();
    }
    let tables = Tables::new();
    let mut seen = Seen::nothing();
    let mut print = tables.print_at(rest, LEAST - 1);
    for i in LEAST - 1..end {
        print = seen.step(print, &tables, rest, i, LEAST - 1);
        if seen.full.is_some() {
            break;
        }
    }
    seen
}

/// `next_cut` by the program that the definition suggests, a place at a time. It is there to be compared
/// with, in time and in what it answers.
pub fn next_cut_plain(rest: &[u8], rest_len: u64) -> Cut
    requires some { 0 < length rest.now }
    requires prefix { length rest.now ≤ rest_len }
    ensures at { IfAt result (λ p. Decides rest.now rest_len p) }
    ensures size { IfAt result (λ p. (0 < p) × (p ≤ 131072) × (p ≤ length rest.now)) }
    ensures need { IsNeedMore result
        ↔ ((length rest.now < min rest_len 131072) × NoMatch 16 rest.now 32768 (length rest.now)) }
{
    scan(rest).cut(rest, rest_len)
}
