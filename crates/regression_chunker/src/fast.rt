//! The cut rule by six scans side by side.

ghost use Rattle.std.specs.Prelude.{◌≡◌, ℕ, ◌+◌, ◌-◌, ◌*◌, ◌<◌, ◌≤◌, ◌↔◌, List, length, min, IsNone};
ghost use Rattle.regression_chunker.specs.Answer.{IfAt, IsNeedMore};
ghost use Rattle.regression_chunker.specs.Cuts.{NoMatch, Decides};
ghost use Rattle.regression_chunker.specs.Sees.{Sees, FirstIn};

use crate::cuts::Cut;
use crate::limits::{LEAST, MOST};
use crate::seen::Seen;
use crate::tables::Tables;

/// The places of one run of a block.
const RUN: usize = 1024;

/// The places of a block.
const BLOCK: usize = 6 * RUN;

/// The places after `at`, up to `end`.
fn stretch(tables: &Tables, rest: &[u8], at: usize, end: usize) -> Seen
    requires enough { 48 ≤ at }
    requires order { at ≤ end }
    requires within { end ≤ length rest.now }
    ensures { Sees rest.now at end result }
{
    let mut seen = Seen::nothing();
    let mut print = tables.print_at(rest, at);
    for i in at..end {
        print = seen.step(print, tables, rest, i, at);
    }
    seen
}

/// The places of a block after `at`, by six runs side by side. Each place's print waits for that of the
/// place before it, so that the look-ups of one run leave time for those of the others.
fn block(tables: &Tables, rest: &[u8], at: usize) -> Seen
    requires enough { 48 ≤ at }
    requires within { at + 6144 ≤ length rest.now }
    ensures { Sees rest.now at (at + 6144) result }
{
    let mut a = tables.print_at(rest, at) ^ u64::MAX;
    let mut b = tables.print_at(rest, at + RUN) ^ u64::MAX;
    let mut c = tables.print_at(rest, at + 2 * RUN) ^ u64::MAX;
    let mut d = tables.print_at(rest, at + 3 * RUN) ^ u64::MAX;
    let mut e = tables.print_at(rest, at + 4 * RUN) ^ u64::MAX;
    let mut f = tables.print_at(rest, at + 5 * RUN) ^ u64::MAX;
    let mut seen_a = Seen::nothing();
    let mut seen_b = Seen::nothing();
    let mut seen_c = Seen::nothing();
    let mut seen_d = Seen::nothing();
    let mut seen_e = Seen::nothing();
    let mut seen_f = Seen::nothing();
    for i in at..at + RUN {
        a = seen_a.step_complement(a, tables, rest, i, at);
        b = seen_b.step_complement(b, tables, rest, i + RUN, at + RUN);
        c = seen_c.step_complement(c, tables, rest, i + 2 * RUN, at + 2 * RUN);
        d = seen_d.step_complement(d, tables, rest, i + 3 * RUN, at + 3 * RUN);
        e = seen_e.step_complement(e, tables, rest, i + 4 * RUN, at + 4 * RUN);
        f = seen_f.step_complement(f, tables, rest, i + 5 * RUN, at + 5 * RUN);
    }
    let seen = seen_a.then(seen_b, rest, at, at + RUN, at + 2 * RUN);
    let seen = seen.then(seen_c, rest, at, at + 2 * RUN, at + 3 * RUN);
    let seen = seen.then(seen_d, rest, at, at + 3 * RUN, at + 4 * RUN);
    let seen = seen.then(seen_e, rest, at, at + 4 * RUN, at + 5 * RUN);
    seen.then(seen_f, rest, at, at + 5 * RUN, at + BLOCK)
}

/// The places of a piece, up to the end of the first block with a full match.
fn scan(rest: &[u8]) -> Seen
    ensures full { FirstIn 16 rest.now 32768 (min (length rest.now) 131072) result.full }
    ensures all { IsNone result.full → Sees rest.now 32767 (min (length rest.now) 131072) result }
{
    let end = rest.len().min(MOST);
    if end < LEAST {
        return Seen::nothing();
    }
    let tables = Tables::new();
    let mut seen = Seen::nothing();
    let mut at = LEAST - 1;
    while end - at >= BLOCK {
        let more = block(&tables, rest, at);
        seen = seen.then(more, rest, LEAST - 1, at, at + BLOCK);
        at += BLOCK;
        if seen.full.is_some() {
            return seen;
        }
    }
    let more = stretch(&tables, rest, at, end);
    seen.then(more, rest, LEAST - 1, at, end)
}

/// Where the rest of a file is cut that has `rest_len` bytes and begins with `rest`. Whatever the window,
/// the answers are the pieces of the file. No byte before place 32,768 - 48 is looked at.
pub fn next_cut(rest: &[u8], rest_len: u64) -> Cut
    requires some { 0 < length rest.now }
    requires prefix { length rest.now ≤ rest_len }
    ensures at { IfAt result (λ p. Decides rest.now rest_len p) }
    ensures size { IfAt result (λ p. (0 < p) × (p ≤ 131072) × (p ≤ length rest.now)) }
    ensures need { IsNeedMore result
        ↔ ((length rest.now < min rest_len 131072) × NoMatch 16 rest.now 32768 (length rest.now)) }
{
    scan(rest).cut(rest, rest_len)
}
