// Cutting bytes into pieces, by the fast body and by the plain one.
use crate::faults::BenchFault;
use crate::random::add_random;
use crate::report::{nanos_since, rate};
use regression_chunker::{Cut, next_cut, next_cut_plain};
use std::alloc::{AllocError, Global};
use std::rt::Clock;
use std::time::Instant;

/// How often each body cuts the same bytes; its best time counts.
const ROUNDS: usize = 3;

/// Bytes per MiB.
const MEBIBYTE: usize = 1_048_576;

/// The two bodies of the cut rule.
#[derive(Clone, Copy)]
enum Body {
    Plain,
    Fast,
}

/// The name of some bytes, and those of their two figures.
#[derive(Clone, Copy)]
struct Names {
    kind: &'static str,
    plain: &'static str,
    fast: &'static str,
}

const RANDOM: Names = Names {
    kind: "random",
    plain: "cut.plain",
    fast: "cut.fast",
};

const ZEROS: Names = Names {
    kind: "zeros",
    plain: "cut.plain.zeros",
    fast: "cut.fast.zeros",
};

const TEXT: Names = Names {
    kind: "text",
    plain: "cut.plain.text",
    fast: "cut.fast.text",
};

/// What a body made of some bytes.
#[derive(Clone, Copy)]
struct Cutting {
    pieces: u64,
    nanos: u64,
}

/// Cuts `size` MiB of random bytes, of zeros and of repeated text by both bodies.
pub fn measure(
    rt: &(impl Print + Eprint + Alloc<A = Global> + Clock),
    size: u32,
) -> Result<(), BenchFault> {
    let count = size as usize * MEBIBYTE;
    compare(rt, RANDOM, random_bytes(rt.alloc(), count)?)?;
    compare(rt, ZEROS, zero_bytes(rt.alloc(), count)?)?;
    compare(rt, TEXT, repeated_text(rt.alloc(), count)?)
}

/// Cuts the same bytes by both bodies.
fn compare(
    rt: &(impl Print + Eprint + Clock),
    names: Names,
    bytes: Vec<u8>,
) -> Result<(), BenchFault> {
    let (plain, fast) = cut_in_turn(rt, &bytes)?;
    tell(rt, names, bytes.len(), plain, fast)
}

/// Tells what both bodies made of so many bytes.
fn tell(
    rt: &(impl Print + Eprint),
    names: Names,
    count: usize,
    plain: Cutting,
    fast: Cutting,
) -> Result<(), BenchFault> {
    let (kind, pieces, fast_pieces) = (names.kind, plain.pieces, fast.pieces);
    println!(rt; "cut {kind} bytes {count} plain {pieces} fast {fast_pieces} pieces")?;
    rate(rt, names.plain, count as u64, plain.nanos)?;
    rate(rt, names.fast, count as u64, fast.nanos)?;
    Ok(())
}

/// Cuts the bytes by the plain body and by the fast one, in turn.
fn cut_in_turn(rt: &impl Clock, bytes: &[u8]) -> Result<(Cutting, Cutting), BenchFault> {
    let mut plain = Cutting {
        pieces: 0,
        nanos: u64::MAX,
    };
    let mut fast = plain;
    for _ in 0..ROUNDS {
        plain = better(plain, cut_once(rt, bytes, Body::Plain)?);
        fast = better(fast, cut_once(rt, bytes, Body::Fast)?);
    }
    Ok((plain, fast))
}

/// The later of two cuttings, with the lesser time.
fn better(one: Cutting, other: Cutting) -> Cutting {
    Cutting {
        pieces: other.pieces,
        nanos: one.nanos.min(other.nanos),
    }
}

fn cut_once(rt: &impl Clock, bytes: &[u8], body: Body) -> Result<Cutting, BenchFault> {
    let start = Instant::now(rt)?;
    let pieces = count_pieces(bytes, body);
    Ok(Cutting {
        pieces,
        nanos: nanos_since(rt, start)?,
    })
}

/// The pieces of a whole text: all that is left is given to each call.
fn count_pieces(bytes: &[u8], body: Body) -> u64 {
    let mut rest = bytes;
    for pieces in 0..u64::MAX {
        match behind_first(rest, body) {
            Some(behind) => rest = behind,
            None => return pieces,
        }
    }
    u64::MAX
}

/// What stands behind the first piece, where there is one.
fn behind_first(rest: &[u8], body: Body) -> Option<&[u8]> {
    if rest.is_empty() {
        return None;
    }
    let cut = match body {
        Body::Plain => next_cut_plain(rest, rest.len() as u64),
        Body::Fast => next_cut(rest, rest.len() as u64),
    };
    match cut {
        Cut::At(size) => rest.get(size..),
        Cut::NeedMore => None,
    }
}

fn random_bytes(alloc: Global, count: usize) -> Result<Vec<u8>, AllocError> {
    let mut bytes = Vec::with_capacity(alloc, count)?;
    add_random(&mut bytes, 88172645463325252, count / 8)?;
    Ok(bytes)
}

fn zero_bytes(alloc: Global, count: usize) -> Result<Vec<u8>, AllocError> {
    vec![in alloc; 0u8; count]
}

/// One sentence again and again.
fn repeated_text(alloc: Global, count: usize) -> Result<Vec<u8>, AllocError> {
    repeated(
        alloc,
        b"The quick brown fox jumps over the lazy dog. ",
        count,
    )
}

/// A text as often as it goes into so many bytes.
fn repeated(alloc: Global, text: &[u8], count: usize) -> Result<Vec<u8>, AllocError> {
    let mut bytes = Vec::with_capacity(alloc, count)?;
    for _ in 0..count / text.len().max(1) {
        bytes.extend_from_slice(text)?;
    }
    Ok(bytes)
}
