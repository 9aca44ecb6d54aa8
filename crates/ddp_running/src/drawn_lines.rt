// Scripts that are drawn.
use crate::draws::{Draws, digits, push_three};
use std::alloc::{AllocError, Global};

/// Adds a line with a name behind its first word.
fn push_named(to: &mut Vec<u8>, draws: &mut Draws, word: &[u8]) -> Result<(), AllocError> {
    let name = draws.name();
    let end = draws.line_end();
    push_three(to, word, name, end)
}

/// Where a write begins, and how many bytes it has: now and then more than a file may have.
fn range(draws: &mut Draws) -> (u64, u64) {
    match draws.below(30) {
        0 => ((1 << 30) - 3, draws.below(30).saturating_add(4)),
        _ => (draws.place(), draws.count()),
    }
}

/// Adds a write with its payload, which now and then is longer than the line says.
fn push_write(alloc: Global, to: &mut Vec<u8>, draws: &mut Draws) -> Result<(), AllocError> {
    let name = draws.name();
    let (at, count) = range(draws);
    let numbers = digits(alloc, at, count)?;
    push_three(to, b"write ", name, numbers.as_bytes())?;
    to.push(b'\n')?;
    draws.push_bytes(to, count)?;
    let end: &[u8] = match draws.below(9) {
        0 => b"x create a\n",
        _ => b"\n",
    };
    to.extend_from_slice(end)
}

fn push_read(alloc: Global, to: &mut Vec<u8>, draws: &mut Draws) -> Result<(), AllocError> {
    let (name, at, count) = (draws.name(), draws.place(), draws.below(5000));
    let (numbers, end) = (digits(alloc, at, count)?, draws.line_end());
    push_three(to, b"  read ", name, numbers.as_bytes())?;
    to.extend_from_slice(end)
}

fn push_length(alloc: Global, to: &mut Vec<u8>, draws: &mut Draws) -> Result<(), AllocError> {
    let (name, length) = (draws.name(), draws.place());
    let numbers = format!(in alloc; " {length}\n")?;
    push_three(to, b"length ", name, numbers.as_bytes())
}

fn push_rename(to: &mut Vec<u8>, draws: &mut Draws) -> Result<(), AllocError> {
    let (from, end) = (draws.name(), draws.line_end());
    let name = draws.name();
    push_three(to, b"rename ", from, b" ")?;
    push_three(to, name, b"", end)
}

/// Adds a line that makes no call, or one that names no file.
fn push_other(to: &mut Vec<u8>, draws: &mut Draws) -> Result<(), AllocError> {
    let line: &[u8] = match draws.below(5) {
        0 => b"\n \r\n",
        1 => b"# create \"a\n",
        2 => b"read a 0 -1\n",
        3 => b"list\n",
        _ => b"flush\n",
    };
    to.extend_from_slice(line)
}

fn push_drawn_line(alloc: Global, to: &mut Vec<u8>, draws: &mut Draws) -> Result<(), AllocError> {
    match draws.below(20) {
        0..=2 => push_named(to, draws, b"create "),
        3..=8 => push_write(alloc, to, draws),
        9 => push_length(alloc, to, draws),
        10 => push_rename(to, draws),
        11 => push_named(to, draws, b"delete "),
        12..=14 => push_read(alloc, to, draws),
        15 => push_named(to, draws, b"digest "),
        16 => push_named(to, draws, b"stat "),
        _ => push_other(to, draws),
    }
}

/// Adds so many lines that are drawn from a seed.
pub fn push_drawn(
    alloc: Global,
    to: &mut Vec<u8>,
    seed: u64,
    lines: u64,
) -> Result<(), AllocError> {
    let mut draws = Draws::new(seed);
    for _ in 0..lines {
        push_drawn_line(alloc, to, &mut draws)?;
    }
    Ok(())
}
