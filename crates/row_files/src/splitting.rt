// The lines of a file.
use std::alloc::{AllocError, Global};

/// A line that is not empty, and its number, counted from 1.
#[derive(Clone, Copy)]
pub struct Line<'a> {
    pub number: u64,
    pub mark: u8,
    /// What stands behind the mark and a space, as it is spelt.
    pub text: &'a [u8],
}

/// The lines that are not empty, in their order.
pub fn lines(alloc: Global, file: &[u8]) -> Result<Vec<Line<'_>>, AllocError> {
    let mut lines = Vec::new(alloc);
    let mut number = 0u64;
    for line in file.split(|byte| *byte == b'\n') {
        number = number.saturating_add(1);
        if let Some((mark, text)) = split_mark(line) {
            lines.push(Line { number, mark, text })?;
        }
    }
    Ok(lines)
}

/// A line's mark and its text; None of an empty line.
fn split_mark(line: &[u8]) -> Option<(u8, &[u8])> {
    match line {
        [] => None,
        [mark, b' ', text @ ..] => Some((*mark, text)),
        [mark, text @ ..] => Some((*mark, text)),
    }
}

/// The bytes before the first space, and those behind it.
pub fn split_word(text: &[u8]) -> (&[u8], &[u8]) {
    match text.iter().position(|byte| *byte == b' ') {
        Some(at) => (&text[..at], &text[at + 1..]),
        None => (text, b""),
    }
}
