// Where texts are cut, by the fast body and by the plain one.
use crate::texts::text_of;
use regression_chunker::{Cut, next_cut, next_cut_plain};
use row_files::{Answers, Asked, RowFault};
use std::alloc::{AllocError, Global};

/// Answers the lines of a row about one text, which a line `text` makes.
pub fn answer(alloc: Global, asked: &[u8], answers: &mut Answers) -> Result<(), RowFault> {
    let mut text = Vec::new(alloc);
    for line in asked.split(|byte| *byte == b'\n') {
        let mut words = Asked::new(line);
        match words.word() {
            b"" => {}
            b"text" => text = text_of(alloc, words)?,
            b"plain" => pieces(&text, Body::Plain, answers)?,
            b"windows" => pieces(&text, Body::Fast(words.size()?), answers)?,
            b"given" => given(&text, words.size()?, answers)?,
            _ => return Err(RowFault::NoQuestion),
        }
    }
    Ok(())
}

/// What cuts a text.
#[derive(Clone, Copy)]
enum Body {
    /// The plain body, to which all that is left is given.
    Plain,
    /// The fast body, to which windows are given that grow by so many bytes until one is enough.
    Fast(usize),
}

/// Says the sizes of the pieces of a text, one a line.
fn pieces(text: &[u8], body: Body, answers: &mut Answers) -> Result<(), RowFault> {
    let mut rest = text;
    for _ in 0..text.len() {
        if rest.is_empty() {
            break;
        }
        let Some(piece) = first_piece(rest, body) else {
            return Err(RowFault::NoQuestion);
        };
        answers.number(piece as u64)?;
        rest = rest.get(piece..).unwrap_or(b"");
    }
    Ok(())
}

fn first_piece(rest: &[u8], body: Body) -> Option<usize> {
    match body {
        Body::Plain => match plain_cut(rest, rest.len())? {
            Cut::At(piece) => Some(piece),
            Cut::NeedMore => None,
        },
        Body::Fast(window) => piece_by_windows(rest, window),
    }
}

/// The first piece of what is left, by windows that grow by so many bytes.
fn piece_by_windows(rest: &[u8], window: usize) -> Option<usize> {
    let mut given = 0usize;
    for _ in 0..rest.len() {
        given = given.saturating_add(window).min(rest.len());
        if let Cut::At(piece) = fast_cut(rest, given)? {
            return Some(piece);
        }
    }
    None
}

/// What the fast body answers on the first bytes of what is left.
fn fast_cut(rest: &[u8], given: usize) -> Option<Cut> {
    if given == 0 || rest.len() < given {
        return None;
    }
    Some(next_cut(&rest[..given], rest.len() as u64))
}

/// What the plain body answers on the first bytes of what is left.
fn plain_cut(rest: &[u8], given: usize) -> Option<Cut> {
    if given == 0 || rest.len() < given {
        return None;
    }
    Some(next_cut_plain(&rest[..given], rest.len() as u64))
}

/// Says what both bodies answer on the first bytes of a text.
fn given(text: &[u8], given: usize, answers: &mut Answers) -> Result<(), AllocError> {
    let fast = fast_cut(text, given);
    if fast != plain_cut(text, given) {
        return answers.line("the two bodies differ");
    }
    match fast {
        Some(Cut::At(piece)) => {
            answers.part(b"cut ")?;
            answers.number(piece as u64)
        }
        Some(Cut::NeedMore) => answers.line("need more"),
        None => answers.line("nothing is given"),
    }
}
