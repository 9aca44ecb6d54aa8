// Lines that stand for many.
use row_files::{Line, number, push_bytes, split_word};
use std::alloc::{AllocError, Global};

/// Lines that are repeated, with a number that goes over 0, STEP, 2 STEP and so on, each modulo COUNT.
#[derive(Drop)]
pub struct Block<'a> {
    pub count: u64,
    pub step: u64,
    pub lines: Vec<Line<'a>>,
}

/// A number, or where there is none, another.
fn number_or(text: &[u8], other: u64) -> u64 {
    number(text).unwrap_or(other)
}

/// The block that the text `COUNT STEP` begins.
pub fn block_of<'a>(alloc: Global, text: &[u8]) -> Block<'a> {
    let (count, step) = split_word(text);
    Block {
        count: number_or(count, 0),
        step: number_or(step, 1),
        lines: Vec::new(alloc),
    }
}

/// Adds the digits of what `A B M W` stands for: A times the number and B, modulo M, in at least W digits.
fn push_form(alloc: Global, to: &mut Vec<u8>, form: &[u8], number: u64) -> Result<(), AllocError> {
    let (factor, rest) = split_word(form);
    let (more, rest) = split_word(rest);
    let (modulus, width) = split_word(rest);
    let value = number_or(factor, 1)
        .wrapping_mul(number)
        .wrapping_add(number_or(more, 0));
    let value = match value.checked_rem(number_or(modulus, 0)) {
        Some(rest) => rest,
        None => value,
    };
    let digits = format!(in alloc; "{value}")?;
    for _ in digits.len() as u64..number_or(width, 0) {
        to.push(b'0')?;
    }
    to.extend_from_slice(digits.as_bytes())
}

/// What stands before a byte and what stands behind it.
fn split_at_byte(text: &[u8], byte: u8) -> Option<(&[u8], &[u8])> {
    let at = text.iter().position(|other| *other == byte)?;
    Some((&text[..at], &text[at + 1..]))
}

/// A text whose forms in braces stand for their digits.
pub fn filled(alloc: Global, text: &[u8], number: u64) -> Result<Vec<u8>, AllocError> {
    let mut filled = Vec::new(alloc);
    let mut rest = text;
    for _ in 0..text.len() {
        let Some((before, behind)) = split_at_byte(rest, b'{') else {
            break;
        };
        let Some((form, behind)) = split_at_byte(behind, b'}') else {
            break;
        };
        filled.extend_from_slice(before)?;
        push_form(alloc, &mut filled, form, number)?;
        rest = behind;
    }
    filled.extend_from_slice(rest)?;
    Ok(filled)
}

/// Adds what `COUNT TEXT` stands for: the text's bytes, so many times.
pub fn push_many(alloc: Global, to: &mut Vec<u8>, text: &[u8]) -> Result<(), AllocError> {
    let (count, spelt) = split_word(text);
    let mut piece = Vec::new(alloc);
    let _rest = push_bytes(&mut piece, spelt)?;
    for _ in 0..number_or(count, 0) {
        to.extend_from_slice(&piece)?;
    }
    Ok(())
}
