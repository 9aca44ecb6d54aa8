// The words of a line that is asked.
use crate::faults::RowFault;
use crate::numbers::{number, push_hex};
use crate::splitting::split_word;
use std::alloc::Global;

/// What is left of a line: words with one space between two. A word that is not spelt as it is asked for is no
/// question.
#[derive(Clone, Copy)]
pub struct Asked<'a> {
    rest: &'a [u8],
}

impl<'a> Asked<'a> {
    pub fn new(line: &'a [u8]) -> Asked<'a> {
        Asked { rest: line }
    }

    /// The next word, which is empty at the end.
    pub fn word(&mut self) -> &'a [u8] {
        let (word, rest) = split_word(self.rest);
        self.rest = rest;
        word
    }

    /// All that is left, its spaces too.
    pub fn rest(&self) -> &'a [u8] {
        self.rest
    }

    /// The number that the next word writes, where it writes one.
    pub fn some_number(&mut self) -> Option<u64> {
        number(self.word())
    }

    /// The number that the next word writes.
    pub fn number(&mut self) -> Result<u64, RowFault> {
        match self.some_number() {
            Some(number) => Ok(number),
            None => Err(RowFault::NoQuestion),
        }
    }

    /// The number that the next word writes, as a place or a count in memory.
    pub fn size(&mut self) -> Result<usize, RowFault> {
        Ok(self.number()? as usize)
    }

    /// The number that the next word writes, of 32 bits.
    pub fn short_number(&mut self) -> Result<u32, RowFault> {
        match u32::try_from(self.number()?) {
            Ok(number) => Ok(number),
            Err(_) => Err(RowFault::NoQuestion),
        }
    }

    /// The number that the next word writes, of 8 bits.
    pub fn byte(&mut self) -> Result<u8, RowFault> {
        match u8::try_from(self.number()?) {
            Ok(number) => Ok(number),
            Err(_) => Err(RowFault::NoQuestion),
        }
    }

    /// The bytes that the next word stands for: `-` for none, pairs of hexadecimal digits, and `HEX*COUNT` for copies.
    pub fn bytes(&mut self, alloc: Global) -> Result<Vec<u8>, RowFault> {
        let mut bytes = Vec::new(alloc);
        push_word(&mut bytes, self.word())?;
        Ok(bytes)
    }

    /// The bytes that all words stand for which are left, one behind the other.
    pub fn all_bytes(self, alloc: Global) -> Result<Vec<u8>, RowFault> {
        let mut bytes = Vec::new(alloc);
        for word in self.rest.split(|byte| *byte == b' ') {
            push_word(&mut bytes, word)?;
        }
        Ok(bytes)
    }
}

/// Adds the bytes that a word stands for.
fn push_word(to: &mut Vec<u8>, word: &[u8]) -> Result<(), RowFault> {
    match word.iter().position(|byte| *byte == b'*') {
        Some(at) => push_copies(to, &word[..at], number(&word[at + 1..])),
        None => push_copies(to, word, Some(1)),
    }
}

/// Adds so many copies of the bytes that digits stand for.
fn push_copies(to: &mut Vec<u8>, digits: &[u8], count: Option<u64>) -> Result<(), RowFault> {
    let Some(count) = count else {
        return Err(RowFault::NoQuestion);
    };
    for _ in 0..count {
        if digits != b"-".as_slice() && !push_hex(to, digits)? {
            return Err(RowFault::NoQuestion);
        }
    }
    Ok(())
}
