// The words of a command line.
use cmdlet_line::Words;
use row_files::{Answers, Asked, RowFault, or_memory};
use std::alloc::{AllocError, Global};
use std::str;

/// Answers the lines of a row: each adds a word or asks for one.
pub fn answer(alloc: Global, asked: &[u8], answers: &mut Answers) -> Result<(), RowFault> {
    let mut words = Words::new(alloc);
    for line in asked.split(|byte| *byte == b'\n') {
        answer_line(&mut words, Asked::new(line), answers)?;
    }
    Ok(())
}

fn answer_line(
    words: &mut Words,
    mut asked: Asked<'_>,
    answers: &mut Answers,
) -> Result<(), RowFault> {
    match asked.word() {
        b"" => {}
        b"push" => push(words, asked.rest())?,
        b"count" => answers.number(words.len() as u64)?,
        b"empty" => answers.whether(words.is_empty())?,
        b"at" => match words.at(asked.size()?) {
            Some(word) => bracketed(answers, word)?,
            None => answers.line("none")?,
        },
        _ => return Err(RowFault::NoQuestion),
    }
    Ok(())
}

fn bracketed(answers: &mut Answers, word: &str) -> Result<(), AllocError> {
    answers.part(b"[")?;
    answers.part(word.as_bytes())?;
    answers.line("]")
}

fn push(words: &mut Words, word: &[u8]) -> Result<(), RowFault> {
    match str::from_utf8(word) {
        Ok(word) => or_memory(words.push(word)),
        Err(_) => Err(RowFault::NoQuestion),
    }
}
