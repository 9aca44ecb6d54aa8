// What a line asks, and whether a name is lawful.
use cmdlet_line::{Line, LineFault, parse};
use plain_volume::name_is_lawful;
use row_files::Answers;
use std::alloc::AllocError;

type Written = Result<(), AllocError>;

/// What is asked, which is one line, without its end.
fn without_newline(asked: &[u8]) -> &[u8] {
    asked.strip_suffix(b"\n").unwrap_or(asked)
}

/// Spells what a line asks, or why it is refused: each name in brackets.
pub fn answer(asked: &[u8], answers: &mut Answers) -> Written {
    match parsed(without_newline(asked)) {
        Ok(line) => spell(answers, line),
        Err(fault) => spell_fault(answers, fault),
    }
}

/// Says whether a name is lawful.
pub fn answer_name(asked: &[u8], answers: &mut Answers) -> Written {
    answers.line(if is_lawful(without_newline(asked)) {
        "lawful"
    } else {
        "not lawful"
    })
}

fn parsed(line: &[u8]) -> Result<Line<'_>, LineFault<'_>> {
    parse(line, *b"D:")
}

fn is_lawful(name: &[u8]) -> bool {
    name_is_lawful(name)
}

fn spell(answers: &mut Answers, line: Line<'_>) -> Written {
    match line {
        Line::Silent => answers.line("Silent"),
        Line::List => answers.line("List"),
        Line::Flush => answers.line("Flush"),
        Line::Exit => answers.line("Exit"),
        Line::Create(name) => named(answers, "Create", name),
        Line::Delete(name) => named(answers, "Delete", name),
        Line::Digest(name) => named(answers, "Digest", name),
        Line::Stat(name) => named(answers, "Stat", name),
        Line::Rename(from, to) => renamed(answers, from, to),
        Line::Length(name, length) => numbered(answers, "Length", name, &[length]),
        Line::Write(name, at, count) => numbered(answers, "Write", name, &[at, count]),
        Line::Read(name, at, count) => numbered(answers, "Read", name, &[at, count]),
        Line::Fill(name, at, count, byte) => numbered(answers, "Fill", name, &[at, count, byte]),
    }
}

fn spell_fault(answers: &mut Answers, fault: LineFault<'_>) -> Written {
    match fault {
        LineFault::LineTooLong => answers.line("LineTooLong"),
        LineFault::BadQuote => answers.line("BadQuote"),
        LineFault::UnknownCommand(word) => named(answers, "UnknownCommand", word),
        LineFault::NotBuilt(word) => named(answers, "NotBuilt", word),
        LineFault::UnknownParameter(word) => named(answers, "UnknownParameter", word),
        LineFault::LeftOut(word) => told(answers, "LeftOut", word),
        LineFault::RepeatedParameter(word) => told(answers, "RepeatedParameter", word),
        LineFault::MissingValue(word) => told(answers, "MissingValue", word),
        LineFault::BadValue(word) => told(answers, "BadValue", word),
        LineFault::MissingParameter(word) => told(answers, "MissingParameter", word),
    }
}

/// A fault with the name of a parameter.
fn told(answers: &mut Answers, what: &str, parameter: &str) -> Written {
    answers.part(what.as_bytes())?;
    answers.part(b" ")?;
    answers.line(parameter)
}

fn put_name(answers: &mut Answers, what: &str, name: &[u8]) -> Written {
    answers.part(what.as_bytes())?;
    answers.part(b" [")?;
    answers.part(name)?;
    answers.part(b"]")
}

fn named(answers: &mut Answers, what: &str, name: &[u8]) -> Written {
    put_name(answers, what, name)?;
    answers.line("")
}

fn renamed(answers: &mut Answers, from: &[u8], to: &[u8]) -> Written {
    put_name(answers, "Rename", from)?;
    named(answers, "", to)
}

fn numbered(answers: &mut Answers, what: &str, name: &[u8], numbers: &[u64]) -> Written {
    put_name(answers, what, name)?;
    for number in numbers {
        answers.part(b" ")?;
        answers.part_number(*number)?;
    }
    answers.line("")
}
