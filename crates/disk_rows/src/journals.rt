// Rows over journals: the steps by their names.
use crate::session::Session;
use crate::{images, journal, replays, stored};
use row_files::{Answers, Asked, RowFault, Steps, Tally};
use std::alloc::Global;

/// Makes a step, and answers with what it tells.
pub fn take(session: &mut Session, text: &[u8], answers: &mut Answers) -> Result<(), RowFault> {
    let mut words = Asked::new(text);
    match words.word() {
        b"disk" => images::make(session, words),
        b"set" => images::set(session, words),
        b"has" => images::has(session, words, answers),
        b"zeros" => images::zeros(session, words, answers),
        b"digest" => images::digest(session, words, answers),
        b"watch" => Ok(images::watch(session)),
        name => take_journal(session, name, words, answers),
    }
}

fn take_journal(
    session: &mut Session,
    name: &[u8],
    asked: Asked<'_>,
    answers: &mut Answers,
) -> Result<(), RowFault> {
    match name {
        b"format" => journal::format(session, asked, answers),
        b"open" => journal::open(session, asked, answers),
        b"put" => journal::put(session, asked, answers),
        b"drop" => journal::drop_range(session, asked, answers),
        b"commit" => journal::commit(session, answers),
        b"get" => journal::get(session, asked, answers),
        b"map" => journal::map(session, asked, answers),
        b"staged" => journal::counts(session, answers),
        b"data" => journal::data(session, asked, answers),
        b"volume" => stored::make(session),
        b"row" => stored::row(session, asked, answers),
        b"append" => stored::append(session, asked, answers),
        _ => Err(RowFault::NoQuestion),
    }
}

/// The line of the first step that tells otherwise than it is to tell.
fn first_wrong(alloc: Global, row: &Steps<'_>) -> Result<Option<u64>, RowFault> {
    let mut session = Session::new(alloc, Vec::new(alloc), 0);
    for step in &row.steps {
        let mut answers = Answers::new(alloc);
        take(&mut session, &step.text, &mut answers)?;
        if answers.text() != step.wanted.as_slice() {
            return Ok(Some(step.line));
        }
    }
    Ok(None)
}

/// Counts a row, and tells of it where it differs.
pub fn count(alloc: Global, row: &Steps<'_>, tally: &mut Tally) -> Result<(), RowFault> {
    if let Some(line) = first_wrong(alloc, row)? {
        return Ok(tally.count(line, false)?);
    }
    let survives = row.end.mark != b'!' || replays::survives(alloc, row, tally)?;
    Ok(tally.count(row.end.number, survives)?)
}
