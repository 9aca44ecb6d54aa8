// Steps on a journal.
use crate::halves;
use crate::session::{Held, Session};
use row_files::{Answers, Asked, RowFault};

/// Makes a journal on the disk.
pub fn format(
    session: &mut Session,
    mut asked: Asked<'_>,
    answers: &mut Answers,
) -> Result<(), RowFault> {
    let (at, half) = (asked.number()?, asked.number()?);
    let disk = session.take_disk();
    let (held, fault) = halves::format(session.alloc, disk, at, half)?;
    session.held = held;
    session.tell(fault, answers)
}

/// Opens the journal of the disk.
pub fn open(
    session: &mut Session,
    mut asked: Asked<'_>,
    answers: &mut Answers,
) -> Result<(), RowFault> {
    let (at, half) = (asked.number()?, asked.number()?);
    let disk = session.take_disk();
    let (held, fault) = halves::open(session.alloc, disk, at, half)?;
    session.held = held;
    session.tell(fault, answers)
}

/// The journal that stands open.
fn log_of(held: &mut Held) -> Result<&mut halves::Log, RowFault> {
    match held {
        Held::Journal(log) => Ok(log),
        Held::Disk(_) => Err(RowFault::NoQuestion),
    }
}

/// Stages a pair.
pub fn put(
    session: &mut Session,
    mut asked: Asked<'_>,
    answers: &mut Answers,
) -> Result<(), RowFault> {
    let (key, value) = (asked.bytes(session.alloc)?, asked.bytes(session.alloc)?);
    let fault = halves::put(log_of(&mut session.held)?, &key, &value);
    session.tell(fault, answers)
}

/// Stages that a range is dropped.
pub fn drop_range(
    session: &mut Session,
    mut asked: Asked<'_>,
    answers: &mut Answers,
) -> Result<(), RowFault> {
    let (from, to) = (asked.bytes(session.alloc)?, asked.bytes(session.alloc)?);
    let fault = halves::drop_range(log_of(&mut session.held)?, &from, &to);
    session.tell(fault, answers)
}

/// Commits what is staged.
pub fn commit(session: &mut Session, answers: &mut Answers) -> Result<(), RowFault> {
    let fault = halves::commit(log_of(&mut session.held)?);
    session.tell(fault, answers)
}

/// Tells the value of a key.
pub fn get(
    session: &mut Session,
    mut asked: Asked<'_>,
    answers: &mut Answers,
) -> Result<(), RowFault> {
    let key = asked.bytes(session.alloc)?;
    Ok(halves::tell_value(log_of(&mut session.held)?, &key, answers)?)
}

/// Tells the pairs of the map; a journal is opened for it where none stands open.
pub fn map(session: &mut Session, asked: Asked<'_>, answers: &mut Answers) -> Result<(), RowFault> {
    if !matches!(&session.held, Held::Journal(_)) {
        open(session, asked, answers)?;
    }
    match &session.held {
        Held::Journal(log) => Ok(halves::tell_map(session.alloc, log, answers)?),
        Held::Disk(_) => Ok(()),
    }
}

/// Tells how many bytes are staged, and how many a checkpoint would have.
pub fn counts(session: &mut Session, answers: &mut Answers) -> Result<(), RowFault> {
    let (staged, checkpoint) = halves::counts(log_of(&mut session.held)?);
    answers.part_number(staged as u64)?;
    answers.part(b" ")?;
    Ok(answers.number(checkpoint)?)
}

/// Tells bytes that were written and read back outside the halves of a new journal.
pub fn data(
    session: &mut Session,
    mut asked: Asked<'_>,
    answers: &mut Answers,
) -> Result<(), RowFault> {
    let place = (asked.number()?, asked.number()?);
    let at = asked.number()?;
    let bytes = asked.bytes(session.alloc)?;
    let disk = session.take_disk();
    let read = halves::data(session.alloc, disk, place, at, &bytes)?;
    answers.part_shown(&read)?;
    Ok(answers.line("")?)
}
