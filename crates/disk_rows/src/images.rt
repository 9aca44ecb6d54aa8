// Steps on the bytes of the disk. What stands open on it is closed first.
use crate::memory::{disk_of, disk_of_zeros, fail_from};
use crate::session::{Held, Session};
use row_files::{Answers, Asked, RowFault};
use sha2::{Digest, Sha256};
use std::alloc::{AllocError, Global};

/// Makes a disk of so many zeros.
pub fn make(session: &mut Session, mut asked: Asked<'_>) -> Result<(), RowFault> {
    session.held = Held::Disk(disk_of_zeros(session.alloc, asked.number()?)?);
    Ok(())
}

/// The image with bytes changed from a place on.
fn with_bytes(alloc: Global, image: &[u8], at: usize, bytes: &[u8]) -> Result<Vec<u8>, AllocError> {
    let mut changed = image.to_vec(alloc)?;
    for (k, byte) in bytes.iter().enumerate() {
        if let Some(place) = changed.get_mut(at.saturating_add(k)) {
            *place = *byte;
        }
    }
    Ok(changed)
}

/// Changes bytes of the image.
pub fn set(session: &mut Session, mut asked: Asked<'_>) -> Result<(), RowFault> {
    let at = asked.size()?;
    let bytes = asked.all_bytes(session.alloc)?;
    let disk = session.take_disk();
    let image = with_bytes(session.alloc, disk.image(), at, &bytes)?;
    session.held = Held::Disk(disk_of(session.alloc, image));
    Ok(())
}

/// Tells the bytes of the image from a place on, where they are not these.
pub fn has(
    session: &mut Session,
    mut asked: Asked<'_>,
    answers: &mut Answers,
) -> Result<(), RowFault> {
    let at = asked.size()?;
    let wanted = asked.all_bytes(session.alloc)?;
    let disk = session.take_disk();
    let end = at.saturating_add(wanted.len());
    let found = disk.image().get(at..end).unwrap_or(b"");
    if found != wanted.as_slice() {
        answers.part(b"has ")?;
        answers.digits(found)?;
    }
    session.held = Held::Disk(disk);
    Ok(())
}

/// Tells the first place of some bytes that is not zero.
pub fn zeros(
    session: &mut Session,
    mut asked: Asked<'_>,
    answers: &mut Answers,
) -> Result<(), RowFault> {
    let (from, to) = (asked.size()?, asked.size()?);
    let disk = session.take_disk();
    match disk.image().get(from..to) {
        Some(bytes) => tell_first(answers, bytes)?,
        None => answers.line("past the end")?,
    }
    session.held = Held::Disk(disk);
    Ok(())
}

/// Tells the place of the first byte that is not zero.
fn tell_first(answers: &mut Answers, bytes: &[u8]) -> Result<(), AllocError> {
    match bytes.iter().position(|byte| *byte != 0) {
        Some(at) => {
            answers.part(b"not zero: so many bytes behind ")?;
            answers.number(at as u64)
        }
        None => Ok(()),
    }
}

/// Tells the SHA-256 of some bytes of the image.
pub fn digest(
    session: &mut Session,
    mut asked: Asked<'_>,
    answers: &mut Answers,
) -> Result<(), RowFault> {
    let (from, to) = (asked.size()?, asked.size()?);
    let disk = session.take_disk();
    let digest = Sha256::digest(disk.image().get(from..to).unwrap_or(b""));
    session.held = Held::Disk(disk);
    Ok(answers.digits(&digest)?)
}

/// From here on the calls of the disk are counted, where the row is to be stopped at one of them.
pub fn watch(session: &mut Session) {
    let mut disk = session.take_disk();
    if 0 < session.stop {
        fail_from(&mut disk, session.stop);
    }
    session.held = Held::Disk(disk);
}
