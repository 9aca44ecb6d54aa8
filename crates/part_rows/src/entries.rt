// The entries of a stream map and their bytes.
ghost use Rattle.std.specs.Prelude.{◌≡◌, ◌≤◌, ◌*◌, ◌+◌};

use row_files::{Answers, Asked, RowFault};
use std::alloc::{AllocError, Global};
use stream_map::{ENTRY_BYTES, Entry, MapFault, Walk, decode_entry, encode_entry};

/// A walk, of how many bytes it is, and the most entries that it has been handed.
#[derive(Drop)]
struct Walked {
    walk: Walk,
    total: u32,
    handed: u32,
    ghost totals: { walk.total ≡ total },
    ghost counts: { walk.count ≤ handed },
}

impl Walked {
    fn new(total: u32) -> Result<Walked, MapFault> {
        let walk = Walk::new(total)?;
        Ok(Walked {
            walk,
            total,
            handed: 0,
        })
    }

    /// Hands an entry to the walk, where there is room for one.
    fn push(&mut self, bytes: &[u8; ENTRY_BYTES]) -> Option<Result<Entry, MapFault>> {
        let next = u64::from(self.handed) + 1;
        if 12 * next > u64::from(self.total) {
            return None;
        }
        self.handed += 1;
        Some(push(&mut self.walk, bytes))
    }
}

fn push(walk: &mut Walk, bytes: &[u8; ENTRY_BYTES]) -> Result<Entry, MapFault>
    requires { 12 * (walk.old.count + 1) ≤ walk.old.total }
    ensures total { walk.new.total ≡ walk.old.total }
    ensures count { walk.new.count ≤ walk.old.count + 1 }
{
    match walk.push(bytes) {
        Ok(entry) => Ok(entry),
        Err(fault) => Err(fault),
    }
}

/// Answers the lines of a row, of which the last `walk` begins the walk that is asked.
pub fn answer(alloc: Global, asked: &[u8], answers: &mut Answers) -> Result<(), RowFault> {
    let mut walked = None;
    for line in asked.split(|byte| *byte == b'\n') {
        let mut words = Asked::new(line);
        match words.word() {
            b"" => {}
            b"encode" => answers.digits(&encode_entry(entry_of(words)?))?,
            b"decode" => tell(answers, decoded(alloc, words)?)?,
            b"walk" => walked = begun(answers, words.short_number()?)?,
            _ => answer_walk(&mut walked, Asked::new(line), answers)?,
        }
    }
    Ok(())
}

fn entry_of(mut asked: Asked<'_>) -> Result<Entry, RowFault> {
    let id = asked.number()?;
    let length = asked.short_number()?;
    Ok(Entry { id, length })
}

fn tell(answers: &mut Answers, entry: Entry) -> Result<(), AllocError> {
    answers.part_number(entry.id)?;
    answers.part(b" ")?;
    answers.number(u64::from(entry.length))
}

fn decoded(alloc: Global, mut asked: Asked<'_>) -> Result<Entry, RowFault> {
    match asked.bytes(alloc)?.as_slice().first_chunk::<ENTRY_BYTES>() {
        Some(bytes) => Ok(decode_entry(bytes)),
        None => Err(RowFault::NoQuestion),
    }
}

fn begun(answers: &mut Answers, total: u32) -> Result<Option<Walked>, AllocError> {
    match Walked::new(total) {
        Ok(walked) => {
            answers.line("ok")?;
            Ok(Some(walked))
        }
        Err(_) => {
            answers.line("BadLength")?;
            Ok(None)
        }
    }
}

fn answer_walk(
    walked: &mut Option<Walked>,
    mut asked: Asked<'_>,
    answers: &mut Answers,
) -> Result<(), RowFault> {
    let Some(walked) = walked else {
        return Err(RowFault::NoQuestion);
    };
    match asked.word() {
        b"push" => pushed(answers, walked, entry_of(asked)?)?,
        b"covered" => answers.number(walked.walk.covered())?,
        _ => return Err(RowFault::NoQuestion),
    }
    Ok(())
}

fn pushed(answers: &mut Answers, walked: &mut Walked, entry: Entry) -> Result<(), RowFault> {
    match walked.push(&encode_entry(entry)) {
        Some(Ok(entry)) => tell(answers, entry)?,
        Some(Err(MapFault::ZeroPiece(k))) => {
            answers.part(b"ZeroPiece ")?;
            answers.number(u64::from(k))?;
        }
        Some(Err(MapFault::BadLength)) => answers.line("BadLength")?,
        None => return Err(RowFault::NoQuestion),
    }
    Ok(())
}
