// The two forms of an index side by side.
ghost use Rattle.std.specs.Prelude.{◌==◌, if◌then◌else◌, None, slice_get};

use hash_index::{CompactIndex, Digests, Index, LARGEST_ID, OrderedIndex};
use row_files::{Answers, Asked, RowFault, or_memory};
use std::alloc::{AllocError, Global};

/// The digests by their ids, of which one is forgotten.
#[derive(Drop)]
struct Known {
    digests: Vec<[u8; 32]>,
    forgotten: u64,
}

impl Digests for Known {
    ghost digest_of = { λ s id. if id == s.forgotten then None else slice_get s.digests.items id };

    fn digest_of(&self, id: u64) -> Option<[u8; 32]> {
        if id == self.forgotten {
            return None;
        }
        self.digests.get(id as usize).copied()
    }
}

/// Both forms, with what is known.
#[derive(Drop)]
struct Both {
    known: Known,
    ordered: OrderedIndex,
    compact: CompactIndex,
}

/// Answers the lines of a row about both forms.
pub fn answer(alloc: Global, asked: &[u8], answers: &mut Answers) -> Result<(), RowFault> {
    let mut both = Both {
        known: Known {
            digests: Vec::new(alloc),
            forgotten: 0,
        },
        ordered: OrderedIndex::new(alloc),
        compact: CompactIndex::new(alloc),
    };
    for line in asked.split(|byte| *byte == b'\n') {
        if !line.is_empty() {
            answer_line(alloc, &mut both, Asked::new(line), answers)?;
        }
    }
    Ok(())
}

fn answer_line(
    alloc: Global,
    both: &mut Both,
    mut asked: Asked<'_>,
    answers: &mut Answers,
) -> Result<(), RowFault> {
    match asked.word() {
        b"numbered" => both.known.digests = numbered(alloc, asked.number()?)?,
        b"alike" => both.known.digests = alike(alloc, asked)?,
        b"forget" => both.known.forgotten = asked.number()?,
        b"insert" => insert_each(both, asked)?,
        b"find" => found(answers, both, asked)?,
        b"find-each" => answers.number(found_each(both, asked)?)?,
        b"clear" => clear(both),
        b"held" => answers.number(held(both))?,
        b"slots-at-most" => answers.whether(slots(both) <= asked.number()?)?,
        _ => return Err(RowFault::NoQuestion),
    }
    Ok(())
}

/// A digest of its own for each number, spread in the first eight bytes.
fn digest_numbered(number: u64) -> [u8; 32] {
    let spread = number.wrapping_mul(0x9e37_79b9_7f4a_7c15).to_be_bytes();
    let mut digest = [0; 32];
    digest[..8].copy_from_slice(&spread);
    digest
}

fn numbered(alloc: Global, count: u64) -> Result<Vec<[u8; 32]>, AllocError> {
    let mut digests = Vec::new(alloc);
    for number in 0..count {
        digests.push(digest_numbered(number))?;
    }
    Ok(digests)
}

/// `COUNT BYTE`: so many digests of that byte alone.
fn alike(alloc: Global, mut asked: Asked<'_>) -> Result<Vec<[u8; 32]>, RowFault> {
    let count = asked.number()?;
    let digest = [asked.byte()?; 32];
    let mut digests = Vec::new(alloc);
    for _ in 0..count {
        digests.push(digest)?;
    }
    Ok(digests)
}

/// `FIRST END`: inserts the ids from one up to another under their digests.
fn insert_each(both: &mut Both, mut asked: Asked<'_>) -> Result<(), RowFault> {
    let first = asked.number()?;
    for id in first..asked.number()? {
        let Some(digest) = both.known.digests.get(id as usize).copied() else {
            return Err(RowFault::NoQuestion);
        };
        insert(&mut both.ordered, &digest, id, &both.known)?;
        insert(&mut both.compact, &digest, id, &both.known)?;
    }
    Ok(())
}

fn insert<I: Index>(
    index: &mut I,
    digest: &[u8; 32],
    id: u64,
    known: &Known,
) -> Result<(), RowFault> {
    if id == 0 || id > LARGEST_ID {
        return Err(RowFault::NoQuestion);
    }
    or_memory(index.insert(digest, id, known))
}

fn find<I: Index>(index: &I, digest: &[u8; 32], after: u64, known: &Known) -> Option<u64> {
    index.find(digest, after, known)
}

/// Do both forms find this under a digest above an id?
fn both_find(both: &Both, digest: &[u8; 32], after: u64, wanted: Option<u64>) -> bool {
    find(&both.ordered, digest, after, &both.known) == wanted
        && find(&both.compact, digest, after, &both.known) == wanted
}

/// `number N AFTER` or `byte B AFTER`: what is found under the digest of a number, or of a byte alone.
fn found(answers: &mut Answers, both: &Both, mut asked: Asked<'_>) -> Result<(), RowFault> {
    let digest = match asked.word() {
        b"number" => digest_numbered(asked.number()?),
        b"byte" => [asked.byte()?; 32],
        _ => return Err(RowFault::NoQuestion),
    };
    let after = asked.number()?;
    let found = find(&both.ordered, &digest, after, &both.known);
    if !both_find(both, &digest, after, found) {
        return Ok(answers.line("the two forms differ")?);
    }
    match found {
        Some(id) => answers.number(id)?,
        None => answers.line("none")?,
    }
    Ok(())
}

/// `FIRST END`: of how many ids the digest is found at that id and at none above it.
fn found_each(both: &Both, mut asked: Asked<'_>) -> Result<u64, RowFault> {
    let mut count = 0u64;
    let first = asked.number()?.max(1);
    for id in first..asked.number()? {
        let digest = digest_numbered(id);
        let before = id.saturating_sub(1);
        if both_find(both, &digest, before, Some(id)) && both_find(both, &digest, id, None) {
            count = count.saturating_add(1);
        }
    }
    Ok(count)
}

fn held(both: &Both) -> u64 {
    both.compact.held() as u64
}

fn slots(both: &Both) -> u64 {
    both.compact.slots() as u64
}

fn clear(both: &mut Both) {
    both.ordered.clear();
    both.compact.clear();
}
