// Records of the tables, and superblocks.
use crate::chunk_records::answer_chunks;
use crate::settings::first_settings;
use crate::spelled;
use row_files::{Answers, Asked, RowFault, Steps};
use std::alloc::Global;
use table_records::{
    Extent, ExtentTable, FileRecord, FileTable, JobKind, ResultRecord, ResultTable, Settings,
    VolumeRecord, VolumeTable, is_well_formed,
};
use volume_inside::{read_superblock, write_superblock};

/// The line of the first step that tells otherwise than it is to tell. The steps of a row share settings.
pub fn first_wrong(alloc: Global, row: &Steps<'_>) -> Result<Option<u64>, RowFault> {
    let mut settings = first_settings(alloc);
    for step in &row.steps {
        let mut answers = Answers::new(alloc);
        answer(alloc, &mut settings, Asked::new(&step.text), &mut answers)?;
        if answers.text() != step.wanted.as_slice() {
            return Ok(Some(step.line));
        }
    }
    Ok(None)
}

fn answer(
    alloc: Global,
    settings: &mut Settings,
    asked: Asked<'_>,
    answers: &mut Answers,
) -> Result<(), RowFault> {
    let mut words = asked;
    match words.word() {
        b"volume_record" => volume(words, answers),
        b"name_record" => name(alloc, words, answers),
        b"file_record" => file(words, answers),
        b"extent_record" => extent(words, answers),
        b"result_record" => result(words, answers),
        b"pair" => pair(alloc, words, answers),
        b"superblock" => superblock(words, answers),
        b"clusters" => clusters(alloc, words, answers),
        _ => answer_chunks(alloc, settings, asked, answers),
    }
}

/// Tells the record of a volume: its version and the next id.
fn volume(mut asked: Asked<'_>, answers: &mut Answers) -> Result<(), RowFault> {
    let record = VolumeRecord {
        version: asked.short_number()?,
        next_id: asked.number()?,
    };
    Ok(spelled::record::<VolumeTable>(answers, (), record)?)
}

/// Tells the record of a name.
fn name(alloc: Global, mut asked: Asked<'_>, answers: &mut Answers) -> Result<(), RowFault> {
    let name = asked.bytes(alloc)?;
    Ok(spelled::name(answers, &name, asked.number()?)?)
}

/// A file's record: its length, its row of the map, and what is covered.
fn file_in(asked: &mut Asked<'_>) -> Result<FileRecord, RowFault> {
    Ok(FileRecord {
        length: asked.number()?,
        map_row: asked.number()?,
        covers: asked.number()?,
    })
}

/// Tells the record of a file.
fn file(mut asked: Asked<'_>, answers: &mut Answers) -> Result<(), RowFault> {
    let id = asked.number()?;
    Ok(spelled::record::<FileTable>(answers, id, file_in(&mut asked)?)?)
}

/// The number that the next word writes, of 16 bits.
fn small_number(asked: &mut Asked<'_>) -> Result<u16, RowFault> {
    match u16::try_from(asked.number()?) {
        Ok(number) => Ok(number),
        Err(_) => Err(RowFault::NoQuestion),
    }
}

/// Tells the record of a file's block: its cluster, and how many bytes of it are valid.
fn extent(mut asked: Asked<'_>, answers: &mut Answers) -> Result<(), RowFault> {
    let key = (asked.number()?, asked.short_number()?);
    let extent = Extent {
        cluster: asked.short_number()?,
        valid: small_number(&mut asked)?,
    };
    Ok(spelled::record::<ExtentTable>(answers, key, extent)?)
}

/// The kind of job of a number.
fn kind_of(number: u8) -> Result<JobKind, RowFault> {
    match JobKind::of_number(number) {
        Some(kind) => Ok(kind),
        None => Err(RowFault::NoQuestion),
    }
}

/// Tells the record of a job's end: its kind, its second and the number of its result.
fn result(mut asked: Asked<'_>, answers: &mut Answers) -> Result<(), RowFault> {
    let kind = kind_of(asked.byte()?)?;
    let record = ResultRecord {
        second: asked.number()?,
        result: asked.byte()?,
    };
    Ok(spelled::record::<ResultTable>(answers, kind, record)?)
}

/// Tells whether a pair is one of a table.
fn pair(alloc: Global, mut asked: Asked<'_>, answers: &mut Answers) -> Result<(), RowFault> {
    let (key, value) = (asked.bytes(alloc)?, asked.bytes(alloc)?);
    Ok(answers.line(if is_well_formed(&key, &value) {
        "well formed"
    } else {
        "no pair"
    })?)
}

/// Tells the superblock of so many clusters.
fn superblock(mut asked: Asked<'_>, answers: &mut Answers) -> Result<(), RowFault> {
    let clusters = asked.short_number()?;
    if !(4096..=1_048_576).contains(&clusters) {
        return Err(RowFault::NoQuestion);
    }
    Ok(answers.digits(&write_superblock(clusters))?)
}

/// Tells how many clusters bytes name as a superblock.
fn clusters(alloc: Global, asked: Asked<'_>, answers: &mut Answers) -> Result<(), RowFault> {
    let bytes = asked.all_bytes(alloc)?;
    if bytes.len() < 44 {
        return Err(RowFault::NoQuestion);
    }
    match read_superblock(&bytes) {
        Some(clusters) => answers.number(u64::from(clusters))?,
        None => answers.line("none")?,
    }
    Ok(())
}
