// The settings of a volume.
use crate::kept::{fresh, set_settings, settings_in};
use crate::memory::{crash, disk_of};
use row_files::{Answers, Asked, RowFault};
use std::alloc::Global;
use std::mem;
use vdisk::MemoryDisk;
use volume_tables::{Settings, Texts};

/// A volume, and the settings that the lines make.
#[derive(Drop)]
struct Made {
    disk: MemoryDisk,
    settings: Settings,
}

/// Answers the lines of a row about one volume, which is fresh at first.
pub fn answer(alloc: Global, asked: &[u8], answers: &mut Answers) -> Result<(), RowFault> {
    let mut made = Made {
        disk: fresh(alloc)?,
        settings: first(alloc),
    };
    for line in asked.split(|byte| *byte == b'\n') {
        if !line.is_empty() {
            made = answer_line(alloc, made, Asked::new(line), answers)?;
        }
    }
    Ok(())
}

fn answer_line(
    alloc: Global,
    mut made: Made,
    mut asked: Asked<'_>,
    answers: &mut Answers,
) -> Result<Made, RowFault> {
    match asked.word() {
        b"flags" => set_flags(&mut made.settings, asked)?,
        b"numbers" => set_numbers(&mut made.settings, asked)?,
        b"folders" => push_texts(&mut made.settings.folders, asked)?,
        b"types" => push_texts(&mut made.settings.types, asked)?,
        b"set" => return set(alloc, made, answers),
        b"crash" => return crashed(alloc, made, asked),
        b"tell" => tell(alloc, &made.disk, answers)?,
        _ => return Err(RowFault::NoQuestion),
    }
    Ok(made)
}

/// The settings of a fresh volume.
fn first(alloc: Global) -> Settings {
    Settings {
        enabled: false,
        verify: false,
        minimum_size: 32_768,
        age_days: 3,
        threshold: 100,
        folders: Texts::new(alloc),
        types: Texts::new(alloc),
    }
}

fn set_flags(settings: &mut Settings, mut asked: Asked<'_>) -> Result<(), RowFault> {
    settings.enabled = asked.number()? == 1;
    settings.verify = asked.number()? == 1;
    Ok(())
}

fn set_numbers(settings: &mut Settings, mut asked: Asked<'_>) -> Result<(), RowFault> {
    settings.minimum_size = asked.short_number()?;
    settings.age_days = asked.short_number()?;
    settings.threshold = asked.short_number()?;
    Ok(())
}

/// Adds a text so many times.
fn push_texts(texts: &mut Texts, mut asked: Asked<'_>) -> Result<(), RowFault> {
    for _ in 0..asked.number()? {
        if !is_pushed(texts, asked.rest()) {
            return Err(RowFault::NoQuestion);
        }
    }
    Ok(())
}

fn is_pushed(texts: &mut Texts, text: &[u8]) -> bool {
    texts.push(text).is_ok()
}

/// Sets the settings that were made, and begins others anew.
fn set(alloc: Global, made: Made, answers: &mut Answers) -> Result<Made, RowFault> {
    let mut made = made;
    let settings = mem::replace(&mut made.settings, first(alloc));
    let (disk, done) = set_settings(alloc, made.disk, settings);
    answers.line(if done { "ok" } else { "refused" })?;
    Ok(Made {
        disk,
        settings: made.settings,
    })
}

fn crashed(alloc: Global, made: Made, mut asked: Asked<'_>) -> Result<Made, RowFault> {
    let image = crash(&made.disk, asked.number()?)?;
    Ok(Made {
        disk: disk_of(alloc, image),
        settings: made.settings,
    })
}

/// Tells the bytes of the settings, as the table has them.
fn tell(alloc: Global, disk: &MemoryDisk, answers: &mut Answers) -> Result<(), RowFault> {
    match settings_in(alloc, crash(disk, 1)?)? {
        Some(bytes) => answers.digits(&bytes)?,
        None => answers.line("refused")?,
    }
    Ok(())
}
