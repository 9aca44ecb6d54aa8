// Settings that steps make.
use row_files::{Answers, Asked, RowFault};
use std::alloc::{AllocError, Global};
use table_records::{Memory, SETTINGS_KEY, Settings, Texts, TextsFault, is_well_formed};

/// The settings of a fresh volume.
pub fn first_settings(alloc: Global) -> Settings {
    Settings {
        enabled: false,
        verify: false,
        minimum_size: 32_768,
        age_days: 3,
        threshold: 100,
        folders: Texts::new(alloc),
        types: Texts::new(alloc),
    }
}

/// Answers a step on settings.
pub fn answer_settings(
    alloc: Global,
    settings: &mut Settings,
    mut asked: Asked<'_>,
    answers: &mut Answers,
) -> Result<(), RowFault> {
    match asked.word() {
        b"settings" => *settings = made(alloc, asked)?,
        b"folder" => push(alloc, &mut settings.folders, asked, answers)?,
        b"type" => push(alloc, &mut settings.types, asked, answers)?,
        b"texts" => {
            count(answers, &settings.folders, b", ")?;
            count(answers, &settings.types, b"\n")?;
        }
        b"spelled" => spelled(alloc, settings, asked, answers)?,
        _ => return Err(RowFault::NoQuestion),
    }
    Ok(())
}

/// Settings with these numbers and no texts.
fn made(alloc: Global, mut asked: Asked<'_>) -> Result<Settings, RowFault> {
    let mut settings = first_settings(alloc);
    settings.enabled = asked.number()? == 1;
    settings.verify = asked.number()? == 1;
    settings.minimum_size = asked.short_number()?;
    settings.age_days = asked.short_number()?;
    settings.threshold = asked.short_number()?;
    Ok(settings)
}

/// Adds a text so many times, and tells of the first time that it is refused.
fn push(
    alloc: Global,
    texts: &mut Texts,
    mut asked: Asked<'_>,
    answers: &mut Answers,
) -> Result<(), RowFault> {
    let text = asked.bytes(alloc)?;
    for _ in 0..asked.number()? {
        if !is_pushed(texts, &text)? {
            answers.line("refused Full")?;
            break;
        }
    }
    Ok(())
}

/// Adds a text where there is room for it.
fn is_pushed(texts: &mut Texts, text: &[u8]) -> Result<bool, RowFault> {
    match texts.push(text) {
        Ok(()) => Ok(true),
        Err(TextsFault::Full) => Ok(false),
        Err(_) => Err(RowFault::Memory),
    }
}

/// Tells how many texts there are and the bytes that they take.
fn count(answers: &mut Answers, texts: &Texts, end: &[u8]) -> Result<(), AllocError> {
    answers.part_number(texts.count() as u64)?;
    answers.part(b" ")?;
    answers.part_number(texts.byte_count() as u64)?;
    answers.part(end)
}

fn value_of(alloc: Global, settings: &Settings) -> Result<Vec<u8>, Memory> {
    settings.to_value(alloc)
}

/// Are bytes read as settings that are spelled by them again?
fn are_read(alloc: Global, value: &[u8]) -> Result<bool, RowFault> {
    let Ok(read) = Settings::read_value(alloc, value) else {
        return Err(RowFault::Memory);
    };
    match &read {
        Some(settings) => Ok(is_spelled(alloc, settings, value)?),
        None => Ok(false),
    }
}

fn is_spelled(alloc: Global, settings: &Settings, wanted: &[u8]) -> Result<bool, RowFault> {
    match value_of(alloc, settings) {
        Ok(value) => Ok(value.as_slice() == wanted),
        Err(_) => Err(RowFault::Memory),
    }
}

/// Tells where the settings are not spelled by these bytes, or these are not read as settings.
fn spelled(
    alloc: Global,
    settings: &Settings,
    asked: Asked<'_>,
    answers: &mut Answers,
) -> Result<(), RowFault> {
    let wanted = asked.all_bytes(alloc)?;
    if !is_spelled(alloc, settings, &wanted)? {
        answers.line("are spelled otherwise")?;
    } else if !is_well_formed(&SETTINGS_KEY, &wanted) || !are_read(alloc, &wanted)? {
        answers.line("are not read")?;
    }
    Ok(())
}
