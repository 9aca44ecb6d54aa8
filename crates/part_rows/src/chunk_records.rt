// Records of the tables of chunks.
use crate::settings::answer_settings;
use crate::spelled;
use row_files::{Answers, Asked, RowFault};
use std::alloc::Global;
use table_records::{
    ClusterTable, Container, ContainerTable, Place, PlaceTable, Row, RowTable, Settings,
};

/// Answers a step on a record of chunks, or on settings.
pub fn answer_chunks(
    alloc: Global,
    settings: &mut Settings,
    asked: Asked<'_>,
    answers: &mut Answers,
) -> Result<(), RowFault> {
    let mut words = asked;
    match words.word() {
        b"row_record" => row(alloc, words, answers),
        b"place_record" => place(words, answers),
        b"container_record" => container(words, answers),
        b"cluster_record" => cluster(words, answers),
        _ => answer_settings(alloc, settings, asked, answers),
    }
}

/// The digest that the next word writes.
fn digest(alloc: Global, asked: &mut Asked<'_>) -> Result<[u8; 32], RowFault> {
    let bytes = asked.bytes(alloc)?;
    if bytes.len() != 32 {
        return Err(RowFault::NoQuestion);
    }
    let mut digest = [0u8; 32];
    digest.copy_from_slice(&bytes);
    Ok(digest)
}

/// Tells the record of a row: its kind, digest, length, partition, how often it was seen and its redirect.
fn row(alloc: Global, mut asked: Asked<'_>, answers: &mut Answers) -> Result<(), RowFault> {
    let id = asked.number()?;
    let row = Row {
        kind: asked.byte()?,
        digest: digest(alloc, &mut asked)?,
        length: asked.short_number()?,
        partition: asked.byte()?,
        seen: asked.short_number()?,
        redirect: asked.number()?,
    };
    Ok(spelled::record::<RowTable>(answers, id, row)?)
}

/// Tells the record of a copy of a row: its container, and the offset there.
fn place(mut asked: Asked<'_>, answers: &mut Answers) -> Result<(), RowFault> {
    let key = (asked.number()?, asked.byte()?);
    let place = Place {
        container: asked.number()?,
        offset: asked.short_number()?,
    };
    Ok(spelled::record::<PlaceTable>(answers, key, place)?)
}

/// Tells the record of a container: its kind, and how many bytes are used.
fn container(mut asked: Asked<'_>, answers: &mut Answers) -> Result<(), RowFault> {
    let id = asked.number()?;
    let container = Container {
        kind: asked.byte()?,
        used: asked.short_number()?,
    };
    Ok(spelled::record::<ContainerTable>(answers, id, container)?)
}

/// Tells the record of a page of a container: its cluster.
fn cluster(mut asked: Asked<'_>, answers: &mut Answers) -> Result<(), RowFault> {
    let key = (asked.number()?, asked.short_number()?);
    Ok(spelled::record::<ClusterTable>(answers, key, asked.short_number()?)?)
}
