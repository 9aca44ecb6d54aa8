// Disks over files of the system.
use crate::disks::{answer_call, done};
use row_files::{Answers, Asked, RowFault};
use std::alloc::Global;
use std::fs::{self, File};
use std::rt::Files;
use std::str;
use vdisk::{Failed, FileDisk};

/// Two disks, which may be over one file.
#[derive(Drop)]
struct Disks {
    first: Option<FileDisk>,
    second: Option<FileDisk>,
}

/// Answers the lines of a row, each about the first disk, the second one or a file.
pub fn answer(
    rt: &(impl Alloc<A = Global> + Files<File = File>),
    asked: &[u8],
    answers: &mut Answers,
) -> Result<(), RowFault> {
    let mut disks = Disks {
        first: None,
        second: None,
    };
    for line in asked.split(|byte| *byte == b'\n') {
        let mut words = Asked::new(line);
        match words.word() {
            b"" => {}
            b"first" => answer_line(rt, &mut disks.first, words, answers)?,
            b"second" => answer_line(rt, &mut disks.second, words, answers)?,
            b"remove" => done(answers, remove(rt, words))?,
            _ => return Err(RowFault::NoQuestion),
        }
    }
    Ok(())
}

fn answer_line(
    rt: &(impl Alloc<A = Global> + Files<File = File>),
    disk: &mut Option<FileDisk>,
    asked: Asked<'_>,
    answers: &mut Answers,
) -> Result<(), RowFault> {
    let mut words = asked;
    match words.word() {
        b"open" => *disk = Some(open(rt, path_of(words)?, false)),
        b"make" => *disk = Some(open(rt, path_of(words)?, true)),
        b"close" => *disk = None,
        _ => match disk {
            Some(disk) => answer_call(rt.alloc(), disk, asked, answers)?,
            None => return Err(RowFault::NoQuestion),
        },
    }
    Ok(())
}

fn path_of(asked: Asked<'_>) -> Result<&str, RowFault> {
    match str::from_utf8(asked.rest()) {
        Ok(path) => Ok(path),
        Err(_) => Err(RowFault::NoQuestion),
    }
}

fn open(rt: &impl Files<File = File>, path: &str, create: bool) -> FileDisk {
    FileDisk::open(rt, path, create)
}

fn remove(rt: &impl Files<File = File>, asked: Asked<'_>) -> Result<(), Failed> {
    match path_of(asked) {
        Ok(path) if fs::remove_file(rt, path).is_ok() => Ok(()),
        _ => Err(Failed),
    }
}
