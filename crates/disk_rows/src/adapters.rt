// A source, a sink and a clock over std.
use crate::streams::{carried, now, put, taken, told};
use row_files::{Answers, Asked, RowFault};
use std::alloc::{AllocError, Global};
use std::io::Write;
use std::rt::Clock;
use vdisk::{Failed, ReaderSource, SystemClock, WriterSink};

/// Answers the lines of a row, each about a source, a sink or a clock of its own.
pub fn answer(
    rt: &(impl Alloc<A = Global> + Clock),
    asked: &[u8],
    answers: &mut Answers,
) -> Result<(), RowFault> {
    for line in asked.split(|byte| *byte == b'\n') {
        let mut words = Asked::new(line);
        match words.word() {
            b"" => {}
            b"carry" => carry(rt.alloc(), words.rest(), answers)?,
            b"no-reader" => told(answers, read_nothing())?,
            b"room" => write_twice(rt.alloc(), words, answers)?,
            b"system" => answers.whether(is_behind(rt, words.number()?))?,
            _ => return Err(RowFault::NoQuestion),
        }
    }
    Ok(())
}

/// Carries a text over a reader and a writer of std: how many reads, what a read at the end and a write of nothing
/// answer, and what has come.
fn carry(alloc: Global, text: &[u8], answers: &mut Answers) -> Result<(), RowFault> {
    let mut held = Vec::new(alloc);
    carry_to(text, &mut held, answers)?;
    Ok(answers.bytes(&held)?)
}

fn carry_to<W: Write>(text: &[u8], held: &mut W, answers: &mut Answers) -> Result<(), AllocError> {
    let mut source = ReaderSource::new(Some(text));
    let mut sink = WriterSink::new(held);
    told(answers, carried(&mut source, &mut sink))?;
    told(answers, taken(&mut source, &mut [0u8; 4]))?;
    told(answers, put(&mut sink, b""))
}

/// What a source with no reader answers.
fn read_nothing() -> Result<u64, Failed> {
    let mut none: ReaderSource<&[u8]> = ReaderSource::new(None);
    taken(&mut none, &mut [0u8; 4])
}

/// Writes a text twice where there is room for so many bytes in all.
fn write_twice(alloc: Global, mut asked: Asked<'_>, answers: &mut Answers) -> Result<(), RowFault> {
    let mut room = vec![in alloc; 0u8; asked.size()?]?;
    let mut narrow = WriterSink::new(room.as_mut_slice());
    told(answers, put(&mut narrow, asked.rest()))?;
    Ok(told(answers, put(&mut narrow, asked.rest()))?)
}

/// Is the system's clock at this second or behind it?
fn is_behind(rt: &impl Clock, second: u64) -> bool {
    let mut clock = SystemClock::new(rt);
    match now(&mut clock) {
        Ok(told) => told >= second,
        Err(Failed) => false,
    }
}
