// A source, a sink and a clock in memory.
use crate::memory::numbers;
use row_files::{Answers, Asked, RowFault};
use std::alloc::{AllocError, Global};
use vdisk::{Clock, Failed, MemoryClock, MemorySink, MemorySource, Sink, Source};

/// The three of a row.
#[derive(Drop)]
struct Streams {
    source: MemorySource,
    sink: MemorySink,
    clock: MemoryClock,
}

/// Answers the lines of a row, of which the first ones say what the three are.
pub fn answer(alloc: Global, asked: &[u8], answers: &mut Answers) -> Result<(), RowFault> {
    let mut streams = Streams {
        source: MemorySource::new(Vec::new(alloc)),
        sink: MemorySink::new(alloc),
        clock: MemoryClock::new(0),
    };
    for line in asked.split(|byte| *byte == b'\n') {
        let mut words = Asked::new(line);
        match words.word() {
            b"" => {}
            b"source" => of_source(alloc, &mut streams.source, words, answers)?,
            b"sink" => of_sink(alloc, &mut streams.sink, words, answers)?,
            b"clock" => of_clock(&mut streams.clock, words, answers)?,
            b"carry" => told(answers, carried(&mut streams.source, &mut streams.sink))?,
            _ => return Err(RowFault::NoQuestion),
        }
    }
    Ok(())
}

/// Says what a call gave, or that it failed.
pub fn told(answers: &mut Answers, outcome: Result<u64, Failed>) -> Result<(), AllocError> {
    match outcome {
        Ok(number) => answers.number(number),
        Err(Failed) => answers.line("failed"),
    }
}

fn of_source(
    alloc: Global,
    source: &mut MemorySource,
    mut asked: Asked<'_>,
    answers: &mut Answers,
) -> Result<(), RowFault> {
    match asked.word() {
        b"whole" => *source = MemorySource::new(asked.rest().to_vec(alloc)?),
        b"portions" => *source = source_in_portions(alloc, asked)?,
        b"read" => {
            let mut out = vec![in alloc; 0u8; asked.size()?]?;
            told(answers, taken(source, &mut out))?;
        }
        _ => return Err(RowFault::NoQuestion),
    }
    Ok(())
}

fn source_in_portions(alloc: Global, mut asked: Asked<'_>) -> Result<MemorySource, RowFault> {
    let most = asked.size()?.max(1);
    let bytes = asked.rest().to_vec(alloc)?;
    Ok(MemorySource::in_portions(bytes, most))
}

fn of_sink(
    alloc: Global,
    sink: &mut MemorySink,
    mut asked: Asked<'_>,
    answers: &mut Answers,
) -> Result<(), RowFault> {
    match asked.word() {
        b"whole" => *sink = MemorySink::new(alloc),
        b"portions" => *sink = sink_in_portions(alloc, asked.size()?),
        b"fail-at" => sink_fails_at(sink, numbers(alloc, asked)?),
        b"fail-from" => sink_fails_from(sink, asked.number()?),
        b"write" => told(answers, put(sink, asked.rest()))?,
        b"held" => answers.bytes(sink.bytes())?,
        _ => return Err(RowFault::NoQuestion),
    }
    Ok(())
}

fn sink_in_portions(alloc: Global, most: usize) -> MemorySink {
    MemorySink::in_portions(alloc, most.max(1))
}

fn sink_fails_at(sink: &mut MemorySink, calls: Vec<u64>) {
    sink.fail_at(calls);
}

fn sink_fails_from(sink: &mut MemorySink, call: u64) {
    sink.fail_from(call);
}

fn of_clock(
    clock: &mut MemoryClock,
    mut asked: Asked<'_>,
    answers: &mut Answers,
) -> Result<(), RowFault> {
    match asked.word() {
        b"stands-at" => *clock = MemoryClock::new(asked.number()?),
        b"now" => told(answers, now(clock))?,
        _ => return Err(RowFault::NoQuestion),
    }
    Ok(())
}

/// Asks a clock.
pub fn now<C: Clock>(clock: &mut C) -> Result<u64, Failed> {
    clock.now()
}

/// How many bytes a read gives.
pub fn taken<S: Source>(source: &mut S, out: &mut [u8]) -> Result<u64, Failed> {
    Ok(source.read(out)? as u64)
}

/// How many bytes a write takes.
pub fn put<K: Sink>(sink: &mut K, bytes: &[u8]) -> Result<u64, Failed> {
    Ok(sink.write(bytes)? as u64)
}

/// Carries everything from the source to the sink, four bytes a read, and answers how many reads gave something.
pub fn carried<S: Source, K: Sink>(source: &mut S, sink: &mut K) -> Result<u64, Failed> {
    let mut piece = [0u8; 4];
    let mut reads = 0u64;
    for _ in 0..u64::MAX {
        let count = taken(source, &mut piece)? as usize;
        if count == 0 {
            break;
        }
        reads = reads.saturating_add(1);
        carry_piece(piece.get(..count).unwrap_or(b""), sink)?;
    }
    Ok(reads)
}

fn carry_piece<K: Sink>(piece: &[u8], sink: &mut K) -> Result<(), Failed> {
    let mut rest = piece;
    for _ in 0..piece.len() {
        if !rest.is_empty() {
            let count = put(sink, rest)? as usize;
            rest = rest.get(count..).unwrap_or(b"");
        }
    }
    Ok(())
}
