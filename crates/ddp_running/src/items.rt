// What the lines of a script ask.
use cmdlet_line::{Line, LineFault, parse};
use plain_volume::{Bytes, Call, Memory, Name};
use row_files::{RowFault, or_memory};
use std::alloc::{AllocError, Global};

/// What a line asks of a plain volume.
#[derive(Drop)]
pub enum Item {
    Call(Call),
    List,
    /// Nothing, but to be told this.
    Refused(Vec<u8>),
}

/// The first line without its newline, or the carriage return before that, and what stands behind it.
fn first_line(script: &[u8]) -> (&[u8], &[u8]) {
    match script.iter().position(|byte| *byte == b'\n') {
        Some(at) => (without_return(&script[..at]), &script[at + 1..]),
        None => (script, b""),
    }
}

fn without_return(line: &[u8]) -> &[u8] {
    match line {
        [front @ .., b'\r'] => front,
        _ => line,
    }
}

fn name_of(alloc: Global, name: &[u8]) -> Result<Name, Memory> {
    Name::of(alloc, name)
}

fn write_of(alloc: Global, name: &[u8], at: u64, bytes: &[u8]) -> Result<Item, Memory> {
    let call = Call::Write(name_of(alloc, name)?, at, Bytes::of(alloc, bytes)?);
    Ok(Item::Call(call))
}

/// The call that reads or changes no more than a file's bytes, or its length.
fn call_on_bytes(alloc: Global, line: Line<'_>) -> Result<Option<Call>, Memory> {
    Ok(Some(match line {
        Line::Read(name, at, count) => Call::Read(name_of(alloc, name)?, at, count),
        Line::Length(name, length) => Call::SetLength(name_of(alloc, name)?, length),
        Line::Digest(name) => Call::Digest(name_of(alloc, name)?),
        Line::Stat(name) => Call::Stat(name_of(alloc, name)?),
        _ => return Ok(None),
    }))
}

fn call_of(alloc: Global, line: Line<'_>) -> Result<Option<Call>, Memory> {
    Ok(Some(match line {
        Line::Create(name) => Call::Create(name_of(alloc, name)?),
        Line::Rename(from, to) => Call::Rename(name_of(alloc, from)?, name_of(alloc, to)?),
        Line::Delete(name) => Call::Delete(name_of(alloc, name)?),
        Line::Flush => Call::Flush,
        _ => return call_on_bytes(alloc, line),
    }))
}

fn fill_of(alloc: Global, name: &[u8], at: u64, count: u64, byte: u64) -> Result<Item, Memory> {
    let byte = u8::try_from(byte).unwrap_or(0);
    let bytes = vec![in alloc; byte; count as usize]?;
    write_of(alloc, name, at, &bytes)
}

/// What a line without a payload asks; None of one that asks nothing.
fn item_of(alloc: Global, line: Line<'_>) -> Result<Option<Item>, Memory> {
    Ok(match line {
        Line::Fill(name, at, count, byte) => Some(fill_of(alloc, name, at, count, byte)?),
        Line::List => Some(Item::List),
        _ => match call_of(alloc, line)? {
            Some(call) => Some(Item::Call(call)),
            None => None,
        },
    })
}

fn refused(alloc: Global, what: &[u8], name: &[u8]) -> Result<Item, AllocError> {
    let mut told = Vec::new(alloc);
    told.extend_from_slice(b"refused ")?;
    told.extend_from_slice(what)?;
    told.extend_from_slice(name)?;
    told.push(b'\n')?;
    Ok(Item::Refused(told))
}

/// What a refused line is told, as far as drawn scripts have such lines.
fn refusal_of(alloc: Global, fault: LineFault<'_>) -> Result<Item, RowFault> {
    match fault {
        LineFault::BadValue(name) => Ok(refused(alloc, b"BadValue ", name.as_bytes())?),
        _ => Err(RowFault::NoQuestion),
    }
}

/// What a write asks whose payload, if it is whole, stands at the front of these bytes, and what stands behind that.
fn written<'a>(
    alloc: Global,
    name: &[u8],
    at: u64,
    count: u64,
    behind: &'a [u8],
) -> Result<(Item, &'a [u8]), Memory> {
    let Some((bytes, rest)) = behind.split_at_checked(count as usize) else {
        return Ok((refused(alloc, b"Cut", b"")?, b""));
    };
    match rest {
        [] => Ok((write_of(alloc, name, at, bytes)?, rest)),
        [b'\n', rest @ ..] => Ok((write_of(alloc, name, at, bytes)?, rest)),
        _ => Ok((refused(alloc, b"PayloadEnd", b"")?, first_line(rest).1)),
    }
}

/// What the lines of a script ask, one after another.
pub fn items_of(alloc: Global, script: &[u8]) -> Result<Vec<Item>, RowFault> {
    let mut items = Vec::new(alloc);
    let mut rest = script;
    for _ in 0..script.len() {
        let (line, behind) = first_line(rest);
        let (item, behind) = match parse(line, *b"D:") {
            Ok(Line::Write(name, at, count)) => {
                let (item, behind) = or_memory(written(alloc, name, at, count, behind))?;
                (Some(item), behind)
            }
            Ok(line) => (or_memory(item_of(alloc, line))?, behind),
            Err(fault) => (Some(refusal_of(alloc, fault)?), behind),
        };
        if let Some(item) = item {
            items.push(item)?;
        }
        rest = behind;
    }
    Ok(items)
}
