// The calls that a script's lines make.
use crate::replies::spell;
use cmdlet_line::{Line, parse};
use plain_volume::{Bytes, Call, Memory, Name, Reference, Reply};
use row_files::{Answers, Asked, RowFault, or_memory};
use std::alloc::Global;

/// Answers a script's lines by a fresh reference volume. Besides lines of a script there is `next`, which asks for the
/// least name, and `next NAME`, for the least above that.
pub fn answer(alloc: Global, script: &[u8], answers: &mut Answers) -> Result<(), RowFault> {
    let mut volume = Reference::new(alloc);
    let mut rest = script;
    for _ in 0..script.len() {
        if rest.is_empty() {
            break;
        }
        let (line, behind) = first_line(rest);
        let Some((call, payload)) = or_memory(call_of(alloc, line, behind))? else {
            return Err(RowFault::NoQuestion);
        };
        spell(answers, &or_memory(applied(alloc, &mut volume, &call))?)?;
        rest = behind.get(payload..).unwrap_or(b"");
    }
    Ok(())
}

/// The volume's reply to a copy of the call, and a copy of that.
fn applied(alloc: Global, volume: &mut Reference, call: &Call) -> Result<Reply, Memory> {
    volume.apply(&call.copy(alloc)?)?.copy(alloc)
}

/// The first line, and what stands behind it.
fn first_line(script: &[u8]) -> (&[u8], &[u8]) {
    match script.iter().position(|byte| *byte == b'\n') {
        Some(at) => (&script[..at], &script[at + 1..]),
        None => (script, b""),
    }
}

fn name_of(alloc: Global, name: &[u8]) -> Result<Name, Memory> {
    Name::of(alloc, name)
}

/// The call that a line makes, and how many bytes behind the line belong to it.
fn call_of(alloc: Global, line: &[u8], behind: &[u8]) -> Result<Option<(Call, usize)>, Memory> {
    if let Some(call) = next_of(alloc, line)? {
        return Ok(Some((call, 0)));
    }
    let Ok(line) = parse(line, *b"D:") else {
        return Ok(None);
    };
    if let Line::Write(name, at, count) = line {
        let count = count as usize;
        let call = write_of(alloc, name, at, behind.get(..count).unwrap_or(b""))?;
        return Ok(Some((call, count.saturating_add(1))));
    }
    Ok(match plain_call(alloc, line)? {
        Some(call) => Some((call, 0)),
        None => None,
    })
}

/// The call of a line that asks for the next name.
fn next_of(alloc: Global, line: &[u8]) -> Result<Option<Call>, Memory> {
    let mut asked = Asked::new(line);
    if asked.word() != b"next".as_slice() {
        return Ok(None);
    }
    Ok(Some(Call::Next(match asked.rest() {
        b"" => None,
        name => Some(name_of(alloc, name)?),
    })))
}

fn write_of(alloc: Global, name: &[u8], at: u64, bytes: &[u8]) -> Result<Call, Memory> {
    Ok(Call::Write(name_of(alloc, name)?, at, Bytes::of(alloc, bytes)?))
}

fn fill_of(alloc: Global, name: &[u8], at: u64, count: u64, byte: u64) -> Result<Call, Memory> {
    let byte = u8::try_from(byte).unwrap_or(0);
    let bytes = vec![in alloc; byte; count as usize]?;
    write_of(alloc, name, at, &bytes)
}

/// The call of a line that has no bytes behind it.
fn plain_call(alloc: Global, line: Line<'_>) -> Result<Option<Call>, Memory> {
    Ok(Some(match line {
        Line::Create(name) => Call::Create(name_of(alloc, name)?),
        Line::Fill(name, at, count, byte) => fill_of(alloc, name, at, count, byte)?,
        Line::Read(name, at, count) => Call::Read(name_of(alloc, name)?, at, count),
        Line::Length(name, length) => Call::SetLength(name_of(alloc, name)?, length),
        Line::Rename(from, to) => Call::Rename(name_of(alloc, from)?, name_of(alloc, to)?),
        Line::Delete(name) => Call::Delete(name_of(alloc, name)?),
        Line::Digest(name) => Call::Digest(name_of(alloc, name)?),
        Line::Stat(name) => Call::Stat(name_of(alloc, name)?),
        Line::Flush => Call::Flush,
        _ => return Ok(None),
    }))
}
