// A map of byte strings, beside a plain list of values by key.
use crate::draws::next_state;
use byte_map::ByteMap;
use row_files::{Answers, Asked, RowFault};
use std::alloc::{AllocError, Global};

/// Answers the lines of a row about one map. Keys and values are in hexadecimal digits.
pub fn answer(alloc: Global, asked: &[u8], answers: &mut Answers) -> Result<(), RowFault> {
    let mut map = ByteMap::new(alloc);
    for line in asked.split(|byte| *byte == b'\n') {
        if !line.is_empty() {
            answer_line(alloc, &mut map, Asked::new(line), answers)?;
        }
    }
    Ok(())
}

fn answer_line(
    alloc: Global,
    map: &mut ByteMap,
    mut asked: Asked<'_>,
    answers: &mut Answers,
) -> Result<(), RowFault> {
    match asked.word() {
        b"put" => put(map, &asked.bytes(alloc)?, &asked.bytes(alloc)?)?,
        b"drop" => drop_range(map, &asked.bytes(alloc)?, &asked.bytes(alloc)?),
        b"fill" => fill(map, asked.size()?, asked.byte()?)?,
        b"drop-numbers" => drop_numbers(map, asked)?,
        b"get" => value(answers, get(map, &asked.bytes(alloc)?))?,
        b"first" => pair(answers, first(map))?,
        b"next" => pair(answers, next(map, &asked.bytes(alloc)?))?,
        b"count" => answers.number(count(map))?,
        b"bytes" => answers.number(bytes(map))?,
        b"walk" => walked(answers, map)?,
        b"beside-a-list" => beside_a_list(alloc, map, asked, answers)?,
        _ => return Err(RowFault::NoQuestion),
    }
    Ok(())
}

fn put(map: &mut ByteMap, key: &[u8], value: &[u8]) -> Result<(), AllocError> {
    map.put(key, value)
}

fn drop_range(map: &mut ByteMap, from: &[u8], to: &[u8]) {
    map.drop_range(from, to);
}

fn get<'a>(map: &'a ByteMap, key: &[u8]) -> Option<&'a [u8]> {
    map.get(key)
}

fn first(map: &ByteMap) -> Option<(&[u8], &[u8])> {
    map.first()
}

fn next<'a>(map: &'a ByteMap, after: &[u8]) -> Option<(&'a [u8], &'a [u8])> {
    map.next(after)
}

fn count(map: &ByteMap) -> u64 {
    map.count() as u64
}

fn bytes(map: &ByteMap) -> u64 {
    map.bytes()
}

fn value(answers: &mut Answers, value: Option<&[u8]>) -> Result<(), AllocError> {
    match value {
        Some(value) => answers.digits(value),
        None => answers.line("none"),
    }
}

fn pair(answers: &mut Answers, pair: Option<(&[u8], &[u8])>) -> Result<(), AllocError> {
    match pair {
        Some((key, value)) => {
            answers.part(b"key ")?;
            answers.digits(key)?;
            answers.part(b"value ")?;
            answers.digits(value)
        }
        None => answers.line("none"),
    }
}

/// How many pairs a walk gives, and how many bytes they have.
fn walked(answers: &mut Answers, map: &ByteMap) -> Result<(), AllocError> {
    let mut walk = map.walk();
    let mut pairs = 0u64;
    let mut bytes = 0u64;
    for _ in 0..u64::MAX {
        let Some((key, value)) = walk.next() else {
            break;
        };
        pairs = pairs.saturating_add(1);
        bytes = bytes.saturating_add(key.len() as u64);
        bytes = bytes.saturating_add(value.len() as u64);
    }
    answers.part_number(pairs)?;
    answers.part(b" pairs, ")?;
    answers.part_number(bytes)?;
    answers.line(" bytes")
}

/// Two bytes, so that the keys are in the order of their numbers.
fn key_of(number: usize) -> [u8; 2] {
    [(number / 256 % 256) as u8, (number % 256) as u8]
}

/// One to four copies of a byte, by the byte.
fn put_copies(map: &mut ByteMap, number: usize, byte: u8) -> Result<(), AllocError> {
    let copies = [byte; 4];
    put(map, &key_of(number), &copies[..(byte % 4) as usize + 1])
}

fn has_copies(value: &[u8], byte: u8) -> bool {
    value.len() == (byte % 4) as usize + 1 && value.iter().all(|other| *other == byte)
}

/// `COUNT BYTE`: puts the keys of the numbers below a count, with copies of a byte.
fn fill(map: &mut ByteMap, count: usize, byte: u8) -> Result<(), AllocError> {
    for number in 0..count {
        put_copies(map, number, byte)?;
    }
    Ok(())
}

/// `FROM TO`: drops the keys of the numbers from one up to another.
fn drop_numbers(map: &mut ByteMap, mut asked: Asked<'_>) -> Result<(), RowFault> {
    let from = asked.size()?;
    let to = asked.size()?;
    drop_range(map, &key_of(from), &key_of(to));
    Ok(())
}

/// `CALLS KEYS SEED`: so many drawn calls on the map and on a plain list, compared after each fiftieth.
fn beside_a_list(
    alloc: Global,
    map: &mut ByteMap,
    mut asked: Asked<'_>,
    answers: &mut Answers,
) -> Result<(), RowFault> {
    let calls = asked.number()?;
    let keys = asked.size()?;
    let mut state = asked.number()?;
    let mut list = vec![in alloc; None; keys]?;
    for call in 1..=calls {
        state = draw_call(map, &mut list, state)?;
        if call % 50 == 0 && !is_alike(map, &list) {
            answers.part(b"they differ after call ")?;
            return Ok(answers.number(call)?);
        }
    }
    Ok(answers.line("alike")?)
}

/// A number below a bound; 0 where that is 0.
fn below(state: u64, bound: usize) -> usize {
    if bound == 0 {
        return 0;
    }
    (state >> 11) as usize % bound
}

/// One call in forty drops a range; the others put a pair. Answers the generator's next state.
fn draw_call(map: &mut ByteMap, list: &mut [Option<u8>], state: u64) -> Result<u64, AllocError> {
    let first = next_state(state);
    let second = next_state(first);
    let third = next_state(second);
    let number = below(first, list.len());
    if below(second, 40) > 0 {
        let byte = u8::try_from(below(third, 256)).unwrap_or(0);
        put_copies(map, number, byte)?;
        if let Some(value) = list.get_mut(number) {
            *value = Some(byte);
        }
    } else {
        let count = below(third, list.len());
        drop_range(map, &key_of(number), &key_of(number.saturating_add(count)));
        for value in list.iter_mut().skip(number).take(count) {
            *value = None;
        }
    }
    Ok(third)
}

/// Has the map the list's values by look-ups and by a walk, and no others?
fn is_alike(map: &ByteMap, list: &[Option<u8>]) -> bool {
    let mut walk = map.walk();
    for (number, value) in list.iter().enumerate() {
        let key = key_of(number);
        let is_right = match (get(map, &key), value) {
            (None, None) => true,
            (Some(found), Some(byte)) => {
                has_copies(found, *byte)
                    && matches!(walk.next(), Some((at, it)) if at == key.as_slice() && it == found)
            }
            _ => false,
        };
        if !is_right {
            return false;
        }
    }
    walk.next().is_none()
}
