// What a run finds outside.
use row_files::{Asked, RowFault, push_bytes};
use std::alloc::Global;

/// A part of the outside that may fail.
#[derive(Clone, Copy)]
pub enum Outside {
    Disk,
    Source,
    Sink,
    Clock,
}

impl Outside {
    fn number(self) -> u8 {
        match self {
            Outside::Disk => 0,
            Outside::Source => 1,
            Outside::Sink => 2,
            Outside::Clock => 3,
        }
    }

    /// Are both the same part?
    pub fn is(self, other: Outside) -> bool {
        self.number() == other.number()
    }
}

/// One thing that is otherwise than a run finds it by itself.
#[derive(Drop)]
pub enum Setting {
    /// The program's words, in place of the one that mounts.
    Words(Vec<String>),
    /// The disk has no bytes.
    Blank,
    /// The image has only so many bytes.
    Short(u64),
    /// The byte at a place is changed by this mask.
    Flip(u64, u8),
    /// So many bytes from a place on are made this byte.
    Fill(u64, u64, u8),
    /// The journal has this value at a key.
    Record(Vec<u8>, Vec<u8>),
    /// The journal has no key from one on and below another.
    Dropped(Vec<u8>, Vec<u8>),
    /// The image has these bytes at a place.
    Holds(u64, Vec<u8>),
    /// Each call of a part fails, from the k-th on.
    Fail(Outside, u64),
    /// The run is made with this portion alone.
    Portion(u64),
    /// There is no source.
    NoSource,
    /// The sink has room for so many bytes.
    Room(u64),
    /// The volume stands open at this moment of the disk.
    Opened(u64),
}

/// A word; two quotes spell the empty one.
fn word_of(alloc: Global, text: &[u8]) -> Result<String, RowFault> {
    let mut bytes = Vec::new(alloc);
    if text != b"\"\"".as_slice() {
        let _rest = push_bytes(&mut bytes, text)?;
    }
    match String::from_utf8(bytes) {
        Ok(word) => Ok(word),
        Err(_) => Err(RowFault::NoQuestion),
    }
}

fn words_of(alloc: Global, text: &[u8]) -> Result<Setting, RowFault> {
    let mut words = Vec::new(alloc);
    if text.is_empty() {
        return Ok(Setting::Words(words));
    }
    for word in text.split(|byte| *byte == b' ') {
        words.push(word_of(alloc, word)?)?;
    }
    Ok(Setting::Words(words))
}

fn outside_of(text: &[u8]) -> Result<Outside, RowFault> {
    match text {
        b"disk" => Ok(Outside::Disk),
        b"source" => Ok(Outside::Source),
        b"sink" => Ok(Outside::Sink),
        b"clock" => Ok(Outside::Clock),
        _ => Err(RowFault::NoQuestion),
    }
}

/// A setting that has bytes.
fn spelt(alloc: Global, name: &[u8], mut asked: Asked<'_>) -> Result<Setting, RowFault> {
    Ok(match name {
        b"words" => words_of(alloc, asked.rest())?,
        b"record" => Setting::Record(asked.bytes(alloc)?, asked.bytes(alloc)?),
        b"drop" => Setting::Dropped(asked.bytes(alloc)?, asked.bytes(alloc)?),
        b"holds" => Setting::Holds(asked.number()?, asked.bytes(alloc)?),
        _ => return Err(RowFault::NoQuestion),
    })
}

/// The setting that a line's text spells.
pub fn setting_of(alloc: Global, text: &[u8]) -> Result<Setting, RowFault> {
    let mut asked = Asked::new(text);
    Ok(match asked.word() {
        b"blank" => Setting::Blank,
        b"no-source" => Setting::NoSource,
        b"short" => Setting::Short(asked.number()?),
        b"flip" => Setting::Flip(asked.number()?, asked.byte()?),
        b"fill" => Setting::Fill(asked.number()?, asked.number()?, asked.byte()?),
        b"portion" => Setting::Portion(asked.number()?),
        b"room" => Setting::Room(asked.number()?),
        b"opened" => Setting::Opened(asked.number()?),
        b"fail" => Setting::Fail(outside_of(asked.word())?, asked.number()?),
        name => spelt(alloc, name, asked)?,
    })
}
