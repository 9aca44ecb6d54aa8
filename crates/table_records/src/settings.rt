//! The settings of a volume, and their bytes.

ghost use Rattle.std.specs.Prelude.{◌≡◌, ◌≤◌, ◌++◌, IfOk, length, is_some, Ok};
ghost use Rattle.table_records.specs.Settings.{flag_in, head_bytes, is_last, is_settings, last_in, lists_in, settings_bytes, settings_in};
ghost use Rattle.table_records.specs.Tables.{settings_codec};

use crate::Memory;
use crate::lists::{put_counted, read_counted, skip_counted};
use crate::texts::Texts;
use byteorder::{BigEndian, ByteOrder};
use std::alloc::Global;

/// The key of the settings, table 9: it is the only one.
pub const SETTINGS_KEY: [u8; 1] = [Settings::NUMBER];

/// What is deduplicated, and how.
#[derive(Drop)]
pub struct Settings {
    /// Whether jobs optimize the volume.
    pub enabled: bool,
    /// Whether a chunk is compared byte by byte with the one that it is to share.
    pub verify: bool,
    /// The least length, in bytes, of a file in policy.
    pub minimum_size: u32,
    /// For how many days a file in policy has not been changed.
    pub age_days: u32,
    /// With how many references a chunk gets a second copy.
    pub threshold: u32,
    /// The folders whose files are out of policy.
    pub folders: Texts,
    /// The endings of names whose files are out of policy.
    pub types: Texts,
}

/// The folders and the types of settings.
type Lists = (Texts, Texts);

/// The bytes before the lists.
const HEAD_BYTES: usize = 14;

impl Settings {
    /// The number of the table of settings, with which its key begins.
    pub const NUMBER: u8 = 9;

    /// Whether bytes are the key of the settings.
    pub fn is_key(bytes: &[u8]) -> bool
        ensures { result ≡ is_some (settings_codec.read_key bytes.now) }
    {
        bytes.len() == 1 && bytes[0] == Self::NUMBER
    }

    /// Whether bytes spell settings: each flag is 0 or 1, each list takes at most
    /// [`MOST_LIST_BYTES`](crate::MOST_LIST_BYTES), and nothing stands behind the lists. This takes no memory.
    pub fn is_value(bytes: &[u8]) -> bool
        ensures { result ≡ is_settings bytes.now }
    {
        if bytes.len() < HEAD_BYTES || flag_of(bytes[0]).is_none() || flag_of(bytes[1]).is_none() {
            return false;
        }
        are_lists(&bytes[HEAD_BYTES..])
    }

    /// The settings that bytes spell, or None where they are no value of the table.
    pub fn read_value(alloc: Global, bytes: &[u8]) -> Result<Option<Settings>, Memory>
        ensures { IfOk result (λ settings. settings ≡ settings_in bytes.now) }
    {
        if bytes.len() < HEAD_BYTES {
            return Ok(None);
        }
        let (Some(enabled), Some(verify)) = (flag_of(bytes[0]), flag_of(bytes[1])) else {
            return Ok(None);
        };
        let Some((folders, types)) = read_lists(alloc, &bytes[HEAD_BYTES..])? else {
            return Ok(None);
        };
        Ok(Some(Settings {
            enabled,
            verify,
            minimum_size: BigEndian::read_u32(&bytes[2..]),
            age_days: BigEndian::read_u32(&bytes[6..]),
            threshold: BigEndian::read_u32(&bytes[10..]),
            folders,
            types,
        }))
    }

    /// The bytes of the settings.
    pub fn to_value(&self, alloc: Global) -> Result<Vec<u8>, Memory>
        ensures { IfOk result (λ value. value.items ≡ settings_bytes self.now) }
    {
        let mut value = Vec::new(alloc);
        value.extend_from_slice(&self.head())?;
        put_counted(&mut value, &self.folders)?;
        put_counted(&mut value, &self.types)?;
        Ok(value)
    }

    fn head(&self) -> [u8; HEAD_BYTES]
        ensures { result ≡ head_bytes self.now }
    {
        let mut head = [0; HEAD_BYTES];
        head[0] = u8::from(self.enabled);
        head[1] = u8::from(self.verify);
        BigEndian::write_u32(&mut head[2..], self.minimum_size);
        BigEndian::write_u32(&mut head[6..], self.age_days);
        BigEndian::write_u32(&mut head[10..], self.threshold);
        head
    }
}

fn flag_of(byte: u8) -> Option<bool>
    ensures { result ≡ flag_in byte }
{
    match byte {
        0 => Some(false),
        1 => Some(true),
        _ => None,
    }
}

fn are_lists(bytes: &[u8]) -> bool
    ensures { result ≡ is_some (lists_in bytes.now) }
{
    match skip_counted(bytes) {
        Some(rest) => is_last_list(rest),
        None => false,
    }
}

fn is_last_list(bytes: &[u8]) -> bool
    ensures { result ≡ is_last bytes.now }
{
    match skip_counted(bytes) {
        Some(rest) => rest.is_empty(),
        None => false,
    }
}

fn read_lists(alloc: Global, bytes: &[u8]) -> Result<Option<Lists>, Memory>
    ensures { IfOk result (λ lists. lists ≡ lists_in bytes.now) }
{
    let Some((folders, place)) = read_counted(alloc, bytes)? else {
        return Ok(None);
    };
    let Some(types) = read_last(alloc, &bytes[place..])? else {
        return Ok(None);
    };
    Ok(Some((folders, types)))
}

fn read_last(alloc: Global, bytes: &[u8]) -> Result<Option<Texts>, Memory>
    ensures { IfOk result (λ texts. texts ≡ last_in bytes.now) }
{
    let Some((texts, end)) = read_counted(alloc, bytes)? else {
        return Ok(None);
    };
    if end < bytes.len() {
        return Ok(None);
    }
    Ok(Some(texts))
}
