//! Lists of texts as the settings hold them: a count of two bytes, and each text behind its length of two bytes.

ghost use Rattle.std.specs.Prelude.{◌≡◌, ◌≤◌, ◌<◌, ◌^◌, ◌++◌, length, IfOk, OnOk, option_map};
ghost use Rattle.table_records.specs.declared.limits.TheConstants.{MOST_LIST_BYTES};
ghost use Rattle.byteorder.specs.Endian.{big_bytes};
ghost use Rattle.table_records.specs.Settings.{text_bytes, texts_bytes, counted_bytes, texts_in, counted_in, rest_of, fitting_size, read_to, IsWithin};

use crate::Memory;
use crate::limits::MOST_LIST_BYTES;
use crate::texts::Texts;
use byteorder::{BigEndian, ByteOrder};
use std::alloc::Global;

/// A list that was read, and the place behind it.
type List = (Texts, usize);

/// The bytes behind the list at the front, or None where there is no list or it takes too many bytes.
pub fn skip_counted(bytes: &[u8]) -> Option<&[u8]>
    ensures { option_map (λ rest. rest.now) result ≡ rest_of (counted_in bytes.now) }
{
    if bytes.len() < 2 {
        return None;
    }
    skip_texts(&bytes[2..], BigEndian::read_u16(bytes))
}

fn skip_texts(bytes: &[u8], count: u16) -> Option<&[u8]>
    ensures { option_map (λ rest. rest.now) result ≡ rest_of (texts_in count MOST_LIST_BYTES bytes.now) }
{
    let mut place = 0;
    let mut room = MOST_LIST_BYTES;
    for _ in 0..count {
        let Some(size) = size_of_first(&bytes[place..], room) else {
            return None;
        };
        place += size;
        room -= size;
    }
    Some(&bytes[place..])
}

/// The bytes of the first text with its length, where they fit into the bytes and into the room.
fn size_of_first(bytes: &[u8], room: usize) -> Option<usize>
    ensures { result ≡ fitting_size room bytes.now }
{
    if bytes.len() < 2 {
        return None;
    }
    let size = usize::from(BigEndian::read_u16(bytes)) + 2;
    if bytes.len() < size || room < size {
        return None;
    }
    Some(size)
}

/// The list at the front, or None where there is no list or it takes too many bytes.
pub fn read_counted(alloc: Global, bytes: &[u8]) -> Result<Option<List>, Memory>
    ensures within { IfOk result (λ list. IsWithin bytes.now list) }
    ensures read { IfOk result (λ list. read_to bytes.now list ≡ counted_in bytes.now) }
{
    if bytes.len() < 2 {
        return Ok(None);
    }
    match read_texts(alloc, &bytes[2..], BigEndian::read_u16(bytes))? {
        None => Ok(None),
        Some((texts, place)) => Ok(Some((texts, place + 2))),
    }
}

fn read_texts(alloc: Global, bytes: &[u8], count: u16) -> Result<Option<List>, Memory>
    ensures within { IfOk result (λ list. IsWithin bytes.now list) }
    ensures read { IfOk result (λ list. read_to bytes.now list ≡ texts_in count MOST_LIST_BYTES bytes.now) }
{
    let mut place = 0;
    let mut texts = Texts::new(alloc);
    for _ in 0..count {
        let room = MOST_LIST_BYTES - texts.byte_count();
        let Some(size) = size_of_first(&bytes[place..], room) else {
            return Ok(None);
        };
        texts.push_fitting(&bytes[place + 2..place + size])?;
        place += size;
    }
    Ok(Some((texts, place)))
}

/// Puts a list behind what is there.
pub fn put_counted(out: &mut Vec<u8>, texts: &Texts) -> Result<(), Memory>
    ensures { OnOk result (out.new.items ≡ out.old.items ++ counted_bytes texts.now) }
{
    put_size(out, texts.count())?;
    put_texts(out, texts)
}

fn put_texts(out: &mut Vec<u8>, texts: &Texts) -> Result<(), Memory>
    ensures { OnOk result (out.new.items ≡ out.old.items ++ texts_bytes texts.now) }
{
    for place in 0..texts.count() {
        put_text(out, texts.at(place))?;
    }
    Ok(())
}

fn put_text(out: &mut Vec<u8>, text: &[u8]) -> Result<(), Memory>
    requires { length text.now < 2 ^ 16 }
    ensures { OnOk result (out.new.items ≡ out.old.items ++ text_bytes text.now) }
{
    put_size(out, text.len())?;
    out.extend_from_slice(text)?;
    Ok(())
}

fn put_size(out: &mut Vec<u8>, size: usize) -> Result<(), Memory>
    requires { size < 2 ^ 16 }
    ensures { OnOk result (out.new.items ≡ out.old.items ++ big_bytes 2 size) }
{
    let mut bytes = [0; 2];
    BigEndian::write_u16(&mut bytes, size as u16);
    out.extend_from_slice(&bytes)?;
    Ok(())
}
