//! Numbers at places of bytes, and keys of numbers.

ghost use Rattle.std.specs.Prelude.{◌≡◌, ◌≤◌, ◌+◌, ◌++◌, ◌∷◌, length, take, drop, Some};
ghost use Rattle.table_records.specs.declared.limits.TheConstants.{MOST_VALUE_BYTES};
ghost use Rattle.byteorder.specs.Endian.{big_bytes};
ghost use Rattle.table_records.specs.Keys.{number_key, pair_key};
ghost use Rattle.table_records.specs.Values.{number_at, digest_at as digest_in};

use byteorder::{BigEndian, ByteOrder};

pub fn u8_at(bytes: &[u8], place: usize) -> u8
    requires { place ≤ MOST_VALUE_BYTES }
    ensures { result ≡ number_at 1 place bytes.now }
{
    if bytes.len() < place + 1 {
        return 0;
    }
    bytes[place]
}

pub fn u16_at(bytes: &[u8], place: usize) -> u16
    requires { place ≤ MOST_VALUE_BYTES }
    ensures { result ≡ number_at 2 place bytes.now }
{
    if bytes.len() < place + 2 {
        return 0;
    }
    BigEndian::read_u16(&bytes[place..])
}

pub fn u32_at(bytes: &[u8], place: usize) -> u32
    requires { place ≤ MOST_VALUE_BYTES }
    ensures { result ≡ number_at 4 place bytes.now }
{
    if bytes.len() < place + 4 {
        return 0;
    }
    BigEndian::read_u32(&bytes[place..])
}

pub fn u64_at(bytes: &[u8], place: usize) -> u64
    requires { place ≤ MOST_VALUE_BYTES }
    ensures { result ≡ number_at 8 place bytes.now }
{
    if bytes.len() < place + 8 {
        return 0;
    }
    BigEndian::read_u64(&bytes[place..])
}

/// The id behind the number of a table.
pub fn number_of(bytes: &[u8], table: u8) -> Option<u64>
    ensures { result ≡ number_key table 8 bytes.now }
{
    if bytes.len() != 9 || bytes[0] != table {
        return None;
    }
    Some(BigEndian::read_u64(&bytes[1..]))
}

/// The id and the index behind the number of a table.
pub fn pair_of(bytes: &[u8], table: u8) -> Option<(u64, u32)>
    ensures { result ≡ pair_key table 8 4 bytes.now }
{
    if bytes.len() != 13 || bytes[0] != table {
        return None;
    }
    Some((
        BigEndian::read_u64(&bytes[1..]),
        BigEndian::read_u32(&bytes[9..]),
    ))
}

/// Spells a key of nine bytes.
pub fn put_number(out: &mut [u8], table: u8, id: u64)
    requires { 9 ≤ length out.old }
    ensures { number_key table 8 (take 9 out.new) ≡ Some id }
{
    put_number_bytes(out, table, id);
}

/// Spells a key of thirteen bytes.
pub fn put_pair(out: &mut [u8], table: u8, id: u64, index: u32)
    requires { 13 ≤ length out.old }
    ensures { pair_key table 8 4 (take 13 out.new) ≡ Some (id, index) }
{
    put_pair_bytes(out, table, id, index);
}

/// The id and the number of a copy behind the number of a table.
pub fn copy_key_of(bytes: &[u8], table: u8) -> Option<(u64, u8)>
    ensures { result ≡ pair_key table 8 1 bytes.now }
{
    if bytes.len() != 10 || bytes[0] != table {
        return None;
    }
    Some((BigEndian::read_u64(&bytes[1..]), bytes[9]))
}

/// Spells a key of ten bytes.
pub fn put_copy_key(out: &mut [u8], table: u8, id: u64, copy: u8)
    requires { 10 ≤ length out.old }
    ensures { pair_key table 8 1 (take 10 out.new) ≡ Some (id, copy) }
{
    put_copy_key_bytes(out, table, id, copy);
}

/// The digest at a place, or zeros where the bytes end before.
pub fn digest_at(bytes: &[u8], place: usize) -> [u8; 32]
    requires { place ≤ MOST_VALUE_BYTES }
    ensures { result ≡ digest_in place bytes.now }
{
    let mut digest = [0u8; 32];
    if bytes.len() >= place + 32 {
        digest.copy_from_slice(&bytes[place..place + 32]);
    }
    digest
}

fn put_number_bytes(out: &mut [u8], table: u8, id: u64)
    requires { 9 ≤ length out.old }
    ensures { out.new ≡ (table ∷ big_bytes 8 id) ++ drop 9 out.old }
{
    out[0] = table;
    BigEndian::write_u64(&mut out[1..], id);
}

fn put_pair_bytes(out: &mut [u8], table: u8, id: u64, index: u32)
    requires { 13 ≤ length out.old }
    ensures { out.new ≡ (table ∷ (big_bytes 8 id ++ big_bytes 4 index)) ++ drop 13 out.old }
{
    out[0] = table;
    BigEndian::write_u64(&mut out[1..], id);
    BigEndian::write_u32(&mut out[9..], index);
}

fn put_copy_key_bytes(out: &mut [u8], table: u8, id: u64, copy: u8)
    requires { 10 ≤ length out.old }
    ensures { out.new ≡ (table ∷ (big_bytes 8 id ++ big_bytes 1 copy)) ++ drop 10 out.old }
{
    out[0] = table;
    BigEndian::write_u64(&mut out[1..], id);
    out[9] = copy;
}
