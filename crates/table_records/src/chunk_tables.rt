//! The tables of chunks: rows, the places of their copies, containers and the clusters of these.

ghost use Rattle.std.specs.Prelude.{◌≡◌, ◌≤◌, ◌<◌, ◌^◌, ◌++◌, ◌∷◌, length, take, drop, refl};
ghost use Rattle.table_records.specs.declared.limits.TheConstants.{MOST_VALUE_BYTES};
ghost use Rattle.byteorder.specs.Endian.{big_bytes};
ghost use Rattle.table_records.specs.Values.{row_in, row_bytes, container_bytes};
ghost use Rattle.table_records.specs.Tables.{row_codec, place_codec, container_codec, cluster_codec, is_followed};

use crate::chunk_records::{Container, Place, Row};
use crate::numbers::{
    copy_key_of, digest_at, number_of, pair_of, put_copy_key, put_number, put_pair, u8_at, u32_at,
    u64_at,
};
use crate::table::Table;
use byteorder::{BigEndian, ByteOrder};

/// The rows by their ids, table 5.
pub struct RowTable;

/// Spells a row at the front of `out`.
fn put_row(out: &mut [u8], row: Row)
    requires { MOST_VALUE_BYTES ≤ length out.old }
    ensures spelled { out.new ≡ row_bytes row ++ drop 50 out.old }
    ensures size { length (row_bytes row) ≡ 50 }
    ensures back { row_in (row_bytes row) ≡ row }
{
    put_content(out, row.kind, &row.digest, row.length);
    put_use(&mut out[37..], row.partition, row.seen, row.redirect);
}

/// Spells what the bytes of a row are.
fn put_content(out: &mut [u8], kind: u8, digest: &[u8; 32], size: u32)
    requires { 37 ≤ length out.old }
    ensures spelled { out.new ≡ (kind ∷ (digest.now ++ big_bytes 4 size)) ++ drop 37 out.old }
    ensures whole { length digest.now ≡ 32 }
    ensures size { size < 256 ^ 4 }
{
    out[0] = kind;
    out[1..33].copy_from_slice(digest);
    BigEndian::write_u32(&mut out[33..], size);
}

/// Spells how a row is used.
fn put_use(out: &mut [u8], partition: u8, seen: u32, redirect: u64)
    requires { 13 ≤ length out.old }
    ensures spelled { out.new ≡ (partition ∷ (big_bytes 4 seen ++ big_bytes 8 redirect)) ++ drop 13 out.old }
    ensures seen { seen < 256 ^ 4 }
    ensures redirect { redirect < 256 ^ 8 }
{
    out[0] = partition;
    BigEndian::write_u32(&mut out[1..], seen);
    BigEndian::write_u64(&mut out[5..], redirect);
}

impl Table for RowTable {
    type Key = u64;

    type Value = Row;

    ghost codec = { row_codec };

    ghost NUMBER = { 5 };

    const NUMBER: u8 = 5;

    fn write_key(key: u64, out: &mut [u8]) -> usize {
        put_number(out, Self::NUMBER, key);
        9
    }

    fn read_key(bytes: &[u8]) -> Option<u64> {
        number_of(bytes, Self::NUMBER)
    }

    fn write_value(value: Row, out: &mut [u8]) -> usize {
        put_row(out, value);
        50
    }

    fn read_value(bytes: &[u8]) -> Row {
        Row {
            kind: u8_at(bytes, 0),
            digest: digest_at(bytes, 1),
            length: u32_at(bytes, 33),
            partition: u8_at(bytes, 37),
            seen: u32_at(bytes, 38),
            redirect: u64_at(bytes, 42),
        }
    }

    fn is_value(bytes: &[u8]) -> bool {
        bytes.len() == 50
    }

    ghost numbered = { refl };

    ghost followed = { is_followed 5 refl };
}

/// The places of copies, table 6. A key is the id of a row and the number of a copy of it.
pub struct PlaceTable;

impl Table for PlaceTable {
    type Key = (u64, u8);

    type Value = Place;

    ghost codec = { place_codec };

    ghost NUMBER = { 6 };

    const NUMBER: u8 = 6;

    fn write_key(key: (u64, u8), out: &mut [u8]) -> usize {
        put_copy_key(out, Self::NUMBER, key.0, key.1);
        10
    }

    fn read_key(bytes: &[u8]) -> Option<(u64, u8)> {
        copy_key_of(bytes, Self::NUMBER)
    }

    fn write_value(value: Place, out: &mut [u8]) -> usize {
        BigEndian::write_u64(out, value.container);
        BigEndian::write_u32(&mut out[8..], value.offset);
        12
    }

    fn read_value(bytes: &[u8]) -> Place {
        Place {
            container: u64_at(bytes, 0),
            offset: u32_at(bytes, 8),
        }
    }

    fn is_value(bytes: &[u8]) -> bool {
        bytes.len() == 12
    }

    ghost numbered = { refl };

    ghost followed = { is_followed 6 refl };
}

/// The containers by their ids, table 7.
pub struct ContainerTable;

/// Spells a container at the front of `out`.
fn put_container(out: &mut [u8], container: Container)
    requires { MOST_VALUE_BYTES ≤ length out.old }
    ensures { out.new ≡ container_bytes container ++ drop 5 out.old }
{
    out[0] = container.kind;
    BigEndian::write_u32(&mut out[1..], container.used);
}

impl Table for ContainerTable {
    type Key = u64;

    type Value = Container;

    ghost codec = { container_codec };

    ghost NUMBER = { 7 };

    const NUMBER: u8 = 7;

    fn write_key(key: u64, out: &mut [u8]) -> usize {
        put_number(out, Self::NUMBER, key);
        9
    }

    fn read_key(bytes: &[u8]) -> Option<u64> {
        number_of(bytes, Self::NUMBER)
    }

    fn write_value(value: Container, out: &mut [u8]) -> usize {
        put_container(out, value);
        5
    }

    fn read_value(bytes: &[u8]) -> Container {
        Container {
            kind: u8_at(bytes, 0),
            used: u32_at(bytes, 1),
        }
    }

    fn is_value(bytes: &[u8]) -> bool {
        bytes.len() == 5
    }

    ghost numbered = { refl };

    ghost followed = { is_followed 7 refl };
}

/// The clusters of containers, table 8. A key is the id of a container and the number of a page of it, counted from 0;
/// a value is the cluster that holds the page.
pub struct ClusterTable;

impl Table for ClusterTable {
    type Key = (u64, u32);

    type Value = u32;

    ghost codec = { cluster_codec };

    ghost NUMBER = { 8 };

    const NUMBER: u8 = 8;

    fn write_key(key: (u64, u32), out: &mut [u8]) -> usize {
        put_pair(out, Self::NUMBER, key.0, key.1);
        13
    }

    fn read_key(bytes: &[u8]) -> Option<(u64, u32)> {
        pair_of(bytes, Self::NUMBER)
    }

    fn write_value(value: u32, out: &mut [u8]) -> usize {
        BigEndian::write_u32(out, value);
        4
    }

    fn read_value(bytes: &[u8]) -> u32 {
        u32_at(bytes, 0)
    }

    fn is_value(bytes: &[u8]) -> bool {
        bytes.len() == 4
    }

    ghost numbered = { refl };

    ghost followed = { is_followed 8 refl };
}
