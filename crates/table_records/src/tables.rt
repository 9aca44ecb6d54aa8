//! The tables whose keys and values have few bytes.

ghost use Rattle.std.specs.Prelude.{◌≡◌, ◌≤◌, length, take, refl};
ghost use Rattle.table_records.specs.declared.limits.TheConstants.{MOST_VALUE_BYTES};
ghost use Rattle.table_records.specs.Values.{result_in};
ghost use Rattle.table_records.specs.Tables.{volume_codec, file_codec, extent_codec, result_codec, is_followed};

use crate::jobs::JobKind;
use crate::numbers::{number_of, pair_of, put_number, put_pair, u8_at, u16_at, u32_at, u64_at};
use crate::records::{Extent, FileRecord, ResultRecord, VolumeRecord};
use crate::table::Table;
use byteorder::{BigEndian, ByteOrder};

/// The volume's own record, table 1: it has one key.
pub struct VolumeTable;

impl Table for VolumeTable {
    type Key = ();

    type Value = VolumeRecord;

    ghost codec = { volume_codec };

    ghost NUMBER = { 1 };

    const NUMBER: u8 = 1;

    fn write_key(_key: (), out: &mut [u8]) -> usize {
        out[0] = Self::NUMBER;
        1
    }

    fn read_key(bytes: &[u8]) -> Option<()> {
        if bytes.len() == 1 && bytes[0] == Self::NUMBER {
            Some(())
        } else {
            None
        }
    }

    fn write_value(value: VolumeRecord, out: &mut [u8]) -> usize {
        BigEndian::write_u32(out, value.version);
        BigEndian::write_u64(&mut out[4..], value.next_id);
        12
    }

    fn read_value(bytes: &[u8]) -> VolumeRecord {
        VolumeRecord {
            version: u32_at(bytes, 0),
            next_id: u64_at(bytes, 4),
        }
    }

    fn is_value(bytes: &[u8]) -> bool {
        bytes.len() == 12
    }

    ghost numbered = { refl };

    ghost followed = { is_followed 1 refl };
}

/// The files by their ids, table 3.
pub struct FileTable;

impl Table for FileTable {
    type Key = u64;

    type Value = FileRecord;

    ghost codec = { file_codec };

    ghost NUMBER = { 3 };

    const NUMBER: u8 = 3;

    fn write_key(key: u64, out: &mut [u8]) -> usize {
        put_number(out, Self::NUMBER, key);
        9
    }

    fn read_key(bytes: &[u8]) -> Option<u64> {
        number_of(bytes, Self::NUMBER)
    }

    fn write_value(value: FileRecord, out: &mut [u8]) -> usize {
        BigEndian::write_u64(out, value.length);
        BigEndian::write_u64(&mut out[8..], value.map_row);
        BigEndian::write_u64(&mut out[16..], value.covers);
        24
    }

    fn read_value(bytes: &[u8]) -> FileRecord {
        FileRecord {
            length: u64_at(bytes, 0),
            map_row: u64_at(bytes, 8),
            covers: u64_at(bytes, 16),
        }
    }

    fn is_value(bytes: &[u8]) -> bool {
        bytes.len() == 24
    }

    ghost numbered = { refl };

    ghost followed = { is_followed 3 refl };
}

/// The extents of files, table 4. A key is the id of a file and the number of a block of it, counted from 0.
pub struct ExtentTable;

impl Table for ExtentTable {
    type Key = (u64, u32);

    type Value = Extent;

    ghost codec = { extent_codec };

    ghost NUMBER = { 4 };

    const NUMBER: u8 = 4;

    fn write_key(key: (u64, u32), out: &mut [u8]) -> usize {
        put_pair(out, Self::NUMBER, key.0, key.1);
        13
    }

    fn read_key(bytes: &[u8]) -> Option<(u64, u32)> {
        pair_of(bytes, Self::NUMBER)
    }

    fn write_value(value: Extent, out: &mut [u8]) -> usize {
        BigEndian::write_u32(out, value.cluster);
        BigEndian::write_u16(&mut out[4..], value.valid);
        6
    }

    fn read_value(bytes: &[u8]) -> Extent {
        Extent {
            cluster: u32_at(bytes, 0),
            valid: u16_at(bytes, 4),
        }
    }

    fn is_value(bytes: &[u8]) -> bool {
        bytes.len() == 6
    }

    ghost numbered = { refl };

    ghost followed = { is_followed 4 refl };
}

fn put_result(out: &mut [u8], second: u64, number: u8)
    requires { MOST_VALUE_BYTES ≤ length out.old }
    ensures { result_in (take 9 out.new) ≡ record { second = second; result = number } }
{
    BigEndian::write_u64(out, second);
    out[8] = number;
}

/// The results of jobs by their kinds, table 10.
pub struct ResultTable;

impl Table for ResultTable {
    type Key = JobKind;

    type Value = ResultRecord;

    ghost codec = { result_codec };

    ghost NUMBER = { 10 };

    const NUMBER: u8 = 10;

    fn write_key(key: JobKind, out: &mut [u8]) -> usize {
        out[0] = Self::NUMBER;
        out[1] = key.number();
        2
    }

    fn read_key(bytes: &[u8]) -> Option<JobKind> {
        if bytes.len() == 2 && bytes[0] == Self::NUMBER {
            JobKind::of_number(bytes[1])
        } else {
            None
        }
    }

    fn write_value(value: ResultRecord, out: &mut [u8]) -> usize {
        put_result(out, value.second, value.result);
        9
    }

    fn read_value(bytes: &[u8]) -> ResultRecord {
        ResultRecord {
            second: u64_at(bytes, 0),
            result: u8_at(bytes, 8),
        }
    }

    fn is_value(bytes: &[u8]) -> bool {
        bytes.len() == 9
    }

    ghost numbered = { refl };

    ghost followed = { is_followed 10 refl };
}
