// Records, as they are staged.
ghost use Rattle.std.specs.Prelude.{◌≡◌, ◌<◌, ◌≤◌, ◌+◌, ◌^◌, ◌∷◌, ◌++◌, length, vec_capacity};
ghost use Rattle.byteorder.specs.Endian.{big_bytes};
ghost use Rattle.meta_log.specs.Records.{Put, DropRange};
ghost use Rattle.meta_log.specs.Spelled.{text_of, record_length, bytes_of};

use crate::limits::{DROP_RANGE, PUT};
use byteorder::{BigEndian, ByteOrder};

/// Puts the record of a pair behind the others. It takes no memory.
pub(crate) fn push_put(staged: &mut Vec<u8>, key: &[u8], value: &[u8])
    requires room { length staged.old.items + record_length key.now value.now ≤ vec_capacity staged.old }
    requires key { length key.now < 2 ^ 16 }
    requires value { length value.now < 2 ^ 16 }
    ensures items { staged.new.items ≡ staged.old.items ++ bytes_of (Put key.now value.now) }
    ensures capacity { vec_capacity staged.old ≤ vec_capacity staged.new }
{
    push_record(staged, PUT, key, value);
}

/// Puts the record of a dropped range behind the others. It takes no memory.
pub(crate) fn push_drop(staged: &mut Vec<u8>, from: &[u8], to: &[u8])
    requires room { length staged.old.items + record_length from.now to.now ≤ vec_capacity staged.old }
    requires from { length from.now < 2 ^ 16 }
    requires to { length to.now < 2 ^ 16 }
    ensures items { staged.new.items ≡ staged.old.items ++ bytes_of (DropRange from.now to.now) }
    ensures capacity { vec_capacity staged.old ≤ vec_capacity staged.new }
{
    push_record(staged, DROP_RANGE, from, to);
}

fn push_record(staged: &mut Vec<u8>, tag: u8, first: &[u8], second: &[u8])
    requires room { length staged.old.items + record_length first.now second.now ≤ vec_capacity staged.old }
    requires first { length first.now < 2 ^ 16 }
    requires second { length second.now < 2 ^ 16 }
    ensures items { staged.new.items ≡ staged.old.items ++ text_of tag first.now second.now }
    ensures capacity { vec_capacity staged.old ≤ vec_capacity staged.new }
{
    let head = record_head(tag, first.len() as u16, second.len() as u16);
    staged.extend_from_slice(&head).unwrap();
    staged.extend_from_slice(first).unwrap();
    staged.extend_from_slice(second).unwrap();
}

/// What stands before the two strings of a record.
pub(crate) fn record_head(tag: u8, first: u16, second: u16) -> [u8; 5]
    ensures text { result ≡ tag ∷ (big_bytes 2 first ++ big_bytes 2 second) }
    ensures size { length result ≡ 5 }
{
    let mut head = [tag; 5];
    BigEndian::write_u16(&mut head[1..], first);
    BigEndian::write_u16(&mut head[3..], second);
    head
}
