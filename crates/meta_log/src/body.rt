// The body of a checkpoint, which goes to the disk and into its digest in one pass.
ghost use Rattle.std.specs.Prelude.{◌≡◌, ◌<◌, ◌≤◌, ◌+◌, ◌*◌, ◌^◌, [], ◌∷◌, ◌++◌, ℕ, List, IsTrue, true, length, vec_capacity, IfOk, OnOk, OnErr};
ghost use Rattle.byteorder.specs.Endian.{big_bytes};
ghost use Rattle.byte_map.specs.Words.{bytes_in};
ghost use Rattle.sha2.specs.Hashers.{Holds256};
ghost use Rattle.vdisk.specs.Causes.{HasCause};
ghost use Rattle.vdisk.specs.Ranges.{part};
ghost use Rattle.meta_log.specs.declared.limits.TheConstants.{RECORD_HEAD};
ghost use Rattle.meta_log.specs.Records.{Put};
ghost use Rattle.meta_log.specs.Spelled.{bytes_of};
ghost use Rattle.meta_log.specs.Short.{are_short};
ghost use Rattle.meta_log.specs.Meta.{digest_of};
ghost use Rattle.meta_log.specs.Checkpoint.{body_text};
ghost use Rattle.meta_log.specs.Stream.{Advances, WritesWithin};

use crate::limits::{PUT, STREAM_ROOM};
use crate::record::record_head;
use crate::stream::DiskStream;
use byte_map::ByteMap;
use sha2::{Digest, Sha256};
use vdisk::{Disk, Failed};

// A stream to the disk whose bytes are hashed as they go.
#[derive(Drop)]
struct HashedStream {
    stream: DiskStream,
    hasher: Sha256,
}

impl HashedStream {
    fn put<D: Disk>(
        &mut self,
        disk: &mut D,
        waiting: &mut Vec<u8>,
        bytes: &[u8],
    ) -> Result<(), Failed>
        requires room { STREAM_ROOM ≤ vec_capacity waiting.old }
        requires few { length waiting.old.items ≤ STREAM_ROOM }
        requires piece { length bytes.now ≤ STREAM_ROOM }
        requires range { self.old.stream.place + (length waiting.old.items + length bytes.now)
            ≤ length (D.state disk.old).image }
        ensures goes_on { OnOk result (Advances bytes.now self.old.stream.place waiting.old.items (D.state disk.old)
            self.new.stream.place waiting.new.items (D.state disk.new)) }
        ensures hashed { (m : List ℕ) → Holds256 self.old.hasher m → Holds256 self.new.hasher (m ++ bytes.now) }
        ensures few { OnOk result (length waiting.new.items ≤ STREAM_ROOM) }
        ensures within { WritesWithin self.old.stream.place (length waiting.old.items + length bytes.now)
            (D.state disk.old) (D.state disk.new) }
        ensures room { vec_capacity waiting.old ≤ vec_capacity waiting.new }
        ensures same { D.is_same disk.old disk.new }
        ensures cause { HasCause (D.state disk.old).faults (D.state disk.new).faults result }
    {
        self.hasher.update(bytes);
        self.stream.put(disk, waiting, bytes)
    }

    // Adds the Put record of a pair.
    fn put_pair<D: Disk>(
        &mut self,
        disk: &mut D,
        waiting: &mut Vec<u8>,
        key: &[u8],
        value: &[u8],
    ) -> Result<(), Failed>
        requires room { STREAM_ROOM ≤ vec_capacity waiting.old }
        requires few { length waiting.old.items ≤ STREAM_ROOM }
        requires key { length key.now < 2 ^ 16 }
        requires value { length value.now < 2 ^ 16 }
        requires range { self.old.stream.place + (length waiting.old.items + (5 + (length key.now + length value.now)))
            ≤ length (D.state disk.old).image }
        ensures goes_on { OnOk result (Advances (bytes_of (Put key.now value.now)) self.old.stream.place
            waiting.old.items (D.state disk.old) self.new.stream.place waiting.new.items (D.state disk.new)) }
        ensures hashed { (m : List ℕ) → Holds256 self.old.hasher m →
            OnOk result (Holds256 self.new.hasher (m ++ bytes_of (Put key.now value.now))) }
        ensures few { OnOk result (length waiting.new.items ≤ STREAM_ROOM) }
        ensures within { WritesWithin self.old.stream.place
            (length waiting.old.items + (5 + (length key.now + length value.now)))
            (D.state disk.old) (D.state disk.new) }
        ensures room { vec_capacity waiting.old ≤ vec_capacity waiting.new }
        ensures same { D.is_same disk.old disk.new }
        ensures cause { HasCause (D.state disk.old).faults (D.state disk.new).faults result }
    {
        let head = record_head(PUT, key.len() as u16, value.len() as u16);
        self.put(disk, waiting, &head)?;
        self.put(disk, waiting, key)?;
        self.put(disk, waiting, value)
    }

    // Adds the body of a map's checkpoint.
    fn put_pairs<D: Disk>(
        &mut self,
        disk: &mut D,
        waiting: &mut Vec<u8>,
        map: &ByteMap,
    ) -> Result<(), Failed>
        requires room { STREAM_ROOM ≤ vec_capacity waiting.old }
        requires few { length waiting.old.items ≤ STREAM_ROOM }
        requires short { are_short map.now ≡ true }
        requires range { self.old.stream.place + (length waiting.old.items + (RECORD_HEAD * length map.now + bytes_in map.now))
            ≤ length (D.state disk.old).image }
        ensures goes_on { OnOk result (Advances (body_text map.now) self.old.stream.place
            waiting.old.items (D.state disk.old) self.new.stream.place waiting.new.items (D.state disk.new)) }
        ensures hashed { (m : List ℕ) → Holds256 self.old.hasher m →
            OnOk result (Holds256 self.new.hasher (m ++ body_text map.now)) }
        ensures few { OnOk result (length waiting.new.items ≤ STREAM_ROOM) }
        ensures within { WritesWithin self.old.stream.place
            (length waiting.old.items + (RECORD_HEAD * length map.now + bytes_in map.now)) (D.state disk.old) (D.state disk.new) }
        ensures room { vec_capacity waiting.old ≤ vec_capacity waiting.new }
        ensures same { D.is_same disk.old disk.new }
        ensures cause { HasCause (D.state disk.old).faults (D.state disk.new).faults result }
    {
        let mut walk = map.walk();
        while let Some((key, value)) = walk.next() {
            self.put_pair(disk, waiting, key, value)?;
        }
        Ok(())
    }

    // Writes what still waits, with these bytes behind it that are not hashed, and gives the digest.
    fn finish<D: Disk>(
        self,
        disk: &mut D,
        waiting: &mut Vec<u8>,
        behind: &[u8],
    ) -> Result<[u8; 32], Failed>
        requires room { STREAM_ROOM ≤ vec_capacity waiting.old }
        requires few { length waiting.old.items ≤ STREAM_ROOM }
        requires piece { length behind.now ≤ STREAM_ROOM }
        requires range { self.stream.place + (length waiting.old.items + length behind.now)
            ≤ length (D.state disk.old).image }
        ensures goes_on { OnOk result (Advances behind.now self.stream.place waiting.old.items (D.state disk.old)
            (self.stream.place + (length waiting.old.items + length behind.now)) [] (D.state disk.new)) }
        ensures digest { (m : List ℕ) → Holds256 self.hasher m → IfOk result (λ digest. digest ≡ digest_of m) }
        ensures size { IfOk result (λ digest. length digest ≡ 32) }
        ensures within { WritesWithin self.stream.place (length waiting.old.items + length behind.now)
            (D.state disk.old) (D.state disk.new) }
        ensures room { vec_capacity waiting.old ≤ vec_capacity waiting.new }
        ensures same { D.is_same disk.old disk.new }
        ensures cause { HasCause (D.state disk.old).faults (D.state disk.new).faults result }
    {
        let mut stream = self.stream;
        stream.put(disk, waiting, behind)?;
        stream.flush(disk, waiting)?;
        Ok(digest(self.hasher))
    }
}

/// Writes the body of a map's checkpoint from a place on, with these bytes behind it. The numbers are the epoch and the
/// body's length; the digest is that of these two and the body.
pub(crate) fn write_body<D: Disk>(
    disk: &mut D,
    scratch: &mut Vec<u8>,
    map: &ByteMap,
    from: u64,
    numbers: (u64, u32),
    behind: &[u8],
) -> Result<[u8; 32], Failed>
    requires room { STREAM_ROOM ≤ vec_capacity scratch.old }
    requires short { are_short map.now ≡ true }
    requires piece { length behind.now ≤ STREAM_ROOM }
    requires range { from + ((RECORD_HEAD * length map.now + bytes_in map.now) + length behind.now)
        ≤ length (D.state disk.old).image }
    ensures text { IsTrue (D.state disk.old).tells → OnOk result (part from (length (body_text map.now ++ behind.now))
        (D.state disk.new).image ≡ body_text map.now ++ behind.now) }
    ensures digest { IfOk result (λ digest. digest
        ≡ digest_of ((big_bytes 8 numbers.0 ++ big_bytes 4 numbers.1) ++ body_text map.now)) }
    ensures size { IfOk result (λ digest. length digest ≡ 32) }
    ensures within { WritesWithin from ((RECORD_HEAD * length map.now + bytes_in map.now) + length behind.now)
        (D.state disk.old) (D.state disk.new) }
    ensures room { vec_capacity scratch.old ≤ vec_capacity scratch.new }
    ensures same { D.is_same disk.old disk.new }
    ensures cause { HasCause (D.state disk.old).faults (D.state disk.new).faults result }
{
    scratch.clear();
    let mut hasher = Sha256::new();
    hasher.update(&numbers.0.to_be_bytes());
    hasher.update(&numbers.1.to_be_bytes());
    let mut body = HashedStream {
        stream: DiskStream { place: from },
        hasher,
    };
    body.put_pairs(disk, scratch, map)?;
    body.finish(disk, scratch, behind)
}

#[tactic(auto, unfolding(crate::specs::Meta::digest_of))]
fn digest(hasher: Sha256) -> [u8; 32]
    ensures digest { (m : List ℕ) → Holds256 hasher m → result ≡ digest_of m }
    ensures size { length result ≡ 32 }
{
    hasher.finalize()
}
