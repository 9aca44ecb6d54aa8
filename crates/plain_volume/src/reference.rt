// The plain machine as code.
ghost use Rattle.std.specs.Prelude.{◌≡◌, [], IfOk, OnErr};
ghost use Rattle.plain_volume.specs.Replies.{IsOwn, IsOwnResult};
ghost use Rattle.plain_volume.specs.declared.call.Call.TheVariants.{Create, Write, SetLength, Rename, Delete, Read, Digest as DigestOf, Stat, Next, Flush};

use crate::limits::{MOST_BYTES_OF_A_CALL, MOST_BYTES_OF_A_FILE, MOST_FILES};
use crate::plain_files::{PlainFiles, resized, with_bytes_at};
use crate::{Bytes, Call, Fault, Memory, Name, Reply, name_is_lawful};
use sha2::{Digest, Sha256};
use std::alloc::Global;
use std::marker::Model;

/// A plain volume in memory, with no lost cell and no limit on space: slow, and a yardstick for tests.
#[derive(Drop)]
pub struct Reference {
    alloc: Global,
    files: PlainFiles,
}

impl Model for Reference {
    ghost use Rattle.plain_volume.specs.Volume.{Volume};
    ghost use Rattle.plain_volume.specs.Files.{volume_of};

    ghost Value = { Volume };

    ghost view = { λ a. volume_of a.files };
}

impl Reference {
    /// The empty volume.
    pub fn new(alloc: Global) -> Reference
        ensures { result ≡ [] }
    {
        Reference {
            alloc,
            files: PlainFiles::new(alloc),
        }
    }

    /// Makes a call, and answers what the plain machine answers. Where memory is wanting nothing is changed.
    pub fn apply(&mut self, call: &Call) -> Result<Reply, Memory>
        ensures ok { IfOk result (λ given. IsOwn self.old call.now given self.new) }
        ensures err { OnErr result (self.new ≡ self.old) }
    {
        match self.answer(call) {
            Ok(given) => Ok(given),
            Err(Fault::Memory) => Err(Memory),
            Err(fault) => Ok(Reply::Refused(fault)),
        }
    }

    fn answer(&mut self, call: &Call) -> Result<Reply, Fault>
        ensures { IsOwnResult self.old call.now result self.new }
    {
        match call {
            Call::Create(name) => self.create(name.as_bytes()),
            Call::Write(name, at, bytes) => self.write(name.as_bytes(), *at, bytes.as_bytes()),
            Call::SetLength(name, length) => self.set_length(name.as_bytes(), *length),
            Call::Rename(from, to) => self.rename(from.as_bytes(), to.as_bytes()),
            Call::Delete(name) => self.delete(name.as_bytes()),
            Call::Read(name, at, count) => self.read(name.as_bytes(), *at, *count),
            Call::Digest(name) => self.digest(name.as_bytes()),
            Call::Stat(name) => self.stat(name.as_bytes()),
            Call::Next(after) => self.next(after),
            Call::Flush => Ok(Reply::Done),
        }
    }

    fn create(&mut self, name: &[u8]) -> Result<Reply, Fault>
        ensures { IsOwnResult self.old (Create name.now) result self.new }
    {
        if !name_is_lawful(name) {
            return Err(Fault::BadName);
        }
        match self.files.place(name) {
            Ok(_) => Err(Fault::Exists),
            Err(i) => {
                if self.files.len() as u64 >= MOST_FILES {
                    return Err(Fault::TooLarge(MOST_FILES));
                }
                let name = name.to_vec(self.alloc)?;
                self.files.insert(i, name, Vec::new(self.alloc))?;
                Ok(Reply::Done)
            }
        }
    }

    fn write(&mut self, name: &[u8], at: u64, bytes: &[u8]) -> Result<Reply, Fault>
        ensures { IsOwnResult self.old (Write name.now at bytes.now) result self.new }
    {
        let i = self.files.find(name)?;
        if bytes.len() as u64 > MOST_BYTES_OF_A_CALL {
            return Err(Fault::TooLarge(MOST_BYTES_OF_A_CALL));
        }
        if at > MOST_BYTES_OF_A_FILE || at + bytes.len() as u64 > MOST_BYTES_OF_A_FILE {
            return Err(Fault::TooLarge(MOST_BYTES_OF_A_FILE));
        }
        if bytes.is_empty() {
            return Ok(Reply::Done);
        }
        let new = with_bytes_at(self.alloc, self.files.bytes_at(i), at as usize, bytes)?;
        self.files.set_bytes(i, new);
        Ok(Reply::Done)
    }

    fn set_length(&mut self, name: &[u8], length: u64) -> Result<Reply, Fault>
        ensures { IsOwnResult self.old (SetLength name.now length) result self.new }
    {
        let i = self.files.find(name)?;
        if length > MOST_BYTES_OF_A_FILE {
            return Err(Fault::TooLarge(MOST_BYTES_OF_A_FILE));
        }
        let new = resized(self.alloc, self.files.bytes_at(i), length as usize)?;
        self.files.set_bytes(i, new);
        Ok(Reply::Done)
    }

    fn rename(&mut self, from: &[u8], to: &[u8]) -> Result<Reply, Fault>
        ensures { IsOwnResult self.old (Rename from.now to.now) result self.new }
    {
        if !name_is_lawful(from) {
            return Err(Fault::BadName);
        }
        if !name_is_lawful(to) {
            return Err(Fault::BadName);
        }
        let Ok(i) = self.files.place(from) else {
            return Err(Fault::NoFile);
        };
        match self.files.place(to) {
            Ok(_) => Err(Fault::Exists),
            Err(place) => {
                let name = to.to_vec(self.alloc)?;
                let bytes = self.files.bytes_at(i).to_vec(self.alloc)?;
                self.files.insert(place, name, bytes)?;
                self.files.drop_file(from);
                Ok(Reply::Done)
            }
        }
    }

    fn delete(&mut self, name: &[u8]) -> Result<Reply, Fault>
        ensures { IsOwnResult self.old (Delete name.now) result self.new }
    {
        let i = self.files.find(name)?;
        self.files.remove(i);
        Ok(Reply::Done)
    }

    fn read(&self, name: &[u8], at: u64, count: u64) -> Result<Reply, Fault>
        ensures { IsOwnResult self.now (Read name.now at count) result self.now }
    {
        let i = self.files.find(name)?;
        let bytes = self.files.bytes_at(i);
        let length = bytes.len() as u64;
        if at > length || length - at < count {
            return Err(Fault::OutsideFile(length));
        }
        let (from, to) = (at as usize, (at + count) as usize);
        Ok(Reply::Bytes(Bytes::of(self.alloc, &bytes[from..to])?))
    }

    fn digest(&self, name: &[u8]) -> Result<Reply, Fault>
        ensures { IsOwnResult self.now (DigestOf name.now) result self.now }
    {
        let i = self.files.find(name)?;
        Ok(Reply::Digest(Sha256::digest(self.files.bytes_at(i))))
    }

    fn stat(&self, name: &[u8]) -> Result<Reply, Fault>
        ensures { IsOwnResult self.now (Stat name.now) result self.now }
    {
        let i = self.files.find(name)?;
        Ok(Reply::Length(self.files.bytes_at(i).len() as u64))
    }

    fn next(&self, after: &Option<Name>) -> Result<Reply, Fault>
        ensures { IsOwnResult self.now (Next after.now) result self.now }
    {
        let i = self.files.place_after(after);
        if i >= self.files.len() {
            return Ok(Reply::Name(None));
        }
        Ok(Reply::Name(Some(Name::of(self.alloc, self.files.name_at(i))?)))
    }
}
