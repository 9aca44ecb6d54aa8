// Files in a vector, in the order of their names, which are compared one by one from the front.
ghost use Rattle.std.specs.Prelude.{◌≡◌, ◌+◌, ◌-◌, ◌<◌, ◌≤◌, [], ◌∷◌, ◌++◌, length, take, drop, replicate, ◌^◌, slice_set, insert, IfOk, IfErr, OnOk, OnErr};
ghost use Rattle.std.specs.List.{remove};
ghost use Rattle.plain_volume.specs.Volume.{next_above, first_name, without_file};
ghost use Rattle.plain_volume.specs.Step.{next_name};
ghost use Rattle.plain_volume.specs.Files.{IsRising, BelongsAt, IsFileAt, RefusesFile, name_at, bytes_at, with_bytes_at, volume_of};

use crate::{Fault, Name, name_is_lawful};
use std::alloc::{AllocError, Global};
use std::cmp::Ordering;
use std::marker::Model;

#[derive(Drop)]
struct PlainFile {
    name: Vec<u8>,
    bytes: Vec<u8>,
}

impl Model for PlainFile {
    ghost use Rattle.std.specs.Prelude.{List, ℕ};

    ghost Value = { List ℕ × List ℕ };

    ghost view = { λ f. (f.name.items, f.bytes.items) };
}

/// Files in the order of their names.
#[derive(Drop)]
pub struct PlainFiles {
    files: Vec<PlainFile>,
}

impl Model for PlainFiles {
    ghost use Rattle.std.specs.Prelude.{List, ℕ};
    ghost use Rattle.plain_volume.specs.Files.{IsRising};

    ghost Value = { List (List ℕ × List ℕ) };

    ghost view = { λ a. a.files.items };

    ghost invariant = { λ a. IsRising a.files.items };
}

impl PlainFiles {
    pub fn new(alloc: Global) -> PlainFiles
        ensures { result ≡ [] }
    {
        PlainFiles {
            files: Vec::new(alloc),
        }
    }

    pub fn len(&self) -> usize
        ensures { result ≡ length self.now }
    {
        self.files.len()
    }

    pub fn name_at(&self, i: usize) -> &[u8]
        requires { i < length self.now }
        ensures { result.now ≡ name_at self.now i }
    {
        let file = &self.files[i];
        &file.name
    }

    pub fn bytes_at(&self, i: usize) -> &[u8]
        requires { i < length self.now }
        ensures { result.now ≡ bytes_at self.now i }
    {
        let file = &self.files[i];
        &file.bytes
    }

    /// Where the name is, or where it belongs.
    pub fn place(&self, name: &[u8]) -> Result<usize, usize>
        ensures rising { IsRising self.now }
        ensures found { IfOk result (λ i. (i < length self.now) × (name_at self.now i ≡ name.now)) }
        ensures absent { IfErr result (BelongsAt self.now name.now) }
    {
        let count = self.files.len();
        for i in 0..count {
            match self.name_at(i).cmp(name) {
                Ordering::Less => {}
                Ordering::Equal => return Ok(i),
                Ordering::Greater => return Err(i),
            }
        }
        Err(count)
    }

    /// Where the file of a name is, or why each call on it is refused.
    pub fn find(&self, name: &[u8]) -> Result<usize, Fault>
        ensures found { IfOk result (IsFileAt self.now name.now) }
        ensures refused { IfErr result (RefusesFile (volume_of self.now) name.now) }
    {
        if !name_is_lawful(name) {
            return Err(Fault::BadName);
        }
        match self.place(name) {
            Ok(i) => Ok(i),
            Err(_) => Err(Fault::NoFile),
        }
    }

    /// Where the names above a name begin, or where all begin.
    pub fn place_after(&self, after: &Option<Name>) -> usize
        ensures in_range { result ≤ length self.now }
        ensures next { next_name after.now (volume_of self.now) ≡ first_name (volume_of (drop result self.now)) }
    {
        match after {
            None => 0,
            Some(name) => self.place_above(name.as_bytes()),
        }
    }

    fn place_above(&self, name: &[u8]) -> usize
        ensures in_range { result ≤ length self.now }
        ensures next { next_above name.now (volume_of self.now) ≡ first_name (volume_of (drop result self.now)) }
    {
        let count = self.files.len();
        for i in 0..count {
            if name.cmp(self.name_at(i)).is_lt() {
                return i;
            }
        }
        count
    }

    /// Puts a file where its name belongs.
    pub fn insert(&mut self, i: usize, name: Vec<u8>, bytes: Vec<u8>) -> Result<(), AllocError>
        requires { BelongsAt self.old name.items i }
        ensures ok { OnOk result (self.new ≡ insert self.old i (name.items, bytes.items)) }
        ensures err { OnErr result (self.new ≡ self.old) }
    {
        self.files.insert(i, PlainFile { name, bytes })?;
        Ok(())
    }

    /// Gives a file other bytes.
    pub fn set_bytes(&mut self, i: usize, bytes: Vec<u8>)
        requires { i < length self.old }
        ensures { self.new ≡ slice_set self.old i (name_at self.old i, bytes.items) }
    {
        let file = &mut self.files[i];
        file.bytes = bytes;
    }

    /// Drops the file of a name, if there is one.
    pub fn drop_file(&mut self, name: &[u8])
        ensures { volume_of self.new ≡ without_file name.now (volume_of self.old) }
    {
        if let Ok(i) = self.place(name) {
            self.remove(i);
        }
    }

    /// Drops a file.
    pub fn remove(&mut self, i: usize)
        requires { i < length self.old }
        ensures { self.new ≡ remove self.old i }
    {
        self.files.remove(i);
    }
}

/// The first bytes, with zeros behind them where there are fewer.
pub fn resized(alloc: Global, bytes: &[u8], len: usize) -> Result<Vec<u8>, AllocError>
    ensures { IfOk result (λ v. v.items ≡ take len bytes.now ++ replicate (len - length bytes.now) 0) }
{
    let mut new = bytes.to_vec(alloc)?;
    new.resize(len, 0)?;
    Ok(new)
}

/// The bytes with others at a place, and zeros up to it where there are fewer.
pub fn with_bytes_at(
    alloc: Global,
    old: &[u8],
    at: usize,
    bytes: &[u8],
) -> Result<Vec<u8>, AllocError>
    requires { at + length bytes.now < 2 ^ 64 }
    ensures { IfOk result (λ v. v.items ≡ with_bytes_at at bytes.now old.now) }
{
    let mut new = resized(alloc, old, at)?;
    new.extend_from_slice(bytes)?;
    new.extend_from_slice(rest(old, at + bytes.len()))?;
    Ok(new)
}

fn rest(bytes: &[u8], from: usize) -> &[u8]
    ensures { result.now ≡ drop from bytes.now }
{
    if from < bytes.len() {
        &bytes[from..]
    } else {
        &[]
    }
}
