// A disk over a file.
ghost use Rattle.std.specs.Prelude.{◌≡◌, ◌<◌, ◌≤◌, ◌+◌, ◌-◌, ◌^◌, ◌↔◌, ℕ, List, length, IsTrue, IsFalse, IsOk, IsErr, OnOk, OnErr};

use crate::cause::Cause;
use crate::disk::{Disk, Failed};
use std::fs::{File, OpenFile, OpenOptions};
use std::io;
use std::os::unix::fs::FileExt;
use std::path::Path;
use std::rt::Files;

/// A disk over a file of the system, which it has for itself alone from `open` until it is dropped. It tells nothing
/// of what it holds: the volume's promises rest on a file, its folder and their device that do as follows.
///
/// - A read gives the bytes that were written last.
/// - No one changes or removes the file but by a `FileDisk`: the lock is advisory (flock).
/// - After a sync that succeeds (fsync where the length may have changed since the last one, else fdatasync) a crash
///   leaves the bytes and the length as they are. After one that fails no later sync is tried, since the system may
///   have dropped what could not be written and would say nothing of it.
/// - A crash changes no byte outside the ranges that were written since the last sync.
#[derive(Drop)]
pub struct FileDisk {
    file: Option<File>,
    unsynced: Unsynced,
    cause: Option<Cause>,
    size: u64,
    made: u64,
    faults: u64,
    ghost small: { size < 2 ^ 64 },
    ghost timed: { made < 2 ^ 64 },
    ghost counted: { faults < 2 ^ 64 },
}

/// What a sync has to make durable.
#[derive(Clone, Copy)]
enum Unsynced {
    /// Bytes alone: the length is durable.
    Bytes,
    /// Bytes and the length.
    Length,
    /// Bytes that a failed sync may have lost.
    Lost,
}

impl FileDisk {
    ghost use Rattle.vdisk.specs.Causes.{Rose};
    ghost use Rattle.vdisk.specs.FileDisk.{file_state, IsUnopened};

    /// Opens the file at this path, and makes an empty one where there is none and `create` says so. It never fails:
    /// a file that could not be opened, also because another `FileDisk` has it, in this process or in another one,
    /// gives a disk of size 0 whose every call fails; `cause` says why.
    pub fn open<R: Files<File = File>>(rt: &R, path: &str, create: bool) -> Self
        ensures moment { (file_state result).moment ≡ 0 }
        ensures faults { (file_state result).faults ≡ 0 }
        ensures unopened { IsUnopened result → length (file_state result).image ≡ 0 }
    {
        match open_alone(rt, path, create) {
            Ok((file, size)) => FileDisk {
                file: Some(file),
                // Whoever made the file this long may not have synced it.
                unsynced: Unsynced::Length,
                cause: None,
                size,
                made: 0,
                faults: 0,
            },
            Err(error) => FileDisk::unopened(error),
        }
    }

    fn unopened(error: io::Error) -> Self
        ensures moment { result.made ≡ 0 }
        ensures faults { result.faults ≡ 0 }
        ensures size { result.size ≡ 0 }
    {
        FileDisk {
            file: None,
            unsynced: Unsynced::Length,
            cause: Some(Cause::from(error)),
            size: 0,
            made: 0,
            faults: 0,
        }
    }

    /// What the system said of the first call that it refused, `open` among them. A call that was not handed to the
    /// system, as a sync after one that failed, leaves it as it was.
    pub fn cause(&self) -> Option<Cause> {
        self.cause
    }

    // Counts a fault where the call was not done.
    fn answer(&mut self, done: bool) -> Result<(), Failed>
        ensures size { self.new.size ≡ self.old.size }
        ensures file { self.new.file ≡ self.old.file }
        ensures made { self.new.made ≡ self.old.made }
        ensures ok { IsOk result ↔ IsTrue done }
        ensures later { self.old.faults ≤ self.new.faults }
        ensures failed { OnErr result (Rose self.old.faults self.new.faults) }
    {
        if done {
            return Ok(());
        }
        self.faults = self.faults.saturating_add(1);
        Err(Failed)
    }

    // Lets time go on, and answers whether it could.
    fn tick(&mut self) -> bool
        ensures size { self.new.size ≡ self.old.size }
        ensures file { self.new.file ≡ self.old.file }
        ensures faults { self.new.faults ≡ self.old.faults }
        ensures ticked { IsTrue result → self.new.made ≡ self.old.made + 1 }
        ensures end { IsFalse result → (self.new.made ≡ self.old.made) × (self.old.made ≡ 2 ^ 64 - 1) }
    {
        if self.made == u64::MAX {
            return false;
        }
        self.made += 1;
        true
    }
}

impl Unsynced {
    fn is_synced(self, file: &File, cause: &mut Option<Cause>) -> bool {
        match self {
            Unsynced::Bytes => is_done(file.sync_data(), cause),
            Unsynced::Length => is_done(file.sync_all(), cause),
            Unsynced::Lost => false,
        }
    }
}

/// Whether the system did as it was asked. The first cause why it did not is kept.
fn is_done(answer: io::Result<()>, cause: &mut Option<Cause>) -> bool {
    match answer {
        Ok(()) => true,
        Err(error) => {
            if cause.is_none() {
                *cause = Some(Cause::from(error));
            }
            false
        }
    }
}

/// The file and its length, once it is locked and its name is durable.
fn open_alone<R: Files<File = File>>(rt: &R, path: &str, create: bool) -> io::Result<(File, u64)> {
    let file = OpenOptions::new()
        .read(true)
        .write(true)
        .create(create)
        .open(rt, path)?;
    file.try_lock()?;
    let size = file.metadata()?.len();
    // An empty file may have been made just now, or by a call that ended before it synced the folder.
    if size == 0 {
        File::open(rt, folder_of(path))?.sync_all()?;
    }
    Ok((file, size))
}

fn folder_of(path: &str) -> Path<'_> {
    match Path::new(path).parent() {
        Some(folder) if folder != Path::new("") => folder,
        _ => Path::new("."),
    }
}

impl Disk for FileDisk {
    ghost use Rattle.vdisk.specs.FileDisk.{file_state, IsUnopened};
    ghost use Rattle.vdisk.specs.Causes.{HasCause};
    ghost use Rattle.vdisk.specs.Disk.{ChangedWithin, GrownTo, Follows, Elapses, Untouched, RefusedAtTheEnd};

    ghost state = { λ d. file_state d };

    ghost is_same = { λ a b. Unit {0} };

    ghost same_self = { λ d. tt };

    ghost same_next = { λ a b c one two. tt };

    fn size(&self) -> u64 {
        self.size
    }

    fn moment(&self) -> u64 {
        self.made
    }

    fn grow(&mut self, to: u64) -> Result<(), Failed>
        requires { length (file_state self.old).image ≤ to }
        ensures grown { OnOk result (length (file_state self.new).image ≡ to) }
        ensures image { GrownTo to (file_state self.old).image (file_state self.new).image }
        ensures crash { Follows (GrownTo to) (file_state self.old).may_leave (file_state self.new).may_leave }
        ensures time { Elapses (file_state self.old) (file_state self.new) }
        ensures end { RefusedAtTheEnd (file_state self.old) result }
        ensures same { Unit {0} }
        ensures cause { HasCause (file_state self.old).faults (file_state self.new).faults result }
        ensures unopened { IsUnopened self.old → IsErr result }
        ensures stays { IsUnopened self.new ↔ IsUnopened self.old }
    {
        if let Unsynced::Bytes = self.unsynced {
            self.unsynced = Unsynced::Length;
        }
        let done = self.tick()
            && match &self.file {
                Some(file) => is_done(file.set_len(to), &mut self.cause),
                None => false,
            };
        if done {
            self.size = to;
        }
        self.answer(done)
    }

    fn read(&mut self, at: u64, out: &mut [u8]) -> Result<(), Failed>
        requires { at + length out.old ≤ length (file_state self.old).image }
        ensures bytes { Unit {0} }
        ensures untouched { Untouched (file_state self.old) (file_state self.new) }
        ensures end { RefusedAtTheEnd (file_state self.old) result }
        ensures same { Unit {0} }
        ensures cause { HasCause (file_state self.old).faults (file_state self.new).faults result }
        ensures unopened { IsUnopened self.old → IsErr result }
        ensures stays { IsUnopened self.new ↔ IsUnopened self.old }
    {
        let done = self.made < u64::MAX
            && match &self.file {
                Some(file) => is_done(file.read_exact_at(out, at), &mut self.cause),
                None => false,
            };
        self.answer(done)
    }

    fn write(&mut self, at: u64, bytes: &[u8]) -> Result<(), Failed>
        requires { at + length bytes.now ≤ length (file_state self.old).image }
        ensures written { Unit {0} }
        ensures image { ChangedWithin at (length bytes.now) (file_state self.old).image (file_state self.new).image }
        ensures crash { Follows (ChangedWithin at (length bytes.now)) (file_state self.old).may_leave
            (file_state self.new).may_leave }
        ensures time { Elapses (file_state self.old) (file_state self.new) }
        ensures end { RefusedAtTheEnd (file_state self.old) result }
        ensures same { Unit {0} }
        ensures cause { HasCause (file_state self.old).faults (file_state self.new).faults result }
        ensures unopened { IsUnopened self.old → IsErr result }
        ensures stays { IsUnopened self.new ↔ IsUnopened self.old }
    {
        let done = self.tick()
            && match &self.file {
                Some(file) => is_done(file.write_all_at(bytes, at), &mut self.cause),
                None => false,
            };
        self.answer(done)
    }

    fn sync(&mut self) -> Result<(), Failed>
        ensures durable { Unit {0} }
        ensures image { (file_state self.new).image ≡ (file_state self.old).image }
        ensures crash { (c : List ℕ) → (file_state self.new).may_leave c → (file_state self.old).may_leave c }
        ensures time { Elapses (file_state self.old) (file_state self.new) }
        ensures end { RefusedAtTheEnd (file_state self.old) result }
        ensures same { Unit {0} }
        ensures cause { HasCause (file_state self.old).faults (file_state self.new).faults result }
        ensures unopened { IsUnopened self.old → IsErr result }
        ensures stays { IsUnopened self.new ↔ IsUnopened self.old }
    {
        let done = self.tick()
            && match &self.file {
                Some(file) => self.unsynced.is_synced(file, &mut self.cause),
                None => false,
            };
        self.unsynced = if done {
            Unsynced::Bytes
        } else {
            Unsynced::Lost
        };
        self.answer(done)
    }
}
