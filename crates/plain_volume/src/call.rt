// The calls of a volume and their replies.
ghost use Rattle.std.specs.Prelude.{◌≡◌, IfOk};
ghost use Rattle.plain_volume.specs.declared.call.Fault.TheVariants.{Memory as WantOfMemory};

use crate::{Bytes, Memory, Name};
use std::alloc::{AllocError, AllocFailed, Global};

/// A call of a volume. Places and lengths are in bytes.
#[derive(Drop)]
pub enum Call {
    /// Makes an empty file.
    Create(Name),
    /// Puts the bytes at a place of a file, with zeros up to it where the file is shorter.
    Write(Name, u64, Bytes),
    /// Cuts a file to a length, or extends it by zeros.
    SetLength(Name, u64),
    /// Gives the first name's file the second name.
    Rename(Name, Name),
    /// Drops a file.
    Delete(Name),
    /// Reads from a place of a file so many bytes.
    Read(Name, u64, u64),
    /// Asks for the SHA-256 of a file.
    Digest(Name),
    /// Asks for the length of a file.
    Stat(Name),
    /// Asks for the least name above a name, or for the least of all.
    Next(Option<Name>),
    /// Makes all calls so far stable.
    Flush,
}

/// Why a call is refused. Where several hold, the first in the order of a call's own refusals is answered.
#[derive(Clone, Copy, Debug, PartialEq, Eq)]
pub enum Fault {
    /// A name is not lawful.
    BadName,
    /// No file has the name.
    NoFile,
    /// A file has the new name.
    Exists,
    /// The range passes the file's length, which is told.
    OutsideFile(u64),
    /// More than this limit.
    TooLarge(u64),
    /// A counter of the volume is at its end.
    Worn,
    /// The volume's tables have no room.
    TableFull,
    /// So many clusters are needed, and so many are free.
    Full(u64, u64),
    /// The device failed.
    Failed,
    /// The byte at this place is lost.
    Damaged(u64),
    /// There was no memory.
    Memory,
}

/// What a call answers.
#[derive(Drop)]
pub enum Reply {
    /// The call was done, and has nothing to tell.
    Done,
    /// The bytes read.
    Bytes(Bytes),
    /// The SHA-256.
    Digest([u8; 32]),
    /// The length.
    Length(u64),
    /// The name, if there is one.
    Name(Option<Name>),
    /// The call was refused.
    Refused(Fault),
}

impl From<Memory> for Fault {
    ghost from_gives = { λ _ fault. fault ≡ WantOfMemory };

    fn from(_memory: Memory) -> Fault {
        Fault::Memory
    }
}

impl From<AllocError> for Fault {
    ghost from_gives = { λ _ fault. fault ≡ WantOfMemory };

    fn from(_error: AllocError) -> Fault {
        Fault::Memory
    }
}

impl<T: Drop> From<AllocFailed<T>> for Fault {
    ghost from_gives = { λ _ fault. fault ≡ WantOfMemory };

    fn from(_failed: AllocFailed<T>) -> Fault {
        Fault::Memory
    }
}

impl Name {
    /// An equal name.
    pub fn copy(&self, alloc: Global) -> Result<Name, Memory>
        ensures { IfOk result (λ name. name ≡ self.now) }
    {
        Name::of(alloc, self.as_bytes())
    }
}

impl Bytes {
    /// Equal bytes.
    pub fn copy(&self, alloc: Global) -> Result<Bytes, Memory>
        ensures { IfOk result (λ bytes. bytes ≡ self.now) }
    {
        Bytes::of(alloc, self.as_bytes())
    }
}

impl Call {
    /// An equal call.
    pub fn copy(&self, alloc: Global) -> Result<Call, Memory>
        ensures { IfOk result (λ call. call ≡ self.now) }
    {
        Ok(match self {
            Call::Create(name) => Call::Create(name.copy(alloc)?),
            Call::Write(name, at, bytes) => Call::Write(name.copy(alloc)?, *at, bytes.copy(alloc)?),
            Call::SetLength(name, length) => Call::SetLength(name.copy(alloc)?, *length),
            Call::Rename(from, to) => Call::Rename(from.copy(alloc)?, to.copy(alloc)?),
            Call::Delete(name) => Call::Delete(name.copy(alloc)?),
            Call::Read(name, at, count) => Call::Read(name.copy(alloc)?, *at, *count),
            Call::Digest(name) => Call::Digest(name.copy(alloc)?),
            Call::Stat(name) => Call::Stat(name.copy(alloc)?),
            Call::Next(Some(after)) => Call::Next(Some(after.copy(alloc)?)),
            Call::Next(None) => Call::Next(None),
            Call::Flush => Call::Flush,
        })
    }
}

impl Reply {
    /// An equal reply.
    pub fn copy(&self, alloc: Global) -> Result<Reply, Memory>
        ensures { IfOk result (λ reply. reply ≡ self.now) }
    {
        Ok(match self {
            Reply::Done => Reply::Done,
            Reply::Bytes(bytes) => Reply::Bytes(bytes.copy(alloc)?),
            Reply::Digest(digest) => Reply::Digest(*digest),
            Reply::Length(length) => Reply::Length(*length),
            Reply::Name(Some(name)) => Reply::Name(Some(name.copy(alloc)?)),
            Reply::Name(None) => Reply::Name(None),
            Reply::Refused(fault) => Reply::Refused(*fault),
        })
    }
}
