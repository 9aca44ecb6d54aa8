// Why a call of the journal is refused.
ghost use Rattle.std.specs.Prelude.{◌≡◌};
ghost use Rattle.meta_log.specs.declared.fault.MetaFault.TheVariants.{Failed, Memory};

use std::alloc::AllocError;
use thiserror::Error;
use vdisk::Failed;

/// Why a call of the journal is refused.
#[derive(Clone, Copy, Debug, PartialEq, Eq, Error)]
pub enum MetaFault {
    /// The staged records would have more than 65,536 bytes.
    #[error("the staged records would have more than 65,536 bytes")]
    GroupFull,
    /// A checkpoint of the map would be longer than a half.
    #[error("a checkpoint of the map would be longer than a half")]
    TableFull,
    /// A new checkpoint is needed, and the epoch is the last one.
    #[error("the last epoch is used up")]
    Worn,
    /// The live half of this number, 0 or 1, is damaged; 2 where no half is live.
    #[error("half {0} is damaged")]
    Damaged(u8),
    /// The device failed.
    #[error("the device failed")]
    Failed,
    /// There was no memory.
    #[error("there was no memory")]
    Memory,
}

impl From<AllocError> for MetaFault {
    ghost from_gives = { λ _ e. e ≡ Memory };

    fn from(_: AllocError) -> Self {
        MetaFault::Memory
    }
}

impl From<Failed> for MetaFault {
    ghost from_gives = { λ _ e. e ≡ Failed };

    fn from(_: Failed) -> Self {
        MetaFault::Failed
    }
}
