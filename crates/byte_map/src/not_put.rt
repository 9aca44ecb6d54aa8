//! Why a pair is not put.

ghost use Rattle.std.specs.Prelude.{◌≡◌};
ghost use Rattle.byte_map.specs.declared.not_put.NotPut.TheVariants.{Memory};

use std::alloc::AllocError;
use thiserror::Error;

/// Why a pair is not put.
#[derive(Clone, Copy, Debug, Error)]
pub enum NotPut {
    /// The map would be beyond its limit.
    #[error("the map would be beyond its limit")]
    Beyond,
    /// There is no memory, or the pairs or their bytes would be 2^64 or more.
    #[error("no memory")]
    Memory,
}

impl From<AllocError> for NotPut {
    ghost from_gives = { λ _ e. e ≡ Memory };

    fn from(_: AllocError) -> Self {
        NotPut::Memory
    }
}
