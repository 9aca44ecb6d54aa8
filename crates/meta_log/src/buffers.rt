// The memory that a journal takes when it is made, so that its commits take none.
ghost use Rattle.std.specs.Prelude.{◌≡◌, ◌≤◌, length, vec_capacity, IfOk};

use crate::limits::{BEFORE_BODY, STAGED_ROOM, STREAM_ROOM};
use std::alloc::{AllocError, Global};

/// The buffer of the staged records, with the room before them that a group's length and digest take, and the buffer
/// of a checkpoint.
pub(crate) fn buffers(alloc: Global) -> Result<(Vec<u8>, Vec<u8>), AllocError>
    ensures front { IfOk result (λ made. length made.0.items ≡ BEFORE_BODY) }
    ensures staged { IfOk result (λ made. STAGED_ROOM ≤ vec_capacity made.0) }
    ensures stream { IfOk result (λ made. STREAM_ROOM ≤ vec_capacity made.1) }
{
    let mut staged = Vec::with_capacity(alloc, STAGED_ROOM)?;
    staged.resize(BEFORE_BODY, 0)?;
    let scratch = Vec::with_capacity(alloc, STREAM_ROOM)?;
    Ok((staged, scratch))
}
