// A script that is read ahead in large pieces.
ghost use Rattle.std.specs.Prelude.{◌≤◌, ◌<◌, ◌-◌, ◌^◌, vec_len};
ghost use Rattle.script_items.specs.declared.limits.TheConstants.{MOST_SCRIPT};

mod methods;
mod piece;

use thiserror::Error;

/// Why a script is not read on.
#[derive(Clone, Copy, Debug, Error)]
pub enum ScriptFault {
    /// The source failed.
    #[error("the source failed")]
    Failed,
    /// The script has more bytes than a script may have.
    #[error("the script is too long")]
    TooLong,
    /// Memory was wanting for a payload.
    #[error("no memory")]
    Memory,
}

/// The bytes of a script that were read and not yet handed out, and how many came in all.
#[derive(Drop)]
pub struct Input {
    room: Vec<u8>,
    start: usize,
    end: usize,
    came: u64,
    pub ghost large: { 0 < vec_len room },
    pub ghost ordered: { start ≤ end },
    pub ghost within: { end ≤ vec_len room },
    pub ghost counted: { end - start ≤ came },
    pub ghost few: { came ≤ MOST_SCRIPT },
}
