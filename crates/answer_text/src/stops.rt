// Why a session stops before its script does.
ghost use Rattle.std.specs.Prelude.{◌≡◌};
ghost use Rattle.answer_text.specs.declared.stops.SessionFault.TheVariants as stop;

use std::alloc::AllocError;
use thiserror::Error;

/// Why a line, or the end of a script, ends a session without its answer.
#[derive(Clone, Copy, Debug, Error)]
pub enum SessionFault {
    /// The disk or the clock has failed.
    #[error("the device has failed")]
    Device,
    /// Memory was wanting.
    #[error("out of memory")]
    Memory,
    /// The sink has failed; it holds a front of the answer.
    #[error("the sink has failed")]
    Sink,
}

impl From<AllocError> for SessionFault {
    ghost from_gives = { λ _ e. e ≡ stop.Memory };

    fn from(_error: AllocError) -> SessionFault {
        SessionFault::Memory
    }
}
