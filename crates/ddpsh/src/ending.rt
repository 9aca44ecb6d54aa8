// How a run ends.
ghost use Rattle.std.specs.Prelude.{◌≡◌};
ghost use Rattle.ddpsh.specs.Outcomes.{status_of};

use volume_tables::MountFault;

/// How a run ends.
#[derive(Clone, Copy)]
pub(crate) enum End {
    /// The script was read to its end, and the volume was let go.
    Over,
    /// The script was read to its end, and what was not durable could not be made so: an epoch is wanting.
    Worn,
    /// An `exit` let the volume go.
    Exit,
    /// The disk or the clock failed.
    Device,
    /// Memory was wanting.
    Memory,
    /// No volume was opened.
    Refused(MountFault),
    /// The sink failed.
    Sink,
    /// The source failed.
    Source,
    /// The script has more bytes than a script may have.
    TooLong,
}

/// A run that has ended: whether some line was refused, and how many answers were written whole.
#[derive(Clone, Copy)]
pub(crate) struct Ran {
    pub(crate) end: End,
    pub(crate) refused: bool,
    pub(crate) lines: u64,
}

impl Ran {
    pub(crate) fn new(end: End, refused: bool, lines: u64) -> Self
        ensures { result ≡ record { end = end; refused = refused; lines = lines } }
    {
        Ran {
            end,
            refused,
            lines,
        }
    }

    /// The program's exit status.
    pub(crate) fn status(&self) -> u8
        ensures { result ≡ status_of self.now.end self.now.refused }
    {
        match self.end {
            End::Over | End::Exit => { if self.refused { 1 } else { 0 } }
            End::Worn => 1,
            End::Device => 3,
            End::Memory => 4,
            End::Refused(_) => 5,
            End::Sink => 6,
            End::Source | End::TooLong => 7,
        }
    }
}
