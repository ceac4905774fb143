//! Why a script is not swept.
use std::alloc::{AllocError, AllocFailed};
use thiserror::Error;

/// The fault of a line of a sweep script.
#[derive(Debug, Clone, Copy, Error)]
pub enum LineError {
    /// The line is no line of a script, or too long.
    #[error("it is no line of a script")]
    NoLine,
    /// The line sets a cut, or loses or garbles a block.
    #[error("a sweep sets its own cuts, and its script sets no faults")]
    SetsFault,
    /// A mark in the wrong place.
    #[error("the mark is out of place: '# command' comes first, then '# probe', each once")]
    WrongMark,
    /// The depth is not a digit from 0 to 3.
    #[error("a depth is 0, 1, 2 or 3")]
    NoDepth,
    /// The script doesn't have one command, and nothing else, between the marks.
    #[error("one apdu and nothing else has to be between '# command' and '# probe'")]
    NoCommand,
    /// The script has no probe, or its probe has no step.
    #[error("the probe is missing or empty, so nothing would look at the card")]
    NoProbe,
}

/// Why a line is not taken.
#[derive(Debug, Clone, Copy)]
pub enum LineStop {
    /// The line is bad.
    Bad(LineError),
    /// There is too little memory.
    Memory,
}

impl From<AllocError> for LineStop {
    ghost use Rattle.std.specs.Prelude.{◌≡◌};
    ghost use Rattle.card_sweeps.specs.declared.fault.LineStop.TheVariants.{Memory};

    ghost from_gives = { λ _ stop. stop ≡ Memory };

    fn from(_: AllocError) -> LineStop {
        LineStop::Memory
    }
}

impl<T: Drop> From<AllocFailed<T>> for LineStop {
    ghost use Rattle.std.specs.Prelude.{◌≡◌};
    ghost use Rattle.card_sweeps.specs.declared.fault.LineStop.TheVariants.{Memory};

    ghost from_gives = { λ _ stop. stop ≡ Memory };

    fn from(_: AllocFailed<T>) -> LineStop {
        LineStop::Memory
    }
}

/// Why a script is not swept.
#[derive(Debug, Drop, Error)]
pub enum SweepFault {
    /// A bad line, counted from 1.
    #[error("error line {0}: {1}")]
    BadLine(u32, LineError),
    /// The script can't be read, or has more than 16,777,216 bytes.
    #[error("the script can't be read")]
    Read,
    /// The output can't be written.
    #[error("the output can't be written")]
    Write,
    /// There is too little memory.
    #[error("there is too little memory")]
    Memory,
    /// Two runs of the same turns left different memories, so the board is not deterministic.
    #[error("two runs of the command left different memories")]
    Differs,
}

impl From<AllocError> for SweepFault {
    ghost use Rattle.std.specs.Prelude.{◌≡◌};
    ghost use Rattle.card_sweeps.specs.declared.fault.SweepFault.TheVariants.{Memory};

    ghost from_gives = { λ _ fault. fault ≡ Memory };

    fn from(_: AllocError) -> SweepFault {
        SweepFault::Memory
    }
}

impl SweepFault {
    ghost use Rattle.std.specs.Prelude.{◌≡◌};
    ghost use Rattle.card_sweeps.specs.ExitStatuses.{exit_status_of};

    /// Returns the exit status that reports it: 2 to 5, or 8.
    pub fn status(&self) -> u8
        ensures { result ≡ exit_status_of self.now }
    {
        match self {
            SweepFault::BadLine(..) => 2,
            SweepFault::Read => 3,
            SweepFault::Write => 4,
            SweepFault::Memory => 5,
            SweepFault::Differs => 8,
        }
    }
}
