//! Why the program has no report.
use card_files::BoardFault;
use card_sweeps::SweepFault;
use thiserror::Error;

/// Why the program has no report.
#[derive(Debug, Drop, Error)]
pub enum ProgramFault {
    /// The command line has an unknown word, or lacks a path.
    #[error("usage: sweep_cli [--card FILE] [I/N] < SCRIPT")]
    Usage,
    /// There is no board to sweep.
    #[error("error card: {0}")]
    NoBoard(BoardFault),
    /// The script is not swept, or its report isn't written.
    #[error("{0}")]
    NoReport(SweepFault),
}

impl From<BoardFault> for ProgramFault {
    fn from(fault: BoardFault) -> ProgramFault {
        ProgramFault::NoBoard(fault)
    }
}

impl From<SweepFault> for ProgramFault {
    fn from(fault: SweepFault) -> ProgramFault {
        ProgramFault::NoReport(fault)
    }
}

impl ProgramFault {
    ghost use Rattle.std.specs.Prelude.{◌≡◌};
    ghost use Rattle.sweep_cli.specs.ProgramStatuses.{program_status_of};

    /// Returns the exit status that reports it: 1 to 6, or 8.
    pub fn status(&self) -> u8
        ensures { result ≡ program_status_of self.now }
    {
        match self {
            ProgramFault::Usage => 1,
            ProgramFault::NoBoard(fault) => fault.status(),
            ProgramFault::NoReport(fault) => fault.status(),
        }
    }
}
