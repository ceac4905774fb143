//! Why a script didn't run to its end, and the exit status for it.
use thiserror::Error;

/// Why a script didn't run to its end. Output written before it stays.
#[derive(Debug, Drop, Error)]
pub enum RunFault {
    /// This line, counted from 1, is invalid. No line after it runs.
    #[error("error line {0}")]
    BadLine(u32),
    /// The script could not be read, or has more than 16,777,216 bytes.
    #[error("the script can't be read")]
    Read,
    /// The output could not be written.
    #[error("the output can't be written")]
    Write,
    /// There is too little memory. Nothing was read.
    #[error("there is too little memory")]
    Memory,
    /// The board's follower, such as a file, did not take a write. The line that made it has no answer.
    #[error("the card's file can't be written")]
    Unkept,
}

impl RunFault {
    ghost use Rattle.std.specs.Prelude.{◌≡◌};
    ghost use Rattle.bench_lines.specs.Faults.{status_of};

    /// Returns the exit status of the fault: 2 to 5, or 7.
    pub fn status(&self) -> u8
        ensures { result ≡ status_of self.now }
    {
        match self {
            RunFault::BadLine(_) => 2,
            RunFault::Read => 3,
            RunFault::Write => 4,
            RunFault::Memory => 5,
            RunFault::Unkept => 7,
        }
    }
}
