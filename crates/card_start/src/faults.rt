//! Why a card stops answering, and why power-on fails.
ghost use Rattle.std.specs.Prelude.{◌≡◌};
ghost use Rattle.card_start.specs.StartFaults.{fault_of_open};

use undo_journal::OpenFault;

/// Power was lost. The card gives no answer until the next power-on.
#[derive(Clone, Copy, Debug, PartialEq, Eq)]
pub struct PowerLost;

/// Why power-on failed.
#[derive(Clone, Copy, Debug, PartialEq, Eq)]
pub enum StartFault {
    /// Power was off, or was lost during power-on.
    PowerLost,
    /// The device failed.
    Fault,
    /// The journal can't be undone. Nothing was written.
    BadJournal,
    /// The memory after recovery is no valid card image.
    Damaged,
}

impl From<OpenFault> for StartFault {
    ghost from_gives = { λ e r. r ≡ fault_of_open e };

    fn from(e: OpenFault) -> Self {
        match e {
            OpenFault::PowerLost => StartFault::PowerLost,
            OpenFault::Fault => StartFault::Fault,
            OpenFault::BadJournal => StartFault::BadJournal,
        }
    }
}
