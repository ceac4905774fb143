//! Errors of the store.
ghost use Rattle.undo_journal.specs.Memory.{store_err_of, open_fault_of};
ghost use Rattle.std.specs.Prelude.{◌≡◌};

use nvm_board::DeviceErr;

/// The reason why a store has failed.
#[derive(Clone, Copy, Debug, PartialEq, Eq)]
pub enum StoreErr {
    /// Power failed. The board is without power.
    PowerLost,
    /// The device failed.
    Fault,
}

/// The reason why a store couldn't be opened.
#[derive(Clone, Copy)]
pub enum OpenFault {
    /// Power failed, or was off. The board is without power.
    PowerLost,
    /// The device failed.
    Fault,
    /// The journal is invalid. Its gate counts more pairs than it has, or a pair names no data word. Nothing was
    /// written.
    BadJournal,
}

impl From<DeviceErr> for StoreErr {
    ghost from_gives = { λ e r. r ≡ store_err_of e };

    fn from(e: DeviceErr) -> Self {
        match e {
            DeviceErr::PowerLost => StoreErr::PowerLost,
            DeviceErr::Fault => StoreErr::Fault,
        }
    }
}

impl From<DeviceErr> for OpenFault {
    ghost from_gives = { λ e r. r ≡ open_fault_of e };

    fn from(e: DeviceErr) -> Self {
        match e {
            DeviceErr::PowerLost => OpenFault::PowerLost,
            DeviceErr::Fault => OpenFault::Fault,
        }
    }
}
