//! The outcome of a comparison, and the errors of a charge.
ghost use Rattle.std.specs.Prelude.{◌≡◌};
ghost use Rattle.pin_store.specs.declared.errors.PinErr.TheVariants.{Store};

use undo_journal::StoreErr;

/// The outcome of a comparison.
#[derive(Clone, Copy, Debug, PartialEq, Eq)]
pub enum Outcome {
    /// The presented bytes equal the stored ones.
    Matched,
    /// They don't. This number of tries is left of the secret.
    Wrong(u8),
}

/// The reason why a charge fails.
#[derive(Clone, Copy, Debug, PartialEq, Eq)]
pub enum PinErr {
    /// No try is left. Nothing was written.
    Blocked,
    /// The store failed.
    Store(StoreErr),
}

impl From<StoreErr> for PinErr {
    ghost from_gives = { λ e r. r ≡ Store e };

    fn from(e: StoreErr) -> Self {
        PinErr::Store(e)
    }
}
