//! Errors of calls on the body of an EF.
ghost use Rattle.std.specs.Prelude.{◌≡◌, option_map};
ghost use Rattle.std.specs.Result.{result_err};
ghost use Rattle.ef_contents.specs.declared.error.BodyErr.TheVariants.{Refused, Store};

use card_model::Sw;
use undo_journal::StoreErr;

/// The reason why a call on a body fails.
#[derive(Clone, Copy, Debug, PartialEq, Eq)]
pub enum BodyErr {
    /// The call is refused with this status word. Nothing was written.
    Refused(Sw),
    /// The store failed.
    Store(StoreErr),
}

impl From<Sw> for BodyErr {
    ghost from_gives = { λ status r. r ≡ Refused status };

    fn from(status: Sw) -> Self {
        BodyErr::Refused(status)
    }
}

/// Returns the store's result with the error type of a body.
///
/// # Errors
/// The store's.
pub fn from_store(answered: Result<(), StoreErr>) -> Result<(), BodyErr>
    ensures { result_err result ≡ option_map Store (result_err answered) }
{
    match answered {
        Ok(()) => Ok(()),
        Err(e) => Err(BodyErr::Store(e)),
    }
}
