//! Why a command stops before it is done.
ghost use Rattle.std.specs.Prelude.{◌≡◌};
ghost use Rattle.command_base.specs.declared.stop.Stop.TheVariants.{Refused, Failed};
ghost use Rattle.command_base.specs.Stops.{reply, stop_of_body, stop_of_pin};

use apdu_core::Sw;
use ef_contents::BodyErr;
use pin_store::PinErr;
use undo_journal::StoreErr;

/// Why a command stops early. The steps of a command return it, so that `?` passes it on.
#[derive(Clone, Copy)]
pub enum Stop {
    /// The card refuses the command with this status word. Nothing was written.
    Refused(Sw),
    /// The store failed.
    Failed(StoreErr),
}

impl From<Sw> for Stop {
    ghost from_gives = { λ status r. r ≡ Refused status };

    fn from(status: Sw) -> Self {
        Stop::Refused(status)
    }
}

impl From<StoreErr> for Stop {
    ghost from_gives = { λ e r. r ≡ Failed e };

    fn from(e: StoreErr) -> Self {
        Stop::Failed(e)
    }
}

impl From<BodyErr> for Stop {
    ghost from_gives = { λ e r. r ≡ stop_of_body e };

    fn from(e: BodyErr) -> Self {
        match e {
            BodyErr::Refused(status) => Stop::Refused(status),
            BodyErr::Store(e) => Stop::Failed(e),
        }
    }
}

impl From<PinErr> for Stop {
    ghost from_gives = { λ e r. r ≡ stop_of_pin e };

    fn from(e: PinErr) -> Self {
        match e {
            PinErr::Blocked => Stop::Refused(Sw::METHOD_BLOCKED),
            PinErr::Store(e) => Stop::Failed(e),
        }
    }
}

/// Returns the answer: a refusal gives its status word.
///
/// # Errors
/// The store failed.
pub fn reply(ended: Result<Sw, Stop>) -> Result<Sw, StoreErr>
    ensures { result ≡ reply ended }
{
    match ended {
        Ok(status) => Ok(status),
        Err(Stop::Refused(status)) => Ok(status),
        Err(Stop::Failed(e)) => Err(e),
    }
}
