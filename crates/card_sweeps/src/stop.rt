//! Why a sweep stops early.
use crate::fault::SweepFault;
use std::alloc::{AllocError, AllocFailed};

/// Why a sweep stops early.
#[derive(Clone, Copy)]
pub enum SweepStop {
    /// There is too little memory.
    Memory,
    /// A cut left another memory than the other cuts ask for, so the board is not deterministic.
    Differs,
}

impl From<AllocError> for SweepStop {
    ghost use Rattle.std.specs.Prelude.{◌≡◌};
    ghost use Rattle.card_sweeps.specs.declared.stop.SweepStop.TheVariants.{Memory};

    ghost from_gives = { λ _ stop. stop ≡ Memory };

    fn from(_: AllocError) -> SweepStop {
        SweepStop::Memory
    }
}

impl<T: Drop> From<AllocFailed<T>> for SweepStop {
    ghost use Rattle.std.specs.Prelude.{◌≡◌};
    ghost use Rattle.card_sweeps.specs.declared.stop.SweepStop.TheVariants.{Memory};

    ghost from_gives = { λ _ stop. stop ≡ Memory };

    fn from(_: AllocFailed<T>) -> SweepStop {
        SweepStop::Memory
    }
}

impl From<SweepStop> for SweepFault {
    ghost use Rattle.std.specs.Prelude.{◌≡◌};
    ghost use Rattle.card_sweeps.specs.ExitStatuses.{fault_of};

    ghost from_gives = { λ stop fault. fault ≡ fault_of stop };

    fn from(stop: SweepStop) -> SweepFault {
        match stop {
            SweepStop::Memory => SweepFault::Memory,
            SweepStop::Differs => SweepFault::Differs,
        }
    }
}
