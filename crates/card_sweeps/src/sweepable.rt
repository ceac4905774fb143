//! Boards whose writes a sweep cuts, and whose memories it compares.
ghost use Rattle.std.specs.Prelude.{◌≡◌, ◌≤◌, ℕ, true, is_some, IfOk};
ghost use Rattle.nvm_board.specs.declared.board.TheConstants.{PAGE_WORDS};

use nvm_board::{Armed, Faultless};
use simulated_boards::CutBoard;
use std::alloc::{AllocError, Global};

/// A board without faults that can be copied, and reports on the power cut that is set on it. A cut leaves the words of
/// its mask.
pub trait Sweepable: Armed + Faultless {
    /// The number of words of its last torn write.
    ghost torn: { Self → ℕ };

    /// Returns another board with the same words, power, counts, and pending cut.
    ///
    /// # Errors
    /// There is too little memory.
    fn copy(&self, alloc: Global) -> Result<Self, AllocError>
        ensures { IfOk result (λ b. Self.facts b ≡ Self.facts self.now) };

    /// Returns true if a cut is pending.
    fn pending(&self) -> bool
        ensures { result ≡ is_some (Self.facts self.now).pending };

    /// Returns the number of words of the last torn write, 0 before any.
    fn torn_words(&self) -> u8
        ensures last { result ≡ torn self.now }
        ensures fits { result ≤ PAGE_WORDS };

    /// Returns the words, with power on or off.
    fn words(&self) -> &[u32]
        ensures { result.now ≡ (Self.facts self.now).words };

    /// A cut leaves the words of its mask.
    ghost masked: { (board : Self) → (Self.facts board).masks ≡ true };
}

impl Sweepable for CutBoard {
    ghost use Rattle.std.specs.Prelude.{refl};
    ghost use Rattle.simulated_boards.specs.Cut.{last_torn};

    ghost torn = { last_torn };

    fn copy(&self, alloc: Global) -> Result<CutBoard, AllocError> {
        CutBoard::copy(self, alloc)
    }

    fn pending(&self) -> bool {
        CutBoard::pending(self)
    }

    fn torn_words(&self) -> u8 {
        CutBoard::torn_words(self)
    }

    fn words(&self) -> &[u32] {
        CutBoard::words(self)
    }

    ghost masked = { λ b. refl };
}
