//! Boards: their calls, and the effect of each on words, power and counts.
ghost use Rattle.std.specs.Prelude.{◌≡◌, ◌<◌, ◌≤◌, ◌↔◌, true, false, length, IsErr, OnOk, OnErr};
ghost use Rattle.nvm_board.specs.declared.board.TheConstants.{SECRETS};
ghost use Rattle.nvm_board.specs.Facts.{Facts, IsBoard, IsWornOut, address, pages_of};
ghost use Rattle.nvm_board.specs.Aims.{HasNoFault};
ghost use Rattle.nvm_board.specs.BoardCalls.{TellsWord, FitsPage, Writes, Compares, Arms};

/// The least number of pages of a board.
pub const LEAST_PAGES: u16 = 1024;

/// The greatest number of pages of a board.
pub const MOST_PAGES: u16 = 4096;

/// The number of 32-bit words of a page. A word's address is its page times `PAGE_WORDS`, plus its index in the page.
pub const PAGE_WORDS: u16 = 16;

/// The number of secrets that a board compares. Secrets 0 to 7 are the values of PIN 1 to 8, secrets 8 to 15 their
/// unblocking values.
pub const SECRETS: u8 = 16;

/// The end of each count of a board.
pub const COUNT_END: u64 = u64::MAX;

/// The reason why a board didn't carry out a call.
#[derive(Clone, Copy, Debug, PartialEq, Eq)]
pub enum DeviceErr {
    /// Power failed in the call, or was off. The board is without power.
    PowerLost,
    /// The device failed. The board still has power.
    Fault,
}

/// Power-on fails, since a count of the board is at its end.
#[derive(Clone, Copy, Debug, PartialEq, Eq)]
pub struct WornOut;

/// A cut or a fault that is set. It counts writes, or calls on a board that counts its calls.
#[derive(Clone, Copy, Debug, PartialEq, Eq)]
pub struct Arm {
    /// The number of writes, or calls, before the torn one.
    pub whole_writes: u32,
    /// The words of the torn write that are new. Bit i is for the ith.
    pub mask: u16,
}

/// A non-volatile memory of words, with a comparer of secrets. Words change atomically. Power may fail between any
/// two words of a write.
pub trait Board {
    /// The facts of the board, which contracts use.
    ghost facts: { Self → Facts };

    /// Returns the number of pages. No call changes it, since none changes the number of words.
    fn pages(&self) -> u16
        ensures { result ≡ pages_of (facts self.now).words };

    /// Returns the word at an address.
    fn read(&mut self, at: u16) -> Result<u32, DeviceErr>
        requires { at < length (facts self.old).words }
        ensures { TellsWord at (facts self.old) (facts self.new) result };

    /// Writes 1 to 16 words of one page, from word `first` on. After an error each of them is old or new,
    /// independently of the others.
    fn write(&mut self, page: u16, first: u8, words: &[u32]) -> Result<(), DeviceErr>
        requires { FitsPage page first words.now (facts self.old) }
        ensures { Writes (address page first) words.now (facts self.old) (facts self.new) result };

    /// Returns true if the presented bytes equal the stored ones. The board counts each comparison and each match of
    /// a secret.
    fn compare(&mut self, secret: u8, kept: &[u8; 8], shown: &[u8; 8]) -> Result<bool, DeviceErr>
        requires { secret < SECRETS }
        ensures { Compares secret kept.now shown.now (facts self.old) (facts self.new) result };

    /// The invariant of every board.
    ghost is_board: { (board : Self) → IsBoard (facts board) };
}

/// A board whose power can be switched. Its words stay.
pub trait Socket: Board {
    /// Switches power on. If a count is at its end, nothing changes.
    fn light(&mut self) -> Result<(), WornOut>
        ensures worn { IsErr result ↔ IsWornOut (Self.facts self.old) }
        ensures lit { OnOk result (Self.facts self.new ≡ record (Self.facts self.old) { dark = false }) }
        ensures same { OnErr result (Self.facts self.new ≡ Self.facts self.old) };

    /// Switches power off.
    fn power_off(&mut self)
        ensures { Self.facts self.new ≡ record (Self.facts self.old) { dark = true } };
}

/// A board on which a cut or a fault can be set. It comes at a later write. On a board that fails at its calls, it is
/// a fault at call `k` that changes no word, whatever the mask. On a board whose facts don't have `masks`, the cut may
/// leave other words than those of its mask.
pub trait Armed: Socket {
    /// Sets write `k` from now on, counted from 1, to be torn. Bit i of the mask is set if the ith word of the write
    /// is to be new, from bit 0. It replaces what was set before.
    fn arm(&mut self, k: u32, mask: u16)
        requires { 1 ≤ k }
        ensures { Arms k mask (Self.facts self.old) (Self.facts self.new) };
}

/// A board without faults. It loses power only at a cut that is set on it, or if a count is at its end.
pub trait Faultless: Board {
    /// No fault is counted. A cut is due if and only if one is set.
    ghost faultless: { (board : Self) → HasNoFault (Self.facts board) };
}

/// Proves that no fault is counted. A cut is due if and only if one is set.
pub fn has_no_fault<B: Faultless>(board: &B)
    ensures { HasNoFault (B.facts board.now) }
{
    // Only the law of the board is needed.
    let _ = board;
}
