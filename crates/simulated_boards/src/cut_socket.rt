//! Boards on a flash that can be set to lose power.
ghost use Rattle.std.specs.Prelude.{◌≡◌, ◌≤◌, ◌+◌, Bool, true, false, None};

use nvm_board::{Board, Socket};

/// A board on a flash that can be set to lose power at a program or erase. It loses power in no other way, unless a
/// count is at its end, and never fails.
pub trait CutSocket: Board + Socket {
    /// Returns true if power is off.
    fn is_dark(&self) -> bool
        ensures { result ≡ (Self.facts self.now).dark };

    /// Returns the number of writes that were counted.
    fn write_count(&self) -> u64
        ensures { result ≡ (Self.facts self.now).writes };

    /// Sets program or erase `k` of the flash from now on, counted from 1, to lose power.
    fn set_cut(&mut self, k: u32)
        requires { 1 ≤ k }
        ensures { Self.facts self.new ≡ record (Self.facts self.old) { due = 1 } };

    /// Takes back the power loss that is set, if there is one.
    fn clear_cut(&mut self)
        ensures { Self.facts self.new ≡ record (Self.facts self.old) { due = 0 } };

    /// Loses power behind a write, which stays whole.
    fn lose_power(&mut self)
        requires { (Self.facts self.old).dark ≡ false }
        ensures { Self.facts self.new
            ≡ record (Self.facts self.old) { dark = true; cuts = (Self.facts self.old).cuts + 1 } };

    /// Proves that the board counted no fault.
    fn has_no_fault(&self)
        ensures { (Self.facts self.now).faults ≡ 0 };

    /// No board of this kind has an arm of its own.
    ghost unarmed: { (board : Self) → (Self.facts board).pending ≡ None };

    /// The words that a power loss leaves of a write aren't those of a mask.
    ghost unmasked: { (board : Self) → (Self.facts board).masks ≡ false };

    /// The board has no log of its writes.
    ghost unlogged: { (board : Self) → (Self.facts board).log ≡ None };
}

/// A board on a flash that something outside may follow, as a file does.
pub trait FollowedSocket: CutSocket {
    /// True if the follower has all operations of the flash up to now, or if there was never one.
    ghost is_kept: { Self → Bool };

    /// Returns true if the follower has all operations of the flash up to now, or if there was never one.
    fn is_kept(&self) -> bool
        ensures { result ≡ is_kept self.now };
}
