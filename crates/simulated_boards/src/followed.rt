//! Boards whose words something outside may follow.
ghost use Rattle.std.specs.Prelude.{◌≡◌, ◌&&◌, Bool, true, false, not, length, None, IfOk};

use crate::cut_board::CutBoard;
use nvm_board::{Arm, Board};
use std::alloc::AllocError;

/// A board whose words something outside, such as a file, may follow.
pub trait Followed: Board {
    /// True if the follower has all writes up to now, or if there was never one.
    ghost has_kept: { Self → Bool };

    /// True if there is a follower that has all writes up to now.
    ghost has_follower: { Self → Bool };

    /// True if boards of this kind can be copied.
    ghost can_copy: { Bool };

    /// Returns true if the follower has all writes up to now, or if there was never one.
    fn follows(&self) -> bool
        ensures { result ≡ has_kept self.now };

    /// Returns true if there is a follower that has all writes up to now. Else the board has no log.
    fn is_followed(&self) -> bool
        ensures followed { result ≡ has_follower self.now }
        ensures unlogged { result ≡ false → (Self.facts self.now).log ≡ None };

    /// Returns the cut that is to come, if there is one.
    fn pending_cut(&self) -> Option<Arm>
        ensures { result ≡ (Self.facts self.now).pending };

    /// Returns a second board in the same state, which nothing follows. If something follows this board, or did until
    /// it failed, the copy lacks its writes: else code that asks a copy could answer for a follower that fell behind.
    ///
    /// # Errors
    /// There is too little memory for the words, or boards of this kind can't be copied.
    fn unfollowed_copy(&self) -> Result<Self, AllocError>
        ensures copies { IfOk result (λ copy. can_copy ≡ true) }
        ensures facts { IfOk result (λ copy. Self.facts copy ≡ record (Self.facts self.now) { log = None }) }
        ensures kept { IfOk result (λ copy. has_kept copy ≡ (has_kept self.now && not (has_follower self.now))) };

    /// Takes the state of another board with as many pages, but its follower, if boards of this kind can be copied. It
    /// asks for no memory, and hands nothing to its own follower, which stays.
    fn copy_from(&mut self, other: &Self)
        requires pages { length (Self.facts self.old).words ≡ length (Self.facts other.now).words }
        ensures facts { can_copy ≡ true → Self.facts self.new
            ≡ record (Self.facts other.now) { log = (Self.facts self.old).log } }
        ensures kept { has_kept self.new ≡ has_kept self.old }
        ensures follower { has_follower self.new ≡ has_follower self.old };
}

// Nothing follows it, so nothing falls behind.
impl Followed for CutBoard {
    ghost has_kept = { λ b. true };

    ghost has_follower = { λ b. false };

    ghost can_copy = { true };

    fn follows(&self) -> bool {
        true
    }

    fn is_followed(&self) -> bool {
        false
    }

    fn pending_cut(&self) -> Option<Arm> {
        self.arm_pending()
    }

    fn unfollowed_copy(&self) -> Result<CutBoard, AllocError> {
        self.copy(self.allocator())
    }

    fn copy_from(&mut self, other: &CutBoard) {
        CutBoard::copy_from(self, other);
    }
}
