//! A board on a flash that loses power at a chosen write.
ghost use Rattle.std.specs.Prelude.{◌≡◌, ◌≤◌, ◌+◌, ◌-◌, ◌%◌, ◌⊎◌, ℕ, None, Some, Option, is_some, IsErrOf, IfOk};
ghost use Rattle.std.specs.Prelude.{true, false};
ghost use Rattle.nvm_board.specs.declared.board.DeviceErr.TheVariants.{PowerLost};
ghost use Rattle.nvm_board.specs.Facts.{address};
ghost use Rattle.nvm_board.specs.BoardCalls.{FitsPage, Writes};

use crate::arming::{arm_at, nearer};
use crate::cut_socket::{CutSocket, FollowedSocket};
use crate::followed::Followed;
use nvm_board::{Arm, Armed, Board, DeviceErr, Faultless, Socket, WornOut};
use std::alloc::AllocError;

/// A board on a flash, on which a write can be set to lose power. Bit 0 of the mask says whether the words of this
/// write are new. If it is clear, the other bits say how many operations of the write come before the one that loses
/// power. The flash decides what that leaves. The arm survives power-ons until it fires.
#[derive(Drop)]
pub struct CutFlashBoard<B: CutSocket> {
    board: B,
    arm: Option<Arm>,
    ghost uncut: { (B.facts board).due ≡ 0 },
    ghost unfailed: { (B.facts board).faults ≡ 0 },
}

/// Sets the operation of the next write that loses power, if a mask names one.
fn set_operation<B: CutSocket>(board: &mut B, mask: u16)
    requires { (B.facts board.old).due ≡ 0 }
    ensures same { B.facts board.new ≡ record (B.facts board.old) { due = (B.facts board.new).due } }
    ensures none { mask % 2 ≡ 1 → B.facts board.new ≡ B.facts board.old }
    ensures set { mask % 2 ≡ 0 → (B.facts board.new).due ≡ 1 }
{
    if mask & 1 == 0 {
        board.set_cut(1 + u32::from(mask >> 1));
    }
}

impl<B: CutSocket> CutFlashBoard<B> {
    ghost use Rattle.simulated_boards.specs.CutFlashFacts.{cut_flash_facts};

    /// Returns the board of a flash without a cut set.
    pub fn new(board: B) -> CutFlashBoard<B>
        requires { (B.facts board).due ≡ 0 }
        ensures facts { cut_flash_facts B.facts result ≡ B.facts board }
        ensures board { result.board ≡ board }
    {
        board.has_no_fault();
        CutFlashBoard { board, arm: None }
    }

    /// Gives the board back that no write is set to lose power on.
    pub fn into_board(self) -> B
        ensures facts { B.facts result ≡ record (cut_flash_facts B.facts self) { due = 0; pending = None } }
        ensures board { result ≡ self.board }
    {
        self.board
    }

    /// Writes, and loses power in the write or behind it.
    #[inline(never)]
    fn write_cut(&mut self, page: u16, first: u8, words: &[u32], mask: u16) -> Result<(), DeviceErr>
        requires run { FitsPage page first words.now (cut_flash_facts B.facts self.old) }
        requires lit { (cut_flash_facts B.facts self.old).dark ≡ false }
        requires fires { self.old.arm ≡ Some record { whole_writes = 0; mask = mask } }
        ensures writes { Writes (address page first) words.now (cut_flash_facts B.facts self.old)
            (cut_flash_facts B.facts self.new) result }
        ensures lost { IsErrOf result PowerLost }
    {
        self.arm = None;
        set_operation(&mut self.board, mask);
        let ended = self.board.write(page, first, words);
        self.board.clear_cut();
        self.board.has_no_fault();
        if ended.is_ok() {
            self.board.lose_power();
        }
        Err(DeviceErr::PowerLost)
    }

    /// Writes on a board without power, or before the write that loses it.
    fn write_whole(&mut self, page: u16, first: u8, words: &[u32]) -> Result<(), DeviceErr>
        requires run { FitsPage page first words.now (cut_flash_facts B.facts self.old) }
        requires spared { (mask : ℕ) → (cut_flash_facts B.facts self.old).dark ≡ false
            → ¬ (self.old.arm ≡ Some record { whole_writes = 0; mask = mask }) }
        ensures { Writes (address page first) words.now (cut_flash_facts B.facts self.old)
            (cut_flash_facts B.facts self.new) result }
    {
        let before = self.board.write_count();
        let ended = self.board.write(page, first, words);
        self.board.has_no_fault();
        // The arm counts what the board counts.
        if self.board.write_count() > before {
            self.arm = nearer(self.arm);
        }
        ended
    }
}

impl<B: CutSocket> Board for CutFlashBoard<B> {
    ghost use Rattle.simulated_boards.specs.CutFlashFacts.{cut_flash_facts};
    ghost use Rattle.simulated_boards.specs.laws.CutBoards.{cut_flash_is_board};

    ghost facts = { cut_flash_facts B.facts };

    fn pages(&self) -> u16 {
        self.board.pages()
    }

    #[tactic(auto, unfolding(nvm_board::specs::Facts::IsLostRightly))]
    fn read(&mut self, at: u16) -> Result<u32, DeviceErr> {
        let board = &mut self.board;
        let ended = board.read(at);
        board.has_no_fault();
        ended
    }

    #[tactic(auto, unfolding(nvm_board::specs::Facts::IsLostRightly))]
    fn write(&mut self, page: u16, first: u8, words: &[u32]) -> Result<(), DeviceErr> {
        match self.arm {
            Some(arm) if arm.whole_writes == 0 && !self.board.is_dark() => {
                self.write_cut(page, first, words, arm.mask)
            }
            _ => self.write_whole(page, first, words),
        }
    }

    #[tactic(auto, unfolding(nvm_board::specs::Facts::IsLostRightly))]
    fn compare(&mut self, secret: u8, kept: &[u8; 8], shown: &[u8; 8]) -> Result<bool, DeviceErr> {
        let board = &mut self.board;
        let ended = board.compare(secret, kept, shown);
        board.has_no_fault();
        ended
    }

    ghost is_board = { cut_flash_is_board B.facts B.is_board };
}

impl<B: CutSocket> Socket for CutFlashBoard<B> {
    fn light(&mut self) -> Result<(), WornOut> {
        self.board.light()
    }

    fn power_off(&mut self) {
        self.board.power_off();
    }
}

impl<B: CutSocket> Armed for CutFlashBoard<B> {
    fn arm(&mut self, k: u32, mask: u16) {
        self.arm = Some(arm_at(k, mask));
    }
}

impl<B: CutSocket> Faultless for CutFlashBoard<B> {
    ghost use Rattle.std.specs.Prelude.{refl};

    ghost faultless = { λ b. record { faults = b.unfailed; due = refl } };
}

// The follower gets the words of the flash, and not those of the board. So a second board can't run a charge first: if
// a move is in it, the second run would first erase the area in which the follower has its pages by then.
impl<B: FollowedSocket + Drop> Followed for CutFlashBoard<B> {
    ghost has_kept = { λ b. B.is_kept b.board };

    ghost has_follower = { λ b. false };

    ghost can_copy = { false };

    fn follows(&self) -> bool {
        self.board.is_kept()
    }

    fn is_followed(&self) -> bool {
        false
    }

    fn pending_cut(&self) -> Option<Arm> {
        self.arm
    }

    fn unfollowed_copy(&self) -> Result<CutFlashBoard<B>, AllocError> {
        Err(AllocError)
    }

    // No board of this kind is copied.
    fn copy_from(&mut self, _: &CutFlashBoard<B>) {}
}
