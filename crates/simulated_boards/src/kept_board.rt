//! A board in working memory, and a follower that has its words too.
ghost use Rattle.std.specs.Prelude.{◌≡◌, ◌+◌, ◌%◌, ◌≤◌, ◌<◌, length};
ghost use Rattle.simulated_boards.specs.Cut.{cut_facts};
ghost use Rattle.nvm_board.specs.declared.board.TheConstants.{PAGE_WORDS};

use crate::cut_board::CutBoard;
use crate::followed::Followed;
use crate::follower::Follower;
use nvm_board::{Arm, Armed, Board, DeviceErr, Faultless, PAGE_WORDS, Socket, WornOut};
use std::alloc::{AllocError, Global};

/// A board in working memory that can be cut, and its follower, if it has one. The board hands the words of each device
/// write to its follower, once, in order, as the write left them, also if it was torn. A follower that fails changes
/// nothing of the board, and gets nothing more.
#[derive(Drop)]
pub struct KeptBoard<F: Follower> {
    cut: CutBoard,
    follower: Option<F>,
    follows: bool,
}

impl<F: Follower> KeptBoard<F> {
    ghost use Rattle.std.specs.Prelude.{true, false, is_some, IfOk, None};
    ghost use Rattle.nvm_board.specs.BoardCalls.{FitsPage, Writes};
    ghost use Rattle.nvm_board.specs.Facts.{address};
    ghost use Rattle.nvm_board.specs.History.{and_run, run_in};
    ghost use Rattle.simulated_boards.specs.Cut.{WritesOrTears};
    ghost use Rattle.simulated_boards.specs.Handed.{HandsOn, log_of};
    ghost use Rattle.simulated_boards.specs.Kept.{follower_state, kept_facts, kept_log, kept_words};

    /// The board, and a follower that has its words already, or none.
    pub fn new(cut: CutBoard, follower: Option<F>) -> KeptBoard<F>
        ensures facts { kept_facts F.log result ≡ record (cut_facts cut) { log = log_of F.log follower } }
        ensures follower { result.follower ≡ follower }
        ensures follows { result.follows ≡ true }
    {
        KeptBoard {
            cut,
            follower,
            follows: true,
        }
    }

    /// Returns a second board in the same state, which nothing follows.
    ///
    /// # Errors
    /// There is too little memory for the words.
    pub fn unfollowed_twin(&self, alloc: Global) -> Result<CutBoard, AllocError>
        ensures { IfOk result (λ twin. cut_facts twin ≡ record (kept_facts F.log self.now) { log = None }) }
    {
        self.cut.copy(alloc)
    }

    /// The board by itself, and its follower.
    pub fn into_parts(self) -> (CutBoard, Option<F>)
        ensures cut { cut_facts result.0 ≡ record (kept_facts F.log self) { log = None } }
        ensures follower { result.1 ≡ self.follower }
    {
        let KeptBoard {
            cut: board,
            follower: own,
            follows: _,
        } = self;
        (board, own)
    }

    /// The words, with power on or off.
    pub fn words(&self) -> &[u32]
        ensures { result.now ≡ kept_words self.now }
    {
        self.cut.words()
    }

    /// Returns the follower, if there is one.
    pub fn follower(&self) -> &Option<F>
        ensures { result.now ≡ self.now.follower }
    {
        &self.follower
    }

    /// Returns true if a cut is to come.
    pub fn pending(&self) -> bool
        ensures { result ≡ is_some (kept_facts F.log self.now).pending }
    {
        self.cut.pending()
    }

    /// Returns the cut that is to come, if there is one.
    pub fn arm_pending(&self) -> Option<Arm>
        ensures { result ≡ (kept_facts F.log self.now).pending }
    {
        self.cut.arm_pending()
    }

    /// Takes back the cut that is set, if there is one.
    pub fn disarm(&mut self)
        ensures facts { kept_facts F.log self.new
            ≡ record (kept_facts F.log self.old) { due = 0; pending = None } }
        ensures follower { follower_state self.new ≡ follower_state self.old }
    {
        self.cut.disarm();
    }

    /// Writes, and hands the words to the follower. This is a function of its own, so that a write without a follower,
    /// the usual case, doesn't pay for it.
    #[inline(never)]
    fn write_followed(&mut self, page: u16, first: u8, words: &[u32]) -> Result<(), DeviceErr>
        requires { FitsPage page first words.now (kept_facts F.log self.old) }
        ensures writes { Writes (address page first) words.now (kept_facts F.log self.old)
            (kept_facts F.log self.new) result }
        ensures cut { WritesOrTears (address page first) words.now self.old.cut self.new.cut result }
        ensures handed { (cut_facts self.old.cut).dark ≡ false → HandsOn F.log F.behind
            (run_in (kept_words self.new) (address page first) (length words.now))
            (follower_state self.old) (follower_state self.new) }
        ensures off { (cut_facts self.old.cut).dark ≡ true → follower_state self.new ≡ follower_state self.old }
    {
        if self.cut.is_dark() {
            return self.cut.write(page, first, words);
        }
        let result = self.cut.write(page, first, words);
        let at = usize::from(PAGE_WORDS) * usize::from(page) + usize::from(first);
        self.hand_on(at, words.len());
        result
    }

    /// Hands the words of a write to the follower.
    fn hand_on(&mut self, at: usize, size: usize)
        requires some { 0 < size }
        requires page { at % PAGE_WORDS + size ≤ PAGE_WORDS }
        requires within { at + size ≤ length (cut_facts self.old.cut).words }
        ensures cut { self.new.cut ≡ self.old.cut }
        ensures handed { HandsOn F.log F.behind (run_in (kept_words self.old) at size)
            (follower_state self.old) (follower_state self.new) }
        ensures logged { kept_log F.log self.new
            ≡ and_run (kept_log F.log self.old) (run_in (kept_words self.old) at size) }
    {
        if !self.follows {
            return;
        }
        if let Some(follower) = &mut self.follower {
            self.follows = follower.take(at, &self.cut.words()[at..at + size]);
        }
    }
}

impl<F: Follower> Board for KeptBoard<F> {
    ghost use Rattle.std.specs.Prelude.{◌≡◌, ◌<◌, true, false, length};
    ghost use Rattle.nvm_board.specs.declared.board.TheConstants.{SECRETS};
    ghost use Rattle.nvm_board.specs.BoardCalls.{TellsWord, FitsPage, Writes, Compares};
    ghost use Rattle.nvm_board.specs.Facts.{address};
    ghost use Rattle.nvm_board.specs.History.{run_in};
    ghost use Rattle.simulated_boards.specs.Cut.{cut_facts, WritesOrTears};
    ghost use Rattle.simulated_boards.specs.Handed.{HandsOn};
    ghost use Rattle.simulated_boards.specs.Kept.{follower_state, kept_facts, kept_words};
    ghost use Rattle.simulated_boards.specs.laws.Logging.{kept_is_board};

    ghost facts = { kept_facts F.log };

    fn pages(&self) -> u16 {
        self.cut.pages()
    }

    fn read(&mut self, at: u16) -> Result<u32, DeviceErr>
        requires { at < length (kept_words self.old) }
        ensures tells { TellsWord at (kept_facts F.log self.old) (kept_facts F.log self.new) result }
        ensures follower { follower_state self.new ≡ follower_state self.old }
    {
        self.cut.read(at)
    }

    // Inlined, so that a write of a known number of words needs no loop. A call takes 25 instructions, and 4 a word.
    #[inline(always)]
    fn write(&mut self, page: u16, first: u8, words: &[u32]) -> Result<(), DeviceErr>
        requires { FitsPage page first words.now (kept_facts F.log self.old) }
        ensures writes { Writes (address page first) words.now (kept_facts F.log self.old)
            (kept_facts F.log self.new) result }
        ensures cut { WritesOrTears (address page first) words.now self.old.cut self.new.cut result }
        ensures handed { (cut_facts self.old.cut).dark ≡ false → HandsOn F.log F.behind
            (run_in (kept_words self.new) (address page first) (length words.now))
            (follower_state self.old) (follower_state self.new) }

        // Nothing is written without power.
        ensures off { (cut_facts self.old.cut).dark ≡ true → follower_state self.new ≡ follower_state self.old }
    {
        match self.follower {
            None => self.cut.write(page, first, words),
            Some(_) => self.write_followed(page, first, words),
        }
    }

    fn compare(&mut self, secret: u8, kept: &[u8; 8], shown: &[u8; 8]) -> Result<bool, DeviceErr>
        requires { secret < SECRETS }
        ensures compares { Compares secret kept.now shown.now (kept_facts F.log self.old)
            (kept_facts F.log self.new) result }
        ensures follower { follower_state self.new ≡ follower_state self.old }
    {
        self.cut.compare(secret, kept, shown)
    }

    ghost is_board = { kept_is_board F.log };
}

impl<F: Follower> Socket for KeptBoard<F> {
    ghost use Rattle.std.specs.Prelude.{◌↔◌, IsErr, OnErr, OnOk, true, false};
    ghost use Rattle.nvm_board.specs.Facts.{IsWornOut};
    ghost use Rattle.simulated_boards.specs.Kept.{follower_state, kept_facts};

    fn light(&mut self) -> Result<(), WornOut>
        ensures worn { IsErr result ↔ IsWornOut (kept_facts F.log self.old) }
        ensures lit { OnOk result (kept_facts F.log self.new ≡ record (kept_facts F.log self.old) { dark = false }) }
        ensures same { OnErr result (kept_facts F.log self.new ≡ kept_facts F.log self.old) }
        ensures follower { follower_state self.new ≡ follower_state self.old }
    {
        self.cut.light()
    }

    fn power_off(&mut self)
        ensures facts { kept_facts F.log self.new ≡ record (kept_facts F.log self.old) { dark = true } }
        ensures follower { follower_state self.new ≡ follower_state self.old }
    {
        self.cut.power_off();
    }
}

impl<F: Follower> Armed for KeptBoard<F> {
    ghost use Rattle.nvm_board.specs.BoardCalls.{Arms};
    ghost use Rattle.simulated_boards.specs.Kept.{follower_state, kept_facts};

    fn arm(&mut self, k: u32, mask: u16)
        requires { 1 ≤ k }
        ensures arms { Arms k mask (kept_facts F.log self.old) (kept_facts F.log self.new) }
        ensures follower { follower_state self.new ≡ follower_state self.old }
    {
        self.cut.arm(k, mask);
    }
}

impl<F: Follower> Faultless for KeptBoard<F> {
    ghost use Rattle.std.specs.Prelude.{refl};

    ghost faultless = { λ b. record { faults = refl; due = refl } };
}

impl<F: Follower + Drop> Followed for KeptBoard<F> {
    ghost use Rattle.std.specs.Prelude.{◌&&◌, is_some, true};

    ghost has_kept = { λ b. b.follows };

    ghost has_follower = { λ b. b.follows && is_some b.follower };

    ghost can_copy = { true };

    fn follows(&self) -> bool {
        self.follows
    }

    fn is_followed(&self) -> bool {
        self.follows && self.follower.is_some()
    }

    fn pending_cut(&self) -> Option<Arm> {
        self.cut.arm_pending()
    }

    fn unfollowed_copy(&self) -> Result<KeptBoard<F>, AllocError> {
        let second = self.cut.copy(self.cut.allocator())?;
        Ok(KeptBoard {
            cut: second,
            follower: None,
            follows: self.follows && !self.is_followed(),
        })
    }

    fn copy_from(&mut self, other: &KeptBoard<F>) {
        self.cut.copy_from(&other.cut);
    }
}
