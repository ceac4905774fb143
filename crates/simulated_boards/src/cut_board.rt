//! A board in working memory that loses power at a chosen write.
ghost use Rattle.std.specs.Prelude.{◌≡◌, ◌≤◌, IfOk};
ghost use Rattle.nvm_board.specs.declared.board.TheConstants.{LEAST_PAGES, MOST_PAGES, PAGE_WORDS};

use crate::arming::{arm_at, firing, nearer};
use crate::ram_board::RamBoard;
use nvm_board::{Arm, Armed, Board, DeviceErr, Faultless, LEAST_PAGES, Socket, WornOut};
use std::alloc::{AllocError, Global};

/// A board in working memory on which one write can be torn. Power is lost in that write. The arm survives power-ons
/// until it fires.
#[derive(Drop)]
pub struct CutBoard {
    ram: RamBoard,
    arm: Option<Arm>,
    /// The number of words of the last torn write, 0 before any.
    torn_words: u8,
    ghost torn_fit: { torn_words ≤ PAGE_WORDS },
}

impl CutBoard {
    ghost use Rattle.std.specs.Prelude.{◌≡◌, ◌≤◌, is_some, length, IfOk, IfSome, IsNone, None};
    ghost use Rattle.nvm_board.specs.BoardCalls.{FitsPage};
    ghost use Rattle.simulated_boards.specs.Cut.{cut_facts, last_torn, IsNewCutBoard, WritesOrTears};
    ghost use Rattle.nvm_board.specs.Facts.{IsMemory, address};
    ghost use Rattle.simulated_boards.specs.Given.{board_with};

    /// Returns a powered board of 1,024 pages without a cut set. All its words and counts are 0.
    ///
    /// # Errors
    /// There is too little memory for the words.
    pub fn new(alloc: Global) -> Result<CutBoard, AllocError>
        ensures { IfOk result (IsNewCutBoard LEAST_PAGES) }
    {
        CutBoard::with_pages(alloc, LEAST_PAGES)
    }

    /// Returns such a board with this number of pages.
    ///
    /// # Errors
    /// There is too little memory for the words.
    pub fn with_pages(alloc: Global, pages: u16) -> Result<CutBoard, AllocError>
        requires least { LEAST_PAGES ≤ pages }
        requires most { pages ≤ MOST_PAGES }
        ensures { IfOk result (IsNewCutBoard pages) }
    {
        Ok(CutBoard {
            ram: RamBoard::with_pages(alloc, pages)?,
            arm: None,
            torn_words: 0,
        })
    }

    /// Returns the allocator of the words.
    pub(crate) fn allocator(&self) -> Global {
        self.ram.allocator()
    }

    /// Returns a second board with the same words, power, counts and cut.
    ///
    /// # Errors
    /// There is too little memory for the words.
    pub fn copy(&self, alloc: Global) -> Result<CutBoard, AllocError>
        ensures facts { IfOk result (λ b. cut_facts b ≡ cut_facts self.now) }
        ensures torn { IfOk result (λ b. last_torn b ≡ last_torn self.now) }
    {
        Ok(CutBoard {
            ram: self.ram.copy(alloc)?,
            arm: self.arm,
            torn_words: self.torn_words,
        })
    }

    /// Takes the words, power, counts and cut of another board with as many pages. It asks for no memory.
    pub(crate) fn copy_from(&mut self, other: &CutBoard)
        requires { length (cut_facts self.old).words ≡ length (cut_facts other.now).words }
        ensures facts { cut_facts self.new ≡ cut_facts other.now }
        ensures torn { last_torn self.new ≡ last_torn other.now }
    {
        self.ram.copy_from(&other.ram);
        self.arm = other.arm;
        self.torn_words = other.torn_words;
    }

    /// A lit board with these words, whose counts are 0 and on which no cut is to come.
    /// None if no board has that number of words: 16 a page, 1,024 to 4,096 pages.
    pub fn of_words(words: Vec<u32>) -> Option<CutBoard>
        ensures board { IfSome result (λ b. cut_facts b ≡ board_with words.items) }
        ensures torn { IfSome result (λ b. last_torn b ≡ 0) }
        ensures none { IsNone result → ¬ IsMemory words.items }
    {
        Some(CutBoard {
            ram: RamBoard::of_words(words)?,
            arm: None,
            torn_words: 0,
        })
    }

    /// The words, with power on or off.
    pub fn words(&self) -> &[u32]
        ensures { result.now ≡ (cut_facts self.now).words }
    {
        self.ram.words()
    }

    /// Returns true if power is off.
    pub fn is_dark(&self) -> bool
        ensures { result ≡ (cut_facts self.now).dark }
    {
        self.ram.is_dark()
    }

    /// Whether a cut is to come.
    pub fn pending(&self) -> bool
        ensures { result ≡ is_some (cut_facts self.now).pending }
    {
        self.arm.is_some()
    }

    /// Returns the cut that is to come, if there is one.
    pub fn arm_pending(&self) -> Option<Arm>
        ensures { result ≡ (cut_facts self.now).pending }
    {
        self.arm
    }

    /// Takes back the cut that is set, if there is one.
    pub fn disarm(&mut self)
        ensures facts { cut_facts self.new ≡ record (cut_facts self.old) { due = 0; pending = None } }
        ensures torn { last_torn self.new ≡ last_torn self.old }
    {
        self.arm = None;
    }

    /// Returns the length of the last torn write in words, or 0.
    pub fn torn_words(&self) -> u8
        ensures last { result ≡ last_torn self.now }
        ensures fits { result ≤ PAGE_WORDS }
    {
        self.torn_words
    }

    /// Writes on a board with a cut set. The cut falls into this write, or comes nearer by one. This is a function of
    /// its own, so that a write without a cut, the usual case, doesn't pay for it.
    #[inline(never)]
    #[tactic(auto, unfolding(nvm_board::specs::Facts::IsLostRightly))]
    fn write_armed(&mut self, page: u16, first: u8, words: &[u32]) -> Result<(), DeviceErr>
        requires { FitsPage page first words.now (cut_facts self.old) }
        ensures { WritesOrTears (address page first) words.now self.old self.new result }
    {
        if let Some(mask) = firing(self.arm, self.ram.is_dark()) {
            self.arm = None;
            self.torn_words = words.len() as u8;
            self.ram.tear(page, first, words, mask);
            return Err(DeviceErr::PowerLost);
        }
        self.ram.write(page, first, words)?;
        self.arm = nearer(self.arm);
        Ok(())
    }
}

impl Board for CutBoard {
    ghost use Rattle.std.specs.Prelude.{◌≡◌, ◌<◌, length};
    ghost use Rattle.nvm_board.specs.declared.board.TheConstants.{SECRETS};
    ghost use Rattle.nvm_board.specs.BoardCalls.{TellsWord, FitsPage, Compares};
    ghost use Rattle.nvm_board.specs.Facts.{address};
    ghost use Rattle.simulated_boards.specs.Cut.{cut_facts, last_torn, WritesOrTears};
    ghost use Rattle.simulated_boards.specs.laws.Counts.{cut_is_board};

    ghost facts = { cut_facts };

    fn pages(&self) -> u16 {
        self.ram.pages()
    }

    #[tactic(auto, unfolding(nvm_board::specs::Facts::IsLostRightly))]
    fn read(&mut self, at: u16) -> Result<u32, DeviceErr>
        requires { at < length (cut_facts self.old).words }
        ensures tells { TellsWord at (cut_facts self.old) (cut_facts self.new) result }

        // Only writes bring the cut nearer.
        ensures arm { (cut_facts self.new).pending ≡ (cut_facts self.old).pending }
        ensures torn { last_torn self.new ≡ last_torn self.old }
    {
        self.ram.read(at)
    }

    #[tactic(auto, unfolding(nvm_board::specs::Facts::IsLostRightly))]
    fn write(&mut self, page: u16, first: u8, words: &[u32]) -> Result<(), DeviceErr>
        requires { FitsPage page first words.now (cut_facts self.old) }
        ensures { WritesOrTears (address page first) words.now self.old self.new result }
    {
        match self.arm {
            None => self.ram.write(page, first, words),
            Some(_) => self.write_armed(page, first, words),
        }
    }

    #[tactic(auto, unfolding(nvm_board::specs::Facts::IsLostRightly))]
    fn compare(&mut self, secret: u8, kept: &[u8; 8], shown: &[u8; 8]) -> Result<bool, DeviceErr>
        requires { secret < SECRETS }
        ensures compares { Compares secret kept.now shown.now (cut_facts self.old) (cut_facts self.new) result }

        // Only writes bring the cut nearer.
        ensures arm { (cut_facts self.new).pending ≡ (cut_facts self.old).pending }
        ensures torn { last_torn self.new ≡ last_torn self.old }
    {
        self.ram.compare(secret, kept, shown)
    }

    ghost is_board = { cut_is_board };
}

impl Socket for CutBoard {
    ghost use Rattle.std.specs.Prelude.{◌≡◌, ◌↔◌, true, false, IsErr, OnOk, OnErr};
    ghost use Rattle.nvm_board.specs.Facts.{IsWornOut};
    ghost use Rattle.simulated_boards.specs.Cut.{cut_facts, last_torn};

    fn light(&mut self) -> Result<(), WornOut>
        ensures worn { IsErr result ↔ IsWornOut (cut_facts self.old) }
        ensures lit { OnOk result (cut_facts self.new ≡ record (cut_facts self.old) { dark = false }) }
        ensures same { OnErr result (cut_facts self.new ≡ cut_facts self.old) }
        ensures torn { last_torn self.new ≡ last_torn self.old }
    {
        self.ram.light()
    }

    fn power_off(&mut self)
        ensures facts { cut_facts self.new ≡ record (cut_facts self.old) { dark = true } }
        ensures torn { last_torn self.new ≡ last_torn self.old }
    {
        self.ram.power_off();
    }
}

impl Armed for CutBoard {
    ghost use Rattle.std.specs.Prelude.{◌≡◌, ◌≤◌};
    ghost use Rattle.nvm_board.specs.BoardCalls.{Arms};
    ghost use Rattle.simulated_boards.specs.Cut.{cut_facts, last_torn};

    fn arm(&mut self, k: u32, mask: u16)
        requires { 1 ≤ k }
        ensures arms { Arms k mask (cut_facts self.old) (cut_facts self.new) }
        ensures due { (cut_facts self.new).due ≡ 1 }
        ensures torn { last_torn self.new ≡ last_torn self.old }
    {
        self.arm = Some(arm_at(k, mask));
    }
}

impl Faultless for CutBoard {
    ghost use Rattle.std.specs.Prelude.{refl};

    ghost faultless = { λ b. record { faults = refl; due = refl } };
}
