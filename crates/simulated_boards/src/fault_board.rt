//! A board in working memory that fails once, at a chosen call or write.
ghost use Rattle.std.specs.Prelude.{◌≡◌, ◌<◌, ◌≤◌, false, IfOk};
ghost use Rattle.nvm_board.specs.declared.board.TheConstants.{COUNT_END, LEAST_PAGES, MOST_PAGES};

use crate::arming::{arm_at, firing, nearer};
use crate::ram_board::RamBoard;
use nvm_board::{Arm, Armed, Board, COUNT_END, DeviceErr, LEAST_PAGES, Socket, WornOut};
use std::alloc::{AllocError, Global};

/// The events that an arm counts until its fault comes.
#[derive(Clone, Copy, Debug, PartialEq, Eq)]
pub enum Counted {
    /// Each read, write and comparison.
    Calls,
    /// Each write.
    Writes,
}

/// A board in working memory on which one call can fail. It works on afterwards. The arm survives power-ons until the
/// fault comes.
#[derive(Drop)]
pub struct FaultBoard {
    ram: RamBoard,
    arm: Option<Arm>,
    /// The events that the present arm counts.
    counted: Counted,
    /// The events that an arm set by `Armed::arm` counts.
    armed_by: Counted,
    faults: u64,
    ghost faults_fit: { faults ≤ COUNT_END },
}

impl FaultBoard {
    ghost use Rattle.std.specs.Prelude.{◌+◌, ℕ, length, Some, None, is_some};
    ghost use Rattle.nvm_board.specs.declared.board.TheConstants.{PAGE_WORDS};
    ghost use Rattle.simulated_boards.specs.declared.fault_board.Counted.TheVariants.{Calls, Writes};
    ghost use Rattle.nvm_board.specs.Facts.{address, pages_of};
    ghost use Rattle.simulated_boards.specs.Faulty.{fault_facts, counting, IsNewFaultBoard, SetsFault, IsFaulty};
    ghost use Rattle.simulated_boards.specs.Faulty.{LeavesRun};

    /// Returns a powered board of 1,024 pages without a fault set. All its words and counts are 0. `Armed::arm` sets
    /// a fault at a call, whatever the mask.
    ///
    /// # Errors
    /// There is too little memory for the words.
    pub fn on_calls(alloc: Global) -> Result<FaultBoard, AllocError>
        ensures { IfOk result (IsNewFaultBoard LEAST_PAGES Calls) }
    {
        FaultBoard::with_pages(alloc, LEAST_PAGES, Counted::Calls)
    }

    /// Returns such a board that fails at writes. `Armed::arm` sets a fault at a write, torn by the mask.
    ///
    /// # Errors
    /// There is too little memory for the words.
    pub fn on_writes(alloc: Global) -> Result<FaultBoard, AllocError>
        ensures { IfOk result (IsNewFaultBoard LEAST_PAGES Writes) }
    {
        FaultBoard::with_pages(alloc, LEAST_PAGES, Counted::Writes)
    }

    /// Returns a new board of either kind with this number of pages.
    ///
    /// # Errors
    /// There is too little memory for the words.
    pub fn with_pages(alloc: Global, pages: u16, counted: Counted) -> Result<FaultBoard, AllocError>
        requires least { LEAST_PAGES ≤ pages }
        requires most { pages ≤ MOST_PAGES }
        ensures { IfOk result (IsNewFaultBoard pages counted) }
    {
        Ok(FaultBoard {
            ram: RamBoard::with_pages(alloc, pages)?,
            arm: None,
            counted,
            armed_by: counted,
            faults: 0,
        })
    }

    /// Returns a second board with the same words, power, counts and fault.
    ///
    /// # Errors
    /// There is too little memory for the words.
    pub fn copy(&self, alloc: Global) -> Result<FaultBoard, AllocError>
        ensures facts { IfOk result (λ b. fault_facts b ≡ fault_facts self.now) }
        ensures counts { IfOk result (λ b. counting b ≡ counting self.now) }
    {
        Ok(FaultBoard {
            ram: self.ram.copy(alloc)?,
            arm: self.arm,
            counted: self.counted,
            armed_by: self.armed_by,
            faults: self.faults,
        })
    }

    /// Returns true if a fault is set.
    pub fn pending(&self) -> bool
        ensures { result ≡ is_some (fault_facts self.now).pending }
    {
        self.arm.is_some()
    }

    /// Sets a fault at call `k` from now on, counted from 1. A call is a read, a write or a comparison. The failing
    /// call changes no word. It replaces what was set before.
    pub fn arm_call(&mut self, k: u32)
        requires { 1 ≤ k }
        ensures { SetsFault Calls k 0 self.old self.new }
    {
        self.set(Counted::Calls, k, 0);
    }

    /// Sets a fault at write `k` from now on, counted from 1. The mask tears that write. It replaces what was set
    /// before.
    pub fn arm_write(&mut self, k: u32, mask: u16)
        requires { 1 ≤ k }
        ensures { SetsFault Writes k mask self.old self.new }
    {
        self.set(Counted::Writes, k, mask);
    }

    /// Sets a fault.
    fn set(&mut self, counted: Counted, k: u32, mask: u16)
        requires { 1 ≤ k }
        ensures { SetsFault counted k mask self.old self.new }
    {
        self.arm = Some(arm_at(k, mask));
        self.counted = counted;
    }

    /// Returns the arm that a read or a comparison brings nearer.
    fn call_arm(&self) -> Option<Arm>
        ensures calls { self.now.counted ≡ Calls → result ≡ self.now.arm }
        ensures writes { self.now.counted ≡ Writes → result ≡ None }
    {
        match self.counted {
            Counted::Calls => self.arm,
            Counted::Writes => None,
        }
    }

    /// Brings the fault nearer after a read or a comparison.
    fn pass_call(&mut self)
        ensures none { self.old.arm ≡ None → self.new.arm ≡ None }
        ensures before { (left mask : ℕ) → self.old.counted ≡ Calls
            → self.old.arm ≡ Some record { whole_writes = left + 1; mask = mask }
            → self.new.arm ≡ Some record { whole_writes = left; mask = mask } }
        ensures writes { self.old.counted ≡ Writes → self.new.arm ≡ self.old.arm }
        ensures same { fault_facts self.new ≡ record (fault_facts self.old) { pending = self.new.arm } }
        ensures counts { counting self.new ≡ counting self.old }
    {
        if self.counted == Counted::Calls {
            self.arm = nearer(self.arm);
        }
    }

    /// Leaves the run of a failing write old or torn.
    fn leave(&mut self, page: u16, first: u8, words: &[u32], mask: u16)
        requires page { page < pages_of (fault_facts self.old).words }
        requires run { first + length words.now ≤ PAGE_WORDS }
        ensures left { LeavesRun self.old.counted mask (address page first) words.now (fault_facts self.old).words
            (fault_facts self.new).words }
        ensures same { fault_facts self.new ≡ record (fault_facts self.old) { words = (fault_facts self.new).words } }
        ensures counts { counting self.new ≡ counting self.old }
    {
        match self.counted {
            Counted::Calls => {}
            Counted::Writes => self.ram.put_torn(page, first, words, mask),
        }
    }

    /// Fails in a call. It counts the fault, or loses power if the count is at its end.
    fn fail(&mut self) -> DeviceErr
        requires { (fault_facts self.old).dark ≡ false }
        ensures failed { IsFaulty (fault_facts self.old) (fault_facts self.new) result }
        ensures words { (fault_facts self.new).words ≡ (fault_facts self.old).words }
        ensures counts { counting self.new ≡ counting self.old }
    {
        self.arm = None;
        if self.faults == COUNT_END {
            self.ram.go_dark();
            return DeviceErr::PowerLost;
        }
        self.faults += 1;
        DeviceErr::Fault
    }
}

impl Board for FaultBoard {
    ghost use Rattle.std.specs.Prelude.{length};
    ghost use Rattle.nvm_board.specs.declared.board.TheConstants.{SECRETS};
    ghost use Rattle.nvm_board.specs.BoardCalls.{TellsWord, FitsPage, Writes, Compares};
    ghost use Rattle.nvm_board.specs.Facts.{address};
    ghost use Rattle.simulated_boards.specs.Faulty.{fault_facts, counting, AfterCall, AfterWrite};
    ghost use Rattle.simulated_boards.specs.laws.Counts.{fault_is_board};

    ghost facts = { fault_facts };

    fn pages(&self) -> u16 {
        self.ram.pages()
    }

    #[tactic(auto, unfolding(nvm_board::specs::Facts::IsLostRightly))]
    fn read(&mut self, at: u16) -> Result<u32, DeviceErr>
        requires { at < length (fault_facts self.old).words }
        ensures tells { TellsWord at (fault_facts self.old) (fault_facts self.new) result }
        ensures fault { AfterCall (counting self.old).counted (fault_facts self.old) (fault_facts self.new) result }
        ensures counts { counting self.new ≡ counting self.old }
    {
        if let Some(_) = firing(self.call_arm(), self.ram.is_dark()) {
            return Err(self.fail());
        }
        let word = self.ram.read(at)?;
        self.pass_call();
        Ok(word)
    }

    #[tactic(auto, unfolding(nvm_board::specs::Facts::IsLostRightly))]
    fn write(&mut self, page: u16, first: u8, words: &[u32]) -> Result<(), DeviceErr>
        requires { FitsPage page first words.now (fault_facts self.old) }
        ensures writes { Writes (address page first) words.now (fault_facts self.old) (fault_facts self.new) result }
        ensures fault { AfterWrite (counting self.old).counted (address page first) words.now (fault_facts self.old)
            (fault_facts self.new) result }
        ensures counts { counting self.new ≡ counting self.old }
    {
        if let Some(mask) = firing(self.arm, self.ram.is_dark()) {
            self.leave(page, first, words, mask);
            return Err(self.fail());
        }
        self.ram.write(page, first, words)?;
        self.arm = nearer(self.arm);
        Ok(())
    }

    #[tactic(auto, unfolding(nvm_board::specs::Facts::IsLostRightly))]
    fn compare(&mut self, secret: u8, kept: &[u8; 8], shown: &[u8; 8]) -> Result<bool, DeviceErr>
        requires { secret < SECRETS }
        ensures compares { Compares secret kept.now shown.now (fault_facts self.old) (fault_facts self.new) result }
        ensures fault { AfterCall (counting self.old).counted (fault_facts self.old) (fault_facts self.new) result }
        ensures counts { counting self.new ≡ counting self.old }
    {
        if let Some(_) = firing(self.call_arm(), self.ram.is_dark()) {
            // Nothing is compared, so that nothing is counted.
            return Err(self.fail());
        }
        let equal = self.ram.compare(secret, kept, shown)?;
        self.pass_call();
        Ok(equal)
    }

    ghost is_board = { fault_is_board };
}

impl Socket for FaultBoard {
    ghost use Rattle.std.specs.Prelude.{◌≡◌, ◌↔◌, true, false, IsErr, OnOk, OnErr};
    ghost use Rattle.nvm_board.specs.Facts.{IsWornOut};
    ghost use Rattle.simulated_boards.specs.Faulty.{fault_facts, counting};

    fn light(&mut self) -> Result<(), WornOut>
        ensures worn { IsErr result ↔ IsWornOut (fault_facts self.old) }
        ensures lit { OnOk result (fault_facts self.new ≡ record (fault_facts self.old) { dark = false }) }
        ensures same { OnErr result (fault_facts self.new ≡ fault_facts self.old) }
        ensures counts { counting self.new ≡ counting self.old }
    {
        if self.faults == COUNT_END {
            return Err(WornOut);
        }
        self.ram.light()
    }

    fn power_off(&mut self)
        ensures facts { fault_facts self.new ≡ record (fault_facts self.old) { dark = true } }
        ensures counts { counting self.new ≡ counting self.old }
    {
        self.ram.power_off();
    }
}

impl Armed for FaultBoard {
    ghost use Rattle.std.specs.Prelude.{◌≡◌, ◌≤◌};
    ghost use Rattle.nvm_board.specs.BoardCalls.{Arms};
    ghost use Rattle.simulated_boards.specs.Faulty.{fault_facts, counting};

    fn arm(&mut self, k: u32, mask: u16)
        requires { 1 ≤ k }
        ensures arms { Arms k mask (fault_facts self.old) (fault_facts self.new) }
        ensures due { (fault_facts self.new).due ≡ 0 }
        ensures counts { counting self.new ≡ record (counting self.old) { counted = (counting self.old).armed_by } }
    {
        self.set(self.armed_by, k, mask);
    }
}
