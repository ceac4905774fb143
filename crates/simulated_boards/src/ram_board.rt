//! A board in working memory, which never fails. It loses power only by call or at the end of a count.
ghost use Rattle.std.specs.Prelude.{◌≡◌, ◌+◌, ◌*◌, ◌<◌, ◌≤◌, ◌↔◌, if◌then◌else◌, true, false, length, IsTrue, All};
ghost use Rattle.std.specs.Prelude.{◌⊎◌, Contains, IfOk, slice_index};
ghost use Rattle.nvm_board.specs.declared.board.TheConstants.{SECRETS, COUNT_END, LEAST_PAGES, MOST_PAGES, PAGE_WORDS};
ghost use Rattle.nvm_board.specs.Facts.{AreWords, address, pages_of};

use crate::runs::{put_masked, put_run};
use nvm_board::{
    Board, COUNT_END, DeviceErr, Faultless, LEAST_PAGES, MOST_PAGES, PAGE_WORDS, SECRETS, Socket,
    WornOut,
};
use std::alloc::{AllocError, Global};

/// A board in working memory. Dropping it loses its words.
#[derive(Drop)]
pub struct RamBoard {
    pages: u16,
    words: Vec<u32>,
    dark: bool,
    cuts: u64,
    writes: u64,
    compares: [u64; SECRETS as usize],
    matches: [u64; SECRETS as usize],
    ghost sized: { length words.items ≡ PAGE_WORDS * pages },
    ghost least: { LEAST_PAGES ≤ pages },
    ghost most: { pages ≤ MOST_PAGES },
    ghost words_fit: { AreWords words.items },
    ghost compares_counted: { length compares ≡ SECRETS },
    ghost matches_counted: { length matches ≡ SECRETS },
    ghost cuts_fit: { cuts ≤ COUNT_END },
    ghost writes_fit: { writes ≤ COUNT_END },
    ghost compares_fit: { All (λ n. n ≤ COUNT_END) compares },
    ghost matches_fit: { All (λ n. n ≤ COUNT_END) matches },
    ghost may_go: { dark ≡ false → cuts < COUNT_END },
}

impl RamBoard {
    ghost use Rattle.std.specs.Prelude.{IfSome, IsNone};
    ghost use Rattle.nvm_board.specs.Facts.{IsMemory, IsWorn, IsWornOut, new_board, raised};
    ghost use Rattle.simulated_boards.specs.Given.{board_with};
    ghost use Rattle.simulated_boards.specs.Ram.{ram_facts};
    ghost use Rattle.nvm_board.specs.Torn.{IsTornBy};

    /// Returns a powered board of 1,024 pages. All its words and counts are 0.
    ///
    /// # Errors
    /// There is too little memory for the words.
    pub fn new(alloc: Global) -> Result<RamBoard, AllocError>
        ensures { IfOk result (λ b. ram_facts b ≡ new_board LEAST_PAGES) }
    {
        RamBoard::with_pages(alloc, LEAST_PAGES)
    }

    /// Returns such a board with this number of pages.
    ///
    /// # Errors
    /// There is too little memory for the words.
    pub fn with_pages(alloc: Global, pages: u16) -> Result<RamBoard, AllocError>
        requires least { LEAST_PAGES ≤ pages }
        requires most { pages ≤ MOST_PAGES }
        ensures { IfOk result (λ b. ram_facts b ≡ new_board pages) }
    {
        Ok(RamBoard {
            pages,
            words: vec![in alloc; 0u32; usize::from(PAGE_WORDS) * usize::from(pages)]?,
            dark: false,
            cuts: 0,
            writes: 0,
            compares: [0; SECRETS as usize],
            matches: [0; SECRETS as usize],
        })
    }

    /// A lit board with these words, whose counts are 0. None if no board has that number of words.
    pub(crate) fn of_words(words: Vec<u32>) -> Option<RamBoard>
        ensures board { IfSome result (λ b. ram_facts b ≡ board_with words.items) }
        ensures none { IsNone result → ¬ IsMemory words.items }
    {
        let pages = words.len() / usize::from(PAGE_WORDS);
        if words.len() % usize::from(PAGE_WORDS) != 0
            || pages < usize::from(LEAST_PAGES)
            || usize::from(MOST_PAGES) < pages
        {
            return None;
        }
        Some(RamBoard {
            pages: pages as u16,
            words,
            dark: false,
            cuts: 0,
            writes: 0,
            compares: [0; SECRETS as usize],
            matches: [0; SECRETS as usize],
        })
    }

    /// The words, with power on or off.
    pub(crate) fn words(&self) -> &[u32]
        ensures { result.now ≡ (ram_facts self.now).words }
    {
        &self.words
    }

    /// Another board with the same words, light and counts.
    ///
    /// # Errors
    /// There is too little memory for the words.
    pub(crate) fn copy(&self, alloc: Global) -> Result<RamBoard, AllocError>
        ensures { IfOk result (λ b. ram_facts b ≡ ram_facts self.now) }
    {
        let mut words = Vec::new(alloc);
        words.extend_from_slice(&self.words)?;
        Ok(RamBoard {
            pages: self.pages,
            words,
            dark: self.dark,
            cuts: self.cuts,
            writes: self.writes,
            compares: self.compares,
            matches: self.matches,
        })
    }

    /// Takes the words, light and counts of another board with as many pages. It asks for no memory.
    pub(crate) fn copy_from(&mut self, other: &RamBoard)
        requires { length (ram_facts self.old).words ≡ length (ram_facts other.now).words }
        ensures { ram_facts self.new ≡ ram_facts other.now }
    {
        self.pages = other.pages;
        self.words.as_mut_slice().copy_from_slice(&other.words);
        self.dark = other.dark;
        self.cuts = other.cuts;
        self.writes = other.writes;
        self.compares = other.compares;
        self.matches = other.matches;
    }

    /// Returns the allocator of the words.
    pub(crate) fn allocator(&self) -> Global {
        *self.words.allocator()
    }

    /// Returns true if power is off.
    pub(crate) fn is_dark(&self) -> bool
        ensures { result ≡ (ram_facts self.now).dark }
    {
        self.dark
    }

    /// Returns true if a count is at its end.
    fn is_worn_out(&self) -> bool
        ensures worn { IsTrue result ↔ IsWornOut (ram_facts self.now) }
        ensures spare { result ≡ false → self.now.cuts < COUNT_END }
    {
        self.cuts == COUNT_END
            || self.writes == COUNT_END
            || has_ended(&self.compares)
            || has_ended(&self.matches)
    }

    /// Loses power in a call.
    pub(crate) fn go_dark(&mut self)
        requires { self.old.dark ≡ false }
        ensures { ram_facts self.new ≡ record (ram_facts self.old) { dark = true; cuts = self.old.cuts + 1 } }
    {
        self.cuts += 1;
        self.dark = true;
    }

    /// Returns true if a count of this comparison is at its end: that of comparisons, or on a match that of matches.
    fn counts_end(&self, secret: usize, equal: bool) -> bool
        requires { secret < SECRETS }
        ensures exact { IsTrue result ↔ ((slice_index self.now.compares secret ≡ COUNT_END)
            ⊎ ((equal ≡ true) × (slice_index self.now.matches secret ≡ COUNT_END))) }
        ensures worn { IsTrue result → IsWorn (ram_facts self.now) }
        ensures spare { result ≡ false → slice_index self.now.compares secret < COUNT_END }
        ensures spare_match { result ≡ false → equal ≡ true → slice_index self.now.matches secret < COUNT_END }
    {
        self.compares[secret] == COUNT_END || equal && self.matches[secret] == COUNT_END
    }

    /// Counts a comparison of a secret, and a match if `equal`.
    fn count(&mut self, secret: usize, equal: bool)
        requires place { secret < SECRETS }
        requires spare { slice_index self.old.compares secret < COUNT_END }
        requires spare_match { equal ≡ true → slice_index self.old.matches secret < COUNT_END }
        ensures { ram_facts self.new ≡ record (ram_facts self.old) {
          compares = raised self.old.compares secret;
          matches = if equal then raised self.old.matches secret else self.old.matches;
        } }
    {
        self.compares[secret] += 1;
        if equal {
            self.matches[secret] += 1;
        }
    }

    /// Writes the words of the run whose mask bit is set.
    pub(crate) fn put_torn(&mut self, page: u16, first: u8, words: &[u32], mask: u16)
        requires page { page < pages_of (ram_facts self.old).words }
        requires run { first + length words.now ≤ PAGE_WORDS }
        ensures torn { IsTornBy mask (ram_facts self.old).words (address page first) words.now
            (ram_facts self.new).words }
        ensures same { ram_facts self.new ≡ record (ram_facts self.old) { words = (ram_facts self.new).words } }
    {
        put_masked(&mut self.words, place(page, first), words, mask);
    }

    /// Tears a write by the mask, and loses power in it.
    pub(crate) fn tear(&mut self, page: u16, first: u8, words: &[u32], mask: u16)
        requires lit { self.old.dark ≡ false }
        requires page { page < pages_of (ram_facts self.old).words }
        requires run { first + length words.now ≤ PAGE_WORDS }
        ensures torn { IsTornBy mask (ram_facts self.old).words (address page first) words.now
            (ram_facts self.new).words }
        ensures same { ram_facts self.new ≡ record (ram_facts self.old)
            { words = (ram_facts self.new).words; dark = true; cuts = self.old.cuts + 1 } }
    {
        self.put_torn(page, first, words, mask);
        self.go_dark();
    }
}

impl Board for RamBoard {
    ghost use Rattle.std.specs.Prelude.{◌≡◌, OnErr};
    ghost use Rattle.nvm_board.specs.BoardCalls.{FitsPage, Writes};
    ghost use Rattle.nvm_board.specs.Facts.{address};
    ghost use Rattle.simulated_boards.specs.Ram.{ram_facts};
    ghost use Rattle.simulated_boards.specs.laws.Counts.{ram_is_board};

    ghost facts = { ram_facts };

    fn pages(&self) -> u16 {
        self.pages
    }

    #[tactic(auto, unfolding(nvm_board::specs::Facts::IsLostRightly))]
    fn read(&mut self, at: u16) -> Result<u32, DeviceErr> {
        if self.dark {
            return Err(DeviceErr::PowerLost);
        }
        Ok(self.words[usize::from(at)])
    }

    #[tactic(auto, unfolding(nvm_board::specs::Facts::IsLostRightly))]
    fn write(&mut self, page: u16, first: u8, words: &[u32]) -> Result<(), DeviceErr>
        requires { FitsPage page first words.now (ram_facts self.old) }
        ensures writes { Writes (address page first) words.now (ram_facts self.old) (ram_facts self.new) result }

        // A write that fails isn't counted.
        ensures uncounted { OnErr result ((ram_facts self.new).writes ≡ (ram_facts self.old).writes) }
    {
        if self.dark {
            return Err(DeviceErr::PowerLost);
        }
        if self.writes == COUNT_END {
            self.go_dark();
            return Err(DeviceErr::PowerLost);
        }
        put_run(self.words.as_mut_slice(), place(page, first), words);
        self.writes += 1;
        Ok(())
    }

    #[tactic(auto, unfolding(nvm_board::specs::Facts::IsLostRightly))]
    fn compare(&mut self, secret: u8, kept: &[u8; 8], shown: &[u8; 8]) -> Result<bool, DeviceErr> {
        if self.dark {
            return Err(DeviceErr::PowerLost);
        }
        let place = usize::from(secret);
        let equal = kept == shown;
        if self.counts_end(place, equal) {
            self.go_dark();
            return Err(DeviceErr::PowerLost);
        }
        self.count(place, equal);
        Ok(equal)
    }

    ghost is_board = { ram_is_board };
}

impl Socket for RamBoard {
    fn light(&mut self) -> Result<(), WornOut> {
        if self.is_worn_out() {
            return Err(WornOut);
        }
        self.dark = false;
        Ok(())
    }

    fn power_off(&mut self) {
        self.dark = true;
    }
}

impl Faultless for RamBoard {
    ghost use Rattle.std.specs.Prelude.{refl};

    ghost faultless = { λ b. record { faults = refl; due = refl } };
}

/// Returns the address of a word.
fn place(page: u16, first: u8) -> usize
    ensures { result ≡ address page first }
{
    usize::from(PAGE_WORDS) * usize::from(page) + usize::from(first)
}

/// Returns true if one of the counts is at its end.
fn has_ended(counts: &[u64]) -> bool
    ensures { IsTrue result ↔ Contains counts.now COUNT_END }
{
    counts.contains(&COUNT_END)
}
