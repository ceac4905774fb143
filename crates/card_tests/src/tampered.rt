//! Memories with one changed word: power-on fails or succeeds as the rules say (`standing`).

use crate::fixtures::formatted;
use crate::standing::{Start, start_of};
use card_core::Card;
use card_start::StartFault;
use nvm_board::Board;
use simulated_boards::CutBoard;
use std::alloc::Global;
use std::process::Abort;
use std::test::Fail;
use store_tests::fixtures::with_words;

// The files in addition to the factory's: a named directory with a transparent file of three blocks, a linear file and
// a directory, which is in the last entry; and a deactivated cyclic file.
const FILES: &[(u16, u32)] = &[
    (1, 135),
    // DF 7F10, in the master file.
    (48, 0x0105_7F10),
    (49, 0x0000_0504),
    (50, 0x0700_0000),
    (52, 0xA000_0000),
    (53, 0x0100_0000),
    // Transparent EF 6F01 of 130 bytes, in the blocks 129, 131, 130.
    (64, 0x0205_6F01),
    (65, 0x0201_0003),
    (66, 0x0300_0000),
    (72, 0x0082_0000),
    (73, 0x0081_0082),
    (2064, 131),
    (2096, 130),
    (2080, 0),
    // Linear EF 6F02 of three records of 20 bytes, with space for four.
    (80, 0x0305_6F02),
    (81, 0x0202_0004),
    (82, 0x0700_0000),
    (88, 0x0050_0014),
    (89, 0x0084_0085),
    (90, 0x0003_0000),
    (2128, 0),
    // Cyclic EF 6F03 of two records of three bytes, with space for three, in the master file.
    (112, 0x0404_6F03),
    (113, 0x0003_0003),
    (114, 0x0300_0000),
    (120, 0x0009_0003),
    (121, 0x0086_0086),
    (122, 0x0002_0001),
    (2144, 0),
    // DF 5F01.
    (1024, 0x0101_5F01),
    (1025, 0x0200_0004),
    (1026, 0x0700_0000),
];

/// A range of pages, and how many words of each change.
/// These are all that power-on reads.
#[derive(Clone, Copy)]
struct Part {
    first: u16,
    last: u16,
    words: u16,
}

const HEADER: Part = Part {
    first: 0,
    last: 0,
    words: 4,
};

const ENTRIES: Part = Part {
    first: 1,
    last: 64,
    words: 11,
};

const PINS: Part = Part {
    first: 65,
    last: 72,
    words: 7,
};

const GATE: Part = Part {
    first: 73,
    last: 73,
    words: 1,
};

const JOURNAL: Part = Part {
    first: 74,
    last: 127,
    words: 0,
};

const LINKS: Part = Part {
    first: 128,
    last: 1023,
    words: 1,
};

// The numbers of power-ons that succeed, are Damaged, and are BadJournal, after changes of one word of a part.
// The word is 0, or has all bits set or one bit inverted. The numbers are for the factory image, and for one with a
// file of each kind.
const CHANGED: &[(Part, [u32; 3], [u32; 3])] = &[
    (HEADER, [2, 134, 0], [2, 134, 0]),
    (ENTRIES, [21_625, 2_311, 0], [21_123, 2_813, 0]),
    (PINS, [1_152, 752, 0], [1_152, 752, 0]),
    (GATE, [1, 9, 24], [1, 9, 24]),
    (LINKS, [2, 30_462, 0], [5, 30_459, 0]),
];

/// A memory: a board, and its words.
#[derive(Drop)]
struct Memory {
    board: CutBoard,
    words: Vec<u32>,
}

/// Returns the address of a word.
fn address(page: u16, place: u16) -> u16 {
    page.saturating_mul(16).saturating_add(place)
}

/// Returns a word after one of 34 changes.
/// One bit is inverted, or all are clear, or all set.
fn changed(word: u32, change: u32) -> u32 {
    match change {
        32 => 0x0000_0000,
        33 => 0xFFFF_FFFF,
        bit => word ^ 1u32.checked_shl(bit).unwrap_or(0),
    }
}

/// Counts a power-on by its result.
fn count(counts: &mut [u32; 3], start: Start) {
    match start {
        Start::Starts => counts[0] = counts[0].saturating_add(1),
        Start::Damaged => counts[1] = counts[1].saturating_add(1),
        Start::BadJournal => counts[2] = counts[2].saturating_add(1),
    }
}

/// Returns the result of power-on. It is `None` without power, or at a fault.
fn outcome_of(board: CutBoard) -> Option<Start> {
    match Card::start(board) {
        Ok(_) => Some(Start::Starts),
        Err((_, StartFault::Damaged)) => Some(Start::Damaged),
        Err((_, StartFault::BadJournal)) => Some(Start::BadJournal),
        Err(_) => None,
    }
}

impl Memory {
    /// Returns the factory image with some words changed.
    fn new(alloc: Global, changes: &[(u16, u32)]) -> Result<Memory, Fail> {
        let mut board = with_words(formatted(CutBoard::new(alloc)?)?, changes)?;
        let mut words = Vec::new(alloc);
        for at in 0..16_384 {
            words.push(board.read(at)?)?;
        }
        Ok(Memory { board, words })
    }

    /// Returns the word at an address.
    fn word(&self, at: u16) -> u32 {
        self.words.get(usize::from(at)).copied().unwrap_or(0)
    }

    /// Changes the word at an address. If the board doesn't take it, the results of power-on differ.
    fn put(&mut self, at: u16, word: u32) {
        if at / 16 < self.board.pages() {
            let _ = self.board.write(at / 16, (at % 16) as u8, &[word]);
        }
        if let Some(changed) = self.words.get_mut(usize::from(at)) {
            *changed = word;
        }
    }

    /// Returns the result of power-on, after a check by the rules.
    /// The word at this address was changed last. Recovery writes, so the card boots on a copy.
    fn start<R: Abort + AllocGlobal>(&self, rt: &R, at: u16) -> Result<Start, Fail> {
        let wanted = start_of(rt.alloc(), &self.words)?;
        let start = outcome_of(self.board.copy(rt.alloc())?);
        assert!(rt; start == Some(wanted), "after a change at {at}: {start:?}");
        Ok(wanted)
    }

    /// Counts the results of power-on for changes of a word.
    /// It is 0, or has all bits set, or one bit inverted.
    fn change_word<R: Abort + AllocGlobal>(
        &mut self,
        rt: &R,
        at: u16,
        counts: &mut [u32; 3],
    ) -> Result<(), Fail> {
        let word = self.word(at);
        for change in 0..34 {
            self.put(at, changed(word, change));
            count(counts, self.start(rt, at)?);
        }
        self.put(at, word);
        Ok(())
    }

    /// Counts the results for all words of a part that power-on reads.
    fn change_part<R: Abort + AllocGlobal>(
        &mut self,
        rt: &R,
        part: &Part,
    ) -> Result<[u32; 3], Fail> {
        let mut counts = [0; 3];
        for page in part.first..=part.last {
            for place in 0..part.words {
                self.change_word(rt, address(page, place), &mut counts)?;
            }
        }
        Ok(counts)
    }

    /// Returns the words of a page.
    fn page(&self, page: u16) -> [u32; 16] {
        let mut words = [0; 16];
        for place in 0..16u8 {
            words[usize::from(place % 16)] = self.word(address(page, u16::from(place)));
        }
        words
    }

    /// Changes the words of a page from this place on.
    fn fill(&mut self, page: u16, first: u16, words: &[u32; 16]) {
        for place in 0..16u16 {
            if first <= place {
                self.put(address(page, place), words[usize::from(place % 16)]);
            }
        }
    }

    /// Checks that power-on ignores the other words of a part's pages.
    /// They are all 0, or have all bits set.
    fn change_others<R: Abort + AllocGlobal>(&mut self, rt: &R, part: &Part) -> Result<(), Fail> {
        for page in part.first..=part.last {
            let kept = self.page(page);
            for others in [[0x0000_0000; 16], [0xFFFF_FFFF; 16]] {
                self.fill(page, part.words, &others);
                let start = self.start(rt, address(page, part.words))?;
                assert!(rt; start == Start::Starts, "in page {page}");
            }
            self.fill(page, part.words, &kept);
        }
        Ok(())
    }
}

#[test]
fn changed_words_of_the_factory_memory(rt: HostRuntime) -> Result<(), Fail> {
    let mut memory = Memory::new(rt.alloc(), &[])?;
    for (part, wanted, _) in CHANGED {
        let counts = memory.change_part(&rt, part)?;
        assert!(rt; counts == *wanted, "in page {}: {counts:?}", part.first);
    }
    Ok(())
}

#[test]
fn changed_words_of_a_card_with_files(rt: HostRuntime) -> Result<(), Fail> {
    let mut memory = Memory::new(rt.alloc(), FILES)?;
    for (part, _, wanted) in CHANGED {
        let counts = memory.change_part(&rt, part)?;
        assert!(rt; counts == *wanted, "in page {}: {counts:?}", part.first);
    }
    Ok(())
}

#[test]
fn words_that_are_not_looked_at(rt: HostRuntime) -> Result<(), Fail> {
    for changes in [&[], FILES] {
        let mut memory = Memory::new(rt.alloc(), changes)?;
        for part in [HEADER, ENTRIES, PINS, GATE, JOURNAL, LINKS] {
            memory.change_others(&rt, &part)?;
        }
    }
    Ok(())
}
