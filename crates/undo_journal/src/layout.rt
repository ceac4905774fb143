//! The place of the journal in the memory.
use nvm_board::PAGE_WORDS;

/// The page of the gate. Its word 0, the gate, is the number of pairs that count.
pub const GATE_PAGE: u16 = 73;

/// The first page of the journal's pairs.
pub const JOURNAL_PAGE: u16 = 74;

/// The first page after the journal.
pub const JOURNAL_END_PAGE: u16 = 128;

/// The address of the gate.
pub const GATE: u16 = GATE_PAGE * PAGE_WORDS;

/// The address of the first pair. A pair is two words: an address, and the earlier word at that address.
pub const JOURNAL: u16 = JOURNAL_PAGE * PAGE_WORDS;

/// The address of the first word after the journal.
pub const JOURNAL_END: u16 = JOURNAL_END_PAGE * PAGE_WORDS;

/// The number of pairs in the journal.
pub const PAIRS: u16 = (JOURNAL_END - JOURNAL) / 2;
