//! Checks valid card images in plain code: recovery, and the eight rules of docs/MEMORY.md.
//! It uses nothing of the crates that it is compared with.

use std::alloc::{AllocError, Global};

/// The expected result of power-on.
#[derive(Clone, Copy, Debug, PartialEq, Eq)]
pub(crate) enum Start {
    Starts,
    Damaged,
    BadJournal,
}

/// The address of the gate.
pub(crate) const GATE: usize = 1168;

/// The address of the first pair.
const JOURNAL: usize = 1184;

/// Returns the expected result of power-on for these words.
pub(crate) fn start_of(alloc: Global, words: &[u32]) -> Result<Start, AllocError> {
    let gate = word(words, GATE);
    if gate > 432 || !are_pairs(words, gate) {
        return Ok(Start::BadJournal);
    }
    if gate == 0 {
        return Ok(standing(words));
    }
    let mut undone = Vec::new(alloc);
    undone.extend_from_slice(words)?;
    undo(&mut undone);
    Ok(standing(&undone))
}

/// Returns the expected result of power-on for words with an empty journal.
fn standing(words: &[u32]) -> Start {
    if has_header(words) && are_entries(words) && are_chains(words) && are_pins(words) {
        Start::Starts
    } else {
        Start::Damaged
    }
}

/// Returns the word at an address, or 0 past the end.
fn word(words: &[u32], at: usize) -> u32 {
    words.get(at).copied().unwrap_or(0)
}

/// Changes the word at an address, if it exists.
fn put(words: &mut [u32], at: usize, word: u32) {
    if let Some(place) = words.get_mut(at) {
        *place = word;
    }
}

/// Returns the upper and the lower half of a word.
fn halves(word: u32) -> [u16; 2] {
    [(word >> 16) as u16, (word & 0xFFFF) as u16]
}

/// Returns the two words of a pair: address, and former word.
fn pair(words: &[u32], number: u32) -> (u32, u32) {
    let at = JOURNAL + 2 * (number as usize % 432);
    (word(words, at), word(words, at + 1))
}

/// Returns true if each pair names a word outside the journal.
/// Gate and journal are pages 73 to 127.
fn are_pairs(words: &[u32], gate: u32) -> bool {
    for number in 0..gate {
        let (address, _) = pair(words, number);
        if address as usize >= words.len() || 73 <= address / 16 && address / 16 <= 127 {
            return false;
        }
    }
    true
}

/// Restores the former words, and empties the journal.
/// The first of the pairs for one word counts, so it comes last.
fn undo(words: &mut [u32]) {
    let gate = word(words, GATE).min(432);
    for number in (0..gate).rev() {
        let (address, earlier) = pair(words, number);
        put(words, address as usize, earlier);
    }
    put(words, GATE, 0);
}

/// Returns true if the mark is that of format 2.
fn is_new(words: &[u32]) -> bool {
    word(words, 0) == 0x5453_4332
}

/// Returns the page where the blocks end.
/// It is in the header in format 2, and 1,024 in format 1.
fn end_page(words: &[u32]) -> usize {
    if is_new(words) {
        word(words, 3) as usize
    } else {
        1024
    }
}

/// Returns true if the header is valid.
/// It has the mark, the end of the blocks, and the state.
fn has_header(words: &[u32]) -> bool {
    (is_new(words) || word(words, 0) == 0x5453_4331)
        && 1024 <= end_page(words)
        && end_page(words) <= words.len() / 16
        && word(words, 2) <= 1
}

/// Returns true if tries, unblocking tries and marks are valid.
/// There are at most 3 tries and 10 unblocking tries. A mark is 1 (enabled) or 0 (disabled).
fn are_pins(words: &[u32]) -> bool {
    for page in 65..=72 {
        if word(words, 16 * page) > 3 || word(words, 16 * page + 1) > 10 {
            return false;
        }
        if is_new(words) && word(words, 16 * page + 6) > 1 {
            return false;
        }
    }
    true
}

/// Returns a word of an entry. Entry 0 is page 1.
fn entry_word(words: &[u32], entry: usize, place: usize) -> u32 {
    word(words, 16 * (entry % 64 + 1) + place % 16)
}

/// Returns the bytes of a word of an entry.
fn entry_bytes(words: &[u32], entry: usize, place: usize) -> [u8; 4] {
    entry_word(words, entry, place).to_be_bytes()
}

const DEDICATED: u8 = 1;

const TRANSPARENT: u8 = 2;

const LINEAR: u8 = 3;

/// Returns the kind of a file, or 0 for a free entry.
fn kind(words: &[u32], entry: usize) -> u8 {
    entry_bytes(words, entry, 0)[0]
}

/// Returns the identifier.
fn identifier(words: &[u32], entry: usize) -> u16 {
    halves(entry_word(words, entry, 0))[1]
}

/// Returns the entry of the parent.
fn parent(words: &[u32], entry: usize) -> usize {
    usize::from(entry_bytes(words, entry, 1)[0])
}

/// Returns the short identifier, or 0 for none.
fn short_identifier(words: &[u32], entry: usize) -> u8 {
    entry_bytes(words, entry, 1)[1]
}

/// Returns the length of the name in bytes.
fn name_length(words: &[u32], entry: usize) -> u8 {
    entry_bytes(words, entry, 1)[2]
}

/// Returns a byte of a name.
fn name_byte(words: &[u32], entry: usize, at: u8) -> u8 {
    entry_bytes(words, entry, 4 + usize::from(at / 4))[usize::from(at % 4)]
}

/// Returns true if all entries are valid, and 0 the MF.
fn are_entries(words: &[u32]) -> bool {
    let is_master = kind(words, 0) == DEDICATED
        && identifier(words, 0) == 0x3F00
        && parent(words, 0) == 0;
    is_master && (0..64).all(|entry| is_entry(words, entry))
}

/// Returns true if an entry is free, or its file is valid.
/// A valid file has one of the kinds and states, and fits with the files before it.
fn is_entry(words: &[u32], entry: usize) -> bool {
    match entry_bytes(words, entry, 0) {
        [0, ..] => entry_word(words, entry, 0) == 0,
        [1..=4, 0x01 | 0x03 | 0x04 | 0x05 | 0x0C, ..] => {
            is_child(words, entry)
                && has_sizes(words, entry)
                && is_rule(words, entry)
                && (0..entry).all(|earlier| differ(words, earlier, entry))
        }
        _ => false,
    }
}

/// Returns true if an entry is below entry 0, in DFs.
/// It is at most 7 levels below.
/// No other file has the identifier of entry 0 or one of two reserved ones.
fn is_child(words: &[u32], entry: usize) -> bool {
    let mut at = entry;
    for _ in 0..7 {
        if at != 0 && (parent(words, at) >= 64 || kind(words, parent(words, at)) != DEDICATED) {
            return false;
        }
        at = parent(words, at);
    }
    at == 0 && (entry == 0 || !matches!(identifier(words, entry), 0x3F00 | 0x3FFF | 0xFFFF))
}

/// Returns true if short identifier and name have valid sizes.
/// Short identifiers are 0 to 30, and 0 for a dedicated file. Names have up to 16 bytes, and only dedicated files have
/// one.
fn has_sizes(words: &[u32], entry: usize) -> bool {
    let is_dedicated = kind(words, entry) == DEDICATED;
    let most_short = if is_dedicated { 0 } else { 30 };
    let most_name = if is_dedicated { 16 } else { 0 };
    short_identifier(words, entry) <= most_short && name_length(words, entry) <= most_name
}

/// Returns a byte of a rule.
fn rule_byte(words: &[u32], entry: usize, at: u8) -> u8 {
    entry_bytes(words, entry, 2 + usize::from(at / 4))[usize::from(at % 4)]
}

/// Returns true if a rule is valid.
/// It is an access mode byte without bit 8, and a condition for each bit: always, never, or a PIN.
fn is_rule(words: &[u32], entry: usize) -> bool {
    let length = entry_bytes(words, entry, 1)[3];
    let mode = rule_byte(words, entry, 0);
    mode < 0x80
        && u32::from(length) == 1 + mode.count_ones()
        && (1..length).all(|at| is_condition(rule_byte(words, entry, at)))
}

/// Returns true if a byte is a valid condition.
fn is_condition(byte: u8) -> bool {
    matches!(byte, 0x00 | 0xFF | 0x11..=0x18 | 0x91..=0x98)
}

/// Returns true if two files differ in identifiers and names.
/// Children of one file have different identifiers and short identifiers, and all names on the card are different.
fn differ(words: &[u32], one: usize, other: usize) -> bool {
    if kind(words, one) == 0 {
        return true;
    }
    let short = short_identifier(words, one);
    let are_siblings = one != 0 && parent(words, one) == parent(words, other);
    let are_named = name_length(words, one) > 0
        && name_length(words, one) == name_length(words, other);
    let is_named_alike = are_named
        && (0..name_length(words, one)).all(|at| name_byte(words, one, at)
            == name_byte(words, other, at));
    !is_named_alike
        && (!are_siblings
            || identifier(words, one) != identifier(words, other)
                && (short == 0 || short != short_identifier(words, other)))
}

/// The blocks that occur in a chain.
#[derive(Drop)]
struct Blocks {
    taken: [bool; 4096],
    count: usize,
}

/// Returns true if each block is exactly once in a chain.
/// The chains are the free chain and those of files.
fn are_chains(words: &[u32]) -> bool {
    let mut blocks = Blocks {
        taken: [false; 4096],
        count: 0,
    };
    if blocks.takes(words, word(words, 1)).is_none() {
        return false;
    }
    for entry in 0..64 {
        if kind(words, entry) > DEDICATED && !has_body(words, entry, &mut blocks) {
            return false;
        }
    }
    blocks.count == end_page(words).saturating_sub(128)
}

impl Blocks {
    /// Returns the last block of a chain, or 0 for none.
    /// Returns `None` unless the chain ends, and none of its blocks is in another chain.
    fn takes(&mut self, words: &[u32], first: u32) -> Option<u32> {
        let mut last = 0;
        let mut next = first;
        for _ in 0..=3968 {
            if next == 0 {
                return Some(last);
            }
            let taken = self.taken.get_mut(next as usize)?;
            if next < 128 || next as usize >= end_page(words) || *taken {
                return None;
            }
            *taken = true;
            self.count = self.count.saturating_add(1);
            last = next;
            next = word(words, 16 * (next as usize % 4096));
        }
        None
    }
}

/// Returns true if a body's sizes fit its chain.
/// The entry also names the right last block.
fn has_body(words: &[u32], entry: usize, blocks: &mut Blocks) -> bool {
    let [size, record_length] = halves(entry_word(words, entry, 8));
    let [first, last] = halves(entry_word(words, entry, 9));
    let before = blocks.count;
    let end = blocks.takes(words, u32::from(first));
    let has_sizes = if kind(words, entry) == TRANSPARENT {
        size >= 1 && record_length == 0 && entry_word(words, entry, 10) == 0
    } else {
        are_records(words, entry)
    };
    has_sizes
        && size <= 32_767
        && end == Some(u32::from(last))
        && blocks.count.checked_sub(before) == Some(usize::from(size).div_ceil(60))
}

/// Returns true if the size fits 1 to 254 whole records.
/// The number of existing records, and the slot of the first record in the file's ring, are also valid.
fn are_records(words: &[u32], entry: usize) -> bool {
    let [size, length] = halves(entry_word(words, entry, 8));
    let [number, start] = halves(entry_word(words, entry, 10));
    if length == 0 || length > 255 || size % length != 0 {
        return false;
    }
    let capacity = size / length;
    let starts = if kind(words, entry) == LINEAR {
        1
    } else {
        capacity
    };
    1 <= capacity && capacity <= 254 && number <= capacity && start < starts
}
