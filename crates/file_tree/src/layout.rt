//! The place of file entries in the memory, and the depth of the tree.

ghost use Rattle.std.specs.Prelude.{◌≡◌, ◌+◌};
ghost use Rattle.nvm_board.specs.Facts.{address};
ghost use Rattle.file_tree.specs.declared.layout.TheConstants.{FIRST_ENTRY_PAGE};

use crate::entry_number::EntryNumber;
use block_chain::BLOCK_BYTES;
pub use card_model::limits::ENTRIES;
use card_model::limits::MOST_BYTES;
use nvm_board::PAGE_WORDS;

/// The page of entry 0, the MF's. Each entry has a page of its own.
pub const FIRST_ENTRY_PAGE: u16 = 1;

/// The number after the last entry's. Entries count from 0.
pub const ENTRIES_END: u8 = ENTRIES as u8;

/// The number of words of an entry.
pub const ENTRY_WORDS: usize = 11;

/// The word of an entry for its records. It has their number and the slot of record 1.
pub const RECORDS_WORD: u16 = 10;

/// The greatest number of steps from a file up to the MF. The MF is on level 1, so the deepest level is 8.
pub const DEEPEST: u8 = 7;

/// The greatest number of sets of a deletion. It sets one word per freed entry, the link of each chain given back,
/// and the header's word for the first free block.
pub(crate) const DELETE_SETS: u16 = ENTRIES + ENTRIES + 1;

/// The greatest number of device writes of a deletion. It is the bound of a transaction of these sets, each in a run
/// of its own.
pub const DELETE_WRITES: u16 = 3 * ((DELETE_SETS + 7) / 8) + DELETE_SETS;

/// The greatest number of blocks of a file.
pub const MOST_FILE_BLOCKS: u16 = (MOST_BYTES + BLOCK_BYTES - 1) / BLOCK_BYTES;

/// The number of sets of a creation. It sets the entry, the last block's link, and the header's word for the first
/// free block.
pub(crate) const CREATE_SETS: u16 = ENTRY_WORDS as u16 + 2;

/// The greatest number of device writes of a creation. It is one per filled block, and the bound of a transaction of
/// these sets in three runs.
pub const CREATE_WRITES: u16 = MOST_FILE_BLOCKS + 3 * ((CREATE_SETS + 7) / 8) + 3;

/// The header's word for the mark of the format.
pub const MARK_WORD: u16 = 0;

/// The mark of format 2: "TSC2".
pub const MARK: u32 = 0x5453_4332;

/// The mark of format 1: "TSC1".
pub const OLD_MARK: u32 = 0x5453_4331;

/// The header's word for the end page of the blocks (format 2).
pub const PAGES_WORD: u16 = 3;

/// The page where the blocks of format 1 end.
pub const OLD_END_PAGE: u16 = 1024;

/// The header's word for the card's state: 0 in use, 1 terminated.
pub const STATE_WORD: u16 = 2;

/// The state of a card after TERMINATE CARD USAGE.
pub const CARD_TERMINATED: u32 = 1;

/// Returns the address of the first word of an entry.
pub fn entry_address(e: EntryNumber) -> u16
    ensures { result ≡ address (FIRST_ENTRY_PAGE + e) 0 }
{
    PAGE_WORDS * (FIRST_ENTRY_PAGE + u16::from(e.get()))
}
