//! The file tree of a card, as a table of file entries and chains of blocks: entries, the index, and the laws of the
//! tree. Code here reads no store: `file_lookup` finds files, and `tree_check` checks the tree at power-on.
#![tactic(auto)]

mod entry;
mod entry_number;
mod index;
pub mod index_laws;
mod kinds;
pub mod laws;
mod layout;
mod parents;
mod space;
mod steps;

pub use card_model::FreeSpace;
pub use entry::{Entry, EntryHead, ExtentList, TABLE_ROOM, Table};
pub use entry_number::EntryNumber;
pub use index::{Index, Reached};
pub use kinds::EntryKind;
pub use layout::{
    CARD_TERMINATED, CREATE_WRITES, DEEPEST, DELETE_WRITES, ENTRIES, ENTRIES_END, ENTRY_WORDS,
    FIRST_ENTRY_PAGE, MARK, MARK_WORD, MOST_FILE_BLOCKS, OLD_END_PAGE, OLD_MARK, PAGES_WORD,
    RECORDS_WORD, STATE_WORD, entry_address,
};
pub use parents::is_within;
pub use space::blocks_for;
pub use steps::Steps;
