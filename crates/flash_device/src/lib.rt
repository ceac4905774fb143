//! A flash: what its calls promise, also where power is lost in them, and where its slots, records and marks lie.
#![tactic(auto)]

mod cut_flash;
mod erasing;
mod flash;
mod followed_flash;
mod layout;
mod page_table;

pub use cut_flash::CutFlash;
pub use erasing::{erase_area, erase_flash, erase_witness};
pub use flash::{BLANK, BLOCKS, Flash, FlashSocket};
pub use followed_flash::FollowedFlash;
pub use layout::{
    FIRST_MARK, NUMBER_PLACE, RECORD_WORDS, SECOND_MARK, SLOT_WORDS, SPARES, STEP_PAGES,
    UNUSED_PLACE, close_at, copy_steps, flash_words, slot_at,
};
pub use page_table::{PageSlots, PageTable};
