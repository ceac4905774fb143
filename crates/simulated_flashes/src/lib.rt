//! Flashes that are simulated in working memory: one that leaves garbage where it loses power, and one that something
//! outside of it follows, as a file does.
#![tactic(auto)]

mod flash_follower;
mod flash_sizes;
mod garbage;
mod garbling_flash;
mod kept_flash;

pub use flash_follower::{FlashFollower, MOST_FLASH_WORDS};
pub use flash_sizes::{FlashSizes, LargeSectors, SmallSectors, SmallSizes, flash_words};
pub use garbling_flash::{FLASH_PAGES, GarblingFlash};
pub use kept_flash::KeptFlash;
