//! The card in a file: the command line that names it, its board for a script, and its board for a sweep.
#![tactic(auto)]

mod flash_file;
mod image_words;
mod kept_file;
mod opening;
mod options;
mod page_count;
mod reading;
mod swept_file;

pub use flash_file::{FlashCardFault, NoFlash, open_flash};
pub use kept_file::{CardBoard, KeptFile};
pub use opening::{CardFault, NoBoard, open_board};
pub use options::{Asked, CardOptions, parse_bench_options};
pub use swept_file::{BoardFault, swept_board};
