//! One area of the log of a flash: records in slots, the scan that finds the pages, their copies, and how far a move
//! has come.
#![tactic(auto)]

mod image;
mod move_progress;
mod moving;
mod record;
mod scanning;
mod two_areas;

pub use image::{overlay, read_page_word, record_of};
pub use move_progress::{Progress, find_progress, older_page};
pub use moving::{copy_pages, put_in_spare};
pub use record::{Record, close, is_blank, is_closed, program_record};
pub use scanning::{scan, scan_slot};
pub use two_areas::{first_sector_of_spare, home, spare};
