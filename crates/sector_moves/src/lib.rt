//! The moves of a flash whose sectors are small. A step of a move erases one sector of the other area, and copies pages
//! to it. So it can be taken again, however often power is lost: what a flash shows says how far its move has come.
#![tactic(auto)]

mod filling;
mod finding;
mod layout;
mod pace;
mod progress;
mod sector_flash;
mod steps;

pub use finding::{area_again, find_pages, find_place};
pub use pace::steps_left;
pub use sector_flash::SectorFlash;
pub use steps::take_step;
