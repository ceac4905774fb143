//! The moves of a flash from one area to the other: whose turn it is, where the pages are, and the steps of a move, one
//! at each write. A record that is written and a page that is copied go to a free slot.
#![tactic(auto)]

mod ahead;
mod place;
mod turns;
mod writing;

pub use ahead::{TRIES, lead, move_steps, pass_on, pass_turn, take_step};
pub use place::PageMap;
pub use turns::{find_turn, format_flash, has_ring, move_to_a, move_to_b, pass_witness};
pub use writing::{copy_older, write_run};
