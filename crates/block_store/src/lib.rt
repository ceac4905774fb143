//! Blocks of a store: calls fill free ones, and move blocks between files and the free chain.
#![tactic(auto)]

mod filling;
mod free;
mod lengthening;

pub use filling::fill;
pub use free::{free_count, give_back, take};
pub use lengthening::link_pages;
