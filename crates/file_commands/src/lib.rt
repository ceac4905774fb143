//! The commands that create and delete files, and those that change life cycles (ISO/IEC 7816-9).
#![tactic(auto)]

mod files;
mod life_cycles;

pub use files::{create_file, delete_file};
pub use life_cycles::{change_life_cycle, terminate_card_usage};
