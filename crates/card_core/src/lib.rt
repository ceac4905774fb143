//! The card: power-on and commands.
#![tactic(auto)]

mod card;
mod card_parts;
mod commands;
pub mod laws;
mod paused;

pub use apdu_core::Answer;
pub use card::Card;
pub use file_tree::FreeSpace;
pub use paused::Paused;
