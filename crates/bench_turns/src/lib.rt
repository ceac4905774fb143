//! Turns at a bench: power-ons, power-offs and blocks, what each leaves, runs of them, and the guess law.
#![tactic(auto)]

pub mod laws;
mod turn;
mod turn_player;
mod turn_result;
mod twinned;

pub use turn::{Item, Turn};
pub use turn_player::TurnPlayer;
pub use turn_result::TurnResult;
pub use twinned::Twinned;
