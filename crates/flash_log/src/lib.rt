//! The log of a flash. It stands for the words of a board, and each run that is written is whole or not begun,
//! whatever a power loss leaves in the words that the flash was programming, or in the block that it was erasing.
#![tactic(auto)]

mod flash_log;
mod kept;
mod renewal;
mod steps;
mod tries;

pub use flash_log::{FlashFault, FlashLog};
pub use renewal::leave_area;
