//! A board on a flash. Each write of the board is whole or not begun, since that of its log is.
#![tactic(auto)]

mod flash_board;

pub use flash_board::{FlashBoard, are_equal, has_ended};
