//! Calls from outside a script, on a card or on a reader's end: their sizes and outcomes, and the device that has each
//! write of a card's board.
#![tactic(auto)]

mod announced;
mod boards;
mod copied;
mod device;
mod laws;
mod of_bytes;
mod outcome;
mod reader_calls;
mod second_log;
mod sizes;
mod write;
mod write_log;

pub use announced::{Announced, forget, stored_after};
pub use boards::{board_from_words, check_words, factory_of};
pub use copied::copy_write;
pub use device::{
    DeviceBoard, TWIN_WRITES, followed, has_device, is_stored, next_write, renewed, twin_board,
    unfollowed,
};
pub use laws::other_orders_compare_nothing;
pub use of_bytes::is_of_bytes;
pub use outcome::{CallOutcome, OrderResult, bit, copy, copy_if_fits};
pub use reader_calls::{begin, receive};
pub use second_log::first_write;
pub use sizes::{ROOM, block_fits, command_fits, order_fits};
pub use write::{WRITE_BYTES, Write};
pub use write_log::{LOG_WRITES, NextWrite, WriteLog};
