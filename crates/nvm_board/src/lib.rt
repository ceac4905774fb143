//! The memory of a card as a device: words in pages, whose writes are torn if power fails, and a comparer of secrets
//! that counts. The calls of a board, and what each leaves of words, power and counts.
#![tactic(auto)]

mod board;
pub mod laws;

pub use board::{
    Arm, Armed, Board, COUNT_END, DeviceErr, Faultless, LEAST_PAGES, MOST_PAGES, PAGE_WORDS,
    SECRETS, Socket, WornOut, has_no_fault,
};
