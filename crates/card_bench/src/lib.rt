//! A desk with reader, line and bench: what the lines of a script do there, and the run of a script, line by line.
#![tactic(auto)]

mod charge;
mod desk;
mod exchange;
pub mod laws;
mod line;
mod line_result;
mod reader_turns;
mod script;
mod script_board;

pub use bench_lines::Order;
pub use bench_turns::{Item, Turn};
pub use card_boards::factory_board;
pub use charge::{ALL_WORDS, cuts_next, may_compare};
pub use desk::Desk;
pub use line::Line;
pub use line_result::LineResult;
pub use reader_turns::{Blocks, Ending, LINE_BLOCKS, Toward, begin, hear, wait};
pub use script::{run, run_card, run_on};
pub use script_board::ScriptBoard;
