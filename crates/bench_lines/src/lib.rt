//! The lines of a script: what is read, parsed and printed, and the faults that end it. It depends on no card and no
//! bench.
#![tactic(auto)]

mod fault;
pub mod laws;
mod order;
mod printing;
mod reading;

pub use fault::RunFault;
pub use order::{BLOCK_LIMIT, COMMAND_LIMIT, GivenBytes, Order};
pub use printing::{ATR, NO_TEXT, PrintedText, print_bytes, print_free, write_line};
pub use reading::{LineBytes, LineEnd, LineFault, SCRIPT_LIMIT, read_line};
