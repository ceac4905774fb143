//! The commands on contents: READ and UPDATE BINARY; READ, UPDATE, APPEND and SEARCH RECORD, and INCREASE.
#![tactic(auto)]

mod binary;
mod increasing;
mod record_file;
mod records;

pub use binary::{read_binary, update_binary};
pub use increasing::increase;
pub use records::{append_record, read_record, search_record, update_record};
