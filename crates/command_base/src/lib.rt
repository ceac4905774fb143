//! What the commands have in common: the session, the rule of a file, the named file, and the length of an answer.
//! The definitions say which memories are valid card images, and what a command may change and cost.
#![tactic(auto)]

mod access;
mod current;
mod lengths;
mod spending;
mod stop;
mod target_file;

pub use access::allows;
pub use current::{Current, Shown};
pub use lengths::{ResponseData, asks_less, give, right_length};
pub use spending::COMMAND_WRITES;
pub use stop::{Stop, reply};
pub use target_file::{AcceptedStructure, Findings, Need, TargetFile, find_file};
