//! Templates of file control parameters, as in CREATE FILE and the answer of SELECT.
#![tactic(auto)]

mod descriptor;
pub mod laws;
mod object;
mod reading;
mod tag;
mod writing;

pub use reading::parse;
pub use writing::write;
