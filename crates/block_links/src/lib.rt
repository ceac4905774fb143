//! Links of blocks: they lead from each block of a chain to the next one.
#![tactic(auto)]

mod words;

pub use words::{head, next, read_head, read_link, walk};
