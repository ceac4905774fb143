//! The check of a memory at power-on: its file entries, the table of files, and the blocks of all chains.
#![tactic(auto)]

mod format;
mod rules;
mod table;
mod tree;
mod walk;

pub use tree::survey_tree;
