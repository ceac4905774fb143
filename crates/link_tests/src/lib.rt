//! Tests of the bytes between reader and card: blocks of T=1 of every length and kind to both ends, commands, access
//! rules, and texts of file control parameters.
//! The fixtures are public, for the tests of the layers above.
#![tactic(auto)]

#[cfg(test)]
mod blocks;
#[cfg(test)]
mod commands;
pub mod fixtures;
#[cfg(test)]
mod link;
#[cfg(test)]
mod rules;
#[cfg(test)]
mod templates;
