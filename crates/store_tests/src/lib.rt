//! Tests of boards and of the store, with words worked out by hand, after a cut at each write.
//! The fixtures are public, for the tests of the layers above.
#![tactic(auto)]

#[cfg(test)]
mod batches;
#[cfg(test)]
mod boards;
#[cfg(test)]
mod endings;
pub mod fixtures;
#[cfg(test)]
mod journal;
