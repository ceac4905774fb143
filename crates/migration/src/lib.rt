//! The migration of a memory from format 1 to format 2.
#![tactic(auto)]

pub mod laws;
mod migrating;

pub use migrating::migrate;
