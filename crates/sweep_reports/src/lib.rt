//! The report of a sweep: what a script's command does to the card at each cut.
#![tactic(auto)]

mod device_writes;
mod lines;
mod plan;
mod reporting;

pub use reporting::report;
