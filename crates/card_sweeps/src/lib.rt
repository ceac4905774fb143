//! Sweeps: what their command line and script ask for, and what a sweep tries and counts.
#![tactic(auto)]

mod cut_masks;
mod fault;
mod frames;
pub mod laws;
mod options;
mod parts;
mod script;
mod steps;
mod stop;
mod sweepable;
mod sweeping;
mod tally;
mod turn_cuts;
mod whole_sweep;
mod written_runs;

pub use cut_masks::{mask_at, mask_count, words_to_try};
pub use fault::{LineError, SweepFault};
pub use options::{Options, parse_sweep_options};
pub use parts::SweepPart;
pub use script::{SweepScript, read_script};
pub use steps::{OwnBlock, Step, turns_of};
pub use stop::SweepStop;
pub use sweepable::Sweepable;
pub use sweeping::play_copy;
pub use tally::{Seen, Sweep, SweepEnd, Trace};
pub use turn_cuts::{MadeWrite, TurnRuns, made_write, masked_cut};
pub use whole_sweep::{sweep, sweep_behind};
pub use written_runs::{first_change, is_same};
