//! The commands on PINs. Each call is one step of the card model.
#![tactic(auto)]

mod pins;

pub use pins::{change_reference_data, change_requirement, reset_retry_counter, verify};
