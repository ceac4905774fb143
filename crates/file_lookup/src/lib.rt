//! Finds files in a store: by entry, identifier, name, path and short identifier. Also what bars a file, and what its
//! rule allows.
#![tactic(auto)]

mod barring;
mod look_up;
mod naming;
mod reading;

pub use barring::{is_allowed_at, is_barred_at, is_below_barred};
pub use look_up::{find_short, select};
pub use naming::{find_name, find_parent, find_path, find_path_from_master};
pub use reading::{fill_table, find_end, read_entry, read_entry_head};
