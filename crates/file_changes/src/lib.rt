//! Changes of the file tree: creation and deletion of files, and their life cycles.
#![tactic(auto)]

mod creating;
mod deleting;
mod life_cycles;
mod placing;
mod refusing;
mod writing;

pub use creating::{Creation, create};
pub use deleting::delete;
pub use life_cycles::{next_life_cycle, set_life_cycle, terminate_card};
