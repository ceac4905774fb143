//! A transactional store on a board, with an undo journal. After power loss or a fault, recovery restores the
//! committed words: the journal has the earlier word of each one that an open transaction changed.
#![tactic(auto)]

mod address;
mod batch;
mod error;
mod journal;
pub mod laws;
mod layout;
mod store;
mod txn;
mod wiping;

pub use batch::{BATCH, Waiting};
pub use error::{OpenFault, StoreErr};
pub use layout::{GATE, JOURNAL_END};
pub use nvm_board::{Armed, Board, DeviceErr, Faultless, PAGE_WORDS};
pub use store::Store;
pub use txn::Txn;
pub use wiping::{clear_pairs, names_pages, wipe_pairs};
